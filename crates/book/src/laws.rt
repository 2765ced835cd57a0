ghost use Rattle.book.specs.History.{EveryHistoryIsRight};

/// In every history of a book, which begins with a granted opening and whose further calls are withdraw, give back, strike and annul,
/// in any order, granted or refused, each call is granted or refused as the table of causes and its order say.
pub fn every_history_is_right() -> u8
    ensures { EveryHistoryIsRight }
{
    0
}
