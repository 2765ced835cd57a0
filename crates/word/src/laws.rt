ghost use Rattle.word.specs.Laws.{OneSpelling};

/// A number has one spelling: two words that spell the same number are the same word.
pub fn a_number_has_one_spelling() -> u8
    ensures { OneSpelling }
{
    0
}
