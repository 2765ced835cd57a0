ghost use Rattle.text.specs.Laws.{WordsAreJoined, LinesAreEnded, OneSheet};

/// The words of a line are the one way to write it as words joined by separators.
pub fn words_are_joined() -> u8
    ensures { WordsAreJoined }
{
    0
}

/// A text of some lines, with the last line feed or without, has these lines.
pub fn lines_are_ended() -> u8
    ensures { LinesAreEnded }
{
    0
}

/// A text spells at most one sheet.
pub fn one_sheet() -> u8
    ensures { OneSheet }
{
    0
}
