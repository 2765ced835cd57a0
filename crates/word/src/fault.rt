ghost use Rattle.std.specs.Prelude.{◌≡◌, Some};
ghost use Rattle.word.specs.declared.fault.Cause.TheVariants.{InWord, InLine, InTable, InBook};
ghost use Rattle.word.specs.Faults.{number_of, layer_of, spelled, fault_text};

use network::refusal::RowRefusal;
use std::fmt;

/// What can be wrong with one word.
#[derive(Clone, Copy, Debug, PartialEq, Eq)]
pub enum WordFault {
    /// it has no byte
    Empty,
    /// it should spell a number, and does not
    NotANumber,
    /// it spells a number above 4,294,967,295
    TooLarge,
    /// it should be `in` or `off`
    BadState,
}

/// What can be wrong with a line as a whole.
#[derive(Clone, Copy, Debug, PartialEq, Eq)]
pub enum LineFault {
    /// it has more words, or fewer, than the table has columns
    WordCount,
    /// a word is no name of the table's, or stands in the line before
    BadName,
}

/// What can be wrong with the lines of a table.
#[derive(Clone, Copy, Debug, PartialEq, Eq)]
pub enum TableFault {
    /// an empty line, or the end of the text, where another line is due
    LineDue,
    /// one line of values too many
    TooManyLines,
}

/// What the book refuses in a sheet that is well written.
#[derive(Clone, Copy, Debug, PartialEq, Eq)]
pub enum BookFault {
    /// there are no stations, or more than 512
    Stations,
    /// a row describes no link
    Row(RowRefusal),
}

/// Why a sheet is refused.
#[derive(Clone, Copy, Debug, PartialEq, Eq)]
pub enum Cause {
    InWord(WordFault),
    InLine(LineFault),
    InTable(TableFault),
    /// the text has more than 65,536 bytes
    TextTooLong,
    InBook(BookFault),
}

/// The layer that found a fault.
#[derive(Clone, Copy, Debug, PartialEq, Eq)]
pub enum Layer {
    Word,
    Line,
    Table,
    Text,
    Book,
}

/// A fault, with its line and column, both counted from 1; a text that is too long has line 0 and column 0.
#[derive(Clone, Copy, Debug, PartialEq, Eq)]
pub struct Fault {
    pub cause: Cause,
    pub line: u32,
    pub column: u32,
}

impl From<WordFault> for Cause {
    ghost from_gives = { λ fault cause. cause ≡ InWord fault };

    fn from(fault: WordFault) -> Cause {
        Cause::InWord(fault)
    }
}

impl From<LineFault> for Cause {
    ghost from_gives = { λ fault cause. cause ≡ InLine fault };

    fn from(fault: LineFault) -> Cause {
        Cause::InLine(fault)
    }
}

impl From<TableFault> for Cause {
    ghost from_gives = { λ fault cause. cause ≡ InTable fault };

    fn from(fault: TableFault) -> Cause {
        Cause::InTable(fault)
    }
}

impl From<BookFault> for Cause {
    ghost from_gives = { λ fault cause. cause ≡ InBook fault };

    fn from(fault: BookFault) -> Cause {
        Cause::InBook(fault)
    }
}

impl Cause {
    /// The fault that has this cause at a line and a column.
    pub fn at(self, line: u32, column: u32) -> Fault
        ensures { (result.cause ≡ self) × (result.line ≡ line) × (result.column ≡ column) }
    {
        Fault {
            cause: self,
            line,
            column,
        }
    }

    /// The number that stands for the cause.
    // Kept: the numbers of the table are no discriminants that `as` could read, since a cause carries data.
    pub fn number(self) -> u8
        ensures { result ≡ number_of self }
    {
        match self {
            Cause::InWord(WordFault::Empty) => 21,
            Cause::InWord(WordFault::NotANumber) => 22,
            Cause::InWord(WordFault::TooLarge) => 23,
            Cause::InWord(WordFault::BadState) => 24,
            Cause::InLine(LineFault::WordCount) => 25,
            Cause::InLine(LineFault::BadName) => 26,
            Cause::InTable(TableFault::LineDue) => 27,
            Cause::InTable(TableFault::TooManyLines) => 28,
            Cause::TextTooLong => 29,
            Cause::InBook(BookFault::Stations) => 1,
            Cause::InBook(BookFault::Row(refusal)) => refusal.number(),
        }
    }

    /// The layer that finds it.
    pub fn layer(self) -> Layer
        ensures { result ≡ layer_of self }
    {
        match self {
            Cause::InWord(_) => Layer::Word,
            Cause::InLine(_) => Layer::Line,
            Cause::InTable(_) => Layer::Table,
            Cause::TextTooLong => Layer::Text,
            Cause::InBook(_) => Layer::Book,
        }
    }
}

impl Layer {
    /// How a layer is spelled.
    // Kept: this spelling is a public promise of its own, which `Display` writes.
    pub fn spelling(self) -> &'static str
        ensures { result.now ≡ spelled self }
    {
        match self {
            Layer::Word => "word",
            Layer::Line => "line",
            Layer::Table => "table",
            Layer::Text => "text",
            Layer::Book => "book",
        }
    }
}

impl fmt::Display for Layer {
    ghost output = { λ layer. Some (spelled layer) };

    fn fmt<W: fmt::Write>(&self, f: &mut fmt::Formatter<W>) -> fmt::Result {
        f.write_str(self.spelling())
    }
}

/// A fault is written as the number and the layer of its cause, its line and its column, with `;` between them.
impl fmt::Display for Fault {
    ghost output = { λ fault. Some (fault_text fault) };

    fn fmt<W: fmt::Write>(&self, f: &mut fmt::Formatter<W>) -> fmt::Result {
        let Fault {
            cause,
            line,
            column,
        } = *self;
        write!(f, "{};{};{line};{column}", cause.number(), cause.layer())
    }
}
