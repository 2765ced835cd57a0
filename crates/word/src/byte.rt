ghost use Rattle.word.specs.Bytes.{IsKind};

/// What a byte is to the reader of a sheet.
#[derive(Clone, Copy, Debug, PartialEq, Eq)]
pub enum Kind {
    /// `;`, between two words
    Separator,
    /// the end of a line
    LineFeed,
    /// `0` to `9`, with its value
    Digit(u8),
    /// `.`, which is no part of a number
    Point,
    /// any other byte
    Other,
}

/// The kind of a byte.
impl From<u8> for Kind {
    ghost from_gives = { IsKind };

    fn from(byte: u8) -> Kind {
        match byte {
            b';' => Kind::Separator,
            b'\n' => Kind::LineFeed,
            b'0'..=b'9' => Kind::Digit(byte - b'0'),
            b'.' => Kind::Point,
            _ => Kind::Other,
        }
    }
}
