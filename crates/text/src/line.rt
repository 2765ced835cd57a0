ghost use Rattle.text.specs.Lines.{LineIs};

/// A line of a sheet. Each case borrows the line's bytes and has the line's number and the column of its first byte, both
/// counted from 1.
// Kept: three cases, each with its bytes, its line and its column, are the form that is prescribed for a line.
#[derive(Clone, Copy, Debug, PartialEq, Eq)]
pub enum Line<'a> {
    /// the names of a table's columns
    Names {
        bytes: &'a [u8],
        line: u32,
        column: u32,
    },
    /// values under those names
    Values {
        bytes: &'a [u8],
        line: u32,
        column: u32,
    },
    /// an empty line, which stands between two tables
    Divider {
        bytes: &'a [u8],
        line: u32,
        column: u32,
    },
}

/// What a line that is not empty is read as: its place in the sheet decides, never its content.
#[derive(Clone, Copy, Debug, PartialEq, Eq)]
pub enum Role {
    AsNames,
    AsValues,
}

impl<'a> Line<'a> {
    /// The line with these bytes and this number, in its role.
    pub(crate) fn new(bytes: &'a [u8], line: u32, role: Role) -> Line<'a>
        ensures { LineIs bytes.now line role result }
    {
        let column = 1;
        if bytes.is_empty() {
            return Line::Divider {
                bytes,
                line,
                column,
            };
        }
        match role {
            Role::AsNames => Line::Names {
                bytes,
                line,
                column,
            },
            Role::AsValues => Line::Values {
                bytes,
                line,
                column,
            },
        }
    }
}
