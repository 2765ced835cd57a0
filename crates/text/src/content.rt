ghost use Rattle.std.specs.Prelude.{◌≡◌, ◌≤◌, length};

use word::fault::{Cause, Fault};

/// The bytes of a line that is read word by word, and the line's number, counted from 1.
#[derive(Clone, Copy)]
pub(crate) struct Content<'a> {
    pub(crate) bytes: &'a [u8],
    pub(crate) number: u32,
    ghost short: { length bytes.now ≤ 65536 },
}

impl Content<'_> {
    /// A fault of this line.
    pub(crate) fn fault(&self, cause: Cause, column: u32) -> Fault
        ensures { (result.cause ≡ cause) × (result.line ≡ self.now.number) × (result.column ≡ column) }
    {
        cause.at(self.number, column)
    }
}
