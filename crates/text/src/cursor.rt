ghost use Rattle.std.specs.Prelude.{◌≤◌, length};
ghost use Rattle.text.specs.Split.{LineAt};

use super::line::{Line, Role};
use super::source::Source;
use super::split::{Stop, piece_end};

/// How far a sheet has been read: where its next line begins, and how many lines lie before that.
#[derive(Clone, Copy)]
pub(crate) struct Cursor<'a> {
    pub(crate) source: Source<'a>,
    pub(crate) start: usize,
    pub(crate) line: u32,
    ghost at: { LineAt source.bytes.now line start },
}

impl<'a> Cursor<'a> {
    ghost use Rattle.std.specs.Prelude.{◌≡◌};
    ghost use Rattle.text.specs.Lines.{NextLine};

    /// Before the first line.
    pub(crate) fn new(source: Source<'a>) -> Cursor<'a>
        ensures { (result.source ≡ source.entry) × (result.line ≡ 0) }
    {
        Cursor {
            source,
            start: 0,
            line: 0,
        }
    }

    /// The next line of the text, which the cursor then lies behind; none at the text's end.
    pub(crate) fn next_line(&mut self, role: Role) -> Option<Line<'a>>
        ensures { NextLine role self.old self.new result }
    {
        let text = self.source.bytes;
        if self.start >= text.len() {
            return None;
        }
        let end = piece_end(text, self.start, Stop::AtLineFeed);
        let bytes = &text[self.start..end];
        *self = Cursor {
            source: self.source,
            start: (end + 1).min(text.len()),
            line: self.line + 1,
        };
        Some(Line::new(bytes, self.line, role))
    }
}
