ghost use Rattle.std.specs.Prelude.{◌≡◌, ◌+◌, ◌≤◌, length, MatchOption, MatchResult};
ghost use Rattle.text.specs.Split.{lines, words};
ghost use Rattle.text.specs.Columns.{Ordered, NamesFault};
ghost use Rattle.text.specs.Values.{ValuesRead, ValuesFault};
ghost use Rattle.text.specs.Due.{Empty, DividerFault, Never, AtLine};
ghost use Rattle.text.specs.Tables.{width, state_at};
ghost use Rattle.text.specs.Cursors.{text_of, next, IsNext, NextStands, NoneDue, NextFault, Moved};

use super::content::Content;
use super::cursor::Cursor;
use super::line::{Line, Role};
use super::names::Places;
use super::table::Table;
use super::values::Values;
use word::fault::{Cause, Fault, TableFault};

impl<'a> Cursor<'a> {
    /// The next line, if the text has another: it must not be empty.
    pub(crate) fn next_content(&mut self, role: Role) -> Result<Option<Content<'a>>, Fault>
        ensures { MatchResult result (λ o. MatchOption o (length (lines (text_of self.old)) ≤ self.old.line) (λ content. IsNext self.old content × Moved self.old self.new)) (λ f. NoneDue self.old f) }
    {
        let Some(line) = self.next_line(role) else {
            return Ok(None);
        };
        match line {
            Line::Names {
                bytes,
                line: number,
                ..
            }
            | Line::Values {
                bytes,
                line: number,
                ..
            } => Ok(Some(Content { bytes, number })),
            Line::Divider { line, column, .. } => {
                Err(Cause::InTable(TableFault::LineDue).at(line, column))
            }
        }
    }

    /// The next line, which must be there and must not be empty.
    fn due_line(&mut self, role: Role) -> Result<Content<'a>, Fault>
        ensures { MatchResult result (λ content. IsNext self.old content × Moved self.old self.new) (λ f. NextFault self.old Never f) }
    {
        let missing = Cause::InTable(TableFault::LineDue).at(self.line + 1, 1);
        self.next_content(role)?.ok_or(missing)
    }

    /// Reads the next line as the names of a table.
    pub(crate) fn names_line(&mut self, table: Table) -> Result<Places, Fault>
        ensures { MatchResult result (λ places. NextStands self.old × Ordered table (words (next self.old)) places × Moved self.old self.new) (λ f. NextFault self.old (NamesFault table) f) }
    {
        self.due_line(Role::AsNames)?.read_names(table)
    }

    /// Reads the next line as values under a table's names, which have these places.
    pub(crate) fn values_line(&mut self, table: Table, places: Places) -> Result<Values, Fault>
        ensures { MatchResult result (λ v. NextStands self.old × ValuesRead (width table) (state_at table places) (words (next self.old)) v × Moved self.old self.new) (λ f. NextFault self.old (ValuesFault (width table) (state_at table places)) f) }
    {
        self.due_line(Role::AsValues)?.read_values(table, places)
    }

    /// Reads the next line as the divider between two tables.
    pub(crate) fn divider_line(&mut self) -> Result<(), Fault>
        ensures { MatchResult result (λ _. Empty (text_of self.old) self.old.line × Moved self.old self.new) (λ f. AtLine self.old.line f (DividerFault (text_of self.old) self.old.line)) }
    {
        let past = self.line + 1;
        match self.next_line(Role::AsValues) {
            Some(Line::Divider { .. }) => Ok(()),
            Some(Line::Names { line, column, .. } | Line::Values { line, column, .. }) => {
                Err(Cause::InTable(TableFault::TooManyLines).at(line, column))
            }
            None => Err(Cause::InTable(TableFault::LineDue).at(past, 1)),
        }
    }
}
