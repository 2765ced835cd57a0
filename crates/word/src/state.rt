ghost use Rattle.std.specs.Prelude.{Some};
ghost use Rattle.word.specs.States.{ReadsState, spelled_state};

use super::fault::WordFault;
use std::fmt;

/// Whether a link is in service at the opening, or out for good.
#[derive(Clone, Copy, Debug, Default, PartialEq, Eq)]
pub enum State {
    #[default]
    In,
    Off,
}

/// The state that a word spells, `in` or `off`.
impl TryFrom<&[u8]> for State {
    type Error = WordFault;

    ghost try_from_gives = { λ word result. ReadsState word.now result };

    fn try_from(word: &[u8]) -> Result<State, WordFault> {
        match word {
            [] => Err(WordFault::Empty),
            b"in" => Ok(State::In),
            b"off" => Ok(State::Off),
            _ => Err(WordFault::BadState),
        }
    }
}

/// A state is written as its word.
impl fmt::Display for State {
    ghost output = { λ state. Some (spelled_state state) };

    fn fmt<W: fmt::Write>(&self, f: &mut fmt::Formatter<W>) -> fmt::Result {
        f.write_str(match self {
            State::In => "in",
            State::Off => "off",
        })
    }
}
