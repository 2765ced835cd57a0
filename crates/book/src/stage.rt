ghost use Rattle.std.specs.Prelude.{◌≡◌};
ghost use Rattle.book.specs.Stages.{next_stage};

use super::refusal::Refusal;

/// How far a book has been worked out.
#[derive(Clone, Copy, Debug, PartialEq, Eq)]
pub enum Stage {
    /// only its links are known
    Bare,
    /// it has the map of its links in service
    Mapped,
    /// and the delays from this station
    Settled(u32),
}

/// What a call asks of the stage.
#[derive(Clone, Copy, Debug, PartialEq, Eq)]
pub enum Asked {
    /// to change which links are in service
    Change,
    /// to make the map
    Map,
    /// to settle from this station
    Settle(u32),
    /// to read the map
    ReadMap,
    /// to read the delays
    ReadDelays,
}

impl Stage {
    /// The stage after a granted call, or the refusal that the stage alone decides.
    // Kept: one match on stage and call is the form that is prescribed.
    pub fn after(self, asked: Asked) -> Result<Stage, Refusal>
        ensures { result ≡ next_stage self asked }
    {
        match (self, asked) {
            (_, Asked::Change) => Ok(Stage::Bare),
            (Stage::Bare, Asked::Map) => Ok(Stage::Mapped),
            (_, Asked::Map) => Err(Refusal::MapStands),
            (Stage::Bare, Asked::Settle(_)) => Err(Refusal::NoMap),
            (_, Asked::Settle(source)) => Ok(Stage::Settled(source)),
            (Stage::Bare, Asked::ReadMap) => Err(Refusal::NoMap),
            (stage, Asked::ReadMap) => Ok(stage),
            (stage @ Stage::Settled(_), Asked::ReadDelays) => Ok(stage),
            (_, Asked::ReadDelays) => Err(Refusal::NothingSettled),
        }
    }
}
