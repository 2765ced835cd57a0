//! What is proved of every settling walk, whatever its takes hand over: each function carries one law in its contract (specs/Laws.antt).
ghost use Rattle.walk.specs.Laws.{EveryRunSettles, EveryWalkMovesLittle, EveryWalkMovesEnough, EveryWalkEnds, EveryWalkGoesOn, EverySourceHasARun, EveryWalkIsAble, TakeAloneIsFree};

/// A run visits exactly the stations that a route leads to, each at its least delay, and leaves shelf and keeper empty.
pub fn every_run_settles() -> u8
    ensures { EveryRunSettles }
{
    0
}

/// A walk makes no more than 8 moves a station and one a link in service: at each of its states, and between the links of a visited station.
pub fn every_walk_moves_little() -> u8
    ensures { EveryWalkMovesLittle }
{
    0
}

/// A walk that has visited two stations or more has made as many moves.
pub fn every_walk_moves_enough() -> u8
    ensures { EveryWalkMovesEnough }
{
    0
}

/// No walk is endless.
pub fn every_walk_ends() -> u8
    ensures { EveryWalkEnds }
{
    0
}

/// No walk gets stuck: it is at its end, or it has a next step, in which the shelf refuses no put.
pub fn every_walk_goes_on() -> u8
    ensures { EveryWalkGoesOn }
{
    0
}

/// From every source there is a run.
pub fn every_source_has_a_run() -> u8
    ensures { EverySourceHasARun }
{
    0
}

/// What take hands over is all that the rules leave free.
pub fn take_alone_is_free() -> u8
    ensures { TakeAloneIsFree }
{
    0
}

/// Before each step and each link a walk finds what it needs: nothing that it subtracts is too large, what it looks for is there, and its puts are granted.
pub fn every_walk_is_able() -> u8
    ensures { EveryWalkIsAble }
{
    0
}
