use network::row::Row;
use word::fault::Fault;
use word::state::State;

/// What the first table of a sheet says: the book's number, and how many stations it has.
#[derive(Clone, Copy, Debug, Default, PartialEq, Eq)]
pub struct Head {
    pub book: u32,
    pub stations: u32,
}

/// A link as a sheet lists it: its row, and whether it is in service or out for good.
#[derive(Clone, Copy, Debug, Default, PartialEq, Eq)]
pub struct SheetLink {
    pub row: Row,
    pub state: State,
}

/// What was read of a sheet: how many links stand written in the memory given, and the sheet's head or its first fault.
#[derive(Clone, Copy, Debug, PartialEq, Eq)]
pub struct Reading {
    pub links: usize,
    pub outcome: Result<Head, Fault>,
}
