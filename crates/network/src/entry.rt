use super::row::Row;

/// Where a link stands: in service, out of it, or out of it for good.
#[derive(Clone, Copy, Debug, PartialEq, Eq)]
pub enum Standing {
    In,
    Out,
    Struck,
}

/// A link of a scheme: the row that describes it, and where it stands.
#[derive(Clone, Copy, Debug, PartialEq, Eq)]
pub struct Entry {
    pub row: Row,
    pub standing: Standing,
}
