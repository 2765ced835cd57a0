/// A link as it is given: its two ends and its delay in nanoseconds, not checked yet.
#[derive(Clone, Copy, Debug, Default, PartialEq, Eq)]
pub struct Row {
    pub from: u32,
    pub to: u32,
    pub ns: u32,
}
