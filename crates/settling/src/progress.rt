/// How far a walk has come at a node: its base, once it is expanded, and its counter.
#[derive(Clone, Copy, Debug, Default, PartialEq, Eq)]
pub struct Progress {
    pub base: Option<u64>,
    // Kept: beside the base and not with it in one Option, since `rise` would then have to ask that the base is there.
    pub count: u64,
}
