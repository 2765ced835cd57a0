use walk::frame::Frame;

/// What a step does to the visits under way: the innermost one stays, is over, or is followed by another inside it.
#[derive(Clone, Copy, Debug, PartialEq, Eq)]
pub enum Turn {
    Stay,
    Leave,
    Enter(Frame),
}
