use super::progress::Progress;

/// What a walk has in hand beside shelf and keeper: of each station its delay, once it is visited, and of each node how far it has come
/// there.
#[derive(Drop)]
pub struct Trail {
    pub settled: Vec<Option<u64>>,
    pub nodes: Vec<Progress>,
}
