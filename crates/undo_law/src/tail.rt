use crate::{DatedDeltas, Undo};

/// An object, and the committed deltas that lead back from it, the newest first.
#[derive(Drop)]
pub struct Tail<U: Undo> {
    pub newest: U::Object,
    pub deltas: DatedDeltas<U::Delta>,
}
