/// Who stands in the way of a transaction that is to write an object.
#[derive(Clone, Copy, Debug, PartialEq, Eq)]
pub enum Rival {
    /// Another transaction, begun at `start`, has written it and still runs.
    Running { start: u64 },
    /// The object was last committed at `ts`, after the transaction began.
    Committed { ts: u64 },
}
