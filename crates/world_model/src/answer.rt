use crate::{Lifted, Piece};
use anchor_store::Found;
use graph_value::{EdgeId, Oid, VertexId};
use txn_manager::Rival;
use undo_delta::GraphUndo;

/// What a write did.
#[derive(Clone, Copy, Debug, PartialEq, Eq)]
pub enum Wrote {
    Done,
    /// The graph was so already. The transaction holds no write for it.
    Unchanged,
    /// The vertex that was made.
    Vertex(VertexId),
    /// The edge that was made.
    Edge(EdgeId),
}

/// Why an event was refused. A refusal changes nothing.
#[derive(Clone, Copy, Debug, PartialEq, Eq)]
pub enum Refused {
    /// The caller has no open transaction.
    NoTxn,
    /// The caller has one already.
    AlreadyOpen,
    /// The object isn't there in the caller's view.
    Missing(Oid),
    /// Another transaction wrote the object: one that is open, or one that committed after the caller's began.
    Conflict(Oid, Rival),
    /// The vertex that is to be deleted has edges in the caller's view.
    HasEdges(VertexId),
    /// The instant `t` lies past the start of the caller's transaction.
    TimeAhead { t: u64, start: u64 },
    /// The clock can't serve another transaction.
    ClockEnd,
    /// The object's cut is this one, and not the piece's: other deltas were moved since the piece was lifted.
    Stale { cut: u64 },
    /// As many transactions are open as may be at once.
    TooMany,
    /// No id is left.
    IdEnd,
    NoMemory,
}

/// Where the store stands.
#[derive(Clone, Copy, Debug, PartialEq, Eq)]
pub struct Marked {
    /// The least start of the open transactions, or the clock where none is open.
    pub mark: u64,
    pub clock: u64,
    /// The number that the next vertex gets, and the one that the next edge gets.
    pub vertices: u64,
    pub edges: u64,
}

/// How many deltas and blocks the store holds.
#[derive(Clone, Copy, Debug, PartialEq, Eq)]
pub struct Stats {
    /// The committed deltas in all chains.
    pub chain: u64,
    /// The deltas in all histories.
    pub history: u64,
    /// The blocks of all histories.
    pub blocks: u64,
}

/// What the store answers to an event.
#[derive(Drop)]
pub enum Answer {
    /// A transaction is open, with this start.
    Begun(u64),
    /// The number of the next object, `None` where there is none.
    Id(Option<u64>),
    /// The object that was read, or the block that it is to be rebuilt from.
    Version(Found<GraphUndo>),
    Wrote(Wrote),
    /// The timestamp of the commit, or the transaction's start where it had written nothing.
    Committed(u64),
    /// The transaction is gone, and so are its writes.
    Aborted,
    Marked(Marked),
    Lifted(Lifted),
    /// The piece's blocks stand in the history, and what was lifted is gone from the chain.
    Installed,
    /// The piece that found no memory.
    NotInstalled(Piece),
    Stats(Stats),
    Refused(Refused),
}
