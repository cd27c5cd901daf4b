use crate::{Clause, Projection};
use sqlite_items::Items;

/// A whole query.
#[derive(Drop)]
pub struct Query {
    /// The parts that a WITH ends, in order.
    pub stages: Items<Stage>,
    /// The clauses behind the last WITH.
    pub clauses: Items<Clause>,
    /// What RETURN gives, if there is one.
    pub returns: Option<Projection>,
    pub time: Time,
}

/// A part of a query that a WITH ends.
#[derive(Drop)]
pub struct Stage {
    pub clauses: Items<Clause>,
    /// What WITH passes on.
    pub next: Projection,
}

/// Which instants a query is asked of.
#[derive(Clone, Copy, PartialEq, Eq)]
pub enum Time {
    /// The graph as the transaction sees it.
    None,
    /// TT SNAPSHOT: the graph at this instant.
    Snapshot(u64),
    /// TT BETWEEN: every instant from the first to the second.
    Between(u64, u64),
}
