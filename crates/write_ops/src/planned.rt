use graph_value::{Name, Value};
use sqlite_items::Items;

/// The id of an object that an operation is about.
#[derive(Clone, Copy, PartialEq, Eq)]
pub enum Pick {
    /// One that is there already.
    Known(u64),
    /// The one that this create of the clause makes, vertices and edges counted together from 0.
    Made(u64),
}

/// An object that a clause is about.
#[derive(Clone, Copy, PartialEq, Eq)]
pub enum Entity {
    Vertex(Pick),
    Edge(Pick),
}

/// An operation of a clause that writes.
#[derive(Drop)]
pub enum PlannedOp {
    CreateVertex,
    DeleteVertex(Pick),
    AddLabel(Pick, Name),
    RemoveLabel(Pick, Name),
    /// Null takes the property away.
    SetVertexProp(Pick, Name, Value),
    CreateEdge { from: Pick, kind: Name, to: Pick },
    DeleteEdge(Pick),
    /// Null takes the property away.
    SetEdgeProp(Pick, Name, Value),
}

/// The operations of a clause, in the order in which they are to be done.
pub type Plan = Items<PlannedOp>;

/// The names that a clause gives in a row, in order of first appearance, each with what it stands for.
pub type Names = Items<(Name, Entity)>;
