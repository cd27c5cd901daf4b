ghost use Rattle.std.specs.Prelude.{◌≡◌, ◌∷◌, [], slice_get};
ghost use Rattle.undo_delta.specs.Touch.{ends, joined, touches};
ghost use Rattle.graph_value.specs.declared.id.Oid.TheVariants as oid;

use graph_value::{EdgeId, Name, Oid, Value, VertexId};

/// A write with all that it needs to be done: the id that a created object gets, and the ends of an edge that is
/// deleted.
#[derive(Debug, Drop)]
pub enum Op {
    CreateVertex(VertexId),
    DeleteVertex(VertexId),
    AddLabel(VertexId, Name),
    RemoveLabel(VertexId, Name),
    /// A value that no object keeps, as null, removes the property.
    SetVertexProp(VertexId, Name, Value),
    CreateEdge {
        id: EdgeId,
        from: VertexId,
        kind: Name,
        to: VertexId,
    },
    DeleteEdge {
        id: EdgeId,
        from: VertexId,
        to: VertexId,
    },
    /// A value that no object keeps, as null, removes the property.
    SetEdgeProp(EdgeId, Name, Value),
}

/// An edge with its ends.
#[derive(Clone, Copy, Debug, PartialEq, Eq)]
pub struct Joined {
    pub edge: EdgeId,
    pub from: VertexId,
    pub to: VertexId,
}

impl Op {
    /// The edge that the write makes or deletes, `None` where it does neither.
    pub fn joined(&self) -> Option<Joined>
        ensures { result ≡ joined self.now }
    {
        match self {
            Op::CreateEdge { id, from, to, .. } | Op::DeleteEdge { id, from, to } => Some(Joined {
                edge: *id,
                from: *from,
                to: *to,
            }),
            _ => None,
        }
    }

    /// The i-th of the objects that the write touches, counted from 0: of an edge that is made or deleted the vertex
    /// that it comes from, the one that it goes to if that is another, and then the edge.
    pub fn touched(&self, i: usize) -> Option<Oid>
        ensures { result ≡ slice_get (touches self.now) i }
    {
        match self {
            Op::CreateVertex(v)
            | Op::DeleteVertex(v)
            | Op::AddLabel(v, _)
            | Op::RemoveLabel(v, _)
            | Op::SetVertexProp(v, _, _) => at_first(Oid::Vertex(*v), i),
            Op::CreateEdge { id, from, to, .. } | Op::DeleteEdge { id, from, to } => {
                one_of_three(*id, *from, *to, i)
            }
            Op::SetEdgeProp(e, _, _) => at_first(Oid::Edge(*e), i),
        }
    }
}

fn at_first(x: Oid, i: usize) -> Option<Oid>
    ensures { result ≡ slice_get (x ∷ []) i }
{
    match i {
        0 => Some(x),
        _ => None,
    }
}

fn one_of_three(edge: EdgeId, from: VertexId, to: VertexId, i: usize) -> Option<Oid>
    ensures { result ≡ slice_get (ends from to (oid.Edge edge ∷ [])) i }
{
    match (i, from == to) {
        (0, _) => Some(Oid::Vertex(from)),
        (1, false) => Some(Oid::Vertex(to)),
        (1, true) | (2, false) => Some(Oid::Edge(edge)),
        _ => None,
    }
}
