//! What a change asks of its caller, as tests of a row.
ghost use Rattle.std.specs.Prelude.{◌≡◌};
ghost use Rattle.undo_delta.specs.Change as spec;
ghost use Rattle.graph_value.specs.declared.id.Oid.TheVariants as oid;
ghost use Rattle.undo_delta.specs.Touch.{is_touched, same_oid};

use graph_record::Object;
use graph_value::{EdgeId, Oid, VertexId};
use undo_delta::Op;

/// Whether the write touches the object of this id.
pub fn is_touched(op: &Op, x: Oid) -> bool
    ensures { result ≡ is_touched op.now x }
{
    match op {
        Op::CreateVertex(v)
        | Op::DeleteVertex(v)
        | Op::AddLabel(v, _)
        | Op::RemoveLabel(v, _)
        | Op::SetVertexProp(v, _, _) => is_vertex(x, *v),
        Op::CreateEdge { id, from, to, .. } | Op::DeleteEdge { id, from, to } => {
            is_vertex(x, *from) || is_vertex(x, *to) || is_edge(x, *id)
        }
        Op::SetEdgeProp(id, _, _) => is_edge(x, *id),
    }
}

fn is_vertex(x: Oid, v: VertexId) -> bool
    ensures { result ≡ same_oid x (oid.Vertex v) }
{
    matches!(x, Oid::Vertex(w) if w == v)
}

fn is_edge(x: Oid, e: EdgeId) -> bool
    ensures { result ≡ same_oid x (oid.Edge e) }
{
    matches!(x, Oid::Edge(f) if f == e)
}

/// Whether the write may be done on the object.
pub fn is_possible(op: &Op, x: Oid, object: &Object) -> bool
    ensures { result ≡ spec.is_possible op.now x object.now }
{
    match (op, x) {
        (Op::CreateVertex(_), _) | (Op::CreateEdge { .. }, Oid::Edge(_)) => {
            matches!(object, Object::Dead)
        }
        (Op::DeleteVertex(_), _) => is_without_edges(object),
        (Op::AddLabel(_, _) | Op::RemoveLabel(_, _) | Op::SetVertexProp(_, _, _), _) => {
            matches!(object, Object::Vertex(_))
        }
        (Op::CreateEdge { id, .. }, Oid::Vertex(_)) => is_free_of(*id, object),
        (Op::DeleteEdge { id, from, to }, Oid::Vertex(v)) => {
            has_ends(v == *from, v == *to, *id, object)
        }
        (Op::DeleteEdge { from, to, .. }, Oid::Edge(_)) => goes_between(*from, *to, object),
        (Op::SetEdgeProp(_, _, _), _) => matches!(object, Object::Edge(_)),
    }
}

fn is_without_edges(object: &Object) -> bool
    ensures { result ≡ spec.is_without_edges object.now }
{
    match object {
        Object::Vertex(vertex) => {
            vertex.outs.as_slice().is_empty() && vertex.ins.as_slice().is_empty()
        }
        _ => false,
    }
}

fn is_free_of(id: EdgeId, object: &Object) -> bool
    ensures { result ≡ spec.is_free_of id object.now }
{
    match object {
        Object::Vertex(vertex) => !vertex.outs.contains(id) && !vertex.ins.contains(id),
        _ => false,
    }
}

fn has_ends(leaves: bool, comes: bool, id: EdgeId, object: &Object) -> bool
    ensures { result ≡ spec.has_ends leaves comes id object.now }
{
    match object {
        Object::Vertex(vertex) => {
            (!leaves || vertex.outs.contains(id)) && (!comes || vertex.ins.contains(id))
        }
        _ => false,
    }
}

fn goes_between(from: VertexId, to: VertexId, object: &Object) -> bool
    ensures { result ≡ spec.goes_between from to object.now }
{
    match object {
        Object::Edge(edge) => edge.from == from && edge.to == to,
        _ => false,
    }
}
