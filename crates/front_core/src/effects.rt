//! What a write names, whether it would change anything, and what is answered to it, told by the write and one object.
ghost use Rattle.std.specs.Prelude.{◌≡◌, ◌∷◌, [], slice_get};
ghost use Rattle.graph_value.specs.Value.{same_value};
ghost use Rattle.graph_record.specs.Graph.{Graph};
ghost use Rattle.undo_delta.specs.Change.{has_label, is_without_edges, kept, value_at};
ghost use Rattle.world_model.specs.Asked.{named, op_of, wrote_of};
ghost use Rattle.world_model.specs.Counts.{deltas_left};
ghost use Rattle.world_model.specs.World.{World};
ghost use Rattle.undo_delta.specs.declared.ask.Ask.{Ask as AnyAsk};

use graph_record::Object;
use graph_value::{Name, Oid, Value};
use undo_delta::{Ask, Op, is_kept_value};
use world_model::Wrote;

/// The i-th of the objects that a write names, which have to be there.
pub(crate) fn named(ask: &Ask, i: usize) -> Option<Oid>
    ensures { result ≡ slice_get (named ask.now) i }
{
    match ask {
        Ask::CreateVertex => None,
        Ask::DeleteVertex(v)
        | Ask::AddLabel(v, _)
        | Ask::RemoveLabel(v, _)
        | Ask::SetVertexProp(v, _, _) => at_first(Oid::Vertex(*v), i),
        Ask::CreateEdge { from, to, .. } => match i {
            0 => Some(Oid::Vertex(*from)),
            1 => Some(Oid::Vertex(*to)),
            _ => None,
        },
        Ask::DeleteEdge(e) | Ask::SetEdgeProp(e, _, _) => at_first(Oid::Edge(*e), i),
    }
}

fn at_first(x: Oid, i: usize) -> Option<Oid>
    ensures { result ≡ slice_get (x ∷ []) i }
{
    match i {
        0 => Some(x),
        _ => None,
    }
}

/// What is answered to a write that was done.
pub(crate) fn wrote(op: &Op) -> Wrote
    ensures { (w : World) (g : Graph) (ask : AnyAsk) → op.now ≡ op_of w g ask →
        result ≡ wrote_of w ask }
{
    match op {
        Op::CreateVertex(v) => Wrote::Vertex(*v),
        Op::CreateEdge { id, .. } => Wrote::Edge(*id),
        _ => Wrote::Done,
    }
}

/// How many deltas a write leaves that changes something.
pub(crate) fn deltas_left(op: &Op) -> u64
    ensures { result ≡ deltas_left op.now }
{
    match op {
        Op::CreateEdge { .. } | Op::DeleteEdge { .. } => 3,
        _ => 1,
    }
}

/// Whether a vertex has no edges.
pub(crate) fn is_without_edges(object: &Object) -> bool
    ensures { result ≡ is_without_edges object.now }
{
    match object {
        Object::Vertex(vertex) => vertex.outs.len() == 0 && vertex.ins.len() == 0,
        Object::Dead | Object::Edge(_) => false,
    }
}

/// Whether a vertex has the label.
pub(crate) fn has_label(object: &Object, name: &Name) -> bool
    ensures { result ≡ has_label name.now object.now }
{
    match object {
        Object::Vertex(vertex) => vertex.labels.contains(name.as_str()),
        Object::Dead | Object::Edge(_) => false,
    }
}

/// Whether a property has the value already that it would be given.
pub(crate) fn has_value(object: &Object, name: &Name, value: &Value) -> bool
    ensures { result ≡ same_value (value_at name.now object.now) (kept value.now) }
{
    let former = match object {
        Object::Dead => None,
        Object::Vertex(vertex) => vertex.props.get(name.as_str()),
        Object::Edge(edge) => edge.props.get(name.as_str()),
    };
    match former {
        Some(former) => is_kept_value(former, value),
        None => is_kept_value(&Value::Null, value),
    }
}
