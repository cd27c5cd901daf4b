ghost use Rattle.std.specs.Prelude.{◌≡◌, ◌↔◌, None, IfOk, OnOk, OnErr, IsTrue};
ghost use Rattle.graph_record.specs.declared.object.Object.TheVariants.{Dead, Edge};
ghost use Rattle.graph_record.specs.Record.{empty_vertex};
ghost use Rattle.undo_delta.specs.Change.{is_possible, changed, deltas_of, one_delta, undone_by, new_edge};
ghost use Rattle.graph_record.specs.Form.{IsForm};
ghost use Rattle.undo_delta.specs.Touch.{is_touched};
ghost use Rattle.undo_delta.specs.declared.delta.Delta.TheVariants as delta;

use crate::edge_change::edge_record;
use crate::edit::{add_label, remove_label, set_value};
use crate::ends::{link, unlink};
use crate::{Delta, DeltaPair, Former, NoMemory, Op};
use graph_record::{Object, VertexRecord};
use graph_value::{Name, Oid, VertexId};
use std::alloc::Global;

/// Does to one object what the write does to it, and gives the deltas that undo this. Where the write changes nothing
/// of the object, there is no delta. Without memory the object stays as it was.
///
/// One list of one record is edited; no record is copied, and a deleted one is moved into its delta.
pub fn change(alloc: Global, x: Oid, object: &mut Object, op: &Op) -> Result<DeltaPair, NoMemory>
    requires touched { IsTrue (is_touched op.now x) }
    requires possible { IsTrue (is_possible op.now x object.old) }
    ensures object { OnOk result (object.new ≡ changed op.now x object.old) }
    ensures deltas { IfOk result (λ pair. pair ≡ deltas_of op.now x object.old) }
    ensures undone { IfOk result (λ pair. undone_by pair object.new ≡ object.old) }
    ensures effect { IfOk result (λ pair. (pair.first ≡ None) ↔ (object.new ≡ object.old)) }
    ensures form { IsForm object.old }
    ensures err { OnErr result (object.new ≡ object.old) }
{
    object.form();
    change_parts(alloc, x, object, op)
}

/// The change itself. That its deltas undo it follows from the form that the object has.
fn change_parts(alloc: Global, x: Oid, object: &mut Object, op: &Op) -> Result<DeltaPair, NoMemory>
    requires touched { IsTrue (is_touched op.now x) }
    requires possible { IsTrue (is_possible op.now x object.old) }
    ensures object { OnOk result (object.new ≡ changed op.now x object.old) }
    ensures deltas { IfOk result (λ pair. pair ≡ deltas_of op.now x object.old) }
    ensures err { OnErr result (object.new ≡ object.old) }
{
    match op {
        Op::CreateVertex(_) => Ok(make_vertex(alloc, object)),
        Op::DeleteVertex(_) => delete(alloc, object),
        Op::AddLabel(_, name) => match object {
            Object::Vertex(vertex) => add_label(alloc, &mut vertex.labels, name),
            _ => unreachable!(),
        },
        Op::RemoveLabel(_, name) => match object {
            Object::Vertex(vertex) => remove_label(alloc, &mut vertex.labels, name),
            _ => unreachable!(),
        },
        Op::SetVertexProp(_, name, value) => match object {
            Object::Vertex(vertex) => set_value(alloc, &mut vertex.props, name, value),
            _ => unreachable!(),
        },
        Op::CreateEdge { id, from, kind, to } => match x {
            Oid::Vertex(v) => link(object, *id, v == *from, v == *to),
            Oid::Edge(_) => make_edge(alloc, object, *from, kind, *to),
        },
        Op::DeleteEdge { id, from, to } => match x {
            Oid::Vertex(v) => unlink(object, *id, v == *from, v == *to),
            Oid::Edge(_) => delete(alloc, object),
        },
        Op::SetEdgeProp(_, name, value) => match object {
            Object::Edge(edge) => set_value(alloc, &mut edge.props, name, value),
            _ => unreachable!(),
        },
    }
}

fn make_vertex(alloc: Global, object: &mut Object) -> DeltaPair
    ensures object { object.new ≡ Object.Vertex empty_vertex }
    ensures deltas { result ≡ one_delta delta.DeleteObject }
{
    put_object(object, Object::Vertex(VertexRecord::empty(alloc)));
    DeltaPair::one(Delta::DeleteObject)
}

fn make_edge(
    alloc: Global,
    object: &mut Object,
    from: VertexId,
    kind: &Name,
    to: VertexId,
) -> Result<DeltaPair, NoMemory>
    ensures object { OnOk result (object.new ≡ Edge (new_edge kind.now from to)) }
    ensures deltas { IfOk result (λ pair. pair ≡ one_delta delta.DeleteObject) }
    ensures err { OnErr result (object.new ≡ object.old) }
{
    let record = edge_record(alloc, from, kind, to)?;
    put_object(object, Object::Edge(record));
    Ok(DeltaPair::one(Delta::DeleteObject))
}

fn delete(alloc: Global, object: &mut Object) -> Result<DeltaPair, NoMemory>
    ensures object { OnOk result (object.new ≡ Dead) }
    ensures deltas { IfOk result (λ pair. pair ≡ one_delta (delta.RecreateObject object.old)) }
    ensures err { OnErr result (object.new ≡ object.old) }
{
    let former = Former::take(alloc, object)?;
    Ok(DeltaPair::one(Delta::RecreateObject(former)))
}

/// Puts the object in the place of the one that stands there.
pub(crate) fn put_object(place: &mut Object, object: Object)
    ensures { place.new ≡ object }
{
    *place = object;
}
