ghost use Rattle.std.specs.Prelude.{◌≡◌, OnOk, OnErr};
ghost use Rattle.graph_record.specs.declared.object.Object.TheVariants.{Edge, Vertex};
ghost use Rattle.undo_delta.specs.Apply.{after_part};

use crate::changing::put_object;
use crate::edit::write_property;
use crate::same::same_objects;
use crate::{Delta, Former, NoMemory};
use graph_record::{EdgeRecord, Object, VertexRecord};
use std::alloc::Global;
use undo_law::Undo;

/// The kind of object that stands in a graph, with its deltas.
pub struct GraphUndo;

impl Undo for GraphUndo {
    ghost use Rattle.graph_record.specs.Graph.{is_dead};
    ghost use Rattle.undo_delta.specs.Apply.{after};

    type Object = Object;

    type Delta = Delta;

    ghost after = { after };

    ghost is_absent = { is_dead };

    fn apply(alloc: Global, object: &mut Object, delta: &Delta) -> Result<(), NoMemory> {
        match delta {
            Delta::DeleteObject => {
                put_object(object, Object::Dead);
                Ok(())
            }
            Delta::RecreateObject(former) => recreate(object, former),
            _ => apply_to_part(alloc, object, delta),
        }
    }

    fn copy_object(_: Global, object: &Object) -> Result<Object, NoMemory> {
        object.copy()
    }

    fn copy_delta(alloc: Global, delta: &Delta) -> Result<Delta, NoMemory> {
        delta.copy(alloc)
    }

    fn absent(object: &Object) -> bool {
        matches!(object, Object::Dead)
    }

    fn same_object(a: &Object, b: &Object) -> bool {
        same_objects(a, b)
    }
}

fn recreate(object: &mut Object, former: &Former) -> Result<(), NoMemory>
    ensures ok { OnOk result (object.new ≡ former.now) }
    ensures err { OnErr result (object.new ≡ object.old) }
{
    put_object(object, former.as_object().copy()?);
    Ok(())
}

/// Applies a delta that changes a part of the object.
fn apply_to_part(alloc: Global, object: &mut Object, delta: &Delta) -> Result<(), NoMemory>
    ensures ok { OnOk result (object.new ≡ after_part object.old delta.now) }
    ensures err { OnErr result (object.new ≡ object.old) }
{
    match object {
        Object::Dead => Ok(()),
        Object::Vertex(vertex) => apply_to_vertex(alloc, vertex, delta),
        Object::Edge(edge) => apply_to_edge(alloc, edge, delta),
    }
}

fn apply_to_edge(alloc: Global, edge: &mut EdgeRecord, delta: &Delta) -> Result<(), NoMemory>
    ensures ok { OnOk result (Edge edge.new ≡ after_part (Edge edge.old) delta.now) }
    ensures err { OnErr result (edge.new ≡ edge.old) }
{
    if let Delta::SetProperty(setting) = delta {
        write_property(alloc, &mut edge.props, setting.name(), setting.value())?;
    }
    Ok(())
}

fn apply_to_vertex(alloc: Global, vertex: &mut VertexRecord, delta: &Delta) -> Result<(), NoMemory>
    ensures ok { OnOk result (Vertex vertex.new ≡ after_part (Vertex vertex.old) delta.now) }
    ensures err { OnErr result (vertex.new ≡ vertex.old) }
{
    match delta {
        Delta::SetProperty(setting) => {
            write_property(alloc, &mut vertex.props, setting.name(), setting.value())?;
        }
        Delta::AddLabel(name) => {
            vertex.labels.add(name.copy()?)?;
        }
        Delta::RemoveLabel(name) => {
            vertex.labels.remove(name.as_str())?;
        }
        Delta::AddInEdge(id) => {
            vertex.ins.add(*id)?;
        }
        Delta::AddOutEdge(id) => {
            vertex.outs.add(*id)?;
        }
        Delta::RemoveInEdge(id) => {
            vertex.ins.remove(*id)?;
        }
        Delta::RemoveOutEdge(id) => {
            vertex.outs.remove(*id)?;
        }
        Delta::DeleteObject | Delta::RecreateObject(_) => {}
    }
    Ok(())
}
