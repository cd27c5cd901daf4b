//! The edges that a vertex lists: among those that leave it, and among those that come to it.
ghost use Rattle.std.specs.Prelude.{◌≡◌, IfOk, OnOk, OnErr, IsTrue, true, false};
ghost use Rattle.graph_record.specs.Ascending.{edge_cmp};
ghost use Rattle.graph_record.specs.Edits.{added, removed};
ghost use Rattle.graph_record.specs.declared.object.Object.TheVariants.{Vertex};
ghost use Rattle.undo_delta.specs.Change.{linked, unlinked, end_deltas, is_free_of, has_ends};
ghost use Rattle.undo_delta.specs.declared.delta.Delta.TheVariants as delta;

use crate::{Delta, DeltaPair, NoMemory};
use graph_record::{EdgeIds, Object, VertexRecord};
use graph_value::EdgeId;

/// Puts a new edge into the lists of a vertex that is its start, its end or both. Without memory nothing changes.
pub(crate) fn link(
    object: &mut Object,
    id: EdgeId,
    leaves: bool,
    comes: bool,
) -> Result<DeltaPair, NoMemory>
    requires { IsTrue (is_free_of id object.old) }
    ensures object { OnOk result (object.new ≡ linked leaves comes id object.old) }
    ensures deltas { IfOk result (λ pair. pair
        ≡ end_deltas leaves comes (delta.RemoveOutEdge id) (delta.RemoveInEdge id)) }
    ensures err { OnErr result (object.new ≡ object.old) }
{
    match object {
        Object::Vertex(vertex) => link_vertex(vertex, id, leaves, comes)?,
        _ => unreachable!(),
    }
    Ok(linked_deltas(id, leaves, comes))
}

fn link_vertex(
    vertex: &mut VertexRecord,
    id: EdgeId,
    leaves: bool,
    comes: bool,
) -> Result<(), NoMemory>
    requires { IsTrue (is_free_of id (Vertex vertex.old)) }
    ensures vertex { OnOk result (Vertex vertex.new ≡ linked leaves comes id (Vertex vertex.old)) }
    ensures err { OnErr result (vertex.new ≡ vertex.old) }
{
    match (leaves, comes) {
        (true, true) => link_lists(&mut vertex.outs, &mut vertex.ins, id),
        (true, false) => {
            vertex.outs.add(id)?;
            Ok(())
        }
        (false, true) => {
            vertex.ins.add(id)?;
            Ok(())
        }
        (false, false) => Ok(()),
    }
}

/// Puts a new edge into the list of what leaves its start and into that of what comes to its end, or into neither.
/// Where its id is the greatest, no list is copied for the case that memory is wanting for the second.
fn link_lists(outs: &mut EdgeIds, ins: &mut EdgeIds, id: EdgeId) -> Result<(), NoMemory>
    ensures outs { OnOk result (outs.new ≡ added edge_cmp id outs.old) }
    ensures ins { OnOk result (ins.new ≡ added edge_cmp id ins.old) }
    ensures outs_stay { OnErr result (outs.new ≡ outs.old) }
    ensures ins_stay { OnErr result (ins.new ≡ ins.old) }
{
    if !outs.is_below(id) {
        return link_lists_aside(outs, ins, id);
    }
    outs.add(id)?;
    match ins.add(id) {
        Ok(_) => Ok(()),
        Err(error) => {
            outs.pop();
            Err(error)
        }
    }
}

/// The same for an id that is not the greatest: the list with it is made aside first.
fn link_lists_aside(outs: &mut EdgeIds, ins: &mut EdgeIds, id: EdgeId) -> Result<(), NoMemory>
    ensures outs { OnOk result (outs.new ≡ added edge_cmp id outs.old) }
    ensures ins { OnOk result (ins.new ≡ added edge_cmp id ins.old) }
    ensures outs_stay { OnErr result (outs.new ≡ outs.old) }
    ensures ins_stay { OnErr result (ins.new ≡ ins.old) }
{
    let mut longer = outs.copy()?;
    longer.add(id)?;
    ins.add(id)?;
    *outs = longer;
    Ok(())
}

/// Puts a new edge into the lists of its two ends, or into neither.
pub(crate) fn link_both(from: &mut Object, to: &mut Object, id: EdgeId) -> Result<(), NoMemory>
    requires from { IsTrue (is_free_of id from.old) }
    requires to { IsTrue (is_free_of id to.old) }
    ensures from { OnOk result (from.new ≡ linked true false id from.old) }
    ensures to { OnOk result (to.new ≡ linked false true id to.old) }
    ensures from_stays { OnErr result (from.new ≡ from.old) }
    ensures to_stays { OnErr result (to.new ≡ to.old) }
{
    match from {
        Object::Vertex(start) => match to {
            Object::Vertex(end) => link_lists(&mut start.outs, &mut end.ins, id),
            _ => unreachable!(),
        },
        _ => unreachable!(),
    }
}

/// Takes an edge out of the lists of a vertex that is its start, its end or both. Without memory nothing changes.
pub(crate) fn unlink(
    object: &mut Object,
    id: EdgeId,
    leaves: bool,
    comes: bool,
) -> Result<DeltaPair, NoMemory>
    requires { IsTrue (has_ends leaves comes id object.old) }
    ensures object { OnOk result (object.new ≡ unlinked leaves comes id object.old) }
    ensures deltas { IfOk result (λ pair. pair
        ≡ end_deltas leaves comes (delta.AddOutEdge id) (delta.AddInEdge id)) }
    ensures err { OnErr result (object.new ≡ object.old) }
{
    match object {
        Object::Vertex(vertex) => unlink_vertex(vertex, id, leaves, comes)?,
        _ => unreachable!(),
    }
    Ok(unlinked_deltas(id, leaves, comes))
}

fn unlink_vertex(
    vertex: &mut VertexRecord,
    id: EdgeId,
    leaves: bool,
    comes: bool,
) -> Result<(), NoMemory>
    ensures vertex { OnOk result (Vertex vertex.new ≡ unlinked leaves comes id (Vertex vertex.old)) }
    ensures err { OnErr result (vertex.new ≡ vertex.old) }
{
    match (leaves, comes) {
        (true, true) => unlink_lists(&mut vertex.outs, &mut vertex.ins, id),
        (true, false) => {
            vertex.outs.remove(id)?;
            Ok(())
        }
        (false, true) => {
            vertex.ins.remove(id)?;
            Ok(())
        }
        (false, false) => Ok(()),
    }
}

/// Takes an edge out of the list of what leaves its start and out of that of what comes to its end, or out of neither:
/// the one without it is made aside first.
fn unlink_lists(outs: &mut EdgeIds, ins: &mut EdgeIds, id: EdgeId) -> Result<(), NoMemory>
    ensures outs { OnOk result (outs.new ≡ removed edge_cmp id outs.old) }
    ensures ins { OnOk result (ins.new ≡ removed edge_cmp id ins.old) }
    ensures outs_stay { OnErr result (outs.new ≡ outs.old) }
    ensures ins_stay { OnErr result (ins.new ≡ ins.old) }
{
    let mut shorter = outs.copy()?;
    shorter.remove(id)?;
    ins.remove(id)?;
    *outs = shorter;
    Ok(())
}

/// Takes an edge out of the lists of its two ends, or out of neither.
pub(crate) fn unlink_both(from: &mut Object, to: &mut Object, id: EdgeId) -> Result<(), NoMemory>
    requires from { IsTrue (has_ends true false id from.old) }
    requires to { IsTrue (has_ends false true id to.old) }
    ensures from { OnOk result (from.new ≡ unlinked true false id from.old) }
    ensures to { OnOk result (to.new ≡ unlinked false true id to.old) }
    ensures from_stays { OnErr result (from.new ≡ from.old) }
    ensures to_stays { OnErr result (to.new ≡ to.old) }
{
    match from {
        Object::Vertex(start) => match to {
            Object::Vertex(end) => unlink_lists(&mut start.outs, &mut end.ins, id),
            _ => unreachable!(),
        },
        _ => unreachable!(),
    }
}

/// One delta for each end that the vertex is, the one for the edge's start the older.
pub(crate) fn linked_deltas(id: EdgeId, leaves: bool, comes: bool) -> DeltaPair
    ensures { result ≡ end_deltas leaves comes (delta.RemoveOutEdge id) (delta.RemoveInEdge id) }
{
    match (leaves, comes) {
        (true, true) => DeltaPair {
            first: Some(Delta::RemoveOutEdge(id)),
            second: Some(Delta::RemoveInEdge(id)),
        },
        (true, false) => DeltaPair::one(Delta::RemoveOutEdge(id)),
        (false, true) => DeltaPair::one(Delta::RemoveInEdge(id)),
        (false, false) => DeltaPair::none(),
    }
}

/// One delta for each end that the vertex was, the one for the edge's start the older.
pub(crate) fn unlinked_deltas(id: EdgeId, leaves: bool, comes: bool) -> DeltaPair
    ensures { result ≡ end_deltas leaves comes (delta.AddOutEdge id) (delta.AddInEdge id) }
{
    match (leaves, comes) {
        (true, true) => DeltaPair {
            first: Some(Delta::AddOutEdge(id)),
            second: Some(Delta::AddInEdge(id)),
        },
        (true, false) => DeltaPair::one(Delta::AddOutEdge(id)),
        (false, true) => DeltaPair::one(Delta::AddInEdge(id)),
        (false, false) => DeltaPair::none(),
    }
}
