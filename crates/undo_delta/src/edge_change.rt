//! An edge that is made or deleted changes itself and its ends together, or nothing.
ghost use Rattle.std.specs.Prelude.{◌≡◌, ◌≢◌, Some, IfOk, OnOk, OnErr, IsTrue, true, false};
ghost use Rattle.graph_value.specs.declared.id.Oid.TheVariants as oid;
ghost use Rattle.graph_record.specs.declared.object.Object.TheVariants.{Dead, Edge};
ghost use Rattle.undo_delta.specs.Change.{changed, edge_deltas_of, end_deltas, has_ends, is_free_of, is_possible, linked, loop_deltas_of, new_edge, one_delta, unlinked};
ghost use Rattle.undo_delta.specs.Touch.{joined};
ghost use Rattle.undo_delta.specs.declared.delta.Delta.TheVariants as delta;

use crate::changing::put_object;
use crate::ends::{link, link_both, linked_deltas, unlink, unlink_both, unlinked_deltas};
use crate::{Delta, DeltaPair, Former, Joined, NoMemory, Op};
use graph_record::{EdgeRecord, Kind, Object, Properties};
use graph_value::{EdgeId, Name, VertexId};
use std::alloc::Global;

/// What undoes that an edge between two vertices was made or deleted.
#[derive(Debug, Drop)]
pub struct EdgeDeltas {
    pub from: DeltaPair,
    pub to: DeltaPair,
    pub edge: DeltaPair,
}

/// What undoes that an edge from a vertex to itself was made or deleted.
#[derive(Debug, Drop)]
pub struct LoopDeltas {
    pub end: DeltaPair,
    pub edge: DeltaPair,
}

/// Makes or deletes an edge between two vertices: does to each of the three objects what the write does to it, and
/// gives the deltas that undo this. Without memory all three stay as they were.
pub fn change_edge(
    alloc: Global,
    op: &Op,
    ends: Joined,
    from: &mut Object,
    to: &mut Object,
    edge: &mut Object,
) -> Result<EdgeDeltas, NoMemory>
    requires joined { joined op.now ≡ Some ends }
    requires apart { ends.from.0 ≢ ends.to.0 }
    requires from { IsTrue (is_possible op.now (oid.Vertex ends.from) from.old) }
    requires to { IsTrue (is_possible op.now (oid.Vertex ends.to) to.old) }
    requires edge { IsTrue (is_possible op.now (oid.Edge ends.edge) edge.old) }
    ensures from { OnOk result (from.new ≡ changed op.now (oid.Vertex ends.from) from.old) }
    ensures to { OnOk result (to.new ≡ changed op.now (oid.Vertex ends.to) to.old) }
    ensures edge { OnOk result (edge.new ≡ changed op.now (oid.Edge ends.edge) edge.old) }
    ensures deltas { IfOk result (λ deltas.
        deltas ≡ edge_deltas_of op.now ends from.old to.old edge.old) }
    ensures from_stays { OnErr result (from.new ≡ from.old) }
    ensures to_stays { OnErr result (to.new ≡ to.old) }
    ensures edge_stays { OnErr result (edge.new ≡ edge.old) }
{
    match op {
        Op::CreateEdge {
            id,
            from: a,
            kind,
            to: b,
        } => create(alloc, *id, *a, kind, *b, from, to, edge),
        Op::DeleteEdge { id, .. } => delete(alloc, *id, from, to, edge),
        _ => unreachable!(),
    }
}

/// Makes or deletes an edge from a vertex to itself: does to both objects what the write does to them, and gives the
/// deltas that undo this. Without memory both stay as they were.
pub fn change_loop(
    alloc: Global,
    op: &Op,
    ends: Joined,
    end: &mut Object,
    edge: &mut Object,
) -> Result<LoopDeltas, NoMemory>
    requires joined { joined op.now ≡ Some ends }
    requires same { ends.from.0 ≡ ends.to.0 }
    requires end { IsTrue (is_possible op.now (oid.Vertex ends.from) end.old) }
    requires edge { IsTrue (is_possible op.now (oid.Edge ends.edge) edge.old) }
    ensures end { OnOk result (end.new ≡ changed op.now (oid.Vertex ends.from) end.old) }
    ensures edge { OnOk result (edge.new ≡ changed op.now (oid.Edge ends.edge) edge.old) }
    ensures deltas { IfOk result (λ deltas. deltas ≡ loop_deltas_of op.now ends end.old edge.old) }
    ensures end_stays { OnErr result (end.new ≡ end.old) }
    ensures edge_stays { OnErr result (edge.new ≡ edge.old) }
{
    match op {
        Op::CreateEdge {
            id,
            from: a,
            kind,
            to: b,
        } => create_loop(alloc, *id, *a, kind, *b, end, edge),
        Op::DeleteEdge { id, .. } => delete_loop(alloc, *id, end, edge),
        _ => unreachable!(),
    }
}

fn create(
    alloc: Global,
    id: EdgeId,
    a: VertexId,
    kind: &Name,
    b: VertexId,
    from: &mut Object,
    to: &mut Object,
    edge: &mut Object,
) -> Result<EdgeDeltas, NoMemory>
    requires from { IsTrue (is_free_of id from.old) }
    requires to { IsTrue (is_free_of id to.old) }
    ensures from { OnOk result (from.new ≡ linked true false id from.old) }
    ensures to { OnOk result (to.new ≡ linked false true id to.old) }
    ensures edge { OnOk result (edge.new ≡ Edge (new_edge kind.now a b)) }
    ensures deltas { IfOk result (λ deltas. deltas ≡ record {
      from = end_deltas true false (delta.RemoveOutEdge id) (delta.RemoveInEdge id);
      to = end_deltas false true (delta.RemoveOutEdge id) (delta.RemoveInEdge id);
      edge = one_delta delta.DeleteObject;
    }) }
    ensures from_stays { OnErr result (from.new ≡ from.old) }
    ensures to_stays { OnErr result (to.new ≡ to.old) }
    ensures edge_stays { OnErr result (edge.new ≡ edge.old) }
{
    let record = edge_record(alloc, a, kind, b)?;
    link_both(from, to, id)?;
    put_object(edge, Object::Edge(record));
    Ok(EdgeDeltas {
        from: linked_deltas(id, true, false),
        to: linked_deltas(id, false, true),
        edge: DeltaPair::one(Delta::DeleteObject),
    })
}

fn create_loop(
    alloc: Global,
    id: EdgeId,
    a: VertexId,
    kind: &Name,
    b: VertexId,
    end: &mut Object,
    edge: &mut Object,
) -> Result<LoopDeltas, NoMemory>
    requires { IsTrue (is_free_of id end.old) }
    ensures end { OnOk result (end.new ≡ linked true true id end.old) }
    ensures edge { OnOk result (edge.new ≡ Edge (new_edge kind.now a b)) }
    ensures deltas { IfOk result (λ deltas. deltas ≡ record {
      end = end_deltas true true (delta.RemoveOutEdge id) (delta.RemoveInEdge id);
      edge = one_delta delta.DeleteObject;
    }) }
    ensures end_stays { OnErr result (end.new ≡ end.old) }
    ensures edge_stays { OnErr result (edge.new ≡ edge.old) }
{
    let record = edge_record(alloc, a, kind, b)?;
    let deltas = link(end, id, true, true)?;
    put_object(edge, Object::Edge(record));
    Ok(LoopDeltas {
        end: deltas,
        edge: DeltaPair::one(Delta::DeleteObject),
    })
}

fn delete(
    alloc: Global,
    id: EdgeId,
    from: &mut Object,
    to: &mut Object,
    edge: &mut Object,
) -> Result<EdgeDeltas, NoMemory>
    requires from { IsTrue (has_ends true false id from.old) }
    requires to { IsTrue (has_ends false true id to.old) }
    ensures from { OnOk result (from.new ≡ unlinked true false id from.old) }
    ensures to { OnOk result (to.new ≡ unlinked false true id to.old) }
    ensures edge { OnOk result (edge.new ≡ Dead) }
    ensures deltas { IfOk result (λ deltas. deltas ≡ record {
      from = end_deltas true false (delta.AddOutEdge id) (delta.AddInEdge id);
      to = end_deltas false true (delta.AddOutEdge id) (delta.AddInEdge id);
      edge = one_delta (delta.RecreateObject edge.old);
    }) }
    ensures from_stays { OnErr result (from.new ≡ from.old) }
    ensures to_stays { OnErr result (to.new ≡ to.old) }
    ensures edge_stays { OnErr result (edge.new ≡ edge.old) }
{
    let mut former = Former::room(alloc)?;
    unlink_both(from, to, id)?;
    former.swap(edge);
    Ok(EdgeDeltas {
        from: unlinked_deltas(id, true, false),
        to: unlinked_deltas(id, false, true),
        edge: DeltaPair::one(Delta::RecreateObject(former)),
    })
}

fn delete_loop(
    alloc: Global,
    id: EdgeId,
    end: &mut Object,
    edge: &mut Object,
) -> Result<LoopDeltas, NoMemory>
    requires { IsTrue (has_ends true true id end.old) }
    ensures end { OnOk result (end.new ≡ unlinked true true id end.old) }
    ensures edge { OnOk result (edge.new ≡ Dead) }
    ensures deltas { IfOk result (λ deltas. deltas ≡ record {
      end = end_deltas true true (delta.AddOutEdge id) (delta.AddInEdge id);
      edge = one_delta (delta.RecreateObject edge.old);
    }) }
    ensures end_stays { OnErr result (end.new ≡ end.old) }
    ensures edge_stays { OnErr result (edge.new ≡ edge.old) }
{
    let mut former = Former::room(alloc)?;
    let deltas = unlink(end, id, true, true)?;
    former.swap(edge);
    Ok(LoopDeltas {
        end: deltas,
        edge: DeltaPair::one(Delta::RecreateObject(former)),
    })
}

/// The record of a new edge, which has no properties.
pub(crate) fn edge_record(
    alloc: Global,
    from: VertexId,
    kind: &Name,
    to: VertexId,
) -> Result<EdgeRecord, NoMemory>
    ensures { IfOk result (λ r. r ≡ new_edge kind.now from to) }
{
    let kind = Kind::new(alloc, kind.copy()?)?;
    Ok(EdgeRecord {
        kind,
        from,
        to,
        props: Properties::new(alloc),
    })
}
