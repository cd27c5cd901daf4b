//! The rows that the making or the deletion of an edge touches: all of them are changed, or none.
ghost use Rattle.std.specs.Prelude.{◌≡◌, ◌≢◌, Some, OnOk, OnErr, IsTrue};
ghost use Rattle.graph_value.specs.declared.id.Oid.TheVariants as oid;
ghost use Rattle.undo_delta.specs.Change.{is_possible};
ghost use Rattle.undo_delta.specs.Touch.{joined};
ghost use Rattle.front_core.specs.Rows.{changed_row, written_row};

use crate::NoMemory;
use crate::row::{Row, push};
use std::alloc::Global;
use undo_delta::{EdgeDeltas, Joined, LoopDeltas, Op, change_edge, change_loop};

/// Does the write of the caller's transaction on an edge and on the two vertices that it joins. Without memory all three
/// stay as they were.
pub(crate) fn write_between(
    alloc: Global,
    caller: u64,
    start: u64,
    op: &Op,
    ends: Joined,
    from: &mut Row,
    to: &mut Row,
    edge: &mut Row,
) -> Result<(), NoMemory>
    requires joined { joined op.now ≡ Some ends }
    requires apart { ends.from.0 ≢ ends.to.0 }
    requires from { IsTrue (is_possible op.now (oid.Vertex ends.from) from.old.newest) }
    requires to { IsTrue (is_possible op.now (oid.Vertex ends.to) to.old.newest) }
    requires edge { IsTrue (is_possible op.now (oid.Edge ends.edge) edge.old.newest) }
    ensures from { OnOk result (from.new
        ≡ written_row caller start op.now (oid.Vertex ends.from) from.old) }
    ensures to { OnOk result (to.new
        ≡ written_row caller start op.now (oid.Vertex ends.to) to.old) }
    ensures edge { OnOk result (edge.new
        ≡ written_row caller start op.now (oid.Edge ends.edge) edge.old) }
    ensures from_stays { OnErr result (from.new ≡ from.old) }
    ensures to_stays { OnErr result (to.new ≡ to.old) }
    ensures edge_stays { OnErr result (edge.new ≡ edge.old) }
{
    let first = from.begin(alloc, caller, start)?;
    let done = write_from_begun(alloc, caller, start, op, ends, from, to, edge);
    if done.is_err() {
        from.cancel(first);
    }
    done
}

/// The same, where the transaction writes the first vertex already.
fn write_from_begun(
    alloc: Global,
    caller: u64,
    start: u64,
    op: &Op,
    ends: Joined,
    from: &mut Row,
    to: &mut Row,
    edge: &mut Row,
) -> Result<(), NoMemory>
    requires joined { joined op.now ≡ Some ends }
    requires apart { ends.from.0 ≢ ends.to.0 }
    requires from { IsTrue (is_possible op.now (oid.Vertex ends.from) from.old.newest) }
    requires to { IsTrue (is_possible op.now (oid.Vertex ends.to) to.old.newest) }
    requires edge { IsTrue (is_possible op.now (oid.Edge ends.edge) edge.old.newest) }
    ensures from { OnOk result (from.new ≡ changed_row op.now (oid.Vertex ends.from) from.old) }
    ensures to { OnOk result (to.new
        ≡ written_row caller start op.now (oid.Vertex ends.to) to.old) }
    ensures edge { OnOk result (edge.new
        ≡ written_row caller start op.now (oid.Edge ends.edge) edge.old) }
    ensures from_stays { OnErr result (from.new ≡ from.old) }
    ensures to_stays { OnErr result (to.new ≡ to.old) }
    ensures edge_stays { OnErr result (edge.new ≡ edge.old) }
{
    let first = to.begin(alloc, caller, start)?;
    let done = write_ends_begun(alloc, caller, start, op, ends, from, to, edge);
    if done.is_err() {
        to.cancel(first);
    }
    done
}

/// The same, where the transaction writes both vertices already.
fn write_ends_begun(
    alloc: Global,
    caller: u64,
    start: u64,
    op: &Op,
    ends: Joined,
    from: &mut Row,
    to: &mut Row,
    edge: &mut Row,
) -> Result<(), NoMemory>
    requires joined { joined op.now ≡ Some ends }
    requires apart { ends.from.0 ≢ ends.to.0 }
    requires from { IsTrue (is_possible op.now (oid.Vertex ends.from) from.old.newest) }
    requires to { IsTrue (is_possible op.now (oid.Vertex ends.to) to.old.newest) }
    requires edge { IsTrue (is_possible op.now (oid.Edge ends.edge) edge.old.newest) }
    ensures from { OnOk result (from.new ≡ changed_row op.now (oid.Vertex ends.from) from.old) }
    ensures to { OnOk result (to.new ≡ changed_row op.now (oid.Vertex ends.to) to.old) }
    ensures edge { OnOk result (edge.new
        ≡ written_row caller start op.now (oid.Edge ends.edge) edge.old) }
    ensures from_stays { OnErr result (from.new ≡ from.old) }
    ensures to_stays { OnErr result (to.new ≡ to.old) }
    ensures edge_stays { OnErr result (edge.new ≡ edge.old) }
{
    let first = edge.begin(alloc, caller, start)?;
    let done = change_between(alloc, op, ends, from, to, edge);
    if done.is_err() {
        edge.cancel(first);
    }
    done
}

/// Changes the three objects, and puts what undoes this in front of their deltas.
fn change_between(
    alloc: Global,
    op: &Op,
    ends: Joined,
    from: &mut Row,
    to: &mut Row,
    edge: &mut Row,
) -> Result<(), NoMemory>
    requires joined { joined op.now ≡ Some ends }
    requires apart { ends.from.0 ≢ ends.to.0 }
    requires from { IsTrue (is_possible op.now (oid.Vertex ends.from) from.old.newest) }
    requires to { IsTrue (is_possible op.now (oid.Vertex ends.to) to.old.newest) }
    requires edge { IsTrue (is_possible op.now (oid.Edge ends.edge) edge.old.newest) }
    ensures from { OnOk result (from.new ≡ changed_row op.now (oid.Vertex ends.from) from.old) }
    ensures to { OnOk result (to.new ≡ changed_row op.now (oid.Vertex ends.to) to.old) }
    ensures edge { OnOk result (edge.new ≡ changed_row op.now (oid.Edge ends.edge) edge.old) }
    ensures from_stays { OnErr result (from.new ≡ from.old) }
    ensures to_stays { OnErr result (to.new ≡ to.old) }
    ensures edge_stays { OnErr result (edge.new ≡ edge.old) }
{
    from.chain.reserve(alloc, 1)?;
    to.chain.reserve(alloc, 1)?;
    edge.chain.reserve(alloc, 1)?;
    let deltas = change_edge(
        alloc,
        op,
        ends,
        &mut from.newest,
        &mut to.newest,
        &mut edge.newest,
    )?;
    let EdgeDeltas {
        from: of_from,
        to: of_to,
        edge: of_edge,
    } = deltas;
    push(&mut from.chain, of_from);
    push(&mut to.chain, of_to);
    push(&mut edge.chain, of_edge);
    Ok(())
}

/// Does the write of the caller's transaction on an edge from a vertex to itself and on that vertex. Without memory both
/// stay as they were.
pub(crate) fn write_loop(
    alloc: Global,
    caller: u64,
    start: u64,
    op: &Op,
    ends: Joined,
    end: &mut Row,
    edge: &mut Row,
) -> Result<(), NoMemory>
    requires joined { joined op.now ≡ Some ends }
    requires same { ends.from.0 ≡ ends.to.0 }
    requires end { IsTrue (is_possible op.now (oid.Vertex ends.from) end.old.newest) }
    requires edge { IsTrue (is_possible op.now (oid.Edge ends.edge) edge.old.newest) }
    ensures end { OnOk result (end.new
        ≡ written_row caller start op.now (oid.Vertex ends.from) end.old) }
    ensures edge { OnOk result (edge.new
        ≡ written_row caller start op.now (oid.Edge ends.edge) edge.old) }
    ensures end_stays { OnErr result (end.new ≡ end.old) }
    ensures edge_stays { OnErr result (edge.new ≡ edge.old) }
{
    let first = end.begin(alloc, caller, start)?;
    let done = write_end_begun(alloc, caller, start, op, ends, end, edge);
    if done.is_err() {
        end.cancel(first);
    }
    done
}

/// The same, where the transaction writes the vertex already.
fn write_end_begun(
    alloc: Global,
    caller: u64,
    start: u64,
    op: &Op,
    ends: Joined,
    end: &mut Row,
    edge: &mut Row,
) -> Result<(), NoMemory>
    requires joined { joined op.now ≡ Some ends }
    requires same { ends.from.0 ≡ ends.to.0 }
    requires end { IsTrue (is_possible op.now (oid.Vertex ends.from) end.old.newest) }
    requires edge { IsTrue (is_possible op.now (oid.Edge ends.edge) edge.old.newest) }
    ensures end { OnOk result (end.new ≡ changed_row op.now (oid.Vertex ends.from) end.old) }
    ensures edge { OnOk result (edge.new
        ≡ written_row caller start op.now (oid.Edge ends.edge) edge.old) }
    ensures end_stays { OnErr result (end.new ≡ end.old) }
    ensures edge_stays { OnErr result (edge.new ≡ edge.old) }
{
    let first = edge.begin(alloc, caller, start)?;
    let done = change_with_loop(alloc, op, ends, end, edge);
    if done.is_err() {
        edge.cancel(first);
    }
    done
}

/// Changes both objects, and puts what undoes this in front of their deltas.
fn change_with_loop(
    alloc: Global,
    op: &Op,
    ends: Joined,
    end: &mut Row,
    edge: &mut Row,
) -> Result<(), NoMemory>
    requires joined { joined op.now ≡ Some ends }
    requires same { ends.from.0 ≡ ends.to.0 }
    requires end { IsTrue (is_possible op.now (oid.Vertex ends.from) end.old.newest) }
    requires edge { IsTrue (is_possible op.now (oid.Edge ends.edge) edge.old.newest) }
    ensures end { OnOk result (end.new ≡ changed_row op.now (oid.Vertex ends.from) end.old) }
    ensures edge { OnOk result (edge.new ≡ changed_row op.now (oid.Edge ends.edge) edge.old) }
    ensures end_stays { OnErr result (end.new ≡ end.old) }
    ensures edge_stays { OnErr result (edge.new ≡ edge.old) }
{
    end.chain.reserve(alloc, 2)?;
    edge.chain.reserve(alloc, 1)?;
    let deltas = change_loop(alloc, op, ends, &mut end.newest, &mut edge.newest)?;
    let LoopDeltas {
        end: of_end,
        edge: of_edge,
    } = deltas;
    push(&mut end.chain, of_end);
    push(&mut edge.chain, of_edge);
    Ok(())
}
