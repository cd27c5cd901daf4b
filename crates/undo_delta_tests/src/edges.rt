//! The rows of edges that are made and deleted together with their ends, and of the objects that a write touches.
use crate::premises::is_possible;
use crate::shape::{Shape, Undo, object};
use crate::table::{Side, Write, leads_back, op};
use graph_record::Object;
use graph_value::{EdgeId, Oid, VertexId};
use std::alloc::Global;
use undo_delta::{EdgeDeltas, Joined, LoopDeltas, NoMemory, Op, change_edge, change_loop};

/// A write of edge 7 between vertices 1 and 2, and what it does to the one that it comes from, to the one that it goes
/// to, and to the edge.
type EdgeRow = (Write, Side, Side, Side);

/// A write of edge 7 from vertex 1 to itself, and what it does to the vertex and to the edge.
type LoopRow = (Write, Side, Side);

/// A write, the objects that it touches, in order, and the edge that it makes or deletes.
type TouchRow = (Write, [Option<Oid>; 4], Option<Joined>);

const MADE: Side = (Shape::Dead, Shape::Link, Some(Undo::Delete), None);

const LOST: Side = (Shape::Link, Shape::Dead, Some(Undo::RecreateEdge), None);

const MADE_RING: Side = (Shape::Dead, Shape::Ring, Some(Undo::Delete), None);

const LOST_RING: Side = (Shape::Ring, Shape::Dead, Some(Undo::RecreateRing), None);

pub static EDGES: [EdgeRow; 6] = [
    (
        Write::MakeEdge(1, 2),
        (Shape::Plain, Shape::Out, Some(Undo::RemoveOut(7)), None),
        (Shape::Plain, Shape::In, Some(Undo::RemoveIn(7)), None),
        MADE,
    ),
    (
        Write::MakeEdge(1, 2),
        (
            Shape::Other,
            Shape::OtherOut,
            Some(Undo::RemoveOut(7)),
            None,
        ),
        (Shape::Busy, Shape::BusyIn, Some(Undo::RemoveIn(7)), None),
        MADE,
    ),
    (
        Write::MakeEdge(1, 2),
        (Shape::Busy, Shape::BusyOut, Some(Undo::RemoveOut(7)), None),
        (Shape::Other, Shape::OtherIn, Some(Undo::RemoveIn(7)), None),
        MADE,
    ),
    (
        Write::DeleteEdge(1, 2),
        (Shape::Out, Shape::Plain, Some(Undo::AddOut(7)), None),
        (Shape::In, Shape::Plain, Some(Undo::AddIn(7)), None),
        LOST,
    ),
    (
        Write::DeleteEdge(1, 2),
        (Shape::OtherOut, Shape::Other, Some(Undo::AddOut(7)), None),
        (Shape::BusyIn, Shape::Busy, Some(Undo::AddIn(7)), None),
        LOST,
    ),
    (
        Write::DeleteEdge(1, 2),
        (Shape::BusyOut, Shape::Busy, Some(Undo::AddOut(7)), None),
        (Shape::OtherIn, Shape::Other, Some(Undo::AddIn(7)), None),
        LOST,
    ),
];

pub static LOOPS: [LoopRow; 4] = [
    (
        Write::MakeEdge(1, 1),
        (
            Shape::Plain,
            Shape::Loop,
            Some(Undo::RemoveOut(7)),
            Some(Undo::RemoveIn(7)),
        ),
        MADE_RING,
    ),
    (
        Write::MakeEdge(1, 1),
        (
            Shape::Busy,
            Shape::BusyLoop,
            Some(Undo::RemoveOut(7)),
            Some(Undo::RemoveIn(7)),
        ),
        MADE_RING,
    ),
    (
        Write::DeleteEdge(1, 1),
        (
            Shape::Loop,
            Shape::Plain,
            Some(Undo::AddOut(7)),
            Some(Undo::AddIn(7)),
        ),
        LOST_RING,
    ),
    (
        Write::DeleteEdge(1, 1),
        (
            Shape::BusyLoop,
            Shape::Busy,
            Some(Undo::AddOut(7)),
            Some(Undo::AddIn(7)),
        ),
        LOST_RING,
    ),
];

const V1: Option<Oid> = Some(Oid::Vertex(VertexId(1)));

const V2: Option<Oid> = Some(Oid::Vertex(VertexId(2)));

const E7: Option<Oid> = Some(Oid::Edge(EdgeId(7)));

const ONE_TO_TWO: Joined = Joined {
    edge: EdgeId(7),
    from: VertexId(1),
    to: VertexId(2),
};

const TWO_TO_ONE: Joined = Joined {
    edge: EdgeId(7),
    from: VertexId(2),
    to: VertexId(1),
};

const ONE_TO_ONE: Joined = Joined {
    edge: EdgeId(7),
    from: VertexId(1),
    to: VertexId(1),
};

pub const TOUCHES: [TouchRow; 7] = [
    (Write::MakeVertex, [V1, None, None, None], None),
    (Write::Unset(b'a'), [V1, None, None, None], None),
    (Write::SetEdge(b'a', 1), [E7, None, None, None], None),
    (Write::MakeEdge(1, 2), [V1, V2, E7, None], Some(ONE_TO_TWO)),
    (
        Write::DeleteEdge(2, 1),
        [V2, V1, E7, None],
        Some(TWO_TO_ONE),
    ),
    (
        Write::MakeEdge(1, 1),
        [V1, E7, None, None],
        Some(ONE_TO_ONE),
    ),
    (
        Write::DeleteEdge(1, 1),
        [V1, E7, None, None],
        Some(ONE_TO_ONE),
    ),
];

/// Whether the row's write touches these objects and joins these vertices.
pub fn touches_hold(alloc: Global, row: &TouchRow) -> Result<bool, NoMemory> {
    let op = op(alloc, row.0)?;
    Ok(touches_as(&op, row))
}

fn touches_as(op: &Op, row: &TouchRow) -> bool {
    op.joined() == row.2
        && op.touched(0) == row.1[0]
        && op.touched(1) == row.1[1]
        && op.touched(2) == row.1[2]
        && op.touched(3) == row.1[3]
}

/// Whether the row's write leaves these three objects and their deltas, and the deltas lead back.
pub fn edge_holds(alloc: Global, row: &EdgeRow) -> Result<bool, NoMemory> {
    let op = op(alloc, row.0)?;
    from_its_start(alloc, &op, row)
}

fn from_its_start(alloc: Global, op: &Op, row: &EdgeRow) -> Result<bool, NoMemory> {
    let mut from = object(alloc, row.1.0)?;
    to_its_end(alloc, op, &mut from, row)
}

fn to_its_end(alloc: Global, op: &Op, from: &mut Object, row: &EdgeRow) -> Result<bool, NoMemory> {
    let mut to = object(alloc, row.2.0)?;
    with_its_record(alloc, op, from, &mut to, row)
}

fn with_its_record(
    alloc: Global,
    op: &Op,
    from: &mut Object,
    to: &mut Object,
    row: &EdgeRow,
) -> Result<bool, NoMemory> {
    let mut edge = object(alloc, row.3.0)?;
    edge_changed_as(alloc, op, from, to, &mut edge, row)
}

fn edge_changed_as(
    alloc: Global,
    op: &Op,
    from: &mut Object,
    to: &mut Object,
    edge: &mut Object,
    row: &EdgeRow,
) -> Result<bool, NoMemory> {
    let Some(ends) = op.joined() else {
        return Ok(false);
    };
    if ends.from.0 == ends.to.0
        || !is_possible(op, Oid::Vertex(ends.from), from)
        || !is_possible(op, Oid::Vertex(ends.to), to)
        || !is_possible(op, Oid::Edge(ends.edge), edge)
    {
        return Ok(false);
    }
    let deltas = change_edge(alloc, op, ends, from, to, edge)?;
    all_lead_back(alloc, from, to, edge, &deltas, row)
}

fn all_lead_back(
    alloc: Global,
    from: &mut Object,
    to: &mut Object,
    edge: &mut Object,
    deltas: &EdgeDeltas,
    row: &EdgeRow,
) -> Result<bool, NoMemory> {
    let start_holds = leads_back(alloc, from, &deltas.from, &row.1)?;
    let end_holds = leads_back(alloc, to, &deltas.to, &row.2)?;
    let edge_holds = leads_back(alloc, edge, &deltas.edge, &row.3)?;
    Ok(start_holds && end_holds && edge_holds)
}

/// Whether the row's write leaves both objects and their deltas, and the deltas lead back.
pub fn loop_holds(alloc: Global, row: &LoopRow) -> Result<bool, NoMemory> {
    let op = op(alloc, row.0)?;
    at_its_vertex(alloc, &op, row)
}

fn at_its_vertex(alloc: Global, op: &Op, row: &LoopRow) -> Result<bool, NoMemory> {
    let mut end = object(alloc, row.1.0)?;
    round_its_vertex(alloc, op, &mut end, row)
}

fn round_its_vertex(
    alloc: Global,
    op: &Op,
    end: &mut Object,
    row: &LoopRow,
) -> Result<bool, NoMemory> {
    let mut edge = object(alloc, row.2.0)?;
    loop_changed_as(alloc, op, end, &mut edge, row)
}

fn loop_changed_as(
    alloc: Global,
    op: &Op,
    end: &mut Object,
    edge: &mut Object,
    row: &LoopRow,
) -> Result<bool, NoMemory> {
    let Some(ends) = op.joined() else {
        return Ok(false);
    };
    if ends.from.0 != ends.to.0
        || !is_possible(op, Oid::Vertex(ends.from), end)
        || !is_possible(op, Oid::Edge(ends.edge), edge)
    {
        return Ok(false);
    }
    let deltas = change_loop(alloc, op, ends, end, edge)?;
    both_lead_back(alloc, end, edge, &deltas, row)
}

fn both_lead_back(
    alloc: Global,
    end: &mut Object,
    edge: &mut Object,
    deltas: &LoopDeltas,
    row: &LoopRow,
) -> Result<bool, NoMemory> {
    let end_holds = leads_back(alloc, end, &deltas.end, &row.1)?;
    let edge_holds = leads_back(alloc, edge, &deltas.edge, &row.2)?;
    Ok(end_holds && edge_holds)
}
