//! The rows: what each write and each delta is done to, and what has to come of it.
use crate::premises::{is_possible, is_touched};
use crate::shape::{Shape, Undo, delta, is_shape, is_undo, letter, object};
use graph_record::Object;
use graph_value::{EdgeId, Oid, Value, VertexId};
use std::alloc::Global;
use undo_delta::{Delta, DeltaPair, GraphUndo, NoMemory, Op, change};
use undo_law::Undo as _;

/// A write, with its numbers and letters.
#[derive(Clone, Copy)]
pub enum Write {
    MakeVertex,
    DeleteVertex,
    AddLabel(u8),
    RemoveLabel(u8),
    Set(u8, i64),
    Unset(u8),
    /// Of edge 7, from one vertex to another.
    MakeEdge(u64, u64),
    DeleteEdge(u64, u64),
    SetEdge(u8, i64),
    UnsetEdge(u8),
}

/// Whether the write is of edge 7 and not of vertex 1; the object before; the write; the object after; and the deltas,
/// the older first.
type WriteRow = (bool, Shape, Write, Shape, Option<Undo>, Option<Undo>);

/// An object before a write and after it, and the deltas that the write leaves on it, the older first.
pub type Side = (Shape, Shape, Option<Undo>, Option<Undo>);

/// The object before, the delta, and the object after.
type DeltaRow = (Shape, Undo, Shape);

pub static WRITES: [WriteRow; 24] = [
    (
        false,
        Shape::Dead,
        Write::MakeVertex,
        Shape::Plain,
        Some(Undo::Delete),
        None,
    ),
    (
        false,
        Shape::Plain,
        Write::DeleteVertex,
        Shape::Dead,
        Some(Undo::RecreateVertex),
        None,
    ),
    (
        false,
        Shape::B,
        Write::AddLabel(b'a'),
        Shape::Ab,
        Some(Undo::RemoveLabel(b'a')),
        None,
    ),
    (
        false,
        Shape::Ab,
        Write::AddLabel(b'b'),
        Shape::Ab,
        None,
        None,
    ),
    (
        false,
        Shape::Ab,
        Write::RemoveLabel(b'b'),
        Shape::A,
        Some(Undo::AddLabel(b'b')),
        None,
    ),
    (
        false,
        Shape::A,
        Write::RemoveLabel(b'c'),
        Shape::A,
        None,
        None,
    ),
    (
        false,
        Shape::Plain,
        Write::Set(b'a', 1),
        Shape::One,
        Some(Undo::Unset(b'a')),
        None,
    ),
    (
        false,
        Shape::One,
        Write::Set(b'a', 2),
        Shape::Two,
        Some(Undo::Set(b'a', 1)),
        None,
    ),
    (
        false,
        Shape::One,
        Write::Set(b'a', 1),
        Shape::One,
        None,
        None,
    ),
    (
        false,
        Shape::Both,
        Write::Unset(b'a'),
        Shape::Last,
        Some(Undo::Set(b'a', 1)),
        None,
    ),
    (
        false,
        Shape::One,
        Write::Unset(b'b'),
        Shape::One,
        None,
        None,
    ),
    (
        false,
        Shape::Plain,
        Write::MakeEdge(1, 2),
        Shape::Out,
        Some(Undo::RemoveOut(7)),
        None,
    ),
    (
        false,
        Shape::Plain,
        Write::MakeEdge(2, 1),
        Shape::In,
        Some(Undo::RemoveIn(7)),
        None,
    ),
    (
        false,
        Shape::Plain,
        Write::MakeEdge(1, 1),
        Shape::Loop,
        Some(Undo::RemoveOut(7)),
        Some(Undo::RemoveIn(7)),
    ),
    (
        false,
        Shape::Other,
        Write::MakeEdge(1, 1),
        Shape::OtherLoop,
        Some(Undo::RemoveOut(7)),
        Some(Undo::RemoveIn(7)),
    ),
    (
        false,
        Shape::Busy,
        Write::MakeEdge(1, 1),
        Shape::BusyLoop,
        Some(Undo::RemoveOut(7)),
        Some(Undo::RemoveIn(7)),
    ),
    (
        false,
        Shape::Out,
        Write::DeleteEdge(1, 2),
        Shape::Plain,
        Some(Undo::AddOut(7)),
        None,
    ),
    (
        false,
        Shape::In,
        Write::DeleteEdge(2, 1),
        Shape::Plain,
        Some(Undo::AddIn(7)),
        None,
    ),
    (
        false,
        Shape::BusyLoop,
        Write::DeleteEdge(1, 1),
        Shape::Busy,
        Some(Undo::AddOut(7)),
        Some(Undo::AddIn(7)),
    ),
    (
        true,
        Shape::Dead,
        Write::MakeEdge(1, 2),
        Shape::Link,
        Some(Undo::Delete),
        None,
    ),
    (
        true,
        Shape::Link,
        Write::DeleteEdge(1, 2),
        Shape::Dead,
        Some(Undo::RecreateEdge),
        None,
    ),
    (
        true,
        Shape::Link,
        Write::SetEdge(b'a', 1),
        Shape::Weighed,
        Some(Undo::Unset(b'a')),
        None,
    ),
    (
        true,
        Shape::Weighed,
        Write::SetEdge(b'a', 1),
        Shape::Weighed,
        None,
        None,
    ),
    (
        true,
        Shape::Weighed,
        Write::UnsetEdge(b'a'),
        Shape::Link,
        Some(Undo::Set(b'a', 1)),
        None,
    ),
];

pub static DELTAS: [DeltaRow; 26] = [
    (Shape::Plain, Undo::Delete, Shape::Dead),
    (Shape::Dead, Undo::RecreateVertex, Shape::Plain),
    (Shape::Dead, Undo::RecreateEdge, Shape::Link),
    (Shape::B, Undo::AddLabel(b'a'), Shape::Ab),
    (Shape::Ab, Undo::AddLabel(b'a'), Shape::Ab),
    (Shape::Link, Undo::AddLabel(b'a'), Shape::Link),
    (Shape::Ab, Undo::RemoveLabel(b'a'), Shape::B),
    (Shape::B, Undo::RemoveLabel(b'a'), Shape::B),
    (Shape::Dead, Undo::RemoveLabel(b'a'), Shape::Dead),
    (Shape::Two, Undo::Set(b'a', 1), Shape::One),
    (Shape::Link, Undo::Set(b'a', 1), Shape::Weighed),
    (Shape::Weighed, Undo::Unset(b'a'), Shape::Link),
    (Shape::Plain, Undo::Unset(b'a'), Shape::Plain),
    (Shape::Dead, Undo::Set(b'a', 1), Shape::Dead),
    (Shape::Plain, Undo::AddIn(7), Shape::In),
    (Shape::In, Undo::AddIn(7), Shape::In),
    (Shape::Link, Undo::AddIn(7), Shape::Link),
    (Shape::In, Undo::AddOut(7), Shape::Loop),
    (Shape::Out, Undo::AddOut(7), Shape::Out),
    (Shape::Dead, Undo::AddOut(7), Shape::Dead),
    (Shape::Loop, Undo::RemoveIn(7), Shape::Out),
    (Shape::Out, Undo::RemoveIn(7), Shape::Out),
    (Shape::Link, Undo::RemoveIn(7), Shape::Link),
    (Shape::Loop, Undo::RemoveOut(7), Shape::In),
    (Shape::In, Undo::RemoveOut(7), Shape::In),
    (Shape::Dead, Undo::RemoveOut(7), Shape::Dead),
];

pub fn op(alloc: Global, write: Write) -> Result<Op, NoMemory> {
    let v = VertexId(1);
    match write {
        Write::MakeVertex => Ok(Op::CreateVertex(v)),
        Write::DeleteVertex => Ok(Op::DeleteVertex(v)),
        Write::AddLabel(byte) => Ok(Op::AddLabel(v, letter(alloc, byte)?)),
        Write::RemoveLabel(byte) => Ok(Op::RemoveLabel(v, letter(alloc, byte)?)),
        Write::Set(byte, n) => Ok(Op::SetVertexProp(v, letter(alloc, byte)?, Value::Int(n))),
        Write::Unset(byte) => Ok(Op::SetVertexProp(v, letter(alloc, byte)?, Value::Null)),
        _ => edge_op(alloc, write),
    }
}

fn edge_op(alloc: Global, write: Write) -> Result<Op, NoMemory> {
    let id = EdgeId(7);
    match write {
        Write::DeleteEdge(from, to) => Ok(Op::DeleteEdge {
            id,
            from: VertexId(from),
            to: VertexId(to),
        }),
        Write::SetEdge(byte, n) => Ok(Op::SetEdgeProp(id, letter(alloc, byte)?, Value::Int(n))),
        Write::UnsetEdge(byte) => Ok(Op::SetEdgeProp(id, letter(alloc, byte)?, Value::Null)),
        Write::MakeEdge(from, to) => make_edge(alloc, from, to),
        _ => make_edge(alloc, 0, 0),
    }
}

fn make_edge(alloc: Global, from: u64, to: u64) -> Result<Op, NoMemory> {
    Ok(Op::CreateEdge {
        id: EdgeId(7),
        from: VertexId(from),
        kind: letter(alloc, b'a')?,
        to: VertexId(to),
    })
}

/// Whether the row's write leaves this object and these deltas, and the deltas lead back.
pub fn write_holds(alloc: Global, row: &WriteRow) -> Result<bool, NoMemory> {
    let mut work = object(alloc, row.1)?;
    written_as(alloc, &mut work, row)
}

fn written_as(alloc: Global, work: &mut Object, row: &WriteRow) -> Result<bool, NoMemory> {
    let op = op(alloc, row.2)?;
    changed_as(alloc, work, &op, row)
}

fn changed_as(alloc: Global, work: &mut Object, op: &Op, row: &WriteRow) -> Result<bool, NoMemory> {
    let x = if row.0 {
        Oid::Edge(EdgeId(7))
    } else {
        Oid::Vertex(VertexId(1))
    };
    if !is_touched(op, x) || !is_possible(op, x, work) {
        return Ok(false);
    }
    let pair = change(alloc, x, work, op)?;
    leads_back(alloc, work, &pair, &(row.1, row.3, row.4, row.5))
}

/// Whether the object and the deltas are those after the write, and the deltas lead back to the object before it.
pub fn leads_back(
    alloc: Global,
    work: &mut Object,
    pair: &DeltaPair,
    side: &Side,
) -> Result<bool, NoMemory> {
    let is_done = is_shape(work, side.1)
        && is_undo(pair.first.as_ref(), side.2)
        && is_undo(pair.second.as_ref(), side.3);
    undo(alloc, work, pair.second.as_ref())?;
    undo(alloc, work, pair.first.as_ref())?;
    Ok(is_done && is_shape(work, side.0))
}

fn undo(alloc: Global, work: &mut Object, delta: Option<&Delta>) -> Result<(), NoMemory> {
    match delta {
        Some(delta) => GraphUndo::apply(alloc, work, delta),
        None => Ok(()),
    }
}

/// Whether the row's delta leaves this object, as a copy of it does.
pub fn delta_holds(alloc: Global, row: &DeltaRow) -> Result<bool, NoMemory> {
    let mut work = object(alloc, row.0)?;
    undone_as(alloc, &mut work, row)
}

fn undone_as(alloc: Global, work: &mut Object, row: &DeltaRow) -> Result<bool, NoMemory> {
    let made = delta(alloc, row.1)?;
    undo_copy(alloc, work, &made)?;
    Ok(is_shape(work, row.2))
}

fn undo_copy(alloc: Global, work: &mut Object, made: &Delta) -> Result<(), NoMemory> {
    let copy = GraphUndo::copy_delta(alloc, made)?;
    GraphUndo::apply(alloc, work, &copy)
}
