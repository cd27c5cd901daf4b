//! Objects and deltas written out. Labels and names are single letters, and values numbers.
ghost use Rattle.std.specs.Prelude.{◌<◌, length};

use graph_record::{EdgeIds, EdgeRecord, Kind, Labels, Object, Properties, VertexRecord};
use graph_value::{EdgeId, Name, Value, VertexId};
use std::alloc::Global;
use undo_delta::{Delta, Former, NoMemory, Setting};

/// An object that is written out. It holds no reference: a table of names is cheap to prove.
#[derive(Clone, Copy, PartialEq, Eq)]
pub enum Shape {
    Dead,
    /// A vertex without anything.
    Plain,
    /// Vertices with these labels.
    A,
    B,
    Ab,
    /// Vertices with these properties: `a` is 1; `a` is 2; `a` is 1 and `b` is 5; `b` is 5.
    One,
    Two,
    Both,
    Last,
    /// Vertices with edge 7 among those that leave, among those that come, and among both.
    Out,
    In,
    Loop,
    /// A vertex that edge 3 leaves and comes to, and the same with edge 7 besides.
    Other,
    OtherOut,
    OtherIn,
    OtherLoop,
    /// A vertex that edges 3 and 9 leave, and edge 3 comes to, and the same with edge 7 besides.
    Busy,
    BusyOut,
    BusyIn,
    BusyLoop,
    /// Edges of the kind `a`: from 1 to 2; from 1 to 1; from 1 to 2, and `a` is 1.
    Link,
    Ring,
    Weighed,
}

fn labels_of(shape: Shape) -> &'static [u8] {
    match shape {
        Shape::A => b"a",
        Shape::B => b"b",
        Shape::Ab => b"ab",
        _ => b"",
    }
}

fn properties_of(shape: Shape) -> &'static [(u8, i64)] {
    match shape {
        Shape::One | Shape::Weighed => &[(b'a', 1)],
        Shape::Two => &[(b'a', 2)],
        Shape::Both => &[(b'a', 1), (b'b', 5)],
        Shape::Last => &[(b'b', 5)],
        _ => &[],
    }
}

fn outs_of(shape: Shape) -> &'static [u64] {
    match shape {
        Shape::Out | Shape::Loop => &[7],
        Shape::Other | Shape::OtherIn => &[3],
        Shape::OtherOut | Shape::OtherLoop => &[3, 7],
        Shape::Busy | Shape::BusyIn => &[3, 9],
        Shape::BusyOut | Shape::BusyLoop => &[3, 7, 9],
        _ => &[],
    }
}

fn ins_of(shape: Shape) -> &'static [u64] {
    match shape {
        Shape::In | Shape::Loop => &[7],
        Shape::Other | Shape::OtherOut | Shape::Busy | Shape::BusyOut => &[3],
        Shape::OtherIn | Shape::OtherLoop | Shape::BusyIn | Shape::BusyLoop => &[3, 7],
        _ => &[],
    }
}

/// The vertices that an edge joins.
fn ends_of(shape: Shape) -> (u64, u64) {
    match shape {
        Shape::Ring => (1, 1),
        _ => (1, 2),
    }
}

#[derive(Clone, Copy)]
pub enum Undo {
    Delete,
    /// What the object was is a vertex without anything, or an edge of the kind `a`, from 1 to 2 or from 1 to 1.
    RecreateVertex,
    RecreateEdge,
    RecreateRing,
    AddLabel(u8),
    RemoveLabel(u8),
    Set(u8, i64),
    Unset(u8),
    AddIn(u64),
    AddOut(u64),
    RemoveIn(u64),
    RemoveOut(u64),
}

pub fn letter(alloc: Global, byte: u8) -> Result<Name, NoMemory> {
    Name::from_str(alloc, text(byte))
}

fn text(byte: u8) -> &'static str
    ensures { 0 < length result.now }
{
    match byte {
        b'a' => "a",
        b'b' => "b",
        _ => "c",
    }
}

fn put_labels(alloc: Global, labels: &mut Labels, letters: &[u8]) -> Result<(), NoMemory> {
    for byte in letters {
        labels.add(letter(alloc, *byte)?)?;
    }
    Ok(())
}

fn put_properties(
    alloc: Global,
    props: &mut Properties,
    pairs: &[(u8, i64)],
) -> Result<(), NoMemory> {
    for (byte, n) in pairs {
        props.set(&letter(alloc, *byte)?, Value::Int(*n))?;
    }
    Ok(())
}

fn put_edges(ids: &mut EdgeIds, numbers: &[u64]) -> Result<(), NoMemory> {
    for n in numbers {
        ids.add(EdgeId(*n))?;
    }
    Ok(())
}

pub fn object(alloc: Global, shape: Shape) -> Result<Object, NoMemory> {
    match shape {
        Shape::Dead => Ok(Object::Dead),
        Shape::Link | Shape::Ring | Shape::Weighed => Ok(Object::Edge(edge(alloc, shape)?)),
        _ => Ok(Object::Vertex(vertex(alloc, shape)?)),
    }
}

fn vertex(alloc: Global, shape: Shape) -> Result<VertexRecord, NoMemory> {
    let mut vertex = VertexRecord::empty(alloc);
    fill_vertex(alloc, &mut vertex, shape)?;
    Ok(vertex)
}

fn fill_vertex(alloc: Global, vertex: &mut VertexRecord, shape: Shape) -> Result<(), NoMemory> {
    put_labels(alloc, &mut vertex.labels, labels_of(shape))?;
    put_properties(alloc, &mut vertex.props, properties_of(shape))?;
    put_edges(&mut vertex.outs, outs_of(shape))?;
    put_edges(&mut vertex.ins, ins_of(shape))
}

fn edge(alloc: Global, shape: Shape) -> Result<EdgeRecord, NoMemory> {
    let mut edge = bare_edge(alloc, ends_of(shape))?;
    put_properties(alloc, &mut edge.props, properties_of(shape))?;
    Ok(edge)
}

fn bare_edge(alloc: Global, ends: (u64, u64)) -> Result<EdgeRecord, NoMemory> {
    Ok(EdgeRecord {
        kind: Kind::new(alloc, letter(alloc, b'a')?)?,
        from: VertexId(ends.0),
        to: VertexId(ends.1),
        props: Properties::new(alloc),
    })
}

fn are_labels(labels: &Labels, letters: &[u8]) -> bool {
    labels.len() == letters.len() && letters.iter().all(|byte| labels.contains(text(*byte)))
}

fn are_properties(props: &Properties, pairs: &[(u8, i64)]) -> bool {
    props.len() == pairs.len()
        && pairs
            .iter()
            .all(|(byte, n)| is_number(props.get(text(*byte)), *n))
}

fn is_number(value: Option<&Value>, n: i64) -> bool {
    matches!(value, Some(Value::Int(m)) if *m == n)
}

fn are_edges(ids: &EdgeIds, numbers: &[u64]) -> bool {
    ids.len() == numbers.len() && numbers.iter().all(|n| ids.contains(EdgeId(*n)))
}

/// Whether the object is the one that is written out.
pub fn is_shape(object: &Object, shape: Shape) -> bool {
    match (object, shape) {
        (Object::Dead, _) => shape == Shape::Dead,
        (_, Shape::Dead) => false,
        (Object::Edge(edge), Shape::Link | Shape::Ring | Shape::Weighed) => is_edge(edge, shape),
        (Object::Edge(_), _) | (_, Shape::Link | Shape::Ring | Shape::Weighed) => false,
        (Object::Vertex(vertex), _) => is_vertex(vertex, shape),
    }
}

fn is_vertex(vertex: &VertexRecord, shape: Shape) -> bool {
    are_labels(&vertex.labels, labels_of(shape))
        && are_properties(&vertex.props, properties_of(shape))
        && are_edges(&vertex.outs, outs_of(shape))
        && are_edges(&vertex.ins, ins_of(shape))
}

fn is_edge(edge: &EdgeRecord, shape: Shape) -> bool {
    edge.kind.as_str() == "a"
        && (edge.from.0, edge.to.0) == ends_of(shape)
        && are_properties(&edge.props, properties_of(shape))
}

/// Whether the delta is the one that is written out.
pub fn is_undo(delta: Option<&Delta>, undo: Option<Undo>) -> bool {
    match (delta, undo) {
        (None, None) => true,
        (Some(delta), Some(undo)) => is_one_undo(delta, undo),
        _ => false,
    }
}

fn is_one_undo(delta: &Delta, undo: Undo) -> bool {
    match delta {
        Delta::DeleteObject => matches!(undo, Undo::Delete),
        Delta::RecreateObject(former) => is_former(former.as_object(), undo),
        Delta::AddLabel(name) =>
            matches!(undo, Undo::AddLabel(byte) if name.as_str() == text(byte)),
        Delta::RemoveLabel(name) => {
            matches!(undo, Undo::RemoveLabel(byte) if name.as_str() == text(byte))
        }
        Delta::SetProperty(setting) => is_setting(setting, undo),
        Delta::AddInEdge(id) => matches!(undo, Undo::AddIn(n) if id.0 == n),
        Delta::AddOutEdge(id) => matches!(undo, Undo::AddOut(n) if id.0 == n),
        Delta::RemoveInEdge(id) => matches!(undo, Undo::RemoveIn(n) if id.0 == n),
        Delta::RemoveOutEdge(id) => matches!(undo, Undo::RemoveOut(n) if id.0 == n),
    }
}

fn is_former(former: &Object, undo: Undo) -> bool {
    match undo {
        Undo::RecreateVertex => is_shape(former, Shape::Plain),
        Undo::RecreateEdge => is_shape(former, Shape::Link),
        Undo::RecreateRing => is_shape(former, Shape::Ring),
        _ => false,
    }
}

fn is_setting(setting: &Setting, undo: Undo) -> bool {
    match undo {
        Undo::Set(byte, n) => {
            setting.name().as_str() == text(byte) && is_number(Some(setting.value()), n)
        }
        Undo::Unset(byte) => {
            setting.name().as_str() == text(byte) && matches!(setting.value(), Value::Null)
        }
        _ => false,
    }
}

pub fn delta(alloc: Global, undo: Undo) -> Result<Delta, NoMemory> {
    match undo {
        Undo::Delete => Ok(Delta::DeleteObject),
        Undo::RecreateVertex => recreate(alloc, Shape::Plain),
        Undo::RecreateEdge => recreate(alloc, Shape::Link),
        Undo::RecreateRing => recreate(alloc, Shape::Ring),
        Undo::AddLabel(byte) => Ok(Delta::AddLabel(letter(alloc, byte)?)),
        Undo::RemoveLabel(byte) => Ok(Delta::RemoveLabel(letter(alloc, byte)?)),
        Undo::Set(byte, n) => set(alloc, byte, n),
        Undo::Unset(byte) => unset(alloc, byte),
        Undo::AddIn(n) => Ok(Delta::AddInEdge(EdgeId(n))),
        Undo::AddOut(n) => Ok(Delta::AddOutEdge(EdgeId(n))),
        Undo::RemoveIn(n) => Ok(Delta::RemoveInEdge(EdgeId(n))),
        Undo::RemoveOut(n) => Ok(Delta::RemoveOutEdge(EdgeId(n))),
    }
}

fn recreate(alloc: Global, shape: Shape) -> Result<Delta, NoMemory> {
    let mut former = object(alloc, shape)?;
    take(alloc, &mut former)
}

fn take(alloc: Global, former: &mut Object) -> Result<Delta, NoMemory> {
    Ok(Delta::RecreateObject(Former::take(alloc, former)?))
}

fn set(alloc: Global, byte: u8, n: i64) -> Result<Delta, NoMemory> {
    let mut setting = Setting::room(alloc, letter(alloc, byte)?)?;
    setting.fill(Value::Int(n));
    Ok(Delta::SetProperty(setting))
}

fn unset(alloc: Global, byte: u8) -> Result<Delta, NoMemory> {
    Ok(Delta::SetProperty(Setting::room(alloc, letter(alloc, byte)?)?))
}
