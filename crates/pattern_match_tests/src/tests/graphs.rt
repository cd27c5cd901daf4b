//! Small graphs. Each vertex stands with its labels and its property k, each edge with its kind and its property w.
use expr_eval_tests::CountingReader;
use graph_record::{EdgeRecord, Kind, NoMemory, Properties, VertexRecord};
use graph_value::{EdgeId, Name, Value, VertexId};
use sqlite_items::Items;
use std::alloc::Global;

/// The labels of a vertex, parted by spaces, and its property k.
type VertexRow = (&'static str, i64);

/// The ends of an edge, its kind and its property w.
type EdgeRow = (u64, &'static str, u64, i64);

/// The graphs by name.
#[derive(Clone, Copy, PartialEq, Eq)]
pub(crate) enum Shape {
    /// No vertex.
    Empty,
    /// One vertex with two loops.
    Loops,
    /// `v0` to `v1` by one edge.
    Pair,
    /// Two edges of one kind from `v0` to `v1`, and one back.
    Double,
    /// `v0` to `v1` to `v2` and back to `v0`, and a loop at `v2`.
    Ring,
    /// Four people and two towns: who knows whom, and who lives where.
    Town,
    /// Fifty vertices, of which five have edges.
    Wide,
    /// `v1`, and a vertex whose number is no integer.
    Far,
}

static LOOPS: [VertexRow; 1] = [("A", 1)];

static LOOPS_EDGES: [EdgeRow; 2] = [(0, "T", 0, 1), (0, "U", 0, 2)];

static PAIR: [VertexRow; 2] = [("A", 1), ("B", 2)];

static PAIR_EDGES: [EdgeRow; 1] = [(0, "T", 1, 7)];

static DOUBLE_EDGES: [EdgeRow; 3] = [(0, "T", 1, 1), (0, "T", 1, 2), (1, "U", 0, 3)];

static RING: [VertexRow; 3] = [("A", 1), ("A B", 2), ("B", 2)];

static RING_EDGES: [EdgeRow; 4] = [
    (0, "T", 1, 1),
    (1, "T", 2, 2),
    (2, "T", 0, 3),
    (2, "U", 2, 4),
];

static TOWN: [VertexRow; 6] = [
    ("P", 30),
    ("P", 20),
    ("P Q", 30),
    ("P", 40),
    ("C", 1),
    ("C", 2),
];

static TOWN_EDGES: [EdgeRow; 7] = [
    (0, "KNOWS", 1, 1),
    (1, "KNOWS", 2, 2),
    (0, "KNOWS", 2, 3),
    (2, "KNOWS", 0, 4),
    (0, "LIVES", 4, 0),
    (1, "LIVES", 4, 0),
    (2, "LIVES", 5, 0),
];

static WIDE: [VertexRow; 50] = [("A", 1); 50];

static WIDE_EDGES: [EdgeRow; 5] = [
    (7, "T", 3, 1),
    (9, "T", 3, 2),
    (3, "T", 8, 3),
    (9, "T", 3, 4),
    (40, "T", 9, 5),
];

fn name(alloc: Global, text: &str) -> Result<Name, NoMemory> {
    if text.is_empty() {
        Name::from_str(alloc, "_")
    } else {
        Name::from_str(alloc, text)
    }
}

fn property(alloc: Global, key: &str, n: i64) -> Result<Properties, NoMemory> {
    let mut props = Properties::new(alloc);
    let key = name(alloc, key)?;
    props.set(&key, Value::Int(n))?;
    Ok(props)
}

fn add_labels(alloc: Global, vertex: &mut VertexRecord, labels: &str) -> Result<(), NoMemory> {
    for label in labels.split(' ') {
        vertex.labels.add(name(alloc, label)?)?;
    }
    Ok(())
}

fn add_edges(
    vertex: &mut VertexRecord,
    id: VertexId,
    edges: &'static [EdgeRow],
) -> Result<(), NoMemory> {
    let mut e = EdgeId(0);
    for (from, _, to, _) in edges {
        if *from == id.0 {
            vertex.outs.add(e)?;
        }
        if *to == id.0 {
            vertex.ins.add(e)?;
        }
        e = EdgeId(e.0.saturating_add(1));
    }
    Ok(())
}

fn vertex(
    alloc: Global,
    id: VertexId,
    row: &'static VertexRow,
    edges: &'static [EdgeRow],
) -> Result<VertexRecord, NoMemory> {
    let mut vertex = VertexRecord::empty(alloc);
    vertex.props = property(alloc, "k", row.1)?;
    add_labels(alloc, &mut vertex, row.0)?;
    add_edges(&mut vertex, id, edges)?;
    Ok(vertex)
}

fn edge(alloc: Global, row: &'static EdgeRow) -> Result<EdgeRecord, NoMemory> {
    Ok(EdgeRecord {
        kind: Kind::new(alloc, name(alloc, row.1)?)?,
        from: VertexId(row.0),
        to: VertexId(row.2),
        props: property(alloc, "w", row.3)?,
    })
}

fn all_vertices(
    alloc: Global,
    rows: &'static [VertexRow],
    edges: &'static [EdgeRow],
) -> Result<Items<(VertexId, VertexRecord)>, NoMemory> {
    let mut vertices = Items::new(alloc);
    let mut id = VertexId(0);
    for row in rows {
        vertices.push((id, vertex(alloc, id, row, edges)?))?;
        id = VertexId(id.0.saturating_add(1));
    }
    Ok(vertices)
}

fn all_edges(
    alloc: Global,
    rows: &'static [EdgeRow],
) -> Result<Items<(EdgeId, EdgeRecord)>, NoMemory> {
    let mut edges = Items::new(alloc);
    let mut id = EdgeId(0);
    for row in rows {
        edges.push((id, edge(alloc, row)?))?;
        id = EdgeId(id.0.saturating_add(1));
    }
    Ok(edges)
}

fn reader(
    alloc: Global,
    vertices: &'static [VertexRow],
    edges: &'static [EdgeRow],
) -> Result<CountingReader, NoMemory> {
    Ok(CountingReader {
        vertices: all_vertices(alloc, vertices, edges)?,
        edges: all_edges(alloc, edges)?,
        asked: 0,
        wanting: 0,
    })
}

/// Vertices with no edges, of these numbers.
fn vertices_at(alloc: Global, numbers: &[u64]) -> Result<CountingReader, NoMemory> {
    let mut vertices = Items::new(alloc);
    for number in numbers {
        let id = VertexId(*number);
        vertices.push((id, vertex(alloc, id, &("A", 1), &[])?))?;
    }
    Ok(CountingReader {
        vertices,
        edges: Items::new(alloc),
        asked: 0,
        wanting: 0,
    })
}

pub(crate) fn graph(alloc: Global, shape: Shape) -> Result<CountingReader, NoMemory> {
    match shape {
        Shape::Empty => reader(alloc, &[], &[]),
        Shape::Loops => reader(alloc, &LOOPS, &LOOPS_EDGES),
        Shape::Pair => reader(alloc, &PAIR, &PAIR_EDGES),
        Shape::Double => reader(alloc, &PAIR, &DOUBLE_EDGES),
        Shape::Ring => reader(alloc, &RING, &RING_EDGES),
        Shape::Town => reader(alloc, &TOWN, &TOWN_EDGES),
        Shape::Wide => reader(alloc, &WIDE, &WIDE_EDGES),
        Shape::Far => vertices_at(alloc, &[1, 9_223_372_036_854_775_808]),
    }
}
