//! A small graph: `v0` with the label A and the property k 1, `v1` with k 2, `v2` with k 3, and edges of kind T with the
//! property w: `e0` from `v0` to `v1`, `e1` from `v1` to `v2`, `e2` from `v2` to `v0`, and `e3`, a loop at `v0`.
use expr_eval_tests::CountingReader;
use graph_record::{EdgeRecord, Kind, NoMemory, Properties, VertexRecord};
use graph_value::{EdgeId, Name, Value, VertexId};
use sqlite_items::Items;
use std::alloc::Global;

/// The ends of each edge.
static EDGES: [(u64, u64); 4] = [(0, 1), (1, 2), (2, 0), (0, 0)];

fn name(alloc: Global, text: &str) -> Result<Name, NoMemory> {
    if text.is_empty() {
        Name::from_str(alloc, "_")
    } else {
        Name::from_str(alloc, text)
    }
}

fn property(alloc: Global, key: &str, n: i64) -> Result<Properties, NoMemory> {
    let mut props = Properties::new(alloc);
    let key = name(alloc, key)?;
    props.set(&key, Value::Int(n))?;
    Ok(props)
}

fn add_edges(vertex: &mut VertexRecord, id: u64) -> Result<(), NoMemory> {
    let mut e = EdgeId(0);
    for (from, to) in EDGES.iter() {
        if *from == id {
            vertex.outs.add(e)?;
        }
        if *to == id {
            vertex.ins.add(e)?;
        }
        e = EdgeId(e.0.saturating_add(1));
    }
    Ok(())
}

fn vertex(alloc: Global, id: u64, k: i64) -> Result<VertexRecord, NoMemory> {
    let mut vertex = VertexRecord::empty(alloc);
    vertex.props = property(alloc, "k", k)?;
    add_edges(&mut vertex, id)?;
    Ok(vertex)
}

fn vertices(alloc: Global) -> Result<Items<(VertexId, VertexRecord)>, NoMemory> {
    let mut vertices = Items::new(alloc);
    let mut first = vertex(alloc, 0, 1)?;
    first.labels.add(name(alloc, "A")?)?;
    vertices.push((VertexId(0), first))?;
    vertices.push((VertexId(1), vertex(alloc, 1, 2)?))?;
    vertices.push((VertexId(2), vertex(alloc, 2, 3)?))?;
    Ok(vertices)
}

fn edge(alloc: Global, from: u64, to: u64) -> Result<EdgeRecord, NoMemory> {
    Ok(EdgeRecord {
        kind: Kind::new(alloc, name(alloc, "T")?)?,
        from: VertexId(from),
        to: VertexId(to),
        props: property(alloc, "w", 7)?,
    })
}

fn edges(alloc: Global) -> Result<Items<(EdgeId, EdgeRecord)>, NoMemory> {
    let mut edges = Items::new(alloc);
    let mut id = EdgeId(0);
    for (from, to) in EDGES.iter() {
        edges.push((id, edge(alloc, *from, *to)?))?;
        id = EdgeId(id.0.saturating_add(1));
    }
    Ok(edges)
}

/// The graph. The call of this number finds no memory, counted from 1.
pub(crate) fn small_graph(alloc: Global, wanting: u64) -> Result<CountingReader, NoMemory> {
    Ok(CountingReader {
        vertices: vertices(alloc)?,
        edges: edges(alloc)?,
        asked: 0,
        wanting,
    })
}
