//! A small graph: `v0` with the labels A and B and the properties k 1, l [1,2] and t "abc", `v1` without any, and `e0` of
//! kind T from `v0` to `v1` with the property w 7. `v2` and `e1` aren't alive.
use crate::CountingReader;
use expr_eval::Row;
use graph_record::{EdgeIds, EdgeRecord, Kind, Labels, NoMemory, Properties, VertexRecord};
use graph_value::{EdgeId, Name, Text, Value, VertexId};
use sqlite_items::Items;
use std::alloc::Global;

fn name(alloc: Global, text: &str) -> Result<Name, NoMemory> {
    if text.is_empty() {
        Name::from_str(alloc, "_")
    } else {
        Name::from_str(alloc, text)
    }
}

fn set(alloc: Global, props: &mut Properties, key: &str, value: Value) -> Result<(), NoMemory> {
    let key = name(alloc, key)?;
    props.set(&key, value)?;
    Ok(())
}

fn list(alloc: Global) -> Result<Value, NoMemory> {
    let mut items = Items::new(alloc);
    items.push(Value::Int(1))?;
    items.push(Value::Int(2))?;
    Ok(Value::List(items))
}

fn first_props(alloc: Global) -> Result<Properties, NoMemory> {
    let mut props = Properties::new(alloc);
    set(alloc, &mut props, "k", Value::Int(1))?;
    let text = Text::from_str(alloc, "abc")?;
    set(alloc, &mut props, "t", Value::Text(text))?;
    let list = list(alloc)?;
    set(alloc, &mut props, "l", list)?;
    Ok(props)
}

fn first_labels(alloc: Global) -> Result<Labels, NoMemory> {
    let mut labels = Labels::new(alloc);
    labels.add(name(alloc, "B")?)?;
    labels.add(name(alloc, "A")?)?;
    Ok(labels)
}

fn first_vertex(alloc: Global) -> Result<VertexRecord, NoMemory> {
    Ok(VertexRecord {
        labels: first_labels(alloc)?,
        props: first_props(alloc)?,
        outs: EdgeIds::new(alloc),
        ins: EdgeIds::new(alloc),
    })
}

fn edge_props(alloc: Global) -> Result<Properties, NoMemory> {
    let mut props = Properties::new(alloc);
    set(alloc, &mut props, "w", Value::Int(7))?;
    Ok(props)
}

fn edge(alloc: Global) -> Result<EdgeRecord, NoMemory> {
    Ok(EdgeRecord {
        kind: Kind::new(alloc, name(alloc, "T")?)?,
        from: VertexId(0),
        to: VertexId(1),
        props: edge_props(alloc)?,
    })
}

fn vertices(alloc: Global) -> Result<Items<(VertexId, VertexRecord)>, NoMemory> {
    let mut vertices = Items::new(alloc);
    vertices.push((VertexId(0), first_vertex(alloc)?))?;
    vertices.push((VertexId(1), VertexRecord::empty(alloc)))?;
    Ok(vertices)
}

fn edges(alloc: Global) -> Result<Items<(EdgeId, EdgeRecord)>, NoMemory> {
    let mut edges = Items::new(alloc);
    edges.push((EdgeId(0), edge(alloc)?))?;
    Ok(edges)
}

pub(crate) fn small_graph(alloc: Global) -> Result<CountingReader, NoMemory> {
    Ok(CountingReader {
        vertices: vertices(alloc)?,
        edges: edges(alloc)?,
        asked: 0,
        wanting: 0,
    })
}

fn bind(alloc: Global, row: &mut Row, key: &str, value: Value) -> Result<(), NoMemory> {
    let key = name(alloc, key)?;
    row.push((key, value))
}

/// The names a for `v0`, b for `v1`, e for `e0`, gone for `v2`, lost for `e1`, n for null and x for 5.
pub(crate) fn small_row(alloc: Global) -> Result<Row, NoMemory> {
    let mut row = Items::new(alloc);
    bind(alloc, &mut row, "a", Value::Vertex(VertexId(0)))?;
    bind(alloc, &mut row, "b", Value::Vertex(VertexId(1)))?;
    bind(alloc, &mut row, "e", Value::Edge(EdgeId(0)))?;
    bind(alloc, &mut row, "gone", Value::Vertex(VertexId(2)))?;
    bind(alloc, &mut row, "lost", Value::Edge(EdgeId(1)))?;
    bind(alloc, &mut row, "n", Value::Null)?;
    bind(alloc, &mut row, "x", Value::Int(5))?;
    Ok(row)
}
