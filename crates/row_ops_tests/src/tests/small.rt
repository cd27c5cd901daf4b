//! A small graph, `v0` with the property k 1 and `v1` without any, and a row that names them a and b. `v2` isn't alive.
use expr_eval::{Row, Table};
use expr_eval_tests::CountingReader;
use graph_record::{EdgeIds, Labels, NoMemory, Properties, VertexRecord};
use graph_value::{Name, Value, VertexId};
use sqlite_items::Items;
use std::alloc::Global;

fn bare(alloc: Global) -> VertexRecord {
    VertexRecord {
        labels: Labels::new(alloc),
        props: Properties::new(alloc),
        outs: EdgeIds::new(alloc),
        ins: EdgeIds::new(alloc),
    }
}

fn first(alloc: Global) -> Result<VertexRecord, NoMemory> {
    let mut record = bare(alloc);
    let key = Name::from_str(alloc, "k")?;
    record.props.set(&key, Value::Int(1))?;
    Ok(record)
}

pub fn small_graph(alloc: Global) -> Result<CountingReader, NoMemory> {
    let mut vertices = Items::new(alloc);
    vertices.push((VertexId(0), first(alloc)?))?;
    vertices.push((VertexId(1), bare(alloc)))?;
    Ok(CountingReader {
        vertices,
        edges: Items::new(alloc),
        asked: 0,
        wanting: 0,
    })
}

fn named(alloc: Global, row: &mut Row, name: &str, id: u64) -> Result<(), NoMemory> {
    if !name.is_empty() {
        let name = Name::from_str(alloc, name)?;
        row.push((name, Value::Vertex(VertexId(id))))?;
    }
    Ok(())
}

/// One row, which names the vertices.
pub fn small_table(alloc: Global) -> Result<Table, NoMemory> {
    let mut row = Items::new(alloc);
    named(alloc, &mut row, "a", 0)?;
    named(alloc, &mut row, "b", 1)?;
    named(alloc, &mut row, "gone", 2)?;
    let mut table = Items::new(alloc);
    table.push(row)?;
    Ok(table)
}
