//! The graph that `query_bench rows` answers by, as `CREATE` would write it:
//!
//!     (a:Person {age: 30, name: 'Ann', tags: ['chess', 'tea']}), (b:Person {age: 25, name: 'Bo'}),
//!     (c:Person:Town {name: 'Cem'}), (d:Town {age: 700, name: 'Dar'}), (e),
//!     (a)-[:KNOWS {since: 2010}]->(b), (a)-[:KNOWS {since: 2020}]->(b), (b)-[:KNOWS]->(a),
//!     (c)-[:KNOWS {since: 2015}]->(c), (a)-[:LIVES]->(d), (b)-[:LIVES {since: 2018}]->(c)
//!
//! The vertices are v0 to v4 and the edges e0 to e5, in this order.
use crate::draft::Draft;
use graph_reader::Graph;
use graph_record::{Kind, Labels, Properties};
use graph_value::{Name, NoMemory, Text, Value, VertexId};
use sqlite_items::Items;
use std::alloc::Global;

/// The labels of a vertex and its properties age, name and tags. Words are parted by spaces; 0 and "" are left out.
type VertexRow = (&'static str, i64, &'static str, &'static str);

/// The ends of an edge, its kind and its property since, which is left out where it is 0.
type EdgeRow = (u64, &'static str, u64, i64);

static VERTICES: [VertexRow; 5] = [
    ("Person", 30, "Ann", "chess tea"),
    ("Person", 25, "Bo", ""),
    ("Person Town", 0, "Cem", ""),
    ("Town", 700, "Dar", ""),
    ("", 0, "", ""),
];

static EDGES: [EdgeRow; 6] = [
    (0, "KNOWS", 1, 2010),
    (0, "KNOWS", 1, 2020),
    (1, "KNOWS", 0, 0),
    (2, "KNOWS", 2, 2015),
    (0, "LIVES", 3, 0),
    (1, "LIVES", 2, 2018),
];

fn labels(alloc: Global, words: &str) -> Result<Labels, NoMemory> {
    let mut labels = Labels::new(alloc);
    for word in words.split(' ') {
        if !word.is_empty() {
            labels.add(Name::from_str(alloc, word)?)?;
        }
    }
    Ok(labels)
}

/// A number, or null in the place of 0, so that it is left out.
fn number(n: i64) -> Value {
    if n == 0 { Value::Null } else { Value::Int(n) }
}

fn text(alloc: Global, text: &str) -> Result<Value, NoMemory> {
    if text.is_empty() {
        return Ok(Value::Null);
    }
    Ok(Value::Text(Text::from_str(alloc, text)?))
}

fn texts(alloc: Global, words: &str) -> Result<Value, NoMemory> {
    if words.is_empty() {
        return Ok(Value::Null);
    }
    let mut items = Items::new(alloc);
    for word in words.split(' ') {
        items.push(text(alloc, word)?)?;
    }
    Ok(Value::List(items))
}

/// A name, `_` where there is no text.
fn name(alloc: Global, text: &str) -> Result<Name, NoMemory> {
    if text.is_empty() {
        Name::from_str(alloc, "_")
    } else {
        Name::from_str(alloc, text)
    }
}

fn set(alloc: Global, props: &mut Properties, key: &str, value: Value) -> Result<(), NoMemory> {
    let key = name(alloc, key)?;
    props.set(&key, value)?;
    Ok(())
}

fn properties(alloc: Global, row: &VertexRow) -> Result<Properties, NoMemory> {
    let mut props = Properties::new(alloc);
    set(alloc, &mut props, "age", number(row.1))?;
    set(alloc, &mut props, "name", text(alloc, row.2)?)?;
    set(alloc, &mut props, "tags", texts(alloc, row.3)?)?;
    Ok(props)
}

fn add_vertex(alloc: Global, draft: &mut Draft, row: &VertexRow) -> Result<(), NoMemory> {
    let labels = labels(alloc, row.0)?;
    draft.add_vertex(labels, properties(alloc, row)?)
}

fn add_edge(alloc: Global, draft: &mut Draft, row: &EdgeRow) -> Result<(), NoMemory> {
    let kind = Kind::new(alloc, name(alloc, row.1)?)?;
    let mut props = Properties::new(alloc);
    set(alloc, &mut props, "since", number(row.3))?;
    draft.add_edge(kind, VertexId(row.0), VertexId(row.2), props)
}

/// The small graph.
pub fn sample(alloc: Global) -> Result<Option<Graph>, NoMemory> {
    let mut draft = Draft::new(alloc);
    for row in VERTICES.iter() {
        add_vertex(alloc, &mut draft, row)?;
    }
    for row in EDGES.iter() {
        add_edge(alloc, &mut draft, row)?;
    }
    Ok(draft.finish())
}
