use graph_reader::{Graph, GraphRead, ShowRefused, Shown, show, to_json};
use graph_record::{Kind, Labels, Properties};
use graph_value::{EdgeId, Name, Oid, Text, Value, VertexId};
use sqlite_items::Items;
use std::alloc::Global;
use std::test::Fail;

/// The text of a row of one value, as the empty graph shows it.
fn row_of(alloc: Global, value: &Value) -> Result<Text, ShowRefused> {
    let mut graph = Graph::new(alloc);
    let mut row = Items::new(alloc);
    row.push(show(alloc, value, &mut graph)?)?;
    Ok(to_json(alloc, row.as_slice())?)
}

fn is_row(alloc: Global, value: &Value, wanted: &str) -> Result<bool, ShowRefused> {
    Ok(row_of(alloc, value)?.as_str() == wanted)
}

fn list(alloc: Global, first: Value, second: Value) -> Result<Value, ShowRefused> {
    let mut items = Items::new(alloc);
    items.push(first)?;
    items.push(second)?;
    Ok(Value::List(items))
}

fn is_refused(alloc: Global, value: &Value, wanted: ShowRefused) -> bool {
    match row_of(alloc, value) {
        Ok(_) => false,
        Err(refused) => refused == wanted,
    }
}

fn shows_values(alloc: Global) -> Result<bool, ShowRefused> {
    let text = Value::Text(Text::from_str(alloc, "a\"b")?);
    Ok(
        is_row(
            alloc,
            &list(alloc, text, Value::Null)?,
            "[[\"a\\\"b\",null]]",
        )? && is_row(alloc, &Value::Int(-3), "[-3]")?
            && is_row(alloc, &Value::Bool(true), "[true]")?,
    )
}

/// The vertex is read before the edge.
fn tells_what_is_gone(alloc: Global) -> Result<bool, ShowRefused> {
    let both = list(alloc, Value::Vertex(VertexId(4)), Value::Edge(EdgeId(5)))?;
    let gone = ShowRefused::Gone(Oid::Vertex(VertexId(4)));
    Ok(is_refused(alloc, &both, gone))
}

fn edge(alloc: Global) -> Result<Shown, ShowRefused> {
    Ok(Shown::Edge {
        id: EdgeId(3),
        kind: Kind::new(alloc, Name::from_str(alloc, "K")?)?,
        from: VertexId(1),
        to: VertexId(2),
        props: Properties::new(alloc),
    })
}

fn vertex(alloc: Global) -> Result<Shown, ShowRefused> {
    let mut labels = Labels::new(alloc);
    labels.add(Name::from_str(alloc, "L")?)?;
    Ok(Shown::Vertex {
        id: VertexId(0),
        labels,
        props: Properties::new(alloc),
    })
}

fn prints_entities(alloc: Global, wanted: &str) -> Result<bool, ShowRefused> {
    let mut row = Items::new(alloc);
    row.push(vertex(alloc)?)?;
    row.push(edge(alloc)?)?;
    Ok(to_json(alloc, row.as_slice())?.as_str() == wanted)
}

#[test]
fn values_and_entities_of_a_row(rt: HostRuntime) -> Result<(), Fail> {
    let alloc = rt.alloc();
    assert!(rt; shows_values(alloc)?);
    assert!(rt; tells_what_is_gone(alloc)?);
    let vertex = "{\"id\":0,\"labels\":[\"L\"],\"properties\":{}}";
    let edge = "{\"from\":1,\"id\":3,\"properties\":{},\"to\":2,\"type\":\"K\"}";
    let wanted = format!(in alloc; "[{vertex},{edge}]")?;
    assert!(rt; prints_entities(alloc, wanted.as_str())?);
    Ok(())
}

#[test]
fn an_empty_graph_has_no_vertex(rt: HostRuntime) -> Result<(), Fail> {
    let mut graph = Graph::new(rt.alloc());
    assert!(rt; graph.next_vertex(None)?.is_none());
    assert!(rt; graph.next_vertex(Some(VertexId(3)))?.is_none());
    assert!(rt; graph.edge(EdgeId(0))?.is_none());
    Ok(())
}
