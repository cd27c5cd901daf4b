use graph_reader::object_json;
use graph_record::{EdgeRecord, Kind, Object, Properties, VertexRecord};
use graph_value::{EdgeId, Name, NoMemory, Oid, Text, Value, VertexId};
use std::alloc::Global;
use std::test::Fail;

fn vertex_text(alloc: Global) -> Result<Text, NoMemory> {
    let vertex = Object::Vertex(VertexRecord::empty(alloc));
    object_json(alloc, Oid::Vertex(VertexId(0)), &vertex)
}

fn is_vertex_text(alloc: Global, wanted: &str) -> Result<bool, NoMemory> {
    Ok(vertex_text(alloc)?.as_str() == wanted)
}

#[test]
fn prints_a_vertex(rt: HostRuntime) -> Result<(), Fail> {
    let wanted = "{\"id\":0,\"ins\":[],\"labels\":[],\"outs\":[],\"properties\":{}}";
    assert!(rt; is_vertex_text(rt.alloc(), wanted)?);
    Ok(())
}

fn edge(alloc: Global) -> Result<EdgeRecord, NoMemory> {
    Ok(EdgeRecord {
        kind: Kind::new(alloc, Name::from_str(alloc, "a\"b")?)?,
        from: VertexId(1),
        to: VertexId(2),
        props: Properties::new(alloc),
    })
}

fn put_number(alloc: Global, props: &mut Properties) -> Result<(), NoMemory> {
    props.set(&Name::from_str(alloc, "k")?, Value::Int(-1))?;
    Ok(())
}

fn edge_with_number(alloc: Global) -> Result<EdgeRecord, NoMemory> {
    let mut edge = edge(alloc)?;
    put_number(alloc, &mut edge.props)?;
    Ok(edge)
}

fn edge_text(alloc: Global) -> Result<Text, NoMemory> {
    let edge = Object::Edge(edge_with_number(alloc)?);
    object_json(alloc, Oid::Edge(EdgeId(3)), &edge)
}

fn is_edge_text(alloc: Global, wanted: &str) -> Result<bool, NoMemory> {
    Ok(edge_text(alloc)?.as_str() == wanted)
}

#[test]
fn prints_an_edge(rt: HostRuntime) -> Result<(), Fail> {
    let wanted = "{\"from\":1,\"id\":3,\"properties\":{\"k\":-1},\"to\":2,\"type\":\"a\\\"b\"}";
    assert!(rt; is_edge_text(rt.alloc(), wanted)?);
    Ok(())
}
