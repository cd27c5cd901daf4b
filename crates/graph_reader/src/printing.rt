//! The printed text of an object.
ghost use Rattle.std.specs.Prelude.{◌≡◌, ◌++◌, IfOk, OnOk, map, codes, string_bytes};
ghost use Rattle.serde_json.specs.Data.{array, string};
ghost use Rattle.serde_json.specs.View.{items_of};
ghost use Rattle.graph_reader.specs.Json.{number_data, value_data, simple_data, ids_data, names_data, properties_data, vertex_data, edge_data, object_data, object_text};
ghost use Rattle.graph_record.specs.OfKind.{IsOfKind};
ghost use Rattle.graph_reader.specs.Writing.{Appends, AppendsMember};

mod rows;

use graph_record::{EdgeRecord, Object, VertexRecord};
use graph_value::{EdgeId, Name, NoMemory, Oid, Text, Value, VertexId};
use json::Writer;
pub use rows::{push_row_json, to_json};
use std::alloc::Global;
use std::mem;

/// The text of an object under its id: JSON with no space, the keys of each object in ascending order.
///
/// A vertex has `id`, `ins`, `labels`, `outs` and `properties`, an edge `from`, `id`, `properties`, `to` and `type`.
/// The error says that memory was wanting.
pub fn object_json(alloc: Global, x: Oid, object: &Object) -> Result<Text, NoMemory>
    requires { IsOfKind x object.now }
    ensures { IfOk result (λ t. t ≡ object_text x object.now) }
{
    let mut text = String::new(alloc);
    push_object_json(alloc, &mut text, x, object)?;
    Ok(Text::from_string(text))
}

/// Appends the text of an object, as [`object_json`] gives it. What the text holds is not copied.
///
/// The error says that memory was wanting; a part of the object may then stand in the text.
pub fn push_object_json(
    alloc: Global,
    text: &mut String,
    x: Oid,
    object: &Object,
) -> Result<(), NoMemory>
    requires { IsOfKind x object.now }
    ensures ok { OnOk result (string_bytes text.new
        ≡ string_bytes text.old ++ object_text x object.now) }
{
    let before = mem::replace(text, String::new(alloc));
    let mut writer = Writer::new(before.into_bytes());
    let written = write_object(&mut writer, x, object);
    match String::from_utf8(writer.into_inner()) {
        Ok(after) => *text = after,
        Err(_) => unreachable!(),
    }
    written
}

fn write_object(writer: &mut Writer, x: Oid, object: &Object) -> Result<(), NoMemory>
    requires { IsOfKind x object.now }
    ensures { Appends result writer.old writer.new (object_data x object.now) }
{
    match (x, object) {
        (Oid::Vertex(id), Object::Vertex(vertex)) => write_vertex(writer, id, vertex),
        (Oid::Edge(id), Object::Edge(edge)) => write_edge(writer, id, edge),
        _ => unreachable!(),
    }
}

fn write_vertex(writer: &mut Writer, id: VertexId, vertex: &VertexRecord) -> Result<(), NoMemory>
    ensures { Appends result writer.old writer.new (vertex_data id vertex.now) }
{
    writer.begin_object()?;
    number_member(writer, "id", id.0)?;
    ids_member(writer, "ins", vertex.ins.as_slice())?;
    names_member(writer, "labels", vertex.labels.as_slice())?;
    ids_member(writer, "outs", vertex.outs.as_slice())?;
    properties_member(writer, vertex.props.as_slice())?;
    writer.end_object()
}

fn write_edge(writer: &mut Writer, id: EdgeId, edge: &EdgeRecord) -> Result<(), NoMemory>
    ensures { Appends result writer.old writer.new (edge_data id edge.now) }
{
    writer.begin_object()?;
    number_member(writer, "from", edge.from.0)?;
    number_member(writer, "id", id.0)?;
    properties_member(writer, edge.props.as_slice())?;
    number_member(writer, "to", edge.to.0)?;
    text_member(writer, "type", edge.kind.as_str())?;
    writer.end_object()
}

fn number_member(writer: &mut Writer, key: &str, number: u64) -> Result<(), NoMemory>
    ensures { AppendsMember result writer.old writer.new key.now (number_data number) }
{
    writer.key(key)?;
    writer.u64(number)
}

fn text_member(writer: &mut Writer, key: &str, text: &str) -> Result<(), NoMemory>
    ensures { AppendsMember result writer.old writer.new key.now (string text.now) }
{
    writer.key(key)?;
    writer.string(text)
}

fn ids_member(writer: &mut Writer, key: &str, ids: &[EdgeId]) -> Result<(), NoMemory>
    ensures { AppendsMember result writer.old writer.new key.now (ids_data ids.now) }
{
    writer.key(key)?;
    write_ids(writer, ids)
}

fn names_member(writer: &mut Writer, key: &str, names: &[Name]) -> Result<(), NoMemory>
    ensures { AppendsMember result writer.old writer.new key.now (names_data names.now) }
{
    writer.key(key)?;
    write_names(writer, names)
}

fn properties_member(writer: &mut Writer, properties: &[(Name, Value)]) -> Result<(), NoMemory>
    ensures { AppendsMember result writer.old writer.new
        (codes "properties") (properties_data properties.now) }
{
    writer.key("properties")?;
    write_properties(writer, properties)
}

fn write_ids(writer: &mut Writer, ids: &[EdgeId]) -> Result<(), NoMemory>
    ensures { Appends result writer.old writer.new (ids_data ids.now) }
{
    writer.begin_array()?;
    for id in ids {
        writer.u64(id.0)?;
    }
    writer.end_array()
}

fn write_names(writer: &mut Writer, names: &[Name]) -> Result<(), NoMemory>
    ensures { Appends result writer.old writer.new (names_data names.now) }
{
    writer.begin_array()?;
    for name in names {
        writer.string(name.as_str())?;
    }
    writer.end_array()
}

fn write_properties(writer: &mut Writer, properties: &[(Name, Value)]) -> Result<(), NoMemory>
    ensures { Appends result writer.old writer.new (properties_data properties.now) }
{
    writer.begin_object()?;
    for (name, value) in properties {
        writer.key(name.as_str())?;
        write_value(writer, value)?;
    }
    writer.end_object()
}

fn write_value(writer: &mut Writer, value: &Value) -> Result<(), NoMemory>
    ensures { Appends result writer.old writer.new (value_data value.now) }
{
    match value {
        Value::List(items) => write_list(writer, items.as_slice()),
        _ => write_simple(writer, value),
    }
}

fn write_list(writer: &mut Writer, items: &[Value]) -> Result<(), NoMemory>
    ensures { Appends result writer.old writer.new (array (items_of (map simple_data items.now))) }
{
    writer.begin_array()?;
    for item in items {
        write_simple(writer, item)?;
    }
    writer.end_array()
}

fn write_simple(writer: &mut Writer, value: &Value) -> Result<(), NoMemory>
    ensures { Appends result writer.old writer.new (simple_data value.now) }
{
    match value {
        Value::Bool(b) => writer.boolean(*b),
        Value::Int(n) => writer.i64(*n),
        Value::Text(text) => writer.string(text.as_str()),
        _ => writer.null(),
    }
}
