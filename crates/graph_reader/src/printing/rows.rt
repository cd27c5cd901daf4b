//! The printed text of a row.
ghost use Rattle.std.specs.Prelude.{◌≡◌, ◌++◌, IfOk, OnOk, string_bytes};
ghost use Rattle.graph_reader.specs.Rows.{shown_data, row_data, row_text, shown_vertex_data, shown_edge_data};
ghost use Rattle.graph_reader.specs.Writing.{Appends};

use crate::Shown;
use crate::printing::{names_member, number_member, properties_member, text_member};
use graph_record::{Kind, Labels, NoMemory, Properties};
use graph_value::{EdgeId, Text, VertexId};
use json::Writer;
use std::alloc::Global;
use std::mem;

/// The text of a row: a JSON array with no space, the keys of each object in ascending order.
///
/// A vertex has `id`, `labels` and `properties`, an edge `from`, `id`, `properties`, `to` and `type`. The error says that
/// memory was wanting.
pub fn to_json(alloc: Global, row: &[Shown]) -> Result<Text, NoMemory>
    ensures { IfOk result (λ t. t ≡ row_text row.now) }
{
    let mut text = String::new(alloc);
    push_row_json(alloc, &mut text, row)?;
    Ok(Text::from_string(text))
}

/// Appends the text of a row, as [`to_json`] gives it. What the text holds is not copied.
///
/// The error says that memory was wanting; a part of the row may then stand in the text.
pub fn push_row_json(alloc: Global, text: &mut String, row: &[Shown]) -> Result<(), NoMemory>
    ensures ok { OnOk result (string_bytes text.new ≡ string_bytes text.old ++ row_text row.now) }
{
    let before = mem::replace(text, String::new(alloc));
    let mut writer = Writer::new(before.into_bytes());
    let written = write_row(&mut writer, row);
    match String::from_utf8(writer.into_inner()) {
        Ok(after) => *text = after,
        Err(_) => unreachable!(),
    }
    written
}

#[cycle(row)]
fn write_row(writer: &mut Writer, row: &[Shown]) -> Result<(), NoMemory>
    ensures { Appends result writer.old writer.new (row_data row.now) }
{
    writer.begin_array()?;
    for item in row {
        write_shown(writer, item)?;
    }
    writer.end_array()
}

#[cycle(row)]
fn write_shown(writer: &mut Writer, item: &Shown) -> Result<(), NoMemory>
    ensures { Appends result writer.old writer.new (shown_data item.now) }
{
    match item {
        Shown::Null => writer.null(),
        Shown::Bool(b) => writer.boolean(*b),
        Shown::Int(n) => writer.i64(*n),
        Shown::Text(text) => writer.string(text.as_str()),
        Shown::List(items) => write_row(writer, items.as_slice()),
        Shown::Vertex { id, labels, props } => write_vertex(writer, *id, labels, props),
        Shown::Edge {
            id,
            kind,
            from,
            to,
            props,
        } => write_edge(writer, *id, kind, *from, *to, props),
    }
}

fn write_vertex(
    writer: &mut Writer,
    id: VertexId,
    labels: &Labels,
    props: &Properties,
) -> Result<(), NoMemory>
    ensures { Appends result writer.old writer.new (shown_vertex_data id labels.now props.now) }
{
    writer.begin_object()?;
    number_member(writer, "id", id.0)?;
    names_member(writer, "labels", labels.as_slice())?;
    properties_member(writer, props.as_slice())?;
    writer.end_object()
}

fn write_edge(
    writer: &mut Writer,
    id: EdgeId,
    kind: &Kind,
    from: VertexId,
    to: VertexId,
    props: &Properties,
) -> Result<(), NoMemory>
    ensures { Appends result writer.old writer.new
        (shown_edge_data id kind.now from to props.now) }
{
    writer.begin_object()?;
    number_member(writer, "from", from.0)?;
    number_member(writer, "id", id.0)?;
    properties_member(writer, props.as_slice())?;
    number_member(writer, "to", to.0)?;
    text_member(writer, "type", kind.as_str())?;
    writer.end_object()
}
