//! Rows of names that are bound before a clause, as texts: `p=v0 f=e0 n=null x=5`, rows parted by `;`. A lone
//! `-` is a table without rows.
use expr_eval::{Row, Table};
use graph_value::{EdgeId, Name, NoMemory, Value, VertexId};
use sqlite_items::Items;
use std::alloc::Global;

/// The number that a digit stands for.
fn digit(text: &str) -> u8 {
    match text.as_bytes() {
        [byte] => byte.saturating_sub(b'0'),
        _ => 0,
    }
}

fn value(text: &str) -> Value {
    if text == "null" {
        return Value::Null;
    }
    if let Some(id) = text.strip_prefix('v') {
        return Value::Vertex(VertexId(u64::from(digit(id))));
    }
    if let Some(id) = text.strip_prefix('e') {
        return Value::Edge(EdgeId(u64::from(digit(id))));
    }
    Value::Int(i64::from(digit(text)))
}

fn name(alloc: Global, text: &str) -> Result<Name, NoMemory> {
    if text.is_empty() {
        Name::from_str(alloc, "_")
    } else {
        Name::from_str(alloc, text)
    }
}

fn row(alloc: Global, text: &str) -> Result<Row, NoMemory> {
    let mut row = Items::new(alloc);
    for column in text.split(' ') {
        if let Some((key, bound)) = column.split_once('=') {
            row.push((name(alloc, key)?, value(bound)))?;
        }
    }
    Ok(row)
}

pub(crate) fn table(alloc: Global, text: &str) -> Result<Table, NoMemory> {
    let mut table = Items::new(alloc);
    if text == "-" {
        return Ok(table);
    }
    for part in text.split(';') {
        table.push(row(alloc, part)?)?;
    }
    Ok(table)
}
