//! Tuples and rows as JSON texts: a vertex or an edge by its name, and the columns of a row in order.
use expr_eval::{EvalRefused, Row};
use graph_value::{Name, NoMemory, Value};
use pattern_match::Tuple;
use std::alloc::Global;

pub(crate) fn refusal(alloc: Global, refused: EvalRefused) -> Result<String, NoMemory> {
    match refused {
        EvalRefused::TypeFault => String::from_str(alloc, "!type"),
        EvalRefused::Overflow => String::from_str(alloc, "!overflow"),
        EvalRefused::ZeroDivisor => String::from_str(alloc, "!zero divisor"),
        EvalRefused::TooLarge => String::from_str(alloc, "!too large"),
        EvalRefused::RowLimit => String::from_str(alloc, "!row limit"),
        EvalRefused::Gone(x) => format!(in alloc; "!gone {x}"),
        EvalRefused::NoMemory => String::from_str(alloc, "!no memory"),
    }
}

fn push_tuple(alloc: Global, text: &mut String, tuple: &Tuple) -> Result<(), NoMemory> {
    text.push_str("[")?;
    let mut mark = "";
    for id in tuple.as_slice() {
        text.push_str(mark)?;
        let number = format!(in alloc; "{id}")?;
        text.push_str(number.as_str())?;
        mark = ",";
    }
    text.push_str("]")
}

/// Tuples, parted by spaces.
pub(crate) fn tuples_text(alloc: Global, tuples: &[Tuple]) -> Result<String, NoMemory> {
    let mut text = String::new(alloc);
    let mut mark = "";
    for tuple in tuples {
        text.push_str(mark)?;
        push_tuple(alloc, &mut text, tuple)?;
        mark = " ";
    }
    Ok(text)
}

fn value_text(alloc: Global, value: &Value) -> Result<String, NoMemory> {
    match value {
        Value::Vertex(v) => format!(in alloc; "\"{v}\""),
        Value::Edge(e) => format!(in alloc; "\"{e}\""),
        Value::Int(n) => format!(in alloc; "{n}"),
        Value::Null => String::from_str(alloc, "null"),
        Value::Bool(_) | Value::Text(_) | Value::List(_) => String::from_str(alloc, "other"),
    }
}

fn push_column(
    alloc: Global,
    text: &mut String,
    name: &Name,
    value: &Value,
) -> Result<(), NoMemory> {
    text.push_str("\"")?;
    text.push_str(name.as_str())?;
    text.push_str("\":")?;
    let value = value_text(alloc, value)?;
    text.push_str(value.as_str())
}

fn push_row(alloc: Global, text: &mut String, row: &Row) -> Result<(), NoMemory> {
    text.push_str("{")?;
    let mut mark = "";
    for (name, value) in row.as_slice() {
        text.push_str(mark)?;
        push_column(alloc, text, name, value)?;
        mark = ",";
    }
    text.push_str("}")
}

/// Rows, parted by spaces.
pub(crate) fn rows_text(alloc: Global, rows: &[Row]) -> Result<String, NoMemory> {
    let mut text = String::new(alloc);
    let mut mark = "";
    for row in rows {
        text.push_str(mark)?;
        push_row(alloc, &mut text, row)?;
        mark = " ";
    }
    Ok(text)
}
