//! Plans as texts, operations parted by spaces: `+v` creates a vertex and `v0-[T]->v#1` an edge, `v#1` being the one that the
//! create number 1 makes; `-v0` and `-e0` delete, `v0+A` and `v0-A` add and take away a label, `v0.k=1` sets a property.
use expr_eval::EvalRefused;
use graph_value::{Name, NoMemory, Value};
use std::alloc::Global;
use write_ops::{Entity, Names, Pick, PlannedOp};

pub(crate) fn refusal(alloc: Global, refused: EvalRefused) -> Result<String, NoMemory> {
    match refused {
        EvalRefused::TypeFault => String::from_str(alloc, "!type"),
        EvalRefused::Overflow => String::from_str(alloc, "!overflow"),
        EvalRefused::ZeroDivisor => String::from_str(alloc, "!zero divisor"),
        EvalRefused::TooLarge => String::from_str(alloc, "!too large"),
        EvalRefused::RowLimit => String::from_str(alloc, "!row limit"),
        EvalRefused::Gone(x) => format!(in alloc; "!gone {x}"),
        EvalRefused::NoMemory => String::from_str(alloc, "!no memory"),
    }
}

fn push_pick(alloc: Global, text: &mut String, letter: &str, at: Pick) -> Result<(), NoMemory> {
    let number = match at {
        Pick::Known(id) => format!(in alloc; "{id}")?,
        Pick::Made(id) => format!(in alloc; "#{id}")?,
    };
    text.push_str(letter)?;
    text.push_str(number.as_str())
}

fn push_simple(alloc: Global, text: &mut String, value: &Value) -> Result<(), NoMemory> {
    let shown = match value {
        Value::Null => String::from_str(alloc, "null")?,
        Value::Bool(b) => format!(in alloc; "{b}")?,
        Value::Int(n) => format!(in alloc; "{n}")?,
        Value::Text(t) => {
            let t = t.as_str();
            format!(in alloc; "'{t}'")?
        }
        Value::List(_) | Value::Vertex(_) | Value::Edge(_) => String::from_str(alloc, "?")?,
    };
    text.push_str(shown.as_str())
}

fn push_list(alloc: Global, text: &mut String, items: &[Value]) -> Result<(), NoMemory> {
    text.push_str("[")?;
    let mut mark = "";
    for item in items {
        text.push_str(mark)?;
        push_simple(alloc, text, item)?;
        mark = ",";
    }
    text.push_str("]")
}

fn push_value(alloc: Global, text: &mut String, value: &Value) -> Result<(), NoMemory> {
    match value {
        Value::List(items) => push_list(alloc, text, items.as_slice()),
        _ => push_simple(alloc, text, value),
    }
}

fn push_label(
    alloc: Global,
    text: &mut String,
    at: Pick,
    sign: &str,
    label: &Name,
) -> Result<(), NoMemory> {
    push_pick(alloc, text, "v", at)?;
    text.push_str(sign)?;
    text.push_str(label.as_str())
}

fn push_prop(
    alloc: Global,
    text: &mut String,
    letter: &str,
    at: Pick,
    key: &Name,
    value: &Value,
) -> Result<(), NoMemory> {
    push_pick(alloc, text, letter, at)?;
    text.push_str(".")?;
    text.push_str(key.as_str())?;
    text.push_str("=")?;
    push_value(alloc, text, value)
}

fn push_edge(
    alloc: Global,
    text: &mut String,
    from: Pick,
    kind: &Name,
    to: Pick,
) -> Result<(), NoMemory> {
    push_pick(alloc, text, "v", from)?;
    text.push_str("-[")?;
    text.push_str(kind.as_str())?;
    text.push_str("]->")?;
    push_pick(alloc, text, "v", to)
}

fn push_op(alloc: Global, text: &mut String, op: &PlannedOp) -> Result<(), NoMemory> {
    match op {
        PlannedOp::CreateVertex => text.push_str("+v"),
        PlannedOp::DeleteVertex(at) => push_pick(alloc, text, "-v", *at),
        PlannedOp::AddLabel(at, label) => push_label(alloc, text, *at, "+", label),
        PlannedOp::RemoveLabel(at, label) => push_label(alloc, text, *at, "-", label),
        PlannedOp::SetVertexProp(at, key, value) => { push_prop(alloc, text, "v", *at, key, value) }
        PlannedOp::CreateEdge { from, kind, to } => push_edge(alloc, text, *from, kind, *to),
        PlannedOp::DeleteEdge(at) => push_pick(alloc, text, "-e", *at),
        PlannedOp::SetEdgeProp(at, key, value) => push_prop(alloc, text, "e", *at, key, value),
    }
}

pub(crate) fn plan_text(alloc: Global, ops: &[PlannedOp]) -> Result<String, NoMemory> {
    let mut text = String::new(alloc);
    let mut mark = "";
    for op in ops {
        text.push_str(mark)?;
        push_op(alloc, &mut text, op)?;
        mark = " ";
    }
    Ok(text)
}

fn push_entity(alloc: Global, text: &mut String, x: Entity) -> Result<(), NoMemory> {
    match x {
        Entity::Vertex(at) => push_pick(alloc, text, "v", at),
        Entity::Edge(at) => push_pick(alloc, text, "e", at),
    }
}

fn push_names(alloc: Global, text: &mut String, names: &Names) -> Result<(), NoMemory> {
    let mut mark = "";
    for (name, x) in names.as_slice() {
        text.push_str(mark)?;
        text.push_str(name.as_str())?;
        text.push_str("=")?;
        push_entity(alloc, text, *x)?;
        mark = " ";
    }
    Ok(())
}

/// The new names, row by row.
pub(crate) fn names_text(alloc: Global, rows: &[Names]) -> Result<String, NoMemory> {
    let mut text = String::new(alloc);
    let mut mark = "";
    for names in rows {
        text.push_str(mark)?;
        push_names(alloc, &mut text, names)?;
        mark = ";";
    }
    Ok(text)
}
