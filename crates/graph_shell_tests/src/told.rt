use event_lines::{NoMemory, Request, Wish, read_request};
use graph_value::{EdgeId, Name, Oid, Value, VertexId};
use std::alloc::Global;
use std::fmt::Write;
use undo_delta::Ask;
use world_model::{Event, Kind, When};

/// A request in other words than those of the line.
pub fn told(alloc: Global, line: &[u8]) -> Result<String, NoMemory> {
    let mut out = String::new(alloc);
    match read_request(alloc, line)? {
        None => out.push_str("nothing")?,
        Some(Request { caller, wish }) => {
            write!(out, "{caller}: ")?;
            tell_wish(&mut out, &wish)?;
        }
    }
    Ok(out)
}

fn tell_wish(out: &mut String, wish: &Wish) -> Result<(), NoMemory> {
    match wish {
        Wish::Event(event) => tell_event(out, event),
        Wish::Install(x) => {
            out.push_str("moves ")?;
            tell_object(out, *x)
        }
    }
}

fn tell_event(out: &mut String, event: &Event) -> Result<(), NoMemory> {
    match event {
        Event::Begin => out.push_str("opens"),
        Event::Next { kind, after, when } => tell_search(out, *kind, *after, *when),
        Event::Read { x, when } => tell_read(out, *x, *when),
        Event::Write(ask) => tell_ask(out, ask),
        Event::Commit => out.push_str("commits"),
        Event::Abort => out.push_str("aborts"),
        Event::Mark => out.push_str("marks"),
        Event::Lift(x) => {
            out.push_str("lifts ")?;
            tell_object(out, *x)
        }
        Event::Install(_) => out.push_str("?"),
        Event::Stats => out.push_str("counts"),
    }
}

fn tell_search(
    out: &mut String,
    kind: Kind,
    after: Option<u64>,
    when: When,
) -> Result<(), NoMemory> {
    match kind {
        Kind::Vertex => out.push_str("vertices")?,
        Kind::Edge => out.push_str("edges")?,
    }
    match after {
        None => {}
        Some(n) => write!(out, " above {n}")?,
    }
    tell_when(out, when)
}

fn tell_read(out: &mut String, x: Oid, when: When) -> Result<(), NoMemory> {
    tell_object(out, x)?;
    tell_when(out, when)
}

fn tell_when(out: &mut String, when: When) -> Result<(), NoMemory> {
    match when {
        When::Own => out.push_str(" now"),
        When::At(t) => write!(out, " then {t}"),
    }
}

fn tell_ask(out: &mut String, ask: &Ask) -> Result<(), NoMemory> {
    match ask {
        Ask::CreateVertex => out.push_str("new"),
        Ask::DeleteVertex(id) => tell_named(out, "no", Oid::Vertex(*id), ""),
        Ask::AddLabel(id, name) => tell_named(out, "mark", Oid::Vertex(*id), name.as_str()),
        Ask::RemoveLabel(id, name) => tell_named(out, "bare", Oid::Vertex(*id), name.as_str()),
        Ask::SetVertexProp(id, name, value) => tell_set(out, Oid::Vertex(*id), name, value),
        Ask::CreateEdge { from, kind, to } => tell_edge(out, *from, kind, *to),
        Ask::DeleteEdge(id) => tell_named(out, "no", Oid::Edge(*id), ""),
        Ask::SetEdgeProp(id, name, value) => tell_set(out, Oid::Edge(*id), name, value),
    }
}

fn tell_named(out: &mut String, verb: &str, x: Oid, name: &str) -> Result<(), NoMemory> {
    write!(out, "{verb} ")?;
    tell_object(out, x)?;
    write!(out, " {name}")
}

fn tell_edge(out: &mut String, from: VertexId, kind: &Name, to: VertexId) -> Result<(), NoMemory> {
    let start = from.0;
    let end = to.0;
    let name = kind.as_str();
    write!(out, "{name} from {start} to {end}")
}

fn tell_set(out: &mut String, x: Oid, name: &Name, value: &Value) -> Result<(), NoMemory> {
    tell_object(out, x)?;
    out.push_str(" ")?;
    out.push_str(name.as_str())?;
    out.push_str(": ")?;
    tell_value(out, value)
}

fn tell_object(out: &mut String, x: Oid) -> Result<(), NoMemory> {
    match x {
        Oid::Vertex(VertexId(n)) => write!(out, "vertex {n}"),
        Oid::Edge(EdgeId(n)) => write!(out, "edge {n}"),
    }
}

fn tell_value(out: &mut String, value: &Value) -> Result<(), NoMemory> {
    match value {
        Value::List(items) => {
            out.push_str("(")?;
            for item in items.as_slice() {
                tell_simple(out, item)?;
                out.push_str(";")?;
            }
            out.push_str(")")
        }
        _ => tell_simple(out, value),
    }
}

fn tell_simple(out: &mut String, value: &Value) -> Result<(), NoMemory> {
    match value {
        Value::Null => out.push_str("null"),
        Value::Bool(b) => out.push_str(if *b { "yes" } else { "no" }),
        Value::Int(n) => write!(out, "{n}"),
        Value::Text(text) => {
            let text = text.as_str();
            write!(out, "<{text}>")
        }
        _ => out.push_str("?"),
    }
}
