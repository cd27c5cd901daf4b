//! What callers do before a sweep.
use front_core::{Core, NoMemory};
use graph_value::{EdgeId, Name, Value, VertexId};
use std::alloc::Global;
use undo_delta::Ask;
use world_model::{Answer, Event};

/// A write.
#[derive(Clone, Copy)]
pub enum Write {
    Vertex,
    /// An edge from a vertex to another one, or to itself.
    Edge(u64, u64),
    /// The property `k` of a vertex.
    Set(u64, i64),
    DeleteEdge(u64),
}

/// What a caller does in one step.
#[derive(Clone, Copy)]
pub enum Deed {
    Begin,
    Write(Write),
    Commit,
    Abort,
}

/// A caller and what it does.
pub type Act = (u64, Deed);

fn ask(alloc: Global, write: Write) -> Result<Ask, NoMemory> {
    match write {
        Write::Vertex => Ok(Ask::CreateVertex),
        Write::Edge(from, to) => Ok(Ask::CreateEdge {
            from: VertexId(from),
            kind: Name::from_str(alloc, "t")?,
            to: VertexId(to),
        }),
        Write::Set(v, n) => Ok(Ask::SetVertexProp(
            VertexId(v),
            Name::from_str(alloc, "k")?,
            Value::Int(n),
        )),
        Write::DeleteEdge(e) => Ok(Ask::DeleteEdge(EdgeId(e))),
    }
}

fn answered_write(
    alloc: Global,
    core: &mut Core,
    caller: u64,
    write: Write,
) -> Result<Answer, NoMemory> {
    let ask = ask(alloc, write)?;
    Ok(core.step(alloc, caller, Event::Write(ask)))
}

fn answer(alloc: Global, core: &mut Core, caller: u64, deed: Deed) -> Result<Answer, NoMemory> {
    match deed {
        Deed::Begin => Ok(core.step(alloc, caller, Event::Begin)),
        Deed::Write(what) => answered_write(alloc, core, caller, what),
        Deed::Commit => Ok(core.step(alloc, caller, Event::Commit)),
        Deed::Abort => Ok(core.step(alloc, caller, Event::Abort)),
    }
}

/// Whether all was done, one behind the other, and nothing refused.
pub fn are_done(alloc: Global, core: &mut Core, acts: &[Act]) -> Result<bool, NoMemory> {
    for (caller, deed) in acts {
        let answer = answer(alloc, core, *caller, *deed)?;
        if matches!(answer, Answer::Refused(_)) {
            return Ok(false);
        }
    }
    Ok(true)
}
