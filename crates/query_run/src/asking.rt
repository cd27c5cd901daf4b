//! A plan, asked of the store write by write.
ghost use Rattle.std.specs.Prelude.{◌≡◌, ◌++◌, [], IfOk};
ghost use Rattle.query_run.specs.Asked as spec;
ghost use Rattle.query_run.specs.Running.{Runs};

use crate::Stop;
use crate::access::Access;
use crate::named::{edge_of, vertex_of};
use crate::stop::stop_of;
use graph_value::NoMemory;
use sqlite_items::Items;
use std::alloc::Global;
use undo_delta::Ask;
use world_model::{GraphStore, Wrote};
use write_ops::PlannedOp;

/// The numbers of what the creates of a clause have made.
pub(crate) type Ids = Items<u64>;

/// The write that an operation asks for, where the creates before it were given these numbers.
fn ask_of(alloc: Global, ids: &[u64], op: &PlannedOp) -> Result<Ask, NoMemory>
    ensures { IfOk result (λ a. a ≡ spec.ask_of ids.now op.now) }
{
    Ok(match op {
        PlannedOp::CreateVertex => Ask::CreateVertex,
        PlannedOp::DeleteVertex(at) => Ask::DeleteVertex(vertex_of(ids, *at)),
        PlannedOp::AddLabel(at, label) => Ask::AddLabel(vertex_of(ids, *at), label.copy()?),
        PlannedOp::RemoveLabel(at, label) => Ask::RemoveLabel(vertex_of(ids, *at), label.copy()?),
        PlannedOp::SetVertexProp(at, key, value) => {
            Ask::SetVertexProp(vertex_of(ids, *at), key.copy()?, value.copy(alloc)?)
        }
        PlannedOp::CreateEdge { from, kind, to } => Ask::CreateEdge {
            from: vertex_of(ids, *from),
            kind: kind.copy()?,
            to: vertex_of(ids, *to),
        },
        PlannedOp::DeleteEdge(at) => Ask::DeleteEdge(edge_of(ids, *at)),
        PlannedOp::SetEdgeProp(at, key, value) => {
            Ask::SetEdgeProp(edge_of(ids, *at), key.copy()?, value.copy(alloc)?)
        }
    })
}

fn with_made(ids: Ids, wrote: Wrote) -> Result<Ids, NoMemory>
    ensures { IfOk result (λ made. made ≡ ids ++ spec.ids_made wrote) }
{
    let mut ids = ids;
    match wrote {
        Wrote::Done | Wrote::Unchanged => {}
        Wrote::Vertex(v) => ids.push(v.0)?,
        Wrote::Edge(e) => ids.push(e.0)?,
    }
    Ok(ids)
}

/// One write is sent.
fn asked<S: GraphStore>(access: &Access<S>, store: &mut S, ask: Ask) -> Result<Wrote, Stop>
    ensures runs { Runs S.stands S.caller S.alone access.now.txn.now.start (spec.asked ask)
        store.old store.new result }
    ensures stays { S.running store.new ≡ S.running store.old }
{
    match store.write(access.rt, access.alloc, access.txn, ask) {
        Ok(wrote) => Ok(wrote),
        Err(why) => Err(stop_of(why)),
    }
}

/// The operations of a plan, one after the other, up to the first that is refused. The numbers of what was made.
pub(crate) fn asked_all<S: GraphStore>(
    access: &Access<S>,
    store: &mut S,
    ops: &[PlannedOp],
) -> Result<Ids, Stop>
    ensures runs { Runs S.stands S.caller S.alone access.now.txn.now.start
        (spec.planned_part ops.now []) store.old store.new result }
    ensures stays { S.running store.new ≡ S.running store.old }
{
    let mut ids = Items::new(access.alloc);
    for op in ops {
        let ask = ask_of(access.alloc, ids.as_slice(), op)?;
        let wrote = asked(access, store, ask)?;
        ids = with_made(ids, wrote)?;
    }
    Ok(ids)
}
