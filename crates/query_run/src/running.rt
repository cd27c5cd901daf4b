//! A whole query.
ghost use Rattle.std.specs.Prelude.{◌≡◌, IfOk, []};
ghost use Rattle.cypher_check.specs.Answer.{query_of};
ghost use Rattle.query_run.specs.Denoted as spec;
ghost use Rattle.query_run.specs.Parts.{given};
ghost use Rattle.query_run.specs.Running.{Goes, Runs};

use crate::access::Access;
use crate::clauses::{clauses_done, stages_done};
use crate::reading::{projected, shown};
use crate::{Rows, Stop};
use cypher_check::Checked;
use cypher_syntax::Projection;
use expr_eval::Table;
use graph_value::NoMemory;
use sqlite_items::Items;
use std::alloc::Global;
use world_model::{GraphStore, Txn};

/// What the first clause begins with.
pub(crate) fn one_row(alloc: Global) -> Result<Table, NoMemory>
    ensures { IfOk result (λ t. t ≡ spec.one_row) }
{
    let mut table = Items::new(alloc);
    table.push(Items::new(alloc))?;
    Ok(table)
}

/// The rows of RETURN.
fn rows_returned<S: GraphStore>(
    access: &Access<S>,
    store: &mut S,
    projection: &Projection,
    table: Table,
) -> Result<Rows, Stop>
    ensures runs { Runs S.stands S.caller S.alone access.now.txn.now.start
        (spec.rows_part projection.now table) store.old store.new result }
    ensures stays { S.running store.new ≡ S.running store.old }
{
    let table = projected(access, store, projection, table)?;
    shown(access, store, table.as_slice())
}

fn no_rows<S: GraphStore>(access: &Access<S>, store: &mut S) -> Rows
    ensures runs { Goes S.stands S.caller S.alone access.now.txn.now.start
        (given []) (given result) store.old store.new }
    ensures stays { S.running store.new ≡ S.running store.old }
{
    Items::new(access.alloc)
}

fn returned<S: GraphStore>(
    access: &Access<S>,
    store: &mut S,
    returns: &Option<Projection>,
    table: Table,
) -> Result<Rows, Stop>
    ensures runs { Runs S.stands S.caller S.alone access.now.txn.now.start
        (spec.returned_part returns.now table) store.old store.new result }
    ensures stays { S.running store.new ≡ S.running store.old }
{
    match returns {
        Some(projection) => rows_returned(access, store, projection, table),
        None => Ok(no_rows(access, store)),
    }
}

/// Runs a query on a store for its caller's open transaction, and gives the rows of its RETURN, or why it stopped. Each
/// clause reads what the transaction sees, its own writes among it, and asks the store for its writes in order. A time
/// clause isn't looked at.
///
/// In each history that the store stood for, what was asked and answered in this call, and the rows or the stop, are what
/// the query means on the graph that the transaction saw. `NoMemory` may come anywhere; what was asked until then is the
/// beginning of what the query asks. Other callers may act in between. The transaction stays open.
pub fn run<S: GraphStore>(
    alloc: Global,
    checked: &Checked,
    rt: &S::Rt,
    store: &mut S,
    txn: &Txn,
) -> Result<Rows, Stop>
    ensures runs { Runs S.stands S.caller S.alone txn.now.start
        (spec.denoted (query_of checked.now)) store.old store.new result }
    ensures stays { S.running store.new ≡ S.running store.old }
{
    let access = Access { alloc, rt, txn };
    let query = checked.query();
    let table = one_row(alloc)?;
    let table = stages_done(&access, store, query.stages.as_slice(), table)?;
    let table = clauses_done(&access, store, query.clauses.as_slice(), table)?;
    returned(&access, store, &query.returns, table)
}
