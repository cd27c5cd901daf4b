//! What is read of the graph that a caller's transaction sees.
ghost use Rattle.std.specs.Prelude.{◌≡◌, []};
ghost use Rattle.pattern_match.specs.Kept.{matched_table};
ghost use Rattle.query_run.specs.Parts.{found, stopped};
ghost use Rattle.query_run.specs.Running.{Runs};
ghost use Rattle.query_run.specs.Shown as shown;
ghost use Rattle.row_ops.specs.Projecting.{projected_of};
ghost use Rattle.row_ops.specs.Unwinding.{unwound_of};
ghost use Rattle.write_ops.specs.Creating.{create_of};
ghost use Rattle.write_ops.specs.Planning.{plan_of};

use crate::access::Access;
use crate::shown::rows_shown;
use crate::{Rows, Stop};
use cypher_syntax::{MatchClause, Pattern, Projection, Unwind, Update};
use expr_eval::{EvalRefused, Row, Table};
use pattern_match::match_table;
use row_ops::{project, unwind};
use store_view::ViewOf;
use world_model::{GraphStore, When};
use write_ops::{Created, Plan, create, plan};

/// A refusal stops the query.
pub(crate) fn or_stop<A: Drop>(answer: Result<A, EvalRefused>) -> Result<A, Stop>
    ensures { result ≡ stopped answer }
{
    match answer {
        Ok(a) => Ok(a),
        Err(why) => Err(Stop::Eval(why)),
    }
}

/// MATCH.
pub(crate) fn matched<S: GraphStore>(
    access: &Access<S>,
    store: &mut S,
    clause: &MatchClause,
    table: &[Row],
) -> Result<Table, Stop>
    ensures runs { Runs S.stands S.caller S.alone access.now.txn.now.start
        (found (λ g. matched_table g table.now clause.now)) store.old store.new result }
    ensures stays { S.running store.new ≡ S.running store.old }
{
    let mut view = ViewOf::new(access.alloc, access.rt, store, access.txn, When::Own);
    or_stop(match_table(access.alloc, clause, table, &mut view))
}

/// UNWIND.
pub(crate) fn unwound<S: GraphStore>(
    access: &Access<S>,
    store: &mut S,
    clause: &Unwind,
    table: Table,
) -> Result<Table, Stop>
    ensures runs { Runs S.stands S.caller S.alone access.now.txn.now.start
        (found (λ g. unwound_of g table clause.now)) store.old store.new result }
    ensures stays { S.running store.new ≡ S.running store.old }
{
    let mut view = ViewOf::new(access.alloc, access.rt, store, access.txn, When::Own);
    or_stop(unwind(access.alloc, clause, table, &mut view))
}

/// WITH and RETURN.
pub(crate) fn projected<S: GraphStore>(
    access: &Access<S>,
    store: &mut S,
    projection: &Projection,
    table: Table,
) -> Result<Table, Stop>
    ensures runs { Runs S.stands S.caller S.alone access.now.txn.now.start
        (found (λ g. projected_of g table projection.now)) store.old store.new result }
    ensures stays { S.running store.new ≡ S.running store.old }
{
    let mut view = ViewOf::new(access.alloc, access.rt, store, access.txn, When::Own);
    or_stop(project(access.alloc, projection, table, &mut view))
}

/// The plan of CREATE.
pub(crate) fn created<S: GraphStore>(
    access: &Access<S>,
    store: &mut S,
    patterns: &[Pattern],
    table: &[Row],
) -> Result<Created, Stop>
    ensures runs { Runs S.stands S.caller S.alone access.now.txn.now.start
        (found (λ g. create_of g patterns.now table.now)) store.old store.new result }
    ensures stays { S.running store.new ≡ S.running store.old }
{
    let mut view = ViewOf::new(access.alloc, access.rt, store, access.txn, When::Own);
    or_stop(create(access.alloc, patterns, table, &mut view))
}

/// The plan of another clause that writes.
pub(crate) fn plan_found<S: GraphStore>(
    access: &Access<S>,
    store: &mut S,
    clause: &Update,
    table: &[Row],
) -> Result<Plan, Stop>
    ensures runs { Runs S.stands S.caller S.alone access.now.txn.now.start
        (found (λ g. plan_of g clause.now table.now)) store.old store.new result }
    ensures stays { S.running store.new ≡ S.running store.old }
{
    let mut view = ViewOf::new(access.alloc, access.rt, store, access.txn, When::Own);
    or_stop(plan(access.alloc, clause, table, &mut view))
}

/// The rows of a table as they are shown.
pub(crate) fn shown<S: GraphStore>(
    access: &Access<S>,
    store: &mut S,
    table: &[Row],
) -> Result<Rows, Stop>
    ensures runs { Runs S.stands S.caller S.alone access.now.txn.now.start
        (found (λ g. shown.rows_shown g [] table.now)) store.old store.new result }
    ensures stays { S.running store.new ≡ S.running store.old }
{
    let mut view = ViewOf::new(access.alloc, access.rt, store, access.txn, When::Own);
    or_stop(rows_shown(access.alloc, table, &mut view))
}
