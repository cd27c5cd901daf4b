//! The clauses of a query, one after the other.
ghost use Rattle.std.specs.Prelude.{◌≡◌};
ghost use Rattle.query_run.specs.Denoted as spec;
ghost use Rattle.query_run.specs.Running.{Runs};

use crate::Stop;
use crate::access::Access;
use crate::asking::asked_all;
use crate::named::table_with;
use crate::reading::{created, matched, plan_found, projected, unwound};
use cypher_syntax::{Clause, Pattern, Stage, Update};
use expr_eval::Table;
use world_model::GraphStore;

fn create_clause<S: GraphStore>(
    access: &Access<S>,
    store: &mut S,
    patterns: &[Pattern],
    table: Table,
) -> Result<Table, Stop>
    ensures runs { Runs S.stands S.caller S.alone access.now.txn.now.start
        (spec.create_part table patterns.now) store.old store.new result }
    ensures stays { S.running store.new ≡ S.running store.old }
{
    let plan = created(access, store, patterns, table.as_slice())?;
    let ids = asked_all(access, store, plan.ops.as_slice())?;
    let ids = ids.as_slice();
    Ok(table_with(access.alloc, ids, table.as_slice(), plan.names.as_slice())?)
}

fn write_clause<S: GraphStore>(
    access: &Access<S>,
    store: &mut S,
    clause: &Update,
    table: Table,
) -> Result<Table, Stop>
    ensures runs { Runs S.stands S.caller S.alone access.now.txn.now.start
        (spec.write_part table clause.now) store.old store.new result }
    ensures stays { S.running store.new ≡ S.running store.old }
{
    let ops = plan_found(access, store, clause, table.as_slice())?;
    asked_all(access, store, ops.as_slice())?;
    Ok(table)
}

fn update_done<S: GraphStore>(
    access: &Access<S>,
    store: &mut S,
    clause: &Update,
    table: Table,
) -> Result<Table, Stop>
    ensures runs { Runs S.stands S.caller S.alone access.now.txn.now.start
        (spec.update_part table clause.now) store.old store.new result }
    ensures stays { S.running store.new ≡ S.running store.old }
{
    match clause {
        Update::Create(patterns) => create_clause(access, store, patterns.as_slice(), table),
        _ => write_clause(access, store, clause, table),
    }
}

fn clause_done<S: GraphStore>(
    access: &Access<S>,
    store: &mut S,
    clause: &Clause,
    table: Table,
) -> Result<Table, Stop>
    ensures runs { Runs S.stands S.caller S.alone access.now.txn.now.start
        (spec.clause_part table clause.now) store.old store.new result }
    ensures stays { S.running store.new ≡ S.running store.old }
{
    match clause {
        Clause::Match(clause) => matched(access, store, clause, table.as_slice()),
        Clause::Unwind(clause) => unwound(access, store, clause, table),
        Clause::Update(clause) => update_done(access, store, clause, table),
    }
}

/// Clauses in order, each over the table that the one before it left.
pub(crate) fn clauses_done<S: GraphStore>(
    access: &Access<S>,
    store: &mut S,
    clauses: &[Clause],
    table: Table,
) -> Result<Table, Stop>
    ensures runs { Runs S.stands S.caller S.alone access.now.txn.now.start
        (spec.clauses_part clauses.now table) store.old store.new result }
    ensures stays { S.running store.new ≡ S.running store.old }
{
    let mut table = table;
    for clause in clauses {
        table = clause_done(access, store, clause, table)?;
    }
    Ok(table)
}

fn stage_done<S: GraphStore>(
    access: &Access<S>,
    store: &mut S,
    stage: &Stage,
    table: Table,
) -> Result<Table, Stop>
    ensures runs { Runs S.stands S.caller S.alone access.now.txn.now.start
        (spec.stage_part stage.now table) store.old store.new result }
    ensures stays { S.running store.new ≡ S.running store.old }
{
    let table = clauses_done(access, store, stage.clauses.as_slice(), table)?;
    projected(access, store, &stage.next, table)
}

/// The parts of a query that a WITH ends, in order.
pub(crate) fn stages_done<S: GraphStore>(
    access: &Access<S>,
    store: &mut S,
    stages: &[Stage],
    table: Table,
) -> Result<Table, Stop>
    ensures runs { Runs S.stands S.caller S.alone access.now.txn.now.start
        (spec.stages_part stages.now table) store.old store.new result }
    ensures stays { S.running store.new ≡ S.running store.old }
{
    let mut table = table;
    for stage in stages {
        table = stage_done(access, store, stage, table)?;
    }
    Ok(table)
}
