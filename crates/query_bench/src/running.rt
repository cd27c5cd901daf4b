//! The clauses of a query that reads, one after the other.
ghost use Rattle.std.specs.Prelude.{◌≡◌, ◌∷◌, [], IfOk};
ghost use Rattle.expr_eval.specs.Outcome.{Evaluates};
ghost use Rattle.query_bench.specs.Answered as spec;

use cypher_syntax::{Clause, Projection, Query, Stage};
use expr_eval::{EvalRefused, Table};
use graph_reader::GraphRead;
use graph_value::NoMemory;
use pattern_match::match_table;
use row_ops::{project, unwind};
use sqlite_items::Items;
use std::alloc::Global;

/// One empty row.
fn first_table(alloc: Global) -> Result<Table, NoMemory>
    ensures { IfOk result (λ table. table ≡ [] ∷ []) }
{
    let mut table = Items::new(alloc);
    table.push(Items::new(alloc))?;
    Ok(table)
}

/// The table behind a clause. One that writes leaves it as it is.
#[tactic(auto, unfolding(crate::specs::Answered::clause_of))]
fn behind<G: GraphRead>(
    alloc: Global,
    clause: &Clause,
    table: Table,
    graph: &mut G,
) -> Result<Table, EvalRefused>
    ensures { Evaluates G.stands G.follows (λ g. spec.clause_of g table clause.now)
        graph.old graph.new result }
{
    match clause {
        Clause::Match(clause) => match_table(alloc, clause, table.as_slice(), graph),
        Clause::Unwind(clause) => unwind(alloc, clause, table, graph),
        Clause::Update(_) => Ok(table),
    }
}

/// The table behind several clauses.
fn behind_all<G: GraphRead>(
    alloc: Global,
    clauses: &[Clause],
    table: Table,
    graph: &mut G,
) -> Result<Table, EvalRefused>
    ensures { Evaluates G.stands G.follows (λ g. spec.clauses_of g table clauses.now)
        graph.old graph.new result }
{
    let mut done = table;
    for clause in clauses {
        done = behind(alloc, clause, done, graph)?;
    }
    Ok(done)
}

/// The table behind a WITH and the clauses in front of it.
#[tactic(auto, unfolding(crate::specs::Answered::stage_of))]
fn behind_stage<G: GraphRead>(
    alloc: Global,
    stage: &Stage,
    table: Table,
    graph: &mut G,
) -> Result<Table, EvalRefused>
    ensures { Evaluates G.stands G.follows (λ g. spec.stage_of g table stage.now)
        graph.old graph.new result }
{
    let table = behind_all(alloc, stage.clauses.as_slice(), table, graph)?;
    project(alloc, &stage.next, table, graph)
}

fn behind_stages<G: GraphRead>(
    alloc: Global,
    stages: &[Stage],
    table: Table,
    graph: &mut G,
) -> Result<Table, EvalRefused>
    ensures { Evaluates G.stands G.follows (λ g. spec.stages_of g table stages.now)
        graph.old graph.new result }
{
    let mut done = table;
    for stage in stages {
        done = behind_stage(alloc, stage, done, graph)?;
    }
    Ok(done)
}

/// The table that RETURN gives, if there is one.
#[tactic(auto, unfolding(crate::specs::Answered::returned_of))]
fn returned<G: GraphRead>(
    alloc: Global,
    returns: &Option<Projection>,
    table: Table,
    graph: &mut G,
) -> Result<Table, EvalRefused>
    ensures { Evaluates G.stands G.follows (λ g. spec.returned_of g table returns.now)
        graph.old graph.new result }
{
    match returns {
        Some(projection) => project(alloc, projection, table, graph),
        None => Ok(table),
    }
}

/// The table behind all of a query.
pub fn run<G: GraphRead>(alloc: Global, query: &Query, graph: &mut G) -> Result<Table, EvalRefused>
    ensures { Evaluates G.stands G.follows (λ g. spec.table_of g query.now)
        graph.old graph.new result }
{
    let table = first_table(alloc)?;
    let table = behind_stages(alloc, query.stages.as_slice(), table, graph)?;
    let table = behind_all(alloc, query.clauses.as_slice(), table, graph)?;
    returned(alloc, &query.returns, table, graph)
}
