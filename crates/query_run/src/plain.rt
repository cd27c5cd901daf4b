//! A query that writes nothing, over any reader of a graph.
ghost use Rattle.expr_eval.specs.Outcome.{Evaluates};
ghost use Rattle.query_run.specs.Plain as spec;

use crate::Rows;
use crate::running::one_row;
use crate::shown::rows_shown;
use cypher_syntax::{Clause, Projection, Query, Stage};
use expr_eval::{EvalRefused, Table};
use graph_reader::GraphRead;
use pattern_match::match_table;
use row_ops::{project, unwind};
use sqlite_items::Items;
use std::alloc::Global;

/// A clause that reads. One that writes is passed over.
fn clause_table<G: GraphRead>(
    alloc: Global,
    clause: &Clause,
    table: Table,
    graph: &mut G,
) -> Result<Table, EvalRefused>
    ensures { Evaluates G.stands G.follows (λ g. spec.clause_table g table clause.now)
        graph.old graph.new result }
{
    match clause {
        Clause::Match(clause) => match_table(alloc, clause, table.as_slice(), graph),
        Clause::Unwind(clause) => unwind(alloc, clause, table, graph),
        Clause::Update(_) => Ok(table),
    }
}

fn clauses_table<G: GraphRead>(
    alloc: Global,
    clauses: &[Clause],
    table: Table,
    graph: &mut G,
) -> Result<Table, EvalRefused>
    ensures { Evaluates G.stands G.follows (λ g. spec.clauses_table g clauses.now table)
        graph.old graph.new result }
{
    let mut table = table;
    for clause in clauses {
        table = clause_table(alloc, clause, table, graph)?;
    }
    Ok(table)
}

fn stage_table<G: GraphRead>(
    alloc: Global,
    stage: &Stage,
    table: Table,
    graph: &mut G,
) -> Result<Table, EvalRefused>
    ensures { Evaluates G.stands G.follows (λ g. spec.stage_table g stage.now table)
        graph.old graph.new result }
{
    let table = clauses_table(alloc, stage.clauses.as_slice(), table, graph)?;
    project(alloc, &stage.next, table, graph)
}

fn stages_table<G: GraphRead>(
    alloc: Global,
    stages: &[Stage],
    table: Table,
    graph: &mut G,
) -> Result<Table, EvalRefused>
    ensures { Evaluates G.stands G.follows (λ g. spec.stages_table g stages.now table)
        graph.old graph.new result }
{
    let mut table = table;
    for stage in stages {
        table = stage_table(alloc, stage, table, graph)?;
    }
    Ok(table)
}

fn projected_rows<G: GraphRead>(
    alloc: Global,
    projection: &Projection,
    table: Table,
    graph: &mut G,
) -> Result<Rows, EvalRefused>
    ensures { Evaluates G.stands G.follows (λ g. spec.projected_rows g projection.now table)
        graph.old graph.new result }
{
    let table = project(alloc, projection, table, graph)?;
    rows_shown(alloc, table.as_slice(), graph)
}

fn returned_rows<G: GraphRead>(
    alloc: Global,
    returns: &Option<Projection>,
    table: Table,
    graph: &mut G,
) -> Result<Rows, EvalRefused>
    ensures { Evaluates G.stands G.follows (λ g. spec.returned_rows g returns.now table)
        graph.old graph.new result }
{
    match returns {
        Some(projection) => projected_rows(alloc, projection, table, graph),
        None => Ok(Items::new(alloc)),
    }
}

/// The rows of a query that writes nothing, each value as the graph has it. Clauses that write are passed over.
pub(crate) fn rows_of<G: GraphRead>(
    alloc: Global,
    query: &Query,
    graph: &mut G,
) -> Result<Rows, EvalRefused>
    ensures { Evaluates G.stands G.follows (λ g. spec.rows_of g query.now)
        graph.old graph.new result }
{
    let table = one_row(alloc)?;
    let table = stages_table(alloc, query.stages.as_slice(), table, graph)?;
    let table = clauses_table(alloc, query.clauses.as_slice(), table, graph)?;
    returned_rows(alloc, &query.returns, table, graph)
}
