//! What a statement is answered by a graph.
ghost use Rattle.std.specs.Prelude.{◌≡◌};
ghost use Rattle.std.specs.List.{list_any};
ghost use Rattle.cypher_check.specs.Verdict as rules;
ghost use Rattle.expr_eval.specs.Outcome.{Evaluates};
ghost use Rattle.graph_reader.specs.Reading.{Reads};
ghost use Rattle.query_bench.specs.Answered as spec;
ghost use Rattle.query_bench.specs.Rows.{IsAsked, IsRun};

use crate::running::run;
use crate::showing::show_rows;
use cypher_syntax::{Clause, Query, Stage, Time};
use expr_eval::EvalRefused;
use graph_reader::GraphRead;
use graph_value::Text;
use query_reply::{Fault, ShownRow, examine};
use sqlite_items::Items;
use std::alloc::Global;

/// Why a statement has no rows here.
#[derive(Drop)]
pub enum NoRows {
    /// It isn't a query that can be run.
    Fault(Fault),
    /// A clause of it writes.
    Writes,
    /// It has a time clause.
    Timed,
    /// What it asks is refused.
    Refused(EvalRefused),
}

fn any_writes(clauses: &[Clause]) -> bool
    ensures { result ≡ list_any rules.is_update clauses.now }
{
    clauses
        .iter()
        .any(|clause| matches!(clause, Clause::Update(_)))
}

fn any_stage_writes(stages: &[Stage]) -> bool
    ensures { result ≡ list_any (λ s. list_any rules.is_update s.clauses) stages.now }
{
    stages
        .iter()
        .any(|stage| any_writes(stage.clauses.as_slice()))
}

fn writes(query: &Query) -> bool
    ensures { result ≡ rules.writes query.now }
{
    any_stage_writes(query.stages.as_slice()) || any_writes(query.clauses.as_slice())
}

fn is_timed(time: Time) -> bool
    ensures { result ≡ rules.is_timed time }
{
    !matches!(time, Time::None)
}

/// The rows of a query.
fn rows<G: GraphRead>(
    alloc: Global,
    query: &Query,
    graph: &mut G,
) -> Result<Items<ShownRow>, EvalRefused>
    ensures { Evaluates G.stands G.follows (λ g. spec.answered g query.now)
        graph.old graph.new result }
{
    let table = run(alloc, query, graph)?;
    show_rows(alloc, table.as_slice(), graph)
}

/// The rows of a query, if it only reads and asks of no other time.
fn ask_query<G: GraphRead>(
    alloc: Global,
    query: &Query,
    graph: &mut G,
) -> Result<Items<ShownRow>, NoRows>
    ensures { Reads G.stands G.follows (λ g r. IsRun g query.now r) graph.old graph.new result }
{
    if writes(query) {
        return Err(NoRows::Writes);
    }
    if is_timed(query.time) {
        return Err(NoRows::Timed);
    }
    match rows(alloc, query, graph) {
        Ok(rows) => Ok(rows),
        Err(why) => Err(NoRows::Refused(why)),
    }
}

/// The rows of the query that a statement is.
pub fn ask<G: GraphRead>(
    alloc: Global,
    statement: &Text,
    graph: &mut G,
) -> Result<Items<ShownRow>, NoRows>
    ensures { Reads G.stands G.follows (λ g r. IsAsked g statement.now r)
        graph.old graph.new result }
{
    match examine(alloc, statement) {
        Ok(checked) => ask_query(alloc, checked.query(), graph),
        Err(why) => Err(NoRows::Fault(why)),
    }
}
