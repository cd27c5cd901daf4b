//! What is found in the graph at one instant.
ghost use Rattle.std.specs.Prelude.{Ok};
ghost use Rattle.expr_eval.specs.Outcome.{Evaluates};
ghost use Rattle.pattern_match.specs.Kept.{columns};
ghost use Rattle.pattern_match.specs.Tuples.{tuples_for};
ghost use Rattle.tt_clauses.specs.Seen.{no_tuple, with_tuples};
ghost use Rattle.tt_clauses.specs.Values.{shown_if, values_kept};

use crate::access::Join;
use crate::tuples::{Tuple, Tuples, set_of};
use crate::values::{Values, items_shown};
use cypher_syntax::Item;
use expr_eval::{EvalRefused, Row};
use graph_reader::GraphRead;
use pattern_match::{Plan, is_kept, row_of, tuples_asked};
use std::alloc::Global;

/// The tuples that match.
pub(crate) fn matched<G: GraphRead>(
    alloc: Global,
    plan: &Plan,
    graph: &mut G,
) -> Result<Tuples, EvalRefused>
    ensures { Evaluates G.stands G.follows
        (λ g. Ok (with_tuples no_tuple (tuples_for g plan.now.steps))) graph.old graph.new result }
{
    let tuples = tuples_asked(alloc, plan, graph)?;
    Ok(set_of(alloc, tuples.as_slice())?)
}

fn shown_if<G: GraphRead>(
    alloc: Global,
    keep: bool,
    items: &[Item],
    row: &Row,
    graph: &mut G,
) -> Result<Option<Values>, EvalRefused>
    ensures { Evaluates G.stands G.follows (λ g. shown_if keep g items.now row.now)
        graph.old graph.new result }
{
    if keep {
        Ok(Some(items_shown(alloc, items, row, graph)?))
    } else {
        Ok(None)
    }
}

/// The values of a row, or nothing where WHERE doesn't keep it.
fn row_kept<G: GraphRead>(
    alloc: Global,
    join: &Join,
    row: &Row,
    graph: &mut G,
) -> Result<Option<Values>, EvalRefused>
    ensures { Evaluates G.stands G.follows (λ g. values_kept g join.now.filter.now
        join.now.items.now row.now) graph.old graph.new result }
{
    let keep = is_kept(alloc, join.filter, row, graph)?;
    shown_if(alloc, keep, join.items, row, graph)
}

/// The values of a tuple that matches, or nothing where WHERE doesn't keep it.
pub(crate) fn values_kept<G: GraphRead>(
    alloc: Global,
    join: &Join,
    tuple: &Tuple,
    graph: &mut G,
) -> Result<Option<Values>, EvalRefused>
    ensures { Evaluates G.stands G.follows (λ g. values_kept g join.now.filter.now
        join.now.items.now (columns join.now.plan.now.gives tuple.now))
        graph.old graph.new result }
{
    let row = row_of(alloc, join.plan, tuple.as_slice())?;
    row_kept(alloc, join, &row, graph)
}
