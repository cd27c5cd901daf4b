//! WHERE behind WITH.
ghost use Rattle.std.specs.Prelude.{◌≡◌, []};
ghost use Rattle.expr_eval.specs.Outcome.{Evaluates};
ghost use Rattle.row_ops.specs.Filtering as spec;

use crate::queues::queue;
use cypher_syntax::Expr;
use expr_eval::{EvalRefused, Table, eval, keeps};
use graph_reader::GraphRead;
use sqlite_items::Items;
use std::alloc::Global;

/// The rows in which a condition is true.
fn kept<G: GraphRead>(
    alloc: Global,
    condition: &Expr,
    rows: Table,
    graph: &mut G,
) -> Result<Table, EvalRefused>
    ensures { Evaluates G.stands G.follows (λ g. spec.kept_on g condition.now [] rows)
        graph.old graph.new result }
{
    let mut kept = Items::new(alloc);
    let mut left = queue(alloc, rows)?;
    while let Some(row) = left.pop_front() {
        let value = eval(alloc, condition, &row, graph)?;
        if keeps(&value)? {
            kept.push(row)?;
        }
    }
    Ok(kept)
}

/// The rows in which the condition is true, if there is one.
pub(crate) fn filtered<G: GraphRead>(
    alloc: Global,
    condition: &Option<Expr>,
    rows: Table,
    graph: &mut G,
) -> Result<Table, EvalRefused>
    ensures { Evaluates G.stands G.follows (λ g. spec.filtered_of g condition.now rows)
        graph.old graph.new result }
{
    match condition {
        Some(condition) => kept(alloc, condition, rows, graph),
        None => Ok(rows),
    }
}
