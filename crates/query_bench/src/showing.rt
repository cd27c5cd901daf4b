//! The rows of a table as a graph shows them.
ghost use Rattle.std.specs.Prelude.{[]};
ghost use Rattle.expr_eval.specs.Outcome.{Evaluates};
ghost use Rattle.query_bench.specs.Answered as spec;

use expr_eval::{EvalRefused, Row};
use graph_reader::{GraphRead, ShowRefused, Shown, show};
use graph_value::{Name, Value};
use query_reply::ShownRow;
use sqlite_items::Items;
use std::alloc::Global;

#[tactic(auto, unfolding(crate::specs::Answered::value_shown))]
fn show_value<G: GraphRead>(
    alloc: Global,
    value: &Value,
    graph: &mut G,
) -> Result<Shown, EvalRefused>
    ensures { Evaluates G.stands G.follows (λ g. spec.value_shown g value.now)
        graph.old graph.new result }
{
    match show(alloc, value, graph) {
        Ok(shown) => Ok(shown),
        Err(ShowRefused::Gone(x)) => Err(EvalRefused::Gone(x)),
        Err(ShowRefused::NoMemory) => Err(EvalRefused::NoMemory),
    }
}

#[tactic(auto, unfolding(crate::specs::Answered::row_shown))]
fn show_row<G: GraphRead>(
    alloc: Global,
    row: &[(Name, Value)],
    graph: &mut G,
) -> Result<ShownRow, EvalRefused>
    ensures { Evaluates G.stands G.follows (λ g. spec.row_shown g row.now)
        graph.old graph.new result }
{
    let mut shown = Items::new(alloc);
    for (_, value) in row {
        shown.push(show_value(alloc, value, graph)?)?;
    }
    Ok(shown)
}

/// The rows, or the first entity in them that isn't alive.
pub fn show_rows<G: GraphRead>(
    alloc: Global,
    rows: &[Row],
    graph: &mut G,
) -> Result<Items<ShownRow>, EvalRefused>
    ensures { Evaluates G.stands G.follows (λ g. spec.rows_on g [] rows.now)
        graph.old graph.new result }
{
    let mut shown = Items::new(alloc);
    for row in rows {
        shown.push(show_row(alloc, row.as_slice(), graph)?)?;
    }
    Ok(shown)
}
