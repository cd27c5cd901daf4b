//! The rows of RETURN as they are shown.
ghost use Rattle.std.specs.Prelude.{[]};
ghost use Rattle.expr_eval.specs.Outcome.{Evaluates};
ghost use Rattle.query_run.specs.Shown as spec;

use expr_eval::{EvalRefused, Row};
use graph_reader::{GraphRead, ShowRefused, Shown, show};
use graph_value::{Name, Value};
use sqlite_items::Items;
use std::alloc::Global;

/// The rows that a query gives, each with the values of its columns in order.
pub type Rows = Items<Items<Shown>>;

/// A value as the graph has it, each entity with its record. The first entity in it that isn't alive is gone.
pub fn value_shown<G: GraphRead>(
    alloc: Global,
    value: &Value,
    graph: &mut G,
) -> Result<Shown, EvalRefused>
    ensures { Evaluates G.stands G.follows (λ g. spec.value_shown g value.now)
        graph.old graph.new result }
{
    match show(alloc, value, graph) {
        Ok(shown) => Ok(shown),
        Err(ShowRefused::Gone(x)) => Err(EvalRefused::Gone(x)),
        Err(ShowRefused::NoMemory) => Err(EvalRefused::NoMemory),
    }
}

fn values_shown<G: GraphRead>(
    alloc: Global,
    row: &[(Name, Value)],
    graph: &mut G,
) -> Result<Items<Shown>, EvalRefused>
    ensures { Evaluates G.stands G.follows (λ g. spec.values_shown g [] row.now)
        graph.old graph.new result }
{
    let mut values = Items::new(alloc);
    for (_, value) in row {
        values.push(value_shown(alloc, value, graph)?)?;
    }
    Ok(values)
}

/// The rows of a table, each value as the graph has it. An entity that isn't alive is gone.
pub(crate) fn rows_shown<G: GraphRead>(
    alloc: Global,
    table: &[Row],
    graph: &mut G,
) -> Result<Rows, EvalRefused>
    ensures { Evaluates G.stands G.follows (λ g. spec.rows_shown g [] table.now)
        graph.old graph.new result }
{
    let mut rows = Items::new(alloc);
    for row in table {
        rows.push(values_shown(alloc, row.as_slice(), graph)?)?;
    }
    Ok(rows)
}
