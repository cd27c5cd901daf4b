//! Rows under way.
ghost use Rattle.std.specs.Prelude.{◌≡◌, IfOk};
ghost use Rattle.expr_eval.specs.Outcome.{Evaluates};
ghost use Rattle.row_ops.specs.Making as spec;
ghost use Rattle.cypher_check.specs.Clauses as checks;

use crate::columns::{with_columns, with_given};
use crate::queues::queue;
use crate::rows::{copy, with_copies};
use cypher_syntax::{Item, Projection};
use expr_eval::{EvalRefused, Row, Table, eval};
use graph_reader::GraphRead;
use graph_value::{List, NoMemory};
use sqlite_items::Items;
use std::alloc::Global;

/// A row that a projection makes.
#[derive(Drop)]
pub struct Made {
    /// The row that it is made of.
    pub before: Row,
    /// The values of the items in it.
    pub values: List,
}

/// The values of the items in a row, left to right. The first refusal is the answer.
pub fn item_values<G: GraphRead>(
    alloc: Global,
    items: &[Item],
    row: &Row,
    graph: &mut G,
) -> Result<List, EvalRefused>
    ensures { Evaluates G.stands G.follows (λ g. spec.item_values g items.now row.now)
        graph.old graph.new result }
{
    let mut values = Items::new(alloc);
    for item in items {
        values.push(eval(alloc, &item.expr, row, graph)?)?;
    }
    Ok(values)
}

/// The values of the items, row by row.
pub(crate) fn make<G: GraphRead>(
    alloc: Global,
    items: &[Item],
    table: Table,
    graph: &mut G,
) -> Result<Items<Made>, EvalRefused>
    ensures { Evaluates G.stands G.follows (λ g. spec.made_of g items.now table)
        graph.old graph.new result }
{
    let mut rows = Items::new(alloc);
    let mut left = queue(alloc, table)?;
    while let Some(before) = left.pop_front() {
        let values = item_values(alloc, items, &before, graph)?;
        rows.push(Made { before, values })?;
    }
    Ok(rows)
}

/// The row that a projection gives.
pub(crate) fn after(alloc: Global, p: &Projection, made: Made) -> Result<Row, NoMemory>
    ensures { IfOk result (λ r. r ≡ spec.after p.now made) }
{
    let Made { before, values } = made;
    let row = if p.star { before } else { Items::new(alloc) };
    with_columns(alloc, row, p.items.as_slice(), values)
}

/// What `*` takes over, in memory of its own.
fn starred(alloc: Global, star: bool, row: &Row) -> Result<Row, NoMemory>
    ensures { IfOk result (λ r. r ≡ spec.starred star row.now) }
{
    if star {
        copy(alloc, row)
    } else {
        Ok(Items::new(alloc))
    }
}

/// The names that ORDER BY sees.
pub(crate) fn seen(
    alloc: Global,
    p: &Projection,
    is_closed: bool,
    made: &Made,
) -> Result<Row, NoMemory>
    requires { is_closed ≡ checks.is_closed p.now }
    ensures { IfOk result (λ r. r ≡ spec.seen p.now made.now) }
{
    let row = starred(alloc, p.star, &made.before)?;
    let row = with_given(alloc, row, p.items.as_slice(), &made.values)?;
    if is_closed {
        return Ok(row);
    }
    with_copies(alloc, row, made.before.as_slice())
}
