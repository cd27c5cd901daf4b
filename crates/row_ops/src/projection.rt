//! WITH and RETURN.
ghost use Rattle.std.specs.Prelude.{◌≡◌, map, IfOk};
ghost use Rattle.expr_eval.specs.Outcome.{Evaluates};
ghost use Rattle.row_ops.specs.Distinct as once;
ghost use Rattle.row_ops.specs.Making as making;
ghost use Rattle.row_ops.specs.Projecting as spec;

use crate::filter::filtered;
use crate::grouping::grouped;
use crate::made::{Made, after, make};
use crate::once::distinct;
use crate::queues::queue;
use crate::sorting::sorted;
use cypher_check::has_aggregate;
use cypher_syntax::{Item, Projection};
use expr_eval::{EvalRefused, Row, Table};
use graph_reader::GraphRead;
use graph_value::NoMemory;
use sqlite_items::Items;
use std::alloc::Global;
use std::collections::VecDeque;

fn is_grouped(items: &[Item]) -> bool
    ensures { result ≡ spec.is_grouped items.now }
{
    items.iter().any(|item| has_aggregate(&item.expr))
}

/// A row for each row, or for each group.
fn rows<G: GraphRead>(
    alloc: Global,
    items: &[Item],
    table: Table,
    graph: &mut G,
) -> Result<Items<Made>, EvalRefused>
    ensures { Evaluates G.stands G.follows (λ g. spec.rows_of g items.now table)
        graph.old graph.new result }
{
    if is_grouped(items) {
        grouped(alloc, items, table, graph)
    } else {
        make(alloc, items, table, graph)
    }
}

/// Each row once, where that is asked.
fn kept_once(alloc: Global, p: &Projection, rows: Items<Made>) -> Result<Items<Made>, NoMemory>
    ensures { IfOk result (λ kept. kept ≡ once.distinct_of p.now.distinct p.now.star rows) }
{
    if p.distinct {
        distinct(alloc, p.star, rows)
    } else {
        Ok(rows)
    }
}

/// The rows behind those that SKIP leaves out.
fn skipped<T: Drop>(
    alloc: Global,
    mut rows: VecDeque<T>,
    skip: Option<u64>,
) -> Result<VecDeque<T>, NoMemory>
    ensures { IfOk result (λ left. left.items ≡ spec.skipped skip rows.items) }
{
    match skip {
        None => Ok(rows),
        Some(count) if (rows.len() as u64) < count => Ok(VecDeque::new(alloc)),
        Some(count) => rows.split_off(count as usize),
    }
}

/// The rows that LIMIT leaves.
fn limited<T: Drop>(mut rows: VecDeque<T>, limit: Option<u64>) -> VecDeque<T>
    ensures { result.items ≡ spec.limited_to limit rows.items }
{
    if let Some(count) = limit {
        rows.truncate(count as usize);
    }
    rows
}

/// The rows that SKIP and LIMIT leave.
fn cut<T: Drop>(alloc: Global, p: &Projection, rows: Items<T>) -> Result<VecDeque<T>, NoMemory>
    ensures { IfOk result (λ left. left.items ≡ spec.cut p.now rows) }
{
    let rows = skipped(alloc, queue(alloc, rows)?, p.skip)?;
    Ok(limited(rows, p.limit))
}

/// The rows as the projection gives them.
fn given(alloc: Global, p: &Projection, mut left: VecDeque<Made>) -> Result<Table, NoMemory>
    ensures { IfOk result (λ table. table ≡ map (making.after p.now) left.items) }
{
    let mut table = Items::new(alloc);
    while let Some(made) = left.pop_front() {
        table.push(after(alloc, p, made)?)?;
    }
    Ok(table)
}

/// The rows in a list of their own.
fn listed(alloc: Global, mut left: VecDeque<Row>) -> Result<Table, NoMemory>
    ensures { IfOk result (λ table. table ≡ left.items) }
{
    let mut table = Items::new(alloc);
    while let Some(row) = left.pop_front() {
        table.push(row)?;
    }
    Ok(table)
}

/// What SKIP and LIMIT leave of a table. Without them it isn't touched.
fn cut_table(alloc: Global, p: &Projection, table: Table) -> Result<Table, NoMemory>
    ensures { IfOk result (λ t. t ≡ spec.cut p.now table) }
{
    match (p.skip, p.limit) {
        (None, None) => Ok(table),
        _ => listed(alloc, cut(alloc, p, table)?),
    }
}

/// The rows in order, as far as SKIP and LIMIT leave them. Where no order is asked, only these are made.
fn ordered<G: GraphRead>(
    alloc: Global,
    p: &Projection,
    rows: Items<Made>,
    graph: &mut G,
) -> Result<Table, EvalRefused>
    ensures { Evaluates G.stands G.follows (λ g. spec.ordered_of g p.now rows)
        graph.old graph.new result }
{
    match p.sort.as_slice() {
        [] => Ok(given(alloc, p, cut(alloc, p, rows)?)?),
        [first, others @ ..] => {
            let table = sorted(alloc, p, first, others, rows, graph)?;
            Ok(cut_table(alloc, p, table)?)
        }
    }
}

/// The table behind a WITH or RETURN.
pub fn project<G: GraphRead>(
    alloc: Global,
    projection: &Projection,
    table: Table,
    graph: &mut G,
) -> Result<Table, EvalRefused>
    ensures { Evaluates G.stands G.follows (λ g. spec.projected_of g table projection.now)
        graph.old graph.new result }
{
    let rows = rows(alloc, projection.items.as_slice(), table, graph)?;
    let rows = kept_once(alloc, projection, rows)?;
    let table = ordered(alloc, projection, rows, graph)?;
    filtered(alloc, &projection.filter, table, graph)
}
