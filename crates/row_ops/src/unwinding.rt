//! UNWIND.
ghost use Rattle.std.specs.Prelude.{◌≡◌, ◌++◌, map, length, ◌+◌, IfOk};
ghost use Rattle.expr_eval.specs.Outcome.{Answers, Evaluates};
ghost use Rattle.row_ops.specs.Unwinding.{elements, with_name, has_room, limited, extended, unwound_row, unwound_of};

use crate::queues::queue;
use crate::rows::copy;
use cypher_syntax::Unwind;
use expr_eval::{EvalRefused, ROW_LIMIT, Row, Table, eval};
use graph_reader::GraphRead;
use graph_value::{List, Name, NoMemory, Value};
use sqlite_items::Items;
use std::alloc::Global;

/// The elements that get a row each.
#[tactic(auto, unfolding(crate::specs::Unwinding::elements))]
fn elements(alloc: Global, list: Value) -> Result<List, EvalRefused>
    ensures { result ≡ elements list }
{
    match list {
        Value::Null => Ok(Items::new(alloc)),
        Value::List(items) => Ok(items),
        _ => Err(EvalRefused::TypeFault),
    }
}

/// Whether so many rows more are allowed.
fn has_room(rows: &[Row], more: &[Value]) -> bool
    ensures { result ≡ has_room (length rows.now + length more.now) }
{
    rows.len() as u128 + more.len() as u128 <= ROW_LIMIT as u128
}

/// A row with one more name.
fn with_name(alloc: Global, row: &Row, name: &Name, value: Value) -> Result<Row, NoMemory>
    ensures { IfOk result (λ r. r ≡ with_name row.now name.now value) }
{
    let mut row = copy(alloc, row)?;
    row.push((name.copy()?, value))?;
    Ok(row)
}

/// Puts a row for each element behind the rows that are there.
fn with_elements(
    alloc: Global,
    mut rows: Table,
    row: &Row,
    name: &Name,
    elements: List,
) -> Result<Table, NoMemory>
    ensures { IfOk result (λ t. t ≡ rows ++ map (with_name row.now name.now) elements) }
{
    let mut left = queue(alloc, elements)?;
    while let Some(element) = left.pop_front() {
        rows.push(with_name(alloc, row, name, element)?)?;
    }
    Ok(rows)
}

/// The same, unless that would be too many rows. No row is made then.
fn added(
    alloc: Global,
    rows: Table,
    row: &Row,
    name: &Name,
    elements: List,
) -> Result<Table, EvalRefused>
    ensures { Answers (limited (rows ++ map (with_name row.now name.now) elements)) result }
{
    if !has_room(rows.as_slice(), elements.as_slice()) {
        return Err(EvalRefused::RowLimit);
    }
    Ok(with_elements(alloc, rows, row, name, elements)?)
}

/// The rows that are there, and those of one more row, whose list is given.
fn extended(
    alloc: Global,
    rows: Table,
    row: &Row,
    name: &Name,
    list: Value,
) -> Result<Table, EvalRefused>
    ensures { Answers (extended rows row.now name.now list) result }
{
    let elements = elements(alloc, list)?;
    added(alloc, rows, row, name, elements)
}

/// The rows that are there, and those of one more row.
#[tactic(auto, unfolding(crate::specs::Unwinding::unwound_row))]
fn unwound_row<G: GraphRead>(
    alloc: Global,
    clause: &Unwind,
    rows: Table,
    row: &Row,
    graph: &mut G,
) -> Result<Table, EvalRefused>
    ensures { Evaluates G.stands G.follows (λ g. unwound_row g clause.now rows row.now)
        graph.old graph.new result }
{
    let list = eval(alloc, &clause.list, row, graph)?;
    extended(alloc, rows, row, &clause.name, list)
}

/// The rows of a table behind an UNWIND.
fn unwound<G: GraphRead>(
    alloc: Global,
    clause: &Unwind,
    table: &[Row],
    graph: &mut G,
) -> Result<Table, EvalRefused>
    ensures { Evaluates G.stands G.follows (λ g. unwound_of g table.now clause.now)
        graph.old graph.new result }
{
    let mut rows = Items::new(alloc);
    for row in table {
        rows = unwound_row(alloc, clause, rows, row, graph)?;
    }
    Ok(rows)
}

/// The table behind an UNWIND: for each row in order, a row for each element of its list, which the clause's name stands
/// for. Null and the empty list have none.
pub fn unwind<G: GraphRead>(
    alloc: Global,
    clause: &Unwind,
    table: Table,
    graph: &mut G,
) -> Result<Table, EvalRefused>
    ensures { Evaluates G.stands G.follows (λ g. unwound_of g table clause.now)
        graph.old graph.new result }
{
    unwound(alloc, clause, table.as_slice(), graph)
}
