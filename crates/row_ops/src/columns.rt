//! The columns of the items of a projection.
ghost use Rattle.std.specs.Prelude.{◌≡◌, ◌++◌, IfOk};
ghost use Rattle.std.specs.Fmt.{decimal};
ghost use Rattle.std.specs.Option.{option_copied};
ghost use Rattle.cypher_check.specs.Clauses.{given_name as name_given};
ghost use Rattle.row_ops.specs.Columns as spec;

use crate::queues::queue;
use cypher_check::given_name;
use cypher_syntax::Item;
use expr_eval::Row;
use graph_value::{List, Name, NoMemory, Value};
use std::alloc::Global;

/// A place in decimal digits.
#[tactic(auto, using(std::proofs::lemmas::Fmt::decimal_nonempty))]
pub(crate) fn place_name(alloc: Global, place: usize) -> Result<Name, NoMemory>
    ensures { IfOk result (λ name. name ≡ decimal place) }
{
    let digits = format!(in alloc; "{place}")?;
    Name::from_str(alloc, digits.as_str())
}

/// The name of an item's column.
fn column_name(alloc: Global, place: usize, item: &Item) -> Result<Name, NoMemory>
    ensures { IfOk result (λ name. name ≡ spec.column_name place item.now) }
{
    match given_name(item) {
        Some(name) => name.copy(),
        None => place_name(alloc, place),
    }
}

/// Puts a column behind a row, if there is a value for it.
fn with_column(
    alloc: Global,
    mut row: Row,
    place: usize,
    item: &Item,
    value: Option<Value>,
) -> Result<Row, NoMemory>
    ensures { IfOk result (λ r. r ≡ row ++ spec.column_at place item.now value) }
{
    if let Some(value) = value {
        row.push((column_name(alloc, place, item)?, value))?;
    }
    Ok(row)
}

/// Puts the columns of the items behind those of a row.
pub(crate) fn with_columns(
    alloc: Global,
    mut row: Row,
    items: &[Item],
    values: List,
) -> Result<Row, NoMemory>
    ensures { IfOk result (λ r. r ≡ row ++ spec.columns 0 items.now values) }
{
    let mut left = queue(alloc, values)?;
    for (place, item) in items.iter().enumerate() {
        row = with_column(alloc, row, place, item, left.pop_front())?;
    }
    Ok(row)
}

/// Puts a copy of a value behind a row, under the name that an item gives, if it gives one.
fn with_named(alloc: Global, mut row: Row, item: &Item, value: &Value) -> Result<Row, NoMemory>
    ensures { IfOk result (λ r. r ≡ row
        ++ spec.given_column (name_given item.now.name item.now.expr) value.now) }
{
    if let Some(name) = given_name(item) {
        row.push((name.copy()?, value.copy(alloc)?))?;
    }
    Ok(row)
}

/// The same, if there is a value.
fn with_given_one(
    alloc: Global,
    row: Row,
    item: &Item,
    value: Option<&Value>,
) -> Result<Row, NoMemory>
    ensures { IfOk result (λ r. r ≡ row
        ++ spec.given_at (name_given item.now.name item.now.expr) (option_copied value.entry)) }
{
    match value {
        Some(value) => with_named(alloc, row, item, value),
        None => Ok(row),
    }
}

/// Puts copies of the columns of the items that give a name behind those of a row.
pub(crate) fn with_given(
    alloc: Global,
    mut row: Row,
    items: &[Item],
    values: &List,
) -> Result<Row, NoMemory>
    ensures { IfOk result (λ r. r ≡ row ++ spec.given_columns items.now values.now) }
{
    for (place, item) in items.iter().enumerate() {
        row = with_given_one(alloc, row, item, values.get(place))?;
    }
    Ok(row)
}
