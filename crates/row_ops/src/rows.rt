//! Copies of rows and values.
ghost use Rattle.std.specs.Prelude.{◌≡◌, ◌++◌, map, IfOk};

use expr_eval::Row;
use graph_value::{List, Name, NoMemory, Value};
use sqlite_items::Items;
use std::alloc::Global;

/// Puts copies of columns behind those of a row.
pub(crate) fn with_copies(
    alloc: Global,
    mut row: Row,
    columns: &[(Name, Value)],
) -> Result<Row, NoMemory>
    ensures { IfOk result (λ r. r ≡ row ++ columns.now) }
{
    for (name, value) in columns {
        row.push((name.copy()?, value.copy(alloc)?))?;
    }
    Ok(row)
}

/// The same row, in memory of its own.
pub(crate) fn copy(alloc: Global, row: &Row) -> Result<Row, NoMemory>
    ensures { IfOk result (λ r. r ≡ row.now) }
{
    with_copies(alloc, Items::new(alloc), row.as_slice())
}

/// Puts copies of values behind others.
pub(crate) fn with_values(alloc: Global, mut values: List, more: &[Value]) -> Result<List, NoMemory>
    ensures { IfOk result (λ r. r ≡ values ++ more.now) }
{
    for value in more {
        values.push(value.copy(alloc)?)?;
    }
    Ok(values)
}

/// Copies of the values of columns.
pub(crate) fn column_values(alloc: Global, columns: &[(Name, Value)]) -> Result<List, NoMemory>
    ensures { IfOk result (λ values. values ≡ map (λ column. column.1) columns.now) }
{
    let mut values = Items::new(alloc);
    for (_, value) in columns {
        values.push(value.copy(alloc)?)?;
    }
    Ok(values)
}
