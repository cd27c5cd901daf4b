//! What is there more than once.
ghost use Rattle.std.specs.Prelude.{◌≡◌, map, not, IfOk, OnOk};
ghost use Rattle.indexmap.specs.IndexSet.{contains, insert_key};
ghost use Rattle.graph_value.specs.Value.{same_value};
ghost use Rattle.row_ops.specs.Distinct as spec;
ghost use Rattle.row_ops.specs.Making.{starred};

use crate::made::Made;
use crate::queues::queue;
use crate::rows::{column_values, with_values};
use expr_eval::Row;
use graph_value::{List, NoMemory, Value};
use indexmap::IndexSet;
use sqlite_items::Items;
use std::alloc::Global;

/// Notes a value, and tells whether it is new.
pub(crate) fn is_new(values: &mut IndexSet<Value>, value: Value) -> Result<bool, NoMemory>
    ensures new { IfOk result (λ new. new ≡ not (contains same_value values.old value)) }
    ensures noted { OnOk result (values.new.keys ≡ insert_key same_value values.old.keys value) }
{
    Ok(values.insert(value)?)
}

/// The values of what `*` takes over.
fn starred_values(alloc: Global, star: bool, row: &Row) -> Result<List, NoMemory>
    ensures { IfOk result (λ values. values
        ≡ map (λ column. column.1) (starred star row.now)) }
{
    if star {
        column_values(alloc, row.as_slice())
    } else {
        Ok(Items::new(alloc))
    }
}

/// The values of the row that a projection gives.
fn whole(alloc: Global, star: bool, made: &Made) -> Result<Value, NoMemory>
    ensures { IfOk result (λ v. v ≡ spec.whole star made.now) }
{
    let values = starred_values(alloc, star, &made.before)?;
    Ok(Value::List(with_values(alloc, values, made.values.as_slice())?))
}

/// Each row at its first place.
pub(crate) fn distinct(
    alloc: Global,
    star: bool,
    rows: Items<Made>,
) -> Result<Items<Made>, NoMemory>
    ensures { IfOk result (λ kept. kept ≡ spec.firsts (spec.whole star) rows) }
{
    let mut known = IndexSet::new(alloc);
    let mut kept = Items::new(alloc);
    let mut left = queue(alloc, rows)?;
    while let Some(made) = left.pop_front() {
        if is_new(&mut known, whole(alloc, star, &made)?)? {
            kept.push(made)?;
        }
    }
    Ok(kept)
}
