ghost use Rattle.std.specs.Prelude.{◌≡◌, IfOk};
ghost use Rattle.expr_eval.specs.Row.{value_of};

use graph_value::{Name, NoMemory, Value};
use sqlite_items::Items;
use std::alloc::Global;

/// A row: each name with its value.
pub type Row = Items<(Name, Value)>;

/// The rows between two clauses.
pub type Table = Items<Row>;

/// How many rows a table has at most.
pub const ROW_LIMIT: usize = 1_000_000;

/// The value of a name, and null where the row has no such name.
pub(crate) fn value(alloc: Global, row: &[(Name, Value)], name: &Name) -> Result<Value, NoMemory>
    ensures { IfOk result (λ v. v ≡ value_of row.now name.now) }
{
    for (known, value) in row {
        if known == name {
            return value.copy(alloc);
        }
    }
    Ok(Value::Null)
}
