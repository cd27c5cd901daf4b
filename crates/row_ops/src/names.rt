//! What ORDER BY sees under a name.
ghost use Rattle.std.specs.Prelude.{◌≡◌, IfOk};
ghost use Rattle.std.specs.Option.{option_copied};
ghost use Rattle.cypher_check.specs.Clauses as checks;
ghost use Rattle.expr_eval.specs.Row.{value_of};
ghost use Rattle.row_ops.specs.Columns.{given_columns};
ghost use Rattle.row_ops.specs.Making.{seen, starred};
ghost use Rattle.row_ops.specs.Names as spec;

use crate::made::Made;
use cypher_check::given_name;
use cypher_syntax::{Item, Projection};
use graph_value::{Name, NoMemory, Value};
use std::alloc::Global;

/// The value that a name has in a row.
fn row_value<'a>(row: &'a [(Name, Value)], name: &Name) -> Option<&'a Value>
    ensures { option_copied result ≡ spec.found row.now name.now }
{
    for (known, value) in row {
        if known == name {
            return Some(value);
        }
    }
    None
}

/// Whether an item gives its column this name.
fn gives(item: &Item, name: &Name) -> bool
    ensures { result ≡ spec.gives item.now name.now }
{
    match given_name(item) {
        Some(given) => given == name,
        None => false,
    }
}

/// The value of the first item that gives this name.
#[tactic(auto, using(crate::proofs::NameLemmas::named_hit, crate::proofs::NameLemmas::named_miss))]
fn given_value<'a>(items: &[Item], values: &'a [Value], name: &Name) -> Option<&'a Value>
    ensures { option_copied result ≡ spec.found (given_columns items.now values.now) name.now }
{
    for (place, item) in items.iter().enumerate() {
        if gives(item, name) {
            return values.get(place);
        }
    }
    None
}

/// The value that a name has in what `*` takes over.
fn starred_value<'a>(star: bool, row: &'a [(Name, Value)], name: &Name) -> Option<&'a Value>
    ensures { option_copied result ≡ spec.found (starred star row.now) name.now }
{
    if star { row_value(row, name) } else { None }
}

/// The value that ORDER BY sees under a name, if it sees the name.
#[tactic(auto, using(crate::proofs::NameLemmas::seen_starred, crate::proofs::NameLemmas::seen_given, crate::proofs::NameLemmas::seen_before))]
fn seen_value<'a>(p: &Projection, is_closed: bool, made: &'a Made, name: &Name) -> Option<&'a Value>
    requires { is_closed ≡ checks.is_closed p.now }
    ensures { option_copied result ≡ spec.found (seen p.now made.now) name.now }
{
    let (before, values) = (made.before.as_slice(), made.values.as_slice());
    if let Some(value) = starred_value(p.star, before, name) {
        return Some(value);
    }
    if let Some(value) = given_value(p.items.as_slice(), values, name) {
        return Some(value);
    }
    starred_value(!is_closed, before, name)
}

/// A copy of the value that ORDER BY sees under a name, and null where it doesn't see the name.
#[tactic(auto, using(crate::proofs::NameLemmas::name_seen, crate::proofs::NameLemmas::name_unseen))]
pub(crate) fn name_value(
    alloc: Global,
    p: &Projection,
    is_closed: bool,
    made: &Made,
    name: &Name,
) -> Result<Value, NoMemory>
    requires { is_closed ≡ checks.is_closed p.now }
    ensures { IfOk result (λ v. v ≡ value_of (seen p.now made.now) name.now) }
{
    match seen_value(p, is_closed, made, name) {
        Some(value) => value.copy(alloc),
        None => Ok(Value::Null),
    }
}
