//! Elements of lists, and lists of integers.
ghost use Rattle.std.specs.Prelude.{◌≡◌, ◌^◌, IfOk, pos, negsuc, ◌+ℤ◌, ◌≤ℤ◌};
ghost use Rattle.expr_eval.specs.Lists.{element, element_at, counted, count_between, indexed, range};
ghost use Rattle.expr_eval.specs.Outcome.{Answers};
ghost use Rattle.expr_eval.specs.Size.{sized};
ghost use Rattle.graph_value.specs.declared.value.Value.TheVariants as value;

use crate::EvalRefused;
use crate::size::fits_as_integers;
use graph_value::{List, NoMemory, Value};
use sqlite_items::Items;
use std::alloc::Global;

/// The element at a place, which is taken out of the list, or null where there is none.
pub(crate) fn element(items: List, at: usize) -> Value
    ensures { result ≡ element items at }
{
    let mut items = items;
    if at < items.len() {
        items.remove(at)
    } else {
        Value::Null
    }
}

fn element_at(items: List, at: i64) -> Value
    ensures { result ≡ element_at items at }
{
    if at >= 0 {
        element(items, at as usize)
    } else {
        element_from_end(items, -(at + 1) as usize)
    }
}

/// The element with so many behind it.
fn element_from_end(items: List, behind: usize) -> Value
    ensures { result ≡ element_at items (negsuc behind) }
{
    let len = items.len();
    if behind < len {
        element(items, len - behind - 1)
    } else {
        Value::Null
    }
}

/// What an index gives.
#[tactic(auto, unfolding(crate::specs::Lists::indexed))]
pub(crate) fn indexed(list: Value, at: Value) -> Result<Value, EvalRefused>
    ensures { result ≡ indexed list at }
{
    match (list, at) {
        (Value::Null, _) | (_, Value::Null) => Ok(Value::Null),
        (Value::List(items), Value::Int(at)) => Ok(element_at(items, at)),
        _ => Err(EvalRefused::TypeFault),
    }
}

/// How many integers there are from the first to the last.
fn count_between(first: i64, last: i64) -> u128
    ensures { result ≡ count_between first last }
{
    if last < first {
        0
    } else {
        last.abs_diff(first) as u128 + 1
    }
}

/// So many integers, from the first on.
fn counted(alloc: Global, first: i64, count: u128) -> Result<List, NoMemory>
    requires { (first +ℤ pos count) ≤ℤ pos (2 ^ 63) }
    ensures { IfOk result (λ items. items ≡ counted first count) }
{
    let mut items = Items::new(alloc);
    let mut next = first as i128;
    for made in 0..count {
        items.push(Value::Int(next as i64))?;
        next += 1;
    }
    Ok(items)
}

/// The integers from the first to the last, unless they are too many. That is asked before they are made.
fn integers(alloc: Global, first: i64, last: i64) -> Result<Value, EvalRefused>
    ensures { Answers (sized (value.List (counted first (count_between first last)))) result }
{
    let count = count_between(first, last);
    if !fits_as_integers(count) {
        return Err(EvalRefused::TooLarge);
    }
    Ok(Value::List(counted(alloc, first, count)?))
}

/// What `range` gives.
#[tactic(auto, unfolding(crate::specs::Lists::range))]
pub(crate) fn range(alloc: Global, first: &Value, last: &Value) -> Result<Value, EvalRefused>
    ensures { Answers (range first.now last.now) result }
{
    match (first, last) {
        (Value::Null, _) | (_, Value::Null) => Ok(Value::Null),
        (Value::Int(first), Value::Int(last)) => integers(alloc, *first, *last),
        _ => Err(EvalRefused::TypeFault),
    }
}
