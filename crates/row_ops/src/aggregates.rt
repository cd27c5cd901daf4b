//! Aggregates over the values of a group.
ghost use Rattle.std.specs.Prelude.{◌≡◌, pos, IfOk};
ghost use Rattle.expr_eval.specs.Comparing as nulls;
ghost use Rattle.expr_eval.specs.Numbers.{fitted};
ghost use Rattle.expr_eval.specs.Outcome.{Answers};
ghost use Rattle.expr_eval.specs.Size.{sized};
ghost use Rattle.graph_value.specs.declared.value.Value.TheVariants as value;
ghost use Rattle.row_ops.specs.Aggregates as spec;
ghost use Rattle.row_ops.specs.Distinct as once;

use crate::once::is_new;
use crate::queues::queue;
use cypher_syntax::AggFun;
use expr_eval::EvalRefused;
use graph_value::{List, NoMemory, Value, depth, order, weight};
use indexmap::IndexSet;
use sqlite_items::Items;
use std::alloc::Global;
use std::cmp::Ordering;
use std::collections::VecDeque;

/// The greatest weight of a value.
const WEIGHT_LIMIT: u128 = 1_048_576;

/// How many lists may stand in one another.
const DEPTH_LIMIT: u64 = 64;

#[tactic(auto, unfolding(expr_eval::specs::Comparing::is_null))]
fn is_null(value: &Value) -> bool
    ensures { result ≡ nulls.is_null value.now }
{
    matches!(value, Value::Null)
}

/// The values that aren't null.
fn present(alloc: Global, values: List) -> Result<List, NoMemory>
    ensures { IfOk result (λ present. present ≡ spec.present values) }
{
    let mut present = Items::new(alloc);
    let mut left = queue(alloc, values)?;
    while let Some(value) = left.pop_front() {
        if !is_null(&value) {
            present.push(value)?;
        }
    }
    Ok(present)
}

/// Each value once, at its first place.
fn once(alloc: Global, values: List) -> Result<List, NoMemory>
    ensures { IfOk result (λ kept. kept ≡ once.firsts (λ v. v) values) }
{
    let mut known = IndexSet::new(alloc);
    let mut kept = Items::new(alloc);
    let mut left = queue(alloc, values)?;
    while let Some(value) = left.pop_front() {
        if is_new(&mut known, value.copy(alloc)?)? {
            kept.push(value)?;
        }
    }
    Ok(kept)
}

/// The values that count.
fn counting(alloc: Global, distinct: bool, values: List) -> Result<List, NoMemory>
    ensures { IfOk result (λ counting. counting ≡ spec.counting distinct values) }
{
    let present = present(alloc, values)?;
    if distinct {
        once(alloc, present)
    } else {
        Ok(present)
    }
}

/// A number, where it fits.
fn fitted(number: i128) -> Result<Value, EvalRefused>
    ensures { result ≡ fitted number }
{
    match i64::try_from(number) {
        Ok(number) => Ok(Value::Int(number)),
        Err(_) => Err(EvalRefused::Overflow),
    }
}

#[tactic(auto, unfolding(crate::specs::Aggregates::integer))]
fn integer(value: &Value) -> Result<i64, EvalRefused>
    ensures { result ≡ spec.integer value.now }
{
    match value {
        Value::Int(n) => Ok(*n),
        _ => Err(EvalRefused::TypeFault),
    }
}

/// The sum of all, however great.
fn total(values: &[Value]) -> Result<i128, EvalRefused>
    ensures { result ≡ spec.total (pos 0) values.now }
{
    let mut total: i128 = 0;
    for value in values {
        total += integer(value)? as i128;
    }
    Ok(total)
}

fn sum(values: &[Value]) -> Result<Value, EvalRefused>
    ensures { result ≡ spec.sum_of values.now }
{
    fitted(total(values)?)
}

fn lesser(a: Value, b: Value) -> Value
    ensures { result ≡ spec.lesser a b }
{
    if order(&b, &a) == Ordering::Less {
        b
    } else {
        a
    }
}

fn greater(a: Value, b: Value) -> Value
    ensures { result ≡ spec.greater a b }
{
    if order(&a, &b) == Ordering::Less {
        b
    } else {
        a
    }
}

/// The value that comes first in the order of values.
fn least(mut values: VecDeque<Value>) -> Value
    ensures { result ≡ spec.most_of spec.lesser values.items }
{
    let Some(mut least) = values.pop_front() else {
        return Value::Null;
    };
    while let Some(value) = values.pop_front() {
        least = lesser(least, value);
    }
    least
}

/// The value that comes last.
fn greatest(mut values: VecDeque<Value>) -> Value
    ensures { result ≡ spec.most_of spec.greater values.items }
{
    let Some(mut greatest) = values.pop_front() else {
        return Value::Null;
    };
    while let Some(value) = values.pop_front() {
        greatest = greater(greatest, value);
    }
    greatest
}

/// A list of the values, unless it is too large.
fn collected(values: List) -> Result<Value, EvalRefused>
    ensures { result ≡ sized (value.List values) }
{
    let list = Value::List(values);
    if weight(&list) <= WEIGHT_LIMIT && depth(&list) <= DEPTH_LIMIT {
        Ok(list)
    } else {
        Err(EvalRefused::TooLarge)
    }
}

fn finished(alloc: Global, fun: AggFun, values: List) -> Result<Value, EvalRefused>
    ensures { Answers (spec.finished fun values) result }
{
    match fun {
        AggFun::Count => fitted(values.len() as i128),
        AggFun::Sum => sum(values.as_slice()),
        AggFun::Min => Ok(least(queue(alloc, values)?)),
        AggFun::Max => Ok(greatest(queue(alloc, values)?)),
        AggFun::Collect => collected(values),
    }
}

/// What an aggregate makes of the values of a group.
pub(crate) fn aggregated(
    alloc: Global,
    fun: AggFun,
    distinct: bool,
    values: List,
) -> Result<Value, EvalRefused>
    ensures { Answers (spec.aggregated fun distinct values) result }
{
    finished(alloc, fun, counting(alloc, distinct, values)?)
}
