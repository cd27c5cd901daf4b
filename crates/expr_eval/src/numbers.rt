//! Arithmetic, and the joining of texts and lists.
ghost use Rattle.std.specs.Prelude.{◌≡◌, ◌++◌, ◌+ℤ◌, ◌-ℤ◌, neg_ℤ};
ghost use Rattle.graph_value.specs.declared.value.Value.TheVariants as value;
ghost use Rattle.cypher_syntax.specs.declared.tree.operators.ProdOp.TheVariants as times;
ghost use Rattle.expr_eval.specs.Numbers.{fitted, sum_of, text_sum, list_sum, product_of, summed, multiplied, signed};
ghost use Rattle.expr_eval.specs.Outcome.{Answers};
ghost use Rattle.expr_eval.specs.Size.{sized};

use crate::EvalRefused;
use crate::size::{fits_as_list, fits_as_text};
use cypher_syntax::{ProdOp, SumOp};
use graph_value::{List, Text, Value};
use std::alloc::Global;

fn plus(a: i64, b: i64) -> Result<Value, EvalRefused>
    ensures { result ≡ fitted (a +ℤ b) }
{
    match a.checked_add(b) {
        Some(n) => Ok(Value::Int(n)),
        None => Err(EvalRefused::Overflow),
    }
}

fn minus(a: i64, b: i64) -> Result<Value, EvalRefused>
    ensures { result ≡ fitted (a -ℤ b) }
{
    match a.checked_sub(b) {
        Some(n) => Ok(Value::Int(n)),
        None => Err(EvalRefused::Overflow),
    }
}

/// The sum or the difference of two integers.
fn sum(op: SumOp, a: i64, b: i64) -> Result<Value, EvalRefused>
    ensures { result ≡ fitted (sum_of op a b) }
{
    match op {
        SumOp::Plus => plus(a, b),
        SumOp::Minus => minus(a, b),
    }
}

/// Two texts in one. They have no difference.
fn text_sum(alloc: Global, op: SumOp, left: &str, right: &str) -> Result<Value, EvalRefused>
    ensures { Answers (text_sum op left.now right.now) result }
{
    match op {
        SumOp::Plus => join_texts(alloc, left, right),
        SumOp::Minus => Err(EvalRefused::TypeFault),
    }
}

fn join_texts(alloc: Global, left: &str, right: &str) -> Result<Value, EvalRefused>
    ensures { Answers (sized (value.Text (left.now ++ right.now))) result }
{
    if !fits_as_text(left.len() as u128 + right.len() as u128) {
        return Err(EvalRefused::TooLarge);
    }
    let mut joined = String::from_str(alloc, left)?;
    joined.push_str(right)?;
    Ok(Value::Text(Text::from_string(joined)))
}

/// Two lists in one. They have no difference.
fn list_sum(op: SumOp, left: List, right: List) -> Result<Value, EvalRefused>
    ensures { Answers (list_sum op left right) result }
{
    match op {
        SumOp::Plus => join_lists(left, right),
        SumOp::Minus => Err(EvalRefused::TypeFault),
    }
}

fn join_lists(left: List, right: List) -> Result<Value, EvalRefused>
    ensures { Answers (sized (value.List (left ++ right))) result }
{
    let mut left = left;
    if !fits_as_list(left.as_slice(), right.as_slice()) {
        return Err(EvalRefused::TooLarge);
    }
    left.append(right)?;
    Ok(Value::List(left))
}

/// What `+` and `-` give.
#[tactic(auto, unfolding(crate::specs::Numbers::summed))]
pub(crate) fn summed(
    alloc: Global,
    op: SumOp,
    left: Value,
    right: Value,
) -> Result<Value, EvalRefused>
    ensures { Answers (summed op left right) result }
{
    match (left, right) {
        (Value::Null, _) | (_, Value::Null) => Ok(Value::Null),
        (Value::Int(a), Value::Int(b)) => sum(op, a, b),
        (Value::Text(a), Value::Text(b)) => text_sum(alloc, op, a.as_str(), b.as_str()),
        (Value::List(a), Value::List(b)) => list_sum(op, a, b),
        _ => Err(EvalRefused::TypeFault),
    }
}

fn times(a: i64, b: i64) -> Result<Value, EvalRefused>
    ensures { result ≡ product_of times.Times a b }
{
    match a.checked_mul(b) {
        Some(n) => Ok(Value::Int(n)),
        None => Err(EvalRefused::Overflow),
    }
}

fn over(a: i64, b: i64) -> Result<Value, EvalRefused>
    ensures { result ≡ product_of times.Over a b }
{
    if b == 0 {
        return Err(EvalRefused::ZeroDivisor);
    }
    match a.checked_div(b) {
        Some(n) => Ok(Value::Int(n)),
        None => Err(EvalRefused::Overflow),
    }
}

/// The remainder by -1 is 0, also where the quotient doesn't fit.
fn rest(a: i64, b: i64) -> Result<Value, EvalRefused>
    ensures { result ≡ product_of times.Rest a b }
{
    if b == 0 {
        return Err(EvalRefused::ZeroDivisor);
    }
    Ok(Value::Int(a.wrapping_rem(b)))
}

/// The product, the quotient or the remainder of two integers.
fn product(op: ProdOp, a: i64, b: i64) -> Result<Value, EvalRefused>
    ensures { result ≡ product_of op a b }
{
    match op {
        ProdOp::Times => times(a, b),
        ProdOp::Over => over(a, b),
        ProdOp::Rest => rest(a, b),
    }
}

/// What `*`, `/` and `%` give.
#[tactic(auto, unfolding(crate::specs::Numbers::multiplied))]
pub(crate) fn multiplied(op: ProdOp, left: Value, right: Value) -> Result<Value, EvalRefused>
    ensures { result ≡ multiplied op left right }
{
    match (left, right) {
        (Value::Null, _) | (_, Value::Null) => Ok(Value::Null),
        (Value::Int(a), Value::Int(b)) => product(op, a, b),
        _ => Err(EvalRefused::TypeFault),
    }
}

fn negated(n: i64) -> Result<Value, EvalRefused>
    ensures { result ≡ fitted (neg_ℤ n) }
{
    match n.checked_neg() {
        Some(n) => Ok(Value::Int(n)),
        None => Err(EvalRefused::Overflow),
    }
}

/// What a sign in front gives.
#[tactic(auto, unfolding(crate::specs::Numbers::signed))]
pub(crate) fn signed(op: SumOp, value: Value) -> Result<Value, EvalRefused>
    ensures { result ≡ signed op value }
{
    match (op, value) {
        (_, Value::Null) => Ok(Value::Null),
        (SumOp::Plus, Value::Int(n)) => Ok(Value::Int(n)),
        (SumOp::Minus, Value::Int(n)) => negated(n),
        _ => Err(EvalRefused::TypeFault),
    }
}
