//! How large a value may be that an operation makes.
ghost use Rattle.std.specs.Prelude.{◌≡◌, min, max, nat_le, ◌^◌, ◌+◌, ◌-◌, ◌++◌, map};
ghost use Rattle.std.specs.List.{sum_by};
ghost use Rattle.graph_value.specs.Size.{weight_of, depth_of, greatest};
ghost use Rattle.expr_eval.specs.Size.{is_small, sized};
ghost use Rattle.graph_value.specs.declared.value.Value.TheVariants as value;

use crate::EvalRefused;
use graph_value::{List, Value, depth, weight};

/// The greatest weight of a value.
const WEIGHT_LIMIT: u128 = 1_048_576;

/// How many lists may stand in one another.
const DEPTH_LIMIT: u64 = 64;

/// The weights of values together.
fn weights(items: &[Value]) -> u128
    ensures { result ≡ min (sum_by weight_of items.now) (2 ^ 128 - 1) }
{
    let mut sum: u128 = 0;
    for item in items {
        sum = sum.saturating_add(weight(item));
    }
    sum
}

/// The greatest depth among values.
fn deepest(items: &[Value]) -> u64
    ensures { result ≡ min (greatest (map depth_of items.now)) (2 ^ 64 - 1) }
{
    let mut deepest: u64 = 0;
    for item in items {
        deepest = deepest.max(depth(item));
    }
    deepest
}

fn are_light(front: &[Value], back: &[Value]) -> bool
    ensures { result ≡ nat_le
        (1 + (sum_by weight_of front.now + sum_by weight_of back.now)) 1048576 }
{
    weights(front).saturating_add(weights(back)) < WEIGHT_LIMIT
}

fn are_shallow(front: &[Value], back: &[Value]) -> bool
    ensures { result ≡ nat_le (1 + max (greatest (map depth_of front.now))
        (greatest (map depth_of back.now))) 64 }
{
    deepest(front).max(deepest(back)) < DEPTH_LIMIT
}

/// Whether the list of these elements, one list behind the other, is small enough.
pub(crate) fn fits_as_list(front: &[Value], back: &[Value]) -> bool
    ensures { result ≡ is_small (weight_of (value.List (front.now ++ back.now)))
        (depth_of (value.List (front.now ++ back.now))) }
{
    let light = are_light(front, back);
    let shallow = are_shallow(front, back);
    light && shallow
}

/// A list, unless it is too large.
pub(crate) fn sized_list(items: List) -> Result<Value, EvalRefused>
    ensures { result ≡ sized (value.List items) }
{
    if fits_as_list(items.as_slice(), &[]) {
        Ok(Value::List(items))
    } else {
        Err(EvalRefused::TooLarge)
    }
}

/// Whether a text of so many bytes is small enough.
pub(crate) fn fits_as_text(bytes: u128) -> bool
    ensures { result ≡ is_small (1 + bytes) 0 }
{
    bytes < WEIGHT_LIMIT
}

/// Whether a list of so many integers is small enough.
pub(crate) fn fits_as_integers(count: u128) -> bool
    ensures { result ≡ is_small (1 + count) 1 }
{
    count < WEIGHT_LIMIT
}
