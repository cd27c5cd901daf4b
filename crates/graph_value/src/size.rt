ghost use Rattle.std.specs.Prelude.{◌≡◌, min, ◌^◌, ◌-◌};
ghost use Rattle.graph_value.specs.Size.{depth_of, weight_of};

use crate::Value;

/// How large a value is: 1, and for a text its bytes, for a list the weights of its elements. Where that is past the greatest
/// `u128`, the answer is the greatest `u128`.
pub fn weight(v: &Value) -> u128
    ensures { result ≡ min (weight_of v.now) (2 ^ 128 - 1) }
{
    match v {
        Value::Text(text) => 1 + text.as_str().len() as u128,
        Value::List(items) => {
            let mut sum: u128 = 1;
            for item in items.as_slice() {
                sum = sum.saturating_add(weight(item));
            }
            sum
        }
        _ => 1,
    }
}

/// How deep lists nest in a value: 0, and for a list 1 more than in any of its elements. Where that is past the greatest
/// `u64`, the answer is the greatest `u64`.
pub fn depth(v: &Value) -> u64
    ensures { result ≡ min (depth_of v.now) (2 ^ 64 - 1) }
{
    match v {
        Value::List(items) => {
            let mut greatest: u64 = 0;
            for item in items.as_slice() {
                greatest = greatest.max(depth(item));
            }
            greatest.saturating_add(1)
        }
        _ => 0,
    }
}
