//! Integers as values, read without a reader of JSON.
ghost use Rattle.std.specs.Prelude.{◌≡◌, ◌∷◌, Some, IfSome};
ghost use Rattle.graph_value.specs.declared.value.Value.TheVariants as value;
ghost use Rattle.event_lines.specs.Values.{json_value};

use crate::request::number::number_below;

/// No integer of 64 bits is so great.
const INTEGER_END: u64 = 1 << 63;

/// The integer that a text is, where it is spelled as integers are printed. `None` says nothing: the text may be another
/// value, and the least integer isn't read here either.
pub fn plain_integer(text: &[u8]) -> Option<i64>
    ensures { IfSome result (λ n. json_value text.now ≡ Some (value.Int n)) }
{
    match text {
        [b'-', digits @ ..] => negative(digits),
        _ => Some(number_below(text, INTEGER_END)? as i64),
    }
}

/// The integer below zero that the digits are behind a minus. `-0` is none.
fn negative(digits: &[u8]) -> Option<i64>
    ensures { IfSome result (λ n. json_value (45 ∷ digits.now) ≡ Some (value.Int n)) }
{
    match number_below(digits, INTEGER_END)? {
        0 => None,
        n => Some(-(n as i64)),
    }
}
