ghost use Rattle.std.specs.Prelude.{◌≡◌};
ghost use Rattle.graph_value.specs.Less.{less_of};

use crate::{Tri, Value};

/// Whether one value is less than another: numbers by size, texts byte by byte, false before true. For all other pairs the
/// answer is unknown, for two lists too.
pub fn less(a: &Value, b: &Value) -> Tri
    ensures { result ≡ less_of a.now b.now }
{
    match (a, b) {
        (Value::Int(a), Value::Int(b)) => Tri::known(a < b),
        (Value::Text(a), Value::Text(b)) => Tri::known(a < b),
        (Value::Bool(a), Value::Bool(b)) => Tri::known(!*a && *b),
        _ => Tri::Unknown,
    }
}
