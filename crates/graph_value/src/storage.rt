ghost use Rattle.std.specs.Prelude.{◌≡◌};
ghost use Rattle.std.specs.List.{list_all};
ghost use Rattle.graph_value.specs.Storable.{is_simple, is_storable};

use crate::Value;

/// Whether an object may keep the value: a truth value, a number or a text, or a list of these three.
pub fn storable(v: &Value) -> bool
    ensures { result ≡ is_storable v.now }
{
    match v {
        Value::List(items) => all_simple(items.as_slice()),
        _ => simple(v),
    }
}

fn all_simple(items: &[Value]) -> bool
    ensures { result ≡ list_all is_simple items.now }
{
    items.iter().all(|item| simple(item))
}

/// Whether the value is a truth value, a number or a text.
fn simple(v: &Value) -> bool
    ensures { result ≡ is_simple v.now }
{
    matches!(v, Value::Bool(_) | Value::Int(_) | Value::Text(_))
}
