//! Structural equality.
ghost use Rattle.std.specs.Prelude.{◌≡◌};
ghost use Rattle.std.specs.Cmp.{partial_equiv_from_equiv};
ghost use Rattle.std.specs.Cmp.Lexicographic.{pointwise};
ghost use Rattle.graph_value.specs.Value.{same_value};

use crate::Value;

/// Whether the two are the same value, part by part.
#[cycle(same)]
pub(crate) fn same_values(a: &Value, b: &Value) -> bool
    ensures { result ≡ same_value a.now b.now }
{
    match (a, b) {
        (Value::Null, Value::Null) => true,
        (Value::Bool(a), Value::Bool(b)) => a == b,
        (Value::Int(a), Value::Int(b)) => a == b,
        (Value::Text(a), Value::Text(b)) => a == b,
        (Value::List(a), Value::List(b)) => same_lists(a.as_slice(), b.as_slice()),
        (Value::Vertex(a), Value::Vertex(b)) => a == b,
        (Value::Edge(a), Value::Edge(b)) => a == b,
        _ => false,
    }
}

#[cycle(same)]
fn same_lists(a: &[Value], b: &[Value]) -> bool
    ensures { result ≡ pointwise same_value a.now b.now }
{
    if a.len() != b.len() {
        return false;
    }
    for (i, x) in a.iter().enumerate() {
        if !same_values(x, &b[i]) {
            return false;
        }
    }
    true
}

/// Part by part. Null is equal to null here.
impl PartialEq for Value {
    ghost use Rattle.graph_value.specs.SameLaws.{same_value_equivalence};

    ghost eq = { same_value };

    ghost laws = { partial_equiv_from_equiv same_value_equivalence };

    fn eq(&self, other: &Value) -> bool {
        same_values(self, other)
    }
}

impl Eq for Value {
    ghost use Rattle.graph_value.specs.SameLaws.{same_value_equivalence};

    ghost laws = { same_value_equivalence };
}
