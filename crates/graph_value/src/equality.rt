ghost use Rattle.std.specs.Prelude.{◌≡◌};
ghost use Rattle.graph_value.specs.Equals.{equals_of, lists_equal};

use crate::{Tri, Value};

/// Whether two values are equal, as far as that is known. Null is unknown to equal anything, inside lists too. Values of
/// different kinds are not equal, and vertices and edges are equal by id.
#[cycle(equals)]
pub fn equals(a: &Value, b: &Value) -> Tri
    ensures { result ≡ equals_of a.now b.now }
{
    match (a, b) {
        (Value::Null, _) | (_, Value::Null) => Tri::Unknown,
        (Value::Bool(a), Value::Bool(b)) => Tri::known(a == b),
        (Value::Int(a), Value::Int(b)) => Tri::known(a == b),
        (Value::Text(a), Value::Text(b)) => Tri::known(a == b),
        (Value::List(a), Value::List(b)) => equals_lists(a.as_slice(), b.as_slice()),
        (Value::Vertex(a), Value::Vertex(b)) => Tri::known(a == b),
        (Value::Edge(a), Value::Edge(b)) => Tri::known(a == b),
        _ => Tri::False,
    }
}

#[cycle(equals)]
fn equals_lists(a: &[Value], b: &[Value]) -> Tri
    ensures { result ≡ lists_equal equals_of a.now b.now }
{
    if a.len() != b.len() {
        return Tri::False;
    }
    let mut answer = Tri::True;
    for (i, x) in a.iter().enumerate() {
        answer = answer.and(equals(x, &b[i]));
        if answer == Tri::False {
            return answer;
        }
    }
    answer
}
