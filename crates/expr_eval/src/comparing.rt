//! Comparisons.
ghost use Rattle.std.specs.Prelude.{◌≡◌};
ghost use Rattle.expr_eval.specs.Comparing.{at_most, compared, equals_one, one_of, is_null};

use crate::EvalRefused;
use crate::truth::{tri_not, tri_or, tri_value};
use cypher_syntax::CmpOp;
use graph_value::{Tri, Value, equals, less};

fn at_most(less: Tri, equal: Tri) -> Tri
    ensures { result ≡ at_most less equal }
{
    match less {
        Tri::Unknown => Tri::Unknown,
        _ => tri_or(less, equal),
    }
}

/// How one value compares with another.
pub(crate) fn compared(op: CmpOp, a: &Value, b: &Value) -> Tri
    ensures { result ≡ compared op a.now b.now }
{
    match op {
        CmpOp::Eq => equals(a, b),
        CmpOp::Ne => tri_not(equals(a, b)),
        CmpOp::Lt => less(a, b),
        CmpOp::Le => at_most(less(a, b), equals(a, b)),
        CmpOp::Gt => less(b, a),
        CmpOp::Ge => at_most(less(b, a), equals(b, a)),
    }
}

/// Whether the value equals one of these.
fn equals_one(value: &Value, items: &[Value]) -> Tri
    ensures { result ≡ equals_one value.now items.now }
{
    let mut answer = Tri::False;
    for item in items {
        answer = tri_or(answer, equals(value, item));
        if answer == Tri::True {
            return answer;
        }
    }
    answer
}

/// What IN gives.
#[tactic(auto, unfolding(crate::specs::Comparing::one_of))]
pub(crate) fn one_of(value: &Value, list: &Value) -> Result<Value, EvalRefused>
    ensures { result ≡ one_of value.now list.now }
{
    match list {
        Value::Null => Ok(Value::Null),
        Value::List(items) => Ok(tri_value(equals_one(value, items.as_slice()))),
        _ => Err(EvalRefused::TypeFault),
    }
}

#[tactic(auto, unfolding(crate::specs::Comparing::is_null))]
pub(crate) fn is_null(value: &Value) -> bool
    ensures { result ≡ is_null value.now }
{
    matches!(value, Value::Null)
}
