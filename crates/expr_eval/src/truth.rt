//! Truth values, of which null is the unknown one.
ghost use Rattle.std.specs.Prelude.{◌≡◌};
ghost use Rattle.expr_eval.specs.Truth.{tri_not, tri_or, tri_xor, is_true, tri_value, truth, known_truth, condition, keeps, negated, is_settled, joint_of, joined, ended};

use crate::EvalRefused;
use graph_value::{Tri, Value};

/// AND, OR and XOR.
#[derive(Clone, Copy, PartialEq, Eq)]
pub(crate) enum Joint {
    And,
    Or,
    Xor,
}

/// What stands on the left in a chain of [`Joint`].
#[derive(Clone, Copy, PartialEq, Eq)]
pub(crate) enum Left {
    /// Nothing yet.
    Nothing,
    Truth(Tri),
    /// A value that is neither a truth value nor null.
    Other,
}

pub(crate) fn tri_not(t: Tri) -> Tri
    ensures { result ≡ tri_not t }
{
    match t {
        Tri::True => Tri::False,
        Tri::False => Tri::True,
        Tri::Unknown => Tri::Unknown,
    }
}

pub(crate) fn tri_or(a: Tri, b: Tri) -> Tri
    ensures { result ≡ tri_or a b }
{
    tri_not(tri_not(a).and(tri_not(b)))
}

fn tri_xor(a: Tri, b: Tri) -> Tri
    ensures { result ≡ tri_xor a b }
{
    match (a, b) {
        (Tri::Unknown, _) | (_, Tri::Unknown) => Tri::Unknown,
        (Tri::True, b) => tri_not(b),
        (Tri::False, b) => b,
    }
}

pub(crate) fn is_true(t: Tri) -> bool
    ensures { result ≡ is_true t }
{
    t == Tri::True
}

pub(crate) fn tri_value(t: Tri) -> Value
    ensures { result ≡ tri_value t }
{
    match t {
        Tri::True => Value::Bool(true),
        Tri::False => Value::Bool(false),
        Tri::Unknown => Value::Null,
    }
}

/// The truth value that a value is.
#[tactic(auto, unfolding(crate::specs::Truth::truth))]
pub(crate) fn truth(value: Value) -> Left
    ensures { result ≡ truth value }
{
    match value {
        Value::Null => Left::Truth(Tri::Unknown),
        Value::Bool(b) => Left::Truth(Tri::known(b)),
        _ => Left::Other,
    }
}

/// Whether a condition is true. A value that is no truth value is refused.
pub(crate) fn condition(value: Value) -> Result<Tri, EvalRefused>
    ensures { result ≡ condition value }
{
    match truth(value) {
        Left::Truth(t) => Ok(t),
        Left::Nothing | Left::Other => Err(EvalRefused::TypeFault),
    }
}

/// Whether WHERE keeps a row in which its condition has this value. A value that is no truth value is refused.
#[tactic(auto, unfolding(crate::specs::Truth::keeps))]
pub fn keeps(value: &Value) -> Result<bool, EvalRefused>
    ensures { result ≡ keeps value.now }
{
    match value {
        Value::Null => Ok(false),
        Value::Bool(b) => Ok(*b),
        _ => Err(EvalRefused::TypeFault),
    }
}

/// What NOT gives.
pub(crate) fn negated(value: Value) -> Result<Value, EvalRefused>
    ensures { result ≡ negated (truth value) }
{
    match truth(value) {
        Left::Truth(t) => Ok(tri_value(tri_not(t))),
        Left::Nothing | Left::Other => Err(EvalRefused::TypeFault),
    }
}

impl Joint {
    /// Whether what stands on the left settles the whole.
    pub(crate) fn is_settled(self, left: Left) -> bool
        ensures { result ≡ is_settled self left }
    {
        match (self, left) {
            (Joint::And, Left::Truth(t)) => is_true(tri_not(t)),
            (Joint::Or, Left::Truth(t)) => is_true(t),
            _ => false,
        }
    }

    fn of(self, a: Tri, b: Tri) -> Tri
        ensures { result ≡ joint_of self a b }
    {
        match self {
            Joint::And => a.and(b),
            Joint::Or => tri_or(a, b),
            Joint::Xor => tri_xor(a, b),
        }
    }

    /// The left with one more operand.
    pub(crate) fn joined(self, left: Left, right: Left) -> Result<Left, EvalRefused>
        ensures { result ≡ joined self left right }
    {
        match (left, right) {
            (Left::Nothing, right) => Ok(right),
            (Left::Truth(a), Left::Truth(b)) => Ok(Left::Truth(self.of(a, b))),
            _ => Err(EvalRefused::TypeFault),
        }
    }
}

/// The value of a whole chain.
pub(crate) fn ended(left: Left) -> Result<Value, EvalRefused>
    ensures { result ≡ ended left }
{
    match left {
        Left::Nothing => Ok(Value::Null),
        Left::Truth(t) => Ok(tri_value(t)),
        Left::Other => Err(EvalRefused::TypeFault),
    }
}
