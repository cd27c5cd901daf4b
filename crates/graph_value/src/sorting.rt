ghost use Rattle.std.specs.Prelude.{◌≡◌, ◌↔◌};
ghost use Rattle.std.specs.Cmp.{IsTotalOrder};
ghost use Rattle.std.specs.declared.cmp.Ordering.TheVariants.{Equal};
ghost use Rattle.graph_value.specs.declared.value.Value.{Value as AnyValue};
ghost use Rattle.std.specs.Cmp.Lexicographic.{slice_cmp};
ghost use Rattle.graph_value.specs.Order.{order_of, rank_of};

use crate::Value;
use std::cmp::Ordering;

/// The order in which values are sorted. The kinds ascend from vertex, edge, list, text, truth value and number to null. Within
/// a kind, ids and numbers go by size, texts byte by byte, lists element by element, and false is before true.
#[cycle(order)]
pub fn order(a: &Value, b: &Value) -> Ordering
    ensures { result ≡ order_of a.now b.now }
{
    match (a, b) {
        (Value::Vertex(a), Value::Vertex(b)) => a.cmp(b),
        (Value::Edge(a), Value::Edge(b)) => a.cmp(b),
        (Value::List(a), Value::List(b)) => order_lists(a.as_slice(), b.as_slice()),
        (Value::Text(a), Value::Text(b)) => a.cmp(b),
        (Value::Bool(a), Value::Bool(b)) => a.cmp(b),
        (Value::Int(a), Value::Int(b)) => a.cmp(b),
        _ => rank(a).cmp(&rank(b)),
    }
}

#[cycle(order)]
fn order_lists(a: &[Value], b: &[Value]) -> Ordering
    ensures { result ≡ slice_cmp order_of a.now b.now }
{
    for (i, x) in a.iter().enumerate() {
        if i == b.len() {
            return Ordering::Greater;
        }
        let first = order(x, &b[i]);
        if first != Ordering::Equal {
            return first;
        }
    }
    if a.len() < b.len() {
        Ordering::Less
    } else {
        Ordering::Equal
    }
}

/// The place of a value's kind among the kinds.
fn rank(v: &Value) -> u8
    ensures { result ≡ rank_of v.now }
{
    match v {
        Value::Vertex(_) => 0,
        Value::Edge(_) => 1,
        Value::List(_) => 2,
        Value::Text(_) => 3,
        Value::Bool(_) => 4,
        Value::Int(_) => 5,
        Value::Null => 6,
    }
}

/// The order is total.
pub fn order_is_total()
    ensures { IsTotalOrder order_of }
{}

/// Two values are level in the order just where they are the same value.
pub fn order_tells_apart()
    ensures { (a b : AnyValue) → (order_of a b ≡ Equal) ↔ (a ≡ b) }
{}
