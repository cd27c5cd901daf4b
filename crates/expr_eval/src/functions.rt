//! Functions of values.
ghost use Rattle.std.specs.Prelude.{◌≡◌, ◌^◌, ◌<◌, IfOk, count_by};
ghost use Rattle.expr_eval.specs.Functions.{number, id_of, size_of, head, last, abs, text_of, integer_in, integer_of, single, double, applied, truth_text};
ghost use Rattle.expr_eval.specs.Outcome.{Evaluates, Answers};
ghost use Rattle.expr_eval.specs.Texts.{begins_character};

use crate::EvalRefused;
use crate::entities::{end_of, keys, kind_of, labels_of, start_of};
use crate::lists::{element, range};
use cypher_syntax::Fun;
use graph_reader::GraphRead;
use graph_value::{List, NoMemory, Text, Value};
use std::alloc::Global;

/// A number as an integer value.
fn number(n: u64) -> Result<Value, EvalRefused>
    ensures { result ≡ number n }
{
    if n < 1 << 63 {
        Ok(Value::Int(n as i64))
    } else {
        Err(EvalRefused::Overflow)
    }
}

/// What `id` gives.
#[tactic(auto, unfolding(crate::specs::Functions::id_of))]
fn id_of(value: &Value) -> Result<Value, EvalRefused>
    ensures { result ≡ id_of value.now }
{
    match value {
        Value::Null => Ok(Value::Null),
        Value::Vertex(v) => number(v.0),
        Value::Edge(e) => number(e.0),
        _ => Err(EvalRefused::TypeFault),
    }
}

/// How many characters the text has.
fn characters(bytes: &[u8]) -> usize
    ensures { result ≡ count_by begins_character bytes.now }
{
    bytes.iter().filter(|b| **b < 128 || 192 <= **b).count()
}

/// What `size` gives.
#[tactic(auto, unfolding(crate::specs::Functions::size_of))]
fn size_of(value: &Value) -> Result<Value, EvalRefused>
    ensures { result ≡ size_of value.now }
{
    match value {
        Value::Null => Ok(Value::Null),
        Value::Text(text) => number(characters(text.as_str().as_bytes()) as u64),
        Value::List(items) => number(items.len() as u64),
        _ => Err(EvalRefused::TypeFault),
    }
}

/// What `head` gives.
#[tactic(auto, unfolding(crate::specs::Functions::head))]
fn head(value: Value) -> Result<Value, EvalRefused>
    ensures { result ≡ head value }
{
    match value {
        Value::Null => Ok(Value::Null),
        Value::List(items) => Ok(element(items, 0)),
        _ => Err(EvalRefused::TypeFault),
    }
}

/// What `last` gives.
#[tactic(auto, unfolding(crate::specs::Functions::last))]
fn last(value: Value) -> Result<Value, EvalRefused>
    ensures { result ≡ last value }
{
    match value {
        Value::Null => Ok(Value::Null),
        Value::List(items) => {
            let end = items.len().saturating_sub(1);
            Ok(element(items, end))
        }
        _ => Err(EvalRefused::TypeFault),
    }
}

/// What `abs` gives.
#[tactic(auto, unfolding(crate::specs::Functions::abs))]
fn abs(value: &Value) -> Result<Value, EvalRefused>
    ensures { result ≡ abs value.now }
{
    match value {
        Value::Null => Ok(Value::Null),
        Value::Int(n) => number(n.unsigned_abs()),
        _ => Err(EvalRefused::TypeFault),
    }
}

fn truth_text(alloc: Global, b: bool) -> Result<Text, NoMemory>
    ensures { IfOk result (λ t. t ≡ truth_text b) }
{
    if b {
        Text::from_str(alloc, "true")
    } else {
        Text::from_str(alloc, "false")
    }
}

/// What `toString` gives.
#[tactic(auto, unfolding(crate::specs::Functions::text_of))]
fn text_of(alloc: Global, value: Value) -> Result<Value, EvalRefused>
    ensures { Answers (text_of value) result }
{
    match value {
        Value::Null => Ok(Value::Null),
        Value::Text(text) => Ok(Value::Text(text)),
        Value::Int(n) => Ok(Value::Text(Text::from_string(n.to_string(alloc)?))),
        Value::Bool(b) => Ok(Value::Text(truth_text(alloc, b)?)),
        _ => Err(EvalRefused::TypeFault),
    }
}

/// The integer that a text writes, or null.
fn integer_in(text: &str) -> Value
    ensures { result ≡ integer_in text.now }
{
    match text.parse::<i64>() {
        Ok(n) => Value::Int(n),
        Err(_) => Value::Null,
    }
}

/// What `toInteger` gives.
#[tactic(auto, unfolding(crate::specs::Functions::integer_of))]
fn integer_of(value: &Value) -> Result<Value, EvalRefused>
    ensures { result ≡ integer_of value.now }
{
    match value {
        Value::Null => Ok(Value::Null),
        Value::Int(n) => Ok(Value::Int(*n)),
        Value::Text(text) => Ok(integer_in(text.as_str())),
        _ => Err(EvalRefused::TypeFault),
    }
}

/// A function of one value.
fn single<G: GraphRead>(
    alloc: Global,
    fun: Fun,
    value: Value,
    graph: &mut G,
) -> Result<Value, EvalRefused>
    ensures { Evaluates G.stands G.follows (λ g. single g fun value) graph.old graph.new result }
{
    match fun {
        Fun::Id => id_of(&value),
        Fun::Labels => labels_of(alloc, &value, graph),
        Fun::Kind => kind_of(alloc, &value, graph),
        Fun::StartNode => start_of(&value, graph),
        Fun::EndNode => end_of(&value, graph),
        Fun::Keys => keys(alloc, &value, graph),
        Fun::Size => size_of(&value),
        Fun::Head => head(value),
        Fun::Last => last(value),
        Fun::Abs => abs(&value),
        Fun::ToText => text_of(alloc, value),
        Fun::ToInteger => integer_of(&value),
        Fun::Range | Fun::Coalesce => Err(EvalRefused::TypeFault),
    }
}

/// A function of two values.
fn double(alloc: Global, fun: Fun, first: &Value, second: &Value) -> Result<Value, EvalRefused>
    ensures { Answers (double fun first.now second.now) result }
{
    match fun {
        Fun::Range => range(alloc, first, second),
        _ => Err(EvalRefused::TypeFault),
    }
}

/// A function of its operands. The grammar gives each as many as it takes.
pub(crate) fn applied<G: GraphRead>(
    alloc: Global,
    fun: Fun,
    operands: List,
    graph: &mut G,
) -> Result<Value, EvalRefused>
    ensures { Evaluates G.stands G.follows (λ g. applied g fun operands)
        graph.old graph.new result }
{
    let mut operands = operands;
    if let [first, second, ..] = operands.as_slice() {
        return double(alloc, fun, first, second);
    }
    match operands.pop() {
        Some(operand) => single(alloc, fun, operand, graph),
        None => Err(EvalRefused::TypeFault),
    }
}
