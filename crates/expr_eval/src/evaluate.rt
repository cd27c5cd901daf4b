//! The value of an expression.
ghost use Rattle.std.specs.Prelude.{◌≡◌};
ghost use Rattle.expr_eval.specs.Eval as spec;
ghost use Rattle.expr_eval.specs.Outcome.{Evaluates};

use crate::comparing::{compared, is_null, one_of};
use crate::entities::{labelled, property};
use crate::functions::applied;
use crate::lists::indexed;
use crate::numbers::{multiplied, signed, summed};
use crate::row::value;
use crate::size::sized_list;
use crate::texts::TextTest;
use crate::truth::{Joint, Left, condition, ended, is_true, negated, tri_not, tri_value, truth};
use crate::{EvalRefused, Row};
use cypher_syntax::{CmpOp, Expr, Fun, PostOp, PredOp, ProdOp, SumOp};
use graph_reader::GraphRead;
use graph_value::{List, Tri, Value, equals};
use sqlite_items::{Boxed, Items};
use std::alloc::Global;

/// The value of an expression in a row and a graph. The reader only reads.
///
/// Each refusal is the first one, operands being evaluated from left to right. A name that isn't in the row is null, and
/// so is an aggregate; a checked expression has neither.
#[cycle(eval)]
pub fn eval<G: GraphRead>(
    alloc: Global,
    expr: &Expr,
    row: &Row,
    graph: &mut G,
) -> Result<Value, EvalRefused>
    ensures { Evaluates G.stands G.follows (λ g. spec.eval_of g row.now expr.now)
        graph.old graph.new result }
{
    match expr {
        Expr::Lit(literal) => Ok(literal.copy(alloc)?),
        Expr::Var(name) => Ok(value(alloc, row.as_slice(), name)?),
        Expr::List(items) => {
            let values = values(alloc, items.as_slice(), row, graph)?;
            sized_list(values)
        }
        Expr::Call(fun, operands) => call(alloc, operands.as_slice(), *fun, row, graph),
        Expr::CountRows | Expr::Agg { .. } => Ok(Value::Null),
        Expr::Case { of, whens, other } => {
            let first = optional(alloc, of, row, graph)?;
            let chosen = chosen(alloc, whens.as_slice(), &first, row, graph)?;
            otherwise(alloc, other, chosen, row, graph)
        }
        Expr::Or(operands) => joined(alloc, operands.as_slice(), Joint::Or, row, graph),
        Expr::Xor(operands) => joined(alloc, operands.as_slice(), Joint::Xor, row, graph),
        Expr::And(operands) => joined(alloc, operands.as_slice(), Joint::And, row, graph),
        Expr::Not(operand) => {
            let value = eval(alloc, operand.get(), row, graph)?;
            negated(value)
        }
        Expr::Cmp(first, rest) => {
            let value = eval(alloc, first.get(), row, graph)?;
            comparisons(alloc, rest.as_slice(), value, row, graph)
        }
        Expr::Pred(first, tests) => {
            let value = eval(alloc, first.get(), row, graph)?;
            preds(alloc, tests.as_slice(), value, row, graph)
        }
        Expr::Sum(first, rest) => {
            let value = eval(alloc, first.get(), row, graph)?;
            sums(alloc, rest.as_slice(), value, row, graph)
        }
        Expr::Prod(first, rest) => {
            let value = eval(alloc, first.get(), row, graph)?;
            products(alloc, rest.as_slice(), value, row, graph)
        }
        Expr::Sign(op, operand) => {
            let value = eval(alloc, operand.get(), row, graph)?;
            signed(*op, value)
        }
        Expr::Post(first, asked) => {
            let value = eval(alloc, first.get(), row, graph)?;
            posts(alloc, asked.as_slice(), value, row, graph)
        }
    }
}

/// The values of expressions, in order.
#[cycle(eval)]
fn values<G: GraphRead>(
    alloc: Global,
    items: &[Expr],
    row: &Row,
    graph: &mut G,
) -> Result<List, EvalRefused>
    ensures { Evaluates G.stands G.follows (λ g. spec.values_of g row.now items.now)
        graph.old graph.new result }
{
    let mut values = Items::new(alloc);
    for item in items {
        values.push(eval(alloc, item, row, graph)?)?;
    }
    Ok(values)
}

/// A function of operands.
#[cycle(eval)]
fn call<G: GraphRead>(
    alloc: Global,
    operands: &[Expr],
    fun: Fun,
    row: &Row,
    graph: &mut G,
) -> Result<Value, EvalRefused>
    ensures { Evaluates G.stands G.follows (λ g. spec.called_of g row.now fun operands.now)
        graph.old graph.new result }
{
    match fun {
        Fun::Coalesce => coalesced(alloc, operands, row, graph),
        _ => {
            let values = values(alloc, operands, row, graph)?;
            applied(alloc, fun, values, graph)
        }
    }
}

/// The first value that isn't null.
#[cycle(eval)]
fn coalesced<G: GraphRead>(
    alloc: Global,
    operands: &[Expr],
    row: &Row,
    graph: &mut G,
) -> Result<Value, EvalRefused>
    ensures { Evaluates G.stands G.follows (λ g. spec.coalesced_of g row.now operands.now)
        graph.old graph.new result }
{
    for operand in operands {
        let value = eval(alloc, operand, row, graph)?;
        if !is_null(&value) {
            return Ok(value);
        }
    }
    Ok(Value::Null)
}

/// A chain of AND, OR or XOR, from the left. What the left settles leaves out the rest.
#[cycle(eval)]
fn joined<G: GraphRead>(
    alloc: Global,
    operands: &[Expr],
    joint: Joint,
    row: &Row,
    graph: &mut G,
) -> Result<Value, EvalRefused>
    ensures { Evaluates G.stands G.follows (λ g. spec.joined_of g row.now joint operands.now)
        graph.old graph.new result }
{
    let mut left = Left::Nothing;
    for operand in operands {
        if joint.is_settled(left) {
            return ended(left);
        }
        left = joint.joined(left, truth(eval(alloc, operand, row, graph)?))?;
    }
    ended(left)
}

/// A chain of comparisons behind its first value. What is false leaves out the rest.
#[cycle(eval)]
fn comparisons<G: GraphRead>(
    alloc: Global,
    rest: &[(CmpOp, Expr)],
    first: Value,
    row: &Row,
    graph: &mut G,
) -> Result<Value, EvalRefused>
    ensures { Evaluates G.stands G.follows (λ g. spec.compared_of g row.now first rest.now)
        graph.old graph.new result }
{
    let mut left = first;
    let mut holds = Tri::True;
    for (op, operand) in rest {
        if is_true(tri_not(holds)) {
            return Ok(tri_value(holds));
        }
        let right = eval(alloc, operand, row, graph)?;
        holds = holds.and(compared(*op, &left, &right));
        left = right;
    }
    Ok(tri_value(holds))
}

#[cycle(eval)]
fn sums<G: GraphRead>(
    alloc: Global,
    rest: &[(SumOp, Expr)],
    first: Value,
    row: &Row,
    graph: &mut G,
) -> Result<Value, EvalRefused>
    ensures { Evaluates G.stands G.follows (λ g. spec.summed_of g row.now first rest.now)
        graph.old graph.new result }
{
    let mut left = first;
    for (op, operand) in rest {
        let right = eval(alloc, operand, row, graph)?;
        left = summed(alloc, *op, left, right)?;
    }
    Ok(left)
}

#[cycle(eval)]
fn products<G: GraphRead>(
    alloc: Global,
    rest: &[(ProdOp, Expr)],
    first: Value,
    row: &Row,
    graph: &mut G,
) -> Result<Value, EvalRefused>
    ensures { Evaluates G.stands G.follows (λ g. spec.multiplied_of g row.now first rest.now)
        graph.old graph.new result }
{
    let mut left = first;
    for (op, operand) in rest {
        let right = eval(alloc, operand, row, graph)?;
        left = multiplied(*op, left, right)?;
    }
    Ok(left)
}

/// Tests of a value, one behind the other.
#[cycle(eval)]
fn preds<G: GraphRead>(
    alloc: Global,
    tests: &[PredOp],
    first: Value,
    row: &Row,
    graph: &mut G,
) -> Result<Value, EvalRefused>
    ensures { Evaluates G.stands G.follows (λ g. spec.preds_of g row.now first tests.now)
        graph.old graph.new result }
{
    let mut value = first;
    for test in tests {
        value = pred(alloc, test, value, row, graph)?;
    }
    Ok(value)
}

#[cycle(eval)]
fn pred<G: GraphRead>(
    alloc: Global,
    test: &PredOp,
    value: Value,
    row: &Row,
    graph: &mut G,
) -> Result<Value, EvalRefused>
    ensures { Evaluates G.stands G.follows (λ g. spec.pred_of g row.now test.now value)
        graph.old graph.new result }
{
    match test {
        PredOp::OneOf(list) => {
            let list = eval(alloc, list, row, graph)?;
            one_of(&value, &list)
        }
        PredOp::Starts(part) => {
            let part = eval(alloc, part, row, graph)?;
            Ok(TextTest::Starts.tested(&value, &part))
        }
        PredOp::Ends(part) => {
            let part = eval(alloc, part, row, graph)?;
            Ok(TextTest::Ends.tested(&value, &part))
        }
        PredOp::Contains(part) => {
            let part = eval(alloc, part, row, graph)?;
            Ok(TextTest::Contains.tested(&value, &part))
        }
        PredOp::IsNull => Ok(Value::Bool(is_null(&value))),
        PredOp::IsNotNull => Ok(Value::Bool(!is_null(&value))),
    }
}

/// What is asked of a value, one behind the other.
#[cycle(eval)]
fn posts<G: GraphRead>(
    alloc: Global,
    asked: &[PostOp],
    first: Value,
    row: &Row,
    graph: &mut G,
) -> Result<Value, EvalRefused>
    ensures { Evaluates G.stands G.follows (λ g. spec.posts_of g row.now first asked.now)
        graph.old graph.new result }
{
    let mut value = first;
    for op in asked {
        value = post(alloc, op, value, row, graph)?;
    }
    Ok(value)
}

#[cycle(eval)]
fn post<G: GraphRead>(
    alloc: Global,
    op: &PostOp,
    value: Value,
    row: &Row,
    graph: &mut G,
) -> Result<Value, EvalRefused>
    ensures { Evaluates G.stands G.follows (λ g. spec.post_of g row.now op.now value)
        graph.old graph.new result }
{
    match op {
        PostOp::Prop(name) => property(alloc, name, &value, graph),
        PostOp::At(at) => {
            let at = eval(alloc, at, row, graph)?;
            indexed(value, at)
        }
        PostOp::Labels(names) => labelled(names.as_slice(), &value, graph),
    }
}

/// The value of an expression that may be left out.
#[cycle(eval)]
fn optional<G: GraphRead>(
    alloc: Global,
    expr: &Option<Boxed<Expr>>,
    row: &Row,
    graph: &mut G,
) -> Result<Option<Value>, EvalRefused>
    ensures { Evaluates G.stands G.follows (λ g. spec.optional_of g row.now expr.now)
        graph.old graph.new result }
{
    match expr {
        Some(expr) => Ok(Some(eval(alloc, expr.get(), row, graph)?)),
        None => Ok(None),
    }
}

/// The value behind the first condition of CASE that holds.
#[cycle(eval)]
fn chosen<G: GraphRead>(
    alloc: Global,
    whens: &[(Expr, Expr)],
    first: &Option<Value>,
    row: &Row,
    graph: &mut G,
) -> Result<Option<Value>, EvalRefused>
    ensures { Evaluates G.stands G.follows (λ g. spec.chosen_of g row.now first.now whens.now)
        graph.old graph.new result }
{
    for (condition, then) in whens {
        if holds(first, eval(alloc, condition, row, graph)?)? {
            return Ok(Some(eval(alloc, then, row, graph)?));
        }
    }
    Ok(None)
}

/// The value behind ELSE, where no other was chosen.
#[cycle(eval)]
fn otherwise<G: GraphRead>(
    alloc: Global,
    other: &Option<Boxed<Expr>>,
    chosen: Option<Value>,
    row: &Row,
    graph: &mut G,
) -> Result<Value, EvalRefused>
    ensures { Evaluates G.stands G.follows (λ g. spec.otherwise_of g row.now chosen other.now)
        graph.old graph.new result }
{
    match (chosen, other) {
        (Some(value), _) => Ok(value),
        (None, None) => Ok(Value::Null),
        (None, Some(other)) => eval(alloc, other.get(), row, graph),
    }
}

/// Whether a condition of CASE holds: where it is true, or where it equals the first value.
#[tactic(auto, unfolding(crate::specs::Eval::holds))]
fn holds(first: &Option<Value>, value: Value) -> Result<bool, EvalRefused>
    ensures { result ≡ spec.holds first.now value }
{
    match first {
        None => Ok(is_true(condition(value)?)),
        Some(first) => Ok(is_true(equals(first, &value))),
    }
}
