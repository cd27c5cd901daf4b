//! ORDER BY.
ghost use Rattle.std.specs.Prelude.{◌≡◌, [], ◌∷◌, ◌++◌, map, IfOk, OnOk};
ghost use Rattle.std.specs.Option.{option_copied};
ghost use Rattle.expr_eval.specs.Eval.{all_on, eval_of};
ghost use Rattle.expr_eval.specs.Outcome.{Evaluates};
ghost use Rattle.row_ops.specs.Making.{seen as seen_row};
ghost use Rattle.cypher_check.specs.Clauses as checks;
ghost use Rattle.row_ops.specs.Sorting as spec;

use crate::made::{Made, after, seen};
use crate::names::name_value;
use crate::queues::queue;
use cypher_check::{is_closed, same_exprs};
use cypher_syntax::{Expr, Item, Projection, Sort};
use expr_eval::{EvalRefused, Row, Table, eval};
use graph_reader::GraphRead;
use graph_value::{List, NoMemory, Value, order};
use sqlite_items::Items;
use std::alloc::Global;
use std::cmp::Ordering;
use std::collections::VecDeque;
use std::marker::Model;

/// The values of the sort keys of a row. The first stands at hand, since mostly it decides.
#[derive(Drop)]
pub struct Keys {
    first: Value,
    others: List,
}

impl Model for Keys {
    ghost use Rattle.std.specs.Prelude.{List, ◌∷◌};
    ghost use Rattle.graph_value.specs.declared.value.Value.{Value as AnyValue};
    ghost use Rattle.graph_value.specs.contracts.value.Value as any_value;
    ghost use Rattle.std.specs.Coded.{codes};

    ghost Value = { List AnyValue };

    ghost coded = { Prim.hlevel (codes, any_value.the_row.coded) };

    ghost view = { λ k. k.first ∷ k.others };
}

/// A row as the projection gives it, with the values of its sort keys.
#[derive(Drop)]
pub struct Keyed {
    pub keys: Keys,
    pub row: Row,
}

/// The value of the first item that is this expression.
#[tactic(auto, using(crate::proofs::PairLemmas::value_hit, crate::proofs::PairLemmas::value_miss))]
fn item_value<'a>(items: &[Item], values: &'a [Value], expr: &Expr) -> Option<&'a Value>
    ensures { option_copied result ≡ spec.item_value items.now values.now expr.now }
{
    for (place, item) in items.iter().enumerate() {
        if same_exprs(&item.expr, expr) {
            return values.get(place);
        }
    }
    None
}

/// The value of a sort key.
fn key<G: GraphRead>(
    alloc: Global,
    p: &Projection,
    is_closed: bool,
    made: &Made,
    sort: &Sort,
    graph: &mut G,
) -> Result<Value, EvalRefused>
    requires { is_closed ≡ checks.is_closed p.now }
    ensures { Evaluates G.stands G.follows
        (λ g. spec.key_of g p.now.items made.now.values (seen_row p.now made.now) sort.now)
        graph.old graph.new result }
{
    match item_value(p.items.as_slice(), made.values.as_slice(), &sort.expr) {
        Some(value) => Ok(value.copy(alloc)?),
        None => evaluated(alloc, p, is_closed, made, &sort.expr, graph),
    }
}

/// The value of an expression of ORDER BY. For a name no row is made.
fn evaluated<G: GraphRead>(
    alloc: Global,
    p: &Projection,
    is_closed: bool,
    made: &Made,
    expr: &Expr,
    graph: &mut G,
) -> Result<Value, EvalRefused>
    requires { is_closed ≡ checks.is_closed p.now }
    ensures { Evaluates G.stands G.follows
        (λ g. eval_of g (seen_row p.now made.now) expr.now)
        graph.old graph.new result }
{
    match expr {
        Expr::Var(name) => Ok(name_value(alloc, p, is_closed, made, name)?),
        _ => eval(alloc, expr, &seen(alloc, p, is_closed, made)?, graph),
    }
}

/// The values of the sort keys behind the first, beside its value.
fn other_keys<G: GraphRead>(
    alloc: Global,
    p: &Projection,
    is_closed: bool,
    made: &Made,
    first: Value,
    sorts: &[Sort],
    graph: &mut G,
) -> Result<Keys, EvalRefused>
    requires { is_closed ≡ checks.is_closed p.now }
    ensures { Evaluates G.stands G.follows
        (λ g. all_on (first ∷ [])
        (map (spec.key_of g p.now.items made.now.values (seen_row p.now made.now)) sorts.now))
        graph.old graph.new result }
{
    let mut others = Items::new(alloc);
    for sort in sorts {
        others.push(key(alloc, p, is_closed, made, sort, graph)?)?;
    }
    Ok(Keys { first, others })
}

/// The values of the sort keys of a row.
fn row_keys<G: GraphRead>(
    alloc: Global,
    p: &Projection,
    is_closed: bool,
    first: &Sort,
    others: &[Sort],
    made: &Made,
    graph: &mut G,
) -> Result<Keys, EvalRefused>
    requires closed { is_closed ≡ checks.is_closed p.now }
    requires sorts { p.now.sort ≡ first.now ∷ others.now }
    ensures { Evaluates G.stands G.follows (λ g. spec.keys_of g p.now made.now)
        graph.old graph.new result }
{
    let first = key(alloc, p, is_closed, made, first, graph)?;
    other_keys(alloc, p, is_closed, made, first, others, graph)
}

fn turned(down: bool, a: &Value, b: &Value) -> Ordering
    ensures { result ≡ spec.turned down a.now b.now }
{
    if down { order(b, a) } else { order(a, b) }
}

/// How the keys at a place compare.
fn compare_at(down: bool, a: &[Value], b: &[Value], place: usize) -> Ordering
    ensures { result ≡ spec.turned down (spec.key_at a.now place) (spec.key_at b.now place) }
{
    match (a.get(place), b.get(place)) {
        (Some(a), Some(b)) => turned(down, a, b),
        (Some(a), None) => turned(down, a, &Value::Null),
        (None, Some(b)) => turned(down, &Value::Null, b),
        (None, None) => turned(down, &Value::Null, &Value::Null),
    }
}

/// How the keys behind the first compare.
fn compare_others(sorts: &[Sort], a: &[Value], b: &[Value]) -> Ordering
    ensures { result ≡ spec.keys_cmp sorts.now a.now b.now }
{
    for (place, sort) in sorts.iter().enumerate() {
        let first = compare_at(sort.down, a, b, place);
        if first != Ordering::Equal {
            return first;
        }
    }
    Ordering::Equal
}

/// How the keys of two rows compare.
fn compare(first: &Sort, others: &[Sort], a: &Keys, b: &Keys) -> Ordering
    ensures { result ≡ spec.keys_cmp (first.now ∷ others.now) a.now b.now }
{
    match turned(first.down, &a.first, &b.first) {
        Ordering::Equal => compare_others(others, a.others.as_slice(), b.others.as_slice()),
        unequal => unequal,
    }
}

/// The rows in order, those that tie as they stood.
fn in_order(mut keyed: Vec<Keyed>, first: &Sort, others: &[Sort]) -> Result<Vec<Keyed>, NoMemory>
    ensures { IfOk result (λ rows. rows.items
        ≡ spec.in_order (spec.is_before (first.now ∷ others.now)) keyed.items) }
{
    keyed.sort_by(|a, b| compare(first, others, &a.keys, &b.keys))?;
    Ok(keyed)
}

/// The rows without their keys.
fn without_keys(alloc: Global, keyed: Vec<Keyed>) -> Result<Table, NoMemory>
    ensures { IfOk result (λ rows. rows ≡ map (λ k. k.row) keyed.items) }
{
    let mut rows = Vec::with_capacity(alloc, keyed.len())?;
    let mut left = VecDeque::from_vec(keyed);
    while let Some(Keyed { keys: _, row }) = left.pop_front() {
        rows.push(row)?;
    }
    Ok(Items::from_vec(rows))
}

fn rows_in_order(
    alloc: Global,
    keyed: Vec<Keyed>,
    first: &Sort,
    others: &[Sort],
) -> Result<Table, NoMemory>
    ensures { IfOk result (λ rows. rows
        ≡ spec.rows_in_order (first.now ∷ others.now) keyed.items) }
{
    without_keys(alloc, in_order(keyed, first, others)?)
}

/// Puts a row behind the others.
fn add(keyed: &mut Vec<Keyed>, keys: Keys, row: Row) -> Result<(), NoMemory>
    ensures { OnOk result (keyed.new.items
        ≡ keyed.old.items ++ (record { keys = keys; row = row }) ∷ []) }
{
    keyed.push(Keyed { keys, row })?;
    Ok(())
}

/// The rows of a projection in the order of its sort keys, as it gives them.
pub(crate) fn sorted<G: GraphRead>(
    alloc: Global,
    p: &Projection,
    first: &Sort,
    others: &[Sort],
    rows: Items<Made>,
    graph: &mut G,
) -> Result<Table, EvalRefused>
    requires { p.now.sort ≡ first.now ∷ others.now }
    ensures { Evaluates G.stands G.follows (λ g. spec.sorted_of g p.now rows)
        graph.old graph.new result }
{
    let is_closed = is_closed(p);
    let mut keyed = Vec::with_capacity(alloc, rows.len())?;
    let mut left = queue(alloc, rows)?;
    while let Some(made) = left.pop_front() {
        let keys = row_keys(alloc, p, is_closed, first, others, &made, graph)?;
        add(&mut keyed, keys, after(alloc, p, made)?)?;
    }
    Ok(rows_in_order(alloc, keyed, first, others)?)
}
