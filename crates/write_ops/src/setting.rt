//! SET and REMOVE.
ghost use Rattle.std.specs.Prelude.{◌≡◌, ◌∷◌, ◌++◌, [], IfOk};
ghost use Rattle.expr_eval.specs.Outcome.{Evaluates};
ghost use Rattle.write_ops.specs.Over.{over};
ghost use Rattle.write_ops.specs.Setting as spec;
ghost use Rattle.write_ops.specs.Writing as writing;

use crate::planned::{Entity, Pick, Plan};
use crate::target::{Target, alive, target_of};
use crate::writing::{known, prop_op, value_to_set, with_label_ops};
use cypher_syntax::{RemoveItem, SetItem};
use expr_eval::{EvalRefused, Row};
use graph_reader::GraphRead;
use graph_value::{Name, NoMemory, Oid, Value};
use sqlite_items::Items;
use std::alloc::Global;

fn with_prop_op(x: Entity, key: &Name, value: Value, ops: Plan) -> Result<Plan, NoMemory>
    ensures { IfOk result (λ o. o ≡ ops ++ writing.prop_op x key.now value ∷ []) }
{
    let mut ops = ops;
    ops.push(prop_op(x, key.copy()?, value))?;
    Ok(ops)
}

/// Sets a property of what is alive.
fn with_prop<G: GraphRead>(
    key: &Name,
    value: Value,
    target: Target,
    ops: Plan,
    graph: &mut G,
) -> Result<Plan, EvalRefused>
    ensures { Evaluates G.stands G.follows (λ g. spec.with_prop g key.now value target ops)
        graph.old graph.new result }
{
    match target {
        Target::Nothing => Ok(ops),
        Target::Entity(x) => {
            let x = alive(x, graph)?;
            Ok(with_prop_op(known(x), key, value, ops)?)
        }
        Target::Other => Err(EvalRefused::TypeFault),
    }
}

/// Adds or takes away labels of a vertex that is alive.
fn with_labels<G: GraphRead>(
    adds: bool,
    labels: &[Name],
    target: Target,
    ops: Plan,
    graph: &mut G,
) -> Result<Plan, EvalRefused>
    ensures { Evaluates G.stands G.follows
        (λ g. spec.with_labels g adds labels.now target ops) graph.old graph.new result }
{
    match target {
        Target::Nothing => Ok(ops),
        Target::Entity(Oid::Vertex(v)) => {
            let _there = alive(Oid::Vertex(v), graph)?;
            Ok(with_label_ops(adds, Pick::Known(v.0), labels, ops)?)
        }
        _ => Err(EvalRefused::TypeFault),
    }
}

fn set_item<G: GraphRead>(
    alloc: Global,
    item: &SetItem,
    row: &Row,
    ops: Plan,
    graph: &mut G,
) -> Result<Plan, EvalRefused>
    ensures { Evaluates G.stands G.follows (λ g. spec.set_item g row.now ops item.now)
        graph.old graph.new result }
{
    match item {
        SetItem::Prop(name, key, expr) => {
            let value = value_to_set(alloc, expr, row, graph)?;
            with_prop(key, value, target_of(row.as_slice(), name), ops, graph)
        }
        SetItem::Labels(name, labels) => {
            let target = target_of(row.as_slice(), name);
            with_labels(true, labels.as_slice(), target, ops, graph)
        }
    }
}

fn remove_item<G: GraphRead>(
    item: &RemoveItem,
    row: &Row,
    ops: Plan,
    graph: &mut G,
) -> Result<Plan, EvalRefused>
    ensures { Evaluates G.stands G.follows (λ g. spec.remove_item g row.now ops item.now)
        graph.old graph.new result }
{
    match item {
        RemoveItem::Prop(name, key) => {
            let target = target_of(row.as_slice(), name);
            with_prop(key, Value::Null, target, ops, graph)
        }
        RemoveItem::Labels(name, labels) => {
            let target = target_of(row.as_slice(), name);
            with_labels(false, labels.as_slice(), target, ops, graph)
        }
    }
}

fn set_row<G: GraphRead>(
    alloc: Global,
    items: &[SetItem],
    row: &Row,
    ops: Plan,
    graph: &mut G,
) -> Result<Plan, EvalRefused>
    ensures { Evaluates G.stands G.follows (λ g. spec.set_row g items.now ops row.now)
        graph.old graph.new result }
{
    let mut ops = ops;
    for item in items {
        ops = set_item(alloc, item, row, ops, graph)?;
    }
    Ok(ops)
}

fn remove_row<G: GraphRead>(
    items: &[RemoveItem],
    row: &Row,
    ops: Plan,
    graph: &mut G,
) -> Result<Plan, EvalRefused>
    ensures { Evaluates G.stands G.follows (λ g. spec.remove_row g items.now ops row.now)
        graph.old graph.new result }
{
    let mut ops = ops;
    for item in items {
        ops = remove_item(item, row, ops, graph)?;
    }
    Ok(ops)
}

/// The operations of SET.
pub(crate) fn set<G: GraphRead>(
    alloc: Global,
    items: &[SetItem],
    table: &[Row],
    graph: &mut G,
) -> Result<Plan, EvalRefused>
    ensures { Evaluates G.stands G.follows (λ g. spec.set_of g items.now table.now)
        graph.old graph.new result }
{
    let mut ops = Items::new(alloc);
    for row in table {
        ops = set_row(alloc, items, row, ops, graph)?;
    }
    Ok(ops)
}

/// The operations of REMOVE.
pub(crate) fn remove<G: GraphRead>(
    alloc: Global,
    items: &[RemoveItem],
    table: &[Row],
    graph: &mut G,
) -> Result<Plan, EvalRefused>
    ensures { Evaluates G.stands G.follows (λ g. spec.remove_of g items.now table.now)
        graph.old graph.new result }
{
    let mut ops = Items::new(alloc);
    for row in table {
        ops = remove_row(items, row, ops, graph)?;
    }
    Ok(ops)
}
