//! The properties that a map gives a new object.
ghost use Rattle.std.specs.Prelude.{◌≡◌, IfOk};
ghost use Rattle.expr_eval.specs.Outcome.{Evaluates};
ghost use Rattle.write_ops.specs.Creating as spec;
ghost use Rattle.write_ops.specs.Over.{over};

use crate::planned::{Entity, Plan};
use crate::writing::{is_null, prop_op, value_to_set};
use cypher_syntax::Expr;
use expr_eval::{EvalRefused, Row};
use graph_reader::GraphRead;
use graph_value::{Name, NoMemory, Value};
use sqlite_items::Items;
use std::alloc::Global;

fn with_value(x: Entity, key: &Name, value: Value, ops: Plan) -> Result<Plan, NoMemory>
    ensures { IfOk result (λ o. o ≡ spec.with_value x key.now value ops) }
{
    let mut ops = ops;
    if is_null(&value) {
        return Ok(ops);
    }
    ops.push(prop_op(x, key.copy()?, value))?;
    Ok(ops)
}

fn with_entry<G: GraphRead>(
    alloc: Global,
    x: Entity,
    key: &Name,
    expr: &Expr,
    row: &Row,
    ops: Plan,
    graph: &mut G,
) -> Result<Plan, EvalRefused>
    ensures { Evaluates G.stands G.follows
        (λ g. spec.with_entry g row.now x ops (key.now, expr.now)) graph.old graph.new result }
{
    let value = value_to_set(alloc, expr, row, graph)?;
    Ok(with_value(x, key, value, ops)?)
}

fn with_entries<G: GraphRead>(
    alloc: Global,
    x: Entity,
    entries: &[(Name, Expr)],
    row: &Row,
    ops: Plan,
    graph: &mut G,
) -> Result<Plan, EvalRefused>
    ensures { Evaluates G.stands G.follows
        (λ g. over (spec.with_entry g row.now x) ops entries.now) graph.old graph.new result }
{
    let mut ops = ops;
    for (key, expr) in entries {
        ops = with_entry(alloc, x, key, expr, row, ops, graph)?;
    }
    Ok(ops)
}

/// The properties of a map, in written order.
pub(crate) fn with_map<G: GraphRead>(
    alloc: Global,
    x: Entity,
    map: &Option<Items<(Name, Expr)>>,
    row: &Row,
    ops: Plan,
    graph: &mut G,
) -> Result<Plan, EvalRefused>
    ensures { Evaluates G.stands G.follows (λ g. spec.with_map g row.now x ops map.now)
        graph.old graph.new result }
{
    match map {
        Some(entries) => with_entries(alloc, x, entries.as_slice(), row, ops, graph),
        None => Ok(ops),
    }
}
