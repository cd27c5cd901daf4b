//! The single operations, and the values that they take.
ghost use Rattle.std.specs.Prelude.{◌≡◌, ◌++◌, map, IfOk};
ghost use Rattle.expr_eval.specs.Outcome.{Evaluates};
ghost use Rattle.write_ops.specs.Writing as spec;

use crate::planned::{Entity, Pick, Plan, PlannedOp};
use cypher_syntax::Expr;
use expr_eval::{EvalRefused, Row, eval};
use graph_reader::GraphRead;
use graph_value::{Name, NoMemory, Oid, Value, storable};
use std::alloc::Global;

pub(crate) fn is_null(value: &Value) -> bool
    ensures { result ≡ spec.is_null value.now }
{
    matches!(value, Value::Null)
}

/// What a property takes: what an object may keep, and null, which takes it away.
fn kept(value: Value) -> Result<Value, EvalRefused>
    ensures { result ≡ spec.kept value }
{
    if is_null(&value) || storable(&value) {
        Ok(value)
    } else {
        Err(EvalRefused::TypeFault)
    }
}

/// The value that a property is to have, where it may be kept.
pub(crate) fn value_to_set<G: GraphRead>(
    alloc: Global,
    expr: &Expr,
    row: &Row,
    graph: &mut G,
) -> Result<Value, EvalRefused>
    ensures { Evaluates G.stands G.follows (λ g. spec.kept_value g row.now expr.now)
        graph.old graph.new result }
{
    kept(eval(alloc, expr, row, graph)?)
}

pub(crate) fn known(x: Oid) -> Entity
    ensures { result ≡ spec.known x }
{
    match x {
        Oid::Vertex(v) => Entity::Vertex(Pick::Known(v.0)),
        Oid::Edge(e) => Entity::Edge(Pick::Known(e.0)),
    }
}

pub(crate) fn prop_op(x: Entity, key: Name, value: Value) -> PlannedOp
    ensures { result ≡ spec.prop_op x key value }
{
    match x {
        Entity::Vertex(at) => PlannedOp::SetVertexProp(at, key, value),
        Entity::Edge(at) => PlannedOp::SetEdgeProp(at, key, value),
    }
}

fn label_op(adds: bool, at: Pick, label: Name) -> PlannedOp
    ensures { result ≡ spec.label_op adds at label }
{
    if adds {
        PlannedOp::AddLabel(at, label)
    } else {
        PlannedOp::RemoveLabel(at, label)
    }
}

pub(crate) fn delete_op(x: Oid) -> PlannedOp
    ensures { result ≡ spec.delete_op x }
{
    match x {
        Oid::Vertex(v) => PlannedOp::DeleteVertex(Pick::Known(v.0)),
        Oid::Edge(e) => PlannedOp::DeleteEdge(Pick::Known(e.0)),
    }
}

/// Adds or takes away each label, in order.
pub(crate) fn with_label_ops(
    adds: bool,
    at: Pick,
    labels: &[Name],
    ops: Plan,
) -> Result<Plan, NoMemory>
    ensures { IfOk result (λ o. o ≡ ops ++ map (spec.label_op adds at) labels.now) }
{
    let mut ops = ops;
    for label in labels {
        ops.push(label_op(adds, at, label.copy()?))?;
    }
    Ok(ops)
}
