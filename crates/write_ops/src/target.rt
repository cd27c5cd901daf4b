//! What a name stands for in a row, and whether that is alive.
ghost use Rattle.std.specs.Prelude.{◌≡◌, Ok};
ghost use Rattle.expr_eval.specs.Outcome.{Evaluates};
ghost use Rattle.write_ops.specs.Targets as spec;

use expr_eval::EvalRefused;
use graph_reader::GraphRead;
use graph_value::{Name, Oid, Value};

/// What a clause may write to.
#[derive(Clone, Copy, PartialEq, Eq)]
pub(crate) enum Target {
    /// Null.
    Nothing,
    Entity(Oid),
    /// A value that is no vertex or edge.
    Other,
}

#[tactic(auto, unfolding(crate::specs::Targets::stands_for))]
fn stands_for(value: &Value) -> Target
    ensures { result ≡ spec.stands_for value.now }
{
    match value {
        Value::Null => Target::Nothing,
        Value::Vertex(v) => Target::Entity(Oid::Vertex(*v)),
        Value::Edge(e) => Target::Entity(Oid::Edge(*e)),
        _ => Target::Other,
    }
}

/// What a name stands for, where the row has it.
pub(crate) fn bound(row: &[(Name, Value)], name: &Name) -> Option<Target>
    ensures { result ≡ spec.bound row.now name.now }
{
    for (known, value) in row {
        if known == name {
            return Some(stands_for(value));
        }
    }
    None
}

/// What a name stands for. One that the row hasn't is null.
pub(crate) fn target_of(row: &[(Name, Value)], name: &Name) -> Target
    ensures { result ≡ spec.target_of row.now name.now }
{
    match bound(row, name) {
        Some(target) => target,
        None => Target::Nothing,
    }
}

pub(crate) fn is_alive<G: GraphRead>(x: Oid, graph: &mut G) -> Result<bool, EvalRefused>
    ensures { Evaluates G.stands G.follows (λ g. Ok (spec.is_alive g x))
        graph.old graph.new result }
{
    match x {
        Oid::Vertex(v) => Ok(graph.vertex(v)?.is_some()),
        Oid::Edge(e) => Ok(graph.edge(e)?.is_some()),
    }
}

/// What is there, or else gone.
pub(crate) fn alive<G: GraphRead>(x: Oid, graph: &mut G) -> Result<Oid, EvalRefused>
    ensures { Evaluates G.stands G.follows (λ g. spec.alive g x) graph.old graph.new result }
{
    if is_alive(x, graph)? {
        Ok(x)
    } else {
        Err(EvalRefused::Gone(x))
    }
}
