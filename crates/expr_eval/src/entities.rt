//! What is asked of a vertex or an edge.
ghost use Rattle.std.specs.Prelude.{◌≡◌, IfOk, map};
ghost use Rattle.std.specs.List.{list_all};
ghost use Rattle.graph_value.specs.declared.value.Value.TheVariants as value;
ghost use Rattle.expr_eval.specs.Entities.{vertex_alive, edge_alive, property_of, property, has_labels, labelled, texts, keys_of, labels_of, keys, kind_of, start_of, end_of};
ghost use Rattle.expr_eval.specs.Outcome.{Evaluates, Answers, and_then};

use crate::EvalRefused;
use crate::size::sized_list;
use graph_reader::GraphRead;
use graph_record::{EdgeRecord, Labels, Properties, VertexRecord};
use graph_value::{EdgeId, Name, NoMemory, Oid, Text, Value, VertexId};
use sqlite_items::Items;
use std::alloc::Global;

fn vertex_record<G: GraphRead>(v: VertexId, graph: &mut G) -> Result<VertexRecord, EvalRefused>
    ensures { Evaluates G.stands G.follows (λ g. vertex_alive g v) graph.old graph.new result }
{
    match graph.vertex(v)? {
        Some(record) => Ok(record),
        None => Err(EvalRefused::Gone(Oid::Vertex(v))),
    }
}

fn edge_record<G: GraphRead>(e: EdgeId, graph: &mut G) -> Result<EdgeRecord, EvalRefused>
    ensures { Evaluates G.stands G.follows (λ g. edge_alive g e) graph.old graph.new result }
{
    match graph.edge(e)? {
        Some(record) => Ok(record),
        None => Err(EvalRefused::Gone(Oid::Edge(e))),
    }
}

/// The property, or null where there is none of that name.
fn found(alloc: Global, props: &Properties, name: &Name) -> Result<Value, NoMemory>
    ensures { IfOk result (λ v. v ≡ property_of props.now name.now) }
{
    match props.get(name.as_str()) {
        Some(value) => value.copy(alloc),
        None => Ok(Value::Null),
    }
}

/// What `.name` gives.
#[tactic(auto, unfolding(crate::specs::Entities::property))]
pub(crate) fn property<G: GraphRead>(
    alloc: Global,
    name: &Name,
    value: &Value,
    graph: &mut G,
) -> Result<Value, EvalRefused>
    ensures { Evaluates G.stands G.follows (λ g. property g name.now value.now)
        graph.old graph.new result }
{
    match value {
        Value::Null => Ok(Value::Null),
        Value::Vertex(v) => Ok(found(alloc, &vertex_record(*v, graph)?.props, name)?),
        Value::Edge(e) => Ok(found(alloc, &edge_record(*e, graph)?.props, name)?),
        _ => Err(EvalRefused::TypeFault),
    }
}

fn has_labels(labels: &Labels, names: &[Name]) -> bool
    ensures { result ≡ has_labels labels.now names.now }
{
    for name in names {
        if !labels.contains(name.as_str()) {
            return false;
        }
    }
    true
}

/// What `:label` gives.
#[tactic(auto, unfolding(crate::specs::Entities::labelled))]
pub(crate) fn labelled<G: GraphRead>(
    names: &[Name],
    value: &Value,
    graph: &mut G,
) -> Result<Value, EvalRefused>
    ensures { Evaluates G.stands G.follows (λ g. labelled g names.now value.now)
        graph.old graph.new result }
{
    match value {
        Value::Null => Ok(Value::Null),
        Value::Vertex(v) => {
            let record = vertex_record(*v, graph)?;
            Ok(Value::Bool(has_labels(&record.labels, names)))
        }
        _ => Err(EvalRefused::TypeFault),
    }
}

/// A list of names as texts.
fn texts(alloc: Global, names: &[Name]) -> Result<Value, EvalRefused>
    ensures { Answers (texts names.now) result }
{
    let mut items = Items::new(alloc);
    for name in names {
        items.push(Value::Text(Text::from_str(alloc, name.as_str())?))?;
    }
    sized_list(items)
}

fn keys_of(alloc: Global, props: &[(Name, Value)]) -> Result<Value, EvalRefused>
    ensures { Answers (keys_of props.now) result }
{
    let mut items = Items::new(alloc);
    for (name, _) in props {
        items.push(Value::Text(Text::from_str(alloc, name.as_str())?))?;
    }
    sized_list(items)
}

/// What `labels` gives.
#[tactic(auto, unfolding(crate::specs::Entities::labels_of))]
pub(crate) fn labels_of<G: GraphRead>(
    alloc: Global,
    value: &Value,
    graph: &mut G,
) -> Result<Value, EvalRefused>
    ensures { Evaluates G.stands G.follows (λ g. labels_of g value.now)
        graph.old graph.new result }
{
    match value {
        Value::Null => Ok(Value::Null),
        Value::Vertex(v) => texts(alloc, vertex_record(*v, graph)?.labels.as_slice()),
        _ => Err(EvalRefused::TypeFault),
    }
}

/// What `keys` gives.
#[tactic(auto, unfolding(crate::specs::Entities::keys))]
pub(crate) fn keys<G: GraphRead>(
    alloc: Global,
    value: &Value,
    graph: &mut G,
) -> Result<Value, EvalRefused>
    ensures { Evaluates G.stands G.follows (λ g. keys g value.now) graph.old graph.new result }
{
    match value {
        Value::Null => Ok(Value::Null),
        Value::Vertex(v) => keys_of(alloc, vertex_record(*v, graph)?.props.as_slice()),
        Value::Edge(e) => keys_of(alloc, edge_record(*e, graph)?.props.as_slice()),
        _ => Err(EvalRefused::TypeFault),
    }
}

/// What `type` gives.
#[tactic(auto, unfolding(crate::specs::Entities::kind_of))]
pub(crate) fn kind_of<G: GraphRead>(
    alloc: Global,
    value: &Value,
    graph: &mut G,
) -> Result<Value, EvalRefused>
    ensures { Evaluates G.stands G.follows (λ g. kind_of g value.now) graph.old graph.new result }
{
    match value {
        Value::Null => Ok(Value::Null),
        Value::Edge(e) => {
            let record = edge_record(*e, graph)?;
            Ok(Value::Text(Text::from_str(alloc, record.kind.as_str())?))
        }
        _ => Err(EvalRefused::TypeFault),
    }
}

/// What `startNode` gives.
#[tactic(auto, unfolding(crate::specs::Entities::start_of))]
pub(crate) fn start_of<G: GraphRead>(value: &Value, graph: &mut G) -> Result<Value, EvalRefused>
    ensures { Evaluates G.stands G.follows (λ g. start_of g value.now) graph.old graph.new result }
{
    match value {
        Value::Null => Ok(Value::Null),
        Value::Edge(e) => Ok(Value::Vertex(edge_record(*e, graph)?.from)),
        _ => Err(EvalRefused::TypeFault),
    }
}

/// What `endNode` gives.
#[tactic(auto, unfolding(crate::specs::Entities::end_of))]
pub(crate) fn end_of<G: GraphRead>(value: &Value, graph: &mut G) -> Result<Value, EvalRefused>
    ensures { Evaluates G.stands G.follows (λ g. end_of g value.now) graph.old graph.new result }
{
    match value {
        Value::Null => Ok(Value::Null),
        Value::Edge(e) => Ok(Value::Vertex(edge_record(*e, graph)?.to)),
        _ => Err(EvalRefused::TypeFault),
    }
}
