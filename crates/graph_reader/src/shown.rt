ghost use Rattle.std.specs.Prelude.{◌≡◌};
ghost use Rattle.graph_reader.specs.Reading.{Reads};
ghost use Rattle.graph_reader.specs.Shown.{Shows, shown_of, shown_list_of, vertex_shown, edge_shown};

use crate::GraphRead;
use graph_record::{Kind, Labels, NoMemory, Properties};
use graph_value::{EdgeId, Oid, Text, Value, VertexId};
use sqlite_items::Items;
use std::alloc::{AllocError, Global};

/// A value of a row as it is shown: each entity in it has its record in its place.
#[derive(Drop)]
pub enum Shown {
    Null,
    Bool(bool),
    Int(i64),
    Text(Text),
    List(Items<Shown>),
    Vertex {
        id: VertexId,
        labels: Labels,
        props: Properties,
    },
    Edge {
        id: EdgeId,
        kind: Kind,
        from: VertexId,
        to: VertexId,
        props: Properties,
    },
}

/// Why a value isn't shown.
#[derive(Clone, Copy, Debug, PartialEq, Eq)]
pub enum ShowRefused {
    /// This entity isn't alive. It is the first such one in reading order.
    Gone(Oid),
    /// Memory was wanting.
    NoMemory,
}

impl From<AllocError> for ShowRefused {
    ghost use Rattle.graph_reader.specs.declared.shown.ShowRefused.TheVariants.{NoMemory as Wanting};

    ghost from_gives = { λ _ e. e ≡ Wanting };

    fn from(_: AllocError) -> ShowRefused {
        ShowRefused::NoMemory
    }
}

/// The value with the record of each entity in its place, as the graph has it.
#[cycle(show)]
pub fn show<G: GraphRead>(alloc: Global, value: &Value, graph: &mut G) -> Result<Shown, ShowRefused>
    ensures { Reads G.stands G.follows (λ g. Shows (shown_of g value.now)) graph.old graph.new result }
{
    match value {
        Value::Null => Ok(Shown::Null),
        Value::Bool(b) => Ok(Shown::Bool(*b)),
        Value::Int(n) => Ok(Shown::Int(*n)),
        Value::Text(text) => Ok(Shown::Text(text.copy(alloc)?)),
        Value::List(items) => show_list(alloc, items.as_slice(), graph),
        Value::Vertex(id) => show_vertex(*id, graph),
        Value::Edge(id) => show_edge(*id, graph),
    }
}

#[cycle(show)]
fn show_list<G: GraphRead>(
    alloc: Global,
    items: &[Value],
    graph: &mut G,
) -> Result<Shown, ShowRefused>
    ensures { Reads G.stands G.follows (λ g. Shows (shown_list_of g items.now)) graph.old graph.new result }
{
    let mut shown = Items::new(alloc);
    for item in items {
        shown.push(show(alloc, item, graph)?)?;
    }
    Ok(Shown::List(shown))
}

fn show_vertex<G: GraphRead>(id: VertexId, graph: &mut G) -> Result<Shown, ShowRefused>
    ensures { Reads G.stands G.follows (λ g. Shows (vertex_shown g id)) graph.old graph.new result }
{
    match graph.vertex(id)? {
        Some(record) => Ok(Shown::Vertex {
            id,
            labels: record.labels,
            props: record.props,
        }),
        None => Err(ShowRefused::Gone(Oid::Vertex(id))),
    }
}

fn show_edge<G: GraphRead>(id: EdgeId, graph: &mut G) -> Result<Shown, ShowRefused>
    ensures { Reads G.stands G.follows (λ g. Shows (edge_shown g id)) graph.old graph.new result }
{
    match graph.edge(id)? {
        Some(record) => Ok(Shown::Edge {
            id,
            kind: record.kind,
            from: record.from,
            to: record.to,
            props: record.props,
        }),
        None => Err(ShowRefused::Gone(Oid::Edge(id))),
    }
}
