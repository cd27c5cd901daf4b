ghost use Rattle.std.specs.Prelude.{◌≡◌};
ghost use Rattle.graph_record.specs.Graph.{IsCoherent, empty_graph};

mod reading;

use graph_record::{EdgeRecord, VertexRecord};
use graph_value::{EdgeId, VertexId};
use std::alloc::Global;
use std::marker::Model;

/// A graph: the vertices and the edges that are alive, each list ascending by id. Every graph is coherent: an edge comes
/// from a vertex exactly where that lists it among those that leave, and goes to one likewise. Contracts see the two lists.
#[derive(Debug, Drop)]
pub struct Graph {
    vertices: Vec<(VertexId, VertexRecord)>,
    edges: Vec<(EdgeId, EdgeRecord)>,
}

impl Model for Graph {
    ghost use Rattle.graph_record.specs.Graph.{Graph, IsCoherent};
    ghost use Rattle.graph_value.specs.contracts.value.Value as property_value;
    ghost use Rattle.std.specs.Coded.{codes};

    ghost Value = { Graph };

    ghost coded = { Prim.hlevel (codes, property_value.the_row.coded) };

    ghost view = { λ g. record { vertices = g.vertices.items; edges = g.edges.items } };

    ghost invariant = { λ g. IsCoherent
        (record { vertices = g.vertices.items; edges = g.edges.items }) };
}

impl Graph {
    /// The graph in which nothing is alive. Takes no memory.
    pub fn new(alloc: Global) -> Graph
        ensures { result ≡ empty_graph }
    {
        Graph {
            vertices: Vec::new(alloc),
            edges: Vec::new(alloc),
        }
    }

    /// The graph with these vertices and edges. Takes no memory.
    pub fn of(vertices: Vec<(VertexId, VertexRecord)>, edges: Vec<(EdgeId, EdgeRecord)>) -> Graph
        requires { IsCoherent (record { vertices = vertices.items; edges = edges.items }) }
        ensures { result ≡ record { vertices = vertices.items; edges = edges.items } }
    {
        Graph { vertices, edges }
    }
}
