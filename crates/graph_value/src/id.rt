ghost use Rattle.std.specs.Prelude.{Some};
ghost use Rattle.graph_value.specs.Id.{vertex_text, edge_text, oid_text};

use std::fmt;

/// The number of a vertex, from 0. A number is given once and never again.
#[derive(Clone, Copy, Debug, PartialEq, Eq, PartialOrd, Ord, Hash)]
pub struct VertexId(pub u64);

/// The number of an edge, from 0, counted apart from the vertices.
#[derive(Clone, Copy, Debug, PartialEq, Eq, PartialOrd, Ord, Hash)]
pub struct EdgeId(pub u64);

/// The name of an object of the graph.
#[derive(Clone, Copy, Debug, PartialEq, Eq, PartialOrd, Ord, Hash)]
pub enum Oid {
    Vertex(VertexId),
    Edge(EdgeId),
}

/// Prints as `v0`.
impl fmt::Display for VertexId {
    ghost output = { λ v. Some (vertex_text v) };

    fn fmt<W: fmt::Write>(&self, f: &mut fmt::Formatter<W>) -> fmt::Result {
        let number = self.0;
        write!(f, "v{number}")
    }
}

/// Prints as `e0`.
impl fmt::Display for EdgeId {
    ghost output = { λ e. Some (edge_text e) };

    fn fmt<W: fmt::Write>(&self, f: &mut fmt::Formatter<W>) -> fmt::Result {
        let number = self.0;
        write!(f, "e{number}")
    }
}

/// Prints as the id that it holds.
impl fmt::Display for Oid {
    ghost output = { λ x. Some (oid_text x) };

    fn fmt<W: fmt::Write>(&self, f: &mut fmt::Formatter<W>) -> fmt::Result {
        match self {
            Oid::Vertex(v) => write!(f, "{v}"),
            Oid::Edge(e) => write!(f, "{e}"),
        }
    }
}
