ghost use Rattle.std.specs.Prelude.{◌≡◌};
ghost use Rattle.collector.specs.Sweeping.{first_of, rest_of, objects_below};
ghost use Rattle.collector.specs.Left.{left_of};

use graph_value::{EdgeId, Oid, VertexId};

/// The objects that a sweep has still to look at: each vertex from one number up to another, and then each edge.
#[derive(Clone, Copy, Debug)]
pub struct Left {
    pub vertex: u64,
    pub vertices: u64,
    pub edge: u64,
    pub edges: u64,
}

impl Left {
    /// All objects below two counters.
    pub fn below(vertices: u64, edges: u64) -> Left
        ensures { left_of result ≡ objects_below vertices edges }
    {
        Left {
            vertex: 0,
            vertices,
            edge: 0,
            edges,
        }
    }

    /// The next object.
    pub fn first(self) -> Option<Oid>
        ensures { result ≡ first_of (left_of self) }
    {
        if self.vertex < self.vertices {
            Some(Oid::Vertex(VertexId(self.vertex)))
        } else if self.edge < self.edges {
            Some(Oid::Edge(EdgeId(self.edge)))
        } else {
            None
        }
    }

    /// Those behind the next one.
    pub fn rest(self) -> Left
        ensures { left_of result ≡ rest_of (left_of self) }
    {
        if self.vertex < self.vertices {
            Left {
                vertex: self.vertex + 1,
                ..self
            }
        } else if self.edge < self.edges {
            Left {
                edge: self.edge + 1,
                ..self
            }
        } else {
            self
        }
    }
}
