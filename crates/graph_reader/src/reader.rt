ghost use Rattle.std.specs.Prelude.{◌≡◌, IfOk};
ghost use Rattle.graph_record.specs.Graph.{Graph, IsCoherent};
ghost use Rattle.graph_reader.specs.Alive.{vertex_in, edge_in, next_vertex_in};
ghost use Rattle.graph_reader.specs.Reading.{Reads};

use graph_record::{EdgeRecord, NoMemory, VertexRecord};
use graph_value::{EdgeId, VertexId};

/// A reader of a graph. What it stands for is a relation, since a reader over a store keeps no whole graph: each call
/// answers by every graph that the reader stands for, and leaves it standing for that graph. Each call also leaves it
/// following its state at entry, where it refuses too.
pub trait GraphRead {
    /// The reader stands for this graph.
    ghost stands: { Self → Graph → Type 0 };

    /// The second state follows the first by reading alone.
    ghost follows: { Self → Self → Type 0 };

    /// The least vertex that is alive above `after`, or the least of all.
    fn next_vertex(&mut self, after: Option<VertexId>) -> Result<Option<VertexId>, NoMemory>
        ensures { Reads stands follows (λ g r. IfOk r (λ v. v ≡ next_vertex_in g after))
            self.old self.new result };

    /// The record of the vertex, where it is alive.
    fn vertex(&mut self, v: VertexId) -> Result<Option<VertexRecord>, NoMemory>
        ensures { Reads stands follows (λ g r. IfOk r (λ o. o ≡ vertex_in g v))
            self.old self.new result };

    /// The record of the edge, where it is alive.
    fn edge(&mut self, e: EdgeId) -> Result<Option<EdgeRecord>, NoMemory>
        ensures { Reads stands follows (λ g r. IfOk r (λ o. o ≡ edge_in g e))
            self.old self.new result };

    /// Every state follows itself.
    ghost itself: { (r : Self) → follows r r };

    /// What follows a state that follows an earlier one follows that one too.
    ghost onward: { (a b c : Self) → follows a b → follows b c → follows a c };

    /// Each graph that a reader stands for is coherent.
    ghost coherent: { (r : Self) (g : Graph) → stands r g → IsCoherent g };
}
