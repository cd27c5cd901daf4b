//! Laws of the definitions, as contracts of functions that do nothing.
ghost use Rattle.std.specs.Prelude.{◌≡◌, Option, Some, None, true, false};
ghost use Rattle.graph_reader.specs.Alive.{IsLeastAbove, is_above, is_alive, next_vertex_in};
ghost use Rattle.graph_record.specs.Graph.{Graph, IsCoherent};
ghost use Rattle.graph_value.specs.declared.id.VertexId.{VertexId};

/// The next vertex of a coherent graph is the least that is alive above the other one, and there is none only where no
/// such vertex is alive.
pub fn the_next_vertex_is_the_least()
    ensures found { (g : Graph) (after : Option VertexId) (v : VertexId) → IsCoherent g →
        next_vertex_in g after ≡ Some v → IsLeastAbove g after v }
    ensures none { (g : Graph) (after : Option VertexId) → next_vertex_in g after ≡ None →
        (v : VertexId) → is_above after v ≡ true → is_alive g v ≡ false }
{}
