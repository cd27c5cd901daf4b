//! A graph as a reader of itself.
ghost use Rattle.std.specs.Prelude.{◌≡◌, IfOk, IfErr, refl, slice_get, option_map};
ghost use Rattle.std.proofs.Common.{◌∙◌};
ghost use Rattle.graph_record.specs.Graph.{IsCoherent, vertex_cmp, edge_cmp};
ghost use Rattle.graph_reader.specs.Alive.{vertex_in, edge_in, next_vertex_in};
ghost use Rattle.graph_record.specs.Place.{IsAt, IsGapFor, key_of};

use crate::{Graph, GraphRead};
use graph_record::{EdgeRecord, NoMemory, VertexRecord};
use graph_value::{EdgeId, VertexId};
use sqlite_items::at as at_place;

impl Graph {
    // Where the vertex stands, or where it would go.
    fn vertex_place(&self, v: VertexId) -> Result<usize, usize>
        ensures found { IfOk result (IsAt vertex_cmp key_of v self.now.vertices) }
        ensures absent { IfErr result (IsGapFor vertex_cmp key_of v self.now.vertices) }
    {
        self.vertices
            .as_slice()
            .binary_search_by(|(known, _)| known.cmp(&v))
    }

    // Where the edge stands, or where it would go.
    fn edge_place(&self, e: EdgeId) -> Result<usize, usize>
        ensures found { IfOk result (IsAt edge_cmp key_of e self.now.edges) }
        ensures absent { IfErr result (IsGapFor edge_cmp key_of e self.now.edges) }
    {
        self.edges
            .as_slice()
            .binary_search_by(|(known, _)| known.cmp(&e))
    }

    fn record_of(&self, v: VertexId) -> Result<Option<VertexRecord>, NoMemory>
        ensures { IfOk result (λ o. o ≡ vertex_in self.now v) }
    {
        match self.vertex_place(v) {
            Ok(at) => Ok(Some(self.vertices.as_slice()[at].1.copy()?)),
            Err(_) => Ok(None),
        }
    }

    fn edge_record_of(&self, e: EdgeId) -> Result<Option<EdgeRecord>, NoMemory>
        ensures { IfOk result (λ o. o ≡ edge_in self.now e) }
    {
        match self.edge_place(e) {
            Ok(at) => Ok(Some(self.edges.as_slice()[at].1.copy()?)),
            Err(_) => Ok(None),
        }
    }

    // Where the first vertex above the one stands.
    fn place_above(&self, v: VertexId) -> usize
        ensures { option_map key_of (slice_get self.now.vertices result)
            ≡ next_vertex_in self.now (Some v) }
    {
        let _ = self.vertices.as_slice();
        match self.vertex_place(v) {
            Ok(at) => at + 1,
            Err(at) => at,
        }
    }

    fn vertex_at(&self, at: usize) -> Option<VertexId>
        ensures { result ≡ option_map key_of (slice_get self.now.vertices at) }
    {
        match at_place(self.vertices.as_slice(), at) {
            Some((v, _)) => Some(*v),
            None => None,
        }
    }

    fn above(&self, after: Option<VertexId>) -> Option<VertexId>
        ensures { result ≡ next_vertex_in self.now after }
    {
        match after {
            None => self.vertex_at(0),
            Some(v) => self.vertex_at(self.place_above(v)),
        }
    }
}

/// Reading changes nothing.
impl GraphRead for Graph {
    ghost stands = { λ r g. (r ≡ g) × IsCoherent g };

    ghost follows = { λ a b. a ≡ b };

    ghost itself = { λ r. refl };

    ghost onward = { λ a b c h k. h ∙ k };

    ghost coherent = { λ r g s. s.1 };

    fn next_vertex(&mut self, after: Option<VertexId>) -> Result<Option<VertexId>, NoMemory> {
        Ok(self.above(after))
    }

    fn vertex(&mut self, v: VertexId) -> Result<Option<VertexRecord>, NoMemory> {
        self.record_of(v)
    }

    fn edge(&mut self, e: EdgeId) -> Result<Option<EdgeRecord>, NoMemory> {
        self.edge_record_of(e)
    }
}
