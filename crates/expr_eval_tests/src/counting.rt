ghost use Rattle.std.specs.Prelude.{◌≡◌, IfOk};
ghost use Rattle.expr_eval_tests.specs.Counting.{HasParts, SameParts, same_itself, same_onward};
ghost use Rattle.graph_reader.specs.Alive.{first_above};
ghost use Rattle.graph_reader.specs.Alive as above;
ghost use Rattle.graph_record.specs.Graph.{vertex_cmp, edge_cmp};
ghost use Rattle.std.specs.FinMap.{find};

use graph_reader::GraphRead;
use graph_record::{EdgeRecord, NoMemory, VertexRecord};
use graph_value::{EdgeId, VertexId};
use sqlite_items::Items;
use std::alloc::AllocError;

/// A reader over two lists. It counts what it is asked, and at one call it answers want of memory.
#[derive(Drop)]
pub struct CountingReader {
    pub vertices: Items<(VertexId, VertexRecord)>,
    pub edges: Items<(EdgeId, EdgeRecord)>,
    /// How often it was asked.
    pub asked: u64,
    /// The call that finds no memory, counted from 1.
    pub wanting: u64,
}

impl CountingReader {
    fn ask(&mut self) -> Result<(), NoMemory>
        ensures { SameParts self.old self.new }
    {
        self.asked = self.asked.saturating_add(1);
        if self.asked == self.wanting {
            Err(AllocError)
        } else {
            Ok(())
        }
    }

    fn found_vertex(&self, v: VertexId) -> Result<Option<VertexRecord>, NoMemory>
        ensures { IfOk result (λ r. r ≡ find vertex_cmp v self.now.vertices) }
    {
        for (known, record) in self.vertices.as_slice() {
            if known.0 == v.0 {
                return Ok(Some(record.copy()?));
            }
        }
        Ok(None)
    }

    fn found_edge(&self, e: EdgeId) -> Result<Option<EdgeRecord>, NoMemory>
        ensures { IfOk result (λ r. r ≡ find edge_cmp e self.now.edges) }
    {
        for (known, record) in self.edges.as_slice() {
            if known.0 == e.0 {
                return Ok(Some(record.copy()?));
            }
        }
        Ok(None)
    }

    fn above(&self, after: Option<VertexId>) -> Option<VertexId>
        ensures { result ≡ first_above after self.now.vertices }
    {
        for (known, _) in self.vertices.as_slice() {
            if is_above(after, *known) {
                return Some(*known);
            }
        }
        None
    }
}

fn is_above(after: Option<VertexId>, v: VertexId) -> bool
    ensures { result ≡ above.is_above after v }
{
    match after {
        None => true,
        Some(after) => after.0 < v.0,
    }
}

impl GraphRead for CountingReader {
    ghost stands = { HasParts };

    ghost follows = { SameParts };

    ghost itself = { same_itself };

    ghost onward = { same_onward };

    ghost coherent = { λ r g s. s.coherent };

    fn next_vertex(&mut self, after: Option<VertexId>) -> Result<Option<VertexId>, NoMemory> {
        self.ask()?;
        Ok(self.above(after))
    }

    fn vertex(&mut self, v: VertexId) -> Result<Option<VertexRecord>, NoMemory> {
        self.ask()?;
        self.found_vertex(v)
    }

    fn edge(&mut self, e: EdgeId) -> Result<Option<EdgeRecord>, NoMemory> {
        self.ask()?;
        self.found_edge(e)
    }
}
