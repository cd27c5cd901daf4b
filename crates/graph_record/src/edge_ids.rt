ghost use Rattle.std.specs.Prelude.{◌≡◌, ◌-◌, [], length, take, not, slice_get, IfOk, IfErr, OnOk, OnErr, IsOk, IsTrue};
ghost use Rattle.graph_record.specs.Ascending.{IsAscendingIds, edge_cmp};
ghost use Rattle.graph_record.specs.Edits.{has, added, removed, is_below};
ghost use Rattle.graph_record.specs.Place.{IsAt, IsGapFor, itself};

use crate::NoMemory;
use crate::shared::{Element, Shared};
use graph_value::EdgeId;
use std::alloc::Global;
use std::marker::Model;

/// Edges of a vertex, ascending, each once. Contracts see the list of their ids. A copy shares them: an edit of a list
/// that is shared copies it first, and may want memory for that. Only the greatest id is taken off without memory,
/// whoever shares the list, since the list is the first `len` of what it shares.
#[derive(Debug, Drop)]
pub struct EdgeIds {
    items: Shared<EdgeId>,
    len: usize,
}

impl Model for EdgeIds {
    ghost use Rattle.std.specs.Prelude.{List, ℕ, ◌≤◌, take, length};
    ghost use Rattle.graph_value.specs.declared.id.EdgeId.{EdgeId};
    ghost use Rattle.graph_record.specs.Ascending.{IsAscendingIds};

    ghost Value = { List EdgeId };

    ghost view = { λ e. take e.len e.items };

    ghost invariant = { λ e. (e.len ≤ length e.items) × IsAscendingIds (take e.len e.items) };
}

impl Element for EdgeId {
    fn copy_all(alloc: Global, items: &[EdgeId]) -> Result<Vec<EdgeId>, NoMemory> {
        Vec::from_slice(alloc, items)
    }
}

impl EdgeIds {
    pub fn new(alloc: Global) -> EdgeIds
        ensures { result ≡ [] }
    {
        EdgeIds {
            items: Shared::new(alloc),
            len: 0,
        }
    }

    /// How many edges there are.
    pub fn len(&self) -> usize
        ensures number { result ≡ length self.now }
        ensures ascending { IsAscendingIds self.now }
    {
        self.len
    }

    /// The ids, ascending.
    pub fn as_slice(&self) -> &[EdgeId]
        ensures value { result.now ≡ self.now }
        ensures ascending { IsAscendingIds self.now }
    {
        &self.items.as_slice()[..self.len]
    }

    /// Whether the edge is there.
    pub fn contains(&self, id: EdgeId) -> bool
        ensures { result ≡ has edge_cmp id self.now }
    {
        self.place(id).is_ok()
    }

    /// Puts the edge in its place, at the end where its id is the greatest, and says whether it is
    /// new. Only a new edge can want for memory, and then nothing changes.
    pub fn add(&mut self, id: EdgeId) -> Result<bool, NoMemory>
        ensures ok { OnOk result (self.new ≡ added edge_cmp id self.old) }
        ensures is_new { IfOk result (λ is_new. is_new ≡ not (has edge_cmp id self.old)) }
        ensures ascending { IsAscendingIds self.old }
        ensures err { OnErr result (self.new ≡ self.old) }
        ensures there { IsTrue (has edge_cmp id self.old) → IsOk result }
    {
        match self.place(id) {
            Ok(_) => Ok(false),
            Err(at) => {
                self.items.truncate(self.len)?;
                self.items.insert(at, id)?;
                self.len = self.items.as_slice().len();
                Ok(true)
            }
        }
    }

    /// Takes the edge away and says whether it was there. Only edges that are shared can want for memory, and then
    /// nothing changes.
    pub fn remove(&mut self, id: EdgeId) -> Result<bool, NoMemory>
        ensures ok { OnOk result (self.new ≡ removed edge_cmp id self.old) }
        ensures was_there { IfOk result (λ was_there. was_there ≡ has edge_cmp id self.old) }
        ensures ascending { IsAscendingIds self.old }
        ensures err { OnErr result (self.new ≡ self.old) }
    {
        match self.place(id) {
            Ok(at) => {
                self.items.truncate(self.len)?;
                self.items.remove(at)?;
                self.len = self.items.as_slice().len();
                Ok(true)
            }
            Err(_) => Ok(false),
        }
    }

    /// Takes the edge of the greatest id away, `None` where there is no edge. It takes no memory.
    pub fn pop(&mut self) -> Option<EdgeId>
        ensures last { result ≡ slice_get self.old (length self.old - 1) }
        ensures rest { self.new ≡ take (length self.old - 1) self.old }
    {
        let last = self.as_slice().last().copied();
        self.len = self.len.saturating_sub(1);
        last
    }

    /// Whether the id is greater than each that is there, so that it would stand at the end.
    pub fn is_below(&self, id: EdgeId) -> bool
        ensures { result ≡ is_below edge_cmp id self.now }
    {
        match self.as_slice().last() {
            Some(last) => last.0 < id.0,
            None => true,
        }
    }

    /// The same ids, shared. It allocates nothing: the error says that they have as many owners as can be counted.
    pub fn copy(&self) -> Result<EdgeIds, NoMemory>
        ensures { IfOk result (λ e. e ≡ self.now) }
    {
        Ok(EdgeIds {
            items: self.items.copy()?,
            len: self.len,
        })
    }

    // Where the edge stands, or where it would go.
    fn place(&self, id: EdgeId) -> Result<usize, usize>
        ensures found { IfOk result (IsAt edge_cmp itself id self.now) }
        ensures absent { IfErr result (IsGapFor edge_cmp itself id self.now) }
    {
        self.as_slice().binary_search_by(|known| known.0.cmp(&id.0))
    }
}
