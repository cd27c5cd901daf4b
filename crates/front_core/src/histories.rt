ghost use Rattle.std.specs.Prelude.{◌≡◌, ◌≤◌, ◌++◌, [], IfErr, IfOk, OnErr, OnOk, is_some, map};
ghost use Rattle.std.specs.Arc.{arc_value};
ghost use Rattle.std.specs.Option.{option_copied, option_map};
ghost use Rattle.undo_delta.specs.Apply.{after};
ghost use Rattle.anchor_store.specs.Blocks.{newest_of, smaller_than, staying};
ghost use Rattle.anchor_store.specs.Found.{found_object};
ghost use Rattle.history_keeper.specs.Rows.{AreInOrder, extended, located};
ghost use Rattle.rebuild.specs.Line.{LeadsOn, version_of};
ghost use Rattle.front_core.specs.Books.{MOST_DELTAS};
ghost use Rattle.front_core.specs.Histories.{Moved, Unchanged, all_counts, history_at};

use crate::NoMemory;
use crate::history::History;
use anchor_store::{Block, Found};
use graph_record::Object;
use graph_value::Oid;
use history_keeper::Counts;
use std::alloc::Global;
use std::sync::Arc;
use undo_delta::{GraphUndo, Op};
use version_chain::Chain;

/// The histories of all objects, found by their ids, in blocks of up to `interval` deltas.
#[derive(Drop)]
pub(crate) struct Histories {
    pub interval: u64,
    pub vertices: History,
    pub edges: History,
}

impl Histories {
    /// No history yet. The first vertex and the first edge that will have one have these numbers.
    pub fn new(alloc: Global, interval: u64, vertices: u64, edges: u64) -> Histories
        ensures { result ≡ record {
          interval = interval;
          vertices = record { first = vertices; rows = [] };
          edges = record { first = edges; rows = [] };
        } }
    {
        Histories {
            interval,
            vertices: History::new(alloc, vertices),
            edges: History::new(alloc, edges),
        }
    }

    /// The cut of an object.
    pub fn cut(&self, x: Oid) -> u64
        ensures { result ≡ (history_at self.now x).cut }
    {
        match x {
            Oid::Vertex(v) => self.vertices.cut(v.0),
            Oid::Edge(e) => self.edges.cut(e.0),
        }
    }

    /// The newest block of an object.
    fn newest(&self, x: Oid) -> Option<&Arc<Block<GraphUndo>>>
        ensures { option_map arc_value (option_copied result)
            ≡ newest_of (history_at self.now x).blocks }
    {
        match x {
            Oid::Vertex(v) => self.vertices.newest(v.0),
            Oid::Edge(e) => self.edges.newest(e.0),
        }
    }

    /// The newest block of an object, where it has room for a delta.
    pub fn block_with_room(&self, x: Oid) -> Result<Option<Arc<Block<GraphUndo>>>, NoMemory>
        ensures { IfOk result (λ block. option_map arc_value block
            ≡ smaller_than self.now.interval (newest_of (history_at self.now x).blocks)) }
    {
        match self.newest(x) {
            Some(block) if block.len() < self.interval => Ok(Some(Arc::try_clone(block)?)),
            _ => Ok(None),
        }
    }

    /// Whether the newest block of an object has room for a delta.
    pub fn has_room(&self, x: Oid) -> bool
        ensures { result
            ≡ is_some (smaller_than self.now.interval (newest_of (history_at self.now x).blocks)) }
    {
        match self.newest(x) {
            Some(block) => block.len() < self.interval,
            None => false,
        }
    }

    /// The oldest block of an object that has a delta later than t.
    pub fn locate(&self, x: Oid, t: u64) -> Option<&Arc<Block<GraphUndo>>>
        ensures value { option_map arc_value (option_copied result)
            ≡ located t (history_at self.now x).blocks }
        ensures in_order { AreInOrder (history_at self.now x).blocks }
    {
        match x {
            Oid::Vertex(v) => self.vertices.locate(v.0, t),
            Oid::Edge(e) => self.edges.locate(e.0, t),
        }
    }

    /// An object as it was at the instant t, or the block to rebuild it from.
    pub fn version(
        &self,
        alloc: Global,
        x: Oid,
        newest: &Object,
        chain: &Chain<GraphUndo>,
        t: u64,
    ) -> Result<Found<GraphUndo>, NoMemory>
        ensures { let blocks = (history_at self.now x).blocks in
            LeadsOn after newest.now chain.now.entries blocks → IfOk result (λ found.
            found_object after found ≡ version_of after newest.now chain.now.entries blocks t) }
    {
        match x {
            Oid::Vertex(v) => self.vertices.version(alloc, v.0, newest, chain, t),
            Oid::Edge(e) => self.edges.version(alloc, e.0, newest, chain, t),
        }
    }

    /// Adds the row of the object that the write makes, if it makes one. Without memory nothing changes.
    pub fn make(&mut self, alloc: Global, op: &Op) -> Result<(), NoMemory>
        ensures { Unchanged self.old self.new }
    {
        match op {
            Op::CreateVertex(_) => self.vertices.add(alloc),
            Op::CreateEdge { .. } => self.edges.add(alloc),
            _ => Ok(()),
        }
    }

    /// Puts blocks behind those of an object, the newest of which is replaced where it has room, and sets its cut. Without
    /// memory, or where the object has no row, the blocks come back and nothing changes.
    pub fn extend(
        &mut self,
        x: Oid,
        replaces: bool,
        blocks: Vec<Arc<Block<GraphUndo>>>,
        cut: u64,
    ) -> Result<(), Vec<Arc<Block<GraphUndo>>>>
        requires { AreInOrder
            (staying replaces (history_at self.old x).blocks ++ map arc_value blocks.items) }
        ensures ok { OnOk result (Moved self.old self.new x
            (extended replaces (map arc_value blocks.items) cut (history_at self.old x))) }
        ensures err { OnErr result (self.new ≡ self.old) }
        ensures handed_back { IfErr result (λ back. back.items ≡ blocks.items) }
    {
        match x {
            Oid::Vertex(v) => self.vertices.extend(v.0, replaces, blocks, cut),
            Oid::Edge(e) => self.edges.extend(e.0, replaces, blocks, cut),
        }
    }

    /// How many deltas and blocks there are. Takes no memory, and costs the same at any size.
    pub fn counts(&self) -> Counts
        requires deltas { (all_counts self.now).deltas ≤ MOST_DELTAS }
        requires blocks { (all_counts self.now).blocks ≤ MOST_DELTAS }
        ensures { result ≡ all_counts self.now }
    {
        let vertices = self.vertices.counts();
        let edges = self.edges.counts();
        Counts {
            deltas: vertices.deltas + edges.deltas,
            blocks: vertices.blocks + edges.blocks,
        }
    }
}
