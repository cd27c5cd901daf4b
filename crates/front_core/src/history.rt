ghost use Rattle.std.specs.Prelude.{◌≡◌, ◌<◌, ◌+◌, ◌++◌, [], ℕ, IfErr, IfNone, IfOk, IfSome, OnErr, OnOk, length, map};
ghost use Rattle.std.specs.Arc.{arc_value};
ghost use Rattle.std.specs.Option.{option_copied, option_map};
ghost use Rattle.undo_delta.specs.Apply.{after};
ghost use Rattle.anchor_store.specs.Blocks.{newest_of, staying};
ghost use Rattle.anchor_store.specs.Found.{found_object};
ghost use Rattle.history_keeper.specs.Counted.{counts_of};
ghost use Rattle.history_keeper.specs.Rows.{AreInOrder, empty_row, extended, located, row_of};
ghost use Rattle.rebuild.specs.Line.{LeadsOn, version_of};
ghost use Rattle.front_core.specs.History.{IsMoved, history_of};

use crate::NoMemory;
use anchor_store::{Block, Found};
use graph_record::Object;
use history_keeper::{Counts, Keeper};
use rebuild::version;
use std::alloc::Global;
use std::marker::Model;
use std::sync::Arc;
use undo_delta::GraphUndo;
use version_chain::Chain;

/// The histories of the objects of one kind, found by the objects' numbers. Contracts see the first number and the rows.
#[derive(Drop)]
pub(crate) struct History {
    first: u64,
    keeper: Keeper<GraphUndo>,
}

impl Model for History {
    ghost use Rattle.std.specs.Coded.{codes};
    ghost use Rattle.front_core.specs.History.{NumberedHistories};
    ghost use Rattle.graph_value.specs.contracts.value.Value as property_value;

    ghost Value = { NumberedHistories };

    ghost coded = { Prim.hlevel (codes, property_value.the_row.coded) };

    ghost view = { λ h. record { first = h.first; rows = h.keeper } };
}

impl History {
    /// No rows yet; the first one will be for this number.
    pub fn new(alloc: Global, first: u64) -> History
        ensures { result ≡ record { first = first; rows = [] } }
    {
        History {
            first,
            keeper: Keeper::new(alloc),
        }
    }

    /// The row of an object, `None` where it has none.
    fn row(&self, number: u64) -> Option<u64>
        ensures found { IfSome result (λ row. row < length self.now.rows) }
        ensures placed { IfSome result (λ row. number ≡ self.now.first + row) }
        ensures value { IfSome result (λ row.
            row_of self.now.rows row ≡ history_of self.now number) }
        ensures absent { IfNone result (history_of self.now number ≡ empty_row) }
    {
        if number < self.first {
            return None;
        }
        let row = number - self.first;
        if row < self.keeper.rows() {
            Some(row)
        } else {
            None
        }
    }

    /// The cut of an object.
    pub fn cut(&self, number: u64) -> u64
        ensures { result ≡ (history_of self.now number).cut }
    {
        match self.row(number) {
            Some(row) => self.keeper.cut(row),
            None => 0,
        }
    }

    /// The newest block of an object.
    pub fn newest(&self, number: u64) -> Option<&Arc<Block<GraphUndo>>>
        ensures { option_map arc_value (option_copied result)
            ≡ newest_of (history_of self.now number).blocks }
    {
        self.keeper.newest(self.row(number)?)
    }

    /// The oldest block of an object that has a delta later than t.
    pub fn locate(&self, number: u64, t: u64) -> Option<&Arc<Block<GraphUndo>>>
        ensures value { option_map arc_value (option_copied result)
            ≡ located t (history_of self.now number).blocks }
        ensures in_order { AreInOrder (history_of self.now number).blocks }
    {
        self.keeper.locate(self.row(number)?, t)
    }

    /// An object as it was at the instant t, or the block to rebuild it from.
    pub fn version(
        &self,
        alloc: Global,
        number: u64,
        newest: &Object,
        chain: &Chain<GraphUndo>,
        t: u64,
    ) -> Result<Found<GraphUndo>, NoMemory>
        ensures { let blocks = (history_of self.now number).blocks in
            LeadsOn after newest.now chain.now.entries blocks → IfOk result (λ found.
            found_object after found ≡ version_of after newest.now chain.now.entries blocks t) }
    {
        match self.row(number) {
            Some(row) => version(alloc, newest, chain, &self.keeper, row, t),
            None => Ok(Found::Ready(chain.version_at(alloc, newest, t)?)),
        }
    }

    /// How many deltas and blocks there are. Takes no memory, and costs the same at any size.
    pub fn counts(&self) -> Counts
        ensures { result ≡ counts_of self.now.rows }
    {
        self.keeper.counts()
    }

    /// Adds a row. Without memory nothing changes.
    pub fn add(&mut self, alloc: Global) -> Result<(), NoMemory>
        ensures rows { (n : ℕ) → history_of self.new n ≡ history_of self.old n }
        ensures first { self.new.first ≡ self.old.first }
    {
        self.keeper.add_row(alloc)?;
        Ok(())
    }

    /// Puts blocks behind those of an object, the newest of which is replaced, and sets its cut. Without memory, or where
    /// the object has no row, the blocks come back and nothing changes.
    pub fn extend(
        &mut self,
        number: u64,
        replaces: bool,
        blocks: Vec<Arc<Block<GraphUndo>>>,
        cut: u64,
    ) -> Result<(), Vec<Arc<Block<GraphUndo>>>>
        requires { AreInOrder
            (staying replaces (history_of self.old number).blocks ++ map arc_value blocks.items) }
        ensures ok { OnOk result (IsMoved self.old self.new number
            (extended replaces (map arc_value blocks.items) cut (history_of self.old number))) }
        ensures first { OnOk result (self.new.first ≡ self.old.first) }
        ensures err { OnErr result (self.new ≡ self.old) }
        ensures handed_back { IfErr result (λ back. back.items ≡ blocks.items) }
    {
        let Some(row) = self.row(number) else {
            return Err(blocks);
        };
        match self.keeper.extend(row, replaces, blocks, cut) {
            Ok(()) => Ok(()),
            Err((back, _)) => Err(back),
        }
    }
}
