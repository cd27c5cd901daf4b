ghost use Rattle.std.specs.Prelude.{◌≡◌, ◌<◌, ◌++◌, ◌∷◌, [], IfErr, IfOk, IfSome, OnErr, OnOk, length, map, slice_get, slice_set, ℕ};
ghost use Rattle.std.specs.Arc.{arc_value};
ghost use Rattle.std.specs.Option.{option_copied, option_map};
ghost use Rattle.anchor_store.specs.Blocks.{newest_of, staying};
ghost use Rattle.history_keeper.specs.Counted.{counts_of};
ghost use Rattle.history_keeper.specs.Rows.{AreInOrder, empty_row, extended, located, row_of};

use crate::row::Row;
use crate::{Counts, NoMemory};
use anchor_store::Block;
use std::alloc::{AllocError, Global};
use std::marker::Model;
use std::sync::Arc;
use undo_law::Undo;

/// The blocks of all objects, by the numbers of their rows. Contracts see the list of the rows.
#[derive(Drop)]
pub struct Keeper<U: Undo> {
    rows: Vec<Row<U>>,
    counts: Counts,
}

impl<U: Undo> Model for Keeper<U> {
    ghost use Rattle.std.specs.Prelude.{◌≡◌, List};
    ghost use Rattle.history_keeper.specs.Rows.{RowParts};
    ghost use Rattle.history_keeper.specs.Counted.{counts_of};

    ghost Value = { List (RowParts U.Object U.Delta) };

    ghost view = { λ k. k.rows.items };

    ghost invariant = { λ k. k.counts ≡ counts_of k.rows.items };
}

impl<U: Undo> Keeper<U> {
    /// No row. Takes no memory.
    pub fn new(alloc: Global) -> Keeper<U>
        ensures { result ≡ [] }
    {
        Keeper {
            rows: Vec::new(alloc),
            counts: Counts::NOTHING,
        }
    }

    /// The number of rows. Takes no memory.
    pub fn rows(&self) -> u64
        ensures { result ≡ length self.now }
    {
        self.rows.len() as u64
    }

    /// Adds a row without blocks, of the cut 0, and gives its number. Without memory the rows stay as they were.
    pub fn add_row(&mut self, alloc: Global) -> Result<u64, NoMemory>
        ensures number { IfOk result (λ row. row ≡ length self.old) }
        ensures ok { OnOk result (self.new ≡ self.old ++ empty_row ∷ []) }
        ensures err { OnErr result (self.new ≡ self.old) }
    {
        let row = self.rows.len() as u64;
        self.rows.push(Row::new(alloc))?;
        Ok(row)
    }

    /// The oldest block of the row that has a delta later than t. Takes no memory, and looks at no more blocks than the
    /// logarithm of their number.
    pub fn locate(&self, row: u64, t: u64) -> Option<&Arc<Block<U>>>
        requires { row < length self.now }
        ensures value { option_map arc_value (option_copied result)
            ≡ located t (row_of self.now row).blocks }
        ensures in_order { AreInOrder (row_of self.now row).blocks }
    {
        self.rows[row as usize].locate(t)
    }

    /// The newest block of the row. Takes no memory.
    pub fn newest(&self, row: u64) -> Option<&Arc<Block<U>>>
        requires { row < length self.now }
        ensures { option_map arc_value (option_copied result)
            ≡ newest_of (row_of self.now row).blocks }
    {
        self.rows[row as usize].newest()
    }

    /// The block of the row at a place, counted from the oldest, None exactly past the last. Takes no memory.
    pub fn block(&self, row: u64, place: u64) -> Option<&Arc<Block<U>>>
        requires { row < length self.now }
        ensures { option_map arc_value (option_copied result)
            ≡ slice_get (row_of self.now row).blocks place }
    {
        self.rows[row as usize].block(place)
    }

    /// The cut of the row. Takes no memory.
    pub fn cut(&self, row: u64) -> u64
        requires { row < length self.now }
        ensures value { result ≡ (row_of self.now row).cut }
        ensures in_order { AreInOrder (row_of self.now row).blocks }
    {
        self.rows[row as usize].cut()
    }

    /// How many deltas and blocks there are in all rows. Takes no memory, and costs the same at any size.
    pub fn counts(&self) -> Counts
        ensures { result ≡ counts_of self.now }
    {
        self.counts
    }

    /// Drops the newest block of the row where it is replaced, puts the blocks behind the others, and sets the cut. A
    /// refusal hands the blocks back and changes nothing. Counts that would pass 2^64 are refused for want of memory too.
    pub fn extend(
        &mut self,
        row: u64,
        replaces: bool,
        blocks: Vec<Arc<Block<U>>>,
        cut: u64,
    ) -> Result<(), (Vec<Arc<Block<U>>>, NoMemory)>
        requires row { row < length self.old }
        requires order { AreInOrder
            (staying replaces (row_of self.old row).blocks ++ map arc_value blocks.items) }
        ensures ok { OnOk result (self.new ≡ slice_set self.old row
            (extended replaces (map arc_value blocks.items) cut (row_of self.old row))) }
        ensures err { OnErr result (self.new ≡ self.old) }
        ensures handed_back { IfErr result (λ refused. refused.0.items ≡ blocks.items) }
    {
        let Some(counts) = self.counts_after(row, replaces, blocks.as_slice()) else {
            return Err((blocks, AllocError));
        };
        self.rows[row as usize].extend(replaces, blocks, cut)?;
        self.counts = counts;
        Ok(())
    }

    /// The counts once a row was extended, None where they would pass 2^64.
    fn counts_after(&self, row: u64, replaces: bool, blocks: &[Arc<Block<U>>]) -> Option<Counts>
        requires { row < length self.now }
        ensures { IfSome result (λ counts. (cut : ℕ) → counts ≡ counts_of (slice_set self.now row
            (extended replaces (map arc_value blocks.now) cut (row_of self.now row)))) }
    {
        let leaving = self.rows[row as usize].leaving(replaces);
        let coming = Counts::of(blocks)?;
        self.counts.changed(&leaving, &coming)
    }
}
