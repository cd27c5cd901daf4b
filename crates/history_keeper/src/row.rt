ghost use Rattle.std.specs.Prelude.{◌≡◌, ◌++◌, ◌+◌, IfErr, OnErr, OnOk, length, map, slice_get};
ghost use Rattle.std.specs.Arc.{arc_value};
ghost use Rattle.std.specs.Option.{option_copied, option_map};
ghost use Rattle.anchor_store.specs.Blocks.{newest_of, staying};
ghost use Rattle.history_keeper.specs.Counted.{delta_count};
ghost use Rattle.history_keeper.specs.Rows.{AreInOrder, empty_row, extended, located};

use crate::{Counts, NoMemory};
use anchor_store::Block;
use std::alloc::Global;
use std::marker::Model;
use std::sync::Arc;
use undo_law::Undo;

/// The blocks of one object, the oldest first, and its cut. Contracts see the two.
#[derive(Drop)]
pub(crate) struct Row<U: Undo> {
    blocks: Vec<Arc<Block<U>>>,
    cut: u64,
}

impl<U: Undo> Model for Row<U> {
    ghost use Rattle.std.specs.Prelude.{map};
    ghost use Rattle.std.specs.Arc.{arc_value};
    ghost use Rattle.history_keeper.specs.Rows.{AreInOrder, RowParts};

    ghost Value = { RowParts U.Object U.Delta };

    ghost view = { λ r. record { cut = r.cut; blocks = map arc_value r.blocks.items } };

    ghost invariant = { λ r. AreInOrder (map arc_value r.blocks.items) };
}

impl<U: Undo> Row<U> {
    /// No block, and the cut 0. Takes no memory.
    pub fn new(alloc: Global) -> Row<U>
        ensures { result ≡ empty_row }
    {
        Row {
            blocks: Vec::new(alloc),
            cut: 0,
        }
    }

    /// The cut.
    pub fn cut(&self) -> u64
        ensures value { result ≡ self.now.cut }
        ensures in_order { AreInOrder self.now.blocks }
    {
        self.cut
    }

    /// The block of a place, counted from the oldest, None past the last.
    pub fn block(&self, place: u64) -> Option<&Arc<Block<U>>>
        ensures { option_map arc_value (option_copied result) ≡ slice_get self.now.blocks place }
    {
        if place < self.blocks.len() as u64 {
            Some(&self.blocks[place as usize])
        } else {
            None
        }
    }

    /// The newest block.
    pub fn newest(&self) -> Option<&Arc<Block<U>>>
        ensures { option_map arc_value (option_copied result) ≡ newest_of self.now.blocks }
    {
        self.block((self.blocks.len() as u64).saturating_sub(1))
    }

    /// The oldest block that has a delta later than t. Looks at no more blocks than the logarithm of their number.
    pub fn locate(&self, t: u64) -> Option<&Arc<Block<U>>>
        ensures value { option_map arc_value (option_copied result) ≡ located t self.now.blocks }
        ensures in_order { AreInOrder self.now.blocks }
    {
        let mut low = 0;
        let mut high = self.blocks.len();
        while low < high {
            let middle = low + (high - low) / 2;
            if self.blocks[middle].newest_stamp() <= t {
                low = middle + 1;
            } else {
                high = middle;
            }
        }
        self.block(low as u64)
    }

    /// What is gone once the newest block is replaced.
    pub fn leaving(&self, replaces: bool) -> Counts
        ensures deltas { result.deltas + delta_count (staying replaces self.now.blocks)
            ≡ delta_count self.now.blocks }
        ensures blocks { result.blocks + length (staying replaces self.now.blocks)
            ≡ length self.now.blocks }
    {
        if !replaces {
            return Counts::NOTHING;
        }
        match self.newest() {
            None => Counts::NOTHING,
            Some(block) => Counts {
                deltas: block.len(),
                blocks: 1,
            },
        }
    }

    /// Drops the newest block where it is replaced, puts the blocks behind the others, and sets the cut. It costs what it
    /// puts. Without memory the blocks come back, and the row stays as it was.
    pub fn extend(
        &mut self,
        replaces: bool,
        mut blocks: Vec<Arc<Block<U>>>,
        cut: u64,
    ) -> Result<(), (Vec<Arc<Block<U>>>, NoMemory)>
        requires { AreInOrder (staying replaces self.old.blocks ++ map arc_value blocks.items) }
        ensures ok { OnOk result
            (self.new ≡ extended replaces (map arc_value blocks.items) cut self.old) }
        ensures err { OnErr result (self.new ≡ self.old) }
        ensures handed_back { IfErr result (λ refused. refused.0.items ≡ blocks.items) }
    {
        let count = self.blocks.len();
        if let Err(refused) = self.blocks.append(&mut blocks) {
            return Err((blocks, refused));
        }
        if replaces && count > 0 {
            let _ = self.blocks.remove(count - 1);
        }
        self.cut = cut;
        Ok(())
    }
}
