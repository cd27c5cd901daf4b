ghost use Rattle.std.specs.Prelude.{◌≡◌, ◌+◌, ◌-◌, ◌≤◌, IfSome, length, map};
ghost use Rattle.std.specs.Arc.{arc_value};

use anchor_store::Block;
use std::sync::Arc;
use undo_law::Undo;

/// How many deltas and blocks there are.
#[derive(Clone, Copy, Debug, PartialEq, Eq)]
pub struct Counts {
    pub deltas: u64,
    pub blocks: u64,
}

impl Counts {
    ghost use Rattle.history_keeper.specs.Counted.{delta_count};

    /// Neither deltas nor blocks.
    pub(crate) const NOTHING: Counts = Counts {
        deltas: 0,
        blocks: 0,
    };

    /// The counts once some are gone and some have come, None where they would pass 2^64.
    pub(crate) fn changed(&self, leaving: &Counts, coming: &Counts) -> Option<Counts>
        requires deltas { leaving.now.deltas ≤ self.now.deltas }
        requires blocks { leaving.now.blocks ≤ self.now.blocks }
        ensures deltas { IfSome result (λ counts.
            counts.deltas + leaving.now.deltas ≡ self.now.deltas + coming.now.deltas) }
        ensures blocks { IfSome result (λ counts.
            counts.blocks + leaving.now.blocks ≡ self.now.blocks + coming.now.blocks) }
    {
        let deltas = (self.deltas - leaving.deltas).checked_add(coming.deltas)?;
        let blocks = (self.blocks - leaving.blocks).checked_add(coming.blocks)?;
        Some(Counts { deltas, blocks })
    }

    /// The counts of these blocks, None where they would pass 2^64.
    pub(crate) fn of<U: Undo>(blocks: &[Arc<Block<U>>]) -> Option<Counts>
        ensures deltas { IfSome result (λ counts.
            counts.deltas ≡ delta_count (map arc_value blocks.now)) }
        ensures blocks { IfSome result (λ counts. counts.blocks ≡ length blocks.now) }
    {
        let mut deltas = 0u64;
        for block in blocks {
            deltas = deltas.checked_add(block.len())?;
        }
        Some(Counts {
            deltas,
            blocks: blocks.len() as u64,
        })
    }
}
