//! What later parts may rest on.
ghost use Rattle.std.specs.Prelude.{◌≡◌, ℕ, ◌<◌, ◌++◌, List, is_some};
ghost use Rattle.undo_law.specs.Undone.{undone, deltas_of};
ghost use Rattle.undo_law.specs.declared.dated.Dated.{Dated};
ghost use Rattle.anchor_store.specs.Blocks.{AreAnchored, blocks, history_of, newest_of, older_deltas, smaller_than, staying};
ghost use Rattle.anchor_store.specs.Groups.{AreGroupsOf, groups};

use undo_law::Undo;

/// Groups joined again are the deltas, in their order. Each has 1 to k deltas, each but the newest has k, and no other
/// groups are so.
pub fn groups_part_the_deltas<D>()
    ensures so { (k : ℕ) (ds : List (Dated D)) → 0 < k → AreGroupsOf k ds (groups k ds) }
    ensures alone { (k : ℕ) (ds : List (Dated D)) (gs : List (List (Dated D))) →
        AreGroupsOf k ds gs → gs ≡ groups k ds }
{}

/// The deltas of the blocks of deltas are these again.
pub fn blocks_have_the_deltas<U: Undo>()
    ensures { (k : ℕ) (newest : U.Object) (ds : List (Dated U.Delta)) →
        history_of (blocks U.after k newest ds) ≡ ds }
{}

/// The anchor of a block is the object with all deltas of newer blocks undone.
pub fn anchors_are_led_to<U: Undo>()
    ensures { (k : ℕ) (newest : U.Object) (ds : List (Dated U.Delta)) →
        AreAnchored U.after newest (blocks U.after k newest ds) }
{}

/// Newer deltas change nothing but the newest block, and that only where it is smaller than the interval: the others
/// stay, and behind them stand the blocks of that one's deltas and the newer ones.
pub fn blocks_grow_at_the_newest<U: Undo>()
    ensures { (k : ℕ) (newest : U.Object) (newer history : List (Dated U.Delta)) →
        let before = blocks U.after k (undone U.after newest (deltas_of newer)) history in
        let filled = smaller_than k (newest_of before) in
        blocks U.after k newest (newer ++ history) ≡ staying (is_some filled) before
        ++ blocks U.after k newest (newer ++ older_deltas filled) }
{}
