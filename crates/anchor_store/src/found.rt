ghost use Rattle.std.specs.Prelude.{◌≡◌, ◌+◌, ◌≤◌, ◌<◌, IfOk, OnOk};
ghost use Rattle.std.specs.Arc.{arc_value};
ghost use Rattle.anchor_store.specs.Blocks.{version};
ghost use Rattle.anchor_store.specs.Found.{found_object, found_steps, most_steps};

use crate::{Block, NoMemory};
use std::alloc::Global;
use std::marker::Brand;
use std::sync::Arc;
use std::sync::ledger::{Blank, Ledger};
use undo_law::{Steps, Undo};

/// What a read found: the object, or the block to rebuild it from.
#[derive(Drop)]
pub enum Found<U: Undo> {
    Ready(U::Object),
    /// The object is what this block has at the instant.
    InBlock(Arc<Block<U>>, u64),
}

/// The object that was found. It waits for nobody; what it applies is counted, and is nothing where the object is ready.
pub fn finish<U: Undo, L: Ledger>(
    alloc: Global,
    found: Found<U>,
    steps: &mut Steps<L>,
) -> Result<U::Object, NoMemory>
    ensures object { IfOk result (λ object. object ≡ found_object U.after found) }
    ensures steps { OnOk result (steps.new ≡ steps.old + found_steps found) }
    ensures bound { steps.new ≤ steps.old + most_steps found }
{
    match found {
        Found::Ready(object) => Ok(object),
        Found::InBlock(block, t) => block.rebuild(alloc, t, steps),
    }
}

/// Finishes what was found; the steps are counted in a count of their own.
fn counted<U: Undo, L: Ledger>(
    alloc: Global,
    blank: Blank,
    found: Found<U>,
) -> Result<U::Object, NoMemory>
    requires name { blank.name ≡ L.name }
    requires parts { blank.parts ≡ L.parts }
    requires some { 0 < L.parts }
    ensures { IfOk result (λ object. object ≡ found_object U.after found) }
{
    let mut steps = Steps::<L>::open(blank);
    finish(alloc, found, &mut steps)
}

/// The object that was found, for a caller who doesn't ask how many deltas were applied. It needs no store, and keeps
/// nobody waiting.
///
/// The error says that memory was wanting.
pub fn finished<U: Undo>(alloc: Global, found: Found<U>) -> Result<U::Object, NoMemory>
    ensures { IfOk result (λ object. object ≡ found_object U.after found) }
{
    counted::<U, Brand>(alloc, Blank::new(1), found)
}
