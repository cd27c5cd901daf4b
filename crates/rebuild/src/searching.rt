ghost use Rattle.std.specs.Prelude.{◌≡◌, ◌<◌, IfOk, length};
ghost use Rattle.anchor_store.specs.Found.{found_object};
ghost use Rattle.history_keeper.specs.Rows.{located, row_of};
ghost use Rattle.rebuild.specs.Line.{LeadsOn, version_of};
ghost use Rattle.rebuild.specs.Search.{IsFound};
ghost use Rattle.version_chain.specs.Parts.{version as chain_version};

use crate::NoMemory;
use anchor_store::Found;
use history_keeper::Keeper;
use std::alloc::Global;
use std::sync::Arc;
use undo_law::Undo;
use version_chain::Chain;

/// The object as it was at the instant t, or the block to rebuild it from: that is the oldest of the row's that has a
/// later delta. Where none has, the deltas of the chain lead to it from the newest object.
pub fn version<U: Undo>(
    alloc: Global,
    newest: &U::Object,
    chain: &Chain<U>,
    keeper: &Keeper<U>,
    row: u64,
    t: u64,
) -> Result<Found<U>, NoMemory>
    requires { row < length keeper.now }
    ensures found { IfOk result (λ found. IsFound (located t (row_of keeper.now row).blocks)
        (chain_version U.after newest.now chain.now.entries t) t found) }
    ensures finishes { let blocks = (row_of keeper.now row).blocks in
        LeadsOn U.after newest.now chain.now.entries blocks → IfOk result (λ found.
        found_object U.after found ≡ version_of U.after newest.now chain.now.entries blocks t) }
{
    match keeper.locate(row, t) {
        Some(block) => Ok(Found::InBlock(Arc::try_clone(block)?, t)),
        None => Ok(Found::Ready(chain.version_at(alloc, newest, t)?)),
    }
}
