//! What stands there more than once.
ghost use Rattle.std.specs.Prelude.{◌≡◌, ◌∷◌, ◌++◌, [], not, filter, IfOk, OnOk};
ghost use Rattle.indexmap.specs.IndexSet.{contains, insert_key};
ghost use Rattle.write_ops.specs.Deleting as spec;

use graph_value::{NoMemory, Oid};
use indexmap::IndexSet;
use sqlite_items::Items;
use std::alloc::Global;

/// Notes an object, and tells whether it is new.
fn is_new(known: &mut IndexSet<Oid>, x: Oid) -> Result<bool, NoMemory>
    ensures new { IfOk result (λ new. new ≡ not (contains spec.same known.old x)) }
    ensures noted { OnOk result (known.new.keys ≡ insert_key spec.same known.old.keys x) }
{
    Ok(known.insert(x)?)
}

/// Each object at its first place.
pub(crate) fn firsts(alloc: Global, all: &[Oid]) -> Result<Items<Oid>, NoMemory>
    ensures { IfOk result (λ kept. kept ≡ spec.firsts all.now) }
{
    let mut known = IndexSet::new(alloc);
    let mut kept = Items::new(alloc);
    for x in all {
        if is_new(&mut known, *x)? {
            kept.push(*x)?;
        }
    }
    Ok(kept)
}
