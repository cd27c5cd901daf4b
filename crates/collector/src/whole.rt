ghost use Rattle.std.specs.Prelude.{◌≡◌, ℕ, List, true, IfOk};
ghost use Rattle.collector.specs.Whole.{Sweeps, all_moved};
ghost use Rattle.world_model.specs.History.{Entry, run};
ghost use Rattle.world_model.specs.World.{Start, start_world};

use crate::{NoMemory, Progress, Sweep, Swept};
use std::alloc::Global;
use world_model::GraphStore;

/// Sweeps until all objects are done, and sums up. Where nobody else acts, what has expired of each object when it begins
/// is moved, and it never comes too late.
///
/// The error says that memory was wanting; what was installed until then stays so.
pub fn sweep_all<S: GraphStore>(rt: &S::Rt, alloc: Global, store: &mut S) -> Result<Swept, NoMemory>
    ensures sweeps { Sweeps S.stands S.caller S.alone store.old store.new result }
    ensures moves { S.alone store.old ≡ true → (s : Start) (es : List Entry) →
        S.stands store.old s es →
        IfOk result (λ swept. swept ≡ all_moved (run (start_world s) es)) }
    ensures stays { S.running store.new ≡ S.running store.old }
{
    let mut sweep = Sweep::new();
    let mut swept = Swept::nothing();
    loop {
        let progress = sweep.advance(rt, alloc, store)?;
        if let Progress::End(_) = progress {
            return Ok(swept);
        }
        swept.add(progress);
    }
}
