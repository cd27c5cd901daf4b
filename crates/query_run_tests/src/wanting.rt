//! A store that finds no memory where it is wanted to.
ghost use Rattle.std.specs.Prelude.{◌≡◌};
ghost use Rattle.store_pass.specs.Alone.{solo_legal, solo_opened};

use graph_record::Object;
use graph_value::Oid;
use std::alloc::Global;
use store_pass::Solo;
use undo_delta::Ask;
use world_model::{
    GraphStore, InstallRefused, Kind, Lifted, Marked, Piece, Refused, Stats, Txn, When, Wrote,
};

/// A store that answers as the one that it owns, but for one of the writes that change nothing: there it finds no memory.
///
/// Such a write leaves the store as it is, and so does want of memory: so what is told is what the entry has.
#[derive(Drop)]
pub struct Wanting {
    solo: Solo,
    /// How many writes that change nothing come before the one that finds no memory.
    before: u64,
}

impl Wanting {
    /// The store, which finds no memory at the write that changes nothing behind so many others. Takes no memory.
    pub fn over(solo: Solo, before: u64) -> Wanting
        ensures { ⟦<Wanting as GraphStore>⟧.running result ≡ ⟦<Solo as GraphStore>⟧.running solo }
    {
        Wanting { solo, before }
    }

    /// Whether a write that changes nothing is the one that finds no memory. It is counted.
    fn wants(&mut self) -> bool
        ensures { self.new.solo ≡ self.old.solo }
    {
        let wants = self.before == 0;
        self.before = self.before.checked_sub(1).unwrap_or(u64::MAX);
        wants
    }
}

/// Each call is one of the owned store.
impl GraphStore for Wanting {
    type Rt = ();

    ghost stands = { λ r s es. ⟦<Solo as GraphStore>⟧.stands r.solo s es };

    ghost caller = { λ r. ⟦<Solo as GraphStore>⟧.caller r.solo };

    ghost alone = { λ r. ⟦<Solo as GraphStore>⟧.alone r.solo };

    ghost running = { λ r. ⟦<Solo as GraphStore>⟧.running r.solo };

    ghost legal = { λ r s es st. solo_legal r.solo.core s es st };

    ghost runs = { λ r s es st. solo_opened r.solo.core r.solo.caller s es st };

    fn begin(&mut self, rt: &(), alloc: Global) -> Result<Txn, Refused> {
        self.solo.begin(rt, alloc)
    }

    fn next(
        &mut self,
        rt: &(),
        alloc: Global,
        txn: &Txn,
        kind: Kind,
        after: Option<u64>,
        when: When,
    ) -> Result<Option<u64>, Refused> {
        self.solo.next(rt, alloc, txn, kind, after, when)
    }

    fn read(
        &mut self,
        rt: &(),
        alloc: Global,
        txn: &Txn,
        x: Oid,
        when: When,
    ) -> Result<Object, Refused> {
        self.solo.read(rt, alloc, txn, x, when)
    }

    fn write(&mut self, rt: &(), alloc: Global, txn: &Txn, ask: Ask) -> Result<Wrote, Refused> {
        let told = self.solo.write(rt, alloc, txn, ask);
        if matches!(told, Ok(Wrote::Unchanged)) && self.wants() {
            return Err(Refused::NoMemory);
        }
        told
    }

    fn commit(&mut self, rt: &(), alloc: Global, txn: Txn) -> u64 {
        self.solo.commit(rt, alloc, txn)
    }

    fn abort(&mut self, rt: &(), alloc: Global, txn: Txn) {
        self.solo.abort(rt, alloc, txn);
    }

    fn mark(&mut self, rt: &(), alloc: Global) -> Marked {
        self.solo.mark(rt, alloc)
    }

    fn lift(&mut self, rt: &(), alloc: Global, x: Oid) -> Result<Lifted, Refused> {
        self.solo.lift(rt, alloc, x)
    }

    fn install(&mut self, rt: &(), alloc: Global, piece: Piece) -> Result<(), InstallRefused> {
        self.solo.install(rt, alloc, piece)
    }

    fn stats(&mut self, rt: &(), alloc: Global) -> Stats {
        self.solo.stats(rt, alloc)
    }
}
