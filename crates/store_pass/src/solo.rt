//! A core that one caller at a time has for itself.
ghost use Rattle.std.specs.Prelude.{◌≡◌, ◌↔◌, List, true};
ghost use Rattle.front_core.specs.Keeps.{StandsFor, open_in};
ghost use Rattle.store_pass.specs.Alone.{solo_legal, solo_opened};
ghost use Rattle.world_model.specs.History.{Entry};
ghost use Rattle.world_model.specs.Replies.{IsRefusal};
ghost use Rattle.world_model.specs.Reply.{reply_of};
ghost use Rattle.world_model.specs.Reply as reply;
ghost use Rattle.world_model.specs.World.{Start};

use anchor_store::finished;
use front_core::Core;
use graph_record::Object;
use graph_value::Oid;
use std::alloc::Global;
use undo_delta::Ask;
use world_model::{
    Answer, Event, GraphStore, InstallRefused, Kind, Lifted, Marked, Piece, Refused, Stats, Txn,
    When, Wrote,
};

// Why an event was refused. No contract says that an installation alone hands a piece back.
fn refusal(answer: Answer) -> Refused
    requires { IsRefusal (reply_of answer) }
    ensures { reply_of answer ≡ reply.Refused result }
{
    match answer {
        Answer::Refused(why) => why,
        Answer::NotInstalled(_) => Refused::NoMemory,
        _ => unreachable!(),
    }
}

/// A core as one caller at a time uses it, while nobody else does. It waits for nobody.
#[derive(Drop)]
pub struct Solo {
    core: Core,
    caller: u64,
}

impl Solo {
    ghost use Rattle.store_pass.specs.Solo.{core_of};

    /// The core as the caller uses it. Takes no memory.
    pub fn over(core: Core, caller: u64) -> Solo
        ensures core { core_of result ≡ core }
        ensures caller { ⟦<Solo as GraphStore>⟧.caller result ≡ caller }
    {
        Solo { core, caller }
    }

    /// The same core for another caller. Takes no memory.
    ///
    /// What it stands for stays, and the open transaction is the one that the new caller has in the core.
    pub fn turn_to(&mut self, caller: u64)
        ensures core { core_of self.new ≡ core_of self.old }
        ensures caller { ⟦<Solo as GraphStore>⟧.caller self.new ≡ caller }
        ensures stands { (s : Start) (es : List Entry) →
            (⟦<Solo as GraphStore>⟧.stands self.new s es)
            ↔ (⟦<Solo as GraphStore>⟧.stands self.old s es) }
        ensures running { ⟦<Solo as GraphStore>⟧.running self.new
            ≡ open_in (core_of self.old) caller }
    {
        self.caller = caller;
    }

    /// Gives the core back. Takes no memory.
    pub fn into_core(self) -> Core
        ensures { result ≡ core_of self }
    {
        self.core
    }
}

/// Each call is one step of the core.
impl GraphStore for Solo {
    type Rt = ();

    ghost stands = { λ r s es. StandsFor s r.core es };

    ghost caller = { λ r. r.caller };

    ghost alone = { λ r. true };

    ghost running = { λ r. open_in r.core r.caller };

    ghost legal = { λ r s es st. solo_legal r.core s es st };

    ghost runs = { λ r s es st. solo_opened r.core r.caller s es st };

    fn begin(&mut self, _rt: &(), alloc: Global) -> Result<Txn, Refused> {
        match self.core.step(alloc, self.caller, Event::Begin) {
            Answer::Begun(start) => Ok(Txn::begun(start)),
            other => Err(refusal(other)),
        }
    }

    fn next(
        &mut self,
        _rt: &(),
        alloc: Global,
        _txn: &Txn,
        kind: Kind,
        after: Option<u64>,
        when: When,
    ) -> Result<Option<u64>, Refused> {
        let event = Event::Next { kind, after, when };
        match self.core.step(alloc, self.caller, event) {
            Answer::Id(id) => Ok(id),
            other => Err(refusal(other)),
        }
    }

    fn read(
        &mut self,
        _rt: &(),
        alloc: Global,
        _txn: &Txn,
        x: Oid,
        when: When,
    ) -> Result<Object, Refused> {
        match self.core.step(alloc, self.caller, Event::Read { x, when }) {
            Answer::Version(found) => match finished(alloc, found) {
                Ok(object) => Ok(object),
                Err(_) => Err(Refused::NoMemory),
            },
            other => Err(refusal(other)),
        }
    }

    fn write(&mut self, _rt: &(), alloc: Global, _txn: &Txn, ask: Ask) -> Result<Wrote, Refused> {
        match self.core.step(alloc, self.caller, Event::Write(ask)) {
            Answer::Wrote(wrote) => Ok(wrote),
            other => Err(refusal(other)),
        }
    }

    fn commit(&mut self, _rt: &(), alloc: Global, txn: Txn) -> u64 {
        let _start = txn.end();
        match self.core.step(alloc, self.caller, Event::Commit) {
            Answer::Committed(ts) => ts,
            _ => unreachable!(),
        }
    }

    fn abort(&mut self, _rt: &(), alloc: Global, txn: Txn) {
        let _start = txn.end();
        match self.core.step(alloc, self.caller, Event::Abort) {
            Answer::Aborted => {}
            _ => unreachable!(),
        }
    }

    fn mark(&mut self, _rt: &(), alloc: Global) -> Marked {
        match self.core.step(alloc, self.caller, Event::Mark) {
            Answer::Marked(marked) => marked,
            _ => unreachable!(),
        }
    }

    fn lift(&mut self, _rt: &(), alloc: Global, x: Oid) -> Result<Lifted, Refused> {
        match self.core.step(alloc, self.caller, Event::Lift(x)) {
            Answer::Lifted(lifted) => Ok(lifted),
            other => Err(refusal(other)),
        }
    }

    fn install(&mut self, _rt: &(), alloc: Global, piece: Piece) -> Result<(), InstallRefused> {
        match self.core.step(alloc, self.caller, Event::Install(piece)) {
            Answer::Installed => Ok(()),
            Answer::NotInstalled(piece) => Err(InstallRefused::NoMemory(piece)),
            Answer::Refused(Refused::Stale { cut }) => Err(InstallRefused::Stale { cut }),
            _ => unreachable!(),
        }
    }

    fn stats(&mut self, _rt: &(), alloc: Global) -> Stats {
        match self.core.step(alloc, self.caller, Event::Stats) {
            Answer::Stats(stats) => stats,
            _ => unreachable!(),
        }
    }
}
