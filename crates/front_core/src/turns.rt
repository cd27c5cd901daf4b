//! Begins, ends, and where the store stands.
ghost use Rattle.std.specs.Prelude.{◌≡◌};
ghost use Rattle.world_model.specs.Refusals.{refused_begin};
ghost use Rattle.world_model.specs.Reply.{reply_of};
ghost use Rattle.front_core.specs.Keeps.{KeepsSome, ObeysAll};

use crate::state::State;
use std::alloc::Global;
use txn_manager::BeginRefused;
use world_model::{Answer, Event, Marked, Refused};

impl State {
    /// Opens a transaction of the caller.
    pub fn begin(&mut self, alloc: Global, caller: u64) -> Answer
        ensures { ObeysAll self.old self.new
            (record { caller = caller; event = Event.Begin; reply = reply_of result }) }
    {
        match self.transactions.begin(alloc, caller) {
            Ok(start) => Answer::Begun(start),
            Err(why) => Answer::Refused(refused_begin(why)),
        }
    }

    /// Commits the caller's transaction: what it wrote stands under the clock. It takes no memory.
    pub fn commit(&mut self, caller: u64) -> Answer
        requires { KeepsSome self.old }
        ensures { ObeysAll self.old self.new
            (record { caller = caller; event = Event.Commit; reply = reply_of result }) }
    {
        let Some(place) = self.transactions.find(caller) else {
            return Answer::Refused(Refused::NoTxn);
        };
        let ts = self.transactions.clock();
        let (number, ended) = self.transactions.finish(caller, place);
        self.objects.commit_all(ended.written.as_slice(), ts);
        self.tally.committed += ended.deltas;
        Answer::Committed(number)
    }

    /// Drops the caller's transaction, and takes back what it wrote. It takes no memory.
    pub fn abort(&mut self, caller: u64) -> Answer
        requires { KeepsSome self.old }
        ensures { ObeysAll self.old self.new
            (record { caller = caller; event = Event.Abort; reply = reply_of result }) }
    {
        let Some(place) = self.transactions.find(caller) else {
            return Answer::Refused(Refused::NoTxn);
        };
        let ended = self.transactions.give_up(caller, place);
        self.objects.abort_all(ended.written.as_slice());
        self.tally.all -= ended.deltas;
        Answer::Aborted
    }

    /// Tells the mark, the clock and the counters.
    pub fn mark(&self, caller: u64) -> Answer
        ensures { ObeysAll self.now self.now
            (record { caller = caller; event = Event.Mark; reply = reply_of result }) }
    {
        Answer::Marked(Marked {
            mark: self.transactions.mark(),
            clock: self.transactions.clock(),
            vertices: self.objects.vertices.next(),
            edges: self.objects.edges.next(),
        })
    }
}

/// The answer to a begin that is refused.
fn refused_begin(why: BeginRefused) -> Refused
    ensures { result ≡ refused_begin why }
{
    match why {
        BeginRefused::AlreadyOpen => Refused::AlreadyOpen,
        BeginRefused::TooMany => Refused::TooMany,
        BeginRefused::ClockEnd => Refused::ClockEnd,
        BeginRefused::NoMemory => Refused::NoMemory,
    }
}
