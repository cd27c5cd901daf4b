ghost use Rattle.std.specs.Prelude.{◌≡◌, ℕ, List, Option, Some, None, Bool, IfOk, IfErr};
ghost use Rattle.world_model.specs.declared.event.Event.TheVariants as event;
ghost use Rattle.world_model.specs.History.{Entry, IsLegal, IsStart, run};
ghost use Rattle.world_model.specs.Reply as reply;
ghost use Rattle.world_model.specs.Sending.{IsOfSome, Sends, SendsRead, open_start};
ghost use Rattle.world_model.specs.Sending.{begun, found_next, installed, lifted, written};
ghost use Rattle.world_model.specs.World.{Start, start_world};

use crate::{Kind, Lifted, Marked, Piece, Refused, Stats, Txn, When, Wrote};
use graph_record::Object;
use graph_value::Oid;
use std::alloc::Global;
use undo_delta::Ask;

/// Why a piece wasn't installed.
#[derive(Drop)]
pub enum InstallRefused {
    /// The object's cut is this one, and not the piece's: other deltas were moved since the piece was lifted.
    Stale { cut: u64 },
    /// The piece that found no memory.
    NoMemory(Piece),
}

/// A store as one caller uses it. Each call sends one event, and tells what was answered to it. What the store means is
/// the legal histories that it stands for: each of them goes on with the event's entry, behind entries of other callers
/// where these act on the store too.
///
/// So the answer to a call is the one that the world of the history gives, or want of memory where that may be.
pub trait GraphStore {
    /// What a call needs that may have to wait for its turn.
    type Rt;

    /// The store stands for this history, which began with these numbers.
    ghost stands: { Self → Start → List Entry → Type 0 };

    /// Who sends the events.
    ghost caller: { Self → ℕ };

    /// Nobody else acts on the store.
    ghost alone: { Self → Bool };

    /// The start of the caller's open transaction.
    ghost running: { Self → Option ℕ };

    /// Opens a transaction.
    ///
    /// The refusals are `AlreadyOpen`, `TooMany`, `ClockEnd` and `NoMemory`.
    fn begin(&mut self, rt: &Self::Rt, alloc: Global) -> Result<Txn, Refused>
        ensures sends { Sends stands caller alone event.Begin (begun result) self.old self.new }
        ensures opens { IfOk result (λ txn. running self.new ≡ Some txn.start) }
        ensures refused { IfErr result (λ _. running self.new ≡ running self.old) };

    /// The number of the first object of a kind that is there, of those above a number if one is given.
    ///
    /// The refusals are `NoTxn`, `TimeAhead` and `NoMemory`.
    fn next(
        &mut self,
        rt: &Self::Rt,
        alloc: Global,
        txn: &Txn,
        kind: Kind,
        after: Option<u64>,
        when: When,
    ) -> Result<Option<u64>, Refused>
        ensures sends { Sends stands caller alone (event.Next kind after when) (found_next result)
            self.old self.new }
        ensures stays { running self.new ≡ running self.old };

    /// The object under an id, which is dead where it isn't there.
    ///
    /// The refusals are `NoTxn`, `TimeAhead` and `NoMemory`.
    fn read(
        &mut self,
        rt: &Self::Rt,
        alloc: Global,
        txn: &Txn,
        x: Oid,
        when: When,
    ) -> Result<Object, Refused>
        ensures sends { SendsRead stands caller alone x when result self.old self.new }
        ensures stays { running self.new ≡ running self.old };

    /// Writes.
    ///
    /// The refusals are `NoTxn`, `Missing`, `Conflict`, `HasEdges`, `IdEnd` and `NoMemory`.
    fn write(&mut self, rt: &Self::Rt, alloc: Global, txn: &Txn, ask: Ask) -> Result<Wrote, Refused>
        ensures sends { Sends stands caller alone (event.Write ask) (written result) self.old self.new }
        ensures stays { running self.new ≡ running self.old };

    /// Ends the transaction, whose writes stand from now on. The timestamp of the commit, or the transaction's start
    /// where it had written nothing. It takes no memory.
    fn commit(&mut self, rt: &Self::Rt, alloc: Global, txn: Txn) -> u64
        requires { running self.old ≡ Some txn.start }
        ensures sends { Sends stands caller alone event.Commit (reply.Committed result)
            self.old self.new }
        ensures ended { running self.new ≡ None };

    /// Ends the transaction, whose writes are gone. It takes no memory.
    fn abort(&mut self, rt: &Self::Rt, alloc: Global, txn: Txn)
        requires { running self.old ≡ Some txn.start }
        ensures sends { Sends stands caller alone event.Abort reply.Aborted self.old self.new }
        ensures ended { running self.new ≡ None };

    /// The mark, the clock and the counters of ids. It takes no memory.
    fn mark(&mut self, rt: &Self::Rt, alloc: Global) -> Marked
        ensures sends { Sends stands caller alone event.Mark (reply.Marked result) self.old self.new }
        ensures stays { running self.new ≡ running self.old };

    /// Copies what has expired of an object's chain.
    ///
    /// The refusals are `Missing` and `NoMemory`.
    fn lift(&mut self, rt: &Self::Rt, alloc: Global, x: Oid) -> Result<Lifted, Refused>
        ensures sends { Sends stands caller alone (event.Lift x) (lifted result) self.old self.new }
        ensures stays { running self.new ≡ running self.old };

    /// Moves what was lifted from the object's chain into its history. The piece was built of what some history that the
    /// store stands for lifted.
    fn install(&mut self, rt: &Self::Rt, alloc: Global, piece: Piece) -> Result<(), InstallRefused>
        requires { IsOfSome stands self.old piece }
        ensures sends { Sends stands caller alone (event.Install piece) (installed result)
            self.old self.new }
        ensures stays { running self.new ≡ running self.old };

    /// How many deltas and blocks there are. It takes no memory.
    fn stats(&mut self, rt: &Self::Rt, alloc: Global) -> Stats
        ensures sends { Sends stands caller alone event.Stats (reply.Stats result) self.old self.new }
        ensures stays { running self.new ≡ running self.old };

    /// A history that the store stands for is legal.
    ghost legal: { (r : Self) (s : Start) (es : List Entry) → stands r s es → IsStart s × IsLegal s es };

    /// In each of them the caller's open transaction is the store's.
    ghost runs: { (r : Self) (s : Start) (es : List Entry) → stands r s es →
        open_start (run (start_world s) es) (caller r) ≡ running r };
}
