ghost use Rattle.std.specs.Prelude.{◌≡◌, ◌≤◌, ◌<◌, ◌+◌, ◌∷◌, ◌⊎◌, [], ℕ, List, Some, None, Err, IfErr, IfOk, IfSome, OnOk, OnErr, length, slice_get, not};
ghost use Rattle.graph_value.specs.declared.id.Oid.{Oid as AnyOid};
ghost use Rattle.txn_manager.specs.Transactions.{begin_refusal, clock_after_end, mark_of, IsReady};
ghost use Rattle.front_core.specs.Books.{Book, Closed, Counted, MOST_DELTAS, Noted, end_number, find_txn, is_empty, opened, place_in, times_of};

use crate::NoMemory;
use graph_value::Oid;
use sqlite_items::Items;
use std::alloc::Global;
use std::marker::Model;
use txn_manager::{Active, BeginRefused, CLOCK_END};

/// An open transaction, how many deltas its writes left, and the objects that it has written, each once.
#[derive(Debug, Drop)]
pub(crate) struct Transaction {
    pub caller: u64,
    pub start: u64,
    pub deltas: u64,
    pub written: Items<Oid>,
}

/// The clock and the open transactions, in the order in which they began. Contracts see both.
#[derive(Debug, Drop)]
pub(crate) struct Transactions {
    active: Active,
    txns: Vec<Transaction>,
}

impl Model for Transactions {
    ghost use Rattle.front_core.specs.Books.{Book, InStep};

    ghost Value = { Book };

    ghost view = { λ t. record { clock = t.active.clock; txns = t.txns.items } };

    ghost invariant = { λ t. InStep t.active t.txns.items };
}

impl Transactions {
    /// A clock from 1 to `CLOCK_END`, and no open transaction.
    pub fn new(alloc: Global, clock: u64) -> Transactions
        requires begun { 1 ≤ clock }
        requires in_range { clock ≤ CLOCK_END }
        ensures { result ≡ record { clock = clock; txns = [] } }
    {
        Transactions {
            active: Active::new(alloc, clock),
            txns: Vec::new(alloc),
        }
    }

    /// Begins a transaction of the caller, and gives its start. After an error nothing has changed.
    pub fn begin(&mut self, alloc: Global, caller: u64) -> Result<u64, BeginRefused>
        ensures refused { IfSome (begin_refusal (times_of self.old) caller) (λ why.
            result ≡ Err why) }
        ensures accepted { OnOk result (begin_refusal (times_of self.old) caller ≡ None) }
        ensures start { IfOk result (λ start. start ≡ self.old.clock) }
        ensures begun { OnOk result (self.new ≡ opened self.old caller) }
        ensures reason { IfErr result (λ why.
            (begin_refusal (times_of self.old) caller ≡ Some why) ⊎ (why ≡ BeginRefused.NoMemory)) }
        ensures unchanged { OnErr result (self.new ≡ self.old) }
    {
        if let Some(why) = self.active.refusal(caller) {
            return Err(why);
        }
        if self.txns.reserve(1).is_err() {
            return Err(BeginRefused::NoMemory);
        }
        let start = self.active.begin(caller)?;
        self.txns.push_reserved(Transaction {
            caller,
            start,
            deltas: 0,
            written: Items::new(alloc),
        });
        Ok(start)
    }

    /// Where the caller's transaction stands, `None` where it has none.
    pub fn find(&self, caller: u64) -> Option<usize>
        ensures { result ≡ place_in self.now.txns caller }
    {
        self.txns.iter().position(|t| t.caller == caller)
    }

    /// The transaction at this place.
    pub fn at(&self, place: usize) -> &Transaction
        requires { place < length self.now.txns }
        ensures { slice_get self.now.txns place ≡ Some result.now }
    {
        &self.txns[place]
    }

    /// Adds an object to those that the caller's transaction has written. Without memory nothing changes.
    pub fn note(&mut self, caller: u64, place: usize, x: Oid) -> Result<(), NoMemory>
        requires { place_in self.old.txns caller ≡ Some place }
        ensures ok { OnOk result (Noted self.old self.new caller (x ∷ [])) }
        ensures err { OnErr result (self.new ≡ self.old) }
    {
        self.txns[place].written.push(x)
    }

    /// Takes back that the caller's transaction has written the object that was noted last.
    pub fn forget(&mut self, caller: u64, place: usize)
        requires { place_in self.old.txns caller ≡ Some place }
        ensures { (before : Book) (x : AnyOid) → Noted before self.old caller (x ∷ []) →
            Noted before self.new caller [] }
    {
        let _ = self.txns[place].written.pop();
    }

    /// Counts deltas that a write of the caller's transaction left.
    pub fn count(&mut self, caller: u64, place: usize, deltas: u64)
        requires placed { place_in self.old.txns caller ≡ Some place }
        requires room { IfSome (find_txn self.old.txns caller) (λ t.
            t.deltas + deltas ≤ MOST_DELTAS) }
        ensures { Counted self.old self.new caller deltas }
    {
        self.txns[place].deltas += deltas;
    }

    /// Ends the caller's transaction: gives its number, which is the clock where it has written, which then rises by
    /// one, and its start else; and the transaction.
    pub fn finish(&mut self, caller: u64, place: usize) -> (u64, Transaction)
        requires { place_in self.old.txns caller ≡ Some place }
        ensures number { IfSome (find_txn self.old.txns caller) (λ t.
            result.0 ≡ end_number self.old.clock t) }
        ensures taken { IfSome (find_txn self.old.txns caller) (λ t. result.1 ≡ t) }
        ensures closed { Closed self.old self.new caller
            (clock_after_end (not (is_empty result.1.written)) self.old.clock) }
    {
        let ended = self.txns.remove(place);
        let number = self.active.finish(caller, !ended.written.is_empty());
        (number, ended)
    }

    /// Drops the caller's transaction, and gives it.
    pub fn give_up(&mut self, caller: u64, place: usize) -> Transaction
        requires { place_in self.old.txns caller ≡ Some place }
        ensures taken { IfSome (find_txn self.old.txns caller) (λ t. result ≡ t) }
        ensures closed { Closed self.old self.new caller self.old.clock }
    {
        let ended = self.txns.remove(place);
        self.active.give_up(caller);
        ended
    }

    /// The least start of the open transactions, or the clock where none is open.
    pub fn mark(&self) -> u64
        ensures { result ≡ mark_of (times_of self.now) }
    {
        self.active.mark()
    }

    /// The time at which the next transaction begins or ends.
    pub fn clock(&self) -> u64
        ensures value { result ≡ self.now.clock }
        ensures ready { IsReady (times_of self.now) }
    {
        self.active.clock()
    }
}
