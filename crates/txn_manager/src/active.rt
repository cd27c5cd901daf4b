ghost use Rattle.std.specs.Prelude.{◌≡◌, ◌≤◌, ◌+◌, ◌⊎◌, [], length, IsTrue, IsFalse, IsSome, IfSome, IfOk, IfErr, OnOk, OnErr};
ghost use Rattle.txn_manager.specs.RunningList.{start_of, without};
ghost use Rattle.txn_manager.specs.Transactions.{IsReady, begin_refusal, begun, clock_after_end, mark_of};

use crate::running::{place_of, take_out};
use crate::{BeginRefused, CLOCK_END, MOST_OPEN, Running};
use std::alloc::Global;
use std::marker::Model;

/// The clock and the open transactions. Contracts see both, the transactions in the order in which they began.
#[derive(Debug, Drop)]
pub struct Active {
    clock: u64,
    running: Vec<Running>,
}

impl Model for Active {
    ghost use Rattle.txn_manager.specs.Transactions.{Transactions, IsReady};

    ghost Value = { Transactions };

    ghost view = { λ a. record { clock = a.clock; running = a.running.items } };

    ghost invariant = { λ a. IsReady (record { clock = a.clock; running = a.running.items }) };
}

impl Active {
    /// A clock from 1 to `CLOCK_END`, with no open transaction.
    pub fn new(alloc: Global, clock: u64) -> Active
        requires begun { 1 ≤ clock }
        requires in_range { clock ≤ CLOCK_END }
        ensures value { result ≡ record { clock = clock; running = [] } }
        ensures ready { IsReady result }
    {
        Active {
            clock,
            running: Vec::new(alloc),
        }
    }

    /// Begins a transaction of the caller, and gives its start. After an error nothing has changed.
    ///
    /// - `AlreadyOpen`: the caller has an open transaction.
    /// - `TooMany`: `MOST_OPEN` transactions are open.
    /// - `ClockEnd`: the clock, the number of open transactions and 2 more pass `CLOCK_END`.
    /// - `NoMemory`: memory was wanting.
    pub fn begin(&mut self, caller: u64) -> Result<u64, BeginRefused>
        ensures refused { IfSome (begin_refusal self.old caller) (λ why. result ≡ Err why) }
        ensures accepted { OnOk result (begin_refusal self.old caller ≡ None) }
        ensures start { IfOk result (λ start. start ≡ self.old.clock) }
        ensures begun { OnOk result (self.new ≡ begun self.old caller) }
        ensures reason { IfErr result (λ why.
            (begin_refusal self.old caller ≡ Some why) ⊎ (why ≡ BeginRefused.NoMemory)) }
        ensures unchanged { OnErr result (self.new ≡ self.old) }
        ensures ready { IsReady self.new }
    {
        let start = self.clock;
        if let Some(why) = self.refusal(caller) {
            return Err(why);
        }
        match self.running.push(Running { caller, start }) {
            Ok(()) => {}
            Err(_) => return Err(BeginRefused::NoMemory),
        }
        self.clock = start + 1;
        Ok(start)
    }

    /// Ends the caller's transaction, and gives its timestamp: the clock, which rises by one, where it wrote, else its
    /// start.
    pub fn finish(&mut self, caller: u64, wrote: bool) -> u64
        requires { IsSome (start_of self.old.running caller) }
        ensures written { IsTrue wrote → result ≡ self.old.clock }
        ensures read { IsFalse wrote → start_of self.old.running caller ≡ Some result }
        ensures clock { self.new.clock ≡ clock_after_end wrote self.old.clock }
        ensures others { self.new.running ≡ without caller self.old.running }
        ensures ready { IsReady self.new }
    {
        let start = take_out(&mut self.running, caller);
        if !wrote {
            return start;
        }
        let timestamp = self.clock;
        self.clock = timestamp + 1;
        timestamp
    }

    /// Drops the caller's transaction.
    pub fn give_up(&mut self, caller: u64)
        requires { IsSome (start_of self.old.running caller) }
        ensures clock { self.new.clock ≡ self.old.clock }
        ensures others { self.new.running ≡ without caller self.old.running }
        ensures ready { IsReady self.new }
    {
        take_out(&mut self.running, caller);
    }

    /// When the caller's transaction began, or `None` where it has none.
    pub fn start_of(&self, caller: u64) -> Option<u64>
        ensures { result ≡ start_of self.now.running caller }
    {
        let place = place_of(&self.running, caller)?;
        Some(self.running[place].start)
    }

    /// The least start of the open transactions, or the clock where none is open.
    pub fn mark(&self) -> u64
        ensures { result ≡ mark_of self.now }
    {
        match self.running.first() {
            Some(oldest) => oldest.start,
            None => self.clock,
        }
    }

    /// The time at which the next transaction begins or ends.
    pub fn clock(&self) -> u64
        ensures value { result ≡ self.now.clock }
        ensures ready { IsReady self.now }
    {
        self.clock
    }

    /// How many transactions are open.
    pub fn count(&self) -> u64
        ensures value { result ≡ length self.now.running }
        ensures ready { IsReady self.now }
    {
        self.running.len() as u64
    }

    /// Why the caller cannot begin a transaction now, `None` where it can.
    pub fn refusal(&self, caller: u64) -> Option<BeginRefused>
        ensures { result ≡ begin_refusal self.now caller }
    {
        if self.start_of(caller).is_some() {
            return Some(BeginRefused::AlreadyOpen);
        }
        if self.running.len() >= MOST_OPEN {
            return Some(BeginRefused::TooMany);
        }
        if self.clock + self.count() + 2 > CLOCK_END {
            return Some(BeginRefused::ClockEnd);
        }
        None
    }
}
