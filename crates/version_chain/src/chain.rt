ghost use Rattle.std.specs.Prelude.{◌≡◌, ◌↔◌, ◌<◌, ◌≤◌, ◌+◌, [], ◌∷◌, length, map, filter, slice_get, take, All, IfErr, IfOk, IfSome, IsTrue, OnErr, OnOk};

use crate::front::{count_after, count_not_before};
use crate::walk::{copy_rest, drop_first, stamp_first, undo_first};
use crate::{Entry, NoMemory};
use std::alloc::{AllocError, Global};
use std::collections::VecDeque;
use std::marker::Model;
use undo_law::{Tail, Undo};

/// The deltas of one object, the newest first. Contracts see the list of its entries, and for how many more there is
/// room.
#[derive(Drop)]
pub struct Chain<U: Undo> {
    entries: VecDeque<Entry<U::Delta>>,
    open_count: usize,
}

impl<U: Undo> Model for Chain<U> {
    ghost use Rattle.std.specs.Prelude.{◌-◌};
    ghost use Rattle.std.specs.VecDeque.{deque_capacity, deque_len};
    ghost use Rattle.version_chain.specs.Parts.{Entries, IsChain};

    ghost Value = { Entries U.Delta };

    ghost view = { λ c. record {
      entries = c.entries.items;
      room = deque_capacity c.entries - deque_len c.entries;
    } };

    ghost invariant = { λ c. IsChain c.open_count c.entries.items };
}

impl<U: Undo> Chain<U> {
    ghost use Rattle.version_chain.specs.Entry.{open_entry, is_open, is_committed, is_before, is_not_before, is_after, stamped};
    ghost use Rattle.version_chain.specs.Order.{IsInOrder};
    ghost use Rattle.version_chain.specs.Parts.{deltas_of, stamps_of, timestamps_of, is_newest_open, first_of, version, object_before, dated_before};

    /// No delta. Takes no memory.
    pub fn new(alloc: Global) -> Chain<U>
        ensures { result.entries ≡ [] }
    {
        Chain {
            entries: VecDeque::new(alloc),
            open_count: 0,
        }
    }

    /// Makes room for so many more deltas, and in a chain that never had one for no more than these. Without memory the
    /// deltas stay as they were.
    pub fn reserve(&mut self, alloc: Global, count: usize) -> Result<(), NoMemory>
        ensures room { OnOk result (count ≤ self.new.room) }
        ensures same { self.new.entries ≡ self.old.entries }
    {
        if self.entries.is_empty() && self.entries.capacity() == 0 {
            self.entries = VecDeque::with_capacity(alloc, count)?;
            return Ok(());
        }
        self.entries.reserve(count)
    }

    /// Puts a delta in front, without a timestamp, where there is room for it.
    pub fn push_reserved(&mut self, delta: U::Delta)
        requires { 0 < self.old.room }
        ensures entries { self.new.entries ≡ open_entry delta ∷ self.old.entries }
        ensures room { self.new.room + 1 ≡ self.old.room }
    {
        self.entries
            .push_front_reserved(Entry { stamp: None, delta });
        self.open_count += 1;
    }

    /// Puts a delta in front, without a timestamp. Without memory it comes back, and the chain stays as it was.
    pub fn push_open(&mut self, delta: U::Delta) -> Result<(), (U::Delta, NoMemory)>
        ensures ok { OnOk result (self.new.entries ≡ open_entry delta ∷ self.old.entries) }
        ensures err { OnErr result (self.new.entries ≡ self.old.entries) }
        ensures handed_back { IfErr result (λ refused. refused.0 ≡ delta) }
    {
        match self.entries.push_front(Entry { stamp: None, delta }) {
            Ok(()) => {
                self.open_count += 1;
                Ok(())
            }
            Err(refused) => {
                let Entry { stamp: _, delta } = refused.value;
                Err((delta, AllocError))
            }
        }
    }

    /// Takes the newest delta off, which is open.
    pub fn pop_open(&mut self) -> U::Delta
        requires { IsTrue (is_newest_open self.old.entries) }
        ensures { self.old.entries ≡ open_entry result ∷ self.new.entries }
    {
        self.open_count -= 1;
        let entry = self.entries.pop_front().unwrap();
        let Entry { stamp: _, delta } = entry;
        delta
    }

    /// Gives all open deltas the timestamp, which is above every other one.
    pub fn stamp(&mut self, ts: u64)
        requires { All (λ older. older < ts) (timestamps_of self.old.entries) }
        ensures { self.new.entries ≡ map (stamped ts) self.old.entries }
    {
        stamp_first(&mut self.entries, self.open_count, ts);
        self.open_count = 0;
    }

    /// Drops the open deltas.
    pub fn drop_open(&mut self)
        ensures { self.new.entries ≡ filter is_committed self.old.entries }
    {
        drop_first(&mut self.entries, self.open_count);
        self.open_count = 0;
    }

    /// The newest timestamp, None exactly where no delta is committed. It costs the same at any length.
    pub fn newest_commit(&self) -> Option<u64>
        ensures first { result ≡ first_of (timestamps_of self.now.entries) }
        ensures greatest { IfSome result (λ ts.
            All (λ other. other ≤ ts) (timestamps_of self.now.entries)) }
    {
        self.entries.get(self.open_count)?.stamp
    }

    /// How many of the newest deltas are open or were committed after the instant t. It costs these and one more.
    pub fn count_after(&self, t: u64) -> u64
        ensures within { result ≤ length self.now.entries }
        ensures first { take result self.now.entries ≡ filter (is_after t) self.now.entries }
    {
        count_after(&self.entries, t) as u64
    }

    /// The number of deltas.
    pub fn len(&self) -> u64
        ensures value { result ≡ length self.now.entries }
        ensures in_order { IsInOrder self.now.entries }
    {
        self.entries.len() as u64
    }

    /// The i-th delta from the newest, counted from 0.
    pub fn delta(&self, i: u64) -> &U::Delta
        requires { i < length self.now.entries }
        ensures { slice_get (deltas_of self.now.entries) i ≡ Some result.now }
    {
        &self.entries[i as usize].delta
    }

    /// The timestamp of the i-th delta from the newest, None exactly where it is open.
    pub fn stamp_of(&self, i: u64) -> Option<u64>
        requires { i < length self.now.entries }
        ensures { slice_get (stamps_of self.now.entries) i ≡ Some result }
    {
        self.entries[i as usize].stamp
    }

    /// The object as it was at the instant t: the newest state with the open deltas and those of later commits undone.
    /// It costs what it undoes.
    pub fn version_at(
        &self,
        alloc: Global,
        newest: &U::Object,
        t: u64,
    ) -> Result<U::Object, NoMemory>
        ensures { IfOk result (λ object. object ≡ version U.after newest.now self.now.entries t) }
    {
        let count = count_after(&self.entries, t);
        undo_first::<U>(alloc, newest, &self.entries, count)
    }

    /// The deltas that were committed before the mark, and the object after the newest of them.
    pub fn tail_below(
        &self,
        alloc: Global,
        newest: &U::Object,
        mark: u64,
    ) -> Result<Tail<U>, NoMemory>
        ensures object { IfOk result (λ tail.
            tail.newest ≡ object_before U.after newest.now self.now.entries mark) }
        ensures deltas { IfOk result (λ tail. tail.deltas ≡ dated_before self.now.entries mark) }
    {
        let count = count_not_before(&self.entries, mark);
        let newest = undo_first::<U>(alloc, newest, &self.entries, count)?;
        let deltas = copy_rest::<U>(alloc, &self.entries, count)?;
        Ok(Tail { newest, deltas })
    }

    /// Drops the deltas that were committed before the mark, and gives their number. It costs what it drops.
    pub fn cut_below(&mut self, mark: u64) -> u64
        ensures kept { self.new.entries ≡ filter (is_not_before mark) self.old.entries }
        ensures number { result ≡ length (filter (is_before mark) self.old.entries) }
    {
        let kept = count_not_before(&self.entries, mark);
        let dropped = self.entries.len() - kept;
        self.entries.truncate(kept);
        dropped as u64
    }
}
