ghost use Rattle.std.specs.Prelude.{◌≡◌, ◌≤◌, ◌+◌, None, IfOk, OnOk, OnErr, IsTrue, is_none, is_some, if◌then◌else◌};
ghost use Rattle.undo_delta.specs.Apply.{after};
ghost use Rattle.undo_delta.specs.Change.{is_possible};
ghost use Rattle.undo_delta.specs.Touch.{is_touched, joined};
ghost use Rattle.version_chain.specs.Parts.{dated_before, object_before};
ghost use Rattle.front_core.specs.Outlines.{outline_of};
ghost use Rattle.front_core.specs.Rows.{aborted_row, begun_row, changed_row, committed_row, cut_row, is_writer, no_row, other_start, push_some, pushed, row_at_instant, row_rival, seen, written_row, MayCommit};
ghost use Rattle.front_core.specs.RoomFor.{count_of, delta_count};

use crate::NoMemory;
use crate::outline::Outline;
use graph_record::Object;
use graph_value::Oid;
use std::alloc::Global;
use std::marker::Model;
use txn_manager::{Rival, rival};
use undo_delta::{Delta, DeltaPair, GraphUndo, Op, change};
use undo_law::Tail;
use version_chain::Chain;

/// The open transaction that writes an object.
#[derive(Debug, Drop)]
pub(crate) struct Writing {
    pub caller: u64,
    pub start: u64,
    /// The object before the first write of the transaction.
    pub former: Object,
}

/// What the store keeps of one object: its newest form, the deltas that lead back from there, and behind a pointer what
/// only an object needs that is being written.
#[derive(Drop)]
pub(crate) struct Row {
    pub newest: Object,
    pub chain: Chain<GraphUndo>,
    pub writing: Option<Box<Writing>>,
}

impl Model for Row {
    ghost use Rattle.std.specs.Prelude.{box_value, option_map};
    ghost use Rattle.std.specs.Coded.{codes};
    ghost use Rattle.front_core.specs.Rows.{ObjectRow};
    ghost use Rattle.graph_value.specs.contracts.value.Value as property_value;

    ghost Value = { ObjectRow };

    ghost coded = { Prim.hlevel (codes, property_value.the_row.coded) };

    ghost view = { λ r. record {
      newest = r.newest;
      chain = r.chain.entries;
      writing = option_map box_value r.writing;
    } };
}

impl Row {
    /// The row of an object that nobody has made. Takes no memory.
    pub fn new(alloc: Global) -> Row
        ensures { result ≡ no_row }
    {
        Row {
            newest: Object::Dead,
            chain: Chain::new(alloc),
            writing: None,
        }
    }

    /// The object with all writes that were done on it, of an open transaction too.
    pub fn newest(&self) -> &Object
        ensures { result.now ≡ self.now.newest }
    {
        &self.newest
    }

    /// The deltas behind it.
    pub fn chain(&self) -> &Chain<GraphUndo>
        ensures { result.now.entries ≡ self.now.chain }
    {
        &self.chain
    }

    /// Whether an open transaction writes the object.
    pub fn is_written(&self) -> bool
        ensures { result ≡ is_some self.now.writing }
    {
        self.writing.is_some()
    }

    /// Whether the caller's open transaction writes the object.
    fn is_own(&self, caller: u64) -> bool
        ensures { result ≡ is_writer caller self.now.writing }
    {
        match &self.writing {
            Some(writing) => writing.caller == caller,
            None => false,
        }
    }

    /// Who stands in the way of a write by the caller's transaction, which began at `start`.
    pub fn rival(&self, caller: u64, start: u64) -> Option<Rival>
        ensures { result ≡ row_rival caller start self.now }
    {
        rival(start, self.other_start(caller), self.chain.newest_commit())
    }

    /// The start of the transaction that writes the object, where it isn't the caller's.
    fn other_start(&self, caller: u64) -> Option<u64>
        ensures { result ≡ other_start caller self.now.writing }
    {
        match &self.writing {
            Some(writing) if writing.caller != caller => Some(writing.start),
            _ => None,
        }
    }

    /// The object as the commits up to an instant left it. It costs the deltas that it undoes.
    pub fn at_instant(&self, alloc: Global, t: u64) -> Result<Object, NoMemory>
        ensures { IfOk result (λ o. o ≡ row_at_instant t self.now) }
    {
        self.chain.version_at(alloc, &self.newest, t)
    }

    /// The deltas that were committed before the mark, and the object after the newest of them.
    pub fn tail_below(&self, alloc: Global, mark: u64) -> Result<Tail<GraphUndo>, NoMemory>
        ensures object { IfOk result (λ tail.
            tail.newest ≡ object_before after self.now.newest self.now.chain mark) }
        ensures deltas { IfOk result (λ tail. tail.deltas ≡ dated_before self.now.chain mark) }
    {
        self.chain.tail_below(alloc, &self.newest, mark)
    }

    /// The object as the transaction of the caller, which began at `start`, sees it.
    pub fn seen(&self, alloc: Global, caller: u64, start: u64) -> Result<Object, NoMemory>
        ensures { IfOk result (λ o. o ≡ seen caller start self.now) }
    {
        if self.is_own(caller) {
            return self.newest.copy();
        }
        self.at_instant(alloc, start)
    }

    /// What the object was at an instant, without its parts. It takes no memory.
    pub fn outline_at(&self, t: u64) -> Outline
        ensures { result ≡ outline_of (row_at_instant t self.now) }
    {
        let undone = self.chain.count_after(t);
        let mut outline = Outline::of(&self.newest);
        for i in 0..undone {
            outline = outline.after(self.chain.delta(i));
        }
        outline
    }

    /// What the object is to the caller's transaction, without its parts. It takes no memory.
    pub fn outline_seen(&self, caller: u64, start: u64) -> Outline
        ensures { result ≡ outline_of (seen caller start self.now) }
    {
        if self.is_own(caller) {
            return Outline::of(&self.newest);
        }
        self.outline_at(start)
    }

    /// Keeps the object as it is before the first write of the caller's transaction, and says whether this is the first.
    /// Without memory nothing changes.
    pub fn begin(&mut self, alloc: Global, caller: u64, start: u64) -> Result<bool, NoMemory>
        ensures ok { OnOk result (self.new ≡ begun_row caller start self.old) }
        ensures first { IfOk result (λ first. first ≡ is_none self.old.writing) }
        ensures err { OnErr result (self.new ≡ self.old) }
    {
        if self.writing.is_some() {
            return Ok(false);
        }
        let former = self.newest.copy()?;
        let writing = Box::new(
            alloc,
            Writing {
                caller,
                start,
                former,
            },
        )?;
        self.writing = Some(writing);
        Ok(true)
    }

    /// Takes a beginning back that no write followed. `first` says whether it was the first.
    pub fn cancel(&mut self, first: bool)
        ensures newest { self.new.newest ≡ self.old.newest }
        ensures chain { self.new.chain ≡ self.old.chain }
        ensures writing { self.new.writing ≡ (if first then None else self.old.writing) }
    {
        if first {
            self.writing = None;
        }
    }

    /// Does the write of the caller's transaction on this object alone, which is touched by no other write. Without
    /// memory nothing changes.
    pub fn write(
        &mut self,
        alloc: Global,
        caller: u64,
        start: u64,
        x: Oid,
        op: &Op,
    ) -> Result<(), NoMemory>
        requires touched { IsTrue (is_touched op.now x) }
        requires possible { IsTrue (is_possible op.now x self.old.newest) }
        requires alone { joined op.now ≡ None }
        ensures ok { OnOk result (self.new ≡ written_row caller start op.now x self.old) }
        ensures err { OnErr result (self.new ≡ self.old) }
    {
        let first = self.begin(alloc, caller, start)?;
        let done = self.change(alloc, x, op);
        if done.is_err() {
            self.cancel(first);
        }
        done
    }

    /// Changes the object, and puts what undoes this in front of its deltas. Without memory nothing changes.
    fn change(&mut self, alloc: Global, x: Oid, op: &Op) -> Result<(), NoMemory>
        requires touched { IsTrue (is_touched op.now x) }
        requires possible { IsTrue (is_possible op.now x self.old.newest) }
        requires alone { joined op.now ≡ None }
        ensures ok { OnOk result (self.new ≡ changed_row op.now x self.old) }
        ensures err { OnErr result (self.new ≡ self.old) }
    {
        self.chain.reserve(alloc, 1)?;
        let deltas = change(alloc, x, &mut self.newest, op)?;
        push(&mut self.chain, deltas);
        Ok(())
    }

    /// Makes the writes of the open transaction a commit with this timestamp. It takes no memory.
    pub fn commit(&mut self, ts: u64)
        requires { MayCommit ts self.old }
        ensures { self.new ≡ committed_row ts self.old }
    {
        if self.writing.is_some() {
            self.chain.stamp(ts);
            self.writing = None;
        }
    }

    /// Takes the writes of the open transaction back: the object is again the one that was kept. It takes no memory.
    pub fn abort(&mut self)
        ensures { self.new ≡ aborted_row self.old }
    {
        if let Some(writing) = self.writing.take() {
            let Writing { former, .. } = Box::into_inner(writing);
            self.newest = former;
            self.chain.drop_open();
        }
    }

    /// Drops the deltas that were committed before the mark. It costs what it drops, and takes no memory.
    pub fn cut_below(&mut self, mark: u64)
        ensures { self.new ≡ cut_row mark self.old }
    {
        let _ = self.chain.cut_below(mark);
    }
}

/// Puts the deltas of a pair in front, the older first.
pub(crate) fn push(chain: &mut Chain<GraphUndo>, deltas: DeltaPair)
    requires { delta_count deltas ≤ chain.old.room }
    ensures { chain.new.entries ≡ pushed deltas chain.old.entries }
{
    let DeltaPair { first, second } = deltas;
    push_some(chain, first);
    push_some(chain, second);
}

fn push_some(chain: &mut Chain<GraphUndo>, delta: Option<Delta>)
    requires { count_of delta ≤ chain.old.room }
    ensures entries { chain.new.entries ≡ push_some delta chain.old.entries }
    ensures room { chain.old.room ≤ chain.new.room + count_of delta }
{
    if let Some(delta) = delta {
        chain.push_reserved(delta);
    }
}
