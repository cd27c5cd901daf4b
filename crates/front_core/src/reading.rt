//! Reads and searches.
ghost use Rattle.std.specs.Prelude.{◌≡◌, ◌≤◌, ◌<◌, ℕ, IfOk, IfSome, IfNone};
ghost use Rattle.graph_record.specs.Graph.{object_at};
ghost use Rattle.world_model.specs.Views.{first_above, graph_of, next_id, oid_of, time_ahead};
ghost use Rattle.undo_delta.specs.Apply.{after};
ghost use Rattle.anchor_store.specs.Found.{found_object};
ghost use Rattle.world_model.specs.World.{World, Txn, graph_at, view_of};
ghost use Rattle.world_model.specs.Reply.{reply_of};
ghost use Rattle.front_core.specs.Keeps.{Keeps, ObeysAll};
ghost use Rattle.front_core.specs.Opened.{Opened};
ghost use Rattle.front_core.specs.Outlines.{outline_of};

use crate::NoMemory;
use crate::outline::Outline;
use crate::row::Row;
use crate::state::State;
use anchor_store::{Found, finished};
use graph_record::Object;
use graph_value::{EdgeId, Oid, VertexId};
use std::alloc::Global;
use undo_delta::GraphUndo;
use world_model::{Answer, Event, Kind, Refused, When};

impl State {
    /// Answers a read of an object.
    pub fn read(&self, alloc: Global, caller: u64, x: Oid, when: When) -> Answer
        ensures { ObeysAll self.now self.now
            (record { caller = caller; event = Event.Read x when; reply = reply_of result }) }
    {
        let Some(place) = self.transactions.find(caller) else {
            return Answer::Refused(Refused::NoTxn);
        };
        let start = self.transactions.at(place).start;
        if let Some(why) = time_ahead(start, when) {
            return Answer::Refused(why);
        }
        match self.version(alloc, caller, start, x, when) {
            Ok(object) => Answer::Version(Found::Ready(object)),
            Err(_) => Answer::Refused(Refused::NoMemory),
        }
    }

    /// Answers a search for the next object of a kind.
    pub fn next(&self, caller: u64, kind: Kind, after: Option<u64>, when: When) -> Answer
        ensures { ObeysAll self.now self.now
            (record { caller = caller; event = Event.Next kind after when; reply = reply_of result }) }
    {
        let Some(place) = self.transactions.find(caller) else {
            return Answer::Refused(Refused::NoTxn);
        };
        let start = self.transactions.at(place).start;
        if let Some(why) = time_ahead(start, when) {
            return Answer::Refused(why);
        }
        Answer::Id(self.next_alive(caller, start, kind, after, when))
    }

    /// The object in the graph that is meant: in what the caller's transaction sees, or at an instant.
    fn version(
        &self,
        alloc: Global,
        caller: u64,
        start: u64,
        x: Oid,
        when: When,
    ) -> Result<Object, NoMemory>
        ensures { IfOk result (λ object. (w : World) (p : Txn) → Opened self.now w caller start p →
            object ≡ object_at (graph_of w p when) x) }
    {
        match when {
            When::Own => self.seen(alloc, caller, start, x),
            When::At(t) => {
                let found = self.at_instant(alloc, x, t)?;
                finished(alloc, found)
            }
        }
    }

    /// The object as the caller's transaction sees it.
    fn seen(&self, alloc: Global, caller: u64, start: u64, x: Oid) -> Result<Object, NoMemory>
        ensures { IfOk result (λ object. (w : World) (p : Txn) → Opened self.now w caller start p →
            object ≡ object_at (view_of w p) x) }
    {
        match self.objects.row(x) {
            Some(row) => row.seen(alloc, caller, start),
            None => Ok(Object::Dead),
        }
    }

    /// The object at an instant, or the block to rebuild it from.
    fn at_instant(&self, alloc: Global, x: Oid, t: u64) -> Result<Found<GraphUndo>, NoMemory>
        ensures { IfOk result (λ found. (w : World) → Keeps self.now w →
            found_object after found ≡ object_at (graph_at w.commits t) x) }
    {
        let nobody = Row::new(alloc);
        let row = self.objects.row_or(x, &nobody);
        self.histories
            .version(alloc, x, row.newest(), row.chain(), t)
    }

    /// What the object is in the graph that is meant, without its parts. It takes no memory.
    pub fn outline(&self, caller: u64, start: u64, x: Oid, when: When) -> Outline
        ensures { (w : World) (p : Txn) → Opened self.now w caller start p →
            result ≡ outline_of (object_at (graph_of w p when) x) }
    {
        match when {
            When::Own => self.outline_seen(caller, start, x),
            When::At(t) => self.outline_at(x, t),
        }
    }

    fn outline_seen(&self, caller: u64, start: u64, x: Oid) -> Outline
        ensures { (w : World) (p : Txn) → Opened self.now w caller start p →
            result ≡ outline_of (object_at (view_of w p) x) }
    {
        match self.objects.row(x) {
            Some(row) => row.outline_seen(caller, start),
            None => Outline::Dead,
        }
    }

    fn outline_at(&self, x: Oid, t: u64) -> Outline
        ensures { (w : World) → Keeps self.now w →
            result ≡ outline_of (object_at (graph_at w.commits t) x) }
    {
        if let Some(block) = self.histories.locate(x, t) {
            return Outline::in_block(block, t);
        }
        match self.objects.row(x) {
            Some(row) => row.outline_at(t),
            None => Outline::Dead,
        }
    }

    /// The number of the first object of the kind that is there, of those above a number if one is given. It costs the
    /// numbers that it passes.
    fn next_alive(
        &self,
        caller: u64,
        start: u64,
        kind: Kind,
        after: Option<u64>,
        when: When,
    ) -> Option<u64>
        ensures { (w : World) (p : Txn) → Opened self.now w caller start p →
            result ≡ next_id kind after (graph_of w p when) }
    {
        let (first, end) = self.objects.range(kind);
        let Some(begin) = first_number(after, first, end) else {
            return None;
        };
        let mut number = begin;
        while number < end {
            if !self
                .outline(caller, start, id_of(kind, number), when)
                .is_absent()
            {
                return Some(number);
            }
            number += 1;
        }
        None
    }
}

/// The first number of a row that is above the given one, `None` where that is past the last row.
fn first_number(after: Option<u64>, first: u64, end: u64) -> Option<u64>
    ensures above { IfSome result (λ n. first_above after ≤ n) }
    ensures passed { IfSome result (λ n. (m : ℕ) → first_above after ≤ m → m < n → m < first) }
    ensures none { IfNone result (end ≤ first_above after) }
{
    match after {
        Some(last) if last >= end => None,
        Some(last) => Some((last + 1).max(first)),
        None => Some(first),
    }
}

/// The object of a kind with a number.
fn id_of(kind: Kind, number: u64) -> Oid
    ensures { result ≡ oid_of kind number }
{
    match kind {
        Kind::Vertex => Oid::Vertex(VertexId(number)),
        Kind::Edge => Oid::Edge(EdgeId(number)),
    }
}

/// An instant past the transaction's start is refused.
fn time_ahead(start: u64, when: When) -> Option<Refused>
    ensures { (p : Txn) → p.start ≡ start → result ≡ time_ahead p when }
{
    match when {
        When::At(t) if t > start => Some(Refused::TimeAhead { t, start }),
        When::Own | When::At(_) => None,
    }
}
