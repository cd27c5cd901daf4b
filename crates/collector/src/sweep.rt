ghost use Rattle.std.specs.Prelude.{◌≡◌, ◌⊎◌, Some, None};
ghost use Rattle.collector.specs.Advancing.{Advances, HasAsked, IsKept, IsLiftedOf, stage_of};
ghost use Rattle.collector.specs.Left.{left_of};
ghost use Rattle.collector.specs.Sweeping.{first_of, fresh, rest_of, stage_at, told, turn};
ghost use Rattle.world_model.specs.Reply as reply;

use crate::left::Left;
use crate::{NoMemory, Progress};
use graph_value::Oid;
use std::alloc::{AllocError, Global};
use world_model::{GraphStore, InstallRefused, Lifted, Marked, Piece};

/// A sweep over all objects of a store, on its way. What was lifted of an object is kept until its next step, so that other
/// callers have their turn in between.
#[derive(Drop)]
pub struct Sweep {
    begun: Option<u64>,
    left: Left,
    kept: Option<Lifted>,
}

impl Sweep {
    /// A sweep that hasn't begun. Takes no memory.
    pub fn new() -> Sweep
        ensures { stage_of result ≡ fresh }
    {
        Sweep {
            begun: None,
            left: Left::below(0, 0),
            kept: None,
        }
    }

    /// One step: at most one event is sent, and what was answered is told. First the mark is asked for; then of each vertex
    /// and of each edge, ascending, what has expired is lifted and, where that is something, installed. After `End` nothing
    /// is sent, and it is told again.
    ///
    /// The error says that memory was wanting; the next step lifts the same object.
    ///
    /// What the sweep keeps is of the store, which may have been used in between.
    pub fn advance<S: GraphStore>(
        &mut self,
        rt: &S::Rt,
        alloc: Global,
        store: &mut S,
    ) -> Result<Progress, NoMemory>
        requires { IsKept S.stands self.old.kept store.old }
        ensures turns { Advances S.stands S.caller S.alone (stage_of self.old) (stage_of self.new)
            store.old store.new result }
        ensures keeps { IsKept S.stands self.new.kept store.new }
        ensures stays { S.running store.new ≡ S.running store.old }
    {
        let Some(mark) = self.begun else {
            let marked = store.mark(rt, alloc);
            return Ok(self.begin(marked));
        };
        let Some(x) = self.left.first() else {
            return Ok(Progress::End(mark));
        };
        match self.kept.take() {
            None => self.lift(rt, alloc, store, mark, x),
            Some(lifted) => self.install(rt, alloc, store, mark, x, lifted),
        }
    }

    fn begin(&mut self, marked: Marked) -> Progress
        requires { self.old.begun ≡ None }
        ensures told { turn (stage_of self.old) (reply.Marked marked) ≡ told result (stage_of self.new) }
    {
        self.begun = Some(marked.mark);
        self.left = Left::below(marked.vertices, marked.edges);
        self.kept = None;
        Progress::Marked(marked.mark)
    }

    /// The first object is done.
    fn pass(&mut self, mark: u64)
        requires { self.old.begun ≡ Some mark }
        ensures { stage_of self.new ≡ stage_at mark (rest_of (left_of self.old.left)) }
    {
        self.left = self.left.rest();
        self.kept = None;
    }

    /// Keeps what was lifted of an object, where that is something.
    fn keep(&mut self, mark: u64, x: Oid, lifted: Lifted) -> Progress
        requires begun { self.old.begun ≡ Some mark }
        requires first { first_of (left_of self.old.left) ≡ Some x }
        requires kept { self.old.kept ≡ None }
        ensures told { turn (stage_of self.old) (reply.Lifted lifted) ≡ told result (stage_of self.new) }
        ensures keeps { self.new.kept ≡ None ⊎ (self.new.kept ≡ Some lifted) }
    {
        let count = lifted.tail.deltas.len() as u64;
        if count == 0 {
            self.pass(mark);
            Progress::Nothing(x)
        } else {
            self.kept = Some(lifted);
            Progress::Lifted(x, count)
        }
    }

    fn lift<S: GraphStore>(
        &mut self,
        rt: &S::Rt,
        alloc: Global,
        store: &mut S,
        mark: u64,
        x: Oid,
    ) -> Result<Progress, NoMemory>
        requires begun { self.old.begun ≡ Some mark }
        requires first { first_of (left_of self.old.left) ≡ Some x }
        requires kept { self.old.kept ≡ None }
        ensures turns { HasAsked S.stands S.caller S.alone (stage_of self.old) (stage_of self.new)
            store.old store.new result }
        ensures keeps { IsKept S.stands self.new.kept store.new }
        ensures stays { S.running store.new ≡ S.running store.old }
    {
        match store.lift(rt, alloc, x) {
            Ok(lifted) => Ok(self.keep(mark, x, lifted)),
            Err(_) => Err(AllocError),
        }
    }

    fn install<S: GraphStore>(
        &mut self,
        rt: &S::Rt,
        alloc: Global,
        store: &mut S,
        mark: u64,
        x: Oid,
        lifted: Lifted,
    ) -> Result<Progress, NoMemory>
        requires begun { self.old.begun ≡ Some mark }
        requires first { first_of (left_of self.old.left) ≡ Some x }
        requires kept { self.old.kept ≡ None }
        requires of { IsLiftedOf S.stands store.old lifted }
        ensures turns { Advances S.stands S.caller S.alone
            (record (stage_of self.old) { kept = Some lifted }) (stage_of self.new)
            store.old store.new result }
        ensures keeps { self.new.kept ≡ None }
        ensures stays { S.running store.new ≡ S.running store.old }
    {
        let piece = Piece::build(alloc, lifted)?;
        let moved = piece.moved;
        match store.install(rt, alloc, piece) {
            Ok(()) => {
                self.pass(mark);
                Ok(Progress::Moved(x, moved))
            }
            Err(InstallRefused::Stale { cut }) => {
                self.pass(mark);
                Ok(Progress::Stale(x, cut))
            }
            Err(InstallRefused::NoMemory(_)) => Err(AllocError),
        }
    }
}
