ghost use Rattle.std.specs.Prelude.{◌≡◌, ◌≤◌, List, [], ◌∷◌, ◌++◌, IfOk};
ghost use Rattle.world_model.specs.World.{Start, start_world};
ghost use Rattle.world_model.specs.History.{Entry, IsAnswered, MayStand, run};
ghost use Rattle.world_model.specs.Reply.{reply_of};
ghost use Rattle.world_model.specs.Replies.{HandsBack, IsReplyTo};

use crate::NoMemory;
use crate::histories::Histories;
use crate::objects::Objects;
use crate::rows::Rows;
use crate::state::State;
use crate::tally::Tally;
use crate::transactions::Transactions;
use std::alloc::Global;
use std::marker::Model;
use txn_manager::CLOCK_END;
use world_model::{Answer, Event, ID_END};

/// The store as one state, which callers change step by step. At all times it stands for some legal history: what it
/// keeps is the world that this comes to, a list of commits and open transactions, from which the objects, their deltas
/// and their writers follow.
#[derive(Drop)]
pub struct Core {
    state: State,
}

impl Model for Core {
    ghost use Rattle.front_core.specs.Keeps.{StandsForSome};
    ghost use Rattle.front_core.specs.declared.state.State.{State as AnyState};
    ghost use Rattle.graph_value.specs.contracts.value.Value as property_value;
    ghost use Rattle.std.specs.Coded.{codes};

    ghost Value = { AnyState };

    ghost coded = { Prim.hlevel (codes, property_value.the_row.coded) };

    ghost view = { λ c. c.state };

    ghost invariant = { λ c. StandsForSome c.state };
}

impl Core {
    ghost use Rattle.front_core.specs.Keeps.{MayAsk, StandsFor, StandsForSome, first_start, numbers};

    /// A store in which nothing has happened. `k` is how many deltas a block of history holds, from 1 to 1,024.
    pub fn new(alloc: Global, k: u64) -> Result<Core, NoMemory>
        requires at_least { 1 ≤ k }
        requires at_most { k ≤ 1024 }
        ensures { IfOk result (λ core. StandsFor (first_start k) core []) }
    {
        Core::new_at(alloc, k, 1, 0, 0)
    }

    /// A store whose clock and counters begin with these numbers, each at most 2^62 and the clock at least 1. Ids
    /// below the counters are dead.
    pub fn new_at(
        alloc: Global,
        k: u64,
        clock: u64,
        vertices: u64,
        edges: u64,
    ) -> Result<Core, NoMemory>
        requires at_least { 1 ≤ k }
        requires at_most { k ≤ 1024 }
        requires begun { 1 ≤ clock }
        requires clock_range { clock ≤ CLOCK_END }
        requires vertex_range { vertices ≤ ID_END }
        requires edge_range { edges ≤ ID_END }
        ensures { IfOk result (λ core. StandsFor (numbers k clock vertices edges) core []) }
    {
        Ok(Core {
            state: State {
                transactions: Transactions::new(alloc, clock),
                objects: Objects {
                    vertices: Rows::new(alloc, vertices),
                    edges: Rows::new(alloc, edges),
                },
                histories: Histories::new(alloc, k, vertices, edges),
                tally: Tally {
                    committed: 0,
                    all: 0,
                },
            },
        })
    }

    /// Answers a caller's event.
    ///
    /// For every legal history that the core stands for, the answer is the one that the history's world gives, or
    /// `NoMemory` where nothing else is refused and the event is no commit, no abort, no mark and no count; afterwards the
    /// core stands for the history with this entry. A refusal leaves the same world.
    ///
    /// A piece that is installed was built of what some history that the core stands for lifted.
    pub fn step(&mut self, alloc: Global, caller: u64, event: Event) -> Answer
        requires { MayAsk self.old event }
        ensures answered { (s : Start) (es : List Entry) → StandsFor s self.old es → MayStand es event →
            IsAnswered (run (start_world s) es)
            (record { caller = caller; event = event; reply = reply_of result }) }
        ensures stands { (s : Start) (es : List Entry) → StandsFor s self.old es → MayStand es event →
            StandsFor s self.new
            (es ++ record { caller = caller; event = event; reply = reply_of result } ∷ []) }
        // At all times some history is stood for.
        ensures some { StandsForSome self.old }
        // A piece that found no memory comes back.
        ensures hands_back { HandsBack event result }
        // Each event is answered in its own kind; a version is of the kind that the read named.
        ensures fits { IsReplyTo event (reply_of result) }
    {
        match event {
            Event::Begin => self.state.begin(alloc, caller),
            Event::Next { kind, after, when } => self.state.next(caller, kind, after, when),
            Event::Read { x, when } => self.state.read(alloc, caller, x, when),
            Event::Write(ask) => self.state.write(alloc, caller, ask),
            Event::Commit => self.state.commit(caller),
            Event::Abort => self.state.abort(caller),
            Event::Mark => self.state.mark(caller),
            Event::Lift(x) => self.state.lift(alloc, caller, x),
            Event::Install(piece) => self.state.install(caller, piece),
            Event::Stats => self.state.stats(caller),
        }
    }
}
