ghost use Rattle.std.specs.Prelude.{◌≤◌, IfOk};
ghost use Rattle.graph_shell.specs.Events.{answer_wish};
ghost use Rattle.event_lines.specs.Reply.{caller_text};
ghost use Rattle.graph_shell.specs.Runs.{IsAnchor};
ghost use Rattle.graph_shell.specs.Stands.{AnswersLine, Past, Stands, no_past, past_of};
ghost use Rattle.event_lines.specs.Told.{IsSayable, IsToldTo, IsWithoutPiece, told_text, wished};

use crate::NoMemory;
use crate::kept::Kept;
use event_lines::{Told, Wish};
use front_core::Core;
use graph_value::Oid;
use std::alloc::Global;
use std::marker::Model;
use txn_manager::CLOCK_END;
use world_model::{Answer, Event, ID_END};

/// The store, and the pieces that its callers keep. What it stands for is a history, and pieces of that history.
#[derive(Drop)]
pub struct Shell {
    core: Core,
    kept: Kept,
}

impl Model for Shell {
    ghost use Rattle.graph_shell.specs.Stands.{ShellParts, StandsSome};
    ghost use Rattle.graph_value.specs.contracts.value.Value as property_value;
    ghost use Rattle.std.specs.Coded.{codes};

    ghost Value = { ShellParts };

    ghost coded = { Prim.hlevel (codes, property_value.the_row.coded) };

    ghost view = { λ s. record { core = s.core; places = s.kept.places.entries } };

    ghost invariant = { λ s. StandsSome (record { core = s.core; places = s.kept.places.entries }) };
}

impl Shell {
    /// A store in which nothing has happened, and no piece. `anchor` is the number of deltas in a block of history, from
    /// 1 to 1,024.
    ///
    /// The error says that memory was wanting.
    pub fn new(alloc: Global, anchor: u64) -> Result<Shell, NoMemory>
        requires anchor { IsAnchor anchor }
        ensures { IfOk result (λ shell. Stands shell (no_past anchor)) }
    {
        Ok(Shell {
            core: Core::new(alloc, anchor)?,
            kept: Kept::new(alloc),
        })
    }

    /// The same, where the clock and the counters begin with these numbers, each at most 2^62 and the clock at least 1.
    pub fn new_at(
        alloc: Global,
        anchor: u64,
        clock: u64,
        vertices: u64,
        edges: u64,
    ) -> Result<Shell, NoMemory>
        requires anchor { IsAnchor anchor }
        requires begun { 1 ≤ clock }
        requires clock_range { clock ≤ CLOCK_END }
        requires vertex_range { vertices ≤ ID_END }
        requires edge_range { edges ≤ ID_END }
        ensures { IfOk result (λ shell. Stands shell (past_of
            (record { interval = anchor; clock = clock; vertices = vertices; edges = edges }))) }
    {
        Ok(Shell {
            core: Core::new_at(alloc, anchor, clock, vertices, edges)?,
            kept: Kept::new(alloc),
        })
    }

    /// Does what a caller wishes, and says what it is told.
    ///
    /// Whatever past the shell stands for, it is told what the definition says, and the shell then stands for the past
    /// that this leads to.
    pub fn perform(&mut self, alloc: Global, caller: u64, wish: Wish) -> Told
        requires { IsSayable wish }
        ensures answers { (past : Past) → Stands self.old past →
            AnswersLine (λ wanting kept. answer_wish wanting kept caller wish) (Stands self.new)
            (caller_text caller (told_text (wished wish) result)) past }
        ensures fits { IsToldTo (wished wish) result }
    {
        match wish {
            Wish::Event(event) => self.take(alloc, caller, event),
            Wish::Install(x) => self.install(alloc, caller, x),
        }
    }

    /// Takes an event to the store. What was lifted is kept as a piece.
    fn take(&mut self, alloc: Global, caller: u64, event: Event) -> Told
        requires { IsWithoutPiece event }
        ensures answers { (past : Past) → Stands self.old past →
            AnswersLine (λ wanting kept. answer_wish wanting kept caller (Wish.Event event))
            (Stands self.new) (caller_text caller (told_text (wished (Wish.Event event)) result)) past }
        ensures fits { IsToldTo (wished (Wish.Event event)) result }
    {
        match self.core.step(alloc, caller, event) {
            Answer::Lifted(lifted) => self.kept.keep_lifted(alloc, caller, lifted),
            Answer::Version(found) => Told::version(alloc, found),
            answer => Told::Answer(answer),
        }
    }

    /// Installs the piece that the caller keeps of an object. It keeps it no longer, unless memory was wanting.
    fn install(&mut self, alloc: Global, caller: u64, x: Oid) -> Told
        ensures answers { (past : Past) → Stands self.old past →
            AnswersLine (λ wanting kept. answer_wish wanting kept caller (Wish.Install x))
            (Stands self.new) (caller_text caller (told_text (wished (Wish.Install x)) result)) past }
        ensures fits { IsToldTo (wished (Wish.Install x)) result }
    {
        let Some(piece) = self.kept.take(caller, x) else {
            return Told::NoPiece;
        };
        let mark = piece.mark;
        match self.core.step(alloc, caller, Event::Install(piece)) {
            Answer::NotInstalled(piece) => {
                self.kept.put_back(caller, x, piece);
                Told::wanting()
            }
            Answer::Installed => Told::Installed { x, mark },
            answer => Told::Answer(answer),
        }
    }
}
