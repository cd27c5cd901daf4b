//! What collectors ask for.
ghost use Rattle.std.specs.Prelude.{◌≡◌, IfOk};
ghost use Rattle.world_model.specs.Placement.{lifted_of};
ghost use Rattle.world_model.specs.World.{World};
ghost use Rattle.world_model.specs.Replies.{IsHandedBack};
ghost use Rattle.world_model.specs.Reply.{reply_of};
ghost use Rattle.front_core.specs.Keeps.{FitsSome, Keeps, KeepsSome, ObeysAll, ObeysWith};

use crate::NoMemory;
use crate::row::Row;
use crate::state::State;
use graph_value::Oid;
use std::alloc::Global;
use world_model::{Answer, Event, Lifted, Piece, Refused, Stats};

impl State {
    /// Copies what has expired of an object's chain.
    pub fn lift(&self, alloc: Global, caller: u64, x: Oid) -> Answer
        ensures { ObeysAll self.now self.now
            (record { caller = caller; event = Event.Lift x; reply = reply_of result }) }
    {
        if !self.objects.is_given(x) {
            return Answer::Refused(Refused::Missing(x));
        }
        match self.lifted(alloc, x) {
            Ok(lifted) => Answer::Lifted(lifted),
            Err(_) => Answer::Refused(Refused::NoMemory),
        }
    }

    fn lifted(&self, alloc: Global, x: Oid) -> Result<Lifted, NoMemory>
        ensures { IfOk result (λ lifted. (w : World) → Keeps self.now w →
            lifted ≡ lifted_of w x) }
    {
        let nobody = Row::new(alloc);
        let row = self.objects.row_or(x, &nobody);
        let mark = self.transactions.mark();
        Ok(Lifted {
            x,
            cut: self.histories.cut(x),
            mark,
            k: self.histories.interval,
            tail: row.tail_below(alloc, mark)?,
            older: self.histories.block_with_room(x)?,
        })
    }

    /// Moves what was lifted from the object's chain into its history. What the piece lacks of memory is found before
    /// anything is changed.
    pub fn install(&mut self, caller: u64, piece: Piece) -> Answer
        requires { FitsSome self.old piece }
        ensures obeys { ObeysWith piece self.old self.new
            (record { caller = caller; event = Event.Install piece; reply = reply_of result }) }
        ensures back { IsHandedBack piece result }
    {
        let cut = self.histories.cut(piece.x);
        if cut != piece.cut {
            return Answer::Refused(Refused::Stale { cut });
        }
        let Piece {
            x,
            cut,
            mark,
            moved,
            blocks,
        } = piece;
        let replaces = self.histories.has_room(x);
        match self.histories.extend(x, replaces, blocks, mark) {
            Ok(()) => {
                self.objects.cut_below(x, mark);
                Answer::Installed
            }
            Err(blocks) => Answer::NotInstalled(Piece {
                x,
                cut,
                mark,
                moved,
                blocks,
            }),
        }
    }

    /// How many deltas and blocks there are. It looks at what is kept, and costs the same at any size.
    pub fn stats(&self, caller: u64) -> Answer
        requires { KeepsSome self.now }
        ensures { ObeysAll self.now self.now
            (record { caller = caller; event = Event.Stats; reply = reply_of result }) }
    {
        let history = self.histories.counts();
        Answer::Stats(Stats {
            chain: self.tally.committed - history.deltas,
            history: history.deltas,
            blocks: history.blocks,
        })
    }
}
