ghost use Rattle.std.specs.Prelude.{◌≡◌, ◌+◌, ◌<◌, ◌≤◌, IfOk, OnOk, length, map, slice_get};
ghost use Rattle.anchor_store.specs.Blocks.{IsBlock, version};
ghost use Rattle.anchor_store.specs.Groups.{AreAtMost, later};

use crate::NoMemory;
use std::alloc::Global;
use std::marker::Model;
use std::sync::ledger::Ledger;
use undo_law::{Dated, DatedDeltas, Steps, Undo};

/// An object, and the older deltas that lead back from it. Contracts see the two, the newest delta first.
#[derive(Drop)]
pub struct Block<U: Undo> {
    anchor: U::Object,
    deltas: DatedDeltas<U::Delta>,
}

impl<U: Undo> Model for Block<U> {
    ghost use Rattle.anchor_store.specs.Blocks.{BlockParts, IsBlock};

    ghost Value = { BlockParts U.Object U.Delta };

    ghost view = { λ b. record { anchor = b.anchor; deltas = b.deltas } };

    ghost invariant = { λ b. IsBlock b.deltas };
}

impl<U: Undo> Block<U> {
    /// The block of an object and the deltas that lead back from it.
    pub(crate) fn of(anchor: U::Object, deltas: DatedDeltas<U::Delta>) -> Block<U>
        requires { IsBlock deltas }
        ensures { result ≡ record { anchor = anchor; deltas = deltas } }
    {
        Block { anchor, deltas }
    }

    /// The object after the newest delta. Takes no memory.
    pub fn anchor(&self) -> &U::Object
        ensures { result.now ≡ self.now.anchor }
    {
        &self.anchor
    }

    /// The deltas, the newest first. Takes no memory.
    pub fn deltas(&self) -> &[Dated<U::Delta>]
        ensures value { result.now ≡ self.now.deltas }
        ensures form { IsBlock self.now.deltas }
    {
        self.deltas.as_slice()
    }

    /// The number of deltas, at least one. Takes no memory.
    pub fn len(&self) -> u64
        ensures value { result ≡ length self.now.deltas }
        ensures some { 0 < result }
    {
        self.deltas.len()
    }

    /// The timestamp of the newest delta, which is the greatest. Takes no memory.
    pub fn newest_stamp(&self) -> u64
        ensures first { slice_get (map (λ d. d.ts) self.now.deltas) 0 ≡ Some result }
        ensures greatest { AreAtMost result self.now.deltas }
    {
        self.deltas.as_slice()[0].ts
    }

    /// The object as it was at the instant t: the anchor with the later deltas undone, each of which is counted.
    pub fn rebuild<L: Ledger>(
        &self,
        alloc: Global,
        t: u64,
        steps: &mut Steps<L>,
    ) -> Result<U::Object, NoMemory>
        ensures object { IfOk result (λ object. object ≡ version U.after self.now t) }
        ensures steps { OnOk result (steps.new ≡ steps.old + length (later t self.now.deltas)) }
        ensures bound { steps.new ≤ steps.old + length self.now.deltas }
    {
        let mut object = U::copy_object(alloc, &self.anchor)?;
        for dated in self.deltas.as_slice() {
            if t < dated.ts {
                steps.apply::<U>(alloc, &mut object, &dated.delta)?;
            }
        }
        Ok(object)
    }
}
