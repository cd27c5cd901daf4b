ghost use Rattle.std.specs.Prelude.{◌≡◌, ◌++◌, IfOk, OnOk, map};
ghost use Rattle.std.specs.Arc.{arc_value};
ghost use Rattle.std.specs.Option.{option_copied};
ghost use Rattle.undo_law.specs.Undone.{undone, deltas_of};
ghost use Rattle.anchor_store.specs.Blocks.{blocks, older_deltas};
ghost use Rattle.anchor_store.specs.Groups.{AreDescending, groups};

use crate::group::Groups;
use crate::{Block, NoMemory};
use std::alloc::Global;
use std::sync::Arc;
use undo_law::{Dated, DatedDeltas, Tail, Undo};

/// Builds the blocks of the deltas of a tail, which are newer, and of a block that is smaller than the interval, where
/// there is one: the deltas are grouped by the interval from the oldest on. The oldest block comes first. At an interval of
/// 0 each delta has a block of its own, as at 1. It undoes no delta of the oldest block.
pub fn build<U: Undo>(
    alloc: Global,
    older: Option<&Block<U>>,
    tail: Tail<U>,
    interval: u64,
) -> Result<Vec<Arc<Block<U>>>, NoMemory>
    requires { AreDescending (tail.deltas ++ older_deltas (option_copied older)) }
    ensures { IfOk result (λ built. map arc_value built.items ≡ blocks U.after interval tail.newest
        (tail.deltas ++ older_deltas (option_copied older.entry))) }
{
    let Tail { newest, deltas } = tail;
    let mut groups = older_groups::<U>(alloc, older, interval)?;
    groups.add_all(alloc, deltas, interval)?;
    let Some(newest_deltas) = groups.pop_newest() else {
        return Ok(Vec::new(alloc));
    };
    let mut built = Vec::with_capacity(alloc, groups.len() + 1)?;
    let mut anchor = newest;
    let mut deltas = newest_deltas;
    while let Some(older_deltas) = groups.pop_newest() {
        let older_anchor = led_back::<U>(alloc, &anchor, &deltas)?;
        built.push(Arc::new(alloc, Block::of(anchor, deltas))?)?;
        anchor = older_anchor;
        deltas = older_deltas;
    }
    built.push(Arc::new(alloc, Block::of(anchor, deltas))?)?;
    built.reverse();
    Ok(built)
}

/// The groups of an older block's deltas, which stays as it is.
fn older_groups<U: Undo>(
    alloc: Global,
    older: Option<&Block<U>>,
    interval: u64,
) -> Result<Groups<U::Delta>, NoMemory>
    ensures { IfOk result (λ made.
        made ≡ groups interval (older_deltas (option_copied older.entry))) }
{
    let mut made = Groups::new(alloc);
    match older {
        None => Ok(made),
        Some(block) => {
            made.add_all(alloc, copies::<U>(alloc, block.deltas())?, interval)?;
            Ok(made)
        }
    }
}

/// The same deltas, in memory of their own.
fn copies<U: Undo>(
    alloc: Global,
    deltas: &[Dated<U::Delta>],
) -> Result<DatedDeltas<U::Delta>, NoMemory>
    ensures { IfOk result (λ copies. copies ≡ deltas.now) }
{
    let mut copies = DatedDeltas::new(alloc);
    for dated in deltas {
        let delta = U::copy_delta(alloc, &dated.delta)?;
        copies.push(Dated {
            ts: dated.ts,
            delta,
        })?;
    }
    Ok(copies)
}

/// The object that the deltas lead back to.
fn led_back<U: Undo>(
    alloc: Global,
    object: &U::Object,
    deltas: &DatedDeltas<U::Delta>,
) -> Result<U::Object, NoMemory>
    ensures { IfOk result (λ older. older ≡ undone U.after object.now (deltas_of deltas.now)) }
{
    let mut older = U::copy_object(alloc, object)?;
    for dated in deltas.as_slice() {
        U::apply(alloc, &mut older, &dated.delta)?;
    }
    Ok(older)
}
