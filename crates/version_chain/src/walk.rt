// What is done to the entries at one end of a chain.
ghost use Rattle.std.specs.Prelude.{◌≡◌, ◌≤◌, ◌++◌, IfOk, map, take, drop};
ghost use Rattle.std.specs.List.{filter_map};
ghost use Rattle.std.specs.VecDeque.{deque_len};
ghost use Rattle.undo_law.specs.Undone.{undone};
ghost use Rattle.version_chain.specs.Entry.{stamped, dated};
ghost use Rattle.version_chain.specs.Parts.{deltas_of};

use crate::{Entry, NoMemory};
use std::alloc::Global;
use std::collections::VecDeque;
use undo_law::{Dated, DatedDeltas, Undo};

/// The object with the first entries undone.
pub fn undo_first<U: Undo>(
    alloc: Global,
    newest: &U::Object,
    entries: &VecDeque<Entry<U::Delta>>,
    count: usize,
) -> Result<U::Object, NoMemory>
    requires { count ≤ deque_len entries.now }
    ensures { IfOk result (λ object.
        object ≡ undone U.after newest.now (deltas_of (take count entries.now.items))) }
{
    let mut object = U::copy_object(alloc, newest)?;
    for i in 0..count {
        U::apply(alloc, &mut object, &entries[i].delta)?;
    }
    Ok(object)
}

/// Copies of the committed entries from a place on.
pub fn copy_rest<U: Undo>(
    alloc: Global,
    entries: &VecDeque<Entry<U::Delta>>,
    from: usize,
) -> Result<DatedDeltas<U::Delta>, NoMemory>
    requires { from ≤ deque_len entries.now }
    ensures { IfOk result (λ deltas. deltas ≡ filter_map dated (drop from entries.now.items)) }
{
    let mut deltas = DatedDeltas::new(alloc);
    for i in from..entries.len() {
        let entry = &entries[i];
        if let Some(ts) = entry.stamp {
            let delta = U::copy_delta(alloc, &entry.delta)?;
            deltas.push(Dated { ts, delta })?;
        }
    }
    Ok(deltas)
}

/// Gives the open ones among the first entries the timestamp.
pub fn stamp_first<D: Drop>(entries: &mut VecDeque<Entry<D>>, count: usize, ts: u64)
    requires { count ≤ deque_len entries.old }
    ensures items { entries.new.items
        ≡ map (stamped ts) (take count entries.old.items) ++ drop count entries.old.items }
    ensures len { deque_len entries.new ≡ deque_len entries.old }
{
    for i in 0..count {
        let entry = &mut entries[i];
        entry.stamp = Some(entry.stamp.unwrap_or(ts));
    }
}

/// Drops the first entries.
pub fn drop_first<D: Drop>(entries: &mut VecDeque<Entry<D>>, count: usize)
    ensures { entries.new.items ≡ drop count entries.old.items }
{
    for _i in 0..count {
        let _ = entries.pop_front();
    }
}
