use crate::{Chain, NoMemory};
use std::alloc::Global;
use std::process::Abort;
use std::test::Fail;
use undo_law::{Dated, Digits};

/// Stamps, where the timestamp is above the newest one.
fn commit(rt: &impl Abort, chain: &mut Chain<Digits>, ts: u64) {
    match chain.newest_commit() {
        None => chain.stamp(ts),
        Some(newest) => {
            assert!(rt; newest < ts);
            chain.stamp(ts);
        }
    }
}

fn push(chain: &mut Chain<Digits>, digit: u64) -> Result<(), NoMemory> {
    match chain.push_open(digit) {
        Ok(()) => Ok(()),
        Err((_, refused)) => Err(refused),
    }
}

/// Newest first: 6 and 5 are open, 4 of 7, 3 and 2 of 5, 1 of 3.
fn sample(rt: &impl Abort, alloc: Global) -> Result<Chain<Digits>, NoMemory> {
    let mut chain = Chain::new(alloc);
    push(&mut chain, 1)?;
    commit(rt, &mut chain, 3);
    push(&mut chain, 2)?;
    push(&mut chain, 3)?;
    commit(rt, &mut chain, 5);
    push(&mut chain, 4)?;
    commit(rt, &mut chain, 7);
    push(&mut chain, 5)?;
    push(&mut chain, 6)?;
    Ok(chain)
}

fn listed(alloc: Global, chain: &Chain<Digits>) -> Result<Vec<(Option<u64>, u64)>, NoMemory> {
    let mut list = Vec::new(alloc);
    for i in 0..chain.len() {
        list.push((chain.stamp_of(i), *chain.delta(i)))?;
    }
    Ok(list)
}

fn tail_of(
    alloc: Global,
    chain: &Chain<Digits>,
    mark: u64,
) -> Result<(u64, Vec<(u64, u64)>), NoMemory> {
    let tail = chain.tail_below(alloc, &9, mark)?;
    let mut list = Vec::new(alloc);
    for Dated { ts, delta } in tail.deltas.as_slice() {
        list.push((*ts, *delta))?;
    }
    Ok((tail.newest, list))
}

#[test]
fn a_chain_is_listed_from_its_newest(rt: HostRuntime) -> Result<(), Fail> {
    let mut chain = sample(&rt, rt.alloc())?;
    let list = listed(rt.alloc(), &chain)?;
    let wanted = [
        (None, 6),
        (None, 5),
        (Some(7), 4),
        (Some(5), 3),
        (Some(5), 2),
        (Some(3), 1),
    ];
    assert_eq!(rt; list.as_slice(), wanted.as_slice());
    assert_eq!(rt; chain.newest_commit(), Some(7));
    chain.drop_open();
    let list = listed(rt.alloc(), &chain)?;
    assert_eq!(rt; list.as_slice(), &wanted[2..]);
    Ok(())
}

#[test]
fn the_newest_open_delta_is_taken_off(rt: HostRuntime) -> Result<(), Fail> {
    let mut chain = sample(&rt, rt.alloc())?;
    if let Err((_, refused)) = chain.push_open(8) {
        return Err(refused.into());
    }
    assert_eq!(rt; chain.pop_open(), 8);
    assert_eq!(rt; chain.len(), 6);
    Ok(())
}

/// Reserves room for two deltas, and fills it with 7 and then 8.
fn fill_reserved(alloc: Global, chain: &mut Chain<Digits>) -> Result<(), NoMemory> {
    chain.reserve(alloc, 2)?;
    chain.push_reserved(7);
    chain.push_reserved(8);
    Ok(())
}

#[test]
fn reserved_room_is_filled(rt: HostRuntime) -> Result<(), Fail> {
    let mut chain = Chain::new(rt.alloc());
    fill_reserved(rt.alloc(), &mut chain)?;
    commit(&rt, &mut chain, 4);
    fill_reserved(rt.alloc(), &mut chain)?;
    let list = listed(rt.alloc(), &chain)?;
    let wanted = [(None, 8), (None, 7), (Some(4), 8), (Some(4), 7)];
    assert_eq!(rt; list.as_slice(), wanted.as_slice());
    Ok(())
}

#[test]
fn versions_are_undone(rt: HostRuntime) -> Result<(), Fail> {
    let chain = sample(&rt, rt.alloc())?;
    let rows = [
        (0, 9654321, 6),
        (2, 9654321, 6),
        (3, 965432, 5),
        (4, 965432, 5),
        (5, 9654, 3),
        (6, 9654, 3),
        (7, 965, 2),
        (u64::MAX, 965, 2),
    ];
    for (t, wanted, count) in rows {
        let object = chain.version_at(rt.alloc(), &9, t)?;
        assert_eq!(rt; object, wanted, "at {t}");
        assert_eq!(rt; chain.count_after(t), count, "after {t}");
    }
    Ok(())
}

#[test]
fn tails_begin_below_the_mark(rt: HostRuntime) -> Result<(), Fail> {
    let chain = sample(&rt, rt.alloc())?;
    let all = [(7, 4), (5, 3), (5, 2), (3, 1)];
    let rows = [
        (0, 9654321, 4),
        (3, 9654321, 4),
        (4, 965432, 3),
        (5, 965432, 3),
        (6, 9654, 1),
        (7, 9654, 1),
        (8, 965, 0),
        (u64::MAX, 965, 0),
    ];
    for (mark, object, from) in rows {
        let (newest, deltas) = tail_of(rt.alloc(), &chain, mark)?;
        assert_eq!(rt; newest, object, "below {mark}");
        assert!(rt; from <= all.len());
        assert_eq!(rt; deltas.as_slice(), &all[from..], "below {mark}");
    }
    Ok(())
}

#[test]
fn cuts_keep_what_is_not_below_the_mark(rt: HostRuntime) -> Result<(), Fail> {
    let rows = [
        (0, 0, 6),
        (3, 0, 6),
        (4, 1, 5),
        (6, 3, 3),
        (7, 3, 3),
        (8, 4, 2),
        (u64::MAX, 4, 2),
    ];
    for (mark, number, left) in rows {
        let mut chain = sample(&rt, rt.alloc())?;
        assert_eq!(rt; chain.cut_below(mark), number, "below {mark}");
        assert_eq!(rt; chain.len(), left, "below {mark}");
        let object = chain.version_at(rt.alloc(), &9, u64::MAX)?;
        assert_eq!(rt; object, 965, "below {mark}");
    }
    Ok(())
}

/// 2 of the last timestamp there is, 1 of the first.
fn widest(rt: &impl Abort, alloc: Global) -> Result<Chain<Digits>, NoMemory> {
    let mut chain = Chain::new(alloc);
    push(&mut chain, 1)?;
    commit(rt, &mut chain, 0);
    push(&mut chain, 2)?;
    commit(rt, &mut chain, u64::MAX);
    Ok(chain)
}

#[test]
fn versions_reach_both_ends(rt: HostRuntime) -> Result<(), Fail> {
    let chain = widest(&rt, rt.alloc())?;
    for (t, wanted) in [(0, 92), (u64::MAX - 1, 92), (u64::MAX, 9)] {
        let object = chain.version_at(rt.alloc(), &9, t)?;
        assert_eq!(rt; object, wanted, "at {t}");
    }
    Ok(())
}

#[test]
fn marks_reach_both_ends(rt: HostRuntime) -> Result<(), Fail> {
    for (mark, object, count) in [(0, 921, 0), (1, 92, 1), (u64::MAX, 92, 1)] {
        let mut chain = widest(&rt, rt.alloc())?;
        let (newest, deltas) = tail_of(rt.alloc(), &chain, mark)?;
        assert_eq!(rt; newest, object, "below {mark}");
        assert_eq!(rt; deltas.len(), count, "below {mark}");
        assert_eq!(rt; chain.cut_below(mark), count as u64, "below {mark}");
        assert_eq!(rt; chain.newest_commit(), Some(u64::MAX), "below {mark}");
    }
    Ok(())
}
