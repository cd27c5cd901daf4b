ghost use Rattle.std.specs.Prelude.{◌≡◌, ◌<◌, IfOk};
ghost use Rattle.anchor_store.specs.Groups.{AreDescending};

use crate::{Block, Found, NoMemory, build, finished};
use std::alloc::Global;
use std::marker::Brand;
use std::process::Abort;
use std::sync::Arc;
use std::sync::ledger::{Blank, Ledger};
use std::test::Fail;
use undo_law::{Dated, DatedDeltas, Digits, Steps, Tail};

/// The digits 5 to 1, the newest first, of the timestamps 10, 8, .. 2. They lead back from 9.
fn sample(alloc: Global) -> Result<Tail<Digits>, NoMemory>
    ensures { IfOk result (λ tail. AreDescending tail.deltas) }
{
    let deltas = vec![in alloc;
        Dated { ts: 10, delta: 5 },
        Dated { ts: 8, delta: 4 },
        Dated { ts: 6, delta: 3 },
        Dated { ts: 4, delta: 2 },
        Dated { ts: 2, delta: 1 },
    ]?;
    Ok(Tail {
        newest: 9,
        deltas: DatedDeltas::from_vec(deltas),
    })
}

/// What a block has at an instant.
fn object_at<L: Ledger>(
    alloc: Global,
    blank: Blank,
    block: &Block<Digits>,
    t: u64,
) -> Result<u64, NoMemory>
    requires name { blank.name ≡ L.name }
    requires parts { blank.parts ≡ L.parts }
    requires some { 0 < L.parts }
{
    let mut steps = Steps::<L>::open(blank);
    block.rebuild(alloc, t, &mut steps)
}

/// Compares the blocks, the oldest first: the number of deltas, the newest timestamp, and the object before all deltas.
fn compare(
    rt: &impl Abort,
    alloc: Global,
    blocks: &[Arc<Block<Digits>>],
    wanted: &[(u64, u64, u64)],
) -> Result<(), NoMemory> {
    assert_eq!(rt; blocks.len(), wanted.len());
    for (block, (len, stamp, object)) in blocks.iter().zip(wanted) {
        assert_eq!(rt; block.len(), *len);
        assert_eq!(rt; block.newest_stamp(), *stamp);
        let found = object_at::<Brand>(alloc, Blank::new(1), block, 0)?;
        assert_eq!(rt; found, *object);
    }
    Ok(())
}

#[test]
fn groups_grow_from_the_oldest_on(rt: HostRuntime) -> Result<(), Fail> {
    let alloc = rt.alloc();
    let built = build::<Digits>(alloc, None, sample(alloc)?, 1)?;
    let wanted = [
        (1, 2, 954321),
        (1, 4, 95432),
        (1, 6, 9543),
        (1, 8, 954),
        (1, 10, 95),
    ];
    compare(&rt, alloc, built.as_slice(), &wanted)?;
    let built = build::<Digits>(alloc, None, sample(alloc)?, 2)?;
    let wanted = [(2, 4, 954321), (2, 8, 9543), (1, 10, 95)];
    compare(&rt, alloc, built.as_slice(), &wanted)?;
    let built = build::<Digits>(alloc, None, sample(alloc)?, 3)?;
    let wanted = [(3, 6, 954321), (2, 10, 954)];
    compare(&rt, alloc, built.as_slice(), &wanted)?;
    Ok(())
}

/// The blocks of an older one and of the digits 8 and 7 at the last instant, which lead back from 6.
fn fill_up(
    alloc: Global,
    older: &Block<Digits>,
    interval: u64,
) -> Result<Vec<Arc<Block<Digits>>>, NoMemory> {
    let _order = older.deltas();
    let _stamp = older.newest_stamp();
    let deltas = vec![in alloc;
        Dated {
            ts: u64::MAX,
            delta: 8
        },
        Dated {
            ts: u64::MAX,
            delta: 7
        },
    ]?;
    let tail = Tail {
        newest: 6,
        deltas: DatedDeltas::from_vec(deltas),
    };
    build::<Digits>(alloc, Some(older), tail, interval)
}

#[test]
fn a_smaller_block_is_filled_up(rt: HostRuntime) -> Result<(), Fail> {
    let alloc = rt.alloc();
    let built = build::<Digits>(alloc, None, sample(alloc)?, 4)?;
    assert_eq!(rt; built.len(), 2);
    let grown = fill_up(alloc, &built[1], 2)?;
    let wanted = [(2, u64::MAX, 6875), (1, u64::MAX, 68)];
    compare(&rt, alloc, grown.as_slice(), &wanted)?;
    Ok(())
}

#[test]
fn a_block_has_its_instants(rt: HostRuntime) -> Result<(), Fail> {
    let alloc = rt.alloc();
    let built = build::<Digits>(alloc, None, sample(alloc)?, 3)?;
    assert_eq!(rt; built.len(), 2);
    let rows = [
        (0, 954321),
        (1, 954321),
        (2, 95432),
        (3, 95432),
        (4, 9543),
        (5, 9543),
        (6, 954),
        (u64::MAX, 954),
    ];
    for (t, wanted) in rows {
        let found = Found::InBlock(Arc::try_clone(&built[0])?, t);
        let object = finished(alloc, found)?;
        assert_eq!(rt; object, wanted, "at {t}");
    }
    let ready = finished::<Digits>(alloc, Found::Ready(7))?;
    assert_eq!(rt; ready, 7);
    Ok(())
}
