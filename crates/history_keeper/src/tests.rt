ghost use Rattle.std.specs.Prelude.{◌≡◌, ◌<◌, IfOk, length};
ghost use Rattle.anchor_store.specs.Groups.{AreDescending};

use crate::{Counts, Keeper, NoMemory};
use anchor_store::laws::blocks_have_the_deltas;
use anchor_store::{Block, build};
use std::alloc::Global;
use std::sync::Arc;
use std::test::Fail;
use undo_law::{Dated, DatedDeltas, Digits, Tail};

/// The digits 5 to 1, the newest first, of the timestamps 10, 8, .. 2. They lead back from 9.
fn sample(alloc: Global) -> Result<Tail<Digits>, NoMemory>
    ensures { IfOk result (λ tail. AreDescending tail.deltas) }
{
    let deltas = vec![in alloc;
        Dated { ts: 10, delta: 5 },
        Dated { ts: 8, delta: 4 },
        Dated { ts: 6, delta: 3 },
        Dated { ts: 4, delta: 2 },
        Dated { ts: 2, delta: 1 },
    ]?;
    Ok(Tail {
        newest: 9,
        deltas: DatedDeltas::from_vec(deltas),
    })
}

/// Row 0 has the sample in blocks of 2, 2 and 1 deltas, whose newest timestamps are 4, 8 and 10, and the cut 11.
fn filled(alloc: Global) -> Result<Keeper<Digits>, NoMemory>
    ensures { IfOk result (λ keeper. length keeper ≡ 1) }
{
    let mut keeper = Keeper::new(alloc);
    let row = keeper.add_row(alloc)?;
    let built = build::<Digits>(alloc, None, sample(alloc)?, 2)?;
    blocks_have_the_deltas::<Digits>();
    match keeper.extend(row, false, built, 11) {
        Ok(()) => Ok(keeper),
        Err((_, refused)) => Err(refused),
    }
}

fn stamp_of(found: Option<&Arc<Block<Digits>>>) -> Option<u64> {
    match found {
        None => None,
        Some(block) => Some(block.newest_stamp()),
    }
}

#[test]
fn the_oldest_block_with_a_later_delta_is_located(rt: HostRuntime) -> Result<(), Fail> {
    let keeper = filled(rt.alloc())?;
    let rows = [
        (0, Some(4)),
        (3, Some(4)),
        (4, Some(8)),
        (7, Some(8)),
        (8, Some(10)),
        (9, Some(10)),
        (10, None),
        (u64::MAX, None),
    ];
    for (t, wanted) in rows {
        assert_eq!(rt; stamp_of(keeper.locate(0, t)), wanted, "at {t}");
    }
    let rows = [
        (0, Some(4)),
        (1, Some(8)),
        (2, Some(10)),
        (3, None),
        (u64::MAX, None),
    ];
    for (place, wanted) in rows {
        assert_eq!(rt;
            stamp_of(keeper.block(0, place)),
            wanted,
            "at place {place}"
        );
    }
    Ok(())
}

/// Drops the newest block of row 0.
fn drop_newest(alloc: Global, keeper: &mut Keeper<Digits>, cut: u64) -> Result<(), NoMemory>
    requires { 0 < length keeper.old }
    ensures { length keeper.new ≡ length keeper.old }
{
    let _order = keeper.cut(0);
    match keeper.extend(0, true, Vec::new(alloc), cut) {
        Ok(()) => Ok(()),
        Err((_, refused)) => Err(refused),
    }
}

#[test]
fn the_newest_block_is_replaced(rt: HostRuntime) -> Result<(), Fail> {
    let mut keeper = filled(rt.alloc())?;
    let rows = [
        (Some(10), 5, 3, 12),
        (Some(8), 4, 2, 13),
        (Some(4), 2, 1, 14),
        (None, 0, 0, 15),
        (None, 0, 0, 16),
    ];
    for (newest, deltas, blocks, cut) in rows {
        assert_eq!(rt; stamp_of(keeper.newest(0)), newest);
        assert_eq!(rt; keeper.counts(), Counts { deltas, blocks });
        drop_newest(rt.alloc(), &mut keeper, cut)?;
        assert_eq!(rt; keeper.cut(0), cut);
    }
    Ok(())
}
