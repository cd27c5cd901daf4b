ghost use Rattle.std.specs.Prelude.{◌≡◌, ◌<◌, IfOk, length};
ghost use Rattle.anchor_store.specs.Groups.{AreDescending};

use crate::{NoMemory, version};
use anchor_store::laws::blocks_have_the_deltas;
use anchor_store::{Found, build, finish};
use history_keeper::Keeper;
use std::alloc::Global;
use std::marker::Brand;
use std::process::Abort;
use std::sync::ledger::{Blank, Ledger};
use std::test::Fail;
use undo_law::{Dated, DatedDeltas, Digits, Steps, Tail};
use version_chain::Chain;

/// The digits 5 to 1, the newest first, of the timestamps 10, 8, .. 2. They lead back from 1876.
fn sample(alloc: Global) -> Result<Tail<Digits>, NoMemory>
    ensures { IfOk result (λ tail. AreDescending tail.deltas) }
{
    let deltas = vec![in alloc;
        Dated { ts: 10, delta: 5 },
        Dated { ts: 8, delta: 4 },
        Dated { ts: 6, delta: 3 },
        Dated { ts: 4, delta: 2 },
        Dated { ts: 2, delta: 1 },
    ]?;
    Ok(Tail {
        newest: 1876,
        deltas: DatedDeltas::from_vec(deltas),
    })
}

/// Row 0 has the sample in blocks of 2, 2 and 1 deltas.
fn filled(alloc: Global) -> Result<Keeper<Digits>, NoMemory>
    ensures { IfOk result (λ keeper. length keeper ≡ 1) }
{
    let mut keeper = Keeper::new(alloc);
    let row = keeper.add_row(alloc)?;
    let built = build::<Digits>(alloc, None, sample(alloc)?, 2)?;
    blocks_have_the_deltas::<Digits>();
    match keeper.extend(row, false, built, 11) {
        Ok(()) => Ok(keeper),
        Err((_, refused)) => Err(refused),
    }
}

fn push(chain: &mut Chain<Digits>, digit: u64) -> Result<(), NoMemory> {
    match chain.push_open(digit) {
        Ok(()) => Ok(()),
        Err((_, refused)) => Err(refused),
    }
}

/// Newest first: 8 is open, 7 of 14, 6 of 12. They lead back from 1.
fn chained(rt: &impl Abort, alloc: Global) -> Result<Chain<Digits>, NoMemory> {
    let mut chain = Chain::new(alloc);
    push(&mut chain, 6)?;
    assert_eq!(rt; chain.newest_commit(), None);
    chain.stamp(12);
    push(&mut chain, 7)?;
    assert_eq!(rt; chain.newest_commit(), Some(12));
    chain.stamp(14);
    push(&mut chain, 8)?;
    Ok(chain)
}

/// Whether the version is in a block, and the version.
fn found_at<L: Ledger>(
    alloc: Global,
    blank: Blank,
    chain: &Chain<Digits>,
    keeper: &Keeper<Digits>,
    t: u64,
) -> Result<(bool, u64), NoMemory>
    requires name { blank.name ≡ L.name }
    requires parts { blank.parts ≡ L.parts }
    requires some { 0 < L.parts }
    requires row { 0 < length keeper.now }
{
    let mut steps = Steps::<L>::open(blank);
    let found = version(alloc, &1, chain, keeper, 0, t)?;
    let in_block = matches!(&found, Found::InBlock(_, _));
    let object = finish(alloc, found, &mut steps)?;
    Ok((in_block, object))
}

#[test]
fn versions_are_in_blocks_and_in_the_chain(rt: HostRuntime) -> Result<(), Fail> {
    let alloc = rt.alloc();
    let keeper = filled(alloc)?;
    let chain = chained(&rt, alloc)?;
    let rows = [
        (0, true, 187654321),
        (1, true, 187654321),
        (2, true, 18765432),
        (3, true, 18765432),
        (4, true, 1876543),
        (6, true, 187654),
        (7, true, 187654),
        (8, true, 18765),
        (9, true, 18765),
        (10, false, 1876),
        (11, false, 1876),
        (12, false, 187),
        (14, false, 18),
        (u64::MAX, false, 18),
    ];
    for (t, in_block, object) in rows {
        let found = found_at::<Brand>(alloc, Blank::new(1), &chain, &keeper, t)?;
        assert_eq!(rt; found, (in_block, object), "at {t}");
    }
    Ok(())
}
