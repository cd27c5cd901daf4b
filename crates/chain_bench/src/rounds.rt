ghost use Rattle.std.specs.Prelude.{◌+◌, ◌^◌, ◌<◌};

use std::alloc::Global;
use undo_law::{Digits, NoMemory};
use version_chain::Chain;

fn push(chain: &mut Chain<Digits>, delta: u64) -> Result<(), NoMemory> {
    match chain.push_open(delta) {
        Ok(()) => Ok(()),
        Err((_, refused)) => Err(refused),
    }
}

/// Commits one delta, where the timestamp is above the newest one.
fn commit(chain: &mut Chain<Digits>, ts: u64) -> Result<(), NoMemory> {
    push(chain, 1)?;
    match chain.newest_commit() {
        None => chain.stamp(ts),
        Some(newest) => {
            if newest < ts {
                chain.stamp(ts);
            }
        }
    }
    Ok(())
}

/// A chain of that many commits, with the timestamps from 1 on.
pub fn build(alloc: Global, size: u64) -> Result<Chain<Digits>, NoMemory> {
    let mut chain = Chain::new(alloc);
    commit_each(&mut chain, 0, size)?;
    Ok(chain)
}

/// Commits one delta a round, with the timestamps above the last one.
pub fn commit_each(chain: &mut Chain<Digits>, last: u64, rounds: u64) -> Result<(), NoMemory>
    requires { last + rounds < 2 ^ 64 }
{
    for i in 0..rounds {
        commit(chain, last + i + 1)?;
    }
    Ok(())
}

/// Pushes a delta and takes it off again, each round.
pub fn push_and_pop(chain: &mut Chain<Digits>, rounds: u64) -> Result<u64, NoMemory> {
    let mut sum: u64 = 0;
    for i in 0..rounds {
        match chain.push_open(i) {
            Ok(()) => sum = sum.wrapping_add(chain.pop_open()),
            Err((_, refused)) => return Err(refused),
        }
    }
    Ok(sum)
}

/// Reads the newest timestamp, each round.
pub fn read_newest_commit(chain: &Chain<Digits>, rounds: u64) -> u64 {
    let mut sum: u64 = 0;
    for _i in 0..rounds {
        sum = sum.wrapping_add(chain.newest_commit().unwrap_or(0));
    }
    sum
}

/// Reads the version at an instant, each round.
pub fn read_version(
    alloc: Global,
    chain: &Chain<Digits>,
    t: u64,
    rounds: u64,
) -> Result<u64, NoMemory> {
    let mut sum: u64 = 0;
    for i in 0..rounds {
        let object = chain.version_at(alloc, &i, t)?;
        sum = sum.wrapping_add(object);
    }
    Ok(sum)
}

/// Cuts off the oldest delta, each round, of those that `build` made.
pub fn cut_each(chain: &mut Chain<Digits>, rounds: u64) -> u64
    requires { rounds < 2 ^ 63 }
{
    let mut dropped: u64 = 0;
    for i in 0..rounds {
        dropped = dropped.wrapping_add(chain.cut_below(i + 2));
    }
    dropped
}
