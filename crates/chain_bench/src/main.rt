//! What the operations on one object's chain cost, at a length that is given as the program's only word.
//! Without a word it does a few of each and prints their counts, which are the same everywhere.
#![tactic(auto)]

ghost use Rattle.std.specs.Prelude.{◌<◌, ◌≤◌};

mod rounds;

use rounds::{build, commit_each, cut_each, push_and_pop, read_newest_commit, read_version};
use std::alloc::Global;
use std::rt::Clock;
use std::time::{Duration, Instant};
use std::{env, io};

/// How often each operation is done at the given length.
const ROUNDS: u64 = 1000;

/// The greatest length.
const MOST: u64 = 10000000;

/// How many deltas a read undoes.
const DEPTH: u64 = 3;

fn print_counts(rt: &impl Print, alloc: Global) -> io::Result<()> {
    let mut chain = build(alloc, 8)?;
    let popped = push_and_pop(&mut chain, 4)?;
    commit_each(&mut chain, 8, 4)?;
    let newest = read_newest_commit(&chain, 1);
    let version = read_version(alloc, &chain, 12 - DEPTH, 1)?;
    let dropped = cut_each(&mut chain, 5);
    let left = chain.len();
    println!(rt; "popped {popped} newest {newest} undone {version} dropped {dropped} left {left}")
}

/// What a thousand rounds cost, in nanoseconds.
fn print_cost(rt: &impl Print, name: &str, time: Duration, rounds: u64) -> io::Result<()>
    requires { 0 < rounds }
{
    let cost = time.as_nanos().saturating_mul(1000) / u128::from(rounds);
    println!(rt; "{name} {cost}")
}

/// The cost of each operation, on a chain of that many versions.
fn print_costs(rt: &(impl Print + Clock), alloc: Global, size: u64) -> io::Result<()>
    requires least { 0 < size }
    requires most { size ≤ MOST }
{
    let start = Instant::now(rt)?;
    let mut chain = build(alloc, size)?;
    print_cost(rt, "push_stamp", start.elapsed(rt)?, size)?;
    let start = Instant::now(rt)?;
    let popped = push_and_pop(&mut chain, ROUNDS)?;
    print_cost(rt, "push_pop", start.elapsed(rt)?, ROUNDS)?;
    let start = Instant::now(rt)?;
    let versions = read_version(alloc, &chain, size.saturating_sub(DEPTH), ROUNDS)?;
    print_cost(rt, "version_at", start.elapsed(rt)?, ROUNDS)?;
    let start = Instant::now(rt)?;
    let dropped = cut_each(&mut chain, ROUNDS);
    print_cost(rt, "cut_below", start.elapsed(rt)?, ROUNDS)?;
    let left = chain.len();
    println!(rt; "sums {popped} {versions} {dropped} {left}")
}

fn main(rt: HostRuntime) -> io::Result<()> {
    let alloc = rt.alloc();
    let Some(word) = env::args(&rt)?.nth(1) else {
        return print_counts(&rt, alloc);
    };
    match word.parse::<u64>() {
        Ok(size) if 0 < size && size <= MOST => print_costs(&rt, alloc, size),
        _ => {
            eprintln!(rt; "usage: chain_bench [SIZE], from 1 to {MOST}")?;
            Err(io::ErrorKind::InvalidInput.into())
        }
    }
}
