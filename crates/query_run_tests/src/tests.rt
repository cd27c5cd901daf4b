mod rows;
mod running;
mod snapshots;

ghost use Rattle.std.specs.Prelude.{◌≡◌};

use crate::Wanting;
use front_core::Core;
use graph_value::NoMemory;
use rows::{MADE, QUIET, READS, SEEN, STOPS, Statement, WANTS, WRITES};
use running::text_of;
use std::alloc::{AllocError, Global};
use std::test::Fail;
use store_pass::Solo;
use world_model::{GraphStore, Txn};

/// The first of the statements of a transaction that comes to something else, with what it comes to.
fn first_wrong<S: GraphStore>(
    alloc: Global,
    store: &mut S,
    rt: &S::Rt,
    txn: &Txn,
    statements: &[Statement],
) -> Result<Option<String>, NoMemory>
    ensures stays { S.running store.new ≡ S.running store.old }
{
    for (statement, wanted) in statements {
        let found = text_of(alloc, store, rt, txn, statement)?;
        if found.as_str() != *wanted {
            return Ok(Some(format!(in alloc; "{statement}: {found}")?));
        }
    }
    Ok(None)
}

/// The same, in a transaction of its own.
fn wrong_on<S: GraphStore>(
    alloc: Global,
    store: &mut S,
    rt: &S::Rt,
    statements: &[Statement],
) -> Result<Option<String>, NoMemory> {
    let Ok(txn) = store.begin(rt, alloc) else {
        return Err(AllocError);
    };
    let wrong = first_wrong(alloc, store, rt, &txn, statements);
    let _ts = store.commit(rt, alloc, txn);
    wrong
}

/// The same, of a new store.
fn wrong_in_one(alloc: Global, statements: &[Statement]) -> Result<Option<String>, NoMemory> {
    let mut store = Solo::over(Core::new(alloc, 1)?, 1);
    wrong_on(alloc, &mut store, &(), statements)
}

/// The same, of a new store that finds no memory at a write that changes nothing.
fn wrong_wanting(
    alloc: Global,
    before: u64,
    statements: &[Statement],
) -> Result<Option<String>, NoMemory> {
    let mut store = Wanting::over(Solo::over(Core::new(alloc, 1)?, 1), before);
    wrong_on(alloc, &mut store, &(), statements)
}

#[test]
fn clauses_read_what_those_before_have_written(rt: HostRuntime) -> Result<(), Fail> {
    let wrong = wrong_in_one(rt.alloc(), &WRITES)?;
    assert!(rt; wrong.is_none(), "{wrong:?}");
    Ok(())
}

#[test]
fn rows_are_shown_by_the_graph_behind_all_clauses(rt: HostRuntime) -> Result<(), Fail> {
    let wrong = wrong_in_one(rt.alloc(), &READS)?;
    assert!(rt; wrong.is_none(), "{wrong:?}");
    Ok(())
}

#[test]
fn refusals_stop_a_query(rt: HostRuntime) -> Result<(), Fail> {
    let wrong = wrong_in_one(rt.alloc(), &STOPS)?;
    assert!(rt; wrong.is_none(), "{wrong:?}");
    Ok(())
}

/// One caller runs a statement in a transaction of its own, which it commits.
fn done(alloc: Global, store: &mut Solo, caller: u64, statement: &str) -> Result<String, NoMemory> {
    store.turn_to(caller);
    let Ok(txn) = store.begin(&(), alloc) else {
        return Err(AllocError);
    };
    let found = text_of(alloc, store, &(), &txn, statement);
    let _ts = store.commit(&(), alloc, txn);
    found
}

#[test]
fn a_rival_is_named(rt: HostRuntime) -> Result<(), Fail> {
    let alloc = rt.alloc();
    let mut store = Solo::over(Core::new(alloc, 1)?, 1);
    let _made = done(alloc, &mut store, 1, "CREATE (a {k: 1}), (b {k: 1})")?;
    let Ok(txn) = store.begin(&(), alloc) else {
        return Err(Fail::from(AllocError));
    };
    let written = done(
        alloc,
        &mut store,
        2,
        "MATCH (n) WHERE id(n) = 1 SET n.k = 2 RETURN n.k",
    );
    store.turn_to(1);
    let found = text_of(alloc, &mut store, &(), &txn, "MATCH (n) SET n.k = 3");
    let _start = txn.end();
    assert_eq!(rt; written?.as_str(), "[2]");
    assert_eq!(rt; found?.as_str(), "!conflict v1 committed 5");
    Ok(())
}

#[test]
fn another_store_gives_the_same_rows(rt: HostRuntime) -> Result<(), Fail> {
    for statements in [WRITES.as_slice(), READS.as_slice(), STOPS.as_slice()] {
        let wrong = wrong_wanting(rt.alloc(), u64::MAX, statements)?;
        assert!(rt; wrong.is_none(), "{wrong:?}");
    }
    Ok(())
}

#[test]
fn a_query_stops_at_the_write_that_finds_no_memory(rt: HostRuntime) -> Result<(), Fail> {
    for (before, stopped, seen) in &WANTS {
        let statements = [(MADE, ""), (QUIET, *stopped), (SEEN, *seen)];
        let wrong = wrong_wanting(rt.alloc(), *before, &statements)?;
        assert!(rt; wrong.is_none(), "{before}: {wrong:?}");
    }
    Ok(())
}
