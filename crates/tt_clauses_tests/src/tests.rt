mod rows;
mod running;

use front_core::Core;
use graph_value::NoMemory;
use rows::{ENDS, GAPS, Line, ORDER, PRINTED, STOPS};
use running::{fault_text, text_of};
use std::alloc::{AllocError, Global};
use std::test::Fail;
use store_pass::Solo;
use world_model::GraphStore;

/// A statement in a transaction of its own, which is committed.
fn done(alloc: Global, store: &mut Solo, statement: &str) -> Result<String, NoMemory> {
    let Ok(txn) = store.begin(&(), alloc) else {
        return Err(AllocError);
    };
    let found = text_of(alloc, store, &(), &txn, statement);
    let _ts = store.commit(&(), alloc, txn);
    found
}

/// The first of the statements over a new store that comes to something else, with what it comes to.
fn first_wrong(alloc: Global, lines: &[Line]) -> Result<Option<String>, NoMemory> {
    let mut store = Solo::over(Core::new(alloc, 1)?, 1);
    for (statement, wanted) in lines {
        let found = done(alloc, &mut store, statement)?;
        if found.as_str() != *wanted {
            return Ok(Some(format!(in alloc; "{statement}: {found}")?));
        }
    }
    Ok(None)
}

#[test]
fn maximal_runs_are_told(rt: HostRuntime) -> Result<(), Fail> {
    let sessions: [&[Line]; 5] = [&PRINTED, &GAPS, &ENDS, &ORDER, &STOPS];
    for lines in sessions {
        let wrong = first_wrong(rt.alloc(), lines)?;
        assert!(rt; wrong.is_none(), "{wrong:?}");
    }
    Ok(())
}

#[test]
fn own_writes_stand_outside(rt: HostRuntime) -> Result<(), Fail> {
    let alloc = rt.alloc();
    let mut store = Solo::over(Core::new(alloc, 1)?, 1);
    let _made = done(alloc, &mut store, "CREATE (n:P {k: 1})")?;
    let Ok(txn) = store.begin(&(), alloc) else {
        return Err(Fail::from(AllocError));
    };
    let written = text_of(
        alloc,
        &mut store,
        &(),
        &txn,
        "MATCH (n) SET n.k = 2 CREATE (m:P)",
    );
    let found = text_of(
        alloc,
        &mut store,
        &(),
        &txn,
        "MATCH (n:P) RETURN n.k TT BETWEEN 0 AND 3",
    );
    let _ts = store.commit(&(), alloc, txn);
    assert_eq!(rt; written?.as_str(), "");
    assert_eq!(rt; found?.as_str(), "[1,2,3]");
    Ok(())
}

#[test]
fn a_greater_first_instant_is_a_fault(rt: HostRuntime) -> Result<(), Fail> {
    let alloc = rt.alloc();
    let cases = [
        ("MATCH (n) RETURN n TT BETWEEN 4 AND 2", "4 2"),
        ("MATCH (n) RETURN n TT BETWEEN 2 AND 2", "none"),
        ("MATCH (n) RETURN n TT BETWEEN 2 AND 4", "none"),
        ("MATCH (n) RETURN n TT SNAPSHOT 4", "none"),
        ("MATCH (n) RETURN n", "none"),
    ];
    for (statement, wanted) in cases {
        let found = fault_text(alloc, statement)?;
        assert_eq!(rt; found.as_str(), wanted, "of {statement}");
    }
    Ok(())
}
