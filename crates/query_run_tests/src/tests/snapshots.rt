//! TT SNAPSHOT: what a query comes to at several instants.
use super::rows::Statement;
use super::{done, wrong_in_one};
use front_core::Core;
use graph_value::NoMemory;
use std::alloc::Global;
use std::test::Fail;
use store_pass::Solo;

/// Each statement in a transaction of its own. The first begins at 1, and each begin and each commit of writes takes a
/// reading of the clock.
static INSTANTS: [Statement; 19] = [
    ("CREATE (:P {k: 1})", ""), // 1, stands from 2 on
    ("MATCH (n:P) SET n.k = 2, n:Q", ""), // 3, stands from 4 on
    ("MATCH (n:P) SET n.k = 3", ""), // 5, stands from 6 on
    ("MATCH (n) RETURN n.k TT SNAPSHOT 0", ""), // 7
    ("MATCH (n) RETURN n.k TT SNAPSHOT 1", ""),
    ("MATCH (n) RETURN n.k TT SNAPSHOT 2", "[1]"),
    ("MATCH (n) RETURN n.k TT SNAPSHOT 3", "[1]"), // 10
    ("MATCH (n) RETURN n.k TT SNAPSHOT 4", "[2]"),
    ("MATCH (n) RETURN n.k TT SNAPSHOT 6", "[3]"),
    ("MATCH (n) RETURN n.k TT SNAPSHOT 13", "[3]"), // 13
    (
        "MATCH (n) RETURN n.k TT SNAPSHOT 15",
        "!time ahead 15 start 14",
    ),
    ("MATCH (n:P) DELETE n", ""), // 15, stands from 16 on
    ("MATCH (n) RETURN n TT SNAPSHOT 16", ""),
    (
        "MATCH (n) RETURN n TT SNAPSHOT 15",
        r#"[{"id":0,"labels":["P","Q"],"properties":{"k":3}}]"#,
    ),
    (
        "MATCH (n) RETURN n TT SNAPSHOT 3",
        r#"[{"id":0,"labels":["P"],"properties":{"k":1}}]"#,
    ),
    (
        "UNWIND [1, 2] AS x MATCH (n:P) WITH x + n.k AS y RETURN y ORDER BY y DESC TT SNAPSHOT 4",
        "[4] [3]",
    ),
    ("MATCH (n:Q) RETURN count(*) TT SNAPSHOT 3", "[0]"),
    ("MATCH (n) RETURN n.k / 0 TT SNAPSHOT 2", "!zero divisor"),
    ("MATCH (n) RETURN n.k / 0 TT SNAPSHOT 16", ""),
];

/// One transaction of a new store, which begins at 1.
static OWN_WRITES: [Statement; 5] = [
    ("CREATE (:P {k: 1})", ""),
    ("MATCH (n:P) RETURN n.k", "[1]"),
    ("MATCH (n:P) RETURN n.k TT SNAPSHOT 1", ""),
    (
        "MATCH (n:P) RETURN n.k TT SNAPSHOT 2",
        "!time ahead 2 start 1",
    ),
    ("MATCH (n:P) RETURN n.k", "[1]"),
];

/// The first of the statements that comes to something else, each in a transaction of its own of a new store.
fn wrong_of_own(alloc: Global, statements: &[Statement]) -> Result<Option<String>, NoMemory> {
    let mut store = Solo::over(Core::new(alloc, 1)?, 1);
    for (statement, wanted) in statements {
        let found = done(alloc, &mut store, 1, statement)?;
        if found.as_str() != *wanted {
            return Ok(Some(format!(in alloc; "{statement}: {found}")?));
        }
    }
    Ok(None)
}

#[test]
fn a_snapshot_is_asked_of_its_instant(rt: HostRuntime) -> Result<(), Fail> {
    let wrong = wrong_of_own(rt.alloc(), &INSTANTS)?;
    assert!(rt; wrong.is_none(), "{wrong:?}");
    Ok(())
}

#[test]
fn a_snapshot_sees_no_own_writes(rt: HostRuntime) -> Result<(), Fail> {
    let wrong = wrong_in_one(rt.alloc(), &OWN_WRITES)?;
    assert!(rt; wrong.is_none(), "{wrong:?}");
    Ok(())
}
