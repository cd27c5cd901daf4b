use crate::{ShownRow, examine, push_fault, push_lines, push_refused, push_stop};
use expr_eval::EvalRefused;
use graph_reader::Shown;
use graph_value::{EdgeId, NoMemory, Oid, Text, VertexId};
use query_run::Stop;
use sqlite_items::Items;
use std::alloc::Global;
use std::test::Fail;
use txn_manager::Rival;

/// A statement, and the text of its fault, which is empty where it has none.
static FAULTS: [(&'static str, &'static str); 8] = [
    ("MATCH (a) RETURN a.k", ""),
    ("RETURN", "ERR 2 syntax at 6"),
    (
        "RETURN NOT NOT NOT NOT NOT NOT NOT NOT NOT NOT NOT NOT NOT NOT NOT NOT \
         NOT NOT NOT NOT NOT NOT NOT NOT NOT NOT NOT NOT NOT NOT NOT NOT \
         NOT NOT NOT NOT NOT NOT NOT NOT NOT NOT NOT NOT NOT NOT NOT NOT \
         NOT NOT NOT NOT NOT NOT NOT NOT NOT NOT NOT NOT NOT NOT NOT NOT NOT true",
        "ERR 4 shape too deep at 263",
    ),
    ("RETURN `a\"b`", "ERR 3 unbound \"a\\\"b\""),
    ("RETURN 1 AS x, 2 AS x", "ERR 4 shape redeclared \"x\""),
    (
        "MATCH (a) SET a.k = 1 RETURN a TT SNAPSHOT 1",
        "ERR 4 shape write under TT",
    ),
    (
        "UNWIND [1] AS x RETURN x TT BETWEEN 1 AND 2",
        "ERR 4 shape not a TT BETWEEN query",
    ),
    (
        "MATCH (a) WHERE count(a) > 1 RETURN a",
        "ERR 4 shape aggregate place",
    ),
];

static REFUSALS: [(EvalRefused, &'static str); 7] = [
    (EvalRefused::TypeFault, "ERR 5 type"),
    (EvalRefused::Overflow, "ERR 6 overflow"),
    (EvalRefused::ZeroDivisor, "ERR 7 zero divisor"),
    (EvalRefused::TooLarge, "ERR 14 too large"),
    (EvalRefused::RowLimit, "ERR 14 row limit"),
    (EvalRefused::Gone(Oid::Edge(EdgeId(3))), "ERR 17 gone e3"),
    (EvalRefused::NoMemory, "ERR 16 no memory"),
];

static STOPS: [(Stop, &'static str); 6] = [
    (Stop::Eval(EvalRefused::ZeroDivisor), "ERR 7 zero divisor"),
    (
        Stop::Conflict(Oid::Edge(EdgeId(3)), Rival::Running { start: 12 }),
        "ERR 8 conflict e3 open 12",
    ),
    (
        Stop::Conflict(Oid::Vertex(VertexId(0)), Rival::Committed { ts: 5 }),
        "ERR 8 conflict v0 committed 5",
    ),
    (Stop::HasEdges(VertexId(10)), "ERR 9 has edges v10"),
    (Stop::IdEnd, "ERR 15 id end"),
    (
        Stop::TimeAhead { t: 9, start: 4 },
        "ERR 10 time ahead 9 start 4",
    ),
];

/// The text of a statement's fault, behind what stands there.
fn push_examined(alloc: Global, out: &mut String, statement: &str) -> Result<(), NoMemory> {
    let statement = Text::from_str(alloc, statement)?;
    match examine(alloc, &statement) {
        Ok(_) => Ok(()),
        Err(why) => push_fault(alloc, out, &why),
    }
}

#[test]
fn faults_of_statements(rt: HostRuntime) -> Result<(), Fail> {
    let mut found = String::new(rt.alloc());
    for (statement, wanted) in FAULTS.iter() {
        found.clear();
        push_examined(rt.alloc(), &mut found, statement)?;
        assert_eq!(rt; found.as_str(), *wanted, "{statement}");
    }
    Ok(())
}

#[test]
fn refusals(rt: HostRuntime) -> Result<(), Fail> {
    let mut found = String::new(rt.alloc());
    for (why, wanted) in REFUSALS.iter() {
        found.clear();
        push_refused(&mut found, *why)?;
        assert_eq!(rt; found.as_str(), *wanted);
    }
    Ok(())
}

#[test]
fn stops(rt: HostRuntime) -> Result<(), Fail> {
    let mut found = String::new(rt.alloc());
    for (why, wanted) in STOPS.iter() {
        found.clear();
        push_stop(&mut found, why)?;
        assert_eq!(rt; found.as_str(), *wanted);
    }
    Ok(())
}

fn row_of_two(alloc: Global) -> Result<ShownRow, NoMemory> {
    let mut row = Items::new(alloc);
    row.push(Shown::Int(-1))?;
    row.push(Shown::Text(Text::from_str(alloc, "a\nb")?))?;
    Ok(row)
}

fn row_of_one(alloc: Global) -> Result<ShownRow, NoMemory> {
    let mut row = Items::new(alloc);
    row.push(Shown::Null)?;
    Ok(row)
}

fn two_rows(alloc: Global) -> Result<Items<ShownRow>, NoMemory> {
    let mut rows = Items::new(alloc);
    rows.push(row_of_two(alloc)?)?;
    rows.push(row_of_one(alloc)?)?;
    Ok(rows)
}

#[test]
fn a_line_for_each_row(rt: HostRuntime) -> Result<(), Fail> {
    let rows = two_rows(rt.alloc())?;
    let mut found = String::new(rt.alloc());
    push_lines(rt.alloc(), &mut found, rows.as_slice())?;
    assert_eq!(rt; found.as_str(), "[-1,\"a\\nb\"]\n[null]\n");
    Ok(())
}
