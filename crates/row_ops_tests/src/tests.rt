mod rows;
mod running;
mod small;

use rows::{
    DISTINCT, FAULTS, FILTERS, GROUPS, LONG, NAMES, Row as Wanted, SORTED, SUMS, UNWOUND, VALUES,
    WHOLE,
};
use running::text_of;
use small::small_graph;
use std::alloc::Global;
use std::test::Fail;

/// The first statement that comes to something else.
fn first_wrong(
    alloc: Global,
    rows: &[Wanted],
) -> Result<Option<&'static str>, graph_value::NoMemory> {
    for (statement, wanted) in rows {
        let mut graph = small_graph(alloc)?;
        let found = text_of(alloc, statement, &mut graph)?;
        if found.as_str() != *wanted {
            return Ok(Some(*statement));
        }
    }
    Ok(None)
}

#[test]
fn rows_of_lists(rt: HostRuntime) -> Result<(), Fail> {
    let wrong = first_wrong(rt.alloc(), &UNWOUND)?;
    assert!(rt; wrong.is_none(), "{wrong:?}");
    Ok(())
}

#[test]
fn items_and_their_names(rt: HostRuntime) -> Result<(), Fail> {
    let wrong = first_wrong(rt.alloc(), &NAMES)?;
    assert!(rt; wrong.is_none(), "{wrong:?}");
    Ok(())
}

#[test]
fn rows_kept_once(rt: HostRuntime) -> Result<(), Fail> {
    let wrong = first_wrong(rt.alloc(), &DISTINCT)?;
    assert!(rt; wrong.is_none(), "{wrong:?}");
    Ok(())
}

#[test]
fn rows_in_order(rt: HostRuntime) -> Result<(), Fail> {
    let wrong = first_wrong(rt.alloc(), &SORTED)?;
    assert!(rt; wrong.is_none(), "{wrong:?}");
    Ok(())
}

#[test]
fn rows_that_a_condition_keeps(rt: HostRuntime) -> Result<(), Fail> {
    let wrong = first_wrong(rt.alloc(), &FILTERS)?;
    assert!(rt; wrong.is_none(), "{wrong:?}");
    Ok(())
}

#[test]
fn whole_tables_as_one_group(rt: HostRuntime) -> Result<(), Fail> {
    let wrong = first_wrong(rt.alloc(), &WHOLE)?;
    assert!(rt; wrong.is_none(), "{wrong:?}");
    Ok(())
}

#[test]
fn groups_by_their_keys(rt: HostRuntime) -> Result<(), Fail> {
    let wrong = first_wrong(rt.alloc(), &GROUPS)?;
    assert!(rt; wrong.is_none(), "{wrong:?}");
    Ok(())
}

#[test]
fn sums(rt: HostRuntime) -> Result<(), Fail> {
    let wrong = first_wrong(rt.alloc(), &SUMS)?;
    assert!(rt; wrong.is_none(), "{wrong:?}");
    Ok(())
}

#[test]
fn greatest_and_least_and_lists(rt: HostRuntime) -> Result<(), Fail> {
    let wrong = first_wrong(rt.alloc(), &VALUES)?;
    assert!(rt; wrong.is_none(), "{wrong:?}");
    Ok(())
}

#[test]
fn the_first_of_two_faults(rt: HostRuntime) -> Result<(), Fail> {
    let wrong = first_wrong(rt.alloc(), &FAULTS)?;
    assert!(rt; wrong.is_none(), "{wrong:?}");
    Ok(())
}

#[test]
fn more_than_a_million_rows(rt: HostRuntime) -> Result<(), Fail> {
    let wrong = first_wrong(rt.alloc(), &LONG)?;
    assert!(rt; wrong.is_none(), "{wrong:?}");
    Ok(())
}

/// A statement, the call of the reader that finds no memory, what comes of it, and how often the reader was asked.
static WANTS: [(&str, u64, &str, u64); 6] = [
    ("UNWIND [1,2] AS x RETURN a.k + x", 0, "[2] [3]", 2),
    ("UNWIND [1,2] AS x RETURN a.k + x", 2, "!no memory", 2),
    ("UNWIND [a.k,a.k] AS x RETURN x", 2, "!no memory", 2),
    (
        "UNWIND [1,2] AS x RETURN x ORDER BY a.k",
        2,
        "!no memory",
        2,
    ),
    (
        "UNWIND [1,2] AS x WITH x, a WHERE a.k = x RETURN x",
        0,
        "[1]",
        2,
    ),
    ("UNWIND [1,2] AS x RETURN count(*) + sum(a.k)", 3, "[4]", 2),
];

fn is_asked(
    alloc: Global,
    statement: &str,
    wanting: u64,
    wanted: &str,
    asked: u64,
) -> Result<bool, graph_value::NoMemory> {
    let mut graph = small_graph(alloc)?;
    graph.wanting = wanting;
    let found = text_of(alloc, statement, &mut graph)?;
    Ok(found.as_str() == wanted && graph.asked == asked)
}

fn first_not_asked(alloc: Global) -> Result<Option<&'static str>, graph_value::NoMemory> {
    for (statement, wanting, wanted, asked) in WANTS.iter() {
        if !is_asked(alloc, statement, *wanting, wanted, *asked)? {
            return Ok(Some(*statement));
        }
    }
    Ok(None)
}

#[test]
fn a_reader_is_asked_in_turn_and_may_want_memory(rt: HostRuntime) -> Result<(), Fail> {
    let wrong = first_not_asked(rt.alloc())?;
    assert!(rt; wrong.is_none(), "{wrong:?}");
    Ok(())
}
