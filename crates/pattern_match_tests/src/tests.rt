mod bound;
mod graphs;
mod printed;
mod rows;

use bound::{row, table};
use cypher_parse::parse;
use cypher_syntax::{Clause, MatchClause, Query};
use expr_eval::{Row, Table};
use expr_eval_tests::CountingReader;
use graph_value::{NoMemory, Text};
use graphs::{Shape, graph};
use pattern_match::{match_table, matches, tuples};
use printed::{refusal, rows_text, tuples_text};
use rows::{
    AHEAD, ASKED, BOUND, COUNTED, EDGES, IDS, KEPT, Kept, NAMES, OPTIONAL, PATHS, Tried, VERTICES,
};
use std::alloc::Global;
use std::test::Fail;

fn query_of(alloc: Global, clause: &str) -> Result<Option<Query>, NoMemory> {
    let statement = format!(in alloc; "{clause} RETURN 1")?;
    match parse(alloc, &Text::from_string(statement)) {
        Ok(query) => Ok(Some(query)),
        Err(_) => Ok(None),
    }
}

fn clause_of(query: &Query) -> Option<&MatchClause> {
    match query.clauses.get(0) {
        Some(Clause::Match(clause)) => Some(clause),
        _ => None,
    }
}

fn tuples_found(
    alloc: Global,
    clause: &MatchClause,
    row: &Row,
    graph: &mut CountingReader,
) -> Result<String, NoMemory> {
    match tuples(alloc, clause, row, graph) {
        Ok(tuples) => tuples_text(alloc, tuples.as_slice()),
        Err(refused) => refusal(alloc, refused),
    }
}

fn tuples_of(
    alloc: Global,
    pattern: &str,
    row: &Row,
    graph: &mut CountingReader,
) -> Result<String, NoMemory> {
    let clause = format!(in alloc; "MATCH {pattern}")?;
    let Some(query) = query_of(alloc, clause.as_str())? else {
        return String::from_str(alloc, "no query");
    };
    match clause_of(&query) {
        Some(clause) => tuples_found(alloc, clause, row, graph),
        None => String::from_str(alloc, "no clause"),
    }
}

/// The first pattern that other tuples match.
fn first_wrong(alloc: Global, tried: &[Tried]) -> Result<Option<&'static str>, NoMemory> {
    for (shape, bound, pattern, wanted) in tried {
        let mut graph = graph(alloc, *shape)?;
        let row = row(alloc, bound)?;
        let found = tuples_of(alloc, pattern, &row, &mut graph)?;
        if found.as_str() != *wanted {
            return Ok(Some(*pattern));
        }
    }
    Ok(None)
}

#[test]
fn vertices(rt: HostRuntime) -> Result<(), Fail> {
    let wrong = first_wrong(rt.alloc(), &VERTICES)?;
    assert!(rt; wrong.is_none(), "{wrong:?}");
    Ok(())
}

#[test]
fn edges(rt: HostRuntime) -> Result<(), Fail> {
    let wrong = first_wrong(rt.alloc(), &EDGES)?;
    assert!(rt; wrong.is_none(), "{wrong:?}");
    Ok(())
}

#[test]
fn paths(rt: HostRuntime) -> Result<(), Fail> {
    let wrong = first_wrong(rt.alloc(), &PATHS)?;
    assert!(rt; wrong.is_none(), "{wrong:?}");
    Ok(())
}

#[test]
fn bound_names(rt: HostRuntime) -> Result<(), Fail> {
    let wrong = first_wrong(rt.alloc(), &BOUND)?;
    assert!(rt; wrong.is_none(), "{wrong:?}");
    Ok(())
}

#[test]
fn bound_further_on(rt: HostRuntime) -> Result<(), Fail> {
    let wrong = first_wrong(rt.alloc(), &AHEAD)?;
    assert!(rt; wrong.is_none(), "{wrong:?}");
    Ok(())
}

#[test]
fn nulls_and_refusals(rt: HostRuntime) -> Result<(), Fail> {
    let wrong = first_wrong(rt.alloc(), &NAMES)?;
    assert!(rt; wrong.is_none(), "{wrong:?}");
    Ok(())
}

/// A table of one row goes by [`matches`], any other by [`match_table`].
fn rows_found(
    alloc: Global,
    clause: &MatchClause,
    table: &Table,
    graph: &mut CountingReader,
) -> Result<String, NoMemory> {
    let made = match table.as_slice() {
        [row] => matches(alloc, clause, row, graph),
        rows => match_table(alloc, clause, rows, graph),
    };
    match made {
        Ok(made) => rows_text(alloc, made.as_slice()),
        Err(refused) => refusal(alloc, refused),
    }
}

fn rows_of(
    alloc: Global,
    clause: &str,
    bound: &str,
    graph: &mut CountingReader,
) -> Result<String, NoMemory> {
    let table = table(alloc, bound)?;
    let Some(query) = query_of(alloc, clause)? else {
        return String::from_str(alloc, "no query");
    };
    match clause_of(&query) {
        Some(clause) => rows_found(alloc, clause, &table, graph),
        None => String::from_str(alloc, "no clause"),
    }
}

/// The first clause that makes other rows.
fn first_other(alloc: Global, tried: &[Kept]) -> Result<Option<&'static str>, NoMemory> {
    for (bound, clause, wanted) in tried {
        let mut graph = graph(alloc, Shape::Pair)?;
        let found = rows_of(alloc, clause, bound, &mut graph)?;
        if found.as_str() != *wanted {
            return Ok(Some(*clause));
        }
    }
    Ok(None)
}

#[test]
fn rows_that_are_kept(rt: HostRuntime) -> Result<(), Fail> {
    let wrong = first_other(rt.alloc(), &KEPT)?;
    assert!(rt; wrong.is_none(), "{wrong:?}");
    Ok(())
}

#[test]
fn optional_rows(rt: HostRuntime) -> Result<(), Fail> {
    let wrong = first_other(rt.alloc(), &OPTIONAL)?;
    assert!(rt; wrong.is_none(), "{wrong:?}");
    Ok(())
}

fn is_asked(
    alloc: Global,
    graph: &mut CountingReader,
    bound: &str,
    pattern: &str,
    wanted: &str,
    asked: u64,
) -> Result<bool, NoMemory> {
    let row = row(alloc, bound)?;
    let found = tuples_of(alloc, pattern, &row, graph)?;
    Ok(found.as_str() == wanted && graph.asked == asked)
}

fn first_not_asked(alloc: Global) -> Result<Option<&'static str>, NoMemory> {
    for (shape, bound, pattern, wanting, wanted, asked) in ASKED.iter() {
        let mut graph = graph(alloc, *shape)?;
        graph.wanting = *wanting;
        if !is_asked(alloc, &mut graph, bound, pattern, wanted, *asked)? {
            return Ok(Some(*pattern));
        }
    }
    Ok(None)
}

#[test]
fn a_bound_pattern_asks_little_and_may_want_memory(rt: HostRuntime) -> Result<(), Fail> {
    let wrong = first_not_asked(rt.alloc())?;
    assert!(rt; wrong.is_none(), "{wrong:?}");
    Ok(())
}

#[test]
fn rows_of_ids(rt: HostRuntime) -> Result<(), Fail> {
    let wrong = first_other(rt.alloc(), &IDS)?;
    assert!(rt; wrong.is_none(), "{wrong:?}");
    Ok(())
}

fn is_counted(
    alloc: Global,
    graph: &mut CountingReader,
    clause: &str,
    wanted: &str,
    asked: u64,
) -> Result<bool, NoMemory> {
    let found = rows_of(alloc, clause, "", graph)?;
    Ok(found.as_str() == wanted && graph.asked == asked)
}

fn first_not_counted(alloc: Global) -> Result<Option<&'static str>, NoMemory> {
    for (shape, clause, wanting, wanted, asked) in COUNTED.iter() {
        let mut graph = graph(alloc, *shape)?;
        graph.wanting = *wanting;
        if !is_counted(alloc, &mut graph, clause, wanted, *asked)? {
            return Ok(Some(*clause));
        }
    }
    Ok(None)
}

#[test]
fn an_id_asks_as_little_of_many_vertices(rt: HostRuntime) -> Result<(), Fail> {
    let wrong = first_not_counted(rt.alloc())?;
    assert!(rt; wrong.is_none(), "{wrong:?}");
    Ok(())
}
