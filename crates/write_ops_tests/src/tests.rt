mod bound;
mod printed;
mod rows;
mod small;

use bound::table;
use cypher_parse::parse;
use cypher_syntax::{Clause, Query, Update};
use expr_eval::Row;
use expr_eval_tests::CountingReader;
use graph_value::{NoMemory, Text};
use printed::{names_text, plan_text, refusal};
use rows::{ASKED, CREATE_REFUSED, CREATED, DELETED, NAMES, REMOVED, SET, Tried};
use small::small_graph;
use std::alloc::Global;
use std::test::Fail;
use write_ops::{create, plan};

fn query_of(alloc: Global, clause: &str) -> Result<Option<Query>, NoMemory> {
    match parse(alloc, &Text::from_str(alloc, clause)?) {
        Ok(query) => Ok(Some(query)),
        Err(_) => Ok(None),
    }
}

fn update_of(query: &Query) -> Option<&Update> {
    match query.clauses.get(0) {
        Some(Clause::Update(update)) => Some(update),
        _ => None,
    }
}

fn planned(
    alloc: Global,
    update: &Update,
    table: &[Row],
    graph: &mut CountingReader,
) -> Result<String, NoMemory> {
    match plan(alloc, update, table, graph) {
        Ok(ops) => plan_text(alloc, ops.as_slice()),
        Err(refused) => refusal(alloc, refused),
    }
}

fn plan_of(
    alloc: Global,
    bound: &str,
    clause: &str,
    graph: &mut CountingReader,
) -> Result<String, NoMemory> {
    let table = table(alloc, bound)?;
    let Some(query) = query_of(alloc, clause)? else {
        return String::from_str(alloc, "no query");
    };
    match update_of(&query) {
        Some(update) => planned(alloc, update, table.as_slice(), graph),
        None => String::from_str(alloc, "no clause"),
    }
}

/// The first clause that has another plan.
fn first_wrong(alloc: Global, tried: &[Tried]) -> Result<Option<&'static str>, NoMemory> {
    for (bound, clause, wanted) in tried {
        let mut graph = small_graph(alloc, 0)?;
        let found = plan_of(alloc, bound, clause, &mut graph)?;
        if found.as_str() != *wanted {
            return Ok(Some(*clause));
        }
    }
    Ok(None)
}

#[test]
fn what_create_makes(rt: HostRuntime) -> Result<(), Fail> {
    let wrong = first_wrong(rt.alloc(), &CREATED)?;
    assert!(rt; wrong.is_none(), "{wrong:?}");
    Ok(())
}

#[test]
fn what_create_refuses(rt: HostRuntime) -> Result<(), Fail> {
    let wrong = first_wrong(rt.alloc(), &CREATE_REFUSED)?;
    assert!(rt; wrong.is_none(), "{wrong:?}");
    Ok(())
}

#[test]
fn what_set_sets(rt: HostRuntime) -> Result<(), Fail> {
    let wrong = first_wrong(rt.alloc(), &SET)?;
    assert!(rt; wrong.is_none(), "{wrong:?}");
    Ok(())
}

#[test]
fn what_remove_takes_away(rt: HostRuntime) -> Result<(), Fail> {
    let wrong = first_wrong(rt.alloc(), &REMOVED)?;
    assert!(rt; wrong.is_none(), "{wrong:?}");
    Ok(())
}

#[test]
fn what_delete_deletes(rt: HostRuntime) -> Result<(), Fail> {
    let wrong = first_wrong(rt.alloc(), &DELETED)?;
    assert!(rt; wrong.is_none(), "{wrong:?}");
    Ok(())
}

fn named(
    alloc: Global,
    update: &Update,
    table: &[Row],
    graph: &mut CountingReader,
) -> Result<String, NoMemory> {
    let Update::Create(patterns) = update else {
        return String::from_str(alloc, "no CREATE");
    };
    match create(alloc, patterns.as_slice(), table, graph) {
        Ok(created) => names_text(alloc, created.names.as_slice()),
        Err(refused) => refusal(alloc, refused),
    }
}

fn names_of(alloc: Global, bound: &str, clause: &str) -> Result<String, NoMemory> {
    let mut graph = small_graph(alloc, 0)?;
    let table = table(alloc, bound)?;
    let Some(query) = query_of(alloc, clause)? else {
        return String::from_str(alloc, "no query");
    };
    match update_of(&query) {
        Some(update) => named(alloc, update, table.as_slice(), &mut graph),
        None => String::from_str(alloc, "no clause"),
    }
}

fn is_named(alloc: Global, bound: &str, clause: &str, wanted: &str) -> Result<bool, NoMemory> {
    let found = names_of(alloc, bound, clause)?;
    Ok(found.as_str() == wanted)
}

/// The first clause that gives other names.
fn first_misnamed(alloc: Global, tried: &[Tried]) -> Result<Option<&'static str>, NoMemory> {
    for (bound, clause, wanted) in tried {
        if !is_named(alloc, bound, clause, wanted)? {
            return Ok(Some(*clause));
        }
    }
    Ok(None)
}

#[test]
fn the_names_that_create_gives(rt: HostRuntime) -> Result<(), Fail> {
    let wrong = first_misnamed(rt.alloc(), &NAMES)?;
    assert!(rt; wrong.is_none(), "{wrong:?}");
    Ok(())
}

fn is_asked(
    alloc: Global,
    bound: &str,
    clause: &str,
    wanting: u64,
    wanted: &str,
    asked: u64,
) -> Result<bool, NoMemory> {
    let mut graph = small_graph(alloc, wanting)?;
    let found = plan_of(alloc, bound, clause, &mut graph)?;
    Ok(found.as_str() == wanted && graph.asked == asked)
}

fn first_not_asked(alloc: Global) -> Result<Option<&'static str>, NoMemory> {
    for (bound, clause, wanting, wanted, asked) in ASKED.iter() {
        if !is_asked(alloc, bound, clause, *wanting, wanted, *asked)? {
            return Ok(Some(*clause));
        }
    }
    Ok(None)
}

#[test]
fn a_reader_is_asked_in_turn_and_may_want_memory(rt: HostRuntime) -> Result<(), Fail> {
    let wrong = first_not_asked(rt.alloc())?;
    assert!(rt; wrong.is_none(), "{wrong:?}");
    Ok(())
}
