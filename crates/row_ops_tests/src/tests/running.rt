//! Statements of UNWIND, WITH and RETURN, clause by clause.
use super::small::small_table;
use cypher_parse::parse;
use cypher_syntax::{Clause, Query, Stage};
use expr_eval::{EvalRefused, Row, Table};
use expr_eval_tests::CountingReader;
use graph_reader::{show, to_json};
use graph_value::{NoMemory, Text, Value};
use row_ops::{project, unwind};
use sqlite_items::Items;
use std::alloc::Global;

fn clauses(
    alloc: Global,
    clauses: &[Clause],
    table: Table,
    graph: &mut CountingReader,
) -> Result<Table, EvalRefused> {
    let mut table = table;
    for clause in clauses {
        if let Clause::Unwind(clause) = clause {
            table = unwind(alloc, clause, table, graph)?;
        }
    }
    Ok(table)
}

fn stages(
    alloc: Global,
    stages: &[Stage],
    table: Table,
    graph: &mut CountingReader,
) -> Result<Table, EvalRefused> {
    let mut table = table;
    for stage in stages {
        let before = clauses(alloc, stage.clauses.as_slice(), table, graph)?;
        table = project(alloc, &stage.next, before, graph)?;
    }
    Ok(table)
}

fn run(alloc: Global, query: &Query, graph: &mut CountingReader) -> Result<Table, EvalRefused> {
    let table = small_table(alloc)?;
    let table = stages(alloc, query.stages.as_slice(), table, graph)?;
    let table = clauses(alloc, query.clauses.as_slice(), table, graph)?;
    match &query.returns {
        Some(returns) => project(alloc, returns, table, graph),
        None => Ok(table),
    }
}

fn refusal(alloc: Global, refused: EvalRefused) -> Result<Text, NoMemory> {
    match refused {
        EvalRefused::TypeFault => Text::from_str(alloc, "!type"),
        EvalRefused::Overflow => Text::from_str(alloc, "!overflow"),
        EvalRefused::ZeroDivisor => Text::from_str(alloc, "!zero divisor"),
        EvalRefused::TooLarge => Text::from_str(alloc, "!too large"),
        EvalRefused::RowLimit => Text::from_str(alloc, "!row limit"),
        EvalRefused::Gone(x) => Ok(Text::from_string(format!(in alloc; "!gone {x}")?)),
        EvalRefused::NoMemory => Text::from_str(alloc, "!no memory"),
    }
}

/// A value as it is shown; a vertex by its number, so that the reader isn't asked.
fn shown(alloc: Global, out: &mut String, value: &Value) -> Result<(), NoMemory> {
    if let Value::Vertex(v) = value {
        let digits = format!(in alloc; "v{}", v.0)?;
        return out.push_str(digits.as_str());
    }
    let mut nothing = super::small::small_graph(alloc)?;
    if let Ok(shown) = show(alloc, value, &mut nothing) {
        let mut row = Items::new(alloc);
        row.push(shown)?;
        let text = to_json(alloc, row.as_slice())?;
        return inner(out, text.as_str());
    }
    out.push_str("?")
}

/// A text without its brackets.
fn inner(out: &mut String, text: &str) -> Result<(), NoMemory> {
    match text.strip_prefix('[') {
        Some(rest) => match rest.strip_suffix(']') {
            Some(inside) => out.push_str(inside),
            None => Ok(()),
        },
        None => Ok(()),
    }
}

fn row_text(alloc: Global, out: &mut String, row: &Row) -> Result<(), NoMemory> {
    out.push('[')?;
    for (place, (_, value)) in row.as_slice().iter().enumerate() {
        if place > 0 {
            out.push(',')?;
        }
        shown(alloc, out, value)?;
    }
    out.push(']')
}

fn table_text(alloc: Global, table: &Table) -> Result<Text, NoMemory> {
    let mut out = String::new(alloc);
    for (place, row) in table.as_slice().iter().enumerate() {
        if place > 0 {
            out.push(' ')?;
        }
        row_text(alloc, &mut out, row)?;
    }
    Ok(Text::from_string(out))
}

/// The rows of a statement, parted by spaces, or `!` and what refused it.
pub fn text_of(
    alloc: Global,
    statement: &str,
    graph: &mut CountingReader,
) -> Result<Text, NoMemory> {
    match parse(alloc, &Text::from_str(alloc, statement)?) {
        Ok(query) => match run(alloc, &query, graph) {
            Ok(table) => table_text(alloc, &table),
            Err(refused) => refusal(alloc, refused),
        },
        Err(_) => Text::from_str(alloc, "no statement"),
    }
}
