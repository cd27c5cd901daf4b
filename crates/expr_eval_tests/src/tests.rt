mod rows;
mod small;

use crate::CountingReader;
use cypher_parse::parse;
use cypher_syntax::{Expr, Query};
use expr_eval::{EvalRefused, Row, eval};
use graph_reader::{Shown, show, to_json};
use graph_value::{NoMemory, Oid, Text, Value};
use rows::{
    CHOICES, CONVERSIONS, EDGES, ELEMENTS, EQUALITY, IDS_AND_LABELS, IN_LISTS, KEYS, LABEL_TESTS,
    LEFT_OUT, LITERALS, ORDER, PRODUCTS, PROPERTIES, RANGES, Row as Wanted, SIGNS, SIZES, SUMS,
    TEXTS, TRUTH,
};
use small::{small_graph, small_row};
use sqlite_items::Items;
use std::alloc::Global;
use std::test::Fail;

/// The expression of `RETURN` and a text.
fn query_of(alloc: Global, text: &str) -> Result<Option<Query>, NoMemory> {
    let statement = format!(in alloc; "RETURN {text}")?;
    match parse(alloc, &Text::from_string(statement)) {
        Ok(query) => Ok(Some(query)),
        Err(_) => Ok(None),
    }
}

fn expr_of(query: &Query) -> Option<&Expr> {
    match &query.returns {
        Some(projection) => match projection.items.get(0) {
            Some(item) => Some(&item.expr),
            None => None,
        },
        None => None,
    }
}

fn refusal(alloc: Global, refused: EvalRefused) -> Result<Text, NoMemory> {
    match refused {
        EvalRefused::TypeFault => Text::from_str(alloc, "!type"),
        EvalRefused::Overflow => Text::from_str(alloc, "!overflow"),
        EvalRefused::ZeroDivisor => Text::from_str(alloc, "!zero divisor"),
        EvalRefused::TooLarge => Text::from_str(alloc, "!too large"),
        EvalRefused::RowLimit => Text::from_str(alloc, "!row limit"),
        EvalRefused::Gone(x) => Ok(Text::from_string(format!(in alloc; "!gone {x}")?)),
        EvalRefused::NoMemory => Text::from_str(alloc, "!no memory"),
    }
}

fn name_of(value: &Value) -> Option<Oid> {
    match value {
        Value::Vertex(v) => Some(Oid::Vertex(*v)),
        Value::Edge(e) => Some(Oid::Edge(*e)),
        _ => None,
    }
}

/// A vertex or an edge by its name, any other value as it is shown.
fn value_text(alloc: Global, value: &Value, graph: &mut CountingReader) -> Result<Text, NoMemory> {
    if let Some(x) = name_of(value) {
        return Ok(Text::from_string(format!(in alloc; "[{x}]")?));
    }
    match show(alloc, value, graph) {
        Ok(shown) => shown_text(alloc, shown),
        Err(_) => Text::from_str(alloc, "not shown"),
    }
}

fn shown_text(alloc: Global, shown: Shown) -> Result<Text, NoMemory> {
    let mut row = Items::new(alloc);
    row.push(shown)?;
    to_json(alloc, row.as_slice())
}

fn outcome(
    alloc: Global,
    expr: &Expr,
    row: &Row,
    graph: &mut CountingReader,
) -> Result<Text, NoMemory> {
    match eval(alloc, expr, row, graph) {
        Ok(value) => value_text(alloc, &value, graph),
        Err(refused) => refusal(alloc, refused),
    }
}

fn text_of(
    alloc: Global,
    text: &str,
    row: &Row,
    graph: &mut CountingReader,
) -> Result<Text, NoMemory> {
    let Some(query) = query_of(alloc, text)? else {
        return Text::from_str(alloc, "no expression");
    };
    match expr_of(&query) {
        Some(expr) => outcome(alloc, expr, row, graph),
        None => Text::from_str(alloc, "no expression"),
    }
}

/// How a value is written in a row of the table: without the brackets of its row.
fn is_outcome(found: &str, wanted: &str) -> bool {
    if wanted.starts_with('!') {
        return found == wanted;
    }
    match found.strip_prefix('[') {
        Some(rest) => rest.strip_suffix(']') == Some(wanted),
        None => false,
    }
}

/// The first row that comes to something else.
fn first_wrong(alloc: Global, rows: &[Wanted]) -> Result<Option<&'static str>, NoMemory> {
    let mut graph = small_graph(alloc)?;
    let row = small_row(alloc)?;
    for (text, wanted) in rows {
        let found = text_of(alloc, text, &row, &mut graph)?;
        if !is_outcome(found.as_str(), wanted) {
            return Ok(Some(*text));
        }
    }
    Ok(None)
}

#[test]
fn literals_and_names(rt: HostRuntime) -> Result<(), Fail> {
    let wrong = first_wrong(rt.alloc(), &LITERALS)?;
    assert!(rt; wrong.is_none(), "{wrong:?}");
    Ok(())
}

#[test]
fn sums(rt: HostRuntime) -> Result<(), Fail> {
    let wrong = first_wrong(rt.alloc(), &SUMS)?;
    assert!(rt; wrong.is_none(), "{wrong:?}");
    Ok(())
}

#[test]
fn products(rt: HostRuntime) -> Result<(), Fail> {
    let wrong = first_wrong(rt.alloc(), &PRODUCTS)?;
    assert!(rt; wrong.is_none(), "{wrong:?}");
    Ok(())
}

#[test]
fn signs(rt: HostRuntime) -> Result<(), Fail> {
    let wrong = first_wrong(rt.alloc(), &SIGNS)?;
    assert!(rt; wrong.is_none(), "{wrong:?}");
    Ok(())
}

#[test]
fn truth_of_three_values(rt: HostRuntime) -> Result<(), Fail> {
    let wrong = first_wrong(rt.alloc(), &TRUTH)?;
    assert!(rt; wrong.is_none(), "{wrong:?}");
    Ok(())
}

#[test]
fn operands_that_are_left_out(rt: HostRuntime) -> Result<(), Fail> {
    let wrong = first_wrong(rt.alloc(), &LEFT_OUT)?;
    assert!(rt; wrong.is_none(), "{wrong:?}");
    Ok(())
}

#[test]
fn equality(rt: HostRuntime) -> Result<(), Fail> {
    let wrong = first_wrong(rt.alloc(), &EQUALITY)?;
    assert!(rt; wrong.is_none(), "{wrong:?}");
    Ok(())
}

#[test]
fn order_and_chains_of_comparisons(rt: HostRuntime) -> Result<(), Fail> {
    let wrong = first_wrong(rt.alloc(), &ORDER)?;
    assert!(rt; wrong.is_none(), "{wrong:?}");
    Ok(())
}

#[test]
fn elements_that_are_looked_for(rt: HostRuntime) -> Result<(), Fail> {
    let wrong = first_wrong(rt.alloc(), &IN_LISTS)?;
    assert!(rt; wrong.is_none(), "{wrong:?}");
    Ok(())
}

#[test]
fn tests_of_texts_and_null(rt: HostRuntime) -> Result<(), Fail> {
    let wrong = first_wrong(rt.alloc(), &TEXTS)?;
    assert!(rt; wrong.is_none(), "{wrong:?}");
    Ok(())
}

#[test]
fn elements_by_place(rt: HostRuntime) -> Result<(), Fail> {
    let wrong = first_wrong(rt.alloc(), &ELEMENTS)?;
    assert!(rt; wrong.is_none(), "{wrong:?}");
    Ok(())
}

#[test]
fn properties(rt: HostRuntime) -> Result<(), Fail> {
    let wrong = first_wrong(rt.alloc(), &PROPERTIES)?;
    assert!(rt; wrong.is_none(), "{wrong:?}");
    Ok(())
}

#[test]
fn tests_of_labels(rt: HostRuntime) -> Result<(), Fail> {
    let wrong = first_wrong(rt.alloc(), &LABEL_TESTS)?;
    assert!(rt; wrong.is_none(), "{wrong:?}");
    Ok(())
}

#[test]
fn ids_and_labels(rt: HostRuntime) -> Result<(), Fail> {
    let wrong = first_wrong(rt.alloc(), &IDS_AND_LABELS)?;
    assert!(rt; wrong.is_none(), "{wrong:?}");
    Ok(())
}

#[test]
fn what_an_edge_tells(rt: HostRuntime) -> Result<(), Fail> {
    let wrong = first_wrong(rt.alloc(), &EDGES)?;
    assert!(rt; wrong.is_none(), "{wrong:?}");
    Ok(())
}

#[test]
fn keys(rt: HostRuntime) -> Result<(), Fail> {
    let wrong = first_wrong(rt.alloc(), &KEYS)?;
    assert!(rt; wrong.is_none(), "{wrong:?}");
    Ok(())
}

#[test]
fn sizes_ends_and_amounts(rt: HostRuntime) -> Result<(), Fail> {
    let wrong = first_wrong(rt.alloc(), &SIZES)?;
    assert!(rt; wrong.is_none(), "{wrong:?}");
    Ok(())
}

#[test]
fn conversions(rt: HostRuntime) -> Result<(), Fail> {
    let wrong = first_wrong(rt.alloc(), &CONVERSIONS)?;
    assert!(rt; wrong.is_none(), "{wrong:?}");
    Ok(())
}

#[test]
fn ranges_and_their_size(rt: HostRuntime) -> Result<(), Fail> {
    let wrong = first_wrong(rt.alloc(), &RANGES)?;
    assert!(rt; wrong.is_none(), "{wrong:?}");
    Ok(())
}

#[test]
fn choices(rt: HostRuntime) -> Result<(), Fail> {
    let wrong = first_wrong(rt.alloc(), &CHOICES)?;
    assert!(rt; wrong.is_none(), "{wrong:?}");
    Ok(())
}

/// An expression, the call of the reader that finds no memory, what comes of it, and how often the reader was asked.
static WANTS: [(&str, u64, &str, u64); 6] = [
    ("a.k + e.w", 0, "8", 2),
    ("a.k + e.w", 1, "!no memory", 1),
    ("a.k + e.w", 2, "!no memory", 2),
    ("a.k + e.w", 3, "8", 2),
    ("false AND a.k = 1", 1, "false", 0),
    ("coalesce(a.k, b.k)", 2, "1", 1),
];

fn is_asked(
    alloc: Global,
    text: &str,
    wanting: u64,
    wanted: &str,
    asked: u64,
) -> Result<bool, NoMemory> {
    let mut graph = small_graph(alloc)?;
    graph.wanting = wanting;
    let row = small_row(alloc)?;
    let found = text_of(alloc, text, &row, &mut graph)?;
    Ok(is_outcome(found.as_str(), wanted) && graph.asked == asked)
}

fn first_not_asked(alloc: Global) -> Result<Option<&'static str>, NoMemory> {
    for (text, wanting, wanted, asked) in WANTS.iter() {
        if !is_asked(alloc, text, *wanting, wanted, *asked)? {
            return Ok(Some(*text));
        }
    }
    Ok(None)
}

#[test]
fn a_reader_is_asked_in_turn_and_may_want_memory(rt: HostRuntime) -> Result<(), Fail> {
    let wrong = first_not_asked(rt.alloc())?;
    assert!(rt; wrong.is_none(), "{wrong:?}");
    Ok(())
}
