use cypher_check::{CheckRefused, check, names_are_distinct, names_stand};
use cypher_syntax::{
    Clause, Expr, Item, MatchClause, NodePattern, Pattern, Projection, Query, Time,
};
use graph_value::{Name, NoMemory};
use sqlite_items::Items;
use std::alloc::Global;
use std::test::Fail;

/// `MATCH (BOUND) RETURN USED`, where no name stands for none and for `*`; then the answer and the name in it.
struct Row {
    bound: &'static str,
    used: &'static str,
    time: Time,
    answer: &'static str,
    name: &'static str,
}

const PLAIN: Row = Row {
    bound: "a",
    used: "",
    time: Time::None,
    answer: "ok",
    name: "",
};

static ROWS: [Row; 5] = [
    PLAIN,
    Row {
        used: "a",
        time: Time::Snapshot(3),
        ..PLAIN
    },
    Row {
        used: "b",
        answer: "unbound",
        name: "b",
        ..PLAIN
    },
    Row {
        bound: "",
        answer: "unbound",
        name: "*",
        ..PLAIN
    },
    Row {
        time: Time::Between(1, 2),
        answer: "shape",
        ..PLAIN
    },
];

fn name(alloc: Global, text: &str) -> Result<Option<Name>, NoMemory> {
    if text.is_empty() {
        return Ok(None);
    }
    Ok(Some(Name::from_str(alloc, text)?))
}

fn one<T: Drop>(alloc: Global, item: T) -> Result<Items<T>, NoMemory> {
    let mut items = Items::new(alloc);
    items.push(item)?;
    Ok(items)
}

/// A pattern of one vertex.
fn vertex(alloc: Global, name: Option<Name>) -> Pattern {
    Pattern {
        first: NodePattern {
            name,
            labels: Items::new(alloc),
            map: None,
        },
        steps: Items::new(alloc),
    }
}

fn matched(patterns: Items<Pattern>) -> Clause {
    Clause::Match(MatchClause {
        optional: false,
        patterns,
        filter: None,
    })
}

/// MATCH of one vertex.
fn clauses(alloc: Global, bound: &str) -> Result<Items<Clause>, NoMemory> {
    let name = name(alloc, bound)?;
    let patterns = one(alloc, vertex(alloc, name))?;
    one(alloc, matched(patterns))
}

/// A column that is a name alone, or none.
fn columns(alloc: Global, used: &str) -> Result<Items<Item>, NoMemory> {
    match name(alloc, used)? {
        None => Ok(Items::new(alloc)),
        Some(name) => one(
            alloc,
            Item {
                expr: Expr::Var(name),
                name: None,
            },
        ),
    }
}

fn returned(alloc: Global, items: Items<Item>) -> Projection {
    Projection {
        distinct: false,
        star: items.is_empty(),
        items,
        sort: Items::new(alloc),
        skip: None,
        limit: None,
        filter: None,
    }
}

fn query(alloc: Global, row: &Row) -> Result<Query, NoMemory> {
    let items = columns(alloc, row.used)?;
    let clauses = clauses(alloc, row.bound)?;
    Ok(Query {
        stages: Items::new(alloc),
        clauses,
        returns: Some(returned(alloc, items)),
        time: row.time,
    })
}

/// A refusal in words, and the name in it.
fn told(refused: &CheckRefused) -> (&str, &str) {
    match refused {
        CheckRefused::TtWrites => ("writes", ""),
        CheckRefused::BetweenShape => ("shape", ""),
        CheckRefused::Unbound(name) => ("unbound", name.as_str()),
        CheckRefused::Redeclared(name) => ("redeclared", name.as_str()),
        CheckRefused::AggregatePlace => ("aggregate", ""),
        CheckRefused::NoMemory => ("no memory", ""),
    }
}

fn answers(alloc: Global, row: &Row) -> Result<bool, NoMemory> {
    let query = query(alloc, row)?;
    Ok(match check(alloc, query) {
        Ok(checked) => row.answer == "ok" && *checked.time() == checked.query().time,
        Err(refused) => told(&refused) == (row.answer, row.name),
    })
}

#[test]
fn names_are_in_and_out_of_scope(rt: HostRuntime) -> Result<(), Fail> {
    for row in &ROWS {
        assert!(rt; answers(rt.alloc(), row)?, "{} {}", row.bound, row.used);
    }
    names_are_distinct();
    names_stand();
    Ok(())
}
