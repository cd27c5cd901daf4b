//! Statements, run on any store.
ghost use Rattle.std.specs.Prelude.{◌≡◌, IfOk};
ghost use Rattle.cypher_check.specs.Answer.{query_of};
ghost use Rattle.tt_clauses.specs.Between.{HasSpan};

use cypher_check::{Checked, check};
use cypher_parse::parse;
use cypher_syntax::Time;
use expr_eval::EvalRefused;
use graph_reader::push_row_json;
use graph_value::{NoMemory, Text};
use query_run::{Rows, Stop, run};
use std::alloc::Global;
use tt_clauses::{between, range_fault};
use txn_manager::Rival;
use world_model::{GraphStore, Txn};

fn checked(alloc: Global, statement: &str) -> Result<Option<Checked>, NoMemory> {
    let text = Text::from_str(alloc, statement)?;
    Ok(match parse(alloc, &text) {
        Ok(query) => check(alloc, query).ok(),
        Err(_) => None,
    })
}

fn rows_text(alloc: Global, rows: &Rows) -> Result<String, NoMemory> {
    let mut text = String::new(alloc);
    for (place, row) in rows.as_slice().iter().enumerate() {
        if place > 0 {
            text.push(' ')?;
        }
        push_row_json(alloc, &mut text, row.as_slice())?;
    }
    Ok(text)
}

fn refusal_text(alloc: Global, why: EvalRefused) -> Result<String, NoMemory> {
    match why {
        EvalRefused::TypeFault => format!(in alloc; "!type"),
        EvalRefused::Overflow => format!(in alloc; "!overflow"),
        EvalRefused::ZeroDivisor => format!(in alloc; "!zero divisor"),
        EvalRefused::TooLarge => format!(in alloc; "!too large"),
        EvalRefused::RowLimit => format!(in alloc; "!row limit"),
        EvalRefused::Gone(x) => format!(in alloc; "!gone {x}"),
        EvalRefused::NoMemory => format!(in alloc; "!no memory"),
    }
}

fn stop_text(alloc: Global, why: Stop) -> Result<String, NoMemory> {
    match why {
        Stop::Eval(why) => refusal_text(alloc, why),
        Stop::Conflict(x, Rival::Running { start }) => {
            format!(in alloc; "!conflict {x} open {start}")
        }
        Stop::Conflict(x, Rival::Committed { ts }) => {
            format!(in alloc; "!conflict {x} committed {ts}")
        }
        Stop::HasEdges(v) => format!(in alloc; "!has edges v{}", v.0),
        Stop::IdEnd => format!(in alloc; "!id end"),
        Stop::TimeAhead { t, start } => format!(in alloc; "!time ahead {t} start {start}"),
    }
}

/// The rows of a statement, parted by spaces, or `!` and why it stopped.
pub fn text_of<S: GraphStore>(
    alloc: Global,
    store: &mut S,
    rt: &S::Rt,
    txn: &Txn,
    statement: &str,
) -> Result<String, NoMemory>
    ensures stays { S.running store.new ≡ S.running store.old }
{
    let Some(checked) = checked(alloc, statement)? else {
        return format!(in alloc; "no statement");
    };
    let answer = match checked.time() {
        Time::Between(first, last) if first <= last => between(alloc, &checked, rt, store, txn),
        _ => run(alloc, &checked, rt, store, txn),
    };
    match answer {
        Ok(rows) => rows_text(alloc, &rows),
        Err(why) => stop_text(alloc, why),
    }
}

/// The two instants of a fault of a range, or `none`.
pub fn fault_text(alloc: Global, statement: &str) -> Result<String, NoMemory> {
    let Some(checked) = checked(alloc, statement)? else {
        return format!(in alloc; "no statement");
    };
    match range_fault(&checked) {
        Some((first, last)) => format!(in alloc; "{first} {last}"),
        None => format!(in alloc; "none"),
    }
}
