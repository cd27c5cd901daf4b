//! Rows of maximal runs.
ghost use Rattle.std.specs.Prelude.{◌≡◌, ◌++◌, IfOk};
ghost use Rattle.tt_clauses.specs.Rows as spec;
ghost use Rattle.expr_eval.specs.Outcome.{Answers};

use crate::values::Values;
use expr_eval::{EvalRefused, ROW_LIMIT};
use graph_reader::Shown;
use graph_value::NoMemory;
use query_run::Rows;
use sqlite_items::Items;
use std::alloc::AllocError;
use tt_intervals::Span;

/// The values that there are at the instants of a span.
pub(crate) type Piece = (Span, Values);

/// An instant as an integer. No clock goes past these; what can't come counts as want of memory.
fn integer(t: u64) -> Result<Shown, NoMemory>
    ensures { IfOk result (λ shown. shown ≡ spec.integer t) }
{
    match i64::try_from(t) {
        Ok(t) => Ok(Shown::Int(t)),
        Err(_) => Err(AllocError),
    }
}

/// The row of a run: its values, and behind them its first instant and its last one.
fn row_of(run: Piece) -> Result<Items<Shown>, NoMemory>
    ensures { IfOk result (λ row. row ≡ spec.row_of run) }
{
    let (span, values) = run;
    let mut row = values.into_shown();
    row.push(integer(span.first)?)?;
    row.push(integer(span.last)?)?;
    Ok(row)
}

/// Puts the rows of runs behind those that are there.
pub(crate) fn with_rows(rows: Rows, runs: Vec<Piece>) -> Result<Rows, NoMemory>
    ensures { IfOk result (λ all. all ≡ rows ++ spec.rows_of runs.items) }
{
    let mut rows = rows;
    for run in runs {
        rows.push(row_of(run)?)?;
    }
    Ok(rows)
}

/// The rows, of which there may be too many.
pub(crate) fn limited(rows: Rows) -> Result<Rows, EvalRefused>
    ensures { result ≡ spec.limited rows }
{
    if ROW_LIMIT < rows.len() {
        Err(EvalRefused::RowLimit)
    } else {
        Ok(rows)
    }
}
