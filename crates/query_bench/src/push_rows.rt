//! The text of rows and their number, or of why there are none.
ghost use Rattle.std.specs.Prelude.{◌≡◌, ◌++◌, OnOk, string_bytes};
ghost use Rattle.query_bench.specs.Rows.{asked_text, none_text, rows_text};

use crate::asking::NoRows;
use graph_value::NoMemory;
use query_reply::{ShownRow, push_fault, push_lines, push_refused};
use sqlite_items::Items;
use std::alloc::Global;
use std::fmt::Write;

/// Appends a line for each row and then how many there are, or why there are none. The last line has no line end.
pub fn push_asked(
    alloc: Global,
    out: &mut String,
    answer: &Result<Items<ShownRow>, NoRows>,
) -> Result<(), NoMemory>
    ensures ok { OnOk result (string_bytes out.new
        ≡ string_bytes out.old ++ asked_text answer.now) }
{
    match answer {
        Ok(rows) => push_rows(alloc, out, rows.as_slice()),
        Err(why) => push_none(alloc, out, why),
    }
}

fn push_rows(alloc: Global, out: &mut String, rows: &[ShownRow]) -> Result<(), NoMemory>
    ensures ok { OnOk result (string_bytes out.new ≡ string_bytes out.old ++ rows_text rows.now) }
{
    push_lines(alloc, out, rows)?;
    let count = rows.len();
    write!(out, "OK {count}")
}

fn push_none(alloc: Global, out: &mut String, why: &NoRows) -> Result<(), NoMemory>
    ensures ok { OnOk result (string_bytes out.new ≡ string_bytes out.old ++ none_text why.now) }
{
    match why {
        NoRows::Fault(fault) => push_fault(alloc, out, fault),
        NoRows::Writes => out.push_str("ERR 4 shape write"),
        NoRows::Timed => out.push_str("ERR 4 shape TT clause"),
        NoRows::Refused(why) => push_refused(out, *why),
    }
}
