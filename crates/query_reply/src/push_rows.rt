//! The texts of rows and of what refuses them.
ghost use Rattle.std.specs.Prelude.{◌≡◌, ◌++◌, OnOk, codes, string_bytes};
ghost use Rattle.graph_reader.specs.Rows.{row_text};
ghost use Rattle.query_reply.specs.Rows.{refused_text, row_lines};

use expr_eval::EvalRefused;
use graph_reader::{Shown, to_json};
use graph_value::NoMemory;
use sqlite_items::Items;
use std::alloc::Global;
use std::fmt::Write;

/// The values of a row, as they are shown.
pub type ShownRow = Items<Shown>;

/// Appends a row and a line end. The row is made apart, since what makes JSON reads all of the text that it appends to.
fn push_row(alloc: Global, out: &mut String, row: &[Shown]) -> Result<(), NoMemory>
    ensures ok { OnOk result (string_bytes out.new
        ≡ string_bytes out.old ++ (row_text row.now ++ codes "\n")) }
{
    let line = to_json(alloc, row)?;
    out.push_str(line.as_str())?;
    out.push_str("\n")
}

/// Appends each row as an array of JSON, with a line end behind it.
///
/// The error says that memory was wanting; a part of what is appended may then stand in the text.
pub fn push_lines(alloc: Global, out: &mut String, rows: &[ShownRow]) -> Result<(), NoMemory>
    ensures ok { OnOk result (string_bytes out.new ≡ string_bytes out.old ++ row_lines rows.now) }
{
    for row in rows {
        push_row(alloc, out, row.as_slice())?;
    }
    Ok(())
}

/// Appends what refuses a query, under its number.
///
/// The error says that memory was wanting; a part of what is appended may then stand in the text.
pub fn push_refused(out: &mut String, why: EvalRefused) -> Result<(), NoMemory>
    ensures ok { OnOk result (string_bytes out.new ≡ string_bytes out.old ++ refused_text why) }
{
    match why {
        EvalRefused::TypeFault => out.push_str("ERR 5 type"),
        EvalRefused::Overflow => out.push_str("ERR 6 overflow"),
        EvalRefused::ZeroDivisor => out.push_str("ERR 7 zero divisor"),
        EvalRefused::TooLarge => out.push_str("ERR 14 too large"),
        EvalRefused::RowLimit => out.push_str("ERR 14 row limit"),
        EvalRefused::Gone(x) => write!(out, "ERR 17 gone {x}"),
        EvalRefused::NoMemory => out.push_str("ERR 16 no memory"),
    }
}
