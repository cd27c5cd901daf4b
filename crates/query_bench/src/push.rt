//! The text of the answer to a statement.

ghost use Rattle.std.specs.Prelude.{◌≡◌, ◌++◌, OnOk, codes, string_bytes};
ghost use Rattle.cypher_print.specs.QueryText.{query_text};
ghost use Rattle.query_bench.specs.Reply.{answer_text};

use cypher_check::Checked;
use cypher_print::print_query;
use cypher_syntax::Query;
use graph_value::NoMemory;
use query_reply::{Fault, push_fault};
use std::alloc::Global;

/// Appends `ok`, a space and the printed tree, or the text of a fault.
pub fn push_answer(
    alloc: Global,
    out: &mut String,
    answer: &Result<Checked, Fault>,
) -> Result<(), NoMemory>
    ensures ok { OnOk result (string_bytes out.new
        ≡ string_bytes out.old ++ answer_text answer.now) }
{
    match answer {
        Ok(checked) => push_tree(alloc, out, checked.query()),
        Err(why) => push_fault(alloc, out, why),
    }
}

/// Appends `ok`, a space and the printed form of a query.
fn push_tree(alloc: Global, out: &mut String, query: &Query) -> Result<(), NoMemory>
    ensures ok { OnOk result (string_bytes out.new
        ≡ string_bytes out.old ++ (codes "ok " ++ query_text query.now)) }
{
    out.push_str("ok ")?;
    let tree = print_query(alloc, query)?;
    out.push_str(tree.as_str())
}
