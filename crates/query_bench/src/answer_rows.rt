ghost use Rattle.std.specs.Prelude.{OnOk, string_bytes};
ghost use Rattle.graph_reader.specs.Reading.{Reads};
ghost use Rattle.query_bench.specs.Rows.{RowsOfLine};

use crate::asking::ask;
use crate::push_rows::push_asked;
use graph_reader::GraphRead;
use graph_value::{NoMemory, Text};
use std::alloc::Global;
use std::str;

/// Makes the text the answer to a line, without the last line end: a line for each row of the query and `OK` with their
/// number, or why there are none.
///
/// The error says that memory was wanting for the statement or its answer.
pub fn answer_rows<G: GraphRead>(
    alloc: Global,
    line: &[u8],
    graph: &mut G,
    reply: &mut String,
) -> Result<(), NoMemory>
    ensures { Reads G.stands G.follows
        (λ g r. OnOk r (RowsOfLine g line.now (string_bytes reply.new)))
        graph.old graph.new result }
{
    reply.clear();
    let Ok(statement) = str::from_utf8(line) else {
        return reply.push_str("ERR 1 not UTF-8");
    };
    let statement = Text::from_str(alloc, statement)?;
    let answer = ask(alloc, &statement, graph);
    push_asked(alloc, reply, &answer)
}
