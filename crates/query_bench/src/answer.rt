ghost use Rattle.std.specs.Prelude.{OnOk, string_bytes};
ghost use Rattle.query_bench.specs.Reply.{AnswersLine};

use crate::push::push_answer;
use graph_value::{NoMemory, Text};
use query_reply::examine;
use std::alloc::Global;
use std::str;

/// Makes the text the answer to a line, without its line end: `ok`, a space and the printed tree, or the first fault.
///
/// The error says that memory was wanting for the statement or its answer.
pub fn answer_line(alloc: Global, line: &[u8], reply: &mut String) -> Result<(), NoMemory>
    ensures { OnOk result (AnswersLine line.now (string_bytes reply.new)) }
{
    reply.clear();
    let Ok(statement) = str::from_utf8(line) else {
        return reply.push_str("ERR 1 not UTF-8");
    };
    let statement = Text::from_str(alloc, statement)?;
    let answer = examine(alloc, &statement);
    push_answer(alloc, reply, &answer)
}
