ghost use Rattle.std.specs.Prelude.{OnOk, string_bytes};
ghost use Rattle.graph_shell.specs.Events.{answer_short};
ghost use Rattle.graph_shell.specs.Stands.{AnswersLine, Past, Stands};

use crate::NoMemory;
use crate::shell::Shell;
use event_lines::{Request, is_skipped, push_bad_line, push_reply, read_request};
use std::alloc::Global;

/// Answers a line that isn't too long, without its line end and carriage return: the reply is all that the text then
/// holds, and it is empty where the line is skipped.
///
/// For every past that the shell stands for, text and shell are those that the line leads to. The error says that the
/// program's own memory was wanting.
pub fn answer_line(
    alloc: Global,
    shell: &mut Shell,
    line: &[u8],
    reply: &mut String,
) -> Result<(), NoMemory>
    ensures { OnOk result ((past : Past) → Stands shell.old past →
        AnswersLine (λ wanting kept. answer_short wanting kept line.now)
        (Stands shell.new) (string_bytes reply.new) past) }
{
    reply.clear();
    if is_skipped(line) {
        return Ok(());
    }
    match read_request(alloc, line)? {
        None => push_bad_line(reply),
        Some(Request { caller, wish }) => {
            let asked = wish.asked();
            let told = shell.perform(alloc, caller, wish);
            push_reply(alloc, reply, caller, asked, &told)
        }
    }
}
