ghost use Rattle.std.specs.Prelude.{◌≡◌, ◌≢◌, Err, false, IfErr, string_bytes};
ghost use Rattle.wire_line.specs.Calls.{Reads, SourceRose, WhereLeft};
ghost use Rattle.line_run.specs.Next.{Continues, IsTurnAfter};
ghost use Rattle.line_run.specs.Runs.{Run};

use crate::{Answering, Ending};
use std::alloc::Global;
use wire_line::{Line, Lines, Sink, Source, write_whole};

/// Reads the next line and answers it: the reply is all that the text then holds. `Err` where there is none, `Ok(true)` where the run
/// ends behind the reply.
fn answer_next<A: Answering, I: Source>(
    alloc: Global,
    answering: &mut A,
    lines: &mut Lines,
    reply: &mut String,
    input: &mut I,
) -> Result<bool, Ending>
    ensures turn { WhereLeft I.Source input.old input.new (λ left left'. lines.old.passing ≡ false
        → Continues A.Answering answering.old answering.new result (string_bytes reply.new)
        lines.old lines.new left left') }
    ensures reads { Reads I.Source input.old input.new lines.old lines.new }
    ensures limit { IsTurnAfter result lines.new.taken }
    ensures fault { result ≡ Err Ending.SourceFault → SourceRose I.Source input.old input.new }
    // Where no line was read, nothing was asked.
    ensures unasked { IfErr result (λ ending.
        ending ≢ Ending.NoMemory → answering.new ≡ answering.old) }
    ensures no_quit { result ≢ Err Ending.Quit }
    ensures no_sink { result ≢ Err Ending.SinkFault }
{
    match lines.next(input) {
        Line::Whole(span) => match answering.answer(alloc, lines.bytes(span), reply) {
            Ok(quits) => Ok(quits),
            Err(_) => Err(Ending::NoMemory),
        },
        Line::TooLong => match answering.answer_long(alloc, reply) {
            Ok(()) => Ok(false),
            Err(_) => Err(Ending::NoMemory),
        },
        Line::End => Err(Ending::Done),
        Line::Limit => Err(Ending::Limit),
        Line::Fault => Err(Ending::SourceFault),
    }
}

/// Answers line after line, each behind the one before it, until the run ends. Each reply is made whole and then offered to the
/// sink.
pub fn answer_lines<A: Answering, I: Source, O: Sink>(
    alloc: Global,
    answering: &mut A,
    input: &mut I,
    output: &mut O,
) -> Ending
    ensures { Run A.Answering answering.old answering.new I.Source O.Sink input.old input.new
        output.old output.new result }
{
    let mut reply = String::new(alloc);
    let Ok(mut lines) = Lines::new(alloc) else {
        return Ending::NoMemory;
    };
    // An input within its limit has fewer lines than there are turns.
    for _ in 0..u64::MAX {
        match answer_next(alloc, answering, &mut lines, &mut reply, input) {
            Ok(quits) => {
                if write_whole(output, reply.as_bytes()).is_err() {
                    return Ending::SinkFault;
                }
                if quits {
                    return Ending::Quit;
                }
            }
            Err(ending) => return ending,
        }
    }
    Ending::NoMemory
}
