ghost use Rattle.std.specs.Prelude.{◌≡◌, ◌≢◌, false, string_bytes};
ghost use Rattle.wire_line.specs.Calls.{Reads, SourceRose, WhereLeft};
ghost use Rattle.graph_shell.specs.Runs.{Continues, IsAnchor, IsTurnAfter, Run, status_of};
ghost use Rattle.graph_shell.specs.Stands.{Past, Stands};

use crate::answer::answer_line;
use crate::shell::Shell;
use event_lines::push_bad_line;
use std::alloc::Global;
use wire_line::{Line, Lines, Sink, Source, write_whole};

/// Why a run ended.
#[derive(Clone, Copy)]
pub enum Ending {
    /// The input was read to its end.
    Done,
    /// The source failed.
    SourceFault,
    /// The sink failed.
    SinkFault,
    /// The program's own memory was wanting.
    NoMemory,
    /// The input goes on behind its limit.
    Limit,
}

impl Ending {
    /// The status with which the program ends.
    fn status(self) -> u8
        ensures { result ≡ status_of self }
    {
        match self {
            Ending::Done => 0,
            Ending::SourceFault => 3,
            Ending::SinkFault => 4,
            Ending::NoMemory => 5,
            Ending::Limit => 7,
        }
    }
}

/// Reads the next line and answers it: the reply is all that the text then holds.
fn answer_next<I: Source>(
    alloc: Global,
    shell: &mut Shell,
    lines: &mut Lines,
    reply: &mut String,
    input: &mut I,
) -> Result<(), Ending>
    ensures turn { WhereLeft I.Source input.old input.new (λ left left'.
        (past : Past) → Stands shell.old past → lines.old.passing ≡ false
        → Continues result (Stands shell.new) (string_bytes reply.new)
        lines.old lines.new left left' past) }
    ensures reads { Reads I.Source input.old input.new lines.old lines.new }
    ensures limit { IsTurnAfter result lines.new.taken }
    ensures fault { result ≡ Err Ending.SourceFault → SourceRose I.Source input.old input.new }
    ensures no_sink { result ≢ Err Ending.SinkFault }
{
    match lines.next(input) {
        Line::Whole(span) => match answer_line(alloc, shell, lines.bytes(span), reply) {
            Ok(()) => Ok(()),
            Err(_) => Err(Ending::NoMemory),
        },
        Line::TooLong => {
            reply.clear();
            match push_bad_line(reply) {
                Ok(()) => Ok(()),
                Err(_) => Err(Ending::NoMemory),
            }
        }
        Line::End => Err(Ending::Done),
        Line::Limit => Err(Ending::Limit),
        Line::Fault => Err(Ending::SourceFault),
    }
}

/// Answers line after line, each behind the one before it, until the run ends.
fn answer_all<I: Source, O: Sink>(
    alloc: Global,
    anchor: u64,
    input: &mut I,
    output: &mut O,
) -> Ending
    requires anchor { IsAnchor anchor }
    ensures run { Run anchor I.Source O.Sink input.old input.new output.old output.new (status_of result) }
{
    let mut reply = String::new(alloc);
    let (Ok(mut shell), Ok(mut lines)) = (Shell::new(alloc, anchor), Lines::new(alloc)) else {
        return Ending::NoMemory;
    };
    // An input within its limit has fewer lines than there are turns.
    for _ in 0..u64::MAX {
        if let Err(ending) = answer_next(alloc, &mut shell, &mut lines, &mut reply, input) {
            return ending;
        }
        match write_whole(output, reply.as_bytes()) {
            Ok(()) => {}
            Err(_) => return Ending::SinkFault,
        }
    }
    Ending::NoMemory
}

/// Answers an event list, and ends with the program's status. `anchor` is the number of deltas in a block of history,
/// from 1 to 1,024.
///
/// Status 0: the source was read to its end, and the sink took the text that answers the list. 3: the source failed;
/// the lines that ended before are answered. 4: the sink failed. 5: memory was wanting. 7: the input goes on behind its
/// limit; the lines that ended within it are answered. At each a front of the text was written, and nothing else.
pub fn run_events<I: Source, O: Sink>(
    alloc: Global,
    anchor: u64,
    input: &mut I,
    output: &mut O,
) -> u8
    requires anchor { IsAnchor anchor }
    ensures run { Run anchor I.Source O.Sink input.old input.new output.old output.new result }
{
    answer_all(alloc, anchor, input, output).status()
}
