ghost use Rattle.std.specs.Prelude.{◌≤◌, ℕ, false};
ghost use Rattle.line_run.specs.Runs.{status_of};
ghost use Rattle.script_desk.specs.Script.{AnswersLine, AnswersLong, Past};
ghost use Rattle.script_desk.specs.Stands.{IsLine, Stands};
ghost use Rattle.script_run.specs.Runs.{ScriptRun, before};

use line_run::{Answering, Ending, NoMemory, answer_lines};
use script_desk::Desk;
use std::alloc::Global;
use wire_line::{Sink, Source};

/// A desk as what answers the lines of a run.
#[derive(Drop)]
struct Script {
    desk: Desk,
}

/// Each line by its session.
impl Answering for Script {
    ghost answers = { λ old line text quits new. (past : Past) → Stands old.desk past →
        IsLine (λ t q after. AnswersLine past line t q after) (Stands new.desk) text quits };

    ghost answers_long = { λ old text new. (past : Past) → Stands old.desk past →
        IsLine (λ t q after. AnswersLong past t after) (Stands new.desk) text false };

    fn answer(&mut self, alloc: Global, line: &[u8], reply: &mut String) -> Result<bool, NoMemory> {
        self.desk.answer(alloc, line, reply)
    }

    fn answer_long(&mut self, _alloc: Global, reply: &mut String) -> Result<(), NoMemory> {
        self.desk.answer_long(reply)
    }
}

/// Answers a script over a desk, and ends its sessions.
fn answer_all<I: Source, O: Sink>(
    alloc: Global,
    desk: Desk,
    input: &mut I,
    output: &mut O,
) -> Ending
    ensures run { (anchor : ℕ) → Stands desk (before anchor) → ScriptRun anchor I.Source O.Sink
        input.old input.new output.old output.new (status_of result) }
{
    let mut script = Script { desk };
    let ending = answer_lines(alloc, &mut script, input, output);
    let Script { desk } = script;
    desk.end(alloc);
    ending
}

/// Answers a script, and ends with the program's status. `anchor` is the number of deltas in a block of history, from 1 to
/// 1,024.
///
/// Status 0: the source was read to its end or to a `.quit`, and the sink took the text that answers the script. 3: the
/// source failed; the lines that ended before are answered. 4: the sink failed. 5: memory was wanting. 7: the input goes on
/// behind its limit; the lines that ended within it are answered. At each a front of the text of some of the first lines was
/// written, and nothing else.
pub fn run_script<I: Source, O: Sink>(
    alloc: Global,
    anchor: u64,
    input: &mut I,
    output: &mut O,
) -> u8
    requires anchor { (1 ≤ anchor) × (anchor ≤ 1024) }
    ensures run { ScriptRun anchor I.Source O.Sink input.old input.new output.old output.new result }
{
    match Desk::new(alloc, anchor) {
        Ok(desk) => answer_all(alloc, desk, input, output).status(),
        Err(_) => Ending::NoMemory.status(),
    }
}
