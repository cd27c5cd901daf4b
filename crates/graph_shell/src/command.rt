ghost use Rattle.std.specs.Prelude.{◌≡◌, IfSome};
ghost use Rattle.graph_shell.specs.Commands.{Does, IsInLimits, ShowsUsage, command_named, command_of};

use crate::run::run_events;
use graph_value::Text;
use script_run::run_script;
use std::alloc::Global;
use wire_line::{Sink, Source, write_whole};

/// What the program is asked to do.
#[derive(Clone, Copy)]
pub enum Command {
    /// Answer an event list. `anchor` is the number of deltas in a block of history, from 1 to 1,024.
    Events { anchor: u64 },
    /// Answer a script. `anchor` is the same.
    Script { anchor: u64 },
}

/// The command that the words behind the program's name are, or `None` where they are none. It takes no memory.
pub fn read_words(words: &[Text]) -> Option<Command>
    ensures read { result ≡ command_of words.now }
    ensures limits { IfSome result IsInLimits }
{
    match words {
        [word] => read_word(word.as_str()),
        _ => None,
    }
}

/// The command of one word.
fn read_word(word: &str) -> Option<Command>
    ensures read { result ≡ command_named word.now }
    ensures limits { IfSome result IsInLimits }
{
    match word {
        "events" => Some(Command::Events { anchor: 1 }),
        "script" => Some(Command::Script { anchor: 1 }),
        _ => None,
    }
}

/// Writes the usage line. Status 2: it was written. 4: the sink failed.
pub fn show_usage<O: Sink>(output: &mut O) -> u8
    ensures { ShowsUsage O.Sink output.old output.new result }
{
    match write_whole(output, b"usage: aeong events|script|load|serve\n") {
        Ok(()) => 2,
        Err(_) => 4,
    }
}

/// Does what the words ask for, and ends with the program's status.
///
/// Status 2: the words are no command, and the usage line was written. All others are those of
/// [`run_events`](crate::run_events) and of [`run_script`](script_run::run_script).
pub fn aeong_main<I: Source, O: Sink>(
    alloc: Global,
    words: &[Text],
    input: &mut I,
    output: &mut O,
) -> u8
    ensures { Does I.Source O.Sink words.now input.old input.new output.old output.new result }
{
    match read_words(words) {
        Some(Command::Events { anchor }) => run_events(alloc, anchor, input, output),
        Some(Command::Script { anchor }) => run_script(alloc, anchor, input, output),
        None => show_usage(output),
    }
}
