ghost use Rattle.std.specs.Prelude.{◌≡◌, ◌≢◌, ℕ, List, [], map, drop, string_bytes, IfOk, IfErr};
ghost use Rattle.std.specs.IoError.{error_kind};
ghost use Rattle.std.specs.Process.{exit_status};
ghost use Rattle.std.specs.Vec.Iter.{into_iter_items};
ghost use Rattle.graph_shell.specs.Commands.{Does, DoesOrLacks, LacksMemory, words_behind};

use crate::NoMemory;
use crate::command::{aeong_main, show_usage};
use graph_value::Text;
use std::alloc::{AllocGlobal, Global};
use std::env::{self, Args, Env};
use std::io::{self, ErrorKind};
use std::process::ExitCode;
use wire_line::{Sink, Source};

/// The words behind the program's name, as texts.
///
/// The error says that memory was wanting.
fn words_behind(alloc: Global, args: Args) -> Result<Vec<Text>, NoMemory>
    ensures { IfOk result (λ words. words.items ≡ words_behind (into_iter_items args)) }
{
    args.skip(1)
        .map(|word| Text::from_string(word))
        .collect(alloc)
}

/// Does what the arguments ask for, as the system gives them, and ends with the program's status.
///
/// An argument that isn't UTF-8 is a wrong word. Where memory was wanting for the words, the status is 5, and nothing
/// was read or written. All else is as [`aeong_main`](crate::aeong_main) does it.
pub fn answer_args<I: Source, O: Sink>(
    alloc: Global,
    args: io::Result<Args>,
    input: &mut I,
    output: &mut O,
) -> u8
    ensures words { IfOk args (λ all. DoesOrLacks I.Source O.Sink (words_behind (into_iter_items all))
        input.old input.new output.old output.new result) }
    ensures no_memory { IfErr args (λ error. error_kind error ≡ ErrorKind.OutOfMemory
        → LacksMemory input.old input.new output.old output.new result) }
    ensures no_text { IfErr args (λ error. error_kind error ≢ ErrorKind.OutOfMemory
        → Does I.Source O.Sink [] input.old input.new output.old output.new result) }
{
    match args {
        Ok(args) => match words_behind(alloc, args) {
            Ok(words) => aeong_main(alloc, words.as_slice(), input, output),
            Err(_) => 5,
        },
        Err(error) => {
            if error.kind() == ErrorKind::OutOfMemory {
                5
            } else {
                show_usage(output)
            }
        }
    }
}

/// What a `main` does: it reads the arguments, does what they ask for, and ends with the status of that.
pub fn run_program<R: Env + AllocGlobal, I: Source, O: Sink>(
    rt: &R,
    input: &mut I,
    output: &mut O,
) -> ExitCode
    ensures { (words : List (List ℕ)) × DoesOrLacks I.Source O.Sink words
        input.old input.new output.old output.new (exit_status result) }
{
    let args = env::args(rt);
    ExitCode::from(answer_args(rt.alloc(), args, input, output))
}
