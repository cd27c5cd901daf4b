ghost use Rattle.std.specs.Prelude.{List, ℕ, Bool, OnOk, string_bytes};
ghost use Rattle.line_run.specs.Turns.{TellsAnswer};

use crate::NoMemory;
use std::alloc::Global;

/// What answers lines, one after the other.
pub trait Answering {
    /// A line that isn't too long, without its carriage return, is answered with this text, and whether the run ends there.
    /// The last is what answers the next line.
    ghost answers: { Self → List ℕ → List ℕ → Bool → Self → Type 0 };

    /// The same of a line that is too long.
    ghost answers_long: { Self → List ℕ → Self → Type 0 };

    /// Answers a line that isn't too long, given without its line end and carriage return: the text then holds the reply and
    /// nothing else, with the line end of each of its lines. It is empty where the line is skipped. Whether the run ends
    /// here.
    ///
    /// The error says that the program's own memory was wanting.
    fn answer(&mut self, alloc: Global, line: &[u8], reply: &mut String) -> Result<bool, NoMemory>
        ensures { TellsAnswer result (λ quits.
            answers self.old line.now (string_bytes reply.new) quits self.new) };

    /// Answers a line that is too long.
    fn answer_long(&mut self, alloc: Global, reply: &mut String) -> Result<(), NoMemory>
        ensures { OnOk result (answers_long self.old (string_bytes reply.new) self.new) };
}
