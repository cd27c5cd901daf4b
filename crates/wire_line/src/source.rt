ghost use Rattle.std.specs.Prelude.{◌≤◌, ℕ, List, Option, length, IfOk};
ghost use Rattle.std.specs.Io.KnownBytes.{ReadConsumes};
ghost use Rattle.wire_line.specs.Failures.{FailsByRise};
ghost use Rattle.wire_line.specs.Telling.{ReadAdds};

use crate::Failed;

/// Where bytes come from.
pub trait Source {
    /// The bytes that it has given, where it tells them.
    ghost came: { Self → Option (List ℕ) };

    /// The bytes that are still to come, where it tells them.
    ghost left: { Self → Option (List ℕ) };

    /// How often it has failed.
    ghost faults: { Self → ℕ };

    /// Puts the next bytes at the front of `buf`, and answers how many. What stands behind them in `buf` isn't said.
    /// At 0, for a buffer that isn't empty, the bytes are at their end. A failure takes no byte.
    fn read(&mut self, buf: &mut [u8]) -> Result<usize, Failed>
        ensures bound { IfOk result (λ n. n ≤ length buf.new) }
        ensures left { ReadConsumes (left self.old) (left self.new) result buf.new }
        ensures came { ReadAdds (came self.old) (came self.new) result buf.new }
        ensures cause { FailsByRise (faults self.old) (faults self.new) result };
}
