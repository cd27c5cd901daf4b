ghost use Rattle.std.specs.Prelude.{ℕ, List, Option, Result, IfOk};
ghost use Rattle.std.specs.Io.KnownBytes.{WriteAppends};
ghost use Rattle.wire_line.specs.declared.failed.Failed.{Failed};
ghost use Rattle.wire_line.specs.Failures.{FailsByRise};
ghost use Rattle.wire_line.specs.Telling.{IsShare};

use crate::Failed;

/// Where bytes go.
pub trait Sink {
    /// The bytes that it has taken, where it tells them.
    ghost taken: { Self → Option (List ℕ) };

    /// How often it has failed.
    ghost faults: { Self → ℕ };

    /// One call: the sink before it, the piece that was offered, the answer, and the sink after it.
    ghost writes: { Self → List ℕ → Result ℕ Failed → Self → Type 0 } = { λ _ _ _ _. Unit {0} };

    /// Takes bytes from the front of a piece, and answers how many: at least one of a piece that isn't empty. A failure
    /// takes none.
    fn write(&mut self, bytes: &[u8]) -> Result<usize, Failed>
        ensures bound { IfOk result (λ n. IsShare n bytes.now) }
        ensures bytes { WriteAppends (taken self.old) (taken self.new) result bytes.now }
        ensures cause { FailsByRise (faults self.old) (faults self.new) result }
        ensures call { writes self.old bytes.now result self.new };
}
