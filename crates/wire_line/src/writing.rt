ghost use Rattle.std.specs.Prelude.{◌≡◌};

use crate::{Failed, Sink};
use std::io::Write;

/// A writer of the standard library as a sink. It counts a fault at each error, and where nothing is taken of a piece
/// that isn't empty, up to 2^64 - 1. It tells what it took where the writer tells its contents.
#[derive(Drop)]
pub struct Writing<W: Write> {
    inner: W,
    faults: u64,
}

impl<W: Write> Writing<W> {
    pub fn new(inner: W) -> Writing<W>
        ensures taken { ⟦<Writing<W> as Sink>⟧.taken result ≡ W.contents inner }
        ensures faults { ⟦<Writing<W> as Sink>⟧.faults result ≡ 0 }
    {
        Writing { inner, faults: 0 }
    }
}

impl<W: Write> Sink for Writing<W> {
    ghost taken = { λ w. W.contents w.inner };

    ghost faults = { λ w. w.faults };

    fn write(&mut self, bytes: &[u8]) -> Result<usize, Failed> {
        match self.inner.write(bytes) {
            Ok(count) if count > 0 || bytes.is_empty() => Ok(count),
            _ => {
                self.faults = self.faults.saturating_add(1);
                Err(Failed)
            }
        }
    }
}
