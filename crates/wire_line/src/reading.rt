ghost use Rattle.std.specs.Prelude.{◌≡◌, None};

use crate::{Failed, Source};
use std::io::Read;

/// A reader of the standard library as a source. It counts a fault at each error, up to 2^64 - 1. It tells what is left
/// where the reader tells what remains. What came it doesn't tell, since it keeps no byte.
#[derive(Drop)]
pub struct Reading<R: Read> {
    inner: R,
    faults: u64,
}

impl<R: Read> Reading<R> {
    pub fn new(inner: R) -> Reading<R>
        ensures left { ⟦<Reading<R> as Source>⟧.left result ≡ R.remaining inner }
        ensures faults { ⟦<Reading<R> as Source>⟧.faults result ≡ 0 }
    {
        Reading { inner, faults: 0 }
    }
}

impl<R: Read> Source for Reading<R> {
    ghost came = { λ _. None };

    ghost left = { λ r. R.remaining r.inner };

    ghost faults = { λ r. r.faults };

    fn read(&mut self, buf: &mut [u8]) -> Result<usize, Failed> {
        match self.inner.read(buf) {
            Ok(count) => Ok(count),
            Err(_) => {
                self.faults = self.faults.saturating_add(1);
                Err(Failed)
            }
        }
    }
}
