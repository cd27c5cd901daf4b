ghost use Rattle.std.specs.Prelude.{◌≡◌, Some, replicate};

use crate::{Failed, Source};
use std::marker::Model;

/// A source of equal bytes, which needs no memory for them. It never fails.
#[derive(Drop)]
pub struct SameBytes {
    byte: u8,
    given: u64,
    rest: u64,
}

impl Model for SameBytes {
    ghost use Rattle.std.specs.Prelude.{◌+◌, ◌^◌, ◌<◌};
    ghost use Rattle.wire_line.specs.Memory.{Repeated};

    ghost Value = { Repeated };

    ghost view = { λ s. record { byte = s.byte; given = s.given; rest = s.rest } };

    ghost invariant = { λ s. s.given + s.rest < 2 ^ 64 };
}

impl SameBytes {
    /// A source of `count` bytes that equal `byte`.
    pub fn new(byte: u8, count: u64) -> SameBytes
        ensures { result ≡ record { byte = byte; given = 0; rest = count } }
    {
        SameBytes {
            byte,
            given: 0,
            rest: count,
        }
    }
}

impl Source for SameBytes {
    ghost came = { λ s. Some (replicate s.given s.byte) };

    ghost left = { λ s. Some (replicate s.rest s.byte) };

    ghost faults = { λ _. 0 };

    fn read(&mut self, buf: &mut [u8]) -> Result<usize, Failed> {
        let room = buf.len() as u64;
        let count = room.min(self.rest);
        buf[..count as usize].fill(self.byte);
        self.given += count;
        self.rest -= count;
        Ok(count as usize)
    }
}
