ghost use Rattle.std.specs.Prelude.{◌≡◌, ◌+◌, ◌-◌, ◌^◌, ◌≤◌, [], Some, length, is_err, false, min, IfOk};
ghost use Rattle.std.specs.Io.KnownBytes.{ReadConsumes};
ghost use Rattle.wire_line.specs.Failures.{FailsByRise};
ghost use Rattle.wire_line.specs.Telling.{ReadAdds};
ghost use Rattle.wire_line.specs.Memory.{is_listed};

use crate::calls::Calls;
use crate::{Failed, Source};
use std::marker::Model;

/// A source over bytes in memory. It gives at most `piece` bytes in a call, and fails at the calls of a list.
#[derive(Drop)]
pub struct MemorySource {
    bytes: Vec<u8>,
    at: usize,
    piece: usize,
    calls: Calls,
}

impl Model for MemorySource {
    ghost use Rattle.std.specs.Prelude.{◌≤◌, length, take, drop};
    ghost use Rattle.wire_line.specs.Memory.{Supply};

    ghost Value = { Supply };

    ghost view = { λ s. record {
      came = take s.at s.bytes.items;
      left = drop s.at s.bytes.items;
      piece = s.piece;
      failing = s.calls.failing.items;
      calls = s.calls.made;
      faults = s.calls.faults;
    } };

    ghost invariant = { λ s. (s.at ≤ length s.bytes.items) × (1 ≤ s.piece) };
}

impl MemorySource {
    /// A source of these bytes. `failing` has the numbers of the calls that are to fail, the first call being 0.
    pub fn new(bytes: Vec<u8>, piece: usize, failing: Vec<u64>) -> MemorySource
        requires { 1 ≤ piece }
        ensures { result ≡ record {
          came = [];
          left = bytes.items;
          piece = piece;
          failing = failing.items;
          calls = 0;
          faults = 0;
        } }
    {
        MemorySource {
            bytes,
            at: 0,
            piece,
            calls: Calls {
                failing,
                made: 0,
                faults: 0,
            },
        }
    }
}

impl Source for MemorySource {
    ghost came = { λ s. Some s.came };

    ghost left = { λ s. Some s.left };

    ghost faults = { λ s. s.faults };

    fn read(&mut self, buf: &mut [u8]) -> Result<usize, Failed>
        ensures bound { IfOk result (λ n. n ≤ length buf.new) }
        ensures left { ReadConsumes (Some self.old.left) (Some self.new.left) result buf.new }
        ensures came { ReadAdds (Some self.old.came) (Some self.new.came) result buf.new }
        ensures cause { FailsByRise self.old.faults self.new.faults result }
        // It fails exactly at the calls of the list, and its count stays elsewhere.
        ensures failing { is_err result ≡ is_listed self.old.failing self.old.calls }
        ensures unlisted { is_listed self.old.failing self.old.calls ≡ false
            → self.new.faults ≡ self.old.faults }
        ensures count { IfOk result (λ n.
            n ≡ min self.old.piece (min (length buf.new) (length self.old.left))) }
        ensures kept { (self.new.failing ≡ self.old.failing) × (self.new.piece ≡ self.old.piece) }
        ensures calls { self.new.calls ≡ min (self.old.calls + 1) (2 ^ 64 - 1) }
    {
        if self.calls.next_fails() {
            return Err(Failed);
        }
        let rest = &self.bytes[self.at..];
        let count = self.piece.min(buf.len().min(rest.len()));
        buf[..count].copy_from_slice(&rest[..count]);
        self.at += count;
        Ok(count)
    }
}
