ghost use Rattle.std.specs.Prelude.{◌≡◌, ◌⊎◌, ◌||◌, ◌&&◌, nat_le, nat_lt, ◌+◌, ◌-◌, ◌^◌, ◌≤◌, ◌<◌, [], Some, length, is_err, false, min, IfOk};
ghost use Rattle.std.specs.Io.KnownBytes.{WriteAppends};
ghost use Rattle.wire_line.specs.Failures.{FailsByRise};
ghost use Rattle.wire_line.specs.Telling.{IsShare};
ghost use Rattle.wire_line.specs.Memory.{is_listed};

use crate::calls::Calls;
use crate::{Failed, NoMemory, Sink};
use std::alloc::Global;
use std::marker::Model;

/// A sink in memory, whose room is reserved when it is made. It takes at most `piece` bytes in a call, and fails at the
/// calls of a list, and where a piece isn't empty and no room is left.
#[derive(Drop)]
pub struct MemorySink {
    bytes: Vec<u8>,
    room: usize,
    piece: usize,
    calls: Calls,
}

impl Model for MemorySink {
    ghost use Rattle.std.specs.Prelude.{◌≤◌, length, vec_capacity};
    ghost use Rattle.wire_line.specs.Memory.{Store};

    ghost Value = { Store };

    ghost view = { λ s. record {
      taken = s.bytes.items;
      room = s.room;
      piece = s.piece;
      failing = s.calls.failing.items;
      calls = s.calls.made;
      faults = s.calls.faults;
    } };

    ghost invariant = { λ s. (length s.bytes.items ≤ s.room)
        × (s.room ≤ vec_capacity s.bytes) × (1 ≤ s.piece) };
}

impl MemorySink {
    /// A sink with room for `room` bytes. `failing` has the numbers of the calls that are to fail, the first call
    /// being 0.
    pub fn with_room(
        alloc: Global,
        room: usize,
        piece: usize,
        failing: Vec<u64>,
    ) -> Result<MemorySink, NoMemory>
        requires { 1 ≤ piece }
        ensures { IfOk result (λ s. s ≡ record {
          taken = [];
          room = room;
          piece = piece;
          failing = failing.items;
          calls = 0;
          faults = 0;
        }) }
    {
        let bytes = Vec::with_capacity(alloc, room)?;
        Ok(MemorySink {
            bytes,
            room,
            piece,
            calls: Calls {
                failing,
                made: 0,
                faults: 0,
            },
        })
    }

    /// What it took.
    pub fn bytes(&self) -> &[u8]
        ensures { result.now ≡ self.now.taken }
    {
        self.bytes.as_slice()
    }
}

impl Sink for MemorySink {
    ghost taken = { λ s. Some s.taken };

    ghost faults = { λ s. s.faults };

    fn write(&mut self, bytes: &[u8]) -> Result<usize, Failed>
        ensures bound { IfOk result (λ n. IsShare n bytes.now) }
        ensures bytes { WriteAppends (Some self.old.taken) (Some self.new.taken) result bytes.now }
        ensures cause { FailsByRise self.old.faults self.new.faults result }
        // It fails at the calls of the list, and where there is no room for a piece that isn't empty.
        ensures failing { is_err result ≡
            (is_listed self.old.failing self.old.calls
            || (nat_le self.old.room (length self.old.taken) && nat_lt 0 (length bytes.now))) }
        // Elsewhere its count stays.
        ensures unlisted { is_listed self.old.failing self.old.calls ≡ false
            → (length self.old.taken < self.old.room) ⊎ (length bytes.now ≡ 0)
            → self.new.faults ≡ self.old.faults }
        ensures count { IfOk result (λ n.
            n ≡ min self.old.piece (min (length bytes.now) (self.old.room - length self.old.taken))) }
        ensures kept { (self.new.failing ≡ self.old.failing) × (self.new.piece ≡ self.old.piece)
            × (self.new.room ≡ self.old.room) }
        ensures calls { self.new.calls ≡ min (self.old.calls + 1) (2 ^ 64 - 1) }
    {
        if self.calls.next_fails() {
            return Err(Failed);
        }
        let room = self.room - self.bytes.len();
        let count = self.piece.min(bytes.len().min(room));
        if count == 0 && !bytes.is_empty() {
            self.calls.count_fault();
            return Err(Failed);
        }
        match self.bytes.extend_from_slice(&bytes[..count]) {
            Ok(()) => Ok(count),
            Err(_) => unreachable!(),
        }
    }
}
