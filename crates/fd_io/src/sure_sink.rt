// A sink in memory that fails only where its room is used up.
ghost use Rattle.std.specs.Prelude.{◌≡◌, ◌^◌, ◌≤◌, ◌<◌, ◌-◌, ◌↔◌, [], Some, length, min, is_err, IsErr, IfOk};
ghost use Rattle.std.specs.Io.{WritesAtMost};
ghost use Rattle.std.specs.Io.KnownBytes.{WriteAppends};
ghost use Rattle.fd_io.specs.Causes.{HasCause, next_count};
ghost use Rattle.fd_io.specs.Memory.{fault_count};

use crate::{Sink, WriteFailed};
use fd_base::Memory;
use std::alloc::Global;
use std::marker::Model;

/// It takes its memory when it is made. Its count is the number of its failed calls.
#[derive(Drop)]
pub struct SureSink {
    bytes: Vec<u8>,
    room: usize,
    calls: u64,
    faults: u64,
}

impl Model for SureSink {
    ghost use Rattle.std.specs.Prelude.{◌≤◌, vec_len, vec_capacity};
    ghost use Rattle.fd_io.specs.Memory.{RoomState};

    ghost Value = { RoomState };

    ghost view = { λ s. record { taken = s.bytes.items; room = s.room; calls = s.calls; faults = s.faults } };

    ghost invariant = { λ s. (vec_len s.bytes ≤ s.room) × (s.room ≤ vec_capacity s.bytes) };
}

impl SureSink {
    pub fn new(alloc: Global, room: usize) -> Result<SureSink, Memory>
        ensures { IfOk result (λ made. made ≡ record { taken = []; room = room; calls = 0; faults = 0 }) }
    {
        let bytes = Vec::with_capacity(alloc, room)?;
        Ok(SureSink {
            bytes,
            room,
            calls: 0,
            faults: 0,
        })
    }

    pub fn as_slice(&self) -> &[u8]
        ensures { result.now ≡ self.now.taken }
    {
        self.bytes.as_slice()
    }
}

impl Sink for SureSink {
    ghost taken = { λ s. Some s.taken };

    ghost faults = { λ s. s.faults };

    ghost calls = { λ s. s.calls };

    fn write(&mut self, piece: &[u8]) -> Result<usize, WriteFailed>
        ensures bound { WritesAtMost result piece.now }
        ensures some { IfOk result (λ n. 0 < length piece.now → 0 < n) }
        ensures bytes { WriteAppends (Some self.old.taken) (Some self.new.taken) result piece.now }
        ensures cause { HasCause self.old.faults self.new.faults result }
        ensures limit { self.new.faults < 2 ^ 64 }
        ensures call { self.new.calls ≡ next_count self.old.calls }

        // A call fails exactly where the piece isn't empty and no room is left.
        ensures fails { IsErr result ↔ ((0 < length piece.now) × (self.old.room ≤ length self.old.taken)) }
        ensures count { IfOk result (λ n. n ≡ min (length piece.now) (self.old.room - length self.old.taken)) }
        ensures kept { self.new ≡ record self.old {
          taken = self.new.taken;
          calls = next_count self.old.calls;
          faults = fault_count self.old.faults (is_err result);
        } }
    {
        self.calls = self.calls.saturating_add(1);
        let left = self.room - self.bytes.len();
        if left == 0 && !piece.is_empty() {
            self.faults = self.faults.saturating_add(1);
            return Err(WriteFailed);
        }
        let count = piece.len().min(left);
        self.bytes.extend_from_slice(&piece[..count]).unwrap();
        Ok(count)
    }
}
