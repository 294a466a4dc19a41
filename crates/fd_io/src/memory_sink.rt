// A sink in memory with a room, whose calls with stated numbers fail.
ghost use Rattle.std.specs.Prelude.{◌≡◌, ◌^◌, ◌≤◌, ◌<◌, ◌-◌, ◌⊎◌, ◌↔◌, [], Some, length, min, is_err, IsErr, IfOk, Contains};
ghost use Rattle.std.specs.Io.{WritesAtMost};
ghost use Rattle.std.specs.Io.KnownBytes.{WriteAppends};
ghost use Rattle.fd_io.specs.Causes.{HasCause, next_count};
ghost use Rattle.fd_io.specs.Memory.{fault_count};

use crate::{CallList, Sink, WriteFailed};
use fd_base::{Bytes, Memory};
use std::alloc::Global;
use std::marker::Model;

/// It keeps what it took, and takes at most `piece` bytes in a call. It takes its memory when it is made.
#[derive(Drop)]
pub struct MemSink {
    bytes: Vec<u8>,
    room: usize,
    piece: usize,
    fails: CallList,
    calls: u64,
    faults: u64,
}

impl Model for MemSink {
    ghost use Rattle.std.specs.Prelude.{ℕ, ◌≤◌, vec_len, vec_capacity};
    ghost use Rattle.fd_io.specs.Memory.{SinkState};

    ghost Value = { SinkState };

    ghost view = { λ s. record {
      taken = s.bytes.items;
      room = s.room;
      piece = s.piece;
      fails = s.fails;
      calls = s.calls;
      faults = s.faults;
    } };

    ghost invariant = { λ s. (vec_len s.bytes ≤ s.room) × (s.room ≤ vec_capacity s.bytes) × (1 ≤ s.piece) };
}

impl MemSink {
    pub fn new(alloc: Global, room: usize, piece: usize, fails: CallList) -> Result<MemSink, Memory>
        requires { 1 ≤ piece }
        ensures { IfOk result (λ made. made ≡ record { taken = []; room = room; piece = piece; fails = fails; calls = 0; faults = 0 }) }
    {
        let bytes = Vec::with_capacity(alloc, room)?;
        Ok(MemSink {
            bytes,
            room,
            piece,
            fails,
            calls: 0,
            faults: 0,
        })
    }

    pub fn as_slice(&self) -> &[u8]
        ensures { result.now ≡ self.now.taken }
    {
        self.bytes.as_slice()
    }
}

impl Sink for MemSink {
    ghost taken = { λ s. Some s.taken };

    ghost faults = { λ s. s.faults };

    ghost calls = { λ s. s.calls };

    fn write(&mut self, piece: &[u8]) -> Result<usize, WriteFailed>
        ensures bound { WritesAtMost result piece.now }
        ensures some { IfOk result (λ n. 0 < length piece.now → 0 < n) }
        ensures bytes { WriteAppends (Some self.old.taken) (Some self.new.taken) result piece.now }
        ensures cause { HasCause self.old.faults self.new.faults result }
        ensures limit { self.new.faults < 2 ^ 64 }
        ensures call { self.new.calls ≡ next_count self.old.calls }

        // A call fails exactly where its number is stated, or the piece isn't empty and no room is left.
        ensures fails { IsErr result ↔ (Contains self.old.fails (next_count self.old.calls)
            ⊎ ((0 < length piece.now) × (self.old.room ≤ length self.old.taken))) }
        ensures count { IfOk result (λ n. n ≡ min self.old.piece (min (length piece.now) (self.old.room - length self.old.taken))) }
        ensures kept { self.new ≡ record self.old {
          taken = self.new.taken;
          calls = next_count self.old.calls;
          faults = fault_count self.old.faults (is_err result);
        } }
    {
        self.calls = self.calls.saturating_add(1);
        let left = self.room - self.bytes.len();
        if self.fails.contains(self.calls) || (left == 0 && !piece.is_empty()) {
            self.faults = self.faults.saturating_add(1);
            return Err(WriteFailed);
        }
        let count = self.piece.min(piece.len().min(left));
        self.bytes.extend_from_slice(&piece[..count]).unwrap();
        Ok(count)
    }
}
