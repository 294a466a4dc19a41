// A source and a sink of bytes, by what they hold and took, where they tell it, and by a count of their faults.
ghost use Rattle.std.specs.Prelude.{◌≡◌, ◌<◌, ◌^◌, ℕ, List, Option, IfOk, length};
ghost use Rattle.std.specs.Io.{ReadsAtMost, WritesAtMost};
ghost use Rattle.std.specs.Io.KnownBytes.{ReadConsumes, WriteAppends};
ghost use Rattle.fd_io.specs.Causes.{HasCause, next_count};

/// The source's count of faults rose, and nothing was taken from it.
#[derive(Clone, Copy, PartialEq, Eq)]
pub struct ReadFailed;

/// The sink's count of faults rose, and it took nothing.
#[derive(Clone, Copy, PartialEq, Eq)]
pub struct WriteFailed;

/// Where bytes come from.
pub trait Source {
    // The bytes left, where the source tells them.
    ghost held: { Self → Option (List ℕ) };

    // How often the source has failed; it never falls, and stays at 2^64 - 1.
    ghost faults: { Self → ℕ };

    /// Gives bytes from the front of what is held, at most as many as the buffer has.
    /// None for a buffer that isn't empty is the end: where the source tells what it holds, nothing is left exactly then.
    fn read(&mut self, buf: &mut [u8]) -> Result<usize, ReadFailed>
        ensures bound { ReadsAtMost result buf.new }
        ensures bytes { ReadConsumes (held self.old) (held self.new) result buf.new }
        ensures cause { HasCause (faults self.old) (faults self.new) result }
        ensures limit { faults self.new < 2 ^ 64 };
}

/// Where bytes go.
pub trait Sink {
    // The bytes taken so far, where the sink tells them.
    ghost taken: { Self → Option (List ℕ) };

    // How often the sink has failed; it never falls, and stays at 2^64 - 1.
    ghost faults: { Self → ℕ };

    // How often the sink was asked to write; it stays at 2^64 - 1.
    ghost calls: { Self → ℕ };

    /// Takes a prefix of the piece, and of a piece that isn't empty at least one byte.
    fn write(&mut self, piece: &[u8]) -> Result<usize, WriteFailed>
        ensures bound { WritesAtMost result piece.now }
        ensures some { IfOk result (λ n. 0 < length piece.now → 0 < n) }
        ensures bytes { WriteAppends (taken self.old) (taken self.new) result piece.now }
        ensures cause { HasCause (faults self.old) (faults self.new) result }
        ensures limit { faults self.new < 2 ^ 64 }
        ensures call { calls self.new ≡ next_count (calls self.old) };
}
