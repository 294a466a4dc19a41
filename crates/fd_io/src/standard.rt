// The process's standard streams, one read or write of theirs for each call. They tell the bytes that the stream itself
// tells, which for the real ones is none, and count each error and each write that took nothing of a piece.
ghost use Rattle.std.specs.Prelude.{◌≡◌, ◌<◌, ◌^◌, length, is_err, IfOk};
ghost use Rattle.std.specs.Io.{ReadsAtMost, WritesAtMost};
ghost use Rattle.std.specs.Io.KnownBytes.{ReadConsumes, WriteAppends};
ghost use Rattle.fd_io.specs.Causes.{HasCause, next_count};
ghost use Rattle.fd_io.specs.Memory.{fault_count};

use crate::{ReadFailed, Sink, Source, WriteFailed};
use std::io::{Read, Stderr, Stdin, Stdout, Write};

/// Standard input, or another reader.
#[derive(Drop)]
pub struct StreamSource<R: Read> {
    stream: R,
    faults: u64,
}

pub type StdinSource = StreamSource<Stdin>;

impl<R: Read> StreamSource<R> {
    pub fn new(stream: R) -> StreamSource<R>
        ensures { result ≡ record { stream = stream; faults = 0 } }
    {
        StreamSource { stream, faults: 0 }
    }
}

impl<R: Read> Source for StreamSource<R> {
    ghost held = { λ s. R.remaining s.stream };

    ghost faults = { λ s. s.faults };

    fn read(&mut self, buf: &mut [u8]) -> Result<usize, ReadFailed>
        ensures bound { ReadsAtMost result buf.new }
        ensures bytes { ReadConsumes (R.remaining self.old.stream) (R.remaining self.new.stream) result buf.new }
        ensures cause { HasCause self.old.faults self.new.faults result }
        ensures limit { self.new.faults < 2 ^ 64 }

        // Each failure is counted, and nothing else.
        ensures count { self.new.faults ≡ fault_count self.old.faults (is_err result) }
    {
        let faults = self.faults.saturating_add(1);
        match self.stream.read(buf) {
            Ok(count) => Ok(count),
            Err(_) => {
                self.faults = faults;
                Err(ReadFailed)
            }
        }
    }
}

/// Standard output, standard error, or another writer.
#[derive(Drop)]
pub struct StreamSink<W: Write> {
    stream: W,
    calls: u64,
    faults: u64,
}

pub type StdoutSink = StreamSink<Stdout>;

pub type StderrSink = StreamSink<Stderr>;

impl<W: Write> StreamSink<W> {
    pub fn new(stream: W) -> StreamSink<W>
        ensures { result ≡ record { stream = stream; calls = 0; faults = 0 } }
    {
        StreamSink {
            stream,
            calls: 0,
            faults: 0,
        }
    }
}

impl<W: Write> Sink for StreamSink<W> {
    ghost taken = { λ s. W.contents s.stream };

    ghost faults = { λ s. s.faults };

    ghost calls = { λ s. s.calls };

    fn write(&mut self, piece: &[u8]) -> Result<usize, WriteFailed>
        ensures bound { WritesAtMost result piece.now }
        ensures some { IfOk result (λ n. 0 < length piece.now → 0 < n) }
        ensures bytes { WriteAppends (W.contents self.old.stream) (W.contents self.new.stream) result piece.now }
        ensures cause { HasCause self.old.faults self.new.faults result }
        ensures limit { self.new.faults < 2 ^ 64 }
        ensures call { self.new.calls ≡ next_count self.old.calls }

        // Each failure is counted, and nothing else.
        ensures count { self.new.faults ≡ fault_count self.old.faults (is_err result) }
    {
        self.calls = self.calls.saturating_add(1);
        let faults = self.faults.saturating_add(1);
        match self.stream.write(piece) {
            Ok(count) if count > 0 || piece.is_empty() => Ok(count),
            _ => {
                self.faults = faults;
                Err(WriteFailed)
            }
        }
    }
}
