// All of a piece into a sink.
ghost use Rattle.std.specs.Prelude.{◌+◌, ◌≤◌, length};
ghost use Rattle.fd_io.specs.Causes.{HasCause};
ghost use Rattle.fd_io.specs.Piece.{PieceWritten};

use crate::{Sink, WriteFailed};

/// A write failed, and a prefix of the piece was taken.
#[derive(Clone, Copy, PartialEq, Eq)]
pub struct WriteFault;

impl From<WriteFailed> for WriteFault {
    fn from(_e: WriteFailed) -> WriteFault {
        WriteFault
    }
}

/// Writes all of the bytes, in at most as many calls as there are bytes.
pub fn write_all<O: Sink>(sink: &mut O, bytes: &[u8]) -> Result<(), WriteFault>
    ensures bytes { PieceWritten (O.taken sink.old) (O.taken sink.new) bytes.now result }
    ensures cause { HasCause (O.faults sink.old) (O.faults sink.new) result }
    ensures calls { O.calls sink.new ≤ O.calls sink.old + length bytes.now }
{
    let mut at = 0;
    while at < bytes.len() {
        at += sink.write(&bytes[at..])?;
    }
    Ok(())
}
