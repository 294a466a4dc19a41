// Ends that fail at each of their calls.
use crate::rows::script::hold_over;
use crate::rows::{Ends, PLAIN, words_of};
use crate::status::Status;
use crate::top::fdc;
use fd_base::{Bytes, Memory};
use fd_io::{OpenGate, SureSink, SureSource};
use std::alloc::Global;
use std::process::Abort;
use std::test::Fail;

const FIVE: &str = " PRINT *, 2+3
END
";

// A deck that is read, and one whose reads fail.
const FIVE_READ: &str = ">>> seq\n PRINT *, 2+3\nEND\n<<< 0\n5
";

const FIVE_UNREAD: &str = ">>> seq\n PRINT *, 2+3\nEND\n<<< 5 reading failed
";

// A deck with a loop, an input and a few lines.
const LOOP_READ: &str =
    ">>> seq\nREAD *, N\nDO I = 1, N\nPRINT *, I, 2*I\nENDDO\nEND\n 3\n<<< 0\n1 2\n2 4\n3 6
";

const LOOP_UNREAD: &str =
    ">>> seq\nREAD *, N\nDO I = 1, N\nPRINT *, I, 2*I\nENDDO\nEND\n 3\n<<< 5 reading failed
";

// Runs a table in pieces of so many bytes, with a call of the deck that fails.
fn read_over(
    rt: &impl Abort,
    alloc: Global,
    table: &str,
    deck_piece: usize,
    deck_fail: u64,
) -> Result<(), Fail> {
    let ends = Ends {
        deck_piece,
        deck_fail,
        ..PLAIN
    };
    hold_over(rt, alloc, &ends, table)
}

// Whichever of so many reads fails.
fn fail_reads(
    rt: &impl Abort,
    alloc: Global,
    table: &str,
    piece: usize,
    calls: u64,
) -> Result<(), Fail> {
    for fails in 1..=calls {
        read_over(rt, alloc, table, piece, fails)?;
    }
    Ok(())
}

// 18 bytes in pieces of 4,096 take two calls, and in pieces of 7 four.
#[test]
fn each_read_fails(rt: HostRuntime) -> Result<(), Fail> {
    fail_reads(&rt, rt.alloc(), FIVE_UNREAD, 4096, 2)?;
    fail_reads(&rt, rt.alloc(), FIVE_UNREAD, 7, 4)?;
    fail_reads(&rt, rt.alloc(), FIVE_UNREAD, 1, 19)?;
    fail_reads(&rt, rt.alloc(), LOOP_UNREAD, 16, 5)
}

// There are no other reads than those.
#[test]
fn no_other_read_is_made(rt: HostRuntime) -> Result<(), Fail> {
    read_over(&rt, rt.alloc(), FIVE_READ, 4096, 3)?;
    read_over(&rt, rt.alloc(), FIVE_READ, 7, 5)?;
    read_over(&rt, rt.alloc(), FIVE_READ, 1, 20)?;
    read_over(&rt, rt.alloc(), LOOP_READ, 16, 6)
}

// Decks whose writes fail, with all that they print.
const FIVE_UNWRITTEN: &str = ">>> seq\n PRINT *, 2+3\nEND\n<<< 6 writing failed\n5
";

const LOOP_UNWRITTEN: &str =
    ">>> seq\nREAD *, N\nDO I = 1, N\nPRINT *, I, 2*I\nENDDO\nEND\n 3\n<<< 6 writing failed\n1 2\n2 4\n3 6
";

// Runs a table whose output comes in pieces, with a call that fails, and so many bytes that aren't taken.
fn write_over(
    rt: &impl Abort,
    alloc: Global,
    table: &str,
    piece: usize,
    fails: u64,
    left: usize,
) -> Result<(), Fail> {
    let ends = Ends {
        out_piece: piece,
        out_fail: fails,
        ..PLAIN
    };
    let end = table.len().saturating_sub(left);
    hold_over(rt, alloc, &ends, table.get(..end).expect(rt, table))
}

// Whichever of the writes of so many bytes fails, what was taken before it stays.
fn fail_writes(
    rt: &impl Abort,
    alloc: Global,
    table: &str,
    printed: usize,
    piece: usize,
    calls: u64,
) -> Result<(), Fail> {
    let mut left = printed;
    for fails in 1..=calls {
        write_over(rt, alloc, table, piece, fails, left)?;
        left = left.saturating_sub(piece);
    }
    Ok(())
}

// In pieces of one byte each byte is a call, and in pieces of 5 the fifth byte of a line and its end are another's.
#[test]
fn each_write_fails(rt: HostRuntime) -> Result<(), Fail> {
    fail_writes(&rt, rt.alloc(), LOOP_UNWRITTEN, 12, 1, 12)?;
    fail_writes(&rt, rt.alloc(), LOOP_UNWRITTEN, 12, 5, 3)?;
    fail_writes(&rt, rt.alloc(), FIVE_UNWRITTEN, 2, 1, 2)
}

const NO_ROOM: Ends = Ends {
    out_room: 2,
    ..PLAIN
};

const SILENT: Ends = Ends {
    err_fail: 1,
    ..PLAIN
};

// A run's fault stands over a write that failed.
#[test]
fn faults_stand(rt: HostRuntime) -> Result<(), Fail> {
    let table =
        ">>> seq\n PRINT *, 70, 8\n PRINT *, 9223372036854775807*2\nEND\n<<< 1 line 2: fault Overflow\n70";
    hold_over(&rt, rt.alloc(), &NO_ROOM, table)
}

// Standard error that fails changes no status.
#[test]
fn silent_faults_stand(rt: HostRuntime) -> Result<(), Fail> {
    let table = ">>> seq\n PRINT *, 70, 8\n PRINT *, 9223372036854775807*2\nEND\n<<< 1\n70 8
>>> seq\n<<< 3
>>> seq\nEND\nx<<< 4
>>> run\n<<< 2
";
    hold_over(&rt, rt.alloc(), &SILENT, table)
}

// Runs a deck over ends that don't fail, and without room for standard error, which changes no status.
fn run_sure(alloc: Global, text: &str, room: usize) -> Result<(Status, SureSink), Memory> {
    let words = words_of(alloc, "seq")?;
    let mut deck = SureSource::new(Bytes::from_slice(alloc, text.as_bytes())?);
    let mut out = SureSink::new(alloc, room)?;
    let mut err = SureSink::new(alloc, 0)?;
    let status = fdc(
        alloc,
        words.as_slice(),
        &mut deck,
        &mut out,
        &mut err,
        &OpenGate,
    );
    Ok((status, out))
}

fn write_sure(
    rt: &impl Abort,
    alloc: Global,
    room: usize,
    code: u8,
    printed: &[u8],
) -> Result<(), Fail> {
    let (status, out) = run_sure(alloc, FIVE, room)?;
    assert_eq!(rt; (status.code(), out.as_slice()), (code, printed), "{room}");
    Ok(())
}

#[test]
fn ends_that_do_not_fail(rt: HostRuntime) -> Result<(), Fail> {
    write_sure(&rt, rt.alloc(), 64, 0, b"5\n")?;
    write_sure(&rt, rt.alloc(), 1, 6, b"5")
}
