// Decks at the limits, and one past each.
use crate::rows::script::hold_over;
use crate::rows::{Ends, PLAIN, run_deck};
use fd_base::{Bytes, Memory};
use std::alloc::Global;
use std::process::Abort;
use std::test::Fail;

const WHOLE: Ends = Ends {
    deck_piece: 1_048_577,
    ..PLAIN
};

const LONG: &str =
    ">>> seq: 1,048,576 bytes, the input included\n PRINT *, 1\nEND\n{1048560| }<<< 0\n1
>>> seq\n PRINT *, 1\nEND\n{1048561| }<<< 3 deck too long
>>> seq\n{1048572|\n}END\n<<< 0
>>> seq\n{1048573|\n}END\n<<< 3 deck too long
";

#[test]
fn long_decks_run_or_are_refused(rt: HostRuntime) -> Result<(), Fail> {
    hold_over(&rt, rt.alloc(), &WHOLE, LONG)
}

const LARGE: &str = ">>> seq: A logical line of 4,096 bytes\n K=1{2046|+1}\nEND\n<<< 0
>>> seq: One in a loop\nDO I = 1, 2\n K=1{2046|+1}\nENDDO\nEND\n<<< 0
>>> seq\n K=1{2046|+1}\u{20}\nEND\n<<< 3 line 1: error 2 LineTooLong
>>> seq: A name of 31 characters\n{31|I} = 1\nEND\n<<< 0
>>> seq\n{32|I} = 1\nEND\n<<< 3 line 1: error 3 BadToken
>>> seq: 32 pairs of parentheses\nK = {32|(}1{32|)}\nEND\n<<< 0
>>> seq\nK = {33|(}1{33|)}\nEND\n<<< 3 line 1: error 15 TooDeep
>>> seq: 32 open statements; a logical IF is one, too\n{32|IF (1 .EQ. 1) THEN\n}{32|ENDIF\n}END\n<<< 0
>>> seq\n{33|IF (1 .EQ. 1) THEN\n}{33|ENDIF\n}END\n<<< 3 line 33: error 15 TooDeep
>>> seq\n{31|DO WHILE (1 .EQ. 2)\n}IF (.TRUE.) K = 1\n{31|ENDDO\n}END\n<<< 0
>>> seq\n{32|DO WHILE (1 .EQ. 2)\n}IF (.TRUE.) K = 1\n{32|ENDDO\n}END\n<<< 3 line 33: error 15 TooDeep
>>> seq: 4,096 statements, of which a logical IF is two\n{4096| CONTINUE\n}END\n<<< 0
>>> seq\n{4097| CONTINUE\n}END\n<<< 3 line 4097: error 16 TooMany Statements
>>> seq\n{2048| IF (.TRUE.) CONTINUE\n}END\n<<< 0
>>> seq\n{2048| IF (.TRUE.) CONTINUE\n} CONTINUE\nEND\n<<< 3 line 2049: error 16 TooMany Statements
>>> seq\nINTEGER A(65536)\nEND\n<<< 0
>>> seq\nINTEGER A(65536), B(1)\nEND\n<<< 3 line 1: error 16 TooMany Replicated
>>> seq: The longest input of numbers\nEND\n{524286|7 }<<< 0
";

#[test]
fn large_decks_run_or_are_refused(rt: HostRuntime) -> Result<(), Fail> {
    hold_over(&rt, rt.alloc(), &WHOLE, LARGE)
}

// Names, arrays and items, each with a number of its own.
const NUMBERED: &str = ">>> seq\n{16384|INTEGER I%\n}END\n<<< 0
>>> seq\n{16385|INTEGER I%\n}END\n<<< 3 line 16385: error 16 TooMany Names
>>> seq\n{128|INTEGER A%(1)\n}END\n<<< 0
>>> seq\n{129|INTEGER A%(1)\n}END\n<<< 3 line 129: error 16 TooMany Arrays
>>> seq: Each line has an item\nINTEGER A(600)\nDISTRIBUTE A(BLOCK)\n{512|K = A(%)\n}END\n<<< 0
>>> seq\nINTEGER A(600)\nDISTRIBUTE A(BLOCK)\n{513|K = A(%)\n}END\n<<< 3 line 515: error 16 TooMany Items
>>> plan\nINTEGER A(600)\nDISTRIBUTE A(BLOCK)\n{513|K = A(%)\n}END\n<<< 3 line 515: error 16 TooMany Items
>>> seq: The first item past the limit is told, and not the last\nINTEGER A(600)\nDISTRIBUTE A(BLOCK)\n{600|K = A(%)\n}END\n<<< 3 line 515: error 16 TooMany Items
";

#[test]
fn names_arrays_and_items_are_counted(rt: HostRuntime) -> Result<(), Fail> {
    hold_over(&rt, rt.alloc(), &WHOLE, NUMBERED)
}

const EIGHT: &str = "INTEGER A(8)
DO I = 1, 8
A(I) = I
ENDDO
PRINT *, A(8)
END
";

// The exit status on a beginning of a deck.
fn status_on(rt: &impl Abort, alloc: Global, deck: &[u8]) -> Result<u8, Memory> {
    let deck = Bytes::from_slice(alloc, deck)?;
    let told = run_deck(rt, alloc, "seq", deck, &PLAIN)?;
    Ok(told.status.code())
}

fn begin(rt: &impl Abort, alloc: Global, deck: &[u8], status: u8) -> Result<(), Fail> {
    let answered = status_on(rt, alloc, deck)?;
    assert_eq!(rt; answered, status, "{}", deck.len());
    Ok(())
}

// Each proper beginning of a deck is refused, but for the one that lacks the last LF alone.
#[test]
fn beginnings_are_refused(rt: HostRuntime) -> Result<(), Fail> {
    let text = EIGHT.as_bytes();
    let whole = text.len().saturating_sub(1);
    for length in 0..whole {
        begin(&rt, rt.alloc(), &text[..length], 3)?;
    }
    begin(&rt, rt.alloc(), &text[..whole], 0)
}
