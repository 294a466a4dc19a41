// How the bytes of a source are read as lines and tokens.
use crate::rows::script::{answers, hold};
use crate::rows::{PLAIN, run_deck};
use fd_base::Bytes;
use std::alloc::Global;
use std::process::Abort;
use std::test::Fail;

// Tokens by what is printed, by the refusal of a later phase, and by what is left for the input.
const READ: &str = ">>> seq\nK = 1\nREAD *, L\nPRINT *, K, L\nEND\n5\n<<< 0\n1 5
>>> seq\n\tk\t=1\r\nprint*,k\r\nend\r\n<<< 0\n1
>>> seq\nC x\nc y\n* z\n! w\n  ! v\n\nEND<<< 0
>>> seq\nC x\nc y\n* z\n! w\n  ! v\n\nDO I = 1, 2\nEND<<< 3 line 8: error 5 Syntax
>>> seq: comments have any bytes\n! \u{1}\r\u{ff}\nK=1 ! \u{80}\r\nPRINT *, K\nEND<<< 0\n1
>>> seq\nPRINT *, 'a''b!&', '\u{ff}'\nEND<<< 0\na'b!& \u{ff}
>>> seq\nIF (1.EQ.2 .and. L.Eq.M) PRINT *, 1\nIF (2.EQ.2 .and. L.Eq.M) PRINT *, 2\nEND<<< 0\n2
>>> seq: the longest sign is taken\n **=***==/=<=>=<>:\nEND<<< 3 line 1: error 18 LeftOut
>>> seq\n ===/==/==**=\nEND<<< 3 line 1: error 18 LeftOut
>>> seq\nK = 2* *3\nEND<<< 3 line 1: error 5 Syntax
>>> seq\nIF (K===1) K = 2\nEND<<< 3 line 1: error 5 Syntax
>>> seq\nIF (K/==1) K = 2\nEND<<< 3 line 1: error 5 Syntax
>>> seq\nIF (K<>1) K = 2\nEND<<< 3 line 1: error 5 Syntax
>>> seq\nIF (K = = 1) K = 2\nEND<<< 3 line 1: error 5 Syntax
>>> seq\nIF (K / = 1) K = 2\nEND<<< 3 line 1: error 5 Syntax
>>> seq\nIF (K < = 1) K = 2\nEND<<< 3 line 1: error 5 Syntax
>>> seq\nIF (K > = 1) K = 2\nEND<<< 3 line 1: error 5 Syntax
>>> seq\nINTEGER A(-1:1)\nA(-1)=6\nK=A(-1)*2/4-1+5\nIF(K==7)PRINT*,1\nIF(K/=6)PRINT*,2\nIF(K<=7)PRINT*,3\nIF(K>=7)PRINT*,4\nIF(K<8)PRINT*,5\nIF(K>6)PRINT*,6\nEND<<< 0\n1\n2\n3\n4\n5\n6
>>> seq\n12X\nEND<<< 3 line 1: error 18 LeftOut
>>> seq\nK = 12X\nEND<<< 3 line 1: error 5 Syntax
>>> seq: a line that goes on has the number of its first\nK = &\n\n! c\n 1 & ! d\n\t+ 2\nPRINT *, K\nK = 1/(K-3)\nEND<<< 1 line 7: fault ZeroDivide\n3
>>> seq\nK = &\n\n! c\n 1 & ! d\n\t/ 0\nEND<<< 1 line 1: fault ZeroDivide
>>> seq\n&\nEND\nx<<< 4 input: bad at offset 0
>>> seq\nEND &\n<<< 0
>>> seq\nEND &\n! c\n<<< 4 input: bad at offset 0
>>> seq\nDO I = 1, 2\nEND &\n! c\n<<< 3 line 2: error 5 Syntax
>>> seq\nK = 1 &<<< 3 line 1: error 17 NoEnd
>>> seq\n&<<< 3 line 1: error 5 Syntax
>>> seq\n\n\n<<< 3 line 3: error 17 NoEnd
>>> seq: END by itself ends the program\nINTEGER END\nEND = 1\nDO I = 1, 2\nEND DO\nPRINT *, END, I\nEND<<< 0\n1 3
>>> seq\nEND = 1\nEND DO\nEND<<< 3 line 2: error 5 Syntax
>>> seq\n END ! x\n\u{1}?<<< 4 input: bad at offset 0
>>> seq\n PRINT *, 9223372036854775807, 000000000000000000009\nEND<<< 0\n9223372036854775807 9
>>> seq\n{31|I} = 2\n PRINT *, {31|I}\nEND<<< 0\n2
>>> seq\nPRINT *, '', '''', 'it''s!', '&'\nEND<<< 0\n ' it's! &
>>> seq: dot words, which no line has in this order\n .eq..Ne..LT..le..GT..gE..AND..or..NOT..true..FALSE.\nEND<<< 3 line 1: error 5 Syntax
>>> seq\nIF (1.eq.1.And.1.Ne.2.aND.1.LT.2.AND.1.le.1.and.2.GT.1.and.2.gE.2) PRINT *, 1\nIF (.NOT..true..or..FALSE.) PRINT *, 2\nIF (.noT..False..OR..True.) PRINT *, 3\nEND<<< 0\n1\n3
>>> seq\n(A_1,007)-B\nEND<<< 3 line 1: error 5 Syntax
>>> seq\nINTEGER A_1(2,7)\nA_1(2,007)=9\nPRINT *,A_1(2,7)-K\nEND<<< 0\n9
>>> seq: no token crosses a line\nE&\nND\nEND<<< 3 line 1: error 5 Syntax
>>> seq\nK = &\nC = 2\n\t! d\n\n1\nPRINT *, K\nK = 1/0\nEND<<< 1 line 7: fault ZeroDivide\n1
>>> seq\n&\n\n* c\n&\n K\nEND<<< 3 line 1: error 5 Syntax
>>> seq\n&\n\n* c\n&\n K = 1/0\nEND<<< 1 line 1: fault ZeroDivide
>>> seq\n  &\n<<< 3 line 1: error 5 Syntax
>>> seq\nREAD *, K\nPRINT *, K\nC END\nCEND\n END\n1<<< 0\n1
>>> seq\n\r\n \t\r\nEND\r\n<<< 0
>>> seq\n\r\n \t\r\nK = 1/0\r\nEND\r\n<<< 1 line 3: fault ZeroDivide
>>> seq: names that begin with END\nENDE\nEND1\nEND_\n.EQ.END\nEND<<< 3 line 1: error 5 Syntax
>>> seq\nEND1\nEND<<< 3 line 1: error 5 Syntax
>>> seq\nEND_\nEND<<< 3 line 1: error 5 Syntax
>>> seq\n.EQ.END\nEND<<< 3 line 1: error 5 Syntax
>>> seq\nINTEGER ENDE, END1, END_\nENDE = 1\nEND1 = 2\nEND_ = 3\nPRINT *, ENDE, END1, END_\nEND<<< 0\n1 2 3
";

#[test]
fn tokens_are_read(rt: HostRuntime) -> Result<(), Fail> {
    hold(&rt, rt.alloc(), READ)
}

// What begins no token, and what may stand in no source.
const REFUSED: &str = ">>> seq\n K = 1\u{1}\nEND\n<<< 3 line 1: error 1 BadByte
>>> seq\nK = \u{ff}\nEND\n<<< 3 line 1: error 1 BadByte
>>> seq\nK = 'a\tb'\nEND\n<<< 3 line 1: error 1 BadByte
>>> seq\nK = 'a\u{7f}'\nEND\n<<< 3 line 1: error 1 BadByte
>>> seq\nK = 1\rEND<<< 3 line 1: error 1 BadByte
>>> seq\nEND\r<<< 3 line 1: error 1 BadByte
>>> seq\nA ? &\nB \u{1}\nEND\n<<< 3 line 1: error 1 BadByte
>>> seq\nK = 1 ? 2\nEND\n<<< 3 line 1: error 3 BadToken
>>> seq\nA\nB ?\nC \u{1}\nEND\n<<< 3 line 2: error 3 BadToken
>>> seq\nA &\nB ?\nEND\n<<< 3 line 1: error 3 BadToken
>>> seq\nK = 'a\nEND\n<<< 3 line 1: error 3 BadToken
>>> seq\nK = 'a\u{ff}!\nEND\n<<< 3 line 1: error 3 BadToken
>>> seq\nK = 'a &\nb'\nEND\n<<< 3 line 1: error 3 BadToken
>>> seq\nA & B\nEND\n<<< 3 line 1: error 3 BadToken
>>> seq\nA &&\u{20}\nB\nEND\n<<< 3 line 1: error 3 BadToken
>>> seq\nA .XX. B\nEND\n<<< 3 line 1: error 3 BadToken
>>> seq\nA .EQ B\nEND\n<<< 3 line 1: error 3 BadToken
>>> seq\nK = 1.5\nEND\n<<< 3 line 1: error 3 BadToken
>>> seq\n{32|I}\nEND\n<<< 3 line 1: error 3 BadToken
>>> seq\nK = 9223372036854775808\nEND\n<<< 3 line 1: error 4 NumberTooLarge
>>> seq\nK = 9223372036854775808 ?\nEND\n<<< 3 line 1: error 3 BadToken
>>> seq\nA\n\nK = 99999999999999999999 + &\n1\nEND\n<<< 3 line 3: error 4 NumberTooLarge
>>> seq\n\u{0}\nEND\n<<< 3 line 1: error 1 BadByte
>>> seq\nK = 1\u{b}END\n<<< 3 line 1: error 1 BadByte
>>> seq\nA\n\u{c}\nEND\n<<< 3 line 2: error 1 BadByte
>>> seq\nK = \u{7f}\nEND\n<<< 3 line 1: error 1 BadByte
>>> seq\nK = 1\r\r\nEND\n<<< 3 line 1: error 1 BadByte
>>> seq\nEND \u{1}\nEND\n<<< 3 line 1: error 1 BadByte
>>> seq\nA \u{1} &\nB ?\nEND\n<<< 3 line 1: error 1 BadByte
>>> seq\nA & ! \u{1}\nB ?\nEND\n<<< 3 line 1: error 3 BadToken
>>> seq\n_A\nEND\n<<< 3 line 1: error 3 BadToken
>>> seq\nA$\nEND\n<<< 3 line 1: error 3 BadToken
>>> seq\n\"a\"\nEND\n<<< 3 line 1: error 3 BadToken
>>> seq\nA;B\nEND\n<<< 3 line 1: error 3 BadToken
>>> seq\nK = '\nEND\n<<< 3 line 1: error 3 BadToken
>>> seq\nK = '''\nEND\n<<< 3 line 1: error 3 BadToken
>>> seq\n. EQ .\nEND\n<<< 3 line 1: error 3 BadToken
>>> seq\nA.EQ..\nEND\n<<< 3 line 1: error 3 BadToken
>>> seq\nA &\n\nB &\n? C\nEND\n<<< 3 line 1: error 3 BadToken
>>> seq\nEND ?\nEND\n<<< 3 line 1: error 3 BadToken
>>> seq\n\n! c\n A ?\nB \u{1}\nEND\n<<< 3 line 3: error 3 BadToken
>>> seq\n9223372036854775808\nA ?\nEND\n<<< 3 line 1: error 4 NumberTooLarge
";

#[test]
fn lines_are_refused(rt: HostRuntime) -> Result<(), Fail> {
    hold(&rt, rt.alloc(), REFUSED)
}

// A line of 4,096 bytes, and of one blank more, in one physical line and in two.
const LONG: &str = ">>> seq\n K=1{2046|+1}<<< 3 line 1: error 17 NoEnd
>>> seq\n K=1{2046|+1}\nPRINT *, K\nEND\n<<< 0\n2047
>>> seq\n K=1{2046|+1} <<< 3 line 1: error 2 LineTooLong
>>> seq: the length is told before a bad token, and behind a bad byte\n K=1{2046|+1} ?<<< 3 line 1: error 2 LineTooLong
>>> seq\n K=1{2046|+1} ?\u{1}<<< 3 line 1: error 1 BadByte
>>> seq\n&  \u{20}\n! not counted\n{4092|+}<<< 3 line 1: error 5 Syntax
>>> seq\n&  \u{20}\n! not counted\n{4093|+}<<< 3 line 1: error 2 LineTooLong
>>> seq\n&  \u{20}\n! not counted\n K=111{2043|+1}\nPRINT *, K\nEND\n<<< 0\n2154
>>> seq\n&  \u{20}\n! not counted\n K=111{2043|+1}\u{20}\nPRINT *, K\nEND\n<<< 3 line 1: error 2 LineTooLong
";

#[test]
fn long_lines_are_refused(rt: HostRuntime) -> Result<(), Fail> {
    hold(&rt, rt.alloc(), LONG)
}

// A deck of any bytes, and what standard output gains.
fn prints(rt: &impl Abort, alloc: Global, deck: &[u8], out: &[u8]) -> Result<(), Fail> {
    let told = run_deck(rt, alloc, "seq", Bytes::from_slice(alloc, deck)?, &PLAIN)?;
    assert_eq!(rt; told.out.as_slice(), out);
    Ok(())
}

// A deck of any bytes that is refused.
fn refused(rt: &impl Abort, alloc: Global, deck: &[u8], expected: &str) -> Result<(), Fail> {
    let told = run_deck(rt, alloc, "seq", Bytes::from_slice(alloc, deck)?, &PLAIN)?;
    answers(rt, alloc, &told, expected, expected)
}

// Bytes that are no text stand in comments and in quoted texts, and nowhere else.
#[test]
fn bytes_that_are_no_text_are_read(rt: HostRuntime) -> Result<(), Fail> {
    let deck = b"! \x01\r\xff\nK=1 ! \x80\r\nPRINT *, 'a''b!&', '\xff', K\nEND";
    prints(&rt, rt.alloc(), deck, b"a'b!& \xff 1\n")?;
    let text = b"PRINT *\nPRINT *, '!&', '\xff'\nEND";
    prints(&rt, rt.alloc(), text, b"\n!& \xff\n")?;
    refused(
        &rt,
        rt.alloc(),
        b"K = \xff\nEND",
        "3 line 1: error 1 BadByte\n",
    )?;
    refused(
        &rt,
        rt.alloc(),
        b"K = 'a\xff!\nEND",
        "3 line 1: error 3 BadToken\n",
    )
}
