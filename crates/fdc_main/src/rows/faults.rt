// Every fault in every place it can come from, and bad inputs.
use crate::rows::script::{hold, parted};
use std::alloc::Global;
use std::process::Abort;
use std::test::Fail;

const FAULTS: &str =
    ">>> seq: Overflow of each operation\n K = 9223372036854775807+1\nEND\n<<< 1 line 1: fault Overflow
>>> seq\n PRINT *, 9223372036854775807+1\nEND\n<<< 1 line 1: fault Overflow
>>> seq\n K = -9223372036854775807-2\nEND\n<<< 1 line 1: fault Overflow
>>> seq\n K = 4611686018427387904*2\nEND\n<<< 1 line 1: fault Overflow
>>> seq\n K = -9223372036854775807-1\n L = K/(-1)\nEND\n<<< 1 line 2: fault Overflow
>>> seq\n K = -9223372036854775807-1\n L = -K\nEND\n<<< 1 line 2: fault Overflow
>>> seq\n K = -9223372036854775807-1\n L = ABS(K)\nEND\n<<< 1 line 2: fault Overflow
>>> seq\n K = -9223372036854775807-1\n L = K*(-1)\nEND\n<<< 1 line 2: fault Overflow
>>> seq\n K = -9223372036854775807-1\n L = K-1\nEND\n<<< 1 line 2: fault Overflow
>>> seq: Overflow in a loop's variable, its last increment too\nDO I = 9223372036854775807, 9223372036854775807\n PRINT *, I\nENDDO\nEND\n<<< 1 line 1: fault Overflow\n9223372036854775807
>>> seq\nDO I = -9223372036854775807, 9223372036854775807, 9223372036854775807\n PRINT *, I\nENDDO\nEND\n<<< 1 line 1: fault Overflow\n-9223372036854775807\n0\n9223372036854775807
>>> seq\nDO I = 1, -9223372036854775807, -9223372036854775807\n PRINT *, I\nENDDO\nPRINT *, I\nEND\n<<< 1 line 1: fault Overflow\n1\n-9223372036854775806
>>> seq: Overflow in a bound, a subscript, a condition and an argument\nDO I = 1, 9223372036854775807+1\nENDDO\nEND\n<<< 1 line 1: fault Overflow
>>> seq\nINTEGER A(2)\nA(9223372036854775807+1) = 1\nEND\n<<< 1 line 2: fault Overflow
>>> seq\nIF (9223372036854775807+1 .GT. 0) K = 1\nEND\n<<< 1 line 1: fault Overflow
>>> seq\n K = MAX(1, 9223372036854775807+1)\nEND\n<<< 1 line 1: fault Overflow
>>> seq: ZeroDivide\n K = 1/0\nEND\n<<< 1 line 1: fault ZeroDivide
>>> seq\n K = MOD(1, K)\nEND\n<<< 1 line 1: fault ZeroDivide
>>> seq\nIF (1 .EQ. 2 .AND. 1/K .EQ. 1) L = 1\nEND\n<<< 1 line 1: fault ZeroDivide
>>> seq\nIF (1 .EQ. 1 .OR. 1/K .EQ. 1) L = 1\nEND\n<<< 1 line 1: fault ZeroDivide
>>> seq\nDO WHILE (.NOT. 1/K .EQ. 1)\nENDDO\nEND\n<<< 1 line 1: fault ZeroDivide
>>> seq\nDO I = 1/K, 2\nENDDO\nEND\n<<< 1 line 1: fault ZeroDivide
>>> seq\nIF (1 .EQ. 2) THEN\nELSE IF (1/K .EQ. 1) THEN\nENDIF\nEND\n<<< 1 line 2: fault ZeroDivide
>>> seq: Bounds, of one and of two dimensions\nINTEGER A(2)\nK = A(3)\nEND\n<<< 1 line 2: fault Bounds
>>> seq\nINTEGER A(2)\nA(0) = 1\nEND\n<<< 1 line 2: fault Bounds
>>> seq\nINTEGER A(2:3,-1:0)\nA(2,1) = 1\nEND\n<<< 1 line 2: fault Bounds
>>> seq\nINTEGER A(2:3,-1:0)\nPRINT *, A(1,0)\nEND\n<<< 1 line 2: fault Bounds
>>> seq\nINTEGER A(2)\nDO WHILE (A(3) .EQ. 0)\nENDDO\nEND\n<<< 1 line 2: fault Bounds
>>> seq\nINTEGER A(2)\nDO I = 1, A(3)\nENDDO\nEND\n<<< 1 line 2: fault Bounds
>>> seq\nINTEGER A(2)\nREAD *, A(3)\nEND\n5\n<<< 1 line 2: fault Bounds
>>> seq: The first fault wins: from left to right, all subscripts before their bounds, the left side before the right\nINTEGER A(2)\nK = A(3) + 1/0\nEND\n<<< 1 line 2: fault Bounds
>>> seq\nINTEGER A(2)\nK = 1/0 + A(3)\nEND\n<<< 1 line 2: fault ZeroDivide
>>> seq\nINTEGER A(2,2)\nK = A(5, 1/0)\nEND\n<<< 1 line 2: fault ZeroDivide
>>> seq\nINTEGER A(2,2)\nA(5, 1/0) = 1\nEND\n<<< 1 line 2: fault ZeroDivide
>>> seq\nINTEGER A(2)\nA(3) = 1/0\nEND\n<<< 1 line 2: fault Bounds
>>> seq\nINTEGER A(2)\nREAD *, A(3)\nEND\n<<< 1 line 2: fault Bounds
>>> seq\nDO I = 1/0, 9223372036854775807+1, 0\nENDDO\nEND\n<<< 1 line 1: fault ZeroDivide
>>> seq: ZeroStep\nDO I = 1, 2, 0\nENDDO\nEND\n<<< 1 line 1: fault ZeroStep
>>> seq\nDO I = 2, 1, K\nENDDO\nEND\n<<< 1 line 1: fault ZeroStep
>>> seq: EndOfInput\nREAD *, K\n PRINT *, K-1\nEND\n<<< 1 line 1: fault EndOfInput
>>> seq\nREAD *, K, L\nPRINT *, K\nREAD *, &\n I\nEND\n1 2<<< 1 line 3: fault EndOfInput\n1
>>> seq: A line with a fault isn't printed, and what was printed before it is\n PRINT *, 1\n PRINT *, 2, 1/0\n PRINT *, 3\nEND\n<<< 1 line 2: fault ZeroDivide\n1
>>> seq: StepLimit: the first step past 1,000,000\nDO WHILE (.TRUE.)\nENDDO\nEND\n<<< 1 line 1: fault StepLimit
>>> seq\nDO WHILE (.TRUE.)\n CONTINUE\n CONTINUE\nENDDO\nEND\n<<< 1 line 2: fault StepLimit
>>> seq\nDO I = -9223372036854775807-1, 9223372036854775807\nENDDO\nEND\n<<< 1 line 1: fault StepLimit
>>> seq\nDO I = 1, 999999\nENDDO\nEND\n<<< 1 line 1: fault StepLimit
>>> seq: A million steps are allowed: a start, 999,998 tests that go on and one that doesn't\nDO I = 1, 999998\nENDDO\nEND\n<<< 0
";

#[test]
fn faults_come_where_they_arise(rt: HostRuntime) -> Result<(), Fail> {
    hold(&rt, rt.alloc(), FAULTS)
}

// What a loop repeats, with the fault of its first iteration: I is 1, N is 0, and M the least number.
const REPEATED: &str = "K = 9223372036854775807+I > Overflow
K = I+9223372036854775807 > Overflow
K = M-1 > Overflow
K = M-I > Overflow
K = M*2 > Overflow
K = M/(-1) > Overflow
K = M/(N-1) > Overflow
K = -M > Overflow
K = I/0 > ZeroDivide
K = I/N > ZeroDivide
K = MOD(I,0) > ZeroDivide
K = MOD(I,N) > ZeroDivide
K = A(3) > Bounds
K = A(I+2) > Bounds
K = A(I-1) > Bounds
K = A(M) > Bounds
K = A(3*I) > Bounds
K = A(M-1) > Overflow
K = 1 + A(N) > Bounds
K = B(I,I+2) > Bounds
K = B(I+2,I) > Bounds
K = B(I+2,M-1) > Overflow
K = B(I+2,1/N) > ZeroDivide
A(I-1) = 1 > Bounds
A(M-1) = 1 > Overflow
A(3*I) = 1 > Bounds
A(I+2) = 1/N > Bounds
B(I+2,I) = 1 > Bounds
B(I+2,M-1) = 1 > Overflow
B(I+2,1/N) = 1 > ZeroDivide
IF (A(N) .EQ. 1/N) K = 1 > Bounds
IF (I .EQ. 2 .AND. 1/N .EQ. 1) K = 1 > ZeroDivide
READ *, A(I+2) > Bounds
READ *, B(I,I) > EndOfInput
 PRINT *, A(I+2) > Bounds
M = M+1/N > ZeroDivide
";

// Runs a loop that repeats what a line says. It has no clause, so that a test's proof reads none of the top call's.
fn repeat(rt: &impl Abort, alloc: Global, line: &str) -> Result<(), Fail> {
    let (statement, kind) = parted(rt, line, " > ");
    let table = format!(in alloc;
        ">>> seq\nINTEGER A(2), B(2,2)\nM = -9223372036854775807-1\nDO I = 1, 2\n{statement}\nENDDO\nEND\n<<< 1 line 4: fault {kind}\n"
    )?;
    hold(rt, alloc, table.as_str())
}

#[test]
fn faults_come_in_loops(rt: HostRuntime) -> Result<(), Fail> {
    for line in REPEATED.lines() {
        repeat(&rt, rt.alloc(), line)?;
    }
    Ok(())
}

// Limits of steps.
const STEPS: &str = ">>> seq --steps 2\n PRINT *, 1\n PRINT *, 2\nEND\n<<< 0\n1\n2
>>> seq --steps 1\n PRINT *, 1\n PRINT *, 2\nEND\n<<< 1 line 2: fault StepLimit\n1
>>> --steps=1 seq\nEND\n<<< 0
>>> seq --steps 3: Each target of a READ is a step\nREAD *, K, L\nPRINT *, L\nEND\n1 2<<< 0\n2
>>> seq --steps 2\nREAD *, K, L\nPRINT *, L\nEND\n1 2<<< 1 line 2: fault StepLimit
>>> seq --steps 1\nREAD *, K, L\nPRINT *, L\nEND\n1 2<<< 1 line 1: fault StepLimit
>>> seq --steps 2: The test of an IF, also of a logical one\nIF (1 .EQ. 1) PRINT *, 1\nEND\n<<< 0\n1
>>> seq --steps 1\nIF (1 .EQ. 1) PRINT *, 1\nEND\n<<< 1 line 1: fault StepLimit
>>> seq --steps 1\nIF (1 .EQ. 2) PRINT *, 1\nEND\n<<< 0
>>> seq --steps 1\nIF (1 .EQ. 2) THEN\nELSE IF (1 .EQ. 1) THEN\nENDIF\nEND\n<<< 1 line 2: fault StepLimit
>>> seq --steps 6: The start of a DO, each of its tests, the last one too\nDO I = 1, 2\n CONTINUE\nENDDO\nEND\n<<< 0
>>> seq --steps 5\nDO I = 1, 2\n CONTINUE\nENDDO\nEND\n<<< 1 line 1: fault StepLimit
>>> seq --steps 2\nDO I = 1, 2\n CONTINUE\nENDDO\nEND\n<<< 1 line 2: fault StepLimit
>>> seq --steps 1\nDO I = 2, 1\nENDDO\nEND\n<<< 1 line 1: fault StepLimit
>>> seq --steps 3: Each test of a DO WHILE\nDO WHILE (K .LT. 1)\nK = K+1\nENDDO\nEND\n<<< 0
>>> seq --steps 2\nDO WHILE (K .LT. 1)\nK = K+1\nENDDO\nEND\n<<< 1 line 1: fault StepLimit
>>> seq --steps 1: The limit comes before anything of the step is valued\n CONTINUE\n K = 1/0\nEND\n<<< 1 line 2: fault StepLimit
";

#[test]
fn limits_of_steps_are_kept(rt: HostRuntime) -> Result<(), Fail> {
    hold(&rt, rt.alloc(), STEPS)
}

// Inputs behind END, with the offset of the first bad byte from 0.
const INPUTS: &str = ">>> seq\n PRINT *, 1\nEND\n12x<<< 4 input: bad at offset 2
>>> seq\n PRINT *, 1\nEND\nx<<< 4 input: bad at offset 0
>>> seq\n PRINT *, 1\nEND\n1,2<<< 4 input: bad at offset 1
>>> seq\n PRINT *, 1\nEND\n+<<< 4 input: bad at offset 0
>>> seq\n PRINT *, 1\nEND\n1 +-2<<< 4 input: bad at offset 2
>>> seq\n PRINT *, 1\nEND\n--5<<< 4 input: bad at offset 0
>>> seq\n PRINT *, 1\nEND\n12+3<<< 4 input: bad at offset 2
>>> seq\n PRINT *, 1\nEND\n 5 -<<< 4 input: bad at offset 3
>>> seq\n PRINT *, 1\nEND\n9223372036854775808<<< 4 input: bad at offset 0
>>> seq\n PRINT *, 1\nEND\n5 9223372036854775808<<< 4 input: bad at offset 2
>>> seq\n PRINT *, 1\nEND\n-9223372036854775809<<< 4 input: bad at offset 0
>>> seq\n PRINT *, 1\nEND\n99999999999999999999x<<< 4 input: bad at offset 0
>>> seq\n PRINT *, 1\nEND\n1 2\n3 4.5<<< 4 input: bad at offset 7
>>> seq\n PRINT *, 1\nEND\n\t\r\n \u{b}<<< 4 input: bad at offset 4
";

#[test]
fn bad_inputs_are_told_by_their_offset(rt: HostRuntime) -> Result<(), Fail> {
    hold(&rt, rt.alloc(), INPUTS)
}
