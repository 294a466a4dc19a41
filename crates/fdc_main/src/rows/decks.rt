// Small decks: values, printed lines, loops, and words.
use crate::rows::script::hold;
use std::test::Fail;

// Decks that print.
const PRINTED: &str = ">>> seq\n PRINT *, 2+3\nEND\n<<< 0\n5
>>> seq\n PRINT *, 2*8-1, -4\nEND\n<<< 0\n15 -4
>>> seq\n\tpRiNt*,-0,007,-2*3-4*1\t\n eNd<<< 0\n0 7 -10
>>> seq\n K = 4\n PRINT *, K*K-1, -K\nEND\n<<< 0\n15 -4
>>> seq\n PRINT *, 1\r\nEND\r\n<<< 0\n1
>>> seq\nEND\n<<< 0
>>> seq\nEND\n \t\r\n 5 -7 +0\n<<< 0
>>> seq: Texts, empty lines and blanks between items\n PRINT *, 'IT''S', K, 'a b'\n PRINT *\n PRINT *, ''\n PRINT *, '', ''\nEND\n<<< 0\nIT'S 0 a b\n\n\n\u{20}
>>> seq: Operators group from the left, a leading minus takes the whole first term, and division truncates\n PRINT *, 9-4-3, 100/10/5, 7/2, -7/2, 7/(-2), (-7)/(-2)\nEND\n<<< 0\n2 2 3 -3 -3 3
>>> seq\n PRINT *, MOD(7,3), MOD(-7,3), MOD(7,-3), MOD(-7,-3), -2*3+1\nEND\n<<< 0\n1 -1 1 -1 -5
>>> seq\n PRINT *, ABS(-5), ABS(5), MIN(3,-1,2), MAX(3,-1,7,2)\nEND\n<<< 0\n5 5 -1 7
>>> seq: The least number\n K = -9223372036854775807-1\n PRINT *, K+0, K*1\n PRINT *, K/1, MOD(K,-1), MOD(K,K)\n PRINT *, MIN(K,0), MAX(K,0)\n IF (K .LT. K+1) PRINT *, 'less'\nEND\n<<< 0\n-9223372036854775808 -9223372036854775808\n-9223372036854775808 0 0\n-9223372036854775808 0\nless
>>> seq: Conditions\n IF (1 < 2 .AND. 2 <= 2 .AND. 3 > 2 .AND. 3 >= 3 .AND. 1 == 1 .AND. 1 /= 2) PRINT *, 1\n IF (.NOT. (1 .EQ. 1) .OR. .FALSE.) PRINT *, 2\n IF (.TRUE.) PRINT *, 3\nEND\n<<< 0\n1\n3
>>> seq\nDO I = 1, 4\nIF (I .EQ. 1) THEN\nPRINT *, 'one'\nELSE IF (I .EQ. 2) THEN\nPRINT *, 'two'\nELSEIF (I .EQ. 3) THEN\nELSE\nPRINT *, 'more'\nEND IF\nEND DO\nEND\n<<< 0\none\ntwo\nmore
>>> seq: Loops: the variable keeps its last value, bounds are fixed at the start\nDO I = 3, 1, -1\nPRINT *, I\nENDDO\nPRINT *, I\nEND\n<<< 0\n3\n2\n1\n0
>>> seq\nDO I = 1, 10, 4\nPRINT *, I\nENDDO\nPRINT *, I\nEND\n<<< 0\n1\n5\n9\n13
>>> seq\nDO I = 5, 1\nPRINT *, I\nENDDO\nPRINT *, I\nEND\n<<< 0\n5
>>> seq\nN = 2\nDO I = 1, N\nN = 9\nENDDO\nPRINT *, I, N\nEND\n<<< 0\n3 9
>>> seq\nDO I = 1, 2, -9223372036854775807-1\nPRINT *, I\nENDDO\nPRINT *, I\nEND\n<<< 0\n1
>>> seq\nDO I = 9223372036854775806, 9223372036854775806\nENDDO\nPRINT *, I\nEND\n<<< 0\n9223372036854775807
>>> seq\nK = 3\nDO WHILE (K .GT. 0)\nPRINT *, K\nK = K-1\nENDDO\nEND\n<<< 0\n3\n2\n1
>>> seq\nDO I = 1, 2\nDO J = 1, 2\nPRINT *, I, J\nENDDO\nENDDO\nEND\n<<< 0\n1 1\n1 2\n2 1\n2 2
>>> seq: Arrays: bounds, zeros at first, columns\nINTEGER A(-1:1), B(2,0:1)\nA(-1) = 7\nB(2,0) = A(-1)*2\nPRINT *, A(-1), A(0), A(1), B(1,0), B(2,0), B(2,1)\nEND\n<<< 0\n7 0 0 0 14 0
>>> seq\nPARAMETER (N = 2*3)\nPARAMETER (M = N-1)\nINTEGER A(N), S\nA(N) = M\nS = A(A(6)+1)\nPRINT *, N, M, S\nEND\n<<< 0\n6 5 5
>>> seq\nINTEGER N\nPARAMETER (N = MOD(17, 5))\nPRINT *, N\nEND\n<<< 0\n2
>>> seq: READ takes one number a target, in order\nREAD *, K\nPRINT *, K-1\nEND\n7<<< 0\n6
>>> seq\nINTEGER A(3)\nREAD *, K, A(K), A(K+1)\nPRINT *, K, A(1), A(2), A(3)\nEND\n+2\r\n\t-0 9223372036854775807 99\n<<< 0\n2 0 0 9223372036854775807
>>> seq\nREAD *, K\nPRINT *, K\nEND\n-9223372036854775808<<< 0\n-9223372036854775808
>>> seq: Source form: comments of each kind, lines that go on, a name that is no keyword\nC a comment\n* and one\n! and one\n  ! and one\n PRINT *, 1, & ! goes on\n\nC in between\n 2\n PRINT *, '!&' ! text\nEND ! last\n<<< 0\n1 2\n!&
>>> seq\nINTEGER IF, DO, END, PRINT\nIF = 1\nDO = IF+1\nEND = DO+1\nPRINT = END+1\nPRINT *, IF, DO, END, PRINT\nEND\n<<< 0\n1 2 3 4
>>> seq\nPROGRAM X\n CONTINUE\nEND\n<<< 0
";

#[test]
fn decks_print(rt: HostRuntime) -> Result<(), Fail> {
    hold(&rt, rt.alloc(), PRINTED)
}

// Words that are no mode.
const MISUSED: &str =
    ">>> seq seq\nEND\n<<< 2 usage: fdc MODE [--ranks N] [--steps N] [--seed N] [--workers N] [--size N]\n>>>\u{20}\nEND\n<<< 2 usage: fdc MODE [--ranks N] [--steps N] [--seed N] [--workers N] [--size N]
>>> SEQ\nEND\n<<< 2 usage: fdc MODE [--ranks N] [--steps N] [--seed N] [--workers N] [--size N]
>>> seq --help\nEND\n<<< 2 usage: fdc MODE [--ranks N] [--steps N] [--seed N] [--workers N] [--size N]
>>> sequence\nEND\n<<< 2 usage: fdc MODE [--ranks N] [--steps N] [--seed N] [--workers N] [--size N]
";

#[test]
fn wrong_words_are_told_the_right_ones(rt: HostRuntime) -> Result<(), Fail> {
    hold(&rt, rt.alloc(), MISUSED)
}
