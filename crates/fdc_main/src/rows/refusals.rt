// Decks that are refused, by each phase.
use crate::rows::script::hold;
use std::test::Fail;

const REFUSED: &str = ">>> seq\n<<< 3 line 1: error 17 NoEnd
>>> seq\n\n\n PRINT *, 4\n<<< 3 line 4: error 17 NoEnd
>>> seq: By the tokens of lines\n K = 1\u{1}\nEND\n<<< 3 line 1: error 1 BadByte
>>> seq\n K = 1\n\r K = 2\nEND\n<<< 3 line 2: error 1 BadByte
>>> seq\nK = 1 ? 2\nEND\n<<< 3 line 1: error 3 BadToken
>>> seq\n PRINT *, 'a\nEND\n<<< 3 line 1: error 3 BadToken
>>> seq\nK = 1 .XOR. 2\nEND\n<<< 3 line 1: error 3 BadToken
>>> seq\nK = 9223372036854775808\nEND\n<<< 3 line 1: error 4 NumberTooLarge
>>> seq: By the grammar\nENDDO\nEND\n<<< 3 line 1: error 5 Syntax
>>> seq\nK = 1\nK =\u{20}\nEND\n<<< 3 line 2: error 5 Syntax
>>> seq\nDO I = 1, 2\nEND\n<<< 3 line 2: error 5 Syntax
>>> seq\nK = 1\nINTEGER A\nEND\n<<< 3 line 2: error 5 Syntax
>>> seq\nIF (1 .EQ. 1) THEN\nELSE\nELSE\nENDIF\nEND\n<<< 3 line 3: error 5 Syntax
>>> seq\nK = 2**3\nEND\n<<< 3 line 1: error 18 LeftOut
>>> seq\nGOTO 10\nEND\n<<< 3 line 1: error 18 LeftOut
>>> seq\n10 CONTINUE\nEND\n<<< 3 line 1: error 18 LeftOut
>>> seq\nDO 10 I = 1, 2\nEND\n<<< 3 line 1: error 18 LeftOut
>>> seq: By names, shapes and constants\nX = 1\nEND\n<<< 3 line 1: error 6 NotDeclared
>>> seq\nK = F(1)\nEND\n<<< 3 line 1: error 6 NotDeclared
>>> seq\nINTEGER A(2), A(3)\nEND\n<<< 3 line 1: error 7 DeclaredTwice
>>> seq\nINTEGER A(2)\nA = 1\nEND\n<<< 3 line 2: error 8 WrongShape
>>> seq\nINTEGER A(2,2)\nK = A(1)\nEND\n<<< 3 line 2: error 8 WrongShape
>>> seq\nPARAMETER (N = 1)\nN = 2\nEND\n<<< 3 line 2: error 8 WrongShape
>>> seq\nK = MOD(1)\nEND\n<<< 3 line 1: error 8 WrongShape
>>> seq\nINTEGER A(K)\nEND\n<<< 3 line 1: error 9 NotConstant
>>> seq\nPARAMETER (N = 1/0)\nEND\n<<< 3 line 1: error 9 NotConstant
>>> seq\nINTEGER A(3:2)\nEND\n<<< 3 line 1: error 10 BadBounds
>>> seq\nINTEGER A(262145)\nEND\n<<< 3 line 1: error 10 BadBounds
>>> seq\nDO I = 1, 2\nI = 3\nENDDO\nEND\n<<< 3 line 2: error 11 DoVarAssigned
>>> seq\nDO I = 1, 2\nREAD *, I\nENDDO\nEND\n<<< 3 line 2: error 11 DoVarAssigned
>>> seq\nINTEGER A(65537)\nEND\n<<< 3 line 1: error 16 TooMany Replicated
>>> seq: The phases decide in their order, in one phase the least line, and on it the least number\nX = 1\nENDDO\nK = ?\nEND\n<<< 3 line 3: error 3 BadToken
>>> seq\nX = 1\nENDDO\nEND\n<<< 3 line 2: error 5 Syntax
>>> seq\nX = 1\nK = 1\n<<< 3 line 3: error 17 NoEnd
>>> seq\nK = Y(X)\nINTEGER\nEND\n<<< 3 line 2: error 5 Syntax
>>> seq\nINTEGER A(2)\nX = A\nY = 1\nEND\n<<< 3 line 2: error 6 NotDeclared
";

#[test]
fn decks_are_refused(rt: HostRuntime) -> Result<(), Fail> {
    hold(&rt, rt.alloc(), REFUSED)
}
