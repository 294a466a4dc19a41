// What names stand for, and which are refused.
use crate::rows::script::hold;
use std::test::Fail;

// Names, shapes and bounds, by the line and the number of the first refusal.
const REFUSED: &str =
    ">>> seq: on a line that makes a name it is not known\nINTEGER A(N), N(2)\nEND\n<<< 3 line 1: error 6 NotDeclared
>>> seq\nPARAMETER (X = 3)\nEND\n<<< 3 line 1: error 6 NotDeclared
>>> seq\nPARAMETER (N = 3)\nINTEGER A(N), N(2)\nEND\n<<< 3 line 2: error 6 NotDeclared
>>> seq\nINTEGER A(2)\nK = A(1,2)\nEND\n<<< 3 line 2: error 8 WrongShape
>>> seq: the least line, and on it the least number\nINTEGER A(2)\nK = A\nK = X\nEND\n<<< 3 line 2: error 8 WrongShape
>>> seq\nINTEGER A(2)\nK = A+X\nEND\n<<< 3 line 2: error 6 NotDeclared
>>> seq\nINTEGER A(2)\nA = 1\nEND\n<<< 3 line 2: error 8 WrongShape
>>> seq: on a line that makes a name an array it is no function either\nINTEGER MOD(3), B(MOD(5,3))\nEND\n<<< 3 line 1: error 6 NotDeclared
>>> seq\nINTEGER MOD(0), D(-1:MOD(5,3))\nEND\n<<< 3 line 1: error 6 NotDeclared
>>> seq\nINTEGER B(MAX(1,2)), MAX(3)\nEND\n<<< 3 line 1: error 6 NotDeclared
>>> seq\nINTEGER ABS(3)\nINTEGER B(ABS(2)), ABS(3)\nEND\n<<< 3 line 2: error 6 NotDeclared
>>> seq: a scalar, a constant and a decomposition leave the function what it is\nINTEGER MOD, B(MOD(5,3))\nPARAMETER (MIN = 3, N = MIN(7,4))\nDECOMPOSITION MAX(9), D(MAX(2,4))\nB(2) = MOD(7,4)+N\nPRINT *, B(2), MIN, MIN(1,2), MAX(1,2)\nEND\n<<< 0\n7 3 1 2
";

#[test]
fn names_are_refused(rt: HostRuntime) -> Result<(), Fail> {
    hold(&rt, rt.alloc(), REFUSED)
}

// Two limits on one line: arrays before elements, and statements before names.
const LIMITS: &str = ">>> seq\n{129|INTEGER A%(512)\n}END\n<<< 3 line 129: error 16 TooMany Arrays
>>> seq\n{128|INTEGER A%(513)\n}END\n<<< 3 line 128: error 16 TooMany Replicated
>>> seq\n{127|INTEGER A%(512)\n}INTEGER A(512)\nEND\n<<< 0
>>> seq\n{16384|INTEGER I%\n}{4096| CONTINUE\n}N = 1\nEND\n<<< 3 line 20481: error 16 TooMany Statements
";

#[test]
fn limits_are_told_in_order(rt: HostRuntime) -> Result<(), Fail> {
    hold(&rt, rt.alloc(), LIMITS)
}

// Every kind of name stands for its own, and each statement has its line.
const EVERY_KIND: &str =
    ">>> seq --steps 10\nPARAMETER (N = 3)\nINTEGER A(N), B(0:1), S\nS = A(N)+MAX(B(0),-S)\nIF (S .EQ. 1) THEN\nREAD *, A(S)\nELSE\nPRINT *, 'T', S\nENDIF\nDO I = 1, 2\n CONTINUE\nENDDO\nDO WHILE (.NOT. .TRUE.)\nENDDO\nEND\n<<< 0\nT 0
>>> seq --steps 1\nPARAMETER (N = 3)\nINTEGER A(N), B(0:1), S\nS = A(N)+MAX(B(0),-S)\nIF (S .EQ. 1) THEN\nREAD *, A(S)\nELSE\nPRINT *, 'T', S\nENDIF\nDO I = 1, 2\n CONTINUE\nENDDO\nDO WHILE (.NOT. .TRUE.)\nENDDO\nEND\n<<< 1 line 4: fault StepLimit
>>> seq --steps 2\nPARAMETER (N = 3)\nINTEGER A(N), B(0:1), S\nS = A(N)+MAX(B(0),-S)\nIF (S .EQ. 1) THEN\nREAD *, A(S)\nELSE\nPRINT *, 'T', S\nENDIF\nDO I = 1, 2\n CONTINUE\nENDDO\nDO WHILE (.NOT. .TRUE.)\nENDDO\nEND\n<<< 1 line 7: fault StepLimit
>>> seq --steps 3\nPARAMETER (N = 3)\nINTEGER A(N), B(0:1), S\nS = A(N)+MAX(B(0),-S)\nIF (S .EQ. 1) THEN\nREAD *, A(S)\nELSE\nPRINT *, 'T', S\nENDIF\nDO I = 1, 2\n CONTINUE\nENDDO\nDO WHILE (.NOT. .TRUE.)\nENDDO\nEND\n<<< 1 line 9: fault StepLimit\nT 0
>>> seq --steps 4\nPARAMETER (N = 3)\nINTEGER A(N), B(0:1), S\nS = A(N)+MAX(B(0),-S)\nIF (S .EQ. 1) THEN\nREAD *, A(S)\nELSE\nPRINT *, 'T', S\nENDIF\nDO I = 1, 2\n CONTINUE\nENDDO\nDO WHILE (.NOT. .TRUE.)\nENDDO\nEND\n<<< 1 line 9: fault StepLimit\nT 0
>>> seq --steps 5\nPARAMETER (N = 3)\nINTEGER A(N), B(0:1), S\nS = A(N)+MAX(B(0),-S)\nIF (S .EQ. 1) THEN\nREAD *, A(S)\nELSE\nPRINT *, 'T', S\nENDIF\nDO I = 1, 2\n CONTINUE\nENDDO\nDO WHILE (.NOT. .TRUE.)\nENDDO\nEND\n<<< 1 line 10: fault StepLimit\nT 0
>>> seq --steps 6\nPARAMETER (N = 3)\nINTEGER A(N), B(0:1), S\nS = A(N)+MAX(B(0),-S)\nIF (S .EQ. 1) THEN\nREAD *, A(S)\nELSE\nPRINT *, 'T', S\nENDIF\nDO I = 1, 2\n CONTINUE\nENDDO\nDO WHILE (.NOT. .TRUE.)\nENDDO\nEND\n<<< 1 line 9: fault StepLimit\nT 0
>>> seq --steps 7\nPARAMETER (N = 3)\nINTEGER A(N), B(0:1), S\nS = A(N)+MAX(B(0),-S)\nIF (S .EQ. 1) THEN\nREAD *, A(S)\nELSE\nPRINT *, 'T', S\nENDIF\nDO I = 1, 2\n CONTINUE\nENDDO\nDO WHILE (.NOT. .TRUE.)\nENDDO\nEND\n<<< 1 line 10: fault StepLimit\nT 0
>>> seq --steps 8\nPARAMETER (N = 3)\nINTEGER A(N), B(0:1), S\nS = A(N)+MAX(B(0),-S)\nIF (S .EQ. 1) THEN\nREAD *, A(S)\nELSE\nPRINT *, 'T', S\nENDIF\nDO I = 1, 2\n CONTINUE\nENDDO\nDO WHILE (.NOT. .TRUE.)\nENDDO\nEND\n<<< 1 line 9: fault StepLimit\nT 0
>>> seq --steps 9\nPARAMETER (N = 3)\nINTEGER A(N), B(0:1), S\nS = A(N)+MAX(B(0),-S)\nIF (S .EQ. 1) THEN\nREAD *, A(S)\nELSE\nPRINT *, 'T', S\nENDIF\nDO I = 1, 2\n CONTINUE\nENDDO\nDO WHILE (.NOT. .TRUE.)\nENDDO\nEND\n<<< 1 line 12: fault StepLimit\nT 0
>>> seq\nPARAMETER (N = 3)\nINTEGER A(N), B(0:1), S\nA(3) = 4\nB(0) = -7\nS = A(N)+MAX(B(0),-S)\nIF (S .EQ. 1) THEN\nREAD *, A(S)\nELSE\nPRINT *, 'T', S\nENDIF\nDO I = 1, 2\n CONTINUE\nENDDO\nDO WHILE (.NOT. .TRUE.)\nENDDO\nPRINT *, S, I, N, A(1), A(2), A(3), B(0), B(1)\nEND\n9 8\n<<< 0\nT 4\n4 3 3 0 0 4 -7 0
>>> seq\nPARAMETER (N = 3)\nINTEGER A(N), B(0:1), S\nA(3) = 1\nB(0) = -7\nS = A(N)+MAX(B(0),-S)\nIF (S .EQ. 1) THEN\nREAD *, A(S)\nELSE\nPRINT *, 'T', S\nENDIF\nDO I = 1, 2\n CONTINUE\nENDDO\nDO WHILE (.NOT. .TRUE.)\nENDDO\nPRINT *, S, I, N, A(1), A(2), A(3), B(0), B(1)\nEND\n9 8\n<<< 0\n1 3 3 9 0 1 -7 0
>>> map: no array is distributed\nPARAMETER (N = 3)\nINTEGER A(N), B(0:1), S\nS = A(N)+MAX(B(0),-S)\nIF (S .EQ. 1) THEN\nREAD *, A(S)\nELSE\nPRINT *, 'T', S\nENDIF\nDO I = 1, 2\n CONTINUE\nENDDO\nDO WHILE (.NOT. .TRUE.)\nENDDO\nEND\n<<< 0
>>> seq\nPARAMETER (N = 3)\nINTEGER A(N), B(0:1)\nA(4) = 1\nEND\n<<< 1 line 3: fault Bounds
>>> seq\nPARAMETER (N = 3)\nINTEGER A(N), B(0:1)\nB(2) = 1\nEND\n<<< 1 line 3: fault Bounds
";

#[test]
fn every_kind_of_name_stands_for_its_own(rt: HostRuntime) -> Result<(), Fail> {
    hold(&rt, rt.alloc(), EVERY_KIND)
}
