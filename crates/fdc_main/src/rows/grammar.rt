// What the grammar reads and refuses.
use crate::rows::script::hold;
use std::test::Fail;

// Operators by what they give, elements, functions and conditions.
const EXPRESSIONS: &str =
    ">>> seq\n L = 2\n M = 3\n N = 5\n PRINT *, 1-2-3*4/5, -L*M+N, +L-M, 1-(2-3), -(1), ((N))\n J = 7\n PRINT *, 8/4/2*3, -L*M*N-J, (-L*M)*(+N), (((1)))\nEND\n<<< 0\n-3 -1 -1 2 -1 5\n3 -37 -30 1
>>> seq: a leading minus is applied to the first term as a whole\n K = -9223372036854775807-1\n PRINT *, -K*0\n PRINT *, (-K)*0\nEND\n<<< 1 line 3: fault Overflow\n0
>>> seq\nINTEGER A(2,-1:2)\nI = 2\nJ = 2\nA(1,2) = 8\nA(I,-J+1) = MOD(A(1,2),-3)*MAX(1,2,3)\nPRINT *, A(2,-1)\nEND\n<<< 0\n6
>>> seq: .NOT. binds before .AND., and that before .OR.\n L = 0\n M = 1\n N = 2\n IF (L .LT. 1 .OR. M == 2 .AND. .NOT. (N >= 3 .OR. .TRUE.)) PRINT *, 1\n L = 1\n M = 2\n IF (L .LT. 1 .OR. M == 2 .AND. .NOT. (N >= 3 .OR. .TRUE.)) PRINT *, 2\n IF (L .LT. 1 .OR. M == 2 .AND. .NOT. (N >= 3 .OR. .FALSE.)) PRINT *, 3\n N = 3\n IF (L .LT. 1 .OR. M == 2 .AND. .NOT. (N >= 3 .OR. .FALSE.)) PRINT *, 4\nEND\n<<< 0\n1\n3
>>> seq: parentheses round expressions and round conditions\n L = 4\n M = 1\n IF ((L) .EQ. (M+1)*2) PRINT *, 1\n IF (((L /= M))) PRINT *, 2\n IF ((L) .LE. 4 .AND. (((M > 2)) .OR. .FALSE.)) PRINT *, 3\n M = 3\n IF ((L) .LE. 4 .AND. (((M > 2)) .OR. .FALSE.)) PRINT *, 4\nEND\n<<< 0\n1\n2\n4
>>> seq\n L = 1\n M = 2\n N = 2\n IF (L<1 .OR. M<2 .OR. N<3) PRINT *, 1\n IF (L<2 .AND. M<3 .AND. N<3) PRINT *, 2\n IF (L<1 .OR. M<2 .OR. N<2) PRINT *, 3\n IF (L<2 .AND. M<3 .AND. N<2) PRINT *, 4\nEND\n<<< 0\n1\n2
>>> seq\nDO I = 1, 3\nIF (I .EQ. 2) PRINT *, I, 'EQ'\nIF (I .NE. 2) PRINT *, I, 'NE'\nIF (I .LT. 2) PRINT *, I, 'LT'\nIF (I .LE. 2) PRINT *, I, 'LE'\nIF (I .GT. 2) PRINT *, I, 'GT'\nIF (I .GE. 2) PRINT *, I, 'GE'\nIF (I == 2) PRINT *, I, '=='\nIF (I /= 2) PRINT *, I, '/='\nIF (I < 2) PRINT *, I, '<'\nIF (I <= 2) PRINT *, I, '<='\nIF (I > 2) PRINT *, I, '>'\nIF (I >= 2) PRINT *, I, '>='\nENDDO\nEND\n<<< 0\n1 NE\n1 LT\n1 LE\n1 /=\n1 <\n1 <=\n2 EQ\n2 LE\n2 GE\n2 ==\n2 <=\n2 >=\n3 NE\n3 GT\n3 GE\n3 /=\n3 >\n3 >=
>>> seq\n L = 2\n M = 1\n N = 2\n IF (L .NE. 2 .OR. L .GT. 2 .OR. L .GE. 3 .OR. M <= 1) PRINT *, 1\n IF (L .NE. 2 .OR. L .GT. 2 .OR. L .GE. 3 .OR. N <= 1) PRINT *, 2\nEND\n<<< 0\n1
";

#[test]
fn expressions_are_read(rt: HostRuntime) -> Result<(), Fail> {
    hold(&rt, rt.alloc(), EXPRESSIONS)
}

// Statements by which of them are made, and by their lines.
const STATEMENTS: &str =
    ">>> seq: an ELSE IF is an IF in the ELSE side\nIF (K .EQ. 0) THEN\nL = 1/K\nELSE IF (1/1 .EQ. 1) THEN\nL = 2\nELSEIF (1/1 .EQ. 1) THEN\nELSE\nL = 4/1\nEND IF\nK = 5/L\nEND\n<<< 1 line 2: fault ZeroDivide
>>> seq\nIF (K .EQ. 1) THEN\nL = 1/1\nELSE IF (1/K .EQ. 1) THEN\nL = 2\nELSEIF (1/1 .EQ. 1) THEN\nELSE\nL = 4/1\nEND IF\nK = 5/L\nEND\n<<< 1 line 3: fault ZeroDivide
>>> seq\nIF (K .EQ. 1) THEN\nL = 1/1\nELSE IF (1/1 .EQ. 2) THEN\nL = 2\nELSEIF (1/K .EQ. 1) THEN\nELSE\nL = 4/1\nEND IF\nK = 5/L\nEND\n<<< 1 line 5: fault ZeroDivide
>>> seq\nIF (K .EQ. 1) THEN\nL = 1/1\nELSE IF (1/1 .EQ. 2) THEN\nL = 2\nELSEIF (1/1 .EQ. 2) THEN\nELSE\nL = 4/K\nEND IF\nK = 5/L\nEND\n<<< 1 line 7: fault ZeroDivide
>>> seq\nIF (K .EQ. 1) THEN\nL = 1/1\nELSE IF (1/1 .EQ. 2) THEN\nL = 2\nELSEIF (1/1 .EQ. 1) THEN\nELSE\nL = 4/1\nEND IF\nK = 5/L\nEND\n<<< 1 line 9: fault ZeroDivide
>>> seq\nDO L = 1, 2\nIF (L .EQ. 1) THEN\nELSE\nIF (M .EQ. 1) THEN\nPRINT *, M\nENDIF\nPRINT *, L\nENDIF\nENDDO\nEND\n<<< 0\n2
>>> seq\nN = 2\nDO I = 1, N\nDO J = N, 1, -1\nPRINT *, I, J\nEND DO\nENDDO\nDO WHILE (I > 0)\nI = I-1\nENDDO\nPRINT *, I\nEND\n<<< 0\n1 2\n1 1\n2 2\n2 1\n0
>>> seq\nDO I = 1, 1\nDO J = 2, 1, -1\n CONTINUE\nK = J/(J-1)\nEND DO\nENDDO\nEND\n<<< 1 line 4: fault ZeroDivide
>>> seq\nINTEGER B(1)\nREAD *, L, B(1)\nIF (L == 1) READ *, M, N\nIF (L == 1) PRINT *\nIF (L == 1) CONTINUE\nPRINT *, L, B(1), M, N\nEND\n1 2 3 4\n<<< 0\n\n1 2 3 4
>>> seq\nINTEGER B(1)\nREAD *, L, B(1)\nIF (L == 1) READ *, M, N\nIF (L == 1) PRINT *\nIF (L == 1) CONTINUE\nPRINT *, L, B(1), M, N\nEND\n0 2 3 4\n<<< 0\n0 2 0 0
>>> seq\nREAD *, L\nIF (L == 1) READ *, M, N\nEND\n1 2\n<<< 1 line 2: fault EndOfInput
>>> seq\nPRINT *\nPRINT *, 'a''b', 1, ''\nPRINT *, '!&', '\u{ff}'\nEND\n<<< 0\n\na'b 1\u{20}\n!& \u{ff}
>>> seq\nprogram p\nparameter (n=2)\ninteger a(0:n), b\ndecomposition d(0:n)\nalign a(i) with d(i)\ndistribute d(block)\na(2) = 1\nb = a(n)\nif (b .eq. 2) then\nelseif (b<2) then\nb = 5\nelse\nend if\nprint*,b\ndo i=1,2\nend do\nread *,b\nprint*,b,i\nend\n9\n<<< 0\n5\n9 3
>>> seq\nk\t=\t1\r\nprint *, K\r\nend\r\nrest\n<<< 4 input: bad at offset 0
>>> seq\nk\t=\t1\r\nprint *, K\r\nread *, k\r\nprint *, K\r\nend\r\n7 rest\n<<< 4 input: bad at offset 2
>>> seq\nk\t=\t1\r\nprint *, K\r\nread *, k\r\nprint *, K\r\nend\r\n7<<< 0\n1\n7
>>> seq\nC x\nc x\n* x\n! x\n\n  ! y\nK = 1/0 ! z\nEND<<< 1 line 7: fault ZeroDivide
>>> seq\nK = 1 &\n\n! c\n + 2\nPRINT *, K\nK = 1/(3-K)\nEND<<< 1 line 6: fault ZeroDivide\n3
>>> seq\nK = 1 &\n\n! c\n / 0\nEND<<< 1 line 1: fault ZeroDivide
>>> seq\n&\nEND\n7 8<<< 0
>>> seq\nDO I = 1, 2\n&\nEND\n7 8<<< 3 line 2: error 5 Syntax
>>> seq\nEND &\n<<< 0
>>> seq\nPROGRAM END\n END ! x\n\u{1}<<< 4 input: bad at offset 0
>>> seq\nDO I = 1, &\n! c\n 2, 3 ! d\nC x\n\nPRINT *, I, 1/(J*I)\nENDDO ! e\nEND<<< 1 line 6: fault ZeroDivide
>>> seq\nDO I = 1, &\n! c\n 2, 3 ! d\nC x\n\nPRINT *, I\nENDDO ! e\nEND<<< 0\n1
";

#[test]
fn statements_are_read(rt: HostRuntime) -> Result<(), Fail> {
    hold(&rt, rt.alloc(), STATEMENTS)
}

// Words of the language as names.
const NO_WORD_IS_RESERVED: &str =
    ">>> seq\nINTEGER IF(1), DO, END, PRINT, REAL, FORALL(1), READ(2), PROGRAM\nIF(1) = 2\nDO = 3\nEND = 4\nPRINT = 5\nREAL = 6\nFORALL(1) = 7\nREAD(2) = 8\nPROGRAM = 9\nPRINT *, IF(1), DO, END, PRINT, REAL, FORALL(1), READ(2), PROGRAM\nEND\n<<< 0\n2 3 4 5 6 7 8 9
>>> seq\nINTEGER IF, END(1), DO(2)\nI = 2\nEND(1) = 3\nIF = 5\nDO(I) = 7\nPRINT *, END(1), IF, DO(2)\nEND\n<<< 0\n3 5 7
>>> seq\nINTEGER INTEGER, PARAMETER(1), ALIGN, DISTRIBUTE(1), DECOMPOSITION, ELSE, ELSEIF(1)\nINTEGER ENDIF, ENDDO, CONTINUE, GOTO, REAL(1,2), DO10\nI = 1\nINTEGER = 1\nPARAMETER(1) = 2\nALIGN = 3\nDISTRIBUTE(I) = 4\nDECOMPOSITION = 5\nELSE = 6\nELSEIF(1) = 7\nENDIF = 8\nENDDO = 9\n CONTINUE = 10\nGOTO = 11\nREAL(1,2) = 12\nDO10 = 13\nPRINT *, INTEGER, PARAMETER(1), ALIGN, DISTRIBUTE(I), DECOMPOSITION, ELSE, ELSEIF(1)\nPRINT *, ENDIF, ENDDO, CONTINUE, GOTO, REAL(1,2), DO10\nEND\n<<< 0\n1 2 3 4 5 6 7\n8 9 10 11 12 13
>>> seq\nINTEGER WHILE\nDO WHILE = 1, 2\nPRINT *, WHILE\nENDDO\nEND\n<<< 0\n1\n2
>>> seq\nINTEGER IF, THEN\nIF (IF .EQ. 0) IF = 2\nIF (IF .EQ. 2) THEN = 3\nPRINT *, IF, THEN\nEND\n<<< 0\n2 3
>>> seq\nINTEGER END, DO(1), IF\nREAD *, END, DO(1), IF\nPRINT *, END+IF, '**', DO(1)\nDO END = 1, 2\nEND DO\nPRINT *, END\nEND &\n = 1\nPRINT *, END\nEND\n1 2 3\n<<< 0\n4 ** 2\n3\n1
>>> seq\nINTEGER DO, IF\nDO = 2\nIF = 3\nDO DO = DO, IF\nPRINT *, DO\nENDDO\nEND\n<<< 0\n2\n3
>>> seq\nINTEGER REAL, DOUBLE, COMPLEX, LOGICAL, CHARACTER, DIMENSION, DATA, IMPLICIT\nINTEGER COMMON, EQUIVALENCE, SAVE, EXTERNAL, INTRINSIC, SUBROUTINE, FUNCTION\nINTEGER ENTRY, CALL, RETURN, STOP, PAUSE, GOTO, GO, ASSIGN, WRITE, FORMAT\nINTEGER OPEN, CLOSE, INQUIRE, REWIND, BACKSPACE, ENDFILE, EXIT, CYCLE, SELECT\nINTEGER FORALL\n REAL = 1\n DOUBLE = 2\n COMPLEX = 3\n LOGICAL = 4\n CHARACTER = 5\n DIMENSION = 6\n DATA = 7\n IMPLICIT = 8\n COMMON = 9\n EQUIVALENCE = 10\n SAVE = 11\n EXTERNAL = 12\n INTRINSIC = 13\n SUBROUTINE = 14\n FUNCTION = 15\n ENTRY = 16\n CALL = 17\n RETURN = 18\n STOP = 19\n PAUSE = 20\n GOTO = 21\n GO = 22\n ASSIGN = 23\n WRITE = 24\n FORMAT = 25\n OPEN = 26\n CLOSE = 27\n INQUIRE = 28\n REWIND = 29\n BACKSPACE = 30\n ENDFILE = 31\n EXIT = 32\n CYCLE = 33\n SELECT = 34\n FORALL = 35\n PRINT *, REAL, DOUBLE, COMPLEX, LOGICAL, CHARACTER, DIMENSION, DATA, IMPLICIT\n PRINT *, COMMON, EQUIVALENCE, SAVE, EXTERNAL, INTRINSIC, SUBROUTINE, FUNCTION\n PRINT *, ENTRY, CALL, RETURN, STOP, PAUSE, GOTO, GO, ASSIGN, WRITE, FORMAT\n PRINT *, OPEN, CLOSE, INQUIRE, REWIND, BACKSPACE, ENDFILE, EXIT, CYCLE\n PRINT *, SELECT, FORALL\nEND\n<<< 0\n1 2 3 4 5 6 7 8\n9 10 11 12 13 14 15\n16 17 18 19 20 21 22 23 24 25\n26 27 28 29 30 31 32 33\n34 35
>>> seq\nINTEGER REAL(1), DOUBLE(1), COMPLEX(1), LOGICAL(1), CHARACTER(1), DIMENSION(1)\nINTEGER DATA(1), IMPLICIT(1), COMMON(1), EQUIVALENCE(1), SAVE(1), EXTERNAL(1)\nINTEGER INTRINSIC(1), SUBROUTINE(1), FUNCTION(1), ENTRY(1), CALL(1), RETURN(1)\nINTEGER STOP(1), PAUSE(1), GOTO(1), GO(1), ASSIGN(1), WRITE(1), FORMAT(1)\nINTEGER OPEN(1), CLOSE(1), INQUIRE(1), REWIND(1), BACKSPACE(1), ENDFILE(1)\nINTEGER EXIT(1), CYCLE(1), SELECT(1), FORALL(1)\n REAL(1) = 1\n DOUBLE(1) = 2\n COMPLEX(1) = 3\n LOGICAL(1) = 4\n CHARACTER(1) = 5\n DIMENSION(1) = 6\n DATA(1) = 7\n IMPLICIT(1) = 8\n COMMON(1) = 9\n EQUIVALENCE(1) = 10\n SAVE(1) = 11\n EXTERNAL(1) = 12\n INTRINSIC(1) = 13\n SUBROUTINE(1) = 14\n FUNCTION(1) = 15\n ENTRY(1) = 16\n CALL(1) = 17\n RETURN(1) = 18\n STOP(1) = 19\n PAUSE(1) = 20\n GOTO(1) = 21\n GO(1) = 22\n ASSIGN(1) = 23\n WRITE(1) = 24\n FORMAT(1) = 25\n OPEN(1) = 26\n CLOSE(1) = 27\n INQUIRE(1) = 28\n REWIND(1) = 29\n BACKSPACE(1) = 30\n ENDFILE(1) = 31\n EXIT(1) = 32\n CYCLE(1) = 33\n SELECT(1) = 34\n FORALL(1) = 35\n PRINT *, REAL(1), DOUBLE(1), COMPLEX(1), LOGICAL(1), CHARACTER(1), DIMENSION(1)\n PRINT *, DATA(1), IMPLICIT(1), COMMON(1), EQUIVALENCE(1), SAVE(1), EXTERNAL(1)\n PRINT *, INTRINSIC(1), SUBROUTINE(1), FUNCTION(1), ENTRY(1), CALL(1), RETURN(1)\n PRINT *, STOP(1), PAUSE(1), GOTO(1), GO(1), ASSIGN(1), WRITE(1), FORMAT(1)\n PRINT *, OPEN(1), CLOSE(1), INQUIRE(1), REWIND(1), BACKSPACE(1), ENDFILE(1)\n PRINT *, EXIT(1), CYCLE(1), SELECT(1), FORALL(1)\nEND\n<<< 0\n1 2 3 4 5 6\n7 8 9 10 11 12\n13 14 15 16 17 18\n19 20 21 22 23 24 25\n26 27 28 29 30 31\n32 33 34 35
";

#[test]
fn no_word_is_reserved(rt: HostRuntime) -> Result<(), Fail> {
    hold(&rt, rt.alloc(), NO_WORD_IS_RESERVED)
}

// Declarations by the elements that there are and by who owns them.
const DECLARATIONS: &str =
    ">>> map --ranks 1\nPROGRAM P\nINTEGER A(3), S, B(0:1,2)\nPARAMETER (N = 3, M = 2+1)\nDISTRIBUTE A(BLOCK)\nDISTRIBUTE B(:,BLOCK)\nS = N+M\nEND\n<<< 0\nA(1) 0 0\nA(2) 0 1\nA(3) 0 2\nB(0,1) 0 0\nB(1,1) 0 1\nB(0,2) 0 2\nB(1,2) 0 3
>>> seq\nPROGRAM P\nINTEGER A(8), S, B(0:3,2)\nPARAMETER (N = 3, M = 2+2)\nA(1) = 1\nA(8) = N\nS = M\nB(0,1) = 5\nB(3,2) = 6\nPRINT *, A(1), A(8), S, B(0,1), B(3,2)\nA(9) = 0\nEND\n<<< 1 line 10: fault Bounds\n1 3 4 5 6
>>> seq: names come behind the grammar\nPROGRAM P\nINTEGER A(8), S, B(0:3,2)\nPARAMETER (N = 3, M = N+1)\nEND\n<<< 3 line 3: error 6 NotDeclared
>>> map --ranks 2\nPARAMETER (N = 2)\nINTEGER A(3), B(2,2), X(2,2)\nDECOMPOSITION D(4), E(2,N)\nALIGN A(I) WITH D(I+1)\nALIGN B WITH E\nALIGN X(I,J) WITH E(J,2)\nDISTRIBUTE D(CYCLIC)\nDISTRIBUTE E(BLOCK,:)\nEND\n<<< 0\nA(1) 1 0\nA(2) 0 0\nA(3) 1 1\nB(1,1) 0 0\nB(2,1) 1 0\nB(1,2) 0 1\nB(2,2) 1 1\nX(1,1) 0 0\nX(2,1) 0 1\nX(1,2) 1 0\nX(2,2) 1 1
>>> map --ranks 2\nINTEGER D(3), E(1,5)\nDISTRIBUTE D(BLOCK)\nDISTRIBUTE E(:,BLOCK_CYCLIC(2))\nEND\n<<< 0\nD(1) 0 0\nD(2) 0 1\nD(3) 1 0\nE(1,1) 0 0\nE(1,2) 0 1\nE(1,3) 1 0\nE(1,4) 1 1\nE(1,5) 0 2
>>> seq: by a map, which is a statement and is refused with the names\nINTEGER F(2,2), M(2)\nDISTRIBUTE F(CYCLIC,M)\nEND\n<<< 3 line 2: error 18 LeftOut
>>> seq\nINTEGER F(2,2), M(2)\nX = 1\nDISTRIBUTE F(CYCLIC,M)\nEND\n<<< 3 line 2: error 6 NotDeclared
>>> seq\nINTEGER G(2)\nDISTRIBUTE G(BLOCK_CYCLIC)\nEND\n<<< 3 line 2: error 18 LeftOut
>>> seq\nINTEGER G(2)\nX = 1\nDISTRIBUTE G(BLOCK_CYCLIC)\nEND\n<<< 3 line 2: error 6 NotDeclared
>>> seq\nINTEGER D(2), M(2)\nDO I = 1, &\n! c\n 2, 3 ! d\nC x\n\nDISTRIBUTE D(M)\nENDDO ! e\nEND<<< 3 line 7: error 18 LeftOut
>>> map --ranks 2\nPROGRAM PROGRAM\nINTEGER WITH(2), BLOCK(2)\nDECOMPOSITION D(2)\nALIGN WITH WITH D\nDISTRIBUTE D(BLOCK)\nDISTRIBUTE BLOCK(BLOCK)\nEND\n<<< 0\nWITH(1) 0 0\nWITH(2) 1 0\nBLOCK(1) 0 0\nBLOCK(2) 1 0
>>> map --ranks 2\nINTEGER A(2)\nDECOMPOSITION WITH(2,3)\nALIGN A(WITH) WITH WITH(WITH,2*2-1)\nDISTRIBUTE WITH(BLOCK,:)\nEND\n<<< 0\nA(1) 0 0\nA(2) 1 0
>>> seq\nPROGRAM PROGRAM\nDECOMPOSITION WITH(2)\nALIGN WITH WITH WITH\nEND\n<<< 3 line 3: error 12 AlignBad
>>> seq\nINTEGER A(2)\nDECOMPOSITION WITH(2,2)\nALIGN A(WITH) WITH WITH(WITH,2*I-1)\nEND\n<<< 3 line 3: error 12 AlignBad
>>> map --ranks 2\nPARAMETER (N = -1)\nINTEGER A(7)\nDISTRIBUTE A(BLOCK_CYCLIC((2+N)*3))\nEND\n<<< 0\nA(1) 0 0\nA(2) 0 1\nA(3) 0 2\nA(4) 1 0\nA(5) 1 1\nA(6) 1 2\nA(7) 0 3
>>> map --ranks 1\nPARAMETER (N = 1)\nINTEGER A(-1:2*N,N+1), B(N)\nDISTRIBUTE A(:,CYCLIC)\nDISTRIBUTE B(CYCLIC)\nEND\n<<< 0\nA(-1,1) 0 0\nA(0,1) 0 1\nA(1,1) 0 2\nA(2,1) 0 3\nA(-1,2) 0 4\nA(0,2) 0 5\nA(1,2) 0 6\nA(2,2) 0 7\nB(1) 0 0
";

#[test]
fn declarations_are_read(rt: HostRuntime) -> Result<(), Fail> {
    hold(&rt, rt.alloc(), DECLARATIONS)
}

// Decks that the grammar refuses.
const REFUSED: &str = ">>> seq\n\n\n<<< 3 line 3: error 17 NoEnd
>>> seq\nK = 1\n<<< 3 line 2: error 17 NoEnd
>>> seq\nK = 1 &<<< 3 line 1: error 17 NoEnd
>>> seq\nDO I = 1, 2\n<<< 3 line 2: error 17 NoEnd
>>> seq\nENDDO\nEND\n<<< 3 line 1: error 5 Syntax
>>> seq\nEND IF\nEND\n<<< 3 line 1: error 5 Syntax
>>> seq\nELSE\nEND\n<<< 3 line 1: error 5 Syntax
>>> seq\nEND DO = 1\nEND\n<<< 3 line 1: error 5 Syntax
>>> seq\nDO I = 1, 2\nEND\n<<< 3 line 2: error 5 Syntax
>>> seq\nIF (A == 1) THEN\nDO I = 1, 2\nENDIF\nENDDO\nEND\n<<< 3 line 3: error 5 Syntax
>>> seq\nIF (A == 1) THEN\nELSE\nELSE\nENDIF\nEND\n<<< 3 line 3: error 5 Syntax
>>> seq\nIF (A == 1) THEN\nELSE\nELSE IF (A == 2) THEN\nENDIF\nEND\n<<< 3 line 3: error 5 Syntax
>>> seq\nIF (A == 1) IF (B == 1) K = 1\nEND\n<<< 3 line 1: error 5 Syntax
>>> seq\nIF (A == 1) ENDDO\nEND\n<<< 3 line 1: error 5 Syntax
>>> seq\nIF (A) K = 1\nEND\n<<< 3 line 1: error 5 Syntax
>>> seq\nIF (.NOT. .NOT. .TRUE.) K = 1\nEND\n<<< 3 line 1: error 5 Syntax
>>> seq\nIF (A < B < C) K = 1\nEND\n<<< 3 line 1: error 5 Syntax
>>> seq\nIF ((A < B) + 1 > 2) K = 1\nEND\n<<< 3 line 1: error 5 Syntax
>>> seq\nIF (A .EQ. 1) = 2\nEND\n<<< 3 line 1: error 5 Syntax
>>> seq\nK = 1 +\nEND\n<<< 3 line 1: error 5 Syntax
>>> seq\nK =\nEND\n<<< 3 line 1: error 5 Syntax
>>> seq\nK = 1 2\nEND\n<<< 3 line 1: error 5 Syntax
>>> seq\nK = (1\nEND\n<<< 3 line 1: error 5 Syntax
>>> seq\nK = 1)\nEND\n<<< 3 line 1: error 5 Syntax
>>> seq\nK = 1, 2\nEND\n<<< 3 line 1: error 5 Syntax
>>> seq\nK = A(,1)\nEND\n<<< 3 line 1: error 5 Syntax
>>> seq\nK = A()\nEND\n<<< 3 line 1: error 5 Syntax
>>> seq\nK = 1 - -2\nEND\n<<< 3 line 1: error 5 Syntax
>>> seq\nK = A*-1\nEND\n<<< 3 line 1: error 5 Syntax
>>> seq\nK = A .EQ. B\nEND\n<<< 3 line 1: error 5 Syntax
>>> seq\nK = 'a'\nEND\n<<< 3 line 1: error 5 Syntax
>>> seq\n(K) = 1\nEND\n<<< 3 line 1: error 5 Syntax
>>> seq\nREAD *\nEND\n<<< 3 line 1: error 5 Syntax
>>> seq\nREAD *, 1\nEND\n<<< 3 line 1: error 5 Syntax
>>> seq\nPRINT 1\nEND\n<<< 3 line 1: error 5 Syntax
>>> seq\nPRINT *,\nEND\n<<< 3 line 1: error 5 Syntax
>>> seq\nPRINT *, 'a' 'b'\nEND\n<<< 3 line 1: error 5 Syntax
>>> seq\n CONTINUE 1\nEND\n<<< 3 line 1: error 5 Syntax
>>> seq\nDO I = 1\nEND\n<<< 3 line 1: error 5 Syntax
>>> seq\nDO I = 1, 2, 3, 4\nEND\n<<< 3 line 1: error 5 Syntax
>>> seq\nDO WHILE A > 1\nEND\n<<< 3 line 1: error 5 Syntax
>>> seq\nINTEGER\nEND\n<<< 3 line 1: error 5 Syntax
>>> seq\nINTEGER A()\nEND\n<<< 3 line 1: error 5 Syntax
>>> seq\nINTEGER A(1:2:3)\nEND\n<<< 3 line 1: error 5 Syntax
";

#[test]
fn decks_are_refused(rt: HostRuntime) -> Result<(), Fail> {
    hold(&rt, rt.alloc(), REFUSED)
}

// The same.
const REFUSED_TOO: &str = ">>> seq\nPARAMETER (N)\nEND\n<<< 3 line 1: error 5 Syntax
>>> seq\nDECOMPOSITION D\nEND\n<<< 3 line 1: error 5 Syntax
>>> seq\nALIGN A WITH D(I)\nEND\n<<< 3 line 1: error 5 Syntax
>>> seq\nALIGN A(I) WITH D\nEND\n<<< 3 line 1: error 5 Syntax
>>> seq\nDISTRIBUTE D\nEND\n<<< 3 line 1: error 5 Syntax
>>> seq\nDISTRIBUTE D(BLOCK(2))\nEND\n<<< 3 line 1: error 5 Syntax
>>> seq\nPROGRAM P Q\nEND\n<<< 3 line 1: error 5 Syntax
>>> seq\nINTEGER K\nPROGRAM P\nEND\n<<< 3 line 2: error 5 Syntax
>>> seq\nK = 1\nINTEGER L\nEND\n<<< 3 line 2: error 5 Syntax
>>> seq\nDISTRIBUTE D(M)\nDISTRIBUTE D(BLOCK)\nEND\n<<< 3 line 2: error 5 Syntax
>>> seq\nXYZ\nEND\n<<< 3 line 1: error 5 Syntax
>>> seq\n&\n\nK = 1 +\nK = 2**3\nEND\n<<< 3 line 1: error 5 Syntax
>>> seq\nK = 2**3\nEND\n<<< 3 line 1: error 18 LeftOut
>>> seq\n10 K = 1\nEND\n<<< 3 line 1: error 18 LeftOut
>>> seq\n1 = K\nEND\n<<< 3 line 1: error 18 LeftOut
>>> seq\nDO 10 I = 1, 2\nEND\n<<< 3 line 1: error 18 LeftOut
>>> seq\nREAL X\nEND\n<<< 3 line 1: error 18 LeftOut
>>> seq\nREAL\nEND\n<<< 3 line 1: error 18 LeftOut
>>> seq\nFORALL (I = 1:2) A(I) = 1\nEND\n<<< 3 line 1: error 18 LeftOut
>>> seq\nGO TO 10\nEND\n<<< 3 line 1: error 18 LeftOut
>>> seq\nK = 1\nSTOP\nEND\n<<< 3 line 2: error 18 LeftOut
>>> seq\nENDDO **\nEND\n<<< 3 line 1: error 18 LeftOut
>>> seq\nWRITE (*,*) K\nEND\n<<< 3 line 1: error 18 LeftOut
>>> seq\nK = 1 +\nK = ?\nEND\n<<< 3 line 2: error 3 BadToken
>>> seq\nK = 1 +\n<<< 3 line 1: error 5 Syntax
>>> seq\nEND &\n DO\nEND\n<<< 3 line 1: error 5 Syntax
>>> seq\nIF (A == 1) THEN\nEND\n<<< 3 line 2: error 5 Syntax
>>> seq\nDO WHILE (A == 1)\nEND DO\nEND DO\nEND\n<<< 3 line 3: error 5 Syntax
>>> seq\nIF (A == 1) THEN\nELSE IF (A == 2)\nENDIF\nEND\n<<< 3 line 2: error 5 Syntax
>>> seq\nPROGRAM P\nPROGRAM Q\nEND\n<<< 3 line 2: error 5 Syntax
>>> seq\nINTEGER K\nDISTRIBUTE D(M)\nINTEGER L\nEND\n<<< 3 line 3: error 5 Syntax
>>> seq\nK = 1\nDISTRIBUTE D(BLOCK)\nEND\n<<< 3 line 2: error 5 Syntax
>>> seq\nREAL X\nENDDO\nEND\n<<< 3 line 1: error 18 LeftOut
>>> seq\nENDDO\nREAL X\nEND\n<<< 3 line 1: error 5 Syntax
>>> seq\nK = 1\n2\nEND\n<<< 3 line 2: error 18 LeftOut
>>> seq\nK = A**2 +\nEND\n<<< 3 line 1: error 18 LeftOut
>>> seq\nREAL = 2**3\nEND\n<<< 3 line 1: error 18 LeftOut
>>> seq\nDO 10 = 1\nEND\n<<< 3 line 1: error 18 LeftOut
>>> seq\nREAL X\n<<< 3 line 1: error 18 LeftOut
>>> seq\nEND DO\n<<< 3 line 1: error 5 Syntax
>>> seq\nEND = 1\n<<< 3 line 2: error 17 NoEnd
>>> seq\nC END\n<<< 3 line 2: error 17 NoEnd
>>> seq\nEND END\n\n<<< 3 line 1: error 5 Syntax
>>> seq\n&\n<<< 3 line 1: error 5 Syntax
>>> seq\nK = 1\n & ! x\n<<< 3 line 2: error 5 Syntax
";

#[test]
fn more_decks_are_refused(rt: HostRuntime) -> Result<(), Fail> {
    hold(&rt, rt.alloc(), REFUSED_TOO)
}

// Lines that the grammar doesn't have.
const NO_LINES: &str = ">>> seq\n ELSE IF (A == 1) THEN\nEND\n<<< 3 line 1: error 5 Syntax
>>> seq\n IF (A == 1)\nEND\n<<< 3 line 1: error 5 Syntax
>>> seq\n IF A == 1 THEN\nEND\n<<< 3 line 1: error 5 Syntax
>>> seq\n IF (A == 1) THEN K = 1\nEND\n<<< 3 line 1: error 5 Syntax
>>> seq\n IF (A = 1) K = 1\nEND\n<<< 3 line 1: error 5 Syntax
>>> seq\n IF (A == 1) PROGRAM P\nEND\n<<< 3 line 1: error 5 Syntax
>>> seq\n IF (A == 1) INTEGER K\nEND\n<<< 3 line 1: error 5 Syntax
>>> seq\n IF (A == 1) DISTRIBUTE D(M)\nEND\n<<< 3 line 1: error 5 Syntax
>>> seq\n IF () K = 1\nEND\n<<< 3 line 1: error 5 Syntax
>>> seq\n IF (.TRUE. .FALSE.) K = 1\nEND\n<<< 3 line 1: error 5 Syntax
>>> seq\n IF (A == 1 .AND.) K = 1\nEND\n<<< 3 line 1: error 5 Syntax
>>> seq\n IF (.AND. A == 1) K = 1\nEND\n<<< 3 line 1: error 5 Syntax
>>> seq\n IF (A == 1 .OR. .OR. B == 1) K = 1\nEND\n<<< 3 line 1: error 5 Syntax
>>> seq\n IF (1 == (2 == 3)) K = 1\nEND\n<<< 3 line 1: error 5 Syntax
>>> seq\n IF (.NOT. A) K = 1\nEND\n<<< 3 line 1: error 5 Syntax
>>> seq\n DO\nEND\n<<< 3 line 1: error 5 Syntax
>>> seq\n DO I = 1, 2 K = 1\nEND\n<<< 3 line 1: error 5 Syntax
>>> seq\n DO I = 1, 2,\nEND\n<<< 3 line 1: error 5 Syntax
>>> seq\n DO A(1) = 1, 2\nEND\n<<< 3 line 1: error 5 Syntax
>>> seq\n DO WHILE\nEND\n<<< 3 line 1: error 5 Syntax
>>> seq\n DO WHILE (A)\nEND\n<<< 3 line 1: error 5 Syntax
>>> seq\n DO WHILE (A == 1) K = 1\nEND\n<<< 3 line 1: error 5 Syntax
>>> seq\n READ K\nEND\n<<< 3 line 1: error 5 Syntax
>>> seq\n READ *,\nEND\n<<< 3 line 1: error 5 Syntax
>>> seq\n READ *, K+1\nEND\n<<< 3 line 1: error 5 Syntax
>>> seq\n PRINT *, 1,\nEND\n<<< 3 line 1: error 5 Syntax
>>> seq\n PRINT\nEND\n<<< 3 line 1: error 5 Syntax
>>> seq\n PARAMETER N = 3\nEND\n<<< 3 line 1: error 5 Syntax
>>> seq\n PARAMETER ()\nEND\n<<< 3 line 1: error 5 Syntax
>>> seq\n PARAMETER (N = 3,)\nEND\n<<< 3 line 1: error 5 Syntax
>>> seq\n INTEGER A(1:2\nEND\n<<< 3 line 1: error 5 Syntax
>>> seq\n INTEGER A,\nEND\n<<< 3 line 1: error 5 Syntax
>>> seq\n INTEGER A(:)\nEND\n<<< 3 line 1: error 5 Syntax
>>> seq\n DECOMPOSITION D()\nEND\n<<< 3 line 1: error 5 Syntax
>>> seq\n ALIGN A D\nEND\n<<< 3 line 1: error 5 Syntax
>>> seq\n ALIGN A(I+1) WITH D(I)\nEND\n<<< 3 line 1: error 5 Syntax
>>> seq\n ALIGN A(I) WITH D()\nEND\n<<< 3 line 1: error 5 Syntax
>>> seq\n DISTRIBUTE D()\nEND\n<<< 3 line 1: error 5 Syntax
>>> seq\n DISTRIBUTE D(BLOCK_CYCLIC())\nEND\n<<< 3 line 1: error 5 Syntax
>>> seq\n DISTRIBUTE D(2)\nEND\n<<< 3 line 1: error 5 Syntax
>>> seq\n PROGRAM\nEND\n<<< 3 line 1: error 5 Syntax
>>> seq\n K = .TRUE.\nEND\n<<< 3 line 1: error 5 Syntax
>>> seq\n K = A(1)(2)\nEND\n<<< 3 line 1: error 5 Syntax
>>> seq\n K == 1\nEND\n<<< 3 line 1: error 5 Syntax
>>> seq\n K = +\nEND\n<<< 3 line 1: error 5 Syntax
";

#[test]
fn lines_are_refused(rt: HostRuntime) -> Result<(), Fail> {
    hold(&rt, rt.alloc(), NO_LINES)
}

// Each word of what is left out, and none that is longer.
const LEFT_OUT: &str = ">>> seq\n REAL X\nEND\n<<< 3 line 1: error 18 LeftOut
>>> seq\n REALS\nEND\n<<< 3 line 1: error 5 Syntax
>>> seq\n DOUBLE X\nEND\n<<< 3 line 1: error 18 LeftOut
>>> seq\n DOUBLES\nEND\n<<< 3 line 1: error 5 Syntax
>>> seq\n COMPLEX X\nEND\n<<< 3 line 1: error 18 LeftOut
>>> seq\n COMPLEXS\nEND\n<<< 3 line 1: error 5 Syntax
>>> seq\n LOGICAL X\nEND\n<<< 3 line 1: error 18 LeftOut
>>> seq\n LOGICALS\nEND\n<<< 3 line 1: error 5 Syntax
>>> seq\n CHARACTER X\nEND\n<<< 3 line 1: error 18 LeftOut
>>> seq\n CHARACTERS\nEND\n<<< 3 line 1: error 5 Syntax
>>> seq\n DIMENSION X\nEND\n<<< 3 line 1: error 18 LeftOut
>>> seq\n DIMENSIONS\nEND\n<<< 3 line 1: error 5 Syntax
>>> seq\n DATA X\nEND\n<<< 3 line 1: error 18 LeftOut
>>> seq\n DATAS\nEND\n<<< 3 line 1: error 5 Syntax
>>> seq\n IMPLICIT X\nEND\n<<< 3 line 1: error 18 LeftOut
>>> seq\n IMPLICITS\nEND\n<<< 3 line 1: error 5 Syntax
>>> seq\n COMMON X\nEND\n<<< 3 line 1: error 18 LeftOut
>>> seq\n COMMONS\nEND\n<<< 3 line 1: error 5 Syntax
>>> seq\n EQUIVALENCE X\nEND\n<<< 3 line 1: error 18 LeftOut
>>> seq\n EQUIVALENCES\nEND\n<<< 3 line 1: error 5 Syntax
>>> seq\n SAVE X\nEND\n<<< 3 line 1: error 18 LeftOut
>>> seq\n SAVES\nEND\n<<< 3 line 1: error 5 Syntax
>>> seq\n EXTERNAL X\nEND\n<<< 3 line 1: error 18 LeftOut
>>> seq\n EXTERNALS\nEND\n<<< 3 line 1: error 5 Syntax
>>> seq\n INTRINSIC X\nEND\n<<< 3 line 1: error 18 LeftOut
>>> seq\n INTRINSICS\nEND\n<<< 3 line 1: error 5 Syntax
>>> seq\n SUBROUTINE X\nEND\n<<< 3 line 1: error 18 LeftOut
>>> seq\n SUBROUTINES\nEND\n<<< 3 line 1: error 5 Syntax
>>> seq\n FUNCTION X\nEND\n<<< 3 line 1: error 18 LeftOut
>>> seq\n FUNCTIONS\nEND\n<<< 3 line 1: error 5 Syntax
>>> seq\n ENTRY X\nEND\n<<< 3 line 1: error 18 LeftOut
>>> seq\n ENTRYS\nEND\n<<< 3 line 1: error 5 Syntax
>>> seq\n CALL X\nEND\n<<< 3 line 1: error 18 LeftOut
>>> seq\n CALLS\nEND\n<<< 3 line 1: error 5 Syntax
>>> seq\n RETURN X\nEND\n<<< 3 line 1: error 18 LeftOut
>>> seq\n RETURNS\nEND\n<<< 3 line 1: error 5 Syntax
>>> seq\n STOP X\nEND\n<<< 3 line 1: error 18 LeftOut
>>> seq\n STOPS\nEND\n<<< 3 line 1: error 5 Syntax
>>> seq\n PAUSE X\nEND\n<<< 3 line 1: error 18 LeftOut
>>> seq\n PAUSES\nEND\n<<< 3 line 1: error 5 Syntax
>>> seq\n GOTO X\nEND\n<<< 3 line 1: error 18 LeftOut
>>> seq\n GOTOS\nEND\n<<< 3 line 1: error 5 Syntax
>>> seq\n GO X\nEND\n<<< 3 line 1: error 18 LeftOut
>>> seq\n GOS\nEND\n<<< 3 line 1: error 5 Syntax
>>> seq\n ASSIGN X\nEND\n<<< 3 line 1: error 18 LeftOut
>>> seq\n ASSIGNS\nEND\n<<< 3 line 1: error 5 Syntax
>>> seq\n WRITE X\nEND\n<<< 3 line 1: error 18 LeftOut
>>> seq\n WRITES\nEND\n<<< 3 line 1: error 5 Syntax
>>> seq\n FORMAT X\nEND\n<<< 3 line 1: error 18 LeftOut
>>> seq\n FORMATS\nEND\n<<< 3 line 1: error 5 Syntax
>>> seq\n OPEN X\nEND\n<<< 3 line 1: error 18 LeftOut
>>> seq\n OPENS\nEND\n<<< 3 line 1: error 5 Syntax
>>> seq\n CLOSE X\nEND\n<<< 3 line 1: error 18 LeftOut
>>> seq\n CLOSES\nEND\n<<< 3 line 1: error 5 Syntax
>>> seq\n INQUIRE X\nEND\n<<< 3 line 1: error 18 LeftOut
>>> seq\n INQUIRES\nEND\n<<< 3 line 1: error 5 Syntax
>>> seq\n REWIND X\nEND\n<<< 3 line 1: error 18 LeftOut
>>> seq\n REWINDS\nEND\n<<< 3 line 1: error 5 Syntax
>>> seq\n BACKSPACE X\nEND\n<<< 3 line 1: error 18 LeftOut
>>> seq\n BACKSPACES\nEND\n<<< 3 line 1: error 5 Syntax
>>> seq\n ENDFILE X\nEND\n<<< 3 line 1: error 18 LeftOut
>>> seq\n ENDFILES\nEND\n<<< 3 line 1: error 5 Syntax
>>> seq\n EXIT X\nEND\n<<< 3 line 1: error 18 LeftOut
>>> seq\n EXITS\nEND\n<<< 3 line 1: error 5 Syntax
>>> seq\n CYCLE X\nEND\n<<< 3 line 1: error 18 LeftOut
>>> seq\n CYCLES\nEND\n<<< 3 line 1: error 5 Syntax
>>> seq\n SELECT X\nEND\n<<< 3 line 1: error 18 LeftOut
>>> seq\n SELECTS\nEND\n<<< 3 line 1: error 5 Syntax
>>> seq\n FORALL X\nEND\n<<< 3 line 1: error 18 LeftOut
>>> seq\n FORALLS\nEND\n<<< 3 line 1: error 5 Syntax
";

#[test]
fn words_are_left_out(rt: HostRuntime) -> Result<(), Fail> {
    hold(&rt, rt.alloc(), LEFT_OUT)
}

// Statements and parentheses 32 deep, and 33.
const NESTED: &str = ">>> seq\n{32|DO I% = 1, 0\n}{32|ENDDO\n}END\n<<< 0
>>> seq\n{33|DO I = 1, 2\n}{33|ENDDO\n}END\n<<< 3 line 33: error 15 TooDeep
>>> seq\n{33|DO WHILE (1 < 2)\n}{33|ENDDO\n}END\n<<< 3 line 33: error 15 TooDeep
>>> seq: a logical IF is a level of its own\n{31|DO I% = 1, 1\n}IF (1 < 2) PRINT *, I31\n{31|ENDDO\n}END\n<<< 0\n1
>>> seq\n{32|DO I = 1, 2\n}IF (1 < 2) K = 1\n{32|ENDDO\n}END\n<<< 3 line 33: error 15 TooDeep
>>> seq\n{32|DO I% = 1, 1\n}PRINT *, I32\n{32|ENDDO\n}END\n<<< 0\n1
>>> seq: so is an ELSE IF\n{16|IF (1 > 2) THEN\nELSE IF (1 < 2) THEN\n}PRINT *, 1\n{16|ENDIF\n}END\n<<< 0\n1
>>> seq\n{17|IF (1 < 2) THEN\nELSE IF (1 < 2) THEN\n}{17|ENDIF\n}END\n<<< 3 line 33: error 15 TooDeep
>>> seq: what can't stand there is no level\n{32|DO I = 1, 2\n}ELSE IF (1 < 2) THEN\n{32|ENDDO\n}END\n<<< 3 line 33: error 5 Syntax
>>> seq: parentheses\n{32|(}K) = 1\nEND\n<<< 3 line 1: error 5 Syntax
>>> seq\n{33|(}K) = 1\nEND\n<<< 3 line 1: error 15 TooDeep
>>> seq\n{32|A(}1{32|)}\nEND\n<<< 3 line 1: error 5 Syntax
>>> seq: what is too deep is told before what is left out, and that before what is no line\n{33|(}2**3{33|)}\nEND\n<<< 3 line 1: error 15 TooDeep
>>> seq\n{32|(}2**3{32|)}\nEND\n<<< 3 line 1: error 18 LeftOut
>>> seq\n{33|IF (1 < 2) THEN\n}K = 2**3\n{33|ENDIF\n}END\n<<< 3 line 33: error 15 TooDeep
>>> seq\nK = {32|(}1{32|)}\nIF (1 < 2) THEN\nPRINT *, K\nENDIF\nEND\n<<< 0\n1
>>> seq\nK = {33|(}1{33|)}\nIF (1 < 2) THEN\nENDIF\nEND\n<<< 3 line 1: error 15 TooDeep
>>> seq\nIF ({32|(}1{32|)} < 2) THEN\nPRINT *, 1\nENDIF\nEND\n<<< 0\n1
>>> seq\nIF ({33|(}1{33|)} < 2) THEN\nENDIF\nEND\n<<< 3 line 1: error 15 TooDeep
>>> seq\nIF (1 < 2) THEN\nPRINT *, {32|(}1{32|)}\nENDIF\nEND\n<<< 0\n1
>>> seq\nIF (1 < 2) THEN\nPRINT *, {33|(}1{33|)}\nENDIF\nEND\n<<< 3 line 2: error 15 TooDeep
>>> seq: behind the group of an IF no parentheses are the line's own\nIF (1 < 2) THEN\nIF (1 < 2) K = {32|(}1{32|)}\nPRINT *, K\nENDIF\nEND\n<<< 0\n1
>>> seq\nIF (1 < 2) THEN\nIF (1 < 2) K = {33|(}1{33|)}\nENDIF\nEND\n<<< 3 line 2: error 15 TooDeep
>>> seq: declarations have parentheses of their own, one, and a DISTRIBUTE two\nPARAMETER (N = {32|(}1{32|)})\nIF (1 < 2) THEN\nPRINT *, N\nENDIF\nEND\n<<< 0\n1
>>> seq\nPARAMETER (N = {33|(}1{33|)})\nIF (1 < 2) THEN\nENDIF\nEND\n<<< 3 line 1: error 15 TooDeep
>>> seq\nINTEGER A({32|(}1{32|)})\nIF (1 < 2) THEN\nPRINT *, A(1)\nENDIF\nEND\n<<< 0\n0
>>> seq\nINTEGER A({33|(}1{33|)})\nIF (1 < 2) THEN\nENDIF\nEND\n<<< 3 line 1: error 15 TooDeep
>>> map --ranks 2\nINTEGER D(2)\nDISTRIBUTE D(BLOCK_CYCLIC({32|(}1{32|)}))\nIF (1 < 2) THEN\nENDIF\nEND\n<<< 0\nD(1) 0 0\nD(2) 1 0
>>> seq\nINTEGER D(2)\nDISTRIBUTE D(BLOCK_CYCLIC({33|(}1{33|)}))\nIF (1 < 2) THEN\nENDIF\nEND\n<<< 3 line 2: error 15 TooDeep
>>> seq: so on lines that are none of the grammar too\nPARAMETER {33|(}1{33|)}\nENDIF\nEND\n<<< 3 line 1: error 5 Syntax
>>> seq\nPARAMETER {34|(}1{34|)}\nENDIF\nEND\n<<< 3 line 1: error 15 TooDeep
>>> seq\nINTEGER A {33|(}1{33|)}K\nENDIF\nEND\n<<< 3 line 1: error 5 Syntax
>>> seq\nINTEGER A {34|(}1{34|)}K\nENDIF\nEND\n<<< 3 line 1: error 15 TooDeep
>>> seq\nDECOMPOSITION {33|(}1{33|)}\nENDIF\nEND\n<<< 3 line 1: error 5 Syntax
>>> seq\nDECOMPOSITION {34|(}1{34|)}\nENDIF\nEND\n<<< 3 line 1: error 15 TooDeep
>>> seq\nALIGN {33|(}1{33|)}\nENDIF\nEND\n<<< 3 line 1: error 5 Syntax
>>> seq\nALIGN {34|(}1{34|)}\nENDIF\nEND\n<<< 3 line 1: error 15 TooDeep
>>> seq\nDISTRIBUTE {34|(}1{34|)}\nENDIF\nEND\n<<< 3 line 1: error 5 Syntax
>>> seq\nDISTRIBUTE {35|(}1{35|)}\nENDIF\nEND\n<<< 3 line 1: error 15 TooDeep
";

#[test]
fn nesting_ends_at_level_32(rt: HostRuntime) -> Result<(), Fail> {
    hold(&rt, rt.alloc(), NESTED)
}

// The longest lines: 2,047 terms, 2,044 targets, 2,044 arguments and 584 comparisons.
const LONG: &str = ">>> seq\n K=1{2046|+1}\nPRINT *, K\nEND\n<<< 0\n2047
>>> seq\n K=1{2047|+1}\nEND\n<<< 3 line 1: error 2 LineTooLong
>>> seq\n READ *,L{2043|,M}\nPRINT *, L, M\nEND\n{2044| %}<<< 0\n1 2044
>>> seq\n READ *,L{2043|,M},\nEND\n<<< 3 line 1: error 5 Syntax
>>> seq\n K=MAX(1{2043|,2})\nPRINT *, K\nEND\n<<< 0\n2
>>> seq\n K=MAX(1{2043|,2},\nEND\n<<< 3 line 1: error 5 Syntax
>>> seq\n L=1\n IF(L<1{583|.OR.L<2}) K=1\nPRINT *, K\nEND\n<<< 0\n1
>>> seq\n IF(L<1{582|.OR.L<2}.OR.) K=1\nEND\n<<< 3 line 1: error 5 Syntax
";

#[test]
fn the_longest_lines_are_read(rt: HostRuntime) -> Result<(), Fail> {
    hold(&rt, rt.alloc(), LONG)
}
