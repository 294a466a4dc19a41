// What mappings say, and which are refused.
use crate::rows::script::hold;
use std::test::Fail;

// Alignments: where the elements lie, and what is refused.
const ALIGNED: &str =
    ">>> map --ranks 5\nINTEGER A(4)\nDECOMPOSITION D(5)\nALIGN A(I) WITH D(I+1)\nDISTRIBUTE D(BLOCK)\nEND\n<<< 0\nA(1) 1 0\nA(2) 2 0\nA(3) 3 0\nA(4) 4 0
>>> plan: twice\nINTEGER A(4)\nDECOMPOSITION D(5)\nALIGN A(I) WITH D(I)\nALIGN A(I) WITH D(I)\nEND\n<<< 3 line 4: error 12 AlignBad
>>> map --ranks 5\nINTEGER A(4)\nDECOMPOSITION D(5)\nALIGN A WITH D\nDISTRIBUTE D(BLOCK)\nEND\n<<< 0\nA(1) 0 0\nA(2) 1 0\nA(3) 2 0\nA(4) 3 0
>>> plan\nINTEGER A(4)\nDECOMPOSITION D(3)\nALIGN A WITH D\nEND\n<<< 3 line 3: error 12 AlignBad
>>> map --ranks 2\nINTEGER A(2,2)\nDECOMPOSITION D(2,2)\nALIGN A(I,J) WITH D(I,J)\nDISTRIBUTE D(:,BLOCK)\nEND\n<<< 0\nA(1,1) 0 0\nA(2,1) 0 1\nA(1,2) 1 0\nA(2,2) 1 1
>>> plan: a dummy twice, among the dummies and in the targets\nINTEGER A(2,2)\nDECOMPOSITION D(2,2)\nALIGN A(I,I) WITH D(I,1)\nEND\n<<< 3 line 3: error 12 AlignBad
>>> plan\nINTEGER A(2,2)\nDECOMPOSITION D(2,2)\nALIGN A(I,J) WITH D(I,I)\nEND\n<<< 3 line 3: error 12 AlignBad
>>> plan: targets that are none\nINTEGER A(4)\nDECOMPOSITION D(5)\nALIGN A(I) WITH D(1+I)\nEND\n<<< 3 line 3: error 12 AlignBad
>>> plan\nINTEGER A(4)\nDECOMPOSITION D(5)\nALIGN A(I) WITH D(I+1+1)\nEND\n<<< 3 line 3: error 12 AlignBad
>>> plan\nINTEGER A(4)\nDECOMPOSITION D(5)\nALIGN A(I) WITH D(K)\nEND\n<<< 3 line 3: error 12 AlignBad
>>> plan\nINTEGER A(4)\nDECOMPOSITION D(5)\nALIGN A(I) WITH D(6)\nEND\n<<< 3 line 3: error 12 AlignBad
>>> plan\nINTEGER A(4)\nDECOMPOSITION D(5)\nALIGN A(I) WITH D(2*I)\nEND\n<<< 3 line 3: error 12 AlignBad
>>> map --ranks 5: the dummy stands in no target\nINTEGER A(4)\nDECOMPOSITION D(5)\nALIGN A(I) WITH D(5)\nDISTRIBUTE D(BLOCK)\nEND\n<<< 0\nA(1) 4 0\nA(2) 4 1\nA(3) 4 2\nA(4) 4 3
>>> map --ranks 2\nINTEGER A(4), B(0:3)\nDECOMPOSITION D(5)\nALIGN A(I) WITH D(I+1)\nDISTRIBUTE D(CYCLIC)\nDISTRIBUTE B(BLOCK_CYCLIC(3))\nEND\n<<< 0\nA(1) 1 0\nA(2) 0 0\nA(3) 1 1\nA(4) 0 1\nB(0) 0 0\nB(1) 0 1\nB(2) 0 2\nB(3) 1 0
";

#[test]
fn arrays_lie_where_they_are_aligned(rt: HostRuntime) -> Result<(), Fail> {
    hold(&rt, rt.alloc(), ALIGNED)
}

// Distributions that are refused, and block sizes.
const DISTRIBUTED: &str =
    ">>> plan: twice\nINTEGER A(4)\nDECOMPOSITION D(4)\nDISTRIBUTE A(BLOCK)\nDISTRIBUTE A(CYCLIC)\nEND\n<<< 3 line 4: error 13 DistributeBad
>>> plan\nINTEGER A(4)\nDECOMPOSITION D(4)\nDISTRIBUTE D(BLOCK)\nDISTRIBUTE D(CYCLIC)\nEND\n<<< 3 line 4: error 13 DistributeBad
>>> plan: of no dimension\nINTEGER A(4)\nDECOMPOSITION D(4)\nDISTRIBUTE D(:)\nEND\n<<< 3 line 3: error 13 DistributeBad
>>> plan: of two\nINTEGER A(2,2)\nDECOMPOSITION D(2,2)\nDISTRIBUTE D(BLOCK,CYCLIC)\nEND\n<<< 3 line 3: error 13 DistributeBad
>>> plan: with a wrong count of attributes\nINTEGER A(2,2)\nDECOMPOSITION D(2,2)\nDISTRIBUTE A(BLOCK)\nEND\n<<< 3 line 3: error 13 DistributeBad
>>> plan: an array that is aligned\nINTEGER A(4)\nDECOMPOSITION D(4)\nALIGN A(I) WITH D(I)\nDISTRIBUTE A(BLOCK)\nEND\n<<< 3 line 4: error 13 DistributeBad
>>> plan\nINTEGER A(4)\nDECOMPOSITION D(4)\nDISTRIBUTE D(BLOCK_CYCLIC(0))\nEND\n<<< 3 line 3: error 13 DistributeBad
>>> map --ranks 2\nINTEGER A(4)\nDECOMPOSITION D(4)\nALIGN A WITH D\nDISTRIBUTE D(BLOCK_CYCLIC(1))\nEND\n<<< 0\nA(1) 0 0\nA(2) 1 0\nA(3) 0 1\nA(4) 1 1
>>> map --ranks 2\nINTEGER A(4)\nDECOMPOSITION D(4)\nALIGN A WITH D\nDISTRIBUTE D(BLOCK_CYCLIC(262144))\nEND\n<<< 0\nA(1) 0 0\nA(2) 0 1\nA(3) 0 2\nA(4) 0 3
>>> plan\nINTEGER A(4)\nDECOMPOSITION D(4)\nDISTRIBUTE D(BLOCK_CYCLIC(262145))\nEND\n<<< 3 line 3: error 13 DistributeBad
>>> plan\nINTEGER A(4)\nDECOMPOSITION D(4)\nDISTRIBUTE D(BLOCK_CYCLIC(K))\nEND\n<<< 3 line 3: error 9 NotConstant
";

#[test]
fn distributions_are_refused(rt: HostRuntime) -> Result<(), Fail> {
    hold(&rt, rt.alloc(), DISTRIBUTED)
}

// Decompositions, map arrays and distributed arrays in statements.
const STATEMENTS: &str =
    ">>> plan: a decomposition has no elements\nINTEGER A(4)\nDECOMPOSITION D(4)\nK = D\nEND\n<<< 3 line 3: error 8 WrongShape
>>> plan\nINTEGER A(4)\nDECOMPOSITION D(4)\nK = D(1)\nEND\n<<< 3 line 3: error 6 NotDeclared
>>> plan\nINTEGER A(4)\nDECOMPOSITION D(4)\nD = 1\nEND\n<<< 3 line 3: error 8 WrongShape
>>> plan\nINTEGER A(4)\nDECOMPOSITION D(4)\nD(1) = 1\nEND\n<<< 3 line 3: error 8 WrongShape
>>> plan\nINTEGER A(4)\nDECOMPOSITION D(4)\nDO D = 1, 2\n CONTINUE\nENDDO\nEND\n<<< 3 line 3: error 8 WrongShape
>>> plan: by a map, which distributes for the lines before it too\nINTEGER A(65536)\nINTEGER B(1)\nDECOMPOSITION D(65536)\nALIGN A(I) WITH D(I)\nDISTRIBUTE D(M)\nEND\n<<< 3 line 5: error 18 LeftOut
>>> plan\nINTEGER A(65536)\nINTEGER B(1)\nDECOMPOSITION D(65536)\nDISTRIBUTE A(M)\nEND\n<<< 3 line 4: error 18 LeftOut
>>> plan\nINTEGER A(65536)\nINTEGER B(1)\nDECOMPOSITION D(65536)\nDO K = 1, 2\nDISTRIBUTE A(M)\nENDDO\nEND\n<<< 3 line 5: error 18 LeftOut
>>> plan: but not an array that is aligned\nINTEGER A(65536)\nINTEGER B(1)\nDECOMPOSITION D(65536)\nALIGN A(I) WITH D(I)\nDISTRIBUTE A(M)\nEND\n<<< 3 line 2: error 16 TooMany Replicated
>>> plan\nINTEGER A(65536)\nINTEGER B(1)\nDECOMPOSITION D(65536)\nK = A(A(1))\nDISTRIBUTE A(M)\nEND\n<<< 3 line 4: error 14 IndexNotLocal
>>> plan\nINTEGER A(4), B(4)\nDISTRIBUTE A(BLOCK)\nDISTRIBUTE B(CYCLIC)\nK = A(B(1))\nEND\n<<< 3 line 4: error 14 IndexNotLocal
>>> plan\nINTEGER A(4), B(4)\nDISTRIBUTE A(BLOCK)\nDISTRIBUTE B(CYCLIC)\nA(B(1)) = 1\nEND\n<<< 3 line 4: error 14 IndexNotLocal
>>> seq: B is whole on each rank\nINTEGER A(4), B(4)\nDISTRIBUTE A(BLOCK)\nB(1) = 2\nA(2) = 7\nK = A(B(1))\nPRINT *, K\nEND\n<<< 0\n7
";

#[test]
fn statements_are_refused_by_mappings(rt: HostRuntime) -> Result<(), Fail> {
    hold(&rt, rt.alloc(), STATEMENTS)
}

// The limits of distributed arrays, and one more.
const LIMITS: &str =
    ">>> seq\nINTEGER A(1)\nINTEGER B(262143)\nDISTRIBUTE A(BLOCK)\nDISTRIBUTE B(BLOCK)\nB(262143) = 5\nPRINT *, B(262143)\nEND\n<<< 0\n5
>>> plan\nINTEGER A(1)\nINTEGER B(262144)\nDISTRIBUTE A(BLOCK)\nDISTRIBUTE B(BLOCK)\nEND\n<<< 3 line 2: error 16 TooMany Distributed
>>> seq\nINTEGER A(0:3), B(0:3)\nDISTRIBUTE A(BLOCK)\nDISTRIBUTE B(CYCLIC)\nI16 = 3\nA(3) = 8\nK = A(I1+I2+I3+I4+I5+I6+I7+I8+I9+I10+I11+I12+I13+I14+I15+I16)\nPRINT *, K\nEND\n<<< 0\n8
>>> plan\nINTEGER A(0:3), B(0:3)\nDISTRIBUTE A(BLOCK)\nDISTRIBUTE B(CYCLIC)\nK = A(I1+I2+I3+I4+I5+I6+I7+I8+I9+I10+I11+I12+I13+I14+I15+I16+I17)\nEND\n<<< 3 line 4: error 16 TooMany Terms
>>> seq\nINTEGER A(0:3), B(0:3)\nDISTRIBUTE A(BLOCK)\nDISTRIBUTE B(CYCLIC)\nA(0) = 8\nK = A(2147483648*I)\nPRINT *, K\nEND\n<<< 0\n8
>>> plan\nINTEGER A(0:3), B(0:3)\nDISTRIBUTE A(BLOCK)\nDISTRIBUTE B(CYCLIC)\nK = A(2147483649*I)\nEND\n<<< 3 line 4: error 16 TooMany Coefficient
";

#[test]
fn limits_of_distributed_arrays_are_kept(rt: HostRuntime) -> Result<(), Fail> {
    hold(&rt, rt.alloc(), LIMITS)
}

// A decomposition is a name, and so is that of a distributed array: behind 16,384 there is no other.
const DECOMPOSITIONS: &str =
    ">>> seq\n{16385|DECOMPOSITION D%(1)\n}END\n<<< 3 line 16385: error 16 TooMany Names
>>> seq: past 65,536 each still has a number of its own: D16385 is the last of 65,540, D16384 the last of 65,536\nINTEGER X(70000)\n{16385|DECOMPOSITION A%(1), B%(1), C%(1), D%(1)\n}ALIGN X WITH D16385\nDISTRIBUTE D16384(BLOCK)\nEND\n<<< 3 line 1: error 16 TooMany Replicated
";

#[test]
fn decompositions_are_names(rt: HostRuntime) -> Result<(), Fail> {
    hold(&rt, rt.alloc(), DECOMPOSITIONS)
}

// The last of 65,540 is itself distributed, so that the names are too many.
const LAST_DECOMPOSITION: &str =
    ">>> seq\nINTEGER X(70000)\n{16385|DECOMPOSITION A%(1), B%(1), C%(1), D%(1)\n}ALIGN X WITH D16385\nDISTRIBUTE D16385(BLOCK)\nEND\n<<< 3 line 4098: error 16 TooMany Names
";

#[test]
fn the_last_decomposition_is_a_name(rt: HostRuntime) -> Result<(), Fail> {
    hold(&rt, rt.alloc(), LAST_DECOMPOSITION)
}

// With the name of a distributed array they are one too many.
const DISTRIBUTED_ARRAYS: &str =
    ">>> seq\n{16384|DECOMPOSITION D%(1)\n}INTEGER A(4)\nDISTRIBUTE A(BLOCK)\nEND\n<<< 3 line 16386: error 16 TooMany Names
";

#[test]
fn distributed_arrays_have_names_for_decompositions(rt: HostRuntime) -> Result<(), Fail> {
    hold(&rt, rt.alloc(), DISTRIBUTED_ARRAYS)
}
