// Programs with distributed arrays: who owns what, what is refused, and how they run in sequence.
use crate::rows::script::hold;
use std::alloc::Global;
use std::process::Abort;
use std::test::Fail;

// What is printed: an element, its owner, and its number among the owner's.
const TABLES: &str =
    ">>> map --ranks 2\nINTEGER A(4), B(7)\nDECOMPOSITION D(5), E(8)\nALIGN A(I) WITH D(I+1)\nALIGN B(I) WITH E(I+1)\nDISTRIBUTE D(CYCLIC)\nDISTRIBUTE E(BLOCK_CYCLIC(3))\nEND\n<<< 0\nA(1) 1 0\nA(2) 0 0\nA(3) 1 1\nA(4) 0 1\nB(1) 0 0\nB(2) 0 1\nB(3) 1 0\nB(4) 1 1\nB(5) 1 2\nB(6) 0 2\nB(7) 0 3
>>> map --ranks 2\nINTEGER A(2,4)\nDISTRIBUTE A(:,BLOCK)\nEND\n<<< 0\nA(1,1) 0 0\nA(2,1) 0 1\nA(1,2) 0 2\nA(2,2) 0 3\nA(1,3) 1 0\nA(2,3) 1 1\nA(1,4) 1 2\nA(2,4) 1 3
>>> map --ranks 2\nINTEGER A(2,3)\nDISTRIBUTE A(BLOCK,:)\nEND\n<<< 0\nA(1,1) 0 0\nA(2,1) 1 0\nA(1,2) 0 1\nA(2,2) 1 1\nA(1,3) 0 2\nA(2,3) 1 2
>>> map: Four ranks where the words don't say how many: blocks of three, and one element is left for the last\nINTEGER A(10)\nDISTRIBUTE A(BLOCK)\nEND\n<<< 0\nA(1) 0 0\nA(2) 0 1\nA(3) 0 2\nA(4) 1 0\nA(5) 1 1\nA(6) 1 2\nA(7) 2 0\nA(8) 2 1\nA(9) 2 2\nA(10) 3 0
>>> map --ranks=3\nINTEGER A(5)\nDISTRIBUTE A(CYCLIC)\nEND\n<<< 0\nA(1) 0 0\nA(2) 1 0\nA(3) 2 0\nA(4) 0 1\nA(5) 1 1
>>> --ranks 2 map\nINTEGER A(7)\nDISTRIBUTE A(BLOCK_CYCLIC(2))\nEND\n<<< 0\nA(1) 0 0\nA(2) 0 1\nA(3) 1 0\nA(4) 1 1\nA(5) 0 2\nA(6) 0 3\nA(7) 1 2
>>> map --ranks 1: One rank, and more ranks than elements\nINTEGER A(2)\nDISTRIBUTE A(CYCLIC)\nEND\n<<< 0\nA(1) 0 0\nA(2) 0 1
>>> map --ranks 16\nINTEGER A(3)\nDISTRIBUTE A(BLOCK)\nEND\n<<< 0\nA(1) 0 0\nA(2) 1 0\nA(3) 2 0
>>> map --ranks 2: Lower bounds, of the array and of the decomposition\nINTEGER A(-1:1)\nDISTRIBUTE A(CYCLIC)\nEND\n<<< 0\nA(-1) 0 0\nA(0) 1 0\nA(1) 0 1
>>> map --ranks 2\nINTEGER A(0:1,-2:-1)\nDISTRIBUTE A(:,CYCLIC)\nEND\n<<< 0\nA(0,-2) 0 0\nA(1,-2) 0 1\nA(0,-1) 1 0\nA(1,-1) 1 1
>>> map --ranks 2\nINTEGER A(3)\nDECOMPOSITION D(-1:4)\nALIGN A(I) WITH D(I-2)\nDISTRIBUTE D(BLOCK_CYCLIC(2))\nEND\n<<< 0\nA(1) 0 0\nA(2) 0 1\nA(3) 1 0
>>> map --ranks 4: Aligned at one position, and with its dimensions exchanged\nINTEGER A(2)\nDECOMPOSITION D(4,4)\nALIGN A(I) WITH D(I,3)\nDISTRIBUTE D(:,BLOCK)\nEND\n<<< 0\nA(1) 2 0\nA(2) 2 1
>>> map --ranks 2\nINTEGER A(2,2)\nDECOMPOSITION D(2,2)\nALIGN A(I,J) WITH D(J,I)\nDISTRIBUTE D(BLOCK,:)\nEND\n<<< 0\nA(1,1) 0 0\nA(2,1) 0 1\nA(1,2) 1 0\nA(2,2) 1 1
>>> map --ranks 3: One dummy with an offset, and one that stands in no target: A(I,J) lies at D(J+1,2), whose position is J\nINTEGER A(2,2)\nDECOMPOSITION D(3,2)\nALIGN A(I,J) WITH D(J+1,2)\nDISTRIBUTE D(CYCLIC,:)\nEND\n<<< 0\nA(1,1) 1 0\nA(2,1) 1 1\nA(1,2) 2 0\nA(2,2) 2 1
>>> map --ranks 2\nINTEGER A(2)\nDECOMPOSITION D(2)\nALIGN A WITH D\nDISTRIBUTE D(BLOCK)\nEND\n<<< 0\nA(1) 0 0\nA(2) 1 0
>>> map: Arrays in the order of their declaration, without those that every rank has whole\nINTEGER B(1), C(2), A(1)\nDISTRIBUTE A(BLOCK)\nDISTRIBUTE B(BLOCK)\nEND\n<<< 0\nB(1) 0 0\nA(1) 0 0
>>> map\nINTEGER A(2)\nDECOMPOSITION D(2)\nALIGN A(I) WITH D(I)\nEND\n<<< 0
>>> map: Nothing runs, and what stands behind the END line isn't read as numbers\nINTEGER A(1)\nDISTRIBUTE A(BLOCK)\nA(1) = 1/0\nEND\n12x\n<<< 0\nA(1) 0 0
>>> seq: In sequence a distributed array is an array as any other\nINTEGER A(8), B(8)\nDECOMPOSITION D(8)\nALIGN A(I) WITH D(I)\nALIGN B(I) WITH D(I)\nDISTRIBUTE D(BLOCK)\nDO I = 1, 8\nA(I) = I\nENDDO\nDO I = 2, 8\nB(I) = A(I-1)\nENDDO\nPRINT *, B(8)\nEND\n<<< 0\n7
";

#[test]
fn who_owns_what_is_told(rt: HostRuntime) -> Result<(), Fail> {
    hold(&rt, rt.alloc(), TABLES)
}

// Decks that each mode refuses.
const REFUSED: &str = ">>> MODE\n<<< 3 line 1: error 17 NoEnd
>>> MODE\nINTEGER A(4)\nDECOMPOSITION D(4)\nALIGN A(I) WITH D(I+1)\nEND\n<<< 3 line 3: error 12 AlignBad
>>> MODE\nINTEGER A(4,4)\nDECOMPOSITION D(4,4)\nALIGN A(I,J) WITH D(I,I)\nEND\n<<< 3 line 3: error 12 AlignBad
>>> MODE: By a map array\nINTEGER M(4)\nDECOMPOSITION D(4)\nDISTRIBUTE D(M)\nEND\n<<< 3 line 3: error 18 LeftOut
>>> MODE: A DISTRIBUTE by a map array distributes for the lines before it too: without it line 1 has 65,540 replicated elements\nINTEGER X(16385), Y(16385), IA(16385), IB(16385)\nDECOMPOSITION D(16385)\nALIGN X(I) WITH D(I)\nALIGN Y(I) WITH D(I)\nDISTRIBUTE D(IA)\nEND\n<<< 3 line 5: error 18 LeftOut
>>> MODE\nINTEGER A(4)\nDISTRIBUTE A(BLOCK)\nDISTRIBUTE A(CYCLIC)\nEND\n<<< 3 line 3: error 13 DistributeBad
>>> MODE\nINTEGER A(4,4)\nDISTRIBUTE A(BLOCK,CYCLIC)\nEND\n<<< 3 line 2: error 13 DistributeBad
>>> MODE\nINTEGER A(4,4)\nDISTRIBUTE A(:,:)\nEND\n<<< 3 line 2: error 13 DistributeBad
>>> MODE\nINTEGER X(4), Y(4), IB(4)\nDISTRIBUTE X(BLOCK)\nDISTRIBUTE Y(BLOCK)\nDISTRIBUTE IB(CYCLIC)\nDO I = 1, 4\nY(I) = X(IB(I))\nENDDO\nEND\n<<< 3 line 6: error 14 IndexNotLocal
>>> MODE\nINTEGER A(4), IB(4)\nDISTRIBUTE A(BLOCK)\nDISTRIBUTE IB(BLOCK)\nA(IB(1)) = 1\nEND\n<<< 3 line 4: error 14 IndexNotLocal
>>> MODE\nINTEGER A(4)\nDISTRIBUTE A(BLOCK)\nK = A(I1+I2+I3+I4+I5+I6+I7+I8+I9+I10+I11+I12+I13+I14+I15+I16+I17)\nEND\n<<< 3 line 3: error 16 TooMany Terms
>>> MODE\nINTEGER A(4)\nDISTRIBUTE A(BLOCK)\nK = A(3000000000*I)\nEND\n<<< 3 line 3: error 16 TooMany Coefficient
>>> MODE\nINTEGER A(262144), B(1)\nDISTRIBUTE A(BLOCK)\nDISTRIBUTE B(BLOCK)\nEND\n<<< 3 line 1: error 16 TooMany Distributed
";

// Runs that table in one mode.
fn refuse(rt: &impl Abort, alloc: Global, mode: &str) -> Result<(), Fail> {
    let table = REFUSED.replace(alloc, "MODE", mode)?;
    hold(rt, alloc, table.as_str())
}

#[test]
fn mappings_are_refused(rt: HostRuntime) -> Result<(), Fail> {
    refuse(&rt, rt.alloc(), "map")?;
    refuse(&rt, rt.alloc(), "seq")?;
    refuse(&rt, rt.alloc(), "plan")?;
    refuse(&rt, rt.alloc(), "check")
}
