// Homes of statements, and owners of elements, worked by hand.
use crate::rows::script::hold;
use std::test::Fail;

// Where each kind of statement needs what it reads.
const HOMES: &str =
    ">>> map --ranks 4: An array that lies one place further on in its decomposition\nINTEGER A(8)\nDECOMPOSITION D(0:8)\nALIGN A(I) WITH D(I)\nDISTRIBUTE D(BLOCK)\nEND\n<<< 0\nA(1) 0 0\nA(2) 0 1\nA(3) 1 0\nA(4) 1 1\nA(5) 1 2\nA(6) 2 0\nA(7) 2 1\nA(8) 2 2
>>> plan: The home of an assignment is that of its target\nINTEGER A(8), C(8), K\nDECOMPOSITION D(0:8)\nALIGN A(I) WITH D(I)\nDISTRIBUTE D(BLOCK)\nDISTRIBUTE C(BLOCK)\nA(I) = C(1)\nEND\n<<< 0\nitems 1\nitem 1 C(1) at D(I)\nplaces 2\nnode 0 line 0 in send 1\nnode 1 line 6 in recv 1\nhoists 0
>>> plan: All ranks assign to a scalar\nINTEGER A(8), C(8), K\nDECOMPOSITION D(0:8)\nALIGN A(I) WITH D(I)\nDISTRIBUTE D(BLOCK)\nDISTRIBUTE C(BLOCK)\nK = C(1)\nEND\n<<< 0\nitems 1\nitem 1 C(1) at all\nplaces 2\nnode 0 line 0 in send 1\nnode 1 line 6 in recv 1\nhoists 0
>>> plan: The first rank prints\nINTEGER A(8), C(8), K\nDECOMPOSITION D(0:8)\nALIGN A(I) WITH D(I)\nDISTRIBUTE D(BLOCK)\nDISTRIBUTE C(BLOCK)\nPRINT *, C(1)\nEND\n<<< 0\nitems 1\nitem 1 C(1) at root\nplaces 2\nnode 0 line 0 in send 1\nnode 1 line 6 in recv 1\nhoists 0
>>> plan: The home in a loop over the variable\nINTEGER A(8), C(8), K\nDECOMPOSITION D(0:8)\nALIGN A(I) WITH D(I)\nDISTRIBUTE D(BLOCK)\nDISTRIBUTE C(BLOCK)\nDO I = 1, 8\nA(I) = C(1)\nENDDO\nEND\n<<< 0\nitems 1\nitem 1 C(1) do 1,8,1 at D($1)\nplaces 2\nnode 0 line 0 in send 1\nnode 1 line 6 in recv 1\nhoists 1\nhoist node 1 line 6 item 1
>>> plan: The location of an element is its place in the decomposition: this one is local\nINTEGER A(8), C(8), K\nDECOMPOSITION D(0:8)\nALIGN A(I) WITH D(I)\nDISTRIBUTE D(BLOCK)\nDISTRIBUTE C(BLOCK)\nA(I) = A(I) + 1\nEND\n<<< 0\nitems 0\nplaces 0\nhoists 0
";

// Ten elements over one, three, four and sixteen ranks.
const TENS: &str =
    ">>> map --ranks 1\nINTEGER A(10)\nDISTRIBUTE A(BLOCK)\nEND\n<<< 0\nA(1) 0 0\nA(2) 0 1\nA(3) 0 2\nA(4) 0 3\nA(5) 0 4\nA(6) 0 5\nA(7) 0 6\nA(8) 0 7\nA(9) 0 8\nA(10) 0 9
>>> map --ranks 3\nINTEGER A(10)\nDISTRIBUTE A(BLOCK)\nEND\n<<< 0\nA(1) 0 0\nA(2) 0 1\nA(3) 0 2\nA(4) 0 3\nA(5) 1 0\nA(6) 1 1\nA(7) 1 2\nA(8) 1 3\nA(9) 2 0\nA(10) 2 1
>>> map --ranks 16\nINTEGER A(10)\nDISTRIBUTE A(BLOCK)\nEND\n<<< 0\nA(1) 0 0\nA(2) 1 0\nA(3) 2 0\nA(4) 3 0\nA(5) 4 0\nA(6) 5 0\nA(7) 6 0\nA(8) 7 0\nA(9) 8 0\nA(10) 9 0
>>> map --ranks 1\nINTEGER A(10)\nDISTRIBUTE A(CYCLIC)\nEND\n<<< 0\nA(1) 0 0\nA(2) 0 1\nA(3) 0 2\nA(4) 0 3\nA(5) 0 4\nA(6) 0 5\nA(7) 0 6\nA(8) 0 7\nA(9) 0 8\nA(10) 0 9
>>> map --ranks 3\nINTEGER A(10)\nDISTRIBUTE A(CYCLIC)\nEND\n<<< 0\nA(1) 0 0\nA(2) 1 0\nA(3) 2 0\nA(4) 0 1\nA(5) 1 1\nA(6) 2 1\nA(7) 0 2\nA(8) 1 2\nA(9) 2 2\nA(10) 0 3
>>> map --ranks 4\nINTEGER A(10)\nDISTRIBUTE A(CYCLIC)\nEND\n<<< 0\nA(1) 0 0\nA(2) 1 0\nA(3) 2 0\nA(4) 3 0\nA(5) 0 1\nA(6) 1 1\nA(7) 2 1\nA(8) 3 1\nA(9) 0 2\nA(10) 1 2
>>> map --ranks 16\nINTEGER A(10)\nDISTRIBUTE A(CYCLIC)\nEND\n<<< 0\nA(1) 0 0\nA(2) 1 0\nA(3) 2 0\nA(4) 3 0\nA(5) 4 0\nA(6) 5 0\nA(7) 6 0\nA(8) 7 0\nA(9) 8 0\nA(10) 9 0
>>> map --ranks 1\nINTEGER A(10)\nDISTRIBUTE A(BLOCK_CYCLIC(2))\nEND\n<<< 0\nA(1) 0 0\nA(2) 0 1\nA(3) 0 2\nA(4) 0 3\nA(5) 0 4\nA(6) 0 5\nA(7) 0 6\nA(8) 0 7\nA(9) 0 8\nA(10) 0 9
>>> map --ranks 3\nINTEGER A(10)\nDISTRIBUTE A(BLOCK_CYCLIC(2))\nEND\n<<< 0\nA(1) 0 0\nA(2) 0 1\nA(3) 1 0\nA(4) 1 1\nA(5) 2 0\nA(6) 2 1\nA(7) 0 2\nA(8) 0 3\nA(9) 1 2\nA(10) 1 3
>>> map --ranks 4\nINTEGER A(10)\nDISTRIBUTE A(BLOCK_CYCLIC(2))\nEND\n<<< 0\nA(1) 0 0\nA(2) 0 1\nA(3) 1 0\nA(4) 1 1\nA(5) 2 0\nA(6) 2 1\nA(7) 3 0\nA(8) 3 1\nA(9) 0 2\nA(10) 0 3
>>> map --ranks 16\nINTEGER A(10)\nDISTRIBUTE A(BLOCK_CYCLIC(2))\nEND\n<<< 0\nA(1) 0 0\nA(2) 0 1\nA(3) 1 0\nA(4) 1 1\nA(5) 2 0\nA(6) 2 1\nA(7) 3 0\nA(8) 3 1\nA(9) 4 0\nA(10) 4 1
";

#[test]
fn homes_are_those_worked_by_hand(rt: HostRuntime) -> Result<(), Fail> {
    hold(&rt, rt.alloc(), HOMES)
}

#[test]
fn ten_elements_are_dealt_out(rt: HostRuntime) -> Result<(), Fail> {
    hold(&rt, rt.alloc(), TENS)
}
