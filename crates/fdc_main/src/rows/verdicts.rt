// Verdicts on listings of small programs, worked by hand.
use crate::rows::script::hold;
use std::test::Fail;

// Three statements in line: sends and receives that do not alternate.
const BALANCED: &str =
    ">>> check: Received without a send, at a node and behind it\nINTEGER A(4), B(4), K\nDISTRIBUTE A(BLOCK)\nDISTRIBUTE B(BLOCK)\nN = 1\nN = 1\nK = A(1)\nEND\nitems 1\nitem 1 A(1) at all\nplaces 1\nnode 2 line 5 in recv 1\nhoists 0\n<<< 8 placement: Balanced item 1 path 0 1 2
>>> check\nINTEGER A(4), B(4), K\nDISTRIBUTE A(BLOCK)\nDISTRIBUTE B(BLOCK)\nN = 1\nN = 1\nK = A(1)\nEND\nitems 1\nitem 1 A(1) at all\nplaces 1\nnode 2 line 5 out recv 1\nhoists 0\n<<< 8 placement: Balanced item 1 path 0 1 2 3
>>> check: Sent twice, and never received\nINTEGER A(4), B(4), K\nDISTRIBUTE A(BLOCK)\nDISTRIBUTE B(BLOCK)\nN = 1\nN = 1\nK = A(1)\nEND\nitems 1\nitem 1 A(1) at all\nplaces 2\nnode 1 line 4 in send 1\nnode 2 line 5 in send 1\nhoists 0\n<<< 8 placement: Balanced item 1 path 0 1 2
>>> check\nINTEGER A(4), B(4), K\nDISTRIBUTE A(BLOCK)\nDISTRIBUTE B(BLOCK)\nN = 1\nN = 1\nK = A(1)\nEND\nitems 1\nitem 1 A(1) at all\nplaces 1\nnode 1 line 4 in send 1\nhoists 0\n<<< 8 placement: Balanced item 1 path 0 1 2 3 4
>>> check: Written on the way\nINTEGER A(4), B(4), K\nDISTRIBUTE A(BLOCK)\nDISTRIBUTE B(BLOCK)\nN = 1\nA(1) = 1\nK = A(1)\nEND\nitems 1\nitem 1 A(1) at all\nplaces 2\nnode 1 line 4 in send 1\nnode 3 line 6 in recv 1\nhoists 0\n<<< 8 placement: Balanced item 1 path 0 1 2
>>> check: Before what is not covered, though it is of a later item\nINTEGER A(4), B(4), K\nDISTRIBUTE A(BLOCK)\nDISTRIBUTE B(BLOCK)\nK = A(1)\nN = 1\nK = B(1)\nEND\nitems 2\nitem 1 A(1) at all\nitem 2 B(1) at all\nplaces 1\nnode 2 line 5 in recv 2\nhoists 0\n<<< 8 placement: Balanced item 2 path 0 1 2
";

// What has not come where it is read, and what is sent for nothing.
const COVERED: &str =
    ">>> check: Of two items that are not covered the least, though its path is longer\nINTEGER A(4), B(4), K\nDISTRIBUTE A(BLOCK)\nDISTRIBUTE B(BLOCK)\nIF (K .EQ. 0) THEN\nN = 1\nK = A(1)\nELSE\nK = B(1)\nENDIF\nEND\nitems 2\nitem 1 A(1) at all\nitem 2 B(1) at all\nplaces 0\nhoists 0\n<<< 8 placement: Covered item 1 path 0 1 2 3 4
>>> check: Written when it has come\nINTEGER A(4), B(4), K\nDISTRIBUTE A(BLOCK)\nDISTRIBUTE B(BLOCK)\nN = 1\nA(1) = 1\nK = A(1)\nEND\nitems 1\nitem 1 A(1) at all\nplaces 2\nnode 1 line 4 in send 1\nnode 1 line 4 in recv 1\nhoists 0\n<<< 8 placement: Covered item 1 path 0 1 2 3
>>> check: Sent to be written, and again to be read\nINTEGER A(4), B(4), K\nDISTRIBUTE A(BLOCK)\nDISTRIBUTE B(BLOCK)\nN = 1\nA(1) = 1\nK = A(1)\nEND\nitems 1\nitem 1 A(1) at all\nplaces 4\nnode 1 line 4 in send 1\nnode 1 line 4 in recv 1\nnode 3 line 6 in send 1\nnode 3 line 6 in recv 1\nhoists 0\n<<< 8 placement: Used item 1 path 0 1 2
>>> check: Read, and sent once more for nothing\nINTEGER A(4), B(4), K\nDISTRIBUTE A(BLOCK)\nDISTRIBUTE B(BLOCK)\nK = A(1)\nN = 1\nN = 1\nEND\nitems 1\nitem 1 A(1) at all\nplaces 4\nnode 1 line 4 in send 1\nnode 1 line 4 in recv 1\nnode 2 line 5 in send 1\nnode 2 line 5 in recv 1\nhoists 0\n<<< 8 placement: Used item 1 path 0 1 2 3 4
>>> check: It comes long before it is read\nINTEGER A(4), B(4), K\nDISTRIBUTE A(BLOCK)\nDISTRIBUTE B(BLOCK)\nN = 1\nN = 1\nK = A(1)\nEND\nitems 1\nitem 1 A(1) at all\nplaces 2\nnode 1 line 4 in send 1\nnode 1 line 4 in recv 1\nhoists 0\n<<< 0\nplacement good
>>> check: There are no items\nINTEGER A(4), B(4), K\nDISTRIBUTE A(BLOCK)\nDISTRIBUTE B(BLOCK)\nN = 1\nN = 1\nN = 1\nEND\nitems 0\nplaces 0\nhoists 0\n<<< 0\nplacement good
";

// Of two paths the shorter, and of two as short the least.
const SIDES: &str =
    ">>> check: Behind an IF with one side, by its shorter no side\nINTEGER A(4), B(4), K\nDISTRIBUTE A(BLOCK)\nDISTRIBUTE B(BLOCK)\nN = 1\nIF (K .EQ. 0) THEN\nK = 1\nENDIF\nK = A(1)\nEND\nitems 1\nitem 1 A(1) at all\nplaces 0\nhoists 0\n<<< 8 placement: Covered item 1 path 0 1 2 6 7 8 9
>>> check: On both sides, of which the yes side is first\nINTEGER A(4), B(4), K\nDISTRIBUTE A(BLOCK)\nDISTRIBUTE B(BLOCK)\nIF (K .EQ. 0) THEN\nK = A(1)\nELSE\nK = A(1)\nENDIF\nEND\nitems 1\nitem 1 A(1) at all\nplaces 0\nhoists 0\n<<< 8 placement: Covered item 1 path 0 1 2 3
>>> check: On the no side alone\nINTEGER A(4), B(4), K\nDISTRIBUTE A(BLOCK)\nDISTRIBUTE B(BLOCK)\nIF (K .EQ. 0) THEN\nK = 1\nELSE\nK = A(1)\nENDIF\nEND\nitems 1\nitem 1 A(1) at all\nplaces 0\nhoists 0\n<<< 8 placement: Covered item 1 path 0 1 5 6
>>> check: Behind two sides of as many nodes, by the yes side\nINTEGER A(4), B(4), K\nDISTRIBUTE A(BLOCK)\nDISTRIBUTE B(BLOCK)\nIF (K .EQ. 0) THEN\nK = 1\nELSE\nK = 2\nENDIF\nK = A(1)\nEND\nitems 1\nitem 1 A(1) at all\nplaces 0\nhoists 0\n<<< 8 placement: Covered item 1 path 0 1 2 3 4 8 9
";

// Once more round a loop.
const ROUND: &str =
    ">>> check: Written in the loop, behind where it is read: it lacks in the second turn\nINTEGER A(4), B(4), K\nDISTRIBUTE A(BLOCK)\nDISTRIBUTE B(BLOCK)\nDO I = 1, 8\nK = A(1)\nA(1) = I\nENDDO\nEND\nitems 1\nitem 1 A(1) at all\nplaces 2\nnode 1 line 4 in send 1\nnode 1 line 4 in recv 1\nhoists 1\nhoist node 1 line 4 item 1\n<<< 8 placement: Covered item 1 path 0 1 2 3 4 5 1 2 3
>>> check: Hoisted out of the loop that reads it\nINTEGER A(4), B(4), K\nDISTRIBUTE A(BLOCK)\nDISTRIBUTE B(BLOCK)\nDO I = 1, 8\nK = A(1)\nN = 1\nENDDO\nEND\nitems 1\nitem 1 A(1) do 1,8,1 at all\nplaces 2\nnode 1 line 4 in send 1\nnode 1 line 4 in recv 1\nhoists 1\nhoist node 1 line 4 item 1\n<<< 0\nplacement good
>>> check: Not hoisted, and in vain where the loop makes no turn\nINTEGER A(4), B(4), K\nDISTRIBUTE A(BLOCK)\nDISTRIBUTE B(BLOCK)\nDO I = 1, 8\nK = A(1)\nN = 1\nENDDO\nEND\nitems 1\nitem 1 A(1) do 1,8,1 at all\nplaces 2\nnode 1 line 4 in send 1\nnode 1 line 4 in recv 1\nhoists 0\n<<< 8 placement: Used item 1 path 0 1 6
>>> check: In front of a loop that does not read it\nINTEGER A(4), B(4), K\nDISTRIBUTE A(BLOCK)\nDISTRIBUTE B(BLOCK)\nK = A(1)\nDO I = 1, 8\nN = 1\nN = 1\nENDDO\nEND\nitems 1\nitem 1 A(1) at all\nplaces 4\nnode 1 line 4 in send 1\nnode 1 line 4 in recv 1\nnode 2 line 5 in send 1\nnode 2 line 5 in recv 1\nhoists 0\n<<< 8 placement: Used item 1 path 0 1 2 7
>>> check: A hoist out of that loop\nINTEGER A(4), B(4), K\nDISTRIBUTE A(BLOCK)\nDISTRIBUTE B(BLOCK)\nK = A(1)\nDO I = 1, 8\nN = 1\nN = 1\nENDDO\nEND\nitems 1\nitem 1 A(1) at all\nplaces 4\nnode 1 line 4 in send 1\nnode 1 line 4 in recv 1\nnode 2 line 5 in send 1\nnode 2 line 5 in recv 1\nhoists 1\nhoist node 2 line 5 item 1\n<<< 8 listing line 9: bad
";

#[test]
fn sends_and_receives_alternate(rt: HostRuntime) -> Result<(), Fail> {
    hold(&rt, rt.alloc(), BALANCED)
}

#[test]
fn what_is_read_has_come(rt: HostRuntime) -> Result<(), Fail> {
    hold(&rt, rt.alloc(), COVERED)
}

#[test]
fn the_least_path_is_told(rt: HostRuntime) -> Result<(), Fail> {
    hold(&rt, rt.alloc(), SIDES)
}

#[test]
fn loops_are_gone_round_once_more(rt: HostRuntime) -> Result<(), Fail> {
    hold(&rt, rt.alloc(), ROUND)
}
