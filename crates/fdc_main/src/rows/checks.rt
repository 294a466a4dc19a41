// Listings that are judged, and texts that are none.
use crate::rows::script::{answers, hold};
use crate::rows::{PLAIN, run_deck};
use fd_base::Bytes;
use std::alloc::Global;
use std::process::Abort;
use std::test::Fail;

// A deck with listings, and what is found.
const VERDICTS: &str =
    ">>> check: An IF with one side, whose nodes are 3 to 5; the other side has the pads 6 and 7\nINTEGER A(4), S\nDISTRIBUTE A(BLOCK)\nA(4) = 5\nIF (S .EQ. 0) THEN\nS = A(4)\nENDIF\nS = S + A(4)\nPRINT *, S\nEND\nitems 1\nitem 1 A(4) at all\nplaces 3\nnode 2 line 4 in send 1\nnode 4 line 5 in recv 1\nnode 7 line 4 out recv 1\nhoists 0\n<<< 0\nplacement good
>>> check\nINTEGER A(4), S\nDISTRIBUTE A(BLOCK)\nA(4) = 5\nIF (S .EQ. 0) THEN\nS = A(4)\nENDIF\nS = S + A(4)\nPRINT *, S\nEND\nitems 1\nitem 1 A(4) at all\nplaces 2\nnode 2 line 4 in send 1\nnode 4 line 5 in recv 1\nhoists 0\n<<< 8 placement: Balanced item 1 path 0 1 2 6 7 8 9 10 11
>>> check: Sent twice, received without a send, received twice, stolen in flight\nINTEGER A(4), S\nDISTRIBUTE A(BLOCK)\nA(4) = 5\nIF (S .EQ. 0) THEN\nS = A(4)\nENDIF\nS = S + A(4)\nPRINT *, S\nEND\nitems 1\nitem 1 A(4) at all\nplaces 4\nnode 1 line 3 out send 1\nnode 2 line 4 in send 1\nnode 4 line 5 in recv 1\nnode 7 line 4 out recv 1\nhoists 0\n<<< 8 placement: Balanced item 1 path 0 1 2
>>> check\nINTEGER A(4), S\nDISTRIBUTE A(BLOCK)\nA(4) = 5\nIF (S .EQ. 0) THEN\nS = A(4)\nENDIF\nS = S + A(4)\nPRINT *, S\nEND\nitems 1\nitem 1 A(4) at all\nplaces 2\nnode 4 line 5 in recv 1\nnode 7 line 4 out recv 1\nhoists 0\n<<< 8 placement: Balanced item 1 path 0 1 2 3 4
>>> check\nINTEGER A(4), S\nDISTRIBUTE A(BLOCK)\nA(4) = 5\nIF (S .EQ. 0) THEN\nS = A(4)\nENDIF\nS = S + A(4)\nPRINT *, S\nEND\nitems 1\nitem 1 A(4) at all\nplaces 4\nnode 2 line 4 in send 1\nnode 4 line 5 in recv 1\nnode 4 line 5 out recv 1\nnode 7 line 4 out recv 1\nhoists 0\n<<< 8 placement: Balanced item 1 path 0 1 2 3 4 5
>>> check\nINTEGER A(4), S\nDISTRIBUTE A(BLOCK)\nA(4) = 5\nIF (S .EQ. 0) THEN\nS = A(4)\nENDIF\nS = S + A(4)\nPRINT *, S\nEND\nitems 1\nitem 1 A(4) at all\nplaces 3\nnode 1 line 3 in send 1\nnode 4 line 5 in recv 1\nnode 7 line 4 out recv 1\nhoists 0\n<<< 8 placement: Balanced item 1 path 0 1
>>> check: It never comes, comes on one side alone, is stolen when it has come\nINTEGER A(4), S\nDISTRIBUTE A(BLOCK)\nA(4) = 5\nIF (S .EQ. 0) THEN\nS = A(4)\nENDIF\nS = S + A(4)\nPRINT *, S\nEND\nitems 1\nitem 1 A(4) at all\nplaces 0\nhoists 0\n<<< 8 placement: Covered item 1 path 0 1 2 3 4
>>> check\nINTEGER A(4), S\nDISTRIBUTE A(BLOCK)\nA(4) = 5\nIF (S .EQ. 0) THEN\nS = A(4)\nENDIF\nS = S + A(4)\nPRINT *, S\nEND\nitems 1\nitem 1 A(4) at all\nplaces 2\nnode 4 line 5 in send 1\nnode 4 line 5 in recv 1\nhoists 0\n<<< 8 placement: Covered item 1 path 0 1 2 6 7 8 9
>>> check\nINTEGER A(4), S\nDISTRIBUTE A(BLOCK)\nA(4) = 5\nIF (S .EQ. 0) THEN\nS = A(4)\nENDIF\nS = S + A(4)\nPRINT *, S\nEND\nitems 1\nitem 1 A(4) at all\nplaces 2\nnode 1 line 3 in send 1\nnode 1 line 3 in recv 1\nhoists 0\n<<< 8 placement: Covered item 1 path 0 1 2 3 4
>>> check: It is sent to be stolen, and at the end\nINTEGER A(4), S\nDISTRIBUTE A(BLOCK)\nA(4) = 5\nIF (S .EQ. 0) THEN\nS = A(4)\nENDIF\nS = S + A(4)\nPRINT *, S\nEND\nitems 1\nitem 1 A(4) at all\nplaces 5\nnode 1 line 3 in send 1\nnode 1 line 3 in recv 1\nnode 2 line 4 in send 1\nnode 4 line 5 in recv 1\nnode 7 line 4 out recv 1\nhoists 0\n<<< 8 placement: Used item 1 path 0 1
>>> check\nINTEGER A(4), S\nDISTRIBUTE A(BLOCK)\nA(4) = 5\nIF (S .EQ. 0) THEN\nS = A(4)\nENDIF\nS = S + A(4)\nPRINT *, S\nEND\nitems 1\nitem 1 A(4) at all\nplaces 5\nnode 2 line 4 in send 1\nnode 4 line 5 in recv 1\nnode 7 line 4 out recv 1\nnode 10 line 8 in send 1\nnode 10 line 8 in recv 1\nhoists 0\n<<< 8 placement: Used item 1 path 0 1 2 6 7 8 9 10 11
>>> check: Other places that are good; nothing is done on leaving the last node\nINTEGER A(4), S\nDISTRIBUTE A(BLOCK)\nA(4) = 5\nIF (S .EQ. 0) THEN\nS = A(4)\nENDIF\nS = S + A(4)\nPRINT *, S\nEND\nitems 1\nitem 1 A(4) at all\nplaces 2\nnode 1 line 3 out send 1\nnode 1 line 3 out recv 1\nhoists 0\n<<< 0\nplacement good
>>> check\nINTEGER A(4), S\nDISTRIBUTE A(BLOCK)\nA(4) = 5\nIF (S .EQ. 0) THEN\nS = A(4)\nENDIF\nS = S + A(4)\nPRINT *, S\nEND\nitems 1\nitem 1 A(4) at all\nplaces 4\nnode 4 line 5 in send 1\nnode 4 line 5 in recv 1\nnode 9 line 7 in send 1\nnode 9 line 7 in recv 1\nhoists 0\n<<< 0\nplacement good
>>> check\nINTEGER A(4), S\nDISTRIBUTE A(BLOCK)\nA(4) = 5\nIF (S .EQ. 0) THEN\nS = A(4)\nENDIF\nS = S + A(4)\nPRINT *, S\nEND\nitems 1\nitem 1 A(4) at all\nplaces 4\nnode 2 line 4 in send 1\nnode 4 line 5 in recv 1\nnode 7 line 4 out recv 1\nnode 11 line 9 out send 1\nhoists 0\n<<< 0\nplacement good
";

#[test]
fn damaged_listings_are_told_by_condition_item_and_path(rt: HostRuntime) -> Result<(), Fail> {
    hold(&rt, rt.alloc(), VERDICTS)
}

// Two items that one statement takes, an IF whose sides have as many nodes, and a loop that takes an item, which a loop before it steals.
const OTHERS: &str =
    ">>> check: The first condition, then the least item\nINTEGER A(4), B(4), S\nDISTRIBUTE A(BLOCK)\nDISTRIBUTE B(BLOCK)\nS = A(4) + B(4)\nPRINT *, S\nEND\nitems 2\nitem 1 A(4) at all\nitem 2 B(4) at all\nplaces 0\nhoists 0\n<<< 8 placement: Covered item 1 path 0 1
>>> check\nINTEGER A(4), B(4), S\nDISTRIBUTE A(BLOCK)\nDISTRIBUTE B(BLOCK)\nS = A(4) + B(4)\nPRINT *, S\nEND\nitems 2\nitem 1 A(4) at all\nitem 2 B(4) at all\nplaces 1\nnode 0 line 0 in send 2\nhoists 0\n<<< 8 placement: Balanced item 2 path 0 1 2 3
>>> check\nINTEGER A(4), B(4), S\nDISTRIBUTE A(BLOCK)\nDISTRIBUTE B(BLOCK)\nS = A(4) + B(4)\nPRINT *, S\nEND\nitems 2\nitem 1 A(4) at all\nitem 2 B(4) at all\nplaces 2\nnode 0 line 0 in send 1\nnode 1 line 4 in recv 1\nhoists 0\n<<< 8 placement: Covered item 2 path 0 1
>>> check: Of paths with as many nodes the one with the least numbers\nINTEGER A(4), S\nDISTRIBUTE A(BLOCK)\nA(4) = 5\nIF (S .EQ. 0) THEN\nS = A(4)\nELSE\nS = 2\nENDIF\nPRINT *, S\nEND\nitems 1\nitem 1 A(4) at all\nplaces 1\nnode 2 line 4 in send 1\nhoists 0\n<<< 8 placement: Balanced item 1 path 0 1 2 3 4 5 9 10 11
>>> check: Sent for a loop's sake, or in vain where the loop makes no turn\nINTEGER A(20), S\nDISTRIBUTE A(BLOCK)\nDO I = 1, 20\nREAD *, A(I)\nENDDO\nDO I = 1, 20\nIF (A(I) .GT. 10) THEN\nS = S + 1\nENDIF\nENDDO\nPRINT *, S\nEND\nitems 1\nitem 1 A($1) do 1,20,1 at all\nplaces 2\nnode 5 line 6 in send 1\nnode 5 line 6 in recv 1\nhoists 1\nhoist node 5 line 6 item 1\n<<< 0\nplacement good
>>> check\nINTEGER A(20), S\nDISTRIBUTE A(BLOCK)\nDO I = 1, 20\nREAD *, A(I)\nENDDO\nDO I = 1, 20\nIF (A(I) .GT. 10) THEN\nS = S + 1\nENDIF\nENDDO\nPRINT *, S\nEND\nitems 1\nitem 1 A($1) do 1,20,1 at all\nplaces 2\nnode 5 line 6 in send 1\nnode 5 line 6 in recv 1\nhoists 0\n<<< 8 placement: Used item 1 path 0 1 5 15 16
>>> check: Hoists over a loop that doesn't take the item, over no loop, twice, uncounted, missing\nINTEGER A(20), S\nDISTRIBUTE A(BLOCK)\nDO I = 1, 20\nREAD *, A(I)\nENDDO\nDO I = 1, 20\nIF (A(I) .GT. 10) THEN\nS = S + 1\nENDIF\nENDDO\nPRINT *, S\nEND\nitems 1\nitem 1 A($1) do 1,20,1 at all\nplaces 2\nnode 5 line 6 in send 1\nnode 5 line 6 in recv 1\nhoists 1\nhoist node 1 line 3 item 1\n<<< 8 listing line 7: bad
>>> check\nINTEGER A(20), S\nDISTRIBUTE A(BLOCK)\nDO I = 1, 20\nREAD *, A(I)\nENDDO\nDO I = 1, 20\nIF (A(I) .GT. 10) THEN\nS = S + 1\nENDIF\nENDDO\nPRINT *, S\nEND\nitems 1\nitem 1 A($1) do 1,20,1 at all\nplaces 2\nnode 5 line 6 in send 1\nnode 5 line 6 in recv 1\nhoists 1\nhoist node 7 line 7 item 1\n<<< 8 listing line 7: bad
>>> check\nINTEGER A(20), S\nDISTRIBUTE A(BLOCK)\nDO I = 1, 20\nREAD *, A(I)\nENDDO\nDO I = 1, 20\nIF (A(I) .GT. 10) THEN\nS = S + 1\nENDIF\nENDDO\nPRINT *, S\nEND\nitems 1\nitem 1 A($1) do 1,20,1 at all\nplaces 2\nnode 5 line 6 in send 1\nnode 5 line 6 in recv 1\nhoists 2\nhoist node 5 line 6 item 1\nhoist node 5 line 6 item 1\n<<< 8 listing line 8: bad
>>> check\nINTEGER A(20), S\nDISTRIBUTE A(BLOCK)\nDO I = 1, 20\nREAD *, A(I)\nENDDO\nDO I = 1, 20\nIF (A(I) .GT. 10) THEN\nS = S + 1\nENDIF\nENDDO\nPRINT *, S\nEND\nitems 1\nitem 1 A($1) do 1,20,1 at all\nplaces 2\nnode 5 line 6 in send 1\nnode 5 line 6 in recv 1\nhoists 0\nhoist node 5 line 6 item 1\n<<< 8 listing line 7: bad
>>> check\nINTEGER A(20), S\nDISTRIBUTE A(BLOCK)\nDO I = 1, 20\nREAD *, A(I)\nENDDO\nDO I = 1, 20\nIF (A(I) .GT. 10) THEN\nS = S + 1\nENDIF\nENDDO\nPRINT *, S\nEND\nitems 1\nitem 1 A($1) do 1,20,1 at all\nplaces 2\nnode 5 line 6 in send 1\nnode 5 line 6 in recv 1\nhoists 1\n<<< 8 listing line 7: bad
";

#[test]
fn items_sides_and_hoists_are_judged(rt: HostRuntime) -> Result<(), Fail> {
    hold(&rt, rt.alloc(), OTHERS)
}

// The first of those listings, with a part replaced, and the first wrong line.
const WRONG: &str =
    ">>> check: Counts: too small and too large for their lines, up to 4,294,967,295, past it, with 30 digits, and none\nINTEGER A(4), S\nDISTRIBUTE A(BLOCK)\nA(4) = 5\nIF (S .EQ. 0) THEN\nS = A(4)\nENDIF\nS = S + A(4)\nPRINT *, S\nEND\nitems 1\nitem 1 A(4) at all\nplaces 2\nnode 2 line 4 in send 1\nnode 4 line 5 in recv 1\nnode 7 line 4 out recv 1\nhoists 0\n<<< 8 listing line 6: bad
>>> check\nINTEGER A(4), S\nDISTRIBUTE A(BLOCK)\nA(4) = 5\nIF (S .EQ. 0) THEN\nS = A(4)\nENDIF\nS = S + A(4)\nPRINT *, S\nEND\nitems 1\nitem 1 A(4) at all\nplaces 4\nnode 2 line 4 in send 1\nnode 4 line 5 in recv 1\nnode 7 line 4 out recv 1\nhoists 0\n<<< 8 listing line 7: bad
>>> check\nINTEGER A(4), S\nDISTRIBUTE A(BLOCK)\nA(4) = 5\nIF (S .EQ. 0) THEN\nS = A(4)\nENDIF\nS = S + A(4)\nPRINT *, S\nEND\nitems 1\nitem 1 A(4) at all\nplaces 4294967295\nnode 2 line 4 in send 1\nnode 4 line 5 in recv 1\nnode 7 line 4 out recv 1\nhoists 0\n<<< 8 listing line 7: bad
>>> check\nINTEGER A(4), S\nDISTRIBUTE A(BLOCK)\nA(4) = 5\nIF (S .EQ. 0) THEN\nS = A(4)\nENDIF\nS = S + A(4)\nPRINT *, S\nEND\nitems 1\nitem 1 A(4) at all\nplaces 4294967296\nnode 2 line 4 in send 1\nnode 4 line 5 in recv 1\nnode 7 line 4 out recv 1\nhoists 0\n<<< 8 listing line 3: bad
>>> check\nINTEGER A(4), S\nDISTRIBUTE A(BLOCK)\nA(4) = 5\nIF (S .EQ. 0) THEN\nS = A(4)\nENDIF\nS = S + A(4)\nPRINT *, S\nEND\nitems 1\nitem 1 A(4) at all\nplaces 18446744073709551619\nnode 2 line 4 in send 1\nnode 4 line 5 in recv 1\nnode 7 line 4 out recv 1\nhoists 0\n<<< 8 listing line 3: bad
>>> check\nINTEGER A(4), S\nDISTRIBUTE A(BLOCK)\nA(4) = 5\nIF (S .EQ. 0) THEN\nS = A(4)\nENDIF\nS = S + A(4)\nPRINT *, S\nEND\nitems 1\nitem 1 A(4) at all\nplaces 100000000000000000000000000003\nnode 2 line 4 in send 1\nnode 4 line 5 in recv 1\nnode 7 line 4 out recv 1\nhoists 0\n<<< 8 listing line 3: bad
>>> check\nINTEGER A(4), S\nDISTRIBUTE A(BLOCK)\nA(4) = 5\nIF (S .EQ. 0) THEN\nS = A(4)\nENDIF\nS = S + A(4)\nPRINT *, S\nEND\nitems 1\nitem 1 A(4) at all\nplaces 03\nnode 2 line 4 in send 1\nnode 4 line 5 in recv 1\nnode 7 line 4 out recv 1\nhoists 0\n<<< 8 listing line 3: bad
>>> check\nINTEGER A(4), S\nDISTRIBUTE A(BLOCK)\nA(4) = 5\nIF (S .EQ. 0) THEN\nS = A(4)\nENDIF\nS = S + A(4)\nPRINT *, S\nEND\nitems 1\nitem 1 A(4) at all\nplaces\u{20}\nnode 2 line 4 in send 1\nnode 4 line 5 in recv 1\nnode 7 line 4 out recv 1\nhoists 0\n<<< 8 listing line 3: bad
>>> check\nINTEGER A(4), S\nDISTRIBUTE A(BLOCK)\nA(4) = 5\nIF (S .EQ. 0) THEN\nS = A(4)\nENDIF\nS = S + A(4)\nPRINT *, S\nEND\nitems 1\nitem 1 A(4) at all\nplaces 3\nnode 2 line 4 in send 1\nnode 4 line 5 in recv 1\nnode 7 line 4 out recv 1\nhoists 1\n<<< 8 listing line 8: bad
>>> check\nINTEGER A(4), S\nDISTRIBUTE A(BLOCK)\nA(4) = 5\nIF (S .EQ. 0) THEN\nS = A(4)\nENDIF\nS = S + A(4)\nPRINT *, S\nEND\nitems 1\nitem 1 A(4) at all\nplaces 3\nnode 2 line 4 in send 1\nnode 4 line 5 in recv 1\nnode 7 line 4 out recv 1\nhoists 4294967295\n<<< 8 listing line 8: bad
>>> check\nINTEGER A(4), S\nDISTRIBUTE A(BLOCK)\nA(4) = 5\nIF (S .EQ. 0) THEN\nS = A(4)\nENDIF\nS = S + A(4)\nPRINT *, S\nEND\nitems 1\nitem 1 A(4) at all\nplaces 3\nnode 2 line 4 in send 1\nnode 4 line 5 in recv 1\nnode 7 line 4 out recv 1\nhoists 999999999999999999999999999999\n<<< 8 listing line 7: bad
>>> check\nINTEGER A(4), S\nDISTRIBUTE A(BLOCK)\nA(4) = 5\nIF (S .EQ. 0) THEN\nS = A(4)\nENDIF\nS = S + A(4)\nPRINT *, S\nEND\nitems 2\nitem 1 A(4) at all\nplaces 3\nnode 2 line 4 in send 1\nnode 4 line 5 in recv 1\nnode 7 line 4 out recv 1\nhoists 0\n<<< 8 listing line 1: bad
>>> check: Listings of other programs\nINTEGER A(4), S\nDISTRIBUTE A(BLOCK)\nA(4) = 5\nIF (S .EQ. 0) THEN\nS = A(4)\nENDIF\nS = S + A(4)\nPRINT *, S\nEND\nitems 1\nitem 1 A(3) at all\nplaces 3\nnode 2 line 4 in send 1\nnode 4 line 5 in recv 1\nnode 7 line 4 out recv 1\nhoists 0\n<<< 8 listing line 2: bad
>>> check\nINTEGER A(4), S\nDISTRIBUTE A(BLOCK)\nA(4) = 5\nIF (S .EQ. 0) THEN\nS = A(4)\nENDIF\nS = S + A(4)\nPRINT *, S\nEND\nitems 0\nplaces 3\nnode 2 line 4 in send 1\nnode 4 line 5 in recv 1\nnode 7 line 4 out recv 1\nhoists 0\n<<< 8 listing line 1: bad
>>> check\nINTEGER A(4), S\nDISTRIBUTE A(BLOCK)\nA(4) = 5\nIF (S .EQ. 0) THEN\nS = A(4)\nENDIF\nS = S + A(4)\nPRINT *, S\nEND\nitems 1\nitem 1 A(4) at all\nitem 2 B(4) at all\nplaces 3\nnode 2 line 4 in send 1\nnode 4 line 5 in recv 1\nnode 7 line 4 out recv 1\nhoists 0\n<<< 8 listing line 3: bad
>>> check: Nodes and items that there aren't, and another line of the source\nINTEGER A(4), S\nDISTRIBUTE A(BLOCK)\nA(4) = 5\nIF (S .EQ. 0) THEN\nS = A(4)\nENDIF\nS = S + A(4)\nPRINT *, S\nEND\nitems 1\nitem 1 A(4) at all\nplaces 3\nnode 2 line 4 in send 1\nnode 4 line 5 in recv 1\nnode 12 line 10 out recv 1\nhoists 0\n<<< 8 listing line 6: bad
>>> check\nINTEGER A(4), S\nDISTRIBUTE A(BLOCK)\nA(4) = 5\nIF (S .EQ. 0) THEN\nS = A(4)\nENDIF\nS = S + A(4)\nPRINT *, S\nEND\nitems 1\nitem 1 A(4) at all\nplaces 3\nnode 2 line 4 in send 1\nnode 4 line 4 in recv 1\nnode 7 line 4 out recv 1\nhoists 0\n<<< 8 listing line 5: bad
>>> check\nINTEGER A(4), S\nDISTRIBUTE A(BLOCK)\nA(4) = 5\nIF (S .EQ. 0) THEN\nS = A(4)\nENDIF\nS = S + A(4)\nPRINT *, S\nEND\nitems 1\nitem 1 A(4) at all\nplaces 3\nnode 2 line 4 in send 2\nnode 4 line 5 in recv 1\nnode 7 line 4 out recv 1\nhoists 0\n<<< 8 listing line 4: bad
>>> check\nINTEGER A(4), S\nDISTRIBUTE A(BLOCK)\nA(4) = 5\nIF (S .EQ. 0) THEN\nS = A(4)\nENDIF\nS = S + A(4)\nPRINT *, S\nEND\nitems 1\nitem 1 A(4) at all\nplaces 3\nnode 2 line 4 in send 0\nnode 4 line 5 in recv 1\nnode 7 line 4 out recv 1\nhoists 0\n<<< 8 listing line 4: bad
>>> check\nINTEGER A(4), S\nDISTRIBUTE A(BLOCK)\nA(4) = 5\nIF (S .EQ. 0) THEN\nS = A(4)\nENDIF\nS = S + A(4)\nPRINT *, S\nEND\nitems 1\nitem 1 A(4) at all\nplaces 3\nnode 65538 line 4 in send 1\nnode 4 line 5 in recv 1\nnode 7 line 4 out recv 1\nhoists 0\n<<< 8 listing line 4: bad
>>> check: Out of order, doubled, and other words\nINTEGER A(4), S\nDISTRIBUTE A(BLOCK)\nA(4) = 5\nIF (S .EQ. 0) THEN\nS = A(4)\nENDIF\nS = S + A(4)\nPRINT *, S\nEND\nitems 1\nitem 1 A(4) at all\nplaces 3\nnode 2 line 4 in send 1\nnode 1 line 3 in recv 1\nnode 7 line 4 out recv 1\nhoists 0\n<<< 8 listing line 5: bad
>>> check\nINTEGER A(4), S\nDISTRIBUTE A(BLOCK)\nA(4) = 5\nIF (S .EQ. 0) THEN\nS = A(4)\nENDIF\nS = S + A(4)\nPRINT *, S\nEND\nitems 1\nitem 1 A(4) at all\nplaces 3\nnode 2 line 4 in send 1\nnode 2 line 4 in send 1\nnode 7 line 4 out recv 1\nhoists 0\n<<< 8 listing line 5: bad
>>> check\nINTEGER A(4), S\nDISTRIBUTE A(BLOCK)\nA(4) = 5\nIF (S .EQ. 0) THEN\nS = A(4)\nENDIF\nS = S + A(4)\nPRINT *, S\nEND\nitems 1\nitem 1 A(4) at all\nplaces 3\nnode 2 line 4 in send 1\nnode 8 line 4 in recv 1\nnode 7 line 4 out recv 1\nhoists 0\n<<< 8 listing line 6: bad
>>> check\nINTEGER A(4), S\nDISTRIBUTE A(BLOCK)\nA(4) = 5\nIF (S .EQ. 0) THEN\nS = A(4)\nENDIF\nS = S + A(4)\nPRINT *, S\nEND\nitems 1\nitem 1 A(4) at all\nplaces 3\nnode 02 line 4 in send 1\nnode 4 line 5 in recv 1\nnode 7 line 4 out recv 1\nhoists 0\n<<< 8 listing line 4: bad
>>> check\nINTEGER A(4), S\nDISTRIBUTE A(BLOCK)\nA(4) = 5\nIF (S .EQ. 0) THEN\nS = A(4)\nENDIF\nS = S + A(4)\nPRINT *, S\nEND\nitems 1\nitem 1 A(4) at all\nplaces 3\nnode 2  line 4 in send 1\nnode 4 line 5 in recv 1\nnode 7 line 4 out recv 1\nhoists 0\n<<< 8 listing line 4: bad
>>> check: Bytes that are no text of a listing, and lines behind the last\nINTEGER A(4), S\nDISTRIBUTE A(BLOCK)\nA(4) = 5\nIF (S .EQ. 0) THEN\nS = A(4)\nENDIF\nS = S + A(4)\nPRINT *, S\nEND\nïtems 1\nitem 1 A(4) at all\nplaces 3\nnode 2 line 4 in send 1\nnode 4 line 5 in recv 1\nnode 7 line 4 out recv 1\nhoists 0\n<<< 8 listing line 1: bad
>>> check\nINTEGER A(4), S\nDISTRIBUTE A(BLOCK)\nA(4) = 5\nIF (S .EQ. 0) THEN\nS = A(4)\nENDIF\nS = S + A(4)\nPRINT *, S\nEND\nitems 1\r\nitem 1 A(4) at all\nplaces 3\nnode 2 line 4 in send 1\nnode 4 line 5 in recv 1\nnode 7 line 4 out recv 1\nhoists 0\n<<< 8 listing line 1: bad
>>> check\nINTEGER A(4), S\nDISTRIBUTE A(BLOCK)\nA(4) = 5\nIF (S .EQ. 0) THEN\nS = A(4)\nENDIF\nS = S + A(4)\nPRINT *, S\nEND\nitems 1\nitem 1 A(4) at all\nplaces 3\nnode 2 line 4 in send 1\nnode 4 line 5 in recv 1\nnode 7 line 4 out recv 1\nhoists 0\n\n<<< 8 listing line 8: bad
";

#[test]
fn texts_that_are_no_listing_are_told_by_line(rt: HostRuntime) -> Result<(), Fail> {
    hold(&rt, rt.alloc(), WRONG)
}

const BRANCH: &str = "INTEGER A(4), S
DISTRIBUTE A(BLOCK)
A(4) = 5
IF (S .EQ. 0) THEN
S = A(4)
ENDIF
S = S + A(4)
PRINT *, S
END
";

const LISTING: &str = "items 1
item 1 A(4) at all
places 3
node 2 line 4 in send 1
node 4 line 5 in recv 1
node 7 line 4 out recv 1
hoists 0
";

// Has what stands behind that deck judged. It has no clause, so that a test's proof reads none of the top call's.
fn judge(rt: &impl Abort, alloc: Global, listing: &[u8], expected: &str) -> Result<(), Fail> {
    let mut text = Bytes::from_slice(alloc, BRANCH.as_bytes())?;
    text.append(listing)?;
    let told = run_deck(rt, alloc, "check", text, &PLAIN)?;
    answers(rt, alloc, &told, expected, "a listing that is cut")
}

// A text that is no listing, with its first wrong line.
fn cut(rt: &impl Abort, alloc: Global, listing: &[u8], line: u32) -> Result<(), Fail> {
    let expected = format!(in alloc; "8 listing line {line}: bad\n")?;
    judge(rt, alloc, listing, expected.as_str())
}

// A line that lacks its end alone is right, and the next one is missing.
#[test]
fn a_listing_that_is_cut_is_told_by_line(rt: HostRuntime) -> Result<(), Fail> {
    let listing = LISTING.as_bytes();
    let whole = listing.len().saturating_sub(1);
    let mut line = 1u32;
    for (end, byte) in listing[..whole].iter().enumerate() {
        if *byte == b'\n' {
            line = line.saturating_add(1);
        }
        cut(&rt, rt.alloc(), &listing[..end], line)?;
    }
    judge(&rt, rt.alloc(), &listing[..whole], "0\nplacement good\n")
}

#[test]
fn a_listing_of_other_bytes_is_told_by_line(rt: HostRuntime) -> Result<(), Fail> {
    cut(
        &rt,
        rt.alloc(),
        b"items 1\nitem 1 A(4) at all\nplaces \xff\n",
        3,
    )
}

// Decks whose listings stand in no other table.
const DECKS: &str =
    ">>> plan\nINTEGER X(6), Y(6), M(6)\nDECOMPOSITION D(6)\nALIGN X WITH D\nALIGN Y WITH D\nDISTRIBUTE D(CYCLIC)\nDO I = 1, 6\nX(I) = I*I\nM(I) = 7-I\nENDDO\nDO I = 1, 6\nY(I) = X(M(I))\nENDDO\nPRINT *, Y(1), Y(6)\nEND\n<<< good
>>> plan\nINTEGER A(2,4)\nDISTRIBUTE A(:,BLOCK)\nDO J = 1, 4\nDO I = 1, 2\nA(I,J) = 10*I+J\nENDDO\nENDDO\nPRINT *, A(2,4)\nEND\n<<< good
>>> plan\nINTEGER A(4), B(7)\nDECOMPOSITION D(5), E(8)\nALIGN A(I) WITH D(I+1)\nALIGN B(I) WITH E(I+1)\nDISTRIBUTE D(CYCLIC)\nDISTRIBUTE E(BLOCK_CYCLIC(3))\nPRINT *, A(1), B(7)\nEND\n<<< good
>>> plan\nPRINT *, 1\nEND\n<<< good
";

#[test]
fn what_is_planned_is_judged_good(rt: HostRuntime) -> Result<(), Fail> {
    hold(&rt, rt.alloc(), DECKS)
}
