// Forms of subscripts, worked by hand.
use crate::rows::script::hold;
use fd_base::Memory;
use fd_prog::{Expr, ExprList, FormRefusal, Op2, forms_of};
use std::alloc::Global;
use std::process::Abort;
use std::test::Fail;

// Expressions, and their forms in the lines of the items.
const FORMS: &str =
    ">>> plan: Sums and multiples\nINTEGER A(8), B(8), C(8,8), K\nDISTRIBUTE A(BLOCK)\nDISTRIBUTE C(BLOCK,:)\nK = A(I+I-1)\nK = A(I-I+5)\nK = A(3*(-I))\nEND\n<<< 0\nitems 3\nitem 1 A(2*I-1) at all\nitem 2 A(5) at all\nitem 3 A(-3*I) at all\nplaces 6\nnode 0 line 0 in send 1\nnode 0 line 0 in send 2\nnode 0 line 0 in send 3\nnode 1 line 4 in recv 1\nnode 2 line 5 in recv 2\nnode 3 line 6 in recv 3\nhoists 0
>>> plan: Products, quotients, functions and elements\nINTEGER A(8), B(8), C(8,8), K\nDISTRIBUTE A(BLOCK)\nDISTRIBUTE C(BLOCK,:)\nK = A(I*J)\nK = A((-7)/2)\nK = A(7/0)\nK = A(MOD(-7,3))\nK = A(MIN(-7,3))\nK = A(MAX(-7,3))\nK = A(ABS(I))\nK = A(B(I))\nEND\n<<< 0\nitems 8\nitem 1 A((I)*(J)) at all\nitem 2 A(-3) at all\nitem 3 A((7)/(0)) at all\nitem 4 A(-1) at all\nitem 5 A(-7) at all\nitem 6 A(3) at all\nitem 7 A(ABS(I)) at all\nitem 8 A(B(I)) at all\nplaces 16\nnode 0 line 0 in send 1\nnode 0 line 0 in send 2\nnode 0 line 0 in send 3\nnode 0 line 0 in send 4\nnode 0 line 0 in send 5\nnode 0 line 0 in send 6\nnode 0 line 0 in send 7\nnode 0 line 0 in send 8\nnode 1 line 4 in recv 1\nnode 2 line 5 in recv 2\nnode 3 line 6 in recv 3\nnode 4 line 7 in recv 4\nnode 5 line 8 in recv 5\nnode 6 line 9 in recv 6\nnode 7 line 10 in recv 7\nnode 8 line 11 in recv 8\nhoists 0
>>> plan: The largest constant, and sixteen terms\nINTEGER A(8), B(8), C(8,8), K\nDISTRIBUTE A(BLOCK)\nDISTRIBUTE C(BLOCK,:)\nK = A(2147483648)\nK = A(IA+IB+IC+ID+IE+IF+IG+IH+II+IJ+IK+IL+IM+IN+IO+IP)\nEND\n<<< 0\nitems 2\nitem 1 A(2147483648) at all\nitem 2 A(IA+IB+IC+ID+IE+IF+IG+IH+II+IJ+IK+IL+IM+IN+IO+IP) at all\nplaces 4\nnode 0 line 0 in send 1\nnode 0 line 0 in send 2\nnode 1 line 4 in recv 1\nnode 2 line 5 in recv 2\nhoists 0
>>> plan: By the variable of the second loop that it is widened over\nINTEGER A(8), B(8), C(8,8), K\nDISTRIBUTE A(BLOCK)\nDISTRIBUTE C(BLOCK,:)\nDO L = 1, 8\nDO I = 1, 8\nK = A(I+I-1)\nENDDO\nENDDO\nEND\n<<< 0\nitems 1\nitem 1 A(2*$2-1) do 1,8,1 do 1,8,1 at all\nplaces 2\nnode 0 line 0 in send 1\nnode 1 line 4 in recv 1\nhoists 2\nhoist node 1 line 4 item 1\nhoist node 3 line 5 item 1
>>> plan: Two subscripts\nINTEGER A(8), B(8), C(8,8), K\nDISTRIBUTE A(BLOCK)\nDISTRIBUTE C(BLOCK,:)\nDO I = 1, 8\nK = C(2*I-3,7)\nENDDO\nEND\n<<< 0\nitems 1\nitem 1 C(2*$1-3,7) do 1,8,1 at all\nplaces 2\nnode 0 line 0 in send 1\nnode 1 line 4 in recv 1\nhoists 1\nhoist node 1 line 4 item 1
";

// Expressions that pass a limit of forms.
const REFUSED: &str =
    ">>> plan\nINTEGER A(8), B(8), C(8,8), K\nDISTRIBUTE A(BLOCK)\nDISTRIBUTE C(BLOCK,:)\nK = A(2147483649)\nEND\n<<< 3 line 4: error 16 TooMany Coefficient
>>> plan\nINTEGER A(8), B(8), C(8,8), K\nDISTRIBUTE A(BLOCK)\nDISTRIBUTE C(BLOCK,:)\nK = A(3000000000*I)\nEND\n<<< 3 line 4: error 16 TooMany Coefficient
>>> plan\nINTEGER A(8), B(8), C(8,8), K\nDISTRIBUTE A(BLOCK)\nDISTRIBUTE C(BLOCK,:)\nK = A(IA+IB+IC+ID+IE+IF+IG+IH+II+IJ+IK+IL+IM+IN+IO+IP+IQ)\nEND\n<<< 3 line 4: error 16 TooMany Terms
>>> plan: The left side decides before the right, and parts before the whole\nINTEGER A(8), B(8), C(8,8), K\nDISTRIBUTE A(BLOCK)\nDISTRIBUTE C(BLOCK,:)\nK = A(2147483649+(IA+IB+IC+ID+IE+IF+IG+IH+II+IJ+IK+IL+IM+IN+IO+IP+IQ))\nEND\n<<< 3 line 4: error 16 TooMany Coefficient
>>> plan\nINTEGER A(8), B(8), C(8,8), K\nDISTRIBUTE A(BLOCK)\nDISTRIBUTE C(BLOCK,:)\nK = A(IA+IB+IC+ID+IE+IF+IG+IH+II+IJ+IK+IL+IM+IN+IO+IP+IQ+2147483649)\nEND\n<<< 3 line 4: error 16 TooMany Terms
>>> plan\nINTEGER A(8), B(8), C(8,8), K\nDISTRIBUTE A(BLOCK)\nDISTRIBUTE C(BLOCK,:)\nK = A(2147483649-2)\nEND\n<<< 3 line 4: error 16 TooMany Coefficient
>>> plan\nINTEGER A(8), B(8), C(8,8), K\nDISTRIBUTE A(BLOCK)\nDISTRIBUTE C(BLOCK,:)\nK = A(2147483648-(-1))\nEND\n<<< 3 line 4: error 16 TooMany Coefficient
>>> plan: The argument of a function\nINTEGER A(8), B(8), C(8,8), K\nDISTRIBUTE A(BLOCK)\nDISTRIBUTE C(BLOCK,:)\nK = A(ABS(IA+IB+IC+ID+IE+IF+IG+IH+II+IJ+IK+IL+IM+IN+IO+IP+IQ))\nEND\n<<< 3 line 4: error 16 TooMany Terms
>>> plan: Of two subscripts that pass a limit the one with too many terms is told\nINTEGER A(8), B(8), C(8,8), K\nDISTRIBUTE A(BLOCK)\nDISTRIBUTE C(BLOCK,:)\nK = C(IA+IB+IC+ID+IE+IF+IG+IH+II+IJ+IK+IL+IM+IN+IO+IP+IQ,2147483649)\nEND\n<<< 3 line 4: error 16 TooMany Terms
>>> plan\nINTEGER A(8), B(8), C(8,8), K\nDISTRIBUTE A(BLOCK)\nDISTRIBUTE C(BLOCK,:)\nK = C(2147483649,IA+IB+IC+ID+IE+IF+IG+IH+II+IJ+IK+IL+IM+IN+IO+IP+IQ)\nEND\n<<< 3 line 4: error 16 TooMany Terms
";

#[test]
fn forms_are_those_worked_by_hand(rt: HostRuntime) -> Result<(), Fail> {
    hold(&rt, rt.alloc(), FORMS)
}

#[test]
fn forms_past_their_limits_are_refused(rt: HostRuntime) -> Result<(), Fail> {
    hold(&rt, rt.alloc(), REFUSED)
}

// The sum of the scalars 0 to 16, which has a term too many.
fn sum(alloc: Global) -> Result<Expr, Memory> {
    let mut e = Expr::Scalar(0);
    for scalar in 1..17 {
        let left = Box::new(alloc, e)?;
        let right = Box::new(alloc, Expr::Scalar(scalar))?;
        e = Expr::Bin(Op2::Add, left, right);
    }
    Ok(e)
}

fn pair(alloc: Global, first: Expr, second: Expr) -> Result<ExprList, Memory> {
    let second = Box::new(alloc, second)?;
    let end = Box::new(alloc, ExprList::End)?;
    let first = Box::new(alloc, first)?;
    let rest = Box::new(alloc, ExprList::More(second, end))?;
    Ok(ExprList::More(first, rest))
}

fn refused(rt: &impl Abort, alloc: Global, list: &ExprList, wanted: FormRefusal) {
    let why = forms_of(alloc, list, &[]).err();
    assert!(rt; why == Some(wanted));
}

// A deck that passes both limits on one line is told the least of them, so that the order shows in the call alone.
#[test]
fn the_first_form_that_passes_a_limit_decides(rt: HostRuntime) -> Result<(), Fail> {
    let alloc = rt.alloc();
    let large = Expr::Num(2_147_483_649);
    refused(
        &rt,
        alloc,
        &pair(alloc, sum(alloc)?, large)?,
        FormRefusal::Terms,
    );
    let large = Expr::Num(2_147_483_649);
    refused(
        &rt,
        alloc,
        &pair(alloc, large, sum(alloc)?)?,
        FormRefusal::Coefficient,
    );
    Ok(())
}
