// Decks of meshes that are made, and words that ask for none.
use crate::rows::script::{hold, hold_over};
use crate::rows::{Ends, PLAIN};
use std::test::Fail;

// What stands on standard input isn't read.
const MADE: &str = ">>> gen --size 1 --seed 1
EMDO
<<< 0
PROGRAM MESH
PARAMETER (N = 1, NT = 50)
INTEGER X(N), Y(N), IA(N), M(N), S
DECOMPOSITION D(N)
ALIGN X WITH D
ALIGN Y WITH D
ALIGN IA WITH D
DO I = 1, N
READ *, M(I)
ENDDO
DISTRIBUTE D(M)
DO I = 1, N
READ *, IA(I)
X(I) = I
ENDDO
DO K = 1, NT
DO I = 1, N
Y(I) = X(IA(I))
ENDDO
DO I = 1, N
X(I) = Y(I)
ENDDO
ENDDO
DO I = 1, N
S = S + X(I)
ENDDO
PRINT *, S
END
774
1
";

// The words, with what takes the place of an option.
const REFUSED: &str = ">>> gen OPTION
END
<<< 2 usage: fdc MODE [--ranks N] [--steps N] [--seed N] [--workers N] [--size N]
";

// Reading fails at once, and nothing notices it.
const UNREADABLE: Ends = Ends {
    deck_fail: 1,
    ..PLAIN
};

#[test]
fn a_mesh_is_made(rt: HostRuntime) -> Result<(), Fail> {
    hold(&rt, rt.alloc(), MADE)?;
    hold_over(&rt, rt.alloc(), &UNREADABLE, MADE)
}

#[test]
fn sizes_out_of_range_are_refused(rt: HostRuntime) -> Result<(), Fail> {
    for option in "--size=0 --size=50001 --size=18446744073709551616 --ranks=4".split(" ") {
        let table = REFUSED.replace(rt.alloc(), "OPTION", option)?;
        hold(&rt, rt.alloc(), table.as_str())?;
    }
    Ok(())
}
