// How an array is distributed.
ghost use Rattle.std.specs.Prelude.{◌≡◌, ◌<◌, length, option_map, IfSome};
ghost use Rattle.fd_prog.specs.Programs.{program_of};
ghost use Rattle.fd_prog.specs.Homes.{distribution_over as over, distribution_of as distribution, distribution_at as at};
ghost use Rattle.fd_prog.specs.Mapped.{IsDecomp, IsMapped, IsMappedArray};
ghost use Rattle.owner_part.specs.Distributions.{IsSmall, LiesAlong, view_of};

use fd_base::{Along, Dist};
use fd_prog::{Array, Decomp, Program};

/// How an array is distributed: the number of its decomposition, where its elements lie along the distributed dimension,
/// the least subscript and the extent of that dimension, and its attribute.
#[derive(Clone, Copy)]
pub struct Distribution {
    pub decomp: u16,
    pub along: Along,
    pub low: i64,
    pub extent: u32,
    pub dist: Dist,
}

/// How a decomposition is distributed for an array that lies so along it; None exactly where it is distributed nowhere.
fn distribution_over(number: u16, along: Along, decomp: &Decomp) -> Option<Distribution>
    requires { IsDecomp decomp.now }
    ensures { option_map view_of result ≡ over number along decomp.now }
{
    let dist = decomp.dist?;
    let dim = usize::from(decomp.dim);
    Some(Distribution {
        decomp: number,
        along,
        low: decomp.shape.low[dim],
        extent: decomp.shape.extent[dim],
        dist,
    })
}

/// How an array of the program is distributed; None exactly where it is replicated.
pub fn distribution_of(program: &Program, array: &Array) -> Option<Distribution>
    requires program { IsMapped (program_of program.now) }
    requires array { IsMappedArray (program_of program.now) array.now }
    ensures value { option_map view_of result ≡ distribution (program_of program.now) array.now }
    ensures small { IfSome result IsSmall }
    ensures along { IfSome result (λ d. LiesAlong array.now.shape (view_of d)) }
{
    let number = array.decomp?;
    let decomp = program.decomps.get(usize::from(number))?;
    distribution_over(number, array.along, decomp)
}

/// How the array with this number is distributed; None exactly where it is replicated, or there is no such array.
pub fn distribution_at(program: &Program, array: u16) -> Option<Distribution>
    requires { IsMapped (program_of program.now) }
    ensures value { option_map view_of result ≡ at (program_of program.now) array }
    ensures small { IfSome result IsSmall }
{
    let array = program.arrays.get(usize::from(array))?;
    distribution_of(program, array)
}
