// The arrays and decompositions of a program, once all mapping statements are known.
ghost use Rattle.std.specs.Prelude.{◌≡◌, IfOk, get_or, map, slice_get};
ghost use Rattle.fd_base.specs.declared.shapes.Along.TheVariants.{Fixed};
ghost use Rattle.fd_names.specs.Declarations.{finished_array, finished_arrays, finished_decomp, finished_decomps, is_dealt_by, spread_dim};

use crate::declarations::{Alignment, Spread};
use fd_base::{Along, Bytes, ListOf, Memory};
use fd_prog::{Array, ArrayList, Decomp, DecompList};
use std::alloc::Global;

/// The distributed dimension of a decomposition.
fn spread_dim(spread: Option<Spread>) -> u8
    ensures { result ≡ spread_dim spread }
{
    match spread {
        None => 0,
        Some(spread) => spread.dim,
    }
}

/// Where an array lies along the distributed dimension of its decomposition.
fn finished_along(alignment: Alignment, spreads: &[Spread]) -> Along
    ensures { result ≡ get_or alignment.along (spread_dim (slice_get spreads.now alignment.decomp)) (Fixed 0) }
{
    let dim = spread_dim(spreads.get(alignment.decomp).copied());
    match alignment.along.get(usize::from(dim)) {
        Some(along) => *along,
        None => Along::Fixed(0),
    }
}

/// The number of a decomposition in a program. One that isn't refused has at most 16,384, so that each number fits.
fn program_number(decomp: usize) -> Result<u16, Memory>
    ensures { IfOk result (λ number. number ≡ decomp) }
{
    u16::try_from(decomp).map_err(|_| Memory)
}

/// An array with its decomposition, and where it lies along the distributed dimension of that one.
fn finished_array(
    alloc: Global,
    array: &Array,
    alignment: Option<Alignment>,
    spreads: &[Spread],
) -> Result<Array, Memory>
    ensures { IfOk result (λ a. a ≡ finished_array spreads.now array.now alignment) }
{
    let name = Bytes::from_slice(alloc, array.name.as_slice())?;
    match alignment {
        None => Ok(Array {
            name,
            shape: array.shape,
            decomp: array.decomp,
            along: array.along,
        }),
        Some(alignment) => {
            let decomp = program_number(alignment.decomp)?;
            Ok(Array {
                name,
                shape: array.shape,
                decomp: Some(decomp),
                along: finished_along(alignment, spreads),
            })
        }
    }
}

/// Whether an array's decomposition is distributed.
fn is_dealt_by(spreads: &[Spread], alignment: Option<Alignment>) -> bool
    ensures { result ≡ is_dealt_by spreads.now alignment }
{
    match alignment {
        None => false,
        Some(alignment) => match spreads.get(alignment.decomp) {
            None => false,
            Some(spread) => spread.dist.is_some(),
        },
    }
}

/// Which arrays are distributed.
pub fn dealt_arrays(
    alloc: Global,
    alignments: &[Option<Alignment>],
    spreads: &[Spread],
) -> Result<ListOf<bool>, Memory>
    ensures { IfOk result (λ made. made ≡ map (is_dealt_by spreads.now) alignments.now) }
{
    let mut made = ListOf::new(alloc);
    for alignment in alignments {
        made.push(is_dealt_by(spreads, *alignment))?;
    }
    Ok(made)
}

/// The arrays of the program.
#[tactic(auto, using(crate::proofs::Lengths::append_last))]
pub fn finish_arrays(
    alloc: Global,
    arrays: &[Array],
    alignments: &[Option<Alignment>],
    spreads: &[Spread],
) -> Result<ArrayList, Memory>
    ensures { IfOk result (λ made. made ≡ finished_arrays spreads.now arrays.now alignments.now) }
{
    let mut made = ArrayList::new(alloc);
    let mut left = alignments;
    for array in arrays {
        let (alignment, rest) = match left {
            [] => (None, left),
            [first, rest @ ..] => (*first, rest),
        };
        made.push(finished_array(alloc, array, alignment, spreads)?)?;
        left = rest;
    }
    Ok(made)
}

/// A decomposition with its distributed dimension.
fn finished_decomp(alloc: Global, decomp: &Decomp, spread: Option<Spread>) -> Result<Decomp, Memory>
    ensures { IfOk result (λ d. d ≡ finished_decomp decomp.now spread) }
{
    let name = Bytes::from_slice(alloc, decomp.name.as_slice())?;
    match spread {
        None => Ok(Decomp {
            name,
            shape: decomp.shape,
            dim: decomp.dim,
            dist: decomp.dist,
        }),
        Some(spread) => Ok(Decomp {
            name,
            shape: decomp.shape,
            dim: spread.dim,
            dist: spread.dist,
        }),
    }
}

/// The decompositions of the program.
#[tactic(auto, using(crate::proofs::Lengths::append_last))]
pub fn finish_decomps(
    alloc: Global,
    decomps: &[Decomp],
    spreads: &[Spread],
) -> Result<DecompList, Memory>
    ensures { IfOk result (λ made. made ≡ finished_decomps decomps.now spreads.now) }
{
    let mut made = DecompList::new(alloc);
    let mut left = spreads;
    for decomp in decomps {
        let (spread, rest) = match left {
            [] => (None, left),
            [first, rest @ ..] => (Some(*first), rest),
        };
        made.push(finished_decomp(alloc, decomp, spread)?)?;
        left = rest;
    }
    Ok(made)
}
