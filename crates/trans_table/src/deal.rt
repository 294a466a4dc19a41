// The parts of a table, each from the owners of the elements.
ghost use Rattle.std.specs.Prelude.{◌≡◌, ◌^◌, ◌<◌, ◌≤◌, All, IfOk, length, map};
ghost use Rattle.std.specs.List.{range_with_len};
ghost use Rattle.fd_base.specs.Places.{irregular_owners, owner_by_value};
ghost use Rattle.trans_table.specs.Tables.{elements_of, locals_of};

use fd_base::{ListOf, Memory};
use std::alloc::Global;

/// The owner that a map value gives.
fn owner_of(value: i64, ranks: u8) -> u8
    requires { 0 < ranks }
    ensures value { result ≡ owner_by_value ranks value }
    ensures below { result < ranks }
{
    value.rem_euclid(i64::from(ranks)) as u8
}

/// The owners of elements with these map values.
pub fn owners_of(alloc: Global, values: &[i64], ranks: u8) -> Result<Vec<u8>, Memory>
    requires { 0 < ranks }
    ensures owners { IfOk result (λ owners. owners.items ≡ irregular_owners values.now ranks) }
    ensures below { IfOk result (λ owners. All (λ owner. owner < ranks) owners.items) }
{
    let mut owners = Vec::with_capacity(alloc, values.len())?;
    for value in values {
        owners.push(owner_of(*value, ranks))?;
    }
    Ok(owners)
}

/// The local numbers of elements with these owners.
pub fn local_numbers(alloc: Global, owners: &[u8]) -> Result<Vec<u32>, Memory>
    requires owners { All (λ owner. owner < 16) owners.now }
    requires size { length owners.now < 2 ^ 32 }
    ensures { IfOk result (λ locals. locals.items ≡ locals_of owners.now) }
{
    let mut counts = [0_u32; 16];
    let mut locals = Vec::with_capacity(alloc, owners.len())?;
    for owner in owners {
        locals.push(counts[usize::from(*owner)])?;
        counts[usize::from(*owner)] += 1;
    }
    Ok(locals)
}

/// The elements of a rank, where they have these owners.
fn elements_with(alloc: Global, owners: &[u8], rank: u8) -> Result<ListOf<u32>, Memory>
    requires { length owners.now < 2 ^ 32 }
    ensures { IfOk result (λ elements. elements ≡ elements_of owners.now rank) }
{
    let mut elements = ListOf::new(alloc);
    for (element, owner) in owners.iter().enumerate() {
        if *owner == rank {
            elements.push(element as u32)?;
        }
    }
    Ok(elements)
}

/// The elements of each of the ranks.
pub fn elements_by_rank(alloc: Global, owners: &[u8], ranks: u8) -> Result<Vec<ListOf<u32>>, Memory>
    requires { length owners.now < 2 ^ 32 }
    ensures { IfOk result (λ elements. elements.items ≡ map (elements_of owners.now) (range_with_len 0 ranks)) }
{
    let mut elements = Vec::with_capacity(alloc, usize::from(ranks))?;
    for rank in 0..ranks {
        elements.push(elements_with(alloc, owners, rank)?)?;
    }
    Ok(elements)
}
