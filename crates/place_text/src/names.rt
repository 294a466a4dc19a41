// The names of a program by their numbers.
ghost use Rattle.std.specs.Prelude.{◌≡◌};
ghost use Rattle.fd_prog.specs.Programs.{program_of};
ghost use Rattle.place_text.specs.Names as names;

use fd_prog::{Func, Program};

/// The name of a scalar, or no bytes where there is none of this number.
pub fn scalar_name(program: &Program, scalar: u16) -> &[u8]
    ensures { result.now ≡ names.scalar_name (program_of program.now) scalar }
{
    match program.scalars.get(usize::from(scalar)) {
        Some(name) => name.as_slice(),
        None => &[],
    }
}

/// The name of an array, or no bytes where there is none of this number.
pub fn array_name(program: &Program, array: u16) -> &[u8]
    ensures { result.now ≡ names.array_name (program_of program.now) array }
{
    match program.arrays.get(usize::from(array)) {
        Some(array) => array.name.as_slice(),
        None => &[],
    }
}

/// The name of a decomposition, or no bytes where there is none of this number.
pub fn decomp_name(program: &Program, decomp: u16) -> &[u8]
    ensures { result.now ≡ names.decomp_name (program_of program.now) decomp }
{
    match program.decomps.get(usize::from(decomp)) {
        Some(decomp) => decomp.name.as_slice(),
        None => &[],
    }
}

/// The name of a function.
pub fn function_name(function: Func) -> &'static [u8]
    ensures { result.now ≡ names.function_name function }
{
    match function {
        Func::Mod => b"MOD",
        Func::Abs => b"ABS",
        Func::Min => b"MIN",
        Func::Max => b"MAX",
    }
}
