// Index domains, the place of an array in its decomposition, and how a dimension is distributed.
ghost use Rattle.std.specs.Prelude.{◌≡◌, ◌<◌, ◌-ℤ◌, pos, get_or, ok_or, IfSome};
ghost use Rattle.fd_base.specs.Shapes.{IsShape, extent_of, offset_of, ordinal_of};
ghost use Rattle.fd_base.specs.declared.numbers.FaultKind.TheVariants.{Bounds};

use crate::FaultKind;

/// The bounds of an array or a decomposition. With one dimension the second lower bound is 0 and the second extent is 1.
#[derive(Clone, Copy, PartialEq, Eq)]
pub struct Shape {
    /// 1 or 2.
    pub dims: u8,
    /// The least subscript of each dimension.
    pub low: [i64; 2],
    /// The number of subscripts of each dimension.
    pub extent: [u32; 2],
}

/// The zero-based position of an array's elements along the distributed dimension of its decomposition.
#[derive(Clone, Copy, PartialEq, Eq)]
pub enum Along {
    /// All elements have this position.
    Fixed(u32),
    /// The subscript of the array's dimension `dim`, which is 0 or 1, plus the shift.
    Dim { dim: u8, shift: i64 },
}

/// How the positions of a dimension are dealt to the ranks. The first three are regular.
#[derive(Clone, Copy, PartialEq, Eq)]
pub enum Dist {
    /// In blocks of ceil(extent / ranks) positions, one for each rank in order. The last block with a position may be smaller,
    /// and the ranks behind it have none.
    Block,
    /// Position by position in turn.
    Cyclic,
    /// Blocks of this many positions in turn, at least 1.
    BlockCyclic(u32),
    /// By the values of a map array.
    Irregular,
    /// By a statement that the run executes later.
    Later,
}

/// The zero-based column-major number of the element at `subs`, or Bounds exactly where a subscript is outside. With one
/// dimension the second subscript is 0.
pub fn ordinal(shape: &Shape, subs: [i64; 2]) -> Result<u32, FaultKind>
    requires { IsShape shape.now }
    ensures { result ≡ ordinal_of shape.now subs }
{
    place(shape, subs).ok_or(FaultKind::Bounds)
}

/// The same, or None exactly where a subscript is outside. It takes no call, since loops ask for little else.
#[inline(always)]
pub fn place(shape: &Shape, subs: [i64; 2]) -> Option<u32>
    requires { IsShape shape.now }
    ensures { ordinal_of shape.now subs ≡ ok_or result Bounds }
{
    let [first, second] = subs;
    let i = offset(shape, 0, first)?;
    let j = offset(shape, 1, second)?;
    Some(i + shape.extent[0] * j)
}

/// The same where the second subscript is 0, which in one dimension is inside its bounds and takes no test.
#[inline(always)]
pub fn place_in_row(shape: &Shape, subs: [i64; 2]) -> Option<u32>
    requires shape { IsShape shape.now }
    requires row { get_or subs 1 (pos 0) ≡ pos 0 }
    ensures { ordinal_of shape.now subs ≡ ok_or result Bounds }
{
    if shape.dims == 1 {
        offset(shape, 0, subs[0])
    } else {
        place(shape, subs)
    }
}

/// How far a subscript is above the lower bound of its dimension, which is 0 or 1; None exactly where it is outside the bounds.
#[inline(always)]
fn offset(shape: &Shape, dim: usize, subscript: i64) -> Option<u32>
    requires { dim < 2 }
    ensures value { result ≡ offset_of shape.now dim subscript }
    ensures inside { IfSome result (λ n. n < extent_of shape.now dim) }
{
    let low = shape.low[dim];
    if subscript < low {
        return None;
    }
    let above = subscript.abs_diff(low);
    if above < u64::from(shape.extent[dim]) {
        Some(above as u32)
    } else {
        None
    }
}
