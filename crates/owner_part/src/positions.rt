// Subscripts of elements, and their positions along a distributed dimension.
ghost use Rattle.std.specs.Prelude.{◌≡◌, ◌<◌, ◌≤◌, ◌^◌, pos, ◌+ℤ◌, ◌≤ℤ◌, ◌<ℤ◌};
ghost use Rattle.fd_base.specs.Numbers.{at_least_zero};
ghost use Rattle.fd_base.specs.Places.{IsAligned, position_of, subscript_at};
ghost use Rattle.fd_base.specs.Shapes.{IsShape, size_of};
ghost use Rattle.fd_prog.specs.Mapped.{IsBounded};

use fd_base::{Along, Shape};

/// The first subscript of an element.
pub fn first_subscript(shape: &Shape, element: u32) -> i64
    requires { IsBounded shape.now 0 }
    ensures { result ≡ subscript_at shape.now 0 element }
{
    shape.low[0] + i64::from(element % shape.extent[0])
}

/// The second subscript of an element.
pub fn second_subscript(shape: &Shape, element: u32) -> i64
    requires first { IsBounded shape.now 0 }
    requires second { IsBounded shape.now 1 }
    ensures { result ≡ subscript_at shape.now 1 element }
{
    shape.low[1] + i64::from(element / shape.extent[0])
}

/// The subscript of an element in a dimension, which is 0 or 1.
fn subscript(shape: &Shape, dim: u8, element: u32) -> i64
    requires first { IsBounded shape.now 0 }
    requires second { IsBounded shape.now 1 }
    requires dim { dim < 2 }
    ensures { result ≡ subscript_at shape.now dim element }
{
    if dim == 0 {
        first_subscript(shape, element)
    } else {
        second_subscript(shape, element)
    }
}

/// A sum that is a position.
fn sum_of(subscript: i64, shift: i64) -> u32
    requires low { pos 0 ≤ℤ (subscript +ℤ shift) }
    requires high { (subscript +ℤ shift) <ℤ pos (2 ^ 32) }
    ensures { result ≡ at_least_zero (subscript +ℤ shift) }
{
    (subscript + shift) as u32
}

/// The position of an element along a dimension of this extent, along which the shape lies so.
pub fn position(shape: &Shape, along: Along, extent: u32, element: u32) -> u32
    requires shape { IsShape shape.now }
    requires first { IsBounded shape.now 0 }
    requires second { IsBounded shape.now 1 }
    requires aligned { IsAligned shape.now along extent }
    requires element { element < size_of shape.now }
    ensures value { result ≡ position_of shape.now along element }
    ensures below { result < extent }
{
    match along {
        Along::Fixed(position) => position,
        Along::Dim { dim, shift } => sum_of(subscript(shape, dim, element), shift),
    }
}
