// What an expression reads.
ghost use Rattle.std.specs.Prelude.{◌≡◌, ◌<◌};
ghost use Rattle.fd_prog.specs.Values.{Readings, element_value};
ghost use Rattle.fd_prog.specs.WellFormed.{Names};

use fd_base::FaultKind;

/// Numbers of scalars and of arrays' elements. An element's number may depend on which reference reads it.
pub trait Cells {
    /// The scalars and arrays that there are.
    ghost names: { Self → Names };

    /// The number of each scalar, the shape of each array, and the number of each element at each reference.
    ghost readings: { Self → Readings };

    /// The number of a scalar.
    fn scalar(&self, s: u16) -> i64
        requires { s < (names self.now).scalars }
        ensures { result ≡ (readings self.now).scalar s };

    /// The number of the element that the subscripts name, or Bounds exactly where one is outside; with one dimension the second subscript is 0. `site` is the number of the reference, and None for an element inside a form.
    fn element(&self, array: u16, site: Option<u32>, subs: [i64; 2]) -> Result<i64, FaultKind>
        requires { array < (names self.now).arrays }
        ensures { result ≡ element_value (readings self.now) array site subs };
}
