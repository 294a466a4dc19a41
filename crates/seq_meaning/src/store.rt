// The numbers of a run.
ghost use Rattle.std.specs.Prelude.{◌≡◌, ℕ, IfOk, pos, [], slice_index_or};
ghost use Rattle.fd_base.specs.Shapes.{IsShape, size_of};
ghost use Rattle.fd_prog.specs.Stores.{put, first_store, shape_of};
ghost use Rattle.fd_prog.specs.Programs.{program_of};
ghost use Rattle.seq_meaning.specs.Stored.{store_of, cell_in};

use fd_base::{Memory, NumList, Shape};
use fd_prog::Program;
use std::alloc::Global;

/// The number of each scalar, the numbers of each array in column-major order, and how many numbers of the input were taken.
#[derive(Drop)]
pub struct Store {
    pub scalars: Vec<i64>,
    pub arrays: Vec<NumList>,
    pub taken: usize,
}

/// Where a number is kept: a scalar by its number, or an element by its array and its column-major number.
#[derive(Clone, Copy)]
pub enum Cell {
    Scalar(u16),
    Element(u16, u32),
}

impl Store {
    /// A number 0 for each scalar and each element of the program.
    pub fn first(alloc: Global, program: &Program) -> Result<Store, Memory>
        requires { (k : ℕ) → IsShape (shape_of (program_of program.now) k) }
        ensures { IfOk result (λ s. store_of s ≡ first_store (program_of program.now)) }
    {
        let scalars = vec![in alloc; 0i64; program.scalars.len()]?;
        let arrays = zeros(alloc, program)?;
        Ok(Store {
            scalars,
            arrays,
            taken: 0,
        })
    }

    /// The number of a scalar, or 0 where there is no such scalar.
    pub fn number_of(&self, scalar: u16) -> i64
        ensures { result ≡ slice_index_or self.now.scalars.items scalar (pos 0) }
    {
        let scalars = self.scalars.as_slice();
        scalars.get(scalar as usize).copied().unwrap_or(0)
    }

    /// The number of an element, or 0 where there is no such element.
    pub fn number_at(&self, array: usize, element: usize) -> i64
        ensures { result ≡ slice_index_or (slice_index_or self.now.arrays.items array []) element (pos 0) }
    {
        if array < self.arrays.len() {
            let elements = self.arrays[array].as_slice();
            if element < elements.len() {
                elements[element]
            } else {
                0
            }
        } else {
            0
        }
    }

    /// Puts a number into a cell; where there is no such cell, nothing changes.
    pub fn put(&mut self, cell: Cell, number: i64)
        ensures { store_of self.new ≡ put (cell_in cell) number (store_of self.old) }
    {
        match cell {
            Cell::Scalar(scalar) => {
                let scalar = scalar as usize;
                if scalar < self.scalars.len() {
                    self.scalars[scalar] = number;
                }
            }
            Cell::Element(array, element) => {
                let array = array as usize;
                let element = element as usize;
                if array < self.arrays.len() && element < self.arrays[array].len() {
                    let elements = &mut self.arrays[array];
                    elements.set(element, number);
                }
            }
        }
    }
}

// The elements of all arrays, which are 0.
fn zeros(alloc: Global, program: &Program) -> Result<Vec<NumList>, Memory>
    requires { (k : ℕ) → IsShape (shape_of (program_of program.now) k) }
    ensures { IfOk result (λ arrays. arrays.items ≡ (first_store (program_of program.now)).arrays) }
{
    let mut arrays = Vec::new(alloc);
    for array in program.arrays.as_slice() {
        let elements = vec![in alloc; 0i64; size(&array.shape)]?;
        arrays.push(NumList::from_vec(elements))?;
    }
    Ok(arrays)
}

// The number of elements.
fn size(shape: &Shape) -> usize
    requires { IsShape shape.now }
    ensures { result ≡ size_of shape.now }
{
    shape.extent[0] as usize * shape.extent[1] as usize
}
