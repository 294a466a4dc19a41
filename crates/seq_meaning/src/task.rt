// What is run, and the cells that its expressions read.
ghost use Rattle.std.specs.Prelude.{◌≡◌, ℕ, ◌≤◌, ◌<◌};
ghost use Rattle.fd_base.specs.Shapes.{IsShape};
ghost use Rattle.fd_prog.specs.Programs.{program_of};
ghost use Rattle.fd_prog.specs.Stores.{shape_of, readings_of};
ghost use Rattle.fd_prog.specs.WellFormed.{Names, names_of};
ghost use Rattle.fd_prog.specs.Values.{Readings};
ghost use Rattle.seq_meaning.specs.Stored.{store_of};

use crate::store::Store;
use expr_eval::Cells;
use fd_base::{FaultKind, ordinal};
use fd_prog::Program;

/// A program on the numbers of an input, up to a limit of steps.
#[derive(Clone, Copy)]
pub struct Task<'a> {
    pub program: &'a Program,
    pub input: &'a [i64],
    pub limit: u64,
    ghost shapes: { (k : ℕ) → IsShape (shape_of (program_of program.now) k) },
    ghost bounded: { limit ≤ 100000000 },
}

impl<'a> Task<'a> {
    /// The cells of the program in a store.
    pub fn cells(&self, store: &'a Store) -> StoreCells<'a>
        ensures program { result.program.now ≡ self.now.program.now }
        ensures store { result.store.now ≡ store.now }
    {
        StoreCells {
            program: self.program,
            store,
        }
    }
}

/// The numbers of a store, with the shapes of the program's arrays.
#[derive(Clone, Copy)]
pub struct StoreCells<'a> {
    pub program: &'a Program,
    pub store: &'a Store,
    ghost shapes: { (k : ℕ) → IsShape (shape_of (program_of program.now) k) },
}

impl Cells for StoreCells<'_> {
    ghost names = { λ c. names_of (program_of c.program.now) };

    ghost readings = { λ c. readings_of (program_of c.program.now) (store_of c.store.now) };

    fn scalar(&self, s: u16) -> i64 {
        self.store.number_of(s)
    }

    fn element(&self, array: u16, _site: Option<u32>, subs: [i64; 2]) -> Result<i64, FaultKind> {
        let array = array as usize;
        let arrays = self.program.arrays.as_slice();
        let number = ordinal(&arrays[array].shape, subs)?;
        Ok(self.store.number_at(array, number as usize))
    }
}
