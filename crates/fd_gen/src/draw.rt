// Numbers that are drawn one after another from a state of 64 bits, and a permutation that is drawn.
ghost use Rattle.std.specs.Prelude.{◌≡◌, IfOk};
ghost use Rattle.std.specs.List.{range_with_len};
ghost use Rattle.fd_gen.specs.Draws.{draws_modulo, drawn, next_state, permutation, state_after};

use fd_base::Memory;
use std::alloc::Global;

/// A source of numbers. From state 1 the first is 908,834,774.
#[derive(Drop)]
pub struct Generator {
    pub state: u64,
}

impl Generator {
    /// The next number, which is below 2^31.
    pub fn draw(&mut self) -> u64
        ensures state { self.new.state ≡ next_state self.old.state }
        ensures number { result ≡ drawn self.new.state }
    {
        self.state = self
            .state
            .wrapping_mul(6_364_136_223_846_793_005)
            .wrapping_add(1_442_695_040_888_963_407);
        self.state >> 33
    }

    /// As many numbers as are asked for, each taken modulo 1,000.
    pub fn draw_map(&mut self, alloc: Global, size: u32) -> Result<Vec<u64>, Memory>
        ensures state { IfOk result (λ values. self.new.state ≡ state_after self.old.state size) }
        ensures values { IfOk result (λ values. values.items ≡ draws_modulo 1000 self.old.state size) }
    {
        let mut values = Vec::with_capacity(alloc, size as usize)?;
        for n in 0..size {
            values.push(self.draw() % 1_000)?;
        }
        Ok(values)
    }

    /// The numbers from 1 to the size in a drawn order. For each count from the size down to 2 a number is drawn, and one
    /// of so many first numbers changes places with the last of these.
    pub fn draw_permutation(mut self, alloc: Global, size: u32) -> Result<Vec<u64>, Memory>
        ensures { IfOk result (λ numbers. numbers.items ≡ permutation self.state size) }
    {
        let mut numbers = numbers_to(alloc, size)?;
        for last in (1..size).rev() {
            let other = self.draw() % (u64::from(last) + 1);
            numbers.swap(last as usize, other as usize);
        }
        Ok(numbers)
    }
}

// The numbers from 1 to the size in order.
fn numbers_to(alloc: Global, size: u32) -> Result<Vec<u64>, Memory>
    ensures { IfOk result (λ numbers. numbers.items ≡ range_with_len 1 size) }
{
    let numbers = (1..u64::from(size) + 1).collect(alloc)?;
    Ok(numbers)
}
