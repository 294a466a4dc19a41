// The words of a set, in the set itself or in a block of their own.
ghost use Rattle.std.specs.Prelude.{◌≡◌, ℕ, ◌+◌, ◌/◌, max, false, length, IfOk};
ghost use Rattle.std.specs.Borrow.{sem};
ghost use Rattle.fd_sets.specs.Sets.{in_words};
ghost use Rattle.fd_sets.specs.Kept.{words_of, LendsWords};

use fd_base::Memory;
use std::alloc::Global;

/// The words of the items up to 575 stand in the set itself, those of more in a vector.
#[derive(Drop)]
pub enum Words {
    Few([u64; 9]),
    Many(Vec<u64>),
}

impl Words {
    /// Words for the items up to `items`, none of which is in.
    pub fn none(alloc: Global, items: u16) -> Result<Words, Memory>
        ensures count { IfOk result (λ w. length (words_of w) ≡ max 9 (items / 64 + 1)) }
        ensures none { IfOk result (λ w. (q : ℕ) → in_words (words_of w) q ≡ false) }
    {
        if items < 576 {
            return Ok(Words::Few([0; 9]));
        }
        let words = vec![in alloc; 0u64; usize::from(items / 64) + 1]?;
        Ok(Words::Many(words))
    }

    /// The words.
    pub fn as_slice(&self) -> &[u64]
        ensures { result.now ≡ words_of self.now }
    {
        match self {
            Words::Few(words) => words.as_slice(),
            Words::Many(words) => words.as_slice(),
        }
    }

    /// The words, to be changed.
    pub fn as_mut_slice(&mut self) -> &mut [u64]
        ensures* writes_back { sem 𝓛 (LendsWords self.entry result) }
        ensures value { result.now ≡ words_of self.old }
    {
        match self {
            Words::Few(words) => words.as_mut_slice(),
            Words::Many(words) => words.as_mut_slice(),
        }
    }
}
