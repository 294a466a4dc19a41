// What follows from the definitions.
ghost use Rattle.std.specs.Prelude.{◌≡◌, ℕ, ℤ, List, Ok, Err};
ghost use Rattle.fd_input.specs.Bad.{IsBadAt, IsFirstBad};
ghost use Rattle.fd_input.specs.Text.{input_numbers};

/// An input that isn't read has its first bad byte at the offset that is told, and one that is read has no bad byte.
pub fn first_bad_byte()
    ensures bad { (bytes : List ℕ) (k : ℕ) → input_numbers bytes ≡ Err k → IsFirstBad bytes k }
    ensures good { (bytes : List ℕ) (xs : List ℤ) → input_numbers bytes ≡ Ok xs → (k : ℕ) → IsBadAt bytes k → ⊥ }
{}
