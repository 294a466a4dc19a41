// What holds of the items of every program.
ghost use Rattle.std.specs.Prelude.{◌≡◌, ℕ, ◌==◌, Some, Contains, find};
ghost use Rattle.fd_prog.specs.Needs.{Sight, needs};
ghost use Rattle.fd_prog.specs.Programs.{CheckedProgram};
ghost use Rattle.fd_prog.specs.Uses.{Use, item_at_site, uses_of};
ghost use Rattle.section_num.specs.Numbers.{number_of_use};

/// References whose items have one number have equal needs: in every store, wherever the arrays are placed, on every rank, and up to every limit on iterations.
pub fn equal_numbers_need_the_same()
    ensures uses { (p : CheckedProgram) (u v : Use) → Contains (uses_of p) u → Contains (uses_of p) v → number_of_use p u ≡ number_of_use p v
        → (s : Sight) (rank limit : ℕ) → needs s u.item rank limit ≡ needs s v.item rank limit }
    ensures references { (p : CheckedProgram) (i j : ℕ) (u v : Use) → find (λ (w : Use). w.site == i) (uses_of p) ≡ Some u → find (λ (w : Use). w.site == j) (uses_of p) ≡ Some v
        → item_at_site p i ≡ item_at_site p j → (s : Sight) (rank limit : ℕ) → needs s u.item rank limit ≡ needs s v.item rank limit }
{}
