// What holds of every verdict.
ghost use Rattle.std.specs.Prelude.{◌≡◌, ℕ};
ghost use Rattle.fd_prog.specs.Paths.{Plan};
ghost use Rattle.place_check.specs.declared.verdict.Verdict.{Verdict};
ghost use Rattle.place_check.specs.Verdicts.{IsVerdict};

/// A placement has one verdict.
pub fn one_verdict()
    ensures { (p : Plan) (last : ℕ) (v w : Verdict) → IsVerdict p last v → IsVerdict p last w → v ≡ w }
{}
