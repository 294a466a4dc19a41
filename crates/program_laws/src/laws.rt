// What holds of every accepted program.
ghost use Rattle.std.specs.Prelude.{◌≡◌, ◌<◌, ◌≤◌, ◌^◌, ℕ, ℤ, true, List, [], All, Contains, Some, IsOk, slice_get};
ghost use Rattle.fd_base.specs.Numbers.{fits_i64};
ghost use Rattle.fd_base.specs.Shapes.{size_of};
ghost use Rattle.fd_base.specs.declared.numbering.Line.{Line};
ghost use Rattle.fd_prog.specs.Expressions.{Expressions};
ghost use Rattle.fd_prog.specs.declared.program.Array.{Array};
ghost use Rattle.fd_prog.specs.Checked.{Reference, statements_references};
ghost use Rattle.fd_prog.specs.FormValues.{AreWords};
ghost use Rattle.fd_prog.specs.Nodes.{Node, nodes_of};
ghost use Rattle.fd_prog.specs.Passed.{IsPassed};
ghost use Rattle.fd_prog.specs.Programs.{CheckedProgram};
ghost use Rattle.fd_prog.specs.Sequence.{Progress, Task};
ghost use Rattle.fd_prog.specs.Stores.{Store, readings_of};
ghost use Rattle.fd_prog.specs.FormOf.{forms_of_expressions};
ghost use Rattle.fd_prog.specs.Homes.{Distribution, distribution_at, home_of_statement};
ghost use Rattle.fd_prog.specs.Items.{Enclosing, item_of_reference};
ghost use Rattle.fd_prog.specs.Statements.{Statement};
ghost use Rattle.fd_prog.specs.Uses.{for_all_ranks, for_home_of};
ghost use Rattle.program_laws.specs.Accepted.{IsAcceptedProgram};
ghost use Rattle.program_laws.specs.Own.{IsSmallDimension};
ghost use Rattle.program_laws.specs.Steps.{Stores};

/// A reference to a distributed array whose subscripts have forms, as all have in an accepted program, has its item or is local, whatever loops stand
/// around it: none is lost to a limit.
pub fn references_have_items()
    ensures for_all_ranks { (p : CheckedProgram) (around : List Enclosing) (line : Line) (array : ℕ) (subs : Expressions) (d : Distribution) → distribution_at p array ≡ Some d → IsOk (forms_of_expressions [] subs) → IsOk (item_of_reference p (for_all_ranks p around line).setting array subs) }
    ensures for_homes { (p : CheckedProgram) (around : List Enclosing) (line : Line) (s : Statement) (array : ℕ) (subs : Expressions) (d : Distribution) → distribution_at p array ≡ Some d → IsOk (forms_of_expressions [] subs) → IsOk (home_of_statement p [] s) → IsOk (item_of_reference p (for_home_of p around line s).setting array subs) }
{}

/// An accepted program has fewer than 2^32 references, and arrays and distributed dimensions of at most 262,144 elements
/// and positions.
pub fn accepted_numbers_are_small()
    ensures arrays { (p : CheckedProgram) (k : ℕ) (a : Array) → IsAcceptedProgram p → slice_get p.arrays k ≡ Some a → (k < 128) × (size_of a.shape ≤ 262144) }
    ensures dimensions { (p : CheckedProgram) (k : ℕ) (d : Distribution) → IsAcceptedProgram p → distribution_at p k ≡ Some d → IsSmallDimension d }
    ensures references { (p : CheckedProgram) → IsAcceptedProgram p → All (λ (r : Reference). r.site < 2 ^ 32) (statements_references p.body) }
{}

/// Where a run in sequence of an accepted program comes by, all numbers in the store fit 64 bits. So they do behind each step
/// of the program that stores a number, wherever they did before, also where the run in sequence doesn't come by.
pub fn accepted_stores_are_words()
    ensures run { (t : Task) (now : Progress) → IsAcceptedProgram t.program → All (λ n. fits_i64 n ≡ true) t.input → IsPassed t now → AreWords (readings_of t.program now.store) }
    ensures step { (p : CheckedProgram) (input : List ℤ) (node : Node) (s next : Store) → IsAcceptedProgram p → All (λ n. fits_i64 n ≡ true) input → Contains (nodes_of p) node → AreWords (readings_of p s) → Stores p input node.role s next → AreWords (readings_of p next) }
{}
