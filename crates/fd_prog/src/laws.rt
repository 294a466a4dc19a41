// What holds of every run in sequence, and of what ranks need.
ghost use Rattle.std.specs.Prelude.{◌≡◌, ◌<◌, ◌≤◌, ◌⊎◌, true, ℤ, ℕ, List, [], Ok, All, Contains};
ghost use Rattle.std.specs.Result.{result_err};
ghost use Rattle.fd_base.specs.Numbers.{fits_i64};
ghost use Rattle.fd_base.specs.declared.numbering.Line.{Line as SourceLine};
ghost use Rattle.fd_base.specs.Places.{is_owner};
ghost use Rattle.fd_base.specs.Shapes.{size_of};
ghost use Rattle.fd_prog.specs.Outcomes.{and_then};
ghost use Rattle.fd_prog.specs.Conditions.{Condition};
ghost use Rattle.fd_prog.specs.Statements.{Statement, Target, While, Statements};
ghost use Rattle.fd_prog.specs.Programs.{CheckedProgram};
ghost use Rattle.fd_prog.specs.Stores.{ScalarCell, Store, assigned, put, read_into, readings_of, shape_of};
ghost use Rattle.fd_prog.specs.Homes.{Distribution, distribution_at, home_of_statement};
ghost use Rattle.fd_prog.specs.Items.{LinearItem, Enclosing, Name, item_names, item_of_reference};
ghost use Rattle.fd_prog.specs.Needs.{Sight, needs, reads_in, visited};
ghost use Rattle.fd_prog.specs.Expressions.{Expression, Expressions};
ghost use Rattle.fd_prog.specs.Forms.{LinearForm};
ghost use Rattle.fd_prog.specs.FormOf.{form_of_expression, forms_of_expressions};
ghost use Rattle.fd_prog.specs.WellFormed.{Names, IsSound, IsSoundProgram, names_of};
ghost use Rattle.fd_prog.specs.SoundForms.{IsSoundForm, IsSoundItem};
ghost use Rattle.fd_prog.specs.Uses.{for_all_ranks, for_home_of, items_of};
ghost use Rattle.fd_prog.specs.Agreement.{AgreeOn, names_read};
ghost use Rattle.fd_prog.specs.Values.{truth_of};
ghost use Rattle.fd_prog.specs.FormValues.{AreWords, IsOneNumber};
ghost use Rattle.fd_prog.specs.Sequence.{Bounds, Task, Progress, step, bounds_of, chosen, after, after_all, gained};
ghost use Rattle.fd_prog.specs.Passed.{IsPassed};
ghost use Rattle.fd_prog.specs.Words.{HasWords, SetWords};

/// A DO WHILE is a step that tests its condition and, where that holds, the body and the DO WHILE again.
pub fn while_again()
    ensures { (t : Task) (line : SourceLine) (c : Condition) (body : Statements) (now : Progress) → after t (While line c body) now ≡ step t.limit line now (truth_of (readings_of t.program now.store) c) (λ b next. chosen b (λ inside. and_then (after_all t body inside) (after t (While line c body))) (λ outside. Ok outside) next) }
{}

/// Where a run goes on behind a statement, it has made no fewer steps.
pub fn steps_rise()
    ensures { (t : Task) (s : Statement) (now next : Progress) → after t s now ≡ Ok next → now.steps ≤ next.steps }
{}

/// Wherever a run comes by, all numbers that it has stored fit 64 bits, where those of the input and of the program do; and in every store all references read one number of an element.
pub fn stores_are_words()
    ensures words { (t : Task) (p : Progress) → All (λ n. fits_i64 n ≡ true) t.input → SetWords t.program.body → IsPassed t p → AreWords (readings_of t.program p.store) }
    ensures one { (p : CheckedProgram) (s : Store) → IsOneNumber (readings_of p s) }
{}

/// Each step of a run that stores a number stores one that fits 64 bits, where the numbers before it do, and those of the input and of what the step values.
pub fn steps_store_words()
    ensures assignment { (p : CheckedProgram) (target : Target) (e : Expression) (s next : Store) → AreWords (readings_of p s) → HasWords e → assigned p target e s ≡ Ok next → AreWords (readings_of p next) }
    ensures reading { (p : CheckedProgram) (input : List ℤ) (target : Target) (s next : Store) → All (λ n. fits_i64 n ≡ true) input → AreWords (readings_of p s) → read_into p input target s ≡ Ok next → AreWords (readings_of p next) }
    ensures start { (p : CheckedProgram) (var : ℕ) (first last by : Expression) (b : Bounds) (s : Store) → AreWords (readings_of p s) → HasWords first → bounds_of (readings_of p s) first last by ≡ Ok b → AreWords (readings_of p (put (ScalarCell var) b.first s)) }
    ensures gain { (p : CheckedProgram) (var : ℕ) (by : ℤ) (s next : Store) → AreWords (readings_of p s) → gained var by s ≡ Ok next → AreWords (readings_of p next) }
{}

/// A rank needs the same by an item in two views that agree on the names that its needs are read from and on places; these are names of the item.
pub fn same_names_give_same_needs()
    ensures needs { (s t : Sight) (x : LinearItem) (rank limit : ℕ) → AgreeOn s t x → needs t x rank limit ≡ needs s x rank limit }
    ensures names { (p : CheckedProgram) (x : LinearItem) (name : Name) → Contains (names_read x) name → Contains (item_names p x) name }
{}

/// An element that a rank reads by an item in a visited iteration is its own, or one of its needs.
pub fn reads_are_own_or_needed()
    ensures { (s : Sight) (x : LinearItem) (rank limit element : ℕ) (vs : List ℤ) → Contains (visited s.readings x limit) vs → reads_in s x rank element vs ≡ true → element < size_of (shape_of s.program x.array) → (is_owner (s.array_place x.array) element rank ≡ true) ⊎ Contains (needs s x rank limit) element }
{}

/// The form of a sound expression keeps the limits at every depth and names what the program has, and so do all forms of a sound program's items.
pub fn forms_are_sound()
    ensures forms { (n : Names) (bound : List ℕ) (e : Expression) (f : LinearForm) → form_of_expression bound e ≡ Ok f → IsSound n e → IsSoundForm n f }
    ensures items { (p : CheckedProgram) → IsSoundProgram p → All (IsSoundItem (names_of p)) (items_of p) }
{}

/// The form of an expression over widened variables is refused by the limit that it is refused by without them, and by none where there is none; so an item of a distributed array is refused exactly where the form of a subscript, or that of its statement's home, is refused by itself.
pub fn widening_keeps_limits()
    ensures forms { (bound : List ℕ) (e : Expression) → result_err (form_of_expression bound e) ≡ result_err (form_of_expression [] e) }
    ensures for_all_ranks { (p : CheckedProgram) (around : List Enclosing) (line : SourceLine) (array : ℕ) (subs : Expressions) (d : Distribution) → distribution_at p array ≡ Some d → result_err (item_of_reference p (for_all_ranks p around line).setting array subs) ≡ result_err (forms_of_expressions [] subs) }
    ensures for_homes { (p : CheckedProgram) (around : List Enclosing) (line : SourceLine) (s : Statement) (array : ℕ) (subs : Expressions) (d : Distribution) → distribution_at p array ≡ Some d → result_err (item_of_reference p (for_home_of p around line s).setting array subs) ≡ result_err (and_then (forms_of_expressions [] subs) (λ fs. home_of_statement p [] s)) }
{}
