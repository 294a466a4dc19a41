// What holds of every course of a program.
ghost use Rattle.std.specs.Prelude.{◌≡◌, ◌+ℤ◌, ◌*ℤ◌, ◌<◌, ◌≤◌, ◌⊎◌, ℕ, ℤ, true, map, pos, slice_index_or, All, Contains, List, Option, Some, Ok, Result, ◌∷◌};
ghost use Rattle.fd_base.specs.Numbers.{fits_i64};
ghost use Rattle.fd_base.specs.Places.{is_owner};
ghost use Rattle.fd_base.specs.Shapes.{ordinal_of};
ghost use Rattle.fd_prog.specs.declared.form.FormRefusal.{FormRefusal};
ghost use Rattle.fd_prog.specs.Agreement.{AgreeOn};
ghost use Rattle.fd_prog.specs.Expressions.{Expressions};
ghost use Rattle.fd_prog.specs.Homes.{Executor};
ghost use Rattle.fd_prog.specs.Items.{LinearItem, Name, all_loop_forms, item_of_reference};
ghost use Rattle.fd_prog.specs.Mappings.{Mapping, array_place, sight_of};
ghost use Rattle.fd_prog.specs.Needs.{Sight, executes_at, needs, visited};
ghost use Rattle.fd_prog.specs.Sequence.{Task, after_all};
ghost use Rattle.fd_prog.specs.Stores.{readings_of, shape_of};
ghost use Rattle.fd_prog.specs.Values.{values_of};
ghost use Rattle.fd_prog.specs.Words.{SetWords};
ghost use Rattle.program_laws.specs.Accepted.{IsAcceptedProgram};
ghost use Rattle.course_laws.specs.Courses.{Around, InDo, IsCourse, Moment, OpenLoop, Point, enclosing};
ghost use Rattle.course_laws.specs.Ends.{end_of, first_progress};
ghost use Rattle.course_laws.specs.Widened.{iteration_at, variables_of, widened_at};

/// The run of a program is one of its courses, which ends behind the last statement exactly where the run does.
pub fn runs_are_courses()
    ensures { (t : Task) → (ms : List Moment) × IsCourse t ms (end_of (after_all t t.program.body (first_progress t))) }
{}

/// In an iteration of a DO, wherever a course of an accepted program comes by, the variable has the number of that iteration, which is one of those that the
/// bounds gave; and the iteration began within the limit, no later than now.
pub fn open_loops_have_their_numbers()
    ensures { (t : Task) (ms : List Moment) (end : Option Point) (m : Moment) (d : OpenLoop) (around : List Around) → IsAcceptedProgram t.program → All (λ n. fits_i64 n ≡ true) t.input → SetWords t.program.body → IsCourse t ms end → Contains ms m
        → m.around ≡ InDo d ∷ around → (slice_index_or m.now.store.scalars d.loop.var (pos 0) ≡ d.bounds.first +ℤ pos d.number *ℤ d.bounds.by) × (d.number < d.bounds.count) × (d.turned ≤ m.now.steps) × (d.turned ≤ t.limit) }
{}

/// At each moment of a course of an accepted program, the present iteration of the loops over which an item with some names is widened is among those that are
/// visited in the present store: it is below the limit, since each iteration before it took a step.
pub fn open_iterations_are_visited()
    ensures { (t : Task) (ms : List Moment) (end : Option Point) (m : Moment) (names : List Name) (x : LinearItem) → IsAcceptedProgram t.program → All (λ n. fits_i64 n ≡ true) t.input → SetWords t.program.body → IsCourse t ms end → Contains ms m → 0 < t.limit
        → all_loop_forms (variables_of (widened_at t.program m names)) (widened_at t.program m names) ≡ Ok x.loops → Contains (visited (readings_of t.program m.now.store) x t.limit) (iteration_at m (widened_at t.program m names)) }
{}

/// Where a rank executes, the element that a reference with an item reads at a moment of a course is the rank's own or one of its needs: of the needs in the present
/// store, and of those in each earlier view that has the same of the names that the item's needs are read from.
pub fn present_elements_are_own_or_needed()
    ensures present { (t : Task) (ms : List Moment) (end : Option Point) (m : Moment) (mapping : Mapping) (home : List ℕ → Result Executor FormRefusal) (array : ℕ) (subs : Expressions) (x : LinearItem) (xs : List ℤ) (n rank : ℕ) → IsAcceptedProgram t.program → All (λ k. fits_i64 k ≡ true) t.input → SetWords t.program.body → IsCourse t ms end → Contains ms m → 0 < t.limit
        → item_of_reference t.program (record { around = map enclosing m.around; home = home }) array subs ≡ Ok (Some x)
        → values_of (readings_of t.program m.now.store) subs ≡ Ok xs → ordinal_of (shape_of t.program array) xs ≡ Ok n
        → ((bound : List ℕ) (h : Executor) → home bound ≡ Ok h → executes_at (sight_of t.program m.now.store mapping) (map (λ k. slice_index_or m.now.store.scalars k (pos 0)) bound) h rank ≡ true)
        → (is_owner (array_place mapping array) n rank ≡ true) ⊎ Contains (needs (sight_of t.program m.now.store mapping) x rank t.limit) n }
    ensures sent { (t : Task) (ms : List Moment) (end : Option Point) (m : Moment) (mapping : Mapping) (home : List ℕ → Result Executor FormRefusal) (array : ℕ) (subs : Expressions) (x : LinearItem) (xs : List ℤ) (n rank : ℕ) (earlier : Sight) → IsAcceptedProgram t.program → All (λ k. fits_i64 k ≡ true) t.input → SetWords t.program.body → IsCourse t ms end → Contains ms m → 0 < t.limit
        → item_of_reference t.program (record { around = map enclosing m.around; home = home }) array subs ≡ Ok (Some x)
        → values_of (readings_of t.program m.now.store) subs ≡ Ok xs → ordinal_of (shape_of t.program array) xs ≡ Ok n
        → ((bound : List ℕ) (h : Executor) → home bound ≡ Ok h → executes_at (sight_of t.program m.now.store mapping) (map (λ k. slice_index_or m.now.store.scalars k (pos 0)) bound) h rank ≡ true)
        → AgreeOn earlier (sight_of t.program m.now.store mapping) x → (is_owner (array_place mapping array) n rank ≡ true) ⊎ Contains (needs earlier x rank t.limit) n }
{}
