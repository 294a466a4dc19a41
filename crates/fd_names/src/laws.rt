// What follows from the definitions.
ghost use Rattle.std.specs.Prelude.{◌≡◌, ◌≢◌, ℕ, true, false, if◌then◌else◌, List, [], ◌++◌, map, None, Some, is_some, slice_get, unwrap_or};
ghost use Rattle.std.specs.List.{list_any};
ghost use Rattle.std.specs.Result.{result_ok};
ghost use Rattle.fd_base.specs.declared.numbering.Line.{Line};
ghost use Rattle.fd_base.specs.declared.shapes.Shape.{Shape};
ghost use Rattle.fd_ast.specs.Tree.{DeclTree, ProgramTree, nesting_among};
ghost use Rattle.fd_prog.specs.Checked.{depth_among};
ghost use Rattle.fd_prog.specs.Expressions.{Expression};
ghost use Rattle.fd_prog.specs.Values.{Readings, value_of};
ghost use Rattle.fd_names.specs.declared.alignments.Aim.{Aim};
ghost use Rattle.fd_names.specs.declared.book.Seen.{Seen};
ghost use Rattle.fd_names.specs.declared.declarations.Base.{Base};
ghost use Rattle.fd_names.specs.declared.declarations.Spread.{Spread};
ghost use Rattle.fd_names.specs.declared.refusal.Refusal.{Refusal};
ghost use Rattle.fd_names.specs.Alignments.{is_inside};
ghost use Rattle.fd_names.specs.Checked.{meaning_of, refusals_of};
ghost use Rattle.fd_names.specs.Constants.{constant_of, names_nothing};
ghost use Rattle.fd_names.specs.First.{IsFirst};
ghost use Rattle.fd_names.specs.Inside.{IsTarget, LiesWithin};
ghost use Rattle.fd_names.specs.Declarations.{declare_all};
ghost use Rattle.fd_names.specs.Mappings.{alignments_on, spreads_on};
ghost use Rattle.fd_names.specs.Names.{callee_of, callee_of_func, func_of, use_of};
ghost use Rattle.fd_names.specs.Scope.{AreBefore, AreOn, IsKnownBy, arrays_declared, declared_between, declares, is_array_made_on, is_made_on, makes_array};
ghost use Rattle.fd_names.specs.declared.names.Callee.TheVariants as callee;
ghost use Rattle.fd_names.specs.declared.names.Use.TheVariants.{Unknown};
ghost use Rattle.fd_names.specs.Standing.{StatementsStand, scope_of};

/// An expression is constant where no scalar and no element stands in it and its value doesn't fault, and its value is then
/// the one that it has in every store.
pub fn constants_are_values()
    ensures { (e : Expression) (r : Readings) → constant_of e ≡ (if names_nothing e then result_ok (value_of r e) else None) }
{}

/// A name that is known on a line is declared on an earlier one, or is a scalar by its initial.
pub fn known_before()
    ensures { (before after : List DeclTree) (l : Line) (n : List ℕ) → IsKnownBy (use_of (declared_between before after) l n) before l n }
{}

/// A name is unknown on each line that makes it an array, a decomposition or a constant. On each line that makes it an array
/// it is unknown with parentheses too, also where it is that of a function.
pub fn unknown_where_made()
    ensures alone { (before after : List DeclTree) (l : Line) (n : List ℕ) → is_made_on (before ++ after) l n ≡ true → use_of (declared_between before after) l n ≡ Unknown }
    ensures called { (before after : List DeclTree) (l : Line) (n : List ℕ) → is_array_made_on (before ++ after) l n ≡ true → callee_of (declared_between before after) l n ≡ callee.Unknown }
{}

/// With parentheses a name is the function of that name, if there is one, on each line that doesn't make it an array, where
/// no declaration before makes it one: a scalar, a constant or a decomposition of that name changes nothing.
pub fn functions_stand()
    ensures { (before after : List DeclTree) (l : Line) (n : List ℕ) → is_array_made_on (before ++ after) l n ≡ false → list_any (makes_array n) before ≡ false → callee_of (declared_between before after) l n ≡ callee_of_func (func_of n) }
{}

/// A name that a declaration on an earlier line declares is known, but on a line that makes it an array, a decomposition or
/// a constant; `own` are the declarations of the line itself that stand before it.
pub fn known_where_declared()
    ensures { (earlier own after : List DeclTree) (l : Line) (n : List ℕ) → AreBefore l earlier → AreOn l own → list_any (declares n) earlier ≡ true → is_made_on ((earlier ++ own) ++ after) l n ≡ false → use_of (declared_between (earlier ++ own) after) l n ≢ Unknown }
{}

/// The arrays of a program are the names of INTEGER with dimensions, in order.
pub fn arrays_are_declared()
    ensures { (t : ProgramTree) (end_line : Line) (rest : ℕ) → map (λ a. a.name) (meaning_of t end_line rest).arrays ≡ arrays_declared t.decls }
{}

/// A target of an ALIGN puts an array inside its dimension of the decomposition exactly where the subscripts of each element
/// give one of that dimension.
pub fn inside_is_each_element()
    ensures inside { (shape onto : Shape) (t : ℕ) (a : Aim) → is_inside shape onto t a ≡ true → LiesWithin shape onto t a }
    ensures outside { (shape onto : Shape) (t : ℕ) (a : Aim) → IsTarget shape onto t a → LiesWithin shape onto t a → is_inside shape onto t a ≡ true }
{}

/// A decomposition that isn't distributed yet is, behind some declarations, distributed as the first of them says that is a
/// DISTRIBUTE of its name; without one it isn't.
pub fn first_distribution_stands()
    ensures { (xs : List DeclTree) (s : Seen) (b : Base) (j : ℕ) (y : Spread) → slice_get b.spreads j ≡ Some y → is_some y.dist ≡ false → slice_get (declare_all xs s b).spreads j ≡ Some (unwrap_or (slice_get (spreads_on j xs s b) 0) y) }
{}

/// An array that isn't aligned yet is, behind some declarations, aligned as the first of them says that is an ALIGN of its name
/// with a decomposition, or a DISTRIBUTE of its name; without one it isn't.
pub fn first_alignment_stands()
    ensures { (xs : List DeclTree) (s : Seen) (b : Base) (k : ℕ) → slice_get b.alignments k ≡ Some None → slice_get (declare_all xs s b).alignments k ≡ Some (slice_get (alignments_on k xs s b) 0) }
{}

/// Of some refusals one alone is the first.
pub fn one_first()
    ensures { (rs : List Refusal) (r s : Refusal) → IsFirst rs r → IsFirst rs s → r ≡ s }
{}

/// Each statement of the program of a tree without refusals is the one that the rules of names give for the tree's.
pub fn program_stands()
    ensures { (t : ProgramTree) (end_line : Line) (rest : ℕ) → refusals_of t ≡ [] → StatementsStand (scope_of t) t.body (meaning_of t end_line rest).body }
{}

/// IFs and loops stand in one another as deep in the program of a tree as in the tree.
pub fn nesting_is_kept()
    ensures { (t : ProgramTree) (end_line : Line) (rest : ℕ) → depth_among (meaning_of t end_line rest).body ≡ nesting_among t.body }
{}
