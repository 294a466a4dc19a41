// What holds of every rank's part of a store, and of who owns what.
ghost use Rattle.std.specs.Prelude.{◌≡◌, ◌≢◌, ◌<◌, ◌≤◌, ◌⊎◌, suc, true, length, Contains, [], None, Ok, Some, pos, slice_get, slice_index_or, get_or, map, ℕ, ℤ, List};
ghost use Rattle.fd_base.specs.declared.shapes.Along.{Along};
ghost use Rattle.fd_base.specs.declared.shapes.Dist.{Dist as Attribute};
ghost use Rattle.fd_base.specs.declared.shapes.Shape.{Shape};
ghost use Rattle.fd_base.specs.Places.{IsAligned, Place, Whole, is_owner, owner_by_map, owner_by_value, owner_in, owners_by, position_of};
ghost use Rattle.fd_base.specs.Shapes.{ordinal_of, size_of};
ghost use Rattle.fd_prog.specs.declared.program.Array.{Array as DeclaredArray};
ghost use Rattle.fd_prog.specs.declared.statement.Remapped.{Remapped as GivenOwners};
ghost use Rattle.fd_prog.specs.Conditions.{Condition};
ghost use Rattle.fd_prog.specs.Expressions.{Expression, Expressions};
ghost use Rattle.fd_prog.specs.Forms.{LinearForms};
ghost use Rattle.fd_prog.specs.FormValues.{AreWords, IsOneNumber, part_values};
ghost use Rattle.fd_prog.specs.FormOf.{forms_of_expressions};
ghost use Rattle.fd_prog.specs.Homes.{Distribution, Executor, OwnerOf, distribution_at, distribution_of, home_of_statement, location_of, target_home};
ghost use Rattle.fd_prog.specs.Items.{LinearItem, Setting, is_local, item_of_reference};
ghost use Rattle.fd_prog.specs.Mapped.{IsMapped};
ghost use Rattle.fd_prog.specs.Mappings.{AreConsistent, Mapping, array_place, decomp_place, extent_along, given_place, redistributed, sight_of};
ghost use Rattle.fd_prog.specs.Needs.{Sight, executes_at, needs};
ghost use Rattle.fd_prog.specs.Placing.{place_by};
ghost use Rattle.fd_prog.specs.Programs.{CheckedProgram};
ghost use Rattle.fd_prog.specs.Sequence.{gained};
ghost use Rattle.fd_prog.specs.Statements.{Statement, Target, ToElement};
ghost use Rattle.fd_prog.specs.Stores.{Cell, Store, assigned, first_store, put, read_into, readings_of, shape_of};
ghost use Rattle.fd_prog.specs.Uses.{items_of};
ghost use Rattle.fd_prog.specs.Values.{Readings, truth_of, value_of, values_of};
ghost use Rattle.program_laws.specs.Accepted.{IsAcceptedProgram};
ghost use Rattle.rank_part.specs.Local.{IsLocalElement};
ghost use Rattle.rank_part.specs.NeedsRead.{NeedsRead};
ghost use Rattle.rank_part.specs.Owned.{HasOwners};
ghost use Rattle.rank_part.specs.Parts.{HasCell, HasReceived, IsAtHand, IsPartOf, Part, part_readings, put_part, row};
ghost use Rattle.rank_part.specs.Reached.{IsReached};
ghost use Rattle.rank_part.specs.Seen.{AllRead, AreAlike, ConditionReads, EachReads, IsSame};
ghost use Rattle.rank_part.specs.Sizes.{HasSizes};

/// Valuing by own cells is valuing in the whole store: where every element that the store's value depends on is the rank's own or
/// came for the item of its reference, the rank gets that value, or that fault.
pub fn own_cells_value_as_stores()
    ensures value { (p : CheckedProgram) (sites : List ℕ) (a : Part) (s : Store) (e : Expression) → IsPartOf a s → AllRead (readings_of p s) (IsAtHand sites a s) e → value_of (part_readings p sites a) e ≡ value_of (readings_of p s) e }
    ensures values { (p : CheckedProgram) (sites : List ℕ) (a : Part) (s : Store) (es : Expressions) → IsPartOf a s → EachReads (readings_of p s) (IsAtHand sites a s) es → values_of (part_readings p sites a) es ≡ values_of (readings_of p s) es }
    ensures truth { (p : CheckedProgram) (sites : List ℕ) (a : Part) (s : Store) (c : Condition) → IsPartOf a s → ConditionReads (readings_of p s) (IsAtHand sites a s) c → truth_of (part_readings p sites a) c ≡ truth_of (readings_of p s) c }
{}

/// What a rank owns or needs of an item is at hand to the item's references, once the needs have come with their numbers.
pub fn needs_come_to_hand()
    ensures { (sites : List ℕ) (a : Part) (s : Store) (array site x n : ℕ) (es : List ℕ) → array < length s.arrays → n < length (row s.arrays array) → slice_index_or sites site 0 ≡ suc x → HasReceived (a.received (suc x)) array es s
        → (is_owner (a.place array) n a.rank ≡ true) ⊎ Contains es n → IsAtHand sites a s array (Some site) n }
{}

/// A part stays a part of the store where all ranks put a number into a cell, each as far as it has the cell.
pub fn parts_follow_stores()
    ensures { (cell : Cell) (x : ℤ) (a : Part) (s : Store) → IsPartOf a s → HasCell cell s → IsPartOf (put_part cell x a) (put cell x s) }
{}

/// Cells give the needs of an item that the whole store gives, where they have its scalars, its shapes and its numbers of the elements that these needs
/// depend on: those in the bounds and the home, and in an iteration that the rank executes those in the subscripts. So do a rank's own cells, where all of these
/// elements are at hand; and in an accepted program they are, since each of them is replicated or the rank's own.
pub fn needs_from_own_cells()
    ensures cells { (s : Sight) (q : Readings) (x : LinearItem) (rank limit : ℕ) → AreAlike s.readings q → NeedsRead s (IsSame s.readings q) x rank → needs (record s { readings = q }) x rank limit ≡ needs s x rank limit }
    ensures part { (p : CheckedProgram) (sites : List ℕ) (a : Part) (t : Store) (array_place decomp_place : ℕ → Place) (x : LinearItem) (rank limit : ℕ) → IsPartOf a t
        → NeedsRead (record { program = p; readings = readings_of p t; array_place = array_place; decomp_place = decomp_place }) (IsAtHand sites a t) x rank
        → needs (record { program = p; readings = part_readings p sites a; array_place = array_place; decomp_place = decomp_place }) x rank limit
        ≡ needs (record { program = p; readings = readings_of p t; array_place = array_place; decomp_place = decomp_place }) x rank limit }
    ensures read { (p : CheckedProgram) (ranks : ℕ) (m : Mapping) (sites : List ℕ) (a : Part) (s : Store) (x : LinearItem) → IsAcceptedProgram p → IsReached p ranks m → HasSizes p s → ((array : ℕ) → a.place array ≡ array_place m array)
        → Contains (items_of p) x → NeedsRead (sight_of p s m) (IsAtHand sites a s) x a.rank }
    ensures accepted { (p : CheckedProgram) (ranks : ℕ) (m : Mapping) (sites : List ℕ) (a : Part) (s : Store) (x : LinearItem) (limit : ℕ) → IsAcceptedProgram p → IsReached p ranks m → HasSizes p s → IsPartOf a s
        → ((array : ℕ) → a.place array ≡ array_place m array) → Contains (items_of p) x
        → needs (record { program = p; readings = part_readings p sites a; array_place = array_place m; decomp_place = decomp_place m }) x a.rank limit ≡ needs (sight_of p s m) x a.rank limit }
{}

/// A rank executes at the location of a reference exactly where it owns the element that the reference names. So it does at the home of
/// an assignment or a READ to an element, also where scalars are widened that have their present numbers; and of a reference without an item every rank that values it owns the element, and no other values it.
pub fn locations_tell_owners()
    ensures location { (s : Sight) (array : ℕ) (a : DeclaredArray) (d : Distribution) (vs : List ℤ) (fs : LinearForms) (xs : List ℤ) (element rank : ℕ)
        → IsMapped s.program → AreConsistent s.program s.array_place s.decomp_place → slice_get s.program.arrays array ≡ Some a → distribution_of s.program a ≡ Some d
        → part_values s.readings vs fs ≡ Ok xs → ordinal_of a.shape xs ≡ Ok element
        → executes_at s vs (OwnerOf (location_of d fs)) rank ≡ is_owner (s.array_place array) element rank }
    ensures target { (s : Sight) (array site : ℕ) (a : DeclaredArray) (d : Distribution) (subs : Expressions) (home : Executor) (xs : List ℤ) (element rank : ℕ)
        → IsMapped s.program → AreConsistent s.program s.array_place s.decomp_place → AreWords s.readings → IsOneNumber s.readings → slice_get s.program.arrays array ≡ Some a → distribution_of s.program a ≡ Some d
        → target_home s.program [] (ToElement array subs site) ≡ Ok home → values_of s.readings subs ≡ Ok xs → ordinal_of a.shape xs ≡ Ok element
        → executes_at s [] home rank ≡ is_owner (s.array_place array) element rank }
    ensures widened { (s : Sight) (array site : ℕ) (a : DeclaredArray) (d : Distribution) (subs : Expressions) (bound : List ℕ) (home : Executor) (xs : List ℤ) (element rank : ℕ)
        → IsMapped s.program → AreConsistent s.program s.array_place s.decomp_place → AreWords s.readings → IsOneNumber s.readings → slice_get s.program.arrays array ≡ Some a → distribution_of s.program a ≡ Some d
        → target_home s.program bound (ToElement array subs site) ≡ Ok home → values_of s.readings subs ≡ Ok xs → ordinal_of a.shape xs ≡ Ok element
        → executes_at s (map s.readings.scalar bound) home rank ≡ is_owner (s.array_place array) element rank }
    ensures local { (s : Sight) (t : Setting) (array : ℕ) (a : DeclaredArray) (d : Distribution) (subs : Expressions) (home : Executor) (xs : List ℤ) (element rank : ℕ)
        → IsMapped s.program → AreConsistent s.program s.array_place s.decomp_place → AreWords s.readings → IsOneNumber s.readings → slice_get s.program.arrays array ≡ Some a → distribution_of s.program a ≡ Some d
        → item_of_reference s.program t array subs ≡ Ok None → t.home [] ≡ Ok home → values_of s.readings subs ≡ Ok xs → ordinal_of a.shape xs ≡ Ok element
        → executes_at s [] home rank ≡ is_owner (s.array_place array) element rank }
{}

/// Behind a DISTRIBUTE each array that is aligned with its decomposition has what it gives, and every other array has its place as before;
/// by a map an element's owner is the one that the map's value at the element's position gives.
pub fn distributes_give_owners()
    ensures aligned { (p : CheckedProgram) (s : Store) (ranks decomp : ℕ) (given : GivenOwners) (m : Mapping) (array : ℕ) (a : DeclaredArray) → slice_get p.arrays array ≡ Some a → a.decomp ≡ Some decomp
        → array_place (redistributed p s ranks decomp given m) array ≡ given_place s ranks given a.shape a.along (extent_along p decomp) }
    ensures others { (p : CheckedProgram) (s : Store) (ranks decomp : ℕ) (given : GivenOwners) (m : Mapping) (array : ℕ) (a : DeclaredArray) → slice_get p.arrays array ≡ Some a → a.decomp ≢ Some decomp
        → array_place (redistributed p s ranks decomp given m) array ≡ array_place m array }
    ensures by_map { (s : Store) (ranks map_array : ℕ) (shape : Shape) (along : Along) (element : ℕ) → element < size_of shape
        → owner_in (owners_by (owner_by_map (slice_index_or s.arrays map_array []) ranks) shape along) element ≡ owner_by_value ranks (get_or (slice_index_or s.arrays map_array []) (position_of shape along element) (pos 0)) }
{}

/// Where a place is split over the ranks of a run, each element has one of them as its owner: so it is with every place that an attribute or a
/// DISTRIBUTE gives to an array inside its decomposition.
pub fn owners_are_ranks()
    ensures first { (dist : Attribute) (shape : Shape) (along : Along) (extent ranks : ℕ) → 0 < ranks → shape.dims ≤ 2 → IsAligned shape along extent → HasOwners ranks (size_of shape) (place_by dist shape along extent ranks) }
    ensures given { (s : Store) (given : GivenOwners) (shape : Shape) (along : Along) (extent ranks : ℕ) → 0 < ranks → shape.dims ≤ 2 → IsAligned shape along extent → HasOwners ranks (size_of shape) (given_place s ranks given shape along extent) }
{}

/// The place of a replicated array is whole in every mapping that a run of an accepted program comes by; and whoever owns an element of an aligned array
/// owns its position.
pub fn replicated_arrays_are_whole()
    ensures whole { (p : CheckedProgram) (ranks : ℕ) (m : Mapping) (array : ℕ) → IsAcceptedProgram p → IsReached p ranks m → distribution_at p array ≡ None → array_place m array ≡ Whole }
    ensures consistent { (p : CheckedProgram) (ranks : ℕ) (m : Mapping) → IsMapped p → IsReached p ranks m → AreConsistent p (array_place m) (decomp_place m) }
{}

/// A reference that is local to the home of its statement is so over widened variables too: whoever executes an iteration owns the element.
pub fn local_references_stay_local()
    ensures { (p : CheckedProgram) (s : Statement) (d : Distribution) (subs : Expressions) (bound : List ℕ) (fs gs : LinearForms) (home widened : Executor)
        → home_of_statement p [] s ≡ Ok home → home_of_statement p bound s ≡ Ok widened → forms_of_expressions [] subs ≡ Ok fs → forms_of_expressions bound subs ≡ Ok gs
        → is_local d fs home ≡ true → is_local d gs widened ≡ true }
{}

/// Each element that the needs of an accepted program's item are read from is of a replicated array, or in an iteration that the rank executes the rank's own.
pub fn index_arrays_are_local()
    ensures { (s : Sight) (x : LinearItem) (rank : ℕ) → IsAcceptedProgram s.program → AreConsistent s.program s.array_place s.decomp_place → ((array : ℕ) → s.readings.shape array ≡ shape_of s.program array)
        → Contains (items_of s.program) x → NeedsRead s (IsLocalElement s.program s.array_place rank) x rank }
{}

/// A store has at first, and keeps at each step of a run that stores a number, a number for each scalar and for each element of each array.
pub fn stores_keep_sizes()
    ensures first { (p : CheckedProgram) → HasSizes p (first_store p) }
    ensures cell { (p : CheckedProgram) (cell : Cell) (x : ℤ) (s : Store) → HasSizes p s → HasSizes p (put cell x s) }
    ensures assignment { (p : CheckedProgram) (target : Target) (e : Expression) (s next : Store) → HasSizes p s → assigned p target e s ≡ Ok next → HasSizes p next }
    ensures reading { (p : CheckedProgram) (input : List ℤ) (target : Target) (s next : Store) → HasSizes p s → read_into p input target s ≡ Ok next → HasSizes p next }
    ensures gain { (p : CheckedProgram) (var : ℕ) (by : ℤ) (s next : Store) → HasSizes p s → gained var by s ≡ Ok next → HasSizes p next }
{}
