// What holds of the places of arrays and decompositions.
ghost use Rattle.std.specs.Prelude.{◌≡◌, ℕ, ◌<◌, ◌≤◌, ℤ, pos, ◌+ℤ◌, List, length, Ok};
ghost use Rattle.fd_base.specs.declared.shapes.Along.{Along};
ghost use Rattle.fd_base.specs.declared.shapes.Along.TheVariants.{Dim};
ghost use Rattle.fd_base.specs.declared.shapes.Shape.{Shape};
ghost use Rattle.fd_base.specs.Places.{IsAligned, owner_in, owners_by, position_of};
ghost use Rattle.fd_base.specs.Shapes.{ordinal_of, size_of};
ghost use Rattle.fd_prog.specs.Values.{Readings};
ghost use Rattle.fd_prog.specs.Forms.{LinearForms};
ghost use Rattle.fd_prog.specs.FormValues.{form_value, part_values};
ghost use Rattle.fd_prog.specs.Homes.{subscript_along};
ghost use Rattle.fd_prog.specs.Placing.{line_of_positions};
ghost use Rattle.fd_prog.specs.declared.statement.Remapped.{Remapped as GivenOwners};
ghost use Rattle.fd_prog.specs.Programs.{CheckedProgram};
ghost use Rattle.fd_prog.specs.Stores.{Store};
ghost use Rattle.fd_prog.specs.Mapped.{IsMapped};
ghost use Rattle.fd_prog.specs.Mappings.{AreConsistent, Mapping, array_place, decomp_place, first_mapping, redistributed};

/// There is an owner for each element, and an element's owner is the owner of its position along the distributed dimension, however positions are dealt.
pub fn elements_follow_positions()
    ensures count { (f : ℕ → ℕ) (shape : Shape) (along : Along) → length (owners_by f shape along) ≡ size_of shape }
    ensures inside { (shape : Shape) (along : Along) (extent element : ℕ) → shape.dims ≤ 2 → IsAligned shape along extent → element < size_of shape → position_of shape along element < extent }
    ensures owner { (f : ℕ → ℕ) (shape : Shape) (along : Along) (extent element : ℕ) → element < size_of shape → position_of shape along element < extent → owner_in (owners_by f shape along) element ≡ owner_in (owners_by f (line_of_positions extent) (Dim 0 (pos 0))) (position_of shape along element) }
{}

/// In the mapping before a program runs, and in every one behind a DISTRIBUTE, whoever owns an element of an aligned array owns its position.
pub fn mappings_are_consistent()
    ensures first { (p : CheckedProgram) (ranks : ℕ) → IsMapped p → AreConsistent p (array_place (first_mapping p ranks)) (decomp_place (first_mapping p ranks)) }
    ensures later { (p : CheckedProgram) (s : Store) (ranks decomp : ℕ) (given : GivenOwners) (m : Mapping) → IsMapped p → AreConsistent p (array_place m) (decomp_place m) → AreConsistent p (array_place (redistributed p s ranks decomp given m)) (decomp_place (redistributed p s ranks decomp given m)) }
{}
