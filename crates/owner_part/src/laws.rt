// Locations and positions.
ghost use Rattle.std.specs.Prelude.{◌≡◌, ℕ, ◌<◌, ◌≤◌, ℤ, pos, ◌+ℤ◌, List, Ok};
ghost use Rattle.fd_base.specs.declared.shapes.Along.{Along};
ghost use Rattle.fd_base.specs.declared.shapes.Along.TheVariants.{Dim};
ghost use Rattle.fd_base.specs.declared.shapes.Dist.{Dist};
ghost use Rattle.fd_base.specs.declared.shapes.Shape.{Shape};
ghost use Rattle.fd_base.specs.Places.{IsAligned, owner_in, owners_in, position_of};
ghost use Rattle.fd_base.specs.Shapes.{ordinal_of, size_of};
ghost use Rattle.fd_prog.specs.Values.{Readings};
ghost use Rattle.fd_prog.specs.Forms.{LinearForms};
ghost use Rattle.fd_prog.specs.FormValues.{form_value, part_values};
ghost use Rattle.fd_prog.specs.Homes.{subscript_along};
ghost use Rattle.fd_prog.specs.Placing.{line_of_positions, place_by};

/// The location form of a reference says where its element lies: its value is the element's position along the distributed
/// dimension, above that dimension's lower bound. And the element's owner is the owner of that position.
pub fn locations_are_positions()
    ensures location { (shape : Shape) (along : Along) (low : ℤ) (extent : ℕ) (r : Readings) (vs : List ℤ) (fs : LinearForms) (xs : List ℤ) (e : ℕ) → shape.dims ≤ 2 → IsAligned shape along extent
        → part_values r vs fs ≡ Ok xs → ordinal_of shape xs ≡ Ok e → form_value r vs (subscript_along along low fs) ≡ Ok (pos (position_of shape along e) +ℤ low) }
    ensures owner { (shape : Shape) (along : Along) (extent : ℕ) (dist : Dist) (ranks : ℕ) (e : ℕ) → e < size_of shape → position_of shape along e < extent
        → owner_in (owners_in (place_by dist shape along extent ranks)) e ≡ owner_in (owners_in (place_by dist (line_of_positions extent) (Dim 0 (pos 0)) extent ranks)) (position_of shape along e) }
{}
