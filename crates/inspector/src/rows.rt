// The needs of items that were worked by hand.
ghost use Rattle.std.specs.Prelude.{◌≡◌, ℕ, ◌<◌, ◌≤◌, [], ◌∷◌, pos, negsuc, map, All, IfOk, length, slice_index_or};
ghost use Rattle.fd_base.specs.Shapes.{IsShape, size_of};
ghost use Rattle.fd_prog.specs.Forms.{NoForms, NoTerms, Part, Sum, Term as LastTerm, linear_atom_of, linear_form_of, linear_forms_of};
ghost use Rattle.fd_prog.specs.Homes.{executor_of};
ghost use Rattle.fd_prog.specs.Items.{linear_item_of, linear_loop_of};
ghost use Rattle.fd_prog.specs.Mapped.{IsAttribute, IsMapped};
ghost use Rattle.fd_prog.specs.Mappings.{extent_along};
ghost use Rattle.fd_prog.specs.Programs.{CheckedProgram, program_of};
ghost use Rattle.fd_prog.specs.SoundForms.{IsSoundAtom, IsSoundForm, IsSoundHome, IsSoundItem, IsSoundLoop};
ghost use Rattle.fd_prog.specs.Stores.{shape_of};
ghost use Rattle.fd_base.specs.Places as base;
ghost use Rattle.inspector.specs.Placed.{HasPositions};
ghost use Rattle.owner_part.specs.Placed.{HasElements, array_place, decomp_place, place_of};

use crate::{Schedule, needs, schedule};
use decomp_map::Map;
use expr_eval::Cells;
use fd_base::{Along, Bytes, Dist, FaultKind, Line, Memory, RankNo, Shape, ordinal};
use fd_prog::{
    Array, ArrayList, Atom, Decomp, DecompList, Form, FormList, Home, Item, NameList, Program,
    StmtList, Term, TermList, Widened, WidenedList,
};
use owner_part::{Place, PlaceList, Placed, place_named};
use std::alloc::Global;
use std::process::Abort;
use std::test::Fail;
use trans_table::Table;

// ---- the program and what a rank has

fn line(extent: u32) -> Shape
    ensures value { result ≡ record { dims = 1; low = pos 1 ∷ pos 0 ∷ []; extent = extent ∷ 1 ∷ [] } }
    ensures shape { IsShape result }
{
    Shape {
        dims: 1,
        low: [1, 0],
        extent: [extent, 1],
    }
}

/// Cells with a number for the scalar, and for each element of both arrays one by its place.
#[derive(Drop)]
struct Told {
    extent: u32,
    scalar: i64,
    numbers: [i64; 8],
}

impl Cells for Told {
    ghost names = { λ c. record { scalars = 1; arrays = 2 } };

    ghost readings = { λ c. record {
      scalar = λ k. c.scalar;
      shape = λ array. record { dims = 1; low = pos 1 ∷ (pos 0 ∷ []); extent = c.extent ∷ (1 ∷ []) };
      element = λ array site n. slice_index_or c.numbers n (pos 0);
    } };

    fn scalar(&self, _s: u16) -> i64 {
        self.scalar
    }

    fn element(&self, _array: u16, _site: Option<u32>, subs: [i64; 2]) -> Result<i64, FaultKind> {
        let element = ordinal(&line(self.extent), subs)?;
        Ok(self.numbers.get(element as usize).copied().unwrap_or(0))
    }
}

fn arrays(alloc: Global, extent: u32) -> Result<ArrayList, Memory>
    ensures { IfOk result (λ xs. xs ≡ record { name = 65 ∷ []; shape = record { dims = 1; low = pos 1 ∷ pos 0 ∷ []; extent = extent ∷ 1 ∷ [] }; decomp = Some 0; along = Along.Dim 0 (negsuc 0) } ∷ []) }
{
    let mut list = ArrayList::new(alloc);
    list.push(Array {
        name: Bytes::from_slice(alloc, b"A")?,
        shape: line(extent),
        decomp: Some(0),
        along: Along::Dim { dim: 0, shift: -1 },
    })?;
    Ok(list)
}

fn decomps(alloc: Global, extent: u32, dist: Dist) -> Result<DecompList, Memory>
    ensures { IfOk result (λ ds. ds ≡ record { name = 68 ∷ []; shape = record { dims = 1; low = pos 1 ∷ pos 0 ∷ []; extent = extent ∷ 1 ∷ [] }; dim = 0; dist = Some dist } ∷ []) }
{
    let mut list = DecompList::new(alloc);
    list.push(Decomp {
        name: Bytes::from_slice(alloc, b"D")?,
        shape: line(extent),
        dim: 0,
        dist: Some(dist),
    })?;
    Ok(list)
}

/// An array A that lies so in a decomposition D, both from 1 on.
fn program(alloc: Global, extent: u32, dist: Dist) -> Result<Program, Memory>
    requires extent { (1 ≤ extent) × (extent ≤ 8) }
    requires dist { IsAttribute dist }
    ensures mapped { IfOk result (λ p. IsMapped (program_of p)) }
    ensures arrays { IfOk result (λ p. 0 < length (program_of p).arrays) }
    ensures size { IfOk result (λ p. size_of (shape_of (program_of p) 0) ≡ extent) }
    ensures positions { IfOk result (λ p. extent_along (program_of p) 0 ≡ extent) }
{
    Ok(Program {
        scalars: NameList::new(alloc),
        arrays: arrays(alloc, extent)?,
        decomps: decomps(alloc, extent, dist)?,
        body: StmtList::End,
        end_line: Line(1),
        rest: 0,
        sites: 0,
    })
}

/// The map that deals the elements where no formula does.
const MAP: [i64; 8] = [3, -1, 4, 0, 7, 0, 0, 0];

/// The place of A, and of D.
fn place(alloc: Global, extent: u32, dist: Dist, ranks: u8) -> Result<Place, Memory>
    requires dist { IsAttribute dist }
    requires extent { (1 ≤ extent) × (extent ≤ 8) }
    requires ranks { (1 ≤ ranks) × (ranks ≤ 16) }
    ensures { IfOk result (λ place. HasElements (place_of place) extent) }
{
    match dist {
        Dist::Irregular | Dist::Later => {
            let table = Table::build(alloc, &MAP[..extent as usize], ranks)?;
            Ok(Place::Irregular(table))
        }
        Dist::Block | Dist::Cyclic | Dist::BlockCyclic(_) => {
            let along = Along::Dim { dim: 0, shift: -1 };
            Ok(Place::Regular(Map::regular(line(extent), along, extent, dist, ranks)))
        }
    }
}

/// The places of A and of D.
fn places(alloc: Global, extent: u32, dist: Dist, ranks: u8) -> Result<PlaceList, Memory>
    requires dist { IsAttribute dist }
    requires extent { (1 ≤ extent) × (extent ≤ 8) }
    requires ranks { (1 ≤ ranks) × (ranks ≤ 16) }
    ensures array { IfOk result (λ ps. HasElements (array_place ps 0) extent) }
    ensures decomp { IfOk result (λ ps. HasElements (decomp_place ps 0) extent) }
{
    let mut list = PlaceList::new(alloc);
    list.push((Placed::Decomp(0), place(alloc, extent, dist, ranks)?))?;
    list.push((Placed::Array(0), place(alloc, extent, dist, ranks)?))?;
    Ok(list)
}

// ---- the items

fn number(number: i64) -> Form
    ensures { linear_form_of result ≡ Sum NoTerms number }
{
    Form {
        terms: TermList::End,
        constant: number,
    }
}

/// An atom and a number more.
fn plus(alloc: Global, atom: Atom, number: i64) -> Result<Form, Memory>
    ensures { IfOk result (λ f. linear_form_of f ≡ Sum (LastTerm (pos 1) (linear_atom_of atom) NoTerms) number) }
{
    let term = Box::new(alloc, Term { coef: 1, atom })?;
    let rest = Box::new(alloc, TermList::End)?;
    Ok(Form {
        terms: TermList::More(term, rest),
        constant: number,
    })
}

fn one(alloc: Global, form: Form) -> Result<FormList, Memory>
    ensures { IfOk result (λ fs. linear_forms_of fs ≡ Part (linear_form_of form) NoForms) }
{
    let form = Box::new(alloc, form)?;
    let rest = Box::new(alloc, FormList::End)?;
    Ok(FormList::More(form, rest))
}

/// The item of a reference to A.
fn item(alloc: Global, subscript: Form, loops: WidenedList, home: Home) -> Result<Item, Memory>
    requires subscript { IsSoundForm (record { scalars = 1; arrays = 2 }) (linear_form_of subscript) }
    requires loops { All (IsSoundLoop (record { scalars = 1; arrays = 2 })) (map linear_loop_of loops) }
    requires home { IsSoundHome (record { scalars = 1; arrays = 2 }) (executor_of home) }
    ensures array { IfOk result (λ x. x.array ≡ 0) }
    ensures sound { IfOk result (λ x. IsSoundItem (record { scalars = 1; arrays = 2 }) (linear_item_of x)) }
    ensures home { IfOk result (λ x. executor_of x.home ≡ executor_of home) }
{
    Ok(Item {
        array: 0,
        subs: one(alloc, subscript)?,
        loops,
        home,
    })
}

/// A loop by 1.
fn loops(alloc: Global, first: i64, last: i64) -> Result<WidenedList, Memory>
    ensures { IfOk result (λ ls. All (IsSoundLoop (record { scalars = 1; arrays = 2 })) (map linear_loop_of ls)) }
{
    let mut list = WidenedList::new(alloc);
    list.push(Widened {
        first: number(first),
        last: number(last),
        step: number(1),
    })?;
    Ok(list)
}

/// A($1-1) do 2,N,1 at D($1)
fn shifted(alloc: Global, extent: i64) -> Result<Item, Memory>
    ensures array { IfOk result (λ x. x.array ≡ 0) }
    ensures sound { IfOk result (λ x. IsSoundItem (record { scalars = 1; arrays = 2 }) (linear_item_of x)) }
    ensures home { IfOk result (λ x. (p : CheckedProgram) (place : ℕ → base.Place) → HasElements (place 0) (extent_along p 0) → HasPositions p place (executor_of x.home)) }
{
    let subscript = plus(alloc, Atom::Bound(0), -1)?;
    let home = Home::At(0, plus(alloc, Atom::Bound(0), 0)?);
    item(alloc, subscript, loops(alloc, 2, extent)?, home)
}

/// A(M($1)) do 1,N,1 at D($1)
fn mesh(alloc: Global, extent: i64) -> Result<Item, Memory>
    ensures array { IfOk result (λ x. x.array ≡ 0) }
    ensures sound { IfOk result (λ x. IsSoundItem (record { scalars = 1; arrays = 2 }) (linear_item_of x)) }
    ensures home { IfOk result (λ x. (p : CheckedProgram) (place : ℕ → base.Place) → HasElements (place 0) (extent_along p 0) → HasPositions p place (executor_of x.home)) }
{
    let index = plus(alloc, Atom::Bound(0), 0)?;
    let subscript = plus(alloc, Atom::Elem(1, one(alloc, index)?), 0)?;
    let home = Home::At(0, plus(alloc, Atom::Bound(0), 0)?);
    item(alloc, subscript, loops(alloc, 1, extent)?, home)
}

/// A($1) do 1,N,1 at all
fn summed(alloc: Global, extent: i64) -> Result<Item, Memory>
    ensures array { IfOk result (λ x. x.array ≡ 0) }
    ensures sound { IfOk result (λ x. IsSoundItem (record { scalars = 1; arrays = 2 }) (linear_item_of x)) }
    ensures home { IfOk result (λ x. (p : CheckedProgram) (place : ℕ → base.Place) → HasElements (place 0) (extent_along p 0) → HasPositions p place (executor_of x.home)) }
{
    let subscript = plus(alloc, Atom::Bound(0), 0)?;
    item(alloc, subscript, loops(alloc, 1, extent)?, Home::All)
}

/// A(N) at root
fn printed(alloc: Global, extent: i64) -> Result<Item, Memory>
    ensures array { IfOk result (λ x. x.array ≡ 0) }
    ensures sound { IfOk result (λ x. IsSoundItem (record { scalars = 1; arrays = 2 }) (linear_item_of x)) }
    ensures home { IfOk result (λ x. (p : CheckedProgram) (place : ℕ → base.Place) → HasElements (place 0) (extent_along p 0) → HasPositions p place (executor_of x.home)) }
{
    item(alloc, number(extent), WidenedList::new(alloc), Home::Root)
}

/// A(I-1) at D(I)
fn by_scalar(alloc: Global) -> Result<Item, Memory>
    ensures array { IfOk result (λ x. x.array ≡ 0) }
    ensures sound { IfOk result (λ x. IsSoundItem (record { scalars = 1; arrays = 2 }) (linear_item_of x)) }
    ensures home { IfOk result (λ x. (p : CheckedProgram) (place : ℕ → base.Place) → HasElements (place 0) (extent_along p 0) → HasPositions p place (executor_of x.home)) }
{
    let subscript = plus(alloc, Atom::Scalar(0), -1)?;
    let home = Home::At(0, plus(alloc, Atom::Scalar(0), 0)?);
    item(alloc, subscript, WidenedList::new(alloc), home)
}

/// A(M(1)) at D(1)
fn by_element(alloc: Global) -> Result<Item, Memory>
    ensures array { IfOk result (λ x. x.array ≡ 0) }
    ensures sound { IfOk result (λ x. IsSoundItem (record { scalars = 1; arrays = 2 }) (linear_item_of x)) }
    ensures home { IfOk result (λ x. (p : CheckedProgram) (place : ℕ → base.Place) → HasElements (place 0) (extent_along p 0) → HasPositions p place (executor_of x.home)) }
{
    let subscript = plus(alloc, Atom::Elem(1, one(alloc, number(1))?), 0)?;
    item(
        alloc,
        subscript,
        WidenedList::new(alloc),
        Home::At(0, number(1)),
    )
}

/// A(3) at all
fn third(alloc: Global) -> Result<Item, Memory>
    ensures array { IfOk result (λ x. x.array ≡ 0) }
    ensures sound { IfOk result (λ x. IsSoundItem (record { scalars = 1; arrays = 2 }) (linear_item_of x)) }
    ensures home { IfOk result (λ x. (p : CheckedProgram) (place : ℕ → base.Place) → HasElements (place 0) (extent_along p 0) → HasPositions p place (executor_of x.home)) }
{
    item(alloc, number(3), WidenedList::new(alloc), Home::All)
}

fn item_named(alloc: Global, name: &str, extent: i64) -> Result<Item, Memory>
    ensures array { IfOk result (λ x. x.array ≡ 0) }
    ensures sound { IfOk result (λ x. IsSoundItem (record { scalars = 1; arrays = 2 }) (linear_item_of x)) }
    ensures home { IfOk result (λ x. (p : CheckedProgram) (place : ℕ → base.Place) → HasElements (place 0) (extent_along p 0) → HasPositions p place (executor_of x.home)) }
{
    match name {
        "shifted" => shifted(alloc, extent),
        "mesh" => mesh(alloc, extent),
        "summed" => summed(alloc, extent),
        "printed" => printed(alloc, extent),
        "by_scalar" => by_scalar(alloc),
        "third" => third(alloc),
        _ => by_element(alloc),
    }
}

// ---- the rows

/// Behind an item the number of the scalar I and of M(1), how A is distributed, how many elements N it has, the number
/// of ranks, and what is needed: each rank, the rank that owns what it needs, and the numbers of these elements.
///
/// The items are those of five programs. The first sets B(I) = A(I-1) for I from 2 to 8, both dealt in blocks, and
/// prints B(8). The second sets A(I) = A(I-1)+1 for I from 2 to 4, one I after the other, and prints A(4); where I is
/// 1, the subscript is outside. The third sets Y(1) = X(M(1)), where M(1) is 99, outside X, and then 3. The fourth sums
/// A(3) on all ranks, where A is dealt element by element. The fifth is a mesh of 5 elements that a map deals: it sets
/// Y(I) = X(IA(I)) for each I, where IA has 2, 3, 1, 5 and 4, and then sums X on all ranks.
const ROWS: &str = "shifted 0 block 8 1 none|
shifted 0 block 8 3 1<0:2;2<1:5;|
shifted 0 block 8 4 1<0:1;2<1:3;3<2:5;|
shifted 0 block 8 16 1<0:0;2<1:1;3<2:2;4<3:3;5<4:4;6<5:5;7<6:6;|
printed 0 block 8 1 none|
printed 0 block 8 3 0<2:7;|
printed 0 block 8 4 0<3:7;|
printed 0 block 8 16 0<7:7;|
by_scalar 1 block 4 1 none|
by_scalar 1 block 4 3 none|
by_scalar 1 block 4 4 none|
by_scalar 1 block 4 16 none|
by_scalar 2 block 4 1 none|
by_scalar 2 block 4 3 none|
by_scalar 2 block 4 4 1<0:0;|
by_scalar 2 block 4 16 1<0:0;|
by_scalar 3 block 4 1 none|
by_scalar 3 block 4 3 1<0:1;|
by_scalar 3 block 4 4 2<1:1;|
by_scalar 3 block 4 16 2<1:1;|
by_scalar 4 block 4 1 none|
by_scalar 4 block 4 3 none|
by_scalar 4 block 4 4 3<2:2;|
by_scalar 4 block 4 16 3<2:2;|
printed 0 block 4 1 none|
printed 0 block 4 3 0<1:3;|
printed 0 block 4 4 0<3:3;|
printed 0 block 4 16 0<3:3;|
by_element 99 block 4 1 none|
by_element 99 block 4 3 none|
by_element 99 block 4 4 none|
by_element 99 block 4 16 none|
by_element 3 block 4 1 none|
by_element 3 block 4 3 0<1:2;|
by_element 3 block 4 4 0<2:2;|
by_element 3 block 4 16 0<2:2;|
third 0 cyclic 4 1 none|
third 0 cyclic 4 3 0<2:2;1<2:2;|
third 0 cyclic 4 4 0<2:2;1<2:2;3<2:2;|
third 0 cyclic 4 16 0<2:2;1<2:2;3<2:2;4<2:2;5<2:2;6<2:2;7<2:2;8<2:2;9<2:2;10<2:2;11<2:2;12<2:2;13<2:2;14<2:2;15<2:2;|
mesh 0 map 5 1 none|
mesh 0 map 5 3 0<1:4;0<2:1;1<0:0,3;2<1:2;|
mesh 0 map 5 4 0<3:0,4;3<0:2,3;|
mesh 0 map 5 16 0<7:4;3<15:1;4<3:0;7<0:3;15<4:2;|
summed 0 map 5 1 none|
summed 0 map 5 3 0<1:2,4;0<2:1;1<0:0,3;1<2:1;2<0:0,3;2<1:2,4;|
summed 0 map 5 4 0<3:0,1,4;1<0:2,3;1<3:0,1,4;2<0:2,3;2<3:0,1,4;3<0:2,3;|
summed 0 map 5 16 
0<3:0;0<4:2;0<7:4;0<15:1;1<0:3;1<3:0;1<4:2;1<7:4;1<15:1;2<0:3;2<3:0;2<4:2;2<7:4;2<15:1;3<0:3;3<4:2;3<7:4;
3<15:1;4<0:3;4<3:0;4<7:4;4<15:1;5<0:3;5<3:0;5<4:2;5<7:4;5<15:1;6<0:3;6<3:0;6<4:2;6<7:4;6<15:1;7<0:3;7<3:0;
7<4:2;7<15:1;8<0:3;8<3:0;8<4:2;8<7:4;8<15:1;9<0:3;9<3:0;9<4:2;9<7:4;9<15:1;10<0:3;10<3:0;10<4:2;10<7:4;
10<15:1;11<0:3;11<3:0;11<4:2;11<7:4;11<15:1;12<0:3;12<3:0;12<4:2;12<7:4;12<15:1;13<0:3;13<3:0;13<4:2;13<7:4;
13<15:1;14<0:3;14<3:0;14<4:2;14<7:4;14<15:1;15<0:3;15<3:0;15<4:2;15<7:4;";

/// The index array of the mesh.
const INDEX: [i64; 8] = [2, 3, 1, 5, 4, 0, 0, 0];

/// The elements that a rank needs and another owns.
fn append_needs(rank: u8, owner: u8, elements: &[u32], text: &mut Bytes) -> Result<(), Memory> {
    if elements.is_empty() {
        return Ok(());
    }
    text.append_number(u64::from(rank))?;
    text.append(b"<")?;
    text.append_number(u64::from(owner))?;
    for (place, element) in elements.iter().enumerate() {
        text.append(if place == 0 { b":" } else { b"," })?;
        text.append_number(u64::from(*element))?;
    }
    text.append(b";")
}

fn append_schedule(rank: u8, rows: &Schedule, text: &mut Bytes) -> Result<(), Memory> {
    let mut owner = 0_u8;
    for row in rows.as_slice() {
        append_needs(rank, owner, row.as_slice(), text)?;
        owner = owner.saturating_add(1);
    }
    Ok(())
}

/// The needs of an item at each rank, by the ranks that own them.
fn all_needs(
    alloc: Global,
    program: &Program,
    item: &Item,
    cells: &Told,
    places: &PlaceList,
    ranks: u8,
) -> Result<Bytes, Memory>
    requires program { IsMapped (program_of program.now) }
    requires item { IsSoundItem (record { scalars = 1; arrays = 2 }) (linear_item_of item.now) }
    requires array { item.now.array < length (program_of program.now).arrays }
    requires place { HasElements (array_place places.now item.now.array) (size_of (shape_of (program_of program.now) item.now.array)) }
    requires home { HasPositions (program_of program.now) (decomp_place places.now) (executor_of item.now.home) }
{
    let Some(place) = place_named(places, Placed::Array(item.array)) else {
        return Err(Memory);
    };
    let mut text = Bytes::new(alloc);
    for rank in 0..ranks {
        let elements = needs(alloc, program, item, cells, places, RankNo(rank), 100)?;
        let rows = schedule(alloc, &elements, place, ranks)?;
        append_schedule(rank, &rows, &mut text)?;
    }
    Ok(text)
}

/// The needs of the item of a row.
fn needs_text(
    alloc: Global,
    name: &str,
    number: i64,
    dist: Dist,
    extent: u32,
    ranks: u8,
) -> Result<Bytes, Memory>
    requires attribute { IsAttribute dist }
    requires extent { (1 ≤ extent) × (extent ≤ 8) }
    requires ranks { (1 ≤ ranks) × (ranks ≤ 16) }
{
    let program = program(alloc, extent, dist)?;
    let places = places(alloc, extent, dist, ranks)?;
    let item = item_named(alloc, name, i64::from(extent))?;
    let numbers = if number == 0 { INDEX } else { [number; 8] };
    let cells = Told {
        extent,
        scalar: number,
        numbers,
    };
    all_needs(alloc, &program, &item, &cells, &places, ranks)
}

fn compare(rt: &impl Abort, row: &str, found: &Bytes, wanted: &Bytes) {
    assert!(rt; found.as_slice() == wanted.as_slice(), "{row}");
}

fn dist_named(word: &str) -> Dist
    ensures { IsAttribute result }
{
    match word {
        "block" => Dist::Block,
        "cyclic" => Dist::Cyclic,
        _ => Dist::Irregular,
    }
}

/// A number from 1 to a bound.
fn small(rt: &impl Abort, word: &str, most: u32) -> u32
    ensures { (1 ≤ result) × (result ≤ most) }
{
    let number = word.parse::<u32>().unwrap_or(0);
    assert!(rt; 1 <= number && number <= most);
    number
}

fn compare_row(rt: &impl Abort, alloc: Global, row: &str) -> Result<(), Memory> {
    let mut words = row.split_whitespace();
    let name = words.next().unwrap_or("");
    let number = words.next().unwrap_or("").parse::<i64>().unwrap_or(0);
    let dist = dist_named(words.next().unwrap_or(""));
    let extent = small(rt, words.next().unwrap_or(""), 8);
    let ranks = small(rt, words.next().unwrap_or(""), 16) as u8;
    let mut found = needs_text(alloc, name, number, dist, extent, ranks)?;
    if found.is_empty() {
        found.append(b"none")?;
    }
    let mut wanted = Bytes::new(alloc);
    for word in words {
        wanted.append(word.as_bytes())?;
    }
    compare(rt, row, &found, &wanted);
    Ok(())
}

#[test]
fn needs_are_as_worked_by_hand(rt: HostRuntime) -> Result<(), Fail> {
    for row in ROWS.split("|") {
        compare_row(&rt, rt.alloc(), row)?;
    }
    Ok(())
}
