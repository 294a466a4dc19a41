// What the program never asks for: the home of a statement alone, the ranks of a home, and the places by a map.
ghost use Rattle.std.specs.Prelude.{◌≡◌, ◌≤◌, [], ◌∷◌, pos, negsuc, length, IfOk, Some};
ghost use Rattle.fd_prog.specs.Programs.{program_of};
ghost use Rattle.fd_prog.specs.Expressions.{More, Scalar, End, expressions_of};
ghost use Rattle.fd_prog.specs.Statements.{ToElement, target_of};
ghost use Rattle.fd_prog.specs.Homes.{distribution_at as at};
ghost use Rattle.fd_prog.specs.Mapped.{IsMapped};
ghost use Rattle.fd_prog.specs.Mappings.{extent_along};

use crate::{HomeAt, Place, PlaceList, Placed, RankSet, home_of, install, place_named, ranks_of};
use decomp_map::Map;
use fd_base::{Along, Bytes, Dist, Line, ListOf, Memory, RankNo, Shape};
use fd_prog::{
    Array, ArrayList, Atom, Decomp, DecompList, Expr, ExprList, Form, Home, NameList, PartList,
    Program, Ref, Ref2, Stmt, StmtList, TermList,
};
use std::alloc::Global;
use std::process::Abort;
use std::test::Fail;
use trans_table::Table;

/// A set has the ranks whose bits are set.
fn compare(rt: &impl Abort, set: RankSet, bits: u16) {
    for rank in 0..16_u8 {
        assert_eq!(rt; set.has(RankNo(rank)), bits >> rank & 1 == 1);
    }
}

fn compare_ranks(rt: &impl Abort) {
    let shape = Shape {
        dims: 1,
        low: [1, 0],
        extent: [10, 1],
    };
    let along = Along::Dim { dim: 0, shift: -1 };
    let split = Place::Regular(Map::regular(shape, along, 10, Dist::Block, 4));
    compare(rt, ranks_of(&Place::Whole, HomeAt::All, 1), 1);
    compare(rt, ranks_of(&Place::Whole, HomeAt::All, 3), 0b111);
    compare(rt, ranks_of(&split, HomeAt::All, 4), 0b1111);
    compare(rt, ranks_of(&split, HomeAt::Root, 4), 1);
    compare(rt, ranks_of(&Place::Whole, HomeAt::Root, 16), 1);
    compare(rt, ranks_of(&split, HomeAt::Element(5), 4), 0b10);
    compare(rt, ranks_of(&split, HomeAt::Element(9), 4), 0b1000);
    compare(rt, ranks_of(&Place::Whole, HomeAt::All, 16), 0xffff);
    compare(rt, ranks_of(&Place::Unset, HomeAt::Root, 3), 1);
}

#[test]
fn homes_are_executed_by_the_ranks_worked_by_hand(rt: HostRuntime) {
    compare_ranks(&rt);
}

fn decomps(alloc: Global) -> Result<DecompList, Memory>
    ensures { IfOk result (λ ds. ds ≡ record { name = []; shape = record { dims = 1; low = pos 0 ∷ pos 0 ∷ []; extent = 9 ∷ 1 ∷ [] }; dim = 0; dist = Some Dist.Block } ∷ []) }
{
    let mut list = DecompList::new(alloc);
    list.push(Decomp {
        name: Bytes::new(alloc),
        shape: Shape {
            dims: 1,
            low: [0, 0],
            extent: [9, 1],
        },
        dim: 0,
        dist: Some(Dist::Block),
    })?;
    Ok(list)
}

fn arrays(alloc: Global) -> Result<ArrayList, Memory>
    ensures { IfOk result (λ xs. xs ≡ record { name = 65 ∷ []; shape = record { dims = 1; low = pos 1 ∷ pos 0 ∷ []; extent = 8 ∷ 1 ∷ [] }; decomp = Some 0; along = Along.Dim 0 (pos 0) } ∷ []) }
{
    let mut list = ArrayList::new(alloc);
    list.push(Array {
        name: Bytes::from_slice(alloc, b"A")?,
        shape: Shape {
            dims: 1,
            low: [1, 0],
            extent: [8, 1],
        },
        decomp: Some(0),
        along: Along::Dim { dim: 0, shift: 0 },
    })?;
    Ok(list)
}

/// An array A(8) that lies one place further on in a decomposition D(0:8).
fn sample(alloc: Global) -> Result<Program, Memory>
    ensures mapped { IfOk result (λ p. IsMapped (program_of p)) }
    ensures found { IfOk result (λ p. at (program_of p) 0 ≡ Some (record { decomp = 0; along = Along.Dim 0 (pos 0); low = pos 0; extent = 9; dist = Dist.Block })) }
{
    Ok(Program {
        scalars: NameList::new(alloc),
        arrays: arrays(alloc)?,
        decomps: decomps(alloc)?,
        body: StmtList::End,
        end_line: Line(1),
        rest: 0,
        sites: 0,
    })
}

/// A scalar as the one subscript.
fn subscript(alloc: Global) -> Result<ExprList, Memory>
    ensures { IfOk result (λ subs. expressions_of subs ≡ More (Scalar 0) End) }
{
    let first = Box::new(alloc, Expr::Scalar(0))?;
    let rest = Box::new(alloc, ExprList::End)?;
    Ok(ExprList::More(first, rest))
}

/// The element of A whose subscript is a scalar.
fn element(alloc: Global) -> Result<Ref2, Memory>
    ensures { IfOk result (λ target. target_of target ≡ ToElement 0 (More (Scalar 0) End) 0) }
{
    Ok(Ref2::Elem(Ref {
        array: 0,
        subs: subscript(alloc)?,
        site: 0,
    }))
}

/// One time an atom, and nothing more.
fn atom_of(form: &Form) -> Option<&Atom> {
    match &form.terms {
        TermList::More(term, rest) => {
            (term.coef == 1 && form.constant == 0 && matches!(**rest, TermList::End)).then_some(
                &term.atom,
            )
        }
        TermList::End => None,
    }
}

/// What a home says.
fn told(home: &Home) -> &'static str {
    match home {
        Home::All => "all",
        Home::Root => "root",
        Home::At(0, form) if matches!(atom_of(form), Some(Atom::Scalar(0))) => "D(I)",
        Home::At(_, _) => "another",
    }
}

/// The home of a statement.
fn is_home(rt: &impl Abort, home: &Home, wanted: &str) {
    assert!(rt; told(home) == wanted);
}

fn compare_homes(rt: &impl Abort, alloc: Global) -> Result<(), Memory> {
    let program = sample(alloc)?;
    let line = Line(1);
    let assigned = Stmt::Assign(line, element(alloc)?, Expr::Num(1));
    is_home(rt, &home_of(alloc, &program, &assigned)?, "D(I)");
    let read = Stmt::Read(line, element(alloc)?);
    is_home(rt, &home_of(alloc, &program, &read)?, "D(I)");
    let scalar = Stmt::Read(line, Ref2::Scalar(0));
    is_home(rt, &home_of(alloc, &program, &scalar)?, "all");
    let printed = Stmt::Print(line, PartList::new(alloc));
    is_home(rt, &home_of(alloc, &program, &printed)?, "root");
    let skipped = Stmt::Skip(line);
    is_home(rt, &home_of(alloc, &program, &skipped)?, "all");
    Ok(())
}

#[test]
fn each_kind_of_statement_has_its_home(rt: HostRuntime) -> Result<(), Fail> {
    compare_homes(&rt, rt.alloc())?;
    Ok(())
}

// ---- places by a map

/// D(0:4), which a map deals, and E(2), which is dealt in blocks.
fn dealt(alloc: Global) -> Result<DecompList, Memory>
    ensures { IfOk result (λ ds. ds ≡ record { name = []; shape = record { dims = 1; low = pos 0 ∷ pos 0 ∷ []; extent = 5 ∷ 1 ∷ [] }; dim = 0; dist = Some Dist.Irregular }
        ∷ record { name = []; shape = record { dims = 1; low = pos 1 ∷ pos 0 ∷ []; extent = 2 ∷ 1 ∷ [] }; dim = 0; dist = Some Dist.Block } ∷ []) }
{
    let mut list = DecompList::new(alloc);
    list.push(Decomp {
        name: Bytes::new(alloc),
        shape: Shape {
            dims: 1,
            low: [0, 0],
            extent: [5, 1],
        },
        dim: 0,
        dist: Some(Dist::Irregular),
    })?;
    list.push(Decomp {
        name: Bytes::new(alloc),
        shape: Shape {
            dims: 1,
            low: [1, 0],
            extent: [2, 1],
        },
        dim: 0,
        dist: Some(Dist::Block),
    })?;
    Ok(list)
}

/// A(4) by A(I) with D(I), B(2,3) by B(I,J) with D(J+1), and C(2) by C(I) with E(I).
fn laid(alloc: Global) -> Result<ArrayList, Memory>
    ensures { IfOk result (λ xs. xs ≡ record { name = []; shape = record { dims = 1; low = pos 1 ∷ pos 0 ∷ []; extent = 4 ∷ 1 ∷ [] }; decomp = Some 0; along = Along.Dim 0 (pos 0) }
        ∷ record { name = []; shape = record { dims = 2; low = pos 1 ∷ pos 1 ∷ []; extent = 2 ∷ 3 ∷ [] }; decomp = Some 0; along = Along.Dim 1 (pos 1) }
        ∷ record { name = []; shape = record { dims = 1; low = pos 1 ∷ pos 0 ∷ []; extent = 2 ∷ 1 ∷ [] }; decomp = Some 1; along = Along.Dim 0 (negsuc 0) } ∷ []) }
{
    let mut list = ArrayList::new(alloc);
    list.push(Array {
        name: Bytes::new(alloc),
        shape: Shape {
            dims: 1,
            low: [1, 0],
            extent: [4, 1],
        },
        decomp: Some(0),
        along: Along::Dim { dim: 0, shift: 0 },
    })?;
    list.push(Array {
        name: Bytes::new(alloc),
        shape: Shape {
            dims: 2,
            low: [1, 1],
            extent: [2, 3],
        },
        decomp: Some(0),
        along: Along::Dim { dim: 1, shift: 1 },
    })?;
    list.push(Array {
        name: Bytes::new(alloc),
        shape: Shape {
            dims: 1,
            low: [1, 0],
            extent: [2, 1],
        },
        decomp: Some(1),
        along: Along::Dim { dim: 0, shift: -1 },
    })?;
    Ok(list)
}

fn dealt_by_a_map(alloc: Global) -> Result<Program, Memory>
    ensures mapped { IfOk result (λ p. IsMapped (program_of p)) }
    ensures arrays { IfOk result (λ p. length (program_of p).arrays ≡ 3) }
    ensures positions { IfOk result (λ p. extent_along (program_of p) 0 ≡ 5) }
{
    Ok(Program {
        scalars: NameList::new(alloc),
        arrays: laid(alloc)?,
        decomps: dealt(alloc)?,
        body: StmtList::End,
        end_line: Line(1),
        rest: 0,
        sites: 0,
    })
}

fn append_elements(table: &Table, rank: RankNo, text: &mut Bytes) -> Result<(), Memory> {
    for local in 0..table.count_of(rank) {
        text.append_number(u64::from(table.element_at(rank, local)))?;
        text.append(b",")?;
    }
    text.append(b"/")
}

fn append_place(
    places: &PlaceList,
    name: Placed,
    ranks: u8,
    text: &mut Bytes,
) -> Result<(), Memory> {
    if let Some(Place::Irregular(table)) = place_named(places, name) {
        for rank in 0..ranks {
            append_elements(table, RankNo(rank), text)?;
        }
    }
    text.append(b";")
}

/// The elements that each rank owns of D, E, A, B and C behind the DISTRIBUTE of D by the map 3, -1, 4, 0, 7: those of
/// a rank end with a slash, and all of one name with a semicolon; E and C aren't touched. Before them stands the number
/// of ranks.
const PLACES: &str = "1 0,1,2,3,4,/;;0,1,2,3,/;0,1,2,3,4,5,/;;
3 0,3,/2,4,/1,/;;2,/1,3,/0,/;2,3,/0,1,4,5,//;;
4 2,3,///0,1,4,/;;1,2,///0,3,/;0,1,2,3,///4,5,/;;
";

fn places_text(alloc: Global, ranks: u8) -> Result<Bytes, Memory>
    requires { (1 ≤ ranks) × (ranks ≤ 16) }
{
    let program = dealt_by_a_map(alloc)?;
    let places = install(alloc, &program, 0, &[3, -1, 4, 0, 7], ranks)?;
    let mut text = Bytes::new(alloc);
    append_place(&places, Placed::Decomp(0), ranks, &mut text)?;
    append_place(&places, Placed::Decomp(1), ranks, &mut text)?;
    append_place(&places, Placed::Array(0), ranks, &mut text)?;
    append_place(&places, Placed::Array(1), ranks, &mut text)?;
    append_place(&places, Placed::Array(2), ranks, &mut text)?;
    Ok(text)
}

fn compare_places(rt: &impl Abort, alloc: Global, row: &str) -> Result<(), Memory> {
    let mut words = row.split_whitespace();
    let ranks = words.next().unwrap_or("").parse::<u8>().unwrap_or(0);
    assert!(rt; 1 <= ranks && ranks <= 16);
    let found = places_text(alloc, ranks)?;
    assert!(rt;
        found.as_slice() == words.next().unwrap_or("").as_bytes(),
        "{row}"
    );
    Ok(())
}

#[test]
fn a_map_gives_the_places_worked_by_hand(rt: HostRuntime) -> Result<(), Fail> {
    for row in PLACES.lines() {
        compare_places(&rt, rt.alloc(), row)?;
    }
    Ok(())
}
