// What the nodes of a program steal.
ghost use Rattle.std.specs.Prelude.{◌≡◌, ◌≤◌, ◌++◌, ◌∷◌, [], None, IfOk, OnOk, length, map, option_map};
ghost use Rattle.fd_prog.specs.Items.{item_names as the_item_names, linear_item_of};
ghost use Rattle.fd_prog.specs.Mapped.{IsMapped};
ghost use Rattle.fd_prog.specs.Programs.{program_of};
ghost use Rattle.fd_prog.specs.Statements.{statement_of, statements_of};
ghost use Rattle.section_num.specs.Changes.{changes_among, changes_in, changes_of, loop_changes, numbers_from, numbers_with as the_numbers_with, side_changes};
ghost use Rattle.section_num.specs.Views.{change_of, name_of, names_of, numbers_of};

use crate::names::{Name, name_of_target};
use crate::referring::item_names;
use crate::setting::SetNames;
use fd_base::{ItemNo, ListOf, Memory};
use fd_prog::{Item, Program, Stmt, StmtList};
use std::alloc::Global;

/// What nodes change, in order of the nodes; None where a node changes nothing.
type Changes = ListOf<Option<Name>>;

/// Adds what changes on one side of an IF, and its two pads.
#[cycle(changing)]
fn add_side(changes: &mut Changes, side: &StmtList) -> Result<(), Memory>
    ensures { OnOk result (map change_of changes.new ≡ map change_of changes.old ++ side_changes (changes_among (statements_of side.now))) }
{
    changes.push(None)?;
    add_all(changes, side)?;
    changes.push(None)
}

/// Adds what changes in a loop.
#[cycle(changing)]
fn add_loop(changes: &mut Changes, var: Option<Name>, body: &StmtList) -> Result<(), Memory>
    ensures { OnOk result (map change_of changes.new ≡ map change_of changes.old ++ loop_changes (change_of var) (changes_among (statements_of body.now))) }
{
    changes.append(&[var, None])?;
    add_all(changes, body)?;
    changes.push(var)
}

/// Adds what the nodes of a statement change.
#[cycle(changing)]
fn add(changes: &mut Changes, s: &Stmt) -> Result<(), Memory>
    ensures { OnOk result (map change_of changes.new ≡ map change_of changes.old ++ changes_in (statement_of s.now)) }
{
    match s {
        Stmt::Assign(_, target, _) => changes.push(Some(name_of_target(target))),
        Stmt::If(_, _, so, otherwise) => {
            changes.push(None)?;
            add_side(changes, so)?;
            add_side(changes, otherwise)?;
            changes.push(None)
        }
        Stmt::Do(_, var, _, _, _, body) => add_loop(changes, Some(Name::Scalar(*var)), body),
        Stmt::While(_, _, body) => add_loop(changes, None, body),
        Stmt::Read(_, target) => changes.push(Some(name_of_target(target))),
        Stmt::Print(_, _) => changes.push(None),
        Stmt::Skip(_) => changes.push(None),
        Stmt::Remap(_, decomp, _) => changes.push(Some(Name::Decomp(*decomp))),
    }
}

/// Adds what the nodes of statements change.
#[cycle(changing)]
fn add_all(changes: &mut Changes, list: &StmtList) -> Result<(), Memory>
    ensures { OnOk result (map change_of changes.new ≡ map change_of changes.old ++ changes_among (statements_of list.now)) }
{
    match list {
        StmtList::End => Ok(()),
        StmtList::More(first, rest) => {
            add(changes, first)?;
            add_all(changes, rest)
        }
    }
}

/// What the nodes of a program change.
fn all_changes(alloc: Global, program: &Program) -> Result<Changes, Memory>
    ensures { IfOk result (λ changes. map change_of changes ≡ changes_of (program_of program.now)) }
{
    let mut changes = Changes::new(alloc);
    add_side(&mut changes, &program.body)?;
    Ok(changes)
}

/// The names of each item.
fn all_names(alloc: Global, program: &Program, items: &[Item]) -> Result<Vec<SetNames>, Memory>
    requires { IsMapped (program_of program.now) }
    ensures { IfOk result (λ names. map names_of names.items ≡ map (the_item_names (program_of program.now)) (map linear_item_of items.now)) }
{
    let mut names = Vec::new(alloc);
    for item in items {
        let own = item_names(alloc, program, item)?;
        names.push(SetNames::from_names(alloc, own)?)?;
    }
    Ok(names)
}

/// The numbers of the items that have a name, by the names of each.
fn numbers_with(alloc: Global, names: &[SetNames], name: Name) -> Result<ListOf<ItemNo>, Memory>
    requires { length names.now ≤ 512 }
    ensures { IfOk result (λ row. numbers_of row ≡ numbers_from 1 (map names_of names.now) (name_of name)) }
{
    let mut row = ListOf::new(alloc);
    for (place, own) in names.iter().enumerate() {
        if own.has(name) {
            row.push(ItemNo(place as u16 + 1))?;
        }
    }
    Ok(row)
}

/// The numbers of the items that have what a node changes among their names.
fn stolen(alloc: Global, names: &[SetNames], change: Option<Name>) -> Result<ListOf<ItemNo>, Memory>
    requires { length names.now ≤ 512 }
    ensures { IfOk result (λ row. numbers_of row ≡ the_numbers_with (map names_of names.now) (change_of change)) }
{
    match change {
        None => Ok(ListOf::new(alloc)),
        Some(name) => numbers_with(alloc, names, name),
    }
}

/// The numbers of the items that each node steals, by the names of each item.
fn all_stolen(
    alloc: Global,
    names: &[SetNames],
    changes: &[Option<Name>],
) -> Result<ListOf<ListOf<ItemNo>>, Memory>
    requires { length names.now ≤ 512 }
    ensures { IfOk result (λ rows. map numbers_of rows ≡ map (the_numbers_with (map names_of names.now)) (map change_of changes.now)) }
{
    let mut rows = ListOf::new(alloc);
    for change in changes {
        let row = stolen(alloc, names, *change)?;
        rows.push(row)?;
    }
    Ok(rows)
}

/// The numbers of the items that each node of a program steals.
pub fn stolen_rows(
    alloc: Global,
    program: &Program,
    items: &[Item],
) -> Result<ListOf<ListOf<ItemNo>>, Memory>
    requires program { IsMapped (program_of program.now) }
    requires few { length items.now ≤ 512 }
    ensures { IfOk result (λ rows. map numbers_of rows ≡ map (the_numbers_with (map (the_item_names (program_of program.now)) (map linear_item_of items.now))) (changes_of (program_of program.now))) }
{
    let names = all_names(alloc, program, items)?;
    let changes = all_changes(alloc, program)?;
    all_stolen(alloc, &names, changes.as_slice())
}
