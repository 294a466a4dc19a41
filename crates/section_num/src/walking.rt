// The uses of a program's nodes, noted in order of the nodes.
ghost use Rattle.std.specs.Prelude.{◌≡◌, ◌+◌, ◌<◌, ◌≤◌, ◌++◌, ◌∷◌, [], length, map, flat_map, IfOk, OnOk};
ghost use Rattle.fd_prog.specs.Conditions.{condition_of};
ghost use Rattle.fd_prog.specs.Expressions.{expression_of, expressions_of};
ghost use Rattle.fd_prog.specs.Statements.{If as AnIf, Do as ADo, While as AWhile, print_item_of, statement_of, statements_of, target_of};
ghost use Rattle.fd_prog.specs.Programs.{program_of};
ghost use Rattle.fd_prog.specs.Items.{Counted, item_of_reference, widened_over};
ghost use Rattle.fd_prog.specs.Mapped.{IsMapped};
ghost use Rattle.fd_prog.specs.Checked.{depth_in, depth_among};
ghost use Rattle.fd_prog.specs.Uses.{condition_uses, expression_uses, expressions_uses, for_all_ranks, for_home_of, print_uses, target_uses, use_of as the_use_of, uses_among, uses_by_node, uses_in};
ghost use Rattle.section_num.specs.Bounds.{loop_of};
ghost use Rattle.section_num.specs.Noting.{all_noted, at_start, closed, nodes_noted};
ghost use Rattle.section_num.specs.Views.{AreFormsOver, IsReached, around_of, names_of, noted_of, program_in, setting_of, stand_of};

use crate::around::{Around, Loop, Reach, Stand, Valuer};
use crate::book::{Book, new_book};
use crate::bounds::Bounds;
use crate::firsts::Use;
use crate::names::{Names, add_all_set};
use crate::referring::{item_of, kept_over};
use crate::setting::SetNames;
use crate::widening::reached_in;
use fd_base::{Line, Memory};
use fd_prog::{
    Cond, Expr, ExprList, FormRefusal, Part, PartList, Program, Ref, Ref2, Stmt, StmtList,
};
use std::alloc::Global;

/// Notes the use that a reference makes, if it makes one.
fn note_reference(alloc: Global, book: &mut Book, stand: &Stand<'_>, r: &Ref) -> Result<(), Memory>
    requires program { IsMapped (program_in stand.now) }
    requires around { length (around_of stand.now.around.now) ≤ 32 }
    requires reach { IsReached (program_in stand.now) stand.now.around.now }
    requires count { length book.old.firsts ≤ 512 }
    ensures noted { OnOk result (noted_of book.new ≡ all_noted (the_use_of stand.now.line r.now.site (item_of_reference (program_in stand.now) (setting_of stand.now) r.now.array (expressions_of r.now.subs))) (noted_of book.old)) }
    ensures count { OnOk result (length book.new.firsts ≤ 512) }
{
    match item_of(alloc, stand, r.array, &r.subs) {
        Ok(Some(item)) => book.note(Use {
            line: stand.line,
            site: r.site,
            item,
        }),
        Ok(None) => Ok(()),
        Err(FormRefusal::Memory) => Err(Memory),
        Err(FormRefusal::Terms) => Ok(()),
        Err(FormRefusal::Coefficient) => Ok(()),
    }
}

/// Notes the uses in an expression.
#[cycle(noting)]
#[tactic(auto, using(crate::proofs::Notings::noting))]
fn note_expression(
    alloc: Global,
    book: &mut Book,
    stand: &Stand<'_>,
    e: &Expr,
) -> Result<(), Memory>
    requires program { IsMapped (program_in stand.now) }
    requires around { length (around_of stand.now.around.now) ≤ 32 }
    requires reach { IsReached (program_in stand.now) stand.now.around.now }
    requires count { length book.old.firsts ≤ 512 }
    ensures noted { OnOk result (noted_of book.new ≡ all_noted (expression_uses (stand_of stand.now) (expression_of e.now)) (noted_of book.old)) }
    ensures count { OnOk result (length book.new.firsts ≤ 512) }
{
    match e {
        Expr::Num(_) => Ok(()),
        Expr::Scalar(_) => Ok(()),
        Expr::Elem(r) => {
            note_reference(alloc, book, stand, r)?;
            note_expressions(alloc, book, stand, &r.subs)
        }
        Expr::Neg(a) => note_expression(alloc, book, stand, a),
        Expr::Bin(_, a, b) => {
            note_expression(alloc, book, stand, a)?;
            note_expression(alloc, book, stand, b)
        }
        Expr::Call(_, args) => note_expressions(alloc, book, stand, args),
    }
}

/// Notes the uses in expressions.
#[cycle(noting)]
#[tactic(auto, using(crate::proofs::Notings::noting))]
fn note_expressions(
    alloc: Global,
    book: &mut Book,
    stand: &Stand<'_>,
    list: &ExprList,
) -> Result<(), Memory>
    requires program { IsMapped (program_in stand.now) }
    requires around { length (around_of stand.now.around.now) ≤ 32 }
    requires reach { IsReached (program_in stand.now) stand.now.around.now }
    requires count { length book.old.firsts ≤ 512 }
    ensures noted { OnOk result (noted_of book.new ≡ all_noted (expressions_uses (stand_of stand.now) (expressions_of list.now)) (noted_of book.old)) }
    ensures count { OnOk result (length book.new.firsts ≤ 512) }
{
    match list {
        ExprList::End => Ok(()),
        ExprList::More(first, rest) => {
            note_expression(alloc, book, stand, first)?;
            note_expressions(alloc, book, stand, rest)
        }
    }
}

/// Notes the uses in a condition.
#[tactic(auto, using(crate::proofs::Notings::noting))]
fn note_condition(alloc: Global, book: &mut Book, stand: &Stand<'_>, c: &Cond) -> Result<(), Memory>
    requires program { IsMapped (program_in stand.now) }
    requires around { length (around_of stand.now.around.now) ≤ 32 }
    requires reach { IsReached (program_in stand.now) stand.now.around.now }
    requires count { length book.old.firsts ≤ 512 }
    ensures noted { OnOk result (noted_of book.new ≡ all_noted (condition_uses (stand_of stand.now) (condition_of c.now)) (noted_of book.old)) }
    ensures count { OnOk result (length book.new.firsts ≤ 512) }
{
    match c {
        Cond::Fixed(_) => Ok(()),
        Cond::Cmp(_, a, b) => {
            note_expression(alloc, book, stand, a)?;
            note_expression(alloc, book, stand, b)
        }
        Cond::Not(d) => note_condition(alloc, book, stand, d),
        Cond::Both(d, e) => {
            note_condition(alloc, book, stand, d)?;
            note_condition(alloc, book, stand, e)
        }
        Cond::Either(d, e) => {
            note_condition(alloc, book, stand, d)?;
            note_condition(alloc, book, stand, e)
        }
    }
}

/// Notes the uses in a target.
fn note_target(
    alloc: Global,
    book: &mut Book,
    stand: &Stand<'_>,
    target: &Ref2,
) -> Result<(), Memory>
    requires program { IsMapped (program_in stand.now) }
    requires around { length (around_of stand.now.around.now) ≤ 32 }
    requires reach { IsReached (program_in stand.now) stand.now.around.now }
    requires count { length book.old.firsts ≤ 512 }
    ensures noted { OnOk result (noted_of book.new ≡ all_noted (target_uses (stand_of stand.now) (target_of target.now)) (noted_of book.old)) }
    ensures count { OnOk result (length book.new.firsts ≤ 512) }
{
    match target {
        Ref2::Scalar(_) => Ok(()),
        Ref2::Elem(r) => note_expressions(alloc, book, stand, &r.subs),
    }
}

/// Notes the uses in what a PRINT prints.
fn note_part(alloc: Global, book: &mut Book, stand: &Stand<'_>, part: &Part) -> Result<(), Memory>
    requires program { IsMapped (program_in stand.now) }
    requires around { length (around_of stand.now.around.now) ≤ 32 }
    requires reach { IsReached (program_in stand.now) stand.now.around.now }
    requires count { length book.old.firsts ≤ 512 }
    ensures noted { OnOk result (noted_of book.new ≡ all_noted (print_uses (stand_of stand.now) (print_item_of part.now)) (noted_of book.old)) }
    ensures count { OnOk result (length book.new.firsts ≤ 512) }
{
    match part {
        Part::Words(_) => Ok(()),
        Part::Value(e) => note_expression(alloc, book, stand, e),
    }
}

/// Notes the uses in all that a PRINT prints.
fn note_parts(
    alloc: Global,
    book: &mut Book,
    stand: &Stand<'_>,
    parts: &[Part],
) -> Result<(), Memory>
    requires program { IsMapped (program_in stand.now) }
    requires around { length (around_of stand.now.around.now) ≤ 32 }
    requires reach { IsReached (program_in stand.now) stand.now.around.now }
    requires count { length book.old.firsts ≤ 512 }
    ensures noted { OnOk result (noted_of book.new ≡ all_noted (flat_map (print_uses (stand_of stand.now)) (map print_item_of parts.now)) (noted_of book.old)) }
    ensures count { OnOk result (length book.new.firsts ≤ 512) }
{
    for part in parts {
        note_part(alloc, book, stand, part)?;
    }
    Ok(())
}

/// Notes the uses of an assignment.
#[tactic(auto, using(crate::proofs::Notings::noting))]
fn note_assign<'a>(
    alloc: Global,
    book: &mut Book,
    program: &'a Program,
    around: &'a Around<'a>,
    s: &'a Stmt,
    line: Line,
    target: &Ref2,
    e: &Expr,
) -> Result<(), Memory>
    requires program { IsMapped (program_of program.now) }
    requires around { length (around_of around.now) ≤ 32 }
    requires reach { IsReached (program_of program.now) around.now }
    requires count { length book.old.firsts ≤ 512 }
    ensures noted { OnOk result (noted_of book.new ≡ closed (all_noted (target_uses (for_all_ranks (program_of program.now) (around_of around.now) line) (target_of target.now)
        ++ expression_uses (for_home_of (program_of program.now) (around_of around.now) line (statement_of s.now)) (expression_of e.now)) (noted_of book.old))) }
    ensures count { OnOk result (length book.new.firsts ≤ 512) }
{
    let all = Stand {
        program,
        line,
        around,
        valuer: Valuer::AllRanks,
    };
    note_target(alloc, book, &all, target)?;
    let home = Stand {
        program,
        line,
        around,
        valuer: Valuer::HomeOf(s),
    };
    note_expression(alloc, book, &home, e)?;
    book.close(alloc)
}

/// Notes the uses of a READ.
fn note_read<'a>(
    alloc: Global,
    book: &mut Book,
    program: &'a Program,
    around: &'a Around<'a>,
    line: Line,
    target: &Ref2,
) -> Result<(), Memory>
    requires program { IsMapped (program_of program.now) }
    requires around { length (around_of around.now) ≤ 32 }
    requires reach { IsReached (program_of program.now) around.now }
    requires count { length book.old.firsts ≤ 512 }
    ensures noted { OnOk result (noted_of book.new ≡ closed (all_noted (target_uses (for_all_ranks (program_of program.now) (around_of around.now) line) (target_of target.now)) (noted_of book.old))) }
    ensures count { OnOk result (length book.new.firsts ≤ 512) }
{
    let all = Stand {
        program,
        line,
        around,
        valuer: Valuer::AllRanks,
    };
    note_target(alloc, book, &all, target)?;
    book.close(alloc)
}

/// Notes the uses of a PRINT.
fn note_print<'a>(
    alloc: Global,
    book: &mut Book,
    program: &'a Program,
    around: &'a Around<'a>,
    s: &'a Stmt,
    line: Line,
    parts: &PartList,
) -> Result<(), Memory>
    requires program { IsMapped (program_of program.now) }
    requires around { length (around_of around.now) ≤ 32 }
    requires reach { IsReached (program_of program.now) around.now }
    requires count { length book.old.firsts ≤ 512 }
    ensures noted { OnOk result (noted_of book.new ≡ closed (all_noted (flat_map (print_uses (for_home_of (program_of program.now) (around_of around.now) line (statement_of s.now))) (map print_item_of parts.now)) (noted_of book.old))) }
    ensures count { OnOk result (length book.new.firsts ≤ 512) }
{
    let home = Stand {
        program,
        line,
        around,
        valuer: Valuer::HomeOf(s),
    };
    note_parts(alloc, book, &home, parts.as_slice())?;
    book.close(alloc)
}

/// Notes the uses of a condition at the beginning of an IF or a DO WHILE, or at the latch of one.
fn note_test<'a>(
    alloc: Global,
    book: &mut Book,
    program: &'a Program,
    around: &'a Around<'a>,
    line: Line,
    c: &Cond,
) -> Result<(), Memory>
    requires program { IsMapped (program_of program.now) }
    requires around { length (around_of around.now) ≤ 32 }
    requires reach { IsReached (program_of program.now) around.now }
    requires count { length book.old.firsts ≤ 512 }
    ensures noted { OnOk result (noted_of book.new ≡ closed (all_noted (condition_uses (for_all_ranks (program_of program.now) (around_of around.now) line) (condition_of c.now)) (noted_of book.old))) }
    ensures count { OnOk result (length book.new.firsts ≤ 512) }
{
    let all = Stand {
        program,
        line,
        around,
        valuer: Valuer::AllRanks,
    };
    note_condition(alloc, book, &all, c)?;
    book.close(alloc)
}

/// Notes the uses at the beginning of a DO.
#[tactic(auto, using(crate::proofs::Notings::noting))]
fn note_bounds<'a>(
    alloc: Global,
    book: &mut Book,
    program: &'a Program,
    around: &'a Around<'a>,
    line: Line,
    first: &Expr,
    last: &Expr,
    step: &Expr,
) -> Result<(), Memory>
    requires program { IsMapped (program_of program.now) }
    requires around { length (around_of around.now) ≤ 32 }
    requires reach { IsReached (program_of program.now) around.now }
    requires count { length book.old.firsts ≤ 512 }
    ensures noted { OnOk result (noted_of book.new ≡ closed (all_noted (expression_uses (for_all_ranks (program_of program.now) (around_of around.now) line) (expression_of first.now)
        ++ (expression_uses (for_all_ranks (program_of program.now) (around_of around.now) line) (expression_of last.now) ++ expression_uses (for_all_ranks (program_of program.now) (around_of around.now) line) (expression_of step.now))) (noted_of book.old))) }
    ensures count { OnOk result (length book.new.firsts ≤ 512) }
{
    let all = Stand {
        program,
        line,
        around,
        valuer: Valuer::AllRanks,
    };
    note_expression(alloc, book, &all, first)?;
    note_expression(alloc, book, &all, last)?;
    note_expression(alloc, book, &all, step)?;
    book.close(alloc)
}

/// Two nodes that use nothing.
fn close_both(alloc: Global, book: &mut Book) -> Result<(), Memory>
    requires count { length book.old.firsts ≤ 512 }
    ensures noted { OnOk result (noted_of book.new ≡ closed (closed (noted_of book.old))) }
    ensures count { OnOk result (length book.new.firsts ≤ 512) }
{
    book.close(alloc)?;
    book.close(alloc)
}

/// Over which loops an item that has no names is widened in the body of a DO.
fn reach_of_do<'a>(
    alloc: Global,
    program: &Program,
    around: &Around<'_>,
    var: u16,
    bounds: &'a Bounds,
    sets: &'a SetNames,
) -> Result<Reach, Memory>
    requires program { IsMapped (program_of program.now) }
    requires around { length (around_of around.now) < 32 }
    requires reach { IsReached (program_of program.now) around.now }
    ensures count { IfOk result (λ reach. reach.count ≡ length (widened_over (program_of program.now) (Counted (loop_of var bounds.now (names_of sets.now)) ∷ around_of around.now) [])) }
    ensures forms { IfOk result (λ reach. AreFormsOver reach.forms (widened_over (program_of program.now) (Counted (loop_of var bounds.now (names_of sets.now)) ∷ around_of around.now) [])) }
{
    let none = Reach {
        count: 0,
        forms: None,
    };
    let alone = Loop {
        var,
        bounds,
        sets,
        reach: &none,
    };
    let loops = reached_in(alloc, program, &alone, around)?;
    let forms = kept_over(alloc, &loops)?;
    Ok(Reach {
        count: loops.len(),
        forms,
    })
}

/// Notes the uses of an IF's nodes, and of all that stands in it.
#[cycle(walking)]
fn note_if(
    alloc: Global,
    book: &mut Book,
    program: &Program,
    around: &Around<'_>,
    line: Line,
    c: &Cond,
    so: &StmtList,
    otherwise: &StmtList,
) -> Result<(), Memory>
    requires program { IsMapped (program_of program.now) }
    requires nesting { length (around_of around.now) + depth_in (AnIf line (condition_of c.now) (statements_of so.now) (statements_of otherwise.now)) ≤ 32 }
    requires reach { IsReached (program_of program.now) around.now }
    requires count { length book.old.firsts ≤ 512 }
    ensures noted { OnOk result (noted_of book.new ≡ nodes_noted (uses_in (program_of program.now) (around_of around.now) (AnIf line (condition_of c.now) (statements_of so.now) (statements_of otherwise.now))) (noted_of book.old)) }
    ensures count { OnOk result (length book.new.firsts ≤ 512) }
{
    note_test(alloc, book, program, &*around, line, c)?;
    book.close(alloc)?;
    let side = Around::Side(&*around);
    note_statements(alloc, book, program, &side, so)?;
    close_both(alloc, book)?;
    note_statements(alloc, book, program, &side, otherwise)?;
    close_both(alloc, book)
}

/// Notes the uses of a DO's nodes, and of all that stands in it.
#[cycle(walking)]
fn note_do(
    alloc: Global,
    book: &mut Book,
    program: &Program,
    around: &Around<'_>,
    line: Line,
    var: u16,
    first: &Expr,
    last: &Expr,
    step: &Expr,
    body: &StmtList,
) -> Result<(), Memory>
    requires program { IsMapped (program_of program.now) }
    requires nesting { length (around_of around.now) + depth_in (ADo line var (expression_of first.now) (expression_of last.now) (expression_of step.now) (statements_of body.now)) ≤ 32 }
    requires reach { IsReached (program_of program.now) around.now }
    requires count { length book.old.firsts ≤ 512 }
    ensures noted { OnOk result (noted_of book.new ≡ nodes_noted (uses_in (program_of program.now) (around_of around.now) (ADo line var (expression_of first.now) (expression_of last.now) (expression_of step.now) (statements_of body.now))) (noted_of book.old)) }
    ensures count { OnOk result (length book.new.firsts ≤ 512) }
{
    note_bounds(alloc, book, program, &*around, line, first, last, step)?;
    book.close(alloc)?;
    let mut names = Names::new(alloc);
    add_all_set(&mut names, body)?;
    let sets = SetNames::from_names(alloc, names)?;
    let bounds = Bounds::new(alloc, first, last, step)?;
    let reach = reach_of_do(alloc, program, &*around, var, &bounds, &sets)?;
    let counted = Loop {
        var,
        bounds: &bounds,
        sets: &sets,
        reach: &reach,
    };
    let inside = Around::Counted(counted, &*around);
    note_statements(alloc, book, program, &inside, body)?;
    book.close(alloc)
}

/// Notes the uses of a DO WHILE's nodes, and of all that stands in it.
#[cycle(walking)]
fn note_while(
    alloc: Global,
    book: &mut Book,
    program: &Program,
    around: &Around<'_>,
    line: Line,
    c: &Cond,
    body: &StmtList,
) -> Result<(), Memory>
    requires program { IsMapped (program_of program.now) }
    requires nesting { length (around_of around.now) + depth_in (AWhile line (condition_of c.now) (statements_of body.now)) ≤ 32 }
    requires reach { IsReached (program_of program.now) around.now }
    requires count { length book.old.firsts ≤ 512 }
    ensures noted { OnOk result (noted_of book.new ≡ nodes_noted (uses_in (program_of program.now) (around_of around.now) (AWhile line (condition_of c.now) (statements_of body.now))) (noted_of book.old)) }
    ensures count { OnOk result (length book.new.firsts ≤ 512) }
{
    note_test(alloc, book, program, &*around, line, c)?;
    book.close(alloc)?;
    let inside = Around::Repeated(&*around);
    note_statements(alloc, book, program, &inside, body)?;
    note_test(alloc, book, program, &*around, line, c)
}

/// Notes the uses of a statement's nodes, and of all that stands in it.
#[cycle(walking)]
fn note_statement(
    alloc: Global,
    book: &mut Book,
    program: &Program,
    around: &Around<'_>,
    s: &Stmt,
) -> Result<(), Memory>
    requires program { IsMapped (program_of program.now) }
    requires nesting { length (around_of around.now) + depth_in (statement_of s.now) ≤ 32 }
    requires reach { IsReached (program_of program.now) around.now }
    requires count { length book.old.firsts ≤ 512 }
    ensures noted { OnOk result (noted_of book.new ≡ nodes_noted (uses_in (program_of program.now) (around_of around.now) (statement_of s.now)) (noted_of book.old)) }
    ensures count { OnOk result (length book.new.firsts ≤ 512) }
{
    let around = &*around;
    match s {
        Stmt::Assign(line, target, e) => {
            note_assign(alloc, book, program, around, &*s, *line, target, e)
        }
        Stmt::If(line, c, so, otherwise) => {
            note_if(alloc, book, program, around, *line, c, so, otherwise)
        }
        Stmt::Do(line, var, first, last, step, body) => note_do(
            alloc, book, program, around, *line, *var, first, last, step, body,
        ),
        Stmt::While(line, c, body) => { note_while(alloc, book, program, around, *line, c, body) }
        Stmt::Read(line, target) => note_read(alloc, book, program, around, *line, target),
        Stmt::Print(line, parts) => { note_print(alloc, book, program, around, &*s, *line, parts) }
        Stmt::Skip(_) => book.close(alloc),
        Stmt::Remap(_, _, _) => book.close(alloc),
    }
}

/// Notes the uses of the nodes of statements.
#[cycle(walking)]
#[tactic(auto, using(crate::proofs::Notings::noting))]
pub fn note_statements(
    alloc: Global,
    book: &mut Book,
    program: &Program,
    around: &Around<'_>,
    list: &StmtList,
) -> Result<(), Memory>
    requires program { IsMapped (program_of program.now) }
    requires nesting { length (around_of around.now) + depth_among (statements_of list.now) ≤ 32 }
    requires reach { IsReached (program_of program.now) around.now }
    requires count { length book.old.firsts ≤ 512 }
    ensures noted { OnOk result (noted_of book.new ≡ nodes_noted (uses_among (program_of program.now) (around_of around.now) (statements_of list.now)) (noted_of book.old)) }
    ensures count { OnOk result (length book.new.firsts ≤ 512) }
{
    match list {
        StmtList::End => Ok(()),
        StmtList::More(first, rest) => {
            note_statement(alloc, book, program, &*around, first)?;
            note_statements(alloc, book, program, &*around, rest)
        }
    }
}

/// What a program uses, noted in order of its nodes.
pub fn all_uses(alloc: Global, program: &Program) -> Result<Book, Memory>
    requires program { IsMapped (program_of program.now) }
    requires nesting { depth_among (program_of program.now).body ≤ 32 }
    ensures { IfOk result (λ book. noted_of book ≡ nodes_noted (uses_by_node (program_of program.now)) (at_start program.now.sites)) }
{
    let mut book = new_book(alloc, program.sites)?;
    book.close(alloc)?;
    note_statements(alloc, &mut book, program, &Around::Nothing, &program.body)?;
    book.close(alloc)?;
    Ok(book)
}
