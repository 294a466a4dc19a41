// The whole check.
ghost use Rattle.std.specs.Prelude.{◌≡◌, ◌<◌, ◌≤◌, ◌^◌, [], None, OnOk, IfOk, IfErr};
ghost use Rattle.fd_ast.specs.Tree.{nesting_among, program_tree};
ghost use Rattle.fd_prog.specs.Programs.{program_of};
ghost use Rattle.fd_prog.specs.Statements.{statements_of};
ghost use Rattle.fd_prog.specs.WellFormed.{IsSoundProgram};
ghost use Rattle.fd_names.specs.Checked.{body_of, finished_program, mapped_base_of, meaning_of, refusals_of, seen_in, whole_refusals};
ghost use Rattle.fd_names.specs.First.{AnswersFirst, met};
ghost use Rattle.fd_prog.specs.Checked.{IsCheckedProgram, depth_among, statements_references};
ghost use Rattle.fd_prog.specs.Mapped.{IsMapped};
ghost use Rattle.fd_names.specs.Distributed.{AreRegular, IsLocal};
ghost use Rattle.fd_names.specs.Sites.{CountUp};
ghost use Rattle.fd_names.specs.Written.{IsWritten};
ghost use Rattle.program_laws.specs.Accepted.{IsAcceptedProgram};

use crate::book::{Book, Seen};
use crate::declarations::Base;
use crate::finish::{dealt_arrays, finish_arrays, finish_decomps};
use crate::refusal::NameRefusal;
use fd_ast::Tree;
use fd_base::Memory;
use fd_prog::{Program, StmtList, numbers_are_words};
use std::alloc::Global;

/// The checked program of a tree, or the first of its refusals: the least line, on it the least number, and of several
/// limits the first in their order.
pub fn check(alloc: Global, tree: &Tree) -> Result<Program, NameRefusal>
    ensures program { IfOk result (λ p. program_of p ≡ meaning_of (program_tree tree.now) tree.now.end_line tree.now.rest) }
    ensures accepted { IfOk result (λ _. refusals_of (program_tree tree.now) ≡ []) }
    ensures refused { IfErr result (AnswersFirst (refusals_of (program_tree tree.now))) }
    ensures sound { IfOk result (λ p. IsSoundProgram (program_of p)) }
    ensures sites { IfOk result (λ p. CountUp 0 (statements_references (program_of p).body) (program_of p).sites) }
    ensures nesting { IfOk result (λ p. depth_among (program_of p).body ≡ nesting_among (program_tree tree.now).body) }
    ensures mapped { IfOk result (λ p. IsMapped (program_of p)) }
    ensures regular { IfOk result (λ p. AreRegular (program_of p)) }
    ensures local { IfOk result (λ p. IsLocal (program_of p)) }
    ensures checked { nesting_among (program_tree tree.now).body ≤ 32 → IfOk result (λ p. IsCheckedProgram (program_of p)) }
    ensures kept { IsWritten (program_tree tree.now) → nesting_among (program_tree tree.now).body ≤ 32 → IfOk result (λ p. IsAcceptedProgram (program_of p)) }
{
    let checked = judge(alloc, tree)?;
    numbers_are_words(&checked);
    is_count(checked.sites);
    Ok(checked)
}

/// A count in 32 bits, as its type says.
fn is_count(count: u32)
    ensures { count < 2 ^ 32 }
{}

/// What a walk over a whole tree finds.
#[derive(Drop)]
struct Walked {
    base: Base,
    book: Book,
    body: StmtList,
}

/// The program of a tree, or the first refusal of a walk over all of it.
fn judge(alloc: Global, tree: &Tree) -> Result<Program, NameRefusal>
    ensures program { IfOk result (λ p. program_of p ≡ meaning_of (program_tree tree.now) tree.now.end_line tree.now.rest) }
    ensures accepted { IfOk result (λ _. refusals_of (program_tree tree.now) ≡ []) }
    ensures refused { IfErr result (AnswersFirst (refusals_of (program_tree tree.now))) }
{
    let walked = walk(alloc, tree)?;
    match walked.book.worst {
        Some(refusal) => Err(refusal.answer()),
        None => {
            let Walked { base, book, body } = walked;
            let program = finished(alloc, &base, &book.seen, body, tree)?;
            Ok(program)
        }
    }
}

fn walk(alloc: Global, tree: &Tree) -> Result<Walked, Memory>
    ensures base { IfOk result (λ w. w.base ≡ mapped_base_of (program_tree tree.now)) }
    ensures seen { IfOk result (λ w. w.book.seen ≡ seen_in (program_tree tree.now)) }
    ensures worst { IfOk result (λ w. w.book.worst ≡ met (refusals_of (program_tree tree.now)) None) }
    ensures body { IfOk result (λ w. statements_of w.body ≡ body_of (program_tree tree.now)) }
{
    let mut base = Base::new(alloc, tree.decls.as_slice())?;
    let mut book = Book::new(alloc);
    book.decls(alloc, &mut base, tree.decls.as_slice())?;
    let body = book.stmts(alloc, &base.table, &tree.body)?;
    base.remap_all(alloc, &tree.body)?;
    book.whole(alloc, &base, &body)?;
    Ok(Walked { base, book, body })
}

impl Book {
    /// The rules that are judged once the whole program is known.
    #[tactic(auto, using(crate::proofs::Noted::noting))]
    fn whole(&mut self, alloc: Global, base: &Base, body: &StmtList) -> Result<(), Memory>
        ensures { OnOk result (self.new ≡ record self.old { worst = met (whole_refusals base.now (statements_of body.now)) self.old.worst }) }
    {
        let dealt = dealt_arrays(alloc, base.alignments.as_slice(), base.spreads.as_slice())?;
        self.totals(base.sizes.as_slice(), dealt.as_slice())?;
        self.index_stmts(alloc, dealt.as_slice(), body)
    }
}

/// The program of what is declared and seen, and of the body.
fn finished(
    alloc: Global,
    base: &Base,
    seen: &Seen,
    body: StmtList,
    tree: &Tree,
) -> Result<Program, Memory>
    ensures { IfOk result (λ p. program_of p ≡ finished_program base.now seen.now (statements_of body) tree.now.end_line tree.now.rest) }
{
    let arrays = finish_arrays(
        alloc,
        base.arrays.as_slice(),
        base.alignments.as_slice(),
        base.spreads.as_slice(),
    )?;
    let decomps = finish_decomps(alloc, base.decomps.as_slice(), base.spreads.as_slice())?;
    let scalars = seen.scalars.list(alloc)?;
    Ok(Program {
        scalars,
        arrays,
        decomps,
        body,
        end_line: tree.end_line,
        rest: tree.rest,
        sites: seen.sites,
    })
}
