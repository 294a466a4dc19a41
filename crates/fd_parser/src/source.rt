// The sections of a source, and what a line makes of them.
ghost use Rattle.std.specs.Prelude.{◌≡◌, ◌≤◌, ◌++◌, Err, OnOk, map, length};
ghost use Rattle.fd_ast.specs.Tree.{decl_tree};
ghost use Rattle.fd_parser.specs.declared.stop.Stop.TheVariants as stops;
ghost use Rattle.fd_parser.specs.Forms.{line_form};

use crate::blocks::{Head, OpenBlocks};
use crate::form::Form;
use crate::stop::Stop;
use fd_ast::TDecl;
use fd_base::Line;
use std::alloc::Global;

/// What may come next.
#[derive(Clone, Copy, PartialEq, Eq)]
pub enum Section {
    /// The PROGRAM line.
    Start,
    Declarations,
    Statements,
}

/// The part of a source that was read: its declarations, and the statements so far.
#[derive(Drop)]
pub struct Source {
    pub section: Section,
    pub decls: Vec<TDecl>,
    pub inside: OpenBlocks,
}

impl Source {
    ghost use Rattle.fd_parser.specs.Sections.{here_of, start, taken, titled, declared_at, HasRoom, Overflows, level_here};
    ghost use Rattle.fd_parser.specs.Open.{Makes};

    pub fn new(alloc: Global) -> Source
        ensures { here_of result ≡ start }
    {
        Source {
            section: Section::Start,
            decls: Vec::new(alloc),
            inside: OpenBlocks::new(alloc),
        }
    }

    /// Takes the next line.
    pub fn take(&mut self, alloc: Global, line: Line, form: Form) -> Result<(), Stop>
        ensures step { Makes result (taken line (line_form form) (here_of self.old)) (λ _. here_of self.new) }
        ensures level { OnOk result (HasRoom (here_of self.old) → level_here (line_form form) (here_of self.new) ≤ 32) }
        ensures too_deep { result ≡ Err stops.TooDeep → Overflows (line_form form) (taken line (line_form form) (here_of self.old)) }
    {
        match form {
            Form::Program => self.title(),
            Form::Declarations(list) => self.declare(list),
            Form::Simple(list) => {
                self.section = Section::Statements;
                self.inside.add(alloc, list)
            }
            Form::LogicalIf(condition, list) => {
                self.section = Section::Statements;
                self.inside.add_choice(alloc, line, condition, list)
            }
            Form::IfThen(condition) => {
                self.section = Section::Statements;
                self.inside.begin_choice(alloc, line, condition, false)
            }
            Form::ElseIf(condition) => {
                self.section = Section::Statements;
                self.inside.turn(alloc)?;
                self.inside.begin_choice(alloc, line, condition, true)
            }
            Form::Else => {
                self.section = Section::Statements;
                self.inside.turn(alloc)
            }
            Form::EndIf => {
                self.section = Section::Statements;
                self.inside.end_choice(alloc)
            }
            Form::Do(name, first, last, step) => {
                self.section = Section::Statements;
                self.inside
                    .begin_loop(alloc, Head::Counted(line, name, first, last, step))
            }
            Form::While(condition) => {
                self.section = Section::Statements;
                self.inside.begin_loop(alloc, Head::While(line, condition))
            }
            Form::EndDo => {
                self.section = Section::Statements;
                self.inside.end_loop(alloc)
            }
        }
    }

    // The PROGRAM line.
    fn title(&mut self) -> Result<(), Stop>
        ensures step { Makes result (titled (here_of self.old).section (here_of self.old)) (λ _. here_of self.new) }
        ensures no_depth { result ≡ Err stops.TooDeep → ⊥ }
        ensures same { OnOk result (length (here_of self.new).inside.places ≡ length (here_of self.old).inside.places) }
    {
        if self.section != Section::Start {
            return Err(Stop::Syntax);
        }
        self.section = Section::Declarations;
        Ok(())
    }

    // A line of declarations.
    fn declare(&mut self, list: Vec<TDecl>) -> Result<(), Stop>
        ensures step { Makes result (declared_at (here_of self.old).section (map decl_tree list.items) (here_of self.old)) (λ _. here_of self.new) }
        ensures no_depth { result ≡ Err stops.TooDeep → ⊥ }
        ensures same { OnOk result (length (here_of self.new).inside.places ≡ length (here_of self.old).inside.places) }
    {
        if self.section == Section::Statements {
            return Err(Stop::Syntax);
        }
        self.section = Section::Declarations;
        append_decls(&mut self.decls, list)?;
        Ok(())
    }
}

// These declarations, and then those.
fn append_decls(to: &mut Vec<TDecl>, from: Vec<TDecl>) -> Result<(), Stop>
    ensures items { OnOk result (map decl_tree to.new.items ≡ map decl_tree to.old.items ++ map decl_tree from.items) }
    ensures only_memory { result ≡ Err stops.TooDeep → ⊥ }
    ensures no_syntax { result ≡ Err stops.Syntax → ⊥ }
{
    for decl in from {
        to.push(decl)?;
    }
    Ok(())
}
