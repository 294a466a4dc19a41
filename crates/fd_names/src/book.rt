// What is kept while a tree is walked.
ghost use Rattle.std.specs.Prelude.{◌≡◌, None, [], ◌∷◌, OnOk, IfOk};
ghost use Rattle.fd_names.specs.First.{given, noted};
ghost use Rattle.fd_names.specs.Checked.{nothing_seen};
ghost use Rattle.fd_names.specs.Expressions.{referred};

use crate::names::{Around, Scalars};
use crate::refusal::{Cause, Refusal, worse};
use fd_base::{Line, Memory};
use std::alloc::Global;

/// The scalars, references, statements and decompositions up to some place of the tree.
#[derive(Drop)]
pub struct Seen {
    pub scalars: Scalars,
    pub sites: u32,
    pub statements: u32,
    pub decomps: u32,
}

/// What was seen, the variables of the loops around, and the first refusal so far.
#[derive(Drop)]
pub struct Book {
    pub seen: Seen,
    pub around: Around,
    pub worst: Option<Refusal>,
}

impl Book {
    /// Before anything is seen.
    pub fn new(alloc: Global) -> Book
        ensures { result ≡ record { seen = nothing_seen; around = []; worst = None } }
    {
        Book {
            seen: Seen {
                scalars: Scalars::new(alloc),
                sites: 0,
                statements: 0,
                decomps: 0,
            },
            around: Around::new(alloc),
            worst: None,
        }
    }

    pub fn note(&mut self, line: Line, cause: Cause)
        ensures { self.new ≡ record self.old { worst = noted line (cause ∷ []) self.old.worst } }
    {
        self.worst = worse(self.worst, Refusal { line, cause });
    }

    pub fn note_if(&mut self, wrong: bool, line: Line, cause: Cause)
        ensures { self.new ≡ record self.old { worst = noted line (given wrong cause) self.old.worst } }
    {
        if wrong {
            self.note(line, cause);
        }
    }

    /// The number of a reference, which stands here. More references than numbers are as good as want of memory.
    pub fn site(&mut self) -> Result<u32, Memory>
        ensures site { IfOk result (λ site. site ≡ self.old.seen.sites) }
        ensures next { OnOk result (self.new ≡ record self.old { seen = referred self.old.seen }) }
    {
        let site = self.seen.sites;
        self.seen.sites = site.checked_add(1).ok_or(Memory)?;
        Ok(site)
    }
}
