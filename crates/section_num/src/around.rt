// What stands around a reference, and who values it.
ghost use Rattle.std.specs.Prelude.{◌≡◌, IfSome, None, Some};
ghost use Rattle.section_num.specs.Views.{kept_forms, reach_of};

use crate::bounds::Bounds;
use crate::setting::SetNames;
use fd_base::Line;
use fd_prog::{Program, Stmt, WidenedList};

/// Over how many loops an item is widened that has no names, and the forms of the bounds of these, where they have some.
#[derive(Drop)]
pub struct Reach {
    pub count: usize,
    pub forms: Option<WidenedList>,
}

impl Reach {
    /// The forms, if there are some, of as many loops as these.
    fn forms_at(&self, count: usize) -> Option<&WidenedList>
        ensures { IfSome result (λ forms. (count ≡ self.now.count) × (self.now.forms ≡ Some forms.now)) }
    {
        if count == self.count {
            self.forms.as_ref()
        } else {
            None
        }
    }
}

/// A DO around a reference: its variable, its bounds and its step, what its body sets, and over which loops, itself and those further
/// out, an item is widened that has no names.
#[derive(Clone, Copy)]
pub struct Loop<'a> {
    pub var: u16,
    pub bounds: &'a Bounds,
    pub sets: &'a SetNames,
    pub reach: &'a Reach,
}

/// What stands around a reference, from the innermost outwards.
#[derive(Clone, Copy)]
pub enum Around<'a> {
    Nothing,
    /// A side of an IF.
    Side(&'a Around<'a>),
    /// A DO WHILE.
    Repeated(&'a Around<'a>),
    Counted(Loop<'a>, &'a Around<'a>),
}

impl Around<'_> {
    /// Over how many loops an item is widened that has no names.
    pub fn reach(&self) -> usize
        ensures { result ≡ reach_of self.now }
    {
        match self {
            Around::Nothing => 0,
            Around::Side(_) => 0,
            Around::Repeated(_) => 0,
            Around::Counted(l, _) => l.reach.count,
        }
    }

    /// The forms of the bounds of the loops over which an item is widened, where these are as many as those of one that has no names and
    /// have forms that are kept.
    pub fn forms_at(&self, count: usize) -> Option<&WidenedList>
        ensures { IfSome result (λ forms. (count ≡ reach_of self.now) × (kept_forms self.now ≡ Some forms.now)) }
    {
        match self {
            Around::Nothing => None,
            Around::Side(_) => None,
            Around::Repeated(_) => None,
            Around::Counted(l, _) => l.reach.forms_at(count),
        }
    }
}

/// Who values a reference: all ranks, or whoever executes a statement.
#[derive(Clone, Copy)]
pub enum Valuer<'a> {
    AllRanks,
    HomeOf(&'a Stmt),
}

/// Where references stand: in a program, on a line, with what is around them, and who values them.
#[derive(Clone, Copy)]
pub struct Stand<'a> {
    pub program: &'a Program,
    pub line: Line,
    pub around: &'a Around<'a>,
    pub valuer: Valuer<'a>,
}
