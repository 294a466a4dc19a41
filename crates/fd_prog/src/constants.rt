// Operators and functions of constant forms.
ghost use Rattle.std.specs.Prelude.{◌≡◌, option_map, fold};
ghost use Rattle.fd_prog.specs.Values.{applied, pair_of};
ghost use Rattle.fd_prog.specs.Extremes.{extreme, extreme_of_two};
ghost use Rattle.fd_prog.specs.Forms.{linear_form_of, linear_forms_of};
ghost use Rattle.fd_prog.specs.FormOf.{constant_in, constants_in, known_quotient};

use crate::expression::Func;
use crate::form::{Form, FormList, TermList};
use fd_base::{FaultKind, abs, div, rem};

/// The number that a form without terms is.
pub fn constant_of(form: &Form) -> Option<i64>
    ensures { result ≡ constant_in (linear_form_of form.now) }
{
    match &form.terms {
        TermList::End => Some(form.constant),
        TermList::More(_, _) => None,
    }
}

/// The quotient of two forms, where both are constant.
pub fn quotient_of(f: &Form, g: &Form) -> Option<Result<i64, FaultKind>>
    ensures { result ≡ known_quotient (constant_in (linear_form_of f.now)) (constant_in (linear_form_of g.now)) }
{
    match constant_of(f) {
        None => None,
        Some(x) => match constant_of(g) {
            None => None,
            Some(y) => Some(div(x, y)),
        },
    }
}

/// A function of its arguments, where all are constant.
pub fn call_of(f: Func, args: &FormList) -> Option<Result<i64, FaultKind>>
    ensures { result ≡ option_map (applied f) (constants_in (linear_forms_of args.now)) }
{
    match f {
        Func::Mod => match pair_of_constants(args) {
            None => None,
            Some(pair) => {
                let [x, y] = pair;
                Some(rem(x, y))
            }
        },
        Func::Abs => match pair_of_constants(args) {
            None => None,
            Some(pair) => {
                let [x, _] = pair;
                Some(abs(x))
            }
        },
        Func::Min => match Extreme::Least.among(args) {
            None => None,
            Some(x) => Some(Ok(x)),
        },
        Func::Max => match Extreme::Greatest.among(args) {
            None => None,
            Some(x) => Some(Ok(x)),
        },
    }
}

/// The first two numbers, where all of the forms are constant; one that is missing is 0.
fn pair_of_constants(forms: &FormList) -> Option<[i64; 2]>
    ensures { result ≡ option_map pair_of (constants_in (linear_forms_of forms.now)) }
{
    match forms {
        FormList::End => Some([0, 0]),
        FormList::More(form, rest) => match constant_of(form) {
            None => None,
            Some(x) => match pair_of_constants(rest) {
                None => None,
                Some(pair) => {
                    let [y, _] = pair;
                    Some([x, y])
                }
            },
        },
    }
}

/// Which of some numbers is wanted.
#[derive(Clone, Copy)]
pub enum Extreme {
    Least,
    Greatest,
}

impl Extreme {
    /// The lesser or the greater of two numbers.
    #[inline(always)]
    pub fn of_two(self, x: i64, y: i64) -> i64
        ensures { result ≡ extreme_of_two self x y }
    {
        match self {
            Extreme::Least => x.min(y),
            Extreme::Greatest => x.max(y),
        }
    }

    /// The extreme number, where all of the forms are constant.
    fn among(self, forms: &FormList) -> Option<i64>
        ensures { result ≡ option_map (extreme self) (constants_in (linear_forms_of forms.now)) }
    {
        match forms {
            FormList::End => Some(0),
            FormList::More(form, rest) => match constant_of(form) {
                None => None,
                Some(x) => self.from(x, rest),
            },
        }
    }

    /// The extreme of a number and others, where all of the forms are constant.
    fn from(self, so_far: i64, forms: &FormList) -> Option<i64>
        ensures { result ≡ option_map (fold (extreme_of_two self) so_far) (constants_in (linear_forms_of forms.now)) }
    {
        match forms {
            FormList::End => Some(so_far),
            FormList::More(form, rest) => match constant_of(form) {
                None => None,
                Some(x) => self.from(self.of_two(so_far, x), rest),
            },
        }
    }
}
