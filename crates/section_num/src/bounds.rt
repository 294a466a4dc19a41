// The bounds and the step of a DO, and their forms.
ghost use Rattle.std.specs.Prelude.{◌≡◌, ◌≢◌, ◌≤◌, [], None, false, length, IfErr, IfOk, Ok, Err, MatchOption};
ghost use Rattle.std.specs.List.{list_any};
ghost use Rattle.fd_prog.specs.Expressions.{expression_of};
ghost use Rattle.fd_prog.specs.Items.{ScalarName, is_same_name, linear_loop_of};
ghost use Rattle.section_num.specs.Bounds.{AreForms, all_scalars, forms_of};
ghost use Rattle.section_num.specs.KeptNames.{name_of, names_of};

use crate::copies::{copy_expression, copy_widened};
use crate::mentions::add_scalars;
use crate::names::{Name, Names};
use crate::setting::SetNames;
use fd_base::Memory;
use fd_prog::{Expr, FormRefusal, Widened, form_of};
use std::alloc::Global;
use std::marker::Model;

/// Copies of the first and the last bound and of the step of a DO, with the scalars that these name, and their forms where they have some.
/// Contracts see the three expressions.
#[derive(Drop)]
pub struct Bounds {
    first: Expr,
    last: Expr,
    step: Expr,
    scalars: SetNames,
    forms: Option<Widened>,
}

impl Model for Bounds {
    ghost use Rattle.std.specs.Coded.{coded×};
    ghost use Rattle.fd_prog.specs.contracts.expression.Expr as expr;
    ghost use Rattle.fd_prog.specs.declared.expression.Expr.{Expr};
    ghost use Rattle.section_num.specs.Bounds.{AreKept};

    ghost Value = { Expr × (Expr × Expr) };

    ghost coded = { coded× expr.the_row.coded (coded× expr.the_row.coded expr.the_row.coded) };

    ghost view = { λ s. (s.first, (s.last, s.step)) };

    ghost invariant = { λ s. AreKept s.scalars s.forms (s.first, (s.last, s.step)) };
}

/// The scalars that two bounds and a step name.
fn scalars_of(alloc: Global, first: &Expr, last: &Expr, step: &Expr) -> Result<SetNames, Memory>
    ensures { IfOk result (λ named. names_of named ≡ all_scalars (first.now, (last.now, step.now))) }
{
    let mut names = Names::new(alloc);
    add_scalars(&mut names, first)?;
    add_scalars(&mut names, last)?;
    add_scalars(&mut names, step)?;
    SetNames::from_names(alloc, names)
}

/// Some of these scalars are among names.
fn has_scalar(named: &SetNames, scalars: &[u16]) -> bool
    ensures { result ≡ list_any (λ s. list_any (λ n. is_same_name (ScalarName s) (name_of n)) named.now) scalars.now }
{
    scalars.iter().any(|s| named.has(Name::Scalar(*s)))
}

/// The forms of two bounds and a step, where the scalars of `bound` are widened variables, or the limit that one passes.
fn all_forms(
    alloc: Global,
    first: &Expr,
    last: &Expr,
    step: &Expr,
    bound: &[u16],
) -> Result<Widened, FormRefusal>
    requires { length bound.now ≤ 32 }
    ensures found { IfOk result (λ forms. forms_of bound.now (first.now, (last.now, step.now)) ≡ Ok (linear_loop_of forms)) }
    ensures refused { IfErr result (λ why. why ≢ FormRefusal.Memory → forms_of bound.now (first.now, (last.now, step.now)) ≡ Err why) }
{
    let first = form_of(alloc, first, bound)?;
    let last = form_of(alloc, last, bound)?;
    let step = form_of(alloc, step, bound)?;
    Ok(Widened { first, last, step })
}

/// The same where none is widened, if they have forms.
fn plain_forms(
    alloc: Global,
    first: &Expr,
    last: &Expr,
    step: &Expr,
) -> Result<Option<Widened>, Memory>
    ensures { IfOk result (λ forms. AreForms forms (first.now, (last.now, step.now))) }
{
    match all_forms(alloc, first, last, step, &[]) {
        Ok(forms) => Ok(Some(forms)),
        Err(FormRefusal::Memory) => Err(Memory),
        Err(FormRefusal::Terms) => Ok(None),
        Err(FormRefusal::Coefficient) => Ok(None),
    }
}

impl Bounds {
    /// Those of a DO.
    pub fn new(alloc: Global, first: &Expr, last: &Expr, step: &Expr) -> Result<Bounds, Memory>
        ensures first { IfOk result (λ bounds. expression_of bounds.0 ≡ expression_of first.now) }
        ensures last { IfOk result (λ bounds. expression_of bounds.1.0 ≡ expression_of last.now) }
        ensures step { IfOk result (λ bounds. expression_of bounds.1.1 ≡ expression_of step.now) }
    {
        let first = copy_expression(alloc, first)?;
        let last = copy_expression(alloc, last)?;
        let step = copy_expression(alloc, step)?;
        let scalars = scalars_of(alloc, &first, &last, &step)?;
        let forms = plain_forms(alloc, &first, &last, &step)?;
        Ok(Bounds {
            first,
            last,
            step,
            scalars,
            forms,
        })
    }

    /// Their forms, if they have some.
    pub fn plain(&self) -> Option<&Widened>
        ensures { MatchOption result (AreForms None self.now) (λ forms. forms_of [] self.now ≡ Ok (linear_loop_of forms.now)) }
    {
        self.forms.as_ref()
    }

    /// Whether they name one of these scalars. Those that name none have the same forms where they are widened.
    fn names_some(&self, scalars: &[u16]) -> bool
        ensures { result ≡ false → forms_of scalars.now self.now ≡ forms_of [] self.now }
    {
        has_scalar(&self.scalars, scalars)
    }

    /// Their forms where the scalars of `bound` are widened variables, or the limit that one passes: those that are kept, if they are the
    /// same.
    pub fn within(&self, alloc: Global, bound: &[u16]) -> Result<Widened, FormRefusal>
        requires { length bound.now ≤ 32 }
        ensures found { IfOk result (λ forms. forms_of bound.now self.now ≡ Ok (linear_loop_of forms)) }
        ensures refused { IfErr result (λ why. why ≢ FormRefusal.Memory → forms_of bound.now self.now ≡ Err why) }
    {
        if self.names_some(bound) {
            return all_forms(alloc, &self.first, &self.last, &self.step, bound);
        }
        match self.plain() {
            Some(forms) => Ok(copy_widened(alloc, forms)?),
            None => all_forms(alloc, &self.first, &self.last, &self.step, bound),
        }
    }
}
