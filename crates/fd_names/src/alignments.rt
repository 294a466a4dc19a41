// ALIGN.
ghost use Rattle.std.specs.Prelude.{◌≡◌, ◌&&◌, ◌+ℤ◌, pos, int_le, int_lt, false, not, is_some, unwrap_or, ◌++◌, if◌then◌else◌, Some, None, OnOk, IfOk};
ghost use Rattle.std.specs.List.{list_any};
ghost use Rattle.fd_base.specs.declared.shapes.Along.TheVariants.{Fixed};
ghost use Rattle.fd_base.specs.Numbers.{at_least_zero, fits_i64};
ghost use Rattle.fd_base.specs.Shapes.{extent_of, low_of};
ghost use Rattle.fd_ast.specs.Tree.{expr_tree, expr_trees};
ghost use Rattle.fd_names.specs.Constants.{constant_of};
ghost use Rattle.fd_names.specs.Expressions.{causes, meant, see};
ghost use Rattle.fd_names.specs.First.{given, noted};
ghost use Rattle.fd_names.specs.declared.refusal.Cause.TheVariants.{AlignBad, NotConstant};
ghost use Rattle.fd_names.specs.Alignments.{aim_of, aims_at, aims_causes, aims_of, all_cleared, along_at, along_by, are_inside, cleared, dummy_in, dummy_of, has_twice, inside_by, no_value, is_inside, is_used_twice, offset_of, see_aim, see_aims, shift_at, target_causes, two_alongs};

use crate::book::Book;
use crate::constants::constant;
use crate::names::{Table, is_among};
use crate::refusal::Cause;
use fd_ast::{Op, TExpr, TExprList};
use fd_base::{Along, Bytes, Line, ListOf, Memory, Shape};
use std::alloc::Global;

/// Where one dimension of a decomposition goes: the array's subscript in a dimension plus a value or less it, or that value.
#[derive(Clone, Copy)]
pub struct Aim {
    pub dim: Option<usize>,
    pub minus: bool,
    pub value: i64,
}

impl Aim {
    fn offset(self) -> i128
        ensures { result ≡ offset_of self }
    {
        if self.minus {
            -i128::from(self.value)
        } else {
            i128::from(self.value)
        }
    }

    /// What is added to the array's subscript for a zero-based position in a decomposition's dimension.
    fn shift(self, onto: &Shape, dim: usize) -> i128
        ensures { result ≡ shift_at onto.now dim self }
    {
        self.offset() - i128::from(low_at(onto, dim))
    }
}

/// The dimension that a dummy stands for.
#[tactic(auto, unfolding(crate::specs::Alignments::dummy_in))]
fn dummy_in(dummies: &[Bytes], name: &[u8]) -> Option<usize>
    ensures { result ≡ dummy_in dummies.now name.now }
{
    dummies.iter().position(|other| name == other.as_slice())
}

fn dummy_of(dummies: &[Bytes], e: &TExpr) -> Option<usize>
    ensures { result ≡ dummy_of dummies.now (expr_tree e.now) }
{
    match e {
        TExpr::Name(name) => dummy_in(dummies, name.as_slice()),
        TExpr::Num(_) => None,
        TExpr::Call(_, _) => None,
        TExpr::Neg(_) => None,
        TExpr::Bin(_, _, _) => None,
    }
}

/// Whether a dummy stands twice.
#[tactic(auto, unfolding(crate::specs::Names::has_name))]
pub fn has_twice(dummies: &[Bytes]) -> bool
    ensures { result ≡ has_twice dummies.now }
{
    match dummies {
        [] => false,
        [first, rest @ ..] => is_among(rest, first.as_slice()) || has_twice(rest),
    }
}

/// An expression without a value, which names nothing.
fn no_value(alloc: Global) -> Result<TExpr, Memory>
    ensures { IfOk result (λ x. expr_tree x ≡ no_value) }
{
    let one = Box::new(alloc, TExpr::Num(1))?;
    Ok(TExpr::Bin(Op::Div, one, Box::new(alloc, TExpr::Num(0))?))
}

/// An expression in which no dummy has a value.
#[cycle(cleared)]
fn cleared(alloc: Global, dummies: &[Bytes], e: &TExpr) -> Result<TExpr, Memory>
    ensures { IfOk result (λ x. expr_tree x ≡ cleared dummies.now (expr_tree e.now)) }
{
    match e {
        TExpr::Num(value) => Ok(TExpr::Num(*value)),
        TExpr::Name(name) => match dummy_in(dummies, name.as_slice()) {
            Some(_) => no_value(alloc),
            None => Ok(TExpr::Name(Bytes::from_slice(alloc, name.as_slice())?)),
        },
        TExpr::Call(name, args) => {
            let args = all_cleared(alloc, dummies, args)?;
            Ok(TExpr::Call(Bytes::from_slice(alloc, name.as_slice())?, args))
        }
        TExpr::Neg(inner) => {
            let inner = cleared(alloc, dummies, inner)?;
            Ok(TExpr::Neg(Box::new(alloc, inner)?))
        }
        TExpr::Bin(op, left, right) => {
            let left = cleared(alloc, dummies, left)?;
            let right = cleared(alloc, dummies, right)?;
            Ok(TExpr::Bin(*op, Box::new(alloc, left)?, Box::new(alloc, right)?))
        }
    }
}

#[cycle(cleared)]
fn all_cleared(alloc: Global, dummies: &[Bytes], list: &TExprList) -> Result<TExprList, Memory>
    ensures { IfOk result (λ x. expr_trees x ≡ all_cleared dummies.now (expr_trees list.now)) }
{
    match list {
        TExprList::End => Ok(TExprList::End),
        TExprList::More(first, rest) => {
            let first = cleared(alloc, dummies, first)?;
            let rest = all_cleared(alloc, dummies, rest)?;
            Ok(TExprList::More(Box::new(alloc, first)?, Box::new(alloc, rest)?))
        }
    }
}

fn first_position(low: i64, shift: i64) -> i128
    ensures { result ≡ low +ℤ shift }
{
    i128::from(low) + i128::from(shift)
}

fn position_behind(low: i64, shift: i64, extent: u32) -> i128
    ensures { result ≡ low +ℤ shift +ℤ pos extent }
{
    i128::from(low) + i128::from(shift) + i128::from(extent)
}

/// Whether subscripts from `low` on, as many as `extent`, have positions below `room` where `shift` is added to them.
fn fits_below(low: i64, extent: u32, shift: i64, room: u32) -> bool
    ensures { result ≡ (int_le (pos 0) (low +ℤ shift) && int_le (low +ℤ shift +ℤ pos extent) (pos room)) }
{
    0 <= first_position(low, shift) && position_behind(low, shift, extent) <= i128::from(room)
}

/// A shift as a number of 64 bits.
fn small(shift: i128) -> Option<i64>
    ensures { result ≡ (if fits_i64 shift then Some shift else None) }
{
    i64::try_from(shift).ok()
}

/// Whether all elements of the array have positions inside a dimension of this extent.
fn inside_by(dim: Option<usize>, shape: &Shape, extent: u32, shift: i128) -> bool
    ensures { result ≡ inside_by dim shape.now extent shift }
{
    match dim {
        None => 0 <= shift && shift < i128::from(extent),
        Some(dim) => {
            if dim >= usize::from(shape.dims) || dim >= 2 {
                return false;
            }
            match small(shift) {
                Some(shift) => fits_below(shape.low[dim], shape.extent[dim], shift, extent),
                None => false,
            }
        }
    }
}

fn low_at(shape: &Shape, dim: usize) -> i64
    ensures { result ≡ low_of shape.now dim }
{
    shape.low.get(dim).copied().unwrap_or(0)
}

fn extent_at(shape: &Shape, dim: usize) -> u32
    ensures { result ≡ extent_of shape.now dim }
{
    shape.extent.get(dim).copied().unwrap_or(0)
}

fn is_inside(shape: &Shape, onto: &Shape, dim: usize, aim: Aim) -> bool
    ensures { result ≡ is_inside shape.now onto.now dim aim }
{
    inside_by(aim.dim, shape, extent_at(onto, dim), aim.shift(onto, dim))
}

/// Whether each aim puts all elements inside its dimension of the decomposition.
pub fn are_inside(shape: &Shape, onto: &Shape, aims: &[Aim]) -> bool
    ensures { result ≡ are_inside shape.now onto.now 0 aims.now }
{
    for (dim, aim) in aims.iter().enumerate() {
        if !is_inside(shape, onto, dim, *aim) {
            return false;
        }
    }
    true
}

/// Where the array lies along a dimension of this extent; where it doesn't fit, one place is as good as any.
fn along_from(dim: Option<usize>, shape: &Shape, extent: u32, shift: i128) -> Along
    ensures { result ≡ (if inside_by dim shape.now extent shift then along_by dim shift else Fixed 0) }
{
    match dim {
        None => constant_along(extent, shift),
        Some(dim) => {
            if dim >= usize::from(shape.dims) || dim >= 2 {
                return Along::Fixed(0);
            }
            match small(shift) {
                Some(shift) if fits_below(shape.low[dim], shape.extent[dim], shift, extent) => {
                    Along::Dim {
                        dim: dim as u8,
                        shift,
                    }
                }
                _ => Along::Fixed(0),
            }
        }
    }
}

/// The position of all elements, where it is below the extent.
fn constant_along(extent: u32, shift: i128) -> Along
    ensures { result ≡ (if (int_le (pos 0) shift && int_lt shift (pos extent)) then Fixed (at_least_zero shift) else Fixed 0) }
{
    if 0 <= shift && shift < i128::from(extent) {
        Along::Fixed(shift as u32)
    } else {
        Along::Fixed(0)
    }
}

/// Where the array lies along a dimension of the decomposition.
fn along_at(shape: &Shape, onto: &Shape, dim: usize, aim: Aim) -> Along
    ensures { result ≡ along_at shape.now onto.now dim aim }
{
    along_from(aim.dim, shape, extent_at(onto, dim), aim.shift(onto, dim))
}

/// Where the array lies along both dimensions of the decomposition.
pub fn two_alongs(shape: &Shape, onto: &Shape, aims: &[Aim]) -> [Along; 2]
    ensures { result ≡ two_alongs shape.now onto.now aims.now }
{
    match aims {
        [] => [Along::Fixed(0), Along::Fixed(0)],
        [first] => [along_at(shape, onto, 0, *first), Along::Fixed(0)],
        [first, second, ..] => [
            along_at(shape, onto, 0, *first),
            along_at(shape, onto, 1, *second),
        ],
    }
}

/// Whether both are of one dimension of the array.
fn aims_at(dim: Option<usize>, other: Option<usize>) -> bool
    ensures { result ≡ aims_at dim other }
{
    match (dim, other) {
        (Some(dim), Some(other)) => dim == other,
        (Some(_), None) => false,
        (None, _) => false,
    }
}

/// Whether one of the aims is of this dimension of the array.
fn is_aimed_at(dim: Option<usize>, aims: &[Aim]) -> bool
    ensures { result ≡ list_any (λ (b : Aim). aims_at dim b.dim) aims.now }
{
    match aims {
        [] => false,
        [first, rest @ ..] => aims_at(dim, first.dim) || is_aimed_at(dim, rest),
    }
}

/// Whether a dimension of the array stands twice.
pub fn is_used_twice(aims: &[Aim]) -> bool
    ensures { result ≡ is_used_twice aims.now }
{
    match aims {
        [] => false,
        [first, rest @ ..] => is_aimed_at(first.dim, rest) || is_used_twice(rest),
    }
}

impl Book {
    /// A target that is no dummy in front, or an offset at one.
    #[tactic(auto, using(crate::proofs::Noted::noting))]
    fn offset(
        &mut self,
        alloc: Global,
        table: &Table,
        line: Line,
        dummies: &[Bytes],
        e: &TExpr,
    ) -> Result<Option<i64>, Memory>
        ensures seen { OnOk result (self.new.seen ≡ see table.now line (cleared dummies.now (expr_tree e.now)) self.old.seen) }
        ensures worst { OnOk result (self.new.worst ≡ noted line (causes table.now line (cleared dummies.now (expr_tree e.now))) self.old.worst) }
        ensures around { OnOk result (self.new.around ≡ self.old.around) }
        ensures value { IfOk result (λ v. v ≡ constant_of (meant table.now line (cleared dummies.now (expr_tree e.now)) self.old.seen)) }
    {
        let looked_up = cleared(alloc, dummies, e)?;
        let made = self.expr(alloc, table, line, &looked_up)?;
        Ok(constant(&made))
    }

    /// A target without a dummy in front.
    #[tactic(auto, using(crate::proofs::Noted::noting))]
    fn constant_aim(
        &mut self,
        alloc: Global,
        table: &Table,
        line: Line,
        dummies: &[Bytes],
        e: &TExpr,
    ) -> Result<Aim, Memory>
        ensures seen { OnOk result (self.new.seen ≡ see table.now line (cleared dummies.now (expr_tree e.now)) self.old.seen) }
        ensures worst { OnOk result (self.new.worst ≡ noted line (causes table.now line (cleared dummies.now (expr_tree e.now)) ++ given (not (is_some (constant_of (meant table.now line (cleared dummies.now (expr_tree e.now)) self.old.seen)))) AlignBad) self.old.worst) }
        ensures around { OnOk result (self.new.around ≡ self.old.around) }
        ensures meant { IfOk result (λ a. a ≡ record { dim = None; minus = false; value = unwrap_or (constant_of (meant table.now line (cleared dummies.now (expr_tree e.now)) self.old.seen)) (pos 0) }) }
    {
        let value = self.offset(alloc, table, line, dummies, e)?;
        self.note_if(value.is_none(), line, Cause::AlignBad);
        Ok(Aim {
            dim: None,
            minus: false,
            value: value.unwrap_or(0),
        })
    }

    /// An offset that is added to a dummy or taken off.
    #[tactic(auto, using(crate::proofs::Noted::noting))]
    fn dummy_aim(
        &mut self,
        alloc: Global,
        table: &Table,
        line: Line,
        dummies: &[Bytes],
        dim: usize,
        minus: bool,
        e: &TExpr,
    ) -> Result<Aim, Memory>
        ensures seen { OnOk result (self.new.seen ≡ see table.now line (cleared dummies.now (expr_tree e.now)) self.old.seen) }
        ensures worst { OnOk result (self.new.worst ≡ noted line (causes table.now line (cleared dummies.now (expr_tree e.now)) ++ given (not (is_some (constant_of (meant table.now line (cleared dummies.now (expr_tree e.now)) self.old.seen)))) NotConstant) self.old.worst) }
        ensures around { OnOk result (self.new.around ≡ self.old.around) }
        ensures meant { IfOk result (λ a. a ≡ record { dim = Some dim; minus = minus; value = unwrap_or (constant_of (meant table.now line (cleared dummies.now (expr_tree e.now)) self.old.seen)) (pos 0) }) }
    {
        let value = self.offset(alloc, table, line, dummies, e)?;
        self.note_if(value.is_none(), line, Cause::NotConstant);
        Ok(Aim {
            dim: Some(dim),
            minus,
            value: value.unwrap_or(0),
        })
    }

    /// A target.
    #[tactic(auto, using(crate::proofs::Noted::noting))]
    fn aim(
        &mut self,
        alloc: Global,
        table: &Table,
        line: Line,
        dummies: &[Bytes],
        e: &TExpr,
    ) -> Result<Aim, Memory>
        ensures seen { OnOk result (self.new.seen ≡ see_aim table.now line dummies.now (expr_tree e.now) self.old.seen) }
        ensures worst { OnOk result (self.new.worst ≡ noted line (target_causes table.now line dummies.now (expr_tree e.now) self.old.seen) self.old.worst) }
        ensures around { OnOk result (self.new.around ≡ self.old.around) }
        ensures meant { IfOk result (λ a. a ≡ aim_of table.now line dummies.now (expr_tree e.now) self.old.seen) }
    {
        match e {
            TExpr::Name(name) => match dummy_in(dummies, name.as_slice()) {
                Some(dim) => Ok(Aim {
                    dim: Some(dim),
                    minus: false,
                    value: 0,
                }),
                None => self.constant_aim(alloc, table, line, dummies, e),
            },
            TExpr::Bin(op, left, right) => match (op, dummy_of(dummies, left)) {
                (Op::Add, Some(dim)) => self.dummy_aim(
                    alloc, table, line, dummies, dim, false, right,
                ),
                (Op::Sub, Some(dim)) => self.dummy_aim(
                    alloc, table, line, dummies, dim, true, right,
                ),
                (Op::Add, None) => self.constant_aim(alloc, table, line, dummies, e),
                (Op::Sub, None) => self.constant_aim(alloc, table, line, dummies, e),
                (Op::Mul, _) => self.constant_aim(alloc, table, line, dummies, e),
                (Op::Div, _) => self.constant_aim(alloc, table, line, dummies, e),
            },
            TExpr::Num(_) => self.constant_aim(alloc, table, line, dummies, e),
            TExpr::Call(_, _) => self.constant_aim(alloc, table, line, dummies, e),
            TExpr::Neg(_) => self.constant_aim(alloc, table, line, dummies, e),
        }
    }

    /// Targets, put behind those that are there.
    #[tactic(auto, using(crate::proofs::Noted::noting, crate::proofs::Lengths::append_last))]
    pub fn aims(
        &mut self,
        alloc: Global,
        table: &Table,
        line: Line,
        dummies: &[Bytes],
        list: &TExprList,
        made: &mut ListOf<Aim>,
    ) -> Result<(), Memory>
        ensures seen { OnOk result (self.new.seen ≡ see_aims table.now line dummies.now (expr_trees list.now) self.old.seen) }
        ensures worst { OnOk result (self.new.worst ≡ noted line (aims_causes table.now line dummies.now (expr_trees list.now) self.old.seen) self.old.worst) }
        ensures around { OnOk result (self.new.around ≡ self.old.around) }
        ensures made { OnOk result (made.new ≡ made.old ++ aims_of table.now line dummies.now (expr_trees list.now) self.old.seen) }
    {
        match list {
            TExprList::End => Ok(()),
            TExprList::More(first, rest) => {
                let aim = self.aim(alloc, table, line, dummies, first)?;
                made.push(aim)?;
                self.aims(alloc, table, line, dummies, rest, made)
            }
        }
    }
}
