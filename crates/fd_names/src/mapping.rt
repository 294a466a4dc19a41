// DECOMPOSITION, ALIGN and DISTRIBUTE.
ghost use Rattle.std.specs.Prelude.{◌≡◌, [], ◌++◌, ◌∷◌, Some, None, OnOk, IfOk, map, slice_get, slice_set, not, nat_eq, length};
ghost use Rattle.fd_ast.specs.Tree.{AlignDecl, DecompDecl, DistributeDecl, attr_tree, dim_tree, expr_trees};
ghost use Rattle.fd_names.specs.Alignments.{aligned_causes, identity_aims, is_short, long_causes, onto_causes, short_causes, two_alongs};
ghost use Rattle.fd_names.specs.Declarations.{align_causes, alignment_onto, all_aims, aligned_onto, array_shape, decl_refusals, declare, decomp_dims, decomp_from, decomp_shape, is_aligned, is_aligned_at, is_spread, is_spread_at, onto_place_causes, own_decomp, place_causes, put_alignment, put_spread, see_decl, see_decomp, see_own_decomp, shape_from, unspread, with_alignment, with_decomp, with_spread};
ghost use Rattle.fd_names.specs.Distributions.{attrs_meant, count_causes, dealt, dims_of_use, see_attrs, spread_causes, spread_from, subject_causes};
ghost use Rattle.fd_names.specs.First.{met, noted};

use crate::alignments::{Aim, are_inside, has_twice, is_used_twice, two_alongs};
use crate::book::Book;
use crate::declarations::{Alignment, Base, Spread, Subscripts, shape_from};
use crate::distributions::{has_one, spread_from};
use crate::names::{Kind, Use};
use crate::refusal::Cause;
use fd_ast::{TAttr, TDim, TExprList};
use fd_base::{Bytes, Dist, Line, ListOf, Memory, Shape};
use fd_prog::Decomp;
use std::alloc::Global;

/// Each dimension of an array onto the same one of a decomposition.
fn identity_aims(alloc: Global, dims: u8) -> Result<ListOf<Aim>, Memory>
    ensures { IfOk result (λ aims. aims ≡ identity_aims dims) }
{
    let mut aims = ListOf::new(alloc);
    aims.push(Aim {
        dim: Some(0),
        minus: false,
        value: 0,
    })?;
    if dims != 1 {
        aims.push(Aim {
            dim: Some(1),
            minus: false,
            value: 0,
        })?;
    }
    Ok(aims)
}

/// Whether an ALIGN has neither dummies nor targets.
fn is_short(dummies: &[Bytes], targets: &TExprList) -> bool
    ensures { result ≡ is_short dummies.now (expr_trees targets.now) }
{
    match dummies {
        [] => match targets {
            TExprList::End => true,
            TExprList::More(_, _) => false,
        },
        [_, ..] => false,
    }
}

/// Whether a decomposition may have so many dimensions.
#[tactic(auto, using(crate::proofs::Lengths::length_dims))]
fn fit_decomp(dims: &[TDim]) -> bool
    ensures { result ≡ decomp_dims (length (map dim_tree dims.now)) }
{
    1 <= dims.len() && dims.len() <= 2
}

impl Base {
    /// A decomposition with these bounds.
    fn put_decomp(
        &mut self,
        alloc: Global,
        name: &[u8],
        shape: Shape,
        spread: Spread,
    ) -> Result<(), Memory>
        ensures { OnOk result (self.new ≡ record self.old { decomps = self.old.decomps ++ decomp_from name.now shape ∷ []; spreads = self.old.spreads ++ spread ∷ [] }) }
    {
        let name = Bytes::from_slice(alloc, name)?;
        self.decomps.push(Decomp {
            name,
            shape,
            dim: 0,
            dist: None,
        })?;
        self.spreads.push(spread)?;
        Ok(())
    }

    /// A name of a DECOMPOSITION with these dimensions.
    fn declare_decomp(
        &mut self,
        alloc: Global,
        line: Line,
        name: &[u8],
        ranges: &[Subscripts],
    ) -> Result<(), Memory>
        ensures { OnOk result (self.new ≡ with_decomp line name.now ranges.now self.old) }
    {
        let shape = shape_from(ranges);
        let number = self.decomps.len();
        self.put_new(alloc, line, name, Kind::Decomp(number, shape.dims))?;
        self.put_decomp(alloc, name, shape, Spread { dim: 0, dist: None })
    }

    /// The bounds of an array by its number.
    fn array_shape(&self, array: u16) -> Shape
        ensures { result ≡ array_shape (slice_get self.now.arrays array) }
    {
        match self.arrays.get(usize::from(array)) {
            Some(array) => array.shape,
            None => shape_from(&[]),
        }
    }

    /// The bounds of a decomposition by its number.
    fn decomp_shape(&self, decomp: usize) -> Shape
        ensures { result ≡ decomp_shape (slice_get self.now.decomps decomp) }
    {
        match self.decomps.get(decomp) {
            Some(decomp) => decomp.shape,
            None => shape_from(&[]),
        }
    }

    fn is_aligned_at(&self, array: u16) -> bool
        ensures { result ≡ is_aligned_at (slice_get self.now.alignments array) }
    {
        match self.alignments.get(usize::from(array)) {
            Some(alignment) => alignment.is_some(),
            None => false,
        }
    }

    fn is_spread_at(&self, decomp: usize) -> bool
        ensures { result ≡ is_spread_at (slice_get self.now.spreads decomp) }
    {
        match self.spreads.get(decomp) {
            Some(spread) => spread.dist.is_some(),
            None => false,
        }
    }

    /// Whether a name is an array that is aligned already.
    fn is_aligned(&self, name: Use) -> bool
        ensures { result ≡ is_aligned self.now name }
    {
        match name {
            Use::Array(array, _) => self.is_aligned_at(array),
            _ => false,
        }
    }

    /// Whether a name is a decomposition that is distributed already.
    fn is_spread(&self, name: Use) -> bool
        ensures { result ≡ is_spread self.now name }
    {
        match name {
            Use::Decomp(decomp, _) => self.is_spread_at(decomp),
            _ => false,
        }
    }

    /// An alignment of an array; the first stands.
    fn put_alignment(&mut self, array: u16, alignment: Alignment)
        ensures { self.new ≡ put_alignment array alignment self.old }
    {
        match self.alignments.get(usize::from(array)) {
            Some(Some(_)) => {}
            Some(None) => self.alignments.set(usize::from(array), Some(alignment)),
            None => {}
        }
    }

    /// A distribution of a decomposition; the first stands.
    fn put_spread(&mut self, decomp: usize, spread: Spread)
        ensures { self.new ≡ put_spread decomp spread self.old }
    {
        match self.spreads.get(decomp) {
            None => {}
            Some(old) => {
                if old.dist.is_none() {
                    self.spreads.set(decomp, spread);
                }
            }
        }
    }

    /// An ALIGN of an array with what the second name stands for.
    fn align_onto(
        &mut self,
        alloc: Global,
        array: u16,
        onto: Use,
        short: bool,
        aims: &[Aim],
    ) -> Result<(), Memory>
        ensures { OnOk result (self.new ≡ aligned_onto array onto short aims.now self.old) }
    {
        match onto {
            Use::Decomp(decomp, _) => {
                let shape = self.array_shape(array);
                let onto = self.decomp_shape(decomp);
                let along = if short {
                    let identity = identity_aims(alloc, shape.dims)?;
                    two_alongs(&shape, &onto, identity.as_slice())
                } else {
                    two_alongs(&shape, &onto, aims)
                };
                self.put_alignment(array, Alignment { decomp, along });
                Ok(())
            }
            Use::Scalar => Ok(()),
            Use::Constant(_) => Ok(()),
            Use::Array(_, _) => Ok(()),
            Use::Unknown => Ok(()),
        }
    }

    /// An ALIGN aligns wherever it names an array and a decomposition, even where its line is refused.
    fn align(
        &mut self,
        alloc: Global,
        name: Use,
        onto: Use,
        short: bool,
        aims: &[Aim],
    ) -> Result<(), Memory>
        ensures { OnOk result (self.new ≡ with_alignment name onto short aims.now self.old) }
    {
        match name {
            Use::Array(array, _) => self.align_onto(alloc, array, onto, short, aims),
            Use::Scalar => Ok(()),
            Use::Constant(_) => Ok(()),
            Use::Decomp(_, _) => Ok(()),
            Use::Unknown => Ok(()),
        }
    }

    /// The decomposition of an array that isn't aligned.
    fn put_own(
        &mut self,
        alloc: Global,
        name: &[u8],
        array: u16,
        spread: Spread,
    ) -> Result<(), Memory>
        ensures { OnOk result (self.new ≡ own_decomp name.now array spread self.old) }
    {
        let shape = self.array_shape(array);
        let decomp = self.decomps.len();
        let identity = identity_aims(alloc, shape.dims)?;
        let along = two_alongs(&shape, &shape, identity.as_slice());
        self.put_decomp(alloc, name, shape, spread)?;
        self.put_alignment(array, Alignment { decomp, along });
        Ok(())
    }

    /// A DISTRIBUTE distributes wherever it names a decomposition or an array that isn't aligned, even where its line is
    /// refused.
    pub fn distribute(
        &mut self,
        alloc: Global,
        used: Use,
        name: &[u8],
        spread: Spread,
    ) -> Result<(), Memory>
        ensures { OnOk result (self.new ≡ with_spread used name.now spread self.old) }
    {
        match used {
            Use::Decomp(decomp, _) => {
                self.put_spread(decomp, spread);
                Ok(())
            }
            Use::Array(array, _) => {
                if self.is_aligned_at(array) {
                    Ok(())
                } else {
                    self.put_own(alloc, name, array, spread)
                }
            }
            Use::Scalar => Ok(()),
            Use::Constant(_) => Ok(()),
            Use::Unknown => Ok(()),
        }
    }
}

impl Book {
    /// The name of an ALIGN's array.
    fn note_aligned(&mut self, line: Line, name: Use, before: bool)
        ensures { self.new ≡ record self.old { worst = noted line (aligned_causes name before) self.old.worst } }
    {
        match name {
            Use::Array(_, _) => self.note_if(before, line, Cause::AlignBad),
            Use::Unknown => self.note(line, Cause::NotDeclared),
            Use::Scalar => self.note(line, Cause::AlignBad),
            Use::Constant(_) => self.note(line, Cause::AlignBad),
            Use::Decomp(_, _) => self.note(line, Cause::AlignBad),
        }
    }

    /// The name of an ALIGN's decomposition.
    fn note_onto(&mut self, line: Line, name: Use)
        ensures { self.new ≡ record self.old { worst = noted line (onto_causes name) self.old.worst } }
    {
        match name {
            Use::Decomp(_, _) => {}
            Use::Unknown => self.note(line, Cause::NotDeclared),
            Use::Scalar => self.note(line, Cause::AlignBad),
            Use::Constant(_) => self.note(line, Cause::AlignBad),
            Use::Array(_, _) => self.note(line, Cause::AlignBad),
        }
    }

    /// What an ALIGN with dummies and targets says of two shapes.
    #[tactic(auto, using(crate::proofs::Noted::noting))]
    fn note_long(
        &mut self,
        line: Line,
        shape: &Shape,
        onto: &Shape,
        dummies: &[Bytes],
        aims: &[Aim],
    )
        ensures { self.new ≡ record self.old { worst = noted line (long_causes shape.now onto.now dummies.now aims.now) self.old.worst } }
    {
        self.note_if(
            dummies.len() != usize::from(shape.dims),
            line,
            Cause::AlignBad,
        );
        self.note_if(has_twice(dummies), line, Cause::AlignBad);
        self.note_if(aims.len() != usize::from(onto.dims), line, Cause::AlignBad);
        self.note_if(is_used_twice(aims), line, Cause::AlignBad);
        self.note_if(!are_inside(shape, onto, aims), line, Cause::AlignBad);
    }

    /// The name of a DISTRIBUTE.
    fn note_subject(&mut self, line: Line, name: Use, aligned: bool)
        ensures { self.new ≡ record self.old { worst = noted line (subject_causes name aligned) self.old.worst } }
    {
        match name {
            Use::Decomp(_, _) => {}
            Use::Array(_, _) => self.note_if(aligned, line, Cause::DistributeBad),
            Use::Unknown => self.note(line, Cause::NotDeclared),
            Use::Scalar => self.note(line, Cause::DistributeBad),
            Use::Constant(_) => self.note(line, Cause::DistributeBad),
        }
    }

    /// The number of a DISTRIBUTE's attributes.
    fn note_count(&mut self, line: Line, name: Use, count: usize)
        ensures { self.new ≡ record self.old { worst = noted line (count_causes (dims_of_use name) count) self.old.worst } }
    {
        match name {
            Use::Decomp(_, dims) => self.note_if(
                count != usize::from(dims),
                line,
                Cause::DistributeBad,
            ),
            Use::Array(_, dims) => self.note_if(
                count != usize::from(dims),
                line,
                Cause::DistributeBad,
            ),
            Use::Unknown => {}
            Use::Scalar => {}
            Use::Constant(_) => {}
        }
    }

    /// The attributes of a DISTRIBUTE.
    #[tactic(auto, using(crate::proofs::Noted::noting))]
    fn note_spread(
        &mut self,
        line: Line,
        name: Use,
        aligned: bool,
        before: bool,
        attrs: &[Option<Dist>],
    )
        ensures { self.new ≡ record self.old { worst = noted line (spread_causes name aligned before attrs.now) self.old.worst } }
    {
        self.note_subject(line, name, aligned);
        self.note_count(line, name, attrs.len());
        self.note_if(!has_one(attrs), line, Cause::DistributeBad);
        self.note_if(before, line, Cause::DistributeBad);
    }

    /// One more decomposition. More decompositions than numbers are as good as want of memory.
    fn count_decomp(&mut self) -> Result<(), Memory>
        ensures { OnOk result (self.new ≡ record self.old { seen = see_decomp self.old.seen }) }
    {
        self.seen.decomps = self.seen.decomps.checked_add(1).ok_or(Memory)?;
        Ok(())
    }

    /// What an ALIGN without dummies says of two shapes.
    #[tactic(auto, using(crate::proofs::Noted::noting))]
    fn note_short(
        &mut self,
        alloc: Global,
        line: Line,
        shape: &Shape,
        onto: &Shape,
    ) -> Result<(), Memory>
        ensures { OnOk result (self.new ≡ record self.old { worst = noted line (short_causes shape.now onto.now) self.old.worst }) }
    {
        let aims = identity_aims(alloc, shape.dims)?;
        self.note_if(shape.dims != onto.dims, line, Cause::AlignBad);
        self.note_if(
            !are_inside(shape, onto, aims.as_slice()),
            line,
            Cause::AlignBad,
        );
        Ok(())
    }

    /// What an ALIGN of an array says of what the second name stands for.
    fn note_onto_place(
        &mut self,
        alloc: Global,
        line: Line,
        base: &Base,
        array: u16,
        onto: Use,
        short: bool,
        dummies: &[Bytes],
        aims: &[Aim],
    ) -> Result<(), Memory>
        ensures { OnOk result (self.new ≡ record self.old { worst = noted line (onto_place_causes array onto base.now short dummies.now aims.now) self.old.worst }) }
    {
        match onto {
            Use::Decomp(decomp, _) => {
                let shape = base.array_shape(array);
                let onto = base.decomp_shape(decomp);
                if short {
                    self.note_short(alloc, line, &shape, &onto)
                } else {
                    self.note_long(line, &shape, &onto, dummies, aims);
                    Ok(())
                }
            }
            Use::Scalar => Ok(()),
            Use::Constant(_) => Ok(()),
            Use::Array(_, _) => Ok(()),
            Use::Unknown => Ok(()),
        }
    }

    fn note_place(
        &mut self,
        alloc: Global,
        line: Line,
        base: &Base,
        name: Use,
        onto: Use,
        short: bool,
        dummies: &[Bytes],
        aims: &[Aim],
    ) -> Result<(), Memory>
        ensures { OnOk result (self.new ≡ record self.old { worst = noted line (place_causes name onto base.now short dummies.now aims.now) self.old.worst }) }
    {
        match name {
            Use::Array(array, _) => {
                self.note_onto_place(alloc, line, base, array, onto, short, dummies, aims)
            }
            Use::Scalar => Ok(()),
            Use::Constant(_) => Ok(()),
            Use::Decomp(_, _) => Ok(()),
            Use::Unknown => Ok(()),
        }
    }

    /// A DECOMPOSITION of one name.
    #[tactic(auto, using(crate::proofs::Noted::noting))]
    pub fn decomp_decl(
        &mut self,
        alloc: Global,
        base: &mut Base,
        line: Line,
        name: &[u8],
        dims: &[TDim],
    ) -> Result<(), Memory>
        ensures base { OnOk result (base.new ≡ declare (DecompDecl line name.now (map dim_tree dims.now)) self.old.seen base.old) }
        ensures seen { OnOk result (self.new.seen ≡ see_decl base.old (DecompDecl line name.now (map dim_tree dims.now)) self.old.seen) }
        ensures worst { OnOk result (self.new.worst ≡ met (decl_refusals (DecompDecl line name.now (map dim_tree dims.now)) self.old.seen base.old) self.old.worst) }
        ensures around { OnOk result (self.new.around ≡ self.old.around) }
    {
        let twice = base.table.find(name).is_some();
        self.note_if(twice, line, Cause::DeclaredTwice);
        self.note_if(!fit_decomp(dims), line, Cause::WrongShape);
        let ranges = self.dims(alloc, &base.table, line, dims)?;
        self.count_decomp()?;
        base.declare_decomp(alloc, line, name, ranges.as_slice())?;
        self.count_names(line);
        Ok(())
    }

    /// An ALIGN.
    #[tactic(auto, using(crate::proofs::Noted::noting))]
    pub fn align_decl(
        &mut self,
        alloc: Global,
        base: &mut Base,
        line: Line,
        name: &[u8],
        dummies: &[Bytes],
        onto: &[u8],
        targets: &TExprList,
    ) -> Result<(), Memory>
        ensures base { OnOk result (base.new ≡ declare (AlignDecl line name.now dummies.now onto.now (expr_trees targets.now)) self.old.seen base.old) }
        ensures seen { OnOk result (self.new.seen ≡ see_decl base.old (AlignDecl line name.now dummies.now onto.now (expr_trees targets.now)) self.old.seen) }
        ensures worst { OnOk result (self.new.worst ≡ met (decl_refusals (AlignDecl line name.now dummies.now onto.now (expr_trees targets.now)) self.old.seen base.old) self.old.worst) }
        ensures around { OnOk result (self.new.around ≡ self.old.around) }
    {
        let used = base.table.use_of(line, name);
        let target = base.table.use_of(line, onto);
        let short = is_short(dummies, targets);
        let before = base.is_aligned(used);
        self.note_aligned(line, used, before);
        self.note_onto(line, target);
        let mut aims = ListOf::new(alloc);
        self.aims(alloc, &base.table, line, dummies, targets, &mut aims)?;
        self.note_place(
            alloc,
            line,
            base,
            used,
            target,
            short,
            dummies,
            aims.as_slice(),
        )?;
        base.align(alloc, used, target, short, aims.as_slice())?;
        self.count_names(line);
        Ok(())
    }

    /// The decomposition of an array that a DISTRIBUTE makes one for.
    fn count_own(&mut self, used: Use, aligned: bool) -> Result<(), Memory>
        ensures { OnOk result (self.new ≡ record self.old { seen = see_own_decomp used aligned self.old.seen }) }
    {
        match used {
            Use::Array(_, _) => { if aligned { Ok(()) } else { self.count_decomp() } }
            Use::Scalar => Ok(()),
            Use::Constant(_) => Ok(()),
            Use::Decomp(_, _) => Ok(()),
            Use::Unknown => Ok(()),
        }
    }

    /// A DISTRIBUTE.
    #[tactic(auto, using(crate::proofs::Noted::noting))]
    pub fn distribute_decl(
        &mut self,
        alloc: Global,
        base: &mut Base,
        line: Line,
        name: &[u8],
        attrs: &[TAttr],
    ) -> Result<(), Memory>
        ensures base { OnOk result (base.new ≡ declare (DistributeDecl line name.now (map attr_tree attrs.now)) self.old.seen base.old) }
        ensures seen { OnOk result (self.new.seen ≡ see_decl base.old (DistributeDecl line name.now (map attr_tree attrs.now)) self.old.seen) }
        ensures worst { OnOk result (self.new.worst ≡ met (decl_refusals (DistributeDecl line name.now (map attr_tree attrs.now)) self.old.seen base.old) self.old.worst) }
        ensures around { OnOk result (self.new.around ≡ self.old.around) }
    {
        let used = base.table.use_of(line, name);
        let aligned = base.is_aligned(used);
        let before = base.is_spread(used);
        let dealt = self.attrs(alloc, &base.table, line, attrs)?;
        self.note_spread(line, used, aligned, before, dealt.as_slice());
        self.count_own(used, aligned)?;
        base.distribute(alloc, used, name, spread_from(dealt.as_slice()))?;
        self.count_names(line);
        Ok(())
    }
}
