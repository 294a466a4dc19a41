// Declarations.
ghost use Rattle.std.specs.Prelude.{◌≡◌, Some, [], ◌++◌, ◌∷◌, OnOk, IfOk, is_some, length, map, unwrap_or};
ghost use Rattle.fd_ast.specs.Tree.{ConstantDecl, IntegerDecl, decl_tree, dim_tree, expr_tree};
ghost use Rattle.fd_names.specs.First.{met, noted};
ghost use Rattle.fd_names.specs.Constants.{constant_of};
ghost use Rattle.fd_names.specs.Expressions.{causes, meant};
ghost use Rattle.fd_names.specs.Names.{find_name, with_entry};
ghost use Rattle.fd_names.specs.Declarations.{again_causes, array_limit, array_of, constant_causes, decl_refusals, declare, declare_all, decls_refusals, dim_causes, dim_meant, dims_causes, dims_meant, extent_from, is_bound, make, make_all, make_array, make_arrays, no_range, nothing_declared, range_between, range_causes, range_of, see_decl, see_decls, see_dim, see_dims, see_integer, shape_from, value_causes, with_constant, with_integer, with_new};
ghost use Rattle.fd_names.specs.declared.names.Kind.TheVariants as kind;

use crate::book::Book;
use crate::constants::constant;
use crate::names::{Entries, Entry, Kind, Lines, Table, is_implicit};
use crate::refusal::Cause;
use fd_ast::{TDecl, TDim, TExpr};
use fd_base::{Along, Bytes, Dist, Limit, Line, ListOf, Memory, Shape};
use fd_prog::{Array, ArrayList, DecompList};
use std::alloc::Global;

const MOST_SUBSCRIPTS: i64 = 262144;

const LARGEST_BOUND: i64 = 1 << 31;

const MOST_ARRAYS: usize = 128;

/// The subscripts of a dimension: the least, and how many there are.
#[derive(Clone, Copy)]
pub struct Subscripts {
    pub low: i64,
    pub extent: u32,
}

type SubscriptsList = ListOf<Subscripts>;

/// How many elements an array has, and the line that declares it.
#[derive(Clone, Copy)]
pub struct Size {
    pub line: Line,
    pub elements: u64,
}

/// Where an array is aligned: the number of its decomposition, and where its elements lie along each of that one's dimensions.
#[derive(Clone, Copy)]
pub struct Alignment {
    pub decomp: usize,
    pub along: [Along; 2],
}

/// The distributed dimension of a decomposition; `dist` is None where it has none.
#[derive(Clone, Copy)]
pub struct Spread {
    pub dim: u8,
    pub dist: Option<Dist>,
}

/// What is declared: the names, the arrays in order with their sizes and alignments, and the decompositions in order with
/// their distributed dimensions.
#[derive(Drop)]
pub struct Base {
    pub table: Table,
    pub arrays: ArrayList,
    pub sizes: ListOf<Size>,
    pub alignments: ListOf<Option<Alignment>>,
    pub decomps: DecompList,
    pub spreads: ListOf<Spread>,
}

/// Whether a number may be a bound.
fn is_bound(value: i64) -> bool
    ensures { result ≡ is_bound value }
{
    -LARGEST_BOUND <= value && value <= LARGEST_BOUND
}

/// An extent that a dimension may have.
fn extent_from(count: i64) -> Option<u32>
    ensures { result ≡ extent_from count }
{
    if 1 <= count && count <= MOST_SUBSCRIPTS {
        Some(count as u32)
    } else {
        None
    }
}

/// The subscripts between two bounds, where these make a dimension.
fn range_between(low: i64, high: i64) -> Option<Subscripts>
    ensures { result ≡ range_between low high }
{
    if is_bound(low) && is_bound(high) {
        let extent = extent_from(high - low + 1)?;
        return Some(Subscripts { low, extent });
    }
    None
}

/// The shape of an array.
pub fn shape_from(ranges: &[Subscripts]) -> Shape
    ensures { result ≡ shape_from ranges.now }
{
    match ranges {
        [] => Shape {
            dims: 1,
            low: [0, 0],
            extent: [0, 1],
        },
        [only] => Shape {
            dims: 1,
            low: [only.low, 0],
            extent: [only.extent, 1],
        },
        [first, second, ..] => Shape {
            dims: 2,
            low: [first.low, second.low],
            extent: [first.extent, second.extent],
        },
    }
}

/// The name that a declaration makes an array, a decomposition or a constant, with its line.
fn make(alloc: Global, made: &mut Lines, decl: &TDecl) -> Result<(), Memory>
    ensures { OnOk result (made.new ≡ make (decl_tree decl.now) made.old) }
{
    match decl {
        TDecl::Constant(line, name, _) => made.add(alloc, name.as_slice(), *line),
        TDecl::Integer(line, name, dims) => match dims.as_slice() {
            [] => Ok(()),
            [_, ..] => made.add(alloc, name.as_slice(), *line),
        },
        TDecl::Decomp(line, name, _) => made.add(alloc, name.as_slice(), *line),
        TDecl::Align(_, _, _, _, _) => Ok(()),
        TDecl::Distribute(_, _, _) => Ok(()),
    }
}

/// All names that declarations make arrays, decompositions and constants.
fn make_all(alloc: Global, decls: &[TDecl]) -> Result<Lines, Memory>
    ensures { IfOk result (λ made. made ≡ make_all (map decl_tree decls.now) []) }
{
    let mut made = Lines::new(alloc);
    for decl in decls {
        make(alloc, &mut made, decl)?;
    }
    Ok(made)
}

/// The name that a declaration makes an array, with its line.
fn make_array(alloc: Global, made: &mut Lines, decl: &TDecl) -> Result<(), Memory>
    ensures { OnOk result (made.new ≡ make_array (decl_tree decl.now) made.old) }
{
    match decl {
        TDecl::Constant(_, _, _) => Ok(()),
        TDecl::Integer(line, name, dims) => match dims.as_slice() {
            [] => Ok(()),
            [_, ..] => made.add(alloc, name.as_slice(), *line),
        },
        TDecl::Decomp(_, _, _) => Ok(()),
        TDecl::Align(_, _, _, _, _) => Ok(()),
        TDecl::Distribute(_, _, _) => Ok(()),
    }
}

/// All names that declarations make arrays.
fn make_arrays(alloc: Global, decls: &[TDecl]) -> Result<Lines, Memory>
    ensures { IfOk result (λ made. made ≡ make_arrays (map decl_tree decls.now) []) }
{
    let mut made = Lines::new(alloc);
    for decl in decls {
        make_array(alloc, &mut made, decl)?;
    }
    Ok(made)
}

impl Base {
    /// What is declared before any of these declarations.
    pub fn new(alloc: Global, decls: &[TDecl]) -> Result<Base, Memory>
        ensures { IfOk result (λ base. base ≡ nothing_declared (map decl_tree decls.now)) }
    {
        let made = make_all(alloc, decls)?;
        let made_arrays = make_arrays(alloc, decls)?;
        Ok(Base {
            table: Table {
                entries: Entries::new(alloc),
                made,
                made_arrays,
            },
            arrays: ArrayList::new(alloc),
            sizes: ListOf::new(alloc),
            alignments: ListOf::new(alloc),
            decomps: DecompList::new(alloc),
            spreads: ListOf::new(alloc),
        })
    }

    fn put(&mut self, alloc: Global, line: Line, name: &[u8], kind: Kind) -> Result<(), Memory>
        ensures { OnOk result (self.new ≡ record self.old { table = with_entry self.old.table name.now (record { line = line; kind = kind }) }) }
    {
        self.table.put(alloc, name, Entry { line, kind })?;
        Ok(())
    }

    /// A name of an INTEGER; one that is declared already stays what it is.
    pub fn put_new(
        &mut self,
        alloc: Global,
        line: Line,
        name: &[u8],
        kind: Kind,
    ) -> Result<(), Memory>
        ensures { OnOk result (self.new ≡ record self.old { table = with_new self.old.table name.now (record { line = line; kind = kind }) }) }
    {
        match self.table.find(name) {
            Some(_) => Ok(()),
            None => self.put(alloc, line, name, kind),
        }
    }

    /// A name of a PARAMETER; one that is a constant or an array already stays what it is.
    fn put_constant(
        &mut self,
        alloc: Global,
        line: Line,
        name: &[u8],
        value: i64,
    ) -> Result<(), Memory>
        ensures { OnOk result (self.new ≡ with_constant line name.now (Some value) self.old) }
    {
        match self.table.find(name) {
            None => self.put(alloc, line, name, Kind::Constant(value)),
            Some(entry) => match entry.kind {
                Kind::Scalar => self.put(alloc, line, name, Kind::Constant(value)),
                Kind::Constant(_) => Ok(()),
                Kind::Array(_, _) => Ok(()),
                Kind::Decomp(_, _) => Ok(()),
            },
        }
    }

    /// A name of an INTEGER with these dimensions.
    fn put_integer(
        &mut self,
        alloc: Global,
        line: Line,
        name: &[u8],
        ranges: &[Subscripts],
    ) -> Result<(), Memory>
        ensures { OnOk result (self.new ≡ with_integer line name.now ranges.now self.old) }
    {
        if ranges.is_empty() {
            self.put_new(alloc, line, name, Kind::Scalar)?;
            return Ok(());
        }
        let shape = shape_from(ranges);
        let number = self.arrays.len().min(65535) as u16;
        self.put_new(alloc, line, name, Kind::Array(number, shape.dims))?;
        let name = Bytes::from_slice(alloc, name)?;
        let along = Along::Fixed(0);
        self.arrays.push(Array {
            name,
            shape,
            decomp: None,
            along,
        })?;
        let elements = u64::from(shape.extent[0]) * u64::from(shape.extent[1]);
        self.sizes.push(Size { line, elements })?;
        self.alignments.push(None)?;
        Ok(())
    }
}

impl Book {
    /// The subscripts between two bounds, each None where it isn't constant.
    fn range(&mut self, line: Line, low: Option<i64>, high: Option<i64>) -> Subscripts
        ensures range { result ≡ unwrap_or (range_of low high) no_range }
        ensures book { self.new ≡ record self.old { worst = noted line (range_causes low high) self.old.worst } }
    {
        match (low, high) {
            (Some(low), Some(high)) => {
                let range = range_between(low, high);
                self.note_if(range.is_none(), line, Cause::BadBounds);
                range.unwrap_or(Subscripts { low: 0, extent: 0 })
            }
            (Some(_), None) => {
                self.note(line, Cause::NotConstant);
                Subscripts { low: 0, extent: 0 }
            }
            (None, _) => {
                self.note(line, Cause::NotConstant);
                Subscripts { low: 0, extent: 0 }
            }
        }
    }

    /// A dimension.
    #[tactic(auto, using(crate::proofs::Noted::noting))]
    fn dim(
        &mut self,
        alloc: Global,
        table: &Table,
        line: Line,
        dim: &TDim,
    ) -> Result<Subscripts, Memory>
        ensures seen { OnOk result (self.new.seen ≡ see_dim table.now line (dim_tree dim.now) self.old.seen) }
        ensures worst { OnOk result (self.new.worst ≡ noted line (dim_causes table.now line (dim_tree dim.now) self.old.seen) self.old.worst) }
        ensures around { OnOk result (self.new.around ≡ self.old.around) }
        ensures meant { IfOk result (λ r. r ≡ dim_meant table.now line (dim_tree dim.now) self.old.seen) }
    {
        let low = self.expr(alloc, table, line, &dim.low)?;
        let high = self.expr(alloc, table, line, &dim.high)?;
        let range = self.range(line, constant(&low), constant(&high));
        Ok(range)
    }

    pub fn dims(
        &mut self,
        alloc: Global,
        table: &Table,
        line: Line,
        dims: &[TDim],
    ) -> Result<SubscriptsList, Memory>
        ensures seen { OnOk result (self.new.seen ≡ see_dims table.now line (map dim_tree dims.now) self.old.seen) }
        ensures worst { OnOk result (self.new.worst ≡ noted line (dims_causes table.now line (map dim_tree dims.now) self.old.seen) self.old.worst) }
        ensures around { OnOk result (self.new.around ≡ self.old.around) }
        ensures meant { IfOk result (λ rs. rs ≡ dims_meant table.now line (map dim_tree dims.now) self.old.seen) }
    {
        let mut ranges = SubscriptsList::new(alloc);
        for dim in dims {
            let range = self.dim(alloc, table, line, dim)?;
            ranges.push(range)?;
        }
        Ok(ranges)
    }

    /// The name of a constant.
    fn note_constant(&mut self, line: Line, table: &Table, name: &[u8])
        ensures { self.new ≡ record self.old { worst = noted line (constant_causes (find_name table.now name.now) name.now) self.old.worst } }
    {
        match table.find(name) {
            None => self.note_if(!is_implicit(name), line, Cause::NotDeclared),
            Some(entry) => match entry.kind {
                Kind::Scalar => {}
                Kind::Constant(_) => self.note(line, Cause::DeclaredTwice),
                Kind::Array(_, _) => self.note(line, Cause::DeclaredTwice),
                Kind::Decomp(_, _) => self.note(line, Cause::DeclaredTwice),
            },
        }
    }

    /// The value of a constant.
    fn note_value(&mut self, line: Line, value: Option<i64>)
        ensures { self.new ≡ record self.old { worst = noted line (value_causes value) self.old.worst } }
    {
        match value {
            None => self.note(line, Cause::NotConstant),
            Some(_) => {}
        }
    }

    /// A definition of a PARAMETER.
    #[tactic(auto, using(crate::proofs::Noted::noting))]
    fn constant_decl(
        &mut self,
        alloc: Global,
        base: &mut Base,
        line: Line,
        name: &[u8],
        value: &TExpr,
    ) -> Result<(), Memory>
        ensures base { OnOk result (base.new ≡ declare (ConstantDecl line name.now (expr_tree value.now)) self.old.seen base.old) }
        ensures seen { OnOk result (self.new.seen ≡ see_decl base.old (ConstantDecl line name.now (expr_tree value.now)) self.old.seen) }
        ensures worst { OnOk result (self.new.worst ≡ met (decl_refusals (ConstantDecl line name.now (expr_tree value.now)) self.old.seen base.old) self.old.worst) }
        ensures around { OnOk result (self.new.around ≡ self.old.around) }
    {
        self.note_constant(line, &base.table, name);
        let made = self.expr(alloc, &base.table, line, value)?;
        let value = constant(&made);
        self.note_value(line, value);
        base.put_constant(alloc, line, name, value.unwrap_or(0))?;
        self.count_names(line);
        Ok(())
    }

    /// The scalar that an INTEGER without dimensions names.
    fn name_integer(
        &mut self,
        alloc: Global,
        name: &[u8],
        ranges: &[Subscripts],
    ) -> Result<(), Memory>
        ensures seen { OnOk result (self.new.seen ≡ see_integer name.now ranges.now self.old.seen) }
        ensures worst { OnOk result (self.new.worst ≡ self.old.worst) }
        ensures around { OnOk result (self.new.around ≡ self.old.around) }
    {
        match ranges {
            [] => {
                self.seen.scalars.number(alloc, name)?;
                Ok(())
            }
            [_, ..] => Ok(()),
        }
    }

    /// The number of arrays.
    fn count_arrays(&mut self, line: Line, base: &Base)
        ensures { self.new ≡ record self.old { worst = noted line (array_limit base.now) self.old.worst } }
    {
        let wrong = MOST_ARRAYS < base.arrays.len();
        self.note_if(wrong, line, Cause::TooMany(Limit::Arrays));
    }

    /// A name of an INTEGER.
    #[tactic(auto, using(crate::proofs::Noted::noting, crate::proofs::Lengths::length_dims))]
    fn integer_decl(
        &mut self,
        alloc: Global,
        base: &mut Base,
        line: Line,
        name: &[u8],
        dims: &[TDim],
    ) -> Result<(), Memory>
        ensures base { OnOk result (base.new ≡ declare (IntegerDecl line name.now (map dim_tree dims.now)) self.old.seen base.old) }
        ensures seen { OnOk result (self.new.seen ≡ see_decl base.old (IntegerDecl line name.now (map dim_tree dims.now)) self.old.seen) }
        ensures worst { OnOk result (self.new.worst ≡ met (decl_refusals (IntegerDecl line name.now (map dim_tree dims.now)) self.old.seen base.old) self.old.worst) }
        ensures around { OnOk result (self.new.around ≡ self.old.around) }
    {
        let twice = base.table.find(name).is_some();
        self.note_if(twice, line, Cause::DeclaredTwice);
        self.note_if(dims.len() > 2, line, Cause::WrongShape);
        let ranges = self.dims(alloc, &base.table, line, dims)?;
        self.name_integer(alloc, name, ranges.as_slice())?;
        base.put_integer(alloc, line, name, ranges.as_slice())?;
        self.count_arrays(line, base);
        self.count_names(line);
        Ok(())
    }

    /// A declaration.
    #[tactic(auto, using(crate::proofs::Noted::noting))]
    fn decl(&mut self, alloc: Global, base: &mut Base, decl: &TDecl) -> Result<(), Memory>
        ensures base { OnOk result (base.new ≡ declare (decl_tree decl.now) self.old.seen base.old) }
        ensures seen { OnOk result (self.new.seen ≡ see_decl base.old (decl_tree decl.now) self.old.seen) }
        ensures worst { OnOk result (self.new.worst ≡ met (decl_refusals (decl_tree decl.now) self.old.seen base.old) self.old.worst) }
        ensures around { OnOk result (self.new.around ≡ self.old.around) }
    {
        match decl {
            TDecl::Constant(line, name, value) => {
                self.constant_decl(alloc, base, *line, name.as_slice(), value)?;
                Ok(())
            }
            TDecl::Integer(line, name, dims) => {
                self.integer_decl(alloc, base, *line, name.as_slice(), dims.as_slice())?;
                Ok(())
            }
            TDecl::Decomp(line, name, dims) => {
                self.decomp_decl(alloc, base, *line, name.as_slice(), dims.as_slice())?;
                Ok(())
            }
            TDecl::Align(line, name, dummies, onto, targets) => {
                self.align_decl(
                    alloc,
                    base,
                    *line,
                    name.as_slice(),
                    dummies.as_slice(),
                    onto.as_slice(),
                    targets,
                )?;
                Ok(())
            }
            TDecl::Distribute(line, name, attrs) => {
                self.distribute_decl(alloc, base, *line, name.as_slice(), attrs.as_slice())?;
                Ok(())
            }
        }
    }

    /// Walks the declarations.
    pub fn decls(&mut self, alloc: Global, base: &mut Base, decls: &[TDecl]) -> Result<(), Memory>
        ensures base { OnOk result (base.new ≡ declare_all (map decl_tree decls.now) self.old.seen base.old) }
        ensures seen { OnOk result (self.new.seen ≡ see_decls (map decl_tree decls.now) self.old.seen base.old) }
        ensures worst { OnOk result (self.new.worst ≡ met (decls_refusals (map decl_tree decls.now) self.old.seen base.old) self.old.worst) }
        ensures around { OnOk result (self.new.around ≡ self.old.around) }
    {
        for decl in decls {
            self.decl(alloc, base, decl)?;
        }
        Ok(())
    }
}
