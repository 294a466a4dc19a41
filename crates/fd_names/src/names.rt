// What names stand for.
ghost use Rattle.std.specs.Prelude.{◌≡◌, ℕ, Some, None, OnOk, IfOk, length, List, [], ◌++◌, ◌∷◌, map};
ghost use Rattle.std.specs.List.{list_any};
ghost use Rattle.std.specs.Map.{lookup};
ghost use Rattle.std.specs.Str.{bytes_eq};
ghost use Rattle.indexmap.specs.IndexMap.{insert_entry};
ghost use Rattle.fd_names.specs.Names.{callee_of, capped, find_name, func_of, has_name, is_implicit, is_made, number_in, use_of, with_entry, with_made, with_name};

use fd_base::{Bytes, Line, Memory};
use fd_prog::{Func, NameList};
use indexmap::{IndexMap, IndexSet};
use std::alloc::Global;
use std::marker::Model;

/// What a name was declared as.
#[derive(Clone, Copy)]
pub enum Kind {
    Scalar,
    Constant(i64),
    /// Its number among the arrays, and how many dimensions it has.
    Array(u16, u8),
    /// Its number among the decompositions, and how many dimensions it has.
    Decomp(usize, u8),
}

/// What a name was declared as, and on which line.
#[derive(Clone, Copy)]
pub struct Entry {
    pub line: Line,
    pub kind: Kind,
}

/// What a name alone stands for.
#[derive(Clone, Copy)]
pub enum Use {
    Scalar,
    Constant(i64),
    Array(u16, u8),
    Decomp(usize, u8),
    Unknown,
}

/// What a name with parentheses stands for.
#[derive(Clone, Copy)]
pub enum Callee {
    Array(u16, u8),
    Function(Func),
    Unknown,
}

/// The names of scalars in the order in which they are first named.
#[derive(Drop)]
pub struct Scalars {
    names: IndexSet<Vec<u8>>,
}

impl Model for Scalars {
    ghost use Rattle.std.specs.Prelude.{List, ℕ, map};

    ghost Value = { List (List ℕ) };

    ghost view = { λ s. map (λ k. k.items) s.names.keys };
}

impl Scalars {
    pub fn new(alloc: Global) -> Scalars
        ensures { result ≡ [] }
    {
        Scalars {
            names: IndexSet::new(alloc),
        }
    }

    pub fn len(&self) -> usize
        ensures { result ≡ length self.now }
    {
        self.names.len()
    }

    /// The number of a scalar, which is named here if it wasn't before.
    pub fn number(&mut self, alloc: Global, name: &[u8]) -> Result<u16, Memory>
        ensures names { OnOk result (self.new ≡ with_name self.old name.now) }
        ensures number { IfOk result (λ k. k ≡ capped (number_in self.old name.now)) }
    {
        let key = Vec::from_slice(alloc, name)?;
        let (index, _) = self.names.insert_full(key)?;
        Ok(index.min(65535) as u16)
    }

    /// The names as a list.
    pub fn list(&self, alloc: Global) -> Result<NameList, Memory>
        ensures { IfOk result (λ made. made ≡ self.now) }
    {
        copied(alloc, self.names.as_slice())
    }
}

/// Copies names.
fn copied(alloc: Global, names: &[Vec<u8>]) -> Result<NameList, Memory>
    ensures { IfOk result (λ made. made ≡ map (λ k. k.items) names.now) }
{
    let mut made = NameList::new(alloc);
    for name in names {
        let copy = Bytes::from_slice(alloc, name.as_slice())?;
        made.push(copy)?;
    }
    Ok(made)
}

/// The variables of the loops around a place, the outermost first.
#[derive(Drop)]
pub struct Around {
    names: Vec<Bytes>,
}

impl Model for Around {
    ghost use Rattle.std.specs.Prelude.{List, ℕ};

    ghost Value = { List (List ℕ) };

    ghost view = { λ s. s.names.items };
}

impl Around {
    pub fn new(alloc: Global) -> Around
        ensures { result ≡ [] }
    {
        Around {
            names: Vec::new(alloc),
        }
    }

    #[tactic(auto, unfolding(crate::specs::Names::has_name))]
    pub fn has(&self, name: &[u8]) -> bool
        ensures { result ≡ has_name self.now name.now }
    {
        is_among(&self.names, name)
    }

    pub fn enter(&mut self, alloc: Global, name: &[u8]) -> Result<(), Memory>
        ensures { OnOk result (self.new ≡ self.old ++ name.now ∷ []) }
    {
        let name = Bytes::from_slice(alloc, name)?;
        self.names.push(name)?;
        Ok(())
    }

    pub fn leave(&mut self)
        ensures { (around : List (List ℕ)) (name : List ℕ) → self.old ≡ around ++ name ∷ [] → self.new ≡ around }
    {
        self.names.pop();
    }
}

pub fn is_among(names: &[Bytes], name: &[u8]) -> bool
    ensures { result ≡ list_any (bytes_eq name.now) names.now }
{
    names.iter().any(|other| name == other.as_slice())
}

/// Names, each once with all its lines.
#[derive(Drop)]
pub struct Lines {
    lines: IndexMap<Vec<u8>, IndexSet<u32>>,
}

impl Model for Lines {
    ghost use Rattle.std.specs.Prelude.{List, ℕ, map};

    ghost Value = { List (List ℕ × List ℕ) };

    ghost view = { λ t. map (λ e. (e.0.items, e.1.keys)) t.lines.entries };
}

impl Lines {
    pub fn new(alloc: Global) -> Lines
        ensures { result ≡ [] }
    {
        Lines {
            lines: IndexMap::new(alloc),
        }
    }

    /// Whether a name has this line.
    pub fn has(&self, line: Line, name: &[u8]) -> bool
        ensures { result ≡ is_made self.now line name.now }
    {
        match self.lines.get(name) {
            Some(lines) => lines.contains(&line.0),
            None => false,
        }
    }

    /// A name that has no lines, with this one.
    fn put(&mut self, alloc: Global, name: &[u8], line: Line) -> Result<(), Memory>
        ensures { OnOk result (self.new ≡ insert_entry bytes_eq self.old name.now (line.0 ∷ [])) }
    {
        let mut lines = IndexSet::new(alloc);
        lines.insert(line.0)?;
        let key = Vec::from_slice(alloc, name)?;
        self.lines.insert(key, lines)?;
        Ok(())
    }

    /// A name with this line.
    pub fn add(&mut self, alloc: Global, name: &[u8], line: Line) -> Result<(), Memory>
        ensures { OnOk result (self.new ≡ with_made self.old name.now line) }
    {
        match self.lines.get_index_of(name) {
            Some(index) => {
                self.lines[index].insert(line.0)?;
                Ok(())
            }
            None => self.put(alloc, name, line),
        }
    }
}

/// The names that are declared so far.
#[derive(Drop)]
pub struct Entries {
    entries: IndexMap<Vec<u8>, Entry>,
}

impl Model for Entries {
    ghost use Rattle.std.specs.Prelude.{List, ℕ, map};
    ghost use Rattle.fd_names.specs.declared.names.Entry.{Entry};

    ghost Value = { List (List ℕ × Entry) };

    ghost view = { λ t. map (λ e. (e.0.items, e.1)) t.entries.entries };
}

impl Entries {
    pub fn new(alloc: Global) -> Entries
        ensures { result ≡ [] }
    {
        Entries {
            entries: IndexMap::new(alloc),
        }
    }

    fn find(&self, name: &[u8]) -> Option<Entry>
        ensures { result ≡ lookup (bytes_eq name.now) self.now }
    {
        self.entries.get(name).copied()
    }

    fn put(&mut self, alloc: Global, name: &[u8], entry: Entry) -> Result<(), Memory>
        ensures { OnOk result (self.new ≡ insert_entry bytes_eq self.old name.now entry) }
    {
        let key = Vec::from_slice(alloc, name)?;
        self.entries.insert(key, entry)?;
        Ok(())
    }
}

/// The declared names, the lines that make names arrays, decompositions and constants, and those that make them arrays.
#[derive(Drop)]
pub struct Table {
    pub entries: Entries,
    pub made: Lines,
    pub made_arrays: Lines,
}

impl Model for Table {
    ghost use Rattle.fd_names.specs.Names.{Declared};

    ghost Value = { Declared };

    ghost view = { λ t. record { entries = t.entries; made = t.made; made_arrays = t.made_arrays } };
}

impl Table {
    #[tactic(auto, unfolding(crate::specs::Names::find_name))]
    pub fn find(&self, name: &[u8]) -> Option<Entry>
        ensures { result ≡ find_name self.now name.now }
    {
        self.entries.find(name)
    }

    #[tactic(auto, unfolding(crate::specs::Names::with_entry))]
    pub fn put(&mut self, alloc: Global, name: &[u8], entry: Entry) -> Result<(), Memory>
        ensures { OnOk result (self.new ≡ with_entry self.old name.now entry) }
    {
        self.entries.put(alloc, name, entry)
    }

    /// What a name alone stands for on a line.
    #[tactic(auto, unfolding(crate::specs::Names::use_of))]
    pub fn use_of(&self, line: Line, name: &[u8]) -> Use
        ensures { result ≡ use_of self.now line name.now }
    {
        if self.made.has(line, name) {
            return Use::Unknown;
        }
        match self.find(name) {
            Some(entry) if entry.line.0 < line.0 => match entry.kind {
                Kind::Scalar => Use::Scalar,
                Kind::Constant(value) => Use::Constant(value),
                Kind::Array(number, dims) => Use::Array(number, dims),
                Kind::Decomp(number, dims) => Use::Decomp(number, dims),
            },
            _ => {
                if is_implicit(name) {
                    Use::Scalar
                } else {
                    Use::Unknown
                }
            }
        }
    }

    /// What a name with parentheses stands for on a line.
    #[tactic(auto, unfolding(crate::specs::Names::callee_of))]
    pub fn callee_of(&self, line: Line, name: &[u8]) -> Callee
        ensures { result ≡ callee_of self.now line name.now }
    {
        if self.made_arrays.has(line, name) {
            return Callee::Unknown;
        }
        match self.use_of(line, name) {
            Use::Array(number, dims) => Callee::Array(number, dims),
            _ => match func_of(name) {
                Some(func) => Callee::Function(func),
                None => Callee::Unknown,
            },
        }
    }
}

/// Whether a name is that of a scalar where nothing declares it.
#[tactic(auto, unfolding(crate::specs::Names::is_implicit))]
pub fn is_implicit(name: &[u8]) -> bool
    ensures { result ≡ is_implicit name.now }
{
    match name.first() {
        Some(letter) => b'I' <= *letter && *letter <= b'N',
        None => false,
    }
}

/// The function of a name.
#[tactic(auto, unfolding(crate::specs::Names::func_of))]
pub fn func_of(name: &[u8]) -> Option<Func>
    ensures { result ≡ func_of name.now }
{
    if name == b"MOD".as_slice() {
        return Some(Func::Mod);
    }
    if name == b"ABS".as_slice() {
        return Some(Func::Abs);
    }
    if name == b"MIN".as_slice() {
        return Some(Func::Min);
    }
    if name == b"MAX".as_slice() {
        return Some(Func::Max);
    }
    None
}
