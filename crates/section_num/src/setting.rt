// What the body of a loop sets.
ghost use Rattle.std.specs.Prelude.{◌≡◌, IfOk};
ghost use Rattle.std.specs.List.{list_any};
ghost use Rattle.fd_prog.specs.Items.{is_same_name};
ghost use Rattle.section_num.specs.KeptNames.{IsIndex};
ghost use Rattle.section_num.specs.KeptNames.{name_of};

use crate::names::{Name, Names};
use fd_base::Memory;
use std::alloc::Global;
use std::collections::BTreeSet;
use std::marker::Model;

/// Names in any order and as often as they come, and an index of them. Contracts see them as their list.
#[derive(Drop)]
pub struct SetNames {
    names: Names,
    index: BTreeSet<Name>,
}

impl Model for SetNames {
    ghost use Rattle.std.specs.Prelude.{List};
    ghost use Rattle.section_num.specs.declared.names.Name.{Name};
    ghost use Rattle.section_num.specs.KeptNames.{IsIndex};

    ghost Value = { List Name };

    ghost view = { λ s. s.names };

    ghost invariant = { λ s. IsIndex s.index.keys s.names };
}

impl SetNames {
    /// The index of these names.
    pub fn from_names(alloc: Global, names: Names) -> Result<SetNames, Memory>
        ensures { IfOk result (λ s. s ≡ names) }
    {
        let index = index_of(alloc, names.as_slice())?;
        Ok(SetNames { names, index })
    }

    /// A name is among these.
    pub fn has(&self, name: Name) -> bool
        ensures { result ≡ list_any (λ n. is_same_name (name_of name) (name_of n)) self.now }
    {
        self.index.contains(&name)
    }
}

/// An index of names.
fn index_of(alloc: Global, names: &[Name]) -> Result<BTreeSet<Name>, Memory>
    ensures { IfOk result (λ index. IsIndex index.keys names.now) }
{
    let mut index = BTreeSet::new(alloc);
    for name in names {
        index.insert(*name)?;
    }
    Ok(index)
}
