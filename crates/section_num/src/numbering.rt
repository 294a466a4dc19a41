// The items of a program by their numbers, and what its nodes take and steal.
ghost use Rattle.std.specs.Prelude.{◌≡◌, ◌≢◌, ◌≤◌, length, map, slice_get, All, IfErr, IfOk};
ghost use Rattle.fd_prog.specs.Checked.{depth_among, size_among};
ghost use Rattle.fd_prog.specs.Items.{linear_item_of};
ghost use Rattle.fd_prog.specs.Mapped.{IsMapped};
ghost use Rattle.fd_prog.specs.Nodes.{node_count};
ghost use Rattle.fd_prog.specs.Programs.{program_of};
ghost use Rattle.fd_prog.specs.SoundForms.{IsSoundItem};
ghost use Rattle.fd_prog.specs.Uses.{items_at_sites, items_of, steals, takes, uses_by_node};
ghost use Rattle.fd_prog.specs.WellFormed.{IsSoundProgram, names_of};
ghost use Rattle.section_num.specs.Numbers.{AreAlike, IsPast, number_of_use};
ghost use Rattle.section_num.specs.Tables.{IsTable};
ghost use Rattle.section_num.specs.Views.{numbers_of};

use crate::firsts::Use;
use crate::stealing::stolen_rows;
use crate::tables::table_of;
use crate::walking::all_uses;
use fd_base::{ItemNo, Limit, Line, ListOf, Memory};
use fd_prog::{ItemList, Program, SiteList};
use fd_sets::SetTable;
use std::alloc::Global;
use thiserror::Error;

/// Why the items of a program have no numbers.
#[derive(Clone, Copy, Debug, PartialEq, Eq, Error)]
pub enum NumberRefusal {
    /// More than a limit allows, with the line of the first past it.
    #[error("a program has too many items")]
    TooMany(Line, Limit),
    #[error("no memory")]
    Memory,
}

impl From<Memory> for NumberRefusal {
    ghost use Rattle.std.specs.Prelude.{◌≡◌};
    ghost use Rattle.section_num.specs.declared.numbering.NumberRefusal.TheVariants as refused;

    ghost from_gives = { λ _ e. e ≡ refused.Memory };

    fn from(_e: Memory) -> NumberRefusal {
        NumberRefusal::Memory
    }
}

/// The items of a program, in order of their numbers, which begin with 1; the item of each reference; and the items that each node takes and
/// those that it steals, with one set for each node.
#[derive(Drop)]
pub struct Items {
    pub items: ItemList,
    pub of_site: SiteList,
    pub take: SetTable,
    pub steal: SetTable,
}

/// The items of a program, the item of each reference, and those that each node takes, in order of the nodes.
#[derive(Drop)]
struct ItemNumbers {
    items: ItemList,
    of_site: SiteList,
    taken: ListOf<ListOf<ItemNo>>,
}

/// The items of uses.
fn items_in(alloc: Global, uses: ListOf<Use>) -> Result<ItemList, Memory>
    ensures { IfOk result (λ items. map linear_item_of items ≡ map (λ (u : Use). linear_item_of u.item) uses) }
{
    let mut items = ItemList::new(alloc);
    for one in uses.into_vec() {
        items.push(one.item)?;
    }
    Ok(items)
}

/// The items of a program and what each node takes of them, by numbers that begin with 1, or the line of the first item past the limit.
fn numbered(alloc: Global, program: &Program) -> Result<ItemNumbers, NumberRefusal>
    requires program { IsMapped (program_of program.now) }
    requires nesting { depth_among (program_of program.now).body ≤ 32 }
    ensures few { IfOk result (λ n. length n.items ≤ 512) }
    ensures items { IfOk result (λ n. map linear_item_of n.items ≡ items_of (program_of program.now)) }
    ensures taken { IfOk result (λ n. map numbers_of n.taken ≡ map (map (number_of_use (program_of program.now))) (uses_by_node (program_of program.now))) }
    ensures sites { IfOk result (λ n. numbers_of n.of_site ≡ items_at_sites (program_of program.now)) }
    ensures refused { IfErr result (λ why. why ≢ NumberRefusal.Memory → IsPast (program_of program.now) why) }
{
    let book = all_uses(alloc, program)?;
    match book.over {
        Some(line) => Err(NumberRefusal::TooMany(line, Limit::Items)),
        None => {
            let items = items_in(alloc, book.firsts.into_uses())?;
            Ok(ItemNumbers {
                items,
                of_site: book.sites,
                taken: book.rows,
            })
        }
    }
}

/// The items of a program, and what its nodes take and steal. Where there are more than 512 items the 513th is too many, which the line of
/// its first reference tells.
pub fn number(alloc: Global, program: &Program) -> Result<Items, NumberRefusal>
    requires program { IsMapped (program_of program.now) }
    requires nesting { depth_among (program_of program.now).body ≤ 32 }
    requires statements { size_among (program_of program.now).body ≤ 4096 }
    ensures few { IfOk result (λ n. length n.items ≤ 512) }
    ensures items { IfOk result (λ n. map linear_item_of n.items ≡ items_of (program_of program.now)) }
    ensures sound { IfOk result (λ n. IsSoundProgram (program_of program.now) → All (IsSoundItem (names_of (program_of program.now))) (map linear_item_of n.items)) }
    ensures sites { IfOk result (λ n. numbers_of n.of_site ≡ items_at_sites (program_of program.now)) }
    ensures alike { IfOk result (λ n. AreAlike (program_of program.now) (numbers_of n.of_site)) }
    ensures take { IfOk result (λ n. IsTable (node_count (program_of program.now)) (length n.items) (takes (program_of program.now)) n.take) }
    ensures steal { IfOk result (λ n. IsTable (node_count (program_of program.now)) (length n.items) (steals (program_of program.now)) n.steal) }
    ensures refused { IfErr result (λ why. why ≢ NumberRefusal.Memory → IsPast (program_of program.now) why) }
{
    let numbers = numbered(alloc, program)?;
    let stolen = stolen_rows(alloc, program, numbers.items.as_slice())?;
    let count = numbers.items.len() as u16;
    let take = table_of(alloc, numbers.taken.as_slice(), count)?;
    let steal = table_of(alloc, stolen.as_slice(), count)?;
    Ok(Items {
        items: numbers.items,
        of_site: numbers.of_site,
        take,
        steal,
    })
}
