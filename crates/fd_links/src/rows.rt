// The calls that take memory, at a worked row.
ghost use Rattle.std.specs.Prelude.{◌≡◌, [], ◌∷◌, IfOk};

use crate::Links;
use fd_base::Memory;
use std::alloc::Global;
use std::process::Abort;
use std::test::Fail;

fn three_slots(alloc: Global) -> Result<Links, Memory>
    ensures { IfOk result (λ links. links ≡ record { chains = [] ∷ [] ∷ []; free = 0 ∷ 1 ∷ 2 ∷ [] }) }
{
    let mut links = Links::new(alloc, 2)?;
    links.add_node()?;
    links.add_node()?;
    links.add_node()?;
    Ok(links)
}

fn same(rt: &impl Abort, found: Option<u32>, wanted: Option<u32>) {
    assert_eq!(rt; found, wanted);
}

fn compare(rt: &impl Abort, alloc: Global) -> Result<(), Memory> {
    let mut links = three_slots(alloc)?;
    links.push_back(0, 0);
    links.push_back(0, 2);
    links.push_back(1, 1);
    same(rt, links.next(0), Some(2));
    same(rt, links.free(), None);
    links.unlink(0);
    same(rt, links.first(0), Some(2));
    same(rt, links.next(2), None);
    same(rt, links.first(1), Some(1));
    same(rt, links.free(), Some(0));
    Ok(())
}

#[test]
fn slots_move_between_chains(rt: HostRuntime) -> Result<(), Fail> {
    compare(&rt, rt.alloc())?;
    Ok(())
}
