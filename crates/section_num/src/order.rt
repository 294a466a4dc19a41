// The order of items, which gives an item its place in an index.
ghost use Rattle.std.specs.Prelude.{◌≡◌, [], length, map};
ghost use Rattle.fd_prog.specs.Forms.{linear_form_of, linear_forms_of};
ghost use Rattle.fd_prog.specs.Homes.{executor_of};
ghost use Rattle.fd_prog.specs.Items.{executor_order, executor_rank, item_order, linear_item_of, linear_loop_of, loop_order, loops_order};

use fd_prog::{Home, Item, Widened, compare_forms, compare_lists};
use std::cmp::Ordering;

fn compare_loops(a: &Widened, b: &Widened) -> Ordering
    ensures { result ≡ loop_order (linear_loop_of a.now) (linear_loop_of b.now) }
{
    compare_forms(&a.first, &b.first).then(compare_forms(&a.last, &b.last).then(compare_forms(
        &a.step, &b.step,
    )))
}

fn compare_homes(a: &Home, b: &Home) -> Ordering
    ensures { result ≡ executor_order (executor_of a.now) (executor_of b.now) }
{
    match (a, b) {
        (Home::At(d, f), Home::At(e, g)) => d.cmp(e).then(compare_forms(f, g)),
        _ => rank_of_home(a).cmp(&rank_of_home(b)),
    }
}

fn rank_of_home(home: &Home) -> u8
    ensures { result ≡ executor_rank (executor_of home.now) }
{
    match home {
        Home::All => 0,
        Home::Root => 1,
        Home::At(_, _) => 2,
    }
}

/// Loops by the first that differ, where an end comes first.
fn compare_all_loops(a: &[Widened], b: &[Widened]) -> Ordering
    ensures { result ≡ loops_order (map linear_loop_of a.now) (map linear_loop_of b.now) }
{
    match a {
        [] => order_of_none(b),
        [l, ls @ ..] => match b {
            [] => Ordering::Greater,
            [m, ms @ ..] => compare_loops(l, m).then(compare_all_loops(ls, ms)),
        },
    }
}

/// No loops against these.
fn order_of_none(loops: &[Widened]) -> Ordering
    ensures { result ≡ loops_order [] (map linear_loop_of loops.now) }
{
    if loops.is_empty() {
        Ordering::Equal
    } else {
        Ordering::Less
    }
}

/// Items by their arrays, then by their subscripts, their loops and their homes. Items of which neither comes first are equal.
pub fn compare_items(a: &Item, b: &Item) -> Ordering
    ensures { result ≡ item_order (linear_item_of a.now) (linear_item_of b.now) }
{
    let loops = compare_all_loops(a.loops.as_slice(), b.loops.as_slice());
    let behind = loops.then(compare_homes(&a.home, &b.home));
    a.array
        .cmp(&b.array)
        .then(compare_lists(&a.subs, &b.subs).then(behind))
}
