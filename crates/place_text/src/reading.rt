// Reading a listing, line by line.
ghost use Rattle.std.specs.Prelude.{◌≡◌, ◌≢◌, ℕ, ◌+◌, ◌-◌, ◌<◌, ◌≤◌, ◌^◌, ◌==◌, ◌&&◌, ◌||◌, ◌⊎◌, ◌↔◌, false, IsTrue, Some, IfErr, IfOk, OnOk, get_or, length, slice_get};
ghost use Rattle.fd_sets.specs.Tables.{no_items};
ghost use Rattle.gnt_solver.specs.Columns.{at, col, IsTable};
ghost use Rattle.gnt_solver.specs.declared.tables.Size.{Size};
ghost use Rattle.gnt_solver.specs.Placed.{AreTables, places_of};
ghost use Rattle.place_text.specs.declared.entry.Entry.{Entry as Told};
ghost use Rattle.place_text.specs.declared.refusal.ListingRefusal.TheVariants as refused;
ghost use Rattle.place_text.specs.Readings as readings;
ghost use Rattle.place_text.specs.Readings.{AreFew, IsCountLine, IsEntryAt, IsEntryLine, IsKnown, IsWrongOf, LastIs, IsToldIn, NamesLine, count_at, is_hoist, layout_of, marked, same_entry, size_in};

use crate::cutting::{behind, number_of};
use crate::entry::{Entry, Kind};
use crate::known::Known;
use crate::refusal::ListingRefusal;
use fd_base::{Bytes, ItemNo, Line, NodeNo};
use fd_sets::SetTable;
use gnt_solver::Placement;
use std::alloc::Global;

/// The refusal of the line at a place, counted from 0.
pub fn wrong(place: usize) -> ListingRefusal
    requires { place + 1 < 2 ^ 32 }
    ensures { result ≡ refused.Bad (record { 0 = place + 1 }) }
{
    ListingRefusal::Bad(Line(place as u32 + 1))
}

/// The first lines are these.
pub fn match_front(front: &[Bytes], lines: &[Bytes]) -> Result<(), ListingRefusal>
    requires { AreFew lines.now }
    ensures right { OnOk result ((i : ℕ) → i < length front.now → slice_get lines.now i ≡ slice_get front.now i) }
    ensures wrong { IfErr result (λ e. NamesLine e (IsWrongOf (λ i. slice_get lines.now i ≡ slice_get front.now i) 0 (length front.now) (length lines.now))) }
{
    for (i, wanted) in front.iter().enumerate() {
        if !stands_at(lines, i, wanted) {
            return Err(wrong(i));
        }
    }
    Ok(())
}

/// A line stands at a place.
fn stands_at(lines: &[Bytes], place: usize, wanted: &Bytes) -> bool
    ensures { IsTrue result ↔ (slice_get lines.now place ≡ Some wanted.now) }
{
    match lines.get(place) {
        Some(line) => line.as_slice() == wanted.as_slice(),
        None => false,
    }
}

/// The count that the line at a place has behind a word.
pub fn count_line(
    alloc: Global,
    word: &[u8],
    lines: &[Bytes],
    place: usize,
) -> Result<u32, ListingRefusal>
    requires few { AreFew lines.now }
    requires within { place ≤ length lines.now }
    ensures right { IfOk result (λ count. IsCountLine word.now lines.now place × (count ≡ count_at word.now lines.now place)) }
    ensures there { OnOk result (place < length lines.now) }
    ensures wrong { IfErr result (λ e. NamesLine e (IsWrongOf (IsCountLine word.now lines.now) place (place + 1) (length lines.now))) }
{
    let Some(line) = lines.get(place) else {
        return Err(wrong(place));
    };
    let Some(count) = number_of(behind(line.as_slice(), word.len())) else {
        return Err(wrong(place));
    };
    let mut text = Bytes::from_slice(alloc, word)?;
    text.append_number(u64::from(count))?;
    if text.as_slice() == line.as_slice() {
        Ok(count)
    } else {
        Err(wrong(place))
    }
}

/// An entry stands behind the last one.
fn stands_behind(last: Option<Entry>, entry: Entry) -> bool
    ensures { result ≡ readings.stands_behind last entry }
{
    match last {
        Some(before) => before.comes_before(entry),
        None => true,
    }
}

/// What the line at a place tells, behind what the last one told.
fn next_entry(
    alloc: Global,
    known: &Known,
    hoists: bool,
    lines: &[Bytes],
    place: usize,
    last: Option<Entry>,
) -> Result<Entry, ListingRefusal>
    requires few { AreFew lines.now }
    requires known { IsKnown known.now }
    requires within { place ≤ length lines.now }
    ensures right { IfOk result (λ e. (first : ℕ) → LastIs (layout_of known.now) hoists lines.now first place last → IsEntryAt (layout_of known.now) hoists lines.now first place e) }
    ensures wrong { IfErr result (λ e. NamesLine e (λ line. (line ≡ place + 1) × ((first : ℕ) → LastIs (layout_of known.now) hoists lines.now first place last → IsEntryLine (layout_of known.now) hoists lines.now first place → ⊥))) }
{
    let Some(line) = lines.get(place) else {
        return Err(wrong(place));
    };
    let Some(entry) = known.entry_at(alloc, hoists, line.as_slice())? else {
        return Err(wrong(place));
    };
    if stands_behind(last, entry) {
        Ok(entry)
    } else {
        Err(wrong(place))
    }
}

/// Adds an item to the set of a node.
pub fn add(table: &mut SetTable, n: u16, item: u16)
    requires inside { n < length table.old }
    requires sized { item ≤ (get_or table.old n no_items).size }
    ensures table { (size : Size) → IsTable size table.old → IsTable size table.new }
    ensures marks { (m x : ℕ) → at (col table.new x) m ≡ (((m == n) && (x == item)) || at (col table.old x) m) }
{
    table.set_mut(NodeNo(n)).insert(ItemNo(item));
}

/// Marks what an entry tells.
fn mark(known: &Known, p: &mut Placement, e: Entry)
    requires tables { AreTables (size_in known.now) p.old }
    requires inside { e.node < length known.now.lines.items }
    requires sized { e.item ≤ known.now.items }
    ensures tables { AreTables (size_in known.now) p.new }
    ensures marks { (o : Told) → marked (places_of p.new) o ≡ (same_entry o e || marked (places_of p.old) o) }
{
    let _ = known;
    match e.kind {
        Kind::SendIn => add(&mut p.send_in, e.node, e.item),
        Kind::RecvIn => add(&mut p.recv_in, e.node, e.item),
        Kind::SendOut => add(&mut p.send_out, e.node, e.item),
        Kind::RecvOut => add(&mut p.recv_out, e.node, e.item),
        Kind::Hoist => add(&mut p.hoists, e.node, e.item),
    }
}

/// Reads so many entries from a place on, and marks what they tell.
pub fn read_entries(
    alloc: Global,
    known: &Known,
    hoists: bool,
    lines: &[Bytes],
    first: usize,
    count: u32,
    p: &mut Placement,
) -> Result<(), ListingRefusal>
    requires few { AreFew lines.now }
    requires known { IsKnown known.now }
    requires within { first ≤ length lines.now }
    requires tables { AreTables (size_in known.now) p.old }
    ensures tables { OnOk result (AreTables (size_in known.now) p.new) }
    ensures right { OnOk result ((i : ℕ) → first ≤ i → i < first + count → IsEntryLine (layout_of known.now) hoists lines.now first i) }
    ensures there { OnOk result (first + count ≤ length lines.now) }
    ensures marks { OnOk result ((o : Told) → IsTrue (marked (places_of p.new) o) ↔ (IsTrue (marked (places_of p.old) o) ⊎ ((is_hoist o.kind ≡ hoists) × IsToldIn (layout_of known.now) lines.now first (first + count) o))) }
    ensures wrong { IfErr result (λ e. NamesLine e (IsWrongOf (IsEntryLine (layout_of known.now) hoists lines.now first) first (first + count) (length lines.now))) }
{
    let mut last = None;
    for j in 0..count {
        let place = first + j as usize;
        let entry = next_entry(alloc, known, hoists, lines, place, last)?;
        mark(known, p, entry);
        last = Some(entry);
    }
    Ok(())
}
