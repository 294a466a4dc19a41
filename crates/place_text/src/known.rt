// What a line of a listing can tell of.
ghost use Rattle.std.specs.Prelude.{◌≡◌, ◌<◌, None, IfOk, IfSome, length};
ghost use Rattle.place_text.specs.declared.entry.Entry.{Entry as Told};
ghost use Rattle.place_text.specs.Readings as readings;
ghost use Rattle.place_text.specs.Readings.{IsEntry, IsKnown, layout_of};

use crate::cutting::parts;
use crate::entry::{Entry, Kind, entry_of};
use fd_base::{Bytes, ItemNo, Line, Memory, NodeNo};
use fd_sets::SetTable;
use std::alloc::Global;

/// The nodes of a program by their lines, how many items it has, and the items that the body of each loop takes.
#[derive(Drop)]
pub struct Known {
    pub lines: Vec<Line>,
    pub items: u16,
    pub taken: SetTable,
}

impl Known {
    /// There is such a node and such an item; what is hoisted is taken in the body of the loop.
    fn is_real(&self, e: Entry) -> bool
        requires { IsKnown self.now }
        ensures { result ≡ readings.is_real (layout_of self.now) e }
    {
        usize::from(e.node) < self.lines.len()
            && 1 <= e.item
            && e.item <= self.items
            && (e.kind != Kind::Hoist || self.is_taken(e.node, e.item))
    }

    /// The body of a loop takes an item.
    fn is_taken(&self, n: u16, item: u16) -> bool
        requires known { IsKnown self.now }
        requires inside { n < length self.now.lines.items }
        ensures { result ≡ (layout_of self.now).taken n item }
    {
        self.taken.set(NodeNo(n)).has(ItemNo(item))
    }

    /// The line that tells an entry.
    fn entry_line(&self, alloc: Global, e: Entry) -> Result<Bytes, Memory>
        requires { e.node < length self.now.lines.items }
        ensures { IfOk result (λ text. text ≡ readings.entry_line (layout_of self.now) e) }
    {
        let line = self.lines[usize::from(e.node)];
        let mut text = Bytes::from_slice(alloc, e.kind.word_before())?;
        text.append(b"node ")?;
        text.append_number(u64::from(e.node))?;
        text.append(b" line ")?;
        text.append_number(u64::from(line.0))?;
        text.append(e.kind.words_between())?;
        text.append_number(u64::from(e.item))?;
        Ok(text)
    }

    /// What a line tells, where it is a line of operations, or of hoists.
    pub fn entry_at(
        &self,
        alloc: Global,
        hoists: bool,
        line: &[u8],
    ) -> Result<Option<Entry>, Memory>
        requires { IsKnown self.now }
        ensures some { IfOk result (λ found. IfSome found (λ e. IsEntry (layout_of self.now) hoists e × (line.now ≡ readings.entry_line (layout_of self.now) e))) }
        ensures none { IfOk result (λ found. found ≡ None → (e : Told) → IsEntry (layout_of self.now) hoists e → line.now ≡ readings.entry_line (layout_of self.now) e → ⊥) }
    {
        let words = parts(alloc, line, b' ')?;
        let Some(entry) = entry_of(words.as_slice(), hoists) else {
            return Ok(None);
        };
        if !self.is_real(entry) {
            return Ok(None);
        }
        let text = self.entry_line(alloc, entry)?;
        if text.as_slice() == line {
            Ok(Some(entry))
        } else {
            Ok(None)
        }
    }
}
