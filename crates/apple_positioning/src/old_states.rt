//! State tables of the older table `kern`, whose states are places of rows, and whose classes have
//! 8 bits.
ghost use Rattle.std.specs.Prelude.{◌≡◌, ◌<◌, ◌≤◌, ◌^◌};
ghost use Rattle.apple_positioning.specs.OldStates as old_states;

use apple_tables::Entry;
use apple_tables::states::{DELETED, DELETED_GLYPH, OUT_OF_BOUNDS};
use shape_font::bytes::{records, u8_at, u16_at};

/// A state table in another table.
#[derive(Clone, Copy, Debug)]
pub struct OldStates<'a> {
    /// The table that it stands in.
    pub table: &'a [u8],
    /// Where its header begins there.
    pub start: usize,
}

/// Of so many bytes those of whole rows.
fn in_rows(size: usize, bytes: usize) -> usize
    ensures value { result ≡ old_states.in_rows size bytes }
    ensures few { result ≤ bytes }
{
    if size == 0 { 0 } else { bytes - bytes % size }
}

impl<'a> OldStates<'a> {
    /// The class of a glyph: `OUT_OF_BOUNDS` if the table names none, `DELETED` for the glyph that
    /// was deleted.
    pub fn class(&self, glyph: u32) -> u32
        requires { self.now.start < 2 ^ 35 }
        ensures { result ≡ old_states.class_of self.now.table.now self.now.start glyph }
    {
        if glyph == DELETED_GLYPH {
            return DELETED;
        }
        let classes = self.start + usize::from(u16_at(self.table, self.start + 2));
        let first = u32::from(u16_at(self.table, classes));
        let said = u32::from(u16_at(self.table, classes + 2));
        let count = records(self.table, said, classes + 4, 1);
        if first <= glyph && glyph - first < count {
            let i = (glyph - first) as usize;
            u32::from(u8_at(self.table, classes + 4 + i))
        } else {
            OUT_OF_BOUNDS
        }
    }

    /// The state in which a text begins.
    pub fn first(&self) -> u32
        requires { self.now.start < 2 ^ 35 }
        ensures value { result ≡ old_states.first_state self.now.table.now self.now.start }
        ensures few { result < 2 ^ 16 }
    {
        u32::from(u16_at(self.table, self.start + 4))
    }

    /// The state whose row a place leads to.
    fn row(&self, place: u16) -> u32
        requires { self.now.start < 2 ^ 35 }
        ensures value { result ≡ old_states.row_of self.now.table.now self.now.start place }
        ensures few { result < 2 ^ 16 }
    {
        let first = u16_at(self.table, self.start + 4);
        let size = usize::from(u16_at(self.table, self.start));
        if place < first {
            u32::from(first) - in_rows(size, usize::from(first - place)) as u32
        } else {
            u32::from(first) + in_rows(size, usize::from(place - first)) as u32
        }
    }

    /// The number of the entry for a class in a state.
    fn entry_index(&self, state: u32, class: u32) -> u8
        requires start { self.now.start < 2 ^ 35 }
        requires state { state < 2 ^ 16 }
        ensures { result ≡ old_states.entry_index self.now.table.now self.now.start state class }
    {
        let count = u32::from(u16_at(self.table, self.start));
        let column = if class < count { class } else { OUT_OF_BOUNDS };
        u8_at(self.table, self.start + (state + column) as usize)
    }

    /// The entry for a class in a state.
    pub fn entry(&self, state: u32, class: u32) -> Entry
        requires start { self.now.start < 2 ^ 35 }
        requires state { state < 2 ^ 16 }
        ensures value { result ≡ old_states.entry_of self.now.table.now self.now.start state class }
        ensures state { result.next < 2 ^ 16 }
        ensures near { result.at < 2 ^ 37 }
    {
        let entries = self.start + usize::from(u16_at(self.table, self.start + 6));
        let at = entries + 4 * usize::from(self.entry_index(state, class));
        Entry {
            at: at + 4,
            next: self.row(u16_at(self.table, at)),
            flags: u32::from(u16_at(self.table, at + 2)),
        }
    }
}
