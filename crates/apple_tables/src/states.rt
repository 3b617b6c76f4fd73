//! State tables: a state and the class of a glyph lead to an entry, which has the next state.
ghost use Rattle.std.specs.Prelude.{◌≡◌, ◌<◌, ◌≤◌, ◌^◌};
ghost use Rattle.apple_tables.specs.States;

use crate::lookups::Lookup;
use shape_font::bytes::{u16_at, u32_at, word};

/// The class of the end of a text.
pub const END_OF_TEXT: u32 = 0;

/// The class of the glyphs that a table doesn't name.
pub const OUT_OF_BOUNDS: u32 = 1;

/// The class of a glyph that was deleted.
pub const DELETED: u32 = 2;

/// The state in which a text begins.
pub const START_OF_TEXT: u32 = 0;

/// The number of a glyph that was deleted, which stays until the end of a run.
pub const DELETED_GLYPH: u32 = 0xFFFF;

/// An extended state table in another table.
#[derive(Clone, Copy, Debug)]
pub struct StateTable<'a> {
    /// The table that it stands in.
    pub table: &'a [u8],
    /// Where its header begins there.
    pub start: usize,
    /// How many bytes an entry has: four, and the data of its kind.
    pub entry_size: usize,
    /// How many glyphs the font has.
    pub glyphs: u32,
}

/// What a state table does for a class of glyphs in a state.
#[derive(Clone, Copy, Debug)]
pub struct Entry {
    /// Where the data of its kind stand, after the next state and the flags.
    pub at: usize,
    /// The next state.
    pub next: u32,
    /// Its flags, whose meaning its kind has.
    pub flags: u32,
}

/// The number of an entry in a row of states, 0 past the end of the table.
fn index_at(table: &[u8], at: usize) -> u32
    requires { at < 2 ^ 60 }
    ensures value { result ≡ States.index_at table.now at }
    ensures few { result < 2 ^ 16 }
{
    if at + 2 <= table.len() {
        u32::from(word(table, at))
    } else {
        0
    }
}

impl<'a> StateTable<'a> {
    /// The class of a glyph: `OUT_OF_BOUNDS` if the table names none, `DELETED` for the glyph that
    /// was deleted.
    pub fn class(&self, glyph: u32) -> u32
        requires { self.now.start < 2 ^ 35 }
        ensures { result ≡ States.class_of self.now.table.now self.now.start self.now.glyphs glyph }
    {
        if glyph == DELETED_GLYPH {
            return DELETED;
        }
        let classes = Lookup {
            table: self.table,
            start: self.start + u32_at(self.table, self.start + 4) as usize,
            is_long: false,
            glyphs: self.glyphs,
        };
        match classes.place(glyph) {
            Some(at) => u32::from(word(self.table, at)),
            None => OUT_OF_BOUNDS,
        }
    }

    /// The number of the entry for a class in a state.
    fn entry_index(&self, state: u32, class: u32) -> u32
        requires start { self.now.start < 2 ^ 35 }
        requires state { state < 2 ^ 16 }
        ensures value { result ≡ States.entry_index self.now.table.now self.now.start state class }
        ensures few { result < 2 ^ 16 }
    {
        let count = u32_at(self.table, self.start);
        let column = if class < count { class } else { OUT_OF_BOUNDS };
        let states = self.start + u32_at(self.table, self.start + 8) as usize;
        let cell = state as usize * count as usize + column as usize;
        index_at(self.table, states + 2 * cell)
    }

    /// The entry for a class in a state.
    pub fn entry(&self, state: u32, class: u32) -> Entry
        requires start { self.now.start < 2 ^ 35 }
        requires size { self.now.entry_size ≤ 8 }
        requires state { state < 2 ^ 16 }
        ensures value { result ≡ States.entry_of self.now.table.now self.now.start
            self.now.entry_size state class }
        ensures state { result.next < 2 ^ 16 }
        ensures near { result.at < 2 ^ 37 }
    {
        let entries = self.start + u32_at(self.table, self.start + 12) as usize;
        let at = entries + self.entry_size * self.entry_index(state, class) as usize;
        Entry {
            at: at + 4,
            next: u32::from(u16_at(self.table, at)),
            flags: u32::from(u16_at(self.table, at + 2)),
        }
    }
}
