//! Contextual subtables: a marked glyph and the current one are replaced by lookup tables.
ghost use Rattle.std.specs.Prelude.{◌≡◌, ◌<◌, ◌^◌};
ghost use Rattle.apple_substitution.specs.Contextual as contextual_rules;
ghost use Rattle.apple_substitution.specs.Contextual.{source_of};

use crate::driver::Subtable;
use crate::edits::{break_span, charge, item, place_after, put};
use crate::glyphs::{Tables, glyph_by, replaced};
use apple_tables::Entry;
use layout_buffer::GapBuffer;
use shape_buffer::ShapeError;
use shape_font::bytes::{u16_at, u32_at};

/// The number of no lookup table.
const NONE: u16 = 0xFFFF;

/// The kind of subtable.
#[derive(Clone, Copy)]
pub struct Contextual<'a> {
    /// What it reads of the font.
    pub tables: Tables<'a>,
    /// Where the header of its state table begins.
    pub start: u32,
}

/// The glyph that an entry marked last.
#[derive(Clone, Copy, Debug)]
pub struct Mark {
    /// Its place; 0 if no glyph was marked.
    pub place: usize,
    /// Whether one was marked.
    pub is_set: bool,
}

/// Which lookup table the marked glyph has by an entry.
fn mark_index(morx: &[u8], entry: &Entry) -> u16
    requires { entry.now.at < 2 ^ 37 }
    ensures { result ≡ contextual_rules.mark_index morx.now entry.now }
{
    u16_at(morx, entry.at)
}

/// Which lookup table the current glyph has by an entry.
fn current_index(morx: &[u8], entry: &Entry) -> u16
    requires { entry.now.at < 2 ^ 37 }
    ensures { result ≡ contextual_rules.current_index morx.now entry.now }
{
    u16_at(morx, entry.at + 2)
}

/// Where a lookup table begins.
fn lookup_of(morx: &[u8], start: u32, index: u16) -> usize
    ensures value { result ≡ contextual_rules.lookup_of morx.now start index }
    ensures near { result < 2 ^ 36 }
{
    let start = start as usize;
    let list = start + u32_at(morx, start + 16) as usize;
    list + u32_at(morx, list + 4 * usize::from(index)) as usize
}

impl<'a> Contextual<'a> {
    /// The glyph in place of another by a lookup table.
    fn glyph_in(&self, index: u16, glyph: u32) -> Option<u16>
        ensures { result ≡ contextual_rules.glyph_in (source_of self.now) index glyph }
    {
        if index == NONE {
            return None;
        }
        let start = lookup_of(self.tables.morx, self.start, index);
        glyph_by(&self.tables, start, glyph)
    }

    /// Puts another glyph at a place.
    fn put_glyph(&self, buffer: &mut GapBuffer, at: usize, glyph: u16)
        ensures { buffer.new
            ≡ contextual_rules.glyph_put (source_of self.now) at glyph buffer.old }
    {
        let there = item(buffer, at);
        put(buffer, at, replaced(self.tables.gdef, glyph, there));
    }

    /// Replaces the marked glyph, if what is left suffices for marking what follows it.
    fn put_mark(&self, buffer: &mut GapBuffer, mark: usize, next: usize, glyph: u16)
        ensures { buffer.new
            ≡ contextual_rules.mark_put (source_of self.now) mark next glyph buffer.old }
    {
        if charge(buffer, next.saturating_sub(mark)) {
            break_span(buffer, mark, next);
            self.put_glyph(buffer, mark, glyph);
        }
    }

    /// Replaces the marked glyph as an entry says.
    fn replace_mark(&self, buffer: &mut GapBuffer, entry: &Entry, mark: usize, next: usize)
        requires { entry.now.at < 2 ^ 37 }
        ensures { buffer.new
            ≡ contextual_rules.mark_replaced (source_of self.now) entry.now mark next buffer.old }
    {
        let there = item(buffer, mark).glyph_id;
        let index = mark_index(self.tables.morx, entry);
        if let Some(glyph) = self.glyph_in(index, there) {
            self.put_mark(buffer, mark, next, glyph);
        }
    }

    /// Replaces the current glyph as an entry says.
    fn replace_current(&self, buffer: &mut GapBuffer, entry: &Entry, at: usize)
        requires { entry.now.at < 2 ^ 37 }
        ensures { buffer.new
            ≡ contextual_rules.current_replaced (source_of self.now) entry.now at buffer.old }
    {
        let there = item(buffer, at).glyph_id;
        let index = current_index(self.tables.morx, entry);
        if let Some(glyph) = self.glyph_in(index, there) {
            self.put_glyph(buffer, at, glyph);
        }
    }
}

/// Whether nothing is done since it is the end of the text, and no glyph was marked.
fn is_idle(ends: bool, mark: &Mark) -> bool
    ensures { result ≡ contextual_rules.is_idle ends mark.now }
{
    ends && !mark.is_set
}

/// The mark after an entry.
fn mark_after(entry: &Entry, at: usize, mark: Mark) -> Mark
    ensures { result ≡ contextual_rules.mark_after entry.now at mark }
{
    if entry.flags & 0x8000 == 0 {
        return mark;
    }
    Mark {
        place: at,
        is_set: true,
    }
}

impl<'a> Subtable for Contextual<'a> {
    type Memory = Mark;

    ghost actions = { λ c. contextual_rules.actions (source_of c) };

    fn is_actionable(&self, ends: bool, memory: &Mark, entry: &Entry) -> bool {
        !is_idle(ends, memory)
            && (mark_index(self.tables.morx, entry) != NONE
                || current_index(self.tables.morx, entry) != NONE)
    }

    fn transition(
        &self,
        buffer: &mut GapBuffer,
        at: usize,
        memory: &mut Mark,
        entry: &Entry,
    ) -> Result<usize, ShapeError> {
        let count = buffer.len();
        if is_idle(at == count, memory) {
            return Ok(at);
        }
        let mark = *memory;
        self.replace_mark(buffer, entry, mark.place, place_after(count, at));
        self.replace_current(buffer, entry, at.min(count.saturating_sub(1)));
        *memory = mark_after(entry, at, mark);
        Ok(at)
    }
}
