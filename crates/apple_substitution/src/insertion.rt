//! Insertion subtables: glyphs of a list are inserted beside a marked glyph, and beside the current
//! one.
ghost use Rattle.std.specs.Prelude.{◌≡◌, ◌<◌, ◌^◌, true, OnOk, IfOk, IsErrOf};
ghost use Rattle.apple_substitution.specs.Edits.{is_past};
ghost use Rattle.apple_substitution.specs.Insertion as insertion_rules;
ghost use Rattle.shape_buffer.specs.declared.buffer.error.ShapeError.TheVariants.{Length};

use crate::driver::Subtable;
use crate::edits::{break_span, charge, item, place_after};
use crate::ranges::STEP_WORK;
use apple_tables::Entry;
use layout_buffer::GapBuffer;
use shape_buffer::{ShapeError, hb_glyph_info_t};
use shape_font::bytes::{u16_at, u32_at};

/// The number of no glyph of the list.
const NONE: u16 = 0xFFFF;

/// The kind of subtable.
#[derive(Clone, Copy)]
pub struct Insertion<'a> {
    /// The table `morx`.
    pub morx: &'a [u8],
    /// Where the header of its state table begins.
    pub start: u32,
}

/// What an entry asks for beside a glyph.
#[derive(Clone, Copy, Debug)]
pub struct Wanted {
    /// Which glyph of the list is the first one.
    pub index: u16,
    /// How many glyphs go there.
    pub count: u32,
    /// Whether they go before the glyph, and not after it.
    pub is_before: bool,
}

/// What an entry asks for beside the current glyph.
fn current_of(morx: &[u8], entry: &Entry) -> Wanted
    requires { entry.now.at < 2 ^ 37 }
    ensures value { result ≡ insertion_rules.current_of morx.now entry.now }
    ensures few { result.count < 32 }
{
    Wanted {
        index: u16_at(morx, entry.at),
        count: entry.flags / 32 % 32,
        is_before: entry.flags & 0x0800 != 0,
    }
}

/// What an entry asks for beside the marked glyph.
fn marked_of(morx: &[u8], entry: &Entry) -> Wanted
    requires { entry.now.at < 2 ^ 37 }
    ensures value { result ≡ insertion_rules.marked_of morx.now entry.now }
    ensures few { result.count < 32 }
{
    Wanted {
        index: u16_at(morx, entry.at + 2),
        count: entry.flags % 32,
        is_before: entry.flags & 0x0400 != 0,
    }
}

/// What an insertion costs, with a span that is gone over.
fn work_of(wanted: &Wanted, span: usize) -> usize
    requires { wanted.now.count < 32 }
    ensures { result ≡ insertion_rules.work_of wanted.now span }
{
    if wanted.index == NONE {
        return 0;
    }
    (wanted.count as usize * STEP_WORK).saturating_add(span)
}

/// A glyph of the list that is in all else as another one.
fn copy(morx: &[u8], from: usize, model: &hb_glyph_info_t) -> hb_glyph_info_t
    requires { from < 2 ^ 40 }
    ensures { result ≡ insertion_rules.copy morx.now from model.now }
{
    let mut copy = *model;
    copy.glyph_id = u32::from(u16_at(morx, from));
    copy
}

/// Inserts an item at a place. Refuses as `insert` does.
#[tactic(auto, using(crate::proofs::InsertionLemmas::past_one))]
fn insert_at(buffer: &mut GapBuffer, at: usize, item: hb_glyph_info_t) -> Result<(), ShapeError>
    ensures ok { OnOk result (buffer.new ≡ insertion_rules.insert_at at item buffer.old) }
    ensures length { IsErrOf result Length
        → is_past (insertion_rules.insert_at at item buffer.old) ≡ true }
{
    if at <= buffer.len() {
        buffer.insert(at, item)?;
    }
    Ok(())
}

/// Inserts glyphs of the list at a place. Refuses as `insert` does.
#[tactic(auto, using(crate::proofs::InsertionLemmas::inserted_all, crate::proofs::InsertionLemmas::past_all))]
fn insert_all(
    morx: &[u8],
    buffer: &mut GapBuffer,
    from: usize,
    model: &hb_glyph_info_t,
    at: usize,
    count: u32,
) -> Result<(), ShapeError>
    requires { from < 2 ^ 38 }
    ensures ok { OnOk result (buffer.new
        ≡ insertion_rules.inserted morx.now from model.now at count buffer.old) }
    ensures length { IsErrOf result Length
        → is_past (insertion_rules.inserted morx.now from model.now at count buffer.old) ≡ true }
{
    for i in 0..count {
        let k = (count - (i + 1)) as usize;
        match insert_at(buffer, at, copy(morx, from + 2 * k, model)) {
            Err(error) => return Err(error),
            Ok(()) => {}
        }
    }
    Ok(())
}

/// The glyph that inserted ones are made like.
fn model_at(buffer: &GapBuffer, at: usize) -> hb_glyph_info_t
    ensures { result ≡ insertion_rules.model_at at buffer.now }
{
    if at < buffer.len() {
        item(buffer, at)
    } else {
        item(buffer, at.saturating_sub(1))
    }
}

/// Where glyphs are inserted beside one.
fn side_of(wanted: &Wanted, buffer: &GapBuffer, at: usize) -> usize
    ensures { result ≡ insertion_rules.side_of wanted.now at buffer.now }
{
    if at < buffer.len() && !wanted.is_before {
        at + 1
    } else {
        at
    }
}

/// The place so far after another, the end of the list at most.
fn further(buffer: &GapBuffer, at: usize, count: u32) -> usize
    ensures { result ≡ insertion_rules.place_after at count buffer.now }
{
    at.saturating_add(count as usize).min(buffer.len())
}

/// Where a walk stands after an insertion beside the current glyph.
fn place_then(buffer: &GapBuffer, entry: &Entry, at: usize, count: u32) -> usize
    ensures { result ≡ insertion_rules.place_then count entry.now at buffer.now }
{
    if entry.flags & 0x4000 != 0 {
        at
    } else {
        further(buffer, at, count)
    }
}

/// The marked place after an entry.
fn mark_after(entry: &Entry, at: usize, mark: usize) -> usize
    ensures { result ≡ insertion_rules.mark_after entry.now at mark }
{
    if entry.flags & 0x8000 == 0 { mark } else { at }
}

/// Marks what the marked glyph and the current one enclose unsafe to break, if glyphs are wanted.
fn break_from_mark(buffer: &mut GapBuffer, wanted: &Wanted, mark: usize, at: usize)
    ensures { buffer.new ≡ insertion_rules.marked_broken wanted.now mark at buffer.old }
{
    if wanted.index != NONE {
        let next = place_after(buffer.len(), at);
        break_span(buffer, mark, next);
    }
}

impl<'a> Insertion<'a> {
    /// Where the first glyph that is wanted stands in the table.
    fn place_of(&self, wanted: &Wanted) -> usize
        ensures value { result
            ≡ insertion_rules.place_of self.now.morx.now self.now.start wanted.now }
        ensures near { result < 2 ^ 38 }
    {
        let wanted = *wanted;
        let start = self.start as usize;
        let list = start + u32_at(self.morx, start + 16) as usize;
        list + 2 * usize::from(wanted.index)
    }

    /// How many glyphs are inserted, none if the table lacks one of them.
    fn count_of(&self, wanted: &Wanted) -> u32
        requires { wanted.now.count < 32 }
        ensures { result ≡ insertion_rules.count_of self.now.morx.now self.now.start wanted.now }
    {
        let end = self.place_of(wanted) + 2 * wanted.count as usize;
        if wanted.index == NONE || self.morx.len() < end {
            return 0;
        }
        wanted.count
    }

    /// Inserts the glyphs that are wanted beside one, none in an empty list. Refuses as `insert`
    /// does.
    #[tactic(auto, unfolding(crate::specs::Insertion::inserted_beside))]
    fn insert_beside(
        &self,
        buffer: &mut GapBuffer,
        wanted: &Wanted,
        at: usize,
    ) -> Result<(), ShapeError>
        requires { wanted.now.count < 32 }
        ensures ok { OnOk result (buffer.new ≡ insertion_rules.inserted_beside
            self.now.morx.now self.now.start wanted.now at buffer.old) }
        ensures length { IsErrOf result Length → is_past (insertion_rules.inserted_beside
            self.now.morx.now self.now.start wanted.now at buffer.old) ≡ true }
    {
        if buffer.len() == 0 {
            return Ok(());
        }
        let model = model_at(buffer, at);
        let side = side_of(wanted, buffer, at);
        let from = self.place_of(wanted);
        insert_all(self.morx, buffer, from, &model, side, self.count_of(wanted))
    }

    /// Inserts the glyphs that are wanted beside the marked one, and returns the place of the
    /// current glyph then. Refuses as `insert` does.
    fn insert_marked(
        &self,
        buffer: &mut GapBuffer,
        wanted: &Wanted,
        at: usize,
        mark: usize,
    ) -> Result<usize, ShapeError>
        requires { wanted.now.count < 32 }
        ensures ok { IfOk result (λ next. record { buffer = buffer.new; at = next }
            ≡ insertion_rules.marked_done self.now.morx.now self.now.start wanted.now mark at
            buffer.old) }
        ensures length { IsErrOf result Length → is_past (insertion_rules.marked_done
            self.now.morx.now self.now.start wanted.now mark at buffer.old).buffer ≡ true }
    {
        break_from_mark(buffer, wanted, mark, at);
        match self.insert_beside(buffer, wanted, mark) {
            Err(error) => Err(error),
            Ok(()) => Ok(further(buffer, at, self.count_of(wanted))),
        }
    }

    /// Inserts the glyphs that are wanted beside the current one, if what is left suffices, and
    /// returns the place where the walk stands then. Refuses as `insert` does.
    #[tactic(auto, unfolding(crate::specs::Insertion::current_done))]
    fn insert_current(
        &self,
        buffer: &mut GapBuffer,
        wanted: &Wanted,
        entry: &Entry,
        at: usize,
    ) -> Result<usize, ShapeError>
        requires { wanted.now.count < 32 }
        ensures ok { IfOk result (λ next. record { buffer = buffer.new; at = next }
            ≡ insertion_rules.current_done self.now.morx.now self.now.start wanted.now entry.now
            (record { buffer = buffer.old; at = at })) }
        ensures length { IsErrOf result Length → is_past (insertion_rules.current_done
            self.now.morx.now self.now.start wanted.now entry.now
            (record { buffer = buffer.old; at = at })).buffer ≡ true }
    {
        if !charge(buffer, work_of(wanted, 0)) {
            return Ok(at);
        }
        match self.insert_beside(buffer, wanted, at) {
            Err(error) => Err(error),
            Ok(()) => Ok(place_then(buffer, entry, at, self.count_of(wanted))),
        }
    }

    /// Inserts what an entry asks for, beside the marked glyph and beside the current one.
    #[tactic(auto, using(crate::proofs::InsertionLemmas::past_current))]
    fn insert_both(
        &self,
        buffer: &mut GapBuffer,
        entry: &Entry,
        at: usize,
        mark: usize,
    ) -> Result<usize, ShapeError>
        requires { entry.now.at < 2 ^ 37 }
        ensures ok { IfOk result (λ next. record { buffer = buffer.new; at = next }
            ≡ insertion_rules.both_done self.now.morx.now self.now.start entry.now mark at
            buffer.old) }
        ensures length { IsErrOf result Length → is_past (insertion_rules.both_done
            self.now.morx.now self.now.start entry.now mark at buffer.old).buffer ≡ true }
    {
        let marked = marked_of(self.morx, entry);
        let current = current_of(self.morx, entry);
        match self.insert_marked(buffer, &marked, at, mark) {
            Err(error) => Err(error),
            Ok(next) => self.insert_current(buffer, &current, entry, next),
        }
    }

    /// What an entry costs for what it asks for beside the marked glyph.
    fn span_work(&self, buffer: &GapBuffer, entry: &Entry, at: usize, mark: usize) -> usize
        requires { entry.now.at < 2 ^ 37 }
        ensures { result ≡ insertion_rules.span_work
            (insertion_rules.marked_of self.now.morx.now entry.now) mark at buffer.now }
    {
        let span = place_after(buffer.len(), at).saturating_sub(mark);
        work_of(&marked_of(self.morx, entry), span)
    }
}

impl<'a> Subtable for Insertion<'a> {
    type Memory = usize;

    ghost actions = { λ i. insertion_rules.actions i.morx.now i.start };

    fn is_actionable(&self, _ends: bool, _memory: &usize, entry: &Entry) -> bool {
        entry.flags & 0x03FF != 0
            && (current_of(self.morx, entry).index != NONE
                || marked_of(self.morx, entry).index != NONE)
    }

    fn transition(
        &self,
        buffer: &mut GapBuffer,
        at: usize,
        memory: &mut usize,
        entry: &Entry,
    ) -> Result<usize, ShapeError> {
        let mark = *memory;
        let work = self.span_work(buffer, entry, at, mark);
        if !charge(buffer, work) {
            return Ok(at);
        }
        *memory = mark_after(entry, at, mark);
        self.insert_both(buffer, entry, at, mark)
    }
}
