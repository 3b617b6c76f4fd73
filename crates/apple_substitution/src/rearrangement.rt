//! Rearrangement subtables: glyphs at both ends of a marked span change sides.
ghost use Rattle.std.specs.Prelude.{◌≡◌, ◌<◌, ◌≤◌, ◌+◌, ◌-◌, ◌++◌, true, false, length};
ghost use Rattle.std.specs.Prelude.{IfOk, OnOk, IsOkUnless};
ghost use Rattle.apple_substitution.specs.Rearrangement as rearrangement_rules;

use crate::driver::Subtable;
use crate::edits::{charge, merge_onwards, place_after, push_span, write};
use apple_tables::Entry;
use layout_buffer::GapBuffer;
use shape_buffer::{ShapeError, hb_glyph_info_t};
use std::alloc::Global;

/// What goes from a side of a span to the other side.
#[derive(Clone, Copy, Debug)]
pub enum Side {
    /// Nothing.
    Stays,
    /// The glyph at the end.
    One,
    /// The two glyphs there.
    Two,
    /// The two glyphs there, in the other order.
    Turned,
}

use Side::{One, Stays, Turned, Two};

/// What goes from the left side of a span to the right, and from the right to the left, by the
/// verbs from 0 to 15.
pub const VERBS: [(Side, Side); 16] = [
    (Stays, Stays), // no change
    (One, Stays), // Ax => xA
    (Stays, One), // xD => Dx
    (One, One), // AxD => DxA
    (Two, Stays), // ABx => xAB
    (Turned, Stays), // ABx => xBA
    (Stays, Two), // xCD => CDx
    (Stays, Turned), // xCD => DCx
    (One, Two), // AxCD => CDxA
    (One, Turned), // AxCD => DCxA
    (Two, One), // ABxD => DxAB
    (Turned, One), // ABxD => DxBA
    (Two, Two), // ABxCD => CDxAB
    (Turned, Two), // ABxCD => CDxBA
    (Two, Turned), // ABxCD => DCxAB
    (Turned, Turned), // ABxCD => DCxBA
];

/// The longest span that is rearranged.
const MAX_SPAN: usize = 64;

/// A span that entries marked.
#[derive(Clone, Copy, Debug)]
pub struct Marks {
    /// The place of its first glyph.
    pub first: usize,
    /// The place after its last glyph.
    pub end: usize,
}

/// The kind of subtable.
#[derive(Clone, Copy)]
pub struct Rearrangement {
    /// Where spans are copied to.
    pub alloc: Global,
}

/// How many glyphs of a side go to the other one.
fn count_of(side: Side) -> usize
    ensures value { result ≡ rearrangement_rules.count_of side }
    ensures few { result ≤ 2 }
{
    match side {
        Stays => 0,
        One => 1,
        Two | Turned => 2,
    }
}

/// Whether they turn.
fn turns(side: Side) -> bool
    ensures { result ≡ rearrangement_rules.turns side }
{
    matches!(side, Turned)
}

/// What the verb of an entry does with the left side and the right side of a span.
fn sides_of(entry: &Entry) -> (Side, Side)
    ensures { result ≡ rearrangement_rules.sides_of entry.now }
{
    VERBS[(entry.flags % 16) as usize]
}

/// Copies the glyphs of a side behind others, of two that turn the second one first.
fn push_side(
    items: &mut Vec<hb_glyph_info_t>,
    buffer: &GapBuffer,
    is_turned: bool,
    start: usize,
    end: usize,
) -> Result<(), ShapeError>
    requires turned { is_turned ≡ true → start < end }
    requires ordered { start ≤ end }
    requires within { end ≤ length buffer.now.items }
    ensures ok { OnOk result (items.new.items ≡ items.old.items
        ++ rearrangement_rules.side_of is_turned start end buffer.now.items) }
    ensures memory { IsOkUnless result ShapeError.Memory }
{
    if is_turned {
        push_span(items, buffer, start + 1, end)?;
        return push_span(items, buffer, start, start + 1);
    }
    push_span(items, buffer, start, end)
}

/// Copies a span as it is rearranged.
fn copy_rearranged(
    alloc: Global,
    buffer: &GapBuffer,
    sides: (Side, Side),
    marks: Marks,
) -> Result<Vec<hb_glyph_info_t>, ShapeError>
    requires ordered { marks.first ≤ marks.end }
    requires fits { rearrangement_rules.count_of sides.0 + rearrangement_rules.count_of sides.1
        ≤ marks.end - marks.first }
    requires within { marks.end ≤ length buffer.now.items }
    ensures ok { IfOk result (λ v. v.items ≡ rearrangement_rules.rearranged sides.0 sides.1
        marks.first marks.end buffer.now.items) }
    ensures len { IfOk result (λ v. length v.items ≡ marks.end - marks.first) }
    ensures memory { IsOkUnless result ShapeError.Memory }
{
    let from = marks.first + count_of(sides.0);
    let to = marks.end - count_of(sides.1);
    let mut items = Vec::new(alloc);
    push_side(&mut items, buffer, turns(sides.1), to, marks.end)?;
    push_span(&mut items, buffer, from, to)?;
    push_side(&mut items, buffer, turns(sides.0), marks.first, from)?;
    Ok(items)
}

/// Moves the glyphs of a span as an entry says.
fn move_glyphs(
    alloc: Global,
    buffer: &mut GapBuffer,
    entry: &Entry,
    marks: Marks,
) -> Result<(), ShapeError>
    requires ordered { marks.first ≤ marks.end }
    requires fits { rearrangement_rules.is_fitting entry.now marks (length buffer.old.items) ≡ true }
    ensures ok { OnOk result (buffer.new ≡ rearrangement_rules.moved entry.now marks buffer.old) }
    ensures memory { IsOkUnless result ShapeError.Memory }
{
    let items = copy_rearranged(alloc, buffer, sides_of(entry), marks)?;
    write(buffer, marks.first, items.as_slice());
    Ok(())
}

/// Whether an entry moves glyphs of a marked span.
fn is_moving(marks: Marks, entry: &Entry) -> bool
    ensures { result ≡ rearrangement_rules.is_actionable false marks entry.now }
{
    entry.flags % 16 != 0 && marks.first < marks.end
}

/// Whether a span has at least as many glyphs as go, and 64 at most.
fn is_fitting(entry: &Entry, marks: Marks, count: usize) -> bool
    ensures { result ≡ rearrangement_rules.is_fitting entry.now marks count }
{
    let sides = sides_of(entry);
    let span = marks.end.saturating_sub(marks.first);
    count_of(sides.0) + count_of(sides.1) <= span && span <= MAX_SPAN && marks.end <= count
}

/// The span after an entry marked its first glyph or its last one.
fn marks_of(entry: &Entry, at: usize, count: usize, marks: Marks) -> Marks
    ensures { result ≡ rearrangement_rules.marks_of entry.now at count marks }
{
    let mut marks = marks;
    if entry.flags & 0x8000 != 0 {
        marks.first = at;
    }
    if entry.flags & 0x2000 != 0 {
        marks.end = place_after(count, at);
    }
    marks
}

/// Merges clusters, and moves the glyphs of a span as an entry says, if what is left suffices for
/// that.
fn rearrange(
    alloc: Global,
    buffer: &mut GapBuffer,
    entry: &Entry,
    next: usize,
    marks: Marks,
) -> Result<(), ShapeError>
    requires ordered { marks.first ≤ marks.end }
    requires fits { rearrangement_rules.is_fitting entry.now marks (length buffer.old.items) ≡ true }
    ensures ok { OnOk result
        (buffer.new ≡ rearrangement_rules.done entry.now next marks buffer.old) }
    ensures memory { IsOkUnless result ShapeError.Memory }
{
    if !charge(buffer, next.saturating_sub(marks.first)) {
        return Ok(());
    }
    merge_onwards(buffer, marks.first, next);
    merge_onwards(buffer, marks.first, marks.end);
    move_glyphs(alloc, buffer, entry, marks)
}

impl Subtable for Rearrangement {
    type Memory = Marks;

    ghost actions = { λ _. rearrangement_rules.actions };

    fn is_actionable(&self, _ends: bool, memory: &Marks, entry: &Entry) -> bool {
        is_moving(*memory, entry)
    }

    fn transition(
        &self,
        buffer: &mut GapBuffer,
        at: usize,
        memory: &mut Marks,
        entry: &Entry,
    ) -> Result<usize, ShapeError> {
        let count = buffer.len();
        *memory = marks_of(entry, at, count, *memory);
        if is_moving(*memory, entry) && is_fitting(entry, *memory, count) {
            rearrange(self.alloc, buffer, entry, place_after(count, at), *memory)?;
        }
        Ok(at)
    }
}
