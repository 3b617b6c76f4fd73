//! Attachment in a run: subtables of format 4 of `kerx`.
//!
//! Entries mark a glyph, and have later ones put on it, point on point. What an action by anchor
//! points needs stands in the table `ankr`. An action by control points isn't done: HarfBuzz's own
//! functions of fonts give no points of outlines.
ghost use Rattle.std.specs.Prelude.{◌≡◌, ◌<◌, ◌^◌, length, nat_lt, pos, if◌then◌else◌};
ghost use Rattle.apple_positioning.specs.Attaching as attaching_rules;
ghost use Rattle.apple_positioning.specs.Runs.{source_of};
ghost use Rattle.shape_items.specs.Buffer.{limit_of};

use crate::anchors::{Anchor, Anchors};
use crate::attachments::{Action, Numbers, Places, apart};
use crate::chains::bit_of;
use crate::driver::Machine;
use crate::runs::{Kerning, note_attachment};
use apple_tables::Entry;
use shape_buffer::buffer::{GlyphPosition, hb_buffer_t};

/// The kind of subtable.
#[derive(Clone, Copy)]
pub(crate) struct Attaching<'a> {
    /// The subtable, and what it is run with.
    pub(crate) kerning: Kerning<'a>,
}

/// A point at the size of the font.
fn sized(kerning: &Kerning<'_>, anchor: Anchor) -> Anchor
    ensures { result ≡ attaching_rules.sized (source_of kerning.now) anchor }
{
    Anchor {
        x: kerning.to_right(anchor.x),
        y: kerning.upwards(anchor.y),
    }
}

/// The position at which a point of a glyph comes to that of the marked one.
fn moved_to(kerning: &Kerning<'_>, places: Places, position: GlyphPosition) -> GlyphPosition
    ensures { result ≡ attaching_rules.moved_to (source_of kerning.now) places position }
{
    let far = apart(Places {
        marked: sized(kerning, places.marked),
        current: sized(kerning, places.current),
    });
    let mut position = position;
    position.x_offset = far.x;
    position.y_offset = far.y;
    position
}

/// Two anchor points, by the numbers of their glyphs.
fn anchors_of(kerning: &Kerning<'_>, numbers: Numbers, marked: u32, current: u32) -> Places
    ensures { result ≡ attaching_rules.anchors_of (source_of kerning.now) numbers marked current }
{
    let anchors = Anchors {
        table: kerning.ankr,
        glyphs: kerning.subtable.glyphs,
    };
    Places {
        marked: anchors.anchor(marked, u32::from(numbers.marked)),
        current: anchors.anchor(current, u32::from(numbers.current)),
    }
}

/// Where an action puts a glyph, by the numbers of the marked glyph and of this one.
fn put_by(
    kerning: &Kerning<'_>,
    action: Action,
    marked: u32,
    current: u32,
    position: GlyphPosition,
) -> Option<GlyphPosition>
    ensures { result
        ≡ attaching_rules.put_by (source_of kerning.now) action marked current position }
{
    match action {
        Action::ControlPoints(_) => None,
        Action::AnchorPoints(numbers) => {
            let places = anchors_of(kerning, numbers, marked, current);
            Some(moved_to(kerning, places, position))
        }
        Action::Coordinates(places) => Some(moved_to(kerning, places, position)),
        Action::Attached => Some(position),
    }
}

/// The distance of two places that are no more than 32767 apart, else 0.
fn near(distance: usize) -> i16
    ensures { result ≡ (if nat_lt 32767 distance then pos 0 else pos distance) }
{
    if 32767 < distance { 0 } else { distance as i16 }
}

/// The `attach_chain` of the glyph at place `i` that is attached to place `j`.
fn chain(i: usize, j: usize) -> i16
    ensures { result ≡ attaching_rules.chain_to i j }
{
    if j < i { -near(i - j) } else { near(j - i) }
}

/// The position of a glyph that follows another one as a mark.
fn hung(chain: i16, position: GlyphPosition) -> GlyphPosition
    ensures { result ≡ attaching_rules.hung chain position }
{
    let mut position = position;
    position.attach_chain = chain;
    position.attach_type = 1;
    position
}

/// The number of a glyph, 0 past the end of the list.
fn glyph_at(buffer: &hb_buffer_t, i: usize) -> u32
    ensures { result ≡ attaching_rules.glyph_at buffer.now i }
{
    if i < buffer.len() {
        buffer.infos()[i].glyph_id
    } else {
        0
    }
}

/// Where the action of a number puts a glyph.
fn found(
    kerning: &Kerning<'_>,
    index: u16,
    at: usize,
    mark: usize,
    buffer: &hb_buffer_t,
) -> Option<GlyphPosition>
    requires { at < length buffer.now.items }
    ensures { result ≡ attaching_rules.found (source_of kerning.now) index at mark buffer.now }
{
    let action = kerning.subtable.action(index)?;
    let (marked, current) = (glyph_at(buffer, mark), glyph_at(buffer, at));
    put_by(kerning, action, marked, current, buffer.positions()[at])
}

/// Puts a glyph on the marked one as the action of a number says. Tells whether that was done.
fn act(kerning: &Kerning<'_>, buffer: &mut hb_buffer_t, index: u16, at: usize, mark: usize) -> bool
    requires { at < length buffer.old.items }
    ensures made { record { buffer = buffer.new; is_done = result }
        ≡ attaching_rules.acted (source_of kerning.now) index at mark buffer.old }
    ensures items { buffer.new.items ≡ buffer.old.items }
    ensures limit { limit_of buffer.new ≡ limit_of buffer.old }
{
    match found(kerning, index, at, mark, buffer) {
        Some(position) => {
            buffer.set_position(at, hung(chain(at, mark), position));
            note_attachment(buffer);
            true
        }
        None => false,
    }
}

/// Does what an entry asks of a glyph, by the marked one. Tells whether all was done.
fn act_by(
    kerning: &Kerning<'_>,
    buffer: &mut hb_buffer_t,
    entry: &Entry,
    at: usize,
    mark: usize,
) -> bool
    requires { entry.now.at < 2 ^ 37 }
    ensures made { record { buffer = buffer.new; is_done = result }
        ≡ attaching_rules.acted_by (source_of kerning.now) entry.now at mark buffer.old }
    ensures items { buffer.new.items ≡ buffer.old.items }
    ensures limit { limit_of buffer.new ≡ limit_of buffer.old }
{
    if buffer.len() <= at {
        return true;
    }
    match kerning.subtable.action_index(entry) {
        Some(index) => act(kerning, buffer, index, at, mark),
        None => true,
    }
}

/// The same, if a glyph is marked.
fn act_with(
    kerning: &Kerning<'_>,
    buffer: &mut hb_buffer_t,
    entry: &Entry,
    at: usize,
    mark: Option<usize>,
) -> bool
    requires { entry.now.at < 2 ^ 37 }
    ensures made { record { buffer = buffer.new; is_done = result }
        ≡ attaching_rules.acted_with (source_of kerning.now) entry.now at mark buffer.old }
    ensures items { buffer.new.items ≡ buffer.old.items }
    ensures limit { limit_of buffer.new ≡ limit_of buffer.old }
{
    match mark {
        Some(mark) => act_by(kerning, buffer, entry, at, mark),
        None => true,
    }
}

/// The marked glyph after an entry.
fn mark_after(entry: &Entry, at: usize, mark: Option<usize>) -> Option<usize>
    ensures { result ≡ attaching_rules.mark_after entry.now at mark }
{
    if bit_of(entry.flags, 0x8000) {
        Some(at)
    } else {
        mark
    }
}

impl<'a> Machine for Attaching<'a> {
    type Memory = Option<usize>;

    ghost deeds = { λ machine. attaching_rules.deeds (source_of machine.kerning) };

    fn transition(
        &self,
        buffer: &mut hb_buffer_t,
        at: usize,
        memory: &mut Option<usize>,
        entry: &Entry,
    ) {
        if act_with(&self.kerning, buffer, entry, at, *memory) {
            *memory = mark_after(entry, at, *memory);
        }
    }
}
