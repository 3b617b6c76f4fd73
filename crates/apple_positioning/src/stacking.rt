//! Contextual kerning of a run: subtables of format 1.
//!
//! Entries push glyphs onto a stack, and pop them with lists of values. Along the line a glyph
//! becomes wider by its value; across it, the glyph moves, and all that follow it.
ghost use Rattle.std.specs.Prelude.{◌≡◌, ◌<◌, ◌≤◌, ◌+◌, ◌^◌, length, replicate};
ghost use Rattle.apple_positioning.specs.Runs.{source_of};
ghost use Rattle.apple_positioning.specs.Stacking as stacking_rules;
ghost use Rattle.apple_positioning.specs.Stacks as stack_rules;
ghost use Rattle.shape_items.specs.Buffer.{limit_of};

use crate::driver::Machine;
use crate::runs::{Kerning, note_attachment};
use crate::stacks::{MOST_PUSHED, depth_after, pushes};
use apple_tables::Entry;
use shape_buffer::buffer::{GlyphPosition, hb_buffer_t};
use shape_buffer::wrapping::sum;

/// The glyphs that entries pushed.
#[derive(Clone, Copy)]
pub(crate) struct Stack {
    /// How many there are, up to eight.
    pub(crate) depth: usize,
    /// Their places.
    pub(crate) places: [usize; 8],
}

/// Glyphs that are being popped.
#[derive(Clone, Copy)]
pub(crate) struct Popping {
    /// How many are left on the stack.
    pub(crate) depth: usize,
    /// Where the next value stands.
    pub(crate) at: usize,
    /// Whether no more are popped.
    pub(crate) has_ended: bool,
}

/// The kind of subtable.
#[derive(Clone, Copy)]
pub(crate) struct Stacking<'a> {
    /// The subtable, and what it is run with.
    pub(crate) kerning: Kerning<'a>,
}

impl Stack {
    /// A stack without a glyph.
    pub(crate) fn new() -> Self
        ensures { result ≡ record { depth = 0; places = replicate 8 0 } }
    {
        Stack {
            depth: 0,
            places: [0; 8],
        }
    }
}

/// The stack after an entry has emptied it or pushed the glyph at a place, before any is popped.
fn stack_after(kerning: &Kerning<'_>, entry: &Entry, at: usize, stack: &Stack) -> Stack
    ensures value { result
        ≡ stacking_rules.stack_after (source_of kerning.now) entry.now at stack.now }
    ensures few { result.depth ≤ stack_rules.MOST_PUSHED }
{
    let is_emptied = kerning.subtable.empties(entry);
    let depth = depth_after(is_emptied, pushes(entry), stack.depth.min(MOST_PUSHED));
    let mut places = stack.places;
    if pushes(entry) && depth != 0 {
        places[depth - 1] = at;
    }
    Stack { depth, places }
}

/// A position that is wider along the line, and moved by as much.
fn widened(
    kerning: &Kerning<'_>,
    horizontal: bool,
    by: i32,
    position: GlyphPosition,
) -> GlyphPosition
    ensures { result ≡ stacking_rules.widened (source_of kerning.now) horizontal by position }
{
    let mut position = position;
    if horizontal {
        position.x_advance = sum(position.x_advance, kerning.to_right(by));
        position.x_offset = sum(position.x_offset, kerning.to_right(by));
    } else {
        position.y_advance = sum(position.y_advance, kerning.upwards(by));
        position.y_offset = sum(position.y_offset, kerning.upwards(by));
    }
    position
}

/// Widens a glyph, if kerning is on for it.
fn space(kerning: &Kerning<'_>, buffer: &mut hb_buffer_t, i: usize, by: i32)
    requires { i < length buffer.old.items }
    ensures made { buffer.new ≡ stacking_rules.glyph_spaced (source_of kerning.now) i by buffer.old }
    ensures items { buffer.new.items ≡ buffer.old.items }
    ensures limit { limit_of buffer.new ≡ limit_of buffer.old }
{
    if buffer.infos()[i].mask & kerning.mask == 0 {
        return;
    }
    let along = buffer.direction().is_horizontal();
    let position = widened(kerning, along, by, buffer.positions()[i]);
    buffer.set_position(i, position);
}

/// A position on the line, where it follows no other one.
fn put_back(horizontal: bool, position: GlyphPosition) -> GlyphPosition
    ensures { result ≡ stacking_rules.put_back horizontal position }
{
    let mut position = position;
    if horizontal {
        position.y_offset = 0;
    } else {
        position.x_offset = 0;
    }
    position.attach_chain = 0;
    position.attach_type = 0;
    position
}

/// A position moved across the line.
fn raised(
    kerning: &Kerning<'_>,
    horizontal: bool,
    by: i32,
    position: GlyphPosition,
) -> GlyphPosition
    ensures { result ≡ stacking_rules.raised (source_of kerning.now) horizontal by position }
{
    let mut position = position;
    if horizontal {
        position.y_offset = sum(position.y_offset, kerning.upwards(by));
    } else {
        position.x_offset = sum(position.x_offset, kerning.to_right(by));
    }
    position
}

/// Moves a glyph across the line, if it follows another one, or puts it back on the line.
fn raise(kerning: &Kerning<'_>, buffer: &mut hb_buffer_t, i: usize, by: i32)
    requires { i < length buffer.old.items }
    ensures made { buffer.new ≡ stacking_rules.glyph_raised (source_of kerning.now) i by buffer.old }
    ensures items { buffer.new.items ≡ buffer.old.items }
    ensures limit { limit_of buffer.new ≡ limit_of buffer.old }
{
    let along = buffer.direction().is_horizontal();
    let position = buffer.positions()[i];
    if by == -32768 {
        buffer.set_position(i, put_back(along, position));
    } else if position.attach_type != 0 {
        buffer.set_position(i, raised(kerning, along, by, position));
        note_attachment(buffer);
    }
}

/// Moves a glyph that is popped with a value.
fn move_popped(kerning: &Kerning<'_>, buffer: &mut hb_buffer_t, i: usize, by: i32)
    requires { i < length buffer.old.items }
    ensures made { buffer.new ≡ stacking_rules.glyph_popped (source_of kerning.now) i by buffer.old }
    ensures items { buffer.new.items ≡ buffer.old.items }
    ensures limit { limit_of buffer.new ≡ limit_of buffer.old }
{
    if kerning.subtable.header().is_cross_stream {
        raise(kerning, buffer, i, by);
    } else {
        space(kerning, buffer, i, by);
    }
}

/// A place of a list of them.
fn place_in(places: &[usize], i: usize) -> usize
    ensures { result ≡ stacking_rules.place_in places.now i }
{
    if i < places.len() { places[i] } else { 0 }
}

/// Pops a glyph. One that was pushed at the end of the text has no place in the list.
#[tactic(auto, unfolding(crate::specs::Stacking::popped_one))]
fn pop(
    kerning: &Kerning<'_>,
    buffer: &mut hb_buffer_t,
    places: &[usize],
    popping: Popping,
) -> Popping
    requires { popping.at < 2 ^ 38 }
    ensures made { record { buffer = buffer.new; popping = result }
        ≡ stacking_rules.popped_one (source_of kerning.now) places.now
        (record { buffer = buffer.old; popping = popping }) }
    ensures near { result.at < popping.at + 2 ^ 34 }
    ensures items { buffer.new.items ≡ buffer.old.items }
    ensures limit { limit_of buffer.new ≡ limit_of buffer.old }
{
    let depth = popping.depth.saturating_sub(1);
    let place = place_in(places, depth);
    let value = kerning.subtable.stack_value(popping.at);
    let mut next = Popping {
        depth,
        at: popping.at + kerning.subtable.step(),
        has_ended: popping.has_ended,
    };
    if place < buffer.len() {
        move_popped(kerning, buffer, place, value.by);
        next.has_ended = value.is_last;
    }
    next
}

/// Pops glyphs with the values from `at` on, until the value that is the last one. Returns how many
/// are left on the stack.
#[tactic(auto, using(crate::proofs::StackLemmas::popped_ended, crate::proofs::StackLemmas::popped_all))]
fn pop_all(kerning: &Kerning<'_>, buffer: &mut hb_buffer_t, stack: &Stack, at: usize) -> usize
    requires few { stack.now.depth ≤ stack_rules.MOST_PUSHED }
    requires near { at < 2 ^ 34 }
    ensures made { record { buffer = buffer.new; memory = record stack.now { depth = result } }
        ≡ stacking_rules.spot_popped (source_of kerning.now) stack.now at buffer.old }
    ensures items { buffer.new.items ≡ buffer.old.items }
    ensures limit { limit_of buffer.new ≡ limit_of buffer.old }
{
    let mut popping = Popping {
        depth: stack.depth,
        at,
        has_ended: false,
    };
    for _i in 0..stack.depth {
        if popping.has_ended {
            return popping.depth;
        }
        popping = pop(kerning, buffer, &stack.places, popping);
    }
    popping.depth
}

/// Pops glyphs with the values of an action. A subtable that lacks a value for one of them empties
/// the stack.
fn perform(kerning: &Kerning<'_>, buffer: &mut hb_buffer_t, stack: &mut Stack, index: u16)
    requires { stack.old.depth ≤ stack_rules.MOST_PUSHED }
    ensures made { record { buffer = buffer.new; memory = stack.new }
        ≡ stacking_rules.performed (source_of kerning.now) stack.old index buffer.old }
    ensures items { buffer.new.items ≡ buffer.old.items }
    ensures limit { limit_of buffer.new ≡ limit_of buffer.old }
{
    stack.depth = match kerning.subtable.stack_values(index, stack.depth) {
        Some(at) => pop_all(kerning, buffer, stack, at),
        None => 0,
    };
}

impl<'a> Machine for Stacking<'a> {
    type Memory = Stack;

    ghost deeds = { λ machine. stacking_rules.deeds (source_of machine.kerning) };

    fn transition(&self, buffer: &mut hb_buffer_t, at: usize, memory: &mut Stack, entry: &Entry) {
        *memory = stack_after(&self.kerning, entry, at, memory);
        if let Some(index) = self.kerning.subtable.action_index(entry) {
            perform(&self.kerning, buffer, memory, index);
        }
    }
}
