//! Glyphs attached to others: how far away, and how they follow them once all lookups are done.
ghost use Rattle.std.specs.Prelude.{◌≡◌, ◌<◌, length, nat_lt, pos, if◌then◌else◌};
ghost use Rattle.std.specs.Option.{IfSome};
ghost use Rattle.shape_buffer.specs.Outcome.{Made};
ghost use Rattle.layout_positions.specs.Ways.{IsMeasured};
ghost use Rattle.layout_positions.specs.Attachment;

use crate::edits::{position, put};
use crate::ways::{Measured, Pen, way_between};
use shape_buffer::wrapping::{difference, sum};
use shape_buffer::{GlyphPosition, hb_buffer_t};

/// The `attach_type` of a mark.
pub const MARK_ATTACHED: u8 = 1;

/// The `attach_type` of a glyph in a cursive line.
pub const CURSIVE_ATTACHED: u8 = 2;

/// How many links of a chain a glyph follows.
const MOST_LINKS: u32 = 64;

/// The distance of two places that are no more than 32767 apart, else 0.
fn near(distance: usize) -> i16
    ensures { result ≡ (if nat_lt 32767 distance then pos 0 else pos distance) }
{
    if 32767 < distance { 0 } else { distance as i16 }
}

/// The `attach_chain` of the glyph at place `i` that is attached to place `j`; 0, not attached, if
/// they are more than 32767 apart.
pub fn chain(i: usize, j: usize) -> i16
    ensures { result ≡ Attachment.chain_to i j }
{
    if j < i { -near(i - j) } else { near(j - i) }
}

/// The place that far from place `i` of `count`.
pub fn place_at(count: usize, i: usize, chain: i16) -> Option<usize>
    requires { i < count }
    ensures value { result ≡ Attachment.place_at count i chain }
    ensures inside { IfSome result (λ j. j < count) }
{
    let n = usize::from(chain.unsigned_abs());
    if chain < 0 {
        if n <= i { Some(i - n) } else { None }
    } else if n == 0 || count - i <= n {
        None
    } else {
        Some(i + n)
    }
}

/// The place that the glyph at place `i` is attached to.
pub fn parent(buffer: &hb_buffer_t, i: usize) -> Option<usize>
    requires { i < length buffer.now.items }
    ensures value { result ≡ Attachment.parent_of buffer.now i }
    ensures inside { IfSome result (λ j. j < length buffer.now.items) }
{
    place_at(buffer.len(), i, position(buffer, i).attach_chain)
}

/// Takes the link of the glyph at place `i` off.
pub fn free(buffer: &mut hb_buffer_t, i: usize)
    ensures made { buffer.new ≡ Attachment.freed i buffer.old }
    ensures items { buffer.new.items ≡ buffer.old.items }
{
    let mut there = position(buffer, i);
    there.attach_chain = 0;
    put(buffer, i, there);
}

/// The position of a mark that is attached to a glyph, over so long a way of the pen.
fn hung(forward: bool, way: Pen, there: &GlyphPosition, mark: GlyphPosition) -> GlyphPosition
    ensures { result ≡ Attachment.hung forward way there.now mark }
{
    let mut mark = mark;
    mark.x_offset = sum(mark.x_offset, there.x_offset);
    mark.y_offset = sum(mark.y_offset, there.y_offset);
    if forward {
        mark.x_offset = difference(mark.x_offset, way.x);
        mark.y_offset = difference(mark.y_offset, way.y);
    } else {
        mark.x_offset = sum(mark.x_offset, way.x);
        mark.y_offset = sum(mark.y_offset, way.y);
    }
    mark
}

/// A position moved across the line as another one is.
fn carried_by(horizontal: bool, there: &GlyphPosition, position: GlyphPosition) -> GlyphPosition
    ensures { result ≡ Attachment.carried horizontal there.now position }
{
    let mut position = position;
    if horizontal {
        position.y_offset = sum(position.y_offset, there.y_offset);
    } else {
        position.x_offset = sum(position.x_offset, there.x_offset);
    }
    position
}

/// Moves the glyph at place `i` as the one at place `j` that it is attached to. Takes the way that
/// was measured last, and returns the one to go on from.
fn follow(buffer: &mut hb_buffer_t, i: usize, j: usize, last: Measured) -> Measured
    requires i { i < length buffer.old.items }
    requires j { j < length buffer.old.items }
    requires last { IsMeasured buffer.old last }
    ensures made { buffer.new ≡ Attachment.followed i j buffer.old }
    ensures items { buffer.new.items ≡ buffer.old.items }
    ensures measured { IsMeasured buffer.new result }
{
    let here = position(buffer, i);
    let there = position(buffer, j);
    let direction = buffer.direction();
    if here.attach_type == CURSIVE_ATTACHED {
        put(
            buffer,
            i,
            carried_by(direction.is_horizontal(), &there, here),
        );
        return last;
    }
    let measured = way_between(buffer, i, j, last);
    put(
        buffer,
        i,
        hung(direction.is_forward(), measured.pen, &there, here),
    );
    if measured.is_short() { last } else { measured }
}

/// The glyph at place `i` follows the one that it is attached to, after that one has followed its
/// own, over so many links. Most follow one that isn't attached any more.
#[tactic(auto, using(crate::proofs::SettleLemmas::settled_beside, crate::proofs::SettleLemmas::settled_free, crate::proofs::SettleLemmas::settled_out, crate::proofs::SettleLemmas::settled_on, crate::proofs::WayLemmas::measured_freed))]
fn settle(buffer: &mut hb_buffer_t, level: u32, i: usize, last: Measured) -> Measured
    requires inside { i < length buffer.old.items }
    requires last { IsMeasured buffer.old last }
    ensures made { buffer.new ≡ Attachment.settled level i buffer.old }
    ensures items { buffer.new.items ≡ buffer.old.items }
    ensures measured { IsMeasured buffer.new result }
{
    let found = parent(buffer, i);
    free(buffer, i);
    match found {
        Some(j) if level != 0 => {
            if position(buffer, j).attach_chain == 0 {
                return follow(buffer, i, j, last);
            }
            let last = settle(buffer, level - 1, j, last);
            follow(buffer, i, j, last)
        }
        _ => last,
    }
}

/// The same over all links. A glyph that isn't attached, as most, takes no call.
#[tactic(auto, using(crate::proofs::SettleLemmas::settled_still))]
#[inline(always)]
fn settle_at(buffer: &mut hb_buffer_t, i: usize, last: Measured) -> Measured
    requires inside { i < length buffer.old.items }
    requires last { IsMeasured buffer.old last }
    ensures made { buffer.new ≡ Attachment.settled Attachment.MOST_LINKS i buffer.old }
    ensures items { buffer.new.items ≡ buffer.old.items }
    ensures measured { IsMeasured buffer.new result }
{
    if position(buffer, i).attach_chain == 0 {
        return last;
    }
    settle(buffer, MOST_LINKS, i, last)
}

/// Each glyph follows the one that it is attached to. A run of marks on one base takes a step for
/// each mark.
#[tactic(auto, using(crate::proofs::SettleLemmas::each_step, crate::proofs::WayLemmas::measured_none))]
fn settle_each(buffer: &mut hb_buffer_t)
    ensures made { buffer.new ≡ Attachment.offsets_finished buffer.old }
    ensures items { buffer.new.items ≡ buffer.old.items }
{
    let mut last = Measured::none();
    for i in 0..buffer.len() {
        last = settle_at(buffer, i, last);
    }
}

/// Ends positioning: glyphs that are attached follow what they are attached to, and are attached no
/// more. A chain that goes round or out of the list ends there. Takes no memory, and refuses
/// nothing.
pub fn finish_offsets(buffer: &mut hb_buffer_t)
    ensures { Made Attachment.offsets_finished buffer.old buffer.new }
{
    settle_each(buffer);
}
