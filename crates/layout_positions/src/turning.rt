//! Cursive attachment: a glyph that gets another one to follow, and the chain that it was in, which
//! is turned round.
ghost use Rattle.std.specs.Prelude.{◌≡◌, ℕ, ◌<◌, ◌+◌, length};
ghost use Rattle.std.specs.Option.{IfSome};
ghost use Rattle.layout_positions.specs.Edits.{position_at};
ghost use Rattle.layout_positions.specs.Turning;

use crate::attachment::{CURSIVE_ATTACHED, chain, free, parent, place_at};
use crate::edits::{position, put};
use shape_buffer::wrapping::negative;
use shape_buffer::{GlyphPosition, hb_buffer_t};

/// A position put across the line.
fn across(horizontal: bool, offset: i32, position: GlyphPosition) -> GlyphPosition
    ensures { result ≡ Turning.across horizontal offset position }
{
    let mut position = position;
    if horizontal {
        position.y_offset = offset;
    } else {
        position.x_offset = offset;
    }
    position
}

fn offset_across(horizontal: bool, position: &GlyphPosition) -> i32
    ensures { result ≡ Turning.offset_across horizontal position.now }
{
    if horizontal {
        position.y_offset
    } else {
        position.x_offset
    }
}

/// A position of the glyph at place `i` that follows the one at place `j`, so far from it across
/// the line.
fn linked(
    horizontal: bool,
    i: usize,
    j: usize,
    offset: i32,
    position: GlyphPosition,
) -> GlyphPosition
    ensures { result ≡ Turning.linked horizontal i j offset position }
{
    let mut position = position;
    position.attach_chain = chain(i, j);
    position.attach_type = CURSIVE_ATTACHED;
    across(horizontal, offset, position)
}

/// The place that the glyph at place `at` followed in a cursive line, if it isn't `end`.
fn turn_next(buffer: &hb_buffer_t, end: usize, at: usize, was: GlyphPosition) -> Option<usize>
    requires { at < length buffer.now.items }
    ensures value { result
        ≡ Turning.turn_next end (record { buffer = buffer.now; at = at; was = was; links = 0 }) }
    ensures inside { IfSome result (λ j. j < length buffer.now.items) }
{
    if was.attach_type != CURSIVE_ATTACHED {
        return None;
    }
    match place_at(buffer.len(), at, was.attach_chain) {
        Some(j) if j != end => Some(j),
        _ => None,
    }
}

/// Turns the link from place `at` to place `j` round. Returns the position at `j` before.
fn turn_at(buffer: &mut hb_buffer_t, at: usize, was: GlyphPosition, j: usize) -> GlyphPosition
    ensures made { (links : ℕ) → record { buffer = buffer.new; at = j; was = result; links = links + 1 }
        ≡ Turning.turn_at (record { buffer = buffer.old; at = at; was = was; links = links }) j }
    ensures items { buffer.new.items ≡ buffer.old.items }
{
    let horizontal = buffer.direction().is_horizontal();
    let next = position(buffer, j);
    let offset = negative(offset_across(horizontal, &was));
    put(buffer, j, linked(horizontal, j, at, offset, next));
    next
}

/// Turns the chain from place `child` on round, up to place `end`. Returns how many links it turns.
#[tactic(auto, using(layout_matching::proofs::LoopLemmas::times_step, crate::proofs::TurnLemmas::turned_whole, crate::proofs::TurnLemmas::turned_still, crate::proofs::TurnLemmas::turn_on))]
fn turn(buffer: &mut hb_buffer_t, child: usize, end: usize) -> usize
    requires { child < length buffer.old.items }
    ensures made { buffer.new ≡ Turning.turned child end buffer.old }
    ensures links { result ≡ Turning.links_turned child end buffer.old }
    ensures items { buffer.new.items ≡ buffer.old.items }
{
    let mut at = child;
    let mut was = position(buffer, child);
    free(buffer, child);
    let count = buffer.len();
    for i in 0..count {
        match turn_next(buffer, end, at, was) {
            Some(j) => {
                was = turn_at(buffer, at, was, j);
                at = j;
            }
            None => return i,
        }
    }
    count
}

/// Whether the glyph at place `i` is attached to the one at place `j`.
fn follows(buffer: &hb_buffer_t, i: usize, j: usize) -> bool
    requires { i < length buffer.now.items }
    ensures { result ≡ Turning.follows i j buffer.now }
{
    match parent(buffer, i) {
        Some(there) => there == j,
        None => false,
    }
}

/// Takes the link from `parent` to `child` off, if there is one.
fn free_parent(buffer: &mut hb_buffer_t, child: usize, parent: usize)
    requires { parent < length buffer.old.items }
    ensures made { buffer.new ≡ Turning.parent_freed child parent buffer.old }
    ensures items { buffer.new.items ≡ buffer.old.items }
{
    if !follows(buffer, parent, child) {
        return;
    }
    let mut there = position(buffer, parent);
    there.attach_chain = 0;
    put(
        buffer,
        parent,
        across(buffer.direction().is_horizontal(), 0, there),
    );
}

/// Links the glyph at place `child` to the one at place `parent`.
fn link(buffer: &mut hb_buffer_t, child: usize, parent: usize, offset: i32)
    ensures made { buffer.new ≡ Turning.link_put child parent offset buffer.old }
    ensures items { buffer.new.items ≡ buffer.old.items }
{
    let horizontal = buffer.direction().is_horizontal();
    let there = position(buffer, child);
    put(
        buffer,
        child,
        linked(horizontal, child, parent, offset, there),
    );
}

/// Lets the glyph at place `child` follow the one at place `parent`, so far from it across the
/// line. The chain that `child` was in follows it from now on. Returns how many of its links were
/// turned.
pub fn attach(buffer: &mut hb_buffer_t, child: usize, parent: usize, offset: i32) -> usize
    requires child { child < length buffer.old.items }
    requires parent { parent < length buffer.old.items }
    ensures made { buffer.new ≡ Turning.attached child parent offset buffer.old }
    ensures links { result ≡ Turning.links_turned child parent buffer.old }
    ensures items { buffer.new.items ≡ buffer.old.items }
{
    let links = turn(buffer, child, parent);
    link(buffer, child, parent, offset);
    free_parent(buffer, child, parent);
    links
}
