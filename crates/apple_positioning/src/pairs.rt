//! Kerning of a run by a subtable of pairs: formats 0, 2 and 6 of `kerx`, and those of `kern` that
//! move glyphs across the line.
//!
//! Each glyph for which kerning is on is moved apart from the next one for which it is, if only
//! marks and default ignorables stand between them. Half of their value goes to each of the two;
//! a subtable that moves glyphs across the line puts the second one where the value says.
ghost use Rattle.std.specs.Prelude.{◌≡◌, ◌+◌, ◌<◌, length};
ghost use Rattle.std.specs.Option.{IfSome};
ghost use Rattle.kern_table.specs.Walk;
ghost use Rattle.shape_items.specs.Buffer.{limit_of};
ghost use Rattle.apple_positioning.specs.Pairs as pair_rules;
ghost use Rattle.apple_positioning.specs.Runs.{source_of};

use crate::runs::{Kerning, next_place, note_attachment};
use kern_table::walk::{is_skipped, move_both, move_on};
use shape_buffer::buffer::{GlyphPosition, hb_buffer_t};
use shape_buffer::wrapping::difference;
use shape_font::metrics::half_below;

/// A position that is put across the line.
fn shifted(horizontal: bool, by: i32, position: GlyphPosition) -> GlyphPosition
    ensures { result ≡ pair_rules.shifted horizontal by position }
{
    let mut position = position;
    if horizontal {
        position.y_offset = by;
    } else {
        position.x_offset = by;
    }
    position
}

/// A value at the size of the font, as a number along lines of a kind, whatever it moves.
fn scaled(kerning: &Kerning<'_>, horizontal: bool, value: i32) -> i32
    ensures { result ≡ pair_rules.scaled (source_of kerning.now) horizontal value }
{
    if horizontal {
        kerning.to_right(value)
    } else {
        kerning.upwards(value)
    }
}

/// Shares a value out to two glyphs along the line.
fn space_pair(buffer: &mut hb_buffer_t, i: usize, j: usize, by: i32)
    requires after { i < j }
    requires inside { j < length buffer.old.items }
    ensures { buffer.new ≡ pair_rules.pair_spaced i j by buffer.old }
{
    let along = buffer.direction().is_horizontal();
    let (first, second) = (half_below(by), difference(by, half_below(by)));
    move_on(buffer, i, along, first);
    move_both(buffer, j, along, second);
}

/// Puts a glyph across the line.
fn shift(buffer: &mut hb_buffer_t, j: usize, by: i32)
    requires { j < length buffer.old.items }
    ensures { buffer.new ≡ pair_rules.glyph_shifted j by buffer.old }
{
    let along = buffer.direction().is_horizontal();
    let position = shifted(along, by, buffer.positions()[j]);
    buffer.set_position(j, position);
    note_attachment(buffer);
}

/// Moves two glyphs along the line, or the second one across it.
fn put_pair(across: bool, buffer: &mut hb_buffer_t, i: usize, j: usize, by: i32)
    requires after { i < j }
    requires inside { j < length buffer.old.items }
    ensures { buffer.new ≡ pair_rules.pair_put across i j by buffer.old }
{
    if across {
        shift(buffer, j, by);
    } else {
        space_pair(buffer, i, j, by);
    }
}

/// Moves two glyphs by a value. What lies between them is unsafe to break, if it isn't 0.
#[tactic(auto, using(crate::proofs::PairLemmas::length_pair_put))]
fn put_value(kerning: &Kerning<'_>, buffer: &mut hb_buffer_t, i: usize, j: usize, value: i32)
    requires after { i < j }
    requires inside { j < length buffer.old.items }
    ensures { buffer.new ≡ pair_rules.pair_moved (source_of kerning.now) i j value buffer.old }
{
    if value == 0 {
        return;
    }
    let by = scaled(kerning, buffer.direction().is_horizontal(), value);
    let header = kerning.subtable.header();
    put_pair(header.is_cross_stream, buffer, i, j, by);
    let end = next_place(buffer.len(), j);
    buffer.unsafe_to_break(i, end);
}

/// Moves two glyphs by their value. The number of items and the limit stay.
#[tactic(auto, using(crate::proofs::PairLemmas::length_pair_moved, crate::proofs::PairLemmas::limit_pair_moved))]
fn kern_pair(kerning: &Kerning<'_>, buffer: &mut hb_buffer_t, i: usize, j: usize)
    requires after { i < j }
    requires inside { j < length buffer.old.items }
    ensures made { buffer.new ≡ pair_rules.pair_kerned (source_of kerning.now) i j buffer.old }
    ensures len { length buffer.new.items ≡ length buffer.old.items }
    ensures limit { limit_of buffer.new ≡ limit_of buffer.old }
{
    let (left, right) = (buffer.infos()[i].glyph_id, buffer.infos()[j].glyph_id);
    let value = kerning.subtable.kerning(left, right);
    put_value(kerning, buffer, i, j, value);
}

/// Kerns glyph `j` with the one that waits at its left, if kerning is on for it and it isn't
/// skipped. Returns which one waits after it.
fn kern_at(
    kerning: &Kerning<'_>,
    buffer: &mut hb_buffer_t,
    j: usize,
    left: Option<usize>,
) -> Option<usize>
    requires inside { j < length buffer.old.items }
    requires after { IfSome left (λ i. i < j) }
    ensures made { buffer.new ≡ pair_rules.kerned_at (source_of kerning.now) j left buffer.old }
    ensures waits { result ≡ Walk.left_after kerning.now.mask j left buffer.old.items }
    ensures before { IfSome result (λ i. i < j + 1) }
    ensures len { length buffer.new.items ≡ length buffer.old.items }
    ensures limit { limit_of buffer.new ≡ limit_of buffer.old }
{
    let item = buffer.infos()[j];
    if left.is_some() && is_skipped(&item) {
        return left;
    }
    if item.mask & kerning.mask == 0 {
        return None;
    }
    if let Some(i) = left {
        kern_pair(kerning, buffer, i, j);
    }
    Some(j)
}

/// Kerns a run from its first glyph to its last.
#[tactic(auto, unfolding(crate::specs::Pairs::kerned), using(kern_table::specs::CountLaws::length_concat, kern_table::specs::CountLaws::limit_concat, crate::proofs::PairLemmas::kerned_to_next_buffer, crate::proofs::PairLemmas::kerned_to_next_left))]
fn kern_each(kerning: &Kerning<'_>, buffer: &mut hb_buffer_t)
    ensures made { buffer.new ≡ pair_rules.kerned (source_of kerning.now) buffer.old }
    ensures len { length buffer.new.items ≡ length buffer.old.items }
    ensures limit { limit_of buffer.new ≡ limit_of buffer.old }
{
    buffer.unsafe_to_concat(0, buffer.len());
    let mut left = None;
    for j in 0..buffer.len() {
        left = kern_at(kerning, buffer, j, left);
    }
}

/// Kerns a run by a subtable of pairs, from the first glyph of the list to the last. Nothing is done
/// if kerning is off everywhere, or if the subtable says that the glyphs are processed from the last
/// to the first.
pub(crate) fn kern_run(kerning: &Kerning<'_>, buffer: &mut hb_buffer_t)
    ensures made { buffer.new ≡ pair_rules.run_kerned (source_of kerning.now) buffer.old }
    ensures len { length buffer.new.items ≡ length buffer.old.items }
    ensures limit { limit_of buffer.new ≡ limit_of buffer.old }
{
    if kerning.mask == 0 || kerning.subtable.header().is_backward {
        return;
    }
    kern_each(kerning, buffer);
}
