//! Default ignorables: characters that have no look of their own, such as joiners and selectors.
//!
//! They guide shaping and are unseen in the end, unless the buffer's flags preserve them. So they
//! lose their positions once tables have placed the glyphs, and then take the look of a space; if
//! there is no such glyph, or their removal is asked for, they are deleted. One that a lookup has
//! replaced is meant to be seen and stays (The Unicode Standard, section 5.21).
ghost use Rattle.std.specs.Prelude.{◌≡◌, ◌<◌, length, slice_index_or, slice_set};
ghost use Rattle.shape_buffer.specs.Outcome.{Made};
ghost use Rattle.shape_buffer.specs.PositionWalks.{positions_mapped};
ghost use Rattle.shape_common.specs.declared.positions.GlyphPosition.{GlyphPosition as Position};
ghost use Rattle.shape_items.specs.Items.{Item, is_ignorable_item};
ghost use Rattle.shape_glyphs.specs.Ignorables;

use bitflags::Flags;
use shape_buffer::buffer::{
    BufferFlags, GlyphId, GlyphPosition, ScratchFlags, hb_buffer_t, hb_glyph_info_t,
};
use shape_buffer::interfaces::hb_font_t;
use shape_buffer::walks::update_items;

/// Whether default ignorables are hidden: the run has seen some, and the flags don't preserve them.
fn hides_ignorables(buffer: &hb_buffer_t) -> bool
    ensures { result ≡ Ignorables.hides_ignorables buffer.now }
{
    buffer
        .scratch_flags()
        .contains(ScratchFlags::HAS_DEFAULT_IGNORABLES)
        && !buffer
            .flags()
            .contains(BufferFlags::PRESERVE_DEFAULT_IGNORABLES)
}

/// Whether the flags remove default ignorables.
fn removes_ignorables(buffer: &hb_buffer_t) -> bool
    ensures { result ≡ Ignorables.removes_ignorables buffer.now }
{
    buffer
        .flags()
        .contains(BufferFlags::REMOVE_DEFAULT_IGNORABLES)
}

/// The position with its four values 0; what the glyph is attached to stays.
pub(crate) fn without_values(position: GlyphPosition) -> GlyphPosition
    ensures { result ≡ Ignorables.without_values position }
{
    GlyphPosition {
        x_advance: 0,
        y_advance: 0,
        x_offset: 0,
        y_offset: 0,
        ..position
    }
}

/// Sets the four values of the position at a place to 0 if its glyph stands for a default
/// ignorable. No other is written.
fn zero_ignorable_at(buffer: &mut hb_buffer_t, place: usize)
    requires { place < length buffer.old.items }
    ensures { (x : Item) (p : Position) → x ≡ slice_index_or buffer.old.items place x
        → p ≡ slice_index_or buffer.old.positions place p
        → buffer.new ≡ record buffer.old {
          positions = slice_set buffer.old.positions place (Ignorables.zeroed_ignorable x p);
        } }
{
    let info = &buffer.infos()[place];
    if !info._hb_glyph_info_is_default_ignorable() {
        return;
    }
    let position = buffer.positions()[place];
    buffer.set_position(place, without_values(position));
}

/// Sets the four values of default ignorables to 0.
fn zero_ignorables(buffer: &mut hb_buffer_t)
    ensures { Made (positions_mapped Ignorables.zeroed_ignorable) buffer.old buffer.new }
{
    for i in 0..buffer.len() {
        zero_ignorable_at(buffer, i);
    }
}

/// Sets the four values of default ignorables to 0, if the run has seen any, unless the flags
/// preserve or remove them. Takes no memory.
#[tactic(auto, unfolding(crate::specs::Ignorables::ignorables_zeroed))]
pub fn zero_width_default_ignorables(buffer: &mut hb_buffer_t)
    ensures { Made Ignorables.ignorables_zeroed buffer.old buffer.new }
{
    if !hides_ignorables(buffer) || removes_ignorables(buffer) {
        return;
    }
    zero_ignorables(buffer);
}

/// What is seen of default ignorables: the buffer's invisible glyph, else the glyph of U+0020.
fn unseen_glyph<F: hb_font_t>(face: &F, buffer: &hb_buffer_t) -> Option<GlyphId>
    ensures { result ≡ Ignorables.unseen_glyph (F.face face.now) buffer.now }
{
    match buffer.invisible_glyph() {
        Some(glyph) => Some(glyph),
        None => face.get_nominal_glyph(' '),
    }
}

/// The item, with the glyph if it stands for a default ignorable.
fn show_as(glyph: GlyphId, info: &hb_glyph_info_t) -> hb_glyph_info_t
    ensures { result ≡ Ignorables.shown_as glyph info.now }
{
    let mut info = *info;
    if info._hb_glyph_info_is_default_ignorable() {
        info.glyph_id = glyph.0;
    }
    info
}

/// Gives the default ignorables a glyph, or deletes them if there is none.
fn replace_or_delete(buffer: &mut hb_buffer_t, glyph: Option<GlyphId>)
    ensures { Made (Ignorables.replaced_or_deleted glyph) buffer.old buffer.new }
{
    match glyph {
        Some(glyph) => update_items(buffer, |info| show_as(glyph, info)),
        None => buffer.delete_glyphs_inplace(|info| info._hb_glyph_info_is_default_ignorable()),
    }
}

/// Hides the default ignorables, if the run has seen any, unless the flags preserve them: each
/// takes the buffer's invisible glyph, else the glyph of U+0020. They are deleted if the flags
/// remove them or there is neither glyph. Takes no memory.
#[tactic(auto, unfolding(crate::specs::Ignorables::ignorables_hidden))]
pub fn hide_default_ignorables<F: hb_font_t>(face: &F, buffer: &mut hb_buffer_t)
    ensures { Made (Ignorables.ignorables_hidden (F.face face.now)) buffer.old buffer.new }
{
    if !hides_ignorables(buffer) {
        return;
    }
    let glyph = if removes_ignorables(buffer) {
        None
    } else {
        unseen_glyph(face, buffer)
    };
    replace_or_delete(buffer, glyph);
}
