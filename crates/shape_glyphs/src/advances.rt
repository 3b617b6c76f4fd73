//! Positions before any table: zeros, then the advances and origins that the face returns.
//!
//! A glyph is drawn at its offset from the pen, and the pen then moves on by its advance. Faces
//! measure from the origin of horizontal lines, so along a vertical line each glyph is first moved
//! back by where its origin of vertical lines lies. Positions start at zeros whatever they were,
//! since a lookup or a hook may have left others.
ghost use Rattle.std.specs.Prelude.{◌≡◌, ◌<◌, true, false, length, slice_index_or, slice_set};
ghost use Rattle.shape_items.specs.Items.{Item};
ghost use Rattle.shape_common.specs.declared.positions.GlyphPosition.{GlyphPosition as Position};
ghost use Rattle.shape_buffer.specs.PositionWalks.{positions_mapped};
ghost use Rattle.shape_buffer.specs.Outcome.{IsWithinLimit, Made, Ran};
ghost use Rattle.shape_glyphs.specs.Advances;
ghost use Rattle.shape_glyphs.specs.Steps.{advance_steps};

use shape_buffer::buffer::{GlyphId, GlyphPosition, hb_buffer_t, hb_glyph_info_t};
use shape_buffer::interfaces::{hb_font_t, hb_ot_layout_t, hb_unicode_funcs_t};
use shape_buffer::position_walks::update_positions;
use shape_buffer::wrapping::difference;
use shape_plan::ot_shaper::hb_ot_shaper_t;
use shape_plan::shaping_types::{Meaning, PlanOf, ShapingTypes};

/// The position of a glyph in a line that isn't horizontal, in units of the face: its advance along
/// a vertical line, and offsets that have lost the origin of vertical lines. A difference that
/// doesn't fit wraps.
fn vertical_position<F: hb_font_t>(
    face: &F,
    info: &hb_glyph_info_t,
    position: GlyphPosition,
) -> GlyphPosition
    ensures value { result ≡ Advances.advanced_position
        (F.face face.now) false info.now position }
    ensures exact_x { Advances.IsExactDifference position.x_offset
        ((F.face face.now).h_origin (Advances.glyph_of info.now)) result.x_offset }
    ensures exact_y { Advances.IsExactDifference position.y_offset
        ((F.face face.now).v_origin (Advances.glyph_of info.now)) result.y_offset }
{
    let glyph = GlyphId(info.glyph_id);
    GlyphPosition {
        y_advance: face.glyph_v_advance(glyph),
        x_offset: difference(position.x_offset, face.glyph_h_origin(glyph)),
        y_offset: difference(position.y_offset, face.glyph_v_origin(glyph)),
        ..position
    }
}

/// Gives the glyph at a place its advance along a horizontal line. The face is asked before the
/// position is read: compiled, only the advance is written then.
fn put_h_advance<F: hb_font_t>(face: &F, buffer: &mut hb_buffer_t, place: usize)
    requires { place < length buffer.old.items }
    ensures { (x : Item) (p : Position) → x ≡ slice_index_or buffer.old.items place x
        → p ≡ slice_index_or buffer.old.positions place p
        → buffer.new ≡ record buffer.old {
          positions = slice_set buffer.old.positions place
              (Advances.advanced_position (F.face face.now) true x p);
        } }
{
    let x_advance = face.glyph_h_advance(GlyphId(buffer.infos()[place].glyph_id));
    let position = buffer.positions()[place];
    buffer.set_position(
        place,
        GlyphPosition {
            x_advance,
            ..position
        },
    );
}

/// Gives each glyph its advance along a horizontal line.
fn put_h_advances<F: hb_font_t>(face: &F, buffer: &mut hb_buffer_t)
    ensures { Made (positions_mapped (Advances.advanced_position (F.face face.now) true))
        buffer.old buffer.new }
{
    for i in 0..buffer.len() {
        put_h_advance(face, buffer, i);
    }
}

/// Sets all six numbers of each position to 0. Takes no memory.
pub fn clear_positions(buffer: &mut hb_buffer_t)
    ensures { Made Advances.positions_cleared buffer.old buffer.new }
{
    if buffer.positions().is_empty() {
        return;
    }
    buffer.clear_positions();
}

/// Gives each glyph its advance, and in lines that aren't horizontal its origin, in units of the
/// face. An offset that doesn't fit wraps; one that fits is the exact difference, by the clauses
/// `exact_x` and `exact_y` of `vertical_position`. Takes no memory.
#[tactic(auto, unfolding(crate::specs::Advances::advanced))]
pub fn put_advances<F: hb_font_t>(face: &F, buffer: &mut hb_buffer_t)
    ensures { Made (Advances.advanced (F.face face.now)) buffer.old buffer.new }
{
    if buffer.direction().is_horizontal() {
        put_h_advances(face, buffer);
    } else {
        update_positions(
            buffer,
            |info, position| vertical_position(face, info, position),
        );
    }
}

/// Makes the positions anew, by the face alone: the first two steps of positioning, neither of
/// which is ever refused. Offsets are exact if they fit, as `put_advances` has them. Fallback
/// spaces come after. Takes no memory.
pub fn position_default<T: ShapingTypes>(
    plan: &PlanOf<'_, T>,
    face: &T::Face,
    buffer: &mut hb_buffer_t,
)
    requires { IsWithinLimit buffer.old }
    ensures { Ran (advance_steps (⟦<T as Meaning>⟧.run plan.now face.now))
        buffer.old buffer.new }
{
    clear_positions(buffer);
    put_advances(face, buffer);
}
