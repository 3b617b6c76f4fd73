//! Marks that lose their advances.
//!
//! A mark stands over the glyph before it and must not move the pen. Shapers say when its advance
//! goes: before the tables place it, after, or never. If no table moves marks, a mark of a forward
//! line is moved back by the advance that it loses, so that it hangs over the glyph before it; in a
//! backward line it then hangs over the glyph that comes to stand before it when the line is
//! reversed.
//!
//! The constant of the shaper that the plan uses decides when; a plan that uses none never
//! zeroes.
ghost use Rattle.std.specs.Prelude.{◌≡◌, ◌<◌, length, slice_index_or, slice_set};
ghost use Rattle.shape_items.specs.Items.{Item};
ghost use Rattle.shape_buffer.specs.Outcome.{Made};
ghost use Rattle.shape_buffer.specs.PositionWalks.{positions_mapped};
ghost use Rattle.shape_common.specs.declared.positions.GlyphPosition.{GlyphPosition as Position};
ghost use Rattle.shape_glyphs.specs.Advances.{IsExactDifference};
ghost use Rattle.shape_glyphs.specs.Zeroing;

use bitflags::Flags;
use shape_buffer::buffer::{GlyphPosition, GlyphPropsFlags, hb_buffer_t, hb_glyph_info_t};
use shape_buffer::interfaces::{hb_font_t, hb_ot_layout_t, hb_unicode_funcs_t};
use shape_buffer::passing::passed_over;
use shape_buffer::wrapping::difference;
use shape_plan::ot_shaper::{
    HB_OT_SHAPE_ZERO_WIDTH_MARKS_BY_GDEF_EARLY, HB_OT_SHAPE_ZERO_WIDTH_MARKS_BY_GDEF_LATE,
    HB_OT_SHAPE_ZERO_WIDTH_MARKS_NONE, hb_ot_shape_zero_width_marks_type_t, hb_ot_shaper_t,
};
use shape_plan::shaping_types::{Meaning, PlanOf, ShapingTypes};

/// Whether the class of a glyph has the bit of marks.
fn is_mark_glyph(info: &hb_glyph_info_t) -> bool
    ensures { result ≡ Zeroing.is_mark_glyph info.now }
{
    info._hb_glyph_info_get_glyph_class()
        .contains(GlyphPropsFlags::MARK)
}

/// The position moved back by its advances. A difference that doesn't fit wraps.
fn move_back(position: GlyphPosition) -> GlyphPosition
    ensures value { result ≡ Zeroing.moved_back position }
    ensures exact_x { IsExactDifference position.x_offset position.x_advance result.x_offset }
    ensures exact_y { IsExactDifference position.y_offset position.y_advance result.y_offset }
{
    GlyphPosition {
        x_offset: difference(position.x_offset, position.x_advance),
        y_offset: difference(position.y_offset, position.y_advance),
        ..position
    }
}

/// The position without advances.
fn without_advances(position: GlyphPosition) -> GlyphPosition
    ensures { result ≡ Zeroing.without_advances position }
{
    GlyphPosition {
        x_advance: 0,
        y_advance: 0,
        ..position
    }
}

/// Takes the advances from the glyph at a place if it is a mark, which is first moved back if it is
/// to be adjusted. No other is written.
fn zero_mark_at(buffer: &mut hb_buffer_t, place: usize, adjust: bool)
    requires { place < length buffer.old.items }
    ensures { (x : Item) (p : Position) → x ≡ slice_index_or buffer.old.items place x
        → p ≡ slice_index_or buffer.old.positions place p
        → buffer.new ≡ record buffer.old {
          positions = slice_set buffer.old.positions place (Zeroing.zeroed_mark adjust x p);
        } }
{
    let info = &buffer.infos()[place];
    if !is_mark_glyph(info) {
        return;
    }
    let position = buffer.positions()[place];
    let zeroed = if adjust {
        without_advances(move_back(position))
    } else {
        without_advances(position)
    };
    buffer.set_position(place, zeroed);
}

/// Takes the advances from the marks, which are first moved back if they are to be adjusted.
/// Inlined, since a call would cost a short word without marks more than looking for them.
#[inline(always)]
fn zero_marks(adjust: bool, buffer: &mut hb_buffer_t)
    ensures { Made (positions_mapped (Zeroing.zeroed_mark adjust)) buffer.old buffer.new }
{
    let first = passed_over(buffer.infos(), |info| is_mark_glyph(info));
    for i in first..buffer.len() {
        zero_mark_at(buffer, i, adjust);
    }
}

/// Takes the advances from the marks; if `adjust_offsets` holds and the buffer is forward, they are
/// first moved back by them. An offset that doesn't fit then wraps; one that fits is exact, by the
/// clauses `exact_x` and `exact_y` of `move_back`. Takes no memory.
#[inline(always)]
#[tactic(auto, unfolding(crate::specs::Zeroing::marks_zeroed))]
pub fn zero_mark_widths_by_gdef(buffer: &mut hb_buffer_t, adjust_offsets: bool)
    ensures { Made (Zeroing.marks_zeroed adjust_offsets) buffer.old buffer.new }
{
    let adjust = adjust_offsets && buffer.direction().is_forward();
    zero_marks(adjust, buffer);
}

/// When marks lose their advances: by the shaper that the plan uses, never if it uses none.
fn zero_width_time<T: ShapingTypes>(
    plan: &PlanOf<'_, T>,
    face: &T::Face,
) -> hb_ot_shape_zero_width_marks_type_t
    ensures { let run = ⟦<T as Meaning>⟧.run plan.now face.now in
        result ≡ Zeroing.zero_width_time run.constants run.hooks }
{
    match plan.shaper() {
        Some(_) => T::Shaper::ZERO_WIDTH_MARKS,
        None => HB_OT_SHAPE_ZERO_WIDTH_MARKS_NONE,
    }
}

/// Takes the advances from marks, if the plan's shaper says this time and the plan zeroes marks.
fn zero_marks_at<T: ShapingTypes>(
    time: hb_ot_shape_zero_width_marks_type_t,
    plan: &PlanOf<'_, T>,
    face: &T::Face,
    buffer: &mut hb_buffer_t,
)
    ensures { let run = ⟦<T as Meaning>⟧.run plan.now face.now in
        Made (Zeroing.zeroed_at time run.decisions run.constants run.hooks) buffer.old buffer.new }
{
    if plan.zero_marks() && zero_width_time::<T>(plan, face) == time {
        zero_mark_widths_by_gdef(buffer, plan.adjust_mark_positioning_when_zeroing());
    }
}

/// Takes the advances from marks before tables place them, if the plan's shaper says so and the
/// plan zeroes marks. Takes no memory.
pub fn zero_marks_early<T: ShapingTypes>(
    plan: &PlanOf<'_, T>,
    face: &T::Face,
    buffer: &mut hb_buffer_t,
)
    ensures { Made (Zeroing.zeroed_early (⟦<T as Meaning>⟧.run plan.now face.now))
        buffer.old buffer.new }
{
    let early = HB_OT_SHAPE_ZERO_WIDTH_MARKS_BY_GDEF_EARLY;
    zero_marks_at::<T>(early, plan, face, buffer);
}

/// Takes the advances from marks after tables have placed them, if the plan's shaper says so and
/// the plan zeroes marks. Takes no memory.
pub fn zero_marks_late<T: ShapingTypes>(
    plan: &PlanOf<'_, T>,
    face: &T::Face,
    buffer: &mut hb_buffer_t,
)
    ensures { Made (Zeroing.zeroed_late (⟦<T as Meaning>⟧.run plan.now face.now))
        buffer.old buffer.new }
{
    let late = HB_OT_SHAPE_ZERO_WIDTH_MARKS_BY_GDEF_LATE;
    zero_marks_at::<T>(late, plan, face, buffer);
}
