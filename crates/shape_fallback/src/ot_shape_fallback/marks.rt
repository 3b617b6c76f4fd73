//! The marks of one base, one after the other.
//!
//! A base with extents hands each mark the state that the marks before it have left; one without
//! only takes the advances of its nonspacing marks.
ghost use Rattle.std.specs.Prelude.{◌≡◌, ◌≤◌, length};
ghost use Rattle.shape_buffer.specs.PositionWalks.{positions_over};
ghost use Rattle.shape_fallback.specs.Marks;
ghost use Rattle.shape_fallback.specs.Positions.{with_positions};

use crate::ot_shape_fallback::mark_state::{Base, MarkState, MarkStep, NO_LAST_CCC, place_mark};
use crate::ot_shape_fallback::one_mark::Surroundings;
use crate::ot_shape_fallback::recategorize::is_nonspacing;
use shape_buffer::buffer::{GlyphId, GlyphPosition, hb_buffer_t, hb_glyph_info_t};
use shape_buffer::interfaces::{hb_font_t, hb_glyph_extents_t};
use shape_buffer::wrapping::{difference, negative, sum};

/// The frame that marks are placed in: what their positions depend on, beside the face.
#[derive(Clone, Copy, Debug)]
pub struct MarkFrame {
    pub surroundings: Surroundings,
    pub left_to_right: bool,
    pub adjust: bool,
}

/// A position without its advances.
#[tactic(auto, using(shape_common::proofs::WrappingLemmas::kept_bits), unfolding(crate::specs::Marks::zeroed_position))]
pub(crate) fn zeroed_position(adjust: bool, mut position: GlyphPosition) -> GlyphPosition
    ensures { result ≡ Marks.zeroed_position adjust position }
{
    if adjust {
        position.x_offset = difference(position.x_offset, position.x_advance);
        position.y_offset = difference(position.y_offset, position.y_advance);
        position.x_advance = 0;
        position.y_advance = 0;
        return position;
    }
    position.x_advance = 0;
    position.y_advance = 0;
    position
}

/// Places the marks of a base from a place up to another.
pub(crate) fn place_marks_of_base<F: hb_font_t>(
    face: &F,
    base: Base,
    first: MarkState,
    buffer: &mut hb_buffer_t,
    from: usize,
    to: usize,
)
    requires ordered { from ≤ to }
    requires within { to ≤ length buffer.old.items }
    ensures { buffer.new
        ≡ with_positions (Marks.marks_placed (F.face face.now) base first) from to buffer.old }
{
    let mut step = MarkStep {
        position: GlyphPosition::zero(),
        state: first,
    };
    for i in from..to {
        step.position = buffer.positions()[i];
        place_mark(face, &base, &buffer.infos()[i], &mut step);
        buffer.set_position(i, step.position);
    }
}

/// A nonspacing mark loses its advances.
#[tactic(auto, unfolding(crate::specs::Marks::zeroed))]
fn zeroed(adjust: bool, info: &hb_glyph_info_t, position: GlyphPosition) -> GlyphPosition
    ensures { result ≡ Marks.zeroed adjust info.now position }
{
    if is_nonspacing(info) {
        return zeroed_position(adjust, position);
    }
    position
}

/// Takes the advances of nonspacing marks from a place up to another.
pub(crate) fn zero_marks(adjust: bool, buffer: &mut hb_buffer_t, from: usize, to: usize)
    requires ordered { from ≤ to }
    requires within { to ≤ length buffer.old.items }
    ensures { buffer.new ≡ with_positions (positions_over
        (Marks.zeroed adjust)) from to buffer.old }
{
    for i in from..to {
        let info = buffer.infos()[i];
        let position = buffer.positions()[i];
        let zeroed = zeroed(adjust, &info, position);
        buffer.set_position(i, zeroed);
    }
}

/// A base with these extents of its glyph.
#[tactic(auto, using(shape_common::proofs::WrappingLemmas::kept_bits), unfolding(crate::specs::Marks::base_of))]
pub(crate) fn make_base<F: hb_font_t>(
    face: &F,
    frame: MarkFrame,
    info: &hb_glyph_info_t,
    position: GlyphPosition,
    mut extents: hb_glyph_extents_t,
) -> Base
    ensures { result ≡ Marks.base_of (F.face face.now) frame info.now position extents }
{
    extents.x_bearing = 0;
    extents.y_bearing = sum(extents.y_bearing, position.y_offset);
    extents.width = face.glyph_h_advance(GlyphId(info.glyph_id));
    Base {
        surroundings: frame.surroundings,
        left_to_right: frame.left_to_right,
        ligature_id: info._hb_glyph_info_get_ligature_id(),
        number_of_components: info._hb_glyph_info_get_number_of_components(),
        extents,
    }
}

/// The state at the first mark.
#[tactic(auto, using(shape_common::proofs::WrappingLemmas::kept_bits), unfolding(crate::specs::Marks::first_state))]
pub(crate) fn first_state(base: Base, position: GlyphPosition) -> MarkState
    ensures { result ≡ Marks.first_state base position }
{
    let mut state = MarkState {
        component: -1,
        component_extents: base.extents,
        ccc: NO_LAST_CCC,
        extents: base.extents,
        x_offset: 0,
        y_offset: 0,
    };
    if base.surroundings.forward {
        state.x_offset = negative(position.x_advance);
        state.y_offset = negative(position.y_advance);
        return state;
    }
    state
}
