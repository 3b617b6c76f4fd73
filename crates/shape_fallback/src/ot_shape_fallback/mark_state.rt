//! Placing the marks of a base, one after the other.
//!
//! A mark stands beyond the marks of its ccc before it, so each passes on the base's extents, grown
//! by it. A mark of another ccc begins at the base's own extents again, and one of another
//! component of a ligature at that component's. The pen has passed the base when it comes to the
//! marks, so in forward text each is moved back by the advances since.
//!
//! Components run to the right by the plan's direction if that is horizontal, else by its
//! script's. None and Invalid count as left to right, a vertical script's direction doesn't.
ghost use Rattle.std.specs.Prelude.{◌≡◌, pos, ◌<◌};
ghost use Rattle.shape_fallback.specs.MarkState as mark_state_rules;

use crate::ot_shape_fallback::one_mark::{PlacedMark, Surroundings, position_mark};
use shape_buffer::buffer::{GlyphId, GlyphPosition, hb_glyph_info_t};
use shape_buffer::interfaces::{hb_font_t, hb_glyph_extents_t};
use shape_buffer::wrapping::{difference, product, quotient, sum};

/// Stands for the last ccc if no mark of the component has been placed yet.
pub const NO_LAST_CCC: u8 = 255;

/// What the marks of a base are placed by.
#[derive(Clone, Copy, Debug)]
pub struct Base {
    pub surroundings: Surroundings,
    /// Whether the components of a ligature run to the right.
    pub left_to_right: bool,
    pub ligature_id: u8,
    pub number_of_components: u8,
    pub extents: hb_glyph_extents_t,
}

/// Where the walk over the marks of a base stands.
#[derive(Clone, Copy, Debug)]
pub struct MarkState {
    /// The last component, at first -1.
    pub component: i32,
    pub component_extents: hb_glyph_extents_t,
    /// The last ccc, at first [`NO_LAST_CCC`].
    pub ccc: u8,
    pub extents: hb_glyph_extents_t,
    /// The running offset.
    pub x_offset: i32,
    pub y_offset: i32,
}

/// A mark's position, and the state after it.
#[derive(Clone, Copy, Debug)]
pub struct MarkStep {
    pub position: GlyphPosition,
    pub state: MarkState,
}

/// The component of the base that a mark belongs to.
#[tactic(auto, using(shape_common::proofs::WrappingLemmas::kept_bits), unfolding(crate::specs::MarkState::component_of))]
fn mark_component(base: &Base, info: &hb_glyph_info_t) -> i32
    ensures { result ≡ mark_state_rules.component_of base.now info.now }
{
    let component = difference(i32::from(info._hb_glyph_info_get_ligature_component()), 1);
    if base.ligature_id == 0
        || base.ligature_id != info._hb_glyph_info_get_ligature_id()
        || component >= i32::from(base.number_of_components)
    {
        return difference(i32::from(base.number_of_components), 1);
    }
    component
}

/// Which part of the base from its left a component is.
#[tactic(auto, using(shape_common::proofs::WrappingLemmas::kept_bits), unfolding(crate::specs::MarkState::place_of))]
fn place_of_component(base: &Base, component: i32) -> i32
    ensures { result ≡ mark_state_rules.place_of base.now component }
{
    if base.left_to_right {
        return component;
    }
    difference(
        difference(i32::from(base.number_of_components), 1),
        component,
    )
}

/// The extents of a component.
#[tactic(auto, using(shape_common::proofs::WrappingLemmas::kept_bits), unfolding(crate::specs::MarkState::component_extents))]
fn component_extents(base: &Base, component: i32) -> hb_glyph_extents_t
    requires { 0 < base.now.number_of_components }
    ensures { result ≡ mark_state_rules.component_extents base.now component }
{
    let n = i32::from(base.number_of_components);
    let mut extents = base.extents;
    let before = quotient(
        product(place_of_component(base, component), extents.width),
        n,
    );
    extents.x_bearing = sum(extents.x_bearing, before);
    extents.width = quotient(extents.width, n);
    extents
}

/// Goes to the component of a mark.
#[tactic(auto, using(shape_common::proofs::WrappingLemmas::kept_bits), unfolding(crate::specs::MarkState::at_component))]
fn at_component(base: &Base, info: &hb_glyph_info_t, state: &mut MarkState)
    requires { 0 < base.now.number_of_components }
    ensures { state.new ≡ mark_state_rules.at_component base.now info.now state.old }
{
    let component = mark_component(base, info);
    if component == state.component {
        return;
    }
    state.component_extents = component_extents(base, component);
    state.component = component;
    state.ccc = NO_LAST_CCC;
}

/// The same, if the base has several components.
#[tactic(auto, using(shape_common::proofs::WrappingLemmas::kept_bits), unfolding(crate::specs::MarkState::with_component))]
fn with_component(base: &Base, info: &hb_glyph_info_t, state: &mut MarkState)
    ensures { state.new ≡ mark_state_rules.with_component base.now info.now state.old }
{
    if base.number_of_components > 1 {
        at_component(base, info, state);
    }
}

/// The state at a mark of this ccc: another ccc than the last begins at the component's extents
/// again.
#[tactic(auto, using(shape_common::proofs::WrappingLemmas::kept_bits), unfolding(crate::specs::MarkState::at_ccc))]
fn at_ccc(ccc: u8, state: &mut MarkState)
    ensures { state.new ≡ mark_state_rules.at_ccc ccc state.old }
{
    if ccc == state.ccc {
        return;
    }
    state.ccc = ccc;
    state.extents = state.component_extents;
}

/// Moves past a mark without a ccc.
#[tactic(auto, using(shape_common::proofs::WrappingLemmas::kept_bits), unfolding(crate::specs::MarkState::moved_past))]
fn move_past(forward: bool, position: GlyphPosition, state: &mut MarkState)
    ensures { state.new ≡ mark_state_rules.moved_past forward position state.old }
{
    if forward {
        state.x_offset = difference(state.x_offset, position.x_advance);
        state.y_offset = difference(state.y_offset, position.y_advance);
        return;
    }
    state.x_offset = sum(state.x_offset, position.x_advance);
    state.y_offset = sum(state.y_offset, position.y_advance);
}

/// A position without advances, moved by the running offset.
#[tactic(auto, using(shape_common::proofs::WrappingLemmas::kept_bits), unfolding(crate::specs::MarkState::moved))]
fn moved(mut position: GlyphPosition, state: &MarkState) -> GlyphPosition
    ensures { result ≡ mark_state_rules.moved position state.now }
{
    position.x_advance = 0;
    position.y_advance = 0;
    position.x_offset = sum(position.x_offset, state.x_offset);
    position.y_offset = sum(position.y_offset, state.y_offset);
    position
}

/// Places a mark of a ccc in the state that it is placed in.
#[tactic(auto, using(shape_common::proofs::WrappingLemmas::kept_bits), unfolding(crate::specs::MarkState::place_in))]
fn place_in<F: hb_font_t>(face: &F, base: &Base, info: &hb_glyph_info_t, step: &mut MarkStep)
    ensures { step.new
        ≡ mark_state_rules.place_in
        (F.face face.now) base.now step.old.state info.now step.old.position }
{
    let placed = position_mark(
        face,
        base.surroundings,
        GlyphId(info.glyph_id),
        info._hb_glyph_info_get_modified_combining_class(),
        PlacedMark {
            position: step.position,
            base: step.state.extents,
        },
    );
    step.position = moved(placed.position, &step.state);
    step.state.extents = placed.base;
}

/// Places a mark of a base, or moves past it. The step comes with the mark's position and the state
/// before it.
#[tactic(auto, using(shape_common::proofs::WrappingLemmas::kept_bits), unfolding(crate::specs::MarkState::place_mark))]
pub fn place_mark<F: hb_font_t>(face: &F, base: &Base, info: &hb_glyph_info_t, step: &mut MarkStep)
    ensures { step.new
        ≡ mark_state_rules.place_mark
        (F.face face.now) base.now step.old.state info.now step.old.position }
{
    let ccc = info._hb_glyph_info_get_modified_combining_class();
    if ccc == 0 {
        move_past(base.surroundings.forward, step.position, &mut step.state);
        return;
    }
    with_component(base, info, &mut step.state);
    at_ccc(ccc, &mut step.state);
    place_in(face, base, info, step);
}
