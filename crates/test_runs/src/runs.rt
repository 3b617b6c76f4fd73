//! The pipeline's calls, each in a function of its own without a contract. The proof of a function
//! carries what its calls promise to its end: so the promises of one call end here, and tests make
//! runs of many steps of these functions.
//!
//! A growth that is refused ends a test with `error: ` and the cause, as the gate's script expects.

use shape_buffer::buffer::{
    Direction, GlyphBuffer, Script, ShapeError, ShapeFault, UnicodeBuffer, hb_buffer_t,
};
use shape_pipeline::ot_shape::{hb_ot_shape_context_t, prepare_text, shape_internal};
use shape_pipeline::ot_shape_normalize::{
    _hb_ot_shape_normalize, meets_canonical_premises, normalized_equal,
};
use shape_pipeline::ot_shape_plan::hb_ot_shape_plan_t;
use shape_pipeline::{shape, shape_with_plan};
use shape_plan::shaping_types::{PlanOf, ShapingTypes};
use std::alloc::Global;
use std::process::Abort;

/// A plan for texts of a direction and a script.
pub fn plan_for<'a, T: ShapingTypes>(
    rt: &(impl Abort + AllocGlobal),
    (face, shaper): (&'a T::Face, &'a T::Shaper),
    (direction, script): (Direction, Option<Script>),
) -> PlanOf<'a, T> {
    assert!(rt; direction != Direction::Invalid);
    let alloc = rt.alloc();
    hb_ot_shape_plan_t::new::<T::Unicode, T::Face, T::Engine>(
        alloc,
        face,
        shaper,
        direction,
        script,
        None,
        &[],
    ).expect(rt, "error")
}

/// The plan for a text.
pub fn planned<'a, T: ShapingTypes>(
    rt: &(impl Abort + AllocGlobal),
    by: (&'a T::Face, &'a T::Shaper),
    text: &UnicodeBuffer,
) -> PlanOf<'a, T> {
    plan_for::<T>(rt, by, (text.direction(), text.script()))
}

/// Prepares the text of a buffer.
pub fn prepare<T: ShapingTypes>(
    rt: &(impl Abort + AllocGlobal),
    plan: &PlanOf<'_, T>,
    face: &T::Face,
    buffer: &mut hb_buffer_t,
) {
    let target_direction = buffer.direction();
    assert!(rt; target_direction != Direction::Invalid);
    let mut ctx = hb_ot_shape_context_t {
        plan,
        face,
        buffer,
        target_direction,
    };
    prepare_text::<T::Unicode, T::Face, T::Engine, T::Shaper>(rt.alloc(), &mut ctx).expect(
        rt, "error",
    );
}

/// A text as a run prepares it under a plan.
pub fn prepared_under<T: ShapingTypes>(
    rt: &(impl Abort + AllocGlobal),
    plan: &PlanOf<'_, T>,
    face: &T::Face,
    text: UnicodeBuffer,
) -> hb_buffer_t {
    let mut list = text.into_inner();
    prepare::<T>(rt, plan, face, &mut list);
    list
}

/// Normalises the list of a buffer.
pub fn normalise<T: ShapingTypes>(
    rt: &(impl Abort + AllocGlobal),
    plan: &PlanOf<'_, T>,
    face: &T::Face,
    buffer: &mut hb_buffer_t,
) {
    _hb_ot_shape_normalize::<T::Unicode, T::Face, T::Engine, T::Shaper>(
        rt.alloc(),
        plan,
        buffer,
        face,
    ).expect(rt, "error");
}

/// Shapes the text of a buffer in place.
pub fn shape_in_place<T: ShapingTypes>(
    rt: &(impl Abort + AllocGlobal),
    plan: &PlanOf<'_, T>,
    face: &T::Face,
    buffer: &mut hb_buffer_t,
) {
    let target_direction = buffer.direction();
    assert!(rt; target_direction != Direction::Invalid);
    let mut ctx = hb_ot_shape_context_t {
        plan,
        face,
        buffer,
        target_direction,
    };
    shape_internal::<T::Unicode, T::Face, T::Engine, T::Shaper>(rt.alloc(), &mut ctx).expect(
        rt, "error",
    );
}

/// The glyphs of a text under a plan.
pub fn glyphs_under<T: ShapingTypes>(
    rt: &(impl Abort + AllocGlobal),
    plan: &PlanOf<'_, T>,
    face: &T::Face,
    text: UnicodeBuffer,
) -> Result<GlyphBuffer, ShapeFault> {
    assert!(rt; plan.fits::<T::Unicode>(&text));
    shape_with_plan::<T::Unicode, T::Face, T::Engine, T::Shaper>(rt.alloc(), face, plan, text)
}

/// The glyphs of a text, planned and shaped.
pub fn glyphs_of<T: ShapingTypes>(
    alloc: Global,
    (face, shaper): (&T::Face, &T::Shaper),
    text: UnicodeBuffer,
) -> Result<GlyphBuffer, ShapeFault> {
    shape::<T::Unicode, T::Face, T::Engine, T::Shaper>(alloc, face, shaper, &[], text)
}

/// Whether two buffers are normalised alike.
pub fn are_alike<T: ShapingTypes>(
    alloc: Global,
    plan: &PlanOf<'_, T>,
    face: &T::Face,
    (a, b): (&mut hb_buffer_t, &mut hb_buffer_t),
) -> Result<bool, ShapeError> {
    normalized_equal::<T::Unicode, T::Face, T::Engine, T::Shaper>(alloc, plan, face, a, b)
}

/// Whether a prepared buffer meets the premises of canonical form.
pub fn meets_premises<T: ShapingTypes>(
    plan: &PlanOf<'_, T>,
    face: &T::Face,
    buffer: &hb_buffer_t,
) -> bool {
    meets_canonical_premises::<T::Unicode, T::Face, T::Engine, T::Shaper>(plan, face, buffer)
}
