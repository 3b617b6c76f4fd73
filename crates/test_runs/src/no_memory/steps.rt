//! The steps of a run that are never refused, each made once in the order of a run, for any types
//! of a run. A step is one arm of a `match`: the proof of a function takes the longer the more
//! calls that change the buffer come one after the other, and each function takes time of its own.

use crate::comparing::{assert_same, assert_that};
use shape_buffer::buffer::{Direction, ScratchFlags, hb_buffer_t, hb_glyph_info_t};
use shape_buffer::walks::update_items;
use shape_fallback::ot_shape_fallback::{
    _hb_ot_shape_fallback_kern, _hb_ot_shape_fallback_mark_position_recategorize_marks,
    _hb_ot_shape_fallback_spaces, position_marks,
};
use shape_glyphs::advances::{clear_positions, position_default, put_advances};
use shape_glyphs::engine_calls::{
    position_finish_advances, position_finish_offsets, position_start, remove_deleted,
    substitute_start, zero_width_deleted,
};
use shape_glyphs::fallback_steps::{place_marks, place_spaces, recategorize_marks};
use shape_glyphs::finishing::reverse_backward;
use shape_glyphs::flags::propagate_flags;
use shape_glyphs::glyphs::{
    hb_synthesize_glyph_classes, map_glyphs_fast, setup_glyphs, synthesize_classes,
};
use shape_glyphs::ignorables::{hide_default_ignorables, zero_width_default_ignorables};
use shape_glyphs::selectors::deal_with_variation_selectors;
use shape_glyphs::zeroing::{zero_mark_widths_by_gdef, zero_marks_early, zero_marks_late};
use shape_pipeline::ot_shape::syllabic_clear_var;
use shape_plan::shaping_types::{PlanOf, ShapingTypes};
use shape_prepare::clusters::form_clusters;
use shape_prepare::fractions::setup_masks_fraction;
use shape_prepare::graphemes::set_unicode_props;
use shape_prepare::hook_calls::setup_masks_shaper;
use shape_prepare::masks::{initialize_masks, setup_masks};
use shape_prepare::native_direction::ensure_native_direction;
use shape_prepare::ranges::setup_masks_user;
use shape_prepare::rotation::rotate_chars;
use std::process::Abort;

/// A step.
#[derive(Clone, Copy)]
enum Step {
    InitializeMasks,
    SetUnicodeProps,
    FormClusters,
    EnsureNativeDirection,
    RotateChars,
    SetItems,
    SetupMasksFraction,
    SetupMasksShaper,
    SetupMasksUser,
    RecategorizeMarks,
    MapGlyphsFast,
    SubstituteStart,
    SynthesizeGlyphClasses,
    SynthesizeClasses,
    SetupMasks,
    SetupGlyphs,
    PositionDefault,
    ClearSyllables,
    FallBackRecategorized,
    FallBackSpaces,
    FallBackKern,
    ClearPositions,
    PutAdvances,
    PlaceSpaces,
    PositionStart,
    ZeroMarksEarly,
    ZeroMarksLate,
    ZeroMarkWidths,
    FinishAdvances,
    ZeroIgnorables,
    ZeroDeleted,
    FinishOffsets,
    PlaceMarks,
    PositionMarks,
    PropagateFlags,
    ReverseBackward,
    RemoveDeleted,
    DealWithSelectors,
    HideIgnorables,
}

const FIRST: [Step; 6] = [
    Step::InitializeMasks,
    Step::SetUnicodeProps,
    Step::FormClusters,
    Step::EnsureNativeDirection,
    Step::RotateChars,
    Step::SetItems,
];

const STEPS: [Step; 28] = [
    Step::SetupMasksFraction,
    Step::SetupMasksShaper,
    Step::SetupMasksUser,
    Step::RecategorizeMarks,
    Step::MapGlyphsFast,
    Step::SubstituteStart,
    Step::SynthesizeGlyphClasses,
    Step::SynthesizeClasses,
    Step::SetupMasks,
    Step::SetupGlyphs,
    Step::PositionDefault,
    Step::ClearSyllables,
    Step::FallBackRecategorized,
    Step::FallBackSpaces,
    Step::FallBackKern,
    Step::ClearPositions,
    Step::PutAdvances,
    Step::PlaceSpaces,
    Step::PositionStart,
    Step::ZeroMarksEarly,
    Step::ZeroMarksLate,
    Step::ZeroMarkWidths,
    Step::FinishAdvances,
    Step::ZeroIgnorables,
    Step::ZeroDeleted,
    Step::FinishOffsets,
    Step::PlaceMarks,
    Step::PositionMarks,
];

const LAST: [Step; 5] = [
    Step::PropagateFlags,
    Step::ReverseBackward,
    Step::RemoveDeleted,
    Step::DealWithSelectors,
    Step::HideIgnorables,
];

/// Makes all steps on a text of 16 items, of which four aren't shown. Fractions are those of
/// another plan, which has masks for them.
pub fn make_all<A: Abort, T: ShapingTypes, D: ShapingTypes>(
    rt: &A,
    (plan, dividing): (&PlanOf<'_, T>, &PlanOf<'_, D>),
    face: &T::Face,
    text: &mut hb_buffer_t,
) {
    make_each::<T>(rt, plan, face, text, &FIRST);
    divide::<A, D>(rt, dividing, text);
    make_each::<T>(rt, plan, face, text, &STEPS);
    assert_same(rt, text.len(), 16);
    make_each::<T>(rt, plan, face, text, &LAST);
    assert_same(rt, text.len(), 12);
}

/// Makes some steps.
fn make_each<T: ShapingTypes>(
    rt: &impl Abort,
    plan: &PlanOf<'_, T>,
    face: &T::Face,
    text: &mut hb_buffer_t,
    steps: &[Step],
) {
    for step in steps {
        make::<T>(rt, *step, plan, face, text);
    }
}

/// Makes a step up to positions.
fn make<T: ShapingTypes>(
    rt: &impl Abort,
    step: Step,
    plan: &PlanOf<'_, T>,
    face: &T::Face,
    buffer: &mut hb_buffer_t,
) {
    assert!(rt; buffer.len() <= buffer.length_limit());
    match step {
        Step::InitializeMasks => initialize_masks::<T>(plan, buffer),
        Step::SetUnicodeProps => set_unicode_props::<T::Unicode>(buffer),
        Step::EnsureNativeDirection => ensure_native_direction::<T::Unicode>(buffer),
        Step::RotateChars => rotate_chars::<T>(plan, face, buffer, Direction::RightToLeft),
        Step::SetupMasksFraction => setup_masks_fraction(plan, buffer),
        Step::SetupMasksShaper => setup_masks_shaper::<T>(plan, face, buffer),
        Step::SetupMasksUser => setup_masks_user::<T>(plan, buffer),
        Step::RecategorizeMarks => recategorize_marks::<T>(plan, face, buffer),
        Step::SubstituteStart => substitute_start::<T>(plan, face, buffer),
        Step::SynthesizeClasses => synthesize_classes(plan, buffer),
        Step::SetupMasks => setup_masks::<T>(plan, face, buffer),
        Step::SetupGlyphs => setup_glyphs::<T>(plan, face, buffer),
        Step::PositionDefault => position_default::<T>(plan, face, buffer),
        _ => place::<T>(step, plan, face, buffer),
    }
}

/// Makes a step that places glyphs.
fn place<T: ShapingTypes>(
    step: Step,
    plan: &PlanOf<'_, T>,
    face: &T::Face,
    buffer: &mut hb_buffer_t,
) {
    match step {
        Step::FallBackRecategorized => {
            _hb_ot_shape_fallback_mark_position_recategorize_marks(plan, face, buffer);
        }
        Step::FallBackSpaces => _hb_ot_shape_fallback_spaces(plan, face, buffer),
        Step::FallBackKern => _hb_ot_shape_fallback_kern(plan, face, buffer),
        Step::PutAdvances => put_advances(face, buffer),
        Step::PlaceSpaces => place_spaces::<T>(plan, face, buffer),
        Step::PositionStart => position_start::<T>(plan, face, buffer),
        Step::ZeroMarksEarly => zero_marks_early::<T>(plan, face, buffer),
        Step::ZeroMarksLate => zero_marks_late::<T>(plan, face, buffer),
        Step::FinishAdvances => position_finish_advances::<T>(plan, face, buffer),
        Step::ZeroDeleted => zero_width_deleted::<T>(plan, face, buffer),
        Step::FinishOffsets => position_finish_offsets::<T>(plan, face, buffer),
        Step::PlaceMarks => place_marks::<T>(plan, face, buffer),
        Step::PositionMarks => {
            position_marks::<T::Unicode, T::Face, _, _, _>(plan, face, buffer, true);
        }
        Step::RemoveDeleted => remove_deleted::<T>(plan, face, buffer),
        Step::HideIgnorables => hide_default_ignorables(face, buffer),
        _ => make_alone(step, buffer),
    }
}

/// Makes a step that depends on the buffer alone.
fn make_alone(step: Step, buffer: &mut hb_buffer_t) {
    match step {
        Step::FormClusters => form_clusters(buffer),
        Step::SetItems => set_items(buffer),
        Step::MapGlyphsFast => map_glyphs_fast(buffer),
        Step::SynthesizeGlyphClasses => hb_synthesize_glyph_classes(buffer),
        Step::ClearSyllables => syllabic_clear_var(buffer),
        Step::ClearPositions => clear_positions(buffer),
        Step::ZeroMarkWidths => zero_mark_widths_by_gdef(buffer, true),
        Step::ZeroIgnorables => zero_width_default_ignorables(buffer),
        Step::PropagateFlags => propagate_flags(buffer),
        Step::ReverseBackward => reverse_backward(buffer),
        _ => deal_with_variation_selectors(buffer),
    }
}

/// An item as normalising may leave it: with a glyph and a flag, and marked if it is a selector.
fn normalised(info: &hb_glyph_info_t) -> hb_glyph_info_t {
    let mut info = *info;
    info.glyph_index = match info.codepoint {
        'a' | 'b' => 1,
        '\u{301}' => 2,
        '\u{323}' => 3,
        _ => 4,
    };
    info.mask |= 1;
    let is_selector = info.codepoint == '\u{FE00}';
    info._hb_glyph_info_set_selector_mark(is_selector);
    info
}

/// Sets all items so, and each scratch flag.
fn set_items(buffer: &mut hb_buffer_t) {
    update_items(buffer, |info| normalised(info));
    buffer.set_scratch_flags(ScratchFlags(63));
}

/// Whether an item has a mask just when it is a part of a fraction: a digit, or the slash between
/// two.
fn is_divided(info: &hb_glyph_info_t, mask: u32) -> bool {
    let is_part = matches!(info.codepoint, '1' | '2' | '\u{2044}');
    (info.mask & mask != 0) == is_part
}

/// Parts of fractions, and no other items, get the features of fractions.
fn divide<A: Abort, T: ShapingTypes>(rt: &A, plan: &PlanOf<'_, T>, buffer: &mut hb_buffer_t) {
    setup_masks_fraction(plan, buffer);
    let mask = plan.frac_mask();
    for info in buffer.infos().iter() {
        assert_that(rt, is_divided(info, mask));
    }
}
