//! What becomes of the text of a case at a step of its run, for any types of a run.
//!
//! - `prepare` and `normalise` give the list.
//! - `place` gives the glyphs with their positions. `in_place` gives the glyphs and clusters that
//!   shaping leaves in a buffer, which has to run from right to left.
//! - `refuse`, `refuse_key` and `refuse_comparing` are in `refusals::steps`.
//! - `compare` says of two texts with a `/` between them whether they are normalised alike, and
//!   `premises` of a text whether it meets those of canonical form: `yes` or `no`.

use crate::cases::{Case, cut};
use crate::comparing::assert_same;
use crate::printing::{printed_glyphs, printed_list, printed_numbers};
use crate::refusals::steps::{compare_again, key_again, run_again};
use crate::runs::{
    are_alike, glyphs_under, meets_premises, normalise, planned, prepared_under, shape_in_place,
};
use crate::texts::text_of;
use shape_buffer::buffer::{Direction, UnicodeBuffer, hb_buffer_t};
use shape_buffer::interfaces::hb_unicode_funcs_t;
use shape_plan::shaping_types::{PlanOf, ShapingTypes};
use std::process::Abort;

/// What becomes of the text of a case by a face and a shaper.
pub fn answer_by<T: ShapingTypes>(
    rt: &(impl Abort + AllocGlobal),
    by: (&T::Face, &T::Shaper),
    case: Case<'_>,
) -> String {
    match case.settings.step {
        "prepare" | "normalise" | "premises" => listed::<T>(rt, by, case),
        "place" => placed::<T>(rt, by, case),
        "in_place" => in_place::<T>(rt, by, case),
        "compare" => compared::<T>(rt, by, case),
        "refuse" => run_again::<T>(rt, by, case),
        "refuse_key" => key_again::<T>(rt, by, case),
        "refuse_comparing" => compare_again::<T>(rt, by, case),
        step => rt.panic(step),
    }
}

/// The text of a case.
pub fn text_in<U: hb_unicode_funcs_t>(
    rt: &(impl Abort + AllocGlobal),
    case: Case<'_>,
) -> UnicodeBuffer {
    text_of::<U>(rt, &case.settings.text_settings, case.text)
}

/// The first one of the two texts of a case.
pub fn first_in<U: hb_unicode_funcs_t>(
    rt: &(impl Abort + AllocGlobal),
    case: Case<'_>,
) -> UnicodeBuffer {
    text_of::<U>(rt, &case.settings.text_settings, cut(rt, case.text, "/").0)
}

/// The word for a condition.
fn yes_or_no(rt: &(impl Abort + AllocGlobal), condition: bool) -> String {
    let word = if condition { "yes" } else { "no" };
    String::from_str(rt.alloc(), word).expect(rt, "error")
}

/// The list that a text is prepared as, normalised if the step is that, or whether it meets the
/// premises of canonical form.
fn listed<T: ShapingTypes>(
    rt: &(impl Abort + AllocGlobal),
    (face, shaper): (&T::Face, &T::Shaper),
    case: Case<'_>,
) -> String {
    let text = text_in::<T::Unicode>(rt, case);
    let plan = planned::<T>(rt, (face, shaper), &text);
    let mut list = prepared_under::<T>(rt, &plan, face, text);
    match case.settings.step {
        "premises" => return yes_or_no(rt, meets_premises::<T>(&plan, face, &list)),
        "normalise" => normalise::<T>(rt, &plan, face, &mut list),
        _ => {}
    }
    printed_list(rt, list, case.wanted)
}

/// The glyphs of a text with their positions, shaped under a plan of its own.
fn placed<T: ShapingTypes>(
    rt: &(impl Abort + AllocGlobal),
    (face, shaper): (&T::Face, &T::Shaper),
    case: Case<'_>,
) -> String {
    let text = text_in::<T::Unicode>(rt, case);
    let plan = planned::<T>(rt, (face, shaper), &text);
    printed_glyphs(
        rt,
        glyphs_under::<T>(rt, &plan, face, text).expect(rt, "glyphs"),
    )
}

/// The glyphs of a text that is shaped in place from right to left, once what the run leaves of its
/// buffer was compared: the direction, and no limit.
fn in_place<T: ShapingTypes>(
    rt: &(impl Abort + AllocGlobal),
    (face, shaper): (&T::Face, &T::Shaper),
    case: Case<'_>,
) -> String {
    let text = text_in::<T::Unicode>(rt, case);
    let plan = planned::<T>(rt, (face, shaper), &text);
    let mut buffer = text.into_inner();
    shape_in_place::<T>(rt, &plan, face, &mut buffer);
    assert_same(rt, buffer.direction(), Direction::RightToLeft);
    assert_same(rt, buffer.length_limit(), usize::MAX);
    printed_numbers(rt, buffer)
}

/// The two spellings of a case, as a run prepares them.
pub fn spelled<T: ShapingTypes>(
    rt: &(impl Abort + AllocGlobal),
    plan: &PlanOf<'_, T>,
    face: &T::Face,
    case: Case<'_>,
) -> (hb_buffer_t, hb_buffer_t) {
    let (first, second) = cut(rt, case.text, "/");
    let first = text_of::<T::Unicode>(rt, &case.settings.text_settings, first);
    let second = text_of::<T::Unicode>(rt, &case.settings.text_settings, second);
    (
        prepared_under::<T>(rt, plan, face, first),
        prepared_under::<T>(rt, plan, face, second),
    )
}

/// Whether the spellings of a case are normalised alike, under a plan for the first one.
fn compared<T: ShapingTypes>(
    rt: &(impl Abort + AllocGlobal),
    by: (&T::Face, &T::Shaper),
    case: Case<'_>,
) -> String {
    let plan = planned::<T>(rt, by, &first_in::<T::Unicode>(rt, case));
    let (mut a, mut b) = spelled::<T>(rt, &plan, by.0, case);
    let alike = are_alike::<T>(rt.alloc(), &plan, by.0, (&mut a, &mut b));
    yes_or_no(rt, alike.expect(rt, "compared"))
}
