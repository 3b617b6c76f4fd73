//! What becomes of a text whose run is refused for memory, and of the same text in the buffer that
//! is handed back. That this buffer is cleared, and how, are clauses of the calls.

use crate::cases::{Case, assert_answer, cut};
use crate::comparing::{assert_same, assert_that};
use crate::printing::{append_character, append_space, printed_glyphs, printed_list};
use crate::runs::{are_alike, glyphs_of, planned, prepared_under};
use crate::steps::{first_in, spelled, text_in};
use crate::texts::add;
use shape_buffer::buffer::{ShapeError, ShapeFault, UnicodeBuffer, hb_buffer_t};
use shape_buffer::interfaces::hb_unicode_funcs_t;
use shape_pipeline::normalised_characters;
use shape_plan::shaping_types::{PlanOf, ShapingTypes};
use std::process::Abort;

/// Ends a test in which a call was refused, and made again, as the gate's script expects.
fn end_refused(rt: &impl Abort) -> ! {
    rt.panic("error: \"refused\"")
}

/// The text of a case in the buffer that a refusal for memory has left.
fn filled_again(rt: &impl Abort, case: Case<'_>, fault: ShapeFault) -> UnicodeBuffer {
    assert_same(rt, fault.cause, ShapeError::Memory);
    let mut text = fault.buffer;
    add(rt, &mut text, case.text);
    text
}

/// The glyphs of a text. If its run is refused, those of the same text in the buffer that is handed
/// back are compared.
pub fn run_again<T: ShapingTypes>(
    rt: &(impl Abort + AllocGlobal),
    by: (&T::Face, &T::Shaper),
    case: Case<'_>,
) -> String {
    match glyphs_of::<T>(rt.alloc(), by, text_in::<T::Unicode>(rt, case)) {
        Ok(glyphs) => printed_glyphs(rt, glyphs),
        Err(fault) => {
            let again = filled_again(rt, case, fault);
            let glyphs = glyphs_of::<T>(rt.alloc(), by, again).expect(rt, "refused twice");
            assert_answer(rt, case, printed_glyphs(rt, glyphs));
            end_refused(rt)
        }
    }
}

/// The characters of a key.
fn printed_key(rt: &(impl Abort + AllocGlobal), key: Vec<char>) -> String {
    let mut line = String::new(rt.alloc());
    for c in key.as_slice() {
        append_space(rt, &mut line);
        append_character(rt, &mut line, *c);
    }
    line
}

/// The key of a text under a plan.
fn key_of<T: ShapingTypes>(
    rt: &(impl Abort + AllocGlobal),
    plan: &PlanOf<'_, T>,
    face: &T::Face,
    text: UnicodeBuffer,
) -> Result<String, ShapeFault> {
    let key = normalised_characters::<T::Unicode, T::Face, T::Engine, T::Shaper>(
        rt.alloc(),
        face,
        plan,
        text,
    )?;
    Ok(printed_key(rt, key))
}

/// The key of a text. If it is refused, that of the same text in the buffer that is handed back is
/// compared.
pub fn key_again<T: ShapingTypes>(
    rt: &(impl Abort + AllocGlobal),
    (face, shaper): (&T::Face, &T::Shaper),
    case: Case<'_>,
) -> String {
    let text = text_in::<T::Unicode>(rt, case);
    let plan = planned::<T>(rt, (face, shaper), &text);
    match key_of::<T>(rt, &plan, face, text) {
        Ok(key) => key,
        Err(fault) => {
            let again = filled_again(rt, case, fault);
            let key = key_of::<T>(rt, &plan, face, again);
            assert_answer(rt, case, key.expect(rt, "refused twice"));
            end_refused(rt)
        }
    }
}

/// A text in the buffer that a refused call has left.
fn filled_with<U: hb_unicode_funcs_t>(
    rt: &impl Abort,
    left: hb_buffer_t,
    words: &str,
) -> UnicodeBuffer {
    let mut text = left.clear();
    add(rt, &mut text, words);
    text.guess_segment_properties::<U>();
    text
}

/// The items of two lists that have to be alike: those of the first are compared with what a case
/// wants.
fn printed_alike(
    rt: &(impl Abort + AllocGlobal),
    case: Case<'_>,
    (same, a, b): (bool, hb_buffer_t, hb_buffer_t),
) -> String {
    assert_that(rt, same);
    assert_answer(rt, case, printed_list(rt, a, case.wanted));
    printed_list(rt, b, case.wanted)
}

/// The list that two spellings are normalised to. If that is refused, it is compared once both are
/// filled again.
pub fn compare_again<T: ShapingTypes>(
    rt: &(impl Abort + AllocGlobal),
    by: (&T::Face, &T::Shaper),
    case: Case<'_>,
) -> String {
    let plan = planned::<T>(rt, by, &first_in::<T::Unicode>(rt, case));
    let (mut a, mut b) = spelled::<T>(rt, &plan, by.0, case);
    match are_alike::<T>(rt.alloc(), &plan, by.0, (&mut a, &mut b)) {
        Ok(same) => printed_alike(rt, case, (same, a, b)),
        Err(cause) => {
            assert_same(rt, cause, ShapeError::Memory);
            compare_filled::<T>(rt, &plan, by.0, (a, b), case)
        }
    }
}

/// Compares two spellings in the buffers that a refused call has left, and ends the test.
fn compare_filled<T: ShapingTypes>(
    rt: &(impl Abort + AllocGlobal),
    plan: &PlanOf<'_, T>,
    face: &T::Face,
    (a, b): (hb_buffer_t, hb_buffer_t),
    case: Case<'_>,
) -> String {
    let (first, second) = cut(rt, case.text, "/");
    let a = filled_with::<T::Unicode>(rt, a, first);
    let b = filled_with::<T::Unicode>(rt, b, second);
    let mut a = prepared_under::<T>(rt, plan, face, a);
    let mut b = prepared_under::<T>(rt, plan, face, b);
    let same = are_alike::<T>(rt.alloc(), plan, face, (&mut a, &mut b));
    let same = same.expect(rt, "refused twice");
    assert_answer(rt, case, printed_alike(rt, case, (same, a, b)));
    end_refused(rt)
}
