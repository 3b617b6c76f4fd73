//! Texts over the whole database of Unicode, by each shaper that needs no tables.

use crate::cases::{Case, Fixture};
use crate::faces::{characters_of, face_of, face_over};
use crate::steps::answer_by;
use shape_buffer::interfaces::{NoLookups, hb_font_t};
use shape_pipeline::ot_shaper::{
    ComposedDiacritics, ComposedDiacriticsNoShortCircuit, DEFAULT_SHAPER, Decomposed, Preference,
    Preferring, Shortest, hb_ot_shaper_t,
};
use shape_plan::shaping_types::TypesOf;
use shape_unicode::UnicodeDatabase;
use std::process::Abort;
use test_fixtures::{AbsorbingShaper, ChangingShaper, SwappingShaper};

/// Faces of some characters. The shapers are `default`, those with a preference for a mode
/// (`decomposed`, `shortest`, `composed_diacritics`, and `recomposed`, which composes again
/// whatever the face shows), and those with hooks (`swapping`, `absorbing` and `changing`). The
/// steps are those of `steps`.
pub struct Lists;

impl Fixture for Lists {
    fn answer(rt: &(impl Abort + AllocGlobal), case: Case<'_>) -> String {
        let characters = characters_of(rt, case.settings.face);
        answer_over(
            rt,
            &face_over(case.settings.face, characters.as_slice()),
            case,
        )
    }
}

/// Faces with widths, and the default shaper.
pub struct Widths;

impl Fixture for Widths {
    fn answer(rt: &(impl Abort + AllocGlobal), case: Case<'_>) -> String {
        answer_by_default(rt, &face_of(rt, case.settings), case)
    }
}

/// The answer over a face.
fn answer_over<F: hb_font_t>(rt: &(impl Abort + AllocGlobal), face: &F, case: Case<'_>) -> String {
    match case.settings.shaper {
        "default" => answer_by_default(rt, face, case),
        "decomposed" => preferring::<F, Decomposed>(rt, face, case),
        "shortest" => preferring::<F, Shortest>(rt, face, case),
        "composed_diacritics" => preferring::<F, ComposedDiacritics>(rt, face, case),
        "recomposed" => preferring::<F, ComposedDiacriticsNoShortCircuit>(rt, face, case),
        "swapping" => answer(rt, (face, &SwappingShaper), case),
        "absorbing" => answer(rt, (face, &AbsorbingShaper), case),
        "changing" => answer(rt, (face, &ChangingShaper), case),
        name => rt.panic(name),
    }
}

/// The answer by a shaper that prefers a mode.
fn preferring<F: hb_font_t, T: Preference>(
    rt: &(impl Abort + AllocGlobal),
    face: &F,
    case: Case<'_>,
) -> String {
    answer(rt, (face, &Preferring::<T>::new()), case)
}

/// The answer by the default shaper.
pub fn answer_by_default<F: hb_font_t>(
    rt: &(impl Abort + AllocGlobal),
    face: &F,
    case: Case<'_>,
) -> String {
    answer(rt, (face, &DEFAULT_SHAPER), case)
}

/// The answer by a shaper.
fn answer<F, S>(rt: &(impl Abort + AllocGlobal), by: (&F, &S), case: Case<'_>) -> String
where
    F: hb_font_t,
    S: hb_ot_shaper_t<UnicodeDatabase, F, NoLookups>,
{
    answer_by::<TypesOf<UnicodeDatabase, F, NoLookups, S>>(rt, by, case)
}
