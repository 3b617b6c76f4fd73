//! What a caller with the default shaper and no lookups knows of glyphs: the clauses of
//! `shape_with_plan` in plain words, with nothing left to ask of hooks and lookups. One function
//! has a hook and lookups, which preserve clusters and flags; one takes a string, with no premise
//! left.
//!
//! Each function shapes a text and does nothing else. Its contract is what a user of that clause
//! wants to hear: so a clause that comes to say less, of one direction or of one level alone, is
//! refused here.
ghost use Rattle.std.specs.Prelude.{◌≡◌, ◌≢◌, ◌≤◌, ◌^◌, ◌⊎◌, [], length, IfOk, IfErr, MatchResult};
ghost use Rattle.std.specs.List.Sorted.{IsNonDecreasing};
ghost use Rattle.shape_items.specs.Buffer.{new_buffer};
ghost use Rattle.shape_items.specs.ClusterOrder.{IsMonotoneLevel};
ghost use Rattle.shape_items.specs.Clusters.{clusters};
ghost use Rattle.shape_items.specs.Flags.{HasOneSetOfFlags};
ghost use Rattle.shape_plan.specs.Plan.{Fits};
ghost use Rattle.shape_pipeline.specs.GlyphsOf.{AreGlyphsOf, TextPasses};
ghost use Rattle.shape_pipeline.specs.Strings.{AreGlyphsOfString, string_text};
ghost use Rattle.shape_users.specs.PlainGlyphs.{ArePlainGlyphs, StandInOrder, HasPlainForm};
ghost use Rattle.shape_users.specs.PlainGlyphs.{IsGivenBackEmpty, NoStepPasses, SomeStepPasses};
ghost use Rattle.shape_users.specs.Worked.Plain.{WorkedPlain};
ghost use Rattle.shape_users.specs.Worked.Promised.{WorkedPromises};

pub mod by_shape;

use crate::ligatures::{Ligatures, ligatures_preserve};
use script_shapers::arabic::{ArabicShaper, arabic_runs_preserve};
use shape_buffer::buffer::{GlyphBuffer, ShapeError, ShapeFault, UnicodeBuffer};
use shape_buffer::interfaces::{NoLookups, hb_font_t, hb_unicode_funcs_t};
use shape_pipeline::laws::plain_runs_have_no_obligations;
use shape_pipeline::ot_shape_plan::hb_ot_shape_plan_t;
use shape_pipeline::ot_shaper::{DEFAULT_SHAPER, Runs, hb_default_shaper_t};
use shape_pipeline::shaping::TextRuns;
use shape_pipeline::strings::{strings_keep_promises, text_of_str};
use shape_pipeline::{shape, shape_with_plan};
use std::alloc::Global;

/// A plan of the default shaper, without lookups.
pub type PlainPlan<'a> = hb_ot_shape_plan_t<'a, hb_default_shaper_t, (), ()>;

/// The glyphs of a text. In every direction and at every level: they run where the text was told to
/// run, neighbours in one cluster have the same flags, and none is marked unsafe to concat unless
/// the text asks for it. A text of at most 256 characters has at most 16384 glyphs, a longer one at
/// most 64 for each. A refusal hands an empty buffer back, with the settings of the text that
/// outlive it.
pub fn plain_glyphs<U, F>(
    alloc: Global,
    face: &F,
    plan: &PlainPlan<'_>,
    text: UnicodeBuffer,
) -> Result<GlyphBuffer, ShapeFault>
where
    U: hb_unicode_funcs_t,
    F: hb_font_t,
    requires { Fits U.unicode plan.now text }
    ensures ok { IfOk result (ArePlainGlyphs text) }
    ensures refused { IfErr result (λ fault. IsGivenBackEmpty text fault.buffer) }
{
    plain_runs_have_no_obligations::<U, F>();
    shape_with_plan::<U, F, NoLookups, hb_default_shaper_t>(alloc, face, plan, text)
}

/// The glyphs of a text whose clusters never fall, at a monotone level. In every direction: their
/// clusters are the text's, at MONOTONE_GRAPHEMES those of its graphemes' first characters, and
/// stand in the order in which the glyphs run.
pub fn plain_glyphs_in_order<U, F>(
    alloc: Global,
    face: &F,
    plan: &PlainPlan<'_>,
    text: UnicodeBuffer,
) -> Result<GlyphBuffer, ShapeFault>
where
    U: hb_unicode_funcs_t,
    F: hb_font_t,
    requires fits { Fits U.unicode plan.now text }
    requires monotone { IsMonotoneLevel text.cluster_level }
    requires rising { IsNonDecreasing (clusters text.items) }
    ensures { let run = ⟦<hb_default_shaper_t as Runs<U, F, NoLookups>>⟧.run plan.now face.now in
        IfOk result (StandInOrder run text) }
{
    plain_runs_have_no_obligations::<U, F>();
    shape_with_plan::<U, F, NoLookups, hb_default_shaper_t>(alloc, face, plan, text)
}

/// The glyphs of a text, with what was counted on the way: no step of the run made a list past the
/// limit that it found, and a text is refused for its length only if one would have.
pub fn plain_glyphs_counted<U, F>(
    alloc: Global,
    face: &F,
    plan: &PlainPlan<'_>,
    text: UnicodeBuffer,
) -> Result<GlyphBuffer, ShapeFault>
where
    U: hb_unicode_funcs_t,
    F: hb_font_t,
    requires { Fits U.unicode plan.now text }
    ensures counted { let run =
        ⟦<hb_default_shaper_t as Runs<U, F, NoLookups>>⟧.run plan.now face.now in
        text.items ≢ [] → IfOk result (λ _. NoStepPasses run text) }
    ensures length { let run =
        ⟦<hb_default_shaper_t as Runs<U, F, NoLookups>>⟧.run plan.now face.now in
        IfErr result (λ fault. fault.cause ≡ ShapeError.Length → SomeStepPasses run text) }
{
    shape_with_plan::<U, F, NoLookups, hb_default_shaper_t>(alloc, face, plan, text)
}

/// The glyphs of a text, with what is known of the normalised list that they are made of: each
/// character that the text lacks has a glyph, each item has the glyph of its character or of what
/// replaces it, feature bits and places are those of the text's items, and marks were composed by
/// the standard's rule. Without a variation selector the list is equivalent to the text; if
/// canonical form is asked of both, the lists of two texts have the same characters exactly when
/// the texts are equivalent.
pub fn plain_glyphs_formed<U, F>(
    alloc: Global,
    face: &F,
    plan: &PlainPlan<'_>,
    text: UnicodeBuffer,
) -> Result<GlyphBuffer, ShapeFault>
where
    U: hb_unicode_funcs_t,
    F: hb_font_t,
    requires { Fits U.unicode plan.now text }
    ensures { let run = ⟦<hb_default_shaper_t as Runs<U, F, NoLookups>>⟧.run plan.now face.now in
        IfOk result (λ _. HasPlainForm run text) }
{
    plain_runs_have_no_obligations::<U, F>();
    shape_with_plan::<U, F, NoLookups, hb_default_shaper_t>(alloc, face, plan, text)
}

/// The glyphs of a text by a shaper that reorders marks and an engine with ligatures. Both preserve
/// clusters and flags, so for a text whose clusters never fall, at a monotone level, the same holds
/// as without them: clusters are the text's and stand in the order in which the glyphs run, and
/// neighbours in one cluster have the same flags.
pub fn ligated_glyphs_in_order<U, F>(
    alloc: Global,
    face: &F,
    plan: &hb_ot_shape_plan_t<'_, ArabicShaper, (), ()>,
    text: UnicodeBuffer,
) -> Result<GlyphBuffer, ShapeFault>
where
    U: hb_unicode_funcs_t,
    F: hb_font_t,
    requires fits { Fits U.unicode plan.now text }
    requires monotone { IsMonotoneLevel text.cluster_level }
    requires rising { IsNonDecreasing (clusters text.items) }
    ensures order { let run = ⟦<ArabicShaper as Runs<U, F, Ligatures>>⟧.run plan.now face.now in
        IfOk result (StandInOrder run text) }
    ensures one_set { IfOk result (λ glyphs. HasOneSetOfFlags glyphs.items) }
{
    ligatures_preserve::<F>();
    arabic_runs_preserve::<U, F, Ligatures>();
    shape_with_plan::<U, F, Ligatures, ArabicShaper>(alloc, face, plan, text)
}

/// The glyphs of a string, in the direction of its script: those that `shape` makes of its text,
/// with no features asked for and nothing else set. Nothing is asked of the string or the face:
/// each cluster is the place of a character's first byte in the string, clusters stand in the
/// order in which the glyphs run, neighbours in one cluster have the same flags, no glyph is
/// unsafe to concat, and a string of at most 256 characters has at most 16384 glyphs, a longer one
/// at most 64 for each. Refuses with `Length` a string of 2^32 bytes and more, or one of which a
/// step would leave a list past the run's limit, and with `Memory` if a growth was refused; a new
/// buffer comes back then.
pub fn glyphs_of_str<U, F>(alloc: Global, face: &F, string: &str) -> Result<GlyphBuffer, ShapeFault>
where
    U: hb_unicode_funcs_t,
    F: hb_font_t,
    ensures glyphs { let text = string_text string.now in
        let run = ⟦<hb_default_shaper_t as TextRuns<U, F, NoLookups>>⟧.text_run
        face.now DEFAULT_SHAPER [] text in IfOk result (AreGlyphsOf run text) }
    ensures length { let text = string_text string.now in
        let run = ⟦<hb_default_shaper_t as TextRuns<U, F, NoLookups>>⟧.text_run
        face.now DEFAULT_SHAPER [] text in
        IfErr result (λ fault. fault.cause ≡ ShapeError.Length
        → (2 ^ 32 ≤ length string.now) ⊎ TextPasses run text) }
    ensures bytes { 2 ^ 32 ≤ length string.now
        → MatchResult result (λ _. ⊥) (λ fault. fault.cause ≡ ShapeError.Length) }
    ensures of_string { IfOk result (AreGlyphsOfString U.unicode string.now) }
    ensures refused { IfErr result (λ fault. fault.buffer ≡ new_buffer) }
{
    plain_runs_have_no_obligations::<U, F>();
    strings_keep_promises();
    match text_of_str(alloc, string) {
        Ok(text) => shape::<U, F, NoLookups, hb_default_shaper_t>(
            alloc,
            face,
            &DEFAULT_SHAPER,
            &[],
            text,
        ),
        Err(fault) => Err(fault),
    }
}

/// What these facts take and refuse, on glyphs, steps and strings worked out by hand.
pub fn plain_facts_meet_worked_cases()
    ensures facts { WorkedPlain }
    ensures promises { WorkedPromises }
{}
