//! What `shape`, which plans for the text itself, says of what it counts and of the normalised
//! list: the clauses in plain words, as [`plain_glyphs_counted`](super::plain_glyphs_counted) and
//! [`plain_glyphs_formed`](super::plain_glyphs_formed) have those of `shape_with_plan`. Nothing is
//! asked of the text.
ghost use Rattle.std.specs.Prelude.{◌≡◌, ◌≢◌, [], IfOk, IfErr};
ghost use Rattle.shape_users.specs.PlainGlyphs.{HasPlainForm, NoStepPasses, SomeStepPasses};

use shape_buffer::buffer::{GlyphBuffer, ShapeError, ShapeFault, UnicodeBuffer};
use shape_buffer::interfaces::{NoLookups, hb_font_t, hb_unicode_funcs_t};
use shape_pipeline::laws::plain_runs_have_no_obligations;
use shape_pipeline::ot_shaper::hb_default_shaper_t;
use shape_pipeline::shape;
use shape_pipeline::shaping::TextRuns;
use std::alloc::Global;

/// The glyphs of a text: no step of the run made a list past the limit that it found, and a text is
/// refused for its length only if one would have.
pub fn glyphs_counted<U, F>(
    alloc: Global,
    face: &F,
    shaper: &hb_default_shaper_t,
    text: UnicodeBuffer,
) -> Result<GlyphBuffer, ShapeFault>
where
    U: hb_unicode_funcs_t,
    F: hb_font_t,
    ensures counted { let run =
        ⟦<hb_default_shaper_t as TextRuns<U, F, NoLookups>>⟧.text_run face.now shaper.now [] text in
        text.items ≢ [] → IfOk result (λ _. NoStepPasses run text) }
    ensures length { let run =
        ⟦<hb_default_shaper_t as TextRuns<U, F, NoLookups>>⟧.text_run face.now shaper.now [] text in
        IfErr result (λ fault. fault.cause ≡ ShapeError.Length → SomeStepPasses run text) }
{
    shape::<U, F, NoLookups, hb_default_shaper_t>(alloc, face, shaper, &[], text)
}

/// The glyphs of a text: each character of their normalised list that the prepared text lacks has
/// a glyph, each item has the glyph of its character or of what replaces it, feature bits and
/// places are those of the prepared text's items, and marks were composed by the standard's rule.
/// Without a variation selector the list is equivalent to the text, and lists tell equivalent
/// texts from others if canonical form is asked of both.
pub fn glyphs_formed<U, F>(
    alloc: Global,
    face: &F,
    shaper: &hb_default_shaper_t,
    text: UnicodeBuffer,
) -> Result<GlyphBuffer, ShapeFault>
where
    U: hb_unicode_funcs_t,
    F: hb_font_t,
    ensures { let run =
        ⟦<hb_default_shaper_t as TextRuns<U, F, NoLookups>>⟧.text_run face.now shaper.now [] text in
        IfOk result (λ _. HasPlainForm run text) }
{
    plain_runs_have_no_obligations::<U, F>();
    shape::<U, F, NoLookups, hb_default_shaper_t>(alloc, face, shaper, &[], text)
}
