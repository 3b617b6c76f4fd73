//! The entries: text goes in, glyphs come out.
//!
//! `form` is a law of every buffer that is normalised, so it has "prepared" among its premises; a
//! run prepares each text by itself, so `canonical` has not. Clusters at MONOTONE_GRAPHEMES are
//! those of graphemes found before a dotted circle was inserted, which has its mark's.
ghost use Rattle.std.specs.Prelude.{◌≡◌, ◌≢◌, [], List, Err, IsOk, IfOk, IfErr, OnOk, OnErr};
ghost use Rattle.shape_items.specs.Buffer.{Buffer, cleared};
ghost use Rattle.shape_buffer.specs.Guess.{guessed};
ghost use Rattle.shape_common.specs.declared.text_types.Feature.{Feature as AnyFeature};
ghost use Rattle.shape_pipeline.specs.GlyphsOf.{AreGlyphsOf, TextPasses};
ghost use Rattle.shape_pipeline.specs.Planned.{planned_for, data_for_text};
ghost use Rattle.shape_pipeline.specs.Shaped.{ShapingPasses};
ghost use Rattle.shape_plan.specs.Plan.{Fits};
ghost use Rattle.shape_plan.specs.Run.{Run};

use crate::ot_shape::shape_whole;
use shape_buffer::buffer::{
    Direction, Feature, GlyphBuffer, ShapeError, ShapeFault, UnicodeBuffer, hb_buffer_t,
};
use shape_buffer::interfaces::{hb_font_t, hb_ot_layout_t, hb_unicode_funcs_t};
use shape_plan::ot_shape_plan::hb_ot_shape_plan_t;
use shape_plan::ot_shaper::{Runs, hb_ot_shaper_t};
use shape_plan::planner::Plans;
use shape_plan::shaping_types::TypesOf;
use std::alloc::Global;

/// The run that [`shape`] makes of a text by a shaper. Every shaper has it, and none writes it.
pub trait TextRuns<U: hb_unicode_funcs_t, F: hb_font_t, M: hb_ot_layout_t<F>>: hb_ot_shaper_t<
    U,
    F,
    M,
> {
    ghost text_run: { F → Self → List AnyFeature → Buffer → Run };
}

impl<
    U: hb_unicode_funcs_t,
    F: hb_font_t,
    M: hb_ot_layout_t<F>,
    S: hb_ot_shaper_t<U, F, M>,
> TextRuns<U, F, M> for S {
    ghost text_run = { λ face shaper features text. ⟦<S as Runs<U, F, M>>⟧.run
        (planned_for U.unicode ⟦<S as Plans<U, F, M>>⟧.planning face shaper features text) face };
}

/// The glyphs of a text by a plan that fits it, with positions in units of the face and clusters
/// that lead back to the text. Script and direction are guessed if they aren't set. Refuses with
/// `Length` if a step would leave a list past the run's limit (in normalising the expanded list
/// counts), and with `Memory` if a growth was refused; the fault holds the cleared buffer. An empty
/// text gives an empty result and takes no memory. `form` is a law of the list that the run
/// normalises, `canonical` says that it is equivalent to the text if hooks preserve equivalence,
/// and `made` that the glyphs are made of that list.
pub fn shape_with_plan<U, F, M, S>(
    alloc: Global,
    face: &F,
    plan: &hb_ot_shape_plan_t<'_, S, M::Map, S::Data>,
    buffer: UnicodeBuffer,
) -> Result<GlyphBuffer, ShapeFault>
where
    U: hb_unicode_funcs_t,
    F: hb_font_t,
    M: hb_ot_layout_t<F>,
    S: hb_ot_shaper_t<U, F, M>,
    requires { Fits U.unicode plan.now buffer }
    ensures ok { let run = ⟦<S as Runs<U, F, M>>⟧.run plan.now face.now in
        IfOk result (AreGlyphsOf run buffer) }
    ensures length { let run = ⟦<S as Runs<U, F, M>>⟧.run plan.now face.now in
        IfErr result (λ fault. fault.cause ≡ ShapeError.Length → TextPasses run buffer) }
    ensures cleared { IfErr result (λ fault. fault.buffer ≡ cleared buffer) }
    ensures empty { buffer.items ≡ [] → IsOk result }
{
    let mut text = buffer.into_inner();
    text.guess_segment_properties::<U>();
    match shape_guessed::<U, F, M, S>(alloc, face, plan, &mut text) {
        Ok(()) => Ok(text.into_glyphs()),
        Err(cause) => Err(refused(cause, text)),
    }
}

/// The fault of a run that is refused, with its buffer, cleared.
#[inline(never)]
fn refused(cause: ShapeError, text: hb_buffer_t) -> ShapeFault
    ensures cause { result.cause ≡ cause }
    ensures cleared { result.buffer ≡ cleared text }
{
    ShapeFault {
        cause,
        buffer: text.clear(),
    }
}

/// Makes glyphs of a text whose script and direction are set as guessing sets them, so that who has
/// guessed for a plan doesn't go over the characters again. `text` is what guessing made of
/// `original`. It is shaped where it stands: a buffer is large, and its callers move it only once.
#[inline(never)]
fn shape_guessed<U, F, M, S>(
    alloc: Global,
    face: &F,
    plan: &hb_ot_shape_plan_t<'_, S, M::Map, S::Data>,
    text: &mut hb_buffer_t,
) -> Result<(), ShapeError>
where
    U: hb_unicode_funcs_t,
    F: hb_font_t,
    M: hb_ot_layout_t<F>,
    S: hb_ot_shaper_t<U, F, M>,
    requires known { text.old.direction ≢ Direction.Invalid }
    requires planned { plan.now.direction ≡ text.old.direction }
    ensures ok { let run = ⟦<S as Runs<U, F, M>>⟧.run plan.now face.now in
        (original : Buffer) → text.old ≡ guessed U.unicode original
        → OnOk result (AreGlyphsOf run original text.new) }
    ensures length { let run = ⟦<S as Runs<U, F, M>>⟧.run plan.now face.now in
        result ≡ Err ShapeError.Length → ShapingPasses run text.old.direction text.old }
    ensures cleared { OnErr result (text.new ≡ cleared text.old) }
    ensures empty { text.old.items ≡ [] → IsOk result }
{
    plan.masks_are_features();
    let direction = text.direction();
    match shape_whole::<TypesOf<U, F, M, S>>(alloc, plan, face, text, direction) {
        Ok(()) => Ok(()),
        Err(cause) => Err(cause),
    }
}

/// The glyphs of a text: script and direction are guessed if they aren't set, a plan is made for
/// them with the features that the user asks for, and the text is shaped by it; see
/// [`shape_with_plan`]. A plan is made for an empty text too. Refuses with `Length` if a step would
/// leave a list past the run's limit, and with `Memory` if a growth was refused, planning included;
/// the fault holds the cleared buffer. `form` is a law of the list that the run normalises,
/// `canonical` says that it is equivalent to the text if hooks preserve equivalence, `made` that
/// the glyphs are made of that list, and `data` what the shaper's data is in the plan.
pub fn shape<U, F, M, S>(
    alloc: Global,
    face: &F,
    shaper: &S,
    features: &[Feature],
    buffer: UnicodeBuffer,
) -> Result<GlyphBuffer, ShapeFault>
where
    U: hb_unicode_funcs_t,
    F: hb_font_t,
    M: hb_ot_layout_t<F>,
    S: hb_ot_shaper_t<U, F, M>,
    ensures data { let planning = ⟦<S as Plans<U, F, M>>⟧.planning in
        let plan = planned_for U.unicode planning face.now shaper.now features.now buffer in
        plan.shaper_data
        ≡ data_for_text U.unicode planning face.now shaper.now features.now buffer }
    ensures ok { let run =
        ⟦<S as TextRuns<U, F, M>>⟧.text_run face.now shaper.now features.now buffer in
        IfOk result (AreGlyphsOf run buffer) }
    ensures length { let run =
        ⟦<S as TextRuns<U, F, M>>⟧.text_run face.now shaper.now features.now buffer in
        IfErr result (λ fault. fault.cause ≡ ShapeError.Length → TextPasses run buffer) }
    ensures cleared { IfErr result (λ fault. fault.buffer ≡ cleared buffer) }
{
    let mut text = buffer.into_inner();
    text.guess_segment_properties::<U>();
    let planned = hb_ot_shape_plan_t::new::<U, F, M>(
        alloc,
        face,
        shaper,
        text.direction(),
        text.script(),
        text.language(),
        features,
    );
    match planned {
        Ok(plan) => match shape_guessed::<U, F, M, S>(alloc, face, &plan, &mut text) {
            Ok(()) => Ok(text.into_glyphs()),
            Err(cause) => Err(refused(cause, text)),
        },
        Err(cause) => Err(refused(cause, text)),
    }
}
