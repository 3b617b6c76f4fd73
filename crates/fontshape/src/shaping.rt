//! Shaping one text as the options ask.
ghost use Rattle.std.specs.Prelude.{◌≡◌};
ghost use Rattle.shape_unicode.specs.Meaning.{unicode_database};
ghost use Rattle.shaper_choice.specs.ScriptPlans.{PlanFits};

use crate::fallback::shaped_alone;
use crate::line::Line;
use crate::options::Options;
use crate::trace::Trace;
use kern_table::KernTable;
use layout_map::map::hb_ot_map_t;
use opentype_layout::{OpenTypeFace, OpenTypeLayout, OpenedOpenTypeFace};
use shape_font::FontFace;
use shape_pipeline::ot_shaper::{
    ComposedDiacritics, ComposedDiacriticsNoShortCircuit, Decomposed, Preference, Shortest,
};
use shape_pipeline::{
    DEFAULT_SHAPER, GlyphBuffer, NoLookups, Preferring, ShapeError, UnicodeBuffer,
    hb_default_shaper_t, hb_font_t, hb_ot_layout_t, hb_ot_shaper_t, shape,
};
use shape_unicode::UnicodeDatabase;
use shaper_choice::{
    SCRIPT_SHAPERS, ScriptPlan, plan_by_script, shape_by_script, shape_with_script_plan,
};
use std::alloc::Global;
use watched_runs::{Watched, WatchedFace};

/// The face for the font's tables of lookups, with the plan of the last line. A line of the same
/// script and direction needs no other one, since language and features are those of the options.
/// Making a plan takes as long as shaping a few words, and far longer in a font of many features.
#[derive(Drop)]
pub struct Planned<'a> {
    face: &'a OpenedOpenTypeFace<'a>,
    plan: Option<ScriptPlan<'a, hb_ot_map_t>>,
}

impl<'a> Planned<'a> {
    /// No plan yet.
    pub fn new(face: &'a OpenedOpenTypeFace<'a>) -> Self {
        Planned { face, plan: None }
    }

    /// Whether the plan serves a buffer.
    fn serves(&self, buffer: &UnicodeBuffer) -> bool {
        match &self.plan {
            Some(plan) => plan.fits::<UnicodeDatabase>(buffer),
            None => false,
        }
    }

    /// A plan for a buffer.
    fn plan_for(
        &self,
        alloc: Global,
        options: &Options,
        buffer: &UnicodeBuffer,
    ) -> Result<ScriptPlan<'a, hb_ot_map_t>, ShapeError> {
        let inner = buffer.as_inner();
        let script = inner.guessed_script::<UnicodeDatabase>();
        plan_by_script::<UnicodeDatabase, OpenedOpenTypeFace, OpenTypeLayout>(
            alloc,
            self.face,
            &SCRIPT_SHAPERS,
            inner.direction_by::<UnicodeDatabase>(script),
            script,
            buffer.language(),
            options.features(),
        )
    }

    /// The glyphs of a buffer by the shaper of its script, by the plan that is kept if it serves.
    fn shaped(
        &mut self,
        alloc: Global,
        options: &Options,
        buffer: UnicodeBuffer,
    ) -> Result<GlyphBuffer, ShapeError> {
        if !self.serves(&buffer) {
            self.plan = Some(self.plan_for(alloc, options, &buffer)?);
        }
        match &self.plan {
            Some(plan) if plan.fits::<UnicodeDatabase>(&buffer) => by_plan(
                alloc, self.face, plan, buffer,
            ),
            _ => shaped_by_script::<OpenedOpenTypeFace, OpenTypeLayout>(
                alloc, options, self.face, buffer,
            ),
        }
    }
}

/// The glyphs of a buffer by a plan that serves it.
fn by_plan(
    alloc: Global,
    face: &OpenedOpenTypeFace,
    plan: &ScriptPlan<'_, hb_ot_map_t>,
    buffer: UnicodeBuffer,
) -> Result<GlyphBuffer, ShapeError>
    requires { PlanFits unicode_database plan.now buffer }
{
    match shape_with_script_plan::<UnicodeDatabase, OpenedOpenTypeFace, OpenTypeLayout>(
        alloc, face, plan, buffer,
    ) {
        Ok(glyphs) => Ok(glyphs),
        Err(fault) => Err(fault.cause),
    }
}

/// A line as a buffer with the settings that are asked for, script and direction guessed if they
/// aren't.
pub fn filled(alloc: Global, options: &Options, line: &Line) -> Result<UnicodeBuffer, ShapeError> {
    let mut buffer = UnicodeBuffer::new(alloc);
    buffer.reserve(line.characters().len())?;
    for character in line.characters() {
        buffer.add(character.c, character.cluster)?;
    }
    buffer.set_pre_context(options.before());
    buffer.set_post_context(options.after());
    buffer.set_direction(options.direction());
    buffer.set_script(options.script());
    buffer.set_language(options.language(alloc)?);
    buffer.set_flags(options.flags());
    buffer.set_cluster_level(options.level());
    buffer.set_invisible_glyph(options.invisible_glyph());
    buffer.set_not_found_variation_selector_glyph(options.not_found_variation_selector_glyph());
    buffer.guess_segment_properties::<UnicodeDatabase>();
    Ok(buffer)
}

/// The glyphs of a buffer by this engine and this shaper.
fn shaped_by<F, M, S>(
    alloc: Global,
    options: &Options,
    face: &F,
    shaper: &S,
    buffer: UnicodeBuffer,
) -> Result<GlyphBuffer, ShapeError>
where
    F: hb_font_t,
    M: hb_ot_layout_t<F>,
    S: hb_ot_shaper_t<UnicodeDatabase, F, M>,
{
    let features = options.features();
    match shape::<UnicodeDatabase, F, M, S>(alloc, face, shaper, features, buffer) {
        Ok(glyphs) => Ok(glyphs),
        Err(fault) => Err(fault.cause),
    }
}

/// The glyphs of a buffer by the default shaper, which prefers this way to normalise.
fn shaped_preferring<P: Preference, F: hb_font_t, M: hb_ot_layout_t<F>>(
    alloc: Global,
    options: &Options,
    face: &F,
    buffer: UnicodeBuffer,
) -> Result<GlyphBuffer, ShapeError> {
    shaped_by::<F, M, Preferring<P>>(alloc, options, face, &Preferring::new(), buffer)
}

/// The glyphs of a buffer by the shaper of its script.
fn shaped_by_script<F: hb_font_t, M: hb_ot_layout_t<F>>(
    alloc: Global,
    options: &Options,
    face: &F,
    buffer: UnicodeBuffer,
) -> Result<GlyphBuffer, ShapeError> {
    let features = options.features();
    match shape_by_script::<UnicodeDatabase, F, M>(alloc, face, features, buffer) {
        Ok(glyphs) => Ok(glyphs),
        Err(fault) => Err(fault.cause),
    }
}

/// The glyphs of a buffer by the default shaper.
fn shaped_default<F: hb_font_t, M: hb_ot_layout_t<F>>(
    alloc: Global,
    options: &Options,
    face: &F,
    buffer: UnicodeBuffer,
) -> Result<GlyphBuffer, ShapeError> {
    shaped_by::<F, M, hb_default_shaper_t>(alloc, options, face, &DEFAULT_SHAPER, buffer)
}

/// The glyphs of a buffer by this engine: with a default shaper that prefers the mode that is asked
/// for, else with the shaper of its script.
fn shaped_with<F: hb_font_t, M: hb_ot_layout_t<F>>(
    alloc: Global,
    options: &Options,
    face: &F,
    buffer: UnicodeBuffer,
) -> Result<GlyphBuffer, ShapeError> {
    match options.mode() {
        Some(0) => shaped_preferring::<Shortest, F, M>(alloc, options, face, buffer),
        Some(1) => shaped_preferring::<Decomposed, F, M>(alloc, options, face, buffer),
        Some(2) => shaped_preferring::<ComposedDiacritics, F, M>(alloc, options, face, buffer),
        Some(3) => shaped_preferring::<ComposedDiacriticsNoShortCircuit, F, M>(
            alloc, options, face, buffer,
        ),
        None => shaped_by_script::<F, M>(alloc, options, face, buffer),
        _ => shaped_default::<F, M>(alloc, options, face, buffer),
    }
}

/// The glyphs of a buffer without tables of lookups, kerned by the table `kern` of a font without
/// GPOS: a font with GPOS has its kerning there.
fn shaped_without_layout(
    alloc: Global,
    options: &Options,
    face: &FontFace,
    buffer: UnicodeBuffer,
) -> Result<GlyphBuffer, ShapeError> {
    if face.tables().gpos {
        shaped_with::<FontFace, NoLookups>(alloc, options, face, buffer)
    } else {
        shaped_with::<FontFace, KernTable>(alloc, options, face, buffer)
    }
}

/// The face for the font's tables of lookups, opened once for all lines; none if the options say to
/// leave them alone. Refuses with `Memory` if a growth was refused.
pub fn opened<'a>(
    alloc: Global,
    options: &Options,
    face: FontFace<'a>,
) -> Result<Option<OpenedOpenTypeFace<'a>>, ShapeError> {
    if options.layout() {
        let opened = OpenedOpenTypeFace::new(alloc, OpenTypeFace::new(face))?;
        Ok(Some(opened))
    } else {
        Ok(None)
    }
}

/// The glyphs of a line, by the font's tables of lookups if the face was opened for them, or of
/// each character by itself. Refuses as `shape` does.
pub fn shaped(
    alloc: Global,
    options: &Options,
    face: &FontFace,
    planned: Option<&mut Planned>,
    line: &Line,
) -> Result<GlyphBuffer, ShapeError> {
    let buffer = filled(alloc, options, line)?;
    if options.fallback() {
        return Ok(shaped_alone(face, buffer));
    }
    match planned {
        Some(planned) if options.mode().is_none() => planned.shaped(alloc, options, buffer),
        Some(planned) => {
            shaped_with::<OpenedOpenTypeFace, OpenTypeLayout>(alloc, options, planned.face, buffer)
        }
        None => shaped_without_layout(alloc, options, face, buffer),
    }
}

/// The glyphs of a buffer without tables of lookups, as `shaped_without_layout`, with a trace of
/// the run.
fn traced_without_layout(
    alloc: Global,
    options: &Options,
    face: &FontFace,
    trace: &Trace,
    buffer: UnicodeBuffer,
) -> Result<GlyphBuffer, ShapeError> {
    let gpos = face.tables().gpos;
    let watcher = trace;
    let watched = &WatchedFace { face, watcher };
    if gpos {
        shaped_with::<WatchedFace<FontFace, Trace>, Watched<NoLookups>>(
            alloc, options, watched, buffer,
        )
    } else {
        shaped_with::<WatchedFace<FontFace, Trace>, Watched<KernTable>>(
            alloc, options, watched, buffer,
        )
    }
}

/// The glyphs of a line, as `shaped`, with a trace of its run. No plan is kept for the next line.
pub fn traced(
    alloc: Global,
    options: &Options,
    face: &FontFace,
    planned: Option<&Planned>,
    trace: &Trace,
    line: &Line,
) -> Result<GlyphBuffer, ShapeError> {
    let buffer = filled(alloc, options, line)?;
    if options.fallback() {
        return Ok(shaped_alone(face, buffer));
    }
    let Some(planned) = planned else {
        return traced_without_layout(alloc, options, face, trace, buffer);
    };
    let watched = &WatchedFace {
        face: planned.face,
        watcher: trace,
    };
    shaped_with::<WatchedFace<OpenedOpenTypeFace, Trace>, Watched<OpenTypeLayout>>(
        alloc, options, watched, buffer,
    )
}
