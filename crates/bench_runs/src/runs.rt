//! A text shaped so many times, over any face and engine: with one plan, or with a plan each time.
ghost use Rattle.std.specs.Prelude.{IsTrue};
ghost use Rattle.shape_plan.specs.Plan.{Fits};
ghost use Rattle.shape_unicode.specs.Meaning.{unicode_database};

use shape_buffer::buffer::{
    BufferClusterLevel, Direction, GlyphBuffer, ShapeError, ShapeFault, UnicodeBuffer,
};
use shape_buffer::interfaces::{hb_font_t, hb_ot_layout_t};
use shape_pipeline::shaping::{shape, shape_with_plan};
use shape_plan::ot_shape_plan::hb_ot_shape_plan_t;
use shape_plan::ot_shaper::{DEFAULT_SHAPER, hb_default_shaper_t};
use shape_unicode::UnicodeDatabase;
use std::alloc::Global;

/// The plans of the runs, by what an engine compiles requests to.
type Plan<'a, C> = hb_ot_shape_plan_t<'a, hb_default_shaper_t, C, ()>;

/// A text: its characters with a cluster each, or in UTF-8, where clusters are byte offsets.
#[derive(Clone, Copy)]
pub enum Text<'a> {
    Numbers(&'a [u32], &'a [u32]),
    Utf8(&'a str),
}

/// Fills a buffer character by character.
fn add_each(buffer: &mut UnicodeBuffer, chars: &[u32], clusters: &[u32]) -> Result<(), ShapeError> {
    for (code, cluster) in chars.iter().zip(clusters) {
        if let Some(c) = char::from_u32(*code) {
            buffer.add(c, *cluster)?;
        }
    }
    Ok(())
}

/// Fills a buffer with a text. One of 2^32 bytes or more leaves it empty.
#[inline(never)]
pub fn fill(buffer: &mut UnicodeBuffer, text: Text) -> Result<(), ShapeError> {
    match text {
        Text::Numbers(chars, clusters) => add_each(buffer, chars, clusters),
        Text::Utf8(text) if text.len() < 0x1_0000_0000 => buffer.push_str(text),
        Text::Utf8(_) => Ok(()),
    }
}

/// What a run gave, without the buffer of a refused one.
pub fn unfaulted(outcome: Result<GlyphBuffer, ShapeFault>) -> Result<GlyphBuffer, ShapeError> {
    match outcome {
        Ok(glyphs) => Ok(glyphs),
        Err(fault) => Err(fault.cause),
    }
}

/// A run with a plan of its own.
#[inline(never)]
fn run_fresh<F: hb_font_t, M: hb_ot_layout_t<F>>(
    alloc: Global,
    face: &F,
    text: UnicodeBuffer,
) -> Result<GlyphBuffer, ShapeFault> {
    shape::<UnicodeDatabase, F, M, _>(alloc, face, &DEFAULT_SHAPER, &[], text)
}

/// A run with a plan that is kept.
#[inline(never)]
fn run_kept<F: hb_font_t, M: hb_ot_layout_t<F>>(
    alloc: Global,
    face: &F,
    plan: &Plan<'_, M::Map>,
    text: UnicodeBuffer,
) -> Result<GlyphBuffer, ShapeFault>
    requires { Fits unicode_database plan.now text }
{
    shape_with_plan::<UnicodeDatabase, F, M, _>(alloc, face, plan, text)
}

/// Whether a plan serves a text.
#[inline(never)]
fn plan_fits<C: Drop>(plan: &Plan<'_, C>, text: &UnicodeBuffer) -> bool
    ensures { IsTrue result → Fits unicode_database plan.now text.now }
{
    plan.fits::<UnicodeDatabase>(text)
}

/// Shapes a text so many times, each with a plan of its own.
pub fn shape_fresh<F: hb_font_t, M: hb_ot_layout_t<F>>(
    alloc: Global,
    face: &F,
    level: BufferClusterLevel,
    text: Text,
    times: u32,
) -> Result<usize, ShapeError> {
    let mut buffer = UnicodeBuffer::new(alloc);
    buffer.set_cluster_level(level);
    let mut count = 0;
    for _ in 0..times {
        fill(&mut buffer, text)?;
        let glyphs = unfaulted(run_fresh::<F, M>(alloc, face, buffer))?;
        count = glyphs.len();
        buffer = glyphs.clear();
    }
    Ok(count)
}

/// The plan for a text; none if its direction is unknown.
fn plan_for<'a, F: hb_font_t, M: hb_ot_layout_t<F>>(
    alloc: Global,
    face: &'a F,
    text: Text,
) -> Result<Option<Plan<'a, M::Map>>, ShapeError> {
    let mut sample = UnicodeBuffer::new(alloc);
    fill(&mut sample, text)?;
    let script = sample.as_inner().guessed_script::<UnicodeDatabase>();
    let direction = sample.as_inner().direction_by::<UnicodeDatabase>(script);
    if direction == Direction::Invalid {
        return Ok(None);
    }
    let plan = hb_ot_shape_plan_t::new::<UnicodeDatabase, F, M>(
        alloc,
        face,
        &DEFAULT_SHAPER,
        direction,
        script,
        None,
        &[],
    )?;
    Ok(Some(plan))
}

/// Shapes a text so many times, with one plan.
pub fn shape_kept<F: hb_font_t, M: hb_ot_layout_t<F>>(
    alloc: Global,
    face: &F,
    level: BufferClusterLevel,
    text: Text,
    times: u32,
) -> Result<usize, ShapeError> {
    let Some(plan) = plan_for::<F, M>(alloc, face, text)? else {
        return Ok(0);
    };
    let mut buffer = UnicodeBuffer::new(alloc);
    buffer.set_cluster_level(level);
    let mut count = 0;
    for _ in 0..times {
        fill(&mut buffer, text)?;
        if !plan_fits(&plan, &buffer) {
            return Ok(0);
        }
        let glyphs = unfaulted(run_kept::<F, M>(alloc, face, &plan, buffer))?;
        count = glyphs.len();
        buffer = glyphs.clear();
    }
    Ok(count)
}
