//! A text shaped so many times with one plan, by the shaper that its script asks for, with all
//! tables of lookups of a font.
ghost use Rattle.shape_unicode.specs.Meaning.{unicode_database};
ghost use Rattle.shaper_choice.specs.ScriptPlans.{PlanFits};

use crate::runs::{Text, fill, unfaulted};
use layout_map::map::hb_ot_map_t;
use opentype_layout::{OpenTypeLayout, OpenedOpenTypeFace};
use shape_buffer::buffer::{Direction, GlyphBuffer, ShapeError, ShapeFault, UnicodeBuffer};
use shape_unicode::UnicodeDatabase;
use shaper_choice::{SCRIPT_SHAPERS, ScriptPlan, plan_by_script, shape_with_script_plan};
use std::alloc::Global;

/// The plan for a text; none if its direction is unknown.
fn plan_for<'a>(
    alloc: Global,
    face: &'a OpenedOpenTypeFace<'a>,
    text: Text,
) -> Result<Option<ScriptPlan<'a, hb_ot_map_t>>, ShapeError> {
    let mut sample = UnicodeBuffer::new(alloc);
    fill(&mut sample, text)?;
    let script = sample.as_inner().guessed_script::<UnicodeDatabase>();
    let direction = sample.as_inner().direction_by::<UnicodeDatabase>(script);
    if direction == Direction::Invalid {
        return Ok(None);
    }
    let plan = plan_by_script::<UnicodeDatabase, OpenedOpenTypeFace, OpenTypeLayout>(
        alloc,
        face,
        &SCRIPT_SHAPERS,
        direction,
        script,
        None,
        &[],
    )?;
    Ok(Some(plan))
}

/// A run with a plan that is kept.
#[inline(never)]
fn run_scripted(
    alloc: Global,
    face: &OpenedOpenTypeFace<'_>,
    plan: &ScriptPlan<'_, hb_ot_map_t>,
    text: UnicodeBuffer,
) -> Result<GlyphBuffer, ShapeFault>
    requires { PlanFits unicode_database plan.now text }
{
    shape_with_script_plan::<UnicodeDatabase, OpenedOpenTypeFace, OpenTypeLayout>(
        alloc, face, plan, text,
    )
}

/// Shapes a text so many times, with one plan.
pub fn shape_scripted<'a>(
    alloc: Global,
    face: &'a OpenedOpenTypeFace<'a>,
    text: &str,
    times: u32,
) -> Result<usize, ShapeError> {
    let text = Text::Utf8(text);
    let Some(plan) = plan_for(alloc, face, text)? else {
        return Ok(0);
    };
    let mut buffer = UnicodeBuffer::new(alloc);
    let mut count = 0;
    for _ in 0..times {
        fill(&mut buffer, text)?;
        if !plan.fits::<UnicodeDatabase>(&buffer) {
            return Ok(0);
        }
        let glyphs = unfaulted(run_scripted(alloc, face, &plan, buffer))?;
        count = glyphs.len();
        buffer = glyphs.clear();
    }
    Ok(count)
}
