//! The glyphs of parts of a text, by plans that are made once for each font, direction and script.
ghost use Rattle.std.specs.Prelude.{◌≡◌, map};
ghost use Rattle.paragraph.specs.Reach.{reach_of_face};
ghost use Rattle.shape_unicode.specs.Meaning.{unicode_database};
ghost use Rattle.shaper_choice.specs.ScriptPlans.{PlanFits};

use layout_map::map::hb_ot_map_t;
use opentype_layout::{OpenTypeLayout, OpenedOpenTypeFace};
use shape_buffer::buffer::{
    BufferFlags, Direction, Feature, GlyphBuffer, Language, ShapeError, UnicodeBuffer,
};
use shape_buffer::hb_font_t;
use shape_unicode::UnicodeDatabase;
use shaper_choice::{
    SCRIPT_SHAPERS, ScriptPlan, plan_by_script, shape_by_script, shape_with_script_plan,
};
use std::alloc::Global;
use text_lines::{ParagraphOptions, Part, PartShaper};

/// How many bytes five characters may have.
const MOST_CONTEXT: usize = 20;

/// A plan for texts in a font of a list.
#[derive(Drop)]
struct FontPlan<'f> {
    font: usize,
    plan: ScriptPlan<'f, hb_ot_map_t>,
}

/// What shapes the parts of a text: the fonts, what the caller asks for, and the plans that were
/// made.
#[derive(Drop)]
pub(crate) struct Shaper<'f, 'a> {
    text: &'f str,
    fonts: &'f [OpenedOpenTypeFace<'a>],
    features: &'f [Feature],
    language: Option<&'f str>,
    plans: Vec<FontPlan<'f>>,
}

/// What stands right before an offset of a text: the last five characters at least, which are all
/// that a buffer keeps, since it goes over all that it is given.
fn near_before(text: &str, at: usize) -> &str {
    let far = at.saturating_sub(MOST_CONTEXT);
    for skip in 0..4 {
        if let Some(near) = text.get(far.saturating_add(skip)..at) {
            return near;
        }
    }
    ""
}

/// The glyphs of a buffer by a plan that serves it.
fn by_plan(
    alloc: Global,
    face: &OpenedOpenTypeFace,
    plan: &ScriptPlan<'_, hb_ot_map_t>,
    buffer: UnicodeBuffer,
) -> Result<GlyphBuffer, ShapeError>
    requires { PlanFits unicode_database plan.now buffer }
{
    match shape_with_script_plan::<UnicodeDatabase, OpenedOpenTypeFace, OpenTypeLayout>(
        alloc, face, plan, buffer,
    ) {
        Ok(glyphs) => Ok(glyphs),
        Err(fault) => Err(fault.cause),
    }
}

/// The glyphs of a buffer by a plan of its own.
fn by_script(
    alloc: Global,
    face: &OpenedOpenTypeFace,
    features: &[Feature],
    buffer: UnicodeBuffer,
) -> Result<GlyphBuffer, ShapeError> {
    match shape_by_script::<UnicodeDatabase, OpenedOpenTypeFace, OpenTypeLayout>(
        alloc, face, features, buffer,
    ) {
        Ok(glyphs) => Ok(glyphs),
        Err(fault) => Err(fault.cause),
    }
}

/// A plan for a buffer.
fn plan_for<'f>(
    alloc: Global,
    face: &'f OpenedOpenTypeFace<'_>,
    features: &[Feature],
    buffer: &UnicodeBuffer,
) -> Result<ScriptPlan<'f, hb_ot_map_t>, ShapeError> {
    let inner = buffer.as_inner();
    let script = inner.guessed_script::<UnicodeDatabase>();
    plan_by_script::<UnicodeDatabase, OpenedOpenTypeFace, OpenTypeLayout>(
        alloc,
        face,
        &SCRIPT_SHAPERS,
        inner.direction_by::<UnicodeDatabase>(script),
        script,
        buffer.language(),
        features,
    )
}

impl<'f, 'a> Shaper<'f, 'a> {
    /// What shapes a text with fonts as the options ask.
    pub fn new(
        alloc: Global,
        text: &'f str,
        fonts: &'f [OpenedOpenTypeFace<'a>],
        options: &'f ParagraphOptions<'_>,
    ) -> Shaper<'f, 'a>
        ensures { result.fonts.now ≡ fonts.now }
    {
        Shaper {
            text,
            fonts,
            features: options.features,
            language: options.language,
            plans: Vec::new(alloc),
        }
    }

    /// Whether the text begins and ends with a part: a mark that it begins with is shown over a
    /// circle.
    fn flags_of(&self, part: Part) -> BufferFlags {
        let begins = if part.start == 0 {
            BufferFlags::BEGINNING_OF_TEXT.0
        } else {
            0
        };
        let ends = if part.end == self.text.len() {
            BufferFlags::END_OF_TEXT.0
        } else {
            0
        };
        BufferFlags(begins | ends)
    }

    /// A part of the text as a buffer, each character in the cluster of its first byte, with what
    /// stands beside the part.
    fn buffer_of(&self, alloc: Global, part: Part) -> Result<UnicodeBuffer, ShapeError> {
        let mut buffer = UnicodeBuffer::new(alloc);
        let inside = self.text.get(part.start..part.end).unwrap_or("");
        for (at, c) in inside.char_indices() {
            let cluster = part.start.saturating_add(at);
            buffer.add(c, u32::try_from(cluster).unwrap_or(u32::MAX))?;
        }
        buffer.set_pre_context(near_before(self.text, part.start));
        buffer.set_post_context(self.text.get(part.end..).unwrap_or(""));
        buffer.set_direction(if part.level % 2 == 0 {
            Direction::LeftToRight
        } else {
            Direction::RightToLeft
        });
        buffer.set_script(Some(part.script));
        buffer.set_flags(self.flags_of(part));
        if let Some(language) = self.language {
            buffer.set_language(Some(Language(String::from_str(alloc, language)?)));
        }
        Ok(buffer)
    }

    /// The place of a plan of a font for a buffer.
    fn plan_of(&self, font: usize, buffer: &UnicodeBuffer) -> Option<usize> {
        self.plans.iter().position(|kept| kept.font == font
            && kept.plan.fits::<UnicodeDatabase>(buffer))
    }
}

impl<'f, 'a> PartShaper for Shaper<'f, 'a> {
    ghost fonts = { λ shaper. map reach_of_face shaper.fonts.now };

    fn font_count(&self) -> usize {
        self.fonts.len()
    }

    fn units_per_em(&self, font: usize) -> u16 {
        match self.fonts.get(font) {
            Some(face) => face.units_per_em(),
            None => 0,
        }
    }

    fn reach(&self, font: usize) -> (i32, i32) {
        match self.fonts.get(font) {
            Some(face) => {
                let font = face.face().font();
                (font.ascender(), font.descender())
            }
            None => (0, 0),
        }
    }

    fn shape(&mut self, alloc: Global, font: usize, part: Part) -> Result<GlyphBuffer, ShapeError> {
        let Some(face) = self.fonts.get(font) else {
            return Ok(UnicodeBuffer::new(alloc).into_inner().into_glyphs());
        };
        let buffer = self.buffer_of(alloc, part)?;
        if self.plan_of(font, &buffer).is_none() {
            let plan = plan_for(alloc, face, self.features, &buffer)?;
            self.plans.push(FontPlan { font, plan })?;
        }
        let place = self.plan_of(font, &buffer).unwrap_or(0);
        match self.plans.get(place) {
            Some(kept) if kept.plan.fits::<UnicodeDatabase>(&buffer) => by_plan(
                alloc, face, &kept.plan, buffer,
            ),
            _ => by_script(alloc, face, self.features, buffer),
        }
    }
}
