//! From a string to its lines: a paragraph is shaped once, and its glyphs are cut where lines end.
//!
//! A line is laid out by the glyphs of the whole text; or its piece of the text is shaped again,
//! with what stands before and after it as context, with the flag that it begins the text if it is
//! the first and to end it if it is the last. That a piece shaped alone looks as it does in the
//! whole is tested, not promised: no law speaks of two runs. The tests compare the two over marks,
//! ligatures and two script shapers, in both directions.
ghost use Rattle.std.specs.Prelude.{◌≡◌, ◌<◌, ◌^◌, pos, [], length, Err, IfOk};
ghost use Rattle.shape_lines.specs.RightLines.{AreRightLines};
ghost use Rattle.shape_pipeline.specs.GlyphsOf.{AreGlyphsOf, TextPasses};
ghost use Rattle.shape_pipeline.specs.Strings.{string_text};

use crate::plain_glyphs::glyphs_of_str;
use shape_pipeline::lines::{Line, cut_lines};
use shape_pipeline::shaping::TextRuns;
use shape_pipeline::{
    DEFAULT_SHAPER, GlyphBuffer, NoLookups, ShapeError, hb_default_shaper_t, hb_font_t,
    hb_unicode_funcs_t,
};
use std::alloc::Global;

/// The glyphs of a text, and the lines that they are cut into.
#[derive(Drop, Debug)]
pub struct ShapedLines {
    pub glyphs: GlyphBuffer,
    pub lines: Vec<Line>,
}

/// The lines of a text by the default shaper, without lookups: the glyphs are those that `shape`
/// makes of the text, and the lines right ones of them, of a width in units of the face. They are
/// in the order of the text, and the last one ends with its last byte. The text has fewer than 2^32
/// bytes, since clusters are 32 bits. Refuses with `Length` if a step would leave a list past the
/// run's limit, and with `Memory` if a growth was refused.
pub fn lines_of_text<U, F>(
    alloc: Global,
    face: &F,
    text: &str,
    width: u32,
) -> Result<ShapedLines, ShapeError>
where
    U: hb_unicode_funcs_t,
    F: hb_font_t,
    requires { length text.now < 2 ^ 32 }
    ensures glyphs { let whole = string_text text.now in
        let run = ⟦<hb_default_shaper_t as TextRuns<U, F, NoLookups>>⟧.text_run
        face.now DEFAULT_SHAPER [] whole in
        IfOk result (λ shaped. AreGlyphsOf run whole shaped.glyphs) }
    ensures lines { IfOk result (λ shaped.
        AreRightLines shaped.glyphs (length text.now) (pos width) shaped.lines.items) }
    ensures length { let whole = string_text text.now in
        let run = ⟦<hb_default_shaper_t as TextRuns<U, F, NoLookups>>⟧.text_run
        face.now DEFAULT_SHAPER [] whole in
        result ≡ Err ShapeError.Length → TextPasses run whole }
{
    let text_end = text.len() as u32;
    match glyphs_of_str::<U, F>(alloc, face, text) {
        Ok(glyphs) => {
            let lines = cut_lines(alloc, &glyphs, text_end, width)?;
            Ok(ShapedLines { glyphs, lines })
        }
        Err(fault) => Err(fault.cause),
    }
}
