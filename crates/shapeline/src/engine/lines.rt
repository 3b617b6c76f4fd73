//! The line `lines W C ..`: shapes the characters, and prints the lines that their glyphs are cut
//! into.
ghost use Rattle.shape_lines.specs.CanCut.{CanCut};
ghost use Rattle.shape_sessions.specs.Lines.{IsAnswered};
ghost use Rattle.shape_sessions.specs.Text.{IsText, IsWidthAndText};
ghost use Rattle.shape_sessions.specs.Words as word_rules;

use crate::engine::answers;
use crate::engine::shapers::{ShaperTask, with_shaper};
use crate::engine::text::{filled, text_len, write_refusal};
use shape_buffer::buffer::{GlyphBuffer, ShapeError, UnicodeBuffer};
use shape_buffer::interfaces::{MapFace, NoLookups};
use shape_pipeline::lines::{can_cut, cut_lines};
use shape_pipeline::ot_shaper::hb_ot_shaper_t;
use shape_sessions::outcome::Outcome;
use shape_sessions::parse::{Words, natural};
use shape_sessions::printing::append_line;
use shape_sessions::session::TextSettings;
use shape_sessions::unicode_tables::UnicodeTables;
use std::alloc::Global;
use std::io::Write;

/// Shapes a text and writes the lines that it is cut into, or the number of the refusal. Malformed
/// if the first word is no width, if another is no character, or if 32 bits can't count the bytes
/// in UTF-8.
#[tactic(auto, using(crate::proofs::WidthLemmas::no_width, crate::proofs::WidthLemmas::other_width, crate::proofs::WidthLemmas::other_text, crate::proofs::WidthLemmas::width_and_text))]
pub fn answer<W: Write>(
    alloc: Global,
    face: &MapFace,
    text_settings: TextSettings,
    mut words: Words,
    writer: &mut W,
) -> Outcome
    ensures { IsAnswered (IsWidthAndText (word_rules.words words.entry.rest.now)) result }
{
    let Some(word) = words.next() else {
        return Outcome::Malformed;
    };
    let Some(width) = natural(word, u32::MAX) else {
        return Outcome::Malformed;
    };
    let Some(text_end) = text_len(words) else {
        return Outcome::Malformed;
    };
    let written = match lines(alloc, face, text_settings, words, text_end, width) {
        Ok(lines) => writer.write_all(lines.as_bytes()),
        Err(cause) => write_refusal(cause, writer),
    };
    match written {
        Ok(()) => Outcome::Done,
        Err(_) => Outcome::WriteFailed,
    }
}

/// The lines that are printed for a text, which ends at this cluster.
fn lines(
    alloc: Global,
    face: &MapFace,
    text_settings: TextSettings,
    words: Words,
    text_end: u32,
    width: u32,
) -> Result<String, ShapeError>
    requires { IsText (word_rules.words words.rest.now) }
{
    let text = filled(alloc, text_settings, words)?;
    with_shaper(
        text_settings.mode,
        Cutting {
            alloc,
            face,
            text,
            text_end,
            width,
        },
    )
}

/// A text that is to be shaped and cut into lines of some width.
struct Cutting<'a> {
    alloc: Global,
    face: &'a MapFace,
    text: UnicodeBuffer,
    text_end: u32,
    width: u32,
}

impl ShaperTask for Cutting<'_> {
    type Answer = Result<String, ShapeError>;

    fn run<S: hb_ot_shaper_t<UnicodeTables, MapFace, NoLookups>>(
        self,
        shaper: &S,
    ) -> Result<String, ShapeError> {
        let Cutting {
            alloc,
            face,
            mut text,
            text_end,
            width,
        } = self;
        let plan = answers::planned(alloc, face, shaper, &mut text)?;
        let glyphs = answers::shape(alloc, &plan, face, text)?;
        if can_cut(&glyphs, text_end) {
            printed_lines(alloc, &glyphs, text_end, width)
        } else {
            Ok(String::from_str(alloc, "uncut\n")?)
        }
    }
}

/// The lines of some glyphs, printed.
fn printed_lines(
    alloc: Global,
    glyphs: &GlyphBuffer,
    text_end: u32,
    width: u32,
) -> Result<String, ShapeError>
    requires { CanCut glyphs.now text_end }
{
    let mut lines = String::new(alloc);
    for line in &cut_lines(alloc, glyphs, text_end, width)? {
        if let Some(infos) = glyphs.glyph_infos().get(line.glyph_start..line.glyph_end) {
            append_line(&mut lines, line.text_start, line.text_end, infos)?;
        }
    }
    Ok(lines)
}
