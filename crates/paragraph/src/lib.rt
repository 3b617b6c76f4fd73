//! A paragraph in one call: text, fonts and a width make lines of positioned glyphs.
//!
//! The lines are those of `text_lines`; [`shaping`] shapes the parts of the text with the fonts of
//! a list.
#![tactic(auto)]

ghost use Rattle.std.specs.Prelude.{◌≡◌, [], Err, All, length, map, IfOk};
ghost use Rattle.paragraph.specs.Reach.{reach_of_face};
ghost use Rattle.std.specs.Str.{chars};
ghost use Rattle.text_lines.specs.Levels.{IsLevelled, byte_levels};
ghost use Rattle.text_lines.specs.Lines.{AreCutBy, AreLines};
ghost use Rattle.text_lines.specs.Reach.{Reaches, reaches_in, size_of};

mod shaping;
pub mod worked;

use crate::shaping::Shaper;
use opentype_layout::OpenedOpenTypeFace;
use std::alloc::Global;
use text_lines::text_lines;
pub use text_lines::{Direction, Glyph, ParagraphError, ParagraphOptions, TextLine, TextRun};

/// The lines of a text, in its order, with fonts of a list: each cluster in the first that has it,
/// each line as long as its width lets it, its runs from left to right. Refuses with `NoFonts` if
/// the list is empty.
pub fn paragraph(
    alloc: Global,
    fonts: &[OpenedOpenTypeFace<'_>],
    text: &str,
    options: &ParagraphOptions<'_>,
) -> Result<Vec<TextLine>, ParagraphError>
    ensures no_fonts { fonts.now ≡ [] → result ≡ Err ParagraphError.NoFonts }
    ensures follow { IfOk result (λ lines. AreLines 0 (length text.now) lines.items) }
    ensures cut { IfOk result (λ lines. AreCutBy text.now options.now.width lines.items) }
    ensures reach { let reaches = map reach_of_face fonts.now in IfOk result
        (λ lines. All (Reaches (reaches_in (size_of options.now.size reaches) reaches)) lines.items) }
    ensures levels { let bytes = byte_levels options.now.direction (chars text.now) in IfOk result
        (λ lines. All (IsLevelled bytes) lines.items) }
{
    if fonts.is_empty() {
        return Err(ParagraphError::NoFonts);
    }
    let mut shaper = Shaper::new(alloc, text, fonts, options);
    text_lines(alloc, &mut shaper, text, options)
}
