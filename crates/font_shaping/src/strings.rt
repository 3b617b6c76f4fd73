//! A string shaped with a font file.
ghost use Rattle.std.specs.Prelude.{◌≡◌, ◌≤◌, ◌^◌, ◌⊎◌, ◌↔◌, length, Err, IfOk, IfErr, MatchResult};
ghost use Rattle.shape_items.specs.Buffer.{new_buffer};
ghost use Rattle.shape_lines.specs.CanCut.{CanCut};
ghost use Rattle.opentype_layout.specs.Fonts.{units_of};
ghost use Rattle.opentype_layout.specs.declared.face.OpenTypeFace.{OpenTypeFace as Face};
ghost use Rattle.shape_pipeline.specs.GlyphsOf.{AreGlyphsOf, TextPasses};
ghost use Rattle.shape_pipeline.specs.Strings.{AreGlyphsOfString, string_text};
ghost use Rattle.font_shaping.specs.RunTries.{TriesNoMore};
ghost use Rattle.font_shaping.specs.Strings.{WithFaceOf, WithTextOf};

use crate::laws::{script_runs_preserve, script_runs_try_no_more_than_they_may};
use crate::shaping::shape_with_font;
use opentype_layout::{OpenTypeFace, OpenTypeLayout};
use shape_pipeline::strings::{strings_keep_promises, text_of_str};
use shape_pipeline::{
    Feature, GlyphBuffer, ShapeError, ShapeFault, UnicodeBuffer, hb_unicode_funcs_t,
};
use shaper_choice::choice::{ScriptRuns, by_script};
use std::alloc::Global;
use thiserror::Error;

/// Why a string was not shaped with the bytes of a font file.
#[derive(Clone, Copy, PartialEq, Eq, Debug, Error)]
pub enum FontError {
    /// The bytes have no font with this number, or its em square is empty.
    #[error("the bytes have no font with this number, or its em square is empty")]
    NoFont,
    /// A step would have left a list past the run's limit, or the string has 2^32 bytes and more.
    #[error("the text is too long, or its glyphs would be too many")]
    Length,
    /// A growth of memory was refused.
    #[error("out of memory")]
    Memory,
}

impl FontError {
    /// The reason of a refused run.
    fn of(cause: ShapeError) -> FontError
        ensures length { (result ≡ FontError.Length) ↔ (cause ≡ ShapeError.Length) }
        ensures font { result ≡ FontError.NoFont → ⊥ }
    {
        match cause {
            ShapeError::Length => FontError::Length,
            ShapeError::Memory => FontError::Memory,
        }
    }
}

/// The glyphs of a string with a font file, in the direction of its script and by the shaper that
/// this asks for: those that `shape_by_script` makes of its text with these features and nothing
/// else set. Nothing is asked of the string or the font: each cluster is the place of a character's
/// first byte in the string, clusters stand in the order in which the glyphs run, neighbours in one
/// cluster have the same flags, so that the glyphs can be cut into lines, no glyph is unsafe to
/// concat, and a string of at most 256 characters has at most 16384 glyphs, a longer one at most 64
/// for each. Refuses with `Length` a string of 2^32 bytes and more, or one of which a step would
/// leave a list past the run's limit, and with `Memory` if a growth was refused; a new buffer comes
/// back then. No font makes the lookups of the run try more than the number of characters lets
/// them.
pub fn shape_str<'a, U: hb_unicode_funcs_t>(
    alloc: Global,
    face: &OpenTypeFace<'a>,
    features: &[Feature],
    string: &str,
) -> Result<GlyphBuffer, ShapeFault>
    ensures glyphs { IfOk result (λ glyphs. WithTextOf string.now (λ text.
        let run = ⟦<by_script as ScriptRuns<U, OpenTypeFace<'a>, OpenTypeLayout>>⟧.text_run
        face.now features.now text in AreGlyphsOf run text glyphs)) }
    ensures length { IfErr result (λ fault. fault.cause ≡ ShapeError.Length
        → (2 ^ 32 ≤ length string.now) ⊎ WithTextOf string.now (λ text.
        let run = ⟦<by_script as ScriptRuns<U, OpenTypeFace<'a>, OpenTypeLayout>>⟧.text_run
        face.now features.now text in TextPasses run text)) }
    ensures bytes { 2 ^ 32 ≤ length string.now
        → MatchResult result (λ _. ⊥) (λ fault. fault.cause ≡ ShapeError.Length) }
    ensures of_string { IfOk result (AreGlyphsOfString U.unicode string.now) }
    ensures cut { IfOk result (λ glyphs. CanCut glyphs (length string.now)) }
    ensures refused { IfErr result (λ fault. fault.buffer ≡ new_buffer) }
    ensures tries { TriesNoMore face.now
        (⟦<by_script as ScriptRuns<U, OpenTypeFace<'a>, OpenTypeLayout>>⟧.text_run
        face.now features.now (string_text string.now)) }
{
    script_runs_preserve::<U>();
    script_runs_try_no_more_than_they_may::<U>();
    strings_keep_promises();
    match text_of_str(alloc, string) {
        Ok(text) => shape_with_font::<U>(alloc, face, features, text),
        Err(fault) => Err(fault),
    }
}

/// The glyphs of a string with the bytes of a font file, of the font with this number in a
/// collection: those that [`shape_str`] returns over the face of these bytes. For any bytes and any
/// string the call returns, and what it returns is so; `Length` comes when it would come there, and
/// `NoFont` exactly if the bytes have no such font. No bytes make the lookups of the run try more
/// than the number of characters lets them.
pub fn shape_with_bytes<U: hb_unicode_funcs_t>(
    alloc: Global,
    bytes: &[u8],
    index: u32,
    features: &[Feature],
    string: &str,
) -> Result<GlyphBuffer, FontError>
    ensures font { (result ≡ Err FontError.NoFont)
        ↔ (units_of bytes.now index ≡ 0) }
    ensures glyphs { IfOk result (λ glyphs. WithFaceOf bytes.now index (λ face. WithTextOf string.now (λ text.
        let run = ⟦<by_script as ScriptRuns<U, OpenTypeFace<'static>, OpenTypeLayout>>⟧.text_run
        face features.now text in AreGlyphsOf run text glyphs))) }
    ensures length { IfErr result (λ error. error ≡ FontError.Length
        → (2 ^ 32 ≤ length string.now) ⊎ WithFaceOf bytes.now index (λ face. WithTextOf string.now (λ text.
        let run = ⟦<by_script as ScriptRuns<U, OpenTypeFace<'static>, OpenTypeLayout>>⟧.text_run
        face features.now text in TextPasses run text))) }
    ensures bytes { 2 ^ 32 ≤ length string.now → MatchResult result (λ _. ⊥) (λ error.
        (error ≡ FontError.Length) ⊎ (error ≡ FontError.NoFont)) }
    ensures of_string { IfOk result (AreGlyphsOfString U.unicode string.now) }
    ensures cut { IfOk result (λ glyphs. CanCut glyphs (length string.now)) }
    ensures tries { (face : Face) → TriesNoMore face
        (⟦<by_script as ScriptRuns<U, OpenTypeFace<'static>, OpenTypeLayout>>⟧.text_run
        face features.now (string_text string.now)) }
{
    script_runs_try_no_more_than_they_may::<U>();
    match OpenTypeFace::from_slice(bytes, index) {
        Some(face) => match shape_str::<U>(alloc, &face, features, string) {
            Ok(glyphs) => Ok(glyphs),
            Err(fault) => Err(FontError::of(fault.cause)),
        },
        None => Err(FontError::NoFont),
    }
}
