//! Texts that stay as they are, as most do: their syllables stand as one character each, which the
//! face has, and nothing after one is part of it. So no syllable is taken apart only to be left
//! whole.
ghost use Rattle.std.specs.Prelude.{◌≡◌};
ghost use Rattle.script_shapers.specs.Hangul.{is_alone, are_alone, is_part};

use crate::hangul::jamo::{is_leading, is_syllable, is_tone, is_trailing};
use crate::hangul::syllables::char_at;
use shape_buffer::buffer::hb_glyph_info_t;
use shape_buffer::interfaces::hb_font_t;

/// Whether a character is part of the syllable before it.
fn is_part(c: Option<char>) -> bool
    ensures { result ≡ is_part c }
{
    match c {
        Some(c) => is_trailing(c) || is_tone(c),
        None => false,
    }
}

/// Whether a character stays as it is: a syllable that the face has, with no part of it after it,
/// or one that begins none.
fn is_alone<F: hb_font_t>(face: &F, c: char, next: Option<char>) -> bool
    ensures { result ≡ is_alone (F.face face.now) c next }
{
    if is_syllable(c) {
        return face.has_glyph(c) && !is_part(next);
    }
    !is_leading(c) && !is_tone(c)
}

/// Whether each item stays as it is.
#[tactic(auto, using(crate::proofs::AloneLemmas::alone_first, crate::proofs::AloneLemmas::alone_next))]
pub fn are_alone<F: hb_font_t>(face: &F, infos: &[hb_glyph_info_t]) -> bool
    ensures { result ≡ are_alone (F.face face.now) infos.now }
{
    for i in 0..infos.len() {
        if !is_alone(face, infos[i].codepoint, char_at(&infos[i..], 1)) {
            return false;
        }
    }
    true
}
