//! The library for C: texts shaped with a font file, into arrays that the caller owns.
//! `bindings/c/luthgarn.h` declares what is exported here.
//!
//! A call reads slices, writes into slices, and returns; nothing is global. A font that is kept is
//! C's own: a pointer that [`kept`] hands out and takes back. `c_runs` has all but the exports.
#![tactic(auto)]
#![allow(non_camel_case_types)]

mod instances;
mod kept;

ghost use Rattle.std.specs.Prelude.{◌≡◌, ◌↔◌, ◌≤◌, ◌<◌, Some, None, length, map};
ghost use Rattle.std.specs.Str.{IsUtf8};
ghost use Rattle.opentype_layout.specs.Fonts.{IsFaceOf, units_of};
ghost use Rattle.c_runs.specs.Languages.{fitting};
ghost use Rattle.c_runs.specs.Numbers.{direction_number, feature_of_c, script_number};
ghost use Rattle.c_runs.specs.Outcomes.{IsUntouched, ServesBy};
ghost use Rattle.c_runs.specs.Texts;
ghost use Rattle.c_runs.specs.Texts.{Utf8, Utf16, filled_up};
ghost use Rattle.shape_text_forms.specs.Feature.{feature_of};
ghost use Rattle.shape_text_forms.specs.Names.{direction_of_text, script_of_text};

use c_runs::fonts::{face_of, font_of};
use c_runs::plain::{
    direction_code, luthgarn_feature, luthgarn_glyph, luthgarn_outcome, luthgarn_run,
};
use c_runs::refusal::{DONE, Refusal};
use c_runs::shape_opened;
use c_runs::texts::{Text, language_bytes};
use opentype_layout::{OpenTypeLayout, OpenedOpenTypeFace};
use shape_buffer::interfaces::hb_font_t;
use shape_text_forms::{direction_from_string, feature_from_string, script_from_string};
use shape_unicode::UnicodeDatabase;
use shaper_choice::choice::{ScriptRuns, by_script};
use std::alloc::Global;

/// The version of the library: 65536 times the first number, 256 times the second, and the third.
const VERSION: u32 = 0x00_02_00;

/// The version of the library, as the header has it.
#[unsafe(no_mangle)]
pub extern "C" fn luthgarn_version() -> u32
    ensures { result ≡ 512 }
{
    VERSION
}

/// How many units the em square has of the font with this number; 0 exactly if the bytes have no
/// such font.
#[unsafe(no_mangle)]
pub extern "C" fn luthgarn_units_per_em(font: &[u8], index: u32) -> u32
    ensures { result ≡ units_of font.now index }
{
    match font_of(font, index) {
        Some(face) => u32::from(face.units_per_em()),
        None => 0,
    }
}

/// Parses a feature, as `kern=0` or `aalt[3:5]=2`. A text that is none leaves `feature` as it was.
#[unsafe(no_mangle)]
pub extern "C" fn luthgarn_parse_feature(text: &[u8], feature: &mut luthgarn_feature) -> u32
    ensures parsed { result ≡ 0 → feature_of text.now ≡ Some (feature_of_c feature.new) }
    ensures none { (result ≡ 0 → ⊥) → (result ≡ 4) × (feature.new ≡ feature.old) }
    ensures each { IsUtf8 text.now → (feature_of text.now ≡ None → ⊥) → result ≡ 0 }
{
    match str::from_utf8(text) {
        Ok(text) => match feature_from_string(text) {
            Some(parsed) => {
                *feature = luthgarn_feature::of(parsed);
                DONE
            }
            None => Refusal::Text.code(),
        },
        Err(_) => Refusal::Text.code(),
    }
}

/// The number of a direction: 4 for a text that begins with `l`, 5 with `r`, 6 with `t`, 7 with
/// `b`, else 0, which asks for a guess.
#[unsafe(no_mangle)]
pub extern "C" fn luthgarn_parse_direction(text: &[u8]) -> u32
    ensures direction { IsUtf8 text.now → result ≡ direction_number (direction_of_text text.now) }
    ensures none { (IsUtf8 text.now → ⊥) → result ≡ 0 }
{
    match str::from_utf8(text) {
        Ok(text) => direction_code(direction_from_string(text)),
        Err(_) => 0,
    }
}

/// The tag of a script; 0 for an empty text, and one that isn't UTF-8, which asks for a guess.
#[unsafe(no_mangle)]
pub extern "C" fn luthgarn_parse_script(text: &[u8]) -> u32
    ensures script { IsUtf8 text.now → result ≡ script_number (script_of_text text.now) }
    ensures none { (IsUtf8 text.now → ⊥) → result ≡ 0 }
{
    match str::from_utf8(text) {
        Ok(text) => match script_from_string(text) {
            Some(script) => script.0.0,
            None => 0,
        },
        Err(_) => 0,
    }
}

/// Makes a run ask for the language of a name of BCP 47. Of a name of more than 64 bytes it has the
/// subtags that fit, as RFC 5646 cuts names (4.4.2).
#[unsafe(no_mangle)]
pub extern "C" fn luthgarn_set_language(run: &mut luthgarn_run, name: &[u8]) -> u32
    ensures set { run.new ≡ record run.old { language = filled_up 64 (fitting 64 name.now) } }
    ensures done { result ≡ 0 }
{
    run.language = language_bytes(name);
    DONE
}

/// Shapes the runs of a text with the font that has this number in a file.
fn shape_bytes(
    alloc: Global,
    font: &[u8],
    index: u32,
    features: &[luthgarn_feature],
    text: Text<'_>,
    runs: &mut [luthgarn_run],
    glyphs: &mut [luthgarn_glyph],
) -> luthgarn_outcome
    ensures font { (result.code ≡ 3) ↔ (units_of font.now index ≡ 0) }
    ensures untouched { units_of font.now index ≡ 0
        → IsUntouched runs.old runs.new glyphs.old glyphs.new result }
    ensures serves { (units_of font.now index ≡ 0 → ⊥) → ServesBy
        ⟦<by_script as ScriptRuns<UnicodeDatabase, OpenedOpenTypeFace<'static>, OpenTypeLayout>>⟧.text_run
        (IsFaceOf font.now index) (map feature_of_c features.now)
        (Texts.units_of text.entry) runs.old runs.new glyphs.old glyphs.new result }
    ensures within { (result.runs ≤ length runs.old) × (result.glyphs ≤ length glyphs.old) }
    ensures done { result.code ≡ 0 → result.runs ≡ length runs.old }
{
    let Some(face) = face_of(font, index) else {
        return luthgarn_outcome::refused(Refusal::Font);
    };
    match shape_opened(alloc, face, features, text, runs, glyphs) {
        Ok(outcome) => outcome,
        Err(refusal) => luthgarn_outcome::refused(refusal),
    }
}

/// Shapes the runs of a text, one after the other, and writes their glyphs one after the other: of
/// each run those that `shape_by_script` makes of its text. One plan serves all runs of one
/// direction, script and language. Stops at the first run that is refused; those before it are
/// done, and nothing is written past their glyphs.
#[unsafe(no_mangle)]
pub extern "C" fn luthgarn_shape(
    alloc: Global,
    font: &[u8],
    index: u32,
    features: &[luthgarn_feature],
    text: &[u8],
    runs: &mut [luthgarn_run],
    glyphs: &mut [luthgarn_glyph],
) -> luthgarn_outcome
    ensures font { (result.code ≡ 3) ↔ (units_of font.now index ≡ 0) }
    ensures untouched { units_of font.now index ≡ 0
        → IsUntouched runs.old runs.new glyphs.old glyphs.new result }
    ensures serves { (units_of font.now index ≡ 0 → ⊥) → ServesBy
        ⟦<by_script as ScriptRuns<UnicodeDatabase, OpenedOpenTypeFace<'static>, OpenTypeLayout>>⟧.text_run
        (IsFaceOf font.now index) (map feature_of_c features.now)
        (Utf8 text.now) runs.old runs.new glyphs.old glyphs.new result }
    ensures within { (result.runs ≤ length runs.old) × (result.glyphs ≤ length glyphs.old) }
    ensures done { result.code ≡ 0 → result.runs ≡ length runs.old }
{
    shape_bytes(alloc, font, index, features, Text::Utf8(text), runs, glyphs)
}

/// As `luthgarn_shape`, of a text in UTF-16: the places of runs, clusters and features count its
/// units, and a surrogate in no pair is U+FFFD.
#[unsafe(no_mangle)]
pub extern "C" fn luthgarn_shape_utf16(
    alloc: Global,
    font: &[u8],
    index: u32,
    features: &[luthgarn_feature],
    text: &[u16],
    runs: &mut [luthgarn_run],
    glyphs: &mut [luthgarn_glyph],
) -> luthgarn_outcome
    ensures font { (result.code ≡ 3) ↔ (units_of font.now index ≡ 0) }
    ensures untouched { units_of font.now index ≡ 0
        → IsUntouched runs.old runs.new glyphs.old glyphs.new result }
    ensures serves { (units_of font.now index ≡ 0 → ⊥) → ServesBy
        ⟦<by_script as ScriptRuns<UnicodeDatabase, OpenedOpenTypeFace<'static>, OpenTypeLayout>>⟧.text_run
        (IsFaceOf font.now index) (map feature_of_c features.now)
        (Utf16 text.now) runs.old runs.new glyphs.old glyphs.new result }
    ensures within { (result.runs ≤ length runs.old) × (result.glyphs ≤ length glyphs.old) }
    ensures done { result.code ≡ 0 → result.runs ≡ length runs.old }
{
    shape_bytes(
        alloc,
        font,
        index,
        features,
        Text::Utf16(text),
        runs,
        glyphs,
    )
}
