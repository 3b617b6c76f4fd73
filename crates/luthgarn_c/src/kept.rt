//! Fonts that are kept between calls.
ghost use Rattle.std.specs.Prelude.{◌≡◌, ◌↔◌, ◌≤◌, Some, None, [], length, map, IfOk, IfErr};
ghost use Rattle.opentype_layout.specs.Fonts.{units_of};
ghost use Rattle.c_runs.specs.Numbers.{feature_of_c};
ghost use Rattle.c_runs.specs.Opened.{IsNamed, IsOpened, IsOpenedAt, name_kept, units_kept};
ghost use Rattle.c_runs.specs.Outcomes.{IsUntouched, ServesBy};
ghost use Rattle.c_runs.specs.Texts;
ghost use Rattle.c_runs.specs.Texts.{Utf8, Utf16};
ghost use Rattle.opentype_layout.specs.declared.face.OpenTypeFace.{OpenTypeFace as AnyFace};

use c_runs::fonts::face_at;
use c_runs::handle::luthgarn_font;
use c_runs::kept::KeptFont;
use c_runs::plain::{luthgarn_feature, luthgarn_glyph, luthgarn_outcome, luthgarn_run};
use c_runs::refusal::{DONE, Refusal};
use c_runs::texts::Text;
use opentype_layout::{OpenTypeFace, OpenTypeLayout, OpenedOpenTypeFace};
use shape_unicode::UnicodeDatabase;
use shaper_choice::choice::{ScriptRuns, by_script};
use std::alloc::Global;

/// A value in a box that C may hand to another thread. Refuses with `Memory` alone.
fn boxed<T: Drop + Send>(alloc: Global, value: T) -> Result<Box<T>, Refusal>
    ensures ok { IfOk result (λ made. made.value ≡ value) }
    ensures memory { IfErr result (λ e. e ≡ Refusal.Memory) }
{
    Ok(Box::new(alloc, value)?)
}

/// The font of a face, in a box. Refuses with `Memory` alone.
fn opened(alloc: Global, face: OpenTypeFace<'static>) -> Result<Box<KeptFont>, Refusal>
    ensures ok { IfOk result (λ kept. kept.value ≡ face.entry) }
    ensures memory { IfErr result (λ e. e ≡ Refusal.Memory) }
{
    let kept = KeptFont::open(alloc, face)?;
    boxed(alloc, kept)
}

/// A font that shares what this one has opened, in a box. Refuses with `Memory` alone.
fn shared(alloc: Global, kept: &KeptFont) -> Result<Box<KeptFont>, Refusal>
    ensures ok { IfOk result (λ copy. copy.value ≡ kept.now) }
    ensures memory { IfErr result (λ e. e ≡ Refusal.Memory) }
{
    let copy = kept.share(alloc)?;
    boxed(alloc, copy)
}

/// Opens the font with this number: `font` keeps it, in place of what it kept. The bytes have to
/// stay as they are for as long as that font, or one that shares it, is open. A refusal leaves
/// `font` as it was.
#[unsafe(no_mangle)]
pub extern "C" fn luthgarn_font_new(
    alloc: Global,
    bytes: &'static [u8],
    index: u32,
    font: &mut luthgarn_font,
) -> u32
    ensures none { (result ≡ 3) ↔ (units_of bytes.now index ≡ 0) }
    ensures opened { result ≡ 0 → IsOpened bytes.now index font.new.kept.face }
    ensures refused { (result ≡ 0 → ⊥) → font.new.kept.face ≡ font.old.kept.face }
{
    luthgarn_font_new_at(alloc, bytes, index, &[], font)
}

/// As `luthgarn_font_new`, at coordinates, as `luthgarn_coordinates` writes them; none are the
/// default instance. They have to stay as they are for as long as the bytes do.
#[unsafe(no_mangle)]
pub extern "C" fn luthgarn_font_new_at(
    alloc: Global,
    bytes: &'static [u8],
    index: u32,
    coordinates: &'static [i32],
    font: &mut luthgarn_font,
) -> u32
    ensures none { (result ≡ 3) ↔ (units_of bytes.now index ≡ 0) }
    ensures opened { result ≡ 0 → IsOpenedAt bytes.now index coordinates.now font.new.kept.face }
    ensures plain { result ≡ 0 → coordinates.now ≡ [] → IsOpened bytes.now index font.new.kept.face }
    ensures refused { (result ≡ 0 → ⊥) → font.new.kept.face ≡ font.old.kept.face }
{
    let Some(face) = face_at(bytes, index, coordinates) else {
        return Refusal::Font.code();
    };
    match opened(alloc, face) {
        Ok(kept) => {
            let _ = font.take(alloc);
            *font = luthgarn_font::of(kept);
            DONE
        }
        Err(refusal) => refusal.code(),
    }
}

/// Lets go of a font. `font` keeps none then.
#[unsafe(no_mangle)]
pub extern "C" fn luthgarn_font_free(alloc: Global, font: &mut luthgarn_font)
    ensures { font.new.kept.face ≡ None }
{
    let _ = font.take(alloc);
}

/// How many units the em square has of a kept font; 0 if none is kept.
#[unsafe(no_mangle)]
pub extern "C" fn luthgarn_font_units_per_em(alloc: Global, font: &mut luthgarn_font) -> u32
    ensures units { result ≡ units_kept font.old.kept.face }
    ensures kept { font.new.kept.face ≡ font.old.kept.face }
{
    let Some(kept) = font.take(alloc) else {
        return 0;
    };
    let units = u32::from(kept.units_per_em());
    *font = luthgarn_font::of(kept);
    units
}

/// Writes the name of a glyph by the font's table `post`, or else by the charset of `CFF `, if
/// there is room for it, and gives how many bytes it has; 0 if it has none, or no font is kept.
#[unsafe(no_mangle)]
pub extern "C" fn luthgarn_font_glyph_name(
    alloc: Global,
    font: &mut luthgarn_font,
    glyph: u32,
    name: &mut [u8],
) -> usize
    ensures name { IsNamed (name_kept font.old.kept.face glyph) name.old name.new result }
    ensures kept { font.new.kept.face ≡ font.old.kept.face }
{
    let Some(kept) = font.take(alloc) else {
        return 0;
    };
    let count = kept.write_name(glyph, name);
    *font = luthgarn_font::of(kept);
    count
}

/// Makes `copy` keep the same font: both share what was opened, so that two threads may shape with
/// one each. A refusal leaves `copy` as it was.
#[unsafe(no_mangle)]
pub extern "C" fn luthgarn_font_share(
    alloc: Global,
    font: &mut luthgarn_font,
    copy: &mut luthgarn_font,
) -> u32
    ensures none { (result ≡ 3) ↔ (font.old.kept.face ≡ None) }
    ensures shared { result ≡ 0 → copy.new.kept.face ≡ font.old.kept.face }
    ensures kept { font.new.kept.face ≡ font.old.kept.face }
    ensures refused { (result ≡ 0 → ⊥) → copy.new.kept.face ≡ copy.old.kept.face }
{
    let Some(kept) = font.take(alloc) else {
        return Refusal::Font.code();
    };
    let made = shared(alloc, &kept);
    *font = luthgarn_font::of(kept);
    match made {
        Ok(made) => {
            let _ = copy.take(alloc);
            *copy = luthgarn_font::of(made);
            DONE
        }
        Err(refusal) => refusal.code(),
    }
}

/// Shapes the runs of a text with a kept font.
fn shape_kept(
    alloc: Global,
    font: &mut luthgarn_font,
    features: &[luthgarn_feature],
    text: Text<'_>,
    runs: &mut [luthgarn_run],
    glyphs: &mut [luthgarn_glyph],
) -> luthgarn_outcome
    ensures none { font.old.kept.face ≡ None → (result.code ≡ 3)
        × IsUntouched runs.old runs.new glyphs.old glyphs.new result }
    ensures serves { (face : AnyFace) → font.old.kept.face ≡ Some face → ServesBy
        ⟦<by_script as ScriptRuns<UnicodeDatabase, OpenedOpenTypeFace<'static>, OpenTypeLayout>>⟧.text_run
        (λ f. f ≡ face) (map feature_of_c features.now)
        (Texts.units_of text.entry) runs.old runs.new glyphs.old glyphs.new result }
    ensures kept { font.new.kept.face ≡ font.old.kept.face }
    ensures within { (result.runs ≤ length runs.old) × (result.glyphs ≤ length glyphs.old) }
    ensures done { result.code ≡ 0 → result.runs ≡ length runs.old }
{
    let Some(mut kept) = font.take(alloc) else {
        return luthgarn_outcome::refused(Refusal::Font);
    };
    let shaped = kept.shape(alloc, features, text, runs, glyphs);
    *font = luthgarn_font::of(kept);
    match shaped {
        Ok(outcome) => outcome,
        Err(refusal) => luthgarn_outcome::refused(refusal),
    }
}

/// Shapes the runs of a text with a kept font, as `luthgarn_shape` does with the bytes of one;
/// nothing is opened, and what was planned for earlier texts isn't planned again.
#[unsafe(no_mangle)]
pub extern "C" fn luthgarn_shape_font(
    alloc: Global,
    font: &mut luthgarn_font,
    features: &[luthgarn_feature],
    text: &[u8],
    runs: &mut [luthgarn_run],
    glyphs: &mut [luthgarn_glyph],
) -> luthgarn_outcome
    ensures none { font.old.kept.face ≡ None → (result.code ≡ 3)
        × IsUntouched runs.old runs.new glyphs.old glyphs.new result }
    ensures serves { (face : AnyFace) → font.old.kept.face ≡ Some face → ServesBy
        ⟦<by_script as ScriptRuns<UnicodeDatabase, OpenedOpenTypeFace<'static>, OpenTypeLayout>>⟧.text_run
        (λ f. f ≡ face) (map feature_of_c features.now)
        (Utf8 text.now) runs.old runs.new glyphs.old glyphs.new result }
    ensures kept { font.new.kept.face ≡ font.old.kept.face }
    ensures within { (result.runs ≤ length runs.old) × (result.glyphs ≤ length glyphs.old) }
    ensures done { result.code ≡ 0 → result.runs ≡ length runs.old }
{
    shape_kept(alloc, font, features, Text::Utf8(text), runs, glyphs)
}

/// As `luthgarn_shape_font`, of a text in UTF-16, as `luthgarn_shape_utf16` has it.
#[unsafe(no_mangle)]
pub extern "C" fn luthgarn_shape_font_utf16(
    alloc: Global,
    font: &mut luthgarn_font,
    features: &[luthgarn_feature],
    text: &[u16],
    runs: &mut [luthgarn_run],
    glyphs: &mut [luthgarn_glyph],
) -> luthgarn_outcome
    ensures none { font.old.kept.face ≡ None → (result.code ≡ 3)
        × IsUntouched runs.old runs.new glyphs.old glyphs.new result }
    ensures serves { (face : AnyFace) → font.old.kept.face ≡ Some face → ServesBy
        ⟦<by_script as ScriptRuns<UnicodeDatabase, OpenedOpenTypeFace<'static>, OpenTypeLayout>>⟧.text_run
        (λ f. f ≡ face) (map feature_of_c features.now)
        (Utf16 text.now) runs.old runs.new glyphs.old glyphs.new result }
    ensures kept { font.new.kept.face ≡ font.old.kept.face }
    ensures within { (result.runs ≤ length runs.old) × (result.glyphs ≤ length glyphs.old) }
    ensures done { result.code ≡ 0 → result.runs ≡ length runs.old }
{
    shape_kept(alloc, font, features, Text::Utf16(text), runs, glyphs)
}
