//! The list of a text whose syllables are composed or taken apart, with their tone marks before
//! them.
//!
//! First each syllable is merged where it stands, then a new list is built: so the one call that
//! the limit may refuse comes last.
ghost use Rattle.std.specs.Prelude.{◌≡◌, ◌≤◌, ◌+◌, ◌++◌, true, length, OnOk, IfOk, IfErr};
ghost use Rattle.shape_items.specs.Buffer.{limit_of};
ghost use Rattle.shape_buffer.specs.Outcome.{Outcome, step};
ghost use Rattle.script_shapers.specs.Hangul.{of_kind, nth_kind, listed, trailing_kind, jamo_of};
ghost use Rattle.script_shapers.specs.Hangul.{parts_as};
ghost use Rattle.script_shapers.specs.Hangul.{glyphs_of};
ghost use Rattle.script_shapers.specs.Hangul.{turned, with_circle, both_of, block_at, block_taken};
ghost use Rattle.script_shapers.specs.Hangul.{next_items};
ghost use Rattle.script_shapers.specs.Hangul.{are_alone, next_skip, built, wants_circle, composed_text};

use crate::hangul::alone::are_alone;
use crate::hangul::jamo::is_tone;
use crate::hangul::marking::join_each;
use crate::hangul::syllables::{
    Size, Syllable, is_zero_width, syllable_at, taken_of, tone_after, up_to,
};
use shape_buffer::buffer::{
    BufferClusterLevel, BufferFlags, ShapeError, hb_buffer_t, hb_glyph_info_t,
};
use shape_buffer::interfaces::{hb_font_t, hb_unicode_funcs_t};
use std::alloc::Global;

/// How a text's tone marks are put.
#[derive(Clone, Copy, Debug)]
pub struct Tones {
    /// The level of its clusters.
    pub level: BufferClusterLevel,
    /// Whether one without a syllable gets a dotted circle.
    pub circle: bool,
}

/// An item as another character of a kind of jamo.
fn of_kind(info: &hb_glyph_info_t, c: char, kind: u8) -> hb_glyph_info_t
    ensures { result ≡ of_kind info.now c kind }
{
    let mut info = *info;
    info.codepoint = c;
    info._hb_glyph_info_set_shaper_auxiliary(kind);
    info
}

/// The item at a place of a list, as a kind of jamo.
fn nth_kind(rest: &[hb_glyph_info_t], i: usize, kind: u8) -> Option<hb_glyph_info_t>
    ensures { result ≡ nth_kind rest.now i kind }
{
    match rest.get(i) {
        Some(info) => Some(of_kind(info, info.codepoint, kind)),
        None => None,
    }
}

/// The trailing jamo of three.
fn trailing_kind(size: Size, rest: &[hb_glyph_info_t]) -> Option<hb_glyph_info_t>
    ensures { result ≡ trailing_kind size rest.now }
{
    match size {
        Size::Two => None,
        Size::Three => nth_kind(rest, 2, 3),
    }
}

/// Appends an item, if there is one.
fn put_found(
    items: &mut Vec<hb_glyph_info_t>,
    found: Option<hb_glyph_info_t>,
) -> Result<(), ShapeError>
    ensures ok { OnOk result (items.new.items ≡ items.old.items ++ listed found) }
    ensures memory { IfErr result (λ e. e ≡ ShapeError.Memory) }
{
    if let Some(info) = found {
        items.push(info)?;
    }
    Ok(())
}

/// Appends two or three jamo as they stand.
fn put_jamo(
    items: &mut Vec<hb_glyph_info_t>,
    rest: &[hb_glyph_info_t],
    size: Size,
) -> Result<(), ShapeError>
    ensures ok { OnOk result (items.new.items ≡ items.old.items ++ jamo_of size rest.now) }
    ensures memory { IfErr result (λ e. e ≡ ShapeError.Memory) }
{
    put_found(items, nth_kind(rest, 0, 1))?;
    put_found(items, nth_kind(rest, 1, 2))?;
    put_found(items, trailing_kind(size, rest))
}

/// Appends the parts of a syllable.
fn put_parts(
    items: &mut Vec<hb_glyph_info_t>,
    info: &hb_glyph_info_t,
    l: char,
    v: char,
    t: Option<char>,
) -> Result<(), ShapeError>
    ensures ok { OnOk result (items.new.items ≡ items.old.items ++ parts_as info.now l v t) }
    ensures memory { IfErr result (λ e. e ≡ ShapeError.Memory) }
{
    items.push(of_kind(info, l, 1))?;
    items.push(of_kind(info, v, 2))?;
    if let Some(t) = t {
        items.push(of_kind(info, t, 3))?;
    }
    Ok(())
}

/// Appends the items of a syllable.
fn put_syllable(
    items: &mut Vec<hb_glyph_info_t>,
    syllable: Syllable,
    info: &hb_glyph_info_t,
    rest: &[hb_glyph_info_t],
) -> Result<(), ShapeError>
    ensures ok { OnOk result (items.new.items ≡ items.old.items ++ glyphs_of syllable info.now rest.now) }
    ensures memory { IfErr result (λ e. e ≡ ShapeError.Memory) }
{
    match syllable {
        Syllable::Nothing | Syllable::Whole => items.push(*info)?,
        Syllable::Composed(_, whole) => items.push(of_kind(info, whole, 0))?,
        Syllable::Jamo(size) => put_jamo(items, rest, size)?,
        Syllable::Parts(l, v, t) => put_parts(items, info, l, v, t)?,
        Syllable::PartsBefore(l, v) => {
            put_parts(items, info, l, v, None)?;
            put_found(items, nth_kind(rest, 1, 3))?;
        }
    }
    Ok(())
}

/// A tone mark before an item.
fn turned(
    level: BufferClusterLevel,
    first: &hb_glyph_info_t,
    tone: hb_glyph_info_t,
) -> hb_glyph_info_t
    ensures { result ≡ turned level first.now tone }
{
    let mut info = tone;
    if level != BufferClusterLevel::Characters {
        info.cluster = first.cluster;
    }
    info
}

/// Appends a tone mark without a syllable, beside a dotted circle if the test says so.
fn put_tone(
    items: &mut Vec<hb_glyph_info_t>,
    info: &hb_glyph_info_t,
    circle: bool,
    zero_width: bool,
) -> Result<(), ShapeError>
    ensures ok { OnOk result (items.new.items ≡ items.old.items ++ with_circle circle zero_width info.now) }
    ensures memory { IfErr result (λ e. e ≡ ShapeError.Memory) }
{
    if !circle {
        items.push(*info)?;
    } else if zero_width {
        items.push(of_kind(info, '\u{25CC}', 0))?;
        items.push(*info)?;
    } else {
        items.push(*info)?;
        items.push(of_kind(info, '\u{25CC}', 0))?;
    }
    Ok(())
}

/// Appends a syllable with the tone mark after it.
fn put_both(
    items: &mut Vec<hb_glyph_info_t>,
    syllable: Syllable,
    info: &hb_glyph_info_t,
    rest: &[hb_glyph_info_t],
    turned_tone: hb_glyph_info_t,
    zero_width: bool,
) -> Result<(), ShapeError>
    ensures ok { OnOk result (items.new.items
        ≡ items.old.items ++ both_of (glyphs_of syllable info.now rest.now) turned_tone zero_width) }
    ensures memory { IfErr result (λ e. e ≡ ShapeError.Memory) }
{
    if zero_width {
        put_syllable(items, syllable, info, rest)?;
        items.push(turned_tone)?;
    } else {
        items.push(turned_tone)?;
        put_syllable(items, syllable, info, rest)?;
    }
    Ok(())
}

/// Appends what begins a list, and says how many items it is of.
fn put_block<U: hb_unicode_funcs_t, F: hb_font_t>(
    face: &F,
    tones: Tones,
    items: &mut Vec<hb_glyph_info_t>,
    info: &hb_glyph_info_t,
    rest: &[hb_glyph_info_t],
) -> Result<usize, ShapeError>
    ensures ok { OnOk result (items.new.items
        ≡ items.old.items ++ block_at U.unicode (F.face face.now) tones.level tones.circle info.now rest.now) }
    ensures count { IfOk result (λ n. n ≡ block_taken U.unicode (F.face face.now) info.now rest.now) }
    ensures memory { IfErr result (λ e. e ≡ ShapeError.Memory) }
{
    if is_tone(info.codepoint) {
        put_tone(
            items,
            info,
            tones.circle,
            is_zero_width(face, info.codepoint),
        )?;
        return Ok(1);
    }
    let syllable = syllable_at::<U, F>(face, rest);
    let taken = up_to(taken_of(syllable), rest);
    match tone_after(syllable, rest) {
        None => {
            put_syllable(items, syllable, info, rest)?;
            Ok(taken)
        }
        Some(tone) => {
            let zero_width = is_zero_width(face, tone.codepoint);
            let tone = if zero_width {
                tone
            } else {
                turned(tones.level, info, tone)
            };
            put_both(items, syllable, info, rest, tone, zero_width)?;
            Ok(taken.saturating_add(1))
        }
    }
}

/// Goes over a place: appends what begins there, unless it belongs to what began before it. Says
/// how many of the next items belong to what began before them.
fn put_next<U: hb_unicode_funcs_t, F: hb_font_t>(
    face: &F,
    tones: Tones,
    items: &mut Vec<hb_glyph_info_t>,
    info: &hb_glyph_info_t,
    rest: &[hb_glyph_info_t],
    skip: usize,
) -> Result<usize, ShapeError>
    ensures ok { OnOk result (items.new.items
        ≡ items.old.items ++ next_items U.unicode (F.face face.now) tones.level tones.circle skip info.now rest.now) }
    ensures count { IfOk result (λ n. n ≡ next_skip U.unicode (F.face face.now) skip info.now rest.now) }
    ensures memory { IfErr result (λ e. e ≡ ShapeError.Memory) }
{
    if skip != 0 {
        return Ok(skip - 1);
    }
    let taken = put_block::<U, F>(face, tones, items, info, rest)?;
    Ok(taken.saturating_sub(1))
}

/// The items with each syllable composed or taken apart.
fn built<U: hb_unicode_funcs_t, F: hb_font_t>(
    alloc: Global,
    face: &F,
    tones: Tones,
    infos: &[hb_glyph_info_t],
) -> Result<Vec<hb_glyph_info_t>, ShapeError>
    ensures ok { IfOk result (λ items. items.items
        ≡ built U.unicode (F.face face.now) tones.level tones.circle 0 infos.now) }
    ensures memory { IfErr result (λ e. e ≡ ShapeError.Memory) }
{
    let mut items: Vec<hb_glyph_info_t> = Vec::new(alloc);
    let mut skip = 0;
    for i in 0..infos.len() {
        skip = put_next::<U, F>(face, tones, &mut items, &infos[i], &infos[i..], skip)?;
    }
    Ok(items)
}

/// Whether tone marks without a syllable get a dotted circle.
fn wants_circle<F: hb_font_t>(face: &F, flags: BufferFlags) -> bool
    ensures { result ≡ wants_circle (F.face face.now) flags }
{
    flags.0 & 32 != 32 && face.has_glyph('\u{25CC}')
}

/// Whether the items of a text stay as they are, within the limit.
fn stays<F: hb_font_t>(face: &F, buffer: &hb_buffer_t) -> bool
    ensures within { result ≡ true → length buffer.now.items ≤ limit_of buffer.now }
    ensures alone { result ≡ true → are_alone (F.face face.now) buffer.now.items ≡ true }
{
    buffer.len() <= buffer.length_limit() && are_alone(face, buffer.infos())
}

/// Composes and takes apart the syllables of a text.
pub fn compose_text<U: hb_unicode_funcs_t, F: hb_font_t>(
    alloc: Global,
    face: &F,
    buffer: &mut hb_buffer_t,
) -> Result<(), ShapeError>
    ensures { Outcome (step (composed_text U.unicode (F.face face.now))) buffer.old buffer.new result }
{
    if stays(face, buffer) {
        buffer.clear_positions();
        return Ok(());
    }
    join_each::<U, F>(face, buffer);
    let tones = Tones {
        level: buffer.cluster_level(),
        circle: wants_circle(face, buffer.flags()),
    };
    let items = built::<U, F>(alloc, face, tones, buffer.infos())?;
    buffer.replace_infos(items)
}
