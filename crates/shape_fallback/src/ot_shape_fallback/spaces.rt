//! Fallback spaces: a space that the face has no glyph for takes its width from the em square or
//! from another glyph.
//!
//! Normalising has put another glyph in the place of such a space and remembered how wide the space
//! is meant to be; here the glyph gets that advance, along the line alone.
ghost use Rattle.std.specs.Prelude.{◌≡◌, ◌<◌, ◌≤ℤ◌, false, neg_ℤ, negsuc};
ghost use Rattle.shape_buffer.specs.Outcome.{Made};
ghost use Rattle.shape_fallback.specs.Spaces;

use shape_buffer::buffer::{
    GlyphId, GlyphPosition, hb_buffer_t, hb_glyph_info_t, hb_unicode_general_category_t,
};
use shape_buffer::interfaces::hb_font_t;
use shape_buffer::interfaces::space_types::{
    SPACE_4_EM_18, SPACE_EM, SPACE_EM_2, SPACE_EM_3, SPACE_EM_4, SPACE_EM_5, SPACE_EM_6,
    SPACE_EM_16, SPACE_FIGURE, SPACE_NARROW, SPACE_PUNCTUATION, space_t,
};
use shape_buffer::position_walks::update_positions;
use shape_buffer::wrapping::{half, negative, quotient, sum};

/// The characters that a figure space may be as wide as.
const FIGURES: [char; 10] = ['0', '1', '2', '3', '4', '5', '6', '7', '8', '9'];

/// The characters that a punctuation space may be as wide as.
const STOPS: [char; 2] = ['.', ','];

/// Whether a type of space is a part of the em square.
#[tactic(auto, unfolding(crate::specs::Spaces::is_em_fraction))]
fn is_em_fraction(space_type: space_t) -> bool
    ensures { result ≡ Spaces.is_em_fraction space_type }
{
    matches!(
        space_type,
        SPACE_EM
            | SPACE_EM_2
            | SPACE_EM_3
            | SPACE_EM_4
            | SPACE_EM_5
            | SPACE_EM_6
            | SPACE_EM_16
            | SPACE_4_EM_18
    )
}

/// How wide the em square of a face is, or how high along vertical lines.
fn em_side<F: hb_font_t>(face: &F, horizontal: bool) -> i32
    ensures { result ≡ Spaces.em_side (F.face face.now) horizontal }
{
    if horizontal {
        face.x_scale()
    } else {
        face.y_scale()
    }
}

/// How much of an em square such a space takes: four eighteenths, or the part that its type names,
/// rounded.
#[tactic(auto, unfolding(crate::specs::Spaces::em_fraction))]
fn em_fraction(scale: i32, space_type: space_t) -> i32
    requires { 0 < space_type }
    ensures { result ≡ Spaces.em_fraction scale space_type }
{
    if space_type == SPACE_4_EM_18 {
        return (i64::from(scale) * 4 / 18) as i32;
    }
    let part = i32::from(space_type);
    quotient(sum(scale, part / 2), part)
}

/// That advance; along vertical lines, which go down, it is negative.
#[tactic(auto, using(shape_common::proofs::WrappingLemmas::kept_bits), unfolding(crate::specs::Spaces::em_advance))]
fn em_advance(horizontal: bool, scale: i32, space_type: space_t) -> i32
    requires { 0 < space_type }
    ensures value { result ≡ Spaces.em_advance horizontal (Spaces.em_fraction scale space_type) }
    ensures exact { horizontal ≡ false → negsuc 2147483646 ≤ℤ scale
        → result ≡ neg_ℤ (Spaces.em_fraction scale space_type) }
{
    let length = em_fraction(scale, space_type);
    if horizontal {
        return length;
    }
    negative(length)
}

/// The glyph of the first of some characters that has one.
fn first_glyph<F: hb_font_t>(face: &F, characters: &[char]) -> Option<GlyphId>
    ensures { result ≡ Spaces.first_glyph (F.face face.now) characters.now }
{
    for c in characters {
        if let Some(glyph) = face.get_nominal_glyph(*c) {
            return Some(glyph);
        }
    }
    None
}

/// The advance of the first of some characters that has a glyph; if none has, the one before.
#[tactic(auto, using(shape_common::proofs::WrappingLemmas::kept_bits), unfolding(crate::specs::Spaces::as_wide_as))]
fn as_wide_as<F: hb_font_t>(face: &F, horizontal: bool, characters: &[char], before: i32) -> i32
    ensures { result ≡ Spaces.as_wide_as (F.face face.now) horizontal characters.now before }
{
    let Some(glyph) = first_glyph(face, characters) else {
        return before;
    };
    if horizontal {
        return face.glyph_h_advance(glyph);
    }
    face.glyph_v_advance(glyph)
}

/// The advance along the line of a space of a type, which had another one before.
#[tactic(auto, using(shape_common::proofs::WrappingLemmas::kept_bits), unfolding(crate::specs::Spaces::space_advance))]
fn space_advance<F: hb_font_t>(face: &F, horizontal: bool, space_type: space_t, before: i32) -> i32
    ensures { result ≡ Spaces.space_advance (F.face face.now) horizontal space_type before }
{
    if is_em_fraction(space_type) {
        return em_advance(horizontal, em_side(face, horizontal), space_type);
    }
    match space_type {
        SPACE_FIGURE => as_wide_as(face, horizontal, &FIGURES, before),
        SPACE_PUNCTUATION => as_wide_as(face, horizontal, &STOPS, before),
        SPACE_NARROW => half(before),
        _ => before,
    }
}

/// A position with the advance of a space of a type.
#[tactic(auto, using(shape_common::proofs::WrappingLemmas::kept_bits), unfolding(crate::specs::Spaces::space_positioned))]
fn position_space<F: hb_font_t>(
    face: &F,
    horizontal: bool,
    space_type: space_t,
    mut position: GlyphPosition,
) -> GlyphPosition
    ensures { result ≡ Spaces.space_positioned (F.face face.now) horizontal space_type position }
{
    if horizontal {
        position.x_advance = space_advance(face, true, space_type, position.x_advance);
        return position;
    }
    position.y_advance = space_advance(face, false, space_type, position.y_advance);
    position
}

/// Whether an item is a space separator that no lookup has made a part of a ligature.
#[tactic(auto, unfolding(crate::specs::Spaces::is_lone_space))]
fn is_lone_space(info: &hb_glyph_info_t) -> bool
    ensures { result ≡ Spaces.is_lone_space info.now }
{
    matches!(
        info._hb_glyph_info_get_general_category(),
        hb_unicode_general_category_t::SpaceSeparator
    ) && !info._hb_glyph_info_get_ligated()
}

/// The position of an item: that of a lone space with its advance, any other as it was.
#[tactic(auto, unfolding(crate::specs::Spaces::item_spaced))]
fn space_item<F: hb_font_t>(
    face: &F,
    horizontal: bool,
    info: &hb_glyph_info_t,
    position: GlyphPosition,
) -> GlyphPosition
    ensures { result ≡ Spaces.item_spaced (F.face face.now) horizontal info.now position }
{
    if is_lone_space(info) {
        return position_space(
            face,
            horizontal,
            info._hb_glyph_info_get_space_type(),
            position,
        );
    }
    position
}

/// Gives every lone space of the buffer its advance.
#[tactic(auto, unfolding(crate::specs::Spaces::spaces_placed))]
pub(crate) fn put_space_advances<F: hb_font_t>(face: &F, buffer: &mut hb_buffer_t)
    ensures { Made (Spaces.spaces_placed (F.face face.now)) buffer.old buffer.new }
{
    let horizontal = buffer.direction().is_horizontal();
    update_positions(
        buffer,
        |info, position| space_item(face, horizontal, info, position),
    );
}
