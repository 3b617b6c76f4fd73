//! What normalising makes of texts over the whole database, under a face that has every glyph.

use crate::every_glyph::EVERY_GLYPH;
use shape_buffer::buffer::{Direction, ShapeError, UnicodeBuffer, hb_buffer_t, hb_glyph_info_t};
use shape_buffer::interfaces::NoLookups;
use shape_pipeline::ot_shape::{hb_ot_shape_context_t, prepare_text};
use shape_pipeline::ot_shape_normalize::_hb_ot_shape_normalize;
use shape_pipeline::ot_shape_plan::hb_ot_shape_plan_t;
use shape_pipeline::ot_shaper::hb_ot_shaper_t;
use shape_unicode::UnicodeDatabase;
use std::alloc::Global;
use test_fixtures::TestFace;

/// A base to stand before a text, so that a mark stands past the first character whatever the text
/// is, and all its marks are put in order. It composes with nothing.
const BASE: char = 'q';

/// Its mark, which has the lowest ccc.
const MARK: char = '\u{334}';

/// A text after a base with a mark, each character in the cluster of its place.
fn text_of(alloc: Global, text: &[char]) -> Result<UnicodeBuffer, ShapeError> {
    let mut buffer = UnicodeBuffer::new(alloc);
    buffer.add(BASE, 0)?;
    buffer.add(MARK, 1)?;
    let mut place: u32 = 2;
    for c in text {
        buffer.add(*c, place)?;
        place = place.saturating_add(1);
    }
    Ok(buffer)
}

/// The plan for texts to the right, without a script.
fn planned<S>(alloc: Global, shaper: &S) -> Result<hb_ot_shape_plan_t<'_, S, (), ()>, ShapeError>
where
    S: hb_ot_shaper_t<UnicodeDatabase, TestFace<'static>, NoLookups, Data = ()>,
{
    hb_ot_shape_plan_t::new::<UnicodeDatabase, TestFace<'static>, NoLookups>(
        alloc,
        &EVERY_GLYPH,
        shaper,
        Direction::LeftToRight,
        None,
        None,
        &[],
    )
}

/// A text to the right, prepared.
fn prepared<S>(
    alloc: Global,
    plan: &hb_ot_shape_plan_t<'_, S, (), ()>,
    text: UnicodeBuffer,
) -> Result<hb_buffer_t, ShapeError>
where
    S: hb_ot_shaper_t<UnicodeDatabase, TestFace<'static>, NoLookups, Data = ()>,
{
    let mut buffer = text.into_inner();
    buffer.set_direction(Direction::LeftToRight);
    let mut ctx = hb_ot_shape_context_t {
        plan,
        face: &EVERY_GLYPH,
        buffer: &mut buffer,
        target_direction: Direction::LeftToRight,
    };
    prepare_text::<UnicodeDatabase, TestFace<'static>, NoLookups, S>(alloc, &mut ctx)?;
    Ok(buffer)
}

/// A text to the right, prepared, then normalised.
fn normalised_buffer<S>(
    alloc: Global,
    shaper: &S,
    text: UnicodeBuffer,
) -> Result<hb_buffer_t, ShapeError>
where
    S: hb_ot_shaper_t<UnicodeDatabase, TestFace<'static>, NoLookups, Data = ()>,
{
    let plan = planned(alloc, shaper)?;
    let mut buffer = prepared(alloc, &plan, text)?;
    _hb_ot_shape_normalize::<UnicodeDatabase, TestFace<'static>, NoLookups, S>(
        alloc,
        &plan,
        &mut buffer,
        &EVERY_GLYPH,
    )?;
    Ok(buffer)
}

/// The characters of items.
fn characters_of(alloc: Global, infos: &[hb_glyph_info_t]) -> Result<Vec<char>, ShapeError> {
    let mut list = Vec::new(alloc);
    for info in infos {
        list.push(info.codepoint)?;
    }
    Ok(list)
}

/// The characters of a text, after a base with a mark, once it is prepared and normalised by a
/// shaper. Refuses as these two do: memory, or a text that grows too long.
pub fn normalised<S>(alloc: Global, shaper: &S, text: &[char]) -> Result<Vec<char>, ShapeError>
where
    S: hb_ot_shaper_t<UnicodeDatabase, TestFace<'static>, NoLookups, Data = ()>,
{
    let buffer = normalised_buffer(alloc, shaper, text_of(alloc, text)?)?;
    characters_of(alloc, buffer.infos())
}
