//! The whole of stretching.
ghost use Rattle.std.specs.Prelude.{◌≡◌, ◌≤◌, length, map, OnOk, IfOk, IsOkUnless};
ghost use Rattle.std.specs.List.{list_any};
ghost use Rattle.shape_items.specs.Buffer.{limit_of};
ghost use Rattle.shape_buffer.specs.Outcome.{IsWithinLimit, Made, Outcome, step};
ghost use Rattle.arabic_stretching.specs.Tiles;
ghost use Rattle.arabic_stretching.specs.Stretching.{glyphs_from, glyph_info, glyph_position, is_leftward, turned, laid, laid_within, stretched};

use crate::copying::stretch;
use crate::fitting::Glyph;
use crate::tiles::{is_tile, mark_spans};
use shape_buffer::buffer::{Direction, GlyphPosition, ShapeError, hb_buffer_t, hb_glyph_info_t};
use shape_buffer::interfaces::hb_font_t;
use std::alloc::Global;

/// The glyphs of a buffer with their positions.
fn glyphs_of(alloc: Global, buffer: &hb_buffer_t) -> Result<Vec<Glyph>, ShapeError>
    ensures ok { IfOk result (λ out. out.items
        ≡ glyphs_from buffer.now.items buffer.now.positions) }
    ensures memory { IsOkUnless result ShapeError.Memory }
{
    let mut out = Vec::new(alloc);
    for i in 0..buffer.len() {
        out.push(Glyph {
            info: buffer.infos()[i],
            position: buffer.positions()[i],
        })?;
    }
    Ok(out)
}

fn infos_of(alloc: Global, glyphs: &[Glyph]) -> Result<Vec<hb_glyph_info_t>, ShapeError>
    ensures ok { IfOk result (λ out. out.items ≡ map glyph_info glyphs.now) }
    ensures memory { IsOkUnless result ShapeError.Memory }
{
    let mut out = Vec::new(alloc);
    for glyph in glyphs {
        out.push(glyph.info)?;
    }
    Ok(out)
}

fn positions_of(alloc: Global, glyphs: &[Glyph]) -> Result<Vec<GlyphPosition>, ShapeError>
    ensures ok { IfOk result (λ out. out.items ≡ map glyph_position glyphs.now) }
    ensures memory { IsOkUnless result ShapeError.Memory }
{
    let mut out = Vec::new(alloc);
    for glyph in glyphs {
        out.push(glyph.position)?;
    }
    Ok(out)
}

/// Makes these the glyphs of a buffer.
fn put(alloc: Global, glyphs: &[Glyph], buffer: &mut hb_buffer_t) -> Result<(), ShapeError>
    ensures ok { OnOk result (buffer.new ≡ laid glyphs.now buffer.old) }
    ensures memory { IsOkUnless result ShapeError.Memory }
{
    let infos = infos_of(alloc, glyphs)?;
    let positions = positions_of(alloc, glyphs)?;
    buffer.put_lists(infos, positions)
}

/// Puts the tiles of a text in its order over their words, and marks them unsafe to break with
/// these. Changes nothing if there would be more glyphs than the run may make, as HarfBuzz does.
#[tactic(auto, using(crate::proofs::OutcomeLemmas::too_long, crate::proofs::OutcomeLemmas::laid_fits))]
fn lay_out<F: hb_font_t>(
    alloc: Global,
    face: &F,
    right_to_left: bool,
    buffer: &mut hb_buffer_t,
) -> Result<(), ShapeError>
    requires { IsWithinLimit buffer.old }
    ensures ok { OnOk result
        (buffer.new ≡ laid_within (F.face face.now) right_to_left buffer.old) }
    ensures within { OnOk result (length buffer.new.items ≤ limit_of buffer.old) }
    ensures limit { OnOk result (limit_of buffer.new ≡ limit_of buffer.old) }
    ensures memory { IsOkUnless result ShapeError.Memory }
{
    let glyphs = glyphs_of(alloc, buffer)?;
    let limit = buffer.length_limit();
    match stretch(alloc, face, right_to_left, limit, glyphs.as_slice()) {
        Ok(stretched) => {
            put(alloc, stretched.as_slice(), buffer)?;
            mark_spans(buffer);
            Ok(())
        }
        Err(ShapeError::Length) => Ok(()),
        Err(ShapeError::Memory) => Err(ShapeError::Memory),
    }
}

/// Whether a text runs from right to left.
fn is_leftward(direction: Direction) -> bool
    ensures { result ≡ is_leftward direction }
{
    match direction {
        Direction::RightToLeft => true,
        _ => false,
    }
}

/// The glyphs in the order of the text, if that is the other one; and back.
fn turn(right_to_left: bool, buffer: &mut hb_buffer_t)
    ensures { Made (turned right_to_left) buffer.old buffer.new }
{
    if right_to_left {
        buffer.reverse();
    }
}

fn has_tiles(infos: &[hb_glyph_info_t]) -> bool
    ensures { result ≡ list_any Tiles.is_tile infos.now }
{
    infos.iter().any(|info| is_tile(info))
}

/// Repeats the tiles of signs, so that each sign is as wide as the word after it and stands over
/// it, and marks both unsafe to break. It belongs after positioning, and changes nothing if no tile
/// was noted, or if there would be more glyphs than the run may make. Refuses with `Memory` if a
/// growth was refused, and with nothing else.
pub fn stretch_tiles<F: hb_font_t>(
    alloc: Global,
    face: &F,
    buffer: &mut hb_buffer_t,
) -> Result<(), ShapeError>
    requires { IsWithinLimit buffer.old }
    ensures outcome { Outcome (step (stretched (F.face face.now))) buffer.old buffer.new result }
    ensures memory { IsOkUnless result ShapeError.Memory }
{
    if !has_tiles(buffer.infos()) {
        return Ok(());
    }
    let right_to_left = is_leftward(buffer.direction());
    turn(right_to_left, buffer);
    lay_out(alloc, face, right_to_left, buffer)?;
    turn(right_to_left, buffer);
    Ok(())
}
