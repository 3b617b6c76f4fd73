//! The advances of all glyphs, or at coordinates of as many as may be asked for at once.
ghost use Rattle.std.specs.Prelude.{◌≡◌, ◌≤◌, length, IfOk, IsOkUnless};
ghost use Rattle.opened_face.specs.Pages.{AreAdvances, IsStoredCount};

use shape_buffer::{GlyphId, ShapeError, hb_font_t};
use shape_font::FontFace;
use std::alloc::Global;

/// How many steps the stored advances take at most at coordinates, so that no font takes long to
/// open. At the default instance they take none.
pub const MOST_STEPS: u32 = 16_777_216;

/// The horizontal advances of the glyphs of a face: of all at the default instance, at coordinates
/// of the first ones, as many as take no more than [`MOST_STEPS`]. Refuses with `Memory` if a
/// growth was refused.
#[tactic(auto, using(crate::proofs::StepLemmas::steps_next))]
pub(crate) fn advances_of(alloc: Global, face: &FontFace<'_>) -> Result<Vec<i32>, ShapeError>
    ensures ok { IfOk result (λ advances. AreAdvances face.now advances.items) }
    ensures count { IfOk result (λ advances. IsStoredCount face.now (length advances.items)) }
    ensures memory { IsOkUnless result ShapeError.Memory }
{
    let count = face.glyph_count();
    let mut advances = Vec::with_capacity(alloc, usize::from(count))?;
    let mut left = MOST_STEPS;
    for number in 0..count {
        let glyph = GlyphId(u32::from(number));
        let steps = face.advance_steps(glyph);
        if left < steps {
            return Ok(advances);
        }
        left -= steps;
        advances.push(face.glyph_h_advance(glyph))?;
    }
    Ok(advances)
}
