//! Whether glyphs of a whole text look as those of a part of it that is shaped by itself.
use crate::comparing::assert_that;
use shape_pipeline::GlyphBuffer;
use std::process::Abort;

/// A glyph as it is seen: its number, its cluster, and its position.
type Seen = (u32, u32, (i32, i32, i32, i32));

/// What is seen of the glyph at a place in the list of a text whose first cluster is at `start`.
fn seen_at(glyphs: &GlyphBuffer, place: usize, start: u32) -> Option<Seen> {
    let info = glyphs.glyph_infos().get(place)?;
    let position = glyphs.glyph_positions().get(place)?;
    let placed = (
        position.x_advance,
        position.y_advance,
        position.x_offset,
        position.y_offset,
    );
    Some((info.glyph_id, info.cluster.wrapping_add(start), placed))
}

/// Asserts that the glyphs of a whole text from a place on look as all those of a part of it, the
/// first cluster of which is at `start`.
pub fn assert_looks_alike(
    rt: &impl Abort,
    whole: &GlyphBuffer,
    from: usize,
    part: &GlyphBuffer,
    start: u32,
) {
    for place in 0..part.len() {
        let wanted = seen_at(whole, from.saturating_add(place), 0);
        assert_that(rt, seen_at(part, place, start) == wanted);
    }
}
