//! The glyphs of a buffer, read in the order of their text: from the end of the list if clusters
//! fall.
ghost use Rattle.std.specs.Prelude.{◌≡◌, ◌<◌, ◌-◌, ◌==◌, length, get_or, not};
ghost use Rattle.shape_items.specs.Clusters.{clusters};
ghost use Rattle.shape_common.specs.Positions.{zero_position};
ghost use Rattle.shape_lines.specs.Pieces.{pieces_of, IsNarrow};
ghost use Rattle.shape_lines.specs.Places;
ghost use Rattle.shape_lines.specs.TextOrder.{falls, text_order, place_in, width_of};

use shape_buffer::buffer::{GlyphBuffer, hb_glyph_info_t};

/// A glyph as the cutter sees it: its width, and whether a line may end before it.
#[derive(Clone, Copy, Debug)]
pub(super) struct Piece {
    pub(super) width: i64,
    pub(super) cut: bool,
}

/// Whether clusters fall, so that the text runs from the end of the list.
pub(super) fn runs_back(infos: &[hb_glyph_info_t]) -> bool
    requires { 0 < length infos.now }
    ensures { result ≡ falls (clusters infos.now) }
{
    infos[infos.len() - 1].cluster < infos[0].cluster
}

/// Where the glyph of a place of the text stands in the list.
fn listed(infos: &[hb_glyph_info_t], place: usize) -> usize
    requires { place < length infos.now }
    ensures { result ≡ place_in (falls (clusters infos.now)) (length infos.now) place }
{
    if runs_back(infos) {
        infos.len() - 1 - place
    } else {
        place
    }
}

/// The cluster of the glyph at a place of the text.
pub(super) fn cluster_at(glyphs: &GlyphBuffer, place: usize) -> u32
    requires { place < length glyphs.now.items }
    ensures { result ≡ Places.cluster_at (text_order glyphs.now) place }
{
    let infos = glyphs.glyph_infos();
    infos[listed(infos, place)].cluster
}

/// The glyph at a place of the text. A line may end before it if its cluster isn't that of the
/// glyph before it, and it lacks `UNSAFE_TO_BREAK`.
pub(super) fn piece_at(glyphs: &GlyphBuffer, place: usize) -> Piece
    requires { place < length glyphs.now.items }
    ensures value { result ≡ get_or (pieces_of glyphs.now) place result }
    ensures narrow { IsNarrow result.width }
{
    let infos = glyphs.glyph_infos();
    let at = listed(infos, place);
    Piece {
        width: width_at(glyphs, at),
        cut: begins_cluster(glyphs, place) && !infos[at].unsafe_to_break(),
    }
}

/// Whether the glyph at a place of the text is in another cluster than the one before it.
pub(super) fn begins_cluster(glyphs: &GlyphBuffer, place: usize) -> bool
    requires { place < length glyphs.now.items }
    ensures { result ≡ not (Places.cluster_at (text_order glyphs.now) place
        == Places.cluster_at (text_order glyphs.now) (place - 1)) }
{
    place > 0 && cluster_at(glyphs, place) != cluster_at(glyphs, place - 1)
}

/// How far the glyph at a place of the list moves the pen on, downwards if the direction is
/// vertical.
fn width_at(glyphs: &GlyphBuffer, at: usize) -> i64
    requires { at < length glyphs.now.items }
    ensures value { result
        ≡ width_of glyphs.now.direction (get_or glyphs.now.positions at zero_position) }
    ensures as_many { length glyphs.now.positions ≡ length glyphs.now.items }
    ensures narrow { IsNarrow result }
{
    let positions = glyphs.glyph_positions();
    if glyphs.direction().is_vertical() {
        -i64::from(positions[at].y_advance)
    } else {
        i64::from(positions[at].x_advance)
    }
}
