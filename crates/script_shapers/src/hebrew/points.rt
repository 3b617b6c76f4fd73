//! The order of points below a letter.
ghost use Rattle.std.specs.Prelude.{◌≡◌, ◌≤◌, length};
ghost use Rattle.script_shapers.specs.HebrewPoints.{is_triple, third_place, points_reordered};

use crate::marks::exchange;
use shape_buffer::buffer::{hb_buffer_t, hb_glyph_info_t};
use shape_buffer::interfaces::modified_combining_class as mcc;

/// Patah or qamats, then sheva or hiriq, then meteg or a mark below: their modified ccc.
fn is_triple(first: u8, second: u8, third: u8) -> bool
    ensures { result ≡ is_triple first second third }
{
    matches!(first, mcc::CCC17 | mcc::CCC18)
        && matches!(second, mcc::CCC10 | mcc::CCC14)
        && matches!(third, mcc::CCC22 | 220)
}

/// The place of the last mark of the first such three.
fn third_place(run: &[hb_glyph_info_t]) -> Option<usize>
    ensures { result ≡ third_place 0 0 0 run.now }
{
    let mut first = 0;
    let mut second = 0;
    for place in 0..run.len() {
        let third = run[place]._hb_glyph_info_get_modified_combining_class();
        if is_triple(first, second, third) {
            return Some(place);
        }
        first = second;
        second = third;
    }
    None
}

/// Of the first three such marks in a row, the third is put before the second, once the two are one
/// cluster.
#[tactic(auto, using(crate::specs::HebrewPoints::place_in_range))]
pub fn reorder_points(buffer: &mut hb_buffer_t, start: usize, end: usize)
    requires ordered { start ≤ end }
    requires within { end ≤ length buffer.old.items }
    ensures { buffer.new ≡ points_reordered buffer.old start end }
{
    if let Some(place) = third_place(&buffer.infos()[start..end]) {
        let third = start + place;
        buffer.merge_clusters(third - 1, third + 1);
        exchange(buffer, third - 1, third);
    }
}
