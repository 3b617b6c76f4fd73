//! Runs over a face of tables, without lookups, and deletions.
ghost use Rattle.std.specs.Prelude.{◌≡◌};

use crate::runs::{Text, fill, shape_fresh, shape_kept};
use crate::table_face::TableFace;
use shape_buffer::buffer::{BufferClusterLevel, ShapeError, UnicodeBuffer, hb_buffer_t};
use shape_buffer::interfaces::{NoLookups, hb_glyph_extents_t};
use std::alloc::{AllocError, Global};

/// The level of a number: 0 and 1 are the two that keep clusters in order.
fn level_of(number: u32) -> BufferClusterLevel {
    match number {
        0 => BufferClusterLevel::MonotoneGraphemes,
        1 => BufferClusterLevel::MonotoneCharacters,
        _ => BufferClusterLevel::Characters,
    }
}

/// The boxes of glyphs, of four numbers each.
fn boxes_of(alloc: Global, numbers: &[i32]) -> Result<Vec<hb_glyph_extents_t>, AllocError> {
    let mut boxes = Vec::new(alloc);
    let mut rest = numbers;
    for _ in 0..numbers.len() {
        let [x_bearing, y_bearing, width, height, after @ ..] = rest else {
            return Ok(boxes);
        };
        boxes.push(hb_glyph_extents_t {
            x_bearing: *x_bearing,
            y_bearing: *y_bearing,
            width: *width,
            height: *height,
        })?;
        rest = after;
    }
    Ok(boxes)
}

/// Shapes a text of characters and clusters so many times: with one plan if `kept` holds, else with
/// a plan each time. A text without clusters is that of `utf8`. For 0 times nothing is shaped.
#[unsafe(no_mangle)]
pub extern "C" fn bench_shape(
    alloc: Global,
    utf8: &[u8],
    chars: &[u32],
    clusters: &[u32],
    glyphs: &[u32],
    advances: &[i32],
    boxes: &[i32],
    kept: u32,
    level: u32,
    times: u32,
) -> usize
    ensures { times ≡ 0 → result ≡ 0 }
{
    let (Ok(boxes), Ok(utf8)) = (boxes_of(alloc, boxes), str::from_utf8(utf8)) else {
        return 0;
    };
    if times == 0 {
        return 0;
    }
    let text = if clusters.is_empty() {
        Text::Utf8(utf8)
    } else {
        Text::Numbers(chars, clusters)
    };
    let face = TableFace {
        glyphs,
        advances,
        boxes: &boxes,
    };
    let outcome = if kept == 0 {
        shape_fresh::<TableFace<'_>, NoLookups>(alloc, &face, level_of(level), text, times)
    } else {
        shape_kept::<TableFace<'_>, NoLookups>(alloc, &face, level_of(level), text, times)
    };
    outcome.unwrap_or(0)
}

/// Deletes each U+0078.
#[inline(never)]
fn delete_x(buffer: &mut hb_buffer_t) {
    buffer.delete_glyphs_inplace(|info| info.codepoint == 'x');
}

/// Fills a buffer so many times, and deletes each U+0078 of it.
fn delete_times(alloc: Global, text: Text, times: u32) -> Result<usize, ShapeError> {
    let mut buffer = UnicodeBuffer::new(alloc);
    let mut count = 0;
    for _ in 0..times {
        fill(&mut buffer, text)?;
        let mut items = buffer.into_inner();
        delete_x(&mut items);
        count = items.len();
        buffer = items.clear();
    }
    Ok(count)
}

/// Fills a buffer with characters and clusters so many times, and deletes each U+0078 of it.
#[unsafe(no_mangle)]
pub extern "C" fn bench_delete(alloc: Global, chars: &[u32], clusters: &[u32], times: u32) -> usize
    ensures { times ≡ 0 → result ≡ 0 }
{
    if times == 0 {
        return 0;
    }
    delete_times(alloc, Text::Numbers(chars, clusters), times).unwrap_or(0)
}
