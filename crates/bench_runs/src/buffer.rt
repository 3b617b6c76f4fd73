//! The buffer's calls on texts of any length, whose cost should grow in step with the text, on
//! hostile texts too.
ghost use Rattle.std.specs.Prelude.{◌≡◌, IfOk, length};
ghost use Rattle.shape_items.specs.Spans.{AreSpansInOrder};

use shape_buffer::buffer::{ShapeError, UnicodeBuffer, hb_buffer_t, hb_glyph_info_t};
use shape_buffer::walks::update_items;
use std::alloc::{AllocError, Global};

/// Ordinary text: every second item is picked, and clusters rise.
fn plain(alloc: Global, count: u32) -> Result<hb_buffer_t, ShapeError> {
    let mut text = UnicodeBuffer::new(alloc);
    for i in 0..count {
        text.add(if i % 2 == 0 { 'a' } else { 'x' }, i)?;
    }
    Ok(text.into_inner())
}

/// A large kept cluster, and after it picked items whose clusters fall.
fn falling(alloc: Global, count: u32) -> Result<hb_buffer_t, ShapeError> {
    let mut text = UnicodeBuffer::new(alloc);
    for i in 0..count {
        if i < count / 2 {
            text.add('a', count)?;
        } else {
            text.add('x', count - i)?;
        }
    }
    Ok(text.into_inner())
}

/// A large kept cluster, and after it items that join it again and again: one is kept in a cluster
/// of its own, one picked takes it to the large cluster, and one picked takes all of that one down.
fn joining(alloc: Global, count: u32) -> Result<hb_buffer_t, ShapeError> {
    let mut text = UnicodeBuffer::new(alloc);
    for i in 0..count {
        let left = (count - i) / 3;
        if i < count / 2 {
            text.add('a', count)?;
        } else if i % 3 == 0 {
            text.add('b', u32::MAX)?;
        } else if i % 3 == 1 {
            text.add('x', left + 1)?;
        } else {
            text.add('x', left)?;
        }
    }
    Ok(text.into_inner())
}

/// Items each in a cluster of its own, which fall.
fn falling_each(alloc: Global, count: u32) -> Result<hb_buffer_t, ShapeError> {
    let mut text = UnicodeBuffer::new(alloc);
    for i in 0..count {
        text.add('a', count - i)?;
    }
    Ok(text.into_inner())
}

/// The item, a continuation if its character is 'x', which stands for a mark.
fn marked(info: &hb_glyph_info_t) -> hb_glyph_info_t {
    let mut item = *info;
    item._hb_glyph_info_set_continuation(info.codepoint == 'x');
    item
}

/// Graphemes of two items each, of which the second one is in the cluster that the next one begins
/// in: each takes in all those before it.
fn chained(alloc: Global, count: u32) -> Result<hb_buffer_t, ShapeError> {
    let mut text = UnicodeBuffer::new(alloc);
    for i in 0..count {
        let left = (count - i) / 2;
        text.add(if i % 2 == 0 { 'a' } else { 'x' }, left)?;
    }
    let mut buffer = text.into_inner();
    update_items(&mut buffer, |info| marked(info));
    Ok(buffer)
}

/// The spans of two neighbours each, of so many items.
fn neighbours(alloc: Global, len: usize) -> Result<Vec<(usize, usize)>, AllocError>
    ensures { IfOk result (λ spans. AreSpansInOrder 0 len spans.items) }
{
    let mut spans = Vec::new(alloc);
    for i in 1..len {
        spans.push((i - 1, i + 1))?;
    }
    Ok(spans)
}

/// Marks a text as unsafe to break.
#[inline(never)]
fn mark(buffer: &mut hb_buffer_t) {
    let end = buffer.len();
    buffer.unsafe_to_break(0, end);
}

/// Deletes each U+0078 of a text.
#[inline(never)]
fn delete(buffer: &mut hb_buffer_t) {
    buffer.delete_glyphs_inplace(|info| info.codepoint == 'x');
}

/// Merges the clusters of a text into one.
#[inline(never)]
fn merge(buffer: &mut hb_buffer_t) {
    let end = buffer.len();
    buffer.merge_clusters(0, end);
}

/// Merges each two neighbours of a text, one span after the other.
#[inline(never)]
fn merge_neighbours(buffer: &mut hb_buffer_t, spans: &[(usize, usize)])
    requires { AreSpansInOrder 0 (length buffer.old.items) spans.now }
{
    buffer.merge_spans_out(spans);
}

/// Merges the graphemes of a text.
#[inline(never)]
fn merge_graphemes(buffer: &mut hb_buffer_t) {
    buffer.merge_graphemes();
}

/// Makes a text of so many items, does the work of a number on it, and gives how many items are
/// left.
fn worked(alloc: Global, work: u32, count: u32) -> Result<usize, ShapeError> {
    let mut text = match work {
        0..=2 => plain(alloc, count)?,
        3 => falling(alloc, count)?,
        4 => joining(alloc, count)?,
        5 => falling_each(alloc, count)?,
        _ => chained(alloc, count)?,
    };
    match work {
        0 => mark(&mut text),
        2 => merge(&mut text),
        1 | 3 | 4 => delete(&mut text),
        5 => {
            let spans = neighbours(alloc, text.len())?;
            merge_neighbours(&mut text, &spans);
        }
        _ => merge_graphemes(&mut text),
    }
    Ok(text.len())
}

/// Does a work on a text of so many items, and gives how many are left: 0 marks, 1 deletes and 2
/// merges an ordinary text, 3 deletes where clusters fall, 4 where they join again and again, 5
/// merges each two neighbours where they fall, and 6 merges graphemes whose clusters chain.
#[unsafe(no_mangle)]
pub extern "C" fn bench_buffer(alloc: Global, work: u32, count: u32) -> usize
    ensures { count ≡ 0 → result ≡ 0 }
{
    if count == 0 {
        return 0;
    }
    worked(alloc, work, count).unwrap_or(0)
}
