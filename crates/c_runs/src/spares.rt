//! Buffers that are kept from one text to the next, so that the next one takes no memory.
ghost use Rattle.std.specs.Prelude.{◌≡◌, All};
ghost use Rattle.shape_items.specs.Buffer.{new_buffer};
ghost use Rattle.c_runs.specs.Plans.{IsNew};

use shape_buffer::buffer::{BufferClusterLevel, BufferFlags, GlyphBuffer, UnicodeBuffer};
use std::alloc::Global;

/// The most glyphs of a text whose buffer is kept: a long one would hold much memory.
const MOST_GLYPHS: usize = 1024;

/// A buffer as a new one is, which has the room of the glyphs that it had.
fn emptied(glyphs: GlyphBuffer) -> UnicodeBuffer
    ensures { result ≡ new_buffer }
{
    let mut buffer = glyphs.clear();
    buffer.set_flags(BufferFlags(0));
    buffer.set_cluster_level(BufferClusterLevel::MonotoneGraphemes);
    buffer.set_invisible_glyph(None);
    buffer.set_not_found_variation_selector_glyph(None);
    buffer
}

/// A buffer that is kept, or a new one.
pub(crate) fn take_spare(alloc: Global, spares: &mut Vec<UnicodeBuffer>) -> UnicodeBuffer
    requires { All IsNew spares.old.items }
    ensures new { result ≡ new_buffer }
    ensures all { All IsNew spares.new.items }
{
    match spares.pop() {
        Some(buffer) => buffer,
        None => UnicodeBuffer::new(alloc),
    }
}

/// Keeps the buffer of some glyphs, if there is room for it and there aren't too many. Takes no
/// memory.
pub(crate) fn keep_spare(spares: &mut Vec<UnicodeBuffer>, glyphs: GlyphBuffer)
    requires { All IsNew spares.old.items }
    ensures { All IsNew spares.new.items }
{
    if glyphs.len() <= MOST_GLYPHS && spares.len() < spares.capacity() {
        let _ = spares.push(emptied(glyphs));
    }
}
