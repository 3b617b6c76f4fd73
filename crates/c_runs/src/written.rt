//! Glyphs and names into the arrays of the caller.
ghost use Rattle.std.specs.Prelude.{◌≡◌, ◌≤◌, ◌<◌, ◌+◌, ◌++◌, length, take, drop};
ghost use Rattle.c_runs.specs.Glyphs.{glyphs_of};

use crate::plain::luthgarn_glyph;
use shape_buffer::buffer::GlyphBuffer;

/// How many glyphs there are.
pub fn count(glyphs: &GlyphBuffer) -> usize
    ensures items { result ≡ length glyphs.now.items }
    ensures glyphs { result ≡ length (glyphs_of glyphs.now) }
{
    let positions = glyphs.glyph_positions();
    positions.len()
}

/// Writes glyphs to the places from `start` on.
pub fn write(glyphs: &GlyphBuffer, room: &mut [luthgarn_glyph], start: usize)
    requires { start + length glyphs.now.items ≤ length room.old }
    ensures { room.new ≡ take start room.old ++ (glyphs_of glyphs.now
        ++ drop (start + length glyphs.now.items) room.old) }
{
    let (infos, positions) = (glyphs.glyph_infos(), glyphs.glyph_positions());
    for k in 0..infos.len() {
        room[start + k] = luthgarn_glyph::of(&infos[k], &positions[k]);
    }
}

/// Writes bytes to the first places, if there is room for all.
pub fn put_bytes(bytes: &[u8], room: &mut [u8])
    ensures fits { length bytes.now ≤ length room.old
        → room.new ≡ bytes.now ++ drop (length bytes.now) room.old }
    ensures none { length room.old < length bytes.now → room.new ≡ room.old }
{
    if bytes.len() <= room.len() {
        room[..bytes.len()].copy_from_slice(bytes);
    }
}
