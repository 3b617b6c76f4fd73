//! Glyphs that stand for other glyphs: one for one, and one for two.
ghost use Rattle.std.specs.Prelude.{◌≡◌, ◌≤◌, length};
ghost use Rattle.shape_items.specs.Buffer.{limit_of};
ghost use Rattle.shape_buffer.specs.Outcome.{Made};
ghost use Rattle.shape_users.specs.Ligatures.{single, singled, ligated_at, substituted};

use shape_buffer::buffer::{hb_buffer_t, hb_glyph_info_t};
use shape_buffer::walks::update_items;

/// A glyph, and the one that takes its place.
pub const SINGLE: (u32, u32) = (1, 11);

/// Two glyphs side by side, and the one that takes their place.
pub const LIGATURE: (u32, u32, u32) = (2, 3, 23);

/// An item with the other form of its glyph, if that has one.
fn single_of(info: &hb_glyph_info_t) -> hb_glyph_info_t
    ensures { result ≡ single info.now }
{
    let mut info = *info;
    if info.glyph_id == SINGLE.0 {
        info.glyph_id = SINGLE.1;
    }
    info
}

/// Puts the other form in place of each glyph that has one.
fn put_singles(buffer: &mut hb_buffer_t)
    ensures { Made singled buffer.old buffer.new }
{
    update_items(buffer, |info| single_of(info));
}

/// Puts the ligature in place of the two glyphs from a place on, if they are its parts. They are
/// one cluster first, so that the text of both is that of the ligature.
fn put_ligature(buffer: &mut hb_buffer_t, i: usize)
    ensures made { buffer.new ≡ ligated_at i buffer.old }
    ensures len { length buffer.new.items ≤ length buffer.old.items }
    ensures limit { limit_of buffer.new ≡ limit_of buffer.old }
{
    let count = buffer.len();
    if count < 2 || count - 2 < i {
        return;
    }
    if buffer.infos()[i].glyph_id != LIGATURE.0 || buffer.infos()[i + 1].glyph_id != LIGATURE.1 {
        return;
    }
    buffer.merge_clusters(i, i + 2);
    let mut info = buffer.infos()[i];
    info.glyph_id = LIGATURE.2;
    buffer.set_info(i, info);
    buffer.remove(i + 1);
}

/// Substitutes single glyphs, then ligatures from left to right. Takes no memory.
pub fn substitute(buffer: &mut hb_buffer_t)
    ensures made { buffer.new ≡ substituted buffer.old }
    ensures len { length buffer.new.items ≤ length buffer.old.items }
    ensures limit { limit_of buffer.new ≡ limit_of buffer.old }
{
    put_singles(buffer);
    for i in 0..buffer.len() {
        put_ligature(buffer, i);
    }
}
