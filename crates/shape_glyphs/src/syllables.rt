//! Syllables, which some shapers number to keep their lookups inside one.
ghost use Rattle.std.specs.Prelude.{◌≡◌};
ghost use Rattle.shape_buffer.specs.Outcome.{Made};
ghost use Rattle.shape_glyphs.specs.Classes;

use shape_buffer::buffer::{hb_buffer_t, hb_glyph_info_t};
use shape_buffer::walks::update_items;

/// An item in syllable 0.
fn without_syllable(info: &hb_glyph_info_t) -> hb_glyph_info_t
    ensures { result ≡ Classes.without_syllable info.now }
{
    let mut info = *info;
    info._hb_glyph_info_set_syllable(0);
    info
}

/// Sets the syllable of every item to 0. Takes no memory.
pub fn syllabic_clear_var(buffer: &mut hb_buffer_t)
    ensures { Made Classes.syllables_cleared buffer.old buffer.new }
{
    update_items(buffer, |info| without_syllable(info));
}
