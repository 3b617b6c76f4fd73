//! The names that a font file has for its glyphs.
ghost use Rattle.std.specs.Prelude.{◌≡◌};
ghost use Rattle.std.specs.Option.{option_map};
ghost use Rattle.shape_text_forms.specs.FontNames.{text_of, cut_name, written_name};

use crate::content::glyph_names;
use shape_buffer::GlyphId;
use shape_font::FontFace;

/// The bytes as text; none if they aren't UTF-8.
#[tactic(auto, using(crate::proofs::TextLemmas::text_of_utf8, crate::proofs::TextLemmas::text_of_other))]
pub(crate) fn text(bytes: &[u8]) -> Option<&str>
    ensures { option_map (λ s. s.now) result ≡ text_of bytes.now }
{
    match str::from_utf8(bytes) {
        Ok(text) => Some(text),
        Err(_) => None,
    }
}

/// The first bytes of a name, as many as `hb-shape` writes.
pub(crate) fn cut(name: &[u8]) -> &[u8]
    ensures { result.now ≡ cut_name name.now }
{
    if name.len() <= 127 {
        name
    } else {
        &name[..127]
    }
}

/// The name of a glyph by `post` or `CFF `; none if it has none, or one whose first 127 bytes are
/// no text.
fn name<'a>(face: &FontFace<'a>, glyph: GlyphId) -> Option<&'a str>
    ensures { option_map (λ s. s.now) result ≡ written_name face.now glyph.0 }
{
    match face.glyph_name(glyph) {
        Some(name) => text(cut(name)),
        None => None,
    }
}

/// The names in a font's table `post` or `CFF `: the first 127 bytes of each, if these are UTF-8.
impl<'a> glyph_names for FontFace<'a> {
    ghost use Rattle.shape_text_forms.specs.FontNames.{written_name};

    ghost name = { written_name };

    fn glyph_name(&self, glyph: GlyphId) -> Option<&str> {
        name(self, glyph)
    }
}
