//! How wide the spaces are that a face has no glyph for.
ghost use Rattle.std.specs.Prelude.{◌≡◌};
ghost use Rattle.shape_unicode.specs.Space.{space_of};

use shape_buffer::interfaces::space_types::{
    NOT_SPACE, SPACE, SPACE_4_EM_18, SPACE_EM, SPACE_EM_2, SPACE_EM_3, SPACE_EM_4, SPACE_EM_5,
    SPACE_EM_6, SPACE_EM_16, SPACE_FIGURE, SPACE_NARROW, SPACE_PUNCTUATION, space_t,
};

/// The space separators and their widths (The Unicode Standard, table 6-2; HarfBuzz,
/// `hb-unicode.hh`). U+1680 is none of them: it is drawn.
pub const SPACES: [(char, space_t); 16] = [
    ('\u{20}', SPACE),
    ('\u{A0}', SPACE),
    ('\u{2000}', SPACE_EM_2),
    ('\u{2001}', SPACE_EM),
    ('\u{2002}', SPACE_EM_2),
    ('\u{2003}', SPACE_EM),
    ('\u{2004}', SPACE_EM_3),
    ('\u{2005}', SPACE_EM_4),
    ('\u{2006}', SPACE_EM_6),
    ('\u{2007}', SPACE_FIGURE),
    ('\u{2008}', SPACE_PUNCTUATION),
    ('\u{2009}', SPACE_EM_5),
    ('\u{200A}', SPACE_EM_16),
    ('\u{202F}', SPACE_NARROW),
    ('\u{205F}', SPACE_4_EM_18),
    ('\u{3000}', SPACE_EM),
];

/// How wide `c` is, `NOT_SPACE` if it is no space that other glyphs can replace. Total.
pub fn space_of(c: char) -> space_t
    ensures { result ≡ space_of c }
{
    SPACES
        .iter()
        .find(|entry| entry.0 == c)
        .map(|entry| entry.1)
        .unwrap_or(NOT_SPACE)
}
