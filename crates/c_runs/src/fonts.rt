//! A font file as a face.
ghost use Rattle.std.specs.Prelude.{◌≡◌, [], is_some, nat_lt, IfSome};
ghost use Rattle.opentype_layout.specs.Fonts.{IsFaceOf, IsFontOf, units_of};
ghost use Rattle.shape_font.specs.Directory.{bytes_of};
ghost use Rattle.c_runs.specs.Instances.{IsFaceAt, IsFontAt};

use opentype_layout::OpenTypeFace;
use shape_font::FontFace;

/// The font with this number, or number 0, the one of a file of one font.
pub fn font_of(bytes: &[u8], index: u32) -> Option<FontFace<'_>>
    ensures found { is_some result ≡ nat_lt 0 (units_of bytes.now index) }
    ensures font { IfSome result (λ font. IsFontOf bytes.now index font) }
    ensures gvar { IfSome result (λ font. font.gvar.now ≡ bytes_of bytes.now index 0x67766172) }
{
    FontFace::from_slice(bytes, index)
}

/// The face of the font with this number.
pub fn face_of(bytes: &[u8], index: u32) -> Option<OpenTypeFace<'_>>
    ensures found { is_some result ≡ nat_lt 0 (units_of bytes.now index) }
    ensures face { IfSome result (λ face. IsFaceOf bytes.now index face) }
{
    match font_of(bytes, index) {
        Some(font) => Some(OpenTypeFace::new(font)),
        None => None,
    }
}

/// The font with this number at coordinates, as `shape_font` has them.
fn font_at<'a>(bytes: &'a [u8], index: u32, coordinates: &'a [i32]) -> Option<FontFace<'a>>
    ensures found { is_some result ≡ nat_lt 0 (units_of bytes.now index) }
    ensures font { IfSome result (λ font. IsFontAt bytes.now index coordinates.now font) }
    ensures plain { coordinates.now ≡ [] → IfSome result (λ font. IsFontOf bytes.now index font) }
{
    match font_of(bytes, index) {
        Some(font) => Some(font.at(coordinates)),
        None => None,
    }
}

/// The face of the font with this number at coordinates, as `shape_font` has them; none are the
/// default instance.
pub fn face_at<'a>(bytes: &'a [u8], index: u32, coordinates: &'a [i32]) -> Option<OpenTypeFace<'a>>
    ensures found { is_some result ≡ nat_lt 0 (units_of bytes.now index) }
    ensures face { IfSome result (λ face. IsFaceAt bytes.now index coordinates.now face) }
    ensures plain { coordinates.now ≡ [] → IfSome result (λ face. IsFaceOf bytes.now index face) }
{
    match font_at(bytes, index, coordinates) {
        Some(font) => Some(OpenTypeFace::new(font)),
        None => None,
    }
}
