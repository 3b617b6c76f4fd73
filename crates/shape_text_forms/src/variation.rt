//! A value for an axis as text, as HarfBuzz writes it: `wght=700`, `'opsz' = 9.5`.
//!
//! A tag, an equals sign, a number; spaces may stand between them and after them. HarfBuzz lets the
//! sign be left out, and takes a number that is too large as infinite; neither is a value here.
ghost use Rattle.std.specs.Prelude.{◌≡◌, drop};
ghost use Rattle.std.specs.Option.{option_map};
ghost use Rattle.std.specs.Float.{binary32};
ghost use Rattle.fast_float.specs.Parse.{read_float};
ghost use Rattle.shape_text_forms.specs.Variation.{number_at_front, variation_of};

use crate::feature::tag;
use crate::scan::{skip_byte, skip_spaces};
use fast_float::parse_partial;
use font_variations::coordinates::Variation;

/// The number at the front, and the text after it.
fn number(text: &[u8]) -> Option<(f32, &[u8])>
    ensures { option_map (λ r. (r.0, r.1.now)) result ≡ number_at_front text.now }
{
    let front = skip_spaces(text);
    let (value, len): (f32, usize) = parse_partial(front).ok()?;
    Some((value, &front[len..]))
}

/// The value for an axis that a text asks for, in the units of users. None if the text is no tag
/// of one to four bytes (four between quotes), an equals sign and a finite number.
pub fn variation_from_string(text: &str) -> Option<Variation>
    ensures { result ≡ variation_of text.now }
{
    let (tag, rest) = tag(text.as_bytes())?;
    let (value, rest) = number(skip_byte(rest, b'=')?)?;
    if !value.is_finite() || !skip_spaces(rest).is_empty() {
        return None;
    }
    Some(Variation { tag: tag.0, value })
}
