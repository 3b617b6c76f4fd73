//! The forms that characters have in vertical text.
ghost use Rattle.std.specs.Prelude.{◌≡◌};
ghost use Rattle.shape_unicode.specs.Vertical.{vertical_of};

/// A character and the one that stands for it in vertical text (UnicodeData.txt,
/// Decomposition_Mapping with the tag `<vertical>`, inverted). If that mapping names an ASCII
/// character, the wide form of this one is meant, and U+FE4F for the wavy low line, as in HarfBuzz
/// (`hb-ot-shape.cc`): a vertical text has narrow ASCII characters lying on their side.
pub const VERTICAL_FORMS: [(char, char); 33] = [
    ('\u{2013}', '\u{FE32}'),
    ('\u{2014}', '\u{FE31}'),
    ('\u{2025}', '\u{FE30}'),
    ('\u{2026}', '\u{FE19}'),
    ('\u{3001}', '\u{FE11}'),
    ('\u{3002}', '\u{FE12}'),
    ('\u{3008}', '\u{FE3F}'),
    ('\u{3009}', '\u{FE40}'),
    ('\u{300A}', '\u{FE3D}'),
    ('\u{300B}', '\u{FE3E}'),
    ('\u{300C}', '\u{FE41}'),
    ('\u{300D}', '\u{FE42}'),
    ('\u{300E}', '\u{FE43}'),
    ('\u{300F}', '\u{FE44}'),
    ('\u{3010}', '\u{FE3B}'),
    ('\u{3011}', '\u{FE3C}'),
    ('\u{3014}', '\u{FE39}'),
    ('\u{3015}', '\u{FE3A}'),
    ('\u{3016}', '\u{FE17}'),
    ('\u{3017}', '\u{FE18}'),
    ('\u{FE4F}', '\u{FE34}'),
    ('\u{FF01}', '\u{FE15}'),
    ('\u{FF08}', '\u{FE35}'),
    ('\u{FF09}', '\u{FE36}'),
    ('\u{FF0C}', '\u{FE10}'),
    ('\u{FF1A}', '\u{FE13}'),
    ('\u{FF1B}', '\u{FE14}'),
    ('\u{FF1F}', '\u{FE16}'),
    ('\u{FF3B}', '\u{FE47}'),
    ('\u{FF3D}', '\u{FE48}'),
    ('\u{FF3F}', '\u{FE33}'),
    ('\u{FF5B}', '\u{FE37}'),
    ('\u{FF5D}', '\u{FE38}'),
];

/// The vertical form of `c`, if there is one.
pub(crate) fn vertical_of(c: char) -> Option<char>
    ensures { result ≡ vertical_of c }
{
    VERTICAL_FORMS
        .iter()
        .find(|entry| entry.0 == c)
        .map(|entry| entry.1)
}
