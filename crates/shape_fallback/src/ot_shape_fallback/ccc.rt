//! The ccc that marks are placed by.
//!
//! The ccc of 200 and more name a side of the base (UAX 44, section 5.7.4). Those below only keep
//! marks of one script apart when they are put in order, so they say nothing of a place; each gets
//! the side that marks of the ccc stand at. Marks of Thai and Lao often have ccc 0, and get theirs
//! by their character.
ghost use Rattle.std.specs.Prelude.{◌≡◌};
ghost use Rattle.shape_fallback.specs.Ccc;

use shape_buffer::interfaces::modified_combining_class as mcc;

/// Attached above.
const ATTACHED_ABOVE: u8 = 214;

/// Below.
const BELOW: u8 = 220;

/// Below, at the right.
const BELOW_RIGHT: u8 = 222;

/// Above, at the left.
const ABOVE_LEFT: u8 = 228;

/// Above.
const ABOVE: u8 = 230;

/// Above, at the right.
const ABOVE_RIGHT: u8 = 232;

/// The ccc of a mark of Thai or Lao, by the character.
fn ccc_in_thai_or_lao(c: char, ccc: u8) -> u8
    ensures { result ≡ Ccc.ccc_in_thai_or_lao c ccc }
{
    match (ccc, c) {
        (0, '\u{E31}' | '\u{E34}'..='\u{E37}' | '\u{E47}' | '\u{E4C}'..='\u{E4E}') => ABOVE_RIGHT,
        (0, '\u{EB1}' | '\u{EB4}'..='\u{EB7}' | '\u{EBB}' | '\u{ECC}' | '\u{ECD}') => ABOVE,
        (0, '\u{EBC}') => BELOW,
        (1.., '\u{E3A}') => BELOW_RIGHT,
        _ => ccc,
    }
}

/// The ccc that stands for a modified one: marks of Hebrew, Arabic and Syriac, Thai, Lao and
/// Tibetan, in this order.
fn recategorized_ccc(ccc: u8) -> u8
    ensures { result ≡ Ccc.recategorized_ccc ccc }
{
    match ccc {
        mcc::CCC10 | mcc::CCC11 | mcc::CCC12 | mcc::CCC13 | mcc::CCC14 | mcc::CCC15 => BELOW,
        mcc::CCC16 | mcc::CCC17 | mcc::CCC18 | mcc::CCC20 | mcc::CCC22 => BELOW,
        mcc::CCC23 => ATTACHED_ABOVE,
        mcc::CCC24 => ABOVE_RIGHT,
        mcc::CCC19 | mcc::CCC25 => ABOVE_LEFT,
        mcc::CCC26 => ABOVE,
        mcc::CCC27 | mcc::CCC28 | mcc::CCC30 | mcc::CCC31 => ABOVE,
        mcc::CCC33 | mcc::CCC34 | mcc::CCC35 | mcc::CCC36 => ABOVE,
        mcc::CCC29 | mcc::CCC32 => BELOW,
        mcc::CCC103 => BELOW_RIGHT,
        mcc::CCC107 => ABOVE_RIGHT,
        mcc::CCC118 => BELOW,
        mcc::CCC122 | mcc::CCC130 => ABOVE,
        mcc::CCC129 | mcc::CCC132 => BELOW,
        _ => ccc,
    }
}

/// The ccc that a nonspacing mark is placed by.
pub fn fallback_ccc(c: char, ccc: u8) -> u8
    ensures { result ≡ Ccc.fallback_ccc c ccc }
{
    if ccc >= 200 {
        return ccc;
    }
    recategorized_ccc(ccc_in_thai_or_lao(c, ccc))
}
