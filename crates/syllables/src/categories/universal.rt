//! The categories of the Universal Shaping Engine, by the names of its specification.

/// Any other character.
pub const O: u8 = 0;

/// Base.
pub const B: u8 = 1;

/// Base that is a number.
pub const N: u8 = 2;

/// Generic base: spaces, dashes, the dotted circle.
pub const GB: u8 = 3;

/// Combining grapheme joiner, and what else a syllable takes no notice of.
pub const CGJ: u8 = 4;

/// Consonant below another one.
pub const SUB: u8 = 5;

/// Halant.
pub const H: u8 = 6;

/// Joiner of numbers.
pub const HN: u8 = 7;

/// Zero width non-joiner.
pub const ZWNJ: u8 = 8;

/// Word joiner.
pub const WJ: u8 = 9;

/// Repha.
pub const R: u8 = 10;

/// Vowel, before the base.
pub const VPRE: u8 = 11;

/// Modifier of a vowel, before the base.
pub const VMPRE: u8 = 12;

/// Final consonant, above the base.
pub const FABV: u8 = 13;

/// Final consonant, below the base.
pub const FBLW: u8 = 14;

/// Final consonant, after the base.
pub const FPST: u8 = 15;

/// Medial consonant, above the base.
pub const MABV: u8 = 16;

/// Medial consonant, below the base.
pub const MBLW: u8 = 17;

/// Medial consonant, after the base.
pub const MPST: u8 = 18;

/// Medial consonant, before the base.
pub const MPRE: u8 = 19;

/// Modifier of a consonant, above the base.
pub const CMABV: u8 = 20;

/// Modifier of a consonant, below the base.
pub const CMBLW: u8 = 21;

/// Vowel, above the base.
pub const VABV: u8 = 22;

/// Vowel, below the base.
pub const VBLW: u8 = 23;

/// Vowel, after the base.
pub const VPST: u8 = 24;

/// Modifier of a vowel, above the base.
pub const VMABV: u8 = 25;

/// Modifier of a vowel, below the base.
pub const VMBLW: u8 = 26;

/// Modifier of a vowel, after the base.
pub const VMPST: u8 = 27;

/// Modifier of a symbol, above the symbol.
pub const SMABV: u8 = 28;

/// Modifier of a symbol, below the symbol.
pub const SMBLW: u8 = 29;

/// Consonant with stacker.
pub const CS: u8 = 30;

/// Invisible stacker.
pub const IS: u8 = 31;

/// Modifier of a final, above the base.
pub const FMABV: u8 = 32;

/// Modifier of a final, below the base.
pub const FMBLW: u8 = 33;

/// Modifier of a final, after the base.
pub const FMPST: u8 = 34;

/// Sakot.
pub const SK: u8 = 35;

/// Hieroglyph.
pub const G: u8 = 36;

/// Joiner of hieroglyphs.
pub const J: u8 = 37;

/// Begin of a segment of hieroglyphs.
pub const SB: u8 = 38;

/// End of a segment of hieroglyphs.
pub const SE: u8 = 39;

/// Halant, or a modifier of a vowel.
pub const HVM: u8 = 40;

/// Modifier of a hieroglyph.
pub const HM: u8 = 41;

/// Turned hieroglyph.
pub const HR: u8 = 42;

/// Killer that repeats.
pub const RK: u8 = 43;
