//! The categories of the scripts of India, of Khmer and of Myanmar: one numbering, since the three
//! share many characters.

/// Any other character.
pub const X: u8 = 0;

/// Consonant.
pub const C: u8 = 1;

/// Independent vowel.
pub const V: u8 = 2;

/// Nukta; in Myanmar dot below.
pub const N: u8 = 3;

/// Halant, virama, coeng.
pub const H: u8 = 4;

/// Zero width non-joiner.
pub const ZWNJ: u8 = 5;

/// Zero width joiner.
pub const ZWJ: u8 = 6;

/// Matra.
pub const M: u8 = 7;

/// Syllable modifier.
pub const SM: u8 = 8;

/// Mark of a tone or an accent.
pub const A: u8 = 9;

/// Placeholder; in Myanmar generic base.
pub const PLACEHOLDER: u8 = 10;

/// Dotted circle.
pub const DOTTED_CIRCLE: u8 = 11;

/// Register shifter.
pub const RS: u8 = 12;

/// Matra after a syllable modifier.
pub const MPST: u8 = 13;

/// Repha, or a dot of the same use.
pub const REPHA: u8 = 14;

/// Consonant Ra.
pub const RA: u8 = 15;

/// Medial consonant.
pub const CM: u8 = 16;

/// Symbol that takes modifiers.
pub const SYMBOL: u8 = 17;

/// Consonant with stacker.
pub const CS: u8 = 18;

/// Syllable modifier that may stand alone.
pub const SMPST: u8 = 19;

/// Vowel of Khmer or Myanmar above the base.
pub const VABV: u8 = 20;

/// Vowel of Khmer or Myanmar below the base.
pub const VBLW: u8 = 21;

/// Vowel of Khmer or Myanmar before the base.
pub const VPRE: u8 = 22;

/// Vowel of Khmer or Myanmar after the base.
pub const VPST: u8 = 23;

/// Robatic of Khmer.
pub const ROBATIC: u8 = 24;

/// Sign of Khmer that stands before vowels, too.
pub const XGROUP: u8 = 25;

/// Sign of Khmer after vowels.
pub const YGROUP: u8 = 26;

/// Asat of Myanmar.
pub const ASAT: u8 = 27;

/// Medial HA of Myanmar.
pub const MH: u8 = 28;

/// Medial RA of Myanmar.
pub const MR: u8 = 29;

/// Medial WA of Myanmar.
pub const MW: u8 = 30;

/// Medial YA of Myanmar.
pub const MY: u8 = 31;

/// Tone of Pwo and the like, in Myanmar.
pub const PT: u8 = 32;

/// Selector of a variation, in Myanmar.
pub const VS: u8 = 33;

/// Medial LA of Mon, in Myanmar.
pub const ML: u8 = 34;
