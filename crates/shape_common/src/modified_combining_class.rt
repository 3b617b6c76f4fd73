//! The combining classes that shaping takes in place of Unicode's, by name.
//!
//! Each is named by the fixed class of Unicode that it stands for (The Unicode Standard, section
//! 4.3; UAX 44, section 5.7.4), as HarfBuzz names them (`hb-unicode.hh`). Authors of hooks and of
//! Unicode functions tell marks by these. The classes of Hebrew follow the SBL Hebrew font's
//! manual.

/// Sheva.
pub const CCC10: u8 = 22;
/// Hataf segol.
pub const CCC11: u8 = 15;
/// Hataf patah.
pub const CCC12: u8 = 16;
/// Hataf qamats.
pub const CCC13: u8 = 17;
/// Hiriq.
pub const CCC14: u8 = 23;
/// Tsere.
pub const CCC15: u8 = 18;
/// Segol.
pub const CCC16: u8 = 19;
/// Patah.
pub const CCC17: u8 = 20;
/// Qamats and qamats qatan.
pub const CCC18: u8 = 21;
/// Holam and holam haser for vav.
pub const CCC19: u8 = 14;
/// Qubuts.
pub const CCC20: u8 = 24;
/// Dagesh.
pub const CCC21: u8 = 12;
/// Meteg.
pub const CCC22: u8 = 25;
/// Rafe.
pub const CCC23: u8 = 13;
/// Shin dot.
pub const CCC24: u8 = 10;
/// Sin dot.
pub const CCC25: u8 = 11;
/// Point varika.
pub const CCC26: u8 = 26;

/// Fathatan.
pub const CCC27: u8 = 28;
/// Dammatan.
pub const CCC28: u8 = 29;
/// Kasratan.
pub const CCC29: u8 = 30;
/// Fatha.
pub const CCC30: u8 = 31;
/// Damma.
pub const CCC31: u8 = 32;
/// Kasra.
pub const CCC32: u8 = 33;
/// Shadda.
pub const CCC33: u8 = 27;
/// Sukun.
pub const CCC34: u8 = 34;
/// Superscript alef.
pub const CCC35: u8 = 35;
/// Superscript alaph of Syriac.
pub const CCC36: u8 = 36;

/// Telugu length mark.
pub const CCC84: u8 = 4;
/// Telugu ai length mark.
pub const CCC91: u8 = 5;

/// Thai sara u and sara uu.
pub const CCC103: u8 = 3;
/// Thai tone marks, mai ek and the others.
pub const CCC107: u8 = 107;

/// Lao sign u and sign uu.
pub const CCC118: u8 = 118;
/// Lao tone marks, mai ek and the others.
pub const CCC122: u8 = 122;

/// Tibetan sign aa.
pub const CCC129: u8 = 129;
/// Tibetan sign i.
pub const CCC130: u8 = 132;
/// Tibetan sign u.
pub const CCC132: u8 = 131;
