//! The tags of the features that a planner asks for, and of those that a plan asks masks of.
use shape_buffer::buffer::hb_tag_t;

/// Variations of a face. The letters are `rvrn`.
pub const RVRN: hb_tag_t = hb_tag_t(0x7276_726E);

/// Forms left to right. The letters are `ltra`.
pub const LTRA: hb_tag_t = hb_tag_t(0x6C74_7261);

/// Mirrored forms left to right. The letters are `ltrm`.
pub const LTRM: hb_tag_t = hb_tag_t(0x6C74_726D);

/// Forms right to left. The letters are `rtla`.
pub const RTLA: hb_tag_t = hb_tag_t(0x7274_6C61);

/// Mirrored forms right to left. The letters are `rtlm`.
pub const RTLM: hb_tag_t = hb_tag_t(0x7274_6C6D);

/// Fractions. The letters are `frac`.
pub const FRAC: hb_tag_t = hb_tag_t(0x6672_6163);

/// Numerators. The letters are `numr`.
pub const NUMR: hb_tag_t = hb_tag_t(0x6E75_6D72);

/// Denominators. The letters are `dnom`.
pub const DNOM: hb_tag_t = hb_tag_t(0x646E_6F6D);

/// Alternates at random. The letters are `rand`.
pub const RAND: hb_tag_t = hb_tag_t(0x7261_6E64);

/// Tracking. The letters are `trak`.
pub const TRAK: hb_tag_t = hb_tag_t(0x7472_616B);

/// Before a script's own features, as a rule on. The letters are `Harf`.
pub const HARF: hb_tag_t = hb_tag_t(0x4861_7266);

/// Before a script's own features, as a rule at choice. The letters are `HARF`.
pub const HARF_DISCRETIONARY: hb_tag_t = hb_tag_t(0x4841_5246);

/// After a script's own features, as a rule on. The letters are `Buzz`.
pub const BUZZ: hb_tag_t = hb_tag_t(0x4275_7A7A);

/// After a script's own features, as a rule at choice. The letters are `BUZZ`.
pub const BUZZ_DISCRETIONARY: hb_tag_t = hb_tag_t(0x4255_5A5A);

/// Marks above bases. The letters are `abvm`.
pub const ABVM: hb_tag_t = hb_tag_t(0x6162_766D);

/// Marks below bases. The letters are `blwm`.
pub const BLWM: hb_tag_t = hb_tag_t(0x626C_776D);

/// Glyphs composed and decomposed. The letters are `ccmp`.
pub const CCMP: hb_tag_t = hb_tag_t(0x6363_6D70);

/// Forms of a language. The letters are `locl`.
pub const LOCL: hb_tag_t = hb_tag_t(0x6C6F_636C);

/// Marks on bases. The letters are `mark`.
pub const MARK: hb_tag_t = hb_tag_t(0x6D61_726B);

/// Marks on marks. The letters are `mkmk`.
pub const MKMK: hb_tag_t = hb_tag_t(0x6D6B_6D6B);

/// Required ligatures. The letters are `rlig`.
pub const RLIG: hb_tag_t = hb_tag_t(0x726C_6967);

/// Contextual alternates. The letters are `calt`.
pub const CALT: hb_tag_t = hb_tag_t(0x6361_6C74);

/// Contextual ligatures. The letters are `clig`.
pub const CLIG: hb_tag_t = hb_tag_t(0x636C_6967);

/// Cursive joins. The letters are `curs`.
pub const CURS: hb_tag_t = hb_tag_t(0x6375_7273);

/// Distances. The letters are `dist`.
pub const DIST: hb_tag_t = hb_tag_t(0x6469_7374);

/// Kerning of horizontal texts. The letters are `kern`.
pub const KERN: hb_tag_t = hb_tag_t(0x6B65_726E);

/// Standard ligatures. The letters are `liga`.
pub const LIGA: hb_tag_t = hb_tag_t(0x6C69_6761);

/// Required contextual alternates. The letters are `rclt`.
pub const RCLT: hb_tag_t = hb_tag_t(0x7263_6C74);

/// Vertical forms. The letters are `vert`.
pub const VERT: hb_tag_t = hb_tag_t(0x7665_7274);

/// Kerning of vertical texts. The letters are `vkrn`.
pub const VKRN: hb_tag_t = hb_tag_t(0x766B_726E);
