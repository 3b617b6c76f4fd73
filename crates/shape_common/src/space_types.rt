//! How wide a space is that a face has no glyph for.
//!
//! The types of spaces that are a fraction of the em square are the number that the square is
//! divided by, except for `SPACE_4_EM_18`.

/// A width of a space.
pub type space_t = u8;

/// No space.
pub const NOT_SPACE: space_t = 0;

/// The em square.
pub const SPACE_EM: space_t = 1;

/// Half of the em square.
pub const SPACE_EM_2: space_t = 2;

/// A third of the em square.
pub const SPACE_EM_3: space_t = 3;

/// A quarter of the em square.
pub const SPACE_EM_4: space_t = 4;

/// A fifth of the em square.
pub const SPACE_EM_5: space_t = 5;

/// A sixth of the em square.
pub const SPACE_EM_6: space_t = 6;

/// A sixteenth of the em square.
pub const SPACE_EM_16: space_t = 16;

/// Four eighteenths of the em square.
pub const SPACE_4_EM_18: space_t = 17;

/// The width of U+0020.
pub const SPACE: space_t = 18;

/// The width of a digit.
pub const SPACE_FIGURE: space_t = 19;

/// The width of a full stop.
pub const SPACE_PUNCTUATION: space_t = 20;

/// Half of the width of the glyph that stands for it.
pub const SPACE_NARROW: space_t = 21;
