//! What a caller sets of a text: tags, scripts, languages, directions, levels, features.
//!
//! The opposite of the direction Invalid is Invalid, which rustybuzz leaves open. `Language` is a
//! type of this crate over a string: clauses see what it holds, and storage may change.
ghost use Rattle.std.specs.Prelude.{◌≡◌, ◌+◌, ◌*◌, ◌↔◌, IsTrue, slice_index};

use std::ops::Range;

/// A glyph of a face, by its number.
#[derive(Clone, Copy, PartialEq, Eq, Debug)]
pub struct GlyphId(pub u32);

/// Four bytes as one number, the first byte highest (the tags of OpenType).
#[derive(Clone, Copy, PartialEq, Eq, Debug)]
pub struct hb_tag_t(pub u32);

/// A script, by its tag of ISO 15924.
#[derive(Clone, Copy, PartialEq, Eq, Debug)]
pub struct Script(pub hb_tag_t);

/// A language, by its name (BCP 47).
#[derive(Drop, Debug)]
pub struct Language(pub String);

/// The direction that a text runs in.
#[derive(Clone, Copy, PartialEq, Eq, Debug)]
pub enum Direction {
    Invalid,
    LeftToRight,
    RightToLeft,
    TopToBottom,
    BottomToTop,
}

/// How far clusters are merged: the first two levels keep them in order.
#[derive(Clone, Copy, PartialEq, Eq, Debug)]
pub enum BufferClusterLevel {
    /// Each grapheme is one cluster; clusters stay in order.
    MonotoneGraphemes = 0,
    /// Each character has its own cluster until items mix; clusters stay in order.
    MonotoneCharacters = 1,
    /// Clusters are never merged; spans are marked unsafe to break instead.
    Characters = 2,
}

/// A feature that a user asks for, over the items whose cluster is in `start..end`.
#[derive(Clone, Copy, PartialEq, Eq, Debug)]
pub struct Feature {
    pub tag: hb_tag_t,
    pub value: u32,
    pub start: u32,
    pub end: u32,
}

impl Default for Direction {
    ghost use Rattle.shape_common.specs.declared.text_types.Direction.TheVariants.{Invalid};

    ghost is_default = { λ direction. direction ≡ Invalid };

    fn default() -> Direction {
        Direction::Invalid
    }
}

impl Default for BufferClusterLevel {
    ghost use Rattle.shape_common.specs.declared.text_types.BufferClusterLevel.TheVariants.{MonotoneGraphemes};

    ghost is_default = { λ level. level ≡ MonotoneGraphemes };

    fn default() -> BufferClusterLevel {
        BufferClusterLevel::MonotoneGraphemes
    }
}

impl hb_tag_t {
    /// The tag of four bytes, the first one highest.
    pub fn from_bytes(bytes: &[u8; 4]) -> Self
        ensures { result.0 ≡ slice_index bytes.now 0 * 16777216 + slice_index bytes.now 1 * 65536
            + slice_index bytes.now 2 * 256 + slice_index bytes.now 3 }
    {
        hb_tag_t(u32::from_be_bytes(*bytes))
    }
}

impl Feature {
    /// The feature over the items whose cluster is in the range.
    pub fn new(tag: hb_tag_t, value: u32, range: Range<u32>) -> Self
        ensures { result ≡ record {
          tag = tag;
          value = value;
          start = range.start;
          end = range.end;
        } }
    {
        Feature {
            tag,
            value,
            start: range.start,
            end: range.end,
        }
    }

    /// The feature over the whole text.
    pub fn global(tag: hb_tag_t, value: u32) -> Self
        ensures { result ≡ record { tag = tag; value = value; start = 0; end = u32.MAX } }
    {
        Feature {
            tag,
            value,
            start: 0,
            end: u32::MAX,
        }
    }

    /// Whether the feature is asked for over the whole text.
    pub fn is_global(&self) -> bool
        ensures { IsTrue result ↔ ((self.now.start ≡ 0) × (self.now.end ≡ u32.MAX)) }
    {
        self.start == 0 && self.end == u32::MAX
    }
}

impl Direction {
    ghost use Rattle.shape_common.specs.Direction.{is_horizontal, is_vertical, is_forward};
    ghost use Rattle.shape_common.specs.Direction.{is_backward, reverse_of};

    /// Whether this is one of left to right and right to left.
    pub fn is_horizontal(self) -> bool
        ensures { result ≡ is_horizontal self }
    {
        matches!(self, Direction::LeftToRight | Direction::RightToLeft)
    }

    /// Whether this is one of top to bottom and bottom to top.
    pub fn is_vertical(self) -> bool
        ensures { result ≡ is_vertical self }
    {
        matches!(self, Direction::TopToBottom | Direction::BottomToTop)
    }

    /// Whether text runs to the right or to the bottom.
    pub fn is_forward(self) -> bool
        ensures { result ≡ is_forward self }
    {
        matches!(self, Direction::LeftToRight | Direction::TopToBottom)
    }

    /// Whether text runs to the left or to the top.
    pub fn is_backward(self) -> bool
        ensures { result ≡ is_backward self }
    {
        matches!(self, Direction::RightToLeft | Direction::BottomToTop)
    }

    /// The opposite direction; Invalid stays.
    pub fn reverse(self) -> Direction
        ensures { result ≡ reverse_of self }
    {
        match self {
            Direction::Invalid => Direction::Invalid,
            Direction::LeftToRight => Direction::RightToLeft,
            Direction::RightToLeft => Direction::LeftToRight,
            Direction::TopToBottom => Direction::BottomToTop,
            Direction::BottomToTop => Direction::TopToBottom,
        }
    }
}
