//! What a text of glyphs depends on: what is asked for, the boxes of a face, and the names of its
//! glyphs.
//!
//! A name is asked of a `glyph_names` beside the face: shaping asks no face for names.
ghost use Rattle.std.specs.Prelude.{◌≡◌};
ghost use Rattle.std.specs.Option.{option_map};
ghost use Rattle.shape_text_forms.specs.Serialize.{asks, pen_after};

use shape_buffer::wrapping::sum;
use shape_buffer::{GlyphId, GlyphPosition};

/// What is written of glyphs (HarfBuzz, `hb_buffer_serialize_flags_t`): a sum of the constants.
#[derive(Clone, Copy, PartialEq, Eq, Debug)]
pub struct SerializeFlags(pub u32);

impl SerializeFlags {
    /// No cluster is written.
    pub const NO_CLUSTERS: u32 = 1;

    /// Neither offset nor advance is written.
    pub const NO_POSITIONS: u32 = 2;

    /// A glyph's number is written and not its name.
    pub const NO_GLYPH_NAMES: u32 = 4;

    /// The box of each glyph is written.
    pub const GLYPH_EXTENTS: u32 = 8;

    /// The flags of each glyph are written, if it has any.
    pub const GLYPH_FLAGS: u32 = 16;

    /// No advance is written, and offsets count from the start of the line.
    pub const NO_ADVANCES: u32 = 32;

    /// Whether this one, one of the constants, is asked for.
    pub fn asks(self, flag: u32) -> bool
        ensures { result ≡ asks flag self.0 }
    {
        self.0 & flag != 0
    }
}

/// The names of a face's glyphs.
pub trait glyph_names {
    ghost use Rattle.std.specs.Prelude.{ℕ, List, Option};

    /// The bytes of each glyph's name, if it has one.
    ghost name: { Self → ℕ → Option (List ℕ) };

    /// The name of a glyph, if it has one.
    fn glyph_name(&self, glyph: GlyphId) -> Option<&str>
        ensures { option_map (λ t. t.now) result ≡ name self.now glyph.0 };
}

/// No glyph has a name.
pub struct NoNames;

impl glyph_names for NoNames {
    ghost use Rattle.std.specs.Prelude.{None};

    ghost name = { λ _ _. None };

    fn glyph_name(&self, _glyph: GlyphId) -> Option<&str> {
        None
    }
}

/// The forms of a list of glyphs.
#[derive(Clone, Copy, PartialEq, Eq, Debug)]
pub enum ListForm {
    Text,
    Json,
}

/// What a text of glyphs depends on.
#[derive(Drop)]
pub struct Content<'a, F, N> {
    pub form: ListForm,
    pub flags: SerializeFlags,
    pub face: &'a F,
    pub names: &'a N,
}

/// Where the pen stands that draws a line.
#[derive(Clone, Copy)]
pub struct Pen {
    pub x: i32,
    pub y: i32,
}

/// A place in a list: before its first glyph or not, and where the pen stands.
#[derive(Clone, Copy)]
pub struct Spot {
    pub first: bool,
    pub pen: Pen,
}

impl Spot {
    /// Where a list begins.
    pub const START: Spot = Spot {
        first: true,
        pen: Pen { x: 0, y: 0 },
    };
}

/// Where the pen stands after a glyph.
pub(crate) fn pen_after(flags: SerializeFlags, pen: Pen, position: &GlyphPosition) -> Pen
    ensures { result ≡ pen_after flags.0 pen position.now }
{
    if flags.asks(SerializeFlags::NO_ADVANCES) {
        Pen {
            x: sum(pen.x, position.x_advance),
            y: sum(pen.y, position.y_advance),
        }
    } else {
        pen
    }
}
