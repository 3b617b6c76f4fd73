//! Where a glyph stands.
ghost use Rattle.std.specs.Prelude.{◌≡◌};

/// The position of a glyph, in units of the face, x to the right, y upwards: how far the pen moves
/// on, and how far the glyph is moved from it. `attach_chain` and `attach_type` belong to the
/// layout engine.
#[derive(Clone, Copy, Debug)]
pub struct GlyphPosition {
    pub x_advance: i32,
    pub y_advance: i32,
    pub x_offset: i32,
    pub y_offset: i32,
    pub attach_chain: i16,
    pub attach_type: u8,
}

impl GlyphPosition {
    ghost use Rattle.shape_common.specs.Positions.{zero_position};

    /// A position that moves nothing: all zeros.
    pub fn zero() -> Self
        ensures { result ≡ zero_position }
    {
        GlyphPosition {
            x_advance: 0,
            y_advance: 0,
            x_offset: 0,
            y_offset: 0,
            attach_chain: 0,
            attach_type: 0,
        }
    }
}

impl Default for GlyphPosition {
    ghost use Rattle.shape_common.specs.Positions.{zero_position};

    ghost is_default = { λ position. position ≡ zero_position };

    fn default() -> GlyphPosition {
        GlyphPosition::zero()
    }
}
