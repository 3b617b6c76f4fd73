//! What a run of a subtable of `kerx` reads, and what it notes.
ghost use Rattle.std.specs.Prelude.{◌≡◌, ◌<◌, ◌+◌};
ghost use Rattle.apple_positioning.specs.Runs as run_rules;
ghost use Rattle.apple_positioning.specs.Runs.{source_of};

use crate::values::Subtable;
use font_sizes::{Scale, across, up};
use shape_buffer::buffer::{ScratchFlags, hb_buffer_t, hb_mask_t};
use shape_font::metrics::short;

/// A subtable, and what it is run with.
#[derive(Clone, Copy)]
pub struct Kerning<'a> {
    /// The subtable.
    pub subtable: Subtable<'a>,
    /// The table `ankr`, empty if the font has none.
    pub ankr: &'a [u8],
    /// The size of the font, if it has one; else positions are in units of the em square.
    pub scale: Option<Scale>,
    /// The mask of kerning, with which a glyph shares a bit if kerning is on for it. 0 if it is off
    /// everywhere.
    pub mask: hb_mask_t,
}

/// The scratch flag of a run in which a glyph is moved across the line, or attached to another one.
/// The pipeline's own flags are smaller.
pub const HAS_ATTACHMENT: ScratchFlags = ScratchFlags(64);

impl<'a> Kerning<'a> {
    /// A number to the right at the size of the font. HarfBuzz scales its last 16 bits.
    pub(crate) fn to_right(&self, number: i32) -> i32
        ensures { result ≡ run_rules.to_right (source_of self.now) number }
    {
        across(self.scale, short(number))
    }

    /// A number upwards at the size of the font. HarfBuzz scales its last 16 bits.
    pub(crate) fn upwards(&self, number: i32) -> i32
        ensures { result ≡ run_rules.upwards (source_of self.now) number }
    {
        up(self.scale, short(number))
    }
}

/// Notes that a glyph is moved across the line, or attached to another one.
pub(crate) fn note_attachment(buffer: &mut hb_buffer_t)
    ensures { buffer.new ≡ run_rules.with_attachment buffer.old }
{
    let flags = buffer.scratch_flags();
    buffer.set_scratch_flags(ScratchFlags(flags.0 | HAS_ATTACHMENT.0));
}

/// The place after one of so many.
pub(crate) fn next_place(count: usize, at: usize) -> usize
    requires { at < count }
    ensures { result ≡ at + 1 }
{
    at + 1
}
