//! How an engine kerns over an opened face: by the face below, or by what is stored of the table
//! `kern`.
ghost use Rattle.std.specs.Prelude.{◌≡◌};
ghost use Rattle.shape_buffer.specs.Outcome.{IsWithinLimit, Outcome, step};

use crate::face::OpenedFace;
use kern_table::KernTable;
use kern_table::tables::kern_table_by;
use shape_buffer::buffer::{ShapeError, hb_buffer_t, hb_mask_t};
use shape_buffer::interfaces::hb_ot_layout_t;
use shape_font::FontFace;
use std::alloc::Global;

/// A way to kern over an opened face what the engine `M` kerns over the face below.
pub trait KernsOpened<'a, M: hb_ot_layout_t<FontFace<'a>>> {
    /// Makes of a buffer what the engine's `kern` makes of it.
    fn kern(
        alloc: Global,
        kern_mask: hb_mask_t,
        face: &OpenedFace<'a>,
        buffer: &mut hb_buffer_t,
    ) -> Result<(), ShapeError>
        requires { IsWithinLimit buffer.old }
        ensures { (map : M.Map)
            → Outcome (step ((M.lookups map face.now).kern kern_mask)) buffer.old buffer.new result };
}

/// By the face below.
pub struct AsBelow;

impl<'a, M: hb_ot_layout_t<FontFace<'a>>> KernsOpened<'a, M> for AsBelow {
    fn kern(
        alloc: Global,
        kern_mask: hb_mask_t,
        face: &OpenedFace<'a>,
        buffer: &mut hb_buffer_t,
    ) -> Result<(), ShapeError> {
        M::kern(alloc, kern_mask, face.face(), buffer)
    }
}

/// By what is stored: a pair of which one glyph has no value takes a few instructions, and no
/// search.
pub struct ByStoredPairs;

impl<'a> KernsOpened<'a, KernTable> for ByStoredPairs {
    fn kern(
        _alloc: Global,
        kern_mask: hb_mask_t,
        face: &OpenedFace<'a>,
        buffer: &mut hb_buffer_t,
    ) -> Result<(), ShapeError> {
        let font = face.face();
        let (kern, sides) = (font.kern_table(), face.pair_sides());
        kern_table_by(kern, sides, font.scale(), kern_mask, buffer);
        Ok(())
    }
}
