//! Where syllables begin and end, and dotted circles in broken ones.
ghost use Rattle.std.specs.Prelude.{◌≡◌};
ghost use Rattle.shape_buffer.specs.Outcome.{IsWithinLimit, Made, Outcome, step};
ghost use Rattle.syllabic.specs.Circles.{with_circles};
ghost use Rattle.indic_shaper.specs.Cutting;

use crate::categories::{CAT_DOTTEDCIRCLE, CAT_REPHA, POS_END, POS_START, categorize};
use crate::glyphs::{category, position};
use shape_buffer::buffer::{
    ShapeError, hb_buffer_t, hb_glyph_info_t, hb_unicode_general_category_t,
};
use shape_buffer::interfaces::hb_font_t;
use std::alloc::Global;
use syllabic::circles::{Circled, insert_circles};
use syllabic::scanning::number_syllables;
use syllabic::walking::mark_syllables;
use syllables::indic::indic_machine;

/// The kinds of syllables.
pub const CONSONANT: u8 = 0;

/// A vowel with what belongs to it.
pub const VOWEL: u8 = 1;

/// A placeholder or a dotted circle with what belongs to it.
pub const STANDALONE: u8 = 2;

/// A symbol with what belongs to it.
pub const SYMBOL: u8 = 3;

/// Signs without a base.
pub const BROKEN: u8 = 4;

/// A character alone that is no syllable.
pub const OTHER: u8 = 5;

/// Finds the syllables of a text, and marks each unsafe to break.
pub fn find_syllables(buffer: &mut hb_buffer_t)
    ensures { Made Cutting.syllables_found buffer.old buffer.new }
{
    categorize(buffer);
    number_syllables(indic_machine(), 0, buffer);
    mark_syllables(buffer);
}

/// Whether an item is a dotted circle that has no position yet.
pub fn is_new_circle(info: &hb_glyph_info_t) -> bool
    ensures { result ≡ Cutting.is_new_circle info.now }
{
    category(info) == CAT_DOTTEDCIRCLE && position(info) == POS_START
}

/// A dotted circle as it stands before its place is known.
pub fn as_circle(info: &hb_glyph_info_t) -> hb_glyph_info_t
    ensures { result ≡ Cutting.as_circle info.now }
{
    let mut info = *info;
    info._hb_glyph_info_set_shaper_auxiliary(POS_END);
    info._hb_glyph_info_set_general_category(hb_unicode_general_category_t::Control);
    info
}

/// Puts a dotted circle into each broken syllable, after its reph.
pub fn circle_broken<F: hb_font_t>(
    alloc: Global,
    face: &F,
    buffer: &mut hb_buffer_t,
) -> Result<(), ShapeError>
    requires { IsWithinLimit buffer.old }
    ensures { Outcome (step (with_circles (F.face face.now) Cutting.circled))
        buffer.old buffer.new result }
{
    let circled = Circled {
        kind: BROKEN,
        category: CAT_DOTTEDCIRCLE,
        repha: Some(CAT_REPHA),
    };
    insert_circles(alloc, face, circled, buffer)
}
