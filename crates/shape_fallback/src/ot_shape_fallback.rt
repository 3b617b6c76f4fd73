//! Fallback positions: what replaces the lookups that a face lacks.
//!
//! A font without positioning lookups leaves its marks beside their bases, and may have no glyph
//! for most of the spaces. So each mark is placed by its ccc at a side of its base: below, above,
//! at the left or at the right of the base's extents, which are taken as wide as its advance and as
//! high as its ink. Marks below and above stand a gap apart, except for those that touch their
//! base, and each next mark of the ccc beyond the one before. A ccc that only tells marks of one
//! script apart is first made one that names a side. A mark of a ligature goes to its own
//! component, an equal part of the ligature's advance. A space takes its part of the em square, or
//! the advance of a digit or a full stop.
//!
//! Contracts say every number, each sum, difference and product taken modulo 2^32; if all of them
//! fit they are the exact ones.
ghost use Rattle.std.specs.Prelude.{◌≡◌};
ghost use Rattle.shape_buffer.specs.Outcome.{Made};
ghost use Rattle.shape_fallback.specs.Bases.{bases_marked, marks_positioned, without_positions};
ghost use Rattle.shape_fallback.specs.Recategorized.{recategorized};
ghost use Rattle.shape_fallback.specs.Spaces.{spaces_placed};

mod bases;
mod ccc;
mod frame;
mod mark_state;
mod marks;
mod one_mark;
mod recategorize;
mod spaces;

use crate::ot_shape_fallback::bases::position_bases;
use crate::ot_shape_fallback::frame::make_frame;
use crate::ot_shape_fallback::recategorize::recategorize_items;
use crate::ot_shape_fallback::spaces::put_space_advances;
use shape_buffer::buffer::hb_buffer_t;
use shape_buffer::interfaces::{hb_font_t, hb_unicode_funcs_t};
use shape_plan::ot_shape_plan::hb_ot_shape_plan_t;

/// Gives each nonspacing mark the ccc that [`position_marks`] places it by: ccc of 200 and more
/// name a side of the base and stay, marks of Thai and Lao get theirs by their character, and the
/// ccc of other scripts become ones that name a side. Neither plan nor face is asked. Takes no
/// memory.
pub fn _hb_ot_shape_fallback_mark_position_recategorize_marks<F: hb_font_t, S, P, D>(
    plan: &hb_ot_shape_plan_t<'_, S, P, D>,
    face: &F,
    buffer: &mut hb_buffer_t,
)
    ensures { Made recategorized buffer.old buffer.new }
{
    recategorize_items(buffer);
}

/// Places each mark by its ccc, its own extents and those of its base, in units of the face.
///
/// A base is an item that isn't a mark and has marks directly after it. The base and its marks are
/// marked unsafe to break, since they must be placed together. Marks of ccc 0 keep their positions;
/// each other mark loses its advances and is moved from the place after the base to the base. If
/// the face has no extents for the base, nonspacing marks lose their advances and nothing else is
/// placed; their offsets lose the advances first if `adjust_offsets_when_zeroing` says so. Lines
/// run as the buffer says; the components of a ligature run as the plan does, or as its script if
/// the plan is vertical. Sums wrap modulo 2^32. Takes no memory.
#[tactic(auto, unfolding(crate::specs::Bases::marks_positioned))]
pub fn position_marks<U: hb_unicode_funcs_t, F: hb_font_t, S, P, D>(
    plan: &hb_ot_shape_plan_t<'_, S, P, D>,
    face: &F,
    buffer: &mut hb_buffer_t,
    adjust_offsets_when_zeroing: bool,
)
    ensures placed { Made (marks_positioned U.unicode (F.face face.now)
        plan.now.direction plan.now.script
        adjust_offsets_when_zeroing) buffer.old buffer.new }
    ensures marked { without_positions buffer.new ≡ without_positions (bases_marked buffer.old) }
{
    let frame = make_frame::<U, F, S, P, D>(plan, face, buffer, adjust_offsets_when_zeroing);
    position_bases(face, frame, buffer);
}

/// Gives each space separator that no lookup has ligated the advance of its remembered type, in
/// units of the face: its part of the em square, the advance of the first digit that has a glyph
/// (FIGURE), that of the full stop, else of the comma (PUNCTUATION), or half of what it had
/// (NARROW); other types and those whose characters have no glyph keep theirs. In text that isn't
/// horizontal the advance is the vertical one, and a part of the em square negative. The plan isn't
/// asked. Takes no memory.
pub fn _hb_ot_shape_fallback_spaces<F: hb_font_t, S, P, D>(
    plan: &hb_ot_shape_plan_t<'_, S, P, D>,
    face: &F,
    buffer: &mut hb_buffer_t,
)
    ensures { Made (spaces_placed (F.face face.now)) buffer.old buffer.new }
{
    put_space_advances(face, buffer);
}

/// Changes nothing: kerning without lookups was given up. It stands for callers of the name.
pub fn _hb_ot_shape_fallback_kern<F: hb_font_t, S, P, D>(
    plan: &hb_ot_shape_plan_t<'_, S, P, D>,
    face: &F,
    buffer: &mut hb_buffer_t,
)
    ensures { buffer.new ≡ buffer.old }
{}
