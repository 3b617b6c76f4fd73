//! The frame that the marks of a buffer are placed in: how the line runs, how the components of
//! ligatures run, and the gap between marks.
ghost use Rattle.std.specs.Prelude.{◌≡◌};
ghost use Rattle.shape_fallback.specs.Bases;

use crate::ot_shape_fallback::marks::MarkFrame;
use crate::ot_shape_fallback::one_mark::Surroundings;
use shape_buffer::buffer::{Direction, Script, hb_buffer_t};
use shape_buffer::interfaces::{hb_font_t, hb_unicode_funcs_t};
use shape_buffer::wrapping::quotient;
use shape_plan::ot_shape_plan::hb_ot_shape_plan_t;

/// The gap between marks is the height of the em square divided by this.
const GAPS_IN_EM: i32 = 16;

/// Whether this is left to right.
fn is_left_to_right(direction: Direction) -> bool
    ensures { result ≡ Bases.is_left_to_right direction }
{
    matches!(direction, Direction::LeftToRight)
}

/// Whether the components of a ligature run to the right: by the direction if that is horizontal,
/// else by the script's; to the right if none is known.
#[tactic(auto, unfolding(crate::specs::Bases::runs_to_right))]
fn runs_to_right<U: hb_unicode_funcs_t>(direction: Direction, script: Option<Script>) -> bool
    ensures { result ≡ Bases.runs_to_right U.unicode direction script }
{
    if direction.is_horizontal() {
        return is_left_to_right(direction);
    }
    let Some(script) = script else {
        return true;
    };
    match U::script_direction(script) {
        None | Some(Direction::Invalid) => true,
        Some(direction) => is_left_to_right(direction),
    }
}

/// The frame of the marks of a buffer under a plan.
#[tactic(auto, unfolding(crate::specs::Bases::frame_of))]
pub(crate) fn make_frame<U: hb_unicode_funcs_t, F: hb_font_t, S, P, D>(
    plan: &hb_ot_shape_plan_t<'_, S, P, D>,
    face: &F,
    buffer: &hb_buffer_t,
    adjust: bool,
) -> MarkFrame
    ensures { result ≡ Bases.frame_of U.unicode (F.face face.now) plan.now.direction plan.now.script
        adjust buffer.now }
{
    let direction = buffer.direction();
    MarkFrame {
        surroundings: Surroundings {
            horizontal: direction.is_horizontal(),
            forward: direction.is_forward(),
            gap: quotient(face.y_scale(), GAPS_IN_EM),
        },
        left_to_right: runs_to_right::<U>(plan.direction(), plan.script()),
        adjust,
    }
}
