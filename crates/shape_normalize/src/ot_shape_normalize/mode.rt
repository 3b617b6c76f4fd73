//! The modes of normalising, by what they choose and whether they compose.
//!
//! AUTO leaves the choice to this layer, which may depend on what the plan can place; today that is
//! the mode with composed diacritics in every case. A plan that uses no shaper has no preference to
//! ask, so it takes AUTO.
ghost use Rattle.std.specs.Prelude.{◌≡◌};
ghost use Rattle.shape_plan.specs.Rules;

use shape_buffer::interfaces::{hb_font_t, hb_ot_layout_t, hb_unicode_funcs_t};
use shape_plan::normalization_mode::{
    HB_OT_SHAPE_NORMALIZATION_MODE_AUTO, HB_OT_SHAPE_NORMALIZATION_MODE_COMPOSED_DIACRITICS,
    HB_OT_SHAPE_NORMALIZATION_MODE_COMPOSED_DIACRITICS_NO_SHORT_CIRCUIT,
    HB_OT_SHAPE_NORMALIZATION_MODE_NONE, hb_ot_shape_normalization_mode_t,
};
use shape_plan::ot_shaper::hb_ot_shaper_t;
use shape_plan::shaping_types::{PlanOf, ShapingTypes};

/// The mode of a plan: the shaper's preference if the plan uses it, else AUTO.
fn mode_of<T: ShapingTypes>(plan: &PlanOf<'_, T>) -> hb_ot_shape_normalization_mode_t
    ensures { result ≡ Rules.used_mode T.Shaper.constants.preference plan.now }
{
    match plan.shaper() {
        Some(_) => T::Shaper::NORMALIZATION_PREFERENCE,
        None => HB_OT_SHAPE_NORMALIZATION_MODE_AUTO,
    }
}

/// Whether the shortest expansion is asked for, by whether a character stands in a sequence with
/// marks.
pub(crate) fn goes_short<T: ShapingTypes>(plan: &PlanOf<'_, T>, with_marks: bool) -> bool
    ensures { result
        ≡ Rules.goes_short (Rules.used_mode T.Shaper.constants.preference plan.now) with_marks }
{
    match mode_of::<T>(plan) {
        HB_OT_SHAPE_NORMALIZATION_MODE_NONE => true,
        HB_OT_SHAPE_NORMALIZATION_MODE_COMPOSED_DIACRITICS | HB_OT_SHAPE_NORMALIZATION_MODE_AUTO =>
            !with_marks,
        _ => false,
    }
}

/// Whether marks are composed with their starters again.
pub(crate) fn recomposes<T: ShapingTypes>(plan: &PlanOf<'_, T>) -> bool
    ensures { result
        ≡ Rules.mode_recomposes (Rules.used_mode T.Shaper.constants.preference plan.now) }
{
    matches!(
        mode_of::<T>(plan),
        HB_OT_SHAPE_NORMALIZATION_MODE_COMPOSED_DIACRITICS
            | HB_OT_SHAPE_NORMALIZATION_MODE_COMPOSED_DIACRITICS_NO_SHORT_CIRCUIT
            | HB_OT_SHAPE_NORMALIZATION_MODE_AUTO
    )
}
