//! What runs by kept plans preserve, with no premise on the font: those of `plan_by_script` and
//! `shape_with_script_plan`.
ghost use Rattle.std.specs.Prelude.{◌≡◌};
ghost use Rattle.layout_map.specs.Map.{OtMap as Map};
ghost use Rattle.opentype_layout.specs.declared.face.OpenTypeFace.{OpenTypeFace as Face};
ghost use Rattle.shape_pipeline.specs.Order.{RunOrdersClusters};
ghost use Rattle.shape_plan.specs.Preservation.{RunPreservesFlags};
ghost use Rattle.shaper_choice.specs.declared.plans.ScriptPlan.{ScriptPlan as AnyPlan};

use crate::each_shaper::plans_preserve;
use opentype_layout::laws::{opened_layout_preserves, opentype_layout_preserves};
use opentype_layout::{OpenTypeFace, OpenTypeLayout, OpenedOpenTypeFace};
use shape_buffer::interfaces::hb_unicode_funcs_t;
use shaper_choice::choice::by_script;
use shaper_choice::plans::ScriptPlans;

/// A run by a kept plan of the shaper of a script preserves clusters and flags, whatever the bytes
/// of the font are and whatever is planned. Its Unicode functions are those that it is given.
pub fn kept_plans_preserve<'a, U: hb_unicode_funcs_t>()
    ensures unicode { (plan : AnyPlan Map) (face : Face)
        → (⟦<by_script as ScriptPlans<U, OpenTypeFace<'a>, OpenTypeLayout>>⟧.run plan face).unicode
        ≡ U.unicode }
    ensures clusters { (plan : AnyPlan Map) (face : Face) → RunOrdersClusters
        (⟦<by_script as ScriptPlans<U, OpenTypeFace<'a>, OpenTypeLayout>>⟧.run plan face) }
    ensures flags { (plan : AnyPlan Map) (face : Face) → RunPreservesFlags
        (⟦<by_script as ScriptPlans<U, OpenTypeFace<'a>, OpenTypeLayout>>⟧.run plan face) }
{
    opentype_layout_preserves();
    plans_preserve::<U, OpenTypeFace, OpenTypeLayout>();
}

/// The same over a face that is opened once, as programs and the library for C have it.
pub fn kept_plans_of_opened_faces_preserve<'a, U: hb_unicode_funcs_t>()
    ensures unicode { (plan : AnyPlan Map) (face : Face)
        → (⟦<by_script as ScriptPlans<U, OpenedOpenTypeFace<'a>, OpenTypeLayout>>⟧.run plan face).unicode
        ≡ U.unicode }
    ensures clusters { (plan : AnyPlan Map) (face : Face) → RunOrdersClusters
        (⟦<by_script as ScriptPlans<U, OpenedOpenTypeFace<'a>, OpenTypeLayout>>⟧.run plan face) }
    ensures flags { (plan : AnyPlan Map) (face : Face) → RunPreservesFlags
        (⟦<by_script as ScriptPlans<U, OpenedOpenTypeFace<'a>, OpenTypeLayout>>⟧.run plan face) }
{
    opened_layout_preserves();
    plans_preserve::<U, OpenedOpenTypeFace, OpenTypeLayout>();
}
