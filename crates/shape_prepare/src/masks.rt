//! Masks: what a run begins with, and what depends on the text.
//!
//! The mask of an item says which features are on for it. A buffer may come with masks and
//! positions of an earlier use. Features that are on for the whole text stand in every item's mask
//! from the beginning; positions are set anew once there are glyphs. After normalising come
//! fractions, what the shaper sets, and what the user asks for: each later one sees what the
//! earlier ones have set, so the user's request overrides the shaper's.
ghost use Rattle.shape_buffer.specs.Outcome.{IsWithinLimit, Made, Ran};
ghost use Rattle.shape_prepare.specs.Begun.{begun};
ghost use Rattle.shape_prepare.specs.MaskSteps.{mask_steps};

use crate::fractions::setup_masks_fraction;
use crate::hook_calls::setup_masks_shaper;
use crate::ranges::setup_masks_user;
use shape_buffer::buffer::hb_buffer_t;
use shape_buffer::interfaces::{hb_font_t, hb_ot_layout_t, hb_unicode_funcs_t};
use shape_buffer::walks::update_items;
use shape_plan::ot_shaper::hb_ot_shaper_t;
use shape_plan::shaping_types::{Meaning, PlanOf, ShapingTypes};

/// Makes each mask the plan's global one, and each position zeros. Takes no memory.
#[tactic(auto, unfolding(crate::specs::Begun::begun))]
pub fn initialize_masks<T: ShapingTypes>(plan: &PlanOf<'_, T>, buffer: &mut hb_buffer_t)
    ensures { Made (begun (T.Engine.masks plan.now.ot_map).global_mask) buffer.old buffer.new }
{
    let mask = T::Engine::global_mask(plan.ot_map());
    update_items(buffer, |info| {
        let mut info = *info;
        info.mask = mask;
        info
    });
    buffer.clear_positions();
}

/// Sets the masks: fractions, what the shaper sets, and the user's features. Takes no memory.
pub fn setup_masks<T: ShapingTypes>(plan: &PlanOf<'_, T>, face: &T::Face, buffer: &mut hb_buffer_t)
    requires { IsWithinLimit buffer.old }
    ensures { Ran (mask_steps (⟦<T as Meaning>⟧.run plan.now face.now))
        buffer.old buffer.new }
{
    setup_masks_fraction(plan, buffer);
    setup_masks_shaper::<T>(plan, face, buffer);
    setup_masks_user::<T>(plan, buffer);
}
