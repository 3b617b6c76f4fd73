//! Features that the user asks for over some clusters of the text.
//!
//! A range names clusters and not places, since normalising has changed how many items there are.
//! Features are set in the order in which they were asked for, so a later one wins. One that is
//! asked for over the whole text is in the mask that every item begins with.
ghost use Rattle.std.specs.Prelude.{◌≡◌, ◌<◌};
ghost use Rattle.shape_buffer.specs.Outcome.{Made};
ghost use Rattle.shape_buffer.specs.Walks.{items_mapped};
ghost use Rattle.shape_prepare.specs.Ranges;

use shape_buffer::buffer::{Feature, hb_buffer_t, hb_glyph_info_t, hb_mask_t};
use shape_buffer::interfaces::hb_ot_layout_t;
use shape_buffer::walks::update_items;
use shape_plan::shaping_types::{PlanOf, ShapingTypes};

/// A mask whose bits in `bits` become those of a value that stands at its place.
fn with_value(bits: hb_mask_t, value: u32, mask: hb_mask_t) -> hb_mask_t
    ensures { result ≡ Ranges.with_value bits value mask }
{
    (mask & !bits) | (value & bits)
}

/// An item with the value of a feature, if its cluster is in the feature's range.
fn with_feature(
    feature: &Feature,
    bits: hb_mask_t,
    shift: u32,
    info: &hb_glyph_info_t,
) -> hb_glyph_info_t
    requires { shift < 32 }
    ensures { result ≡ Ranges.with_feature feature.now (bits, shift) info.now }
{
    let mut info = *info;
    if feature.start <= info.cluster && info.cluster < feature.end {
        info.mask = with_value(bits, feature.value << shift, info.mask);
    }
    info
}

/// Sets the value of a feature in the items whose clusters are in its range.
fn set_masks(buffer: &mut hb_buffer_t, feature: &Feature, bits: hb_mask_t, shift: u32)
    requires { shift < 32 }
    ensures { Made (items_mapped (Ranges.with_feature feature.now (bits, shift)))
        buffer.old buffer.new }
{
    update_items(buffer, |info| with_feature(feature, bits, shift, info));
}

/// Sets one of the user's features, if it isn't asked for over the whole text.
fn set_feature<T: ShapingTypes>(plan: &PlanOf<'_, T>, buffer: &mut hb_buffer_t, feature: &Feature)
    ensures { Made (λ b. Ranges.range_masked (T.Engine.masks plan.now.ot_map) b feature.now)
        buffer.old buffer.new }
{
    if !feature.is_global() {
        let (bits, shift) = T::Engine::get_mask(plan.ot_map(), feature.tag);
        set_masks(buffer, feature, bits, shift);
    }
}

/// Sets the features that the user asked for over a part of the text, in their order, over the
/// items whose clusters are in their ranges: the bits of the feature become those of its value.
/// Takes no memory.
pub fn setup_masks_user<T: ShapingTypes>(plan: &PlanOf<'_, T>, buffer: &mut hb_buffer_t)
    ensures { Made (Ranges.ranges_masked (T.Engine.masks plan.now.ot_map) plan.now.user_features)
        buffer.old buffer.new }
{
    for feature in plan.user_features() {
        set_feature::<T>(plan, buffer, feature);
    }
}
