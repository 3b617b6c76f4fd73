//! What a planner asks of the layout engine, in order.
//!
//! An engine is to run lookups in the order of the features that asked for them, so the order of
//! the requests is their meaning: variations of the face come before everything, a direction's
//! forms and fractions before a script's features, those of every text and of a direction after
//! them, then the user's, and last what a shaper overrides, which wins. Each function here appends
//! one row of the order to a builder; what it appends stands in its contract.
ghost use Rattle.std.specs.Prelude.{◌≡◌, OnOk, IsOkUnless, map};
ghost use Rattle.shape_buffer.specs.MapBuilder.{with_requests};
ghost use Rattle.shape_plan.specs.Requests;
ghost use Rattle.shape_plan.specs.Plan.{given_shaper};

use crate::ot_shape_plan::ChosenShaper;
use crate::ot_shaper::hb_ot_shaper_t;
use crate::planner::tags;
use crate::shaping_types::ShapingTypes;
use shape_buffer::buffer::{Direction, Feature, Script, ShapeError, hb_tag_t};
use shape_buffer::interfaces::{
    F_GLOBAL, F_GLOBAL_HAS_FALLBACK, F_GLOBAL_MANUAL_JOINERS, F_GLOBAL_SEARCH, F_HAS_FALLBACK,
    F_NONE, F_RANDOM, MAX_VALUE, hb_ot_map_builder_t, hb_ot_map_feature_flags_t,
};
use std::alloc::Global;

/// As many requests as a planner makes for a text of any direction, without those of hooks and of
/// the user.
pub(crate) const MOST_WITHOUT_HOOKS: usize = 27;

/// The features of every text.
const COMMON_FEATURES: [(hb_tag_t, hb_ot_map_feature_flags_t); 7] = [
    (tags::ABVM, F_GLOBAL),
    (tags::BLWM, F_GLOBAL),
    (tags::CCMP, F_GLOBAL),
    (tags::LOCL, F_GLOBAL),
    (tags::MARK, F_GLOBAL_MANUAL_JOINERS),
    (tags::MKMK, F_GLOBAL_MANUAL_JOINERS),
    (tags::RLIG, F_GLOBAL),
];

/// Those of horizontal texts.
const HORIZONTAL_FEATURES: [(hb_tag_t, hb_ot_map_feature_flags_t); 7] = [
    (tags::CALT, F_GLOBAL),
    (tags::CLIG, F_GLOBAL),
    (tags::CURS, F_GLOBAL),
    (tags::DIST, F_GLOBAL),
    (tags::KERN, F_GLOBAL_HAS_FALLBACK),
    (tags::LIGA, F_GLOBAL),
    (tags::RCLT, F_GLOBAL),
];

/// Variations, and a pause after them.
fn add_variations(builder: &mut hb_ot_map_builder_t) -> Result<(), ShapeError>
    ensures ok { OnOk result (builder.new ≡ with_requests builder.old Requests.variations) }
    ensures memory { IsOkUnless result ShapeError.Memory }
{
    builder.enable_feature(tags::RVRN, F_NONE, 1)?;
    builder.add_gsub_pause(None)
}

/// The forms of a direction of horizontal text.
fn add_forms(builder: &mut hb_ot_map_builder_t, direction: Direction) -> Result<(), ShapeError>
    ensures ok { OnOk result (builder.new ≡ with_requests builder.old (Requests.forms direction)) }
    ensures memory { IsOkUnless result ShapeError.Memory }
{
    match direction {
        Direction::LeftToRight => {
            builder.enable_feature(tags::LTRA, F_NONE, 1)?;
            builder.enable_feature(tags::LTRM, F_NONE, 1)
        }
        Direction::RightToLeft => {
            builder.enable_feature(tags::RTLA, F_NONE, 1)?;
            builder.add_feature(tags::RTLM, F_NONE, 1)
        }
        _ => Ok(()),
    }
}

/// Fractions.
fn add_fractions(builder: &mut hb_ot_map_builder_t) -> Result<(), ShapeError>
    ensures ok { OnOk result (builder.new ≡ with_requests builder.old Requests.fractions) }
    ensures memory { IsOkUnless result ShapeError.Memory }
{
    builder.add_feature(tags::FRAC, F_NONE, 1)?;
    builder.add_feature(tags::NUMR, F_NONE, 1)?;
    builder.add_feature(tags::DNOM, F_NONE, 1)
}

/// Alternates at random.
fn add_random(builder: &mut hb_ot_map_builder_t) -> Result<(), ShapeError>
    ensures ok { OnOk result (builder.new ≡ with_requests builder.old Requests.random) }
    ensures memory { IsOkUnless result ShapeError.Memory }
{
    builder.enable_feature(tags::RAND, F_RANDOM, MAX_VALUE)
}

/// Tracking, which a user switches off like a feature though a table of its own does it, and two
/// features of faces.
fn add_tracking(builder: &mut hb_ot_map_builder_t) -> Result<(), ShapeError>
    ensures ok { OnOk result (builder.new ≡ with_requests builder.old Requests.tracking) }
    ensures memory { IsOkUnless result ShapeError.Memory }
{
    builder.enable_feature(tags::TRAK, F_HAS_FALLBACK, 1)?;
    builder.enable_feature(tags::HARF, F_NONE, 1)?;
    builder.enable_feature(tags::HARF_DISCRETIONARY, F_NONE, 1)
}

/// All that comes before a script's own features. The builder is simple so far.
pub(crate) fn begin(
    builder: &mut hb_ot_map_builder_t,
    direction: Direction,
) -> Result<(), ShapeError>
    ensures ok { OnOk result (builder.new ≡ Requests.begun_requests direction builder.old) }
    ensures memory { IsOkUnless result ShapeError.Memory }
{
    builder.set_simple(true);
    add_variations(builder)?;
    add_forms(builder, direction)?;
    add_fractions(builder)?;
    add_random(builder)?;
    add_tracking(builder)
}

/// A script's own features, if the shaper is used and collects some. The builder is no longer
/// simple when the hook sees it.
pub(crate) fn collect<T: ShapingTypes>(
    alloc: Global,
    shaper: ChosenShaper<'_, T::Shaper>,
    builder: &mut hb_ot_map_builder_t,
    direction: Direction,
    script: Option<Script>,
) -> Result<(), ShapeError>
    ensures ok { OnOk result (builder.new ≡ Requests.collected
        (Requests.hook_of T.Shaper.constants.has_collect_features T.Shaper.collected
        (given_shaper shaper.entry)) direction script builder.old) }
    ensures memory { IsOkUnless result ShapeError.Memory }
{
    match shaper {
        ChosenShaper::Given(shaper) if T::Shaper::HAS_COLLECT_FEATURES => {
            builder.set_simple(false);
            shaper.collect_features(alloc, builder, direction, script)
        }
        _ => Ok(()),
    }
}

/// Two features of faces that come after a script's own.
fn add_after_script(builder: &mut hb_ot_map_builder_t) -> Result<(), ShapeError>
    ensures ok { OnOk result (builder.new ≡ with_requests builder.old Requests.after_script) }
    ensures memory { IsOkUnless result ShapeError.Memory }
{
    builder.enable_feature(tags::BUZZ, F_NONE, 1)?;
    builder.enable_feature(tags::BUZZ_DISCRETIONARY, F_NONE, 1)
}

/// Features of value 1 with these tags and flags.
fn add_features(
    builder: &mut hb_ot_map_builder_t,
    features: &[(hb_tag_t, hb_ot_map_feature_flags_t)],
) -> Result<(), ShapeError>
    ensures ok { OnOk result (builder.new
        ≡ with_requests builder.old (map (λ f. Requests.add f.0 f.1) features.now)) }
    ensures memory { IsOkUnless result ShapeError.Memory }
{
    for &(tag, flags) in features {
        builder.add_feature(tag, flags, 1)?;
    }
    Ok(())
}

/// Those of every text.
fn add_common(builder: &mut hb_ot_map_builder_t) -> Result<(), ShapeError>
    ensures ok { OnOk result (builder.new ≡ with_requests builder.old Requests.common) }
    ensures memory { IsOkUnless result ShapeError.Memory }
{
    add_features(builder, &COMMON_FEATURES)
}

/// Those of a direction. Vertical forms are taken from any script that has them, since few faces
/// list them under each.
fn add_directed(builder: &mut hb_ot_map_builder_t, direction: Direction) -> Result<(), ShapeError>
    ensures ok { OnOk result (builder.new
        ≡ with_requests builder.old (Requests.directed direction)) }
    ensures memory { IsOkUnless result ShapeError.Memory }
{
    if direction.is_horizontal() {
        add_features(builder, &HORIZONTAL_FEATURES)
    } else {
        builder.enable_feature(tags::VERT, F_GLOBAL_SEARCH, 1)
    }
}

/// Those that the user asks for, in order. One over the whole text is on; any other is switched on
/// by masks.
fn add_user_features(
    builder: &mut hb_ot_map_builder_t,
    features: &[Feature],
) -> Result<(), ShapeError>
    ensures ok { OnOk result (builder.new
        ≡ with_requests builder.old (map Requests.user_request features.now)) }
    ensures memory { IsOkUnless result ShapeError.Memory }
{
    for feature in features {
        let flags = if feature.is_global() {
            F_GLOBAL
        } else {
            F_NONE
        };
        builder.add_feature(feature.tag, flags, feature.value)?;
    }
    Ok(())
}

/// All that comes after a script's own features. If the user asks for some the builder is no longer
/// simple.
pub(crate) fn widen(
    builder: &mut hb_ot_map_builder_t,
    direction: Direction,
    features: &[Feature],
) -> Result<(), ShapeError>
    ensures ok { OnOk result (builder.new ≡ Requests.widened direction features.now builder.old) }
    ensures memory { IsOkUnless result ShapeError.Memory }
{
    if !features.is_empty() {
        builder.set_simple(false);
    }
    add_after_script(builder)?;
    add_common(builder)?;
    add_directed(builder, direction)?;
    add_user_features(builder, features)
}

/// What the shaper asks for last, if it is used and does.
pub(crate) fn override_features<T: ShapingTypes>(
    alloc: Global,
    shaper: ChosenShaper<'_, T::Shaper>,
    builder: &mut hb_ot_map_builder_t,
    direction: Direction,
    script: Option<Script>,
) -> Result<(), ShapeError>
    ensures ok { OnOk result (builder.new ≡ Requests.hooked
        (Requests.hook_of T.Shaper.constants.has_override_features T.Shaper.overriding
        (given_shaper shaper.entry)) direction script builder.old) }
    ensures memory { IsOkUnless result ShapeError.Memory }
{
    match shaper {
        ChosenShaper::Given(shaper) if T::Shaper::HAS_OVERRIDE_FEATURES => {
            shaper.override_features(alloc, builder, direction, script)
        }
        _ => Ok(()),
    }
}
