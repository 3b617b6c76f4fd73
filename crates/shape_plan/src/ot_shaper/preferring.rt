//! Shapers that differ from the default one in how they normalise, and in nothing else.
//!
//! The way to normalise is a type, since a shaper's preference is a constant.
ghost use Rattle.std.specs.Prelude.{◌≡◌, ℤ, true, false, None, pos, refl};
ghost use Rattle.shape_plan.specs.Shaper.{is_preference};

use crate::normalization_mode::{
    HB_OT_SHAPE_NORMALIZATION_MODE_COMPOSED_DIACRITICS,
    HB_OT_SHAPE_NORMALIZATION_MODE_COMPOSED_DIACRITICS_NO_SHORT_CIRCUIT,
    HB_OT_SHAPE_NORMALIZATION_MODE_DECOMPOSED, HB_OT_SHAPE_NORMALIZATION_MODE_NONE,
};
use crate::ot_shaper::{HB_OT_SHAPE_ZERO_WIDTH_MARKS_BY_GDEF_LATE, no_hook, script_shaper};
use shape_buffer::buffer::hb_tag_t;
use shape_buffer::interfaces::{hb_font_t, hb_ot_layout_t, hb_unicode_funcs_t};
use std::marker::PhantomData;

/// A way to normalise, as a type.
pub trait Preference {
    ghost PREFERENCE: { ℤ };

    /// The mode of normalising, 0 to 4.
    const PREFERENCE: i32;

    ghost lawful: { is_preference PREFERENCE ≡ true };
}

/// A character is split only if the face lacks it, and then no further than the face asks for.
pub struct Shortest;

impl Preference for Shortest {
    ghost PREFERENCE = { pos 0 };

    const PREFERENCE: i32 = HB_OT_SHAPE_NORMALIZATION_MODE_NONE;

    ghost lawful = { refl };
}

/// Every character is split as far as the face allows, and nothing is composed.
pub struct Decomposed;

impl Preference for Decomposed {
    ghost PREFERENCE = { pos 1 };

    const PREFERENCE: i32 = HB_OT_SHAPE_NORMALIZATION_MODE_DECOMPOSED;

    ghost lawful = { refl };
}

/// A character with marks after it is split as far as the face allows, and composed with them
/// again; every other one is split only if the face lacks it.
pub struct ComposedDiacritics;

impl Preference for ComposedDiacritics {
    ghost PREFERENCE = { pos 2 };

    const PREFERENCE: i32 = HB_OT_SHAPE_NORMALIZATION_MODE_COMPOSED_DIACRITICS;

    ghost lawful = { refl };
}

/// Every character is split as far as the face allows, and composed again with the marks after it.
pub struct ComposedDiacriticsNoShortCircuit;

impl Preference for ComposedDiacriticsNoShortCircuit {
    ghost PREFERENCE = { pos 3 };

    const PREFERENCE: i32 = HB_OT_SHAPE_NORMALIZATION_MODE_COMPOSED_DIACRITICS_NO_SHORT_CIRCUIT;

    ghost lawful = { refl };
}

/// The default shaper with the preference `T`; it doesn't count as the default one.
#[derive(Drop)]
pub struct Preferring<T> {
    preference: PhantomData<T>,
}

impl<T> Preferring<T> {
    /// The one value of the type.
    pub fn new() -> Preferring<T>
        ensures { (other : Preferring T) → result ≡ other }
    {
        Preferring {
            preference: PhantomData,
        }
    }
}

impl<T: Preference, U: hb_unicode_funcs_t, F: hb_font_t, M: hb_ot_layout_t<F>> script_shaper<
    U,
    F,
    M,
> for Preferring<T> {
    type Data = ();

    type CollectFeatures = no_hook;

    type OverrideFeatures = no_hook;

    type CreateData = no_hook;

    type PreprocessText = no_hook;

    type PostprocessGlyphs = no_hook;

    type Pause = no_hook;

    type Decompose = no_hook;

    type Compose = no_hook;

    type SetupMasks = no_hook;

    type ReorderMarks = no_hook;

    ghost IS_DEFAULT = { false };

    const IS_DEFAULT: bool = false;

    ghost NORMALIZATION_PREFERENCE = { T.PREFERENCE };

    const NORMALIZATION_PREFERENCE: i32 = T::PREFERENCE;

    ghost GPOS_TAG = { None };

    const GPOS_TAG: Option<hb_tag_t> = None;

    ghost ZERO_WIDTH_MARKS = { 2 };

    const ZERO_WIDTH_MARKS: u32 = HB_OT_SHAPE_ZERO_WIDTH_MARKS_BY_GDEF_LATE;

    ghost FALLBACK_POSITION = { true };

    const FALLBACK_POSITION: bool = true;

    ghost lawful_preference = { T.lawful };

    ghost lawful_zero_width = { refl };
}
