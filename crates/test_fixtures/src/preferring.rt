//! Shapers that have preferences alone, for normalising and for marks, and give way to a face with
//! `morx`.
ghost use Rattle.std.specs.Prelude.{◌≡◌, true, false, pos, refl};

use crate::marking::{Early, Hanging, Late, Marking};
use shape_buffer::buffer::hb_tag_t;
use shape_buffer::interfaces::{hb_font_t, hb_ot_layout_t, hb_unicode_funcs_t};
use shape_pipeline::ot_shaper::{Decomposed, Preference, no_hook, script_shaper};
use shape_plan::normalization_mode::HB_OT_SHAPE_NORMALIZATION_MODE_AUTO;
use std::marker::PhantomData;

/// Leaves the mode of normalising to the plan.
pub struct Automatic;

impl Preference for Automatic {
    ghost PREFERENCE = { pos 4 };

    const PREFERENCE: i32 = HB_OT_SHAPE_NORMALIZATION_MODE_AUTO;

    ghost lawful = { refl };
}

/// Has the preference `T` and the preference `W` for marks, and gives no hook.
#[derive(Drop)]
pub struct PreferringShaper<T, W> {
    preference: PhantomData<T>,
    marking: PhantomData<W>,
}

impl<T, W> PreferringShaper<T, W> {
    /// The one value of the type.
    pub fn new() -> PreferringShaper<T, W>
        ensures { (other : PreferringShaper T W) → result ≡ other }
    {
        PreferringShaper {
            preference: PhantomData,
            marking: PhantomData,
        }
    }
}

/// Never zeroes marks, and has them placed by their boxes.
pub type HangingShaper = PreferringShaper<Decomposed, Hanging>;

/// Zeroes marks before tables place them, and has none placed by its box.
pub type EarlyShaper = PreferringShaper<Decomposed, Early>;

/// Zeroes marks after tables have placed them, and has none placed by its box.
pub type LateShaper = PreferringShaper<Decomposed, Late>;

impl<
    T: Preference,
    W: Marking,
    U: hb_unicode_funcs_t,
    F: hb_font_t,
    M: hb_ot_layout_t<F>,
> script_shaper<U, F, M> for PreferringShaper<T, W> {
    type Data = ();

    type CollectFeatures = no_hook;

    type OverrideFeatures = no_hook;

    type CreateData = no_hook;

    type PreprocessText = no_hook;

    type PostprocessGlyphs = no_hook;

    type Pause = no_hook;

    type Decompose = no_hook;

    type Compose = no_hook;

    type SetupMasks = no_hook;

    type ReorderMarks = no_hook;

    ghost IS_DEFAULT = { false };

    const IS_DEFAULT: bool = false;

    ghost NORMALIZATION_PREFERENCE = { T.PREFERENCE };

    const NORMALIZATION_PREFERENCE: i32 = T::PREFERENCE;

    ghost GPOS_TAG = { W.GPOS_TAG };

    const GPOS_TAG: Option<hb_tag_t> = W::GPOS_TAG;

    ghost ZERO_WIDTH_MARKS = { W.ZERO_WIDTH_MARKS };

    const ZERO_WIDTH_MARKS: u32 = W::ZERO_WIDTH_MARKS;

    ghost FALLBACK_POSITION = { W.FALLBACK_POSITION };

    const FALLBACK_POSITION: bool = W::FALLBACK_POSITION;

    ghost lawful_preference = { T.lawful };

    ghost lawful_zero_width = { W.lawful };
}
