//! The four types of a run as one: its Unicode functions, face, layout engine and shaper.
//!
//! Public entries have four type parameters. What they call has one, and its clauses quote one
//! [`Meaning`].
ghost use Rattle.shape_plan.specs.Plan.{Plan};
ghost use Rattle.shape_plan.specs.Rules.{Rules, rules_of};
ghost use Rattle.shape_plan.specs.Run.{Run, run_of};

use crate::ot_shape_plan::hb_ot_shape_plan_t;
use crate::ot_shaper::hb_ot_shaper_t;
use shape_buffer::interfaces::{hb_font_t, hb_ot_layout_t, hb_unicode_funcs_t};
use std::marker::PhantomData;

/// The types of a run.
pub trait ShapingTypes {
    /// The Unicode functions.
    type Unicode: hb_unicode_funcs_t;

    type Face: hb_font_t;

    /// The layout engine.
    type Engine: hb_ot_layout_t<Self::Face>;

    /// The script shaper.
    type Shaper: hb_ot_shaper_t<Self::Unicode, Self::Face, Self::Engine>;
}

/// What the engine compiles the requests of a plan to.
pub type MapOf<T> = <<T as ShapingTypes>::Engine as hb_ot_layout_t<<T as ShapingTypes>::Face>>::Map;

/// What the shaper keeps in a plan.
pub type DataOf<T> = <<T as ShapingTypes>::Shaper as hb_ot_shaper_t<
    <T as ShapingTypes>::Unicode,
    <T as ShapingTypes>::Face,
    <T as ShapingTypes>::Engine,
>>::Data;

/// A plan for a run of these types.
pub type PlanOf<'a, T> = hb_ot_shape_plan_t<'a, <T as ShapingTypes>::Shaper, MapOf<T>, DataOf<T>>;

/// What a run depends on under a plan and over a face: the meanings that its types bring, in plain
/// functions. All types have it, and none writes it.
pub trait Meaning: ShapingTypes {
    /// What normalising depends on.
    ghost rules: { Plan Self.Shaper Self.Engine.Map Self.Shaper.Data → Self.Face → Rules };

    /// What the whole run depends on.
    ghost run: { Plan Self.Shaper Self.Engine.Map Self.Shaper.Data → Self.Face → Run };
}

impl<T: ShapingTypes> Meaning for T {
    ghost rules = { rules_of T.Unicode.unicode T.Shaper.constants T.Shaper.hooks T.Face.face };

    ghost run = { run_of T.Unicode.unicode T.Engine.masks T.Engine.lookups T.Shaper.constants
        T.Shaper.hooks T.Face.face };
}

/// Four types as one.
pub struct TypesOf<U, F, M, S> {
    types: PhantomData<(U, F, M, S)>,
}

impl<U, F, M, S> ShapingTypes for TypesOf<U, F, M, S>
where
    U: hb_unicode_funcs_t,
    F: hb_font_t,
    M: hb_ot_layout_t<F>,
    S: hb_ot_shaper_t<U, F, M>,
{
    type Unicode = U;

    type Face = F;

    type Engine = M;

    type Shaper = S;
}
