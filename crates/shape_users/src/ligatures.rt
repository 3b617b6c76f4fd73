//! A small layout engine: one stage of substitution, which puts a glyph in place of another one and
//! a ligature in place of two, whatever the face.
//!
//! What it must provide for a run is that its one stage preserves clusters and flags, which
//! [`ligatures_preserve`] says of all its calls; a run by it then has no obligations, if the shaper
//! gives no hook: [`ligature_runs_have_no_obligations`].
ghost use Rattle.std.specs.Prelude.{None};
ghost use Rattle.shape_buffer.specs.Preservation.{LookupsPreserveClusters, LookupsPreserveFlags};
ghost use Rattle.shape_plan.specs.Plan.{Plan};
ghost use Rattle.shape_plan.specs.declared.ot_shaper.shapers.hb_default_shaper_t.{hb_default_shaper_t as DefaultShaper};
ghost use Rattle.shape_pipeline.specs.Premises.{HasNoObligations};
ghost use Rattle.shape_users.specs.Ligatures.{substituted};
ghost use Rattle.shape_users.specs.Worked.Ligatures.{WorkedLigatures};

mod substitution;

use crate::stages::{Staged, engine_stages, stages_preserve};
use shape_buffer::buffer::{ShapeError, hb_buffer_t, hb_tag_t};
use shape_buffer::interfaces::{hb_font_t, hb_ot_layout_t, hb_unicode_funcs_t};
use shape_pipeline::laws::runs_without_hooks_have_no_obligations;
use shape_pipeline::ot_shaper::{Runs, hb_default_shaper_t};
use std::alloc::Global;
pub use substitution::{LIGATURE, SINGLE, substitute};

/// The stage of [`Ligatures`].
pub struct LigatureStage;

/// A layout engine with one single and one ligature substitution.
pub type Ligatures = Staged<LigatureStage>;

impl<F> engine_stages<F> for LigatureStage {
    ghost STAGES = { 1 };

    const STAGES: usize = 1;

    ghost number = { λ _. None };

    ghost made = { λ _ _. substituted };

    fn number(_tag: hb_tag_t) -> Option<u32> {
        None
    }

    fn run_stage(
        _alloc: Global,
        _i: usize,
        _face: &F,
        buffer: &mut hb_buffer_t,
    ) -> Result<(), ShapeError> {
        substitute(buffer);
        Ok(())
    }
}

/// Each call of the engine preserves clusters, and each preserves flags.
pub fn ligatures_preserve<F: hb_font_t>()
    ensures clusters { (map : Unit) (face : F)
        → LookupsPreserveClusters (⟦<Ligatures as hb_ot_layout_t<F>>⟧.lookups map face) }
    ensures flags { (map : Unit) (face : F)
        → LookupsPreserveFlags (⟦<Ligatures as hb_ot_layout_t<F>>⟧.lookups map face) }
{
    stages_preserve::<F, LigatureStage>();
}

/// A run of the default shaper with this engine has no obligations.
pub fn ligature_runs_have_no_obligations<U: hb_unicode_funcs_t, F: hb_font_t>()
    ensures { (plan : Plan DefaultShaper Unit Unit) (face : F)
        → HasNoObligations (⟦<hb_default_shaper_t as Runs<U, F, Ligatures>>⟧.run plan face) }
{
    ligatures_preserve::<F>();
    runs_without_hooks_have_no_obligations::<U, F, Ligatures, hb_default_shaper_t>();
}

/// What the stage substitutes, on glyphs worked out by hand.
pub fn ligatures_meet_worked_cases()
    ensures { WorkedLigatures }
{}
