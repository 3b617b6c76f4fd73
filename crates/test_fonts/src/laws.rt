//! What a run that kerns by the table `kern` of a font file must provide.
ghost use Rattle.shape_font.specs.declared.face.FontFace.{FontFace as Face};
ghost use Rattle.shape_plan.specs.Plan.{Plan};
ghost use Rattle.shape_plan.specs.declared.ot_shaper.shapers.hb_default_shaper_t.{hb_default_shaper_t as DefaultShaper};
ghost use Rattle.kern_table.specs.declared.map.KernMap.{KernMap as Map};
ghost use Rattle.shape_pipeline.specs.Premises.{HasNoObligations};

use kern_table::KernTable;
use kern_table::laws::kern_table_preserves;
use shape_font::FontFace;
use shape_pipeline::hb_unicode_funcs_t;
use shape_pipeline::laws::runs_without_hooks_have_no_obligations;
use shape_pipeline::ot_shaper::{Runs, hb_default_shaper_t};

/// A run of the default shaper that kerns by the table `kern` has no obligations, whatever the
/// font: every premise of the promises about a run holds of it.
pub fn kerned_runs_have_no_obligations<'a, U: hb_unicode_funcs_t>()
    ensures { (plan : Plan DefaultShaper Map Unit) (face : Face)
        → HasNoObligations (⟦<hb_default_shaper_t as Runs<U, FontFace<'a>, KernTable>>⟧.run plan face) }
{
    kern_table_preserves();
    runs_without_hooks_have_no_obligations::<U, FontFace, KernTable, hb_default_shaper_t>();
}
