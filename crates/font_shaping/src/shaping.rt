//! A text shaped with a font file.
ghost use Rattle.std.specs.Prelude.{◌≡◌, ◌<◌, ℕ, All, true, IfOk};
ghost use Rattle.std.specs.List.Sorted.{IsNonDecreasing};
ghost use Rattle.opentype_layout.specs.Engine.{opentype_layout};
ghost use Rattle.shape_items.specs.ClusterOrder.{IsMonotoneLevel};
ghost use Rattle.shape_items.specs.Clusters.{clusters};
ghost use Rattle.shape_lines.specs.CanCut.{CanCut};
ghost use Rattle.shape_buffer.specs.Guess.{guessed, guessed_direction};
ghost use Rattle.shape_pipeline.specs.Canonical.{HasCanonicalList};
ghost use Rattle.shape_pipeline.specs.Headline.{HasFlagsByCluster};
ghost use Rattle.shape_pipeline.specs.Order.{ComesInOrder};
ghost use Rattle.shaper_choice.specs.Choice.{category_for, preserves_equivalence};
ghost use Rattle.shaper_choice.specs.Promises.{IsShapedBy};
ghost use Rattle.font_shaping.specs.RunTries.{TriesNoMore};

use crate::laws::{script_runs_preserve, script_runs_try_no_more_than_they_may};
use opentype_layout::{OpenTypeFace, OpenTypeLayout};
use shape_pipeline::laws::glyphs_can_be_cut;
use shape_pipeline::{Feature, GlyphBuffer, ShapeFault, UnicodeBuffer, hb_unicode_funcs_t};
use shaper_choice::choice::{ScriptRuns, by_script, shape_by_script};
use std::alloc::Global;

/// The glyphs of a text with a font file, by its tables `GDEF`, `GSUB`, `GPOS` and `kern` and by
/// the shaper that the text's script asks for: the clauses of [`shape_by_script`] with nothing left
/// to ask of the font. So for any bytes the clusters of the glyphs come from the text in the order
/// of its direction (at the monotone levels, if the text's clusters never fall), each cluster has
/// one set of flags, the glyphs can be cut into lines, and they are made of the normalised list,
/// which is equivalent to the text if its script has no shaper of its own or that of Myanmar or
/// Zawgyi, or if that preserves equivalence. Refuses with `Length` if a step would leave a list
/// past the run's limit, and with `Memory` if a growth was refused; the fault holds the cleared
/// buffer. No font makes the lookups of the run try more than the length of the text lets them.
pub fn shape_with_font<'a, U: hb_unicode_funcs_t>(
    alloc: Global,
    face: &OpenTypeFace<'a>,
    features: &[Feature],
    text: UnicodeBuffer,
) -> Result<GlyphBuffer, ShapeFault>
    ensures shaped { let run =
        ⟦<by_script as ScriptRuns<U, OpenTypeFace<'a>, OpenTypeLayout>>⟧.text_run
        face.now features.now text in IsShapedBy U.unicode run text result }
    ensures canonical_by_script { let run = ⟦<by_script as ScriptRuns<U, OpenTypeFace<'a>, OpenTypeLayout>>⟧.text_run
        face.now features.now text in
        preserves_equivalence (category_for U.unicode (opentype_layout face.now) text) ≡ true
        → IfOk result (λ _. HasCanonicalList run text) }
    ensures clusters { let run = ⟦<by_script as ScriptRuns<U, OpenTypeFace<'a>, OpenTypeLayout>>⟧.text_run
        face.now features.now text in
        IsMonotoneLevel text.cluster_level → IsNonDecreasing (clusters text.items)
        → IfOk result (λ glyphs. ComesInOrder run (guessed_direction U.unicode text)
        (guessed U.unicode text) glyphs) }
    ensures flags { IfOk result (λ glyphs. HasFlagsByCluster text glyphs) }
    ensures cut { IsMonotoneLevel text.cluster_level → IsNonDecreasing (clusters text.items)
        → (text_end : ℕ) → All (λ item. item.cluster < text_end) text.items
        → IfOk result (λ glyphs. CanCut glyphs text_end) }
    ensures tries { TriesNoMore face.now
        (⟦<by_script as ScriptRuns<U, OpenTypeFace<'a>, OpenTypeLayout>>⟧.text_run
        face.now features.now text) }
{
    script_runs_preserve::<U>();
    script_runs_try_no_more_than_they_may::<U>();
    glyphs_can_be_cut();
    shape_by_script::<U, OpenTypeFace, OpenTypeLayout>(alloc, face, features, text)
}
