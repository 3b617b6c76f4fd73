//! What the library for C is made of: runs of a text shaped with a font file into an array, in
//! structs and numbers that cross to C and back. `luthgarn_c` exports it.
//!
//! A call reads slices, writes into slices, and returns. [`plain`] has the structs that cross,
//! [`texts`] makes a text of a run, [`shaper`] shapes it by one of the [`plans`] that the runs of a
//! call share, [`written`] writes its glyphs, [`runs`] goes over the runs, [`fonts`] opens a font,
//! [`instances`] says at which coordinates, [`kept`] is one that stays open, which C has behind a
//! [`handle`], and [`refusal`] has the reasons that come back as numbers.
#![tactic(auto)]
#![allow(non_camel_case_types)]

pub mod fonts;
pub mod handle;
pub mod instances;
pub mod kept;
mod parts;
pub mod plain;
mod plans;
pub mod refusal;
mod runs;
mod shaper;
mod spares;
pub mod texts;
mod written;

ghost use Rattle.std.specs.Prelude.{◌≡◌, map, IfOk, IfErr};
ghost use Rattle.c_runs.specs.Numbers.{feature_of_c};
ghost use Rattle.c_runs.specs.Outcomes.{ServesBy};
ghost use Rattle.c_runs.specs.Texts.{units_of};
ghost use Rattle.c_runs.specs.Worked.Runs.{WorkedRuns};

use crate::plain::{features_of, luthgarn_feature, luthgarn_glyph, luthgarn_outcome, luthgarn_run};
use crate::refusal::Refusal;
use crate::runs::shape_runs;
use crate::shaper::FontShaper;
use crate::texts::Text;
use opentype_layout::{OpenTypeFace, OpenTypeLayout, OpenedOpenTypeFace};
use shape_unicode::UnicodeDatabase;
use shaper_choice::choice::{ScriptRuns, by_script};
use std::alloc::Global;

/// Shapes runs of a text with a face that is opened for them. Refuses with `Memory` alone.
pub fn shape_opened(
    alloc: Global,
    face: OpenTypeFace<'_>,
    features: &[luthgarn_feature],
    text: Text<'_>,
    runs: &mut [luthgarn_run],
    glyphs: &mut [luthgarn_glyph],
) -> Result<luthgarn_outcome, Refusal>
    ensures ok { IfOk result (λ outcome. ServesBy
        ⟦<by_script as ScriptRuns<UnicodeDatabase, OpenedOpenTypeFace<'static>, OpenTypeLayout>>⟧.text_run
        (λ f. f ≡ face.entry) (map feature_of_c features.now)
        (units_of text.entry) runs.old runs.new glyphs.old glyphs.new outcome) }
    ensures memory { IfErr result (λ e. e ≡ Refusal.Memory) }
    ensures same { IfErr result (λ _. (runs.new ≡ runs.old) × (glyphs.new ≡ glyphs.old)) }
{
    let opened = OpenedOpenTypeFace::new(alloc, face)?;
    shape_with(alloc, &opened, features, text, runs, glyphs)
}

/// Shapes runs of a text with an opened face. Refuses with `Memory` alone.
fn shape_with(
    alloc: Global,
    face: &OpenedOpenTypeFace<'_>,
    features: &[luthgarn_feature],
    text: Text<'_>,
    runs: &mut [luthgarn_run],
    glyphs: &mut [luthgarn_glyph],
) -> Result<luthgarn_outcome, Refusal>
    ensures ok { IfOk result (λ outcome. ServesBy
        ⟦<by_script as ScriptRuns<UnicodeDatabase, OpenedOpenTypeFace<'static>, OpenTypeLayout>>⟧.text_run
        (λ f. f ≡ face.now) (map feature_of_c features.now)
        (units_of text.entry) runs.old runs.new glyphs.old glyphs.new outcome) }
    ensures memory { IfErr result (λ e. e ≡ Refusal.Memory) }
    ensures same { IfErr result (λ _. (runs.new ≡ runs.old) × (glyphs.new ≡ glyphs.old)) }
{
    let features = features_of(alloc, features)?;
    let mut shaper = FontShaper {
        face,
        features: features.as_slice(),
        plans: Vec::new(alloc),
        spares: Vec::new(alloc),
    };
    Ok(shape_runs(alloc, &mut shaper, text, runs, glyphs))
}

/// Runs of a text, and their glyphs, by hand. Does nothing.
pub fn runs_meet_worked_cases()
    ensures { WorkedRuns }
{}
