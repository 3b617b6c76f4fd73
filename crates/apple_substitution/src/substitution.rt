//! Substitution by Apple's tables of a font, in one call: what is asked for becomes settings in
//! ranges of the text, and the table `morx` runs with these.
ghost use Rattle.std.specs.Prelude.{◌≡◌, IfOk};
ghost use Rattle.shape_buffer.specs.Outcome.{IsWithinLimit, Outcome, step};
ghost use Rattle.apple_substitution.specs.Substitution.{font_of, language_of, substituted};

use crate::chain_runs::Metamorphosis;
use crate::feature_map::map_features;
use crate::glyphs::Tables;
use crate::languages::Languages;
use crate::metamorphosis::{is_present, run_table};
use shape_buffer::{ShapeError, hb_buffer_t};
use std::alloc::{AllocError, Global};

/// What substitution reads of a font: the bytes of its tables, none of a table that it lacks.
#[derive(Clone, Copy)]
pub struct MorxFont<'a> {
    /// The table `morx`.
    pub morx: &'a [u8],
    /// The table `feat`.
    pub feat: &'a [u8],
    /// The table `ltag`.
    pub ltag: &'a [u8],
    /// The table `GDEF`.
    pub gdef: &'a [u8],
    /// How many glyphs the font has.
    pub glyphs: u32,
}

/// A copy of the name of a text's language, an empty one if it has none.
fn language_of(alloc: Global, buffer: &hb_buffer_t) -> Result<Vec<u8>, AllocError>
    ensures { IfOk result (λ name. name.items ≡ language_of buffer.now) }
{
    match buffer.language() {
        None => Ok(Vec::new(alloc)),
        Some(language) => Vec::from_slice(alloc, language.0.as_bytes()),
    }
}

/// Substitutes by the table `morx` of a font, with the features that are asked for, and with the
/// language of the text. Without that table nothing is done. Refuses with `Length` only if a list
/// would be past the limit of the run, and with `Memory` if a growth was refused. After a refusal
/// the buffer may have lost its items.
#[tactic(auto, unfolding(crate::specs::Substitution::substituted, crate::specs::Metamorphosis::metamorphosed))]
pub fn substitute(
    alloc: Global,
    font: &MorxFont<'_>,
    features: &[shape_common::Feature],
    buffer: &mut hb_buffer_t,
) -> Result<(), ShapeError>
    requires { IsWithinLimit buffer.old }
    ensures { Outcome (step (substituted (font_of font.now) features.now))
        buffer.old buffer.new result }
{
    if !is_present(font.morx) {
        return Ok(());
    }
    let ranges = map_features(alloc, font.feat, features)?;
    let language = language_of(alloc, buffer)?;
    let table = Metamorphosis {
        tables: Tables {
            morx: font.morx,
            gdef: font.gdef,
            glyphs: font.glyphs,
        },
        features: ranges.as_slice(),
        languages: Languages {
            ltag: font.ltag,
            text: language.as_slice(),
        },
    };
    run_table(alloc, &table, buffer)
}
