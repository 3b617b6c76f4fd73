//! Apple's tables of a face: `morx` in the place of `GSUB`, `kerx` in that of `GPOS`, and `trak`; and
//! `kern`, which may have Apple's state tables.
//!
//! A plan says which of them are applied; here they read the face.
ghost use Rattle.std.specs.Prelude.{◌≡◌};
ghost use Rattle.shape_buffer.specs.Outcome.{IsWithinLimit, Made, Outcome, step};
ghost use Rattle.apple_positioning.specs.OldTables.{kern_run};
ghost use Rattle.apple_positioning.specs.Tables.{table_run};
ghost use Rattle.kern_table.specs.Pairs.{HoldSides};
ghost use Rattle.apple_positioning.specs.Tracking.{run_tracked};
ghost use Rattle.apple_substitution.specs.Substitution.{substituted};
ghost use Rattle.opentype_layout.specs.Apple as apple_rules;

use crate::face::OpenTypeFace;
use apple_positioning::tracking::track_run;
use apple_positioning::{ExtendedKerning, OldKerning, run_kern, run_table};
use apple_substitution::{MorxFont, substitute};
use kern_table::Sides;
use shape_buffer::buffer::{Feature, ShapeError, hb_buffer_t, hb_mask_t};
use std::alloc::Global;

/// Substitutes by `morx`, with what features choose there.
pub(crate) fn substitute_by_morx(
    alloc: Global,
    face: &OpenTypeFace<'_>,
    features: &[Feature],
    buffer: &mut hb_buffer_t,
) -> Result<(), ShapeError>
    requires { IsWithinLimit buffer.old }
    ensures { Outcome (step (substituted (apple_rules.morx_of face.now) features.now))
        buffer.old buffer.new result }
{
    let tables = face.apple_tables();
    let font = MorxFont {
        morx: tables.morx,
        feat: tables.feat,
        ltag: tables.ltag,
        gdef: face.gdef(),
        glyphs: u32::from(face.font().glyph_count()),
    };
    substitute(alloc, &font, features, buffer)
}

/// Kerns by `kerx`, where a glyph shares a bit with the mask.
pub(crate) fn position_by_kerx(face: &OpenTypeFace<'_>, mask: hb_mask_t, buffer: &mut hb_buffer_t)
    ensures { Made (table_run (apple_rules.kerx_of face.now mask)) buffer.old buffer.new }
{
    let tables = face.apple_tables();
    let kerning = ExtendedKerning {
        kerx: tables.kerx,
        ankr: tables.ankr,
        glyphs: u32::from(face.font().glyph_count()),
        scale: face.scale(),
        mask,
    };
    run_table(&kerning, buffer);
}

/// Kerns by `kern`, where a glyph shares a bit with the mask; with what is stored of its first
/// subtable.
pub(crate) fn kern_by(
    face: &OpenTypeFace<'_>,
    first: Sides<'_>,
    mask: hb_mask_t,
    buffer: &mut hb_buffer_t,
)
    requires { HoldSides face.now.font.kern.now 4 first.lefts.now first.rights.now }
    ensures { Made (kern_run (apple_rules.kern_of face.now mask)) buffer.old buffer.new }
{
    let kerning = OldKerning {
        kern: face.kern(),
        scale: face.scale(),
        mask,
    };
    run_kern(&kerning, first, buffer);
}

/// Tracks by `trak`, where a glyph shares a bit with the mask.
pub(crate) fn track(face: &OpenTypeFace<'_>, mask: hb_mask_t, buffer: &mut hb_buffer_t)
    ensures { Made (run_tracked face.now.font.apple.trak.now face.now.scale face.now.font.points mask)
        buffer.old buffer.new }
{
    let tables = face.apple_tables();
    track_run(tables.trak, face.scale(), face.points(), mask, buffer);
}
