//! Shapers with preferences for marks, by themselves and beside tables that position.

use crate::cases::{Case, Fixture};
use crate::steps::answer_by;
use shape_buffer::buffer::GlyphId;
use shape_buffer::interfaces::{hb_font_t, hb_ot_layout_t, hb_tables_t};
use shape_pipeline::ot_shaper::{DEFAULT_SHAPER, hb_default_shaper_t};
use shape_plan::shaping_types::TypesOf;
use shape_unicode::UnicodeDatabase;
use std::process::Abort;
use test_fixtures::{
    EarlyShaper, HangingShaper, KnownGlyph, LateShaper, PLAIN_FACE, TestFace, TestLayout,
};

/// A letter of each direction, and an acute that advances, none with a box.
const GLYPHS: [KnownGlyph; 3] = [
    KnownGlyph {
        character: 'a',
        glyph: GlyphId(1),
        advance: 600,
        extents: None,
    },
    KnownGlyph {
        character: '\u{5D0}',
        glyph: GlyphId(4),
        advance: 500,
        extents: None,
    },
    KnownGlyph {
        character: '\u{301}',
        glyph: GlyphId(2),
        advance: 100,
        extents: None,
    },
];

/// A face of these glyphs with the tables that words name, of which `GPOS` adds 1 to each advance,
/// `kerx` 10 and `kern` 100.
fn tabled(tables: &str) -> TestFace<'static> {
    TestFace {
        known: &GLYPHS,
        tables: hb_tables_t {
            gsub: tables.contains("gsub"),
            gpos: tables.contains("gpos"),
            morx: tables.contains("morx"),
            kerx: tables.contains("kerx"),
            trak: false,
        },
        kerning: tables.contains("kern"),
        gpos_adds: 1,
        kerx_adds: 10,
        kern_adds: 100,
        ..PLAIN_FACE
    }
}

/// Shapers that are `default`, let marks hang where their boxes say (`hanging`), or zero them
/// before tables (`early`) or after (`late`). The tables are some of `gsub`, `gpos`, `morx`, `kerx`
/// and `kern`. The steps are those of `steps`.
pub struct Tables;

impl Fixture for Tables {
    fn answer(rt: &(impl Abort + AllocGlobal), case: Case<'_>) -> String {
        answer_over::<_, TestLayout>(rt, &tabled(case.settings.tables), case)
    }
}

/// A run by a shaper.
type By<F, M, S> = TypesOf<UnicodeDatabase, F, M, S>;

/// The answer over a face.
fn answer_over<F: hb_font_t, M: hb_ot_layout_t<F>>(
    rt: &(impl Abort + AllocGlobal),
    face: &F,
    case: Case<'_>,
) -> String {
    match case.settings.shaper {
        "default" => answer_by::<By<F, M, hb_default_shaper_t>>(rt, (face, &DEFAULT_SHAPER), case),
        "hanging" => answer_by::<By<F, M, HangingShaper>>(rt, (face, &HangingShaper::new()), case),
        "early" => answer_by::<By<F, M, EarlyShaper>>(rt, (face, &EarlyShaper::new()), case),
        "late" => answer_by::<By<F, M, LateShaper>>(rt, (face, &LateShaper::new()), case),
        name => rt.panic(name),
    }
}

pub const CASES: &str = "
    step: place
    # the mark stays where it is and has no width, also before the letter in backward text
    shaper: hanging
    a 0301 -> 1@0(600,0,0,0) 2@0(0,0,-100,0)
    05D0 0301 -> 2@0(0,0,0,0) 4@0(500,0,0,0)
    # zeroing alone adjusts in forward text
    shaper: early
    a 0301 -> 1@0(600,0,0,0) 2@0(0,0,-100,0)
    05D0 0301 -> 2@0(0,0,0,0) 4@0(500,0,0,0)
    shaper: late
    a 0301 -> 1@0(600,0,0,0) 2@0(0,0,-100,0)
    05D0 0301 -> 2@0(0,0,0,0) 4@0(500,0,0,0)
    # what `GPOS` adds to a mark stays if the mark was zeroed before, and goes if it is zeroed after
    tables: gpos
    shaper: early
    a 0301 -> 1@0(601,0,0,0) 2@0(1,0,0,0)
    shaper: late
    a 0301 -> 1@0(601,0,0,0) 2@0(0,0,0,0)
    shaper: default
    a 0301 -> 1@0(601,0,0,0) 2@0(0,0,0,0)
    shaper: hanging
    a 0301 -> 1@0(601,0,0,0) 2@0(101,0,0,0)
    # shapers that give way to `morx` zero nothing; the preference for boxes stays, and the mark's base has none
    tables: morx
    shaper: early
    a 0301 -> 1@0(600,0,0,0) 2@0(100,0,0,0)
    shaper: late
    a 0301 -> 1@0(600,0,0,0) 2@0(100,0,0,0)
    shaper: hanging
    a 0301 -> 1@0(600,0,0,0) 2@0(0,0,0,0)
    # one table positions
    shaper: default
    tables: gsub gpos kerx
    a -> 1@0(601,0,0,0)
    tables: gsub gpos kerx kern
    a -> 1@0(601,0,0,0)
    tables: gpos kerx
    a -> 1@0(610,0,0,0)
    tables: kerx kern
    a -> 1@0(610,0,0,0)
    tables: gpos
    a -> 1@0(601,0,0,0)
    tables: gpos kern
    a -> 1@0(701,0,0,0)
    tables: kern
    a -> 1@0(700,0,0,0)
    tables:
    a -> 1@0(600,0,0,0)
";
