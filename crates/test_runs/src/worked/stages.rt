//! Texts shaped by an engine with stages of substitution, over a face whose every character has the
//! glyph of its own number.

use crate::cases::{Case, Fixture};
use crate::runs::glyphs_of;
use crate::steps::{answer_by, text_in};
use shape_buffer::buffer::ShapeFault;
use shape_buffer::interfaces::{hb_font_t, hb_ot_layout_t, hb_tables_t};
use shape_pipeline::ot_shaper::{DEFAULT_SHAPER, hb_default_shaper_t};
use shape_plan::shaping_types::{ShapingTypes, TypesOf};
use shape_unicode::UnicodeDatabase;
use std::process::Abort;
use test_fixtures::{DoublingShaper, Ligature, Multiple, Single, Stage, TestFace, TestLayout};

/// Two a in place of one.
const DOUBLE: Stage = Stage::Multiple(Multiple {
    feature: 0,
    from: 0x61,
    first: 0x61,
    second: 0x61,
});

/// First f and i become 0xFB01, then æ becomes a and e, then a becomes A, then e and y become 0x1F.
const LETTERS: [Stage; 4] = [
    Stage::Ligature(Ligature {
        feature: 0,
        first: 0x66,
        second: 0x69,
        into: 0xFB01,
    }),
    Stage::Multiple(Multiple {
        feature: 0,
        from: 0xE6,
        first: 0x61,
        second: 0x65,
    }),
    Stage::Single(Single {
        feature: 0,
        from: 0x61,
        to: 0x41,
    }),
    Stage::Ligature(Ligature {
        feature: 8,
        first: 0x65,
        second: 0x79,
        into: 0x1F,
    }),
];

/// In place of 1 and 2 their numerators, 0x101 and 0x102, and denominators, 0x201 and 0x202; in
/// place of the slash 0x300.
const FRACTIONS: [Stage; 5] = [
    Stage::Single(Single {
        feature: 0x20,
        from: 0x31,
        to: 0x101,
    }),
    Stage::Single(Single {
        feature: 0x20,
        from: 0x32,
        to: 0x102,
    }),
    Stage::Single(Single {
        feature: 0x40,
        from: 0x31,
        to: 0x201,
    }),
    Stage::Single(Single {
        feature: 0x40,
        from: 0x32,
        to: 0x202,
    }),
    Stage::Single(Single {
        feature: 0x10,
        from: 0x2044,
        to: 0x300,
    }),
];

/// The face of a name.
fn face_named(rt: &impl Abort, name: &str) -> TestFace<'static> {
    match name {
        "letters" => TestFace::ruled(&LETTERS),
        "fractions" => TestFace {
            fractions: true,
            ..TestFace::ruled(&FRACTIONS)
        },
        "pause" => TestFace {
            pause: Some(7),
            ..TestFace::ruled(&[Stage::Add(1), Stage::Add(3)])
        },
        "morx" => TestFace {
            tables: hb_tables_t {
                gsub: true,
                gpos: true,
                morx: true,
                kerx: false,
                trak: false,
            },
            ..TestFace::ruled(&[Stage::Add(0x100)])
        },
        "eightfold" => TestFace::ruled(&[Stage::Add(0), DOUBLE, DOUBLE, DOUBLE]),
        "fourteen" => TestFace::ruled(&[DOUBLE; 14]),
        "fifteen" => TestFace::ruled(&[DOUBLE; 15]),
        _ => rt.panic(name),
    }
}

/// Faces by name: `letters`, `fractions`, `pause` with a pause after the first stage, `morx`, whose
/// table deletes x, and those that double each a: three times (`eightfold`), `fourteen` and
/// `fifteen` times. The shaper is `default`, or `doubling`, whose pause doubles the numbers of
/// glyphs. The step `length` gives how many glyphs there are, or why the run was refused and what
/// it left; the others are those of `steps`.
pub struct Stages;

impl Fixture for Stages {
    fn answer(rt: &(impl Abort + AllocGlobal), case: Case<'_>) -> String {
        answer_over::<_, TestLayout>(rt, &face_named(rt, case.settings.face), case)
    }
}

/// A run by a shaper.
type By<F, M, S> = TypesOf<UnicodeDatabase, F, M, S>;

/// The answer over a face.
fn answer_over<F: hb_font_t, M: hb_ot_layout_t<F>>(
    rt: &(impl Abort + AllocGlobal),
    face: &F,
    case: Case<'_>,
) -> String {
    match case.settings.shaper {
        "default" => answer::<By<F, M, hb_default_shaper_t>>(rt, (face, &DEFAULT_SHAPER), case),
        "doubling" => answer::<By<F, M, DoublingShaper>>(rt, (face, &DoublingShaper), case),
        name => rt.panic(name),
    }
}

/// The answer by a shaper.
fn answer<T: ShapingTypes>(
    rt: &(impl Abort + AllocGlobal),
    by: (&T::Face, &T::Shaper),
    case: Case<'_>,
) -> String {
    if case.settings.step != "length" {
        return answer_by::<T>(rt, by, case);
    }
    match glyphs_of::<T>(rt.alloc(), by, text_in::<T::Unicode>(rt, case)) {
        Ok(glyphs) => format!(in rt.alloc(); "{} glyphs", glyphs.len()).expect(rt, "error"),
        Err(fault) => refusal(rt, &fault),
    }
}

/// Why a text was refused, how many items are left in its buffer, and the direction of that.
fn refusal(rt: &(impl Abort + AllocGlobal), fault: &ShapeFault) -> String {
    let (left, direction) = (fault.buffer.len(), fault.buffer.direction());
    let cause = fault.cause;
    format!(in rt.alloc(); "refused {cause:?}, {left} left, {direction:?}").expect(rt, "error")
}

/// The limit of a run is 64 glyphs for each character of the text, at least 16384.
pub const CASES: &str = "
    step: place
    settings: ltr
    # the ligature of e and y takes in the cluster of y alone
    face: letters
    o f i x -> 6F@0(0,0,0,0)/8 FB01@1(0,0,0,0)/8 78@3(0,0,0,0)/8
    f f i -> 66@0(0,0,0,0)/8 FB01@1(0,0,0,0)/8
    x 00E6 z -> 78@0(0,0,0,0)/8 41@1(0,0,0,0)/8 65@1(0,0,0,0)/8 7A@3(0,0,0,0)/8
    x 00E6 y -> 78@0(0,0,0,0)/8 41@1(0,0,0,0)/8 1F@1(0,0,0,0)/8
    # the numerator comes first in both directions
    face: fractions
    1 2044 2 -> 101@0(0,0,0,0) 300@1(0,0,0,0)/1 202@4(0,0,0,0)/1
    settings: rtl
    1 2044 2 -> 102@4(0,0,0,0)/1 300@1(0,0,0,0)/1 201@0(0,0,0,0)
    # the glyph is that of A and 1, twice as much if the pause is run, and 3
    settings: ltr
    face: pause
    A -> 45@0(0,0,0,0)/8
    shaper: doubling
    A -> 87@0(0,0,0,0)/808
    # `morx` in place of the stages deletes x, and replaces the shaper
    face: morx
    a x b -> 61@0(0,0,0,0)/8 62@2(0,0,0,0)/8
    shaper: default
    a x b -> 61@0(0,0,0,0)/8 62@2(0,0,0,0)/8
    # stages that reach the limit, and one that passes it
    step: length
    face: fourteen
    a -> 16384 glyphs
    face: fifteen
    a -> refused Length, 0 left, Invalid
";
