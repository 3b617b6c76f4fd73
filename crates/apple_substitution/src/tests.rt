//! A walk of a subtable of each kind over glyphs 5, 6 and 7.
ghost use Rattle.std.specs.Prelude.{◌≤◌};

use crate::chains::Feature;
use crate::contextual::{Contextual, Mark};
use crate::driver::{Subtable, drive};
use crate::glyphs::Tables;
use crate::insertion::Insertion;
use crate::ligature::{Ligature, Stack};
use crate::noncontextual::{Noncontextual, substitute_all};
use crate::rearrangement::{Marks, Rearrangement};
use crate::{
    Chain, FeatureRange, FlagRange, Languages, Machine, Metamorphosis, MorxFont, Ranges,
    map_features, run_subtable, run_table, substitute, zero_width_deleted,
};
use apple_tables::StateTable;
use layout_buffer::GapBuffer;
use shape_buffer::position_walks::update_positions;
use shape_buffer::{Direction, GlyphPosition, ShapeError, hb_buffer_t, hb_glyph_info_t};
use shape_common::hb_tag_t;
use std::alloc::Global;

/// A state table of six classes: glyph 5 has class 4, and marks the first of a span; glyph 6 has
/// class 5, marks its last one, and turns it round (verb 3, AxD => DxA).
const TURNS: &[u8] = &[
    0, 0, 0, 6, 0, 0, 0, 16, 0, 0, 0, 26, 0, 0, 0, 50, // classes, and where the parts begin
    0, 8, 0, 5, 0, 2, 0, 4, 0, 5, // glyphs from 5 on, two of them: classes 4 and 5
    0, 0, 0, 0, 0, 0, 0, 0, 0, 1, 0, 2, // the first state
    0, 0, 0, 0, 0, 0, 0, 0, 0, 1, 0, 2, // the second one
    0, 0, 0, 0, 0, 0, 0x80, 0, 0, 0, 0x20, 3, // entries: nothing, first, last with verb 3
];

/// The same with the header of a subtable, which flag 1 has on. It runs in the order of the line.
const TURNS_IN_A_LINE: &[u8] = &[
    0, 0, 0, 74, 0, 0, 0, 0, 0, 0, 0, 1, // its length, its coverage, and its flags
    0, 0, 0, 6, 0, 0, 0, 16, 0, 0, 0, 26, 0, 0, 0, 50, //
    0, 8, 0, 5, 0, 2, 0, 4, 0, 5, //
    0, 0, 0, 0, 0, 0, 0, 0, 0, 1, 0, 2, //
    0, 0, 0, 0, 0, 0, 0, 0, 0, 1, 0, 2, //
    0, 0, 0, 0, 0, 0, 0x80, 0, 0, 0, 0x20, 3,
];

/// The same classes and states: glyph 5 is marked, and glyph 6 has both replaced, by the lookup
/// tables that have 50 in place of 5 and 60 in place of 6.
const REPLACES: &[u8] = &[
    0, 0, 0, 6, 0, 0, 0, 20, 0, 0, 0, 30, 0, 0, 0, 54, 0, 0, 0, 78, // and lookup tables
    0, 8, 0, 5, 0, 2, 0, 4, 0, 5, // classes
    0, 0, 0, 0, 0, 0, 0, 0, 0, 1, 0, 2, // states
    0, 0, 0, 0, 0, 0, 0, 0, 0, 1, 0, 2, //
    0, 0, 0, 0, 255, 255, 255, 255, // entries: nothing
    0, 0, 0x80, 0, 255, 255, 255, 255, // marks
    0, 0, 0, 0, 0, 0, 0, 1, // replaces
    0, 0, 0, 8, 0, 0, 0, 16, // where the lookup tables begin
    0, 8, 0, 5, 0, 1, 0, 50, 0, 8, 0, 6, 0, 1, 0, 60,
];

/// Glyphs 5 and 6 are components of glyph 73: the numbers 2 and 1 add up to 3.
const JOINS: &[u8] = &[
    0, 0, 0, 6, 0, 0, 0, 28, 0, 0, 0, 38, 0, 0, 0, 62, //
    0, 0, 0, 80, 0, 0, 0, 88, 0, 0, 0, 92, // actions, components, ligatures
    0, 8, 0, 5, 0, 2, 0, 4, 0, 5, // classes
    0, 0, 0, 0, 0, 0, 0, 0, 0, 1, 0, 2, // states
    0, 0, 0, 0, 0, 0, 0, 0, 0, 1, 0, 2, //
    0, 0, 0, 0, 0, 0, 0, 0, 0x80, 0, 0, 0, 0, 0, 0xA0, 0, 0, 0, // entries
    0x3F, 255, 255, 0xFA, 0xBF, 255, 255, 0xFC, // actions: 6 less, and 4 less
    0, 1, 0, 2, // components
    0, 70, 0, 71, 0, 72, 0, 73, // ligatures
];

/// Glyph 5 is marked; at glyph 6 glyph 81 is inserted before it, and glyph 80 after glyph 6.
const INSERTS: &[u8] = &[
    0, 0, 0, 6, 0, 0, 0, 20, 0, 0, 0, 30, 0, 0, 0, 54, 0, 0, 0, 78, // and the list of glyphs
    0, 8, 0, 5, 0, 2, 0, 4, 0, 5, // classes
    0, 0, 0, 0, 0, 0, 0, 0, 0, 1, 0, 2, // states
    0, 0, 0, 0, 0, 0, 0, 0, 0, 1, 0, 2, //
    0, 0, 0, 0, 255, 255, 255, 255, // entries: nothing
    0, 0, 0x80, 0, 255, 255, 255, 255, // marks
    0, 0, 0x04, 0x21, 0, 0, 0, 1, // inserts
    0, 80, 0, 81,
];

/// A lookup table of format 8: in place of glyph 6 stands glyph 9.
const NINE_FOR_SIX: &[u8] = &[0, 8, 0, 6, 0, 1, 0, 9];

/// Two chains: in place of glyph 6 stands glyph 9, then glyph 8 in place of that one. The second
/// chain has its flag by type 1 with setting 2.
const TWO_CHAINS: &[u8] = &[
    0, 2, 0, 0, 0, 0, 0, 2, // its version, and how many chains
    0, 0, 0, 1, 0, 0, 0, 36, 0, 0, 0, 0, 0, 0, 0, 1, // flags, length, and how many of both
    0, 0, 0, 20, 0, 0, 0, 4, 0, 0, 0, 1, // a subtable's length, its coverage, and its flags
    0, 8, 0, 6, 0, 1, 0, 9, //
    0, 0, 0, 0, 0, 0, 0, 48, 0, 0, 0, 1, 0, 0, 0, 1, //
    0, 1, 0, 2, 0, 0, 0, 1, 255, 255, 255, 255, // sets the flag, and leaves the others
    0, 0, 0, 20, 0, 0, 0, 4, 0, 0, 0, 1, //
    0, 8, 0, 9, 0, 1, 0, 8,
];

/// A table `feat` that has type 1, whose settings don't exclude each other.
const FEAT: &[u8] = &[
    0, 1, 0, 0, 0, 1, 0, 0, 0, 0, 0, 0, // version 1, and how many types
    0, 1, 0, 2, 0, 0, 0, 24, 0, 0, 1, 0, // type 1 with two settings
    0, 2, 1, 1, 0, 3, 1, 2, // the settings with their names
];

const ON: &[FlagRange] = &[FlagRange {
    last: 0xFFFF_FFFF,
    flags: 1,
}];

/// Glyphs 5, 6 and 7, each in a cluster of its own.
fn three(alloc: Global) -> Result<hb_buffer_t, ShapeError> {
    let mut infos = Vec::new(alloc);
    for glyph in 5..8 {
        let mut info = hb_glyph_info_t::new('a', glyph);
        info.glyph_id = glyph;
        infos.push(info)?;
    }
    let mut buffer = hb_buffer_t::new(alloc);
    buffer.replace_infos(infos)?;
    buffer.set_max_ops(1000);
    Ok(buffer)
}

/// The glyphs after a walk of a state table.
fn walked<S: Subtable>(
    alloc: Global,
    table: &[u8],
    entry_size: usize,
    subtable: &S,
    memory: S::Memory,
) -> Result<hb_buffer_t, ShapeError>
    requires { entry_size ≤ 8 }
{
    let machine = Machine {
        states: StateTable {
            table,
            start: 0,
            entry_size,
            glyphs: 10,
        },
        ranges: Ranges {
            list: ON,
            wanted: 1,
        },
    };
    let mut buffer = three(alloc)?;
    let mut walk = GapBuffer::open(alloc, &mut buffer);
    drive(&machine, subtable, &mut walk, memory)?;
    let (buffer, outcome) = walk.close();
    outcome?;
    Ok(buffer)
}

/// The glyphs after a contextual subtable.
fn in_context(alloc: Global) -> Result<hb_buffer_t, ShapeError> {
    let subtable = Contextual {
        tables: Tables {
            morx: REPLACES,
            gdef: &[],
            glyphs: 10,
        },
        start: 0,
    };
    let none = Mark {
        place: 0,
        is_set: false,
    };
    walked(alloc, REPLACES, 8, &subtable, none)
}

/// The glyphs after a noncontextual subtable, where features have it on by this flag.
fn replaced(alloc: Global, wanted: u32) -> Result<hb_buffer_t, ShapeError> {
    let subtable = Noncontextual {
        tables: Tables {
            morx: NINE_FOR_SIX,
            gdef: &[],
            glyphs: 10,
        },
        start: 0,
        ranges: Ranges { list: ON, wanted },
    };
    let mut buffer = three(alloc)?;
    substitute_all(&subtable, &mut buffer);
    Ok(buffer)
}

/// The glyphs of a text of this direction after a subtable.
fn run(alloc: Global, direction: Direction) -> Result<hb_buffer_t, ShapeError> {
    let chain = Chain {
        tables: Tables {
            morx: TURNS_IN_A_LINE,
            gdef: &[],
            glyphs: 10,
        },
        ranges: ON,
    };
    let mut buffer = three(alloc)?;
    buffer.set_direction(direction);
    run_subtable(alloc, &chain, 0, &mut buffer)?;
    Ok(buffer)
}

/// The glyphs after a table, with features that are asked for in the whole text.
fn after_chains(alloc: Global, features: Vec<Feature>) -> Result<hb_buffer_t, ShapeError> {
    let ranges = [FeatureRange {
        last: 0xFFFF_FFFF,
        features,
    }];
    let table = Metamorphosis {
        tables: Tables {
            morx: TWO_CHAINS,
            gdef: &[],
            glyphs: 10,
        },
        features: &ranges,
        languages: Languages {
            ltag: &[],
            text: &[],
        },
    };
    let mut buffer = three(alloc)?;
    run_table(alloc, &table, &mut buffer)?;
    Ok(buffer)
}

/// The feature `liga` with a value, over these clusters.
fn ligatures(value: u32, start: u32, end: u32) -> shape_common::Feature {
    shape_common::Feature {
        tag: hb_tag_t(0x6C69_6761),
        value,
        start,
        end,
    }
}

/// The glyphs after the tables of a font, with what is asked for.
fn after_font(
    alloc: Global,
    features: &[shape_common::Feature],
) -> Result<hb_buffer_t, ShapeError> {
    let font = MorxFont {
        morx: TWO_CHAINS,
        feat: FEAT,
        ltag: &[],
        gdef: &[],
        glyphs: 10,
    };
    let mut buffer = three(alloc)?;
    if buffer.length_limit() < buffer.len() {
        return Err(ShapeError::Length);
    }
    substitute(alloc, &font, features, &mut buffer)?;
    Ok(buffer)
}

/// The advances of a list.
fn advances(buffer: &hb_buffer_t) -> (i32, i32, i32) {
    match buffer.positions() {
        [a, b, c, ..] => (a.x_advance, b.x_advance, c.x_advance),
        _ => (0, 0, 0),
    }
}

/// Advances of 5 for each glyph.
fn spread(buffer: &mut hb_buffer_t) {
    update_positions(
        buffer,
        |_item, position| GlyphPosition {
            x_advance: 5,
            ..position
        },
    );
}

/// The last clusters of three ranges.
fn lasts(ranges: &[FeatureRange]) -> (u32, u32, u32) {
    match ranges {
        [a, b, c] => (a.last, b.last, c.last),
        _ => (0, 0, 0),
    }
}

/// The first setting in a range.
fn first_setting(ranges: &[FeatureRange], i: usize) -> Option<u32> {
    let feature = ranges.get(i)?.features.first()?;
    Some(feature.setting)
}

/// The first three glyphs of a list.
fn glyphs(buffer: &hb_buffer_t) -> (u32, u32, u32) {
    match buffer.infos() {
        [a, b, c, ..] => (a.glyph_id, b.glyph_id, c.glyph_id),
        _ => (0, 0, 0),
    }
}

#[test]
fn a_span_is_turned(rt: HostRuntime) {
    let alloc = rt.alloc();
    let none = Marks { first: 0, end: 0 };
    let buffer = walked(alloc, TURNS, 4, &Rearrangement { alloc }, none).expect(&rt, "memory");
    assert_eq!(rt; glyphs(&buffer), (6, 5, 7));
}

#[test]
fn glyphs_are_replaced_in_context(rt: HostRuntime) {
    let buffer = in_context(rt.alloc()).expect(&rt, "memory");
    assert_eq!(rt; glyphs(&buffer), (50, 60, 7));
}

#[test]
fn components_are_joined(rt: HostRuntime) {
    let subtable = Ligature {
        morx: JOINS,
        start: 0,
    };
    let buffer = walked(rt.alloc(), JOINS, 6, &subtable, Stack::new()).expect(&rt, "memory");
    assert_eq!(rt; glyphs(&buffer), (73, 0xFFFF, 7));
}

#[test]
fn glyphs_are_inserted(rt: HostRuntime) {
    let subtable = Insertion {
        morx: INSERTS,
        start: 0,
    };
    let buffer = walked(rt.alloc(), INSERTS, 8, &subtable, 0).expect(&rt, "memory");
    assert_eq!(rt; glyphs(&buffer), (81, 5, 6));
    assert_eq!(rt; buffer.len(), 5);
}

#[test]
fn glyphs_are_replaced(rt: HostRuntime) {
    let on = replaced(rt.alloc(), 1).expect(&rt, "memory");
    let off = replaced(rt.alloc(), 2).expect(&rt, "memory");
    assert_eq!(rt; glyphs(&on), (5, 9, 7));
    assert_eq!(rt; glyphs(&off), (5, 6, 7));
}

#[test]
fn a_subtable_runs_over_a_text(rt: HostRuntime) {
    let on = run(rt.alloc(), Direction::LeftToRight).expect(&rt, "memory");
    let from_the_end = run(rt.alloc(), Direction::RightToLeft).expect(&rt, "memory");
    let vertical = run(rt.alloc(), Direction::TopToBottom).expect(&rt, "memory");
    assert_eq!(rt; glyphs(&on), (6, 5, 7));
    assert_eq!(rt; glyphs(&from_the_end), (5, 7, 6));
    assert_eq!(rt; glyphs(&vertical), (5, 6, 7));
}

#[test]
fn chains_run_over_a_text(rt: HostRuntime) {
    let feature = Feature {
        kind: 1,
        setting: 2,
    };
    let alloc = rt.alloc();
    let mut features = Vec::new(alloc);
    features.push(feature).expect(&rt, "memory");
    let one = after_chains(alloc, Vec::new(alloc)).expect(&rt, "memory");
    let both = after_chains(alloc, features).expect(&rt, "memory");
    assert_eq!(rt; glyphs(&one), (5, 9, 7));
    assert_eq!(rt; glyphs(&both), (5, 8, 7));
}

#[test]
fn features_choose_settings_in_ranges(rt: HostRuntime) {
    let off = ligatures(0, 1, 3);
    let ranges = map_features(rt.alloc(), FEAT, &[off]).expect(&rt, "memory");
    assert_eq!(rt; ranges.len(), 3);
    assert_eq!(rt; lasts(ranges.as_slice()), (0, 2, 0xFFFF_FFFF));
    assert_eq!(rt; first_setting(ranges.as_slice(), 0), None);
    assert_eq!(rt; first_setting(ranges.as_slice(), 1), Some(3));
}

#[test]
fn a_font_substitutes_with_features(rt: HostRuntime) {
    let none = after_font(rt.alloc(), &[]).expect(&rt, "memory");
    let on = after_font(rt.alloc(), &[ligatures(1, 0, 0xFFFF_FFFF)]).expect(&rt, "memory");
    assert_eq!(rt; glyphs(&none), (5, 9, 7));
    assert_eq!(rt; glyphs(&on), (5, 8, 7));
}

#[test]
fn deleted_glyphs_lose_their_width(rt: HostRuntime) {
    let subtable = Ligature {
        morx: JOINS,
        start: 0,
    };
    let joined = walked(rt.alloc(), JOINS, 6, &subtable, Stack::new());
    let mut buffer = joined.expect(&rt, "memory");
    spread(&mut buffer);
    zero_width_deleted(&mut buffer);
    assert_eq!(rt; advances(&buffer), (5, 0, 5));
}
