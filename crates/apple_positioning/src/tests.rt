//! A run of each kind of subtable over glyphs 2, 3 and 4.

use crate::old_tables::{has_across, has_machine};
use crate::{
    ExtendedKerning, Kerning, Layout, OldKerning, Subtable, run_kern, run_subtable, run_table,
};
use kern_table::Sides;
use shape_buffer::{Direction, ShapeError, hb_buffer_t, hb_glyph_info_t};
use std::alloc::Global;

/// A subtable of format 0: glyphs 2 and 3 by 51, 3 and 4 by -20.
const PAIRS: &[u8] = &[
    0, 0, 0, 40, 0, 0, 0, 0, 0, 0, 0, 0, // its length, its coverage, and no tuples
    0, 0, 0, 2, 0, 0, 0, 0, 0, 0, 0, 0, 0, 0, 0, 0, // how many pairs
    0, 2, 0, 3, 0, 51, 0, 3, 0, 4, 255, 236,
];

/// The same across the line.
const PAIRS_ACROSS: &[u8] = &[
    0, 0, 0, 40, 0x40, 0, 0, 0, 0, 0, 0, 0, //
    0, 0, 0, 2, 0, 0, 0, 0, 0, 0, 0, 0, 0, 0, 0, 0, //
    0, 2, 0, 3, 0, 51, 0, 3, 0, 4, 255, 236,
];

/// A subtable of format 1: glyph 2 is pushed, and glyph 3 after it pops both, by 10 and by -20.
const STACKS: &[u8] = &[
    0, 0, 0, 88, 0, 0, 0, 1, 0, 0, 0, 0, // its length, its coverage, and no tuples
    0, 0, 0, 6, 0, 0, 0, 20, 0, 0, 0, 30, 0, 0, 0, 54, 0, 0, 0, 72, // where its parts begin
    0, 8, 0, 2, 0, 2, 0, 4, 0, 5, // classes
    0, 0, 0, 0, 0, 0, 0, 0, 0, 1, 0, 0, // states
    0, 0, 0, 0, 0, 0, 0, 0, 0, 1, 0, 2, //
    0, 0, 0, 0, 255, 255, 0, 1, 0x80, 0, 255, 255, 0, 0, 0x80, 0, 0, 0, // entries
    0, 10, 255, 237,
];

/// A subtable of format 4: glyph 2 is marked, and point (3, 4) of glyph 3 is put on (10, 20).
const ATTACHES: &[u8] = &[
    0, 0, 0, 92, 0, 0, 0, 4, 0, 0, 0, 0, //
    0, 0, 0, 6, 0, 0, 0, 20, 0, 0, 0, 30, 0, 0, 0, 54, 0x80, 0, 0, 72, //
    0, 8, 0, 2, 0, 2, 0, 4, 0, 5, //
    0, 0, 0, 0, 0, 0, 0, 0, 0, 1, 0, 0, //
    0, 0, 0, 0, 0, 0, 0, 0, 0, 1, 0, 2, //
    0, 0, 0, 0, 255, 255, 0, 1, 0x80, 0, 255, 255, 0, 0, 0, 0, 0, 0, //
    0, 10, 0, 20, 0, 3, 0, 4,
];

/// A table with both subtables of pairs.
const TABLE: &[u8] = &[
    0, 2, 0, 0, 0, 0, 0, 2, // its version, and how many subtables
    0, 0, 0, 40, 0, 0, 0, 0, 0, 0, 0, 0, //
    0, 0, 0, 2, 0, 0, 0, 0, 0, 0, 0, 0, 0, 0, 0, 0, //
    0, 2, 0, 3, 0, 51, 0, 3, 0, 4, 255, 236, //
    0, 0, 0, 40, 0x40, 0, 0, 0, 0, 0, 0, 0, //
    0, 0, 0, 2, 0, 0, 0, 0, 0, 0, 0, 0, 0, 0, 0, 0, //
    0, 2, 0, 3, 0, 51, 0, 3, 0, 4, 255, 236,
];

/// Glyphs 2, 3 and 4, each in a cluster of its own, for which kerning is on.
fn three(alloc: Global) -> Result<hb_buffer_t, ShapeError> {
    let mut infos = Vec::new(alloc);
    for glyph in 2..5 {
        let mut info = hb_glyph_info_t::new('a', glyph);
        info.glyph_id = glyph;
        info.mask = 16;
        infos.push(info)?;
    }
    let mut buffer = hb_buffer_t::new(alloc);
    buffer.replace_infos(infos)?;
    buffer.set_direction(Direction::LeftToRight);
    buffer.set_max_ops(1000);
    Ok(buffer)
}

/// A subtable where kerning is on by mask 16.
fn kerning(bytes: &[u8]) -> Kerning<'_> {
    Kerning {
        subtable: Subtable {
            layout: Layout::Kerx,
            bytes,
            glyphs: 10,
        },
        ankr: &[],
        scale: None,
        mask: 16,
    }
}

/// The glyphs after a subtable.
fn by_subtable(alloc: Global, bytes: &[u8]) -> Result<hb_buffer_t, ShapeError> {
    let mut buffer = three(alloc)?;
    run_subtable(&kerning(bytes), &mut buffer);
    Ok(buffer)
}

/// The glyphs after a table.
fn by_table(alloc: Global, kerx: &[u8]) -> Result<hb_buffer_t, ShapeError> {
    let table = ExtendedKerning {
        kerx,
        ankr: &[],
        glyphs: 10,
        scale: None,
        mask: 16,
    };
    let mut buffer = three(alloc)?;
    run_table(&table, &mut buffer);
    Ok(buffer)
}

/// The advances of three glyphs.
fn advances(buffer: &hb_buffer_t) -> (i32, i32, i32) {
    match buffer.positions() {
        [a, b, c] => (a.x_advance, b.x_advance, c.x_advance),
        _ => (0, 0, 0),
    }
}

/// How far three glyphs are moved across a horizontal line.
fn rises(buffer: &hb_buffer_t) -> (i32, i32, i32) {
    match buffer.positions() {
        [a, b, c] => (a.y_offset, b.y_offset, c.y_offset),
        _ => (0, 0, 0),
    }
}

#[test]
fn pairs_are_moved_apart(rt: HostRuntime) {
    let buffer = by_subtable(rt.alloc(), PAIRS).expect(&rt, "memory");
    assert_eq!(rt; advances(&buffer), (25, 16, -10));
    assert_eq!(rt; rises(&buffer), (0, 0, 0));
}

#[test]
fn pairs_are_moved_across_the_line(rt: HostRuntime) {
    let buffer = by_subtable(rt.alloc(), PAIRS_ACROSS).expect(&rt, "memory");
    assert_eq!(rt; advances(&buffer), (0, 0, 0));
    assert_eq!(rt; rises(&buffer), (0, 51, -20));
}

#[test]
fn a_table_moves_pairs_along_and_across(rt: HostRuntime) {
    let buffer = by_table(rt.alloc(), TABLE).expect(&rt, "memory");
    assert_eq!(rt; advances(&buffer), (25, 16, -10));
    assert_eq!(rt; rises(&buffer), (0, 51, -20));
}

#[test]
fn glyphs_are_pushed_and_popped(rt: HostRuntime) {
    let buffer = by_subtable(rt.alloc(), STACKS).expect(&rt, "memory");
    assert_eq!(rt; advances(&buffer), (-20, 10, 0));
}

/// Apple's table `kern` with the state table of `STACKS`.
const OLD_STACKS: &[u8] = &[
    0, 1, 0, 0, 0, 0, 0, 1, // its version, and how many subtables
    0, 0, 0, 52, 0, 1, 0, 0, // the length, the coverage and the format of the subtable
    0, 6, 0, 10, 0, 16, 0, 28, 0, 40, // where its parts begin
    0, 2, 0, 2, 4, 5, // classes
    0, 0, 0, 0, 1, 0, // states
    0, 0, 0, 0, 1, 2, //
    0, 16, 0, 0, 0, 22, 0x80, 0, 0, 16, 0x80, 40, // entries
    0, 10, 255, 237,
];

/// The glyphs after an older table.
fn by_old_table(alloc: Global, kern: &[u8]) -> Result<hb_buffer_t, ShapeError> {
    let table = OldKerning {
        kern,
        scale: None,
        mask: 16,
    };
    let mut buffer = three(alloc)?;
    run_kern(&table, Sides::none(), &mut buffer);
    Ok(buffer)
}

#[test]
fn glyphs_are_pushed_and_popped_by_an_older_table(rt: HostRuntime) {
    let buffer = by_old_table(rt.alloc(), OLD_STACKS).expect(&rt, "memory");
    assert_eq!(rt; advances(&buffer), (-20, 10, 0));
    assert!(rt; has_machine(OLD_STACKS));
    assert!(rt; !has_across(OLD_STACKS));
}

#[test]
fn a_glyph_is_attached(rt: HostRuntime) {
    let buffer = by_subtable(rt.alloc(), ATTACHES).expect(&rt, "memory");
    assert_eq!(rt; rises(&buffer), (0, 16, 0));
}
