//! The lines that the program `shapeline` answers a text with, at the ends of their numbers.

use crate::unicode::comparing::assert_same;
use shape_buffer::buffer::{GlyphPosition, hb_glyph_info_t};
use shape_sessions::printing::{append_glyphs, append_items};
use std::process::Abort;

/// Appends the line of a list.
fn add_items(rt: &impl Abort, lines: &mut String, name: &str, items: &[hb_glyph_info_t]) {
    append_items(lines, name, items).expect(rt, "memory");
}

#[test]
fn items_are_printed(rt: HostRuntime) {
    let items = [
        hb_glyph_info_t::new('\u{61}', 0),
        hb_glyph_info_t::new('\0', 7),
        hb_glyph_info_t::new('\u{1EA4}', 12),
        hb_glyph_info_t::new('\u{10FFFF}', u32::MAX),
    ];
    let wanted = "prepared\nnormal 0061@0 0000@7 1EA4@12 10FFFF@4294967295\n";
    let mut lines = String::new(rt.alloc());
    add_items(&rt, &mut lines, "prepared", &[]);
    add_items(&rt, &mut lines, "normal", &items);
    assert_same(&rt, lines.as_str(), wanted);
}

/// Appends the line of glyphs.
fn add_glyphs(
    rt: &impl Abort,
    lines: &mut String,
    items: &[hb_glyph_info_t],
    positions: &[GlyphPosition],
) {
    append_glyphs(lines, items, positions).expect(rt, "memory");
}

/// A glyph of a cluster, with its mask.
fn glyph(c: char, cluster: u32, glyph: u32, mask: u32) -> hb_glyph_info_t {
    let mut info = hb_glyph_info_t::new(c, cluster);
    info.glyph_id = glyph;
    info.mask = mask;
    info
}

#[test]
fn glyphs_are_printed(rt: HostRuntime) {
    let mut first = glyph('a', 3, 65535, 0xFFFF_FFF8);
    first.glyph_index = 5;
    let second = glyph('b', 4, 2, 0xFFFF_FFFD);
    let mut moved = GlyphPosition::zero();
    moved.x_advance = 600;
    moved.y_advance = -1000;
    moved.x_offset = i32::MIN;
    moved.y_offset = i32::MAX;
    let wanted = "glyphs\nglyphs 65535@3(600,-1000,-2147483648,2147483647)/0 2@4(0,0,0,0)/5\n";
    let mut lines = String::new(rt.alloc());
    add_glyphs(&rt, &mut lines, &[], &[]);
    let positions = [moved, GlyphPosition::zero()];
    add_glyphs(&rt, &mut lines, &[first, second], &positions);
    assert_same(&rt, lines.as_str(), wanted);
}
