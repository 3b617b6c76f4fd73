//! The order of modifier marks of Arabic, which belong to the letter before every other mark.
ghost use Rattle.std.specs.Prelude.{◌≡◌, ◌<◌, ◌≤◌, ◌+◌, ◌-◌, length, slice_range};
ghost use Rattle.std.specs.List.{prefix_len};
ghost use Rattle.script_shapers.specs.Modifiers.{is_modifier_mark, is_modifier_of, count_below};
ghost use Rattle.script_shapers.specs.Modifiers.{stepped_before, reclassed, brought_before};
ghost use Rattle.script_shapers.specs.Modifiers.{count_modifiers, modifiers_moved};
ghost use Rattle.script_shapers.specs.Modifiers.{modifiers_reordered};

use crate::marks::exchange;
use shape_buffer::buffer::{hb_buffer_t, hb_glyph_info_t};
use shape_buffer::interfaces::modified_combining_class as mcc;

/// The modifier combining marks (UTR 53).
const MODIFIER_MARKS: [char; 14] = [
    '\u{0654}', '\u{0655}', '\u{0658}', '\u{06DC}', '\u{06E3}', '\u{06E7}', '\u{06E8}', '\u{08CA}',
    '\u{08CB}', '\u{08CD}', '\u{08CE}', '\u{08CF}', '\u{08D3}', '\u{08F3}',
];

fn is_modifier_mark(c: char) -> bool
    ensures { result ≡ is_modifier_mark c }
{
    MODIFIER_MARKS.iter().any(|mark| *mark == c)
}

/// A modifier mark of this ccc.
fn is_modifier_of(info: &hb_glyph_info_t, ccc: u8) -> bool
    ensures { result ≡ is_modifier_of ccc info.now }
{
    info._hb_glyph_info_get_modified_combining_class() == ccc && is_modifier_mark(info.codepoint)
}

/// How many marks at the beginning of a run are below a ccc.
fn count_below(run: &[hb_glyph_info_t], ccc: u8) -> usize
    ensures value { result ≡ count_below ccc run.now }
    ensures within { result ≤ length run.now }
{
    run.iter()
        .take_while(|info| info._hb_glyph_info_get_modified_combining_class() < ccc)
        .count()
}

/// How many modifier marks of a ccc a list begins with.
fn leading_modifiers(rest: &[hb_glyph_info_t], ccc: u8) -> usize
    ensures value { result ≡ prefix_len (is_modifier_of ccc) rest.now }
    ensures within { result ≤ length rest.now }
{
    rest.iter()
        .take_while(|info| is_modifier_of(info, ccc))
        .count()
}

/// The item at `from` steps before those from a place up to it.
fn step_before(buffer: &mut hb_buffer_t, place: usize, from: usize)
    requires ordered { place ≤ from }
    requires within { from < length buffer.old.items }
    ensures { buffer.new ≡ stepped_before place (from - place) buffer.old }
{
    for stepped in 0..from - place {
        exchange(buffer, from - stepped - 1, from - stepped);
    }
}

/// Gives the item at a place another ccc.
fn reclass(buffer: &mut hb_buffer_t, place: usize, ccc: u8)
    requires { place < length buffer.old.items }
    ensures { buffer.new ≡ reclassed ccc place buffer.old }
{
    let mut info = buffer.infos()[place];
    info._hb_glyph_info_set_modified_combining_class(ccc);
    buffer.set_info(place, info);
}

/// The items from `from` up to `end` step before those from a place up to them, in their order, and
/// get another ccc.
fn bring_before(buffer: &mut hb_buffer_t, ccc: u8, place: usize, from: usize, end: usize)
    requires ordered { (place ≤ from) × (from ≤ end) }
    requires within { end ≤ length buffer.old.items }
    ensures { buffer.new ≡ brought_before ccc (end - from) (from - place) place buffer.old }
{
    for brought in 0..end - from {
        step_before(buffer, place + brought, from + brought);
        reclass(buffer, place + brought, ccc);
    }
}

/// The modifier marks that begin the marks of a ccc step to the front of the run and get another
/// ccc, once they are in one cluster with those that they move past. Returns how many they are.
fn move_modifiers(buffer: &mut hb_buffer_t, ccc: u8, other: u8, start: usize, end: usize) -> usize
    requires ordered { start ≤ end }
    requires within { end ≤ length buffer.old.items }
    ensures moved { buffer.new ≡ modifiers_moved ccc other buffer.old start end }
    ensures count { result ≡ count_modifiers ccc (slice_range buffer.old.items start end) }
    ensures inside { start + result ≤ end }
{
    let run = &buffer.infos()[start..end];
    let below = count_below(run, ccc);
    let count = leading_modifiers(&run[below..], ccc);
    if count != 0 {
        let from = start + below;
        buffer.merge_clusters(start, from + count);
        bring_before(buffer, other, start, from, from + count);
    }
    count
}

/// The modifier marks below the letter step to the front, then those above it after them.
pub fn reorder_modifiers(buffer: &mut hb_buffer_t, start: usize, end: usize)
    requires ordered { start ≤ end }
    requires within { end ≤ length buffer.old.items }
    ensures { buffer.new ≡ modifiers_reordered buffer.old start end }
{
    let below = move_modifiers(buffer, 220, mcc::CCC22, start, end);
    move_modifiers(buffer, 230, mcc::CCC26, start + below, end);
}
