//! Names of glyphs: charsets give each glyph the number of a string, which is one of the standard
//! strings or one of the font's (Adobe Technical Note 5176, sections 10 and 13, appendices A to C).
ghost use Rattle.std.specs.Prelude.{◌≡◌, ◌<◌, ◌≤◌, ◌+◌, ◌^◌, nat_eq, slice_index};
ghost use Rattle.std.specs.Option.{option_map};
ghost use Rattle.cff_tables.specs.Charset;
ghost use Rattle.cff_tables.specs.declared.strings_text.TheConstants.{STARTS};

use crate::bytes::{byte_at, number_at, part, word_at};
use crate::index::object;
use crate::predefined::{EXPERT, EXPERT_SUBSET, STANDARD_ENCODING};
use crate::strings_text::{STANDARD_COUNT, STARTS, TEXT};

/// How many bytes say how many glyphs follow the first of a range.
fn left_size(format: u8) -> usize
    ensures value { result ≡ Charset.left_size format }
    ensures few { result ≤ 2 }
{
    if format == 1 { 1 } else { 2 }
}

/// How many glyphs follow the first of the range at `at`.
fn left(table: &[u8], format: u8, at: usize) -> u32
    requires { at < 2 ^ 62 }
    ensures value { result ≡ Charset.left_of table.now format at }
    ensures few { result < 2 ^ 16 }
{
    number_at(table, at + 2, left_size(format))
}

/// The number of the name of a glyph, counted from the first glyph of the range at `start`.
#[tactic(auto, using(crate::proofs::CharsetLemmas::ranged_name_next, crate::proofs::CharsetLemmas::ranged_name_found, crate::proofs::CharsetLemmas::ranged_name_end))]
fn ranged_name(table: &[u8], format: u8, start: usize, glyph: u32) -> u32
    requires near { start < 2 ^ 40 }
    requires few { glyph + 1 < 2 ^ 32 }
    ensures { result ≡ Charset.ranged_name (glyph + 1) table.now format start glyph }
{
    let mut at = start;
    let mut glyph_left = glyph;
    for _i in 0..glyph + 1 {
        let left = left(table, format, at);
        if glyph_left <= left {
            return u32::from(word_at(table, at)) + glyph_left;
        }
        glyph_left -= left + 1;
        at += 2 + left_size(format);
    }
    0
}

/// The number of the glyph's name, by a charset of the font.
fn own_name(table: &[u8], at: u32, glyph: u32) -> u32
    ensures { result ≡ Charset.own_name table.now at glyph }
{
    if glyph == 0 {
        return 0;
    }
    let format = byte_at(table, at as usize);
    match format {
        0 => u32::from(word_at(table, at as usize + 1 + 2 * (glyph as usize - 1))),
        1 | 2 => ranged_name(table, format, at as usize + 1, glyph - 1),
        _ => 0,
    }
}

/// An entry of a list, 0 past its end.
fn listed(list: &[u16], i: u32) -> u32
    ensures value { result ≡ slice_index list.now i }
    ensures small { result < 2 ^ 16 }
{
    if (i as usize) < list.len() {
        u32::from(list[i as usize])
    } else {
        0
    }
}

/// The number of the glyph's name.
pub fn name_number(table: &[u8], charset: u32, glyph: u32) -> u32
    ensures { result ≡ Charset.name_number table.now charset glyph }
{
    match charset {
        0 if glyph <= 228 => glyph,
        0 => 0,
        1 => listed(&EXPERT, glyph),
        2 => listed(&EXPERT_SUBSET, glyph),
        _ => own_name(table, charset, glyph),
    }
}

/// The string with this number: a standard one, or one of the INDEX at `strings`.
pub fn string(table: &[u8], strings: u32, name: u32) -> Option<&[u8]>
    ensures { option_map (λ s. s.now) result ≡ Charset.string_of table.now strings name }
{
    if name < STANDARD_COUNT {
        part(
            TEXT,
            listed(&STARTS, name) as usize,
            listed(&STARTS, name + 1) as usize,
        )
    } else {
        object(table, false, strings, name - STANDARD_COUNT)
    }
}

/// Whether the range at `at` has the name.
fn has_name(table: &[u8], format: u8, at: usize, name: u32) -> bool
    requires { at < 2 ^ 62 }
    ensures { result ≡ Charset.has_name table.now format at name }
{
    let first = u32::from(word_at(table, at));
    first <= name && name - first <= left(table, format, at)
}

/// The glyph of a name in ranges that begin at `start`; 0 if none of `count` glyphs has it.
#[tactic(auto, using(crate::proofs::CharsetLemmas::ranged_glyph_next, crate::proofs::CharsetLemmas::ranged_glyph_found, crate::proofs::CharsetLemmas::ranged_glyph_past, crate::proofs::CharsetLemmas::ranged_glyph_end))]
fn ranged_glyph(table: &[u8], format: u8, start: usize, count: u16, name: u32) -> u32
    requires near { start < 2 ^ 40 }
    requires known { name < 2 ^ 16 }
    ensures { result ≡ Charset.ranged_glyph count table.now format count name start 1 }
{
    let mut at = start;
    let mut glyph: u32 = 1;
    for _i in 0..count {
        if u32::from(count) <= glyph {
            return 0;
        }
        if has_name(table, format, at, name) {
            return glyph + (name - u32::from(word_at(table, at)));
        }
        glyph += left(table, format, at) + 1;
        at += 2 + left_size(format);
    }
    0
}

/// The glyph of a name in a list from `at` on; 0 if none of `count` glyphs has it.
#[tactic(auto, using(crate::proofs::SearchLemmas::first_at_next, crate::proofs::SearchLemmas::first_at_found, crate::proofs::SearchLemmas::first_at_end))]
fn listed_glyph(table: &[u8], at: usize, count: u16, name: u32) -> u32
    requires { at < 2 ^ 40 }
    ensures { result ≡ Charset.listed_glyph table.now at count name }
{
    for i in 0..count.saturating_sub(1) {
        if u32::from(word_at(table, at + 2 * usize::from(i))) == name {
            return u32::from(i) + 1;
        }
    }
    0
}

/// The glyph of a name in a charset of the font; 0 if none of `count` glyphs has it.
fn own_glyph(table: &[u8], at: u32, count: u16, name: u32) -> u32
    requires { name < 2 ^ 16 }
    ensures { result ≡ Charset.own_glyph table.now at count name }
{
    let format = byte_at(table, at as usize);
    match format {
        0 => listed_glyph(table, at as usize + 1, count, name),
        1 | 2 => ranged_glyph(table, format, at as usize + 1, count, name),
        _ => 0,
    }
}

/// The glyph of a code of Standard Encoding; 0 if there is none.
pub fn coded_glyph(table: &[u8], charset: u32, count: u16, code: u32) -> u32
    ensures { result ≡ Charset.coded_glyph table.now charset count code }
{
    let name = listed(&STANDARD_ENCODING, code);
    if name == 0 {
        return 0;
    }
    match charset {
        0 if code <= 228 => name,
        0 | 1 | 2 => 0,
        _ => own_glyph(table, charset, count, name),
    }
}
