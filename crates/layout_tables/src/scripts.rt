//! Scripts and language systems of a table of lookups (`GSUB`, `GPOS`).
ghost use Rattle.std.specs.Prelude.{◌≡◌, ◌<◌, ◌^◌, is_some};
ghost use Rattle.std.specs.Option.{IfSome, option_or};
ghost use Rattle.layout_tables.specs.Scripts;

use crate::offsets::{header_offset, offset16};
use shape_font::bytes::{records, u16_at, u32_at};
use shape_font::search::{found, side};
use std::cmp::Ordering;

/// The scripts that stand for all others: `DFLT`, `dflt`, `latn`.
const DEFAULT_SCRIPTS: [u32; 3] = [0x4446_4C54, 0x6466_6C74, 0x6C61_746E];

/// The language that stands for all others, `dflt`.
const DEFAULT_LANGUAGE: u32 = 0x6466_6C74;

/// Where a tag stands to that of record `i`.
fn tag_side(table: &[u8], start: usize, tag: u32, i: u32) -> Ordering
    requires { start < 2 ^ 38 }
    ensures { result ≡ Scripts.side_of_tag table.now start tag i }
{
    let there = u32_at(table, start + 2 + 6 * i as usize);
    side(tag, there, there)
}

/// The record with a tag, of those that follow their count at `start`.
fn record(table: &[u8], start: usize, tag: u32) -> Option<u32>
    requires { start < 2 ^ 38 }
    ensures { result ≡ Scripts.tagged table.now start tag }
{
    let count = records(table, u32::from(u16_at(table, start)), start + 2, 6);
    found(count, |i| tag_side(table, start, tag, i))
}

/// The record of a script.
fn script_record(table: &[u8], tag: u32) -> Option<u32>
    ensures { result ≡ Scripts.script_record table.now tag }
{
    record(table, header_offset(table, 4)?, tag)
}

/// Where the Script table of a script stands; none if the table lacks the script, or its offset is
/// NULL.
fn script(table: &[u8], tag: u32) -> Option<usize>
    ensures value { result ≡ Scripts.script_of table.now tag }
    ensures near { IfSome result (λ script. script < 2 ^ 17) }
{
    let i = script_record(table, tag)?;
    let list = header_offset(table, 4)?;
    offset16(table, list, list + 6 + 6 * i as usize)
}

/// The first of these tags for which the table has a script.
fn first_script(table: &[u8], tags: &[u32]) -> Option<u32>
    ensures { result ≡ Scripts.first_script table.now tags.now }
{
    for tag in tags {
        if script_record(table, *tag).is_some() {
            return Some(*tag);
        }
    }
    None
}

/// The script that is taken for a text whose script has these tags, the preferred one first: the
/// first of them that the table has, else `DFLT`, `dflt` or `latn`; none if the table has none of
/// these.
pub fn chosen_script(table: &[u8], tags: &[u32]) -> Option<u32>
    ensures { result ≡ Scripts.chosen_script table.now tags.now }
{
    match first_script(table, tags) {
        None => first_script(table, &DEFAULT_SCRIPTS),
        tag => tag,
    }
}

/// The record of a language in the Script table at `script`.
fn lang_sys_record(table: &[u8], script: usize, tag: u32) -> Option<u32>
    requires { script < 2 ^ 17 }
    ensures { result ≡ Scripts.lang_sys_record table.now script tag }
{
    record(table, script + 2, tag)
}

/// The record of the first of these languages that the script has.
fn first_lang_sys(table: &[u8], script: usize, tags: &[u32]) -> Option<u32>
    requires { script < 2 ^ 17 }
    ensures { result ≡ Scripts.first_lang_sys table.now script tags.now }
{
    for tag in tags {
        if let Some(i) = lang_sys_record(table, script, *tag) {
            return Some(i);
        }
    }
    None
}

/// The record of the first of these languages that the script has, else of `dflt`.
fn chosen_record(table: &[u8], script: usize, tags: &[u32]) -> Option<u32>
    requires { script < 2 ^ 17 }
    ensures { result ≡ option_or (Scripts.first_lang_sys table.now script tags.now)
        (Scripts.lang_sys_record table.now script 0x64666C74) }
{
    match first_lang_sys(table, script, tags) {
        None => lang_sys_record(table, script, DEFAULT_LANGUAGE),
        record => record,
    }
}

/// Where the LangSys table stands that is taken for a text whose language has these tags, the
/// preferred one first: of the first of them that the script has, else of `dflt`, else the default
/// one of the script. None if the table lacks the script, or the offset is NULL.
pub fn chosen_lang_sys(table: &[u8], script_tag: u32, tags: &[u32]) -> Option<usize>
    ensures value { result ≡ Scripts.chosen_lang_sys table.now script_tag tags.now }
    ensures near { IfSome result (λ lang_sys. lang_sys < 2 ^ 18) }
{
    let script = script(table, script_tag)?;
    match chosen_record(table, script, tags) {
        Some(i) => offset16(table, script, script + 8 + 6 * i as usize),
        None => offset16(table, script, script),
    }
}
