//! Pages of the character map: 256 glyphs each, and an index by a character's number over 256.
//!
//! Pages are stored where the subtable lists characters, in its order, at most 512 of them, so that
//! no font makes them large: all of the basic plane and as much again. A page that comes later in
//! the subtable but earlier in Unicode isn't stored, so that opening takes a step for each range
//! and each page, whatever a font lists.
ghost use Rattle.std.specs.Prelude.{◌≡◌, ◌+◌, ◌*◌, ◌≤◌, ◌<◌, length, IfOk, OnOk, IsOkUnless};
ghost use Rattle.opened_face.specs.Pages;

use crate::ranges::{first, last, range_count};
use shape_buffer::ShapeError;
use shape_font::FontFace;
use std::alloc::Global;

/// The most pages that are stored.
const MOST_PAGES: usize = 512;

/// How many pages Unicode has.
const UNICODE_PAGES: u16 = 4352;

/// The entry of a page that isn't stored.
const NOT_STORED: u16 = 65535;

/// Appends the pages from `from` on that are below `end`, as far as there is room.
fn append(pages: &mut Vec<u16>, from: u16, end: u16) -> Result<(), ShapeError>
    requires { length pages.old.items ≤ 512 }
    ensures few { length pages.new.items ≤ 512 }
    ensures memory { IsOkUnless result ShapeError.Memory }
{
    for page in from..end {
        if pages.len() < MOST_PAGES {
            pages.push(page)?;
        }
    }
    Ok(())
}

/// The page after that of a character, or the end of Unicode.
fn page_after(c: u32) -> u16
    ensures { result ≤ 4352 }
{
    (c / 256 + 1).min(u32::from(UNICODE_PAGES)) as u16
}

/// The page of a character, or the end of Unicode.
fn page_of(c: u32) -> u16
    ensures { result ≤ 4352 }
{
    (c / 256).min(u32::from(UNICODE_PAGES)) as u16
}

/// The pages that are stored for a subtable. Refuses with `Memory` if a growth was refused.
pub(crate) fn listed_pages(alloc: Global, table: &[u8]) -> Result<Vec<u16>, ShapeError>
    ensures few { IfOk result (λ pages. length pages.items ≤ 512) }
    ensures memory { IsOkUnless result ShapeError.Memory }
{
    let mut pages = Vec::with_capacity(alloc, MOST_PAGES)?;
    let mut next = 0;
    for i in 0..range_count(table) {
        let end = page_after(last(table, i));
        append(&mut pages, page_of(first(table, i)).max(next), end)?;
        next = end.max(next);
    }
    Ok(pages)
}

/// For each page of Unicode its place among the stored ones. Refuses with `Memory` if a growth was
/// refused.
pub(crate) fn index_of(alloc: Global, pages: &[u16]) -> Result<Vec<u16>, ShapeError>
    requires { length pages.now ≤ 512 }
    ensures ok { IfOk result (λ index. Pages.IsIndexOf pages.now index.items) }
    ensures short { IfOk result (λ index. length index.items ≤ 4352) }
    ensures memory { IsOkUnless result ShapeError.Memory }
{
    let mut index = Vec::with_capacity(alloc, usize::from(UNICODE_PAGES))?;
    let mut place = 0;
    for page in 0..UNICODE_PAGES {
        if place < pages.len() && pages[place] == page {
            index.push(place as u16)?;
            place += 1;
        } else {
            index.push(NOT_STORED)?;
        }
    }
    Ok(index)
}

/// Glyph `i` of these pages.
#[tactic(auto, unfolding(crate::specs::Pages::glyph_in))]
fn glyph_in(face: &FontFace<'_>, pages: &[u16], i: usize) -> u32
    requires { i < 256 * length pages.now }
    ensures { result ≡ Pages.glyph_in face.now pages.now i }
{
    face.glyph_number(256 * u32::from(pages[i / 256]) + (i % 256) as u32)
}

/// The glyphs of these pages. Refuses with `Memory` if a growth was refused.
pub(crate) fn glyphs_of(
    alloc: Global,
    face: &FontFace<'_>,
    pages: &[u16],
) -> Result<Vec<u32>, ShapeError>
    requires { length pages.now ≤ 512 }
    ensures ok { IfOk result (λ glyphs. Pages.AreGlyphsOf face.now pages.now glyphs.items) }
    ensures all { IfOk result (λ glyphs. length glyphs.items ≡ 256 * length pages.now) }
    ensures memory { IsOkUnless result ShapeError.Memory }
{
    let count = 256 * pages.len();
    let mut glyphs = Vec::with_capacity(alloc, count)?;
    for i in 0..count {
        glyphs.push(glyph_in(face, pages, i))?;
    }
    Ok(glyphs)
}
