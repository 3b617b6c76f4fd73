//! What the table `GDEF` says of glyphs: their class, the class of marks, and sets of marks.
ghost use Rattle.std.specs.Prelude.{◌≡◌, ◌<◌, ◌^◌};
ghost use Rattle.std.specs.Option.{IfSome};
ghost use Rattle.layout_tables.specs.Gdef;

use crate::classes::class;
use crate::coverage::covers;
use crate::offsets::{header_offset, offset32};
use shape_font::bytes::{records, u16_at};

/// Whether the table has classes of glyphs.
pub fn has_glyph_classes(gdef: &[u8]) -> bool
    ensures { result ≡ Gdef.has_glyph_classes gdef.now }
{
    header_offset(gdef, 4).is_some()
}

/// The class of a glyph: 1 a base, 2 a ligature, 3 a mark, 4 a component; 0 if the table names
/// none.
#[inline(always)]
pub fn glyph_class(gdef: &[u8], glyph: u32) -> u16
    ensures { result ≡ Gdef.glyph_class gdef.now glyph }
{
    match header_offset(gdef, 4) {
        Some(start) => class(gdef, start, glyph),
        None => 0,
    }
}

/// The class of a mark by which lookups choose marks; 0 if the table names none.
#[inline(never)]
pub fn mark_attachment_class(gdef: &[u8], glyph: u32) -> u16
    ensures { result ≡ Gdef.mark_attachment_class gdef.now glyph }
{
    match header_offset(gdef, 10) {
        Some(start) => class(gdef, start, glyph),
        None => 0,
    }
}

/// The properties of an item: 2 of a base, 4 of a ligature, 8 of a mark with its attachment class
/// in the upper byte.
#[inline(always)]
pub fn glyph_props(gdef: &[u8], glyph: u32) -> u16
    ensures { result ≡ Gdef.glyph_props gdef.now glyph }
{
    match glyph_class(gdef, glyph) {
        1 => 2,
        2 => 4,
        3 => 8 + 256 * (mark_attachment_class(gdef, glyph) % 256),
        _ => 0,
    }
}

/// Where the sets of marks stand, in a table of version 1.2 or later.
fn sets(gdef: &[u8]) -> Option<usize>
    ensures value { result ≡ Gdef.mark_sets gdef.now }
    ensures near { IfSome result (λ place. place < 2 ^ 16) }
{
    if u16_at(gdef, 2) < 2 {
        return None;
    }
    header_offset(gdef, 12)
}

/// Where the Coverage table of a set of marks stands, of the sets at `start`.
fn set_in(gdef: &[u8], set: u16, start: usize) -> Option<usize>
    requires { start < 2 ^ 16 }
    ensures value { result ≡ Gdef.mark_set_in gdef.now set start }
    ensures near { IfSome result (λ place. place < 2 ^ 33) }
{
    let count = records(gdef, u32::from(u16_at(gdef, start + 2)), start + 4, 4);
    if u16_at(gdef, start) != 1 || count <= u32::from(set) {
        return None;
    }
    offset32(gdef, start, start + 4 + 4 * usize::from(set))
}

/// Whether a set of marks, of the sets at `start`, has the glyph.
fn set_in_covers(gdef: &[u8], set: u16, glyph: u32, start: usize) -> bool
    requires { start < 2 ^ 16 }
    ensures { result ≡ Gdef.mark_set_in_covers gdef.now set glyph start }
{
    match set_in(gdef, set, start) {
        Some(coverage) => covers(gdef, coverage, glyph),
        None => false,
    }
}

/// Whether the set of marks with this index has the glyph; false if there is no such set.
pub fn mark_set_covers(gdef: &[u8], set: u16, glyph: u32) -> bool
    ensures { result ≡ Gdef.mark_set_covers gdef.now set glyph }
{
    match sets(gdef) {
        Some(start) => set_in_covers(gdef, set, glyph, start),
        None => false,
    }
}
