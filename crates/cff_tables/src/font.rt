//! A font of a table `CFF ` or `CFF2`: where its parts stand, by the header and the Top DICT (Adobe
//! Technical Note 5176, sections 6 to 9 and 16; OpenType, "CFF2"), and what each glyph has.
ghost use Rattle.std.specs.Prelude.{◌≡◌, ◌<◌, ◌≤◌, ◌+◌, ◌^◌, false, length};
ghost use Rattle.std.specs.Option.{option_map, IfSome};
ghost use Rattle.cff_tables.specs.Font;
ghost use Rattle.cff_tables.specs.Index;
ghost use Rattle.cff_tables.specs.Charset;

use crate::bytes::{byte_at, number_at, part, word_at};
use crate::charset::{coded_glyph, name_number, string};
use crate::dict::{DictValues, values};
use crate::index::{ObjectRange, index_end, object, object_count, object_range};
use crate::select::font_dict;

/// Where the parts of a font stand in its table; 0 for what it lacks. The table is `wide` if it is
/// `CFF2`.
#[derive(Clone, Copy, PartialEq, Debug)]
pub struct Layout {
    pub wide: bool,
    pub cid: bool,
    pub glyph_count: u16,
    pub char_strings: u32,
    pub global: u32,
    pub local: u32,
    pub charset: u32,
    pub strings: u32,
    pub fd_array: u32,
    pub fd_select: u32,
    pub vstore: u32,
}

/// Where the parts stand that follow the header of a table `CFF `.
#[derive(Clone, Copy)]
struct Parts {
    top: u32,
    strings: u32,
    global: u32,
}

/// A font of a table `CFF ` or `CFF2`. It borrows the table.
#[derive(Clone, Copy)]
pub struct CffFont<'a> {
    table: &'a [u8],
    layout: Layout,
}

/// Where an INDEX ends that the table holds whole.
fn end_of(table: &[u8], at: u32) -> Option<u32>
    requires { length table.now < 2 ^ 32 }
    ensures { result ≡ Index.index_end table.now false at }
{
    match index_end(table, false, at) {
        Some(end) => Some(end as u32),
        None => None,
    }
}

/// Whether the table holds an INDEX whole.
fn is_index(table: &[u8], wide: bool, at: u32) -> bool
    ensures { result ≡ Font.is_index table.now wide at }
{
    index_end(table, wide, at).is_some()
}

/// The place of an INDEX that the table holds whole; 0 if it does not.
fn index_or_none(table: &[u8], wide: bool, at: u32) -> u32
    ensures { result ≡ Font.index_or_none table.now wide at }
{
    if is_index(table, wide, at) { at } else { 0 }
}

/// Whether there are charstrings of so many glyphs.
fn has_glyphs(table: &[u8], wide: bool, at: u32, count: u16) -> bool
    ensures { result ≡ Font.has_glyphs table.now wide at count }
{
    0 < at && is_index(table, wide, at) && object_count(table, wide, at) == u32::from(count)
}

/// The Private DICT that a DICT names; none if it is not there, or refused.
fn private(table: &[u8], dict: &DictValues) -> Option<DictValues>
    ensures { result ≡ Font.private_of table.now dict.now }
{
    let from = dict.private_at as usize;
    match part(table, from, from + dict.private_len as usize) {
        Some(bytes) => values(bytes),
        None => None,
    }
}

/// The place of local subroutines that a Private DICT names; 0 if there are none.
fn local_at(table: &[u8], wide: bool, private: u32, subrs: u32) -> u32
    ensures { result ≡ Font.local_at table.now wide private subrs }
{
    if subrs == 0 || 0xFFFF_FFFF - private < subrs {
        return 0;
    }
    if is_index(table, wide, private + subrs) {
        private + subrs
    } else {
        0
    }
}

/// The place of the local subroutines by a DICT that names a Private DICT.
fn local(table: &[u8], wide: bool, dict: &DictValues) -> u32
    ensures { result ≡ Font.local_of table.now wide dict.now }
{
    match private(table, dict) {
        Some(private) => local_at(table, wide, dict.private_at, private.subrs),
        None => 0,
    }
}

/// What stands after the INDEX of names, which ends at `top`.
fn parts_after(table: &[u8], top: u32) -> Option<Parts>
    requires { length table.now < 2 ^ 32 }
    ensures { result ≡ Font.parts_from table.now top }
{
    match end_of(table, top) {
        Some(strings) => match end_of(table, strings) {
            Some(global) => Some(Parts {
                top,
                strings,
                global,
            }),
            None => None,
        },
        None => None,
    }
}

/// What stands after the header.
fn parts_at(table: &[u8]) -> Option<Parts>
    requires { length table.now < 2 ^ 32 }
    ensures { result ≡ Font.parts_of table.now }
{
    match end_of(table, u32::from(byte_at(table, 2))) {
        Some(top) => parts_after(table, top),
        None => None,
    }
}

/// Whether a charset stands at `at`, or need not.
fn is_charset(table: &[u8], at: u32) -> bool
    ensures { result ≡ Font.is_charset table.now at }
{
    at <= 2 || ((at as usize) < table.len() && byte_at(table, at as usize) <= 2)
}

/// The layout by the Top DICT of a table `CFF `.
fn laid_out(table: &[u8], count: u16, parts: &Parts, top: &DictValues) -> Option<Layout>
    ensures { result ≡ Font.laid_out table.now count parts.now top.now }
{
    if !(has_glyphs(table, false, top.char_strings, count) && is_charset(table, top.charset)) {
        return None;
    }
    if top.cid && !is_index(table, false, top.fd_array) {
        return None;
    }
    Some(Layout {
        wide: false,
        cid: top.cid,
        glyph_count: count,
        char_strings: top.char_strings,
        global: index_or_none(table, false, parts.global),
        local: if top.cid { 0 } else { local(table, false, top) },
        charset: top.charset,
        strings: parts.strings,
        fd_array: if top.cid { top.fd_array } else { 0 },
        fd_select: if top.cid { top.fd_select } else { 0 },
        vstore: 0,
    })
}

/// The layout of a table `CFF `.
fn cff_layout(table: &[u8], count: u16) -> Option<Layout>
    ensures { result ≡ Font.cff_layout table.now count }
{
    if 0xFFFF_FFFF < table.len() || byte_at(table, 0) != 1 {
        return None;
    }
    match parts_at(table) {
        Some(parts) => match object(table, false, parts.top, 0) {
            Some(dict) => match values(dict) {
                Some(top) => laid_out(table, count, &parts, &top),
                None => None,
            },
            None => None,
        },
        None => None,
    }
}

/// Of how many regions variation data `i` has deltas, by the variation store at `vstore`; none if
/// that is 0.
pub fn region_count(table: &[u8], vstore: u32, i: u32) -> u16
    ensures { result ≡ Font.region_count table.now vstore i }
{
    if vstore == 0 {
        return 0;
    }
    let store = vstore as usize + 2;
    if u32::from(word_at(table, store + 6)) <= i {
        return 0;
    }
    let data = number_at(table, store + 8 + 4 * i as usize, 4) as usize;
    word_at(table, store + data + 4)
}

/// The layout by the Top DICT of a table `CFF2`, which ends at `end`.
fn wide_layout(table: &[u8], count: u16, end: u32, top: &DictValues) -> Option<Layout>
    ensures { result ≡ Font.wide_layout table.now count end top.now }
{
    let is_whole = has_glyphs(table, true, top.char_strings, count)
        && is_index(table, true, top.fd_array)
        && is_index(table, true, end);
    if !is_whole {
        return None;
    }
    Some(Layout {
        wide: true,
        cid: false,
        glyph_count: count,
        char_strings: top.char_strings,
        global: end,
        local: 0,
        charset: 0,
        strings: 0,
        fd_array: top.fd_array,
        fd_select: top.fd_select,
        vstore: top.vstore,
    })
}

/// The layout of a table `CFF2`.
fn cff2_layout(table: &[u8], count: u16) -> Option<Layout>
    ensures { result ≡ Font.cff2_layout table.now count }
{
    if 0xFFFF_FFFF < table.len() || byte_at(table, 0) != 2 {
        return None;
    }
    let start = u32::from(byte_at(table, 2));
    let end = start + u32::from(word_at(table, 3));
    match part(table, start as usize, end as usize) {
        Some(dict) => match values(dict) {
            Some(top) => wide_layout(table, count, end, &top),
            None => None,
        },
        None => None,
    }
}

impl<'a> CffFont<'a> {
    /// The font of a table `CFF ` with so many glyphs, as `maxp` counts them. None if the table
    /// holds no such font: if a part of it is missing, the Top DICT is refused, or there are more
    /// or fewer charstrings.
    pub fn from_cff(table: &'a [u8], count: u16) -> Option<CffFont<'a>>
        ensures layout { option_map (λ f. f.layout) result ≡ Font.cff_layout table.now count }
        ensures table { IfSome result (λ f. f.table.now ≡ table.now) }
    {
        match cff_layout(table, count) {
            Some(layout) => Some(CffFont { table, layout }),
            None => None,
        }
    }

    /// The font of a table `CFF2` with so many glyphs, likewise.
    pub fn from_cff2(table: &'a [u8], count: u16) -> Option<CffFont<'a>>
        ensures layout { option_map (λ f. f.layout) result ≡ Font.cff2_layout table.now count }
        ensures table { IfSome result (λ f. f.table.now ≡ table.now) }
    {
        match cff2_layout(table, count) {
            Some(layout) => Some(CffFont { table, layout }),
            None => None,
        }
    }

    /// Where its parts stand.
    pub fn layout(&self) -> Layout
        ensures { result ≡ self.now.layout }
    {
        self.layout
    }

    /// The bytes of the table.
    pub fn table(&self) -> &'a [u8]
        ensures { result.now ≡ self.now.table.now }
    {
        self.table
    }

    /// Where the charstring of a glyph stands; none likewise.
    pub fn char_string_range(&self, glyph: u32) -> Option<ObjectRange>
        ensures value { result
            ≡ Index.range_of self.now.table.now self.now.layout.wide self.now.layout.char_strings glyph }
        ensures ordered { IfSome result (λ r. r.from ≤ r.to) }
        ensures inside { IfSome result (λ r. r.to ≤ length self.now.table.now) }
    {
        object_range(
            self.table,
            self.layout.wide,
            self.layout.char_strings,
            glyph,
        )
    }

    /// The charstring of a glyph; none past the last glyph, or if its bytes are not there.
    pub fn char_string(&self, glyph: u32) -> Option<&'a [u8]>
        ensures { option_map (λ c. c.now) result
            ≡ Index.object_of self.now.table.now self.now.layout.wide self.now.layout.char_strings glyph }
    {
        object(
            self.table,
            self.layout.wide,
            self.layout.char_strings,
            glyph,
        )
    }

    /// The Font DICT of a glyph, in a CID font or a table `CFF2`; none if it is not there, or
    /// refused.
    fn font_dict(&self, glyph: u32) -> Option<DictValues>
        ensures { result ≡ Font.font_dict_of self.now.table.now self.now.layout glyph }
    {
        let fd = font_dict(self.table, self.layout.fd_select, glyph);
        match object(self.table, self.layout.wide, self.layout.fd_array, fd) {
            Some(dict) => values(dict),
            None => None,
        }
    }

    /// The place of the INDEX of a glyph's local subroutines; 0 if there are none.
    pub fn local_subroutines(&self, glyph: u32) -> u32
        ensures { result ≡ Font.glyph_local self.now.table.now self.now.layout glyph }
    {
        if !(self.layout.wide || self.layout.cid) {
            return self.layout.local;
        }
        match self.font_dict(glyph) {
            Some(dict) => local(self.table, self.layout.wide, &dict),
            None => 0,
        }
    }

    /// The number of the variation data that a glyph's charstring begins with, in a table `CFF2`.
    pub fn variation_data(&self, glyph: u32) -> u32
        ensures { result ≡ Font.glyph_variation self.now.table.now self.now.layout glyph }
    {
        match self.font_dict(glyph) {
            Some(dict) => match private(self.table, &dict) {
                Some(private) => private.vsindex,
                None => 0,
            },
            None => 0,
        }
    }

    /// Of how many regions variation data `i` has deltas; none without such data.
    pub fn region_count(&self, i: u32) -> u16
        ensures { result ≡ Font.region_count self.now.table.now self.now.layout.vstore i }
    {
        region_count(self.table, self.layout.vstore, i)
    }

    /// The glyph of a code of Standard Encoding; 0 if there is none.
    pub fn coded_glyph(&self, code: u32) -> u32
        ensures { result ≡ Charset.coded_glyph self.now.table.now self.now.layout.charset
            self.now.layout.glyph_count code }
    {
        coded_glyph(
            self.table,
            self.layout.charset,
            self.layout.glyph_count,
            code,
        )
    }

    /// The glyph's name; none in a CID font and a table `CFF2`, past the last glyph, or if it is
    /// empty.
    pub fn name(&self, glyph: u32) -> Option<&'a [u8]>
        ensures { option_map (λ n. n.now) result ≡ Font.name_of self.now.table.now self.now.layout glyph }
    {
        if self.layout.wide || self.layout.cid || u32::from(self.layout.glyph_count) <= glyph {
            return None;
        }
        let name = name_number(self.table, self.layout.charset, glyph);
        match string(self.table, self.layout.strings, name) {
            Some(text) if !text.is_empty() => Some(text),
            _ => None,
        }
    }
}
