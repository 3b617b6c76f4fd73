//! Names of glyphs: formats 1 and 2 of the table `post`.
ghost use Rattle.std.specs.Prelude.{◌≡◌, ◌+◌, ◌*◌, ◌<◌, ◌^◌};
ghost use Rattle.std.specs.Option.{option_map, IfSome};
ghost use Rattle.shape_font.specs.Names;

use crate::bytes::{records, u8_at, u16_at, u32_at};

/// The names that the table leaves out, in its order, as strings of `post`: a byte that says how
/// long the name is, and the name.
pub const STANDARD: &[u8] = b"\
    \x07.notdef\x05.null\x10nonmarkingreturn\x05space\x06exclam\x08quotedbl\x0anumbersign\x06dollar\
    \x07percent\x09ampersand\x0bquotesingle\x09parenleft\x0aparenright\x08asterisk\x04plus\x05comma\
    \x06hyphen\x06period\x05slash\x04zero\x03one\x03two\x05three\x04four\x04five\x03six\x05seven\x05eight\
    \x04nine\x05colon\x09semicolon\x04less\x05equal\x07greater\x08question\x02at\x01A\x01B\x01C\x01D\x01E\
    \x01F\x01G\x01H\x01I\x01J\x01K\x01L\x01M\x01N\x01O\x01P\x01Q\x01R\x01S\x01T\x01U\x01V\x01W\x01X\x01Y\
    \x01Z\x0bbracketleft\x09backslash\x0cbracketright\x0basciicircum\x0aunderscore\x05grave\x01a\x01b\x01c\
    \x01d\x01e\x01f\x01g\x01h\x01i\x01j\x01k\x01l\x01m\x01n\x01o\x01p\x01q\x01r\x01s\x01t\x01u\x01v\x01w\
    \x01x\x01y\x01z\x09braceleft\x03bar\x0abraceright\x0aasciitilde\x09Adieresis\x05Aring\x08Ccedilla\
    \x06Eacute\x06Ntilde\x09Odieresis\x09Udieresis\x06aacute\x06agrave\x0bacircumflex\x09adieresis\x06atilde\
    \x05aring\x08ccedilla\x06eacute\x06egrave\x0becircumflex\x09edieresis\x06iacute\x06igrave\x0bicircumflex\
    \x09idieresis\x06ntilde\x06oacute\x06ograve\x0bocircumflex\x09odieresis\x06otilde\x06uacute\x06ugrave\
    \x0bucircumflex\x09udieresis\x06dagger\x06degree\x04cent\x08sterling\x07section\x06bullet\x09paragraph\
    \x0agermandbls\x0aregistered\x09copyright\x09trademark\x05acute\x08dieresis\x08notequal\x02AE\x06Oslash\
    \x08infinity\x09plusminus\x09lessequal\x0cgreaterequal\x03yen\x02mu\x0bpartialdiff\x09summation\
    \x07product\x02pi\x08integral\x0bordfeminine\x0cordmasculine\x05Omega\x02ae\x06oslash\x0cquestiondown\
    \x0aexclamdown\x0alogicalnot\x07radical\x06florin\x0bapproxequal\x05Delta\x0dguillemotleft\
    \x0eguillemotright\x08ellipsis\x10nonbreakingspace\x06Agrave\x06Atilde\x06Otilde\x02OE\x02oe\x06endash\
    \x06emdash\x0cquotedblleft\x0dquotedblright\x09quoteleft\x0aquoteright\x06divide\x07lozenge\x09ydieresis\
    \x09Ydieresis\x08fraction\x08currency\x0dguilsinglleft\x0eguilsinglright\x02fi\x02fl\x09daggerdbl\
    \x0eperiodcentered\x0equotesinglbase\x0cquotedblbase\x0bperthousand\x0bAcircumflex\x0bEcircumflex\
    \x06Aacute\x09Edieresis\x06Egrave\x06Iacute\x0bIcircumflex\x09Idieresis\x06Igrave\x06Oacute\
    \x0bOcircumflex\x05apple\x06Ograve\x06Uacute\x0bUcircumflex\x06Ugrave\x08dotlessi\x0acircumflex\x05tilde\
    \x06macron\x05breve\x09dotaccent\x04ring\x07cedilla\x0chungarumlaut\x06ogonek\x05caron\x06Lslash\
    \x06lslash\x06Scaron\x06scaron\x06Zcaron\x06zcaron\x09brokenbar\x03Eth\x03eth\x06Yacute\x06yacute\
    \x05Thorn\x05thorn\x05minus\x08multiply\x0bonesuperior\x0btwosuperior\x0dthreesuperior\x07onehalf\
    \x0aonequarter\x0dthreequarters\x05franc\x06Gbreve\x06gbreve\x0aIdotaccent\x08Scedilla\x08scedilla\
    \x06Cacute\x06cacute\x06Ccaron\x06ccaron\x06dcroat";

/// How many names the table leaves out.
pub const STANDARD_COUNT: u32 = 258;

/// Where string `k` of those from `at` on begins; past the end, where none is, if there are fewer.
#[tactic(auto, using(crate::proofs::NameLemmas::string_start_next, crate::proofs::NameLemmas::string_start_past, crate::proofs::NameLemmas::string_start_end))]
fn string_start(table: &[u8], k: u32, at: usize) -> usize
    requires few { k < 2 ^ 16 }
    requires near { at < 2 ^ 32 }
    ensures value { result ≡ Names.string_start table.now k at }
    ensures small { result < 2 ^ 40 }
{
    let mut start = at;
    for _i in 0..k {
        if table.len() <= start {
            return start;
        }
        start += 1 + usize::from(u8_at(table, start));
    }
    start
}

/// The string that begins at this place; none if it is empty or reaches past the end.
pub fn string_at(table: &[u8], start: usize) -> Option<&[u8]>
    requires { start < 2 ^ 40 }
    ensures { option_map (λ s. s.now) result ≡ Names.string_at table.now start }
{
    let len = usize::from(u8_at(table, start));
    if 0 < len && start + 1 + len <= table.len() {
        Some(&table[start + 1..start + 1 + len])
    } else {
        None
    }
}

/// String `k` of those from `at` on, as [`string_at`] has it.
fn string(table: &[u8], k: u32, at: usize) -> Option<&[u8]>
    requires few { k < 2 ^ 16 }
    requires near { at < 2 ^ 32 }
    ensures { option_map (λ s. s.now) result ≡ Names.string_of table.now k at }
{
    string_at(table, string_start(table, k, at))
}

/// Where the strings of format 2 begin: after its list.
pub fn strings_at(post: &[u8]) -> usize
    ensures value { result ≡ Names.strings_at post.now }
    ensures near { result < 2 ^ 18 }
{
    34 + 2 * usize::from(u16_at(post, 32))
}

/// The number of a glyph's name: its own in format 1, the one in the list of format 2.
pub fn name_index(post: &[u8], glyph: u32) -> Option<u32>
    ensures value { result ≡ Names.name_index post.now glyph }
    ensures small { IfSome result (λ index. index < 2 ^ 16) }
{
    let listed = match u32_at(post, 0) {
        0x10000 => glyph < STANDARD_COUNT,
        0x20000 => glyph < records(post, u32::from(u16_at(post, 32)), 34, 2),
        _ => false,
    };
    if !listed {
        return None;
    }
    if u32_at(post, 0) == 0x10000 {
        Some(glyph)
    } else {
        Some(u32::from(u16_at(post, 34 + 2 * glyph as usize)))
    }
}

/// The name with a number: one of those that are left out, or one of the strings after the list. It
/// takes a step for each string before.
pub fn name(post: &[u8], index: u32) -> Option<&[u8]>
    requires { index < 2 ^ 16 }
    ensures { option_map (λ s. s.now) result ≡ Names.name_of STANDARD.now post.now index }
{
    if index < STANDARD_COUNT {
        string(STANDARD, index, 0)
    } else {
        string(post, index - STANDARD_COUNT, strings_at(post))
    }
}

/// The name of a glyph; none if the table has none for it, or an empty one.
pub fn glyph_name(post: &[u8], glyph: u32) -> Option<&[u8]>
    ensures { option_map (λ s. s.now) result ≡ Names.glyph_name STANDARD.now post.now glyph }
{
    match name_index(post, glyph) {
        Some(index) => name(post, index),
        None => None,
    }
}
