//! A tag that a language's private use names: `x-hbot-..` of a language system, `x-hbsc-..` of a
//! script (HarfBuzz).
ghost use Rattle.std.specs.Prelude.{◌≡◌, ◌<◌, ◌≤◌, ◌+◌, length, drop, IfSome};
ghost use Rattle.std.specs.List.{prefix_len};
ghost use Rattle.std.specs.Prelude.{string_bytes};
ghost use Rattle.std.specs.Option.{option_map};
ghost use Rattle.opentype_tags.specs.Subtags;
ghost use Rattle.shape_font.specs.Search.{first_at};
ghost use Rattle.opentype_tags.specs.PrivateUse;
ghost use Rattle.opentype_tags.specs.Language as language_rules;

use crate::subtags::{begins_at, bytes_from, is_alphanumeric, private_subtags};
use shape_common::Language;
use shape_font::bytes::u8_at;

/// The value of a hexadecimal digit.
fn hex_value(byte: u8) -> Option<u32>
    ensures value { result ≡ PrivateUse.hex_value byte }
    ensures digit { IfSome result (λ digit. digit < 16) }
{
    match byte {
        b'0'..=b'9' => Some(u32::from(byte - b'0')),
        b'a'..=b'f' => Some(u32::from(byte - b'a') + 10),
        b'A'..=b'F' => Some(u32::from(byte - b'A') + 10),
        _ => None,
    }
}

/// One digit more. Eight digits fill a number, so that no product wraps.
fn with_digit(number: Option<u32>, byte: u8) -> Option<u32>
    ensures { result ≡ PrivateUse.with_digit number byte }
{
    match (number, hex_value(byte)) {
        (Some(number), Some(digit)) => Some(number % 0x1000_0000 * 16 + digit),
        _ => None,
    }
}

/// The tag that eight hexadecimal digits give.
fn hex_tag(bytes: &[u8]) -> Option<u32>
    ensures { result ≡ PrivateUse.hex_tag bytes.now }
{
    let mut tag = Some(0);
    for byte in bytes.get(..8)? {
        tag = with_digit(tag, *byte);
    }
    tag
}

/// A letter as tags of scripts have them, small, or as those of language systems do, capital.
fn in_case(small: bool, byte: u8) -> u8
    ensures { result ≡ PrivateUse.in_case small byte }
{
    match byte {
        b'A'..=b'Z' if small => byte + 32,
        b'a'..=b'z' if !small => byte - 32,
        _ => byte,
    }
}

/// Byte `i` of a tag that `count` letters and digits spell, filled up with spaces.
fn tag_byte(small: bool, bytes: &[u8], count: usize, i: usize) -> u32
    ensures value { result ≡ PrivateUse.tag_byte small bytes.now count i }
    ensures byte { result < 256 }
{
    if i < count {
        u32::from(in_case(small, u8_at(bytes, i)))
    } else {
        32
    }
}

/// How many letters and digits a text begins with.
fn spelled_length(bytes: &[u8]) -> usize
    ensures { result ≡ prefix_len Subtags.is_alphanumeric bytes.now }
{
    bytes
        .iter()
        .take_while(|byte| is_alphanumeric(**byte))
        .count()
}

/// The tag that up to four letters and digits spell, at least one.
fn spelled_tag(small: bool, bytes: &[u8]) -> Option<u32>
    ensures { result ≡ PrivateUse.spelled_tag small bytes.now }
{
    let count = spelled_length(bytes).min(4);
    if count == 0 {
        return None;
    }
    let (a, b) = (
        tag_byte(small, bytes, count, 0),
        tag_byte(small, bytes, count, 1),
    );
    let (c, d) = (
        tag_byte(small, bytes, count, 2),
        tag_byte(small, bytes, count, 3),
    );
    Some(a * 0x100_0000 + b * 0x1_0000 + c * 0x100 + d)
}

/// The default's tag in the other case: `DFLT` of scripts, `dflt` of language systems.
fn default_in_case(tag: u32) -> u32
    ensures { result ≡ PrivateUse.default_in_case tag }
{
    if tag & 0xDFDF_DFDF == 0x4446_4C54 {
        tag ^ 0x2020_2020
    } else {
        tag
    }
}

/// The tag that the text after a key gives by its digits or letters.
fn written_tag(small: bool, bytes: &[u8]) -> Option<u32>
    ensures { result ≡ PrivateUse.written_tag small bytes.now }
{
    if u8_at(bytes, 0) == b'-' {
        hex_tag(bytes_from(bytes, 1))
    } else {
        spelled_tag(small, bytes)
    }
}

/// The tag that the text after a key gives.
fn tag_after(small: bool, bytes: &[u8]) -> Option<u32>
    ensures { result ≡ PrivateUse.tag_after small bytes.now }
{
    match written_tag(small, bytes) {
        Some(tag) => Some(default_in_case(tag)),
        None => None,
    }
}

/// The first place where the bytes of a key stand.
#[tactic(auto, using(shape_font::proofs::SearchLemmas::first_at_next, shape_font::proofs::SearchLemmas::first_at_found, shape_font::proofs::SearchLemmas::first_at_end))]
fn key_place(subtags: &[u8], key: &[u8]) -> Option<usize>
    ensures value { result ≡ first_at (Subtags.begins_at subtags.now key.now)
        (length subtags.now) 0 }
    ensures within { IfSome result (λ at. at < length subtags.now) }
{
    for at in 0..subtags.len() {
        if begins_at(subtags, key, at) {
            return Some(at);
        }
    }
    None
}

/// The tag after a place of a key, of five bytes.
fn tag_from(small: bool, subtags: &[u8], at: usize) -> Option<u32>
    requires { at < length subtags.now }
    ensures { result ≡ PrivateUse.tag_after small (drop (at + 5) subtags.now) }
{
    tag_after(small, bytes_from(subtags, at + 5))
}

/// The tag after the first place of a key in subtags of private use.
fn tag_in(small: bool, key: &[u8], subtags: &[u8]) -> Option<u32>
    ensures { result ≡ PrivateUse.tag_in small key.now subtags.now }
{
    match key_place(subtags, key) {
        Some(at) => tag_from(small, subtags, at),
        None => None,
    }
}

/// The tag after the first place of a key in the private use of a name.
fn private_tag(small: bool, key: &[u8], name: &[u8]) -> Option<u32>
    ensures { result ≡ PrivateUse.private_tag small key.now name.now }
{
    tag_in(small, key, private_subtags(name))
}

/// The tag of a script that a language names.
pub(crate) fn private_script_tag(language: Option<&Language>) -> Option<u32>
    ensures { result ≡ language_rules.private_script_tag (option_map
        (λ l. string_bytes l.now.0) language.entry) }
{
    match language {
        Some(language) => private_tag(true, b"-hbsc", language.0.as_bytes()),
        None => None,
    }
}

/// The tag of a language system that a language's name names.
pub(crate) fn private_language_tag(name: &[u8]) -> Option<u32>
    ensures { result ≡ language_rules.private_language_tag name.now }
{
    private_tag(false, b"-hbot", name)
}
