//! A feature as text, as HarfBuzz and CSS write it: `kern`, `-liga`, `aalt[3:5]=2`, `'smcp' on`.
//!
//! A sign, a tag, a range of the text, a value, each where it may stand; spaces may stand between
//! them. A range goes from one place between characters to another; a number alone names the one
//! character after that place.
//!
//! A word for a value that is neither `on` nor `off` makes the text no feature: a mistyped value
//! shouldn't switch a feature on. HarfBuzz skips the word.
ghost use Rattle.std.specs.Prelude.{◌≡◌, ◌<◌, ◌+◌, ◌%◌, ◌^◌, slice_index_or};
ghost use Rattle.std.specs.Option.{option_map, option_or};
ghost use Rattle.shape_text_forms.specs.Scan.{after_byte};
ghost use Rattle.shape_text_forms.specs.Feature.{tag_value, sign_of, quote_of, plain_tag_of, quoted_tag_of, tag_of};
ghost use Rattle.shape_text_forms.specs.Feature.{optional_number, end_of_one, end_of, bracketed, range_of, is_letter};
ghost use Rattle.shape_text_forms.specs.Feature.{switch_value, switch_of, given_value, value_of, feature_of};

use crate::scan::{Kind, count, number, skip_byte, skip_first, skip_spaces};
use shape_buffer::{Feature, hb_tag_t};

/// The byte at this place, a space if there are fewer.
fn byte_or_space(bytes: &[u8], at: usize) -> u8
    ensures { result ≡ slice_index_or bytes.now at 32 }
{
    if at < bytes.len() { bytes[at] } else { b' ' }
}

/// The tag of the first four bytes, filled up with spaces.
pub fn tag_value(bytes: &[u8]) -> hb_tag_t
    ensures { result.0 ≡ tag_value bytes.now }
{
    hb_tag_t::from_bytes(&[
        byte_or_space(bytes, 0),
        byte_or_space(bytes, 1),
        byte_or_space(bytes, 2),
        byte_or_space(bytes, 3),
    ])
}

/// The value that a sign gives a feature, and the text after it.
fn sign(text: &[u8]) -> (u32, &[u8])
    ensures { (result.0, result.1.now) ≡ sign_of text.now }
{
    if let Some(rest) = skip_byte(text, b'-') {
        return (0, rest);
    }
    match skip_byte(text, b'+') {
        Some(rest) => (1, rest),
        None => (1, text),
    }
}

/// The quote at the front, or 0.
fn quote(text: &[u8]) -> u8
    ensures { result ≡ quote_of text.now }
{
    match text {
        [first, ..] if *first == b'\'' || *first == b'"' => *first,
        _ => 0,
    }
}

/// A tag of one to four bytes, and the text after it.
fn plain_tag(text: &[u8]) -> Option<(hb_tag_t, &[u8])>
    ensures { option_map (λ r. (r.0.0, r.1.now)) result ≡ plain_tag_of text.now }
{
    let count = count(text, Kind::Tag(0));
    if count == 0 || 4 < count {
        return None;
    }
    Some((tag_value(&text[..count]), &text[count..]))
}

/// A tag of four bytes that this quote ends, and the text after that.
fn quoted_tag(quote: u8, text: &[u8]) -> Option<(hb_tag_t, &[u8])>
    ensures { option_map (λ r. (r.0.0, r.1.now)) result ≡ quoted_tag_of quote text.now }
{
    let count = count(text, Kind::Tag(quote));
    if count != 4 {
        return None;
    }
    match skip_first(&text[4..], quote) {
        Some(rest) => Some((tag_value(&text[..4]), rest)),
        None => None,
    }
}

/// A tag, between quotes or plain, and the text after it.
pub(crate) fn tag(text: &[u8]) -> Option<(hb_tag_t, &[u8])>
    ensures { option_map (λ r. (r.0.0, r.1.now)) result ≡ tag_of text.now }
{
    let front = skip_spaces(text);
    match quote(front) {
        0 => plain_tag(front),
        quote if !front.is_empty() => quoted_tag(quote, &front[1..]),
        _ => None,
    }
}

/// A number at the front and the text after it, or none and the text.
fn optional_number(text: &[u8]) -> (Option<u32>, &[u8])
    ensures { (result.0, result.1.now) ≡ optional_number text.now }
{
    match number(text) {
        Some((value, rest)) => (Some(value), rest),
        None => (None, text),
    }
}

/// Where a range ends that has no colon: after the character that its number names, else nowhere.
fn end_of_one(start: Option<u32>) -> u32
    ensures { result ≡ end_of_one start }
{
    match start {
        Some(start) => start.wrapping_add(1),
        None => u32::MAX,
    }
}

/// The text after a colon or a semicolon.
fn skip_colon(text: &[u8]) -> Option<&[u8]>
    ensures { option_map (λ t. t.now) result
        ≡ option_or (after_byte 58 text.now) (after_byte 59 text.now) }
{
    match skip_byte(text, b':') {
        Some(rest) => Some(rest),
        None => skip_byte(text, b';'),
    }
}

/// Where a range ends, and the text after it.
fn end(start: Option<u32>, text: &[u8]) -> (u32, &[u8])
    ensures { (result.0, result.1.now) ≡ end_of start text.now }
{
    match skip_colon(text) {
        Some(rest) => {
            let (last, rest) = optional_number(rest);
            (last.unwrap_or(u32::MAX), rest)
        }
        None => (end_of_one(start), text),
    }
}

/// The range after its opening bracket, and the text after the closing one.
fn bracketed(text: &[u8]) -> Option<(u32, u32, &[u8])>
    ensures { option_map (λ r. (r.0, r.1, r.2.now)) result ≡ bracketed text.now }
{
    let (first, rest) = optional_number(text);
    let (last, rest) = end(first, rest);
    match skip_byte(rest, b']') {
        Some(rest) => Some((first.unwrap_or(0), last, rest)),
        None => None,
    }
}

/// The range of the text that is asked for, and the text after it.
fn range(text: &[u8]) -> Option<(u32, u32, &[u8])>
    ensures { option_map (λ r. (r.0, r.1, r.2.now)) result ≡ range_of text.now }
{
    match skip_byte(text, b'[') {
        Some(rest) => bracketed(rest),
        None => Some((0, u32::MAX, text)),
    }
}

/// Whether a byte is this small letter or its capital.
pub(crate) fn is_letter(small: u8, byte: u8) -> bool
    requires { small < 123 }
    ensures { result ≡ is_letter small byte }
{
    byte == small || byte < 128 && byte + 32 == small
}

/// What a word switches: `on` is 1, `off` is 0, in any case.
fn switch_value(word: &[u8]) -> Option<u32>
    ensures { result ≡ switch_value word.now }
{
    match word {
        [a, b] if is_letter(b'o', *a) && is_letter(b'n', *b) => Some(1),
        [a, b, c] if is_letter(b'o', *a) && is_letter(b'f', *b) && is_letter(b'f', *c) => Some(0),
        _ => None,
    }
}

/// What the word at the front switches, and the text after it.
fn switch(text: &[u8]) -> Option<(u32, &[u8])>
    ensures { option_map (λ r. (r.0, r.1.now)) result ≡ switch_of text.now }
{
    let front = skip_spaces(text);
    let count = count(front, Kind::Letter);
    match switch_value(&front[..count]) {
        Some(value) => Some((value, &front[count..])),
        None => None,
    }
}

/// The number or the switch at the front, and the text after it.
fn given_value(text: &[u8]) -> Option<(u32, &[u8])>
    ensures { option_map (λ r. (r.0, r.1.now)) result ≡ given_value text.now }
{
    match number(text) {
        Some(found) => Some(found),
        None => switch(text),
    }
}

/// The value of a feature, and the text after it: the given one, else that of its sign. None if
/// nothing is given after an equals sign.
fn value(by_sign: u32, text: &[u8]) -> Option<(u32, &[u8])>
    ensures { option_map (λ r. (r.0, r.1.now)) result ≡ value_of by_sign text.now }
{
    if let Some(rest) = skip_byte(text, b'=') {
        return given_value(rest);
    }
    match given_value(text) {
        Some(found) => Some(found),
        None => Some((by_sign, text)),
    }
}

/// The feature that a text asks for, as `hb_feature_from_string` reads it. None if the text is no
/// feature.
pub fn feature_from_string(text: &str) -> Option<Feature>
    ensures { result ≡ feature_of text.now }
{
    let (by_sign, rest) = sign(text.as_bytes());
    let (tag, rest) = tag(rest)?;
    let (start, end, rest) = range(rest)?;
    let (value, rest) = value(by_sign, rest)?;
    if !skip_spaces(rest).is_empty() {
        return None;
    }
    Some(Feature {
        tag,
        value,
        start,
        end,
    })
}
