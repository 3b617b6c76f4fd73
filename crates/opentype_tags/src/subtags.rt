//! A language's name as BCP 47 cuts it up: subtags between hyphens (RFC 5646, 2.1 and 2.2).
//!
//! A subtag of one byte begins an extension, and `x` begins private use; what comes before the
//! first of them is the registered subtags. The name is given in HarfBuzz's spelling: small
//! letters, digits and hyphens.
ghost use Rattle.std.specs.Prelude.{◌≡◌, ◌≤◌, ◌<◌, ◌^◌, length, drop, slice_index, IfSome};
ghost use Rattle.shape_font.specs.Search.{first_at};
ghost use Rattle.opentype_tags.specs.Subtags;

use shape_font::bytes::u8_at;

/// Whether a byte is a letter or a digit of ASCII.
pub(crate) fn is_alphanumeric(byte: u8) -> bool
    ensures { result ≡ Subtags.is_alphanumeric byte }
{
    matches!(byte, b'0'..=b'9' | b'a'..=b'z' | b'A'..=b'Z')
}

/// The bytes from a place on; none past the end.
pub(crate) fn bytes_from(bytes: &[u8], at: usize) -> &[u8]
    ensures { result.now ≡ drop at bytes.now }
{
    bytes.get(at..).unwrap_or(&[])
}

/// Whether the bytes from a place on begin with those given.
pub(crate) fn begins_at(name: &[u8], subtags: &[u8], at: usize) -> bool
    ensures { result ≡ Subtags.begins_at name.now subtags.now at }
{
    bytes_from(name, at).starts_with(subtags)
}

/// How long the subtag is that a name begins with.
fn first_length(name: &[u8]) -> usize
    ensures value { result ≡ Subtags.first_length name.now }
    ensures within { result ≤ length name.now }
{
    name.iter().take_while(|byte| **byte != b'-').count()
}

/// The subtag that a name begins with.
pub(crate) fn first_subtag(name: &[u8]) -> &[u8]
    ensures { result.now ≡ Subtags.first_subtag name.now }
{
    &name[..first_length(name)]
}

/// What follows the first subtag and its hyphen.
pub(crate) fn after_first(name: &[u8]) -> &[u8]
    ensures { result.now ≡ Subtags.after_first name.now }
{
    bytes_from(name, first_length(name) + 1)
}

/// Whether a hyphen stands at a place, and a subtag of one byte that isn't the last one after it.
fn is_before_singleton(name: &[u8], at: usize) -> bool
    requires { at < 2 ^ 63 }
    ensures { result ≡ Subtags.is_before_singleton name.now at }
{
    u8_at(name, at) == b'-' && u8_at(name, at + 2) == b'-'
}

/// Whether private use begins after the hyphen at a place.
fn is_before_private(name: &[u8], at: usize) -> bool
    requires { at < 2 ^ 63 }
    ensures { result ≡ Subtags.is_before_private name.now at }
{
    is_before_singleton(name, at) && u8_at(name, at + 1) == b'x'
}

/// The hyphen before the first extension or private use.
#[tactic(auto, using(shape_font::proofs::SearchLemmas::first_at_next, shape_font::proofs::SearchLemmas::first_at_found, shape_font::proofs::SearchLemmas::first_at_end))]
fn first_singleton(name: &[u8]) -> Option<usize>
    ensures { result ≡ first_at (Subtags.is_before_singleton name.now) (length name.now) 0 }
{
    for at in 0..name.len() {
        if is_before_singleton(name, at) {
            return Some(at);
        }
    }
    None
}

/// The hyphen before private use.
#[tactic(auto, using(shape_font::proofs::SearchLemmas::first_at_next, shape_font::proofs::SearchLemmas::first_at_found, shape_font::proofs::SearchLemmas::first_at_end))]
fn first_private(name: &[u8]) -> Option<usize>
    ensures value { result ≡ first_at (Subtags.is_before_private name.now) (length name.now) 0 }
    ensures within { IfSome result (λ at. at < length name.now) }
{
    for at in 0..name.len() {
        if is_before_private(name, at) {
            return Some(at);
        }
    }
    None
}

/// Whether a name is of private use alone.
fn is_all_private(name: &[u8]) -> bool
    ensures { result ≡ Subtags.is_all_private name.now }
{
    name.starts_with(b"x-")
}

/// What comes before the first extension.
pub(crate) fn registered_subtags(name: &[u8]) -> &[u8]
    ensures { result.now ≡ Subtags.registered_subtags name.now }
{
    if is_all_private(name) {
        return &[];
    }
    match first_singleton(name) {
        Some(at) => name.get(..at).unwrap_or(name),
        None => name,
    }
}

/// The subtags of private use, from its `x` on; empty if there is none.
pub(crate) fn private_subtags(name: &[u8]) -> &[u8]
    ensures { result.now ≡ Subtags.private_subtags name.now }
{
    if is_all_private(name) {
        return name;
    }
    match first_private(name) {
        Some(at) => bytes_from(name, at + 1),
        None => &[],
    }
}

/// Whether a subtag after the first, given with its hyphen, stands at a place.
fn is_subtag_at(name: &[u8], subtag: &[u8], at: usize) -> bool
    requires { at < length name.now }
    ensures { result ≡ Subtags.is_subtag_at name.now subtag.now at }
{
    begins_at(name, subtag, at) && !is_alphanumeric(u8_at(name, at + subtag.len()))
}

/// Whether a name has a subtag, given with its hyphen, after its first one.
#[tactic(auto, using(shape_font::proofs::SearchLemmas::first_at_next, shape_font::proofs::SearchLemmas::first_at_found, shape_font::proofs::SearchLemmas::first_at_end))]
fn subtag_place(name: &[u8], subtag: &[u8]) -> Option<usize>
    ensures { result ≡ first_at (Subtags.is_subtag_at name.now subtag.now) (length name.now) 0 }
{
    for at in 0..name.len() {
        if is_subtag_at(name, subtag, at) {
            return Some(at);
        }
    }
    None
}

/// Whether a name has a subtag, given with its hyphen, after its first one.
pub(crate) fn has_subtag(name: &[u8], subtag: &[u8]) -> bool
    ensures { result ≡ Subtags.has_subtag name.now subtag.now }
{
    subtag_place(name, subtag).is_some()
}

/// Whether a name begins with whole subtags, given with the hyphens between them.
pub(crate) fn begins_with(name: &[u8], subtags: &[u8]) -> bool
    ensures { result ≡ Subtags.begins_with name.now subtags.now }
{
    begins_at(name, subtags, 0) && matches!(u8_at(name, subtags.len()), 0 | b'-')
}
