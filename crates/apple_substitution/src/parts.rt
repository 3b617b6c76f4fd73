//! Parts of the table `morx` that stand one after the other: its chains, and the subtables of a
//! chain.
//!
//! HarfBuzz leaves the whole table out if one part of it is too long; here the parts before it run.
ghost use Rattle.std.specs.Prelude.{◌≡◌, ◌<◌, ◌≤◌, ◌+◌, ◌^◌, true, false};
ghost use Rattle.apple_substitution.specs.Edits;
ghost use Rattle.apple_substitution.specs.Parts as part_rules;

use crate::subtables::HEADER;
use shape_buffer::hb_buffer_t;
use shape_font::bytes::u32_at;

/// The most bytes that a table can have: its length is a number of 32 bits.
const MOST_BYTES: usize = 0xFFFF_FFFF;

/// What a kind of part begins with.
#[derive(Clone, Copy)]
pub(crate) struct Header {
    /// How many bytes it has.
    pub(crate) bytes: u32,
    /// Where in it the length of the part stands, header and all.
    pub(crate) size_at: u32,
}

/// The header of a chain.
pub(crate) const CHAIN: Header = Header {
    bytes: 16,
    size_at: 4,
};

/// The header of a subtable.
pub(crate) const SUBTABLE: Header = Header {
    bytes: HEADER,
    size_at: 0,
};

/// The length of a part.
pub(crate) fn size_of(morx: &[u8], header: Header, at: usize) -> u32
    requires { at < 2 ^ 39 }
    ensures { result ≡ part_rules.size_of morx.now header at }
{
    u32_at(morx, at + header.size_at as usize)
}

/// Whether the length of a part has room for its header, and the table for the part.
fn is_part(morx: &[u8], header: Header, at: usize) -> bool
    requires { at < 2 ^ 39 }
    ensures value { result ≡ part_rules.is_part morx.now header at }
    ensures header { result ≡ true → at + header.bytes < 2 ^ 32 }
    ensures end { result ≡ true → at + part_rules.size_of morx.now header at < 2 ^ 32 }
{
    let size = size_of(morx, header, at);
    header.bytes <= size && at + size as usize <= morx.len().min(MOST_BYTES)
}

/// Whether a list is longer than the run may make it.
pub(crate) fn is_past(buffer: &hb_buffer_t) -> bool
    ensures { result ≡ Edits.is_past buffer.now }
{
    buffer.length_limit() < buffer.len()
}

/// Whether a list is past the limit of the run, or what is left doesn't suffice for some work.
fn is_spent(work: usize, buffer: &hb_buffer_t) -> bool
    ensures { result ≡ part_rules.is_spent work buffer.now }
{
    is_past(buffer) || buffer.max_ops() < work
}

/// Whether a walk over parts ends where it stands: no part begins there, or none runs any more.
pub(crate) fn is_end(
    morx: &[u8],
    header: Header,
    at: usize,
    work: usize,
    buffer: &hb_buffer_t,
) -> bool
    requires { at < 2 ^ 39 }
    ensures value { result ≡ part_rules.is_end morx.now header at work buffer.now }
    ensures header { result ≡ false → at + header.bytes < 2 ^ 32 }
    ensures end { result ≡ false → at + part_rules.size_of morx.now header at < 2 ^ 32 }
{
    !is_part(morx, header, at) || is_spent(work, buffer)
}

/// Takes of what is left what a part costs.
pub(crate) fn charge(work: usize, buffer: &mut hb_buffer_t)
    ensures { buffer.new ≡ Edits.charged work buffer.old }
{
    let left = buffer.max_ops();
    buffer.set_max_ops(left.saturating_sub(work));
}
