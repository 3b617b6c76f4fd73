//! Where kerning is on, by the requests of a plan.
//!
//! Kerning has eight bits of the mask, from bit 4 on, whatever values are asked for. HarfBuzz
//! takes as few as the greatest value needs; the kerned glyphs are the same.
ghost use Rattle.std.specs.Prelude.{◌≡◌};
ghost use Rattle.std.specs.Int.RustNames.{bit_and};
ghost use Rattle.kern_table.specs.Map.{asks, requested_by, kern_requests_of, map_of};

use shape_buffer::buffer::hb_tag_t;
use shape_buffer::interfaces::{F_GLOBAL, F_HAS_FALLBACK, MapRequest};

/// The feature that kerns.
pub const KERN: hb_tag_t = hb_tag_t(0x6b65_726e);

/// What the requests so far ask of kerning: its greatest value, its value if no range says another
/// one, and whether a table of its own may do the feature's work.
#[derive(Clone, Copy, PartialEq, Eq, Debug)]
pub struct KernRequests {
    pub greatest: u32,
    pub everywhere: u32,
    pub has_fallback: bool,
}

/// Where kerning is on: nowhere, or by eight bits of the mask of each item. Their value is
/// `everywhere`, except in ranges of the text that say another one.
#[derive(Clone, Copy, PartialEq, Eq, Debug)]
pub struct KernMap {
    pub is_on: bool,
    pub everywhere: u32,
}

/// Whether a flag is among these.
fn has(flags: u32, flag: u32) -> bool
    ensures { result ≡ asks flags flag }
{
    flags & flag != 0
}

/// What is asked after one request more. One for the whole text overrides those before it; one for
/// a range keeps what stands outside of it.
fn requested(kern_requests: KernRequests, request: MapRequest) -> KernRequests
    ensures { result ≡ requested_by kern_requests request }
{
    match request {
        MapRequest::Feature { tag, flags, value } if tag.0 == KERN.0 => KernRequests {
            greatest: if has(flags, F_GLOBAL) {
                value
            } else {
                kern_requests.greatest.max(value)
            },
            everywhere: if has(flags, F_GLOBAL) {
                value
            } else {
                kern_requests.everywhere
            },
            has_fallback: kern_requests.has_fallback || has(flags, F_HAS_FALLBACK),
        },
        _ => kern_requests,
    }
}

/// What the requests ask of kerning.
fn kern_requests(requests: &[MapRequest]) -> KernRequests
    ensures { result ≡ kern_requests_of requests.now }
{
    let mut all = KernRequests {
        greatest: 0,
        everywhere: 0,
        has_fallback: false,
    };
    for request in requests {
        all = requested(all, *request);
    }
    all
}

/// Where the requests switch kerning on: if a value other than 0 is asked for, and a table may do
/// the feature's work.
pub fn map(requests: &[MapRequest]) -> KernMap
    ensures { result ≡ map_of requests.now }
{
    let all = kern_requests(requests);
    KernMap {
        is_on: all.has_fallback && all.greatest != 0,
        everywhere: all.everywhere % 256,
    }
}
