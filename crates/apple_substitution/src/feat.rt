//! The table `feat`: which types of features a font has.
ghost use Rattle.std.specs.Prelude.{◌≡◌, ◌<◌, ◌^◌};
ghost use Rattle.std.specs.Option.{IfSome};
ghost use Rattle.apple_substitution.specs.Feat;

use shape_font::bytes::{records, u16_at};
use shape_font::search::{found_within, side};

/// How many records of types the table has.
fn record_count(feat: &[u8]) -> u32
    ensures { result ≡ Feat.record_count feat.now }
{
    if u16_at(feat, 0) != 1 {
        return 0;
    }
    records(feat, u32::from(u16_at(feat, 4)), 12, 12)
}

/// Where a record begins.
fn record_at(i: u32) -> usize
    ensures value { result ≡ Feat.record_at i }
    ensures near { result < 2 ^ 37 }
{
    12 + 12 * i as usize
}

/// Where the record of a type begins.
fn record_of(feat: &[u8], kind: u16) -> Option<usize>
    ensures value { result ≡ Feat.record_of feat.now kind }
    ensures near { IfSome result (λ at. at < 2 ^ 37) }
{
    let place = found_within(record_count(feat), |i| {
        let there = u32::from(u16_at(feat, record_at(i)));
        side(u32::from(kind), there, there)
    });
    Some(record_at(place?))
}

/// Whether the settings of a type exclude each other; none if the font has no settings of the type.
pub fn exclusive(feat: &[u8], kind: u16) -> Option<bool>
    ensures { result ≡ Feat.exclusive feat.now kind }
{
    let at = record_of(feat, kind)?;
    if u16_at(feat, at + 2) == 0 {
        return None;
    }
    Some(u16_at(feat, at + 8) & 0x8000 != 0)
}
