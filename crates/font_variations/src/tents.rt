//! The scalar of one axis of a region.
ghost use Rattle.std.specs.Prelude.{◌≡◌, pos, negsuc, ◌≤ℤ◌, ◌-ℤ◌, false};
ghost use Rattle.font_variations.specs.Laws.{IsPart};
ghost use Rattle.font_variations.specs.Tents;

use std::num::nearest_i32_to_f32;

/// From where to where a region takes part along an axis, and where most. In units of 1/16384.
#[derive(Clone, Copy)]
pub struct Tent {
    pub start: i32,
    pub peak: i32,
    pub end: i32,
}

/// One integer over another one, to the nearest number.
#[tactic(auto, unfolding(crate::specs::Tents::ratio))]
fn ratio(part: i32, whole: i32) -> f32
    ensures { result ≡ Tents.ratio part whole }
{
    nearest_i32_to_f32(part) / nearest_i32_to_f32(whole)
}

/// How far one coordinate lies above another one.
fn above(low: i32, high: i32) -> i32
    requires least { negsuc 65535 ≤ℤ low }
    requires low { low ≤ℤ pos 65535 }
    requires lowest { negsuc 65535 ≤ℤ high }
    requires high { high ≤ℤ pos 65535 }
    ensures { result ≡ high -ℤ low }
{
    high - low
}

impl Tent {
    /// Whether the axis is left out: it is out of order, or its start and its end stand on either
    /// side of 0.
    fn is_malformed(&self) -> bool
        ensures value { result ≡ Tents.is_malformed self.now.start self.now.peak self.now.end }
        ensures rises { result ≡ false → self.now.start ≤ℤ self.now.peak }
        ensures falls { result ≡ false → self.now.peak ≤ℤ self.now.end }
    {
        self.peak < self.start || self.end < self.peak || (self.start < 0 && 0 < self.end)
    }

    /// How far a well formed axis takes part at a coordinate that is not its peak.
    fn slope(&self, coordinate: i32) -> f32
        requires start { negsuc 32767 ≤ℤ self.now.start }
        requires high { self.now.start ≤ℤ pos 32767 }
        requires low { negsuc 32767 ≤ℤ self.now.end }
        requires end { self.now.end ≤ℤ pos 32767 }
        requires near { negsuc 32767 ≤ℤ self.now.peak }
        requires below { self.now.peak ≤ℤ pos 32767 }
        ensures { result ≡ Tents.slope self.now.start self.now.peak self.now.end coordinate }
    {
        if coordinate <= self.start {
            return 0.0;
        }
        if self.end <= coordinate {
            return 0.0;
        }
        if coordinate < self.peak {
            ratio(above(self.start, coordinate), above(self.start, self.peak))
        } else {
            ratio(above(coordinate, self.end), above(self.peak, self.end))
        }
    }

    /// How far the axis takes part at a coordinate, from 0 to 1.
    #[tactic(auto, using(crate::proofs::PartLemmas::nothing_part, crate::proofs::PartLemmas::whole_part), unfolding(crate::specs::Tents::tent))]
    pub fn scalar(&self, coordinate: i32) -> f32
        requires start { negsuc 32767 ≤ℤ self.now.start }
        requires high { self.now.start ≤ℤ pos 32767 }
        requires low { negsuc 32767 ≤ℤ self.now.end }
        requires end { self.now.end ≤ℤ pos 32767 }
        requires near { negsuc 32767 ≤ℤ self.now.peak }
        requires below { self.now.peak ≤ℤ pos 32767 }
        ensures value { result ≡ Tents.tent self.now.start self.now.peak self.now.end coordinate }
        ensures part { IsPart result }
    {
        if self.peak == 0 || coordinate == self.peak {
            return 1.0;
        }
        if coordinate == 0 {
            return 0.0;
        }
        if self.is_malformed() {
            return 1.0;
        }
        self.slope(coordinate)
    }
}
