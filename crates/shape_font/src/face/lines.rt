//! The measures of a line, which `MVAR` varies at coordinates.
ghost use Rattle.std.specs.Prelude.{◌≡◌, ◌≤◌, ◌≤ℤ◌, pos};
ghost use Rattle.shape_font.specs.LinesAt;

use super::FontFace;
use crate::metrics;
use font_sizes::Scale;
use font_variations::deltas::rounded;
use font_variations::lines::line_delta;
use shape_buffer::wrapping::difference;
use std::num::nearest_i32_to_f32;

/// `hasc`, how far a line reaches up.
const ASCENDER: u32 = 0x6861_7363;

/// `hdsc`, how far it reaches down.
const DESCENDER: u32 = 0x6864_7363;

/// `hlgp`, how far lines stand apart.
const LINE_GAP: u32 = 0x686c_6770;

/// A number upwards, whatever its sign.
fn upwards(x: f32) -> f32
    ensures { result ≡ LinesAt.upwards x }
{
    if x < 0.0 { 0.0 - x } else { x }
}

/// A number downwards, likewise.
fn downwards(x: f32) -> f32
    ensures { result ≡ LinesAt.downwards x }
{
    if x < 0.0 { x } else { 0.0 - x }
}

/// How far a line reaches.
fn reach(x: f32) -> u32
    ensures value { result ≡ LinesAt.reach_of x }
    ensures small { result ≤ 32768 }
{
    rounded(x).unsigned_abs().min(32768)
}

impl<'a> FontFace<'a> {
    /// A number with what `MVAR` adds to it at the coordinates.
    fn varied(&self, tag: u32, n: i32) -> f32
        ensures { result ≡ LinesAt.varied self.now tag n }
    {
        nearest_i32_to_f32(n) + line_delta(self.mvar, self.coordinates, tag)
    }

    /// How far a line reaches above its baseline.
    #[tactic(auto, unfolding(crate::specs::LinesAt::ascent_of))]
    pub(super) fn ascent(&self) -> u32
        ensures value { result ≡ LinesAt.ascent_of self.now }
        ensures small { result ≤ 32768 }
    {
        let ascender = metrics::ascender(self.os2, self.hhea);
        if self.coordinates.is_empty() {
            return ascender.unsigned_abs();
        }
        reach(upwards(self.varied(ASCENDER, ascender)))
    }

    /// How far it reaches below.
    #[tactic(auto, unfolding(crate::specs::LinesAt::descent_of))]
    pub(super) fn descent(&self) -> u32
        ensures value { result ≡ LinesAt.descent_of self.now }
        ensures small { result ≤ 32768 }
    {
        let descender = metrics::descender(self.os2, self.hhea);
        if self.coordinates.is_empty() {
            return descender.unsigned_abs();
        }
        reach(downwards(self.varied(DESCENDER, descender)))
    }

    /// How high a line is.
    pub(super) fn height(&self) -> i32
        ensures value { result ≡ pos (LinesAt.line_height self.now) }
        ensures high { result ≤ℤ pos 65536 }
    {
        (self.ascent() + self.descent()) as i32
    }

    /// A measure at the coordinates, before it is rounded.
    fn measure(&self, tag: u32, n: i32) -> f32
        ensures { result ≡ LinesAt.measure self.now tag n }
    {
        if self.coordinates.is_empty() {
            return nearest_i32_to_f32(n);
        }
        self.varied(tag, n)
    }

    /// How far a line reaches above its baseline at a size.
    #[tactic(auto, unfolding(crate::specs::LinesAt::ascender_at))]
    fn ascender_at(&self, scale: &Scale) -> i32
        ensures { result ≡ LinesAt.ascender_at self.now scale.now }
    {
        let ascender = metrics::ascender(self.os2, self.hhea);
        rounded(
            scale
                .up
                .stretched(upwards(self.measure(ASCENDER, ascender))),
        )
    }

    /// How far it reaches below at a size, downwards.
    #[tactic(auto, unfolding(crate::specs::LinesAt::descender_at))]
    fn descender_at(&self, scale: &Scale) -> i32
        ensures { result ≡ LinesAt.descender_at self.now scale.now }
    {
        let descender = metrics::descender(self.os2, self.hhea);
        rounded(
            scale
                .up
                .stretched(downwards(self.measure(DESCENDER, descender))),
        )
    }

    /// How far a line reaches above its baseline (OpenType, `OS/2` if bit 7 of its fsSelection is
    /// set, else `hhea`), at the coordinates by `MVAR`: never negative, as HarfBuzz takes it, unless
    /// the face has a size that is.
    pub fn ascender(&self) -> i32
        ensures { result ≡ LinesAt.sized_ascender self.now }
    {
        match &self.scale {
            Some(scale) => self.ascender_at(scale),
            None => self.ascent() as i32,
        }
    }

    /// How far a line reaches below its baseline, by the same tables: a number that is never
    /// positive, as HarfBuzz takes it, unless the face has a negative size.
    pub fn descender(&self) -> i32
        ensures { result ≡ LinesAt.sized_descender self.now }
    {
        match &self.scale {
            Some(scale) => self.descender_at(scale),
            None => -(self.descent() as i32),
        }
    }

    /// How high a line is, at the size of the face.
    pub(super) fn sized_height(&self) -> i32
        ensures { result ≡ LinesAt.sized_height self.now }
    {
        difference(self.ascender(), self.descender())
    }

    /// How far lines stand apart beside that at a size.
    #[tactic(auto, unfolding(crate::specs::LinesAt::gap_at))]
    fn gap_at(&self, scale: &Scale) -> i32
        ensures { result ≡ LinesAt.gap_at self.now scale.now }
    {
        let gap = metrics::line_gap(self.os2, self.hhea);
        rounded(scale.up.stretched(self.measure(LINE_GAP, gap)))
    }

    /// How far lines stand apart beside that in units of the font.
    #[tactic(auto, unfolding(crate::specs::LinesAt::gap_of))]
    fn own_gap(&self) -> i32
        ensures { result ≡ LinesAt.gap_of self.now }
    {
        let gap = metrics::line_gap(self.os2, self.hhea);
        if self.coordinates.is_empty() {
            return gap;
        }
        rounded(self.varied(LINE_GAP, gap))
    }

    /// How far lines stand apart beside that, by the same tables; a negative number moves them
    /// together.
    pub fn line_gap(&self) -> i32
        ensures { result ≡ LinesAt.sized_gap self.now }
    {
        match &self.scale {
            Some(scale) => self.gap_at(scale),
            None => self.own_gap(),
        }
    }
}
