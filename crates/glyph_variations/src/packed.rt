//! Packed deltas: by how much a tuple moves its points.
ghost use Rattle.std.specs.Prelude.{◌≡◌, ◌<◌, ◌≤◌, ◌+◌, ◌*◌, ◌^◌};
ghost use Rattle.glyph_variations.specs.Packed;
ghost use Rattle.glyph_variations.specs.Times.{times};

use font_bytes::bytes::{i8_at, i16_at, i32_at, u8_at};

/// Where the reading of deltas stands: how many of a run are left, how large they are, and the one
/// that was read last.
#[derive(Clone, Copy)]
pub(crate) struct PackedDeltas {
    pub at: usize,
    pub left: u8,
    pub kind: u8,
    pub value: i32,
}

/// How many bytes a delta of this kind has.
fn size_of(kind: u8) -> usize
    ensures value { result ≡ Packed.size_of kind }
    ensures small { result ≤ 4 }
{
    match kind {
        0 => 1,
        1 => 2,
        2 => 0,
        _ => 4,
    }
}

/// The delta of this kind at `at`.
fn value_at(bytes: &[u8], kind: u8, at: usize) -> i32
    requires { at < 2 ^ 40 }
    ensures { result ≡ Packed.value_at bytes.now kind at }
{
    match kind {
        0 => i8_at(bytes, at),
        1 => i16_at(bytes, at),
        2 => 0,
        _ => i32_at(bytes, at),
    }
}

impl PackedDeltas {
    /// No delta is read yet.
    pub(crate) fn begin(at: usize) -> PackedDeltas
        ensures { result ≡ Packed.begun at }
    {
        PackedDeltas {
            at,
            left: 0,
            kind: 0,
            value: 0,
        }
    }

    /// A run is begun, if the one before has ended.
    fn with_run(self, bytes: &[u8]) -> PackedDeltas
        requires { self.at < 2 ^ 39 }
        ensures value { result ≡ Packed.with_run bytes.now self }
        ensures some { 0 < result.left }
        ensures near { result.at ≤ self.at + 1 }
    {
        if self.left != 0 {
            return self;
        }
        let control = u8_at(bytes, self.at);
        PackedDeltas {
            at: self.at + 1,
            left: control % 64 + 1,
            kind: control / 64,
            value: self.value,
        }
    }

    /// The next delta of a run is read.
    fn with_value(self, bytes: &[u8]) -> PackedDeltas
        requires at { self.at < 2 ^ 40 }
        requires some { 0 < self.left }
        ensures value { result ≡ Packed.with_value bytes.now self }
        ensures near { result.at ≤ self.at + 4 }
    {
        PackedDeltas {
            at: self.at + size_of(self.kind),
            left: self.left - 1,
            kind: self.kind,
            value: value_at(bytes, self.kind, self.at),
        }
    }

    /// The next delta is read.
    pub(crate) fn next(self, bytes: &[u8]) -> PackedDeltas
        requires { self.at < 2 ^ 39 }
        ensures value { result ≡ Packed.next_delta bytes.now self }
        ensures near { result.at ≤ self.at + 5 }
    {
        self.with_run(bytes).with_value(bytes)
    }

    /// So many more of a run are read, at once.
    #[tactic(auto, using(crate::proofs::SkipLemmas::of_a_run, crate::proofs::SkipLemmas::run_fits))]
    fn skip(self, bytes: &[u8], count: u8) -> PackedDeltas
        requires at { self.at < 2 ^ 39 }
        requires some { 0 < count }
        requires few { count ≤ self.left }
        ensures value { result ≡ times (Packed.next_delta bytes.now) count self }
        ensures near { result.at ≤ self.at + 4 * count }
    {
        let size = size_of(self.kind);
        let last = self.at + size * (usize::from(count) - 1);
        PackedDeltas {
            at: last + size,
            left: self.left - count,
            kind: self.kind,
            value: value_at(bytes, self.kind, last),
        }
    }

    /// So many more are read, run by run.
    #[tactic(auto, using(crate::proofs::SkipLemmas::run_read))]
    pub(crate) fn after(self, bytes: &[u8], count: u32) -> PackedDeltas
        requires { self.at < 2 ^ 36 }
        ensures value { result ≡ times (Packed.next_delta bytes.now) count self }
        ensures near { result.at ≤ self.at + 5 * count }
    {
        let mut deltas = self;
        let mut to_go = count;
        while 0 < to_go {
            let run = deltas.with_run(bytes);
            let some = to_go.min(u32::from(run.left));
            deltas = run.skip(bytes, some as u8);
            to_go -= some;
        }
        deltas
    }
}
