//! Packed point numbers: which points of a glyph a tuple moves.
ghost use Rattle.std.specs.Prelude.{◌≡◌, ◌<◌, ◌≤◌, ◌+◌, ◌*◌, ◌^◌};
ghost use Rattle.glyph_variations.specs.Numbers;
ghost use Rattle.glyph_variations.specs.Sums;

use font_bytes::bytes::{u8_at, u16_at};

/// Where the reading of point numbers stands: how many of a run are left, whether they have two
/// bytes, and the number that was read last.
#[derive(Clone, Copy)]
pub(crate) struct PointNumbers {
    pub at: usize,
    pub left: u8,
    pub wide: bool,
    pub number: usize,
}

/// How many numbers stand at `at`; 0 stands for all points.
pub(crate) fn count(bytes: &[u8], at: usize) -> u16
    requires { at < 2 ^ 40 }
    ensures value { result ≡ Numbers.count_of bytes.now at }
    ensures few { result < 2 ^ 15 }
{
    let first = u8_at(bytes, at);
    if first < 128 {
        u16::from(first)
    } else {
        u16_at(bytes, at) - 32768
    }
}

/// Where the first run begins.
pub(crate) fn after_count(bytes: &[u8], at: usize) -> usize
    requires { at < 2 ^ 40 }
    ensures value { result ≡ Numbers.after_count bytes.now at }
    ensures near { result ≤ at + 2 }
{
    if u8_at(bytes, at) < 128 {
        at + 1
    } else {
        at + 2
    }
}

impl PointNumbers {
    /// No number is read yet.
    pub(crate) fn begin(at: usize) -> PointNumbers
        ensures { result ≡ Numbers.begun at }
    {
        PointNumbers {
            at,
            left: 0,
            wide: false,
            number: 0,
        }
    }

    /// A run is begun, if the one before has ended.
    fn with_run(self, bytes: &[u8]) -> PointNumbers
        requires { self.at < 2 ^ 40 }
        ensures value { result ≡ Numbers.with_run bytes.now self }
        ensures some { 0 < result.left }
        ensures near { result.at ≤ self.at + 1 }
        ensures same { result.number ≡ self.number }
    {
        if self.left != 0 {
            return self;
        }
        let control = u8_at(bytes, self.at);
        PointNumbers {
            at: self.at + 1,
            left: control % 128 + 1,
            wide: 128 <= control,
            number: self.number,
        }
    }

    /// The next number of a run is read.
    fn with_number(self, bytes: &[u8]) -> PointNumbers
        requires at { self.at < 2 ^ 41 }
        requires number { self.number < 2 ^ 40 }
        requires some { 0 < self.left }
        ensures value { result ≡ Numbers.with_number bytes.now self }
        ensures near { result.at ≤ self.at + 2 }
        ensures small { result.number < self.number + 2 ^ 16 }
    {
        let mut next = self;
        next.left -= 1;
        if self.wide {
            next.at += 2;
            next.number += usize::from(u16_at(bytes, self.at));
        } else {
            next.at += 1;
            next.number += usize::from(u8_at(bytes, self.at));
        }
        next
    }

    /// The next number is read.
    pub(crate) fn next(self, bytes: &[u8]) -> PointNumbers
        requires at { self.at < 2 ^ 40 }
        requires number { self.number < 2 ^ 40 }
        ensures value { result ≡ Numbers.next_number bytes.now self }
        ensures near { result.at ≤ self.at + 3 }
        ensures small { result.number < self.number + 2 ^ 16 }
    {
        self.with_run(bytes).with_number(bytes)
    }
}

/// How many bytes so many numbers of a run have.
fn run_size(wide: bool, count: u8) -> usize
    ensures value { result ≡ Numbers.size_of wide * count }
    ensures near { result ≤ 2 * count }
{
    if wide {
        2 * usize::from(count)
    } else {
        usize::from(count)
    }
}

/// Where the numbers end whose count stands at `at`: by whole runs, since only their lengths
/// matter.
#[tactic(auto, using(crate::proofs::RunLemmas::run_end))]
pub(crate) fn numbers_end(bytes: &[u8], at: usize) -> usize
    requires { at < 2 ^ 32 }
    ensures value { result ≡ Sums.numbers_end bytes.now at }
    ensures near { result ≤ at + 131072 }
{
    let mut end = after_count(bytes, at);
    let mut to_go = count(bytes, at);
    while 0 < to_go {
        let run = PointNumbers::begin(end).with_run(bytes);
        let some = to_go.min(u16::from(run.left));
        end = run.at + run_size(run.wide, some as u8);
        to_go -= some;
    }
    end
}
