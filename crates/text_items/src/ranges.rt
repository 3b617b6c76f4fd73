//! Numbers that a caller gives to parts of a text, as those of its languages or lists of features.
ghost use Rattle.std.specs.Prelude.{◌≡◌, ℕ, ◌≤◌, drop, length};
ghost use Rattle.text_items.specs.Ranges.{number_at};

/// A part of a text with a number that its caller chose.
#[derive(Clone, Copy, Debug, PartialEq, Eq)]
pub struct NumberedRange {
    /// Where it begins, in bytes.
    pub start: usize,
    /// Where it ends, in bytes.
    pub end: usize,
    /// The number of its text.
    pub number: u32,
}

/// The place after the ranges that end at an offset or before it. They give no number to what
/// follows.
pub(crate) fn past_ended(ranges: &[NumberedRange], place: usize, offset: usize) -> usize
    ensures { (at : ℕ) → offset ≤ at
        → number_at (drop result ranges.now) at ≡ number_at (drop place ranges.now) at }
{
    let mut next = place;
    while next < ranges.len() && ranges[next].end <= offset {
        next += 1;
    }
    next
}

/// The number at an offset, by the ranges from a place on, of which the first ends after it.
pub(crate) fn number_by(ranges: &[NumberedRange], place: usize, offset: usize) -> u32
    ensures { result ≡ number_at (drop place ranges.now) offset }
{
    for i in place..ranges.len() {
        if offset < ranges[i].end {
            return if ranges[i].start <= offset {
                ranges[i].number
            } else {
                0
            };
        }
    }
    0
}
