//! Searches among records in order: by midpoints, as HarfBuzz searches, so that records out of
//! order are found or missed as there.
//!
//! The definition is the search's own, place by place, so a contract is exact for any bytes; that
//! among ranges in order it finds what a walk finds is a law. In `cmap` format 4 the end of a
//! segment decides before its start, in groups the start before the end.
ghost use Rattle.std.specs.Prelude.{◌≡◌, ℕ, ◌<◌, Option};
ghost use Rattle.std.specs.Option.{IfSome};
ghost use Rattle.std.specs.declared.cmp.Ordering.{Ordering};
ghost use Rattle.shape_font.specs.Search.{found_by, side_of, side_from_end};

use std::cmp::Ordering;

/// Whether a number stands before a range, in it or after it.
pub fn side(n: u32, start: u32, end: u32) -> Ordering
    ensures { result ≡ side_of n start end }
{
    if n < start {
        Ordering::Less
    } else if end < n {
        Ordering::Greater
    } else {
        Ordering::Equal
    }
}

/// The same, but the end decides first: after the end, whatever the start is.
pub fn side_by_end(n: u32, start: u32, end: u32) -> Ordering
    ensures { result ≡ side_from_end n start end }
{
    if end < n {
        Ordering::Greater
    } else if n < start {
        Ordering::Less
    } else {
        Ordering::Equal
    }
}

/// Of the first `count` places, the one that a search by midpoints comes to and finds equal. `side`
/// says of a place whether what is sought stands before it, at it or after it. Takes a step for
/// each bit of `count`.
pub fn found<F: Fn(u32) -> Ordering>(count: u32, side: F) -> Option<u32>
where
    F: Drop,
    requires { F.IsAlwaysCallable side }
    ensures { (says : ℕ → Ordering)
        → ((i : ℕ) (o : Ordering) → i < count → F.post side i o → o ≡ says i)
        → result ≡ found_by says count }
{
    found_within(count, side)
}

/// The same, but `side` is called at places below `count` alone, so it may rely on the list's
/// having room for them.
pub fn found_within<F: Fn(u32) -> Ordering>(count: u32, side: F) -> Option<u32>
where
    F: Drop,
    requires { (i : ℕ) → i < count → F.pre side i }
    ensures found { (says : ℕ → Ordering)
        → ((i : ℕ) (o : Ordering) → i < count → F.post side i o → o ≡ says i)
        → result ≡ found_by says count }
    ensures within { IfSome result (λ i. i < count) }
{
    let (mut start, mut end) = (0, count);
    while start < end {
        let middle = start + (end - start - 1) / 2;
        match side(middle) {
            Ordering::Less => end = middle,
            Ordering::Equal => return Some(middle),
            Ordering::Greater => start = middle + 1,
        }
    }
    None
}
