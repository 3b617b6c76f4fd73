//! Reads a text syllable by syllable, in time that grows with the text alone.
//!
//! A scan may read far beyond the syllable that it finds: joiners, say, before a vowel that never
//! comes. The next one would read them again, and so on from each of them. So where a scan went
//! through many places in one state, and found nothing behind them, these places and the state are
//! remembered: a later scan that gets there in this state is over.
ghost use Rattle.std.specs.Prelude.{◌≡◌};
ghost use Rattle.syllables.specs.Reading;

use crate::scanner::{Machine, NONE, Syllable, better, kind_at, next_state};

/// Places from one up to another one, and a state.
#[derive(Clone, Copy, Debug)]
pub struct Stretch {
    pub state: u16,
    pub from: usize,
    pub to: usize,
}

/// A scan for the syllable that begins at a place.
#[derive(Clone, Copy, Debug)]
pub struct Scan {
    /// The state after what has been read.
    pub state: u16,
    /// The place where it began.
    pub start: usize,
    /// What has been found so far.
    pub found: Syllable,
    /// The places since the last find, or some of them, at which it was in one state.
    pub stretch: Stretch,
    /// Nothing more can be found.
    pub over: bool,
}

/// No places.
pub fn nowhere() -> Stretch
    ensures { result ≡ Reading.nowhere }
{
    Stretch {
        state: 0,
        from: 1,
        to: 0,
    }
}

/// One place.
fn only(state: u16, place: usize) -> Stretch
    ensures { result ≡ Reading.only state place }
{
    Stretch {
        state,
        from: place,
        to: place,
    }
}

/// Whether a place is one of these, in the same state.
fn is_at(stretch: Stretch, state: u16, place: usize) -> bool
    ensures { result ≡ Reading.is_at stretch state place }
{
    state == stretch.state && stretch.from <= place && place <= stretch.to
}

/// The stretch once nothing was found at a place, which is taken in if the state is the same still.
/// If none has been is yet longer than one place, it begins anew.
fn followed(stretch: Stretch, state: u16, place: usize) -> Stretch
    ensures { result ≡ Reading.followed stretch state place }
{
    if stretch.state == state && stretch.to == place.saturating_sub(1) {
        return Stretch {
            state,
            from: stretch.from,
            to: place,
        };
    }
    if stretch.from < stretch.to {
        stretch
    } else {
        only(state, place)
    }
}

/// The stretch at a place with what has been read of this kind.
fn stretch_at(stretch: Stretch, state: u16, place: usize, kind: u8) -> Stretch
    ensures { result ≡ Reading.stretch_at stretch state place kind }
{
    if kind == NONE {
        followed(stretch, state, place)
    } else {
        only(state, place)
    }
}

/// A scan that begins at a place.
pub fn begin(machine: Machine<'_>, place: usize) -> Scan
    ensures { result ≡ Reading.begun machine.entry place }
{
    Scan {
        state: 1,
        start: place,
        found: Syllable {
            kind: machine.other,
            count: 1,
        },
        stretch: only(1, place),
        over: false,
    }
}

/// The scan once it has read one character more, up to a place. It is over where reading on was in
/// vain before.
pub fn read(machine: Machine<'_>, vain: Stretch, scan: Scan, category: u8, place: usize) -> Scan
    ensures { result ≡ Reading.read_one machine.entry vain scan category place }
{
    let state = next_state(machine, scan.state, category);
    if state == 0 {
        return Scan { over: true, ..scan };
    }
    let kind = kind_at(machine, state);
    Scan {
        state,
        start: scan.start,
        found: better(kind, place.saturating_sub(scan.start), scan.found),
        stretch: stretch_at(scan.stretch, state, place, kind),
        over: is_at(vain, state, place),
    }
}

/// What is to be remembered after a scan: its own stretch if that is longer than one place, and
/// else what was before.
pub fn remembered(scan: Scan, before: Stretch) -> Stretch
    ensures { result ≡ Reading.remembered scan before }
{
    if scan.stretch.from < scan.stretch.to {
        scan.stretch
    } else {
        before
    }
}
