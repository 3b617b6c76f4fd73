//! Subtables of a chain: over which text one runs, and what it does by its kind.
ghost use Rattle.std.specs.Prelude.{◌≡◌, ◌<◌, ◌≤◌, ◌+◌, ◌^◌, true, OnOk, IsErrOf};
ghost use Rattle.apple_substitution.specs.Drives;
ghost use Rattle.apple_substitution.specs.Edits.{is_past};
ghost use Rattle.apple_substitution.specs.Subtables;
ghost use Rattle.apple_substitution.specs.Subtables.{source_of};
ghost use Rattle.shape_buffer.specs.declared.buffer.error.ShapeError.TheVariants.{Length};

use crate::chains::{covers, is_reversed};
use crate::contextual::{Contextual, Mark};
use crate::driver::{Machine, Subtable, drive};
use crate::glyphs::Tables;
use crate::insertion::Insertion;
use crate::ligature::{Ligature, Stack};
use crate::noncontextual::{Noncontextual, substitute_all};
use crate::ranges::{FlagRange, Ranges};
use crate::rearrangement::{Marks, Rearrangement};
use apple_tables::StateTable;
use layout_buffer::GapBuffer;
use shape_buffer::{Direction, ShapeError, hb_buffer_t};
use shape_font::bytes::u32_at;
use std::alloc::Global;

/// How many bytes the header of a subtable has.
pub(crate) const HEADER: u32 = 12;

/// A chain as its subtables see it.
#[derive(Clone, Copy)]
pub struct Chain<'a> {
    /// What they read of the font.
    pub tables: Tables<'a>,
    /// The flags of the chain in ranges of the text, as [`Ranges`] has them.
    pub ranges: &'a [FlagRange],
}

/// How a subtable runs, and its kind in the lower byte.
fn coverage_of(morx: &[u8], at: u32) -> u32
    ensures { result ≡ Subtables.coverage_of morx.now at }
{
    u32_at(morx, at as usize + 4)
}

/// The flags that have a subtable on.
fn wanted_of(morx: &[u8], at: u32) -> u32
    ensures { result ≡ Subtables.wanted_of morx.now at }
{
    u32_at(morx, at as usize + 8)
}

/// Whether some range has a flag on that has a subtable on.
fn is_wanted(ranges: &[FlagRange], wanted: u32) -> bool
    ensures { result ≡ Subtables.is_wanted ranges.now wanted }
{
    ranges.iter().any(|range| range.flags & wanted != 0)
}

/// Whether a subtable runs over text of a direction.
fn runs(chain: &Chain<'_>, at: u32, direction: Direction) -> bool
    ensures { result ≡ Subtables.runs (source_of chain.now) at direction }
{
    is_wanted(chain.ranges, wanted_of(chain.tables.morx, at))
        && covers(coverage_of(chain.tables.morx, at), direction)
}

/// Where features have a subtable on.
fn ranges_at<'a>(chain: &Chain<'a>, at: u32) -> Ranges<'a>
    ensures { result ≡ Subtables.ranges_at chain.now at }
{
    Ranges {
        list: chain.ranges,
        wanted: wanted_of(chain.tables.morx, at),
    }
}

/// The state table of a subtable whose entries have so many bytes.
fn machine_at<'a>(chain: &Chain<'a>, at: u32, entry_size: usize) -> Machine<'a>
    ensures { result ≡ Subtables.machine_at chain.now at entry_size }
{
    Machine {
        states: StateTable {
            table: chain.tables.morx,
            start: at as usize + HEADER as usize,
            entry_size,
            glyphs: chain.tables.glyphs,
        },
        ranges: ranges_at(chain, at),
    }
}

/// Drives a state table over a buffer, whose items are taken over and given back.
fn drive_over<S: Subtable>(
    alloc: Global,
    machine: &Machine<'_>,
    subtable: &S,
    memory: S::Memory,
    buffer: &mut hb_buffer_t,
) -> Result<(), ShapeError>
    requires start { machine.now.states.start < 2 ^ 35 }
    requires size { machine.now.states.entry_size ≤ 8 }
    ensures ok { OnOk result (buffer.new
        ≡ Drives.driven machine.now (S.actions subtable.now) memory buffer.old) }
    ensures length { IsErrOf result Length → is_past
        (Drives.driven machine.now (S.actions subtable.now) memory buffer.old) ≡ true }
{
    let mut walk = GapBuffer::open(alloc, buffer);
    if let Err(error) = drive(machine, subtable, &mut walk, memory) {
        *buffer = walk.abandon();
        return Err(error);
    }
    let (edited, outcome) = walk.close();
    *buffer = edited;
    outcome
}

/// Runs a rearrangement subtable.
fn rearrange(
    alloc: Global,
    chain: &Chain<'_>,
    at: u32,
    buffer: &mut hb_buffer_t,
) -> Result<(), ShapeError>
    ensures ok { OnOk result (buffer.new ≡ Subtables.rearranged (source_of chain.now) at buffer.old) }
    ensures length { IsErrOf result Length
        → is_past (Subtables.rearranged (source_of chain.now) at buffer.old) ≡ true }
{
    let none = Marks { first: 0, end: 0 };
    let machine = machine_at(chain, at, 4);
    drive_over(alloc, &machine, &Rearrangement { alloc }, none, buffer)
}

/// Runs a contextual subtable.
fn substitute_in_context(
    alloc: Global,
    chain: &Chain<'_>,
    at: u32,
    buffer: &mut hb_buffer_t,
) -> Result<(), ShapeError>
    requires { at + 12 < 2 ^ 32 }
    ensures ok { OnOk result (buffer.new
        ≡ Subtables.substituted_in_context (source_of chain.now) at buffer.old) }
    ensures length { IsErrOf result Length
        → is_past (Subtables.substituted_in_context (source_of chain.now) at buffer.old) ≡ true }
{
    let subtable = Contextual {
        tables: chain.tables,
        start: at + HEADER,
    };
    let none = Mark {
        place: 0,
        is_set: false,
    };
    drive_over(alloc, &machine_at(chain, at, 8), &subtable, none, buffer)
}

/// Runs a ligature subtable.
fn join(
    alloc: Global,
    chain: &Chain<'_>,
    at: u32,
    buffer: &mut hb_buffer_t,
) -> Result<(), ShapeError>
    requires { at + 12 < 2 ^ 32 }
    ensures ok { OnOk result (buffer.new ≡ Subtables.joined (source_of chain.now) at buffer.old) }
    ensures length { IsErrOf result Length
        → is_past (Subtables.joined (source_of chain.now) at buffer.old) ≡ true }
{
    let subtable = Ligature {
        morx: chain.tables.morx,
        start: at + HEADER,
    };
    let machine = machine_at(chain, at, 6);
    drive_over(alloc, &machine, &subtable, Stack::new(), buffer)
}

/// Runs a noncontextual subtable.
fn substitute(chain: &Chain<'_>, at: u32, buffer: &mut hb_buffer_t)
    requires { at + 12 < 2 ^ 32 }
    ensures { buffer.new ≡ Subtables.substituted (source_of chain.now) at buffer.old }
{
    let subtable = Noncontextual {
        tables: chain.tables,
        start: at + HEADER,
        ranges: ranges_at(chain, at),
    };
    substitute_all(&subtable, buffer);
}

/// Runs an insertion subtable.
fn insert(
    alloc: Global,
    chain: &Chain<'_>,
    at: u32,
    buffer: &mut hb_buffer_t,
) -> Result<(), ShapeError>
    requires { at + 12 < 2 ^ 32 }
    ensures ok { OnOk result (buffer.new ≡ Subtables.inserted (source_of chain.now) at buffer.old) }
    ensures length { IsErrOf result Length
        → is_past (Subtables.inserted (source_of chain.now) at buffer.old) ≡ true }
{
    let subtable = Insertion {
        morx: chain.tables.morx,
        start: at + HEADER,
    };
    drive_over(alloc, &machine_at(chain, at, 8), &subtable, 0, buffer)
}

/// Does what a subtable of its kind does.
#[tactic(auto, unfolding(crate::specs::Subtables::acted))]
fn act(
    alloc: Global,
    chain: &Chain<'_>,
    at: u32,
    buffer: &mut hb_buffer_t,
) -> Result<(), ShapeError>
    requires { at + 12 < 2 ^ 32 }
    ensures ok { OnOk result (buffer.new ≡ Subtables.acted (source_of chain.now) at buffer.old) }
    ensures length { IsErrOf result Length
        → is_past (Subtables.acted (source_of chain.now) at buffer.old) ≡ true }
{
    match coverage_of(chain.tables.morx, at) % 256 {
        0 => rearrange(alloc, chain, at, buffer),
        1 => substitute_in_context(alloc, chain, at, buffer),
        2 => join(alloc, chain, at, buffer),
        4 => {
            substitute(chain, at, buffer);
            Ok(())
        }
        5 => insert(alloc, chain, at, buffer),
        _ => Ok(()),
    }
}

/// Does it over the list the other way round.
#[tactic(auto, using(crate::proofs::SubtableLemmas::past_reversed))]
fn act_reversed(
    alloc: Global,
    chain: &Chain<'_>,
    at: u32,
    buffer: &mut hb_buffer_t,
) -> Result<(), ShapeError>
    requires { at + 12 < 2 ^ 32 }
    ensures ok { OnOk result (buffer.new
        ≡ Subtables.reversed (Subtables.acted (source_of chain.now) at (Subtables.reversed buffer.old))) }
    ensures length { IsErrOf result Length → is_past
        (Subtables.reversed (Subtables.acted (source_of chain.now) at (Subtables.reversed buffer.old))) ≡ true }
{
    buffer.reverse();
    match act(alloc, chain, at, buffer) {
        Err(error) => Err(error),
        Ok(()) => {
            buffer.reverse();
            Ok(())
        }
    }
}

/// Does it over the list in the order that the coverage says.
#[tactic(auto, unfolding(crate::specs::Subtables::acted_in_order))]
fn act_in_order(
    alloc: Global,
    chain: &Chain<'_>,
    at: u32,
    buffer: &mut hb_buffer_t,
) -> Result<(), ShapeError>
    requires { at + 12 < 2 ^ 32 }
    ensures ok { OnOk result (buffer.new ≡ Subtables.acted_in_order (source_of chain.now) at buffer.old) }
    ensures length { IsErrOf result Length
        → is_past (Subtables.acted_in_order (source_of chain.now) at buffer.old) ≡ true }
{
    if is_reversed(coverage_of(chain.tables.morx, at), buffer.direction()) {
        return act_reversed(alloc, chain, at, buffer);
    }
    act(alloc, chain, at, buffer)
}

/// Runs the subtable whose header begins at `at`, if the flags of the chain have it on in some
/// range, and if it covers text of the buffer's direction. Takes of the buffer's `max_ops` what its
/// walk costs; if less is left, nothing is done, and nothing is left. Refuses with `Length` if the
/// list passes the limit of the run, and with `Memory` if a growth was refused. After a refusal the
/// buffer has lost its items.
#[tactic(auto, unfolding(crate::specs::Subtables::ran))]
pub fn run_subtable(
    alloc: Global,
    chain: &Chain<'_>,
    at: u32,
    buffer: &mut hb_buffer_t,
) -> Result<(), ShapeError>
    requires { at + 12 < 2 ^ 32 }
    ensures ok { OnOk result (buffer.new ≡ Subtables.ran (source_of chain.now) at buffer.old) }
    ensures length { IsErrOf result Length
        → is_past (Subtables.ran (source_of chain.now) at buffer.old) ≡ true }
{
    if !runs(chain, at, buffer.direction()) {
        return Ok(());
    }
    act_in_order(alloc, chain, at, buffer)
}
