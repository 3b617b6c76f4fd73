//! The driver of a state table over a list of glyphs.
//!
//! At each glyph the state and the class of the glyph lead to an entry, which says what is done
//! there, which state is next, and whether the next glyph is looked at then or the same one again.
//! What is done is the kind of subtable's, a [`Subtable`]. [`breaking`](crate::breaking) says where a
//! text may be broken.
ghost use Rattle.std.specs.Prelude.{◌≡◌, ◌<◌, ◌≤◌, ◌^◌, true, length, false, OnOk, IfOk, IsErrOf};
ghost use Rattle.apple_substitution.specs.Drives;
ghost use Rattle.apple_substitution.specs.Edits;
ghost use Rattle.apple_substitution.specs.Edits.{is_past};
ghost use Rattle.apple_substitution.specs.Ranges.{STEP_WORK};
ghost use Rattle.std.specs.Prelude.{if◌then◌else◌};
ghost use Rattle.shape_buffer.specs.declared.buffer.error.ShapeError.TheVariants.{Length};

use crate::breaking::mark;
use crate::edits;
use crate::edits::{charge, item, next_place};
use crate::ranges::{Ranges, STEP_WORK, walk_work};
use apple_tables::states::END_OF_TEXT;
use apple_tables::{Entry, StateTable};
use layout_buffer::GapBuffer;
use shape_buffer::ShapeError;

/// A state table, and the features of the text that have it on.
#[derive(Clone, Copy)]
pub struct Machine<'a> {
    /// The state table.
    pub states: StateTable<'a>,
    /// Where features have the subtable on.
    pub ranges: Ranges<'a>,
}

/// Where a driver stands.
#[derive(Clone, Copy)]
pub struct Walk {
    /// The place of the current glyph, the length of the list at the end of the text.
    pub at: usize,
    /// The state.
    pub state: u16,
    /// Whether features have the subtable on for the last glyph that was looked at.
    pub is_on: bool,
    /// Whether the walk is over.
    pub has_ended: bool,
}

/// A kind of subtable.
pub trait Subtable {
    ghost use Rattle.apple_substitution.specs.Driver.{Actions};

    /// What it remembers from glyph to glyph.
    type Memory: Drop;

    /// What its entries do.
    ghost actions: { Self → Actions Self.Memory };

    /// Whether an entry does anything, at the end of the text or before it.
    fn is_actionable(&self, ends: bool, memory: &Self::Memory, entry: &Entry) -> bool
        requires { entry.now.at < 2 ^ 37 }
        ensures { result ≡ (actions self.now).is_actionable ends memory.now entry.now };

    /// Does what an entry says at a place, and returns the place where the walk stands then.
    /// Refuses with `Length` if the list passes the limit of the run, and with `Memory` if a growth
    /// was refused.
    fn transition(
        &self,
        buffer: &mut GapBuffer,
        at: usize,
        memory: &mut Self::Memory,
        entry: &Entry,
    ) -> Result<usize, ShapeError>
        requires { entry.now.at < 2 ^ 37 }
        ensures ok { IfOk result (λ next.
            record { buffer = buffer.new; at = next; memory = memory.new }
            ≡ (actions self.now).transition entry.now
            (record { buffer = buffer.old; at = at; memory = memory.old })) }
        ensures length { IsErrOf result Length
            → is_past ((actions self.now).transition entry.now
            (record { buffer = buffer.old; at = at; memory = memory.old })).buffer ≡ true };
}

/// What a walk meets where it stands.
#[derive(Clone, Copy)]
pub struct Met {
    /// Whether it is the end of the text.
    pub ends: bool,
    /// The state.
    pub state: u16,
    /// The class of the glyph, or of the end of the text.
    pub class: u32,
    /// The entry for that class in that state.
    pub entry: Entry,
}

/// The class of the current glyph, or of the end of the text.
fn class_at(machine: &Machine<'_>, buffer: &GapBuffer, at: usize) -> u32
    requires { machine.now.states.start < 2 ^ 35 }
    ensures { result ≡ Drives.class_at (Drives.rules_of machine.now) at buffer.now }
{
    if buffer.len() <= at {
        return END_OF_TEXT;
    }
    machine.states.class(item(buffer, at).glyph_id)
}

/// What a walk meets where it stands.
fn met_at(machine: &Machine<'_>, walk: Walk, buffer: &GapBuffer) -> Met
    requires start { machine.now.states.start < 2 ^ 35 }
    requires size { machine.now.states.entry_size ≤ 8 }
    ensures value { result ≡ Drives.met_at (Drives.rules_of machine.now) walk buffer.now }
    ensures near { result.entry.at < 2 ^ 37 }
    ensures next { result.entry.next < 2 ^ 16 }
{
    let class = class_at(machine, buffer, walk.at);
    Met {
        ends: buffer.len() <= walk.at,
        state: walk.state,
        class,
        entry: machine.states.entry(u32::from(walk.state), class),
    }
}

/// Whether an entry has the same glyph looked at again.
pub(crate) fn stays(entry: &Entry) -> bool
    ensures { result ≡ Drives.stays entry.now }
{
    entry.flags & 0x4000 != 0
}

/// Whether the same glyph is looked at again: if an entry says so, and if what is left suffices for
/// that.
fn looks_again(entry: &Entry, walk: Walk, buffer: &GapBuffer) -> bool
    ensures { result ≡ Drives.looks_again entry.now walk buffer.now }
{
    walk.at < buffer.len() && stays(entry) && STEP_WORK <= buffer.max_ops()
}

/// The walk after a transition. The end of the text ends it.
fn advance(entry: &Entry, buffer: &mut GapBuffer, walk: Walk) -> Walk
    ensures walk { result ≡ Drives.advanced_walk entry.now walk buffer.old }
    ensures charged { buffer.new ≡ (if Drives.looks_again entry.now walk buffer.old
        then Edits.charged STEP_WORK buffer.old else buffer.old) }
{
    let mut walk = walk;
    let count = buffer.len();
    if count <= walk.at {
        walk.has_ended = true;
    } else if looks_again(entry, walk, buffer) {
        charge(buffer, STEP_WORK);
    } else {
        walk.at = next_place(count, walk.at);
    }
    walk
}

/// Does what the entry says at a glyph, and goes on to the next one, or to the same one again.
#[tactic(auto, unfolding(crate::specs::Drives::entered), using(crate::proofs::DriverLemmas::past_advanced))]
fn enter<S: Subtable>(
    machine: &Machine<'_>,
    subtable: &S,
    buffer: &mut GapBuffer,
    memory: &mut S::Memory,
    walk: Walk,
) -> Result<Walk, ShapeError>
    requires start { machine.now.states.start < 2 ^ 35 }
    requires size { machine.now.states.entry_size ≤ 8 }
    ensures ok { IfOk result (λ next.
        record { buffer = buffer.new; memory = memory.new; walk = next }
        ≡ Drives.entered (Drives.rules_of machine.now) (S.actions subtable.now)
        (record { buffer = buffer.old; memory = memory.old; walk = walk })) }
    ensures length { IsErrOf result Length → is_past (Drives.entered (Drives.rules_of machine.now)
        (S.actions subtable.now)
        (record { buffer = buffer.old; memory = memory.old; walk = walk })).buffer ≡ true }
{
    let met = met_at(machine, walk, buffer);
    mark(machine, subtable, memory, walk.at, &met, buffer);
    match subtable.transition(buffer, walk.at, memory, &met.entry) {
        Err(error) => Err(error),
        Ok(at) => {
            let mut next = walk;
            next.at = at;
            next.state = met.entry.next as u16;
            Ok(advance(&met.entry, buffer, next))
        }
    }
}

/// Passes a glyph for which features don't have the subtable on: the next one is as at the start of
/// a text.
fn pass(buffer: &GapBuffer, walk: Walk) -> Walk
    ensures { result ≡ Drives.passed walk buffer.now }
{
    let mut walk = walk;
    let count = buffer.len();
    if count <= walk.at {
        walk.has_ended = true;
    } else {
        walk.at = next_place(count, walk.at);
        walk.state = 0;
    }
    walk
}

/// The walk with what the features say of the glyph. At the end of the text those of the last glyph
/// count.
fn look(machine: &Machine<'_>, buffer: &GapBuffer, walk: Walk) -> Walk
    ensures { result ≡ Drives.looked_at (Drives.rules_of machine.now) walk buffer.now }
{
    let mut walk = walk;
    if walk.at < buffer.len() {
        walk.is_on = machine.ranges.is_on(item(buffer, walk.at).cluster);
    }
    walk
}

/// Enters a glyph for which features have the subtable on, or passes it.
#[tactic(auto, unfolding(crate::specs::Drives::gone_on))]
fn go_on<S: Subtable>(
    machine: &Machine<'_>,
    subtable: &S,
    buffer: &mut GapBuffer,
    memory: &mut S::Memory,
    walk: Walk,
) -> Result<Walk, ShapeError>
    requires start { machine.now.states.start < 2 ^ 35 }
    requires size { machine.now.states.entry_size ≤ 8 }
    ensures ok { IfOk result (λ next.
        record { buffer = buffer.new; memory = memory.new; walk = next }
        ≡ Drives.gone_on (Drives.rules_of machine.now) (S.actions subtable.now)
        (record { buffer = buffer.old; memory = memory.old; walk = walk })) }
    ensures length { IsErrOf result Length → is_past (Drives.gone_on (Drives.rules_of machine.now)
        (S.actions subtable.now)
        (record { buffer = buffer.old; memory = memory.old; walk = walk })).buffer ≡ true }
{
    if walk.is_on {
        return enter(machine, subtable, buffer, memory, walk);
    }
    Ok(pass(buffer, walk))
}

/// A step of the walk. Past the limit of the run nothing is done any more.
#[tactic(auto, unfolding(crate::specs::Drives::step))]
fn step<S: Subtable>(
    machine: &Machine<'_>,
    subtable: &S,
    buffer: &mut GapBuffer,
    memory: &mut S::Memory,
    walk: Walk,
) -> Result<Walk, ShapeError>
    requires start { machine.now.states.start < 2 ^ 35 }
    requires size { machine.now.states.entry_size ≤ 8 }
    ensures ok { IfOk result (λ next.
        record { buffer = buffer.new; memory = memory.new; walk = next }
        ≡ Drives.step (Drives.rules_of machine.now) (S.actions subtable.now)
        (record { buffer = buffer.old; memory = memory.old; walk = walk })) }
    ensures length { IsErrOf result Length → is_past (Drives.step (Drives.rules_of machine.now)
        (S.actions subtable.now)
        (record { buffer = buffer.old; memory = memory.old; walk = walk })).buffer ≡ true }
{
    if walk.has_ended || edits::is_past(buffer) {
        return Ok(walk);
    }
    go_on(
        machine,
        subtable,
        buffer,
        memory,
        look(machine, buffer, walk),
    )
}

/// The most steps of a walk over a list.
fn most_steps(buffer: &GapBuffer) -> usize
    ensures { result ≡ Drives.most_steps buffer.now }
{
    buffer
        .len()
        .saturating_add(buffer.max_ops())
        .saturating_add(1)
}

/// Goes over a list.
#[tactic(auto, using(crate::proofs::DriverLemmas::drive_next, crate::proofs::DriverLemmas::all_ended, crate::proofs::DriverLemmas::all_made, crate::proofs::DriverLemmas::all_past))]
fn walk_on<S: Subtable>(
    machine: &Machine<'_>,
    subtable: &S,
    buffer: &mut GapBuffer,
    memory: S::Memory,
) -> Result<(), ShapeError>
    requires start { machine.now.states.start < 2 ^ 35 }
    requires size { machine.now.states.entry_size ≤ 8 }
    ensures ok { OnOk result (buffer.new
        ≡ Drives.walked (Drives.rules_of machine.now) (S.actions subtable.now) memory buffer.old) }
    ensures length { IsErrOf result Length → is_past
        (Drives.walked (Drives.rules_of machine.now) (S.actions subtable.now) memory buffer.old) ≡ true }
{
    let most = most_steps(buffer);
    let mut remembered = memory;
    let mut walk = Walk {
        at: 0,
        state: 0,
        is_on: true,
        has_ended: false,
    };
    for _i in 0..most {
        if walk.has_ended {
            return Ok(());
        }
        match step(machine, subtable, buffer, &mut remembered, walk) {
            Err(error) => return Err(error),
            Ok(next) => walk = next,
        }
    }
    Ok(())
}

/// Drives a state table over a list from its first glyph on, and does what its entries say. Takes
/// of the buffer's `max_ops` what a walk costs; if less is left, nothing is done, and nothing is
/// left. Refuses with `Length` if the list passes the limit of the run, and with `Memory` if a
/// growth was refused.
pub fn drive<S: Subtable>(
    machine: &Machine<'_>,
    subtable: &S,
    buffer: &mut GapBuffer,
    memory: S::Memory,
) -> Result<(), ShapeError>
    requires start { machine.now.states.start < 2 ^ 35 }
    requires size { machine.now.states.entry_size ≤ 8 }
    ensures ok { OnOk result (buffer.new
        ≡ Drives.driven machine.now (S.actions subtable.now) memory buffer.old) }
    ensures length { IsErrOf result Length → is_past
        (Drives.driven machine.now (S.actions subtable.now) memory buffer.old) ≡ true }
{
    let work = walk_work(&machine.ranges, buffer.len());
    let left = buffer.max_ops();
    buffer.set_max_ops(left.saturating_sub(work));
    if left < work {
        return Ok(());
    }
    walk_on(machine, subtable, buffer, memory)
}
