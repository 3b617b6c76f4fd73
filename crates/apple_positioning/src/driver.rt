//! The driver of a state table over a run: formats 1 and 4 of `kerx`, and 1 of `kern`.
//!
//! At each glyph the state and the class of the glyph lead to an entry, which says what is done
//! there, which state is next, and whether the next glyph is looked at then or the same one again.
//! What is done is the kind of subtable's, a [`Machine`]. No glyph comes or goes.
ghost use Rattle.std.specs.Prelude.{◌≡◌, ◌<◌, ◌^◌, false, length};
ghost use Rattle.apple_positioning.specs.Driver as driver_rules;
ghost use Rattle.apple_positioning.specs.Runs.{source_of};
ghost use Rattle.shape_items.specs.Buffer.{limit_of};

use crate::chains::bit_of;
use crate::runs::{Kerning, next_place};
use apple_tables::Entry;
use apple_tables::states::END_OF_TEXT;
use shape_buffer::buffer::hb_buffer_t;

/// What a look at a glyph costs: its class is searched for, and entries are read.
const STEP_WORK: usize = 16;

/// Where a driver stands.
#[derive(Clone, Copy)]
pub(crate) struct Walk {
    /// The place of the current glyph, the length of the list at the end of the text.
    pub(crate) at: usize,
    /// The state.
    pub(crate) state: u32,
    /// Whether the walk is over.
    pub(crate) has_ended: bool,
}

/// What a walk meets where it stands.
#[derive(Clone, Copy)]
pub(crate) struct Met {
    /// Whether it is the end of the text.
    pub(crate) ends: bool,
    /// The state.
    pub(crate) state: u32,
    /// The class of the glyph, or of the end of the text.
    pub(crate) class: u32,
    /// The entry for that class in that state.
    pub(crate) entry: Entry,
}

/// A kind of subtable with a state table.
pub(crate) trait Machine {
    ghost use Rattle.apple_positioning.specs.Deeds.{Deeds};

    /// What it remembers from glyph to glyph.
    type Memory: Drop;

    /// What its entries do.
    ghost deeds: { Self → Deeds Self.Memory };

    /// Does what an entry says at a place.
    fn transition(
        &self,
        buffer: &mut hb_buffer_t,
        at: usize,
        memory: &mut Self::Memory,
        entry: &Entry,
    )
        requires { entry.now.at < 2 ^ 37 }
        ensures made { record { buffer = buffer.new; memory = memory.new }
            ≡ (deeds self.now).transition entry.now at
            (record { buffer = buffer.old; memory = memory.old }) }
        ensures len { length buffer.new.items ≡ length buffer.old.items }
        ensures limit { limit_of buffer.new ≡ limit_of buffer.old };
}

/// The class of a glyph.
#[tactic(auto, unfolding(crate::specs::Driver::class_for))]
fn class_for(kerning: &Kerning<'_>, glyph: u32) -> u32
    ensures { result ≡ driver_rules.class_for (source_of kerning.now) glyph }
{
    kerning.subtable.class_for(glyph)
}

/// The class of the current glyph, or of the end of the text.
fn class_at(kerning: &Kerning<'_>, at: usize, buffer: &hb_buffer_t) -> u32
    ensures { result ≡ driver_rules.class_at (source_of kerning.now) at buffer.now }
{
    if buffer.len() <= at {
        return END_OF_TEXT;
    }
    class_for(kerning, buffer.infos()[at].glyph_id)
}

/// The entry for a class in a state.
#[tactic(auto, unfolding(crate::specs::Driver::entry_for))]
fn entry_for(kerning: &Kerning<'_>, state: u32, class: u32) -> Entry
    requires { state < 2 ^ 16 }
    ensures value { result ≡ driver_rules.entry_for (source_of kerning.now) state class }
    ensures next { result.next < 2 ^ 16 }
    ensures near { result.at < 2 ^ 37 }
{
    kerning.subtable.entry_for(state, class)
}

/// The state in which a text begins.
#[tactic(auto, unfolding(crate::specs::Driver::first_state))]
fn first_state(kerning: &Kerning<'_>) -> u32
    ensures value { result ≡ driver_rules.first_state (source_of kerning.now) }
    ensures few { result < 2 ^ 16 }
{
    kerning.subtable.first_state()
}

/// What a walk meets where it stands.
#[tactic(auto, unfolding(crate::specs::Driver::met_at))]
fn met_at(kerning: &Kerning<'_>, walk: Walk, buffer: &hb_buffer_t) -> Met
    requires { walk.state < 2 ^ 16 }
    ensures value { result ≡ driver_rules.met_at (source_of kerning.now) walk buffer.now }
    ensures inside { result.ends ≡ false → walk.at < length buffer.now.items }
    ensures state { result.state < 2 ^ 16 }
    ensures next { result.entry.next < 2 ^ 16 }
    ensures near { result.entry.at < 2 ^ 37 }
{
    let class = class_at(kerning, walk.at, buffer);
    Met {
        ends: buffer.len() <= walk.at,
        state: walk.state,
        class,
        entry: entry_for(kerning, walk.state, class),
    }
}

/// Whether an entry does something.
fn is_actionable(kerning: &Kerning<'_>, entry: &Entry) -> bool
    requires { entry.now.at < 2 ^ 37 }
    ensures { result ≡ driver_rules.is_actionable (source_of kerning.now) entry.now }
{
    kerning.subtable.action_index(entry).is_some()
}

/// Whether an entry has the same glyph looked at again.
fn stays(entry: &Entry) -> bool
    ensures { result ≡ driver_rules.stays entry.now }
{
    bit_of(entry.flags, 0x4000)
}

/// Whether two entries lead to the same state and to the same glyph.
fn leads_alike(one: &Entry, other: &Entry) -> bool
    ensures { result ≡ driver_rules.leads_alike one.now other.now }
{
    if one.next != other.next {
        return false;
    }
    if stays(one) {
        stays(other)
    } else {
        !stays(other)
    }
}

/// Whether a text that begins with the glyph does nothing there, and leads to the same.
fn is_as_first(kerning: &Kerning<'_>, met: &Met) -> bool
    ensures { result ≡ driver_rules.is_as_first (source_of kerning.now) met.now }
{
    let first = entry_for(kerning, first_state(kerning), met.class);
    !is_actionable(kerning, &first) && leads_alike(&met.entry, &first)
}

/// Whether the text before a glyph doesn't count.
fn is_apart(kerning: &Kerning<'_>, met: &Met) -> bool
    ensures { result ≡ driver_rules.is_apart (source_of kerning.now) met.now }
{
    let first = first_state(kerning);
    met.state == first || stays(&met.entry) && met.entry.next == first || is_as_first(kerning, met)
}

/// Whether a break before the glyph changes nothing: nothing is done at the glyph, the text before
/// it doesn't count, and nothing would be done at the end of a text there. See
/// <https://github.com/harfbuzz/harfbuzz/issues/2860>.
fn is_safe_to_break(kerning: &Kerning<'_>, met: &Met) -> bool
    requires state { met.now.state < 2 ^ 16 }
    requires near { met.now.entry.at < 2 ^ 37 }
    ensures { result ≡ driver_rules.is_safe_to_break (source_of kerning.now) met.now }
{
    if is_actionable(kerning, &met.entry) {
        return false;
    }
    let last = entry_for(kerning, met.state, END_OF_TEXT);
    is_apart(kerning, met) && !is_actionable(kerning, &last)
}

/// Marks a glyph and the one before it unsafe to break, if a break between them changes something.
#[tactic(auto, unfolding(crate::specs::Driver::marked), using(crate::proofs::DriverLemmas::length_marked, crate::proofs::DriverLemmas::limit_marked))]
fn mark(kerning: &Kerning<'_>, at: usize, met: &Met, buffer: &mut hb_buffer_t)
    requires state { met.now.state < 2 ^ 16 }
    requires near { met.now.entry.at < 2 ^ 37 }
    requires inside { met.now.ends ≡ false → at < length buffer.old.items }
    ensures made { buffer.new ≡ driver_rules.marked (source_of kerning.now) at met.now buffer.old }
    ensures len { length buffer.new.items ≡ length buffer.old.items }
    ensures limit { limit_of buffer.new ≡ limit_of buffer.old }
{
    if at == 0 || met.ends || is_safe_to_break(kerning, met) {
        return;
    }
    let end = next_place(buffer.len(), at);
    buffer.unsafe_to_break(at - 1, end);
}

/// Whether the same glyph is looked at again: if an entry says so, and if what is left suffices for
/// that.
fn looks_again(entry: &Entry, at: usize, buffer: &hb_buffer_t) -> bool
    ensures { result ≡ driver_rules.looks_again entry.now at buffer.now }
{
    at < buffer.len() && stays(entry) && STEP_WORK <= buffer.max_ops()
}

/// The walk after a transition. The end of the text ends it.
fn advance(entry: &Entry, walk: Walk, buffer: &mut hb_buffer_t) -> Walk
    requires { entry.now.next < 2 ^ 16 }
    ensures walk { result ≡ driver_rules.advanced_walk entry.now walk buffer.old }
    ensures charged { buffer.new ≡ driver_rules.advanced_buffer entry.now walk.at buffer.old }
    ensures items { buffer.new.items ≡ buffer.old.items }
    ensures limit { limit_of buffer.new ≡ limit_of buffer.old }
    ensures state { result.state < 2 ^ 16 }
{
    let mut walk = walk;
    walk.state = entry.next;
    let count = buffer.len();
    if count <= walk.at {
        walk.has_ended = true;
    } else if looks_again(entry, walk.at, buffer) {
        let left = buffer.max_ops();
        buffer.set_max_ops(left.saturating_sub(STEP_WORK));
    } else {
        walk.at = next_place(count, walk.at);
    }
    walk
}

/// Does what the entry says at a glyph, and goes on to the next one, or to the same one again.
#[tactic(auto, unfolding(crate::specs::Driver::stepped))]
fn step<M: Machine>(
    kerning: &Kerning<'_>,
    machine: &M,
    buffer: &mut hb_buffer_t,
    memory: &mut M::Memory,
    walk: Walk,
) -> Walk
    requires { walk.state < 2 ^ 16 }
    ensures made { record { buffer = buffer.new; memory = memory.new; walk = result }
        ≡ driver_rules.stepped (source_of kerning.now) (M.deeds machine.now)
        (record { buffer = buffer.old; memory = memory.old; walk = walk }) }
    ensures len { length buffer.new.items ≡ length buffer.old.items }
    ensures limit { limit_of buffer.new ≡ limit_of buffer.old }
    ensures state { result.state < 2 ^ 16 }
{
    let met = met_at(kerning, walk, buffer);
    mark(kerning, walk.at, &met, buffer);
    machine.transition(buffer, walk.at, memory, &met.entry);
    advance(&met.entry, walk, buffer)
}

/// The most steps of a walk over a list.
fn most_steps(buffer: &hb_buffer_t) -> usize
    ensures { result ≡ driver_rules.most_steps buffer.now }
{
    buffer
        .len()
        .saturating_add(buffer.max_ops())
        .saturating_add(1)
}

/// Drives a state table over a list from its first glyph on, and does what its entries say.
#[tactic(auto, using(crate::proofs::DriverLemmas::driven_next, crate::proofs::DriverLemmas::all_ended, crate::proofs::DriverLemmas::all_made))]
pub(crate) fn drive<M: Machine>(
    kerning: &Kerning<'_>,
    machine: &M,
    memory: M::Memory,
    buffer: &mut hb_buffer_t,
)
    ensures made { buffer.new ≡ driver_rules.driven (source_of kerning.now) (M.deeds machine.now)
        memory buffer.old }
    ensures len { length buffer.new.items ≡ length buffer.old.items }
    ensures limit { limit_of buffer.new ≡ limit_of buffer.old }
{
    let most = most_steps(buffer);
    let mut remembered = memory;
    let mut walk = Walk {
        at: 0,
        state: first_state(kerning),
        has_ended: false,
    };
    for _i in 0..most {
        if walk.has_ended {
            return;
        }
        walk = step(kerning, machine, buffer, &mut remembered, walk);
    }
}
