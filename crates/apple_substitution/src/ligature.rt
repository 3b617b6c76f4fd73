//! Ligature subtables: entries push components onto a stack, and actions pop them.
//!
//! An action adds up what a table has for the glyphs of the components that it pops. The ligature of
//! the sum stands in place of the component that was popped last, and the others are deleted: each
//! is `DELETED_GLYPH` until the end of the run.
ghost use Rattle.std.specs.Prelude.{◌≡◌, ◌<◌, ◌+◌, ◌-◌, ◌^◌, true, replicate};
ghost use Rattle.std.specs.Option.{IfSome};
ghost use Rattle.apple_substitution.specs.Ligature as ligature_rules;

use crate::driver::Subtable;
use crate::edits::{charge, item, merge, place_after, put};
use crate::ranges::STEP_WORK;
use apple_tables::Entry;
use apple_tables::states::DELETED_GLYPH;
use layout_buffer::GapBuffer;
use shape_buffer::ShapeError;
use shape_common::BufferClusterLevel;
use shape_font::bytes::{long, u16_at, u32_at, word};

/// How many places of components are remembered.
const MOST_PLACES: usize = 64;

/// The flags of an action that makes a ligature: it stores one, or is the last one.
const STORES: u32 = 0xC000_0000;

/// The flag of the last action.
const LAST: u32 = 0x8000_0000;

/// The kind of subtable.
#[derive(Clone, Copy)]
pub struct Ligature<'a> {
    /// The table `morx`.
    pub morx: &'a [u8],
    /// Where the header of its state table begins.
    pub start: u32,
}

/// The components that entries pushed.
#[derive(Clone, Copy, Debug)]
pub struct Stack {
    /// How many there are.
    pub count: usize,
    /// The places of the last 64 of them, that of component `n` at `n % 64`.
    pub places: [usize; 64],
}

/// Actions under way.
#[derive(Clone, Copy, Debug)]
pub struct Popping {
    /// How many components are left to pop.
    pub cursor: usize,
    /// How many components are on the stack, with ligatures in place of those that were popped.
    pub count: usize,
    /// Where the next action stands.
    pub action: usize,
    /// The sum of what the table has for the components.
    pub sum: u32,
    /// Whether the last action was performed, or the table lacks something.
    pub has_ended: bool,
}

impl Stack {
    /// A stack without a component.
    pub fn new() -> Self
        ensures { result ≡ record { count = 0; places = replicate 64 0 } }
    {
        Stack {
            count: 0,
            places: [0; 64],
        }
    }
}

/// The place of a component.
fn place_in(places: &[usize], n: usize) -> usize
    ensures { result ≡ ligature_rules.place_in places.now n }
{
    let i = n % MOST_PLACES;
    if i < places.len() { places[i] } else { 0 }
}

/// How many components are below one that is pushed at a place.
fn count_below(at: usize, stack: &Stack) -> usize
    ensures { result ≡ ligature_rules.count_below at stack.now }
{
    if 0 < stack.count && place_in(&stack.places, stack.count - 1) == at {
        stack.count - 1
    } else {
        stack.count
    }
}

/// Pushes a component.
fn push(at: usize, stack: &mut Stack)
    ensures { stack.new ≡ ligature_rules.pushed at stack.old }
{
    let n = count_below(at, stack);
    stack.places[n % MOST_PLACES] = at;
    stack.count = n.saturating_add(1);
}

/// Four bytes of a table, if it has them all.
fn long_in(table: &[u8], at: usize) -> Option<u32>
    ensures value { result ≡ ligature_rules.long_in table.now at }
    ensures room { IfSome result (λ _. at + 4 < 2 ^ 64) }
{
    let count = table.len();
    if 4 <= count && at <= count - 4 {
        Some(long(table, at))
    } else {
        None
    }
}

/// Two bytes of a table, if it has them all.
fn word_in(table: &[u8], at: usize) -> Option<u16>
    requires { at < 2 ^ 60 }
    ensures { result ≡ ligature_rules.word_in table.now at }
{
    if at + 2 <= table.len() {
        Some(word(table, at))
    } else {
        None
    }
}

/// How far the number for glyph 0 is from the first one, in two's complement.
fn distance_of(action: u32) -> u32
    ensures { result ≡ ligature_rules.distance_of action }
{
    let distance = action % 0x4000_0000;
    if distance < 0x2000_0000 {
        distance
    } else {
        distance + 0xC000_0000
    }
}

/// Deletes the glyph at a place.
fn delete(buffer: &mut GapBuffer, at: usize)
    ensures { buffer.new ≡ ligature_rules.deleted_at at buffer.old }
{
    let mut there = item(buffer, at);
    there.glyph_id = DELETED_GLYPH;
    there._hb_glyph_info_set_ignorable(true);
    put(buffer, at, there);
}

/// Deletes the glyphs of the components from number `from` up to `to`.
#[tactic(auto, using(crate::proofs::LigatureLemmas::deleted_none))]
fn delete_components(buffer: &mut GapBuffer, places: &[usize], from: usize, to: usize)
    ensures { buffer.new
        ≡ ligature_rules.deleted_from places.now from (to - from) buffer.old }
{
    for k in from..to {
        delete(buffer, place_in(places, k));
    }
}

/// Merges the clusters of a span, if the level has clusters that merge.
fn merge_out(buffer: &mut GapBuffer, start: usize, end: usize)
    ensures { buffer.new ≡ ligature_rules.out_merged start end buffer.old }
{
    match buffer.cluster_level() {
        BufferClusterLevel::MonotoneGraphemes | BufferClusterLevel::MonotoneCharacters => {
            merge(buffer, start, end);
        }
        BufferClusterLevel::Characters => {}
    }
}

/// The place of the component that is popped.
fn first_of(places: &[usize], popping: &Popping) -> usize
    ensures { result ≡ ligature_rules.first_of places.now popping.now }
{
    place_in(places, popping.cursor.saturating_sub(1))
}

/// The place after the component that was pushed last.
fn end_of(buffer: &GapBuffer, places: &[usize], popping: &Popping) -> usize
    ensures { result ≡ ligature_rules.end_of places.now popping.now buffer.now }
{
    let last = place_in(places, popping.count.saturating_sub(1));
    place_after(buffer.len(), last)
}

/// The end of actions.
fn over(popping: Popping) -> Popping
    ensures { result ≡ record popping { has_ended = true } }
{
    let mut popping = popping;
    popping.has_ended = true;
    popping
}

/// The next action, with the component below.
fn next_pop(popping: Popping) -> Popping
    requires { popping.action + 4 < 2 ^ 64 }
    ensures { result ≡ ligature_rules.next_pop popping }
{
    let mut popping = popping;
    popping.cursor = popping.cursor.saturating_sub(1);
    popping.action += 4;
    popping
}

/// Puts a ligature in place of the component that was popped last, and deletes those that were
/// popped before.
#[tactic(auto, unfolding(crate::specs::Ligature::ligated))]
fn ligate(buffer: &mut GapBuffer, places: &[usize], glyph: u16, popping: &Popping)
    ensures { buffer.new ≡ ligature_rules.ligated places.now glyph popping.now buffer.old }
{
    let first = first_of(places, popping);
    let end = end_of(buffer, places, popping);
    let mut there = item(buffer, first);
    there.glyph_id = u32::from(glyph);
    put(buffer, first, there);
    delete_components(buffer, places, popping.cursor, popping.count);
    merge_out(buffer, first, end);
}

/// Makes a ligature, if what is left suffices for the span of its components.
fn store(
    buffer: &mut GapBuffer,
    places: &[usize],
    action: u32,
    glyph: u16,
    popping: Popping,
) -> Popping
    requires { popping.action + 4 < 2 ^ 64 }
    ensures { record { buffer = buffer.new; popping = result }
        ≡ ligature_rules.stored places.now action glyph popping buffer.old }
{
    let work = end_of(buffer, places, &popping).saturating_sub(first_of(places, &popping));
    if !charge(buffer, work) {
        return over(popping);
    }
    ligate(buffer, places, glyph, &popping);
    let mut made = popping;
    made.count = popping.cursor;
    made.has_ended = action & LAST != 0;
    next_pop(made)
}

impl<'a> Ligature<'a> {
    /// Where the first action of an entry stands.
    fn action_of(&self, entry: &Entry) -> usize
        requires { entry.now.at < 2 ^ 37 }
        ensures { result ≡ ligature_rules.action_of self.now.morx.now self.now.start entry.now }
    {
        let start = self.start as usize;
        let actions = start + u32_at(self.morx, start + 16) as usize;
        actions + 4 * usize::from(u16_at(self.morx, entry.at))
    }

    /// What the table has for the glyph of a component.
    fn component_of(&self, action: u32, glyph: u32) -> Option<u16>
        ensures { result
            ≡ ligature_rules.component_of self.now.morx.now self.now.start action glyph }
    {
        let start = self.start as usize;
        let components = start + u32_at(self.morx, start + 20) as usize;
        let i = glyph.wrapping_add(distance_of(action));
        word_in(self.morx, components + 2 * i as usize)
    }

    /// The ligature of a sum.
    fn ligature_of(&self, sum: u32) -> Option<u16>
        ensures { result ≡ ligature_rules.ligature_of self.now.morx.now self.now.start sum }
    {
        let start = self.start as usize;
        let ligatures = start + u32_at(self.morx, start + 24) as usize;
        word_in(self.morx, ligatures + 2 * sum as usize)
    }

    /// Adds a number to the sum, and makes the ligature of the sum if the action says so.
    #[tactic(auto, unfolding(crate::specs::Ligature::added))]
    fn add(
        &self,
        buffer: &mut GapBuffer,
        places: &[usize],
        action: u32,
        number: u16,
        popping: Popping,
    ) -> Popping
        requires { popping.action + 4 < 2 ^ 64 }
        ensures { record { buffer = buffer.new; popping = result }
            ≡ ligature_rules.added self.now.morx.now self.now.start places.now action number
            popping buffer.old }
    {
        let mut summed = popping;
        summed.sum = popping.sum.wrapping_add(u32::from(number));
        if action & STORES == 0 {
            return next_pop(summed);
        }
        match self.ligature_of(summed.sum) {
            Some(glyph) => store(buffer, places, action, glyph, summed),
            None => over(summed),
        }
    }

    /// Pops a component, and does what the action says.
    #[tactic(auto, unfolding(crate::specs::Ligature::popped_one))]
    fn pop(&self, buffer: &mut GapBuffer, places: &[usize], popping: Popping) -> Popping
        ensures { record { buffer = buffer.new; popping = result }
            ≡ ligature_rules.popped_one self.now.morx.now self.now.start places.now
            (record { buffer = buffer.old; popping = popping }) }
    {
        if !charge(buffer, STEP_WORK) {
            return over(popping);
        }
        let Some(action) = long_in(self.morx, popping.action) else {
            return over(popping);
        };
        let glyph = item(buffer, first_of(places, &popping)).glyph_id;
        match self.component_of(action, glyph) {
            Some(number) => self.add(buffer, places, action, number, popping),
            None => over(popping),
        }
    }

    /// Pops components until the last action.
    #[tactic(auto, using(crate::proofs::LigatureLemmas::popped_ended, crate::proofs::LigatureLemmas::popped_all))]
    fn pop_all(&self, buffer: &mut GapBuffer, places: &[usize], first: Popping) -> Popping
        ensures { record { buffer = buffer.new; popping = result }
            ≡ ligature_rules.popped self.now.morx.now self.now.start places.now first.cursor
            (record { buffer = buffer.old; popping = first }) }
    {
        let mut popping = first;
        for _i in 0..first.cursor {
            if popping.has_ended {
                return popping;
            }
            popping = self.pop(buffer, places, popping);
        }
        popping
    }

    /// Performs the actions of an entry. Those that pop more than was pushed empty the stack.
    fn perform(&self, buffer: &mut GapBuffer, entry: &Entry, stack: &mut Stack)
        requires { entry.now.at < 2 ^ 37 }
        ensures buffer { buffer.new ≡ (ligature_rules.performed self.now.morx.now self.now.start
            entry.now stack.old buffer.old).buffer }
        ensures left { stack.new ≡ ligature_rules.stack_left
            (ligature_rules.performed self.now.morx.now self.now.start
            entry.now stack.old buffer.old).popping stack.old }
    {
        let count = stack.count;
        let first = Popping {
            cursor: count,
            count,
            action: self.action_of(entry),
            sum: 0,
            has_ended: false,
        };
        let last = self.pop_all(buffer, &stack.places, first);
        stack.count = if last.has_ended { last.count } else { 0 };
    }
}

impl<'a> Subtable for Ligature<'a> {
    type Memory = Stack;

    ghost actions = { λ l. ligature_rules.actions l.morx.now l.start };

    fn is_actionable(&self, _ends: bool, _memory: &Stack, entry: &Entry) -> bool {
        entry.flags & 0x2000 != 0
    }

    fn transition(
        &self,
        buffer: &mut GapBuffer,
        at: usize,
        memory: &mut Stack,
        entry: &Entry,
    ) -> Result<usize, ShapeError> {
        if entry.flags & 0x8000 != 0 {
            push(at, memory);
        }
        if entry.flags & 0x2000 != 0 && at < buffer.len() {
            self.perform(buffer, entry, memory);
        }
        Ok(at)
    }
}
