//! What a subtable says by its layout: as one of `kerx`, or as one of the older table `kern`.
ghost use Rattle.std.specs.Prelude.{◌≡◌, ◌<◌, ◌≤◌, ◌+◌, ◌^◌};
ghost use Rattle.std.specs.Option.{IfSome};
ghost use Rattle.apple_positioning.specs.Layouts as layout_rules;
ghost use Rattle.apple_positioning.specs.Stacks as stack_rules;
ghost use Rattle.kern_table.specs.Headers.{body_of};

use crate::chains::{Header, bit_of, read_header};
use crate::old_states::OldStates;
use crate::stacks::{step, values_of};
use crate::values::{Layout, Subtable, kerning_of};
use apple_tables::states::START_OF_TEXT;
use apple_tables::{Entry, StateTable};
use kern_table::headers::{coverage, format, header_size, is_apple};
use kern_table::pairs::value;
use shape_font::bytes::u16_at;

/// The header of the subtable of `kern` that begins at `start`.
pub(crate) fn read_old_header(kern: &[u8], start: u32) -> Header
    ensures { result ≡ layout_rules.old_header_of kern.now start }
{
    let start = start as usize;
    let coverage = u32::from(coverage(kern, start));
    let apple = is_apple(kern);
    Header {
        is_vertical: if apple {
            bit_of(coverage, 0x80)
        } else {
            !bit_of(coverage, 1)
        },
        is_cross_stream: if apple {
            bit_of(coverage, 0x40)
        } else {
            bit_of(coverage, 4)
        },
        has_variation: apple && bit_of(coverage, 0x20),
        is_backward: false,
        format: u32::from(format(kern, start)),
        tuple_count: 0,
    }
}

/// Where the fields of the format of a subtable of `kern` begin.
fn body(kern: &[u8], start: u32) -> usize
    ensures value { result ≡ body_of kern.now start }
    ensures near { result < 2 ^ 33 }
{
    start as usize + header_size(kern)
}

/// The state table of a subtable of `kern` of format 1.
fn old_states(kern: &[u8], start: u32) -> OldStates<'_>
    ensures table { result.table.now ≡ kern.now }
    ensures start { result.start ≡ body_of kern.now start }
    ensures near { result.start < 2 ^ 33 }
{
    OldStates {
        table: kern,
        start: body(kern, start),
    }
}

/// The place of the values of an entry of `kern`, none if it names none.
fn value_place(entry: &Entry) -> Option<u16>
    ensures { result ≡ layout_rules.value_place entry.now }
{
    let place = entry.flags % 0x4000;
    if place == 0 {
        return None;
    }
    Some(place as u16)
}

/// Where the values of an entry of `kern` stand, by their place; none if they don't stand among all
/// values, or if some are lacking for so many glyphs.
fn old_values(kern: &[u8], start: u32, place: u16, depth: usize) -> Option<usize>
    requires { depth ≤ stack_rules.MOST_PUSHED }
    ensures value { result
        ≡ layout_rules.old_list_of kern.now (body_of kern.now start) place depth }
    ensures inside { IfSome result (λ at. at < 2 ^ 34) }
{
    let machine = body(kern, start);
    let values = u16_at(kern, machine + 8);
    if place < values {
        return None;
    }
    let at = machine + usize::from(values) + 2 * usize::from((place - values) / 2);
    if at + 2 * depth <= kern.len() {
        Some(at)
    } else {
        None
    }
}

/// Whether subtables of a format have values of pairs.
pub(crate) fn has_pairs(layout: Layout, format: u32) -> bool
    ensures { result ≡ layout_rules.has_pairs layout format }
{
    match layout {
        Layout::Kerx => matches!(format, 0 | 2 | 6),
        Layout::Kern(_) => matches!(format, 0 | 2 | 3),
    }
}

/// Whether subtables of a format attach glyphs.
pub(crate) fn attaches(layout: Layout, format: u32) -> bool
    ensures { result ≡ layout_rules.attaches layout format }
{
    match layout {
        Layout::Kerx => format == 4,
        Layout::Kern(_) => false,
    }
}

impl<'a> Subtable<'a> {
    /// Its header.
    pub fn header(&self) -> Header
        ensures { result ≡ layout_rules.header_for self.now.layout self.now.bytes.now }
    {
        match self.layout {
            Layout::Kerx => read_header(self.bytes),
            Layout::Kern(start) => read_old_header(self.bytes, start),
        }
    }

    /// How far two glyphs are moved apart, in units of the em square; together if it is negative,
    /// and 0 if the subtable doesn't name one of them, or has no values of pairs.
    pub fn kerning(&self, left: u32, right: u32) -> i32
        ensures { result ≡ layout_rules.kerning_by self.now.layout self.now.bytes.now
            self.now.glyphs left right }
    {
        match self.layout {
            Layout::Kerx => kerning_of(self, left, right),
            Layout::Kern(start) => value(self.bytes, start as usize, left, right),
        }
    }

    /// The class of a glyph in its state table.
    pub(crate) fn class_for(&self, glyph: u32) -> u32
        ensures { result ≡ layout_rules.class_by self.now.layout self.now.bytes.now
            self.now.glyphs glyph }
    {
        match self.layout {
            Layout::Kerx => self.states().class(glyph),
            Layout::Kern(start) => old_states(self.bytes, start).class(glyph),
        }
    }

    /// The entry of its state table for a class in a state.
    pub(crate) fn entry_for(&self, state: u32, class: u32) -> Entry
        requires { state < 2 ^ 16 }
        ensures value { result ≡ layout_rules.entry_by self.now.layout self.now.bytes.now
            state class }
        ensures next { result.next < 2 ^ 16 }
        ensures near { result.at < 2 ^ 37 }
    {
        match self.layout {
            Layout::Kerx => self.states().entry(state, class),
            Layout::Kern(start) => old_states(self.bytes, start).entry(state, class),
        }
    }

    /// The state of its state table in which a text begins.
    pub(crate) fn first_state(&self) -> u32
        ensures value { result ≡ layout_rules.first_by self.now.layout self.now.bytes.now }
        ensures few { result < 2 ^ 16 }
    {
        match self.layout {
            Layout::Kerx => START_OF_TEXT,
            Layout::Kern(start) => old_states(self.bytes, start).first(),
        }
    }

    /// The number of the action of an entry, or of `kern` the place of its values; none if it has
    /// none.
    pub fn action_index(&self, entry: &Entry) -> Option<u16>
        requires { entry.now.at < 2 ^ 37 }
        ensures { result ≡ layout_rules.action_by self.now.layout self.now.bytes.now entry.now }
    {
        match self.layout {
            Layout::Kerx => self.numbered_action(entry),
            Layout::Kern(_) => value_place(entry),
        }
    }

    /// Whether an entry empties the stack.
    pub(crate) fn empties(&self, entry: &Entry) -> bool
        ensures { result ≡ layout_rules.empties self.now.layout entry.now }
    {
        match self.layout {
            Layout::Kerx => bit_of(entry.flags, 0x2000),
            Layout::Kern(_) => false,
        }
    }

    /// Where the values of an action stand; none if the subtable lacks some of those for so many
    /// glyphs on the stack.
    pub fn stack_values(&self, index: u16, depth: usize) -> Option<usize>
        requires { depth ≤ stack_rules.MOST_PUSHED }
        ensures value { result ≡ layout_rules.list_by self.now.layout self.now.bytes.now
            index depth }
        ensures inside { IfSome result (λ at. at < 2 ^ 34) }
    {
        match self.layout {
            Layout::Kerx => values_of(self.bytes, index, depth),
            Layout::Kern(start) => old_values(self.bytes, start, index, depth),
        }
    }

    /// How many bytes the value of a glyph takes, with those for other instances.
    pub fn step(&self) -> usize
        ensures value { result ≡ layout_rules.step_by self.now.layout self.now.bytes.now }
        ensures few { result < 2 ^ 34 }
    {
        match self.layout {
            Layout::Kerx => step(self.bytes),
            Layout::Kern(_) => 2,
        }
    }
}
