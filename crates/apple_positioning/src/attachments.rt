//! Attachment: subtables of format 4 of `kerx`, whose state table leads to points of two glyphs that
//! are put on each other.
ghost use Rattle.std.specs.Prelude.{◌≡◌, ◌<◌, ◌^◌};
ghost use Rattle.apple_positioning.specs.Attachments as attachment_rules;

use crate::anchors::{Anchor, read_anchor};
use crate::values::Subtable;
use apple_tables::{Entry, StateTable};
use shape_buffer::wrapping::difference;
use shape_font::bytes::{u16_at, u32_at};

/// Numbers of a point of the marked glyph and of one of the current glyph.
#[derive(Clone, Copy, Debug)]
pub struct Numbers {
    pub marked: u16,
    pub current: u16,
}

/// Where a point of the marked glyph and one of the current glyph lie.
#[derive(Clone, Copy, Debug)]
pub struct Places {
    pub marked: Anchor,
    pub current: Anchor,
}

/// How the current glyph is attached to the marked one.
#[derive(Clone, Copy, Debug)]
pub enum Action {
    /// A point of its outline is put on one of the marked glyph's outline.
    ControlPoints(Numbers),
    /// One of its anchor points is put on one of the marked glyph's.
    AnchorPoints(Numbers),
    /// A point is put on another one.
    Coordinates(Places),
    /// It stays where it is.
    Attached,
}

/// The number of no action.
const NONE: u16 = 0xFFFF;

/// Where the state table of a subtable begins.
const MACHINE: usize = 12;

/// How far the current glyph moves, so that its point comes to that of the marked one.
pub fn apart(places: Places) -> Anchor
    ensures { result ≡ attachment_rules.apart places.marked places.current }
{
    Anchor {
        x: difference(places.marked.x, places.current.x),
        y: difference(places.marked.y, places.current.y),
    }
}

/// The numbers that stand there.
fn numbers_at(bytes: &[u8], at: usize) -> Numbers
    requires { at < 2 ^ 39 }
    ensures { result ≡ attachment_rules.numbers_at bytes.now at }
{
    Numbers {
        marked: u16_at(bytes, at),
        current: u16_at(bytes, at + 2),
    }
}

/// The coordinates that stand there.
fn places_at(bytes: &[u8], at: usize) -> Places
    requires { at < 2 ^ 38 }
    ensures { result ≡ attachment_rules.places_at bytes.now at }
{
    Places {
        marked: read_anchor(bytes, at),
        current: read_anchor(bytes, at + 4),
    }
}

/// An action that the subtable has all bytes of.
fn whole(bytes: &[u8], end: usize, action: Action) -> Option<Action>
    ensures { result ≡ attachment_rules.whole bytes.now end action }
{
    if end <= bytes.len() {
        Some(action)
    } else {
        None
    }
}

impl<'a> Subtable<'a> {
    /// The state table of a subtable of `kerx` of format 1 or 4.
    pub(crate) fn states(&self) -> StateTable<'a>
        ensures table { result.table.now ≡ self.now.bytes.now }
        ensures start { result.start ≡ attachment_rules.MACHINE }
        ensures size { result.entry_size ≡ 6 }
        ensures glyphs { result.glyphs ≡ self.now.glyphs }
    {
        StateTable {
            table: self.bytes,
            start: MACHINE,
            entry_size: 6,
            glyphs: self.glyphs,
        }
    }

    /// The number of the action of an entry of `kerx`; none if it has none.
    pub(crate) fn numbered_action(&self, entry: &Entry) -> Option<u16>
        requires { entry.now.at < 2 ^ 37 }
        ensures { result ≡ attachment_rules.action_index self.now.bytes.now entry.now }
    {
        let index = u16_at(self.bytes, entry.at);
        if index == NONE {
            return None;
        }
        Some(index)
    }

    /// Where the actions of a subtable of format 4 begin.
    fn actions(&self) -> usize
        ensures value { result ≡ attachment_rules.actions_at self.now.bytes.now }
        ensures near { result < 2 ^ 25 }
    {
        MACHINE + (u32_at(self.bytes, 28) % 0x100_0000) as usize
    }

    /// An action of a subtable of format 4, by its number; none if bytes of it are lacking.
    pub fn action(&self, index: u16) -> Option<Action>
        ensures { result ≡ attachment_rules.action_of self.now.bytes.now index }
    {
        let bytes = self.bytes;
        let at = self.actions() + 4 * usize::from(index);
        let far = self.actions() + 8 * usize::from(index);
        match u32_at(bytes, 28) / 0x4000_0000 {
            0 => whole(bytes, at + 4, Action::ControlPoints(numbers_at(bytes, at))),
            1 => whole(bytes, at + 4, Action::AnchorPoints(numbers_at(bytes, at))),
            2 => whole(bytes, far + 8, Action::Coordinates(places_at(bytes, far))),
            _ => Some(Action::Attached),
        }
    }
}
