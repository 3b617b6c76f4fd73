//! Contextual kerning: subtables of format 1, whose state table pushes glyphs onto a stack, and pops
//! them with lists of values.
ghost use Rattle.std.specs.Prelude.{◌≡◌, ◌<◌, ◌≤◌, ◌+◌, ◌^◌, length};
ghost use Rattle.std.specs.Option.{IfSome};
ghost use Rattle.apple_positioning.specs.Stacks as stack_rules;

use crate::chains::bit_of;
use crate::values::Subtable;
use apple_tables::Entry;
use shape_font::bytes::{i16_at, u16_at, u32_at};

/// How many glyphs the stack has room for.
pub const MOST_PUSHED: usize = 8;

/// How far a glyph that is popped moves.
#[derive(Clone, Copy, Debug)]
pub struct StackValue {
    /// In units of the em square. Across the line -32768 puts a glyph back on it.
    pub by: i32,
    /// Whether no more glyphs are popped.
    pub is_last: bool,
}

/// Whether an entry pushes the current glyph.
pub fn pushes(entry: &Entry) -> bool
    ensures { result ≡ stack_rules.pushes entry.now }
{
    bit_of(entry.flags, 0x8000)
}

/// How many glyphs are on the stack after an entry has emptied it or pushed the current glyph,
/// before any is popped.
pub fn depth_after(is_emptied: bool, is_pushed: bool, depth: usize) -> usize
    requires { depth ≤ stack_rules.MOST_PUSHED }
    ensures value { result ≡ stack_rules.depth_after is_emptied is_pushed depth }
    ensures few { result ≤ stack_rules.MOST_PUSHED }
{
    let kept = if is_emptied { 0 } else { depth };
    if !is_pushed {
        return kept;
    }
    if MOST_PUSHED <= kept { 0 } else { kept + 1 }
}

/// How many bytes the value of a glyph takes in a subtable of `kerx`, with those for other
/// instances.
pub(crate) fn step(bytes: &[u8]) -> usize
    ensures value { result ≡ stack_rules.step_of bytes.now }
    ensures few { result < 2 ^ 34 }
{
    2 * (u32_at(bytes, 8) as usize).max(1)
}

/// Where the values of an action of `kerx` stand; none if the subtable lacks some of those for so
/// many glyphs on the stack.
pub(crate) fn values_of(bytes: &[u8], index: u16, depth: usize) -> Option<usize>
    requires { depth ≤ stack_rules.MOST_PUSHED }
    ensures value { result ≡ stack_rules.list_of bytes.now index depth }
    ensures inside { IfSome result (λ at. at < 2 ^ 34) }
{
    let at = 12 + u32_at(bytes, 28) as usize + 2 * usize::from(index / 2);
    if at + step(bytes) * depth <= bytes.len() {
        Some(at)
    } else {
        None
    }
}

impl<'a> Subtable<'a> {
    /// The value that stands there.
    pub fn stack_value(&self, at: usize) -> StackValue
        requires { at < 2 ^ 39 }
        ensures { result ≡ stack_rules.value_at self.now.bytes.now at }
    {
        let bit = u16_at(self.bytes, at) % 2;
        StackValue {
            by: i16_at(self.bytes, at) - i32::from(bit),
            is_last: bit == 1,
        }
    }
}
