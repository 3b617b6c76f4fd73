//! Where a text may be broken: a glyph and the one before it are marked unsafe to break, unless the
//! walk does the same over the two parts.
ghost use Rattle.std.specs.Prelude.{◌≡◌, ◌<◌, ◌≤◌, ◌^◌, false, length};
ghost use Rattle.apple_substitution.specs.Drives;

use crate::driver::{Machine, Met, Subtable, stays};
use crate::edits::{break_span, next_place};
use apple_tables::Entry;
use apple_tables::states::{END_OF_TEXT, START_OF_TEXT};
use layout_buffer::GapBuffer;

/// Whether two entries lead to the same state and to the same glyph.
fn leads_alike(one: &Entry, other: &Entry) -> bool
    ensures { result ≡ Drives.leads_alike one.now other.now }
{
    if one.next != other.next {
        return false;
    }
    if stays(one) {
        stays(other)
    } else {
        !stays(other)
    }
}

/// Whether a text that begins with the glyph does nothing there, and leads to the same.
fn is_as_first<S: Subtable>(
    machine: &Machine<'_>,
    subtable: &S,
    memory: &S::Memory,
    met: &Met,
) -> bool
    requires start { machine.now.states.start < 2 ^ 35 }
    requires size { machine.now.states.entry_size ≤ 8 }
    ensures { result ≡ Drives.is_as_first (Drives.rules_of machine.now) (S.actions subtable.now) memory.now met.now }
{
    let first = machine.states.entry(START_OF_TEXT, met.class);
    !subtable.is_actionable(met.ends, memory, &first) && leads_alike(&met.entry, &first)
}

/// Whether the text before a glyph doesn't count.
fn is_apart<S: Subtable>(machine: &Machine<'_>, subtable: &S, memory: &S::Memory, met: &Met) -> bool
    requires start { machine.now.states.start < 2 ^ 35 }
    requires size { machine.now.states.entry_size ≤ 8 }
    ensures { result ≡ Drives.is_apart (Drives.rules_of machine.now) (S.actions subtable.now) memory.now met.now }
{
    u32::from(met.state) == START_OF_TEXT
        || stays(&met.entry) && met.entry.next == START_OF_TEXT
        || is_as_first(machine, subtable, memory, met)
}

/// Whether a break before the glyph changes nothing: nothing is done at the glyph, the text before
/// it doesn't count, and nothing would be done at the end of a text there. See
/// <https://github.com/harfbuzz/harfbuzz/issues/2860>.
fn is_safe_to_break<S: Subtable>(
    machine: &Machine<'_>,
    subtable: &S,
    memory: &S::Memory,
    met: &Met,
) -> bool
    requires start { machine.now.states.start < 2 ^ 35 }
    requires size { machine.now.states.entry_size ≤ 8 }
    requires near { met.now.entry.at < 2 ^ 37 }
    ensures { result
        ≡ Drives.is_safe_to_break (Drives.rules_of machine.now) (S.actions subtable.now) memory.now met.now }
{
    if subtable.is_actionable(met.ends, memory, &met.entry) {
        return false;
    }
    let last = machine.states.entry(u32::from(met.state), END_OF_TEXT);
    is_apart(machine, subtable, memory, met) && !subtable.is_actionable(met.ends, memory, &last)
}

/// Marks a glyph and the one before it unsafe to break, if a break between them changes something.
pub(crate) fn mark<S: Subtable>(
    machine: &Machine<'_>,
    subtable: &S,
    memory: &S::Memory,
    at: usize,
    met: &Met,
    buffer: &mut GapBuffer,
)
    requires start { machine.now.states.start < 2 ^ 35 }
    requires size { machine.now.states.entry_size ≤ 8 }
    requires near { met.now.entry.at < 2 ^ 37 }
    requires inside { met.now.ends ≡ false → at < length buffer.old.items }
    ensures { buffer.new
        ≡ Drives.marked (Drives.rules_of machine.now) (S.actions subtable.now) memory.now at met.now buffer.old }
{
    if at == 0 || met.ends || is_safe_to_break(machine, subtable, memory, met) {
        return;
    }
    let count = buffer.len();
    break_span(buffer, at - 1, next_place(count, at));
}
