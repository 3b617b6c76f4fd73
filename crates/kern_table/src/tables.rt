//! Kerning by a whole table `kern`: its subtables in order, those of formats 0, 2 and 3 that move
//! glyphs along the line.
ghost use Rattle.std.specs.Prelude.{◌≡◌, ℕ, List, ◌<◌, ◌≤◌, ◌^◌, length, nat_lt, not};
ghost use Rattle.shape_items.specs.Buffer.{limit_of};
ghost use Rattle.kern_table.specs.Pairs.{HoldSides, IsRead};
ghost use Rattle.kern_table.specs.Tables;

use crate::headers::{
    MOST_BYTES, coverage, first_start, format, header_size, is_apple, stated_length,
};
use crate::pairs::{Subtable, read_subtable};
use crate::sides::Sides;
use crate::walk::kern_each;
use font_sizes::Scale;
use shape_buffer::buffer::{hb_buffer_t, hb_mask_t};
use shape_font::bytes::{u16_at, u32_at};

/// How many subtables the table says that it has; none if its version is neither OpenType's nor
/// Apple's.
pub fn subtable_count(kern: &[u8]) -> u32
    ensures { result ≡ Tables.subtable_count_of kern.now }
{
    if u16_at(kern, 0) == 0 {
        u32::from(u16_at(kern, 2))
    } else if is_apple(kern) {
        u32_at(kern, 4)
    } else {
        0
    }
}

/// Whether a subtable of OpenType's version is for lines of this kind, and doesn't move glyphs
/// across the line.
fn is_along(coverage: u8, horizontal: bool) -> bool
    ensures { result ≡ Tables.is_along coverage horizontal }
{
    let line = if horizontal { 1 } else { 0 };
    coverage % 2 == line && coverage / 4 % 2 == 0
}

/// The same of Apple's version; one with values for instances of a variable font is for no line.
fn is_along_apple(coverage: u8, horizontal: bool) -> bool
    ensures { result ≡ Tables.is_along_apple coverage horizontal }
{
    let line = if horizontal { 0 } else { 1 };
    coverage / 128 % 2 == line && coverage / 32 % 4 == 0
}

/// Whether the subtable that begins at `start` is for lines of this kind, and moves glyphs along
/// them.
fn runs_along(kern: &[u8], start: usize, horizontal: bool) -> bool
    requires { start < 2 ^ 34 }
    ensures { result ≡ Tables.runs_along kern.now start horizontal }
{
    if is_apple(kern) {
        is_along_apple(coverage(kern, start), horizontal)
    } else {
        is_along(coverage(kern, start), horizontal)
    }
}

/// Whether the subtable that begins at `start` kerns lines of this kind: it is of format 0, 2 or 3,
/// for lines of this kind, and doesn't move glyphs across the line.
fn is_read(kern: &[u8], start: usize, horizontal: bool) -> bool
    requires { start < 2 ^ 34 }
    ensures { result ≡ Tables.is_read kern.now start horizontal }
{
    matches!(format(kern, start), 0 | 2 | 3) && runs_along(kern, start, horizontal)
}

/// Kerns a buffer by a subtable whose head was read, from the left of the line to its right.
fn kern_subtable(
    subtable: Subtable<'_>,
    scale: Option<Scale>,
    mask: hb_mask_t,
    buffer: &mut hb_buffer_t,
)
    requires { IsRead subtable }
    ensures made { buffer.new
        ≡ Tables.subtable_kerned scale subtable.entry.kern.now subtable.entry.start mask
        buffer.old }
    ensures len { length buffer.new.items ≡ length buffer.old.items }
    ensures limit { limit_of buffer.new ≡ limit_of buffer.old }
{
    let horizontal = buffer.direction().is_horizontal();
    if !is_read(subtable.kern, subtable.start, horizontal) {
        return;
    }
    if buffer.direction().is_backward() {
        buffer.reverse();
        kern_each(subtable, scale, mask, buffer);
        buffer.reverse();
    } else {
        kern_each(subtable, scale, mask, buffer);
    }
}

/// Kerns a buffer by the subtable that begins at `start`, from the left of the line to its right, if
/// it is read for such a line. Values are scaled if the font has a size. Takes no memory, and isn't
/// charged for.
pub fn run_subtable(
    kern: &[u8],
    scale: Option<Scale>,
    start: usize,
    mask: hb_mask_t,
    buffer: &mut hb_buffer_t,
)
    requires { start < 2 ^ 34 }
    ensures made { buffer.new ≡ Tables.subtable_kerned scale kern.now start mask buffer.old }
    ensures len { length buffer.new.items ≡ length buffer.old.items }
    ensures limit { limit_of buffer.new ≡ limit_of buffer.old }
{
    kern_subtable(
        read_subtable(kern, start, Sides::none()),
        scale,
        mask,
        buffer,
    );
}

/// What a subtable costs at each item, in units of about one look at a glyph.
const SUBTABLE_WORK: usize = 16;

/// What a subtable costs a buffer of so many items.
pub fn subtable_work(count: usize) -> usize
    ensures { result ≡ Tables.subtable_work count }
{
    count.saturating_mul(SUBTABLE_WORK).max(1)
}

/// Charges a buffer for a subtable. Returns whether what was left suffices; else nothing is left.
pub fn charge(buffer: &mut hb_buffer_t) -> bool
    ensures made { buffer.new ≡ Tables.charged buffer.old }
    ensures enough { result
        ≡ not (nat_lt buffer.old.max_ops (Tables.subtable_work (length buffer.old.items))) }
    ensures len { length buffer.new.items ≡ length buffer.old.items }
    ensures limit { limit_of buffer.new ≡ limit_of buffer.old }
{
    let (left, work) = (buffer.max_ops(), subtable_work(buffer.len()));
    buffer.set_max_ops(left.saturating_sub(work));
    work <= left
}

/// What is stored of the subtable that begins at `start`, if this is stored of the first one.
fn sides_at(start: usize, first: Sides<'_>) -> Sides<'_>
    ensures { (t : List ℕ) → HoldSides t 4 first.entry.lefts.now first.entry.rights.now
        → HoldSides t start result.lefts.now result.rights.now }
{
    if start == 4 { first } else { Sides::none() }
}

/// Kerns a buffer by all subtables of the table that are read, in order, if the mask isn't 0. A
/// subtable that says that it is shorter than its header, or longer than any table, ends the table,
/// and so does one that costs more than is left of `max_ops`. Values are scaled if the font has a
/// size. Takes no memory.
pub fn kern_table(kern: &[u8], scale: Option<Scale>, mask: hb_mask_t, buffer: &mut hb_buffer_t)
    ensures made { buffer.new ≡ Tables.table_kerned scale kern.now mask buffer.old }
    ensures len { length buffer.new.items ≡ length buffer.old.items }
    ensures limit { limit_of buffer.new ≡ limit_of buffer.old }
{
    kern_table_by(kern, Sides::none(), scale, mask, buffer);
}

/// The same, where this is stored of the first subtable ([`PairGlyphs`](crate::PairGlyphs)): two
/// glyphs of which one has no pair take a few instructions.
#[tactic(auto, using(crate::proofs::SubtableLemmas::kerned_from_next, crate::proofs::SubtableLemmas::kerned_from_short, crate::proofs::SubtableLemmas::kerned_from_long, crate::proofs::SubtableLemmas::kerned_from_spent, crate::proofs::SubtableLemmas::kerned_from_end))]
pub fn kern_table_by(
    kern: &[u8],
    first: Sides<'_>,
    scale: Option<Scale>,
    mask: hb_mask_t,
    buffer: &mut hb_buffer_t,
)
    requires { HoldSides kern.now 4 first.lefts.now first.rights.now }
    ensures made { buffer.new ≡ Tables.table_kerned scale kern.now mask buffer.old }
    ensures len { length buffer.new.items ≡ length buffer.old.items }
    ensures limit { limit_of buffer.new ≡ limit_of buffer.old }
{
    if mask == 0 {
        return;
    }
    let mut start = first_start(kern);
    for _i in 0..subtable_count(kern) {
        let len = stated_length(kern, start);
        if len < header_size(kern) {
            return;
        }
        if MOST_BYTES < start + len {
            return;
        }
        if !charge(buffer) {
            return;
        }
        let subtable = read_subtable(kern, start, sides_at(start, first));
        kern_subtable(subtable, scale, mask, buffer);
        start += len;
    }
}
