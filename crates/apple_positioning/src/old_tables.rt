//! A run of the whole older table `kern` over a line: its subtables one after the other.
//!
//! Subtables with a state table and those that move glyphs across the line are run as those of
//! `kerx`, the others by pairs along the line. A table that has neither is `kern_table`'s.
ghost use Rattle.std.specs.Prelude.{◌≡◌, ◌≤◌, ◌+◌, ◌<◌, ◌^◌, length, false};
ghost use Rattle.apple_positioning.specs.OldTables as old_tables;
ghost use Rattle.apple_positioning.specs.OldTables.{font_of};
ghost use Rattle.apple_positioning.specs.Runs.{source_of};
ghost use Rattle.kern_table.specs.Headers as header_rules;
ghost use Rattle.kern_table.specs.Pairs.{HoldSides};
ghost use Rattle.kern_table.specs.Tables.{subtable_count_of};
ghost use Rattle.shape_buffer.specs.Outcome.{Made};
ghost use Rattle.shape_items.specs.Buffer.{limit_of};

use crate::layouts::read_old_header;
use crate::runs::Kerning;
use crate::tables::{finish, run_one};
use crate::values::{Layout, Subtable};
use font_sizes::Scale;
use kern_table::Sides;
use kern_table::headers::{MOST_BYTES, first_start, format, header_size, stated_length};
use kern_table::tables::{charge, kern_table_by, run_subtable, subtable_count};
use shape_buffer::buffer::{hb_buffer_t, hb_mask_t};

/// What a run of the table reads of the font, and where kerning is on.
#[derive(Clone, Copy)]
pub struct OldKerning<'a> {
    /// The table `kern`.
    pub kern: &'a [u8],
    /// The size of the font, if it has one; else positions are in units of the em square.
    pub scale: Option<Scale>,
    /// The mask of kerning, with which a glyph shares a bit if kerning is on for it. 0 if it is off
    /// everywhere.
    pub mask: hb_mask_t,
}

/// Whether the subtable that begins at `start` ends the table: it is shorter than its header, or
/// longer than any table.
fn ends_table(kern: &[u8], start: usize) -> bool
    requires { start < 2 ^ 34 }
    ensures value { result ≡ header_rules.ends_table kern.now start }
    ensures near { result ≡ false
        → start + header_rules.length_of kern.now start ≤ header_rules.most_bytes }
{
    let len = stated_length(kern, start);
    len < header_size(kern) || MOST_BYTES < start + len
}

/// Whether the subtable that begins at `start` has a state table.
fn is_machine(kern: &[u8], start: usize) -> bool
    requires { start < 2 ^ 34 }
    ensures { result ≡ old_tables.is_machine kern.now start }
{
    format(kern, start) == 1
}

/// Whether the subtable that begins at `start` moves glyphs across the line.
fn is_across(kern: &[u8], start: u32) -> bool
    ensures { result ≡ old_tables.is_across kern.now start }
{
    read_old_header(kern, start).is_cross_stream
}

/// Whether some subtable of `kern` has a state table, which HarfBuzz asks of a font before it makes
/// marks as wide as nothing.
#[tactic(auto, using(crate::proofs::OldTableLemmas::some_found, crate::proofs::OldTableLemmas::some_next, crate::proofs::OldTableLemmas::some_ended, crate::proofs::OldTableLemmas::some_over))]
pub fn has_machine(kern: &[u8]) -> bool
    ensures { result ≡ old_tables.has_machine kern.now }
{
    let mut start = first_start(kern);
    for _i in 0..subtable_count(kern) {
        if ends_table(kern, start) {
            return false;
        }
        if is_machine(kern, start) {
            return true;
        }
        start += stated_length(kern, start);
    }
    false
}

/// Whether some subtable of `kern` moves glyphs across the line.
#[tactic(auto, using(crate::proofs::OldTableLemmas::some_found, crate::proofs::OldTableLemmas::some_next, crate::proofs::OldTableLemmas::some_ended, crate::proofs::OldTableLemmas::some_over))]
pub fn has_across(kern: &[u8]) -> bool
    ensures { result ≡ old_tables.has_across kern.now }
{
    let mut start = first_start(kern);
    for _i in 0..subtable_count(kern) {
        if ends_table(kern, start) {
            return false;
        }
        if is_across(kern, start as u32) {
            return true;
        }
        start += stated_length(kern, start);
    }
    false
}

/// Whether a subtable is run as one of `kerx`.
fn runs_more(kern: &[u8], start: u32) -> bool
    ensures { result ≡ old_tables.runs_more kern.now start }
{
    let header = read_old_header(kern, start);
    !header.has_variation && (header.format == 1 || header.is_cross_stream)
}

impl<'a> OldKerning<'a> {
    /// A subtable, and what it is run with.
    fn kerning(&self, start: u32, is_last: bool) -> Kerning<'a>
        ensures { source_of result ≡ old_tables.source (font_of self.now) start is_last }
    {
        let from = start as usize;
        let end = (from + stated_length(self.kern, from)).min(self.kern.len());
        Kerning {
            subtable: Subtable {
                layout: Layout::Kern(start),
                bytes: if is_last {
                    self.kern
                } else {
                    &self.kern[..end]
                },
                glyphs: 0,
            },
            ankr: &[],
            scale: self.scale,
            mask: self.mask,
        }
    }
}

/// Runs a subtable. Returns whether each glyph follows the one before it in the line then.
fn run_any(
    table: &OldKerning<'_>,
    start: u32,
    is_last: bool,
    is_chained: bool,
    buffer: &mut hb_buffer_t,
) -> bool
    ensures made { buffer.new
        ≡ old_tables.one_more (font_of table.now) start is_last is_chained buffer.old }
    ensures chained { result
        ≡ old_tables.chained_after (font_of table.now) start is_last is_chained buffer.old }
    ensures limit { limit_of buffer.new ≡ limit_of buffer.old }
    ensures no_longer { length buffer.new.items ≤ length buffer.old.items }
{
    if runs_more(table.kern, start) {
        return run_one(&table.kerning(start, is_last), is_chained, buffer);
    }
    run_subtable(table.kern, table.scale, start as usize, table.mask, buffer);
    is_chained
}

/// Runs the subtables, one after the other. Returns whether each glyph follows the one before it in
/// the line then.
#[tactic(auto, using(crate::proofs::OldTableLemmas::runs_next, crate::proofs::OldTableLemmas::runs_ended, crate::proofs::OldTableLemmas::runs_spent, crate::proofs::OldTableLemmas::runs_over))]
fn run_each(table: &OldKerning<'_>, buffer: &mut hb_buffer_t) -> bool
    ensures made { old_tables.ended result buffer.new
        ≡ old_tables.runs_on (font_of table.now) (subtable_count_of table.now.kern.now)
        (header_rules.first_start table.now.kern.now) false buffer.old }
    ensures limit { limit_of buffer.new ≡ limit_of buffer.old }
    ensures no_longer { length buffer.new.items ≤ length buffer.old.items }
{
    let count = subtable_count(table.kern);
    let mut start = first_start(table.kern);
    let mut is_chained = false;
    for i in 0..count {
        if ends_table(table.kern, start) {
            return is_chained;
        }
        if !charge(buffer) {
            return is_chained;
        }
        is_chained = run_any(table, start as u32, i + 1 == count, is_chained, buffer);
        start += stated_length(table.kern, start);
    }
    is_chained
}

/// Ends a run, in which glyphs may follow others.
fn end(is_chained: bool, buffer: &mut hb_buffer_t)
    ensures { Made (old_tables.ended is_chained) buffer.old buffer.new }
{
    if is_chained {
        finish(buffer);
    }
}

/// Kerns a line by the table `kern`, of OpenType's version or of Apple's, as HarfBuzz's
/// `hb_ot_layout_kern` does: by pairs, by state tables, along the line and across it. What
/// subtables cost is taken of `max_ops`; one that what is left doesn't suffice for ends the run.
/// Glyphs that are moved across the line are left with their `attach_chain` and `attach_type`, for
/// `finish_offsets` of the layout. What is stored of the first subtable serves a table without a
/// state table that moves no glyph across the line. Takes no memory, and refuses nothing.
#[tactic(auto, unfolding(crate::specs::OldTables::kern_run), using(kern_table::specs::CountLaws::length_concat, kern_table::specs::CountLaws::limit_concat, crate::proofs::OldTableLemmas::run_of_pairs))]
pub fn run_kern(table: &OldKerning<'_>, first: Sides<'_>, buffer: &mut hb_buffer_t)
    requires { HoldSides table.now.kern.now 4 first.lefts.now first.rights.now }
    ensures { Made (old_tables.kern_run (font_of table.now)) buffer.old buffer.new }
{
    if !has_machine(table.kern) && !has_across(table.kern) {
        kern_table_by(table.kern, first, table.scale, table.mask, buffer);
        return;
    }
    buffer.unsafe_to_concat(0, buffer.len());
    let is_chained = run_each(table, buffer);
    end(is_chained, buffer);
}
