//! A run of the whole table `kerx` over a line: its subtables one after the other.
ghost use Rattle.std.specs.Prelude.{◌≡◌, ◌≤◌, ◌||◌, length, nat_lt, not, false, if◌then◌else◌};
ghost use Rattle.apple_positioning.specs.Chains as chain_rules;
ghost use Rattle.apple_positioning.specs.Runs.{source_of};
ghost use Rattle.apple_positioning.specs.Tables as table_rules;
ghost use Rattle.apple_positioning.specs.Tables.{font_of};
ghost use Rattle.shape_buffer.specs.Outcome.{Made};
ghost use Rattle.shape_buffer.specs.PositionWalks.{positions_mapped};
ghost use Rattle.shape_items.specs.Buffer.{limit_of};
ghost use Rattle.shape_items.specs.Items.{Item};

use crate::chains::{Chain, subtable_count};
use crate::runs::{HAS_ATTACHMENT, Kerning};
use crate::subtables::{is_for, run_subtable};
use crate::values::{Layout, Subtable};
use font_sizes::Scale;
use kern_table::tables::charge;
use shape_buffer::buffer::{GlyphPosition, hb_buffer_t, hb_mask_t};
use shape_buffer::position_walks::update_positions;

/// What a run of the table reads of the font, and where kerning is on.
#[derive(Clone, Copy)]
pub struct ExtendedKerning<'a> {
    /// The table `kerx`.
    pub kerx: &'a [u8],
    /// The table `ankr`, empty if the font has none.
    pub ankr: &'a [u8],
    /// How many glyphs the font has.
    pub glyphs: u32,
    /// The size of the font, if it has one; else positions are in units of the em square.
    pub scale: Option<Scale>,
    /// The mask of kerning, with which a glyph shares a bit if kerning is on for it. 0 if it is off
    /// everywhere.
    pub mask: hb_mask_t,
}

impl<'a> ExtendedKerning<'a> {
    /// A subtable, and what it is run with.
    fn kerning(&self, bytes: &'a [u8]) -> Kerning<'a>
        ensures { source_of result ≡ table_rules.source (font_of self.now) bytes.now }
    {
        Kerning {
            subtable: Subtable {
                layout: Layout::Kerx,
                bytes,
                glyphs: self.glyphs,
            },
            ankr: self.ankr,
            scale: self.scale,
            mask: self.mask,
        }
    }
}

/// The position of a glyph that follows the one before it in the line.
fn chained(forward: bool, position: GlyphPosition) -> GlyphPosition
    ensures { result ≡ table_rules.chained forward position }
{
    let mut position = position;
    position.attach_type = 2;
    position.attach_chain = if forward { -1 } else { 1 };
    position
}

/// Has each glyph follow the one before it in the line.
fn chain_each(forward: bool, buffer: &mut hb_buffer_t)
    ensures { Made (positions_mapped (λ (item : Item). table_rules.chained forward))
        buffer.old buffer.new }
{
    update_positions(buffer, |_info, position| chained(forward, position));
}

/// The position of a glyph that follows none.
fn loose(position: GlyphPosition) -> GlyphPosition
    ensures { result ≡ table_rules.loose position }
{
    let mut position = position;
    position.attach_chain = 0;
    position
}

/// Has no glyph follow another one.
fn free_each(buffer: &mut hb_buffer_t)
    ensures { Made (positions_mapped (λ (item : Item). table_rules.loose)) buffer.old buffer.new }
{
    update_positions(buffer, |_info, position| loose(position));
}

/// Ends a run: if no glyph was moved across the line or attached, none follows another one.
#[tactic(auto, unfolding(crate::specs::Tables::finished))]
pub(crate) fn finish(buffer: &mut hb_buffer_t)
    ensures { Made table_rules.finished buffer.old buffer.new }
{
    if buffer.scratch_flags().0 & HAS_ATTACHMENT.0 == 0 {
        free_each(buffer);
    }
}

/// Whether a subtable is the first one that is for lines of this kind and moves glyphs across them.
pub(crate) fn chains(kerning: &Kerning<'_>, is_chained: bool, buffer: &hb_buffer_t) -> bool
    ensures { result ≡ table_rules.chains (source_of kerning.now) is_chained buffer.now }
{
    let header = kerning.subtable.header();
    !is_chained && header.is_cross_stream && is_for(header, buffer.direction().is_horizontal())
}

/// Has each glyph follow the one before it, if a subtable is the first one that needs that.
fn prepare(kerning: &Kerning<'_>, is_chained: bool, buffer: &mut hb_buffer_t) -> bool
    ensures made { buffer.new ≡ (if table_rules.chains (source_of kerning.now) is_chained buffer.old
        then table_rules.all_chained buffer.old else buffer.old) }
    ensures chained { result
        ≡ (is_chained || table_rules.chains (source_of kerning.now) is_chained buffer.old) }
    ensures limit { limit_of buffer.new ≡ limit_of buffer.old }
    ensures no_longer { length buffer.new.items ≤ length buffer.old.items }
{
    if !chains(kerning, is_chained, buffer) {
        return is_chained;
    }
    chain_each(buffer.direction().is_forward(), buffer);
    true
}

/// Runs a subtable, before which each glyph follows the one before it if it is the first one that
/// needs that. Returns whether they do so.
pub(crate) fn run_one(kerning: &Kerning<'_>, is_chained: bool, buffer: &mut hb_buffer_t) -> bool
    ensures made { buffer.new ≡ table_rules.one_run (source_of kerning.now) is_chained buffer.old }
    ensures chained { result
        ≡ (is_chained || table_rules.chains (source_of kerning.now) is_chained buffer.old) }
    ensures limit { limit_of buffer.new ≡ limit_of buffer.old }
    ensures no_longer { length buffer.new.items ≤ length buffer.old.items }
{
    let is_chained = prepare(kerning, is_chained, buffer);
    run_subtable(kerning, buffer);
    is_chained
}

/// Runs the subtables, one after the other.
#[tactic(auto, using(crate::proofs::TableLemmas::runs_next, crate::proofs::TableLemmas::runs_spent, crate::proofs::TableLemmas::runs_none, crate::proofs::TableLemmas::runs_over))]
fn run_each(table: &ExtendedKerning<'_>, buffer: &mut hb_buffer_t)
    ensures made { buffer.new ≡ table_rules.runs_from (font_of table.now)
        (chain_rules.subtables_of table.now.kerx.now) false buffer.old }
    ensures limit { limit_of buffer.new ≡ limit_of buffer.old }
    ensures no_longer { length buffer.new.items ≤ length buffer.old.items }
{
    let mut chain = Chain::of(table.kerx);
    let mut is_chained = false;
    for _i in 0..subtable_count(table.kerx) {
        let Some(bytes) = chain.next_subtable() else {
            return;
        };
        if !charge(buffer) {
            return;
        }
        is_chained = run_one(&table.kerning(bytes), is_chained, buffer);
    }
}

/// Kerns a line by the table `kerx`, as HarfBuzz's `hb_aat_layout_position` does: its subtables one
/// after the other, those that are for lines of this kind. What they cost is taken of the buffer's
/// `max_ops`; a subtable that what is left doesn't suffice for ends the run. Glyphs that are moved
/// across the line or attached are left with their `attach_chain` and `attach_type`, for
/// `finish_offsets` of the layout. Takes no memory, and refuses nothing.
#[tactic(auto, unfolding(crate::specs::Tables::table_run), using(kern_table::specs::CountLaws::length_concat, kern_table::specs::CountLaws::limit_concat))]
pub fn run_table(table: &ExtendedKerning<'_>, buffer: &mut hb_buffer_t)
    ensures { Made (table_rules.table_run (font_of table.now)) buffer.old buffer.new }
{
    buffer.unsafe_to_concat(0, buffer.len());
    run_each(table, buffer);
    finish(buffer);
}
