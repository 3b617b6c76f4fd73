//! Noncontextual subtables: each glyph by a lookup table.
ghost use Rattle.std.specs.Prelude.{◌≡◌};
ghost use Rattle.apple_substitution.specs.Noncontextual as noncontextual_rules;
ghost use Rattle.shape_buffer.specs.Outcome.{Made};
ghost use Rattle.shape_buffer.specs.Walks.{items_mapped};

use crate::glyphs::{Tables, glyph_by, replaced};
use crate::ranges::{Ranges, walk_work};
use shape_buffer::walks::update_items;
use shape_buffer::{hb_buffer_t, hb_glyph_info_t};

/// A noncontextual subtable.
#[derive(Clone, Copy)]
pub struct Noncontextual<'a> {
    /// What it reads of the font.
    pub tables: Tables<'a>,
    /// Where its lookup table begins.
    pub start: u32,
    /// Where features have it on.
    pub ranges: Ranges<'a>,
}

/// The glyph that the lookup table has in place of this one, where features have the subtable on.
#[tactic(auto, unfolding(crate::specs::Noncontextual::substituted_by))]
fn substituted(subtable: &Noncontextual<'_>, item: &hb_glyph_info_t) -> hb_glyph_info_t
    ensures { result ≡ noncontextual_rules.substituted subtable.now item.now }
{
    if !subtable.ranges.is_on(item.cluster) {
        return *item;
    }
    match glyph_by(&subtable.tables, subtable.start as usize, item.glyph_id) {
        Some(glyph) => replaced(subtable.tables.gdef, glyph, *item),
        None => *item,
    }
}

/// Puts in place of each glyph the one that the lookup table has.
fn substitute_each(subtable: &Noncontextual<'_>, buffer: &mut hb_buffer_t)
    ensures { Made (items_mapped (noncontextual_rules.substituted subtable.now))
        buffer.old buffer.new }
{
    update_items(buffer, |item| substituted(subtable, item));
}

/// Puts in place of each glyph the one that the lookup table has. Takes of the buffer's `max_ops`
/// what a walk costs; if less is left, nothing is done, and nothing is left. Takes no memory.
#[tactic(auto, unfolding(crate::specs::Noncontextual::all_substituted_by))]
pub fn substitute_all(subtable: &Noncontextual<'_>, buffer: &mut hb_buffer_t)
    ensures { Made (noncontextual_rules.all_substituted subtable.now) buffer.old buffer.new }
{
    let work = walk_work(&subtable.ranges, buffer.len());
    let left = buffer.max_ops();
    buffer.set_max_ops(left.saturating_sub(work));
    if work <= left {
        substitute_each(subtable, buffer);
    }
}
