//! How a ligature is made: which are its components, its id, and where the lookup goes on after it.
ghost use Rattle.std.specs.Prelude.{◌≡◌, ◌<◌, ◌+◌, ◌-◌, ◌^◌, length};
ghost use Rattle.layout_substitution.specs.Applied.{with_as_many_after};
ghost use Rattle.layout_substitution.specs.Ligatures;

use crate::apply::Spot;
use crate::edits::{item, next_place};
use crate::ligature::{Components, Ligation, component_row};
use layout_buffer::GapBuffer;
use layout_matching::input::{is_mark_glyph, seek_input};
use layout_matching::lookup::Lookup;
use shape_buffer::hb_glyph_info_t;

/// What a mark costs that follows a ligature, since it is written anew.
const FOLLOWED: usize = 4;

/// Whether the ligature isn't one of marks, or of a base and marks.
fn is_own(found: Components, first: &hb_glyph_info_t) -> bool
    ensures { result ≡ Ligatures.is_own found first.now }
{
    !(found.all_marks && first._hb_glyph_info_get_glyph_class().0 & 10 != 0)
}

/// Gives the ligature an id if it has one of its own. Returns the id, 0 for none.
fn give_id(buffer: &mut GapBuffer, own: bool) -> u8
    ensures id { result ≡ Ligatures.id_of own buffer.old }
    ensures given { buffer.new ≡ Ligatures.id_given own buffer.old }
{
    if own { buffer.allocate_lig_id() } else { 0 }
}

/// How the ligature is made; it is given its id.
#[tactic(auto, using(crate::proofs::LigatureLemmas::length_given))]
pub(crate) fn how_to_ligate(
    lookup: &Lookup<'_>,
    buffer: &mut GapBuffer,
    at: usize,
    found: Components,
) -> Ligation
    requires near { found.ligature < 2 ^ 37 }
    ensures how { result ≡ Ligatures.ligation_of lookup.now at buffer.old found }
    ensures given { buffer.new ≡ Ligatures.id_given result.own buffer.old }
    ensures as_many { length buffer.new.items ≡ length buffer.old.items }
{
    let first = item(buffer, at);
    let own = is_own(found, &first);
    Ligation {
        seek: seek_input(lookup, &first, component_row(lookup, found.ligature)),
        own,
        marks: found.all_marks && is_mark_glyph(&first),
        id: give_id(buffer, own),
    }
}

/// How many items are after the one at `last`.
pub(crate) fn count_behind(buffer: &GapBuffer, last: usize) -> usize
    requires { last < length buffer.now.items }
    ensures { result ≡ length buffer.now.items - (last + 1) }
{
    let count = buffer.len();
    count.saturating_sub(next_place(count, last))
}

/// The spot where so many items are left, charged for those that followed the ligature up to `end`.
pub(crate) fn with_left(buffer: &GapBuffer, spot: Spot, left: usize, end: usize) -> Spot
    ensures { result ≡ Ligatures.following_charged end (with_as_many_after left spot buffer.now) }
{
    let mut next = spot;
    next.at = buffer.len().saturating_sub(left);
    let followed = end.saturating_sub(next.at).saturating_mul(FOLLOWED);
    next.left = spot.left.saturating_sub(followed);
    next
}
