//! Positioning by the lookups of a plan, one after the other, in their order.
//!
//! Most lookups find no glyph of the text. What is stored of a lookup tells that at once: then it
//! is charged for its walk, and nothing of it is made ready.
ghost use Rattle.std.specs.Prelude.{◌≡◌, ◌<◌, ℕ, fold, true, false};
ghost use Rattle.shape_buffer.specs.Outcome.{Made};
ghost use Rattle.layout_digests.specs.Digests.{has};
ghost use Rattle.layout_digests.specs.Stored.{AreStored, IsHead};
ghost use Rattle.layout_digests.specs.WholeRules.{HoldWholes};
ghost use Rattle.layout_map.specs.declared.lookups.LookupMap.{LookupMap as MapOf};
ghost use Rattle.layout_matching.specs.Work.{walk_work};
ghost use Rattle.layout_positions.specs.Walk.{budgeted, lookup_applied};
ghost use Rattle.opentype_layout.specs.Engine.{positioned_by};
ghost use Rattle.opentype_layout.specs.Lookups.{lookup_by, lookups_of};

use crate::lookups::{LookupTables, Stored, list_of, made_ready, stored_at};
use layout_digests::{Digest, Head, StoredLookup};
use layout_map::lookups::LookupMap;
use layout_matching::work::PLAIN_WORK;
use layout_positions::walk;
use shape_buffer::hb_buffer_t;

/// Lookups of a type below this one name no others (OpenType, "GPOS Header").
const CONTEXT: u16 = 7;

/// Whether a lookup finds no glyph of a digest, and its type says what its walk costs.
#[inline(always)]
fn is_idle(known: &StoredLookup, head: &Head, run: &Digest) -> bool
    ensures plain { result ≡ true → head.now.kind < 7 }
    ensures apart { result ≡ true → (glyph : ℕ) → has run.now glyph ≡ true
        → has known.now.digest glyph ≡ false }
{
    head.kind < CONTEXT && !run.may_share(&known.digest)
}

/// What the walk of a lookup that names no others costs over so many items.
#[inline(always)]
fn plain_walk_work(tables: &LookupTables<'_>, head: &Head, count: usize) -> usize
    requires head { IsHead tables.now.table.now head.now }
    requires kind { tables.now.positioning ≡ true }
    requires plain { head.now.kind < 7 }
    ensures { (map : MapOf) → result ≡ walk_work (lookup_by tables.now map head.now) count }
{
    let parts = (head.subtables as usize).max(1);
    count.saturating_mul(parts * (PLAIN_WORK + tables.device_work as usize))
}

/// Goes over a buffer with each lookup of positioning, with what is stored of the table's, and
/// returns what is left. Each that isn't idle is made ready where it is its turn.
#[tactic(auto, using(crate::proofs::PositionLemmas::placed_on, crate::proofs::PositionLemmas::placed_over))]
fn apply_each(
    tables: LookupTables<'_>,
    stored: Stored<'_>,
    maps: &[LookupMap],
    buffer: &mut hb_buffer_t,
) -> usize
    requires kind { tables.positioning ≡ true }
    requires stored { AreStored tables.table.now true stored.firsts.now stored.lookups.now }
    requires wholes { HoldWholes tables.table.now true stored.wholes.now }
    ensures { record { buffer = buffer.new; left = result }
        ≡ fold lookup_applied (budgeted buffer.old) (lookups_of tables.entry maps.now) }
{
    let list = list_of(tables.table);
    let run = walk::run_digest(buffer.infos());
    let mut left = buffer.max_ops();
    for map in maps {
        let known = stored_at(tables, list, stored, map.index);
        let Some(head) = known.head else {
            continue;
        };
        if is_idle(&known, &head, &run) {
            left = left.saturating_sub(plain_walk_work(&tables, &head, buffer.len()));
            continue;
        }
        let named = made_ready(tables, stored, map, &known, &head);
        left = walk::apply_within(&named, &run, buffer, left);
    }
    left
}

/// Applies the lookups of positioning, with what is stored of the table's.
#[tactic(auto, unfolding(crate::specs::Engine::positioned_by))]
pub(crate) fn position_by(
    tables: LookupTables<'_>,
    stored: Stored<'_>,
    maps: &[LookupMap],
    buffer: &mut hb_buffer_t,
)
    requires kind { tables.positioning ≡ true }
    requires stored { AreStored tables.table.now true stored.firsts.now stored.lookups.now }
    requires wholes { HoldWholes tables.table.now true stored.wholes.now }
    ensures { Made (positioned_by tables.entry maps.now) buffer.old buffer.new }
{
    let left = apply_each(tables, stored, maps, buffer);
    buffer.set_max_ops(left);
}
