//! Deletion of glyphs, in place and without memory.
//!
//! The kept glyphs are moved to the front, one by one. Before a picked glyph goes, its cluster is
//! handed on, so that no piece of the text is without a glyph that leads to it.
//!
//! A kept run of one cluster may take smaller clusters again and again. So the kept items stand as
//! runs whose writing is put off, and each item is written once.
//!
//! The test sees each item once, as it stands when it is reached, after what earlier picks
//! changed in its cluster and flags. A cluster is handed on together with defined bits but
//! without the scratch flag, so of flags the weaker half is promised: one that no item had comes
//! only with the scratch flag.
ghost use Rattle.std.specs.Prelude.{◌≡◌, ◌+◌, ◌<◌, ◌≤◌, List, [], ◌∷◌, ◌++◌, length, take, drop};
ghost use Rattle.std.specs.Prelude.{Bool};
ghost use Rattle.std.specs.Fn.{FnReturnsAt};
ghost use Rattle.shape_items.specs.Items.{Item};
ghost use Rattle.shape_items.specs.Buffer.{Buffer};
ghost use Rattle.shape_items.specs.BufferClusters.{merge_clusters};
ghost use Rattle.shape_items.specs.Delete;
ghost use Rattle.shape_items.specs.Unwritten.{StandsFor};

use crate::clusters::unwritten::{give_to_last, open_run, write_runs};
use crate::clusters::{mark_break, merge_items};
use crate::items::hb_glyph_info_t;
use bitflags::Flags;
use shape_common::{BufferClusterLevel, GlyphPosition, ScratchFlags};

/// Merges the first two items, as a buffer of that level does.
fn merge_first_two(
    infos: &mut [hb_glyph_info_t],
    scratch_flags: &mut ScratchFlags,
    level: BufferClusterLevel,
)
    requires { 2 ≤ length infos.old }
    ensures { (b : Buffer) → b.cluster_level ≡ level
        → record b { items = infos.new; scratch_flags = scratch_flags.new }
        ≡ merge_clusters 0 2 (record b { items = infos.old; scratch_flags = scratch_flags.old }) }
{
    if level == BufferClusterLevel::Characters {
        scratch_flags.insert(ScratchFlags::HAS_GLYPH_FLAGS);
        mark_break(infos, 0, 2);
    } else {
        merge_items(infos, 0, 2);
    }
}

/// Where a walk stands: how many items it has kept, and the place that it looks at.
#[derive(Clone, Copy)]
struct Spot {
    kept: usize,
    at: usize,
}

/// Hands the cluster of the picked glyph at a spot on, if the items that were kept stand as runs
/// that begin at `starts`; gives how many runs there are.
fn hand_on(
    infos: &mut [hb_glyph_info_t],
    starts: &[usize],
    scratch_flags: &mut ScratchFlags,
    level: BufferClusterLevel,
    spot: Spot,
    picked: &hb_glyph_info_t,
) -> usize
    requires kept_le { spot.kept ≤ spot.at }
    requires within { spot.at < length infos.old }
    requires stands { (given : List Item) × StandsFor (take spot.kept infos.old) starts.now given }
    ensures handed { (given : List Item) → StandsFor (take spot.kept infos.old) starts.now given
        → (left : List Item) × StandsFor (take spot.kept infos.new) (take result starts.now) left
        × ((b : Buffer) → b.cluster_level ≡ level
        → record b { items = left ++ drop spot.at infos.new; scratch_flags = scratch_flags.new }
        ≡ Delete.hand_on spot.kept picked.now (drop (spot.at + 1) infos.old)
        (record b { items = given ++ drop spot.at infos.old; scratch_flags = scratch_flags.old })) }
    ensures as_many { length infos.new ≡ length infos.old }
    ensures at_most { result ≤ length starts.now }
{
    let kept = spot.kept;
    let i = spot.at;
    let items: &[hb_glyph_info_t] = infos;
    if begins_in(&items[i + 1..], picked.cluster) {
        return starts.len();
    }
    if 0 < kept {
        return give_to_last(&mut infos[..kept], starts, picked);
    }
    if i + 1 < infos.len() {
        merge_first_two(&mut infos[i..], scratch_flags, level);
    }
    starts.len()
}

/// Whether the first item is in the cluster.
fn begins_in(infos: &[hb_glyph_info_t], cluster: u32) -> bool
    ensures { result ≡ Delete.begins_in cluster infos.now }
{
    match infos.split_first() {
        None => false,
        Some((first, _)) => first.cluster == cluster,
    }
}

/// Deletes the glyphs that the test picks, from a buffer of that level. `starts` has room for a
/// number for each item.
pub fn delete_items<F: Fn(&hb_glyph_info_t) -> bool>(
    infos: &mut Vec<hb_glyph_info_t>,
    positions: &mut Vec<GlyphPosition>,
    starts: &mut [usize],
    scratch_flags: &mut ScratchFlags,
    level: BufferClusterLevel,
    test: F,
)
where
    F: Drop,
    requires callable { F.IsAlwaysCallable test }
    requires as_many { length positions.old.items ≡ length infos.old.items }
    requires room { length infos.old.items ≤ length starts.old }
    ensures deleted { (picks : Item → Bool)
        → ((x : Item) (b : Bool) → FnReturnsAt F.Fn test x b → b ≡ picks x)
        → (b : Buffer) → b.cluster_level ≡ level
        → record b {
          items = infos.new.items;
          positions = positions.new.items;
          scratch_flags = scratch_flags.new;
        } ≡ Delete.deleted picks (record b {
          items = infos.old.items;
          positions = positions.old.items;
          scratch_flags = scratch_flags.old;
        }) }
    ensures as_many { length positions.new.items ≡ length infos.new.items }
    ensures fewer { length infos.new.items ≤ length infos.old.items }
    ensures room { length starts.new ≡ length starts.old }
{
    let len = infos.len();
    let mut kept = 0;
    let mut runs = 0;
    for i in 0..len {
        let info = infos[i];
        if !test(&info) {
            runs = open_run(&infos[..kept], starts, runs, info.cluster);
            infos[kept] = info;
            positions[kept] = positions[i];
            kept += 1;
            continue;
        }
        runs = hand_on(
            infos.as_mut_slice(),
            &starts[..runs],
            scratch_flags,
            level,
            Spot { kept, at: i },
            &info,
        );
    }
    infos.truncate(kept);
    positions.truncate(kept);
    write_runs(infos.as_mut_slice(), &starts[..runs]);
}
