//! Runs of items whose writing is put off.
//!
//! A run of one cluster may take smaller clusters again and again. So that each item is written
//! once, only the last item of the run is, and where each run begins is noted. An item of a run
//! whose last item ends in a smaller cluster than its own has taken that one's: it is written at
//! the end.
ghost use Rattle.std.specs.Prelude.{◌≡◌, ◌+◌, ◌<◌, ◌≤◌, List, [], ◌∷◌, ◌++◌, length, take};
ghost use Rattle.shape_items.specs.Items.{Item};
ghost use Rattle.shape_items.specs.Delete;
ghost use Rattle.shape_items.specs.Unwritten;

use crate::items::{DEFINED, hb_glyph_info_t};

/// Gives the picked item's cluster and flags to an item.
fn hand_over(info: &mut hb_glyph_info_t, picked: &hb_glyph_info_t)
    ensures { info.new ≡ Delete.hand_over picked.now info.old }
{
    info.cluster = picked.cluster;
    info.mask = (info.mask & !DEFINED) | (picked.mask & DEFINED);
}

/// Writes the item before one that is written: it takes that one's cluster if it is smaller.
fn follow(info: &mut hb_glyph_info_t, next: &hb_glyph_info_t)
    ensures { info.new ≡ Unwritten.follow info.old (next.now ∷ []) }
{
    if next.cluster < info.cluster {
        hand_over(info, next);
    }
}

/// Writes a run, from its end.
fn write_run(infos: &mut [hb_glyph_info_t])
    ensures { infos.new ≡ Unwritten.written infos.old }
{
    let mut i = infos.len();
    while 1 < i {
        i -= 1;
        let next = infos[i];
        follow(&mut infos[i - 1], &next);
    }
}

/// Writes every run of kept items.
pub(super) fn write_runs(infos: &mut [hb_glyph_info_t], starts: &[usize])
    requires { (given : List Item) × Unwritten.StandsFor infos.old starts.now given }
    ensures { (given : List Item) → Unwritten.StandsFor infos.old starts.now given
        → infos.new ≡ given }
{
    let mut end = infos.len();
    let mut count = starts.len();
    while 0 < count {
        count -= 1;
        let start = starts[count];
        write_run(&mut infos[start..end]);
        end = start;
    }
}

/// Notes where an item of that cluster, kept after these, begins a run; gives how many runs there
/// are.
pub(super) fn open_run(
    kept: &[hb_glyph_info_t],
    starts: &mut [usize],
    count: usize,
    cluster: u32,
) -> usize
    requires { count < length starts.old }
    ensures stands { (x : Item) → x.cluster ≡ cluster → (given : List Item)
        → Unwritten.StandsFor kept.now (take count starts.old) given
        → Unwritten.StandsFor (kept.now ++ x ∷ []) (take result starts.new) (given ++ x ∷ []) }
    ensures at_most { result ≤ count + 1 }
    ensures as_many { length starts.new ≡ length starts.old }
{
    let len = kept.len();
    if len == 0 {
        starts[count] = len;
        return count + 1;
    }
    if kept[len - 1].cluster == cluster {
        return count;
    }
    starts[count] = len;
    count + 1
}

/// Gives the picked item's cluster and flags to the last run, if that cluster is below the run's;
/// gives how many runs there are, one fewer if the last one joins the one before it.
pub(super) fn give_to_last(
    infos: &mut [hb_glyph_info_t],
    starts: &[usize],
    picked: &hb_glyph_info_t,
) -> usize
    requires some { 0 < length infos.old }
    requires stands { (given : List Item) × Unwritten.StandsFor infos.old starts.now given }
    ensures stands { (given : List Item) → Unwritten.StandsFor infos.old starts.now given
        → Unwritten.StandsFor infos.new (take result starts.now)
        (Delete.give_to_kept (length infos.old) picked.now given) }
    ensures as_many { length infos.new ≡ length infos.old }
    ensures at_most { result ≤ length starts.now }
{
    let last = infos.len() - 1;
    let count = starts.len();
    if infos[last].cluster <= picked.cluster {
        return count;
    }
    hand_over(&mut infos[last], picked);
    let start = starts[count - 1];
    if start == 0 {
        return count;
    }
    if infos[start - 1].cluster != picked.cluster {
        return count;
    }
    count - 1
}
