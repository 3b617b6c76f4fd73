//! The last step over the list: each cluster gets one set of flags.
//!
//! Earlier steps mark single glyphs as unsafe to break or to concat, but a line can only be cut
//! between clusters. So the flags of a cluster's glyphs are united and each of them gets all: a
//! caller may then ask any one of them. The masks hold flags alone from here on.
//!
//! If the run has seen no flag, masks stay as they are.
ghost use Rattle.std.specs.Prelude.{◌≡◌, ◌==◌, false, IsTrue};
ghost use Rattle.std.specs.List.{prefix_len};
ghost use Rattle.std.specs.Int.RustNames.{bit_and};
ghost use Rattle.shape_items.specs.Flags as flag_rules;
ghost use Rattle.shape_glyphs.specs.FlagWalk.{handed_by, handed_by_run};
ghost use Rattle.shape_common.specs.FlagNames.{PRODUCE_UNSAFE_TO_CONCAT, UNSAFE_TO_CONCAT};
ghost use Rattle.shape_items.specs.PreservesFlags.{some_has};
ghost use Rattle.shape_items.specs.Items.{has_cluster};
ghost use Rattle.shape_buffer.specs.Outcome.{Made};
ghost use Rattle.shape_buffer.specs.Honest.{IsHonest};

use bitflags::Flags;
use shape_buffer::buffer::{
    BufferFlags, DEFINED, SAFE_TO_INSERT_TATWEEL, ScratchFlags, UNSAFE_TO_BREAK, UNSAFE_TO_CONCAT,
    hb_buffer_t, hb_glyph_info_t, hb_mask_t,
};

/// Whether the first of these items is of the cluster and the next one of another.
fn is_alone(infos: &[hb_glyph_info_t], cluster: u32) -> bool
    ensures { IsTrue result → prefix_len (has_cluster cluster) infos.now ≡ 1 }
{
    infos.len() > 1 && infos[0].cluster == cluster && infos[1].cluster != cluster
}

/// How many items at the beginning have the cluster.
fn count_in(infos: &[hb_glyph_info_t], cluster: u32) -> usize
    ensures { result ≡ prefix_len (has_cluster cluster) infos.now }
{
    infos
        .iter()
        .take_while(|info| info.cluster == cluster)
        .count()
}

/// The defined flags of the first items, as long as they are in the cluster, united.
fn united_flags(infos: &[hb_glyph_info_t], cluster: u32) -> hb_mask_t
    ensures { result ≡ flag_rules.first_united cluster infos.now }
{
    infos
        .iter()
        .take_while(|info| info.cluster == cluster)
        .fold(0, |united, info| united | info.mask & DEFINED)
}

/// The united flags of a cluster, if tatweel is asked for: a tatweel may not be put in where it is
/// unsafe to break, and where it may be put in it is unsafe to break and to concat.
fn with_tatweel(flags: BufferFlags, united: hb_mask_t) -> hb_mask_t
    ensures { result ≡ flag_rules.with_tatweel flags united }
{
    if !flags.contains(BufferFlags::PRODUCE_SAFE_TO_INSERT_TATWEEL) {
        united
    } else if united & UNSAFE_TO_BREAK == UNSAFE_TO_BREAK {
        united & (UNSAFE_TO_BREAK | UNSAFE_TO_CONCAT)
    } else if united & SAFE_TO_INSERT_TATWEEL == SAFE_TO_INSERT_TATWEEL {
        united | (UNSAFE_TO_BREAK | UNSAFE_TO_CONCAT)
    } else {
        united
    }
}

/// Which of the united flags of a cluster are handed out: unsafe to concat only if it is asked for.
fn handed_flags(flags: BufferFlags, united: hb_mask_t) -> hb_mask_t
    ensures { result ≡ flag_rules.handed_flags flags united }
{
    let tatweel = with_tatweel(flags, united);
    if flags.contains(BufferFlags::PRODUCE_UNSAFE_TO_CONCAT) {
        tatweel
    } else {
        tatweel & (UNSAFE_TO_BREAK | SAFE_TO_INSERT_TATWEEL)
    }
}

/// What the walk over the items hands on: the mask that an item got, and how many of those after it
/// get it, too.
#[derive(Clone, Copy, Debug)]
pub struct HandedOn {
    pub mask: hb_mask_t,
    pub left: usize,
}

/// What the first items hand on, if they are in the cluster. Kept out of line, since most clusters
/// have one item.
#[inline(never)]
fn hand_run_on(flags: BufferFlags, infos: &[hb_glyph_info_t], cluster: u32) -> HandedOn
    ensures { result ≡ handed_by_run flags cluster infos.now }
{
    HandedOn {
        mask: handed_flags(flags, united_flags(infos, cluster)),
        left: count_in(infos, cluster).saturating_sub(1),
    }
}

/// What the first of these items, which is of the cluster, gets, and how many of those after it get
/// it, too.
fn hand_on(
    flags: BufferFlags,
    before: HandedOn,
    infos: &[hb_glyph_info_t],
    cluster: u32,
) -> HandedOn
    ensures { result ≡ handed_by flags before cluster infos.now }
{
    if before.left > 0 {
        return HandedOn {
            left: before.left - 1,
            ..before
        };
    }
    if is_alone(infos, cluster) {
        return HandedOn {
            mask: handed_flags(flags, infos[0].mask & DEFINED),
            left: 0,
        };
    }
    hand_run_on(flags, infos, cluster)
}

/// Gives the items of each cluster the flags of all, if the run has seen flags.
fn share_flags(buffer: &mut hb_buffer_t)
    ensures { Made flag_rules.flags_propagated buffer.old buffer.new }
{
    if !buffer
        .scratch_flags()
        .contains(ScratchFlags::HAS_GLYPH_FLAGS)
    {
        return;
    }
    let flags = buffer.flags();
    let mut handed = HandedOn { mask: 0, left: 0 };
    for i in 0..buffer.len() {
        let mut info = buffer.infos()[i];
        handed = hand_on(flags, handed, &buffer.infos()[i..], info.cluster);
        info.mask = handed.mask;
        buffer.set_info(i, info);
    }
}

/// Gives each cluster one set of flags, if the run has seen flags: the defined bits of its items
/// united, as far as the caller asks for them, in place of each mask. If it hasn't seen any and no
/// item has one, nothing is to be done. Takes no memory.
pub fn propagate_flags(buffer: &mut hb_buffer_t)
    ensures made { Made flag_rules.flags_propagated buffer.old buffer.new }
    ensures one_set { IsHonest buffer.old → flag_rules.HasOneSetOfFlags buffer.new.items }
    ensures concat { IsHonest buffer.old
        → (bit_and buffer.old.flags.0 PRODUCE_UNSAFE_TO_CONCAT == PRODUCE_UNSAFE_TO_CONCAT) ≡ false
        → some_has UNSAFE_TO_CONCAT buffer.new.items ≡ false }
{
    share_flags(buffer);
}
