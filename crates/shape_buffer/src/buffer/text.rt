//! The characters of a text as items.
ghost use Rattle.std.specs.Prelude.{◌≡◌, ◌++◌, ◌∷◌, ◌<◌, ◌^◌, [], if◌then◌else◌, is_ok, length, take, All, OnOk};
ghost use Rattle.std.specs.List.Sorted.{IsNonDecreasing};
ghost use Rattle.shape_items.specs.Clusters.{clusters};
ghost use Rattle.shape_items.specs.Items.{new_item};
ghost use Rattle.shape_buffer.specs.Text.{text_items, numbered_from, IsFirstByte};

use shape_items::hb_glyph_info_t;
use std::alloc::AllocError;

/// Appends an item for a character. Where there is room, which is nearly always, no call is made.
#[inline(always)]
fn push_char(infos: &mut Vec<hb_glyph_info_t>, c: char, cluster: u32) -> Result<(), AllocError>
    ensures { infos.new.items
        ≡ (if is_ok result then infos.old.items ++ new_item c cluster ∷ [] else infos.old.items) }
{
    if infos.len() < infos.capacity() {
        infos.push_reserved(hb_glyph_info_t::new(c, cluster));
        return Ok(());
    }
    infos.push(hb_glyph_info_t::new(c, cluster))?;
    Ok(())
}

/// Appends the items of a text; if memory runs out, what was there still stands first.
pub(crate) fn append_text(infos: &mut Vec<hb_glyph_info_t>, text: &str) -> Result<(), AllocError>
    requires { length text.now < 2 ^ 32 }
    ensures ok { OnOk result (infos.new.items ≡ infos.old.items ++ text_items text.now) }
    ensures before { take (length infos.old.items) infos.new.items ≡ infos.old.items }
    ensures clusters { IsNonDecreasing (clusters (text_items text.now))
        × All (λ item. item.cluster < length text.now) (text_items text.now) }
    ensures first { All (IsFirstByte text.now) (text_items text.now) }
{
    for (offset, c) in text.char_indices() {
        push_char(infos, c, offset as u32)?;
    }
    Ok(())
}

/// Puts each item in the cluster of its place. What lies beyond 32 bits is in the greatest cluster.
pub(crate) fn number_clusters(infos: &mut [hb_glyph_info_t])
    ensures { infos.new ≡ numbered_from 0 infos.old }
{
    let mut cluster: u32 = 0;
    for info in infos.iter_mut() {
        info.cluster = cluster;
        cluster = cluster.saturating_add(1);
    }
}
