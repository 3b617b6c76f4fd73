//! Which glyphs can be cut into lines.
ghost use Rattle.std.specs.Prelude.{◌≡◌, ◌↔◌, true, nat_lt};
ghost use Rattle.std.specs.List.{list_all};
ghost use Rattle.std.specs.List.Sorted.{IsNonDecreasing};
ghost use Rattle.shape_items.specs.ClusterOrder.{IsNonIncreasing};
ghost use Rattle.shape_items.specs.Clusters.{clusters};
ghost use Rattle.shape_items.specs.Flags.{HasOneSetOfFlags};
ghost use Rattle.shape_lines.specs.CanCut.{CanCut, IsMonotone};

use shape_buffer::buffer::{DEFINED, GlyphBuffer, hb_glyph_info_t};

/// Whether the glyphs of a text that ends at this cluster can be cut into lines: exactly when their
/// clusters never fall or never rise, neighbours in one cluster have the same flags, and each
/// cluster is below the end of the text. So every empty buffer can be. `shape` gives the first two
/// at the monotone levels. Takes no memory.
pub fn can_cut(glyphs: &GlyphBuffer, text_end: u32) -> bool
    ensures { (result ≡ true) ↔ CanCut glyphs.now text_end }
{
    let infos = glyphs.glyph_infos();
    is_monotone(infos) && has_one_set_of_flags(infos) && is_below(infos, text_end)
}

/// Whether the clusters never fall, or never rise.
fn is_monotone(infos: &[hb_glyph_info_t]) -> bool
    ensures { (result ≡ true) ↔ IsMonotone (clusters infos.now) }
{
    clusters_rise(infos) || clusters_fall(infos)
}

/// Whether no glyph's cluster is below that of one before it.
fn clusters_rise(infos: &[hb_glyph_info_t]) -> bool
    ensures { (result ≡ true) ↔ IsNonDecreasing (clusters infos.now) }
{
    infos.is_sorted_by(|info, next| info.cluster <= next.cluster)
}

/// Whether no glyph's cluster is above that of one before it.
fn clusters_fall(infos: &[hb_glyph_info_t]) -> bool
    ensures { (result ≡ true) ↔ IsNonIncreasing (clusters infos.now) }
{
    infos.is_sorted_by(|info, next| next.cluster <= info.cluster)
}

/// Whether neighbours in one cluster have the same three flags.
fn has_one_set_of_flags(infos: &[hb_glyph_info_t]) -> bool
    ensures { (result ≡ true) ↔ HasOneSetOfFlags infos.now }
{
    infos.is_sorted_by(|info, next| {
        info.cluster != next.cluster || info.mask & DEFINED == next.mask & DEFINED
    })
}

/// Whether each cluster is below the end of the text.
fn is_below(infos: &[hb_glyph_info_t], text_end: u32) -> bool
    ensures { result ≡ list_all (λ info. nat_lt info.cluster text_end) infos.now }
{
    infos.iter().all(|info| info.cluster < text_end)
}
