//! What ranges of features mean, and what the table `morx` preserves.
ghost use Rattle.std.specs.Prelude.{◌≡◌, ◌≤◌, List};
ghost use Rattle.shape_common.specs.declared.text_types.Feature.{Feature};
ghost use Rattle.shape_buffer.specs.Layout.{PreservesCount};
ghost use Rattle.shape_buffer.specs.Preservation.{IsClusterPreserving, IsFlagPreserving};
ghost use Rattle.shape_items.specs.Buffer.{Buffer};
ghost use Rattle.apple_substitution.specs.ChainRuns.{Source};
ghost use Rattle.apple_substitution.specs.Chains.{deleted_narrowed, without_deleted};
ghost use Rattle.apple_substitution.specs.FeatureMapLaws.{RangesHold, ChainsHold};
ghost use Rattle.apple_substitution.specs.Metamorphosis.{metamorphosed};
ghost use Rattle.apple_substitution.specs.Substitution.{Font, substituted};

/// In each cluster below the greatest one the settings of its range, the first that doesn't end
/// before it, are those that are chosen there. So a chain has a subtable on there by its flags for
/// those settings.
pub fn ranges_have_what_is_chosen_in_each_cluster()
    ensures ranges { RangesHold }
    ensures chains { ChainsHold }
{}

/// The table `morx` preserves clusters and flags, whatever the bytes of the font are and whatever
/// features are asked for. The limit of a run stays, and what is left of its work never rises.
pub fn morx_preserves()
    ensures clusters { (s : Source) → IsClusterPreserving (metamorphosed s) }
    ensures flags { (s : Source) → IsFlagPreserving (metamorphosed s) }
    ensures limit { (s : Source) (b : Buffer)
        → (metamorphosed s b).length_limit ≡ b.length_limit }
    ensures left { (s : Source) (b : Buffer) → (metamorphosed s b).max_ops ≤ b.max_ops }
{}

/// So does substitution by the tables of a font, whatever features are asked for.
pub fn substitution_preserves()
    ensures clusters { (f : Font) (features : List Feature)
        → IsClusterPreserving (substituted f features) }
    ensures flags { (f : Font) (features : List Feature)
        → IsFlagPreserving (substituted f features) }
    ensures limit { (f : Font) (features : List Feature) (b : Buffer)
        → (substituted f features b).length_limit ≡ b.length_limit }
    ensures left { (f : Font) (features : List Feature) (b : Buffer)
        → (substituted f features b).max_ops ≤ b.max_ops }
{}

/// The end of a run, which removes the glyphs that ligatures left as deleted, preserves clusters and
/// flags, too, and doesn't raise what is left of the work.
pub fn removing_deleted_glyphs_preserves()
    ensures clusters { IsClusterPreserving without_deleted }
    ensures flags { IsFlagPreserving without_deleted }
    ensures left { (b : Buffer) → (without_deleted b).max_ops ≤ b.max_ops }
{}

/// Where they stay, they lose their advances and offsets; that preserves clusters, flags and the
/// number of glyphs, and leaves what is left of the work.
pub fn narrowing_deleted_glyphs_preserves()
    ensures clusters { IsClusterPreserving deleted_narrowed }
    ensures flags { IsFlagPreserving deleted_narrowed }
    ensures count { PreservesCount deleted_narrowed }
    ensures left { (b : Buffer) → (deleted_narrowed b).max_ops ≡ b.max_ops }
{}
