//! What stretching preserves.
ghost use Rattle.shape_common.specs.Face.{FaceMeaning};
ghost use Rattle.shape_buffer.specs.Preservation.{IsClusterPreserving, IsFlagPreserving};
ghost use Rattle.arabic_stretching.specs.Stretching.{stretched};
ghost use Rattle.arabic_stretching.specs.Tiles.{tiles_recorded};

/// Noting tiles and stretching them preserve clusters and flags, whatever the face.
pub fn stretching_preserves()
    ensures noted_clusters { IsClusterPreserving tiles_recorded }
    ensures noted_flags { IsFlagPreserving tiles_recorded }
    ensures clusters { (face : FaceMeaning) → IsClusterPreserving (stretched face) }
    ensures flags { (face : FaceMeaning) → IsFlagPreserving (stretched face) }
{}
