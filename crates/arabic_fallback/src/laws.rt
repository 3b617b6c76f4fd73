//! What the fallback preserves.
ghost use Rattle.std.specs.Prelude.{ℕ, Option};
ghost use Rattle.shape_common.specs.Face.{FaceMeaning};
ghost use Rattle.shape_buffer.specs.Preservation.{IsClusterPreserving, IsFlagPreserving};
ghost use Rattle.arabic_fallback.specs.Fallback.{fallback_shaped};
ghost use Rattle.arabic_fallback.specs.declared.classes.GlyphClass.{GlyphClass as AnyClass};
ghost use Rattle.arabic_fallback.specs.declared.fallback.FallbackMasks.{FallbackMasks as AnyMasks};

/// The fallback preserves clusters and flags, whatever the face, the classes of its glyphs and the
/// masks are.
pub fn fallback_preserves()
    ensures clusters { (face : FaceMeaning) (classes : ℕ → Option AnyClass) (masks : AnyMasks)
        → IsClusterPreserving (fallback_shaped face classes masks) }
    ensures flags { (face : FaceMeaning) (classes : ℕ → Option AnyClass) (masks : AnyMasks)
        → IsFlagPreserving (fallback_shaped face classes masks) }
{}
