//! What positioning by Apple's tables preserves.
ghost use Rattle.std.specs.Prelude.{◌≡◌, ℕ, List, Option, ◌≤◌, true};
ghost use Rattle.std.specs.Float.{Float};
ghost use Rattle.font_sizes.specs.declared.scales.Scale.{Scale as Size};
ghost use Rattle.shape_buffer.specs.Layout.{PreservesCount};
ghost use Rattle.shape_buffer.specs.Preservation.{IsClusterPreserving, IsFlagPreserving};
ghost use Rattle.shape_items.specs.Buffer.{Buffer};
ghost use Rattle.kern_table.specs.Tables.{table_kerned};
ghost use Rattle.apple_positioning.specs.OldTables.{Font as OldFont, is_plain, kern_run};
ghost use Rattle.apple_positioning.specs.Tables.{Font, table_run};
ghost use Rattle.apple_positioning.specs.Tracking.{run_tracked};

/// The table `kerx` preserves clusters and flags, whatever the bytes of the font are. No glyph
/// comes or goes, the limit of a run stays, and what is left of its work never rises.
pub fn kerx_preserves()
    ensures clusters { (f : Font) → IsClusterPreserving (table_run f) }
    ensures flags { (f : Font) → IsFlagPreserving (table_run f) }
    ensures count { (f : Font) → PreservesCount (table_run f) }
    ensures limit { (f : Font) (b : Buffer) → (table_run f b).length_limit ≡ b.length_limit }
    ensures left { (f : Font) (b : Buffer) → (table_run f b).max_ops ≤ b.max_ops }
{}

/// The table `trak` preserves all that `kerx` does, whatever the size of the font and its points
/// are.
pub fn trak_preserves()
    ensures clusters { (t : List ℕ) (size : Option Size) (points : Float) (mask : ℕ)
        → IsClusterPreserving (run_tracked t size points mask) }
    ensures flags { (t : List ℕ) (size : Option Size) (points : Float) (mask : ℕ)
        → IsFlagPreserving (run_tracked t size points mask) }
    ensures count { (t : List ℕ) (size : Option Size) (points : Float) (mask : ℕ)
        → PreservesCount (run_tracked t size points mask) }
    ensures limit { (t : List ℕ) (size : Option Size) (points : Float) (mask : ℕ) (b : Buffer)
        → (run_tracked t size points mask b).length_limit ≡ b.length_limit }
    ensures left { (t : List ℕ) (size : Option Size) (points : Float) (mask : ℕ) (b : Buffer)
        → (run_tracked t size points mask b).max_ops ≤ b.max_ops }
{}

/// The older table `kern` preserves all that `kerx` does, with state tables and without.
pub fn kern_preserves()
    ensures clusters { (f : OldFont) → IsClusterPreserving (kern_run f) }
    ensures flags { (f : OldFont) → IsFlagPreserving (kern_run f) }
    ensures count { (f : OldFont) → PreservesCount (kern_run f) }
    ensures limit { (f : OldFont) (b : Buffer) → (kern_run f b).length_limit ≡ b.length_limit }
    ensures left { (f : OldFont) (b : Buffer) → (kern_run f b).max_ops ≤ b.max_ops }
{}

/// A table `kern` without a state table that moves no glyph across the line kerns by pairs alone,
/// as `kern_table` does.
pub fn kern_without_machines_is_kerned_by_pairs()
    ensures { (f : OldFont) (b : Buffer) → is_plain f.kern ≡ true
        → kern_run f b ≡ table_kerned f.scale f.kern f.mask b }
{}
