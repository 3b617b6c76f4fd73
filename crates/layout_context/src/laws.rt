//! What lookups and stages of substitution preserve.
ghost use Rattle.std.specs.Prelude.{◌≡◌, ◌≤◌, ◌<◌, ◌+◌, ◌-◌, ℕ, Bool, List, All, length, false};
ghost use Rattle.shape_buffer.specs.Preservation.{IsClusterPreserving, IsFlagPreserving};
ghost use Rattle.shape_items.specs.Buffer.{Buffer};
ghost use Rattle.shape_items.specs.ClusterOrder.{PreservesClusters};
ghost use Rattle.shape_items.specs.Clusters.{clusters};
ghost use Rattle.shape_items.specs.PreservesFlags.{PreservesFlags};
ghost use Rattle.layout_matching.specs.Found.{is_context};
ghost use Rattle.layout_matching.specs.declared.lookup.Lookup.{Lookup as LookupOf};
ghost use Rattle.layout_substitution.specs.Edits.{is_past};
ghost use Rattle.layout_substitution.specs.Off.{off_glyphs, HasNoFlag};
ghost use Rattle.layout_substitution.specs.declared.apply.Spot.{Spot as SpotOf};
ghost use Rattle.layout_context.specs.Covered.{CoversNone};
ghost use Rattle.layout_context.specs.Labels.{labelled, around, with_more, without_first};
ghost use Rattle.layout_context.specs.Nested.{nested_applied};
ghost use Rattle.layout_context.specs.Places.{renumbered};
ghost use Rattle.layout_context.specs.Stage.{stage_applied};
ghost use Rattle.layout_context.specs.Stages.{Walk, looked_up, substituted};
ghost use Rattle.layout_context.specs.Tries.{Substitutes, substitute_tries};

/// A lookup preserves clusters and flags with as many levels of nested ones as it may have,
/// whatever the font's bytes are.
pub fn nested_lookups_preserve()
    ensures clusters { (level : ℕ) (l : LookupOf) (spot : SpotOf) (b : Buffer)
        → PreservesClusters (clusters b.items) (clusters (nested_applied level l spot b).buffer.items) }
    ensures flags { (level : ℕ) (l : LookupOf) (spot : SpotOf) (b : Buffer)
        → PreservesFlags b (nested_applied level l spot b).buffer }
{}

/// Each stage of substitution preserves clusters and flags, whatever the bytes of the font are and
/// whatever the lookups are.
pub fn stages_preserve()
    ensures clusters { (ls : List LookupOf) → IsClusterPreserving (substituted ls) }
    ensures flags { (ls : List LookupOf) → IsFlagPreserving (substituted ls) }
{}

/// A lookup of `GSUB` that covers no glyph of a list changes nothing.
pub fn uncovered_lists_stay()
    ensures { (levels : ℕ) (l : LookupOf) (s : Walk) → l.positioning ≡ false → CoversNone l s.buffer.items
        → (looked_up levels l s).buffer ≡ s.buffer }
{}

/// Where a lookup is off, it changes no glyph: the glyphs whose masks have no bit of it are the
/// same, in the same order, after any lookup that applies no others. A lookup that applies others
/// may reach one of them after a nested lookup deleted glyphs.
pub fn glyphs_that_are_off_stay()
    ensures { (levels : ℕ) (l : LookupOf) (s : Walk) → is_context l ≡ false → HasNoFlag l
        → off_glyphs l (looked_up levels l s).buffer.items ≡ off_glyphs l s.buffer.items }
{}

/// No font makes a stage try more than it may: all subtables that its lookups ask, and all rules
/// and ligatures that they compare, nested ones included, are at most what was left before less
/// what is left after. They are counted over the steps of the definitions (`Tries`). So what is
/// left never rises.
pub fn stages_try_no_more_than_is_left()
    ensures { (ls : List LookupOf) → All Substitutes ls → (b : Buffer)
        → substitute_tries ls b + (substituted ls b).max_ops ≤ b.max_ops }
{}

/// A stage that ends within the limit of the run, with some of its work left, is the stage that
/// counts nothing: each lookup in order, at each glyph the first subtable that applies, from the
/// last glyph on for reverse chaining (`Stage`).
pub fn stages_with_work_left_count_nothing()
    ensures { (ls : List LookupOf) → All Substitutes ls → (b : Buffer) → is_past (substituted ls b) ≡ false
        → 0 < (substituted ls b).max_ops
        → substituted ls b ≡ record (stage_applied ls b) { max_ops = (substituted ls b).max_ops } }
{}

/// Where the glyphs of a rule stand after one of its lookups: at the places of the labels that they
/// carry. What the lookup put in right behind its glyph has a label, too; if items went, they are
/// taken to be the next ones with a label. As many items are `before` the glyph and `behind` it as
/// there are labels, set or not.
pub fn places_are_those_of_labels()
    ensures more { (before behind : List Bool) (n : ℕ) → let count = length (around before behind) in
        renumbered (length before) (length (labelled before)) count (count + n)
        (labelled (around before behind)) ≡ labelled (around before (with_more n behind)) }
    ensures fewer { (before behind : List Bool) (n : ℕ) → n ≤ length behind
        → let count = length (around before behind) in
        renumbered (length before) (length (labelled before)) count (count - n)
        (labelled (around before behind)) ≡ labelled (around before (without_first n behind)) }
{}
