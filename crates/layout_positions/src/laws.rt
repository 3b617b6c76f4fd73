//! What positioning preserves, for every font and every buffer.
ghost use Rattle.std.specs.Prelude.{◌≡◌, ◌≤◌, ◌<◌, ◌+◌, ◌-◌, ℕ, List, Option, Some, None, All, length};
ghost use Rattle.shape_common.specs.Direction.{is_horizontal};
ghost use Rattle.shape_buffer.specs.Preservation.{IsClusterPreserving, IsFlagPreserving};
ghost use Rattle.shape_items.specs.Buffer.{Buffer};
ghost use Rattle.shape_items.specs.Items.{Item};
ghost use Rattle.layout_tables.specs.declared.lookups.LookupSubtable.{LookupSubtable as Subtable};
ghost use Rattle.layout_matching.specs.Work.{walks_charged};
ghost use Rattle.layout_matching.specs.declared.lookup.Lookup.{Lookup as LookupOf};
ghost use Rattle.layout_positions.specs.Attachment.{MOST_LINKS, parent_of, offsets_finished};
ghost use Rattle.layout_positions.specs.Cursive.{gap_across};
ghost use Rattle.layout_positions.specs.Edits.{position_at};
ghost use Rattle.layout_positions.specs.Forest.{IsForest, IsMarkOn, IsJoinedTo, loose, moved_with, point_of, height_of};
ghost use Rattle.layout_positions.specs.Marks.{nearest_base, base_of, mark_put};
ghost use Rattle.layout_positions.specs.NearestBase.{IsBaseOf};
ghost use Rattle.layout_positions.specs.Preserves.{Kept};
ghost use Rattle.layout_positions.specs.Stage.{LeavesFlags, HasNoLaterComponents, stage_applied};
ghost use Rattle.layout_positions.specs.Tries.{position_tries};
ghost use Rattle.layout_positions.specs.Uncovered.{IsUncovered};
ghost use Rattle.layout_positions.specs.Turning.{attached};
ghost use Rattle.layout_positions.specs.Walk.{started, positioned};
ghost use Rattle.layout_positions.specs.Ways.{way};
ghost use Rattle.layout_positions.specs.declared.anchors.Anchor.{Anchor as AnchorOf};
ghost use Rattle.layout_positions.specs.declared.bases.BaseSeen.{BaseSeen as SeenOf};

/// Whatever the bytes of the font are, and whatever the lookups: clusters, the number of items,
/// direction, level and limit stay, and flags change only by what is unsafe to break or to concat.
pub fn positions_keep()
    ensures start { (b : Buffer) → Kept b (started b) }
    ensures lookups { (lookups : List LookupOf) (b : Buffer) → Kept b (positioned lookups b) }
    ensures offsets { (b : Buffer) → Kept b (offsets_finished b) }
{}

/// The premises of the promises about a run's clusters and flags.
pub fn positions_are_keepers()
    ensures start_clusters { IsClusterPreserving started }
    ensures start_flags { IsFlagPreserving started }
    ensures clusters { (lookups : List LookupOf) → IsClusterPreserving (positioned lookups) }
    ensures flags { (lookups : List LookupOf) → IsFlagPreserving (positioned lookups) }
    ensures finished_clusters { IsClusterPreserving offsets_finished }
    ensures finished_flags { IsFlagPreserving offsets_finished }
{}

/// A list that no lookup covers stays as it is: no subtable lists one of its glyphs, and no rule of
/// context begins with one. The walks over it are charged for all the same.
pub fn uncovered_lists_stay()
    ensures { (lookups : List LookupOf) (b : Buffer) → All (IsUncovered b) lookups
        → positioned lookups b
        ≡ record b { max_ops = walks_charged lookups (length b.items) b.max_ops } }
{}

/// The base of a mark is the nearest glyph before it that a mark may stand on, and there is one
/// such glyph at most. A search that goes on from the mark before finds it, too.
pub fn marks_stand_on_the_nearest_base()
    ensures afresh { (l : LookupOf) (subtable : Subtable) (items : List Item) (i : ℕ)
        → IsBaseOf l subtable items i (nearest_base l subtable items 0 i) }
    ensures going_on { (l : LookupOf) (subtable : Subtable) (items : List Item) (i : ℕ) (seen : SeenOf)
        → IsBaseOf l subtable items seen.until seen.place
        → IsBaseOf l subtable items i (base_of l subtable items i seen) }
    ensures one { (l : LookupOf) (subtable : Subtable) (items : List Item) (i : ℕ) (x y : Option ℕ)
        → IsBaseOf l subtable items i x → IsBaseOf l subtable items i y → x ≡ y }
{}

/// Attached glyphs make a forest if each follows one before it, as marks do, and if no chain has
/// more than 64 links.
pub fn attached_glyphs_make_a_forest()
    ensures backward { (b : Buffer) → ((i j : ℕ) → parent_of b i ≡ Some j → j < i) → IsForest b }
    ensures low { (b : Buffer) (height : ℕ → ℕ)
        → ((i j : ℕ) → parent_of b i ≡ Some j → height j < height i)
        → ((i : ℕ) → height i ≤ MOST_LINKS) → IsForest b }
{}

/// In a forest each attached glyph ends up where its own offset leads from where the glyph that it
/// follows ends up; the others stay, and no advance changes.
pub fn attached_glyphs_follow()
    ensures follows { (b : Buffer) → IsForest b → (i j : ℕ) → i < length b.items → parent_of b i ≡ Some j
        → position_at (offsets_finished b) i ≡ moved_with b i j (position_at (offsets_finished b) j) }
    ensures stays { (b : Buffer) → IsForest b → (i : ℕ) → i < length b.items → parent_of b i ≡ None
        → position_at (offsets_finished b) i ≡ loose (position_at b i) }
    ensures ways { (b : Buffer) → IsForest b → (from to : ℕ)
        → way (offsets_finished b) from to ≡ way b from to }
{}

/// What a lookup joins meets, in text of either direction: the anchor of a mark comes to stand on
/// that of its base, and the anchors of a cursive pair come to stand as far from the line. A lookup
/// that attaches a glyph joins it so.
pub fn anchors_meet()
    ensures marks { (b : Buffer) → IsForest b → (i j : ℕ) (mark base : AnchorOf) → IsMarkOn b i j mark base
        → point_of (offsets_finished b) i mark ≡ point_of (offsets_finished b) j base }
    ensures lines { (b : Buffer) → IsForest b → (i j : ℕ) (own other : AnchorOf) → IsJoinedTo b i j own other
        → height_of (offsets_finished b) i own ≡ height_of (offsets_finished b) j other }
    ensures marked { (i j : ℕ) (mark base : AnchorOf) (b : Buffer) → length b.positions ≡ length b.items
        → j < i → i < length b.items → i - j ≤ 32767
        → IsMarkOn (mark_put i j mark b base).buffer i j mark base }
    ensures joined { (i j : ℕ) (own other : AnchorOf) (b : Buffer) → length b.positions ≡ length b.items
        → (i ≡ j → ⊥) → i < length b.items → j < length b.items → i - j ≤ 32767 → j - i ≤ 32767
        → IsJoinedTo (attached i j (gap_across (is_horizontal b.direction) other own) b) i j own other }
{}

/// A run that ends with some of its work left is the stage that counts nothing and remembers
/// nothing: each lookup in order, at each glyph the first subtable that applies. What is left never
/// rises.
pub fn lookups_with_work_left_are_the_stage()
    ensures stage { (lookups : List LookupOf) → All LeavesFlags lookups → (b : Buffer)
        → HasNoLaterComponents b.items → 0 < (positioned lookups b).max_ops
        → positioned lookups b
        ≡ record (stage_applied lookups b) { max_ops = (positioned lookups b).max_ops } }
    ensures work { (lookups : List LookupOf) (b : Buffer) → (positioned lookups b).max_ops ≤ b.max_ops }
{}

/// No font makes positioning try more than it may: all subtables that its lookups ask, and all
/// rules that they compare, nested ones included, are at most what was left before less what is
/// left after. They are counted over the steps of the definitions (`Tries`).
pub fn lookups_try_no_more_than_is_left()
    ensures { (lookups : List LookupOf) (b : Buffer)
        → position_tries lookups b + (positioned lookups b).max_ops ≤ b.max_ops }
{}
