//! What searches find in tables in order.
ghost use Rattle.std.specs.Prelude.{◌≡◌, ℕ, ◌+◌, ◌*◌, List};
ghost use Rattle.shape_font.specs.Bytes.{u16_of, u32_of, fitting};
ghost use Rattle.shape_font.specs.Search.{side_of, side_from_end, found_by, walked, AreRangesInOrder};
ghost use Rattle.shape_font.specs.Cmap.{segment_of, group_of, groups_of};

/// Among ranges in order that don't meet, a search by midpoints finds what a walk finds: the first
/// range that ends at the number or after it, if it holds the number. So do the searches among
/// segments and groups of `cmap`.
pub fn searches_find_what_walks_find()
    ensures ranges { (start end : ℕ → ℕ) (count n : ℕ) → AreRangesInOrder start end count
        → found_by (λ i. side_of n (start i) (end i)) count ≡ walked start end count n }
    ensures by_end { (start end : ℕ → ℕ) (count n : ℕ) → AreRangesInOrder start end count
        → found_by (λ i. side_from_end n (start i) (end i)) count ≡ walked start end count n }
    ensures segments { (t : List ℕ) (count c : ℕ)
        → AreRangesInOrder (λ i. u16_of t (16 + 2 * count + 2 * i)) (λ i. u16_of t (14 + 2 * i))
        (fitting t count 14 2)
        → segment_of t count c ≡ walked (λ i. u16_of t (16 + 2 * count + 2 * i))
        (λ i. u16_of t (14 + 2 * i)) (fitting t count 14 2) c }
    ensures groups { (t : List ℕ) (c : ℕ)
        → AreRangesInOrder (λ i. u32_of t (16 + 12 * i)) (λ i. u32_of t (20 + 12 * i)) (groups_of t)
        → group_of t c
        ≡ walked (λ i. u32_of t (16 + 12 * i)) (λ i. u32_of t (20 + 12 * i)) (groups_of t) c }
{}
