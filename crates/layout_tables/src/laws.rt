//! What searches find in tables in order.
ghost use Rattle.std.specs.Prelude.{◌≡◌, ℕ, List};
ghost use Rattle.shape_font.specs.Search.{walked, AreRangesInOrder};
ghost use Rattle.layout_tables.specs.Coverage.{listed, ranged};
ghost use Rattle.layout_tables.specs.Scripts.{tagged};
ghost use Rattle.layout_tables.specs.Order.{glyph_at, glyphs_of, range_start, range_end, ranges_of, record_tag, records_of};

/// In lists of glyphs in order, in ranges in order that don't meet, and in records in order of
/// their tags, a search by midpoints finds what a walk from the first on finds.
pub fn searches_find_what_walks_find()
    ensures glyphs { (t : List ℕ) (start glyph : ℕ)
        → AreRangesInOrder (glyph_at t start) (glyph_at t start) (glyphs_of t start)
        → listed t start glyph
        ≡ walked (glyph_at t start) (glyph_at t start) (glyphs_of t start) glyph }
    ensures ranges { (t : List ℕ) (start glyph : ℕ)
        → AreRangesInOrder (range_start t start) (range_end t start) (ranges_of t start)
        → ranged t start glyph
        ≡ walked (range_start t start) (range_end t start) (ranges_of t start) glyph }
    ensures tags { (t : List ℕ) (start tag : ℕ)
        → AreRangesInOrder (record_tag t start) (record_tag t start) (records_of t start)
        → tagged t start tag
        ≡ walked (record_tag t start) (record_tag t start) (records_of t start) tag }
{}
