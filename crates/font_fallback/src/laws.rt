//! What follows from the definitions.
ghost use Rattle.std.specs.Prelude.{◌≡◌, ℕ, ◌<◌, ◌≤◌, true, List, Bool, [], ◌∷◌};
ghost use Rattle.font_fallback.specs.Choice.{AreSpans, HasFonts, has_by};
ghost use Rattle.font_fallback.specs.Laws;
ghost use Rattle.font_fallback.specs.declared.spans.Span.{Span as AnySpan};

/// The fonts of the clusters decide the spans: there is one list of them alone, and each cluster
/// stands in exactly one.
pub fn spans_part_a_text()
    ensures unique { (font_at : ℕ → ℕ) (start end : ℕ) (one other : List AnySpan)
        → AreSpans font_at start end one → AreSpans font_at start end other → one ≡ other }
    ensures each { (font_at : ℕ → ℕ) (start end : ℕ) (spans : List AnySpan) → AreSpans font_at start end spans
        → (k : ℕ) → start ≤ k → k < end → Laws.IsInOne spans k (font_at k) }
{}

/// A text that the first font has is one span of it, and no other font was tried.
pub fn the_first_font_alone()
    ensures { (rows : List (List Bool)) (fonts clusters : ℕ) (spans : List AnySpan)
        → HasFonts rows fonts clusters spans → 0 < clusters → 0 < fonts
        → ((k : ℕ) → k < clusters → has_by (Laws.first_row rows) k ≡ true)
        → Laws.IsOneSpan rows clusters spans }
{}
