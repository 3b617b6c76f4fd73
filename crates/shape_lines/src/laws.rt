//! Laws for line breakers: each function has a law as its contract, and nothing to do.
ghost use Rattle.std.specs.Prelude.{◌≡◌, ◌<◌, ◌↔◌, Bool, ℕ, ℤ, List, length};
ghost use Rattle.shape_items.specs.Buffer.{Buffer};
ghost use Rattle.shape_lines.specs.CanCut.{CanCut};
ghost use Rattle.shape_lines.specs.LinesAt.{AreLinesAt};
ghost use Rattle.shape_lines.specs.Places.{IsPlaceOfCut, BeginsSafely};
ghost use Rattle.shape_lines.specs.RightLines.{AreRightLines};
ghost use Rattle.shape_lines.specs.TextOrder.{text_order};
ghost use Rattle.shape_lines.specs.declared.allowed.LineAt.{LineAt};
ghost use Rattle.shape_lines.specs.declared.cutting.Line.{Line};

/// A line may end between two neighbouring glyphs of different clusters, if no glyph of the greater
/// cluster has `UNSAFE_TO_BREAK`: a place of a cut. In the order of the text, from the end of the
/// list if clusters fall, one glyph tells: if the glyphs can be cut, exactly the places of a cut
/// are those before a glyph that begins another cluster and lacks the flag.
pub fn places_are_decided_by_one_glyph()
    ensures { (glyphs : Buffer) (text_end place : ℕ) → CanCut glyphs text_end
        → 0 < place → place < length glyphs.items
        → IsPlaceOfCut (text_order glyphs) place ↔ BeginsSafely (text_order glyphs) place }
{}

/// Right lines are determined: there are no two lists of them for one text, end and width.
pub fn right_lines_are_unique()
    ensures { (glyphs : Buffer) (text_end : ℕ) (width : ℤ) (lines others : List Line)
        → AreRightLines glyphs text_end width lines → AreRightLines glyphs text_end width others
        → lines ≡ others }
{}

/// Lines at allowed places are determined: there are no two lists of them for one text, end, width
/// and places.
pub fn lines_at_are_unique()
    ensures { (glyphs : Buffer) (text_end : ℕ) (allowed mandatory spaces : List ℕ)
        (anywhere : Bool) (width : ℤ) (lines others : List LineAt)
        → AreLinesAt glyphs text_end allowed mandatory spaces anywhere width lines
        → AreLinesAt glyphs text_end allowed mandatory spaces anywhere width others
        → lines ≡ others }
{}
