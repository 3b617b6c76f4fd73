//! What ligatures make of a list, in OpenType's words.
ghost use Rattle.std.specs.Prelude.{◌≡◌, ◌≤◌, ◌<◌, ℕ, length};
ghost use Rattle.shape_items.specs.Buffer.{Buffer};
ghost use Rattle.layout_matching.specs.declared.lookup.Lookup.{Lookup as LookupOf};
ghost use Rattle.layout_substitution.specs.LigatureList.{ligature_list};
ghost use Rattle.layout_substitution.specs.Ligatures.{joined, ligature_over};
ghost use Rattle.layout_substitution.specs.declared.ligature.Components.{Components as ComponentsOf};
ghost use Rattle.layout_substitution.specs.declared.ligature.Ligation.{Ligation as LigationOf};

/// A ligature makes a list: what stood before it, the ligature in place of its first component,
/// what stood between its components, each glyph of that a mark on the component before it, marks
/// behind it that stood on its last component, and the rest.
pub fn ligatures_make_lists()
    ensures { (l : LookupOf) (made : LigationOf) (m : ComponentsOf) (at : ℕ) (b : Buffer) → at ≤ m.last
        → m.last < length b.items
        → (ligature_over l made m at (joined l made m at b)).items ≡ ligature_list l made m at b }
{}
