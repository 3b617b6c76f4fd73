//! What the pauses do to clusters and flags. Each function has laws as its contract, and nothing
//! to do.
ghost use Rattle.std.specs.Prelude.{◌≡◌, ℕ, List, Option, [], ◌∷◌};
ghost use Rattle.canonical_form.specs.Equivalent.{ComposesSoundly, IsEquivalent};
ghost use Rattle.cluster_order.specs.Ordering.{IsBringingNoCluster};
ghost use Rattle.shape_common.specs.Face.{FaceMeaning};
ghost use Rattle.shape_common.specs.Unicode.{decompositions_of};
ghost use Rattle.shape_common.specs.declared.text_types.Script.{Script as AnyScript};
ghost use Rattle.indic_shaper.specs.Pauses.{made_by_pause};
ghost use Rattle.indic_shaper.specs.Composing.{composed};
ghost use Rattle.shape_buffer.specs.Layout.{HasNoDefinedFlag, LookupMeaning};
ghost use Rattle.shape_items.specs.Items.{Item};
ghost use Rattle.shape_buffer.specs.Preservation.{IsClusterPreserving, IsFlagPreserving};
ghost use Rattle.indic_shaper.specs.Cutting.{syllables_found};
ghost use Rattle.indic_shaper.specs.Initial.{ordered};
ghost use Rattle.indic_shaper.specs.Sorting.{arranged, order, sorted};
ghost use Rattle.indic_shaper.specs.Flagless.{FactsFlagless};
ghost use Rattle.indic_shaper.specs.Settling.Syllables.{all_settled};
ghost use Rattle.indic_shaper.specs.declared.engine.Facts.{Facts as AnyFacts};

use shape_buffer::interfaces::{hb_font_t, hb_ot_layout_t, hb_unicode_funcs_t};

/// Final reordering brings no cluster and preserves flags, whatever the text, the script and the
/// font.
pub fn settling_preserves()
    ensures clusters { (facts : AnyFacts) → HasNoDefinedFlag facts.masks.init
        → IsBringingNoCluster (all_settled facts) }
    ensures flags { (facts : AnyFacts) → HasNoDefinedFlag facts.masks.init
        → IsFlagPreserving (all_settled facts) }
{}

/// The first two pauses bring no cluster and preserve flags, whatever the text, the script and the
/// font.
pub fn ordering_preserves()
    ensures found { IsClusterPreserving syllables_found }
    ensures clusters { (facts : AnyFacts) → FactsFlagless facts
        → (face : FaceMeaning) (lookups : LookupMeaning)
        → IsBringingNoCluster (ordered face lookups facts) }
    ensures flags { (facts : AnyFacts) → FactsFlagless facts
        → (face : FaceMeaning) (lookups : LookupMeaning)
        → IsFlagPreserving (ordered face lookups facts) }
{}

/// No pause brings a cluster, and each preserves flags, whatever the map, the face and the script.
pub fn pauses_preserve<F: hb_font_t, M: hb_ot_layout_t<F>>()
    ensures clusters { (map : M.Map) (face : F) (script : Option AnyScript) (n : ℕ)
        → IsBringingNoCluster (made_by_pause n (F.face face) (M.layout face) (M.masks map)
        (M.lookups map face) script) }
    ensures flags { (map : M.Map) (face : F) (script : Option AnyScript) (n : ℕ)
        → IsFlagPreserving (made_by_pause n (F.face face) (M.layout face) (M.masks map)
        (M.lookups map face) script) }
{}

/// What the shaper composes is equivalent to its parts by Unicode's splits, if U+09DF is
/// equivalent to U+09AF U+09BC by them, as it is in Unicode's database. *Lawful hooks* asks this
/// by the shaper's own splits, and so is claimed of no script here: the shaper splits neither
/// U+0931 nor U+0B94, and composes both.
pub fn compositions_are_sound<U: hb_unicode_funcs_t>()
    ensures { IsEquivalent (decompositions_of U.unicode) (0x9DF ∷ []) (0x9AF ∷ 0x9BC ∷ [])
        → ComposesSoundly (decompositions_of U.unicode) (composed U.unicode) }
{}

/// A syllable is sorted by positions, and items of one position keep their order: what is in order
/// already is left as it is, which is what sorting makes of it.
pub fn sorting_is_by_positions()
    ensures { (items : List Item) → sorted items ≡ arranged items (order items) }
{}
