//! Laws of canonical form: each function has laws as its contract, and nothing to do.
//!
//! They hold for all decompositions whose heights fall and whose marks keep their combining class
//! (ccc), so for the Unicode functions as for a shaper's own. Equivalence is that of UAX 15 with
//! the combining classes at hand; a canonical text has the form of its NFD.
ghost use Rattle.canonical_form.specs.Laws.{FullIsByTwoRules, EquivalenceIsReflexive};
ghost use Rattle.canonical_form.specs.Laws.{EquivalenceIsSymmetric, EquivalenceIsTransitive};
ghost use Rattle.canonical_form.specs.Laws.{ExpansionIsEquivalent, ChoicesAreEquivalent};
ghost use Rattle.canonical_form.specs.Laws.{ChoiceIsGreatest, ChoiceIsLeast, ChoiceStays};
ghost use Rattle.canonical_form.specs.Laws.{ChoiceBringsGlyphs, ChoiceIsFull, StableOrderIsReached};
ghost use Rattle.canonical_form.specs.Laws.{OrderIsReached, OrderIsUnique, SettledIsReached};
ghost use Rattle.canonical_form.specs.Laws.{SettledIsOrdered, SettledIsUnique, CanonicalIsUnique};
ghost use Rattle.canonical_form.specs.Laws.{DecomposedIsCanonical, DecomposedDecides};
ghost use Rattle.canonical_form.specs.Laws.{RecomposedIsEquivalent, ComposedPastMarksIsEquivalent};
ghost use Rattle.canonical_form.specs.Laws.{LastDecides, GreatestDecides, RecomposedDecides};
ghost use Rattle.canonical_form.specs.Laws.{OrderedIsEquivalent, NormalisedIsEquivalent};
ghost use Rattle.canonical_form.specs.Laws.{ExpandedCutsApart, SettledCutsApart};

/// Full of a character is what two rules give: the character itself if it does not split, else
/// Full of its first part and then its second part.
pub fn full_is_by_two_rules()
    ensures { FullIsByTwoRules }
{}

/// Equivalence is reflexive, symmetric and transitive.
pub fn equivalence_is_an_equivalence()
    ensures reflexive { EquivalenceIsReflexive }
    ensures symmetric { EquivalenceIsSymmetric }
    ensures transitive { EquivalenceIsTransitive }
{}

/// An expansion is equivalent to its character, and the choices of a text to the text.
pub fn expansion_is_equivalent()
    ensures expansion { ExpansionIsEquivalent }
    ensures choices { ChoicesAreEquivalent }
{}

/// A choice is the supported expansion of greatest length, or of least length if the shortest is
/// asked for and the character has no glyph; it is the character itself if none is supported.
pub fn choice_is_extremal()
    ensures greatest { ChoiceIsGreatest }
    ensures least { ChoiceIsLeast }
    ensures stays { ChoiceStays }
{}

/// Each character of a choice is the character itself or has a glyph.
pub fn choice_brings_glyphs()
    ensures { ChoiceBringsGlyphs }
{}

/// With a glyph for each character of Full, the choice of greatest length is Full.
pub fn choice_is_full()
    ensures { ChoiceIsFull }
{}

/// The stable order by ccc of a run of marks is reached by swaps, and is ordered (The Unicode
/// Standard, D109).
pub fn stable_order_is_reached<T>()
    ensures { StableOrderIsReached T }
{}

/// The canonical order of a list is reached by swaps and is ordered, and two ordered lists are
/// equal if swaps lead from one to the other.
pub fn order_is_unique<T>()
    ensures reached { OrderIsReached T }
    ensures unique { OrderIsUnique T }
{}

/// A list whose runs are settled is reached by swaps, is ordered if no run is too long, and is
/// the only such list.
pub fn settled_is_reached<T>()
    ensures reached { SettledIsReached T }
    ensures ordered { SettledIsOrdered T }
    ensures unique { SettledIsUnique T }
{}

/// No two different canonical texts are equivalent.
pub fn canonical_is_unique()
    ensures { CanonicalIsUnique }
{}

/// If each character of Full has a glyph and no run is too long: the greatest choices, settled run
/// by run, are canonical, and two texts are equivalent exactly when these lists are equal.
pub fn decomposed_is_canonical()
    ensures canonical { DecomposedIsCanonical }
    ensures decides { DecomposedDecides }
{}

/// If a composed character is always equivalent to its two parts, recomposing leaves a text that is
/// equivalent, and so does each of its steps: a starter composes with a mark past others that do
/// not block it (The Unicode Standard, D115 to D117).
pub fn recomposed_is_equivalent()
    ensures whole { RecomposedIsEquivalent }
    ensures step { ComposedPastMarksIsEquivalent }
{}

/// If a composed character is always equivalent to its two parts, each character of Full of both
/// texts has a glyph, and no run is too long: two equivalent texts, decomposed and settled, have
/// equal recomposed forms, and two others have different ones.
pub fn recomposed_decides()
    ensures { RecomposedDecides }
{}

/// Which ccc between a starter and a mark keeps the two apart: in an ordered list that of the
/// item emitted last, in every list the greatest.
pub fn one_ccc_decides<T>()
    ensures last { LastDecides T }
    ensures greatest { GreatestDecides T }
{}

/// Normalising keeps a text equivalent in every mode: expanded, with the shortest choices asked for
/// all characters, for those that stand by themselves or for none, then settled run by run; and
/// then, if a composed character is always equivalent to its two parts, recomposed to composed
/// characters that have glyphs.
pub fn normalised_is_equivalent()
    ensures ordered { OrderedIsEquivalent }
    ensures recomposed { NormalisedIsEquivalent }
{}

/// A list may be cut: for expanding before an item that is no mark, for settling and recomposing
/// before one of ccc 0 that is no mark. What the two parts become, each by itself, is together what
/// the whole becomes.
pub fn cuts_apart<T>()
    ensures expanded { ExpandedCutsApart T }
    ensures settled { SettledCutsApart T }
{}
