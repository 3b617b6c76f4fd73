//! What grammars mean, and what tables find.
ghost use Rattle.std.specs.Prelude.{◌≡◌, ◌↔◌, ℕ, List, ◌∷◌, Some, None, drop};
ghost use Rattle.syllables.specs.Pattern.{Pattern, Matches};
ghost use Rattle.syllables.specs.Derivatives.{deriv};
ghost use Rattle.syllables.specs.Grammar.{Grammar, HasKind, HasNoKind, kind_of, steps, first_syllable, IsFirstSyllable};
ghost use Rattle.syllables.specs.Machines.{IsMachineOf, by_table};
ghost use Rattle.syllables.specs.Numbering.{CategoriesAreNumbered};
ghost use Rattle.syllables.specs.Reading.{IsVain, nowhere, remembered, scan_at};
ghost use Rattle.syllables.specs.declared.reading.Stretch.{Stretch as AnyStretch};
ghost use Rattle.syllables.specs.declared.scanner.Machine.{Machine as AnyMachine};

/// A pattern matches a character and a text after it exactly if what it leaves behind the character
/// matches that text.
pub fn derivatives_leave_the_rest()
    ensures { (p : Pattern) (c : ℕ) (xs : List ℕ) → Matches p (c ∷ xs) ↔ Matches (deriv c p) xs }
{}

/// What a grammar finds by derivatives is what its patterns match.
pub fn kinds_are_those_of_patterns()
    ensures some { (xs : List ℕ) (g : Grammar) (k : ℕ) → kind_of (steps xs g) ≡ Some k → HasKind g xs k }
    ensures none { (xs : List ℕ) (g : Grammar) → kind_of (steps xs g) ≡ None → HasNoKind g xs }
{}

/// The table of a grammar finds the syllables of the grammar.
pub fn tables_find_syllables()
    ensures { (m : AnyMachine) (g : Grammar) → IsMachineOf m g → (xs : List ℕ)
        → by_table m xs ≡ first_syllable g m.other xs }
{}

/// The first syllable of a text is its longest beginning that a pattern matches, of the kind of the
/// first such pattern.
pub fn first_syllables_are_longest()
    ensures { (g : Grammar) (other : ℕ) (xs : List ℕ) → IsFirstSyllable g other xs (first_syllable g other xs) }
{}

/// The categories of grammars and code are numbered alike, from 0 on without gaps.
pub fn categories_are_numbered()
    ensures { CategoriesAreNumbered }
{}

/// At the beginning of a text nothing is remembered. A scan at a place finds the syllable there,
/// whatever was remembered before it, and what is to be remembered then was in vain indeed.
pub fn scans_find_syllables()
    ensures nowhere { (m : AnyMachine) (xs : List ℕ) → IsVain m xs nowhere }
    ensures found { (m : AnyMachine) (xs : List ℕ) (vain : AnyStretch) (place : ℕ) → IsVain m xs vain
        → (scan_at m vain place xs).found ≡ by_table m (drop place xs) }
    ensures remembered { (m : AnyMachine) (xs : List ℕ) (vain : AnyStretch) (place : ℕ) → IsVain m xs vain
        → IsVain m xs (remembered (scan_at m vain place xs) vain) }
{}
