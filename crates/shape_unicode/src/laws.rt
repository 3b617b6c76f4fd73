//! What is known of the results beyond the laws that each implementation proves: each function has
//! laws as its contract, and nothing to do.
//!
//! They tie the small tables to the character database, for every character, so that a wrong entry
//! is refused and not only tested for.
ghost use Rattle.shape_unicode.specs.Brackets.{BracketsMirror};
ghost use Rattle.shape_unicode.specs.Canonical.{EquivalenceIsCanonical};
ghost use Rattle.shape_unicode.specs.MarkOrder.{MarksAreInOrder};
ghost use Rattle.shape_unicode.specs.OfDatabase.{MirrorsAreMutual, VerticalsAreMapped};
ghost use Rattle.shape_unicode.specs.OfDatabase.{VerticalsAreAll, SpacesAreSeparators};

/// Equivalence by shaping's ccc is canonical equivalence (The Unicode Standard, D70; UAX 15) for
/// texts that have none of three marks once they are decomposed: U+0F39, U+0FC6 and U+1A60, which
/// have a ccc of their own.
pub fn equivalence_is_canonical()
    ensures { EquivalenceIsCanonical }
{}

/// Marks of Hebrew, Arabic, Telugu, Thai and Tibetan have ccc in the order that fonts of these
/// scripts expect (HarfBuzz, `hb-unicode.hh`), said by the marks; U+0FC6 and U+1A60 come after
/// every other mark.
pub fn marks_are_in_order()
    ensures { MarksAreInOrder }
{}

/// A mirror image has the property Bidi_Mirrored, and is mirrored back (UAX 9).
pub fn mirrors_are_mutual()
    ensures { MirrorsAreMutual }
{}

/// Each bracket and quotation mark with the property Bidi_Mirrored has a mirror image: an opening
/// one has a closing one, and the other way round (UAX 9; General_Category Ps, Pe, Pi and Pf).
/// U+2E62 and U+2E63 are newer than the pairs, and have none.
pub fn brackets_mirror()
    ensures { BracketsMirror }
{}

/// Vertical forms are those of the database: the mapping of a form has the tag `<vertical>`, and
/// names the character or what this is a wide form of; each such mapping to one character has its
/// entry (UAX 44).
pub fn verticals_are_of_the_database()
    ensures mapped { VerticalsAreMapped }
    ensures all { VerticalsAreAll }
{}

/// The space separators have a width, except for U+1680, which is drawn, and nothing else has.
pub fn spaces_are_separators()
    ensures { SpacesAreSeparators }
{}
