//! Characters that are unseen, and those that pick a variant of the one before them.
ghost use Rattle.std.specs.Prelude.{◌≡◌, ◌&&◌, ◌||◌, not, nat_le, nat_lt};
ghost use Rattle.shape_unicode.specs.Hidden.{is_seen_though_ignorable, is_seen_early, is_seen_between, is_seen_late, is_unseen_early, is_ignorable};
ghost use Rattle.shape_unicode.specs.Hidden.{is_between_selectors, is_selector};

/// Whether `c` is shown though the database has it as ignorable (HarfBuzz, `hb-unicode.hh`): the
/// four fillers of Hangul take the place of a jamo, U+180F is left to the shaper of Mongolian, and
/// the shorthand format controls U+1BCA0 to U+1BCA3 are glyphs of their fonts.
fn is_seen_though_ignorable(c: char) -> bool
    ensures { result ≡ is_seen_though_ignorable c }
{
    matches!(
        c,
        '\u{115F}' | '\u{1160}' | '\u{180F}' | '\u{3164}' | '\u{FFA0}' | '\u{1BCA0}'..='\u{1BCA3}'
    )
}

/// Whether `c` stands before U+061C and is neither U+00AD nor U+034F: no such character is
/// ignorable. So most letters of Europe, their marks and all of Hebrew are decided without the
/// table.
fn is_seen_early(c: char) -> bool
    ensures { result ≡ is_seen_early c }
{
    c < '\u{61C}' && c != '\u{AD}' && c != '\u{34F}'
}

/// Whether `c` stands between U+061C and U+17B4, where the fillers of Hangul alone are ignorable,
/// which are shown. So the letters of Arabic, of India and of South East Asia are decided without
/// the table.
fn is_seen_next(c: char) -> bool
    ensures { result ≡ (nat_lt 0x61C c && nat_lt c 0x17B4) }
{
    '\u{61C}' < c && c < '\u{17B4}'
}

/// Whether `c` stands between U+180F and U+200B, where no character is ignorable: letters of Asia,
/// Latin letters with accents, and Greek ones.
fn is_seen_between(c: char) -> bool
    ensures { result ≡ is_seen_between c }
{
    '\u{180F}' < c && c < '\u{200B}'
}

/// Whether `c` stands between U+1D17A and U+E0000, where no character is ignorable: emoji, and
/// ideographs past the basic plane.
fn is_seen_late(c: char) -> bool
    ensures { result ≡ is_seen_late c }
{
    '\u{1D17A}' < c && c < '\u{E0000}'
}

/// Whether `c` is one of U+200B to U+200F, which are unseen: the spaces and joiners without a
/// width, and the marks of direction.
fn is_unseen_early(c: char) -> bool
    ensures { result ≡ is_unseen_early c }
{
    '\u{200A}' < c && c < '\u{2010}'
}

/// Whether `c` stands between U+200F and U+FE00, and neither among the marks of direction from
/// U+202A on nor among the invisible operators from U+2060 on: no such character is unseen. So
/// punctuation, symbols and the letters of East Asia are decided without the table.
fn is_seen_middle(c: char) -> bool
    ensures { result ≡ (nat_lt 0x200F c && nat_lt c 0xFE00
        && not ((nat_le 0x202A c && nat_le c 0x202E) || (nat_le 0x2060 c && nat_le c 0x206F))) }
{
    '\u{200F}' < c
        && c < '\u{FE00}'
        && !matches!(c, '\u{202A}'..='\u{202E}' | '\u{2060}'..='\u{206F}')
}

/// Whether `c` is one of the sixteen variation selectors of the basic plane, all of which are
/// unseen.
fn is_basic_selector(c: char) -> bool
    ensures { result ≡ (nat_le 0xFE00 c && nat_le c 0xFE0F) }
{
    matches!(c, '\u{FE00}'..='\u{FE0F}')
}

/// Whether `c` is unseen, by the table. A call of its own, so that what is decided before it stays
/// part of the walk over a text.
#[inline(never)]
fn is_listed(c: char) -> bool
    ensures { result ≡ is_ignorable c }
{
    ucd_derived::is_default_ignorable_code_point(c) && !is_seen_though_ignorable(c)
}

/// Whether `c` is unseen: the database has it as ignorable, and shaping doesn't show it.
pub(crate) fn is_ignorable(c: char) -> bool
    ensures { result ≡ is_ignorable c }
{
    if is_seen_early(c) {
        return false;
    }
    if is_seen_next(c) {
        return false;
    }
    if is_seen_between(c) {
        return false;
    }
    if is_unseen_early(c) {
        return true;
    }
    if is_seen_middle(c) {
        return false;
    }
    if is_seen_late(c) {
        return false;
    }
    if is_basic_selector(c) {
        return true;
    }
    is_listed(c)
}

/// Whether `c` stands between U+FE0F and U+E0100, where no character is a variation selector.
fn is_between_selectors(c: char) -> bool
    ensures { result ≡ is_between_selectors c }
{
    '\u{FE0F}' < c && c < '\u{E0100}'
}

/// Whether `c` is a variation selector of all scripts: U+FE00 to U+FE0F or U+E0100 to U+E01EF.
/// Those before are Mongolian's: its script shaper takes them as letters, which features of the
/// font shape.
pub(crate) fn is_selector(c: char) -> bool
    ensures { result ≡ is_selector c }
{
    if c < '\u{FE00}' {
        return false;
    }
    if is_basic_selector(c) {
        return true;
    }
    if is_between_selectors(c) {
        return false;
    }
    ucd_props::is_variation_selector(c)
}
