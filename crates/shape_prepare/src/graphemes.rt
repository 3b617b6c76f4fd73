//! Graphemes: properties of the characters, and which items continue a grapheme.
//!
//! A grapheme is what a reader takes for one character: a letter with its marks, a flag of two
//! regional indicators, an emoji with its skin tone, or several emoji joined by ZERO WIDTH JOINER.
//! Reversing a text must not part one, so each item that belongs to what stands before it is marked
//! as a continuation. The rules are those of UAX 29 that shaping needs: marks and extenders (GB9),
//! emoji after a ZWJ (GB11), pairs of regional indicators (GB12, GB13).
//!
//! What the rules ask of the item before fits three cases, so one walk sets properties and
//! continuations.
//!
//! An item that was joined to a ZWJ is itself no open regional indicator and joins nothing.
ghost use Rattle.std.specs.Prelude.{◌≡◌, ◌&&◌, not};
ghost use Rattle.shape_buffer.specs.Outcome.{Made};
ghost use Rattle.shape_prepare.specs.Graphemes;
ghost use Rattle.shape_items.specs.UnicodeProps.{with_unicode_props, with_scratch_of};

use shape_buffer::buffer::{
    ScratchFlags, hb_buffer_t, hb_glyph_info_t, hb_unicode_general_category_t,
};
use shape_buffer::interfaces::hb_unicode_funcs_t;

/// U+1F1E6, the first of the characters of which two stand for a flag.
const FIRST_INDICATOR: char = '\u{1F1E6}';

/// What an item is to the next one.
#[derive(Clone, Copy, PartialEq, Eq, Debug)]
pub(crate) enum Before {
    Plain,
    /// A regional indicator that continues nothing, so that the next one belongs to it.
    OpenIndicator,
    /// A ZWJ, so that a pictograph belongs to it.
    Zwj,
}

/// Sets the properties of each item that depend on its character, marks the items that continue a
/// grapheme, and sets the scratch flags that the characters show. Takes no memory.
pub fn set_unicode_props<U: hb_unicode_funcs_t>(buffer: &mut hb_buffer_t)
    ensures { Made (Graphemes.graphemes_marked U.unicode) buffer.old buffer.new }
{
    let mut scratch_flags = buffer.scratch_flags();
    let mut before = Before::Plain;
    for i in 0..buffer.len() {
        let mut info = buffer.infos()[i];
        before = mark_item::<U>(before, &mut info, &mut scratch_flags);
        buffer.set_info(i, info);
    }
    buffer.set_scratch_flags(scratch_flags);
}

/// Sets an item's properties that depend on its character, marks it as a continuation if it is one,
/// and says what it is to the next one. No rule is asked about an ASCII character that doesn't
/// follow a ZWJ.
fn mark_item<U: hb_unicode_funcs_t>(
    before: Before,
    info: &mut hb_glyph_info_t,
    scratch_flags: &mut ScratchFlags,
) -> Before
    ensures item { let item = with_unicode_props U.unicode info.old in
        info.new ≡ Graphemes.with_continuation (Graphemes.continues U.unicode before item) item }
    ensures next { result ≡ Graphemes.is_to_next U.unicode before
        (with_unicode_props U.unicode info.old) }
    ensures flags { scratch_flags.new
        ≡ with_scratch_of U.unicode info.old.codepoint scratch_flags.old }
{
    info.init_unicode_props::<U>(scratch_flags);
    if info.codepoint < '\u{80}' && !before.is_zwj() {
        return Before::Plain;
    }
    mark_continuation::<U>(before, info)
}

/// Whether no rule has to be asked about an item: it continues already, as a mark does, and is no
/// ZWJ.
fn is_settled(info: &hb_glyph_info_t) -> bool
    ensures { result ≡ Graphemes.is_settled info.now }
{
    info._hb_glyph_info_get_continuation() && !info._hb_glyph_info_get_zwj()
}

/// Whether an item stays as it is, since no rule has a say: nothing joins it to the one before, no
/// rule asks about its category, and it stands before the regional indicators. So most letters past
/// ASCII are decided at once.
fn is_left_alone(before: Before, info: &hb_glyph_info_t) -> bool
    ensures { result ≡ Graphemes.is_left_alone before info.now }
{
    !before.is_zwj()
        && is_unasked(info._hb_glyph_info_get_general_category())
        && info.codepoint < FIRST_INDICATOR
}

/// Whether an item stays as it is, since no rule fits it: nothing joins it to the one before, and
/// it is no ZWJ and no character that a rule names. So most punctuation, symbols and emoji are
/// decided at once.
fn fits_no_rule(before: Before, info: &hb_glyph_info_t) -> bool
    ensures { result ≡ (not (Graphemes.is_joining before)
        && not info.now.properties.zwj
        && not (Graphemes.is_skin_tone info.now.codepoint)
        && not (Graphemes.is_regional_indicator info.now.codepoint)
        && not (Graphemes.is_extender info.now.codepoint)) }
{
    !before.is_zwj()
        && !info._hb_glyph_info_get_zwj()
        && !is_skin_tone(info.codepoint)
        && !is_regional_indicator(info.codepoint)
        && !is_extender(info.codepoint)
}

/// Marks an item as a continuation if it is one, and says what it is to the next one.
fn mark_continuation<U: hb_unicode_funcs_t>(before: Before, info: &mut hb_glyph_info_t) -> Before
    ensures item { info.new ≡ Graphemes.with_continuation
        (Graphemes.continues U.unicode before info.old) info.old }
    ensures next { result ≡ Graphemes.is_to_next U.unicode before info.old }
{
    if is_left_alone(before, info) {
        return Before::Plain;
    }
    if is_settled(info) {
        return Before::Plain;
    }
    if fits_no_rule(before, info) {
        return Before::Plain;
    }
    let joined = is_joined::<U>(before, info.codepoint);
    let joins = info._hb_glyph_info_get_zwj()
        && !joined
        && !is_unasked(info._hb_glyph_info_get_general_category());
    let continuation = info._hb_glyph_info_get_continuation()
        || joined
        || continues_by_rule(before, info);
    info._hb_glyph_info_set_continuation(continuation);
    if is_regional_indicator(info.codepoint) && !continuation {
        Before::OpenIndicator
    } else if joins {
        Before::Zwj
    } else {
        Before::Plain
    }
}

/// Whether a character is a pictograph right after a ZWJ. Only after a ZWJ is Unicode asked.
fn is_joined<U: hb_unicode_funcs_t>(before: Before, c: char) -> bool
    ensures { result ≡ Graphemes.is_joined U.unicode before c }
{
    match before {
        Before::Zwj => U::is_emoji_extended_pictographic(c),
        Before::Plain | Before::OpenIndicator => false,
    }
}

/// Whether an item that is no mark continues the grapheme before it: a skin tone, the second of two
/// regional indicators, a ZWJ, a voice mark of halfwidth katakana, or a tag.
fn continues_by_rule(before: Before, info: &hb_glyph_info_t) -> bool
    ensures { result ≡ Graphemes.continues_by_rule before info.now }
{
    let c = info.codepoint;
    let category = info._hb_glyph_info_get_general_category();
    if is_unasked(category) {
        return false;
    }
    is_modifier_symbol(category) && is_skin_tone(c)
        || is_regional_indicator(c) && before.is_open()
        || info._hb_glyph_info_get_zwj()
        || is_extender(c)
}

impl Before {
    /// Whether a pictograph that comes next belongs to this item.
    fn is_zwj(self) -> bool
        ensures { result ≡ Graphemes.is_joining self }
    {
        matches!(self, Before::Zwj)
    }

    /// Whether the next regional indicator makes a pair with this item.
    fn is_open(self) -> bool
        ensures { result ≡ Graphemes.is_open self }
    {
        matches!(self, Before::OpenIndicator)
    }
}

/// Whether no rule asks about this category: most letters, and spaces, which are the most common.
fn is_unasked(category: hb_unicode_general_category_t) -> bool
    ensures { result ≡ Graphemes.is_unasked category }
{
    matches!(
        category,
        hb_unicode_general_category_t::LowercaseLetter
            | hb_unicode_general_category_t::UppercaseLetter
            | hb_unicode_general_category_t::TitlecaseLetter
            | hb_unicode_general_category_t::OtherLetter
            | hb_unicode_general_category_t::SpaceSeparator
    )
}

/// Whether this is the category of modifier symbols, which skin tones have.
fn is_modifier_symbol(category: hb_unicode_general_category_t) -> bool
    ensures { result ≡ Graphemes.is_modifier_symbol category }
{
    matches!(category, hb_unicode_general_category_t::ModifierSymbol)
}

/// Whether a character gives an emoji the colour of a skin (UTS 51, Emoji_Modifier).
fn is_skin_tone(c: char) -> bool
    ensures { result ≡ Graphemes.is_skin_tone c }
{
    matches!(c, '\u{1F3FB}'..='\u{1F3FF}')
}

/// Whether two of these characters stand for a flag (UTS 51, Regional_Indicator).
pub(crate) fn is_regional_indicator(c: char) -> bool
    ensures { result ≡ Graphemes.is_regional_indicator c }
{
    matches!(c, FIRST_INDICATOR..='\u{1F1FF}')
}

/// Whether a character that is no mark extends what stands before it: a voice mark of halfwidth
/// katakana, or a tag (UAX 29, Grapheme_Extend).
fn is_extender(c: char) -> bool
    ensures { result ≡ Graphemes.is_extender c }
{
    matches!(c, '\u{FF9E}'..='\u{FF9F}' | '\u{E0020}'..='\u{E007F}')
}
