//! Presentation of emoji: the sequences of UTS 51.
//!
//! Each of these sequences is one grapheme cluster, so a cluster decides by itself.
ghost use Rattle.std.specs.Prelude.{◌≡◌, false};
ghost use Rattle.text_items.specs.Presentations;

/// How a cluster is shown.
#[derive(Clone, Copy, Debug, PartialEq, Eq)]
pub enum Presentation {
    /// As text: in the colour of the text, by a font for text.
    Text,
    /// As an emoji: by a font for emoji.
    Emoji,
}

impl Presentation {
    /// The presentation's number: its place among the variants, from 0.
    pub fn number(self) -> u8
        ensures { result ≡ Presentations.number self }
    {
        self as u8
    }
}

/// The first character that is an emoji by default.
const FIRST: char = '\u{231A}';

/// ED-6, ED-7: the presentation of a character by itself.
fn by_default(c: char) -> Presentation
    ensures { result ≡ Presentations.by_default c }
{
    if c < FIRST {
        return Presentation::Text;
    }
    if ucd_emoji::is_emoji_presentation(c) {
        Presentation::Emoji
    } else {
        Presentation::Text
    }
}

/// ED-14a: whether a character may stand in the middle of a tag sequence.
fn is_tag(c: char) -> bool
    ensures { result ≡ Presentations.is_tag c }
{
    '\u{E0020}' <= c && c <= '\u{E007E}'
}

/// ED-16: whether a joiner stands among characters, and an emoji right after it.
fn joins_emoji(letters: &[char]) -> bool
    ensures { result ≡ Presentations.joins_emoji false letters.now }
{
    let mut joined = false;
    for c in letters {
        if joined && ucd_emoji::is_emoji(*c) {
            return true;
        }
        joined = *c == '\u{200D}';
    }
    false
}

/// The presentation of an emoji that other characters follow in its cluster.
fn of_sequence(c: char, letters: &[char]) -> Presentation
    ensures { result ≡ Presentations.of_sequence c letters.now }
{
    let Some(next) = letters.first() else {
        return by_default(c);
    };
    let next = *next;
    if next == '\u{FE0E}' && ucd_emoji::is_emoji_variation_base(c) {
        return Presentation::Text;
    }
    if next == '\u{FE0F}' && ucd_emoji::is_emoji_variation_base(c)
        || ucd_emoji::is_emoji_modifier(next) && ucd_emoji::is_emoji_modifier_base(c)
        || is_tag(next)
        || joins_emoji(letters)
    {
        return Presentation::Emoji;
    }
    by_default(c)
}

/// How a grapheme cluster is shown, given its characters.
pub fn presentation_of(letters: &[char]) -> Presentation
    ensures { result ≡ Presentations.of_cluster letters.now }
{
    let Some((first, rest)) = letters.split_first() else {
        return Presentation::Text;
    };
    let c = *first;
    if rest.is_empty() {
        return by_default(c);
    }
    if !ucd_emoji::is_emoji(c) {
        return Presentation::Text;
    }
    of_sequence(c, rest)
}
