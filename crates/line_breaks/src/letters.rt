//! What the rules ask of a character.
ghost use Rattle.std.specs.Prelude.{◌≡◌, ◌==◌};
ghost use Rattle.line_breaks.specs.Letters;
ghost use Rattle.ucd_breaks.specs.LineBreak.{line_break_number};

use ucd_breaks::LineBreak;
use ucd_category::GeneralCategory;
use ucd_east_asian::EastAsianWidth;

/// A character as the rules see it.
#[derive(Clone, Copy, Debug)]
pub struct Letter {
    /// Its class, resolved by LB1.
    pub class: LineBreak,
    /// Whether it is an opening quotation mark: one of the category Pi.
    pub opens: bool,
    /// Whether it is a closing quotation mark: one of the category Pf.
    pub closes: bool,
    /// Whether its East Asian width is fullwidth, halfwidth or wide.
    pub wide: bool,
    /// Whether it is reserved for a pictograph: `Extended_Pictographic` and unassigned.
    pub reserved: bool,
    /// Whether it is the dotted circle, U+25CC.
    pub circle: bool,
}

/// What stands before and after a text: the rules treat its start and its end as they treat a
/// mandatory break.
pub(crate) fn edge() -> Letter
    ensures { result ≡ Letters.edge }
{
    Letter {
        class: LineBreak::MandatoryBreak,
        opens: false,
        closes: false,
        wide: false,
        reserved: false,
        circle: false,
    }
}

impl Letter {
    /// Whether a letter is of a class.
    #[inline]
    pub fn is(&self, class: LineBreak) -> bool
        ensures { result ≡ Letters.is self.now class }
    {
        let letter = *self;
        letter.class.number() == class.number()
    }

    /// A character as the rules see it.
    pub fn of(c: char) -> Letter
        ensures { result ≡ Letters.letter_of c }
    {
        let category = GeneralCategory::for_char(c);
        Letter {
            class: resolve(LineBreak::for_char(c), category),
            opens: category.number() == GeneralCategory::InitialPunctuation.number(),
            closes: category.number() == GeneralCategory::FinalPunctuation.number(),
            wide: is_east_asian(EastAsianWidth::for_char(c)),
            reserved: ucd_emoji::is_extended_pictographic(c)
                && category.number() == GeneralCategory::Unassigned.number(),
            circle: c == '\u{25CC}',
        }
    }
}

/// Whether two classes are the same.
fn same(class: LineBreak, other: LineBreak) -> bool
    ensures { result ≡ (line_break_number class == line_break_number other) }
{
    class.number() == other.number()
}

/// LB1: the class that stands for one that depends on more than the character.
fn resolve(class: LineBreak, category: GeneralCategory) -> LineBreak
    ensures { result ≡ Letters.resolved class category }
{
    if same(class, LineBreak::Ambiguous)
        || same(class, LineBreak::Surrogate)
        || same(class, LineBreak::Unknown)
    {
        return LineBreak::Alphabetic;
    }
    if same(class, LineBreak::ConditionalJapaneseStarter) {
        return LineBreak::Nonstarter;
    }
    if same(class, LineBreak::ComplexContext) {
        return if is_mark(category) {
            LineBreak::CombiningMark
        } else {
            LineBreak::Alphabetic
        };
    }
    class
}

/// Whether a category is one of the two of marks that LB1 asks for.
fn is_mark(category: GeneralCategory) -> bool
    ensures { result ≡ Letters.is_combining category }
{
    category.number() == GeneralCategory::NonspacingMark.number()
        || category.number() == GeneralCategory::SpacingMark.number()
}

/// Whether a width is one of East Asian characters.
fn is_east_asian(width: EastAsianWidth) -> bool
    ensures { result ≡ Letters.is_wide width }
{
    width.number() == EastAsianWidth::Fullwidth.number()
        || width.number() == EastAsianWidth::Halfwidth.number()
        || width.number() == EastAsianWidth::Wide.number()
}
