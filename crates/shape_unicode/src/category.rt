//! General categories (The Unicode Standard, section 4.5): those of the database, under shaping's
//! names.
ghost use Rattle.std.specs.Prelude.{◌≡◌};
ghost use Rattle.shape_unicode.specs.Category.{category_from, category_of};

use crate::early_categories::EARLY_CATEGORIES;
use shape_buffer::interfaces::hb_unicode_general_category_t;
use ucd_category::GeneralCategory;

/// General_Category of a character: most text is of those that one read decides. ASCII has a branch
/// of its own: where a caller tests for it too, nothing of this is left but the read.
pub(crate) fn category_at(c: char) -> hb_unicode_general_category_t
    ensures { result ≡ category_of c }
{
    if c < '\u{80}' {
        return EARLY_CATEGORIES[c as usize];
    }
    if c < '\u{700}' {
        return EARLY_CATEGORIES[c as usize];
    }
    category_from(GeneralCategory::for_char(c))
}

/// The category of the same name. Total.
pub fn category_from(category: GeneralCategory) -> hb_unicode_general_category_t
    ensures { result ≡ category_from category }
{
    match category {
        GeneralCategory::UppercaseLetter => hb_unicode_general_category_t::UppercaseLetter,
        GeneralCategory::LowercaseLetter => hb_unicode_general_category_t::LowercaseLetter,
        GeneralCategory::TitlecaseLetter => hb_unicode_general_category_t::TitlecaseLetter,
        GeneralCategory::ModifierLetter => hb_unicode_general_category_t::ModifierLetter,
        GeneralCategory::OtherLetter => hb_unicode_general_category_t::OtherLetter,
        GeneralCategory::NonspacingMark => hb_unicode_general_category_t::NonspacingMark,
        GeneralCategory::SpacingMark => hb_unicode_general_category_t::SpacingMark,
        GeneralCategory::EnclosingMark => hb_unicode_general_category_t::EnclosingMark,
        GeneralCategory::DecimalNumber => hb_unicode_general_category_t::DecimalNumber,
        GeneralCategory::LetterNumber => hb_unicode_general_category_t::LetterNumber,
        GeneralCategory::OtherNumber => hb_unicode_general_category_t::OtherNumber,
        GeneralCategory::ConnectorPunctuation =>
            hb_unicode_general_category_t::ConnectorPunctuation,
        GeneralCategory::DashPunctuation => hb_unicode_general_category_t::DashPunctuation,
        GeneralCategory::OpenPunctuation => hb_unicode_general_category_t::OpenPunctuation,
        GeneralCategory::ClosePunctuation => hb_unicode_general_category_t::ClosePunctuation,
        GeneralCategory::InitialPunctuation => hb_unicode_general_category_t::InitialPunctuation,
        GeneralCategory::FinalPunctuation => hb_unicode_general_category_t::FinalPunctuation,
        GeneralCategory::OtherPunctuation => hb_unicode_general_category_t::OtherPunctuation,
        GeneralCategory::MathSymbol => hb_unicode_general_category_t::MathSymbol,
        GeneralCategory::CurrencySymbol => hb_unicode_general_category_t::CurrencySymbol,
        GeneralCategory::ModifierSymbol => hb_unicode_general_category_t::ModifierSymbol,
        GeneralCategory::OtherSymbol => hb_unicode_general_category_t::OtherSymbol,
        GeneralCategory::SpaceSeparator => hb_unicode_general_category_t::SpaceSeparator,
        GeneralCategory::LineSeparator => hb_unicode_general_category_t::LineSeparator,
        GeneralCategory::ParagraphSeparator => hb_unicode_general_category_t::ParagraphSeparator,
        GeneralCategory::Control => hb_unicode_general_category_t::Control,
        GeneralCategory::Format => hb_unicode_general_category_t::Format,
        GeneralCategory::Surrogate => hb_unicode_general_category_t::Surrogate,
        GeneralCategory::PrivateUse => hb_unicode_general_category_t::PrivateUse,
        GeneralCategory::Unassigned => hb_unicode_general_category_t::Unassigned,
    }
}
