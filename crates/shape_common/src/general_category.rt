//! The general category of a character (The Unicode Standard, section 4.5).
ghost use Rattle.std.specs.Prelude.{◌≡◌};

/// A general category, by Unicode's long name, in the order of the two-letter names
/// Lu Ll Lt Lm Lo, Mn Mc Me, Nd Nl No, Pc Pd Ps Pe Pi Pf Po, Sm Sc Sk So, Zs Zl Zp, Cc Cf Cs Co Cn.
#[derive(Clone, Copy, PartialEq, Eq, Debug)]
pub enum hb_unicode_general_category_t {
    UppercaseLetter,
    LowercaseLetter,
    TitlecaseLetter,
    ModifierLetter,
    OtherLetter,
    NonspacingMark,
    SpacingMark,
    EnclosingMark,
    DecimalNumber,
    LetterNumber,
    OtherNumber,
    ConnectorPunctuation,
    DashPunctuation,
    OpenPunctuation,
    ClosePunctuation,
    InitialPunctuation,
    FinalPunctuation,
    OtherPunctuation,
    MathSymbol,
    CurrencySymbol,
    ModifierSymbol,
    OtherSymbol,
    SpaceSeparator,
    LineSeparator,
    ParagraphSeparator,
    Control,
    Format,
    Surrogate,
    PrivateUse,
    Unassigned,
}

impl hb_unicode_general_category_t {
    ghost use Rattle.shape_common.specs.Category.{is_mark_category};
    ghost use Rattle.shape_common.specs.CategoryNumber.{category_number, category_of};

    /// Whether this is one of the three categories of marks.
    pub fn is_mark(self) -> bool
        ensures { result ≡ is_mark_category self }
    {
        matches!(
            self,
            hb_unicode_general_category_t::NonspacingMark
                | hb_unicode_general_category_t::SpacingMark
                | hb_unicode_general_category_t::EnclosingMark
        )
    }

    /// The category's number: its place among the variants, from 0.
    pub fn number(self) -> u8
        ensures { result ≡ category_number self }
    {
        self as u8
    }

    /// The category of a number. Numbers past those of the categories give the last one.
    pub fn of_number(number: u8) -> hb_unicode_general_category_t
        ensures { result ≡ category_of number }
    {
        match number {
            0 => hb_unicode_general_category_t::UppercaseLetter,
            1 => hb_unicode_general_category_t::LowercaseLetter,
            2 => hb_unicode_general_category_t::TitlecaseLetter,
            3 => hb_unicode_general_category_t::ModifierLetter,
            4 => hb_unicode_general_category_t::OtherLetter,
            5 => hb_unicode_general_category_t::NonspacingMark,
            6 => hb_unicode_general_category_t::SpacingMark,
            7 => hb_unicode_general_category_t::EnclosingMark,
            8 => hb_unicode_general_category_t::DecimalNumber,
            9 => hb_unicode_general_category_t::LetterNumber,
            10 => hb_unicode_general_category_t::OtherNumber,
            11 => hb_unicode_general_category_t::ConnectorPunctuation,
            12 => hb_unicode_general_category_t::DashPunctuation,
            13 => hb_unicode_general_category_t::OpenPunctuation,
            14 => hb_unicode_general_category_t::ClosePunctuation,
            15 => hb_unicode_general_category_t::InitialPunctuation,
            16 => hb_unicode_general_category_t::FinalPunctuation,
            17 => hb_unicode_general_category_t::OtherPunctuation,
            18 => hb_unicode_general_category_t::MathSymbol,
            19 => hb_unicode_general_category_t::CurrencySymbol,
            20 => hb_unicode_general_category_t::ModifierSymbol,
            21 => hb_unicode_general_category_t::OtherSymbol,
            22 => hb_unicode_general_category_t::SpaceSeparator,
            23 => hb_unicode_general_category_t::LineSeparator,
            24 => hb_unicode_general_category_t::ParagraphSeparator,
            25 => hb_unicode_general_category_t::Control,
            26 => hb_unicode_general_category_t::Format,
            27 => hb_unicode_general_category_t::Surrogate,
            28 => hb_unicode_general_category_t::PrivateUse,
            _ => hb_unicode_general_category_t::Unassigned,
        }
    }
}
