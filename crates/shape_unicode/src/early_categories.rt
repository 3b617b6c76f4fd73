//! The categories of the blocks from Basic Latin to Arabic, by their short names: the letters of
//! Europe and their marks, Hebrew and Arabic. One read decides each of these characters.
use shape_buffer::interfaces::hb_unicode_general_category_t;

const LU: hb_unicode_general_category_t = hb_unicode_general_category_t::UppercaseLetter;

const LL: hb_unicode_general_category_t = hb_unicode_general_category_t::LowercaseLetter;

const LT: hb_unicode_general_category_t = hb_unicode_general_category_t::TitlecaseLetter;

const LM: hb_unicode_general_category_t = hb_unicode_general_category_t::ModifierLetter;

const LO: hb_unicode_general_category_t = hb_unicode_general_category_t::OtherLetter;

const MN: hb_unicode_general_category_t = hb_unicode_general_category_t::NonspacingMark;

const ME: hb_unicode_general_category_t = hb_unicode_general_category_t::EnclosingMark;

const ND: hb_unicode_general_category_t = hb_unicode_general_category_t::DecimalNumber;

const NO: hb_unicode_general_category_t = hb_unicode_general_category_t::OtherNumber;

const PC: hb_unicode_general_category_t = hb_unicode_general_category_t::ConnectorPunctuation;

const PD: hb_unicode_general_category_t = hb_unicode_general_category_t::DashPunctuation;

const PS: hb_unicode_general_category_t = hb_unicode_general_category_t::OpenPunctuation;

const PE: hb_unicode_general_category_t = hb_unicode_general_category_t::ClosePunctuation;

const PI: hb_unicode_general_category_t = hb_unicode_general_category_t::InitialPunctuation;

const PF: hb_unicode_general_category_t = hb_unicode_general_category_t::FinalPunctuation;

const PO: hb_unicode_general_category_t = hb_unicode_general_category_t::OtherPunctuation;

const SM: hb_unicode_general_category_t = hb_unicode_general_category_t::MathSymbol;

const SC: hb_unicode_general_category_t = hb_unicode_general_category_t::CurrencySymbol;

const SK: hb_unicode_general_category_t = hb_unicode_general_category_t::ModifierSymbol;

const SO: hb_unicode_general_category_t = hb_unicode_general_category_t::OtherSymbol;

const ZS: hb_unicode_general_category_t = hb_unicode_general_category_t::SpaceSeparator;

const CC: hb_unicode_general_category_t = hb_unicode_general_category_t::Control;

const CF: hb_unicode_general_category_t = hb_unicode_general_category_t::Format;

const CN: hb_unicode_general_category_t = hb_unicode_general_category_t::Unassigned;

/// The categories from U+0000 to U+06FF.
#[rattlefmt::skip]
pub(crate) static EARLY_CATEGORIES: [hb_unicode_general_category_t; 1792] = [
    CC, CC, CC, CC, CC, CC, CC, CC, CC, CC, CC, CC, CC, CC, CC, CC,
    CC, CC, CC, CC, CC, CC, CC, CC, CC, CC, CC, CC, CC, CC, CC, CC,
    ZS, PO, PO, PO, SC, PO, PO, PO, PS, PE, PO, SM, PO, PD, PO, PO,
    ND, ND, ND, ND, ND, ND, ND, ND, ND, ND, PO, PO, SM, SM, SM, PO,
    PO, LU, LU, LU, LU, LU, LU, LU, LU, LU, LU, LU, LU, LU, LU, LU,
    LU, LU, LU, LU, LU, LU, LU, LU, LU, LU, LU, PS, PO, PE, SK, PC,
    SK, LL, LL, LL, LL, LL, LL, LL, LL, LL, LL, LL, LL, LL, LL, LL,
    LL, LL, LL, LL, LL, LL, LL, LL, LL, LL, LL, PS, SM, PE, SM, CC,
    CC, CC, CC, CC, CC, CC, CC, CC, CC, CC, CC, CC, CC, CC, CC, CC,
    CC, CC, CC, CC, CC, CC, CC, CC, CC, CC, CC, CC, CC, CC, CC, CC,
    ZS, PO, SC, SC, SC, SC, SO, PO, SK, SO, LO, PI, SM, CF, SO, SK,
    SO, SM, NO, NO, SK, LL, PO, PO, SK, NO, LO, PF, NO, NO, NO, PO,
    LU, LU, LU, LU, LU, LU, LU, LU, LU, LU, LU, LU, LU, LU, LU, LU,
    LU, LU, LU, LU, LU, LU, LU, SM, LU, LU, LU, LU, LU, LU, LU, LL,
    LL, LL, LL, LL, LL, LL, LL, LL, LL, LL, LL, LL, LL, LL, LL, LL,
    LL, LL, LL, LL, LL, LL, LL, SM, LL, LL, LL, LL, LL, LL, LL, LL,
    LU, LL, LU, LL, LU, LL, LU, LL, LU, LL, LU, LL, LU, LL, LU, LL,
    LU, LL, LU, LL, LU, LL, LU, LL, LU, LL, LU, LL, LU, LL, LU, LL,
    LU, LL, LU, LL, LU, LL, LU, LL, LU, LL, LU, LL, LU, LL, LU, LL,
    LU, LL, LU, LL, LU, LL, LU, LL, LL, LU, LL, LU, LL, LU, LL, LU,
    LL, LU, LL, LU, LL, LU, LL, LU, LL, LL, LU, LL, LU, LL, LU, LL,
    LU, LL, LU, LL, LU, LL, LU, LL, LU, LL, LU, LL, LU, LL, LU, LL,
    LU, LL, LU, LL, LU, LL, LU, LL, LU, LL, LU, LL, LU, LL, LU, LL,
    LU, LL, LU, LL, LU, LL, LU, LL, LU, LU, LL, LU, LL, LU, LL, LL,
    LL, LU, LU, LL, LU, LL, LU, LU, LL, LU, LU, LU, LL, LL, LU, LU,
    LU, LU, LL, LU, LU, LL, LU, LU, LU, LL, LL, LL, LU, LU, LL, LU,
    LU, LL, LU, LL, LU, LL, LU, LU, LL, LU, LL, LL, LU, LL, LU, LU,
    LL, LU, LU, LU, LL, LU, LL, LU, LU, LL, LL, LO, LU, LL, LL, LL,
    LO, LO, LO, LO, LU, LT, LL, LU, LT, LL, LU, LT, LL, LU, LL, LU,
    LL, LU, LL, LU, LL, LU, LL, LU, LL, LU, LL, LU, LL, LL, LU, LL,
    LU, LL, LU, LL, LU, LL, LU, LL, LU, LL, LU, LL, LU, LL, LU, LL,
    LL, LU, LT, LL, LU, LL, LU, LU, LU, LL, LU, LL, LU, LL, LU, LL,
    LU, LL, LU, LL, LU, LL, LU, LL, LU, LL, LU, LL, LU, LL, LU, LL,
    LU, LL, LU, LL, LU, LL, LU, LL, LU, LL, LU, LL, LU, LL, LU, LL,
    LU, LL, LU, LL, LU, LL, LU, LL, LU, LL, LU, LL, LU, LL, LU, LL,
    LU, LL, LU, LL, LL, LL, LL, LL, LL, LL, LU, LU, LL, LU, LU, LL,
    LL, LU, LL, LU, LU, LU, LU, LL, LU, LL, LU, LL, LU, LL, LU, LL,
    LL, LL, LL, LL, LL, LL, LL, LL, LL, LL, LL, LL, LL, LL, LL, LL,
    LL, LL, LL, LL, LL, LL, LL, LL, LL, LL, LL, LL, LL, LL, LL, LL,
    LL, LL, LL, LL, LL, LL, LL, LL, LL, LL, LL, LL, LL, LL, LL, LL,
    LL, LL, LL, LL, LL, LL, LL, LL, LL, LL, LL, LL, LL, LL, LL, LL,
    LL, LL, LL, LL, LO, LO, LL, LL, LL, LL, LL, LL, LL, LL, LL, LL,
    LL, LL, LL, LL, LL, LL, LL, LL, LL, LL, LL, LL, LL, LL, LL, LL,
    LM, LM, LM, LM, LM, LM, LM, LM, LM, LM, LM, LM, LM, LM, LM, LM,
    LM, LM, SK, SK, SK, SK, LM, LM, LM, LM, LM, LM, LM, LM, LM, LM,
    LM, LM, SK, SK, SK, SK, SK, SK, SK, SK, SK, SK, SK, SK, SK, SK,
    LM, LM, LM, LM, LM, SK, SK, SK, SK, SK, SK, SK, LM, SK, LM, SK,
    SK, SK, SK, SK, SK, SK, SK, SK, SK, SK, SK, SK, SK, SK, SK, SK,
    MN, MN, MN, MN, MN, MN, MN, MN, MN, MN, MN, MN, MN, MN, MN, MN,
    MN, MN, MN, MN, MN, MN, MN, MN, MN, MN, MN, MN, MN, MN, MN, MN,
    MN, MN, MN, MN, MN, MN, MN, MN, MN, MN, MN, MN, MN, MN, MN, MN,
    MN, MN, MN, MN, MN, MN, MN, MN, MN, MN, MN, MN, MN, MN, MN, MN,
    MN, MN, MN, MN, MN, MN, MN, MN, MN, MN, MN, MN, MN, MN, MN, MN,
    MN, MN, MN, MN, MN, MN, MN, MN, MN, MN, MN, MN, MN, MN, MN, MN,
    MN, MN, MN, MN, MN, MN, MN, MN, MN, MN, MN, MN, MN, MN, MN, MN,
    LU, LL, LU, LL, LM, SK, LU, LL, CN, CN, LM, LL, LL, LL, PO, LU,
    CN, CN, CN, CN, SK, SK, LU, PO, LU, LU, LU, CN, LU, CN, LU, LU,
    LL, LU, LU, LU, LU, LU, LU, LU, LU, LU, LU, LU, LU, LU, LU, LU,
    LU, LU, CN, LU, LU, LU, LU, LU, LU, LU, LU, LU, LL, LL, LL, LL,
    LL, LL, LL, LL, LL, LL, LL, LL, LL, LL, LL, LL, LL, LL, LL, LL,
    LL, LL, LL, LL, LL, LL, LL, LL, LL, LL, LL, LL, LL, LL, LL, LU,
    LL, LL, LU, LU, LU, LL, LL, LL, LU, LL, LU, LL, LU, LL, LU, LL,
    LU, LL, LU, LL, LU, LL, LU, LL, LU, LL, LU, LL, LU, LL, LU, LL,
    LL, LL, LL, LL, LU, LL, SM, LU, LL, LU, LU, LL, LL, LU, LU, LU,
    LU, LU, LU, LU, LU, LU, LU, LU, LU, LU, LU, LU, LU, LU, LU, LU,
    LU, LU, LU, LU, LU, LU, LU, LU, LU, LU, LU, LU, LU, LU, LU, LU,
    LU, LU, LU, LU, LU, LU, LU, LU, LU, LU, LU, LU, LU, LU, LU, LU,
    LL, LL, LL, LL, LL, LL, LL, LL, LL, LL, LL, LL, LL, LL, LL, LL,
    LL, LL, LL, LL, LL, LL, LL, LL, LL, LL, LL, LL, LL, LL, LL, LL,
    LL, LL, LL, LL, LL, LL, LL, LL, LL, LL, LL, LL, LL, LL, LL, LL,
    LU, LL, LU, LL, LU, LL, LU, LL, LU, LL, LU, LL, LU, LL, LU, LL,
    LU, LL, LU, LL, LU, LL, LU, LL, LU, LL, LU, LL, LU, LL, LU, LL,
    LU, LL, SO, MN, MN, MN, MN, MN, ME, ME, LU, LL, LU, LL, LU, LL,
    LU, LL, LU, LL, LU, LL, LU, LL, LU, LL, LU, LL, LU, LL, LU, LL,
    LU, LL, LU, LL, LU, LL, LU, LL, LU, LL, LU, LL, LU, LL, LU, LL,
    LU, LL, LU, LL, LU, LL, LU, LL, LU, LL, LU, LL, LU, LL, LU, LL,
    LU, LU, LL, LU, LL, LU, LL, LU, LL, LU, LL, LU, LL, LU, LL, LL,
    LU, LL, LU, LL, LU, LL, LU, LL, LU, LL, LU, LL, LU, LL, LU, LL,
    LU, LL, LU, LL, LU, LL, LU, LL, LU, LL, LU, LL, LU, LL, LU, LL,
    LU, LL, LU, LL, LU, LL, LU, LL, LU, LL, LU, LL, LU, LL, LU, LL,
    LU, LL, LU, LL, LU, LL, LU, LL, LU, LL, LU, LL, LU, LL, LU, LL,
    LU, LL, LU, LL, LU, LL, LU, LL, LU, LL, LU, LL, LU, LL, LU, LL,
    LU, LL, LU, LL, LU, LL, LU, LL, LU, LL, LU, LL, LU, LL, LU, LL,
    CN, LU, LU, LU, LU, LU, LU, LU, LU, LU, LU, LU, LU, LU, LU, LU,
    LU, LU, LU, LU, LU, LU, LU, LU, LU, LU, LU, LU, LU, LU, LU, LU,
    LU, LU, LU, LU, LU, LU, LU, CN, LM, LM, PO, PO, PO, PO, PO, PO,
    LL, LL, LL, LL, LL, LL, LL, LL, LL, LL, LL, LL, LL, LL, LL, LL,
    LL, LL, LL, LL, LL, LL, LL, LL, LL, LL, LL, LL, LL, LL, LL, LL,
    LL, LL, LL, LL, LL, LL, LL, LL, LL, PO, PD, LM, LM, SO, SO, SC,
    CN, MN, MN, MN, MN, MN, MN, MN, MN, MN, MN, MN, MN, MN, MN, MN,
    MN, MN, MN, MN, MN, MN, MN, MN, MN, MN, MN, MN, MN, MN, MN, MN,
    MN, MN, MN, MN, MN, MN, MN, MN, MN, MN, MN, MN, MN, MN, PD, MN,
    PO, MN, MN, PO, MN, MN, PO, MN, MN, MN, CN, CN, CN, CN, CN, CN,
    LO, LO, LO, LO, LO, LO, LO, LO, LO, LO, LO, LO, LO, LO, LO, LO,
    LO, LO, LO, LO, LO, LO, LO, LO, LO, LO, LO, CN, CN, CN, CN, LO,
    LO, LO, LO, PO, PO, CN, CN, CN, CN, CN, CN, CN, CN, CN, CN, CN,
    CF, CF, CF, CF, CF, CF, SM, SM, SM, PO, PO, SC, PO, PO, SO, SO,
    MN, MN, MN, MN, MN, MN, MN, MN, MN, MN, MN, PO, CF, PO, PO, PO,
    LO, LO, LO, LO, LO, LO, LO, LO, LO, LO, LO, LO, LO, LO, LO, LO,
    LO, LO, LO, LO, LO, LO, LO, LO, LO, LO, LO, LO, LO, LO, LO, LO,
    LM, LO, LO, LO, LO, LO, LO, LO, LO, LO, LO, MN, MN, MN, MN, MN,
    MN, MN, MN, MN, MN, MN, MN, MN, MN, MN, MN, MN, MN, MN, MN, MN,
    ND, ND, ND, ND, ND, ND, ND, ND, ND, ND, PO, PO, PO, PO, LO, LO,
    MN, LO, LO, LO, LO, LO, LO, LO, LO, LO, LO, LO, LO, LO, LO, LO,
    LO, LO, LO, LO, LO, LO, LO, LO, LO, LO, LO, LO, LO, LO, LO, LO,
    LO, LO, LO, LO, LO, LO, LO, LO, LO, LO, LO, LO, LO, LO, LO, LO,
    LO, LO, LO, LO, LO, LO, LO, LO, LO, LO, LO, LO, LO, LO, LO, LO,
    LO, LO, LO, LO, LO, LO, LO, LO, LO, LO, LO, LO, LO, LO, LO, LO,
    LO, LO, LO, LO, LO, LO, LO, LO, LO, LO, LO, LO, LO, LO, LO, LO,
    LO, LO, LO, LO, PO, LO, MN, MN, MN, MN, MN, MN, MN, CF, SO, MN,
    MN, MN, MN, MN, MN, LM, LM, MN, MN, SO, MN, MN, MN, MN, LO, LO,
    ND, ND, ND, ND, ND, ND, ND, ND, ND, ND, LO, LO, LO, SO, SO, LO,
];
