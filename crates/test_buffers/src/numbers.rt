//! The numbers by which callers in other languages and stored data name things, as the rules have
//! them. No body computes with most of them, so no clause would notice a wrong one.

use crate::support::assert_same;
use shape_buffer::buffer::{
    BufferClusterLevel, BufferFlags, CONTEXT_LENGTH, DEFINED, Direction, GlyphPosition,
    GlyphPropsFlags, SAFE_TO_INSERT_TATWEEL, ScratchFlags, ShapeError, UNSAFE_TO_BREAK,
    UNSAFE_TO_CONCAT, hb_unicode_general_category_t as Category,
};
use shape_buffer::interfaces::modified_combining_class::{
    CCC10, CCC11, CCC12, CCC13, CCC14, CCC15, CCC16, CCC17, CCC18, CCC19, CCC20, CCC21, CCC22,
    CCC23, CCC24, CCC25, CCC26, CCC27, CCC28, CCC29, CCC30, CCC31, CCC32, CCC33, CCC34, CCC35,
    CCC36, CCC84, CCC91, CCC103, CCC107, CCC118, CCC122, CCC129, CCC130, CCC132,
};
use shape_buffer::interfaces::space_types::{
    NOT_SPACE, SPACE, SPACE_4_EM_18, SPACE_EM, SPACE_EM_2, SPACE_EM_3, SPACE_EM_4, SPACE_EM_5,
    SPACE_EM_6, SPACE_EM_16, SPACE_FIGURE, SPACE_NARROW, SPACE_PUNCTUATION,
};
use shape_buffer::interfaces::{
    F_GLOBAL, F_GLOBAL_HAS_FALLBACK, F_GLOBAL_MANUAL_JOINERS, F_GLOBAL_SEARCH, F_HAS_FALLBACK,
    F_MANUAL_JOINERS, F_MANUAL_ZWJ, F_MANUAL_ZWNJ, F_NONE, F_PER_SYLLABLE, F_RANDOM, MAX_VALUE,
};
use shape_plan::normalization_mode::{
    HB_OT_SHAPE_NORMALIZATION_MODE_AUTO, HB_OT_SHAPE_NORMALIZATION_MODE_COMPOSED_DIACRITICS,
    HB_OT_SHAPE_NORMALIZATION_MODE_COMPOSED_DIACRITICS_NO_SHORT_CIRCUIT,
    HB_OT_SHAPE_NORMALIZATION_MODE_DECOMPOSED, HB_OT_SHAPE_NORMALIZATION_MODE_DEFAULT,
    HB_OT_SHAPE_NORMALIZATION_MODE_NONE,
};
use shape_plan::ot_shaper::{
    HB_OT_SHAPE_ZERO_WIDTH_MARKS_BY_GDEF_EARLY, HB_OT_SHAPE_ZERO_WIDTH_MARKS_BY_GDEF_LATE,
    HB_OT_SHAPE_ZERO_WIDTH_MARKS_NONE, MAX_COMBINING_MARKS,
};

#[test]
fn levels_and_modes(rt: HostRuntime) {
    let refusals = [ShapeError::Memory as u8, ShapeError::Length as u8];
    assert_same(&rt, refusals, [1, 2]);
    let levels = [
        BufferClusterLevel::MonotoneGraphemes as u8,
        BufferClusterLevel::MonotoneCharacters as u8,
        BufferClusterLevel::Characters as u8,
    ];
    assert_same(&rt, levels, [0, 1, 2]);
    let modes = [
        HB_OT_SHAPE_NORMALIZATION_MODE_NONE,
        HB_OT_SHAPE_NORMALIZATION_MODE_DECOMPOSED,
        HB_OT_SHAPE_NORMALIZATION_MODE_COMPOSED_DIACRITICS,
        HB_OT_SHAPE_NORMALIZATION_MODE_COMPOSED_DIACRITICS_NO_SHORT_CIRCUIT,
        HB_OT_SHAPE_NORMALIZATION_MODE_AUTO,
        HB_OT_SHAPE_NORMALIZATION_MODE_DEFAULT,
    ];
    assert_same(&rt, modes, [0, 1, 2, 3, 4, 4]);
    let times = [
        HB_OT_SHAPE_ZERO_WIDTH_MARKS_NONE,
        HB_OT_SHAPE_ZERO_WIDTH_MARKS_BY_GDEF_EARLY,
        HB_OT_SHAPE_ZERO_WIDTH_MARKS_BY_GDEF_LATE,
    ];
    assert_same(&rt, times, [0, 1, 2]);
    assert_same(&rt, (MAX_COMBINING_MARKS, CONTEXT_LENGTH), (32, 5));
}

#[test]
fn types_of_spaces(rt: HostRuntime) {
    let spaces = [
        NOT_SPACE,
        SPACE_EM,
        SPACE_EM_2,
        SPACE_EM_3,
        SPACE_EM_4,
        SPACE_EM_5,
        SPACE_EM_6,
        SPACE_EM_16,
        SPACE_4_EM_18,
        SPACE,
        SPACE_FIGURE,
        SPACE_PUNCTUATION,
        SPACE_NARROW,
    ];
    let wanted = [0, 1, 2, 3, 4, 5, 6, 16, 17, 18, 19, 20, 21];
    assert_same(&rt, spaces, wanted);
}

#[test]
fn flags_of_requests(rt: HostRuntime) {
    let requests = [
        F_NONE,
        F_GLOBAL,
        F_HAS_FALLBACK,
        F_MANUAL_ZWNJ,
        F_MANUAL_ZWJ,
        F_GLOBAL_SEARCH,
        F_RANDOM,
        F_PER_SYLLABLE,
        F_GLOBAL_HAS_FALLBACK,
        F_MANUAL_JOINERS,
        F_GLOBAL_MANUAL_JOINERS,
    ];
    assert_same(&rt, requests, [0, 1, 2, 4, 8, 16, 32, 64, 3, 12, 13]);
    assert_same(&rt, MAX_VALUE, 255);
}

#[test]
fn flags_of_buffers_and_glyphs(rt: HostRuntime) {
    let asked = [
        BufferFlags::BEGINNING_OF_TEXT.0,
        BufferFlags::END_OF_TEXT.0,
        BufferFlags::PRESERVE_DEFAULT_IGNORABLES.0,
        BufferFlags::REMOVE_DEFAULT_IGNORABLES.0,
        BufferFlags::DO_NOT_INSERT_DOTTED_CIRCLE.0,
        BufferFlags::PRODUCE_UNSAFE_TO_CONCAT.0,
        BufferFlags::PRODUCE_SAFE_TO_INSERT_TATWEEL.0,
    ];
    assert_same(&rt, asked, [2, 4, 8, 16, 32, 64, 128]);
    let seen = [
        ScratchFlags::HAS_NON_ASCII.0,
        ScratchFlags::HAS_DEFAULT_IGNORABLES.0,
        ScratchFlags::HAS_SPACE_FALLBACK.0,
        ScratchFlags::HAS_CGJ.0,
        ScratchFlags::HAS_VARIATION_SELECTOR_FALLBACK.0,
        ScratchFlags::HAS_GLYPH_FLAGS.0,
    ];
    assert_same(&rt, seen, [1, 2, 4, 8, 16, 32]);
    let classes = [
        GlyphPropsFlags::BASE_GLYPH.0,
        GlyphPropsFlags::LIGATURE.0,
        GlyphPropsFlags::MARK.0,
    ];
    assert_same(&rt, classes, [2, 4, 8]);
    let defined = [
        UNSAFE_TO_BREAK,
        UNSAFE_TO_CONCAT,
        SAFE_TO_INSERT_TATWEEL,
        DEFINED,
    ];
    assert_same(&rt, defined, [1, 2, 4, 7]);
}

#[test]
fn defaults(rt: HostRuntime) {
    assert_same(&rt, Direction::default(), Direction::Invalid);
    let level = BufferClusterLevel::default();
    assert_same(&rt, level, BufferClusterLevel::MonotoneGraphemes);
    assert_same(&rt, BufferFlags::default(), BufferFlags(0));
    let position = GlyphPosition::default();
    let moves = (position.x_advance, position.y_offset);
    assert_same(&rt, (moves, position.attach_type), ((0, 0), 0));
}

/// The categories in the order of their numbers, which begin at 0.
const CATEGORIES: [Category; 30] = [
    Category::UppercaseLetter,
    Category::LowercaseLetter,
    Category::TitlecaseLetter,
    Category::ModifierLetter,
    Category::OtherLetter,
    Category::NonspacingMark,
    Category::SpacingMark,
    Category::EnclosingMark,
    Category::DecimalNumber,
    Category::LetterNumber,
    Category::OtherNumber,
    Category::ConnectorPunctuation,
    Category::DashPunctuation,
    Category::OpenPunctuation,
    Category::ClosePunctuation,
    Category::InitialPunctuation,
    Category::FinalPunctuation,
    Category::OtherPunctuation,
    Category::MathSymbol,
    Category::CurrencySymbol,
    Category::ModifierSymbol,
    Category::OtherSymbol,
    Category::SpaceSeparator,
    Category::LineSeparator,
    Category::ParagraphSeparator,
    Category::Control,
    Category::Format,
    Category::Surrogate,
    Category::PrivateUse,
    Category::Unassigned,
];

#[test]
fn general_categories(rt: HostRuntime) {
    let mut number: u8 = 0;
    for category in &CATEGORIES {
        assert_same(&rt, *category as u8, number);
        number = number.saturating_add(1);
    }
}

#[test]
fn modified_combining_classes(rt: HostRuntime) {
    let hebrew = [
        CCC10, CCC11, CCC12, CCC13, CCC14, CCC15, CCC16, CCC17, CCC18, CCC19, CCC20, CCC21, CCC22,
        CCC23, CCC24, CCC25, CCC26,
    ];
    assert_same(
        &rt,
        hebrew,
        [
            22, 15, 16, 17, 23, 18, 19, 20, 21, 14, 24, 12, 25, 13, 10, 11, 26,
        ],
    );
    let arabic = [
        CCC27, CCC28, CCC29, CCC30, CCC31, CCC32, CCC33, CCC34, CCC35,
    ];
    assert_same(&rt, arabic, [28, 29, 30, 31, 32, 33, 27, 34, 35]);
    assert_same(&rt, [CCC36, CCC84, CCC91], [36, 4, 5]);
    assert_same(&rt, [CCC103, CCC107, CCC118, CCC122], [3, 107, 118, 122]);
    assert_same(&rt, [CCC129, CCC130, CCC132], [129, 132, 131]);
}
