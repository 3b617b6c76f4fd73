//! Whole tables of the Unicode functions, each beside another source: names of scripts and
//! categories as `ucd_sets` knows them, the bidirectional classes of letters, and the standard's
//! list of mirror images.

use crate::unicode::answers::{Question, category_name, count, script_of};
use crate::unicode::comparing::{assert_same, chars_of};
use shape_buffer::buffer::{Direction, Script};
use shape_buffer::interfaces::{hb_unicode_funcs_t, hb_unicode_general_category_t};
use shape_unicode::UnicodeDatabase;
use std::process::Abort;
use ucd_bidi::BidiClass;
use ucd_category::GeneralCategory;
use ucd_sets::Set;

/// Bidi_Mirroring_Glyph, as Perl 5.36 has it of Unicode 14, which has the pairs of 15: each two
/// characters that stand side by side are images of one another.
const MIRROR_IMAGES: &str = "\
    ()<>[]{}«»༺༻༼༽᚛᚜‹›⁅⁆⁽⁾₍₎∈∋∉∌∊∍∕⧵∟⯾∠⦣∡⦛∢⦠∤⫮∼∽≃⋍≅≌≒≓≔≕≤≥≦≧≨≩≪≫≮≯≰≱≲≳≴≵≶≷≸≹\
    ≺≻≼≽≾≿⊀⊁⊂⊃⊄⊅⊆⊇⊈⊉⊊⊋⊏⊐⊑⊒⊘⦸⊢⊣⊦⫞⊨⫤⊩⫣⊫⫥⊰⊱⊲⊳⊴⊵⊶⊷⊸⟜⋉⋊⋋⋌⋐⋑⋖⋗⋘⋙⋚⋛⋜⋝⋞⋟⋠⋡⋢⋣⋤⋥⋦⋧⋨⋩⋪⋫\
    ⋬⋭⋰⋱⋲⋺⋳⋻⋴⋼⋶⋽⋷⋾⌈⌉⌊⌋〈〉❨❩❪❫❬❭❮❯❰❱❲❳❴❵⟃⟄⟅⟆⟈⟉⟋⟍⟕⟖⟝⟞⟢⟣⟤⟥⟦⟧⟨⟩⟪⟫⟬⟭⟮⟯⦃⦄⦅⦆⦇⦈⦉⦊⦋⦌⦍⦐\
    ⦎⦏⦑⦒⦓⦔⦕⦖⦗⦘⦤⦥⦨⦩⦪⦫⦬⦭⦮⦯⧀⧁⧄⧅⧏⧐⧑⧒⧔⧕⧘⧙⧚⧛⧨⧩⧸⧹⧼⧽⨫⨬⨭⨮⨴⨵⨼⨽⩤⩥⩹⩺⩻⩼⩽⩾⩿⪀⪁⪂⪃⪄⪅⪆⪇⪈⪉⪊⪋⪌⪍⪎\
    ⪏⪐⪑⪒⪓⪔⪕⪖⪗⪘⪙⪚⪛⪜⪝⪞⪟⪠⪡⪢⪦⪧⪨⪩⪪⪫⪬⪭⪯⪰⪱⪲⪳⪴⪵⪶⪷⪸⪹⪺⪻⪼⪽⪾⪿⫀⫁⫂⫃⫄⫅⫆⫇⫈⫉⫊⫋⫌⫍⫎⫏⫐⫑⫒⫓⫔⫕⫖⫬⫭⫷⫸\
    ⫹⫺⸂⸃⸄⸅⸉⸊⸌⸍⸜⸝⸠⸡⸢⸣⸤⸥⸦⸧⸨⸩⹕⹖⹗⹘⹙⹚⹛⹜〈〉《》「」『』【】〔〕〖〗〘〙〚〛﹙﹚﹛﹜﹝﹞﹤﹥（）＜＞［］｛｝｟｠｢｣";

/// How many characters have an image.
const MIRRORED: usize = 428;

fn assert_image(rt: &impl Abort, c: char, image: char) {
    assert_same(rt, (c, UnicodeDatabase::mirrored(c)), (c, Some(image)));
}

#[test]
fn mirror_images_are_those_of_the_standard(rt: HostRuntime) {
    let mut listed: usize = 0;
    let mut first = None;
    for c in MIRROR_IMAGES.chars() {
        listed = listed.saturating_add(1);
        match first {
            None => first = Some(c),
            Some(a) => {
                assert_image(&rt, a, c);
                assert_image(&rt, c, a);
                first = None;
            }
        }
    }
    assert_same(&rt, listed, MIRRORED);
}

#[test]
fn nothing_else_has_an_image(rt: HostRuntime) {
    let images = count::<UnicodeDatabase>(&rt, Question::Mirrored);
    assert_same(&rt, images, MIRRORED);
}

/// The letters of a script's tag, with the capital that they begin with in lower case. None if
/// there is no such capital.
fn letters_of(script: Script) -> Option<[u8; 4]> {
    let [first, second, third, fourth] = script.0.0.to_be_bytes();
    let lower = [first.to_ascii_lowercase(), second, third, fourth];
    if first.is_ascii_uppercase() {
        Some(lower)
    } else {
        None
    }
}

/// Asserts that a value of a property names this set. The value is given by its letters, in lower
/// case.
fn assert_named(rt: &impl Abort, property: &[u8], letters: &[u8], set: Set) {
    let named = ucd_sets::by_value(property, letters);
    assert_same(rt, (letters, named), (letters, Ok(set)));
}

/// Asserts that the name of a character's script names this one.
fn assert_script(rt: &impl Abort, c: char, script: ucd_script::Script) {
    match letters_of(UnicodeDatabase::script(c)) {
        Some(letters) => assert_named(rt, b"script", &letters, Set::Script(script)),
        None => panic!(rt; "the tag of {c:?}"),
    }
}

#[test]
fn scripts_have_their_names(rt: HostRuntime) {
    let mut last = None;
    for c in '\0'..=char::MAX {
        let script = ucd_script::Script::for_char(c);
        if last != Some(script) {
            last = Some(script);
            assert_script(&rt, c, script);
        }
    }
}

/// Asserts that the name of a character's category names this one.
fn assert_category(rt: &(impl Abort + AllocGlobal), c: char, category: GeneralCategory) {
    let name = category_name::<UnicodeDatabase>(rt, c);
    let letters = chars_of(rt, name.as_str());
    let letters = ucd_sets::normalize(rt.alloc(), &letters).expect(rt, "memory");
    assert_named(rt, b"generalcategory", &letters, Set::Category(category));
}

#[test]
fn categories_have_their_names(rt: HostRuntime) {
    let mut last = None;
    for c in '\0'..=char::MAX {
        let category = GeneralCategory::for_char(c);
        if last != Some(category) {
            last = Some(category);
            assert_category(&rt, c, category);
        }
    }
}

fn is_letter(c: char) -> bool {
    matches!(
        UnicodeDatabase::general_category(c),
        hb_unicode_general_category_t::UppercaseLetter
            | hb_unicode_general_category_t::LowercaseLetter
            | hb_unicode_general_category_t::TitlecaseLetter
            | hb_unicode_general_category_t::ModifierLetter
            | hb_unicode_general_category_t::OtherLetter
    )
}

/// The direction of a letter's class.
fn direction_of_class(c: char) -> Option<Direction> {
    match BidiClass::for_char(c) {
        BidiClass::RightToLeft | BidiClass::ArabicLetter => Some(Direction::RightToLeft),
        BidiClass::LeftToRight => Some(Direction::LeftToRight),
        _ => None,
    }
}

/// Compares the direction of a letter's script with its own. A script that has none goes into a
/// list, once.
fn tell(rt: &impl Abort, c: char, script: Script, either_way: &mut Vec<Script>) {
    let direction = UnicodeDatabase::script_direction(script);
    match (direction, direction_of_class(c)) {
        (Some(direction), Some(own)) => assert_same(rt, (c, direction), (c, own)),
        (None, Some(_)) if !either_way.contains(&script) => {
            either_way.push(script).expect(rt, "memory");
        }
        _ => {}
    }
}

/// The scripts of tags.
fn scripts_of(rt: &(impl Abort + AllocGlobal), tags: &str) -> Vec<Script> {
    let mut scripts = Vec::new(rt.alloc());
    for tag in tags.split_whitespace() {
        scripts.push(script_of(rt, tag)).expect(rt, "memory");
    }
    scripts
}

/// The scripts without a direction that have letters with one.
fn both_ways(rt: &(impl Abort + AllocGlobal)) -> Vec<Script> {
    let mut either_way = Vec::new(rt.alloc());
    for c in '\0'..=char::MAX {
        let script = UnicodeDatabase::script(c);
        if script.is_specific() && is_letter(c) {
            tell(rt, c, script, &mut either_way);
        }
    }
    either_way
}

/// A script runs as its letters do, except for four that have been written both ways.
#[test]
fn scripts_run_as_their_letters(rt: HostRuntime) {
    let found = both_ways(&rt);
    let wanted = scripts_of(&rt, "Runr Tfng Ital Hung");
    assert_same(&rt, found.as_slice(), wanted.as_slice());
}
