//! The choice of a shaper by the script of a text.
//!
//! A shaper is a type, so a run is compiled once for each shaper and engine. One enum of shapers,
//! whose constants are values, would be one shaper and compile it once: measured in `fontshape`,
//! built with checks of memory, a run takes some 135 KB, so the ten here take 1.4 MB, and an enum
//! would take little more than one. It can't be one while which hooks are given, and what the
//! constants are, belong to the type: laws of a shaper (`lawful_preference`, `EachHook`) and every
//! run's proof stand on them.
ghost use Rattle.std.specs.Prelude.{◌≡◌, List};
ghost use Rattle.shape_items.specs.Buffer.{Buffer};
ghost use Rattle.shape_common.specs.declared.text_types.Feature.{Feature as AnyFeature};
ghost use Rattle.shape_plan.specs.Run.{Run};
ghost use Rattle.shaper_choice.specs.Choice.{joining, has_chosen, is_for_any, is_third, category_in};
ghost use Rattle.shaper_choice.specs.Choice.{category_of, category_for, served_by, of_category};
ghost use Rattle.shaper_choice.specs.Promises.{IsShapedBy};
ghost use Rattle.shaper_choice.specs.Worked.Choice.{WorkedChoice};

use crate::scripts::{Group, group_of};
use indic_shaper::IndicShaper;
use khmer_shaper::KhmerShaper;
use myanmar_shaper::{MyanmarShaper, ZawgyiShaper};
use script_shapers::{ArabicShaper, HangulShaper, HebrewShaper, ThaiShaper};
use shape_buffer::buffer::{
    Direction, Feature, GlyphBuffer, Script, ShapeFault, UnicodeBuffer, hb_tag_t,
};
use shape_buffer::interfaces::{TableIndex, hb_font_t, hb_ot_layout_t, hb_unicode_funcs_t};
use shape_pipeline::shape;
use shape_pipeline::shaping::TextRuns;
use shape_plan::ot_shaper::{DEFAULT_SHAPER, hb_default_shaper_t, hb_ot_shaper_t};
use std::alloc::Global;
use universal_shaper::UniversalShaper;

/// The shapers that there are.
#[derive(Clone, Copy, PartialEq, Eq, Debug)]
pub enum Category {
    /// The shaper of scripts that need no other one, and of fonts that weren't made for a script.
    Default,
    Arabic,
    Hangul,
    Hebrew,
    Thai,
    Universal,
    Khmer,
    Myanmar,
    Zawgyi,
    Indic,
}

/// The script of a font's tables that stands for all others, DFLT.
const DFLT: u32 = 0x4446_4C54;

/// The script `latn`, which the engine takes for another one where a font has nothing better.
const LATN: u32 = 0x6C61_746E;

/// The tag `mymr`, from before there was a specification of Myanmar, which has `mym2`.
const MYMR: u32 = 0x6D79_6D72;

/// Letters join in horizontal texts alone.
fn joining(direction: Direction) -> Category
    ensures { result ≡ joining direction }
{
    if direction.is_horizontal() {
        Category::Arabic
    } else {
        Category::Default
    }
}

/// Whether the engine chose this script.
fn has_chosen(chosen: Option<hb_tag_t>, tag: u32) -> bool
    ensures { result ≡ has_chosen chosen tag }
{
    match chosen {
        Some(chosen) => chosen.0 == tag,
        None => false,
    }
}

/// Whether it chose one that isn't the text's: the font's lookups are for any script.
fn is_for_any(chosen: Option<hb_tag_t>) -> bool
    ensures { result ≡ is_for_any chosen }
{
    has_chosen(chosen, DFLT) || has_chosen(chosen, LATN)
}

/// Whether it chose a tag that ends in 3, as `knd3`: the lookups are made for the Universal Shaping
/// Engine.
fn is_third(chosen: Option<hb_tag_t>) -> bool
    ensures { result ≡ is_third chosen }
{
    match chosen {
        Some(chosen) => chosen.0 % 256 == 0x33,
        None => false,
    }
}

/// The shaper of the scripts of a group.
fn category_in(group: Group, direction: Direction, chosen: Option<hb_tag_t>) -> Category
    ensures { result ≡ category_in group direction chosen }
{
    match group {
        Group::Arabic => joining(direction),
        Group::Syriac if !has_chosen(chosen, DFLT) => joining(direction),
        Group::Hangul => Category::Hangul,
        Group::Hebrew => Category::Hebrew,
        Group::Thai => Category::Thai,
        Group::Khmer => Category::Khmer,
        Group::Zawgyi => Category::Zawgyi,
        Group::Myanmar if !is_for_any(chosen) && !has_chosen(chosen, MYMR) => Category::Myanmar,
        Group::Universal if !is_for_any(chosen) => Category::Universal,
        Group::Indic if is_third(chosen) => Category::Universal,
        Group::Indic if !is_for_any(chosen) => Category::Indic,
        _ => Category::Default,
    }
}

/// The shaper of a script; `chosen` is the script that the engine chose for substitution.
pub fn category_of(
    script: Option<Script>,
    direction: Direction,
    chosen: Option<hb_tag_t>,
) -> Category
    ensures { result ≡ category_of script direction chosen }
{
    let Some(script) = script else {
        return Category::Default;
    };
    match group_of(script) {
        Some(group) => category_in(group, direction, chosen),
        None => Category::Default,
    }
}

/// The shaper that serves a script: that of horizontal texts with a font that has lookups for the
/// script, or none at all. `Default` if the script needs none of its own, as Latin and Chinese.
pub fn served_by(script: Script) -> Category
    ensures { result ≡ served_by script }
{
    category_of(Some(script), Direction::LeftToRight, None)
}

/// Stands for the shaper that a text's script asks for.
pub struct by_script;

/// The run that [`shape_by_script`] makes of a text.
pub trait ScriptRuns<U: hb_unicode_funcs_t, F: hb_font_t, M: hb_ot_layout_t<F>> {
    ghost text_run: { F → List AnyFeature → Buffer → Run };
}

impl<U: hb_unicode_funcs_t, F: hb_font_t, M: hb_ot_layout_t<F>> ScriptRuns<U, F, M> for by_script {
    ghost text_run = { λ face features text. of_category (category_for U.unicode (M.layout face) text) (record {
      default = ⟦<hb_default_shaper_t as TextRuns<U, F, M>>⟧.text_run face (record {}) features text;
      arabic = ⟦<ArabicShaper as TextRuns<U, F, M>>⟧.text_run face (record {}) features text;
      hangul = ⟦<HangulShaper as TextRuns<U, F, M>>⟧.text_run face (record {}) features text;
      hebrew = ⟦<HebrewShaper as TextRuns<U, F, M>>⟧.text_run face (record {}) features text;
      thai = ⟦<ThaiShaper as TextRuns<U, F, M>>⟧.text_run face (record {}) features text;
      universal = ⟦<UniversalShaper as TextRuns<U, F, M>>⟧.text_run face (record {}) features text;
      khmer = ⟦<KhmerShaper as TextRuns<U, F, M>>⟧.text_run face (record {}) features text;
      myanmar = ⟦<MyanmarShaper as TextRuns<U, F, M>>⟧.text_run face (record {}) features text;
      zawgyi = ⟦<ZawgyiShaper as TextRuns<U, F, M>>⟧.text_run face (record {}) features text;
      indic = ⟦<IndicShaper as TextRuns<U, F, M>>⟧.text_run face (record {}) features text;
    }) };
}

/// The shaper that a text's script asks for.
fn category_for<U: hb_unicode_funcs_t, F: hb_font_t, M: hb_ot_layout_t<F>>(
    face: &F,
    buffer: &UnicodeBuffer,
) -> Category
    ensures { result ≡ category_for U.unicode (M.layout face.now) buffer.now }
{
    let text = buffer.as_inner();
    let script = text.guessed_script::<U>();
    let direction = text.direction_by::<U>(script);
    let chosen = M::chosen_script(face, script, text.language(), TableIndex::GSUB);
    category_of(script, direction, chosen)
}

/// The glyphs of a text by one shaper. It is `shape`, with its promises in one record.
fn shape_by<U, F, M, S>(
    alloc: Global,
    face: &F,
    shaper: &S,
    features: &[Feature],
    buffer: UnicodeBuffer,
) -> Result<GlyphBuffer, ShapeFault>
where
    U: hb_unicode_funcs_t,
    F: hb_font_t,
    M: hb_ot_layout_t<F>,
    S: hb_ot_shaper_t<U, F, M>,
    ensures { IsShapedBy U.unicode
        (⟦<S as TextRuns<U, F, M>>⟧.text_run face.now shaper.now features.now buffer) buffer result }
{
    shape::<U, F, M, S>(alloc, face, shaper, features, buffer)
}

/// The glyphs of a text by the shaper that its script asks for, guessed if it isn't set, with any
/// engine and any face. Else it is `shape`, refuses as that does, and promises the same of the run
/// by that shaper.
pub fn shape_by_script<U, F, M>(
    alloc: Global,
    face: &F,
    features: &[Feature],
    buffer: UnicodeBuffer,
) -> Result<GlyphBuffer, ShapeFault>
where
    U: hb_unicode_funcs_t,
    F: hb_font_t,
    M: hb_ot_layout_t<F>,
    ensures { IsShapedBy U.unicode
        (⟦<by_script as ScriptRuns<U, F, M>>⟧.text_run face.now features.now buffer) buffer result }
{
    match category_for::<U, F, M>(face, &buffer) {
        Category::Default => shape_by::<U, F, M, _>(alloc, face, &DEFAULT_SHAPER, features, buffer),
        Category::Arabic => shape_by::<U, F, M, _>(alloc, face, &ArabicShaper, features, buffer),
        Category::Hangul => shape_by::<U, F, M, _>(alloc, face, &HangulShaper, features, buffer),
        Category::Hebrew => shape_by::<U, F, M, _>(alloc, face, &HebrewShaper, features, buffer),
        Category::Thai => shape_by::<U, F, M, _>(alloc, face, &ThaiShaper, features, buffer),
        Category::Universal => {
            shape_by::<U, F, M, _>(alloc, face, &UniversalShaper, features, buffer)
        }
        Category::Khmer => shape_by::<U, F, M, _>(alloc, face, &KhmerShaper, features, buffer),
        Category::Myanmar => shape_by::<U, F, M, _>(alloc, face, &MyanmarShaper, features, buffer),
        Category::Zawgyi => shape_by::<U, F, M, _>(alloc, face, &ZawgyiShaper, features, buffer),
        Category::Indic => shape_by::<U, F, M, _>(alloc, face, &IndicShaper, features, buffer),
    }
}

/// The shaper of each script.
pub fn choices_meet_worked_cases()
    ensures { WorkedChoice }
{}
