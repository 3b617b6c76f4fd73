//! The features that the shaper of Arabic asks for, with a pause after each stage.
ghost use Rattle.std.specs.Prelude.{◌≡◌, OnOk, IfErr};
ghost use Rattle.shape_buffer.specs.MapBuilder.{with_requests};
ghost use Rattle.script_shapers.specs.ArabicRequests.{is_arabic, has_fallback};
ghost use Rattle.script_shapers.specs.ArabicRequests.{first_requests, form_requests, final_forms};
ghost use Rattle.script_shapers.specs.ArabicRequests.{other_forms, ligature_requests};
ghost use Rattle.script_shapers.specs.ArabicRequests.{last_requests};

use letter_joining::features::{FIN2, FIN3, FINA, INIT, ISOL, MED2, MEDI};
use shape_buffer::buffer::{Script, ShapeError, hb_tag_t};
use shape_buffer::interfaces::{
    F_HAS_FALLBACK, F_MANUAL_ZWJ, F_NONE, hb_ot_map_builder_t, hb_ot_map_feature_flags_t,
};

/// Stretching.
pub const STCH: hb_tag_t = hb_tag_t(0x7374_6368);

/// Composition and decomposition of glyphs.
pub const CCMP: hb_tag_t = hb_tag_t(0x6363_6D70);

/// Forms of a language.
pub const LOCL: hb_tag_t = hb_tag_t(0x6C6F_636C);

/// Required ligatures.
pub const RLIG: hb_tag_t = hb_tag_t(0x726C_6967);

/// Contextual alternates.
pub const CALT: hb_tag_t = hb_tag_t(0x6361_6C74);

/// Required contextual alternates.
pub const RCLT: hb_tag_t = hb_tag_t(0x7263_6C74);

/// Standard ligatures.
pub const LIGA: hb_tag_t = hb_tag_t(0x6C69_6761);

/// Contextual ligatures.
pub const CLIG: hb_tag_t = hb_tag_t(0x636C_6967);

/// Marks placed by substitution.
pub const MSET: hb_tag_t = hb_tag_t(0x6D73_6574);

/// The number of the pause after `rlig`, where forms and ligatures are made for fonts without them.
pub const FALLBACK: u32 = 1;

/// The number of the pause after `stch`, where the tiles that it makes are noted.
pub const STRETCH: u32 = 2;

/// Whether a script is Arabic, which alone has forms for fonts without `GSUB`.
fn is_arabic(script: Option<Script>) -> bool
    ensures { result ≡ is_arabic script }
{
    match script {
        Some(script) => script.0.0 == 0x4172_6162,
        None => false,
    }
}

/// The flag of the features that such a font may lack.
pub fn has_fallback(script: Option<Script>) -> hb_ot_map_feature_flags_t
    ensures { result ≡ has_fallback script }
{
    if is_arabic(script) {
        F_HAS_FALLBACK
    } else {
        F_NONE
    }
}

/// Asks for what comes before the forms of letters. The tiles of stretching are noted at the first
/// pause.
pub fn ask_first(builder: &mut hb_ot_map_builder_t) -> Result<(), ShapeError>
    ensures ok { OnOk result (builder.new ≡ with_requests builder.old first_requests) }
    ensures memory { IfErr result (λ e. e ≡ ShapeError.Memory) }
{
    builder.enable_feature(STCH, F_NONE, 1)?;
    builder.add_gsub_pause(Some(STRETCH))?;
    builder.enable_feature(CCMP, F_MANUAL_ZWJ, 1)?;
    builder.enable_feature(LOCL, F_MANUAL_ZWJ, 1)?;
    builder.add_gsub_pause(None)
}

/// Asks for a form of letters, and a pause after it.
fn ask_form(
    builder: &mut hb_ot_map_builder_t,
    tag: hb_tag_t,
    fallback: hb_ot_map_feature_flags_t,
) -> Result<(), ShapeError>
    ensures ok { OnOk result (builder.new ≡ with_requests builder.old (form_requests tag fallback)) }
    ensures memory { IfErr result (λ e. e ≡ ShapeError.Memory) }
{
    builder.add_feature(tag, F_MANUAL_ZWJ | fallback, 1)?;
    builder.add_gsub_pause(None)
}

/// Asks for the forms alone and at the end.
pub fn ask_final_forms(
    builder: &mut hb_ot_map_builder_t,
    fallback: hb_ot_map_feature_flags_t,
) -> Result<(), ShapeError>
    ensures ok { OnOk result (builder.new ≡ with_requests builder.old (final_forms fallback)) }
    ensures memory { IfErr result (λ e. e ≡ ShapeError.Memory) }
{
    ask_form(builder, ISOL, fallback)?;
    ask_form(builder, FINA, fallback)?;
    ask_form(builder, FIN2, F_NONE)?;
    ask_form(builder, FIN3, F_NONE)
}

/// Asks for the forms in the middle and at the beginning.
pub fn ask_other_forms(
    builder: &mut hb_ot_map_builder_t,
    fallback: hb_ot_map_feature_flags_t,
) -> Result<(), ShapeError>
    ensures ok { OnOk result (builder.new ≡ with_requests builder.old (other_forms fallback)) }
    ensures memory { IfErr result (λ e. e ≡ ShapeError.Memory) }
{
    ask_form(builder, MEDI, fallback)?;
    ask_form(builder, MED2, F_NONE)?;
    ask_form(builder, INIT, fallback)
}

/// Asks for what comes after the forms of letters. Arabic has a pause after its required ligatures,
/// where the forms of fonts without `GSUB` belong; the other scripts apply them together with
/// contextual alternates. These come before the other ligatures, and together with them in a font
/// that has required contextual alternates, too, as HarfBuzz does.
pub fn ask_last(builder: &mut hb_ot_map_builder_t, script: Option<Script>) -> Result<(), ShapeError>
    ensures ok { OnOk result (builder.new ≡ with_requests builder.old (last_requests script)) }
    ensures memory { IfErr result (λ e. e ≡ ShapeError.Memory) }
{
    ask_ligatures(builder, script)?;
    builder.enable_feature(CALT, F_MANUAL_ZWJ, 1)?;
    builder.add_gsub_pause_unless(RCLT)?;
    builder.enable_feature(LIGA, F_MANUAL_ZWJ, 1)?;
    builder.enable_feature(CLIG, F_MANUAL_ZWJ, 1)?;
    builder.enable_feature(MSET, F_MANUAL_ZWJ, 1)
}

/// Asks for required ligatures.
fn ask_ligatures(
    builder: &mut hb_ot_map_builder_t,
    script: Option<Script>,
) -> Result<(), ShapeError>
    ensures ok { OnOk result (builder.new ≡ with_requests builder.old (ligature_requests script)) }
    ensures memory { IfErr result (λ e. e ≡ ShapeError.Memory) }
{
    builder.enable_feature(RLIG, F_MANUAL_ZWJ | F_HAS_FALLBACK, 1)?;
    if is_arabic(script) {
        builder.add_gsub_pause(Some(FALLBACK))?;
    }
    Ok(())
}
