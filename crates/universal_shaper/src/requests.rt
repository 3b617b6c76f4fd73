//! The features that the shaper asks for, and the numbers of its pauses.
ghost use Rattle.std.specs.Prelude.{◌≡◌, OnOk, IfErr};
ghost use Rattle.shape_buffer.specs.MapBuilder.{with_requests};
ghost use Rattle.universal_shaper.specs.Requests;

use shape_buffer::buffer::{ShapeError, hb_tag_t};
use shape_buffer::interfaces::{
    F_MANUAL_ZWJ, F_NONE, F_PER_SYLLABLE, hb_ot_map_builder_t, hb_ot_map_feature_flags_t,
};

/// Syllables are found.
pub const SYLLABLES: u32 = 1;

/// What lookups have made so far is forgotten.
pub const CLEAR: u32 = 2;

/// Signs for a repha are noted.
pub const RECORD_REPHA: u32 = 3;

/// Forms before the base are noted.
pub const RECORD_PREBASE: u32 = 4;

/// Syllables are reordered.
pub const REORDER: u32 = 5;

const LOCL: hb_tag_t = hb_tag_t(0x6C6F_636C);

const CCMP: hb_tag_t = hb_tag_t(0x6363_6D70);

const NUKT: hb_tag_t = hb_tag_t(0x6E75_6B74);

const AKHN: hb_tag_t = hb_tag_t(0x616B_686E);

pub const RPHF: hb_tag_t = hb_tag_t(0x7270_6866);

const PREF: hb_tag_t = hb_tag_t(0x7072_6566);

const RKRF: hb_tag_t = hb_tag_t(0x726B_7266);

const ABVF: hb_tag_t = hb_tag_t(0x6162_7666);

const BLWF: hb_tag_t = hb_tag_t(0x626C_7766);

const HALF: hb_tag_t = hb_tag_t(0x6861_6C66);

const PSTF: hb_tag_t = hb_tag_t(0x7073_7466);

const VATU: hb_tag_t = hb_tag_t(0x7661_7475);

const CJCT: hb_tag_t = hb_tag_t(0x636A_6374);

pub const ISOL: hb_tag_t = hb_tag_t(0x6973_6F6C);

pub const INIT: hb_tag_t = hb_tag_t(0x696E_6974);

pub const MEDI: hb_tag_t = hb_tag_t(0x6D65_6469);

pub const FINA: hb_tag_t = hb_tag_t(0x6669_6E61);

const ABVS: hb_tag_t = hb_tag_t(0x6162_7673);

const BLWS: hb_tag_t = hb_tag_t(0x626C_7773);

const HALN: hb_tag_t = hb_tag_t(0x6861_6C6E);

const PRES: hb_tag_t = hb_tag_t(0x7072_6573);

const PSTS: hb_tag_t = hb_tag_t(0x7073_7473);

/// Inside one syllable, and joiners aren't skipped in the input.
const F_SYLLABLE: hb_ot_map_feature_flags_t = 72;

/// Asks for what comes before reordering: forms of a language, compositions, nuktas and required
/// ligatures of a syllable.
fn ask_first(builder: &mut hb_ot_map_builder_t) -> Result<(), ShapeError>
    ensures ok { OnOk result (builder.new ≡ with_requests builder.old Requests.first_requests) }
    ensures memory { IfErr result (λ e. e ≡ ShapeError.Memory) }
{
    builder.add_gsub_pause(Some(SYLLABLES))?;
    builder.enable_feature(LOCL, F_PER_SYLLABLE, 1)?;
    builder.enable_feature(CCMP, F_PER_SYLLABLE, 1)?;
    builder.enable_feature(NUKT, F_PER_SYLLABLE, 1)?;
    builder.enable_feature(AKHN, F_SYLLABLE, 1)
}

/// Asks for the features that make what is reordered, with the pauses where it is noted.
fn ask_reordering(builder: &mut hb_ot_map_builder_t) -> Result<(), ShapeError>
    ensures ok { OnOk result
        (builder.new ≡ with_requests builder.old Requests.reordering_requests) }
    ensures memory { IfErr result (λ e. e ≡ ShapeError.Memory) }
{
    builder.add_gsub_pause(Some(CLEAR))?;
    builder.add_feature(RPHF, F_SYLLABLE, 1)?;
    builder.add_gsub_pause(Some(RECORD_REPHA))?;
    builder.add_gsub_pause(Some(CLEAR))?;
    builder.enable_feature(PREF, F_SYLLABLE, 1)?;
    builder.add_gsub_pause(Some(RECORD_PREBASE))
}

/// Asks for the features of a syllable's shape.
fn ask_basic(builder: &mut hb_ot_map_builder_t) -> Result<(), ShapeError>
    ensures ok { OnOk result (builder.new ≡ with_requests builder.old Requests.basic_requests) }
    ensures memory { IfErr result (λ e. e ≡ ShapeError.Memory) }
{
    builder.enable_feature(RKRF, F_SYLLABLE, 1)?;
    builder.enable_feature(ABVF, F_SYLLABLE, 1)?;
    builder.enable_feature(BLWF, F_SYLLABLE, 1)?;
    builder.enable_feature(HALF, F_SYLLABLE, 1)?;
    builder.enable_feature(PSTF, F_SYLLABLE, 1)?;
    builder.enable_feature(VATU, F_SYLLABLE, 1)?;
    builder.enable_feature(CJCT, F_SYLLABLE, 1)
}

/// Asks for the forms of syllables and letters, once they are reordered.
fn ask_forms(builder: &mut hb_ot_map_builder_t) -> Result<(), ShapeError>
    ensures ok { OnOk result (builder.new ≡ with_requests builder.old Requests.form_requests) }
    ensures memory { IfErr result (λ e. e ≡ ShapeError.Memory) }
{
    builder.add_gsub_pause(Some(REORDER))?;
    builder.add_feature(ISOL, F_NONE, 1)?;
    builder.add_feature(INIT, F_NONE, 1)?;
    builder.add_feature(MEDI, F_NONE, 1)?;
    builder.add_feature(FINA, F_NONE, 1)?;
    builder.add_gsub_pause(None)
}

/// Asks for the features of presentation.
fn ask_last(builder: &mut hb_ot_map_builder_t) -> Result<(), ShapeError>
    ensures ok { OnOk result (builder.new ≡ with_requests builder.old Requests.last_requests) }
    ensures memory { IfErr result (λ e. e ≡ ShapeError.Memory) }
{
    builder.enable_feature(ABVS, F_MANUAL_ZWJ, 1)?;
    builder.enable_feature(BLWS, F_MANUAL_ZWJ, 1)?;
    builder.enable_feature(HALN, F_MANUAL_ZWJ, 1)?;
    builder.enable_feature(PRES, F_MANUAL_ZWJ, 1)?;
    builder.enable_feature(PSTS, F_MANUAL_ZWJ, 1)
}

/// Asks for all of them.
pub fn ask_all(builder: &mut hb_ot_map_builder_t) -> Result<(), ShapeError>
    ensures ok { OnOk result (builder.new ≡ with_requests builder.old Requests.all_requests) }
    ensures memory { IfErr result (λ e. e ≡ ShapeError.Memory) }
{
    ask_first(builder)?;
    ask_reordering(builder)?;
    ask_basic(builder)?;
    ask_forms(builder)?;
    ask_last(builder)
}
