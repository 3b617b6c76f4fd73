//! The features that the shaper asks for.
ghost use Rattle.std.specs.Prelude.{◌≡◌, ◌∷◌, [], OnOk, IfErr};
ghost use Rattle.shape_buffer.specs.MapBuilder.{with_requests};
ghost use Rattle.indic_shaper.specs.Requests.{within, alone, first_requests, basic_requests};
ghost use Rattle.indic_shaper.specs.Requests.{more_basic_requests, last_requests};

use shape_buffer::buffer::{ShapeError, hb_tag_t};
use shape_buffer::interfaces::{
    F_GLOBAL_MANUAL_JOINERS, F_MANUAL_JOINERS, F_PER_SYLLABLE, hb_ot_map_builder_t,
    hb_ot_map_feature_flags_t,
};

pub const LOCL: hb_tag_t = hb_tag_t(0x6C6F_636C);

pub const CCMP: hb_tag_t = hb_tag_t(0x6363_6D70);

pub const NUKT: hb_tag_t = hb_tag_t(0x6E75_6B74);

pub const AKHN: hb_tag_t = hb_tag_t(0x616B_686E);

pub const RPHF: hb_tag_t = hb_tag_t(0x7270_6866);

pub const RKRF: hb_tag_t = hb_tag_t(0x726B_7266);

pub const PREF: hb_tag_t = hb_tag_t(0x7072_6566);

pub const BLWF: hb_tag_t = hb_tag_t(0x626C_7766);

pub const ABVF: hb_tag_t = hb_tag_t(0x6162_7666);

pub const HALF: hb_tag_t = hb_tag_t(0x6861_6C66);

pub const PSTF: hb_tag_t = hb_tag_t(0x7073_7466);

pub const VATU: hb_tag_t = hb_tag_t(0x7661_7475);

pub const CJCT: hb_tag_t = hb_tag_t(0x636A_6374);

pub const INIT: hb_tag_t = hb_tag_t(0x696E_6974);

pub const PRES: hb_tag_t = hb_tag_t(0x7072_6573);

pub const ABVS: hb_tag_t = hb_tag_t(0x6162_7673);

pub const BLWS: hb_tag_t = hb_tag_t(0x626C_7773);

pub const PSTS: hb_tag_t = hb_tag_t(0x7073_7473);

pub const HALN: hb_tag_t = hb_tag_t(0x6861_6C6E);

pub const LIGA: hb_tag_t = hb_tag_t(0x6C69_6761);

/// The pause where syllables are found.
pub const SYLLABLES: u32 = 1;

/// The pause where they are put in the order that lookups want.
pub const INITIAL: u32 = 2;

/// The pause where the signs before a base take their place.
pub const FINAL: u32 = 3;

/// Asks for a feature that works in a syllable where its mask is set.
fn ask(
    builder: &mut hb_ot_map_builder_t,
    tag: hb_tag_t,
    flags: hb_ot_map_feature_flags_t,
) -> Result<(), ShapeError>
    ensures ok { OnOk result (builder.new ≡ with_requests builder.old (within tag flags ∷ [])) }
    ensures memory { IfErr result (λ e. e ≡ ShapeError.Memory) }
{
    builder.add_feature(tag, flags | F_PER_SYLLABLE, 1)
}

/// Asks for a feature of a stage of its own.
fn ask_alone(
    builder: &mut hb_ot_map_builder_t,
    tag: hb_tag_t,
    flags: hb_ot_map_feature_flags_t,
) -> Result<(), ShapeError>
    ensures ok { OnOk result (builder.new ≡ with_requests builder.old (alone tag flags)) }
    ensures memory { IfErr result (λ e. e ≡ ShapeError.Memory) }
{
    ask(builder, tag, flags)?;
    builder.add_gsub_pause(None)
}

/// Asks for what comes before the forms of letters.
pub fn ask_first(builder: &mut hb_ot_map_builder_t) -> Result<(), ShapeError>
    ensures ok { OnOk result (builder.new ≡ with_requests builder.old (first_requests)) }
    ensures memory { IfErr result (λ e. e ≡ ShapeError.Memory) }
{
    builder.add_gsub_pause(Some(SYLLABLES))?;
    builder.enable_feature(LOCL, F_PER_SYLLABLE, 1)?;
    builder.enable_feature(CCMP, F_PER_SYLLABLE, 1)?;
    builder.add_gsub_pause(Some(INITIAL))
}

/// Asks for the basic forms, one after the other.
pub fn ask_basic(builder: &mut hb_ot_map_builder_t) -> Result<(), ShapeError>
    ensures ok { OnOk result (builder.new ≡ with_requests builder.old (basic_requests)) }
    ensures memory { IfErr result (λ e. e ≡ ShapeError.Memory) }
{
    ask_alone(builder, NUKT, F_GLOBAL_MANUAL_JOINERS)?;
    ask_alone(builder, AKHN, F_GLOBAL_MANUAL_JOINERS)?;
    ask_alone(builder, RPHF, F_MANUAL_JOINERS)?;
    ask_alone(builder, RKRF, F_GLOBAL_MANUAL_JOINERS)?;
    ask_alone(builder, PREF, F_MANUAL_JOINERS)?;
    ask_alone(builder, BLWF, F_MANUAL_JOINERS)
}

pub fn ask_basic_more(builder: &mut hb_ot_map_builder_t) -> Result<(), ShapeError>
    ensures ok { OnOk result (builder.new ≡ with_requests builder.old (more_basic_requests)) }
    ensures memory { IfErr result (λ e. e ≡ ShapeError.Memory) }
{
    ask_alone(builder, ABVF, F_MANUAL_JOINERS)?;
    ask_alone(builder, HALF, F_MANUAL_JOINERS)?;
    ask_alone(builder, PSTF, F_MANUAL_JOINERS)?;
    ask_alone(builder, VATU, F_GLOBAL_MANUAL_JOINERS)?;
    ask_alone(builder, CJCT, F_GLOBAL_MANUAL_JOINERS)?;
    builder.add_gsub_pause(Some(FINAL))
}

/// Asks for the forms of whole syllables, together.
pub fn ask_last(builder: &mut hb_ot_map_builder_t) -> Result<(), ShapeError>
    ensures ok { OnOk result (builder.new ≡ with_requests builder.old (last_requests)) }
    ensures memory { IfErr result (λ e. e ≡ ShapeError.Memory) }
{
    ask(builder, INIT, F_MANUAL_JOINERS)?;
    ask(builder, PRES, F_GLOBAL_MANUAL_JOINERS)?;
    ask(builder, ABVS, F_GLOBAL_MANUAL_JOINERS)?;
    ask(builder, BLWS, F_GLOBAL_MANUAL_JOINERS)?;
    ask(builder, PSTS, F_GLOBAL_MANUAL_JOINERS)?;
    ask(builder, HALN, F_GLOBAL_MANUAL_JOINERS)
}
