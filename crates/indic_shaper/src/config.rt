//! How scripts differ.
ghost use Rattle.std.specs.Prelude.{◌≡◌};
ghost use Rattle.indic_shaper.specs.Scripts;

use crate::categories::{
    POS_AFTER_MAIN, POS_AFTER_POST, POS_AFTER_SUB, POS_BEFORE_POST, POS_BEFORE_SUB,
};
use shape_buffer::buffer::Script;

/// How a reph is written.
#[derive(Clone, Copy, PartialEq, Eq, Debug)]
pub enum RephMode {
    /// By Ra and Halant at the beginning.
    Implicit,
    /// By Ra, Halant and ZWJ at the beginning.
    Explicit,
    /// By a character of its own.
    Encoded,
}

/// What a script asks for.
#[derive(Clone, Copy, Debug)]
pub struct Config {
    /// Whether fonts of an older specification are about, in which Halant follows its consonant.
    pub has_old_spec: bool,
    pub virama: Option<char>,
    /// Where a reph goes if nothing before the base keeps it.
    pub reph_position: u8,
    pub reph_mode: RephMode,
    /// Whether below-base forms are made before the base, too.
    pub below_before_base: bool,
}

/// The tag of Devanagari.
pub const DEVANAGARI: u32 = 0x4465_7661;

/// The tag of Bengali.
pub const BENGALI: u32 = 0x4265_6E67;

/// The tag of Gurmukhi.
pub const GURMUKHI: u32 = 0x4775_7275;

/// The tag of Gujarati.
pub const GUJARATI: u32 = 0x4775_6A72;

/// The tag of Oriya.
pub const ORIYA: u32 = 0x4F72_7961;

/// The tag of Tamil.
pub const TAMIL: u32 = 0x5461_6D6C;

/// The tag of Telugu.
pub const TELUGU: u32 = 0x5465_6C75;

/// The tag of Kannada.
pub const KANNADA: u32 = 0x4B6E_6461;

/// The tag of Malayalam.
pub const MALAYALAM: u32 = 0x4D6C_796D;

/// The tag of a script.
pub fn tag_of(script: Option<Script>) -> u32
    ensures { result ≡ Scripts.tag_of script }
{
    match script {
        Some(script) => script.0.0,
        None => 0,
    }
}

/// Of a script whose reph is Ra and Halant.
fn implicit(virama: char, reph_position: u8) -> Config
    ensures { result ≡ Scripts.implicit virama reph_position }
{
    Config {
        has_old_spec: true,
        virama: Some(virama),
        reph_position,
        reph_mode: RephMode::Implicit,
        below_before_base: true,
    }
}

/// What a script asks for.
pub fn config_of(tag: u32) -> Config
    ensures { result ≡ Scripts.config_of tag }
{
    match tag {
        DEVANAGARI => implicit('\u{94D}', POS_BEFORE_POST),
        BENGALI => implicit('\u{9CD}', POS_AFTER_SUB),
        GURMUKHI => implicit('\u{A4D}', POS_BEFORE_SUB),
        GUJARATI => implicit('\u{ACD}', POS_BEFORE_POST),
        ORIYA => implicit('\u{B4D}', POS_AFTER_MAIN),
        TAMIL => implicit('\u{BCD}', POS_AFTER_POST),
        TELUGU => Config {
            has_old_spec: true,
            virama: Some('\u{C4D}'),
            reph_position: POS_AFTER_POST,
            reph_mode: RephMode::Explicit,
            below_before_base: false,
        },
        KANNADA => Config {
            has_old_spec: true,
            virama: Some('\u{CCD}'),
            reph_position: POS_AFTER_POST,
            reph_mode: RephMode::Implicit,
            below_before_base: false,
        },
        MALAYALAM => Config {
            has_old_spec: true,
            virama: Some('\u{D4D}'),
            reph_position: POS_AFTER_MAIN,
            reph_mode: RephMode::Encoded,
            below_before_base: true,
        },
        _ => Config {
            has_old_spec: false,
            virama: None,
            reph_position: POS_BEFORE_POST,
            reph_mode: RephMode::Implicit,
            below_before_base: true,
        },
    }
}
