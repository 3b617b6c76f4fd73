//! What a pause knows of the plan and the face.
ghost use Rattle.std.specs.Prelude.{◌≡◌};
ghost use Rattle.indic_shaper.specs.Engine;

use crate::config::{Config, MALAYALAM, config_of, tag_of};
use crate::requests::{ABVF, BLWF, HALF, INIT, PREF, PSTF, RPHF};
use shape_buffer::buffer::{Script, hb_buffer_t, hb_mask_t, hb_tag_t};
use shape_buffer::interfaces::{TableIndex, hb_font_t, hb_ot_layout_t};

/// The masks of the features that work where they are asked for alone.
#[derive(Clone, Copy, Debug)]
pub struct Masks {
    pub rphf: hb_mask_t,
    pub pref: hb_mask_t,
    pub blwf: hb_mask_t,
    pub abvf: hb_mask_t,
    pub half: hb_mask_t,
    pub pstf: hb_mask_t,
    pub init: hb_mask_t,
}

/// What is the same for all syllables of a text.
#[derive(Clone, Copy, Debug)]
pub struct Facts {
    pub tag: u32,
    pub config: Config,
    /// Whether the font's lookups are of the old specification, where Halant follows its consonant.
    pub is_old: bool,
    pub masks: Masks,
    /// The glyph of the script's virama; 0 if there is none.
    pub virama: u32,
}

/// The script that stands for the new specification ends in `2`.
fn is_new_script(chosen: Option<hb_tag_t>) -> bool
    ensures { result ≡ Engine.is_new_script chosen }
{
    match chosen {
        Some(tag) => tag.0 & 0xFF == 0x32,
        None => false,
    }
}

/// The glyph of the script's virama, 0 if there is none.
fn virama_of<F: hb_font_t>(face: &F, config: Config) -> u32
    ensures { result ≡ Engine.virama_of (F.face face.now) config }
{
    match config.virama {
        Some(virama) => match face.get_nominal_glyph(virama) {
            Some(glyph) => glyph.0,
            None => 0,
        },
        None => 0,
    }
}

/// The masks of the features that are asked for where they may work.
fn masks_of<F, M: hb_ot_layout_t<F>>(map: &M::Map) -> Masks
    ensures { result ≡ Engine.masks_of (M.masks map.now) }
{
    Masks {
        rphf: M::get_1_mask(map, RPHF),
        pref: M::get_1_mask(map, PREF),
        blwf: M::get_1_mask(map, BLWF),
        abvf: M::get_1_mask(map, ABVF),
        half: M::get_1_mask(map, HALF),
        pstf: M::get_1_mask(map, PSTF),
        init: M::get_1_mask(map, INIT),
    }
}

/// What a pause knows of the plan, the face and a text.
pub fn facts_of<F: hb_font_t, M: hb_ot_layout_t<F>>(
    map: &M::Map,
    face: &F,
    script: Option<Script>,
    buffer: &hb_buffer_t,
) -> Facts
    ensures { result ≡ Engine.facts_of (F.face face.now) (M.layout face.now)
        (M.masks map.now) script buffer.now.language }
{
    let tag = tag_of(script);
    let config = config_of(tag);
    let chosen = M::chosen_script(face, script, buffer.language(), TableIndex::GSUB);
    Facts {
        tag,
        config,
        is_old: config.has_old_spec && !is_new_script(chosen),
        masks: masks_of::<F, M>(map),
        virama: virama_of(face, config),
    }
}

/// Whether lookups of a feature's stage would substitute these glyphs.
pub fn would<F, M: hb_ot_layout_t<F>>(
    map: &M::Map,
    face: &F,
    facts: &Facts,
    tag: hb_tag_t,
    glyphs: &[u32],
) -> bool
    ensures { result ≡ Engine.would (M.lookups map.now face.now) facts.now tag glyphs.now }
{
    let zero_context = !facts.is_old && facts.tag != MALAYALAM;
    M::would_substitute(map, face, tag, glyphs, zero_context)
}
