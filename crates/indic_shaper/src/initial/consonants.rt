//! Where the font puts each consonant: below, after, or as the base.
ghost use Rattle.std.specs.Prelude.{◌≡◌, length};
ghost use Rattle.std.specs.Option.{IfSome};
ghost use Rattle.std.specs.List.{list_any};
ghost use Rattle.shape_buffer.specs.Layout.{LookupMeaning};
ghost use Rattle.indic_shaper.specs.Consonants;
ghost use Rattle.indic_shaper.specs.Consonants.{AreKnown};
ghost use Rattle.indic_shaper.specs.declared.engine.Facts.{Facts as AnyFacts};

use crate::categories::{POS_BASE_C, POS_BELOW_C, POS_POST_C};
use crate::cutting::{as_circle, is_new_circle};
use crate::engine::{Facts, would};
use crate::glyphs::{category, is_letter, position, with_position};
use crate::requests::{BLWF, PREF, PSTF, VATU};
use shape_buffer::buffer::{hb_glyph_info_t, hb_tag_t};
use shape_buffer::interfaces::hb_ot_layout_t;

/// Whether a feature would join a consonant with a virama, before or after it.
fn joins<F, M: hb_ot_layout_t<F>>(
    map: &M::Map,
    face: &F,
    facts: &Facts,
    tag: hb_tag_t,
    consonant: u32,
) -> bool
    ensures { result ≡ Consonants.joins (M.lookups map.now face.now) facts.now tag consonant }
{
    let virama = facts.virama;
    would::<F, M>(map, face, facts, tag, &[virama, consonant])
        || would::<F, M>(map, face, facts, tag, &[consonant, virama])
}

/// Where the font puts a consonant.
fn consonant_position<F, M: hb_ot_layout_t<F>>(
    map: &M::Map,
    face: &F,
    facts: &Facts,
    consonant: u32,
) -> u8
    ensures { result
        ≡ Consonants.consonant_position (M.lookups map.now face.now) facts.now consonant }
{
    if joins::<F, M>(map, face, facts, BLWF, consonant)
        || joins::<F, M>(map, face, facts, VATU, consonant)
    {
        return POS_BELOW_C;
    }
    if joins::<F, M>(map, face, facts, PSTF, consonant)
        || joins::<F, M>(map, face, facts, PREF, consonant)
    {
        return POS_POST_C;
    }
    POS_BASE_C
}

/// Whether an item is a letter that may be the base, in a script with a virama.
fn is_candidate(facts: &Facts, info: &hb_glyph_info_t) -> bool
    ensures { result ≡ Consonants.is_candidate facts.now info.now }
{
    facts.virama != 0 && position(info) == POS_BASE_C
}

fn is_letter_item(info: &hb_glyph_info_t) -> bool
    ensures { result ≡ Consonants.is_letter_item info.now }
{
    is_letter(category(info))
}

fn has_letter(items: &[hb_glyph_info_t]) -> bool
    ensures { result ≡ list_any Consonants.is_letter_item items.now }
{
    items.iter().any(|info| is_letter_item(info))
}

/// Whether a letter stands after the first item of a syllable. Where none does, forms don't matter.
fn has_several(items: &[hb_glyph_info_t]) -> bool
    ensures { result ≡ Consonants.has_several items.now }
{
    1 < items.len() && has_letter(&items[1..])
}

/// A consonant that the font was asked about, and where the font puts it.
#[derive(Clone, Copy, Debug)]
pub struct Known {
    pub glyph: u32,
    pub place: u8,
    /// Whether it was asked about one.
    pub is_set: bool,
}

/// No consonant.
pub const NOT_KNOWN: Known = Known {
    glyph: 0,
    place: 0,
    is_set: false,
};

/// How many consonants are kept in mind.
pub const ROOM: usize = 32;

/// Where the font puts a consonant, if it was asked before.
fn recalled(known: &[Known], consonant: u32) -> Option<u8>
    ensures { (lookups : LookupMeaning) (facts : AnyFacts) → AreKnown lookups facts known.now
        → IfSome result (λ place. place ≡ Consonants.consonant_position lookups facts consonant) }
{
    let i = consonant as usize % ROOM;
    if i < known.len() && known[i].is_set && known[i].glyph == consonant {
        Some(known[i].place)
    } else {
        None
    }
}

/// Keeps in mind where the font puts a consonant, in place of another one.
fn keep(known: &mut [Known], consonant: u32, place: u8)
    ensures known { (lookups : LookupMeaning) (facts : AnyFacts)
        → place ≡ Consonants.consonant_position lookups facts consonant
        → AreKnown lookups facts known.old → AreKnown lookups facts known.new }
    ensures len { length known.new ≡ length known.old }
{
    let i = consonant as usize % ROOM;
    if i < known.len() {
        known[i] = Known {
            glyph: consonant,
            place,
            is_set: true,
        };
    }
}

/// Where the font puts a consonant. It is asked once, as long as the consonant is kept in mind: the
/// answer is the same all through a text.
fn place_of<F, M: hb_ot_layout_t<F>>(
    map: &M::Map,
    face: &F,
    facts: &Facts,
    known: &mut [Known],
    consonant: u32,
) -> u8
    requires { AreKnown (M.lookups map.now face.now) facts.now known.old }
    ensures place { result
        ≡ Consonants.consonant_position (M.lookups map.now face.now) facts.now consonant }
    ensures known { AreKnown (M.lookups map.now face.now) facts.now known.new }
    ensures len { length known.new ≡ length known.old }
{
    match recalled(known, consonant) {
        Some(place) => place,
        None => {
            let place = consonant_position::<F, M>(map, face, facts, consonant);
            keep(known, consonant, place);
            place
        }
    }
}

/// An item where the font puts it, if its syllable has several letters.
fn placed<F, M: hb_ot_layout_t<F>>(
    map: &M::Map,
    face: &F,
    facts: &Facts,
    known: &mut [Known],
    several: bool,
    info: &hb_glyph_info_t,
) -> hb_glyph_info_t
    requires { AreKnown (M.lookups map.now face.now) facts.now known.old }
    ensures value { result
        ≡ Consonants.placed (M.lookups map.now face.now) facts.now several info.now }
    ensures known { AreKnown (M.lookups map.now face.now) facts.now known.new }
    ensures len { length known.new ≡ length known.old }
{
    if is_new_circle(info) {
        return as_circle(info);
    }
    if several && is_candidate(facts, info) {
        let place = place_of::<F, M>(map, face, facts, known, info.glyph_id);
        return with_position(info, place);
    }
    *info
}

/// Notes where the font puts each letter of a syllable.
pub(super) fn place_letters<F, M: hb_ot_layout_t<F>>(
    map: &M::Map,
    face: &F,
    facts: &Facts,
    known: &mut [Known],
    items: &mut [hb_glyph_info_t],
)
    requires { AreKnown (M.lookups map.now face.now) facts.now known.old }
    ensures made { items.new
        ≡ Consonants.letters_placed (M.lookups map.now face.now) facts.now items.old }
    ensures known { AreKnown (M.lookups map.now face.now) facts.now known.new }
{
    let several = has_several(items);
    for i in 0..items.len() {
        items[i] = placed::<F, M>(map, face, facts, known, several, &items[i]);
    }
}
