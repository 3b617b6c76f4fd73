//! Signs that stretch over a word, through the two calls for them.

use crate::cases::{Settings, UNSET};
use crate::comparing::{assert_same, position_at};
use crate::faces::face_of;
use crate::texts::buffer_of;
use arabic_stretching::{record_tiles, stretch_tiles};
use shape_buffer::buffer::{
    Direction, GlyphPosition, hb_buffer_t, hb_glyph_info_t, hb_unicode_general_category_t,
};
use std::process::Abort;

/// The advances of three tiles.
const TILES: Settings<'static> = Settings {
    face: "a=1(100) b=2(50) c=3(100)",
    ..UNSET
};

/// A glyph of a sign, by its place in the sign, or one of a word.
fn item(glyph: u32, tile: Option<u8>) -> hb_glyph_info_t {
    let mut info = hb_glyph_info_t::new('x', 0);
    info.glyph_id = glyph;
    info._hb_glyph_info_set_general_category(hb_unicode_general_category_t::OtherLetter);
    if let Some(place) = tile {
        info._hb_glyph_info_set_multiplied(true);
        info._hb_glyph_info_set_ligature_component(place);
    }
    info
}

/// A sign of three tiles, the second of which repeats, and a word of two glyphs of 260 after it.
fn sign(rt: &(impl Abort + AllocGlobal)) -> hb_buffer_t {
    let items = [
        item(1, Some(0)),
        item(2, Some(1)),
        item(3, Some(2)),
        item(4, None),
        item(5, None),
    ];
    let mut infos = Vec::new(rt.alloc());
    infos.extend_from_slice(&items).expect(rt, "error");
    let mut buffer = buffer_of(rt, infos);
    buffer.set_direction(Direction::LeftToRight);
    for i in 3..5 {
        if i < buffer.len() {
            let mut position = GlyphPosition::zero();
            position.x_advance = 260;
            buffer.set_position(i, position);
        }
    }
    buffer
}

/// Of 520 the tiles of 100, 50 and 100 leave 320, which the second one goes 7 times into with
/// itself, overlapping.
#[test]
fn a_sign_is_as_wide_as_its_word(rt: HostRuntime) {
    let mut buffer = sign(&rt);
    record_tiles(&mut buffer);
    assert!(&rt; buffer.len() <= buffer.length_limit());
    stretch_tiles(rt.alloc(), &face_of(&rt, &TILES), &mut buffer).expect(&rt, "error");
    let wanted = [
        (1, 0),
        (2, 100),
        (2, 150),
        (2, 195),
        (2, 240),
        (2, 285),
        (2, 330),
        (2, 375),
        (3, 420),
        (4, 0),
        (5, 0),
    ];
    assert_same(&rt, buffer.len(), wanted.len());
    for (i, info) in buffer.infos().iter().enumerate() {
        let found = (info.glyph_id, position_at(buffer.positions(), i).x_offset);
        assert_same(&rt, Some(&found), wanted.get(i));
    }
}
