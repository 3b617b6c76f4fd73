//! Lines of glyphs, and what positioning makes of them.
//!
//! A line is `DIRECTION GLYPH ..`, each glyph 600 long: its number, or `GLYPH:ID.COMPONENT` with
//! the ligature that it is of. What is found is `X,Y,ADVANCE` for each glyph, the advance along the
//! line.
use crate::positions::tables::{GDEF, Host, bytes_of, gpos_lookup, gpos_of};
use layout_digests::{Digest, Digested};
use layout_matching::firsts::Firsts;
use layout_positions::attachment::finish_offsets;
use layout_positions::walk::{position, position_start};
use layout_tables::gdef::glyph_props;
use shape_buffer::buffer::Direction;
use shape_buffer::{GlyphPosition, UnicodeBuffer, hb_buffer_t, hb_glyph_info_t};
use shape_common::GlyphPropsFlags;
use std::fmt::Write;

fn direction_of(rt: &impl Host, word: &str) -> Direction {
    match word {
        "ltr" => Direction::LeftToRight,
        "rtl" => Direction::RightToLeft,
        "ttb" => Direction::TopToBottom,
        "btt" => Direction::BottomToTop,
        _ => panic!(rt; "unknown word {word}"),
    }
}

/// The glyph of a word, in what item.
fn item_of(rt: &impl Host, gdef: &[u8], word: &str, item: hb_glyph_info_t) -> hb_glyph_info_t {
    let (glyph, ligature) = word.split_once(':').unwrap_or((word, "0.0"));
    let (id, component) = ligature.split_once('.').expect(rt, ligature);
    let glyph: u32 = glyph.parse().expect(rt, glyph);
    let id: u8 = id.parse().expect(rt, id);
    let component: u8 = component.parse().expect(rt, component);
    let class = GlyphPropsFlags(glyph_props(gdef, glyph));
    let mut item = item;
    item.glyph_id = glyph;
    item.mask = 16;
    item._hb_glyph_info_set_glyph_class(class);
    item._hb_glyph_info_set_ligature_id(id);
    item._hb_glyph_info_set_ligature_component(component);
    item
}

/// The position of a glyph before any table, which is said to be attached.
fn first_position(direction: Direction) -> GlyphPosition {
    let mut position = GlyphPosition::zero();
    if direction.is_horizontal() {
        position.x_advance = 600;
    } else {
        position.y_advance = -600;
    }
    position.attach_chain = 1;
    position.attach_type = 1;
    position
}

/// The buffer of a line.
pub fn buffer_of(rt: &impl Host, gdef: &[u8], line: &str) -> hb_buffer_t {
    let (word, glyphs) = line.split_once(' ').expect(rt, line);
    let mut text = UnicodeBuffer::new(rt.alloc());
    for _glyph in glyphs.split(' ') {
        text.push_str("a").expect(rt, "memory");
    }
    let mut buffer = text.into_inner();
    buffer.enter();
    buffer.set_direction(direction_of(rt, word));
    let mut i: usize = 0;
    for glyph in glyphs.split(' ') {
        assert!(rt; i < buffer.len());
        let item = item_of(rt, gdef, glyph, buffer.infos()[i]);
        buffer.set_info(i, item);
        buffer.set_position(i, first_position(buffer.direction()));
        i = i.saturating_add(1);
    }
    buffer
}

/// The positions of a buffer, as they are written in rows.
fn positions_of(rt: &impl Host, buffer: &hb_buffer_t) -> String {
    let mut line = String::new(rt.alloc());
    let horizontal = buffer.direction().is_horizontal();
    for there in buffer.positions() {
        let advance = if horizontal {
            there.x_advance
        } else {
            there.y_advance
        };
        write!(line, "{},{},{} ", there.x_offset, there.y_offset, advance).expect(rt, "memory");
    }
    line
}

/// What the first lookup makes of a line.
#[tactic(auto, using(layout_positions::proofs::DigestLemmas::every_said))]
pub fn positioned(rt: &impl Host, lookups: &str, line: &str) -> String {
    let gpos = gpos_of(rt, lookups);
    let gdef = bytes_of(rt, GDEF);
    let lookup = gpos_lookup(rt, gpos.as_slice(), gdef.as_slice(), 0);
    let mut buffer = buffer_of(rt, gdef.as_slice(), line);
    position_start(&mut buffer);
    let named = Digested {
        lookup,
        digest: Digest::every(),
        firsts: Firsts {
            all: &[],
            from: 0,
            count: 0,
            wholes: &[],
            index: 0,
        },
    };
    position(&[named], &mut buffer);
    finish_offsets(&mut buffer);
    positions_of(rt, &buffer)
}
