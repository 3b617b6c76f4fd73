//! The calls that take memory: each does what it is asked for, or is refused and changes nothing.
//! With memory at hand the tests pass; the gate's script refuses one growth after the other of
//! `growths`, and reads that it was so.

use crate::support::assert_same;
use shape_buffer::buffer::{ShapeError, UnicodeBuffer, hb_buffer_t, hb_glyph_info_t, hb_tag_t};
use shape_buffer::interfaces::{MapFace, NoLookups, hb_ot_map_builder_t};
use std::alloc::{AllocError, Global};
use std::process::Abort;
use std::test::Fail;

/// Whether a call on an empty buffer was refused. Compares how many items there are after it.
fn is_refused(
    rt: &impl Abort,
    answer: Result<(), ShapeError>,
    buffer: hb_buffer_t,
    asked: usize,
) -> bool {
    match answer {
        Ok(()) => {
            assert_same(rt, buffer.len(), asked);
            false
        }
        Err(error) => {
            assert_same(rt, (error, buffer.len()), (ShapeError::Memory, 0));
            true
        }
    }
}

fn add(rt: &impl Abort, alloc: Global) -> bool {
    let mut text = UnicodeBuffer::new(alloc);
    let answer = text.add('a', 0);
    is_refused(rt, answer, text.into_inner(), 1)
}

fn push(rt: &impl Abort, alloc: Global) -> bool {
    let mut text = UnicodeBuffer::new(alloc);
    let answer = text.push_str("b\u{301}");
    is_refused(rt, answer, text.into_inner(), 2)
}

fn reserve(rt: &impl Abort, alloc: Global) -> bool {
    let mut text = UnicodeBuffer::new(alloc);
    let answer = text.reserve(2);
    is_refused(rt, answer, text.into_inner(), 0)
}

fn insert(rt: &impl Abort, alloc: Global) -> bool {
    let mut buffer = UnicodeBuffer::new(alloc).into_inner();
    let answer = buffer.insert(0, hb_glyph_info_t::new('c', 0));
    is_refused(rt, answer, buffer, 1)
}

/// Two items.
fn two(alloc: Global) -> Result<Vec<hb_glyph_info_t>, AllocError> {
    let mut infos = Vec::new(alloc);
    infos.resize(2, hb_glyph_info_t::new('d', 0))?;
    Ok(infos)
}

fn replace(rt: &impl Abort, alloc: Global, infos: Vec<hb_glyph_info_t>) -> bool {
    let mut buffer: hb_buffer_t = UnicodeBuffer::new(alloc).into_inner();
    let answer = buffer.replace_infos(infos);
    is_refused(rt, answer, buffer, 2)
}

/// Fails if the list of two items itself is refused.
#[test]
fn growths(rt: HostRuntime) -> Result<(), Fail> {
    let alloc = rt.alloc();
    let mut refused = add(&rt, alloc);
    refused |= push(&rt, alloc);
    refused |= reserve(&rt, alloc);
    refused |= insert(&rt, alloc);
    refused |= replace(&rt, alloc, two(alloc)?);
    if refused {
        return Err(Fail::from("refused"));
    }
    Ok(())
}

/// Puts so many items in the place of all others: what that returns, and how many there are then.
fn replaced(
    rt: &(impl Abort + AllocGlobal),
    buffer: &mut hb_buffer_t,
    count: usize,
) -> (Result<(), ShapeError>, usize) {
    let mut items: Vec<hb_glyph_info_t> = Vec::new(rt.alloc());
    items
        .resize(count, hb_glyph_info_t::new('a', 0))
        .expect(rt, "memory");
    let answer = buffer.replace_infos(items);
    (answer, buffer.len())
}

/// The limit of a short run.
#[test]
fn limits(rt: HostRuntime) {
    let mut buffer = hb_buffer_t::new(rt.alloc());
    buffer.enter();
    assert_same(&rt, replaced(&rt, &mut buffer, 16384), (Ok(()), 16384));
    let inserted = buffer.insert(0, hb_glyph_info_t::new('b', 1));
    assert_same(&rt, inserted, Err(ShapeError::Length));
    let refused = replaced(&rt, &mut buffer, 16385);
    assert_same(&rt, refused, (Err(ShapeError::Length), 16384));
}

/// Makes each request of a builder, a feature or a pause.
fn request(alloc: Global) -> Result<(usize, bool), ShapeError> {
    let face = MapFace::new(alloc, 1000);
    let mut builder = hb_ot_map_builder_t::new::<MapFace, NoLookups>(alloc, &face, None, None);
    let tag = hb_tag_t::from_bytes(b"liga");
    builder.add_feature(tag, 4, 5)?;
    builder.enable_feature(tag, 2, 1)?;
    builder.reserve(1)?;
    builder.disable_feature(tag)?;
    builder.add_gsub_pause(Some(7))?;
    builder.set_simple(false);
    Ok((builder.requests().len(), builder.is_simple()))
}

#[test]
fn requests(rt: HostRuntime) {
    assert_same(&rt, request(rt.alloc()), Ok((4, false)));
}
