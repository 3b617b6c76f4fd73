//! Walks with many edits: with a buffer's own `insert` and `remove` they would take minutes.
use layout_buffer::GapBuffer;
use shape_buffer::{ShapeError, UnicodeBuffer, hb_buffer_t};
use std::alloc::Global;

/// A text of so many characters, as a run begins with it.
fn text(alloc: Global, count: u32) -> Result<hb_buffer_t, ShapeError> {
    let mut text = UnicodeBuffer::new(alloc);
    for i in 0..count {
        text.add('a', i)?;
    }
    let mut buffer = text.into_inner();
    buffer.enter();
    Ok(buffer)
}

/// Makes one item of the two at a place.
fn ligate(walk: &mut GapBuffer, i: usize) {
    if i < walk.len() && 1 < walk.len() - i {
        walk.merge_clusters(i, i + 2);
    }
    if i < walk.len() && 1 < walk.len() - i {
        walk.remove(i + 1);
    }
}

/// Makes two items of the one at a place.
fn double(walk: &mut GapBuffer, i: usize) -> Result<(), ShapeError> {
    let item = walk.items().item(i);
    if i < walk.len() {
        walk.insert(i + 1, item)?;
    }
    Ok(())
}

/// Goes over a text: so many ligatures, and then as many items that become two.
fn walk_over(walk: &mut GapBuffer, count: u32) -> Result<(), ShapeError> {
    for i in 0..count {
        ligate(walk, i as usize);
    }
    for i in 0..count {
        double(walk, (count as usize).saturating_add(2 * i as usize))?;
    }
    Ok(())
}

/// Edits a text of three times so many items, and returns how many are left and the cluster of the
/// last one.
fn edited(alloc: Global, count: u32) -> Result<(usize, u32), ShapeError> {
    let mut buffer = text(alloc, count.saturating_mul(3))?;
    let mut walk = GapBuffer::open(alloc, &mut buffer);
    walk_over(&mut walk, count)?;
    let (buffer, outcome) = walk.close();
    outcome?;
    let last = buffer.infos().last().map_or(0, |info| info.cluster);
    Ok((buffer.len(), last))
}

#[test]
fn many_edits(rt: HostRuntime) {
    let (len, last) = edited(rt.alloc(), 100_000).expect(&rt, "memory");
    assert_eq!(rt; (len, last), (300_000, 299_999));
}
