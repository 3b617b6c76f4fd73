//! Calls on a buffer, by name.
//!
//! | call | does |
//! |---|---|
//! | `merge 1..3`, `merge_out 1..3`, `break 1..3`, `concat 1..3` | merges or marks items, from a place up to another |
//! | `spans 0..2 1..3`, `spans_out 0..2 1..3` | merges each of some spans |
//! | `graphemes` | merges graphemes |
//! | `delete` | deletes the items of glyph 1 |
//! | `asked` | asks for UNSAFE_TO_CONCAT |
//! | `swap 0..2`, `swap_infos 0..2` | exchanges two items, with or without their positions |
//! | `write 1..5`, `insert 1..5` | puts an item of cluster 5 at place 1, in place of another or before it |
//! | `advance 1..7` | gives the item at place 1 an advance of 7 |
//! | `remove 1`, `truncate 3` | takes out an item, or all from a place on |
//! | `enter`, `leave` | begins or ends a run |
//! | `limit 16384`, `len 4` | compares the limit, or the number of items |

ghost use Rattle.std.specs.Bool.{OnTrue};
ghost use Rattle.shape_items.specs.Spans.{AreSpansInOrder};

use crate::support::{assert_same, assert_shown, filled, level_of, number, parts, rows_of, shown};
use shape_buffer::buffer::{BufferFlags, GlyphPosition, hb_buffer_t, hb_glyph_info_t};
use std::process::Abort;

/// Whether no span begins before the one before it, and none ends past the items.
fn are_in_order(spans: &[(usize, usize)], from: usize, size: usize) -> bool
    ensures { OnTrue result (AreSpansInOrder from size spans.now) }
{
    match spans {
        [] => true,
        [(start, end), rest @ ..] => {
            from <= *start && *start <= *end && *end <= size && are_in_order(rest, *start, size)
        }
    }
}

/// Two numbers, `1..3`, or one.
fn pair(rt: &impl Abort, word: &str) -> (usize, usize) {
    let (first, second) = word.split_once("..").unwrap_or((word, "0"));
    (number(rt, first), number(rt, second))
}

/// Merges spans.
fn merge_spans(rt: &(impl Abort + AllocGlobal), buffer: &mut hb_buffer_t, words: &str, out: bool) {
    let mut spans = Vec::new(rt.alloc());
    for word in words.split_whitespace() {
        spans.push(pair(rt, word)).expect(rt, "memory");
    }
    assert!(rt; are_in_order(spans.as_slice(), 0, buffer.len()));
    if out {
        buffer.merge_spans_out(spans.as_slice());
    } else {
        buffer.merge_spans(spans.as_slice());
    }
}

/// Makes a call on a span.
fn make_on_span(
    rt: &impl Abort,
    buffer: &mut hb_buffer_t,
    call: &str,
    (start, end): (usize, usize),
) {
    assert!(rt; start <= end);
    assert!(rt; end <= buffer.len());
    match call {
        "merge" => buffer.merge_clusters(start, end),
        "merge_out" => buffer.merge_out_clusters(start, end),
        "break" => buffer.unsafe_to_break(start, end),
        "concat" => buffer.unsafe_to_concat(start, end),
        "tatweel" => buffer.safe_to_insert_tatweel(start, end),
        _ => panic!(rt; "no call {call}"),
    }
}

/// Exchanges two items, with their positions or without.
fn exchange(
    rt: &impl Abort,
    buffer: &mut hb_buffer_t,
    (i, j): (usize, usize),
    with_positions: bool,
) {
    assert!(rt; i < buffer.len());
    assert!(rt; j < buffer.len());
    if with_positions {
        buffer.swap(i, j);
    } else {
        buffer.swap_infos(i, j);
    }
}

/// Gives an item an advance.
fn advance(rt: &impl Abort, buffer: &mut hb_buffer_t, (at, right): (usize, usize)) {
    assert!(rt; at < buffer.len());
    let mut position = GlyphPosition::zero();
    position.x_advance = i32::try_from(right).expect(rt, "an advance");
    buffer.set_position(at, position);
}

/// Puts an item of a cluster at a place.
fn put(rt: &impl Abort, buffer: &mut hb_buffer_t, (at, cluster): (usize, usize), before: bool) {
    assert!(rt; at < buffer.len());
    let item = hb_glyph_info_t::new('y', u32::try_from(cluster).expect(rt, "a cluster"));
    if before {
        buffer.insert(at, item).expect(rt, "memory");
    } else {
        buffer.set_info(at, item);
    }
}

/// Takes out the item at a place.
fn remove(rt: &impl Abort, buffer: &mut hb_buffer_t, at: usize) {
    assert!(rt; at < buffer.len());
    buffer.remove(at);
}

/// Makes a call on two numbers, or on one.
fn make_on_pair(
    rt: &(impl Abort + AllocGlobal),
    buffer: &mut hb_buffer_t,
    call: &str,
    operands: (usize, usize),
) {
    match call {
        "swap" => exchange(rt, buffer, operands, true),
        "swap_infos" => exchange(rt, buffer, operands, false),
        "advance" => advance(rt, buffer, operands),
        "write" => put(rt, buffer, operands, false),
        "insert" => put(rt, buffer, operands, true),
        "remove" => remove(rt, buffer, operands.0),
        "truncate" => buffer.truncate(operands.0),
        "limit" => assert_same(rt, buffer.length_limit(), operands.0),
        "len" => assert_same(
            rt,
            (buffer.len(), buffer.is_empty()),
            (operands.0, operands.0 == 0),
        ),
        _ => make_on_span(rt, buffer, call, operands),
    }
}

fn delete(buffer: &mut hb_buffer_t) {
    buffer.delete_glyphs_inplace(|info| info.glyph_id == 1);
}

/// Makes a call.
fn make(rt: &(impl Abort + AllocGlobal), buffer: &mut hb_buffer_t, call: &str) {
    let (name, operands) = call.split_once(' ').unwrap_or((call, ""));
    match name {
        "" => {}
        "graphemes" => buffer.merge_graphemes(),
        "delete" => delete(buffer),
        "asked" => buffer.set_flags(BufferFlags::PRODUCE_UNSAFE_TO_CONCAT),
        "elongating" => buffer.set_flags(BufferFlags::PRODUCE_SAFE_TO_INSERT_TATWEEL),
        "enter" => buffer.enter(),
        "leave" => buffer.leave(),
        "spans" => merge_spans(rt, buffer, operands, false),
        "spans_out" => merge_spans(rt, buffer, operands, true),
        _ => make_on_pair(rt, buffer, name, pair(rt, operands)),
    }
}

/// Makes the calls of a row and compares what they leave:
/// `LEVEL | ITEM ITEM | CALL, CALL -> ITEM ITEM`.
fn check_row(rt: &(impl Abort + AllocGlobal), row: &str) {
    let (level, rest) = parts(rt, row, "|");
    let (items, line) = parts(rt, rest, "|");
    let (calls, wanted) = parts(rt, line, "->");
    let mut buffer = filled(rt, items).expect(rt, "memory");
    buffer.set_cluster_level(level_of(rt, level));
    for call in calls.split(',') {
        make(rt, &mut buffer, call.trim());
    }
    assert_shown(rt, row, &shown(rt, &buffer), wanted);
}

/// Does so for each row. An item is `CLUSTER/MASK`, and may have a glyph before it and an advance
/// after it, as in `1@0/8+600`; `*` stands before a continuation. After the items left stand the
/// scratch flags, as in `flags 32`, if there are any; 32 is HAS_GLYPH_FLAGS.
pub fn check_rows(rt: &(impl Abort + AllocGlobal), rows: &str) {
    for row in rows_of(rt, rows).lines() {
        check_row(rt, row);
    }
}
