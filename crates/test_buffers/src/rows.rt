//! Rows of calls, as `sessions` reads them, by subject.

use crate::sessions::check_rows;

/// Merging grows over the first item's cluster and over the last item's, and on neither side if the
/// outer items are in the least cluster. Features stay, and defined flags go if the cluster
/// changes. At the level of single characters the span is marked instead, or nothing happens. Marks
/// are made where a cluster changes; two kinds of them if they are asked for.
const MERGED_AND_MARKED: &str = "
    monotone | 5/8 5/8 3/8 3/8 | merge 1..3 -> 3/8 3/8 3/8 3/8
    graphemes | 1/0 5/0 5/0 5/0 6/0 | merge 0..2 -> 1/0 1/0 1/0 1/0 6/0
    graphemes | 3/7 3/7 9/7 3/7 3/7 | merge 1..4 -> 3/7 3/7 3/0 3/7 3/7
    monotone | 5/15 3/15 | merge 0..2 -> 3/8 3/15
    monotone | 5/15 5/7 3/15 | merge 1..2 -> 5/15 5/7 3/15
    characters | 4/8 2/4 6/0 6/0 | merge 0..3 -> 4/11 2/4 6/3 6/0 flags 32
    characters | 4/8 2/4 6/0 6/0 | merge_out 0..3 -> 4/8 2/4 6/0 6/0
    graphemes | 4/8 2/4 6/0 6/0 | merge_out 0..3 -> 2/8 2/4 2/0 2/0
    graphemes | 4/8 2/4 6/0 6/0 | break 0..3 -> 4/11 2/4 6/3 6/0 flags 32
    characters | 4/8 2/4 6/0 6/0 | break 2..3 -> 4/8 2/4 6/0 6/0
    monotone | 4/8 2/4 6/0 6/0 | asked, concat 1..3 -> 4/8 2/6 6/2 6/0 flags 32
    characters | 4/8 2/4 6/0 6/0 | asked, concat 2..2 -> 4/8 2/4 6/0 6/0 flags 32
    characters | 4/8 2/4 6/0 6/0 | concat 1..3 -> 4/8 2/4 6/0 6/0
    monotone | 4/8 2/2 6/0 6/0 | elongating, tatweel 0..3 -> 4/12 2/2 6/4 6/0 flags 32
    characters | 4/8 2/4 6/0 6/0 | elongating, tatweel 2..3 -> 4/8 2/4 6/0 6/0
    graphemes | 4/8 2/4 6/0 6/0 | asked, tatweel 0..3 -> 4/11 2/4 6/3 6/0 flags 32
";

/// Items of glyph 1 are deleted. The next item has the cluster, picked or not; the last kept items
/// of one cluster take a smaller one, with the flags, and clusters fall with each picked item; the
/// last kept item joins the cluster before it; none was kept, so the first items are merged, or
/// marked at the level of single characters; nothing is left or picked; positions go with their
/// items.
const DELETED: &str = "
    graphemes | 2/8 1@1/15 1@1/7 1/4 | delete -> 2/8 1/4
    monotone | 4/5 2/9 2/10 1@1/20 3/0 | delete -> 4/5 1/12 1/12 3/0
    characters | 4/5 2/9 2/10 1@1/20 3/0 | delete -> 4/5 1/12 1/12 3/0
    graphemes | 1/3 1@1/7 4/0 1@9/7 | delete -> 1/3 4/0
    graphemes | 9/8 9/16 1@8/1 1@7/2 1@5/4 6/1 | delete -> 5/12 5/20 6/1
    graphemes | 5/1 7/1 1@5/4 9/2 | delete -> 5/1 5/4 9/2
    graphemes | 5/1 7/1 1@5/4 1@4/2 9/0 1@4/1 1@3/4 | delete -> 3/4 3/4 3/4
    monotone | 1@5/7 3/15 5/1 | delete -> 3/15 5/1
    graphemes | 1@3/7 5/15 5/9 6/1 | delete -> 3/8 3/8 6/1
    graphemes | 1@3/0 1@5/0 7/1 | delete -> 3/0
    characters | 1@3/7 5/15 5/9 6/1 | delete -> 5/15 5/9 6/1 flags 32
    characters | 1@3/0 5/8 5/8 | delete -> 5/11 5/8 flags 32
    characters | 1@5/0 3/8 | delete -> 3/8 flags 32
    graphemes | 1@3/7 | delete ->
    graphemes | 3/7 2/5 | delete -> 3/7 2/5
    graphemes | 0/0+100 1@1/1+101 2/0+102 1@3/1+103 4/0+104 | delete -> 0/0+100 2/0+102 4/0+104
";

/// Graphemes, of which one takes in those before it, begins with a mark, or is of an empty list;
/// and spans that are merged one after the other: 9 9 8 7 6 becomes 8 8 8 7 6, then 7 7 7 7 6, then
/// 6 6 6 6 6; 5 7 7 5 3 becomes 5 5 5 5 3, then 3 3 3 3 3; 4 9 9 2 8 7 becomes 4 2 2 2 8 7, then 4
/// 2 2 2 7 7; 1 5 5 5 6 becomes 1 1 1 1 6, then 1 1 1 1 1. Fourteen spans that change nothing come
/// before those of the last row, since many are merged in another way than few.
const SPANS: &str = "
    graphemes | 9/9 *9/9 *8/9 8/9 *8/9 *7/9 | graphemes -> 7/8 7/8 7/8 7/8 7/8 7/9
    monotone | 9/9 *9/9 *8/9 8/9 *8/9 *7/9 | graphemes -> 7/8 7/8 7/8 7/8 7/8 7/9
    graphemes | 0/1 *1/1 2/1 3/1 *4/1 | graphemes -> 0/1 0/0 2/1 3/1 3/0
    graphemes | *5/0 *6/0 7/0 | graphemes -> 5/0 5/0 7/0
    graphemes | | graphemes ->
    characters | 9/9 *9/9 *8/9 8/9 *8/9 *7/9 | graphemes -> 9/9 9/9 8/9 8/9 8/9 7/9
    graphemes | 9/8 9/15 8/9 7/10 6/12 | spans 1..3 2..4 3..5 -> 6/8 6/8 6/8 6/8 6/12
    graphemes | 9/8 9/15 8/9 7/10 6/12 | spans_out 1..3 2..4 3..5 -> 6/8 6/8 6/8 6/8 6/12
    monotone | 5/1 7/9 7/2 5/4 3/2 | spans 2..4 3..5 -> 3/0 3/8 3/0 3/0 3/2
    monotone | 5/1 7/9 7/2 5/4 3/2 | spans_out 2..4 3..5 -> 3/0 3/8 3/0 3/0 3/2
    graphemes | 4/1 9/1 9/2 2/7 8/7 7/7 | spans 2..4 4..6 -> 4/1 2/0 2/0 2/7 7/0 7/7
    monotone | 1/0 5/1 5/2 5/8 6/1 | spans 0..2 2..5 -> 1/0 1/0 1/0 1/8 1/0
    graphemes | 3/7 2/5 1/1 | spans -> 3/7 2/5 1/1
    graphemes | 3/7 2/5 1/1 | spans 0..0 1..2 2..3 3..3 -> 3/7 2/5 1/1
    graphemes | | spans_out 0..0 ->
    characters | 4/8 2/4 6/0 6/0 | spans 0..2 1..3 -> 4/11 2/4 6/3 6/0 flags 32
    characters | 4/8 2/4 6/0 6/0 | spans_out 0..2 1..3 -> 4/8 2/4 6/0 6/0
    monotone | 9/8 9/15 8/9 7/10 6/12 | spans 0..1 0..1 0..1 0..1 0..1 0..1 0..1 0..1 0..1 0..1 0..1 0..1 \
        0..1 0..1 1..3 2..4 3..5 -> 6/8 6/8 6/8 6/8 6/12
";

/// Items are exchanged with their positions or without, written, inserted and taken out; the limit
/// of a run.
const MOVED: &str = "
    characters | 0/1 1/2 2/4 | advance 0..7, swap 0..2 -> 2/4 1/2 0/1+7
    characters | 2/4 1/2 0/1+7 | swap_infos 1..2 -> 2/4 0/1 1/2+7
    characters | 2/4 0/1 1/2+7 | swap_infos 2..1 -> 2/4 1/2 0/1+7
    graphemes | 9/0 0/0 1/0 3/0 | enter, limit 16384, len 4, write 1..5, insert 1..2, len 5, remove 0 \
        -> 2/0 5/0 1/0 3/0
    graphemes | 2/0 5/0 1/0 3/0 | truncate 3, enter, leave, limit 18446744073709551615 -> 2/0 5/0 1/0
";

#[test]
fn calls_by_rows(rt: HostRuntime) {
    check_rows(&rt, MERGED_AND_MARKED);
    check_rows(&rt, DELETED);
    check_rows(&rt, SPANS);
    check_rows(&rt, MOVED);
}
