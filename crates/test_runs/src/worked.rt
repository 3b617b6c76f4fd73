//! Texts whose answers were worked out by hand from the rules, a case a line, over each fixture in
//! one test.
mod emoji;
mod lists;
pub mod stages;
mod tables;
mod widths;

use crate::cases::check;
use crate::lists::{Lists, Widths};
use crate::worked::stages::Stages;
use crate::worked::tables::Tables;

/// Over the whole database of Unicode, by each shaper that needs no tables.
#[test]
fn lists_over_faces_of_some_characters(rt: HostRuntime) {
    for cases in lists::CASES {
        check::<Lists>(&rt, cases);
    }
    check::<Lists>(&rt, emoji::CASES);
}

#[test]
fn glyphs_over_faces_with_widths(rt: HostRuntime) {
    for cases in widths::CASES {
        check::<Widths>(&rt, cases);
    }
}

#[test]
fn glyphs_beside_tables(rt: HostRuntime) {
    check::<Tables>(&rt, tables::CASES);
}

#[test]
fn glyphs_by_stages(rt: HostRuntime) {
    check::<Stages>(&rt, stages::CASES);
}
