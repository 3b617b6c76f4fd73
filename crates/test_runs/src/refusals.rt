//! Runs that are refused for memory, planning included. With memory at hand each test passes; if
//! one growth of its call is refused it says so, after a comparison of what the buffer that is
//! handed back gives once it is filled again.

use crate::cases::check;
use crate::lists::{Lists, Widths};
use crate::worked::stages::Stages;

pub mod steps;

#[test]
fn runs(rt: HostRuntime) {
    check::<Lists>(
        &rt,
        "
        step: refuse
        face: e 0301
        00E9 -> 65@0(0,0,0,0) 301@0(0,0,0,0)
        # the shortest expansion
        face: A 0302 0301 00C2
        1EA4 -> C2@0(0,0,0,0) 301@0(0,0,0,0)
        # two spellings that compose again
        shaper: recomposed
        face: e 0301 0323 1EB9 00E9
        00E9 0323 -> 1EB9@0(0,0,0,0) 301@0(0,0,0,0)
        e 0301 0323 -> 1EB9@0(0,0,0,0) 301@0(0,0,0,0)
        # marks that are put in order
        shaper: decomposed
        face: every
        settings: by_character
        a 0301 0323 -> 61@0(0,0,0,0) 323@1(0,0,0,0)/1 301@1(0,0,0,0)/1
        # a dotted circle
        shaper: default
        face: 25CC 0301
        settings: beginning
        0301 -> 25CC@0(0,0,0,0) 301@0(0,0,0,0)
        ",
    );
}

/// Over a face with widths and boxes.
#[test]
fn mark_above_and_below(rt: HostRuntime) {
    check::<Widths>(
        &rt,
        "
        step: refuse
        face: a=1(600,0,700,600,-700) 0301=2(200,50,800,200,-150) 0323=4(200,50,-50,200,-100)
        a 0301 -> 1@0(600,0,0,0) 2@0(0,0,-450,112)
        a 0323 -> 1@0(600,0,0,0) 4@0(0,0,-450,-12)
        ",
    );
}

/// Two glyphs that stay, and sixteen of the two that are doubled.
#[test]
fn stages(rt: HostRuntime) {
    check::<Stages>(
        &rt,
        "
        step: refuse
        face: eightfold
        a b a b -> 61@0(0,0,0,0)/8*8 62@1(0,0,0,0)/8 61@2(0,0,0,0)/8*8 62@3(0,0,0,0)/8
        ",
    );
}

/// A composed spelling, and one with its marks out of order.
#[test]
fn comparing(rt: HostRuntime) {
    check::<Lists>(
        &rt,
        "
        step: refuse_comparing
        shaper: decomposed
        face: 05E9 05C1 05BC 0323
        FB2C 0323 / 05E9 05BC 05C1 0323 -> 05E9 05C1 05BC 0323
        ",
    );
}

/// A text's key is refused with the text's buffer, which gives the key once it is filled again.
#[test]
fn a_key(rt: HostRuntime) {
    check::<Lists>(
        &rt,
        "
        step: refuse_key
        shaper: decomposed
        face: 05E9 05C1 05BC 0323
        settings: by_character
        05E9 05BC 05C1 0323 -> 05E9 05C1 05BC 0323
        ",
    );
}
