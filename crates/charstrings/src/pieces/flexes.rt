//! Flexes: two curves each.
ghost use Rattle.std.specs.Prelude.{◌≡◌, ◌<◌, ◌^◌};
ghost use Rattle.charstrings.specs.Pieces;

use super::{Delta, Found, Piece, along, arg, curve_at, delta_at};
use crate::numbers::{opposite, plus};

/// flex
pub(super) fn flex(args: &[i32], at: u16) -> Option<Found>
    ensures { result ≡ Pieces.flex args.now at }
{
    match at {
        0 => Some(Found {
            piece: curve_at(args, 0),
            next: 6,
        }),
        6 => Some(Found {
            piece: curve_at(args, 6),
            next: 12,
        }),
        _ => None,
    }
}

/// hflex
#[tactic(auto, using(crate::proofs::SignedLemmas::kept_bits))]
pub(super) fn hflex(args: &[i32], at: u16) -> Option<Found>
    ensures { result ≡ Pieces.hflex args.now at }
{
    match at {
        0 => Some(Found {
            piece: Piece::Curve(
                along(true, arg(args, 0)),
                delta_at(args, 1),
                along(true, arg(args, 3)),
            ),
            next: 4,
        }),
        4 => {
            let back = Delta {
                x: arg(args, 5),
                y: opposite(arg(args, 2)),
            };
            Some(Found {
                piece: Piece::Curve(along(true, arg(args, 4)), back, along(true, arg(args, 6))),
                next: 7,
            })
        }
        _ => None,
    }
}

/// hflex1
#[tactic(auto, using(crate::proofs::SignedLemmas::kept_bits))]
pub(super) fn hflex1(args: &[i32], at: u16) -> Option<Found>
    ensures { result ≡ Pieces.hflex1 args.now at }
{
    match at {
        0 => Some(Found {
            piece: Piece::Curve(
                delta_at(args, 0),
                delta_at(args, 2),
                along(true, arg(args, 4)),
            ),
            next: 5,
        }),
        5 => {
            let end = Delta {
                x: arg(args, 8),
                y: opposite(plus(plus(arg(args, 1), arg(args, 3)), arg(args, 7))),
            };
            Some(Found {
                piece: Piece::Curve(along(true, arg(args, 5)), delta_at(args, 6), end),
                next: 9,
            })
        }
        _ => None,
    }
}

/// The sum of five arguments, of which each is the second after the one before.
fn sum_of_five(args: &[i32], i: usize) -> i64
    requires { i < 2 ^ 8 }
    ensures { result ≡ Pieces.sum_of_five args.now i }
{
    let two = plus(arg(args, i), arg(args, i + 2));
    let four = plus(plus(two, arg(args, i + 4)), arg(args, i + 6));
    plus(four, arg(args, i + 8))
}

/// How far the end of flex1 lies from the point before it.
#[tactic(auto, using(crate::proofs::SignedLemmas::kept_bits))]
fn flex1_end(args: &[i32]) -> Delta
    ensures { result ≡ Pieces.flex1_end args.now }
{
    let (dx, dy) = (sum_of_five(args, 0), sum_of_five(args, 1));
    if dy.unsigned_abs() < dx.unsigned_abs() {
        Delta {
            x: arg(args, 10),
            y: opposite(dy),
        }
    } else {
        Delta {
            x: opposite(dx),
            y: arg(args, 10),
        }
    }
}

/// flex1
pub(super) fn flex1(args: &[i32], at: u16) -> Option<Found>
    ensures { result ≡ Pieces.flex1 args.now at }
{
    match at {
        0 => Some(Found {
            piece: curve_at(args, 0),
            next: 6,
        }),
        6 => Some(Found {
            piece: Piece::Curve(delta_at(args, 6), delta_at(args, 8), flex1_end(args)),
            next: 11,
        }),
        _ => None,
    }
}
