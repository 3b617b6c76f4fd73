//! Path construction operators: the lines and curves that each draws from its arguments, one after
//! another (Adobe Technical Note 5177, section 4.1). Numbers are in 65536ths of a unit.
ghost use Rattle.std.specs.Prelude.{◌≡◌, ◌<◌, ◌≤ℤ◌, ◌+◌, ◌^◌, pos, negsuc};
ghost use Rattle.charstrings.specs.Pieces;

use flexes::{flex, flex1, hflex, hflex1};

mod flexes;

/// How far one point lies from another.
#[derive(Clone, Copy, PartialEq, Debug)]
pub struct Delta {
    pub x: i64,
    pub y: i64,
}

/// A line, or a curve of the third degree: how far its control points and its end lie, each from
/// the point before.
#[derive(Clone, Copy, PartialEq, Debug)]
pub enum Piece {
    Line(Delta),
    Curve(Delta, Delta, Delta),
}

/// A piece, and the argument where the next begins.
#[derive(Clone, Copy, PartialEq, Debug)]
pub struct Found {
    pub piece: Piece,
    pub next: u16,
}

/// An operator that draws. Those along an axis are `true` if they begin along the horizontal one.
#[derive(Clone, Copy, PartialEq, Debug)]
pub enum PathOperator {
    /// rlineto
    Lines,
    /// hlineto, vlineto
    AxisLines(bool),
    /// rrcurveto
    Curves,
    /// rcurveline
    CurvesThenLine,
    /// rlinecurve
    LinesThenCurve,
    /// hhcurveto, vvcurveto
    AxisCurves(bool),
    /// hvcurveto, vhcurveto
    TurningCurves(bool),
    /// flex
    Flex,
    /// hflex
    Hflex,
    /// hflex1
    Hflex1,
    /// flex1
    Flex1,
}

/// Past the last argument.
const END: u16 = 65535;

/// Argument `i`, counted from the bottom of the stack; 0 past the last one.
pub(crate) fn arg(args: &[i32], i: usize) -> i64
    ensures value { result ≡ Pieces.arg args.now i }
    ensures low { negsuc 2147483647 ≤ℤ result }
    ensures high { result ≤ℤ pos 2147483647 }
{
    if i < args.len() {
        i64::from(args[i])
    } else {
        0
    }
}

/// How far along an axis.
#[tactic(auto, using(crate::proofs::SignedLemmas::kept_bits))]
fn along(horizontal: bool, d: i64) -> Delta
    ensures { result ≡ Pieces.along horizontal d }
{
    if horizontal {
        Delta { x: d, y: 0 }
    } else {
        Delta { x: 0, y: d }
    }
}

/// So far along an axis, and so far across it.
#[tactic(auto, using(crate::proofs::SignedLemmas::kept_bits))]
fn across(horizontal: bool, d: i64, far: i64) -> Delta
    ensures { result ≡ Pieces.across horizontal d far }
{
    if horizontal {
        Delta { x: d, y: far }
    } else {
        Delta { x: far, y: d }
    }
}

/// Two arguments as a distance.
#[tactic(auto, using(crate::proofs::SignedLemmas::kept_bits))]
fn delta_at(args: &[i32], at: usize) -> Delta
    requires { at < 2 ^ 40 }
    ensures { result ≡ Pieces.delta (Pieces.arg args.now at) (Pieces.arg args.now (at + 1)) }
{
    Delta {
        x: arg(args, at),
        y: arg(args, at + 1),
    }
}

/// A curve from six arguments.
fn curve_at(args: &[i32], at: usize) -> Piece
    requires { at < 2 ^ 31 }
    ensures { result ≡ Pieces.curve_of args.now at }
{
    Piece::Curve(
        delta_at(args, at),
        delta_at(args, at + 2),
        delta_at(args, at + 4),
    )
}

/// rlineto
fn lines(args: &[i32], at: u16) -> Option<Found>
    ensures { result ≡ Pieces.lines args.now at }
{
    if args.len().saturating_sub(usize::from(at)) < 2 {
        return None;
    }
    Some(Found {
        piece: Piece::Line(delta_at(args, usize::from(at))),
        next: at.saturating_add(2),
    })
}

/// hlineto, vlineto
fn axis_lines(horizontal: bool, args: &[i32], at: u16) -> Option<Found>
    ensures { result ≡ Pieces.axis_lines horizontal args.now at }
{
    if args.len().saturating_sub(usize::from(at)) < 1 {
        return None;
    }
    Some(Found {
        piece: Piece::Line(along(horizontal, arg(args, usize::from(at)))),
        next: at.saturating_add(1),
    })
}

/// rrcurveto
fn curves(args: &[i32], at: u16) -> Option<Found>
    ensures { result ≡ Pieces.curves args.now at }
{
    if args.len().saturating_sub(usize::from(at)) < 6 {
        return None;
    }
    Some(Found {
        piece: curve_at(args, usize::from(at)),
        next: at.saturating_add(6),
    })
}

/// rcurveline
fn curves_then_line(args: &[i32], at: u16) -> Option<Found>
    ensures { result ≡ Pieces.curves_then_line args.now at }
{
    let left = args.len().saturating_sub(usize::from(at));
    if at == 0 && left < 8 {
        return None;
    }
    if 8 <= left {
        return Some(Found {
            piece: curve_at(args, usize::from(at)),
            next: at.saturating_add(6),
        });
    }
    if left < 2 {
        return None;
    }
    Some(Found {
        piece: Piece::Line(delta_at(args, usize::from(at))),
        next: END,
    })
}

/// rlinecurve
fn lines_then_curve(args: &[i32], at: u16) -> Option<Found>
    ensures { result ≡ Pieces.lines_then_curve args.now at }
{
    let left = args.len().saturating_sub(usize::from(at));
    if at == 0 && left < 8 {
        return None;
    }
    if 8 <= left {
        return Some(Found {
            piece: Piece::Line(delta_at(args, usize::from(at))),
            next: at.saturating_add(2),
        });
    }
    if left < 6 {
        return None;
    }
    Some(Found {
        piece: curve_at(args, usize::from(at)),
        next: END,
    })
}

/// A curve that begins and ends along an axis, the first one `far` across it.
fn axis_curve(horizontal: bool, args: &[i32], at: usize, far: i64) -> Piece
    requires { at < 2 ^ 32 }
    ensures { result ≡ Pieces.axis_curve horizontal args.now at far }
{
    Piece::Curve(
        across(horizontal, arg(args, at), far),
        delta_at(args, at + 1),
        along(horizontal, arg(args, at + 3)),
    )
}

/// hhcurveto, vvcurveto
fn axis_curves(horizontal: bool, args: &[i32], at: u16) -> Option<Found>
    ensures { result ≡ Pieces.axis_curves horizontal args.now at }
{
    let left = args.len().saturating_sub(usize::from(at));
    if left % 2 == 1 {
        if left < 5 {
            return None;
        }
        return Some(Found {
            piece: axis_curve(
                horizontal,
                args,
                usize::from(at) + 1,
                arg(args, usize::from(at)),
            ),
            next: at.saturating_add(5),
        });
    }
    if left < 4 {
        return None;
    }
    Some(Found {
        piece: axis_curve(horizontal, args, usize::from(at), 0),
        next: at.saturating_add(4),
    })
}

/// Whether the last of the curves that turn has a fifth argument.
fn has_fifth(left: usize, turned: bool) -> bool
    ensures { result ≡ Pieces.has_fifth left turned }
{
    left == 5 || left == 7 || (left == 6 && !turned)
}

/// A curve that begins along one axis and ends along the other, `far` aside.
fn turning_curve(horizontal: bool, args: &[i32], at: usize, far: i64) -> Piece
    requires { at < 2 ^ 31 }
    ensures { result ≡ Pieces.turning_curve horizontal args.now at far }
{
    Piece::Curve(
        along(horizontal, arg(args, at)),
        delta_at(args, at + 1),
        across(!horizontal, arg(args, at + 3), far),
    )
}

/// hvcurveto, vhcurveto
fn turning_curves(horizontal: bool, turned: bool, args: &[i32], at: u16) -> Option<Found>
    ensures { result ≡ Pieces.turning_curves horizontal turned args.now at }
{
    let left = args.len().saturating_sub(usize::from(at));
    if left < 4 {
        return None;
    }
    if 8 <= left {
        return Some(Found {
            piece: turning_curve(horizontal, args, usize::from(at), 0),
            next: at.saturating_add(4),
        });
    }
    let far = if has_fifth(left, turned) {
        arg(args, usize::from(at) + 4)
    } else {
        0
    };
    Some(Found {
        piece: turning_curve(horizontal, args, usize::from(at), far),
        next: END,
    })
}

/// The axis, or the other one once pieces have turned.
fn turned_axis(horizontal: bool, turned: bool) -> bool
    ensures { result ≡ Pieces.xor horizontal turned }
{
    if horizontal { !turned } else { turned }
}

/// The next line or curve from argument `at` on; none if no more are drawn. `turned` after an odd
/// number of them.
pub fn piece_at(operator: PathOperator, turned: bool, args: &[i32], at: u16) -> Option<Found>
    ensures { result ≡ Pieces.piece_of operator turned args.now at }
{
    match operator {
        PathOperator::Lines => lines(args, at),
        PathOperator::AxisLines(horizontal) => axis_lines(
            turned_axis(horizontal, turned),
            args,
            at,
        ),
        PathOperator::Curves => curves(args, at),
        PathOperator::CurvesThenLine => curves_then_line(args, at),
        PathOperator::LinesThenCurve => lines_then_curve(args, at),
        PathOperator::AxisCurves(horizontal) => axis_curves(horizontal, args, at),
        PathOperator::TurningCurves(horizontal) => {
            turning_curves(turned_axis(horizontal, turned), turned, args, at)
        }
        PathOperator::Flex => flex(args, at),
        PathOperator::Hflex => hflex(args, at),
        PathOperator::Hflex1 => hflex1(args, at),
        PathOperator::Flex1 => flex1(args, at),
    }
}

/// Whether the operator takes so many arguments: flexes take a number of their own.
pub fn is_accepted(operator: PathOperator, count: usize) -> bool
    ensures { result ≡ Pieces.is_accepted operator count }
{
    match operator {
        PathOperator::Flex => count == 13,
        PathOperator::Hflex => count == 7,
        PathOperator::Hflex1 => count == 9,
        PathOperator::Flex1 => count == 11,
        _ => true,
    }
}
