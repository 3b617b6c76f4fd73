//! The kinds of characters of the blocks Arabic, Syriac and Arabic Supplement, which most letters
//! that join are of.
use crate::joining::Kind;

const U: Option<Kind> = Some(Kind::Apart);

const D: Option<Kind> = Some(Kind::Dual);

const R: Option<Kind> = Some(Kind::Right);

const A: Option<Kind> = Some(Kind::Alaph);

const S: Option<Kind> = Some(Kind::DalathRish);

const T: Option<Kind> = None;

/// The first character of the table.
pub(crate) const FIRST: char = '\u{600}';

/// The first character past the table.
pub(crate) const PAST: char = '\u{780}';

/// The kinds from U+0600 to U+077F. One read decides each of these characters.
#[rattlefmt::skip]
pub(crate) static KINDS: [Option<Kind>; 384] = [
    U, U, U, U, U, U, U, U, U, U, U, U, U, U, U, U, T, T, T, T, T, T, T, T, T, T, T, U, T, U, U, U,
    D, U, R, R, R, R, D, R, D, R, D, D, D, D, D, R, R, R, R, D, D, D, D, D, D, D, D, D, D, D, D, D,
    D, D, D, D, D, D, D, D, R, D, D, T, T, T, T, T, T, T, T, T, T, T, T, T, T, T, T, T, T, T, T, T,
    U, U, U, U, U, U, U, U, U, U, U, U, U, U, D, D, T, R, R, R, U, R, R, R, D, D, D, D, D, D, D, D,
    D, D, D, D, D, D, D, D, R, R, R, R, R, R, R, R, R, R, R, R, R, R, R, R, R, R, D, D, D, D, D, D,
    D, D, D, D, D, D, D, D, D, D, D, D, D, D, D, D, D, D, D, D, D, D, D, D, D, D, D, D, D, D, D, D,
    R, D, D, R, R, R, R, R, R, R, R, R, D, R, D, R, D, D, R, R, U, R, T, T, T, T, T, T, T, U, U, T,
    T, T, T, T, T, U, U, T, T, U, T, T, T, T, R, R, U, U, U, U, U, U, U, U, U, U, D, D, D, U, U, D,
    U, U, U, U, U, U, U, U, U, U, U, U, U, U, U, T, A, T, D, D, D, S, S, R, R, R, D, D, D, D, R, D,
    D, D, D, D, D, D, D, D, R, D, S, D, R, D, D, S, T, T, T, T, T, T, T, T, T, T, T, T, T, T, T, T,
    T, T, T, T, T, T, T, T, T, T, T, U, U, R, D, D, D, D, D, D, D, D, D, D, D, R, R, R, D, D, D, D,
    D, D, D, D, D, D, D, D, D, D, D, R, R, D, D, D, D, R, D, R, R, D, D, D, R, R, D, D, D, D, D, D,
];
