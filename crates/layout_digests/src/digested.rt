//! A lookup of a plan with its digest.

use crate::digest::Digest;
use layout_matching::firsts::Firsts;
use layout_matching::lookup::Lookup;

/// A lookup, a digest that holds the glyphs that it may begin at, and what is stored of its
/// subtables.
#[derive(Clone, Copy)]
pub struct Digested<'a> {
    pub lookup: Lookup<'a>,
    pub digest: Digest,
    pub firsts: Firsts<'a>,
}
