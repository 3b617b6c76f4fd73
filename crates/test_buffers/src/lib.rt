//! Tests of buffers through their public calls: lists that were worked out by hand from the rules,
//! calls that take memory and calls that take none, and the lines that glyphs are cut into; and the
//! numbers by which callers name things. `unicode` has those of Unicode functions.
#![tactic(auto)]
#![allow(non_camel_case_types)]

#[cfg(test)]
mod lines;
#[cfg(test)]
mod names;
#[cfg(test)]
mod no_memory;
#[cfg(test)]
mod numbers;
#[cfg(test)]
mod refusals;
#[cfg(test)]
mod rows;
#[cfg(test)]
mod sessions;
#[cfg(test)]
mod support;
#[cfg(test)]
mod unicode;
