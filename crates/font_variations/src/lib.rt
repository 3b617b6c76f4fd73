//! Variable fonts (OpenType, "OpenType Font Variations"): the coordinates of an instance, and what
//! is added to a font's numbers there.
//!
//! [`coordinates`] makes the normalized coordinates of an instance from what is wanted of a font:
//! `axes` reads `fvar`, [`normal`] normalizes, `segments` maps by `avar`. [`deltas`] is the Item
//! Variation Store, over the scalars of `regions` and `tents`, and [`index_maps`] says which delta
//! set an item has. [`metrics`] reads `HVAR` and `VVAR`, [`lines`] `MVAR`. Numbers are those of
//! binary32, in the order in which HarfBuzz computes them, so that what comes out is the same to
//! the last unit. Any bytes and any coordinates are taken. [`laws`] has what holds of scalars, and
//! at the default instance, [`worked`] the definitions computed by hand.
#![tactic(auto)]

pub mod axes;
pub mod coordinates;
pub mod deltas;
pub mod index_maps;
pub mod laws;
pub mod lines;
pub mod metrics;
pub mod normal;
pub mod parts;
mod regions;
mod segments;
mod tents;
pub mod worked;
