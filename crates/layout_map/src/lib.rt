//! The requests of a plan, compiled to masks and to stages of lookups, as HarfBuzz's `hb-ot-map`
//! does.
//!
//! [`settings`] merges the requests for each feature into one setting. [`features`] looks each
//! setting up in the tables and allots bits of the mask. [`stages`] collects the lookups of the
//! features, stage by stage, each lookup once. [`map`] puts them together as
//! [`hb_ot_map_t`](map::hb_ot_map_t), which returns what the pipeline asks of a compiled plan;
//! [`laws`] says what holds of all maps.
#![tactic(auto)]
#![allow(non_camel_case_types)]

pub mod chosen;
pub mod features;
pub mod laws;
pub mod lookups;
pub mod map;
pub mod settings;
pub mod stages;
pub mod worked;
