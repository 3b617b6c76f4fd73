//! Runs that somebody watches: a face and an engine of others, with the same glyphs, and a
//! [`watcher`] that is told what the list is between their stages.
//!
//! [`WatchedFace`] is a face, and returns what it returns; [`Watched`] is an engine, and makes
//! what it makes: their meanings are those of what they stand on, so whatever is known of a run
//! is known of the watched one.
#![tactic(auto)]
#![allow(non_camel_case_types)]

pub mod engine;
pub mod face;

pub use engine::Watched;
pub use face::{Moment, WatchedFace, watcher};
