//! OpenType's tags of scripts and languages.
//!
//! A font lists its features by tags of its own: of a script, such as `dev3`, `dev2` and `deva` for
//! Devanagari, and within it of a language system, such as `TRK ` for Turkish. [`script_tags`] and
//! [`language_tags`] give the tags to look for, the preferred one first, as HarfBuzz 10.2.0 does. A
//! language's private subtags `x-hbsc-..` and `x-hbot-..` name a tag outright.
//!
//! Functions of numbers and bytes: total, no memory. [`worked`] has the definitions computed by
//! hand.
#![tactic(auto)]
#![allow(non_camel_case_types)]

mod language;
mod private_use;
mod rows;
mod script;
mod subtags;
mod tag_list;
pub mod worked;

pub use language::language_tags;
pub use script::script_tags;
pub use tag_list::TagList;
