//! A cache of shaped words, which finds a word under each spelling with the same normalised
//! characters.
//!
//! A word's key is the number of its plan and its normalised characters, so it is found by its
//! hash, after one normalising. The number stands for what the plan was made for: direction,
//! script, language, features and face, as `plan_cache` keeps them. In the mode that decomposes
//! fully, two spellings have one key exactly if they are canonically equivalent ([`shape_word`]).
//! What was not used for longest goes, when the words take more bytes than the cache may.
#![tactic(auto)]
#![allow(non_camel_case_types)]

mod evicting;
pub mod key;
pub mod laws;
pub mod shaping;
pub mod spelling;
pub mod words;
pub mod worked;

pub use key::{WordKey, word_key};
pub use shaping::shape_word;
pub use spelling::{shape_spelling, spelling_key};
pub use words::{Word, WordCache};
