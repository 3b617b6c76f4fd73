//! Plans that are kept for further texts, each with all that it was made for.
//!
//! A plan knows its direction, its script and its features, but neither the face that it was made
//! from nor the language that chose its tables. So [`keys`] keeps these beside it, and finds a plan
//! only for a text of the same direction, script, language, features and face.
#![tactic(auto)]
#![allow(non_camel_case_types)]

pub mod keys;

pub use keys::{KeptPlan, PlanKey, find_plan, found_plan_fits, keep_plan};
