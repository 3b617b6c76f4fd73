//! Which shaper a text gets: the one that its script asks for, as HarfBuzz chooses it.
//!
//! [`scripts`] has the scripts, [`choice`] shapes a text by the shaper that its script asks for,
//! and [`plans`] makes a plan so.
#![tactic(auto)]
#![allow(non_camel_case_types)]

pub mod choice;
pub mod plans;
pub mod scripts;

pub use choice::{Category, category_of, served_by, shape_by_script};
pub use plans::{
    SCRIPT_SHAPERS, ScriptPlan, ScriptShapers, plan_by_script, shape_with_script_plan,
};
