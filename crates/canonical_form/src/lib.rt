//! The theory of canonical form: splits, equivalence, order and recomposing of texts, which are
//! lists of characters (UAX 15; The Unicode Standard, D107 to D117).
//!
//! It names neither items nor buffers. [`laws`] has what it proves.
//!
//! Canonical order is a function: each item sinks past its smaller successors. That swaps reach
//! this order, that it is ordered, and that there is no other such list are laws. No chain of
//! splits is longer than the height of its character, so the greatest supported expansion is
//! sought among the lengths up to the height.
#![tactic(auto)]

pub mod laws;
