//! Tests that cross the crates: texts shaped with faces, Unicode functions and shapers of the
//! tests' own, and by the users of the layer (`users`), whose answers are worked out by hand.
#![tactic(auto)]
#![allow(non_camel_case_types)]

#[cfg(test)]
mod cases;
#[cfg(test)]
mod comparing;
#[cfg(test)]
mod faces;
#[cfg(test)]
mod lists;
#[cfg(test)]
mod no_memory;
#[cfg(test)]
mod printing;
#[cfg(test)]
mod refusals;
#[cfg(test)]
mod runs;
#[cfg(test)]
mod steps;
#[cfg(test)]
mod stretching;
#[cfg(test)]
mod texts;
#[cfg(test)]
mod users;
#[cfg(test)]
mod worked;
