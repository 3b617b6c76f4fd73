//! Numbers of a font at a size, as HarfBuzz 10.2.0 rounds them: [`factors`] for one axis,
//! [`scales`] for both, and for boxes. [`laws`] says that the size of the em square changes nothing,
//! [`worked`] has the definitions computed by hand.
#![tactic(auto)]

pub mod factors;
pub mod laws;
pub mod scales;
pub mod worked;

pub use factors::Factor;
pub use scales::{Axis, Scale, Size, across, up};
