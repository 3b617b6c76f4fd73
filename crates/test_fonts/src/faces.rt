//! Tests of faces over font files: the face that is opened once returns what the face below
//! returns, and is kerned as it is.

mod bytes;
mod comparing;
mod opened;
mod pairs;
