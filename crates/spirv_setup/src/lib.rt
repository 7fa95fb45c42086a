//! What a program and its binding map declare in a module: the sizes and places of its variables, and the variables
//! themselves, in front of the code of the program's tree.
//!
//! The definitions stand in `specs/`: `Wanted` for the variables that a program and its map want of a module,
//! `Variables` for their symbols in order, `Descriptions` for what is said of each, and `Setup` for an emitter in
//! which they are declared.
#![tactic(auto)]

mod describing;
mod laws;
mod placing;
mod registers;
mod setup;
mod sums;
mod variables;

pub use laws::setup_laws;
pub use placing::placed_laws;
pub use setup::begin;
pub use sums::{declared_laws, size_laws, sum_laws};
