//! Binding maps: at which descriptors or push constant words the registers of a program are bound.
//!
//! The definitions stand in `specs/`: `Bindings` for maps, `Lookups` for what look-ups in them find,
//! `Defaults` for the map of a program without a signature and a text, `Roots` for that under a root
//! signature, `Texts` for the map of a text and its rules, `Names` for the names of registers in texts,
//! `Completeness` for what has to be bound, `Places` for where a module's lane finds what is bound,
//! `Fits` for the settings that fit a program and its map, and `Wanted` for the variables that they want
//! of a module.
#![tactic(auto)]

mod bindings;
mod completeness;
mod defaults;
mod laws;
mod line;
mod names;
mod register;
mod registers;
mod root;
mod text;
mod wanted;

pub use bindings::Bindings;
pub use completeness::complete;
pub use defaults::from_default;
pub use laws::{binding_laws, name_laws};
pub use register::{Place, Register};
pub use root::from_root;
pub use text::from_text;
pub use wanted::push_words;
