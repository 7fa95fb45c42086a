//! The translation: a container with a token program goes in, the words of a SPIR-V module come out, or the first
//! broken rule.
//!
//! The definitions stand in `specs/`: `Means` says what a module owes to the program that it was translated from,
//! under a binding map of `binding_map`, and `Shape` which loops, switches and events both have; `Input` which rules
//! are broken; `Held` what contracts see of a workspace, `Shown` what of a view, and `Rests` what a workspace is once
//! its view is gone; `Accepted` what a program is that was read; `Lowered` and `Finished` what is written for it.
#![tactic(auto)]

mod accepting;
mod examples;
mod laws;
mod lowering;
mod preparing;
mod translation;
mod view;
mod workspace;

pub use examples::shape_laws;
pub use preparing::{input_laws, room_for};
pub use translation::{translate, translate_read};
pub use view::ModuleView;
pub use workspace::Workspace;
