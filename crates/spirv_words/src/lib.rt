//! The words of SPIR-V modules: the instructions that a module may have, their text, the lane of a
//! module, and the form that a module must have.
//!
//! The definitions stand in `specs/`: `Operations` for the instructions, one row each, in the words
//! of `Roles`; `StorageClass`, `Decoration`, `BuiltIn` and `Enumerants` for further numbers with
//! names, `Versions` for those of modules; `Layouts` and `Text` for operands, a module and its words;
//! `Ids`, `Sorts` and `Operands` for what ids are; `Values`, `Meanings`, `Globals`, `Memory` and
//! `Lane` for what a lane does; `Form` for the form of a module, with its conditions in `Sections`,
//! `Definitions`, `Blocks`, `Structure` and `Variables`. Examples stand beside them, as theorems.
//!
//! The numbers have the same names in code: `op::LOAD`, `storage_class::FUNCTION` and so on.
#![tactic(auto)]

pub mod built_in;
pub mod decoration;
pub mod glsl;
mod laws;
pub mod model;
pub mod op;
pub mod scope;
pub mod semantics;
pub mod storage_class;
mod version;
mod writer;

pub use laws::{form_laws, lane_laws, number_laws, smallest_laws, text_laws};
pub use version::Version;
pub use writer::put;
