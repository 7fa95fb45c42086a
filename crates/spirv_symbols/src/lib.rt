//! The symbols of a module: its types, constants and variables, each with one id, and the sections that
//! declare them.
//!
//! The definitions stand in `specs/`: `Names` for how a symbol is found, `Contexts` for the sizes and places
//! of variables, `Rows` for what declares a symbol and what it needs, one row each, `Tables` for symbols with
//! ids, and `Sections` for what is written.
#![tactic(auto)]

mod ascending;
mod context;
mod declared;
mod entry;
mod laws;
mod module;
mod naming;
mod numbered;
mod putting;
mod row;
mod sorting;
mod symbol;
mod table;

pub use ascending::Ascending;
pub use context::Context;
pub use declared::Declared;
pub use entry::Entry;
pub use laws::{form_laws, growth_laws, id_laws, length_laws, module_laws, room_laws, start_laws};
pub use module::Kind;
pub use numbered::Numbered;
pub use row::{Marks, Part};
pub use symbol::{Access, Section, Symbol, TypeSymbol};
pub use table::Symbols;
