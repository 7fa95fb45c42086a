//! The rules that a program's declarations, uses and structure have to keep, each with its place.
//!
//! `check` names the first that is broken, in one walk over the declarations and two over the
//! instructions, and takes no memory. `checked_laws` says what holds of a program where none is, and
//! `statement_laws` which ends match in it.
//!
//! The definitions of the rules stand in `tpf_program`'s `specs/`: `Declarations`, `Uses` and `Nesting`.
//! `specs/` here has all of them together in `Checked`, and what holds without a broken one in `Facts`
//! and `Statements`. What the tests hand to each other: `FirstRefusals` and `Things` for declarations
//! and uses, `Nested` for what a walk over the structure keeps.
#![tactic(auto)]

mod checked;
mod constructs;
mod declarations;
mod laws;
mod nested;
mod things;
mod uses;

pub use checked::check;
pub use laws::{checked_laws, statement_laws};
