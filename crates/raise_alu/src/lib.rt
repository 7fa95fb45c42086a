//! Arithmetic instructions as statements of the tree.
//!
//! What an instruction that computes is raised to is a term; its definition and what it owes stand in
//! `raise_operands`. The code builds this term: `Computing` says which words an instruction computes while
//! the tree grows, and `Waits` which of them wait in scratch words before they are written.
#![tactic(auto)]

mod control;
mod raising;
mod statement;
mod waiting;
mod words;

pub use control::{Scalar, scalar_operand};
pub use raise_operands::{raisable_laws, raised_laws};
pub use raising::expressions;
