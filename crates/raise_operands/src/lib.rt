//! Operands as values and statements of the tree, and what instructions that compute are raised to.
//!
//! What an instruction is raised to is a term; the definitions stand in `specs/`: `Folding` for words
//! that are added, computed and chosen, `Vectors` for operands and their indices, `Raising` for sources,
//! destinations and the statement of an instruction that computes, `Raises` for what it owes, and
//! `Bounds` for the bounds that it keeps. The code builds the terms of operands: `Building` says what its
//! values, operands and statements stand for while the tree grows, and `Laws` what proofs of callers
//! cite.
#![tactic(auto)]

mod index;
mod laws;
mod operand;
mod operands;
mod statement;
mod value;
mod vector;

pub use index::operand as begin_operand;
pub use laws::{
    bound_laws, count_laws, growing_laws, operand_cost_laws, operand_laws, plain_laws,
    program_laws, raisable_laws, raised_laws, reading_laws, run_laws,
};
pub use operand::{Kept, Operand, Operands, Place, source};
pub use operands::begin;
pub use statement::{followed, put_by, some_statement, stmt, target, write, write_to};
pub use value::{Value, added, binary, expr, id_of, insert, pair, pick, swapped, ternary, unary};
pub use vector::{Vector, in_mask, is_written, meets, selected};
