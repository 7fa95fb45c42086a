//! The tokens of a compute shader's program: its head, the extent of an instruction, and operands.
//!
//! A program is the data of the chunk `SHEX` as words of four bytes, the lowest first, as
//! `d3d11TokenizedProgramFormat.hpp` describes them. `header` reads its first two words, `cut` the
//! opcode's tokens of what begins at a place, and `operand` one operand in the role that the opcode
//! gives it. Each answers the first rule that is broken, with its place, and takes no memory. An
//! opcode is one row of a table: `instruction_meaning` finds what it does, and its operands follow.
//!
//! The definitions that the contracts cite stand in `specs/`: `Opcodes` and `Declarations` are the
//! tables, `Names` the header's numbers and names against them, `Tokens` the fields, `Roles` what an
//! operand may be, `Spelling` which words spell what, `Refusals` the rules with their places, and
//! `Laws` what follows from both.
#![tactic(auto)]

mod argument;
mod chain;
mod declaration;
mod extent;
mod meaning;
mod opcode;
mod reading;
mod role;
mod token;

pub use argument::{Argument, Kind, Relative, Role, Select};
pub use declaration::{Layout, declaration_layout};
pub use extent::{Extent, cut, header, instruction_laws};
pub use meaning::{Meaning, instruction_meaning};
pub use opcode::{Form, instruction_form};
pub use reading::{operand, operand_laws};
pub use role::has_role;
