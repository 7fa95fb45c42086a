//! Token programs of the profile cs_5_0: their declarations and instructions, what their words
//! spell, and what a lane of them does.
//!
//! The definitions stand in `specs/`: `Program` for a program as contracts see it, `Spelling` for the
//! words that spell it, `Faults` for the rules that the words break, `Declarations`, `Uses` and `Nesting`
//! for the rules on declarations, on what is used and on structure, `Cases` for the case before each, and
//! `Extents` for the settings that fit it. What a lane of it does: `Sizes` says what is declared, `Values` what operands stand for, `Writes` what is written, `Views` and `Plans`
//! which events an instruction makes, `Results` what it leaves, `Ends` which ends match, and `Bytecode`
//! one step of the lane.
#![tactic(auto)]

mod cases;
mod declaration;
mod ends;
mod fault;
mod instruction;
mod item;
mod laws;
mod operands;
mod program;
mod reader;
mod spelling;

pub use declaration::{Declaration, Declared, SharedKind, ThreadGroup, ViewKind};
pub use ends::ends_laws;
pub use fault::fault_laws;
pub use instruction::Instruction;
pub use laws::bytecode_laws;
pub use program::Program;
pub use reader::{read, read_into};
pub use spelling::spelled_laws;
pub use tpf_decode::{Argument, Kind, Relative, Select};
