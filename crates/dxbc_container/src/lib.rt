//! DXBC containers: their chunks, the one chunk of a tag, and the chunk `SHEX` that holds a program.
//!
//! The definitions stand in `specs/`: `Layout` for the words of a container, `Refusals` for the rules
//! that it may break, and `Chunks` for its chunks.
#![tactic(auto)]

mod part;
mod reader;
mod writer;

pub use part::{Slice, Tagged};
pub use reader::{chunk, chunks, container_laws, shex, sole};
pub use writer::build;
