//! What the translator's commands read from and write to: desks, which hold files, and sinks, which
//! take bytes.
//!
//! A desk and a sink say what they know of the outside: the files, the bytes left, the bytes written,
//! and how many calls failed. Two implementations work in memory, two drop what is written, and two
//! stand over files and the standard streams. The definitions that the contracts cite stand in
//! `specs/`: `Causes` and `Told` for what every desk and sink promises, `Memory` for those in memory.
#![tactic(auto)]

mod desk;
mod files;
mod front;
mod last_output;
mod laws;
mod memory_desk;
mod memory_sink;
mod outputs;
mod plan;
mod quiet;
mod sink;
mod system;
mod words;

pub use desk::Desk;
pub use last_output::LastOutput;
pub use laws::outside_laws;
pub use memory_desk::MemoryDesk;
pub use memory_sink::MemorySink;
pub use quiet::{QuietDesk, QuietSink};
pub use sink::{Failed, Sink};
pub use system::{FileDesk, StdSink};
pub use words::Words;
