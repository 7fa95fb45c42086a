//! The code of expressions and statements, over the types, constants and variables that it names: a module while its
//! function is written.
#![tactic(auto)]

mod arithmetic;
mod atomics;
mod begin;
mod blocks;
mod bound;
mod buffer;
mod emitter;
mod expressions;
mod finish;
mod fixed;
mod flushing;
mod immediates;
mod instructions;
mod laws;
mod naming;
mod reading;
mod rooms;
mod separate;
mod statements;
mod syncs;
mod waiting;
mod whole;
mod writes;
mod writing;

pub use begin::Sizes;
pub use buffer::ConstantBuffer;
pub use emitter::Emitter;
pub use laws::emit_laws;
pub use whole::finished_laws;
