use crate::buffer::ConstantBuffer;
use kept_values::Kept;
use node_pool::Pool;
use spirv_symbols::{Context, Symbols};

/// What a program and its bindings say, and no call changes while a function is written.
#[derive(Drop)]
pub struct Frame {
    /// The sizes and places of variables.
    pub(crate) context: Context,
    /// The constant buffers.
    pub(crate) buffers: Pool<ConstantBuffer>,
    /// Whether each word of the registers `r#` is a variable of its own.
    pub(crate) separate: bool,
}

/// A module while its function is written: its types, constants and variables, the words of the function's
/// code, and the ids that the open block has for words of the lane.
///
/// Only `make` takes memory.
#[derive(Drop)]
pub struct Emitter {
    pub(crate) frame: Frame,
    pub(crate) symbols: Symbols,
    pub(crate) code: Pool<u32>,
    pub(crate) kept: Kept,
}
