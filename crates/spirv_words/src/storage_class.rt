//! The storage classes of variables and pointers. (SPIR-V specification, unified1, section 3.7,
//! Storage Class.)

/// What a shader is given by its built-ins.
pub const INPUT: u32 = 1;
/// Constant buffers.
pub const UNIFORM: u32 = 2;
/// Memory that the threads of a group share.
pub const WORKGROUP: u32 = 4;
/// Memory of one thread, for all functions.
pub const PRIVATE: u32 = 6;
/// Memory of one thread, for one function.
pub const FUNCTION: u32 = 7;
/// Push constants.
pub const PUSH_CONSTANT: u32 = 9;
/// Views and counters.
pub const STORAGE_BUFFER: u32 = 12;
