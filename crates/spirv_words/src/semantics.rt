//! The memory semantics of barriers and atomics: the sum of an order and of the memories that are
//! ordered. (SPIR-V specification, unified1, section 3.25, Memory Semantics.)

/// What stands before is seen before, and what stands behind is seen behind.
pub const ACQUIRE_RELEASE: u32 = 8;
/// The memory of views and counters.
pub const UNIFORM_MEMORY: u32 = 0x40;
/// The memory that the threads of a group share.
pub const WORKGROUP_MEMORY: u32 = 0x100;
