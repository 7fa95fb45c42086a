//! The scopes of barriers and atomics. (SPIR-V specification, unified1, section 3.27, Scope.)

/// All threads of the dispatch.
pub const DEVICE: u32 = 1;
/// The threads of one group.
pub const WORKGROUP: u32 = 2;
