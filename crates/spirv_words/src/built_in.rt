//! The built-ins of a compute shader's threads. (SPIR-V specification, unified1, section 3.21,
//! BuiltIn.)

/// The numbers of the thread group in the dispatch.
pub const WORKGROUP_ID: u32 = 26;
/// The numbers of the thread in its group.
pub const LOCAL_INVOCATION_ID: u32 = 27;
/// The numbers of the thread in the dispatch.
pub const GLOBAL_INVOCATION_ID: u32 = 28;
/// The one number of the thread in its group.
pub const LOCAL_INVOCATION_INDEX: u32 = 29;
