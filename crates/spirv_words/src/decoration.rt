//! The decorations of ids and of members. (SPIR-V specification, unified1, section 3.20,
//! Decoration.)

/// A struct that is the type of a buffer.
pub const BLOCK: u32 = 2;
/// The bytes from one element of an array to the next.
pub const ARRAY_STRIDE: u32 = 6;
/// A variable that is a built-in.
pub const BUILT_IN: u32 = 11;
/// A member whose writes other groups see.
pub const COHERENT: u32 = 23;
/// A member that is only read.
pub const NON_WRITABLE: u32 = 24;
/// The binding of a variable in its descriptor set.
pub const BINDING: u32 = 33;
/// The descriptor set of a variable.
pub const DESCRIPTOR_SET: u32 = 34;
/// The byte at which a member begins.
pub const OFFSET: u32 = 35;
