//! The instructions of `GLSL.std.450`, and the words of this text. (SPIR-V extended instructions
//! for GLSL.)

/// The number of the lowest bit that is 1.
pub const FIND_I_LSB: u32 = 73;
/// The number of the highest bit that is not the sign's.
pub const FIND_S_MSB: u32 = 74;
/// The number of the highest bit that is 1.
pub const FIND_U_MSB: u32 = 75;
/// The words of the text `GLSL.std.450`, the name of the extended instructions.
pub const TEXT: [u32; 4] = [0x4C53_4C47, 0x6474_732E, 0x3035_342E, 0];
