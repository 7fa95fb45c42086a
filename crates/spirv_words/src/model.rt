//! The first words of a module, and the numbers of its models and modes. (SPIR-V specification,
//! unified1, sections 2.3, 3.3 to 3.6 and 3.31.)

/// The first word of every module.
pub const MAGIC_NUMBER: u32 = 0x0723_0203;
/// The second word of a module of version 1.3.
pub const VERSION_1_3: u32 = 0x0001_0300;
/// The second word of a module of version 1.4.
pub const VERSION_1_4: u32 = 0x0001_0400;
/// The capability of shaders.
pub const SHADER: u32 = 1;
/// The addressing model without addresses.
pub const LOGICAL: u32 = 0;
/// The memory model of shaders.
pub const GLSL450: u32 = 1;
/// The execution model of compute shaders.
pub const GL_COMPUTE: u32 = 5;
/// The execution mode that says the size of thread groups.
pub const LOCAL_SIZE: u32 = 17;
/// The words of the text `main`.
pub const MAIN: [u32; 2] = [0x6E69_616D, 0];
