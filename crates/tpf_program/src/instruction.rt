use tpf_decode::{Argument, Kind, Select};

/// An instruction of a program.
#[derive(Clone, Copy, Debug, PartialEq, Eq)]
pub struct Instruction {
    /// The word of its opcode token, counted from the program's first word.
    pub place: u32,
    /// Its words, from 1 to 127.
    pub length: u8,
    /// Its opcode.
    pub code: u32,
    /// Bits 23 to 11 of its opcode token, each at its own place.
    pub controls: u32,
    /// How many operands it has. Those past it are the null operand.
    pub count: u8,
    /// Its first operand.
    pub o0: Argument,
    /// Its second operand.
    pub o1: Argument,
    /// Its third operand.
    pub o2: Argument,
    /// Its fourth operand.
    pub o3: Argument,
    /// Its fifth operand.
    pub o4: Argument,
}

/// The operand that names nothing.
pub(crate) const NOTHING: Argument = Argument {
    kind: Kind::Null,
    select: Select::Bare,
    negate: false,
    slot: 0,
    index: 0,
    relative: None,
    x: 0,
    y: 0,
    z: 0,
    w: 0,
};
