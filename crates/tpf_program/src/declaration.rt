use tpf_decode::{Kind, Select};

/// How a view's words are addressed.
#[derive(Clone, Copy, Debug, PartialEq, Eq)]
pub enum ViewKind {
    /// By a byte offset.
    Raw,
    /// By a structure's index and a byte offset in it; the stride counts bytes.
    Structured { stride: u32 },
}

/// How thread group shared memory is addressed, and its size.
#[derive(Clone, Copy, Debug, PartialEq, Eq)]
pub enum SharedKind {
    /// By a byte offset; the size counts bytes.
    Raw { bytes: u32 },
    /// By a structure's index and a byte offset in it; the stride counts bytes, the count structures.
    Structured { stride: u32, count: u32 },
}

/// A declaration of a program.
///
/// (d3d11TokenizedProgramFormat.hpp: the opcodes D3D10_SB_OPCODE_DCL_* and D3D11_SB_OPCODE_DCL_*.)
#[derive(Clone, Copy, Debug, PartialEq, Eq)]
pub enum Declaration {
    /// `dcl_globalFlags`: bits 23 to 11 of the token, each at its own place.
    Flags(u32),
    /// `dcl_constantbuffer`: the slot of a cb#, and its size in vectors of four words.
    Constants {
        slot: u32,
        size: u32,
    },
    /// `dcl_resource_raw`, `dcl_resource_structured`: the slot of a t#, and how it is addressed.
    Resource {
        slot: u32,
        view: ViewKind,
    },
    /// `dcl_uav_raw`, `dcl_uav_structured`: the slot of a u#, how it is addressed, whether other groups
    /// see what is written at once, and whether its counter keeps the order of what is appended.
    Uav {
        slot: u32,
        view: ViewKind,
        coherent: bool,
        ordered: bool,
    },
    /// `dcl_tgsm_raw`, `dcl_tgsm_structured`: the slot of a g#, and how it is addressed with its size.
    Shared {
        slot: u32,
        kind: SharedKind,
    },
    /// `dcl_input`: a thread's number, and the components of it that are used.
    Input {
        kind: Kind,
        select: Select,
    },
    /// `dcl_temps`: the number of registers.
    Temps(u32),
    /// `dcl_indexableTemp`: the slot of an x#, its elements, and the components of each.
    Indexable {
        slot: u32,
        count: u32,
        components: u32,
    },
    /// `dcl_thread_group`: the threads of a group along each axis.
    Group {
        x: u32,
        y: u32,
        z: u32,
    },
    /// `dcl_immediateConstantBuffer`: its vectors of four words.
    ImmediateConstants {
        vectors: u32,
    },
}

/// The threads of a group along its three axes.
#[derive(Clone, Copy, Debug, PartialEq, Eq)]
pub struct ThreadGroup {
    /// How many there are along the first axis.
    pub x: u32,
    /// How many there are along the second axis.
    pub y: u32,
    /// How many there are along the third axis.
    pub z: u32,
}

/// A declaration with its place.
#[derive(Clone, Copy, Debug, PartialEq, Eq)]
pub struct Declared {
    /// The word of its opcode token, counted from the program's first word.
    pub place: u32,
    /// What it declares.
    pub what: Declaration,
}
