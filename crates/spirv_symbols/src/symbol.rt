use word_base::Room;

/// How the threads of a shader use the words of a view: what the member of its block is decorated with.
#[derive(Clone, Copy, Debug, PartialEq, Eq)]
pub enum Access {
    /// They are read and written, and writes are seen by the own group alone.
    Plain,
    /// They are only read (NonWritable).
    ReadOnly,
    /// They are read and written, and writes are seen by all groups (Coherent).
    Coherent,
}

/// A type of a module.
///
/// (SPIR-V specification, unified1, section 3.52.6, Type-Declaration Instructions.)
#[derive(Clone, Copy, Debug, PartialEq, Eq)]
pub enum TypeSymbol {
    /// The type void.
    Void,
    /// The type of functions of type void without parameters.
    Procedure,
    /// The type of words: integers of 32 bits without sign.
    Word,
    /// The type of truths.
    Truth,
    /// Vectors of three words.
    Triple,
    /// Vectors of four words.
    Quad,
    /// Structs of two words: what instructions with two results give.
    Pair,
    /// Arrays of so many words, side by side, of a thread or of a group.
    Words(u32),
    /// Arrays of so many words of push constants.
    PushWords(u32),
    /// Arrays of so many vectors of four words, of constant buffers.
    Vectors(u32),
    /// Arrays of words without a length, of views and counters.
    RuntimeWords,
    /// The block of a view or counter.
    View(Access),
    /// The block of a constant buffer of so many vectors.
    VectorsBlock(u32),
    /// The block of so many words of push constants.
    PushBlock(u32),
    /// Pointers to a word of that storage class.
    WordPointer(u32),
    /// Pointers to vectors of three words that a shader is given.
    TriplePointer,
    /// Pointers to arrays of so many words of a thread.
    LocalPointer(u32),
    /// Pointers to arrays of so many words of a group.
    SharedPointer(u32),
    /// Pointers to the block of a view or counter.
    ViewPointer(Access),
    /// Pointers to the block of a constant buffer of so many vectors.
    VectorsPointer(u32),
    /// Pointers to the block of so many words of push constants.
    PushPointer(u32),
}

/// A type, constant or variable of a module, or another id that a module has at most once.
///
/// (SPIR-V specification, unified1, sections 3.52.6 to 3.52.8.)
#[derive(Clone, Copy, Debug, PartialEq, Eq)]
pub enum Symbol {
    /// A type.
    AType(TypeSymbol),
    /// The constant of that word.
    Constant(u32),
    /// The truth that holds.
    True,
    /// The null of arrays of so many words.
    Null(u32),
    /// The composite of the words of the immediate constant buffer.
    Immediates,
    /// The extended instructions of `GLSL.std.450`.
    Import,
    /// The function `main`.
    Main,
    /// The label of the function's first block.
    FirstLabel,
    /// The variable of the built-in of that number.
    Input(u32),
    /// The variable of a view, a counter or shared memory.
    Memory(Room),
    /// The variable of the constant buffer `cb#` of that slot at a descriptor.
    Uniform(u32),
    /// The variable of all push constants.
    Push,
    /// The variable of the scratch word of that number.
    Scratch(u32),
    /// The variable of one word of the registers `r#`, counted four to a register.
    Register(u32),
    /// The variable of the words of all registers `r#`.
    Registers,
    /// The variable of the words of the indexable registers `x#` of that slot.
    Elements(u32),
    /// The variable of the words of the immediate constant buffer.
    ImmediateArray,
}

/// Where the instruction of a symbol stands in a module, in the order of the sections.
///
/// (SPIR-V specification, unified1, section 2.4, Logical Layout of a Module.)
#[derive(Clone, Copy, Debug, PartialEq, Eq)]
pub enum Section {
    /// Extended instructions.
    Imports,
    /// Types that need no constant.
    Types,
    /// Constants of words, which ascend.
    Constants,
    /// Types that need a constant, further constants, and global variables.
    Declarations,
    /// The head of the function.
    Heads,
    /// The label of its first block.
    Labels,
    /// The variables of the function.
    Locals,
}
