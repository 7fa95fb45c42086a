ghost use Rattle.std.specs.Prelude.{◌≡◌, Option};
ghost use Rattle.tpf_decode.specs.Profiles.{Base};
ghost use Rattle.tpf_decode.specs.Opcodes.{form_of, roles_of};

use crate::argument::Role;
use crate::meaning::{Meaning, instruction_meaning};

/// The operands that an instruction takes, a row of the opcode table. The opcodes are those of
/// `D3D10_SB_OPCODE_TYPE` in `d3d11TokenizedProgramFormat.hpp`.
#[derive(Clone, Copy, Debug, PartialEq, Eq)]
pub enum Form {
    /// A destination and one source.
    Unary,
    /// A destination and two sources.
    Binary,
    /// A destination and three sources.
    Ternary,
    /// A destination and four sources.
    Insert,
    /// Two destinations and two sources.
    Paired,
    /// Two destinations and three sources.
    Swap,
    /// A destination, an address and a view that is read.
    LoadRaw,
    /// A destination, an index, a byte offset and a view that is read.
    LoadStructured,
    /// A view that is written, an address and a source.
    StoreRaw,
    /// A view that is written, an index, a byte offset and a source.
    StoreStructured,
    /// A destination and the view whose size is asked.
    Size,
    /// A view, an address and a value.
    Atomic,
    /// A view, an address, a word to compare with and a value.
    AtomicCompare,
    /// A destination, a view, an address and a value.
    ImmediateAtomic,
    /// A destination, a view, an address, a word to compare with and a value.
    ImmediateCompare,
    /// A destination and the view whose counter is stepped.
    Counter,
    /// A word that decides.
    Condition,
    /// The literal of a case.
    Case,
    /// No operand.
    Plain,
}

impl Form {
    ghost use Rattle.tpf_decode.specs.Opcodes.{is_result, is_arithmetic};

    /// The roles of the operands in the order of the instruction's words.
    pub fn roles(self) -> &'static [Role]
        ensures { result.now ≡ roles_of self }
    {
        match self {
            Form::Unary => &[Role::Dest, Role::Source],
            Form::Binary => &[Role::Dest, Role::Source, Role::Source],
            Form::Ternary => &[Role::Dest, Role::Source, Role::Source, Role::Source],
            Form::Insert => &[
                Role::Dest,
                Role::Source,
                Role::Source,
                Role::Source,
                Role::Source,
            ],
            Form::Paired => &[Role::Dest, Role::Dest, Role::Source, Role::Source],
            Form::Swap => &[
                Role::Dest,
                Role::Dest,
                Role::Source,
                Role::Source,
                Role::Source,
            ],
            Form::LoadRaw => &[Role::Dest, Role::Scalar, Role::ViewRead],
            Form::LoadStructured => &[Role::Dest, Role::Scalar, Role::Scalar, Role::ViewRead],
            Form::StoreRaw => &[Role::ViewWrite, Role::Scalar, Role::Source],
            Form::StoreStructured => &[Role::ViewWrite, Role::Scalar, Role::Scalar, Role::Source],
            Form::Size => &[Role::Dest, Role::ViewRead],
            Form::Atomic => &[Role::ViewName, Role::Pair, Role::Scalar],
            Form::AtomicCompare => &[Role::ViewName, Role::Pair, Role::Scalar, Role::Scalar],
            Form::ImmediateAtomic => &[Role::Dest, Role::ViewName, Role::Pair, Role::Scalar],
            Form::ImmediateCompare => &[
                Role::Dest,
                Role::ViewName,
                Role::Pair,
                Role::Scalar,
                Role::Scalar,
            ],
            Form::Counter => &[Role::Dest, Role::ViewName],
            Form::Condition => &[Role::Scalar],
            Form::Case => &[Role::Literal],
            Form::Plain => &[],
        }
    }
}

/// The operands that the instruction of an opcode takes, and None where the base profile has no
/// instruction of it.
#[tactic(auto, unfolding(crate::specs::Opcodes::form_of))]
pub fn instruction_form(code: u32) -> Option<Form>
    ensures { result ≡ form_of Base code }
{
    instruction_meaning(code).map(Meaning::form)
}
