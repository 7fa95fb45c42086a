ghost use Rattle.std.specs.Prelude.{◌≡◌, Option};
ghost use Rattle.tpf_decode.specs.Profiles.{Base};
ghost use Rattle.tpf_decode.specs.Opcodes.{meaning_of, meaning_in, arithmetic_rows, memory_rows, flow_rows};

use crate::opcode::Form;
use word_base::{Act, Binary, Paired, Ternary, Unary};

/// What an instruction does, without its operands.
///
/// (Shader Model 5 assembly: the instruction that each variant names; where a variant has an
/// operation of its own, the instructions of that kind.)
#[derive(Clone, Copy, Debug, PartialEq, Eq)]
pub enum Meaning {
    /// An operation on one word of each component.
    One(Unary),
    /// An operation on two words of each component.
    Two(Binary),
    /// An operation on three words of each component.
    Three(Ternary),
    /// `bfi`: bits of one word are put into another.
    Inserts,
    /// An operation on two words that gives two.
    Pair(Paired),
    /// `swapc`: two words change places where a third is not 0.
    Swaps,
    /// `ld_raw`: words are loaded at a byte address.
    LoadRaw,
    /// `ld_structured`: words are loaded at a structure's index and a byte offset.
    LoadStructured,
    /// `ld` and `ld_uav_typed`: a word is loaded at its index in a typed view.
    LoadTyped,
    /// `store_raw`: words are stored at a byte address.
    StoreRaw,
    /// `store_structured`: words are stored at a structure's index and a byte offset.
    StoreStructured,
    /// `store_uav_typed`: a word is stored at its index in a typed view.
    StoreTyped,
    /// `bufinfo`: the length of a view.
    Measures,
    /// An atomic that leaves no word.
    Acts(Act),
    /// `atomic_cmp_store`: a word is replaced where it is the expected one, and leaves no word.
    Compares,
    /// An atomic that gives the old word.
    Fetches(Act),
    /// `imm_atomic_cmp_exch`: a word is replaced where it is the expected one, and gives the old one.
    Exchanges,
    /// `imm_atomic_alloc`: a view's counter goes up by one.
    Allocates,
    /// `imm_atomic_consume`: a view's counter goes down by one.
    Consumes,
    /// `sync`: memory is put in order, and lanes may wait for each other.
    Syncs,
    /// `if`, by a word that is 0 or is not.
    If,
    /// `else`.
    Else,
    /// `endif`.
    EndIf,
    /// `loop`.
    Loop,
    /// `endloop`.
    EndLoop,
    /// `continue`.
    Continue,
    /// `continuec`, by a word that is 0 or is not.
    ContinueIf,
    /// `switch`, by a word.
    Switch,
    /// `case`, with its literal.
    Case,
    /// `default`.
    Default,
    /// `endswitch`.
    EndSwitch,
    /// `break`.
    Break,
    /// `breakc`, by a word that is 0 or is not.
    BreakIf,
    /// `ret`.
    Return,
    /// `retc`, by a word that is 0 or is not.
    ReturnIf,
    /// `nop`.
    Nop,
}

/// What the instruction of an opcode does, and None where the base profile has no instruction of it.
#[tactic(auto, using(crate::proofs::Rows::in_parts))]
pub fn instruction_meaning(code: u32) -> Option<Meaning>
    ensures { result ≡ meaning_of Base code }
{
    if let Some(meaning) = arithmetic(code) {
        return Some(meaning);
    }
    if let Some(meaning) = memory(code) {
        return Some(meaning);
    }
    flow(code)
}

/// What an opcode of arithmetic does.
fn arithmetic(code: u32) -> Option<Meaning>
    ensures { result ≡ meaning_in Base code arithmetic_rows }
{
    let meaning = match code {
        54 => Meaning::One(Unary::Mov),
        59 => Meaning::One(Unary::Not),
        40 => Meaning::One(Unary::Ineg),
        141 => Meaning::One(Unary::Bfrev),
        134 => Meaning::One(Unary::Countbits),
        135 => Meaning::One(Unary::FirstbitHi),
        136 => Meaning::One(Unary::FirstbitLo),
        137 => Meaning::One(Unary::FirstbitShi),
        30 => Meaning::Two(Binary::Iadd),
        1 => Meaning::Two(Binary::And),
        60 => Meaning::Two(Binary::Or),
        87 => Meaning::Two(Binary::Xor),
        41 => Meaning::Two(Binary::Ishl),
        42 => Meaning::Two(Binary::Ishr),
        85 => Meaning::Two(Binary::Ushr),
        32 => Meaning::Two(Binary::Ieq),
        39 => Meaning::Two(Binary::Ine),
        33 => Meaning::Two(Binary::Ige),
        34 => Meaning::Two(Binary::Ilt),
        80 => Meaning::Two(Binary::Uge),
        79 => Meaning::Two(Binary::Ult),
        36 => Meaning::Two(Binary::Imax),
        37 => Meaning::Two(Binary::Imin),
        83 => Meaning::Two(Binary::Umax),
        84 => Meaning::Two(Binary::Umin),
        35 => Meaning::Three(Ternary::Imad),
        82 => Meaning::Three(Ternary::Umad),
        55 => Meaning::Three(Ternary::Movc),
        138 => Meaning::Three(Ternary::Ubfe),
        139 => Meaning::Three(Ternary::Ibfe),
        140 => Meaning::Inserts,
        38 => Meaning::Pair(Paired::Imul),
        81 => Meaning::Pair(Paired::Umul),
        78 => Meaning::Pair(Paired::Udiv),
        132 => Meaning::Pair(Paired::Uaddc),
        133 => Meaning::Pair(Paired::Usubb),
        142 => Meaning::Swaps,
        _ => return None,
    };
    Some(meaning)
}

/// What an opcode of memory does: views, shared memory, and their order.
fn memory(code: u32) -> Option<Meaning>
    ensures { result ≡ meaning_in Base code memory_rows }
{
    let meaning = match code {
        165 => Meaning::LoadRaw,
        167 => Meaning::LoadStructured,
        166 => Meaning::StoreRaw,
        168 => Meaning::StoreStructured,
        121 => Meaning::Measures,
        169 => Meaning::Acts(Act::And),
        170 => Meaning::Acts(Act::Or),
        171 => Meaning::Acts(Act::Xor),
        173 => Meaning::Acts(Act::Add),
        174 => Meaning::Acts(Act::SMax),
        175 => Meaning::Acts(Act::SMin),
        176 => Meaning::Acts(Act::UMax),
        177 => Meaning::Acts(Act::UMin),
        172 => Meaning::Compares,
        180 => Meaning::Fetches(Act::Add),
        181 => Meaning::Fetches(Act::And),
        182 => Meaning::Fetches(Act::Or),
        183 => Meaning::Fetches(Act::Xor),
        184 => Meaning::Fetches(Act::Exchange),
        186 => Meaning::Fetches(Act::SMax),
        187 => Meaning::Fetches(Act::SMin),
        188 => Meaning::Fetches(Act::UMax),
        189 => Meaning::Fetches(Act::UMin),
        185 => Meaning::Exchanges,
        178 => Meaning::Allocates,
        179 => Meaning::Consumes,
        190 => Meaning::Syncs,
        _ => return None,
    };
    Some(meaning)
}

/// What an opcode of control flow does.
fn flow(code: u32) -> Option<Meaning>
    ensures { result ≡ meaning_in Base code flow_rows }
{
    let meaning = match code {
        31 => Meaning::If,
        3 => Meaning::BreakIf,
        8 => Meaning::ContinueIf,
        63 => Meaning::ReturnIf,
        76 => Meaning::Switch,
        6 => Meaning::Case,
        2 => Meaning::Break,
        7 => Meaning::Continue,
        10 => Meaning::Default,
        18 => Meaning::Else,
        21 => Meaning::EndIf,
        22 => Meaning::EndLoop,
        23 => Meaning::EndSwitch,
        48 => Meaning::Loop,
        58 => Meaning::Nop,
        62 => Meaning::Return,
        _ => return None,
    };
    Some(meaning)
}

impl Meaning {
    ghost use Rattle.tpf_decode.specs.Opcodes.{form_of_meaning};

    /// The operands that the instruction takes.
    pub fn form(self) -> Form
        ensures { result ≡ form_of_meaning self }
    {
        match self {
            Meaning::One(_) => Form::Unary,
            Meaning::Two(_) => Form::Binary,
            Meaning::Three(_) => Form::Ternary,
            Meaning::Inserts => Form::Insert,
            Meaning::Pair(_) => Form::Paired,
            Meaning::Swaps => Form::Swap,
            Meaning::LoadRaw | Meaning::LoadTyped => Form::LoadRaw,
            Meaning::LoadStructured => Form::LoadStructured,
            Meaning::StoreRaw | Meaning::StoreTyped => Form::StoreRaw,
            Meaning::StoreStructured => Form::StoreStructured,
            Meaning::Measures => Form::Size,
            Meaning::Acts(_) => Form::Atomic,
            Meaning::Compares => Form::AtomicCompare,
            Meaning::Fetches(_) => Form::ImmediateAtomic,
            Meaning::Exchanges => Form::ImmediateCompare,
            Meaning::Allocates | Meaning::Consumes => Form::Counter,
            Meaning::If
            | Meaning::ContinueIf
            | Meaning::Switch
            | Meaning::BreakIf
            | Meaning::ReturnIf => Form::Condition,
            Meaning::Case => Form::Case,
            Meaning::Syncs
            | Meaning::Else
            | Meaning::EndIf
            | Meaning::Loop
            | Meaning::EndLoop
            | Meaning::Continue
            | Meaning::Default
            | Meaning::EndSwitch
            | Meaning::Break
            | Meaning::Return
            | Meaning::Nop => Form::Plain,
        }
    }
}
