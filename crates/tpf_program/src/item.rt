ghost use Rattle.std.specs.Prelude.{◌≡◌, ◌+◌, ◌<◌, ◌≤◌, Some, None, true, false, nat_eq, length, IfOk, is_some, slice_index};
ghost use Rattle.word_base.specs.Words.{words_of};
ghost use Rattle.word_base.specs.Rules.{first};
ghost use Rattle.tpf_decode.specs.Profiles.{Base};
ghost use Rattle.tpf_decode.specs.Tokens.{has_flag};
ghost use Rattle.tpf_decode.specs.Opcodes.{form_of};
ghost use Rattle.tpf_decode.specs.Declarations.{layout_of, roles_at};
ghost use Rattle.tpf_decode.specs.Spelling.{words_between};
ghost use Rattle.tpf_decode.specs.Refusals.{refusal_of, instruction_faults, IsExtent};
ghost use Rattle.tpf_program.specs.Spelling.{IsDeclaredBy, Declares, Does, SpellsItem};
ghost use Rattle.tpf_program.specs.Reading.{HasOperands, parts_faults, IsPiece};

use crate::declaration::{Declaration, Declared, SharedKind, ViewKind};
use crate::fault::CUSTOM_DATA;
use crate::instruction::Instruction;
use crate::operands::{read_parts, refuse, word};
use tpf_decode::{Argument, Extent, Form, Layout, cut, declaration_layout, instruction_form};
use word_base::{Refusal, Rule, field};

/// What stands at a place of a program.
pub(crate) enum Piece {
    /// A declaration.
    Declaration(Declared),
    /// An instruction.
    Instruction(Instruction),
    /// The words of an immediate constant buffer.
    Constants,
    /// Custom data that says nothing.
    Nothing,
}

/// A further word of a declaration, and 0 where there is none.
fn further_word(bytes: &[u8], place: u32, end: u32, i: u32) -> u32
    requires order { place ≤ end }
    requires words { end ≤ length (words_of bytes.now) }
    ensures { result ≡ slice_index (words_between bytes.now place end) i }
{
    if end - place <= i {
        return 0;
    }
    word(bytes, place + i)
}

/// Whether a bit of the controls is 1.
fn is_set(controls: u32, bit: u32) -> bool
    requires { bit < 32 }
    ensures { result ≡ has_flag controls bit }
{
    field(controls, bit, bit) == 1
}

/// A view that is written, which may be coherent.
fn uav(slot: u32, view: ViewKind, controls: u32, ordered: bool) -> Declaration
    ensures { result ≡ Declaration.Uav slot view (has_flag controls 16) ordered }
{
    Declaration::Uav {
        slot,
        view,
        coherent: is_set(controls, 16),
        ordered,
    }
}

fn resource(slot: u32, view: ViewKind) -> Declaration
    ensures { result ≡ Declaration.Resource slot view }
{
    Declaration::Resource { slot, view }
}

fn shared(slot: u32, kind: SharedKind) -> Declaration
    ensures { result ≡ Declaration.Shared slot kind }
{
    Declaration::Shared { slot, kind }
}

/// What a declaration of an opcode declares, with its operand, if it has one, and its further words.
fn declare(
    bytes: &[u8],
    code: u32,
    controls: u32,
    named: Argument,
    place: u32,
    end: u32,
) -> Declaration
    requires order { place ≤ end }
    requires words { end ≤ length (words_of bytes.now) }
    requires code { is_some (layout_of Base code) ≡ true }
    ensures { IsDeclaredBy result code controls named (words_between bytes.now place end) }
{
    let slot = named.slot;
    let first = further_word(bytes, place, end, 0);
    let second = further_word(bytes, place, end, 1);
    let third = further_word(bytes, place, end, 2);
    match code {
        89 => Declaration::Constants {
            slot,
            size: named.index,
        },
        95 => Declaration::Input {
            kind: named.kind,
            select: named.select,
        },
        104 => Declaration::Temps(first),
        105 => Declaration::Indexable {
            slot: first,
            count: second,
            components: third,
        },
        106 => Declaration::Flags(controls),
        155 => Declaration::Group {
            x: first,
            y: second,
            z: third,
        },
        157 => uav(slot, ViewKind::Raw, controls, false),
        158 => uav(
            slot,
            ViewKind::Structured { stride: first },
            controls,
            is_set(controls, 23),
        ),
        159 => shared(slot, SharedKind::Raw { bytes: first }),
        160 => shared(
            slot,
            SharedKind::Structured {
                stride: first,
                count: second,
            },
        ),
        161 => resource(slot, ViewKind::Raw),
        _ => resource(slot, ViewKind::Structured { stride: first }),
    }
}

/// What stands behind the tokens of a declaration's opcode.
fn declared_parts(
    bytes: &[u8],
    extent: Extent,
    layout: Layout,
) -> Result<([Argument; 5], u32), Refusal>
    requires order { extent.first ≤ extent.end }
    requires words { extent.end ≤ length (words_of bytes.now) }
    requires layout { layout_of Base extent.code ≡ Some layout }
    requires form { form_of Base extent.code ≡ None }
    ensures refused { refusal_of result ≡ first (parts_faults extent.code extent.first (words_between bytes.now extent.first extent.end)) }
    ensures place { IfOk result (λ r. (extent.first ≤ r.1) × (r.1 + layout.words ≡ extent.end)) }
    ensures spelled { IfOk result (λ r. HasOperands extent.code (roles_at Base extent.code) r.0 (words_between bytes.now extent.first r.1)) }
{
    let Extent {
        code,
        first,
        end,
        ..
    } = extent;
    match layout.role {
        Some(role) => read_parts(bytes, first, end, code, &[role], layout.words),
        None => read_parts(bytes, first, end, code, &[], layout.words),
    }
}

/// A declaration whose opcode's tokens are read.
fn declaration(
    bytes: &[u8],
    n: u32,
    at: u32,
    extent: Extent,
    layout: Layout,
) -> Result<Declared, Refusal>
    requires words { n ≤ length (words_of bytes.now) }
    requires extent { IsExtent Base (words_of bytes.now) n at extent }
    requires other { nat_eq extent.code 53 ≡ false }
    requires layout { layout_of Base extent.code ≡ Some layout }
    requires form { form_of Base extent.code ≡ None }
    ensures refused { refusal_of result ≡ first (parts_faults extent.code extent.first (words_between bytes.now extent.first extent.end)) }
    ensures spelled { IfOk result (λ d. SpellsItem Base at (Declares d) (words_between bytes.now at extent.end)) }
{
    let (places, place) = declared_parts(bytes, extent, layout)?;
    let what = declare(
        bytes,
        extent.code,
        extent.controls,
        places[0],
        place,
        extent.end,
    );
    Ok(Declared { place: at, what })
}

/// An instruction whose opcode's tokens are read.
fn instruction(
    bytes: &[u8],
    n: u32,
    at: u32,
    extent: Extent,
    form: Form,
) -> Result<Instruction, Refusal>
    requires words { n ≤ length (words_of bytes.now) }
    requires extent { IsExtent Base (words_of bytes.now) n at extent }
    requires other { nat_eq extent.code 53 ≡ false }
    requires layout { layout_of Base extent.code ≡ None }
    requires form { form_of Base extent.code ≡ Some form }
    ensures refused { refusal_of result ≡ first (parts_faults extent.code extent.first (words_between bytes.now extent.first extent.end)) }
    ensures spelled { IfOk result (λ i. SpellsItem Base at (Does i) (words_between bytes.now at extent.end)) }
{
    let roles = form.roles();
    let (places, _) = read_parts(bytes, extent.first, extent.end, extent.code, roles, 0)?;
    Ok(Instruction {
        place: at,
        length: field(word(bytes, at), 30, 24) as u8,
        code: extent.code,
        controls: extent.controls,
        count: roles.len() as u8,
        o0: places[0],
        o1: places[1],
        o2: places[2],
        o3: places[3],
        o4: places[4],
    })
}

/// What an instruction or a declaration is whose opcode's tokens are read.
fn piece_behind(bytes: &[u8], n: u32, at: u32, extent: Extent) -> Result<Piece, Refusal>
    requires words { n ≤ length (words_of bytes.now) }
    requires extent { IsExtent Base (words_of bytes.now) n at extent }
    requires other { nat_eq extent.code 53 ≡ false }
    ensures refused { refusal_of result ≡ first (parts_faults extent.code extent.first (words_between bytes.now extent.first extent.end)) }
    ensures spelled { IfOk result (IsPiece (words_of bytes.now) at extent.end) }
{
    match (
        declaration_layout(extent.code),
        instruction_form(extent.code),
    ) {
        (Some(layout), _) => Ok(Piece::Declaration(declaration(bytes, n, at, extent, layout)?)),
        (None, Some(form)) => Ok(Piece::Instruction(instruction(bytes, n, at, extent, form)?)),
        (None, None) => refuse(Rule::K4, at),
    }
}

/// Custom data of the class that its token names.
fn custom(bytes: &[u8], n: u32, at: u32, extent: Extent) -> Piece
    requires inside { at < n }
    requires words { n ≤ length (words_of bytes.now) }
    requires extent { IsExtent Base (words_of bytes.now) n at extent }
    requires custom { nat_eq extent.code 53 ≡ true }
    ensures { IsPiece (words_of bytes.now) at extent.end result }
{
    if field(word(bytes, at), 31, 11) == 3 {
        Piece::Constants
    } else {
        Piece::Nothing
    }
}

/// What stands at a place of a program of `n` words, and the place behind it.
///
/// # Errors
///
/// The first rule of tokens that it breaks, by place and then by number.
pub(crate) fn read_piece(bytes: &[u8], n: u32, at: u32) -> Result<(Piece, u32), Refusal>
    requires head { 2 ≤ at }
    requires inside { at < n }
    requires words { n ≤ length (words_of bytes.now) }
    ensures refused { refusal_of result ≡ first (instruction_faults Base at (words_between bytes.now at n)) }
    ensures within { IfOk result (λ r. (at < r.1) × (r.1 ≤ n)) }
    ensures spelled { IfOk result (λ r. IsPiece (words_of bytes.now) at r.1 r.0) }
{
    let extent = cut(bytes, n, at)?;
    if extent.code == CUSTOM_DATA {
        return Ok((custom(bytes, n, at, extent), extent.end));
    }
    let piece = piece_behind(bytes, n, at, extent)?;
    Ok((piece, extent.end))
}
