ghost use Rattle.std.specs.Prelude.{◌≡◌, ◌↔◌, IsTrue, Option, None, if◌then◌else◌};
ghost use Rattle.tpf_decode.specs.Profiles.{Base};
ghost use Rattle.tpf_decode.specs.Opcodes.{is_arithmetic, is_result};
ghost use Rattle.tpf_decode.specs.Declarations.{HasRole};
ghost use Rattle.tpf_decode.specs.Roles.{is_source, is_read_by, is_same, is_named_by, is_allowed, is_read_selection, takes, is_index, has_index_forms, has_indices, is_declaration, is_relative_of, is_relative, index_count, may_negate};
ghost use Rattle.tpf_decode.specs.Refusals.{allows, selects, indexes};
ghost use Rattle.tpf_decode.specs.Tokens.{kind_of};

use crate::argument::{Kind, Role};
use crate::declaration::{Layout, declaration_layout};
use crate::opcode::{Form, instruction_form};
use crate::token::{is_chosen, is_masked, is_set, is_single, operand_kind, selects_something};
use word_base::field;

/// Whether an instruction's first operand is a destination.
pub fn gives_result(form: Option<Form>) -> bool
    ensures { result ≡ is_result form }
{
    match form {
        None => false,
        Some(form) => !matches!(
            form,
            Form::StoreRaw
                | Form::StoreStructured
                | Form::Atomic
                | Form::AtomicCompare
                | Form::Condition
                | Form::Case
                | Form::Plain
        ),
    }
}

/// Whether an operand in a role may be negated.
pub fn is_negatable(code: u32, role: Role) -> bool
    ensures { result ≡ may_negate Base code role }
{
    match role {
        Role::Source => counts(instruction_form(code)) && code != 54 && code != 55,
        _ => false,
    }
}

fn counts(form: Option<Form>) -> bool
    ensures { result ≡ is_arithmetic form }
{
    matches!(
        form,
        Some(Form::Unary | Form::Binary | Form::Ternary | Form::Insert | Form::Paired)
    )
}

/// Whether an instruction or a declaration of an opcode takes an operand in a role.
pub fn has_role(code: u32, role: Role) -> bool
    ensures { IsTrue result ↔ HasRole Base code role }
{
    match (instruction_form(code), declaration_layout(code)) {
        (Some(form), _) => form.roles().contains(&role),
        (None, Some(layout)) => layout.role == Some(role),
        (None, None) => false,
    }
}

/// Whether the opcode is that of a declaration.
pub fn declares(code: u32) -> bool
    ensures { result ≡ is_declaration Base code }
{
    declaration_layout(code).is_some()
}

fn is_readable(kind: Kind) -> bool
    ensures { result ≡ is_source kind }
{
    !matches!(kind, Kind::Resource | Kind::Null | Kind::Uav | Kind::Shared)
}

fn is_view(code: u32, kind: Kind) -> bool
    ensures { result ≡ is_read_by code kind }
{
    match kind {
        Kind::Resource => code != 163,
        Kind::Uav => code != 45,
        Kind::Shared => !matches!(code, 45 | 121 | 163),
        _ => false,
    }
}

fn is_named_kind(named: Kind, kind: Kind) -> bool
    ensures { result ≡ is_same named kind }
{
    matches!(
        (named, kind),
        (Kind::Resource, Kind::Resource)
            | (Kind::Uav, Kind::Uav)
            | (Kind::Shared, Kind::Shared)
            | (Kind::Constant, Kind::Constant)
    )
}

fn is_named(layout: Option<Layout>, form: Option<Form>, kind: Kind) -> bool
    ensures { result ≡ is_named_by layout form kind }
{
    match layout {
        Some(layout) => match layout.kind {
            Some(named) => is_named_kind(named, kind),
            None => false,
        },
        None => match form {
            Some(Form::Counter) => matches!(kind, Kind::Uav),
            _ => matches!(kind, Kind::Uav | Kind::Shared),
        },
    }
}

fn is_allowed_kind(code: u32, role: Role, kind: Kind) -> bool
    ensures { result ≡ is_allowed Base code role kind }
{
    match role {
        Role::Dest => matches!(kind, Kind::Temp | Kind::Indexable | Kind::Null),
        Role::Source | Role::Scalar | Role::Pair => is_readable(kind),
        Role::ViewRead => is_view(code, kind),
        Role::ViewWrite => matches!(kind, Kind::Uav | Kind::Shared),
        Role::ViewName => is_named(declaration_layout(code), instruction_form(code), kind),
        Role::Literal => matches!(kind, Kind::Immediate),
        Role::Input => matches!(
            kind,
            Kind::ThreadId | Kind::GroupId | Kind::IdInGroup | Kind::FlatId
        ),
    }
}

fn is_source_selection(kind: Kind, token: u32) -> bool
    ensures { result ≡ is_read_selection kind token }
{
    match kind {
        Kind::Immediate => field(token, 1, 0) != 0,
        Kind::FlatId => true,
        _ => is_chosen(token),
    }
}

fn takes_selection(code: u32, role: Role, kind: Kind, token: u32) -> bool
    ensures { result ≡ takes code role kind token }
{
    match role {
        Role::Dest => matches!(kind, Kind::Null) || is_masked(token),
        Role::Source | Role::Scalar | Role::Pair => is_source_selection(kind, token),
        Role::ViewRead => is_chosen(token),
        Role::ViewWrite => is_masked(token) && (code != 164 || field(token, 7, 4) == 15),
        Role::Literal => field(token, 1, 0) != 0,
        Role::ViewName | Role::Input => true,
    }
}

/// Whether an operand's selection is one, and one that the role takes where it takes the type.
pub fn is_selected(code: u32, role: Role, kind: Option<Kind>, token: u32) -> bool
    ensures { result ≡ selects Base code role kind token }
{
    selects_something(token)
        && match kind {
            None => true,
            Some(kind) => {
                !is_allowed_kind(code, role, kind) || takes_selection(code, role, kind, token)
            }
        }
}

/// Whether a role takes operands of a type.
pub fn is_permitted(code: u32, role: Role, kind: Option<Kind>) -> bool
    ensures { result ≡ allows Base code role kind }
{
    match kind {
        None => false,
        Some(kind) => is_allowed_kind(code, role, kind),
    }
}

fn is_index_form(declares: bool, representation: u32) -> bool
    ensures { result ≡ is_index declares representation }
{
    match representation {
        0 => true,
        2 | 3 => !declares,
        _ => false,
    }
}

/// How many indices an operand of a type has.
pub fn places(kind: Kind) -> u32
    ensures { result ≡ index_count kind }
{
    match kind {
        Kind::Temp | Kind::Resource | Kind::ImmediateConstant | Kind::Uav | Kind::Shared => 1,
        Kind::Indexable | Kind::Constant => 2,
        _ => 0,
    }
}

fn are_index_forms(declares: bool, kind: Kind, token: u32) -> bool
    ensures { result ≡ has_index_forms declares kind token }
{
    match kind {
        Kind::Temp | Kind::Resource | Kind::Uav | Kind::Shared => field(token, 24, 22) == 0,
        Kind::Indexable | Kind::Constant => {
            field(token, 24, 22) == 0 && is_index_form(declares, field(token, 27, 25))
        }
        Kind::ImmediateConstant => is_index_form(declares, field(token, 24, 22)),
        _ => true,
    }
}

fn are_indices(declares: bool, kind: Kind, token: u32) -> bool
    ensures { result ≡ has_indices declares kind token }
{
    field(token, 21, 20) == places(kind) && are_index_forms(declares, kind, token)
}

/// Whether an operand's indices are those of its type.
pub fn is_indexed(declares: bool, kind: Option<Kind>, token: u32) -> bool
    ensures { result ≡ indexes declares kind token }
{
    match kind {
        None => true,
        Some(kind) => are_indices(declares, kind, token),
    }
}

fn is_relative_kind(kind: Kind, token: u32) -> bool
    ensures { result ≡ is_relative_of kind token }
{
    match kind {
        Kind::Temp
        | Kind::Indexable
        | Kind::Constant
        | Kind::ThreadId
        | Kind::GroupId
        | Kind::IdInGroup => is_single(token) && are_indices(true, kind, token),
        Kind::FlatId => selects_something(token) && are_indices(true, kind, token),
        _ => false,
    }
}

/// The type of a relative operand, and None where the token is not one of a relative operand.
pub fn relative_kind(token: u32) -> Option<Kind>
    ensures { result ≡ (if is_relative token then kind_of token else None) }
{
    match operand_kind(token) {
        Some(kind) if is_relative_kind(kind, token) && !is_set(token, 31) => Some(kind),
        _ => None,
    }
}
