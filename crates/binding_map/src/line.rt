//! What one line of a binding text says.
ghost use Rattle.std.specs.Prelude.{◌≡◌, ◌≢◌, slice_index, bytes_eq, codes};
ghost use Rattle.text_lines.specs.Parts.{parts};
ghost use Rattle.binding_map.specs.Texts.{bound, pushed, said, said_by};
ghost use Rattle.binding_map.specs.Lines.{shown};

use crate::register::Register;
use text_lines::{has_outer_space, is_passed, next_part, number};

/// A register and where it is bound, whatever the limits of the numbers.
#[derive(Clone, Copy)]
pub(crate) enum Named {
    Bound {
        register: Register,
        set: u64,
        binding: u64,
    },
    Push {
        slot: u32,
        first: u64,
        count: u64,
    },
}

/// What a line says.
#[derive(Clone, Copy)]
pub(crate) enum Line {
    /// Nothing: it is empty or a comment.
    Nothing,
    /// It is not of the form.
    Unread,
    Names(Named),
}

/// What a line of three parts says.
fn bound(register: Option<Register>, set: Option<u64>, binding: Option<u64>) -> Line
    ensures { shown result ≡ bound register set binding }
{
    match (register, set, binding) {
        (Some(register), Some(set), Some(binding)) => Line::Names(Named::Bound {
            register,
            set,
            binding,
        }),
        _ => Line::Unread,
    }
}

/// What a line of four parts says, the second of which is `push`.
fn pushed(register: Option<Register>, first: Option<u64>, count: Option<u64>) -> Line
    ensures { shown result ≡ pushed register first count }
{
    match (register, first, count) {
        (Some(Register::Constant(slot)), Some(first), Some(count)) => {
            Line::Names(Named::Push { slot, first, count })
        }
        _ => Line::Unread,
    }
}

fn is_push(part: &[u8]) -> bool
    ensures { result ≡ bytes_eq part.now (codes "push") }
{
    part == b"push".as_slice()
}

/// What a line says that does not begin with a space.
fn read_parts(line: &[u8]) -> Line
    requires begins { slice_index line.now 0 ≢ 32 }
    ensures { shown result ≡ said_by (parts line.now) }
{
    let (name, rest) = next_part(line);
    let (second, rest) = next_part(rest);
    let (third, rest) = next_part(rest);
    if rest.is_empty() {
        return bound(Register::from_name(name), number(second), number(third));
    }
    let (fourth, rest) = next_part(rest);
    if !rest.is_empty() {
        return Line::Unread;
    }
    if !is_push(second) {
        return Line::Unread;
    }
    pushed(Register::from_name(name), number(third), number(fourth))
}

/// What a line says.
pub(crate) fn read_line(line: &[u8]) -> Line
    ensures { shown result ≡ said line.now }
{
    if is_passed(line, b'#') {
        return Line::Nothing;
    }
    if has_outer_space(line) {
        return Line::Unread;
    }
    read_parts(line)
}
