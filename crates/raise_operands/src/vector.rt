ghost use Rattle.std.specs.Prelude.{◌≡◌, ◌<◌, ◌≤◌, ◌+◌, slice_index, Option, Some, None};
ghost use Rattle.shader_tree.specs.Nodes.{AWord};
ghost use Rattle.tpf_program.specs.Holding.{SelectsInRange};
ghost use Rattle.tpf_program.specs.Values.{selected, of_four};
ghost use Rattle.tpf_program.specs.Writes.{in_mask};
ghost use Rattle.raise_operands.specs.Building.{IsInside, is_written, seen};
ghost use Rattle.raise_operands.specs.Folding.{literal};
ghost use Rattle.raise_operands.specs.Vectors.{spaces_of, vectors_in, vector_at, vector_of, vector_by, same_space, meets};

use crate::value::Value;
use shader_tree::Space;
use tpf_program::{Argument, Kind, Program, Select};

/// The vector of an operand.
#[derive(Clone, Copy, Debug, PartialEq, Eq)]
pub enum Vector {
    /// None: the operand names no space, or lies past its end.
    Outside,
    /// A vector that is known.
    At { space: Space, number: u32 },
    /// One whose number is kept in scratch words.
    Indexed { space: Space },
}

/// The number of vectors of a space.
pub fn vectors_in(program: &Program, space: Space) -> u32
    ensures { result ≡ vectors_in (spaces_of program.now.shader) space }
{
    match space {
        Space::Temps => program.temps(),
        Space::Indexable(slot) => program.elements(slot),
        Space::Constant(slot) => program.vectors(slot),
        Space::ImmediateConstant => program.icb_words() / 4,
    }
}

/// A vector of a space by its number.
fn vector_at(program: &Program, space: Space, number: u32) -> Vector
    ensures vector { seen result ≡ vector_at (spaces_of program.now.shader) space number }
    ensures inside { IsInside (spaces_of program.now.shader) result }
{
    if number < vectors_in(program, space) {
        Vector::At { space, number }
    } else {
        Vector::Outside
    }
}

/// A vector of a space by its index, which may be known.
fn vector_of(program: &Program, space: Space, index: Option<u32>) -> Vector
    ensures vector { seen result ≡ vector_of (spaces_of program.now.shader) space index }
    ensures inside { IsInside (spaces_of program.now.shader) result }
{
    match index {
        Some(number) => vector_at(program, space, number),
        None if vectors_in(program, space) > 0 => Vector::Indexed { space },
        None => Vector::Outside,
    }
}

/// The vector that an operand of a type names.
pub fn vector_by(program: &Program, kind: Kind, slot: u32, index: Option<u32>) -> Vector
    ensures vector { seen result ≡ vector_by kind (spaces_of program.now.shader) slot index }
    ensures inside { IsInside (spaces_of program.now.shader) result }
{
    match kind {
        Kind::Temp => vector_at(program, Space::Temps, slot),
        Kind::Indexable => vector_of(program, Space::Indexable(slot), index),
        Kind::Constant => vector_of(program, Space::Constant(slot), index),
        Kind::ImmediateConstant => vector_of(program, Space::ImmediateConstant, index),
        _ => Vector::Outside,
    }
}

/// The component that an operand selects for a component of its instruction.
pub fn selected(select: Select, component: u8) -> u8
    requires { component < 4 }
    ensures component { result ≡ selected select component }
    ensures few { SelectsInRange select → result < 4 }
{
    match select {
        Select::Bare | Select::Mask(_) => component,
        Select::Swizzle(bits) => match component {
            0 => bits % 4,
            1 => bits / 4 % 4,
            2 => bits / 16 % 4,
            _ => bits / 64,
        },
        Select::One(one) => one,
    }
}

/// Whether a mask has a component.
pub fn in_mask(select: Select, component: u8) -> bool
    requires { component < 4 }
    ensures { result ≡ in_mask select component }
{
    match select {
        Select::Mask(bits) => match component {
            0 => bits % 2 == 1,
            1 => bits / 2 % 2 == 1,
            2 => bits / 4 % 2 == 1,
            _ => bits / 8 % 2 == 1,
        },
        _ => false,
    }
}

/// Whether an operand that is a destination writes a component.
pub fn is_written(a: &Argument, component: u8) -> bool
    requires { component < 4 }
    ensures { result ≡ is_written a.now component }
{
    match a.kind {
        Kind::Null => false,
        _ => in_mask(a.select, component),
    }
}

/// The word of an immediate at a component.
pub fn immediate(a: &Argument, component: u8) -> u32
    ensures { result ≡ of_four a.now.x a.now.y a.now.z a.now.w component }
{
    match component {
        0 => a.x,
        1 => a.y,
        2 => a.z,
        _ => a.w,
    }
}

/// A word of the immediate constant buffers, and 0 past their end.
pub fn constant(program: &Program, i: u32) -> u32
    ensures { result ≡ slice_index program.now.shader.constants i }
{
    if i < program.icb_words() {
        program.icb_word(i)
    } else {
        0
    }
}

/// Whether two spaces of registers are one.
fn is_same_space(a: Space, b: Space) -> bool
    ensures { result ≡ same_space a b }
{
    match (a, b) {
        (Space::Temps, Space::Temps) => true,
        (Space::Indexable(a), Space::Indexable(b)) => a == b,
        _ => false,
    }
}

/// Whether a component of one vector and a component of another may be the same word of a register.
pub fn meets(one: Vector, c: u8, other: Vector, d: u8) -> bool
    ensures { result ≡ meets (seen one) c (seen other) d }
{
    match (one, other) {
        (
            Vector::At { space, number },
            Vector::At {
                space: b,
                number: m,
            },
        ) => { is_same_space(space, b) && number == m && c == d }
        (
            Vector::At { space, .. } | Vector::Indexed { space },
            Vector::At { space: b, .. } | Vector::Indexed { space: b },
        ) => { is_same_space(space, b) && c == d }
        _ => false,
    }
}
