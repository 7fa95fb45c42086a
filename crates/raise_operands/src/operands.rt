ghost use Rattle.std.specs.Prelude.{◌≡◌, ◌+◌, ◌≤◌, None, length};
ghost use Rattle.tpf_program.specs.declared.instruction.Instruction.{Instruction};
ghost use Rattle.raise_operands.specs.Building.{AreFew, AreOperands, Grows, IsOperandOf, IsStep, front_of, operand_at, operands_nodes, three_kept, three_nodes};
ghost use Rattle.raise_operands.specs.Raises.{InRange};
ghost use Rattle.raise_operands.specs.Vectors.{spaces_of};

use crate::index::place;
use crate::operand::{Operand, Operands, Place};
use shader_tree::Tree;
use tpf_program::{Instruction, Program};

/// The places of the first three operands of an instruction, and the statement that keeps their indices.
fn three_places(
    tree: &mut Tree,
    program: &Program,
    instruction: &Instruction,
) -> (Place, Place, Place, Option<u32>)
    requires few { AreFew (spaces_of program.now.shader) }
    requires o0 { InRange instruction.now.o0 }
    requires o1 { InRange instruction.now.o1 }
    requires o2 { InRange instruction.now.o2 }
    requires room { length tree.old.nodes + three_nodes instruction.now ≤ tree.old.capacity }
    ensures grows { Grows tree.old tree.new (three_nodes instruction.now) }
    ensures o0 { let a = instruction.now.o0 in
        IsOperandOf tree.new.nodes (spaces_of program.now.shader) 0 a (operand_at a result.0) }
    ensures o1 { let a = instruction.now.o1 in
        IsOperandOf tree.new.nodes (spaces_of program.now.shader) 1 a (operand_at a result.1) }
    ensures o2 { let a = instruction.now.o2 in
        IsOperandOf tree.new.nodes (spaces_of program.now.shader) 2 a (operand_at a result.2) }
    ensures front { IsStep tree.new.nodes result.3 (three_kept (spaces_of program.now.shader) instruction.now) }
{
    let (p0, front) = place(tree, program, 0, &instruction.o0, None);
    let (p1, front) = place(tree, program, 1, &instruction.o1, front);
    let (p2, front) = place(tree, program, 2, &instruction.o2, front);
    (p0, p1, p2, front)
}

/// Begins the operands of an instruction, and gives the statement that keeps their indices.
pub fn begin(
    tree: &mut Tree,
    program: &Program,
    instruction: Instruction,
) -> (Operands, Option<u32>)
    requires few { AreFew (spaces_of program.now.shader) }
    requires o0 { InRange instruction.o0 }
    requires o1 { InRange instruction.o1 }
    requires o2 { InRange instruction.o2 }
    requires o3 { InRange instruction.o3 }
    requires o4 { InRange instruction.o4 }
    requires room { length tree.old.nodes + operands_nodes instruction ≤ tree.old.capacity }
    ensures grows { Grows tree.old tree.new (operands_nodes instruction) }
    ensures operands { AreOperands tree.new.nodes (spaces_of program.now.shader) result.0 }
    ensures instruction { result.0.instruction ≡ instruction }
    ensures front { IsStep tree.new.nodes result.1 (front_of (spaces_of program.now.shader) instruction) }
{
    let (p0, p1, p2, front) = three_places(tree, program, &instruction);
    let (p3, front) = place(tree, program, 3, &instruction.o3, front);
    let (p4, front) = place(tree, program, 4, &instruction.o4, front);
    let operands = Operands {
        instruction,
        o0: Operand {
            argument: instruction.o0,
            place: p0,
        },
        o1: Operand {
            argument: instruction.o1,
            place: p1,
        },
        o2: Operand {
            argument: instruction.o2,
            place: p2,
        },
        o3: Operand {
            argument: instruction.o3,
            place: p3,
        },
        o4: Operand {
            argument: instruction.o4,
            place: p4,
        },
    };
    (operands, front)
}
