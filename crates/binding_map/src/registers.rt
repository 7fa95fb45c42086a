ghost use Rattle.std.specs.Prelude.{◌≡◌, [], ◌∷◌, ◌++◌, List};
ghost use Rattle.tpf_program.specs.declared.declaration.Declared.{Declared};
ghost use Rattle.tpf_program.specs.declared.instruction.Instruction.{Instruction};
ghost use Rattle.binding_map.specs.Marks.{HasMarks, unmarked, with_declared, with_step};

use tpf_program::{Declaration, Instruction, Program};

/// The opcodes that step a counter: `imm_atomic_alloc` and `imm_atomic_consume`.
const ALLOCATE: u32 = 178;

const CONSUME: u32 = 179;

/// Which registers a program has, by their slots: the constant buffers and views that it declares, and
/// the counters that it steps.
#[derive(Drop)]
pub(crate) struct Registers {
    pub(crate) constants: [bool; 14],
    pub(crate) resources: [bool; 128],
    pub(crate) uavs: [bool; 64],
    pub(crate) counters: [bool; 64],
}

impl Registers {
    pub(crate) fn none() -> Registers
        ensures { result ≡ unmarked }
    {
        Registers {
            constants: [false; 14],
            resources: [false; 128],
            uavs: [false; 64],
            counters: [false; 64],
        }
    }

    pub(crate) fn declare(&mut self, what: Declaration)
        ensures { self.new ≡ with_declared self.old what }
    {
        match what {
            Declaration::Constants { slot, .. } if slot < 14 => {
                self.constants[slot as usize] = true
            }
            Declaration::Resource { slot, .. } if slot < 128 => {
                self.resources[slot as usize] = true
            }
            Declaration::Uav { slot, .. } if slot < 64 => self.uavs[slot as usize] = true,
            _ => {}
        }
    }

    pub(crate) fn step(&mut self, instruction: Instruction)
        ensures { self.new ≡ with_step self.old instruction }
    {
        let slot = instruction.o1.slot;
        if matches!(instruction.code, ALLOCATE | CONSUME) && slot < 64 {
            self.counters[slot as usize] = true;
        }
    }

    /// The registers of a program.
    pub(crate) fn of(program: &Program) -> Registers
        ensures { HasMarks result program.now.shader.declarations program.now.shader.instructions }
    {
        let mut registers = Registers::none();
        for i in 0..program.declarations() {
            registers.declare(program.declaration(i).what);
        }
        for i in 0..program.instructions() {
            registers.step(program.instruction(i));
        }
        registers
    }
}
