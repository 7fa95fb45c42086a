ghost use Rattle.std.specs.Prelude.{◌≡◌, ℕ, List, Some, slice_get};
ghost use Rattle.word_base.specs.declared.event.Event.{Event};
ghost use Rattle.word_base.specs.Registers.{Registers};
ghost use Rattle.word_base.specs.Settings.{Setting, HoldsWords};
ghost use Rattle.word_base.specs.Words.{AreWords};
ghost use Rattle.tpf_decode.specs.Profiles.{Profile};
ghost use Rattle.tpf_program.specs.declared.instruction.Instruction.{Instruction};
ghost use Rattle.tpf_program.specs.Bytecode as bytecode;
ghost use Rattle.tpf_program.specs.Holding.{AreOfWords, HoldWords, IsEventOfWords, IsProgramOfWords};
ghost use Rattle.tpf_program.specs.Program.{Shader};

use word_base::result_laws;

/// What holds of a lane of a program, for the proofs of callers: with words in what it is given, its
/// registers keep holding words and its events name words. It does nothing when it runs.
pub fn bytecode_laws()
    ensures registers { (profile : Profile) (p : Shader) (setting : Setting) (registers : Registers) (i : Instruction) (answers : List ℕ)
        → IsProgramOfWords p → HoldsWords setting → HoldWords registers → AreOfWords i → AreWords answers
        → HoldWords (bytecode.result profile p setting registers i answers) }
    ensures events { (profile : Profile) (p : Shader) (setting : Setting) (registers : Registers) (i : Instruction)
        → IsProgramOfWords p → HoldsWords setting → HoldWords registers → AreOfWords i
        → (n : ℕ) (e : Event) → slice_get (bytecode.plan profile p setting registers i) n ≡ Some e → IsEventOfWords e }
{
    result_laws();
}
