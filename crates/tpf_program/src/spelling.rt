ghost use Rattle.std.specs.Prelude.{◌≡◌, ◌≤◌, ℕ, List, Some, Contains, slice_get};
ghost use Rattle.word_base.specs.Words.{AreWords};
ghost use Rattle.word_base.specs.declared.rule.Refusal.{Refusal};
ghost use Rattle.tpf_decode.specs.Profiles.{Base};
ghost use Rattle.tpf_program.specs.Faults.{IsLate, program_faults};
ghost use Rattle.tpf_program.specs.declared.instruction.Instruction.{Instruction};
ghost use Rattle.tpf_program.specs.Program.{Shader};
ghost use Rattle.tpf_program.specs.Spelling.{Spells};
ghost use Rattle.tpf_program.specs.Holding.{IsWellSpelled};

/// What holds of the program that words spell, for the proofs of callers: the words spell no other,
/// its operands name words and select components; and words spell a program exactly where of the rules
/// of tokens they break none but those on flags of opcode tokens. It does nothing when it runs.
pub fn spelled_laws()
    ensures determined { (p q : Shader) (tokens : List ℕ) → Spells Base p tokens → Spells Base q tokens → p ≡ q }
    ensures operands { (p : Shader) (tokens : List ℕ) → AreWords tokens → Spells Base p tokens
        → (k : ℕ) (i : Instruction) → slice_get p.instructions k ≡ Some i → IsWellSpelled i }
    ensures sound { (p : Shader) (tokens : List ℕ) → Spells Base p tokens → p.words ≤ 65536
        → (r : Refusal) → Contains (program_faults Base tokens) r → IsLate r.rule }
    ensures found { (tokens : List ℕ) → ((r : Refusal) → Contains (program_faults Base tokens) r → IsLate r.rule)
        → (p : Shader) × Spells Base p tokens × (p.words ≤ 65536) }
{}
