ghost use Rattle.std.specs.Prelude.{◌≡◌, List, [], Option, Some, None, false, Contains};
ghost use Rattle.word_base.specs.declared.rule.Refusal.{Refusal};
ghost use Rattle.word_base.specs.Firsts.{Key, first_by, comes_before_by, IsFirstBy};
ghost use Rattle.word_base.specs.Rules.{first, comes_before, key_of, IsFirst, name_of, text_of, order_of};

use thiserror::Error;

/// A rule of the input formats or a limit of the translator, by the name that is printed.
///
/// The letters are those of the phases: `M` limits, `C` the container, `K` tokens, `L` declarations,
/// `S` structure, `G` root signatures, `B` bindings, `X` dispatches, `Z` modules, their texts
/// and batches.
#[derive(Clone, Copy, Debug, PartialEq, Eq)]
pub enum Rule {
    /// Broken where a file has more than 16,777,216 bytes.
    M1,
    /// Broken where the container is shorter than its 32 bytes of header.
    C1,
    /// Broken where the first four bytes are not `DXBC`.
    C2,
    /// Broken where the container's version is not 1.
    C3,
    /// Broken where the total size is below 32 or above the bytes given.
    C4,
    /// Broken where the table of chunks does not fit the total size.
    C5,
    /// Broken where a chunk does not fit the total size.
    C6,
    /// Broken where no chunk has the tag.
    C7,
    /// Broken where a second chunk has the tag.
    C8,
    /// Broken where the program's size is below 8 or no multiple of 4.
    C9,
    /// Broken where the version token is not that of cs_5_0.
    K1,
    /// Broken where the program's length is below 2 or above the words of its chunk.
    K2,
    /// Broken where the program has more than 65,536 words.
    M2,
    /// Broken where the program has more words than the workspace was made for.
    M4,
    /// Broken where an instruction's length is 0 or passes the program's end.
    K3,
    /// Broken where an opcode is outside the profile.
    K4,
    /// Broken where an extended opcode token is of a type outside the profile.
    K5,
    /// Broken where an operand's component selection is not as its role asks.
    K6,
    /// Broken where an operand's type is not allowed in its role.
    K7,
    /// Broken where an operand's indices are not those of its type.
    K8,
    /// Broken where a relative operand is not of an allowed form.
    K9,
    /// Broken where an extended operand token is not allowed.
    K10,
    /// Broken where an instruction has words missing or left over.
    K11,
    /// Broken where saturate stands where it is not allowed.
    K12,
    /// Broken where a block of custom data is not of its form.
    K13,
    /// Broken where a `sync` has no flag, or both flags of views.
    K14,
    /// Broken where a global flag is outside the profile.
    K15,
    /// Broken where a typed view is no buffer, or its words are not all signed or all unsigned integers.
    K16,
    /// Broken where the same thing is declared twice.
    L1,
    /// Broken where a declaration follows an instruction.
    L2,
    /// Broken where a declaration passes a limit.
    L3,
    /// Broken where no thread group is declared.
    L4,
    /// Broken where something is used and not declared.
    L5,
    /// Broken where a register is at or past the declared number.
    L6,
    /// Broken where a stride or a size is out of its limit.
    L7,
    /// Broken where an instruction names a view of the wrong kind.
    L8,
    /// Broken where an end does not close the innermost construct.
    S1,
    /// Broken where an opening is never closed.
    S2,
    /// Broken where an `else` is out of place.
    S3,
    /// Broken where a `break` or `continue` is out of place.
    S4,
    /// Broken where a `case` or `default` is out of place.
    S5,
    /// Broken where a switch has a second default.
    S6,
    /// Broken where a switch has a case value twice.
    S7,
    /// Broken where an instruction stands in a switch before its first case.
    S8,
    /// Broken where the last instruction is not a `ret` outside all constructs.
    S9,
    /// Broken where 65 constructs stand in one another.
    M3,
    /// Broken where the root signature's version is neither 1 nor 2.
    G1,
    /// Broken where a word of the root signature is missing.
    G2,
    /// Broken where a parameter or range is of an unknown type.
    G3,
    /// Broken where a register is covered twice.
    G4,
    /// Broken where the root constants pass 64 words.
    G5,
    /// Broken where the file has no root signature.
    G6,
    /// Broken where a declared register has no binding.
    B1,
    /// Broken where a register or binding is given twice.
    B2,
    /// Broken where a line of a binding text is not of the form, or passes a limit.
    B3,
    /// Broken where a line of a dispatch text is not of the form.
    X1,
    /// Broken where a line of a dispatch text is given twice.
    X2,
    /// Broken where a dispatch passes a limit.
    X3,
    /// Broken where a dispatch names a place that the program does not declare.
    X4,
    /// Broken where the first lines of a dispatch text are not those of the form.
    X5,
    /// Broken where a module is not read.
    Z1,
    /// Broken where a line of a module's text is not read.
    Z2,
    /// Broken where a line of a batch text is not of the form, or passes a limit.
    Z3,
}

/// What a rule has in the table: the name that is printed, what is printed behind its place, the phase in
/// which it is tested, and its number among the rules of the phase.
pub type Row = (&'static str, &'static str, u32, u32);

/// The rules, in the order in which `Rule` declares them: name, text, phase and number of each.
///
/// The phases follow one another: the sizes of the files and the container (2), the head of the program
/// (3), its size (4), its tokens (5), its declarations (6), its structure (7), its size with the words
/// that its typed views grow to (8), the bindings (9), their completeness (10), the dispatch (11), and
/// modules, their texts and batches (12).
pub const ROWS: [Row; 63] = [
    ("M1", "file too large", 2, 0),
    ("C1", "container shorter than 32 bytes", 2, 1),
    ("C2", "wrong tag", 2, 2),
    ("C3", "wrong container version", 2, 3),
    ("C4", "wrong total size", 2, 4),
    ("C5", "chunk table does not fit", 2, 5),
    ("C6", "chunk outside the container", 2, 6),
    ("C7", "chunk missing", 2, 7),
    ("C8", "chunk given twice", 2, 8),
    ("C9", "wrong program size", 2, 9),
    ("K1", "not cs_5_0", 3, 1),
    ("K2", "wrong program length", 3, 2),
    ("M2", "program too long", 4, 0),
    ("M4", "workspace too small", 4, 1),
    ("K3", "wrong instruction length", 5, 3),
    ("K4", "opcode outside the profile", 5, 4),
    ("K5", "extended opcode outside the profile", 5, 5),
    ("K6", "wrong component selection", 5, 6),
    ("K7", "operand type not allowed here", 5, 7),
    ("K8", "wrong index form", 5, 8),
    ("K9", "wrong relative index", 5, 9),
    ("K10", "modifier not allowed here", 5, 10),
    ("K11", "tokens missing or left over", 5, 11),
    ("K12", "saturate not allowed", 5, 12),
    ("K13", "wrong custom data", 5, 13),
    ("K14", "wrong sync flags", 5, 14),
    ("K15", "global flag outside the profile", 5, 15),
    ("K16", "typed view outside the profile", 5, 16),
    ("L1", "declared twice", 6, 1),
    ("L2", "declaration after an instruction", 6, 2),
    ("L3", "declaration past a limit", 6, 3),
    ("L4", "thread group missing", 6, 4),
    ("L5", "used but not declared", 6, 5),
    ("L6", "register past its declaration", 6, 6),
    ("L7", "wrong stride or size", 6, 7),
    ("L8", "wrong kind of view", 6, 8),
    ("S1", "end without opening", 7, 1),
    ("S2", "opening without end", 7, 2),
    ("S3", "else out of place", 7, 3),
    ("S4", "break or continue out of place", 7, 4),
    ("S5", "case out of place", 7, 5),
    ("S6", "default given twice", 7, 6),
    ("S7", "case value given twice", 7, 7),
    ("S8", "code before the first case", 7, 8),
    ("S9", "last instruction is not ret", 7, 9),
    ("M3", "nesting too deep", 7, 10),
    ("G1", "wrong root signature version", 9, 1),
    ("G2", "root signature truncated", 9, 2),
    ("G3", "unknown root signature type", 9, 3),
    ("G4", "register covered twice", 9, 4),
    ("G5", "too many root constants", 9, 5),
    ("G6", "no root signature", 9, 0),
    ("B1", "register without binding", 10, 1),
    ("B2", "binding given twice", 9, 2),
    ("B3", "binding line not read", 9, 3),
    ("X1", "dispatch line not read", 11, 1),
    ("X2", "dispatch line given twice", 11, 2),
    ("X3", "dispatch past a limit", 11, 3),
    ("X4", "place not declared", 11, 4),
    ("X5", "side or groups missing", 11, 5),
    ("Z1", "module not read", 12, 1),
    ("Z2", "module text not read", 12, 2),
    ("Z3", "batch line not read", 12, 3),
];

impl Rule {
    /// The name that is printed.
    pub fn name(self) -> &'static str
        ensures { result.now ≡ name_of self }
    {
        ROWS[self as usize].0
    }

    /// What is printed of the rule behind its place.
    pub fn text(self) -> &'static str
        ensures { result.now ≡ text_of self }
    {
        ROWS[self as usize].1
    }

    /// The phase of the translator in which the rule is tested.
    pub fn phase(self) -> u32
        ensures { result ≡ (order_of self).phase }
    {
        ROWS[self as usize].2
    }

    /// The number among the rules of the phase.
    pub fn number(self) -> u32
        ensures { result ≡ (order_of self).number }
    {
        ROWS[self as usize].3
    }
}

/// A broken rule with its place: bytes, words or lines from the start of the file or program, as the
/// rule says.
#[derive(Clone, Copy, Debug, PartialEq, Eq)]
pub struct Refusal {
    /// The rule that is broken.
    pub rule: Rule,
    /// Where it is broken.
    pub place: u32,
}

impl Refusal {
    /// The phase of the rule; and behind it, up to the head of the program its number and the place, in a
    /// later phase the place and its number.
    fn key(self) -> (u32, u32, u32)
        ensures { result ≡ ((key_of self).phase, (key_of self).first, (key_of self).second) }
    {
        let phase = self.rule.phase();
        if phase <= 3 {
            (phase, self.rule.number(), self.place)
        } else {
            (phase, self.place, self.rule.number())
        }
    }

    /// Whether this refusal is tested before the other: by phase; in a phase up to the head of the program
    /// by number and then by place, in a later one by place and then by number.
    pub fn comes_before(self, other: Refusal) -> bool
        ensures { result ≡ comes_before self other }
    {
        let a = self.key();
        let b = other.key();
        a.0 < b.0 || a.0 == b.0 && (a.1 < b.1 || a.1 == b.1 && a.2 < b.2)
    }
}

/// Memory was wanted and could not be had.
#[derive(Clone, Copy, Debug, PartialEq, Eq, Error)]
#[error("no memory")]
pub struct NoMemory;

/// Why a call that reads an input stopped.
#[derive(Clone, Copy, Debug, PartialEq, Eq)]
pub enum Halt {
    /// The input breaks a rule.
    Refused(Refusal),
    /// Memory was wanted and could not be had.
    NoMemory,
}

/// What holds of the first of a list of broken rules, for the proofs of callers. It does nothing
/// when it runs.
pub fn first_laws()
    ensures none { (qs : List Refusal) → first qs ≡ None → qs ≡ [] }
    ensures some { (qs : List Refusal) (r : Refusal) → first qs ≡ Some r → IsFirst (Contains qs) r }
    ensures single { (r : Refusal) → comes_before r r ≡ false }
{}

/// What holds of the first of a list of things by any key, for the proofs of callers. It does nothing when
/// it runs.
pub fn first_by_laws<T>()
    ensures none { (key : T → Key) (qs : List T) → first_by key qs ≡ None → qs ≡ [] }
    ensures some { (key : T → Key) (qs : List T) (r : T) → first_by key qs ≡ Some r → IsFirstBy key (Contains qs) r }
    ensures single { (key : T → Key) (r : T) → comes_before_by key r r ≡ false }
{}
