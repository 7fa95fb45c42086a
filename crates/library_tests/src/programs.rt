//! Programs that are read from words.
use crate::reading::{SMALLEST, are_words, bytes_of, read_words, refusal};
use std::alloc::{AllocError, Global};
use std::process::Abort;
use std::test::Fail;
use tpf_program::Select::{Bare, Mask, One, Swizzle};
use tpf_program::{
    Argument, Declaration, Declared, Instruction, Kind, Program, ThreadGroup, ViewKind, read_into,
};
use word_base::{Halt, Refusal, Rule, word_at};

/// Flags, one register, a group of one thread, `mov r0.xy, l(3, 4, 0, 0)`, `iadd r0.x, r0.x, r0.y`
/// and `ret`.
const SUM: [u32; 25] = [
    0x00050050, 25, 0x0100086A, 0x02000068, 1, 0x0400009B, 1, 1, 1, 0x08000036, 0x00100032, 0,
    0x00004002, 3, 4, 0, 0, 0x0700001E, 0x00100012, 0, 0x0010000A, 0, 0x0010001A, 0, 0x0100003E,
];

/// A comment, an empty extended token, a selection's bits that mean nothing, and a word behind the program.
const PASSED: [u32; 19] = [
    0x00050050, 18, 0x00000035, 3, 0xFFFFFFFF, 0x0400009B, 1, 2, 3, 0x02000068, 1, 0x86000036, 0,
    0x00100012, 0, 0x00004001, 5, 0x0100003E, 9,
];

/// A group of one thread, `nop`, `mov null, l(5)`, `iadd null, l(1), l(2)` and `ret`.
const NULLS: [u32; 18] = [
    0x00050050, 18, 0x0400009B, 1, 1, 1, 0x0100003A, 0x04000036, 0x0000D000, 0x00004001, 5,
    0x0600001E, 0x0000D000, 0x00004001, 1, 0x00004001, 2, 0x0100003E,
];

/// Two views, two immediate constant buffers, and `ret`.
const VIEWS: [u32; 22] = [
    0x00050050, 22, 0x0381009D, 0x0011E000, 2, 0x0481009E, 0x0011E000, 3, 8, 0x00001835, 6, 1, 2,
    3, 4, 0x00001835, 6, 5, 6, 7, 8, 0x0100003E,
];

/// `switch l(0)`, `case l(7)`, in it `switch l(0)`, `case l(7)`, `case l(8)`, `endswitch`, then
/// `case l(8)`, `case l(7)`, `endswitch` and `ret`.
const SWITCHES: [u32; 27] = [
    0x00050050, 27, 0x0300004C, 0x00004001, 0, 0x03000006, 0x00004001, 7, 0x0300004C, 0x00004001,
    0, 0x03000006, 0x00004001, 7, 0x03000006, 0x00004001, 8, 0x01000017, 0x03000006, 0x00004001, 8,
    0x03000006, 0x00004001, 7, 0x01000017, 0x0100003E, 0x0100003E,
];

/// An operand by its type, its selection and its words, and of the register 0.
macro_rules! operand {
    ($kind:ident $select:expr, $x:literal $y:literal $z:literal $w:literal) => {
        Argument {
            kind: Kind::$kind, select: $select, negate: false, slot: 0, index: 0, relative: None,
            x: $x, y: $y, z: $z, w: $w,
        }
    };
}

/// What is known of a program.
#[derive(Clone, Copy)]
enum Fact {
    /// How many words, declarations and instructions it has.
    Sizes(u32, u32, u32),
    /// The number and the place of a declaration, and what it declares.
    Declares(u32, u32, Declaration),
    /// The number of an instruction, its place, length, opcode, controls and count of operands.
    Head(u32, u32, u8, u32, u32, u8),
    /// The number of an instruction and of an operand of it, and what that is.
    Operand(u32, u32, Argument),
    /// The number of registers, and the threads.
    Has(u32, ThreadGroup),
    /// The words of constants, and one of them by its number.
    Constant(u32, u32, u32),
    /// The case before one with its value at its level, by their numbers.
    Previous(u32, Option<u32>),
}

/// Programs, each with what is known of it.
const FACTS: &[(&[u32], Fact)] = &rows! {
    (&SMALLEST, Fact::Sizes(7, 1, 1));
    (&SMALLEST, Fact::Declares(0, 2, Declaration::Group { x: 1, y: 1, z: 1 }));
    (&SMALLEST, Fact::Head(0, 6, 1, 62, 0, 0));
    (&SUM, Fact::Sizes(25, 3, 3));
    (&SUM, Fact::Declares(0, 2, Declaration::Flags(0x0800)));
    (&SUM, Fact::Declares(1, 3, Declaration::Temps(1)));
    (&SUM, Fact::Head(0, 9, 8, 54, 0, 2));
    (&SUM, Fact::Operand(0, 0, operand! { Temp Mask(3), 0 0 0 0 }));
    (&SUM, Fact::Operand(0, 1, operand! { Immediate Swizzle(228), 3 4 0 0 }));
    (&SUM, Fact::Operand(0, 2, operand! { Null Bare, 0 0 0 0 }));
    (&SUM, Fact::Operand(0, 3, operand! { Null Bare, 0 0 0 0 }));
    (&SUM, Fact::Operand(0, 4, operand! { Null Bare, 0 0 0 0 }));
    (&SUM, Fact::Head(1, 17, 7, 30, 0, 3));
    (&SUM, Fact::Operand(1, 2, operand! { Temp One(1), 0 0 0 0 }));
    (&SUM, Fact::Head(2, 24, 1, 62, 0, 0));
    (&PASSED, Fact::Sizes(18, 2, 2));
    (&PASSED, Fact::Has(1, ThreadGroup { x: 1, y: 2, z: 3 }));
    (&PASSED, Fact::Declares(0, 5, Declaration::Group { x: 1, y: 2, z: 3 }));
    (&PASSED, Fact::Head(0, 11, 6, 54, 0, 2));
    (&PASSED, Fact::Operand(0, 1, operand! { Immediate Bare, 5 5 5 5 }));
    (&NULLS, Fact::Sizes(18, 1, 4));
    (&NULLS, Fact::Head(0, 6, 1, 58, 0, 0));
    (&NULLS, Fact::Head(1, 7, 4, 54, 0, 2));
    (&NULLS, Fact::Operand(1, 0, operand! { Null Bare, 0 0 0 0 }));
    (&NULLS, Fact::Operand(1, 1, operand! { Immediate Bare, 5 5 5 5 }));
    (&VIEWS, Fact::Sizes(22, 4, 1));
    (&VIEWS, Fact::Declares(0, 2, Declaration::Uav { slot: 2, view: ViewKind::Raw, coherent: true, ordered: false }));
    (&VIEWS, Fact::Declares(1, 5, Declaration::Uav { slot: 3, view: ViewKind::Structured { stride: 8 }, coherent: true, ordered: true }));
    (&VIEWS, Fact::Declares(2, 9, Declaration::ImmediateConstants { vectors: 1 }));
    (&VIEWS, Fact::Declares(3, 15, Declaration::ImmediateConstants { vectors: 1 }));
    (&VIEWS, Fact::Constant(8, 3, 4));
    (&VIEWS, Fact::Constant(8, 4, 5));
    (&SWITCHES, Fact::Sizes(27, 0, 11));
    (&SWITCHES, Fact::Previous(1, None));
    (&SWITCHES, Fact::Previous(3, None));
    (&SWITCHES, Fact::Previous(4, None));
    (&SWITCHES, Fact::Previous(6, None));
    (&SWITCHES, Fact::Previous(7, Some(1)));
    (&SWITCHES, Fact::Previous(8, None));
};

/// The operand with that number, at most 4, of an instruction.
fn operand(instruction: &Instruction, k: u32) -> Argument {
    match k {
        0 => instruction.o0,
        1 => instruction.o1,
        2 => instruction.o2,
        3 => instruction.o3,
        _ => instruction.o4,
    }
}

fn sizes(program: &Program) -> (u32, u32, u32) {
    (
        program.words(),
        program.declarations(),
        program.instructions(),
    )
}

/// The place, length, opcode, controls and count of operands of an instruction.
fn head(i: Instruction) -> (u32, u8, u32, u32, u8) {
    (i.place, i.length, i.code, i.controls, i.count)
}

/// Whether a program has what is known of it.
fn holds(program: &Program, fact: Fact) -> bool {
    match fact {
        Fact::Sizes(words, declarations, instructions) => sizes(program)
            == (words, declarations, instructions),
        Fact::Declares(i, place, what) => {
            i < program.declarations() && program.declaration(i) == Declared { place, what }
        }
        Fact::Head(i, place, length, code, controls, count) => {
            i < program.instructions()
                && head(program.instruction(i)) == (place, length, code, controls, count)
        }
        Fact::Operand(i, k, want) => i < program.instructions()
            && operand(&program.instruction(i), k) == want,
        Fact::Has(temps, threads) => program.temps() == temps && program.threads() == threads,
        Fact::Constant(words, i, word) => program.icb_words() == words
            && i < words
            && program.icb_word(i) == word,
        Fact::Previous(i, before) => i < program.instructions()
            && program.previous_case(i) == before,
    }
}

#[test]
fn programs_are_read(rt: HostRuntime) -> Result<(), Fail> {
    for (i, (words, fact)) in FACTS.iter().enumerate() {
        let program = read_words(&rt, rt.alloc(), words)??;
        assert!(rt; holds(&program, *fact), "row {i}");
    }
    Ok(())
}

/// What `read_into` answers of words, and the room and the sizes then.
fn read_words_into(
    rt: &impl Abort,
    alloc: Global,
    program: &mut Program,
    words: &[u32],
) -> Result<(Result<(), Refusal>, u32, (u32, u32, u32)), AllocError> {
    let bytes = bytes_of(alloc, &[], words)?;
    are_words(rt, bytes.as_slice());
    assert!(rt; word_at(bytes.as_slice(), 1) <= program.room());
    let answer = read_into(program, bytes.as_slice());
    Ok((answer, program.room(), sizes(program)))
}

/// `SUM`, what is refused, since an immediate is a destination, and `SUM` again, into one program.
fn is_read_into(rt: &impl Abort, alloc: Global, program: &mut Program) -> Result<(), AllocError> {
    let mut broken = SUM;
    broken[18] = 0x00004012;
    for (words, want) in rows! {
        (SUM, (Ok(()), 64, (25, 3, 3)));
        (broken, (Err(refusal(Rule::K7, 18)), 64, (0, 0, 0)));
        (SUM, (Ok(()), 64, (25, 3, 3)));
    } {
        assert_eq!(rt; read_words_into(rt, alloc, program, &words)?, want);
    }
    assert!(rt; holds(program, Fact::Head(2, 24, 1, 62, 0, 0)));
    Ok(())
}

#[test]
fn reads_into_one_program(rt: HostRuntime) -> Result<(), Fail> {
    let mut program = Program::make(rt.alloc(), 64)?;
    assert_eq!(rt; (program.room(), sizes(&program)), (64, (0, 0, 0)));
    Ok(is_read_into(&rt, rt.alloc(), &mut program)?)
}

/// The words are refused by this rule at this place.
fn refuses(
    rt: &impl Abort,
    alloc: Global,
    words: &[u32],
    rule: Rule,
    place: u32,
) -> Result<(), AllocError> {
    let answer = read_words(rt, alloc, words)?.err();
    assert_eq!(rt;
        answer,
        Some(Halt::Refused(refusal(rule, place))),
        "{words:?}"
    );
    Ok(())
}

/// Words of `SUM` that are others, each by its place, and the rule with its place that refuses them.
const OTHERS: &[(usize, u32, Rule, u32)] = &rows! {
    (0, 0x00050051, Rule::K1, 0); // another version
    (2, 0x0100186A, Rule::K15, 2); // a flag of doubles
    (17, 0x0700201E, Rule::K12, 17); // a saturated sum
    (18, 0x00004012, Rule::K7, 18); // an immediate as a destination
};

/// A word is missing of a move; the token behind it has too many words, an unknown opcode, a wrong class, or is sound;
/// or nothing follows. The length of the program, the token of the move, the register that it reads, the next token, and
/// the rule with its place.
const CUT_MOVES: &[(u32, u32, u32, u32, Rule, u32)] = &rows! {
    (14, 0x04000036, 0, 0, Rule::K3, 12);
    (14, 0x04000036, 0, 0x01000000, Rule::K4, 12);
    (14, 0x04000036, 0, 0x00002035, Rule::K11, 12);
    (14, 0x04000036, 0, 0x0100003A, Rule::K11, 12);
    (12, 0x04000036, 0, 0x0100003A, Rule::K11, 12);
    (12, 0x03000036, 0x1A, 0x0100003A, Rule::K3, 11);
    (15, 0x03000036, 0x1A, 0x0100003A, Rule::K2, 1);
};

/// A straight line with a wrong opcode in place of `mov`, in front of a store.
const WRONG_MOVE: [u32; 36] = [
    0x00050050, 36, 0x0100086A, 0x02000068, 1, 0x0400009F, 0x0011F000, 0, 8, 0x0400009B, 1, 1, 1,
    0x08000000, 0x00100032, 0, 0x00004002, 3, 4, 0, 0, 0x0700001E, 0x00100012, 0, 0x0010000A, 0,
    0x0010001A, 0, 0x070000A6, 0x0011F032, 0, 0x00004001, 0, 0x00100046, 0, 0x0100003E,
];

/// Words, and the rule with its place that refuses them.
const BROKEN: &[(&[u32], Rule, u32)] = &rows! {
    // A negated source of a move.
    (&[0x00050050, 15, 0x02000068, 1, 0x0400009B, 1, 1, 1, 0x06000036, 0x00100012, 0, 0x8010001A, 65, 0, 0x0100003E], Rule::K10, 12);
    (&[0x00050050, 7, 0x0400009B, 1, 1, 1, 0x0200003E], Rule::K3, 6); // a last word that is too long
    (&[0x00050050, 7, 0x0400009B, 1, 1, 1, 0x01000000], Rule::K4, 6); // or of an opcode outside the profile
    (&WRONG_MOVE, Rule::K4, 13);
};

#[test]
fn names_the_first_broken_rule(rt: HostRuntime) -> Result<(), Fail> {
    for (at, word, rule, place) in OTHERS {
        let mut words = SUM;
        assert!(rt; *at < 25);
        words[*at] = *word;
        refuses(&rt, rt.alloc(), &words, *rule, *place)?;
    }
    for (length, head, slot, next, rule, place) in CUT_MOVES {
        let words = [
            0x00050050, *length, 0x02000068, 1, 0x0400009B, 1, 1, 1, *head, 0x00100012, *slot,
            0x0010000A, *next, 0x0100003E,
        ];
        refuses(&rt, rt.alloc(), &words, *rule, *place)?;
    }
    for (words, rule, place) in BROKEN {
        refuses(&rt, rt.alloc(), words, *rule, *place)?;
    }
    // A saturated move to null.
    let mut words = NULLS;
    words[7] = 0x04002036;
    refuses(&rt, rt.alloc(), &words, Rule::K12, 7)?;
    Ok(())
}
