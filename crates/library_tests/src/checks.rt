//! The rules on declarations, uses and structure.
use crate::reading::{program, refusal};
use shader_check::check;
use std::alloc::{AllocError, Global};
use std::process::Abort;
use std::test::Fail;
use word_base::{Refusal, Rule};

/// `dcl_tgsm_raw g0, 32768`, `dcl_temps 4096`, a group of 1024 threads, `mov r4095.x, l(7)`,
/// `store_raw g0.x, l(0), r4095.x` and `ret`.
const MOST: [u32; 23] = [
    0x0400009F, 0x0011F000, 0, 32768, 0x02000068, 4096, 0x0400009B, 16, 1, 64, 0x05000036,
    0x00100012, 4095, 0x00004001, 7, 0x070000A6, 0x0011F012, 0, 0x00004001, 0, 0x0010000A, 4095,
    0x0100003E,
];

/// Two switches, one after the other, each with a default.
const TWO_DEFAULTS: [u32; 17] = [
    0x0400009B, 1, 1, 1, 0x0300004C, 0x00004001, 1, 0x0100000A, 0x01000002, 0x01000017, 0x0300004C,
    0x00004001, 1, 0x0100000A, 0x01000002, 0x01000017, 0x0100003E,
];

/// A read from t0, which is declared with structures of four bytes, as from a raw view.
const OTHER_VIEW: [u32; 28] = [
    0x040000A2, 0x00107000, 0, 4, 0x0300009D, 0x0011E000, 0, 0x02000068, 1, 0x0400009B, 1, 1, 1,
    0x070000A5, 0x001000F2, 0, 0x00004001, 0xFFFFFFFC, 0x00107E46, 0, 0x070000A6, 0x0011E0F2, 0,
    0x00004001, 0, 0x00100E46, 0, 0x0100003E,
];

/// A switch whose two cases have the value 1.
const CASE_TWICE: [u32; 17] = [
    0x0400009B, 1, 1, 1, 0x0300004C, 0x00004001, 1, 0x03000006, 0x00004001, 1, 0x01000002,
    0x03000006, 0x00004001, 1, 0x01000002, 0x01000017, 0x0100003E,
];

/// The words of programs behind their heads, and the first rule that each breaks, with its place.
const BROKEN: &[(&[u32], Rule, u32)] = &rows! {
    (&[0x0100003E], Rule::L4, 3);
    // `mov r0.x, l(7)` without registers, `mov r1.x, l(7)` with one, `mov x0[r0.x].x, l(7)` with x0 alone.
    (&[0x0400009B, 1, 1, 1, 0x05000036, 0x00100012, 0, 0x00004001, 7, 0x0100003E], Rule::L5, 6);
    (&[0x02000068, 1, 0x0400009B, 1, 1, 1, 0x05000036, 0x00100012, 1, 0x00004001, 7, 0x0100003E], Rule::L6, 8);
    (&[0x04000069, 0, 1, 4, 0x0400009B, 1, 1, 1, 0x07000036, 0x04203012, 0, 0x0010000A, 0, 0x00004001, 7, 0x0100003E], Rule::L5, 10);
    (&[0x0400009B, 1, 1, 1, 0x0400009B, 1, 1, 1, 0x0100003E], Rule::L1, 6);
    (&[0x0400009B, 0x400, 2, 1, 0x0100003E], Rule::L3, 2);
    (&[0x0400009E, 0x0011E000, 0, 6, 0x0100003E], Rule::L7, 2);
    (&[0x0400009E, 0x0011E000, 64, 6, 0x0100003E], Rule::L3, 2);
    (&[0x02000068, 4000, 0x04000069, 0, 97, 4, 0x0100003E], Rule::L3, 4);
    (&[0x0400009B, 1, 1, 1, 0x0100003A, 0x02000068, 1, 0x0100003E], Rule::L2, 7);
    (&OTHER_VIEW, Rule::L8, 15);
    (&[0x0400009B, 1, 1, 1], Rule::S9, 6);
    (&[0x0400009B, 1, 1, 1, 0x01000015], Rule::S1, 6);
    (&[0x0400009B, 1, 1, 1, 0x01000030], Rule::S2, 6);
    (&CASE_TWICE, Rule::S7, 13);
    // `loop` directly in a switch before its first case.
    (&[0x0400009B, 1, 1, 1, 0x0300004C, 0x00004001, 1, 0x01000030, 0x01000016, 0x01000017, 0x0100003E], Rule::S8, 9);
};

/// The words of programs that break no rule.
const SOUND: &[&[u32]] = &rows! {
    &[0x0400009B, 1, 1, 1, 0x0100003E];
    &MOST;
    &TWO_DEFAULTS;
};

/// What `check` answers of a program.
fn answer(rt: &impl Abort, alloc: Global, words: &[u32]) -> Result<Result<(), Refusal>, Fail> {
    let program = program(rt, alloc, words)?;
    Ok(check(&program))
}

/// The words of so many `if` on the thread's number, each in the one before it, of so many `endif`, and
/// of `ret` where it is wanted.
fn nested(alloc: Global, openings: u32, ends: u32, returns: bool) -> Result<Vec<u32>, AllocError> {
    let mut words = Vec::from_slice(alloc, &[0x0200005F, 0x00024000, 0x0400009B, 1, 1, 1])?;
    for _ in 0..openings {
        words.extend_from_slice(&[0x0204001F, 0x0002400A])?;
    }
    for _ in 0..ends {
        words.push(0x01000015)?;
    }
    if returns {
        words.push(0x0100003E)?;
    }
    Ok(words)
}

#[test]
fn names_the_first_broken_rule(rt: HostRuntime) -> Result<(), Fail> {
    for (words, rule, place) in BROKEN {
        let want = Err(refusal(*rule, *place));
        assert_eq!(rt; answer(&rt, rt.alloc(), words)?, want, "{words:?}");
    }
    for words in SOUND {
        assert_eq!(rt; answer(&rt, rt.alloc(), words)?, Ok(()), "{words:?}");
    }
    for (openings, ends, returns, want) in rows! {
        (64, 64, true, Ok(()));
        (65, 65, true, Err(refusal(Rule::M3, 136)));
        (65, 0, false, Err(refusal(Rule::S9, 136)));
    } {
        let words = nested(rt.alloc(), openings, ends, returns)?;
        assert_eq!(rt; answer(&rt, rt.alloc(), words.as_slice())?, want);
    }
    Ok(())
}
