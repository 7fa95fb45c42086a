//! Where the registers of programs are bound.
use crate::reading::{bytes_of, program};
use binding_map::{Bindings, Place, Register, complete, from_default, from_root, from_text};
use root_signature::{RootSignature, parse};
use std::alloc::Global;
use std::test::Fail;
use tpf_program::Program;
use word_base::{Halt, NoMemory, Rule};

/// u0 and u1 with structures of four bytes, `imm_atomic_alloc r0.x, u0`, `imm_atomic_consume r0.x, u0` and
/// `atomic_iadd u1, l(0), l(1)`.
const COUNTED: [u32; 26] = [
    0x0480009E, 0x0011E000, 0, 4, 0x0480009E, 0x0011E000, 1, 4, 0x050000B2, 0x00100012, 0,
    0x0011E000, 0, 0x050000B3, 0x00100012, 0, 0x0011E000, 0, 0x070000AD, 0x0011E000, 1, 0x00004001,
    0, 0x00004001, 1, 0x0100003E,
];

/// The last slots of each kind, in another order: u63, t127, cb13, t0, cb2, and `imm_atomic_consume r0.x, u63`.
const LAST_SLOTS: [u32; 24] = [
    0x0480009E, 0x0011E000, 63, 4, 0x030000A1, 0x00107000, 127, 0x04000059, 0x00208E46, 13, 1,
    0x030000A1, 0x00107000, 0, 0x04000059, 0x00208E46, 2, 1, 0x050000B3, 0x00100012, 0, 0x0011E000,
    63, 0x0100003E,
];

/// cb0, t0 and u0 are declared, each with one element, and a group of one thread; and `ret`.
const HISTOGRAM: [u32; 16] = [
    0x04000059, 0x00208E46, 0, 1, 0x040000A2, 0x00107000, 0, 4, 0x0300009D, 0x0011E000, 0,
    0x0400009B, 1, 1, 1, 0x0100003E,
];

/// Two root constants at cb0, a table with a range of one t0, and a descriptor of u0.
const SIGNATURE: [u32; 40] = [
    0x43425844, 0, 0, 0, 0, 1, 160, 1, 36, 0x30535452, 116, 2, 3, 24, 0, 0, 0, 1, 0, 60, 0, 0, 72,
    4, 0, 104, 0, 0, 2, 1, 80, 0, 1, 0, 0, 0, 0, 0, 0, 0,
];

/// A register with its place.
macro_rules! at {
    ($kind:ident $slot:literal, push $first:literal $count:literal) => {
        (Register::$kind($slot), Place::Push { first: $first, count: $count })
    };
    ($kind:ident $slot:literal, $set:literal $binding:literal) => {
        (Register::$kind($slot), Place::Bound { set: $set, binding: $binding })
    };
}

/// Programs, with the entries of their default maps and with registers that these do not have.
const DEFAULTS: &[(&[u32], &[(Register, Place)], &[Register])] = &rows! {
    (&COUNTED, &[at!(Uav 0, 0 0), at!(Uav 1, 0 1), at!(Counter 0, 0 2)], &[Register::Counter(1), Register::Resource(0)]);
    (&LAST_SLOTS, &[
        at!(Constant 2, 0 0), at!(Constant 13, 0 1), at!(Resource 0, 0 2), at!(Resource 127, 0 3), at!(Uav 63, 0 4), at!(Counter 63, 0 5),
    ], &[]);
    (&[0x02000068, 1, 0x0100003E], &[], &[]);
    (&[0x0400009B, 1, 1, 1, 0x0100003E], &[], &[]);
};

/// Whether the map has these entries, in this order, and none of those registers.
fn is_map(bindings: &Bindings, entries: &[(Register, Place)], missing: &[Register]) -> bool {
    let mut same = bindings.len() as usize == entries.len();
    for (i, entry) in entries.iter().enumerate() {
        same = same
            && i < bindings.len() as usize
            && bindings.at(i as u32) == *entry
            && bindings.place_of(entry.0) == Some(entry.1);
    }
    for register in missing {
        same = same && bindings.place_of(*register).is_none();
    }
    same
}

/// Whether the default map of a program has these entries, none of those registers, and all that it must have.
fn is_default(
    alloc: Global,
    program: &Program,
    entries: &[(Register, Place)],
    missing: &[Register],
) -> Result<bool, NoMemory> {
    let bindings = from_default(alloc, program)?;
    Ok(is_map(&bindings, entries, missing) && complete(program, &bindings).is_ok())
}

#[test]
fn default_maps_number_registers(rt: HostRuntime) -> Result<(), Fail> {
    for (words, entries, missing) in DEFAULTS {
        let program = program(&rt, rt.alloc(), words)?;
        assert!(rt;
            is_default(rt.alloc(), &program, entries, missing)?,
            "{words:?}"
        );
    }
    Ok(())
}

/// Texts, the rule that each breaks, at a line; and where it breaks none, how many entries there are.
const TEXTS: &[(&[u8], Option<Rule>, u32)] = &rows! {
    (b"", None, 0);
    (b"# a\nu0 1 4", None, 1);
    (b"u0 1 4\nt0 1 4", Some(Rule::B2), 2);
    (b"u0 1", Some(Rule::B3), 1);
    (b"t0 0 0", None, 1);
    // Places named twice, and push constant words.
    (b"u0 1 4\nu00 1 5\n", Some(Rule::B2), 2);
    (b"u0 1 4\n\n#\nu0 8 4\nx", Some(Rule::B2), 4);
    (b"cb0 push 0 2\ncb1 push 1 1", Some(Rule::B2), 2);
    (b"cb0 push 60 2\ncb1 push 61 9", Some(Rule::B2), 2);
    (b"cb0 push 0 2\ncb1 push 2 62\ncb2 0 2", None, 3);
    // Limits.
    (b"cb13 7 65535\nt127 0 0\nu63 0 1\ncounter63 0 2", None, 4);
    (b"u0 8 0", Some(Rule::B3), 1);
    (b"cb0 push 63 2", Some(Rule::B3), 1);
    (b"cb0 push 0 0", Some(Rule::B3), 1);
    (b"cb0 push 9999999999 9999999999", Some(Rule::B3), 1);
    (b"t128 0 0", Some(Rule::B3), 1);
    (b"counter64 0 0", Some(Rule::B3), 1);
    // Forms.
    (b"u0   0000000001  5\r\nt0 1 6\r\n", None, 2);
    (b"u0 0 0\r", Some(Rule::B3), 1);
    (b"u0 0 0\n \n", Some(Rule::B3), 2);
    (b" u0 0 0", Some(Rule::B3), 1);
    (b"u0 0 0 ", Some(Rule::B3), 1);
    (b"u0\t0 0", Some(Rule::B3), 1);
    (b"u0 0 00000000000", Some(Rule::B3), 1);
    (b"t0 push 0 1", Some(Rule::B3), 1);
    (b"cb0 push 0 1 0", Some(Rule::B3), 1);
    (b"u+1 0 0", Some(Rule::B3), 1);
};

/// The rule that a text breaks, at a line; and where it breaks none, how many entries there are.
fn broken(alloc: Global, bytes: &[u8]) -> (Option<Rule>, u32) {
    match from_text(alloc, &bytes[..bytes.len().min(1000)]) {
        Ok(bindings) => (None, bindings.len()),
        Err(Halt::Refused(refusal)) => (Some(refusal.rule), refusal.place),
        Err(Halt::NoMemory) => (None, 999),
    }
}

#[test]
fn texts_give_maps(rt: HostRuntime) -> Result<(), Fail> {
    for (bytes, rule, place) in TEXTS {
        assert_eq!(rt; broken(rt.alloc(), bytes), (*rule, *place), "{bytes:?}");
    }
    let bindings = from_text(
        rt.alloc(),
        b"counter7 7 9\ncb2 push 3 61\ncb1 0 0\nt100 0 1\n",
    )?;
    let entries = rows! {
        at!(Counter 7, 7 9);
        at!(Constant 2, push 3 61);
        at!(Constant 1, 0 0);
        at!(Resource 100, 0 1);
    };
    assert!(rt; is_map(&bindings, &entries, &[]));
    Ok(())
}

/// Whether the map of a root signature for a program has these entries.
fn is_root(
    alloc: Global,
    root: &RootSignature,
    program: &Program,
    entries: &[(Register, Place)],
) -> Result<bool, NoMemory> {
    let bindings = from_root(alloc, root, program)?;
    Ok(is_map(&bindings, entries, &[]))
}

#[test]
fn root_signatures_give_maps(rt: HostRuntime) -> Result<(), Fail> {
    let program = program(&rt, rt.alloc(), &HISTOGRAM)?;
    let bytes = bytes_of(rt.alloc(), &[], &SIGNATURE)?;
    let root = parse(rt.alloc(), &bytes[..bytes.len().min(1000)])?;
    let entries = [
        at!(Constant 0, push 0 2),
        at!(Resource 0, 0 0),
        at!(Uav 0, 0 1),
    ];
    assert!(rt; is_root(rt.alloc(), &root, &program, &entries)?);
    Ok(())
}
