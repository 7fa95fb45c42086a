//! Rows on the top call: what is asked of it over an input, and what it should leave.

use crate::{Status, run};
use dxbc_container::build;
use outside::{Desk, MemoryDesk, MemorySink, QuietDesk, QuietSink, Sink, Words};
use std::alloc::{AllocError, Global};
use std::test::Fail;
use word_base::NoMemory;

/// A table: its rows, one behind the other.
macro_rules! rows {
    ($($row:expr;)*) => { [$($row),*] };
}

/// The words of a program behind its head, so many times each.
type Parts<'a> = &'a [(&'a [u32], usize)];

/// What becomes of a container: bytes come to stand at a place, or it is cut or goes on with zeros.
#[derive(Clone, Copy)]
enum Change<'a> {
    Put(usize, &'a [u8]),
    Size(usize),
}

/// The file `b`: a text, or a root signature in a container that is changed.
#[derive(Clone, Copy)]
enum File<'a> {
    Text(&'a str),
    Signed(Change<'a>),
}

/// What should stand on a stream or in an output: so many bytes, or these from that place on.
#[derive(Clone, Copy)]
enum Want<'a> {
    Count(usize),
    At(usize, &'a [u8]),
}

/// A program and what becomes of its container; the file `b`; the words; the failing calls of desk, output and stream of
/// errors, from 1; the status with what should stand on the stream and in the first output; and what the line says.
type Case<'a> = (
    Parts<'a>,
    Change<'a>,
    File<'a>,
    &'a str,
    [&'a [u64]; 3],
    (Status, Want<'a>, Want<'a>),
    &'a str,
);

const WHOLE: Change = Change::Put(0, b"");

const NONE: File = File::Text("");

const U0: File = File::Text("u0 1 4\n");

const NOTHING: Want = Want::Count(0);
/// A module of SPIR-V 1.3.
const MODULE: Want = Want::At(0, &[3, 2, 0x23, 7, 0, 3, 1, 0]);

const DONE: (Status, Want, Want) = (Status::Ok, MODULE, NOTHING);

const SAVED: (Status, Want, Want) = (Status::Ok, NOTHING, MODULE);

const REFUSED: (Status, Want, Want) = (Status::Refused, NOTHING, NOTHING);

const USAGE: (Status, Want, Want) = (Status::Usage, NOTHING, NOTHING);

const FAULT: (Status, Want, Want) = (Status::Fault, NOTHING, NOTHING);

const NEVER: [&[u64]; 3] = [&[], &[], &[]];

/// A group of one lane and `ret`; a store of four words to u0.
const LANE: Parts = &rows! { (&[0x0400009B, 1, 1, 1, 0x0100003E], 1); };

const STORE: Parts = &rows! {
    (&[0x0300009D, 0x0011E000, 0, 0x0400009B, 1, 1, 1, 0x0A0000A6, 0x0011E0F2, 0, 0x4001, 8, 0x4002, 1, 2, 3, 4, 0x0100003E], 1);
};
/// The longest program but for `nop`: 9,360 stores to a word of shared memory.
const SHARED: (&[u32], usize) = (&[0x0400009F, 0x0011F000, 0, 4, 0x0400009B, 1, 1, 1], 1);

const STORES: (&[u32], usize) = (&[0x070000A6, 0x0011F012, 0, 0x4001, 0, 0x4001, 1], 9360);

const RET: (&[u32], usize) = (&[0x0100003E], 1);
/// The number of a lane in its group, and a group of one lane.
const LOCAL: (&[u32], usize) = (&[0x0200005F, 0x00024000, 0x0400009B, 1, 1, 1], 1);

/// Root constants of two words for cb0, a table with t0, and u0.
const SIGNATURE: [u32; 29] = [
    2, 3, 24, 0, 0, 0, 1, 0, 60, 0, 0, 72, 4, 0, 104, 0, 0, 2, 1, 80, 0, 1, 0, 0, 0, 0, 0, 0, 0,
];

const CASES: &[Case] = &rows! {
    (STORE, WHOLE, NONE, "", NEVER, DONE, "");
    (STORE, WHOLE, NONE, "-", NEVER, DONE, "");
    (STORE, WHOLE, NONE, "container", NEVER, DONE, "");
    (STORE, WHOLE, NONE, "-x dxbc-tpf -b spirv-binary --spirv-version 1.3", NEVER, DONE, "");
    (STORE, WHOLE, NONE, "-o m", NEVER, SAVED, "");
    (STORE, WHOLE, NONE, "-o m container", NEVER, SAVED, "");
    (STORE, WHOLE, NONE, "a b", NEVER, USAGE, "wrong words");
    (STORE, WHOLE, NONE, "-o", NEVER, USAGE, "wrong words");
    (STORE, WHOLE, NONE, "-b dxil", NEVER, USAGE, "wrong words");
    (STORE, WHOLE, NONE, "--spirv-version 1.5", NEVER, USAGE, "wrong words");
    (STORE, WHOLE, NONE, "--bindings b --root-signature b b", NEVER, USAGE, "wrong words");
    (STORE, WHOLE, NONE, "a b", [&[], &[], &[1]], USAGE, "");
    (STORE, WHOLE, NONE, "x", NEVER, FAULT, "outside fault");
    (STORE, WHOLE, NONE, "--bindings c", NEVER, FAULT, "outside fault");
    (STORE, WHOLE, U0, "--bindings b", [&[1], &[], &[]], FAULT, "outside fault");
    (STORE, WHOLE, U0, "--bindings b", [&[2], &[], &[]], FAULT, "outside fault");
    (STORE, WHOLE, U0, "--bindings b", [&[3], &[], &[]], FAULT, "outside fault");
    (STORE, WHOLE, U0, "--bindings b", [&[4], &[], &[]], FAULT, "outside fault");
    (STORE, WHOLE, U0, "--bindings b", [&[5], &[], &[]], FAULT, "outside fault");
    (STORE, WHOLE, U0, "--bindings b", [&[6], &[], &[]], FAULT, "outside fault");
    (STORE, WHOLE, NONE, "-o m", [&[4], &[], &[]], FAULT, "outside fault");
    (STORE, WHOLE, NONE, "-o m", [&[5], &[], &[]], FAULT, "outside fault");
    (STORE, WHOLE, NONE, "", [&[], &[1], &[]], FAULT, "outside fault");
    (STORE, WHOLE, NONE, "", [&[], &[1], &[1]], FAULT, "");
    (STORE, WHOLE, File::Text("u0 1\n"), "--bindings b", [&[], &[], &[1]], REFUSED, "");
    // Bytes of the module: its entry point, its version, the interface of its entry point with the variable of u0 in 1.4, that variable, and its set and binding.
    (STORE, WHOLE, NONE, "", NEVER, (Status::Ok, Want::At(64, &[15, 0, 5, 0]), NOTHING), "");
    (STORE, WHOLE, NONE, "--spirv-version 1.4", NEVER, (Status::Ok, Want::At(4, &[0, 4, 1, 0]), NOTHING), "");
    (STORE, WHOLE, NONE, "--spirv-version 1.4", NEVER, (Status::Ok, Want::At(84, &[25, 0, 0, 0]), NOTHING), "");
    (STORE, WHOLE, NONE, "--spirv-version 1.4", NEVER, (Status::Ok, Want::At(544, &[59, 0, 4, 0, 24, 0, 0, 0, 25, 0, 0, 0, 12, 0, 0, 0]), NOTHING), "");
    (STORE, WHOLE, U0, "--bindings b", NEVER, (Status::Ok, Want::At(156, &[71, 0, 4, 0, 25, 0, 0, 0, 34, 0, 0, 0, 1, 0, 0, 0]), NOTHING), "");
    (STORE, WHOLE, U0, "--bindings b", NEVER, (Status::Ok, Want::At(172, &[71, 0, 4, 0, 25, 0, 0, 0, 33, 0, 0, 0, 4, 0, 0, 0]), NOTHING), "");
    (STORE, WHOLE, File::Text("# a\nu0 1 4\n"), "--bindings b", NEVER, DONE, "");
    (STORE, WHOLE, File::Text("u0 1 4\nt0 1 4\n"), "--bindings b", NEVER, REFUSED, "B2 at 2: binding given twice");
    (STORE, WHOLE, File::Text("u0 1\n"), "--bindings b", NEVER, REFUSED, "B3 at 1: binding line not read");
    (STORE, WHOLE, File::Text("t0 0 0\n"), "--bindings b", NEVER, DONE, "");
    (STORE, WHOLE, File::Text(""), "--bindings b", NEVER, DONE, "");
    (STORE, WHOLE, File::Signed(WHOLE), "--root-signature b", NEVER, DONE, "");
    (STORE, WHOLE, File::Signed(Change::Put(44, &[3])), "--root-signature b", NEVER, REFUSED, "G1 at 0: wrong root signature version");
    (STORE, WHOLE, File::Signed(Change::Put(112, &[65])), "--root-signature b", NEVER, REFUSED, "G5 at 60: too many root constants");
    (STORE, WHOLE, File::Signed(Change::Put(52, &[0xFC, 255, 255, 255])), "--root-signature b", NEVER, REFUSED, "G2 at 4294967292: root signature truncated");
    (STORE, WHOLE, File::Signed(Change::Put(36, b"SHEX")), "--root-signature b", NEVER, REFUSED, "G6 at 0: no root signature");
    // A broken rule of each phase, one of them also where the file `b` breaks one.
    (LANE, Change::Put(4, &[0xAB]), NONE, "", NEVER, DONE, "");
    (LANE, Change::Size(0), NONE, "", NEVER, REFUSED, "C1 at 0: container shorter than 32 bytes");
    (LANE, Change::Size(16_777_217), NONE, "", NEVER, REFUSED, "M1 at 16777216: file too large");
    (LANE, Change::Put(24, &[73]), NONE, "", NEVER, REFUSED, "C4 at 24: wrong total size");
    (LANE, Change::Put(51, &[255]), NONE, "", NEVER, REFUSED, "K2 at 1: wrong program length");
    (LANE, Change::Put(68, &[0]), NONE, "", NEVER, REFUSED, "K4 at 6: opcode outside the profile");
    (LANE, Change::Put(68, &[0]), File::Text("u0 1\n"), "--bindings b", NEVER, REFUSED, "K4 at 6: opcode outside the profile");
    (LANE, Change::Put(68, &[0]), NONE, "--root-signature b", NEVER, REFUSED, "K4 at 6: opcode outside the profile");
    (LANE, Change::Put(55, &[0x84]), NONE, "", NEVER, REFUSED, "K5 at 3: extended opcode outside the profile");
    (&[(&[0x0400009B, 1, 1, 1, 0x05000036, 0x00100012, 0, 0x00004001, 7, 0x0100003E], 1)], WHOLE, NONE, "", NEVER, REFUSED, "L5 at 6: used but not declared");
    (&[(&[0x04000059, 0x00208E46, 0, 1, 0x0400009B, 1, 1, 1, 0x0100003E], 1)], WHOLE, File::Text("t0 0 0\n"), "--bindings b", NEVER, REFUSED, "B1 at 2: register without binding");
    // As many openings as may stand in one another and one more, and the longest program, also written in part, and one with a word more.
    (&[LOCAL, (&[0x0204001F, 0x0002400A], 64), (&[0x01000015], 64), RET], WHOLE, NONE, "", NEVER, DONE, "");
    (&[LOCAL, (&[0x0204001F, 0x0002400A], 65), (&[0x01000015], 65), RET], WHOLE, NONE, "", NEVER, REFUSED, "M3 at 136: nesting too deep");
    (&[SHARED, STORES, (&[0x0100003A], 5), RET], WHOLE, NONE, "", NEVER, DONE, "");
    (&[SHARED, STORES, (&[0x0100003A], 5), RET], WHOLE, NONE, "", [&[], &[3], &[]], (Status::Fault, Want::Count(8192), NOTHING), "outside fault");
    (&[SHARED, STORES, (&[0x0100003A], 6), RET], WHOLE, NONE, "", NEVER, REFUSED, "M2 at 1: program too long");
};

/// Whether bytes are as wanted.
fn fits(bytes: &[u8], want: Want) -> bool {
    match want {
        Want::Count(count) => bytes.len() == count,
        Want::At(place, there) => bytes.get(place..).unwrap_or(&[]).starts_with(there),
    }
}

/// Whether the stream of errors has this line alone, or nothing where it is empty.
fn tells(bytes: &[u8], line: &str) -> bool {
    let rest = bytes.strip_prefix(b"vkd3d-compiler: ").unwrap_or(bytes);
    rest.strip_suffix(b"\n").unwrap_or(rest) == line.as_bytes()
}

/// Changes the bytes of a container, as far as they go.
fn alter(bytes: &mut Vec<u8>, change: Change) -> Result<(), NoMemory> {
    match change {
        Change::Size(size) => bytes.resize(size, 0).map_err(|_| NoMemory)?,
        Change::Put(place, new) => {
            for (old, byte) in bytes.iter_mut().skip(place).zip(new) {
                *old = *byte;
            }
        }
    }
    Ok(())
}

/// The words of a program.
fn tokens(alloc: Global, parts: Parts) -> Result<Vec<u32>, AllocError> {
    let mut tokens = Vec::from_slice(alloc, &[0x00050050, 2])?;
    for (words, count) in parts {
        for _ in 0..*count {
            tokens.extend_from_slice(words)?;
        }
    }
    Ok(tokens)
}

/// The container of a program, changed.
fn container(alloc: Global, parts: Parts, changed: Change) -> Result<Vec<u8>, NoMemory> {
    let tokens = tokens(alloc, parts).map_err(|_| NoMemory)?;
    let size = tokens.len().min(100_000);
    let mut bytes = build(alloc, &tokens[..size])?;
    alter(&mut bytes, Change::Put(48, &(size as u32).to_le_bytes()))?;
    alter(&mut bytes, changed)?;
    Ok(bytes)
}

/// The bytes of the file `b`.
fn file_of(alloc: Global, file: File) -> Result<Vec<u8>, NoMemory> {
    match file {
        File::Text(text) => Vec::from_slice(alloc, text.as_bytes()).map_err(|_| NoMemory),
        File::Signed(changed) => {
            let mut bytes = build(alloc, &SIGNATURE)?;
            alter(&mut bytes, Change::Put(36, b"RTS0"))?;
            alter(&mut bytes, changed)?;
            Ok(bytes)
        }
    }
}

/// The words of a command line, which spaces part.
fn words(alloc: Global, line: &str) -> Result<Words, AllocError> {
    let mut list = Vec::new(alloc);
    for word in line.split_whitespace() {
        list.push(String::from_str(alloc, word)?)?;
    }
    Ok(Words { list })
}

/// The status of a run.
fn status<D: Desk, O: Sink, E: Sink>(
    alloc: Global,
    line: &str,
    desk: &mut D,
    out: &mut O,
    err: &mut E,
) -> Result<Status, NoMemory> {
    let words = words(alloc, line).map_err(|_| NoMemory)?;
    Ok(run(alloc, &words, desk, out, err))
}

/// A sink for so many bytes, with its failing calls.
fn sink(alloc: Global, room: u32, calls: &[u64]) -> Result<MemorySink, NoMemory> {
    let calls = Vec::from_slice(alloc, calls).map_err(|_| NoMemory)?;
    MemorySink::make(alloc, room, calls)
}

/// A desk with its failing calls.
fn desk(alloc: Global, calls: &[u64]) -> Result<MemoryDesk, NoMemory> {
    let calls = Vec::from_slice(alloc, calls).map_err(|_| NoMemory)?;
    MemoryDesk::make(alloc, 2, 10_000, calls)
}

/// Gives a desk its files: the input under two names, and `b`.
fn put(desk: &mut MemoryDesk, input: &[u8], file: &[u8]) -> Result<(), NoMemory> {
    desk.add("-", input)?;
    desk.add("container", input)?;
    desk.add("b", file)
}

/// The bytes of the output that was begun first, or none.
fn first_output(desk: &MemoryDesk) -> &[u8] {
    match desk.outputs() {
        0 => &[],
        _ => desk.output(0),
    }
}

/// Whether a run over a desk leaves what a case says.
fn leaves(alloc: Global, desk: &mut MemoryDesk, case: &Case) -> Result<bool, NoMemory> {
    let mut out = sink(alloc, 10_000_000, case.4[1])?;
    let mut err = sink(alloc, 1000, case.4[2])?;
    let status = status(alloc, case.3, desk, &mut out, &mut err)?;
    let written = fits(out.bytes(), case.5.1) && fits(first_output(desk), case.5.2);
    Ok(status == case.5.0 && written && tells(err.bytes(), case.6))
}

/// Whether a run over its files does.
fn passes(alloc: Global, case: &Case) -> Result<bool, NoMemory> {
    let mut desk = desk(alloc, case.4[0])?;
    let (input, file) = (container(alloc, case.0, case.1)?, file_of(alloc, case.2)?);
    put(&mut desk, &input, &file)?;
    leaves(alloc, &mut desk, case)
}

#[test]
fn cases(rt: HostRuntime) -> Result<(), Fail> {
    for case in CASES {
        assert!(rt; passes(rt.alloc(), case)?, "{} {}", case.3, case.6);
    }
    Ok(())
}

/// Runs over a desk and sinks that never fail.
#[test]
fn quiet_ones(rt: HostRuntime) -> Result<(), Fail> {
    let mut desk = QuietDesk::make(container(rt.alloc(), STORE, WHOLE)?);
    for (line, end) in [("-o m", Status::Ok), ("-p", Status::Usage)] {
        let (mut out, mut err) = (QuietSink::make(), QuietSink::make());
        let left = status(rt.alloc(), line, &mut desk, &mut out, &mut err)?;
        assert_eq!(rt; left, end);
    }
    Ok(())
}
