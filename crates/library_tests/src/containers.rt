//! Chunks of containers.
use crate::reading::{SMALLEST as TOKENS, refusal};
use dxbc_container::{Slice, build, chunks, shex, sole};
use std::test::Fail;
use word_base::{Refusal, Rule};

/// A container of 72 bytes, whose program declares a thread group of one thread and returns.
const SMALLEST: [u8; 72] = [
    0x44, 0x58, 0x42, 0x43, 0, 0, 0, 0, 0, 0, 0, 0, 0, 0, 0, 0, 0, 0, 0, 0, 1, 0, 0, 0, 0x48, 0, 0,
    0, 1, 0, 0, 0, 0x24, 0, 0, 0, 0x53, 0x48, 0x45, 0x58, 0x1C, 0, 0, 0, 0x50, 0, 5, 0, 7, 0, 0, 0,
    0x9B, 0, 0, 4, 1, 0, 0, 0, 1, 0, 0, 0, 1, 0, 0, 0, 0x3E, 0, 0, 1,
];

/// The same chunk, listed twice.
const TWICE: [u8; 76] = [
    0x44, 0x58, 0x42, 0x43, 0, 0, 0, 0, 0, 0, 0, 0, 0, 0, 0, 0, 0, 0, 0, 0, 1, 0, 0, 0, 0x4C, 0, 0,
    0, 2, 0, 0, 0, 0x28, 0, 0, 0, 0x28, 0, 0, 0, 0x53, 0x48, 0x45, 0x58, 0x1C, 0, 0, 0, 0x50, 0, 5,
    0, 7, 0, 0, 0, 0x9B, 0, 0, 4, 1, 0, 0, 0, 1, 0, 0, 0, 1, 0, 0, 0, 0x3E, 0, 0, 1,
];

/// One chunk, which begins in the byte 37.
const UNALIGNED: [u8; 53] = [
    0x44, 0x58, 0x42, 0x43, 0, 0, 0, 0, 0, 0, 0, 0, 0, 0, 0, 0, 0, 0, 0, 0, 1, 0, 0, 0, 0x35, 0, 0,
    0, 1, 0, 0, 0, 0x25, 0, 0, 0, 0, 0x53, 0x48, 0x45, 0x58, 8, 0, 0, 0, 0x50, 0, 5, 0, 2, 0, 0, 0,
];

/// The tag `SHEX`.
const SHEX: u32 = 0x58454853;

/// The tag `RTS0`, which no chunk here has.
const RTS0: u32 = 0x30535452;

/// The smallest container with two of its words changed, those that it has.
fn changed(first: (usize, u32), second: (usize, u32)) -> [u8; 72] {
    let mut bytes = SMALLEST;
    for (at, word) in [first, second] {
        if at <= 68 {
            bytes[at..at + 4].copy_from_slice(&word.to_le_bytes());
        }
    }
    bytes
}

/// What is refused of a container of so many bytes, at most 71, as it is and where it says its size.
fn of_cut(size: usize) -> (Refusal, Refusal) {
    match size {
        0..=31 => (refusal(Rule::C1, 0), refusal(Rule::C1, 0)),
        32..=35 => (refusal(Rule::C4, 24), refusal(Rule::C5, 28)),
        _ => (refusal(Rule::C4, 24), refusal(Rule::C6, 32)),
    }
}

#[test]
fn cut_containers_are_refused(rt: HostRuntime) {
    for size in 0..72 {
        let (plain, patched) = of_cut(size);
        assert_eq!(rt; shex(&SMALLEST[..size]), Err(plain), "{size} bytes");
        let bytes = changed((24, size as u32), (24, size as u32));
        assert_eq!(rt; shex(&bytes[..size]), Err(patched), "{size} bytes patched");
    }
}

#[test]
fn broken_rules_have_their_places(rt: HostRuntime) {
    let none = (72, 0);
    for (first, second, want) in rows! {
        ((0, 0x44584243), none, refusal(Rule::C2, 0));
        ((20, 2), none, refusal(Rule::C3, 20));
        ((24, 31), none, refusal(Rule::C4, 24));
        ((24, 0xFFFFFFFF), none, refusal(Rule::C4, 24));
        ((28, 0xFFFFFFFF), none, refusal(Rule::C5, 28));
        ((28, 11), none, refusal(Rule::C5, 28));
        ((32, 0xFFFFFFF8), none, refusal(Rule::C6, 32));
        ((32, 65), none, refusal(Rule::C6, 32));
        ((40, 0xFFFFFFFF), none, refusal(Rule::C6, 32));
        ((40, 29), none, refusal(Rule::C6, 32));
        ((28, 0), none, refusal(Rule::C7, 28));
        ((36, RTS0), none, refusal(Rule::C7, 28));
        ((40, 26), none, refusal(Rule::C9, 32));
        ((40, 4), none, refusal(Rule::C9, 32));
        ((24, 0), (20, 0), refusal(Rule::C3, 20));
        ((20, 0), (0, 0), refusal(Rule::C2, 0));
        ((28, 11), (24, 73), refusal(Rule::C4, 24));
        ((32, 66), (28, 11), refusal(Rule::C5, 28));
        ((36, RTS0), (40, 29), refusal(Rule::C6, 32));
        ((40, 26), (36, RTS0), refusal(Rule::C7, 28));
    } {
        assert_eq!(rt; shex(&changed(first, second)), Err(want), "{want:?}");
    }
}

/// A chunk listed twice, one in an odd place, a tag that is not there, and what is read over: checksum and tail.
#[test]
fn chunks_stand_anywhere_and_once(rt: HostRuntime) {
    let twice = Err(refusal(Rule::C8, 36));
    assert_eq!(rt; chunks(&TWICE), Ok(2));
    let mut sized = TWICE;
    sized[44] = 26;
    let mut bytes = [9; 75];
    bytes[..72].copy_from_slice(&changed((4, 0x12345678), (16, 0xFFFFFFFF)));
    let part = Slice {
        start: 44,
        size: 28,
    };
    for (got, want) in rows! {
        (sole(&TWICE, SHEX), twice);
        (shex(&sized), twice);
        (shex(&UNALIGNED), Ok(Slice { start: 45, size: 8 }));
        (sole(&TWICE, RTS0), Err(refusal(Rule::C7, 28)));
        (shex(&bytes), Ok(part));
        (sole(&bytes, SHEX), Ok(part));
    } {
        assert_eq!(rt; got, want);
    }
}

#[test]
fn built_container_gives_its_tokens_back(rt: HostRuntime) -> Result<(), Fail> {
    let bytes = build(rt.alloc(), &TOKENS)?;
    assert_eq!(rt; bytes.as_slice(), SMALLEST.as_slice());
    assert_eq!(rt;
        shex(bytes.as_slice()),
        Ok(Slice {
            start: 44,
            size: 28
        })
    );
    Ok(())
}
