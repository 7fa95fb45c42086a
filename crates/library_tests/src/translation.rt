//! Whole translations, in workspaces that are used again.

use crate::reading::{SMALLEST, refusal};
use binding_map::{Bindings, from_text};
use dxbc_container::build;
use spirv_words::Version;
use std::alloc::Global;
use std::test::Fail;
use translator::{ModuleView, Workspace, translate};
use word_base::{NoMemory, Refusal, Rule};

/// `mov r0.x, -r0.y`, where no modifier may stand.
const NEGATED_MOVE: [u32; 15] = [
    0x00050050, 15, 0x02000068, 1, 0x0400009B, 1, 1, 1, 0x06000036, 0x00100012, 0, 0x8010001A, 65,
    0, 0x0100003E,
];

/// The map of a text without a broken rule.
fn map(alloc: Global, text: &[u8]) -> Result<Bindings, NoMemory> {
    from_text(alloc, &text[..text.len().min(100)]).map_err(|_| NoMemory)
}

/// The container of a program of a few words.
fn container(alloc: Global, tokens: &[u32]) -> Result<Vec<u8>, NoMemory> {
    build(alloc, &tokens[..tokens.len().min(200)])
}

/// The words of a module.
fn words_of(alloc: Global, view: &ModuleView) -> Vec<u32> {
    let mut words = Vec::new(alloc);
    for i in 0..view.len() {
        let _ = words.push(view.word(i));
    }
    words
}

/// The words of the module of a container, or its first broken rule.
fn translated(
    work: &mut Workspace,
    alloc: Global,
    bytes: &[u8],
    bindings: &Bindings,
    version: Version,
) -> Result<Vec<u32>, Refusal> {
    let view = translate(work, &bytes[..bytes.len().min(1000)], bindings, version)?;
    Ok(words_of(alloc, &view))
}

/// The first broken rule of a container.
fn broken(
    work: &mut Workspace,
    alloc: Global,
    bytes: &[u8],
    bindings: &Bindings,
    version: Version,
) -> Option<Refusal> {
    translated(work, alloc, bytes, bindings, version).err()
}

/// The first broken rule of a container in a workspace for programs of so many words, and the words of the workspace.
fn broken_in(
    alloc: Global,
    room: u32,
    bytes: &[u8],
    bindings: &Bindings,
) -> Result<(Option<Refusal>, u32), NoMemory> {
    let mut work = Workspace::make(alloc, room.min(1000))?;
    let broken = broken(&mut work, alloc, bytes, bindings, Version::V13);
    Ok((broken, work.words()))
}

/// The same of a program of a few words, under the map of a text.
fn first_broken(
    alloc: Global,
    tokens: &[u32],
    room: u32,
    text: &str,
) -> Result<(Option<Refusal>, u32), NoMemory> {
    let bytes = container(alloc, tokens)?;
    let map = map(alloc, text.as_bytes())?;
    broken_in(alloc, room, &bytes, &map)
}

/// Programs with the room of the workspace, the text of the map and the first broken rule.
const BROKEN: &[(&[u32], u32, &str, Option<(Rule, u32)>)] = &rows! {
    (&SMALLEST, 7, "", None);
    (&SMALLEST, 6, "", Some((Rule::M4, 1)));
    (&NEGATED_MOVE, 15, "", Some((Rule::K10, 12)));
    // Custom data without an end.
    (&[0x00050050, 4, 53, 0xFFFFFFFF], 4, "", Some((Rule::K13, 2)));
    // A case given twice.
    (&[0x00050050, 19, 0x0400009B, 1, 1, 1, 0x0300004C, 0x00004001, 1, 0x03000006, 0x00004001, 1, 0x01000002,
        0x03000006, 0x00004001, 1, 0x01000002, 0x01000017, 0x0100003E], 19, "", Some((Rule::S7, 13)));
    // A constant buffer `cb0` that no instruction uses, without a binding and with one.
    (&[0x00050050, 11, 0x04000059, 0x00208E46, 0, 1, 0x0400009B, 1, 1, 1, 0x0100003E], 11, "", Some((Rule::B1, 2)));
    (&[0x00050050, 11, 0x04000059, 0x00208E46, 0, 1, 0x0400009B, 1, 1, 1, 0x0100003E], 11, "cb0 0 0\n", None);
    // `store_raw u0.x, l(0), l(7)`, under no binding: the view is null.
    (&[0x00050050, 17, 0x0300009D, 0x0011E000, 0, 0x0400009B, 1, 1, 1, 0x070000A6, 0x0011E012, 0,
        0x00004001, 0, 0x00004001, 7, 0x0100003E], 17, "", None);
    // A sum whose first source is negated.
    (&[0x00050050, 41, 0x0300009D, 0x0011E000, 0, 0x0200005F, 0x00024000, 0x02000068, 1, 0x0400009B, 2, 1, 1,
        0x06000029, 0x00100022, 0, 0x0002400A, 0x00004001, 31, 0x0800001E, 0x00100012, 0, 0x8010001A, 65, 0, 0x00004001,
        1, 0x06000029, 0x00100042, 0, 0x0002400A, 0x00004001, 2, 0x070000A6, 0x0011E012, 0, 0x0010002A, 0, 0x0010000A,
        0, 0x0100003E], 41, "", None);
    // Quotients by zero and by three.
    (&[0x00050050, 33, 0x0300009D, 0x0011E000, 0, 0x02000068, 1, 0x0400009B, 1, 1, 1, 0x0E00004E, 0x00100032, 0,
        0x0000D000, 0x00004002, 7, 7, 0, 0, 0x00004002, 0, 3, 0, 0, 0x070000A6, 0x0011E032, 0, 0x00004001, 0,
        0x00100046, 0, 0x0100003E], 33, "", None);
    // Structured loads of two lanes, of which one goes past the end.
    (&[0x00050050, 51, 0x040000A2, 0x00107000, 0, 16, 0x0300009D, 0x0011E000, 0, 0x0200005F, 0x00024000, 0x02000068, 2,
        0x0400009B, 2, 1, 1, 0x0600001E, 0x00100012, 0, 0x0002400A, 0x00004001, 1, 0x05000036, 0x00100022, 0,
        0x00004001, 0, 0x090000A7, 0x001000F2, 0, 0x0010000A, 0, 0x0010001A, 0, 0x00107E46, 0, 0x06000029, 0x00100012,
        1, 0x0002400A, 0x00004001, 4, 0x070000A6, 0x0011E0F2, 0, 0x0010000A, 1, 0x00100E46, 0, 0x0100003E], 51, "", None);
    // Indexed registers, one of them past the end.
    (&[0x00050050, 50, 0x0300009D, 0x0011E000, 0, 0x02000068, 2, 0x04000069, 1, 3, 4, 0x0400009B, 1, 1, 1, 0x06000036,
        0x00203012, 1, 2, 0x00004001, 42, 0x05000036, 0x00100012, 0, 0x00004001, 0xFFFFFFFF, 0x08000036, 0x00100012, 1,
        0x0620300A, 1, 3, 0x0010000A, 0, 0x08000036, 0x00100022, 1, 0x0620300A, 1, 4, 0x0010000A, 0, 0x070000A6,
        0x0011E032, 0, 0x00004001, 0, 0x00100046, 1, 0x0100003E], 50, "", None);
    // A loop with a switch in it, and ways out of both.
    (&[0x00050050, 110, 0x0300009D, 0x0011E000, 0, 0x02000068, 1, 0x0400009B, 1, 1, 1, 0x08000036, 0x00100032, 0,
        0x00004002, 0, 0, 0, 0, 0x01000030, 0x07000050, 0x00100042, 0, 0x0010000A, 0, 0x00004001, 6, 0x03040003,
        0x0010002A, 0, 0x0700001E, 0x00100012, 0, 0x0010000A, 0, 0x00004001, 1, 0x07000020, 0x00100042, 0, 0x0010000A,
        0, 0x00004001, 2, 0x03040008, 0x0010002A, 0, 0x0300004C, 0x0010000A, 0, 0x03000006, 0x00004001, 1, 0x0700001E,
        0x00100022, 0, 0x0010001A, 0, 0x00004001, 1, 0x0100000A, 0x0700001E, 0x00100022, 0, 0x0010001A, 0, 0x00004001,
        10, 0x01000002, 0x03000006, 0x00004001, 3, 0x0700001E, 0x00100022, 0, 0x0010001A, 0, 0x00004001, 100,
        0x03000006, 0x00004001, 4, 0x0700001E, 0x00100022, 0, 0x0010001A, 0, 0x00004001, 1000, 0x01000002, 0x01000017,
        0x070000A6, 0x0011E012, 0, 0x00004001, 0, 0x0010001A, 0, 0x07000020, 0x00100042, 0, 0x0010000A, 0, 0x00004001,
        5, 0x0304003F, 0x0010002A, 0, 0x01000016, 0x0100003E], 110, "", None);
    // A sum of four lanes in shared memory.
    (&[0x00050050, 45, 0x0300009D, 0x0011E000, 0, 0x0200005F, 0x00024000, 0x02000068, 1, 0x0400009F, 0x0011F000, 0, 4,
        0x0400009B, 4, 1, 1, 0x060000AD, 0x0011F000, 0, 0x00004001, 0, 0x0002400A, 0x010018BE, 0x070000A5, 0x00100012,
        0, 0x00004001, 0, 0x0011F006, 0, 0x06000029, 0x00100022, 0, 0x0002400A, 0x00004001, 2, 0x070000A6, 0x0011E012,
        0, 0x0010001A, 0, 0x0010000A, 0, 0x0100003E], 45, "", None);
    // A lane that returns, and one that waits for it.
    (&[0x00050050, 14, 0x0200005F, 0x00024000, 0x0400009B, 2, 1, 1, 0x0200001F, 0x0002400A, 0x0100003E, 0x01000015,
        0x010018BE, 0x0100003E], 14, "", None);
    // A counter that is stepped up and down.
    (&[0x00050050, 38, 0x0400009E, 0x0011E000, 0, 4, 0x0300009D, 0x0011E000, 1, 0x02000068, 1, 0x0400009B, 1, 1, 1,
        0x050000B2, 0x00100012, 0, 0x0011E000, 0, 0x050000B3, 0x00100022, 0, 0x0011E000, 0, 0x050000B3, 0x00100042, 0,
        0x0011E000, 0, 0x070000A6, 0x0011E072, 1, 0x00004001, 0, 0x00100246, 0, 0x0100003E], 38, "", None);
    // A loop without a way out.
    (&[0x00050050, 9, 0x0400009B, 1, 1, 1, 0x01000030, 0x01000016, 0x0100003E], 9, "", None);
};

#[test]
fn first_broken_rules(rt: HostRuntime) -> Result<(), Fail> {
    for (tokens, room, text, broken) in BROKEN {
        let (answer, words) = first_broken(rt.alloc(), tokens, *room, text)?;
        assert_eq!(rt; answer, broken.map(|(rule, place)| refusal(rule, place)));
        assert_eq!(rt; words, *room);
    }
    Ok(())
}

/// What a workspace gave for a program that breaks a rule, and then for the smallest one.
#[derive(Clone, Copy)]
struct Outcome {
    /// The rule.
    broken: Option<Refusal>,
    /// Whether the module is that of the other workspace.
    same: bool,
    /// The word of the module that says its version.
    version: Option<u32>,
}

/// Whether two answers are the same module, and its word for the version.
fn compared(
    words: Result<Vec<u32>, Refusal>,
    others: Result<Vec<u32>, Refusal>,
) -> (bool, Option<u32>) {
    match (words, others) {
        (Ok(words), Ok(others)) => (words.as_slice() == others.as_slice(), words.get(1).copied()),
        _ => (false, None),
    }
}

/// The containers of two programs, the first of which breaks a rule, and the map of both.
#[derive(Drop)]
struct Inputs {
    refused: Vec<u8>,
    smallest: Vec<u8>,
    map: Bindings,
}

/// The programs are translated in a workspace, and the second in another one.
fn seen(
    alloc: Global,
    work: &mut Workspace,
    other: &mut Workspace,
    given: &Inputs,
    version: Version,
) -> Outcome {
    let broken = broken(work, alloc, &given.refused, &given.map, version);
    let words = translated(work, alloc, &given.smallest, &given.map, version);
    let others = translated(other, alloc, &given.smallest, &given.map, version);
    let (same, number) = compared(words, others);
    Outcome {
        broken,
        same,
        version: number,
    }
}

/// What is seen in two workspaces, in both versions, one after the other.
fn seen_twice(
    alloc: Global,
    work: &mut Workspace,
    other: &mut Workspace,
    given: &Inputs,
) -> (Outcome, Outcome) {
    let first = seen(alloc, work, other, given, Version::V13);
    let second = seen(alloc, work, other, given, Version::V14);
    (first, second)
}

/// The same, where the other workspace is made.
fn seen_beside(
    alloc: Global,
    work: &mut Workspace,
    given: &Inputs,
) -> Result<(Outcome, Outcome), NoMemory> {
    let mut other = Workspace::make(alloc, 7)?;
    Ok(seen_twice(alloc, work, &mut other, given))
}

/// The same, where both are made.
fn seen_in_two(alloc: Global, given: &Inputs) -> Result<(Outcome, Outcome), NoMemory> {
    let mut work = Workspace::make(alloc, 15)?;
    seen_beside(alloc, &mut work, given)
}

/// The containers that are given, and an empty map.
fn given(alloc: Global) -> Result<Inputs, NoMemory> {
    Ok(Inputs {
        refused: container(alloc, &NEGATED_MOVE)?,
        smallest: container(alloc, &SMALLEST)?,
        map: map(alloc, &[])?,
    })
}

/// What is seen in two workspaces of the programs that are given.
fn used_again(alloc: Global) -> Result<(Outcome, Outcome), NoMemory> {
    let given = given(alloc)?;
    seen_in_two(alloc, &given)
}

/// One workspace: a refusal, and then the module that a fresh workspace gives, in both versions.
#[test]
fn a_workspace_is_used_again(rt: HostRuntime) -> Result<(), Fail> {
    let (first, second) = used_again(rt.alloc())?;
    for (seen, number) in [(first, 0x0001_0300), (second, 0x0001_0400)] {
        assert_eq!(rt; seen.broken, Some(refusal(Rule::K10, 12)));
        assert!(rt; seen.same);
        assert_eq!(rt; seen.version, Some(number));
    }
    Ok(())
}
