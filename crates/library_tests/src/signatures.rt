//! What the root signature of a container covers.
use crate::reading::{bytes_of, refusal};
use root_signature::{Covers, RootSignature, parse};
use std::alloc::Global;
use std::test::Fail;
use word_base::{Halt, NoMemory, Refusal, Rule};

/// The tags `RTS0` and `SHEX`.
const RTS0: u32 = 0x30535452;

const SHEX: u32 = 0x58454853;

/// The last register, or word.
const LAST: u32 = 0xFFFFFFFF;

/// Whether the entries are these.
fn is_same(signature: &RootSignature, entries: &[Covers]) -> bool {
    let mut same = signature.len() as usize == entries.len();
    for (i, entry) in entries.iter().enumerate() {
        same = same && i < signature.len() as usize && signature.at(i as u32) == *entry;
    }
    same
}

/// Whether the words of a container's one chunk, with the tag, cover these entries; or the first rule that they break.
fn covers(
    alloc: Global,
    tag: u32,
    words: &[u32],
    entries: &[Covers],
) -> Result<Result<bool, Refusal>, Fail> {
    let size = 4 * words.len().min(64) as u32;
    let head = [0x43425844, 0, 0, 0, 0, 1, 44 + size, 1, 36, tag, size];
    let bytes = bytes_of(alloc, &head, words)?;
    match parse(alloc, &bytes[..bytes.len().min(300)]) {
        Ok(signature) => Ok(Ok(is_same(&signature, entries))),
        Err(Halt::Refused(refusal)) => Ok(Err(refusal)),
        Err(Halt::NoMemory) => Err(NoMemory.into()),
    }
}

/// Root constants of two words for cb0, a table with t0, and u0.
const THREE: [u32; 29] = [
    2, 3, 24, 0, 0, 0, 1, 0, 60, 0, 0, 72, 4, 0, 104, 0, 0, 2, 1, 80, 0, 1, 0, 0, 0, 0, 0, 0, 0,
];

/// Entries by what they say.
macro_rules! entries {
    ($($kind:ident $first:tt $(, $rest:expr)*);*) => { &[$(entry!($kind $first $(, $rest)*)),*] };
}

macro_rules! entry {
    (Constants $register:expr, $first:expr, $count:expr) => { Covers::Constants { register: $register, first: $first, count: $count } };
    ($kind:ident $base:expr, $count:expr) => { Covers::$kind { base: $base, count: $count } };
}

/// Words that cover these entries.
const COVERED: &[(&[u32], &[Covers])] = &rows! {
    (&THREE, entries! { Constants 0, 0, 2; Srv 0, 1; Uav 0, 1 });
    // No parameters; a table that is not visible, and a descriptor of space 1.
    (&[1, 0, 24, 0, 0, 0], &[]);
    (&[1, 2, 24, 0, 0, 0, 0, 1, 48, 2, 0, 56, 1, 64, 0, 1, 0, 1, 0, 0, 0], &[]);
    // Ranges without an end, samplers, ranges without registers, and more registers than there are.
    (&[1, 1, 24, 0, 0, 0, 0, 0, 36, 3, 44, 0, LAST, 5, 0, 0, 3, 1, 0, 0, 0, 2, 0, 0, 0, 0], entries! { Srv 5, 0xFFFFFFFB });
    (&[1, 1, 24, 0, 0, 0, 0, 0, 36, 1, 44, 0, LAST, 0, 0, 0], entries! { Srv 0, LAST });
    (&[1, 1, 24, 0, 0, 0, 0, 0, 36, 1, 44, 2, 5, LAST, 0, 0], entries! { Cbv LAST, 1 });
    // Root constants: 64 words and 99 that are not visible; no words; and one register of each kind.
    (&[2, 3, 24, 0, 0, 0, 1, 0, 60, 1, 0, 72, 1, 1, 84, 1, 0, 3, 2, 0, 61, 3, 0, 99], entries! { Constants 1, 0, 3; Constants 2, 3, 61 });
    (&[1, 1, 24, 0, 0, 0, 1, 0, 36, 3, 0, 0], entries! { Constants 3, 0, 0 });
    (&[1, 3, 24, 0, 0, 0, 4, 0, 60, 3, 0, 60, 2, 0, 60, 7, 0], entries! { Uav 7, 1; Srv 7, 1; Cbv 7, 1 });
};

/// Words, and the first rule that they break, with its place.
const BROKEN: &[(&[u32], Rule, u32)] = &rows! {
    // Headers: of no words, of a wrong version alone, of five words, and with a parameter inside.
    (&[], Rule::G2, 0);
    (&[1], Rule::G2, 4);
    (&[3], Rule::G1, 0);
    (&[1, 0, 24, 0, 0], Rule::G2, 20);
    (&[1, 1, 0], Rule::G2, 12);
    // Parameters: of an unknown type, whole and cut, of a known type, and far too many.
    (&[1, 1, 24, 0, 0, 0, 5, 0, 0], Rule::G3, 24);
    (&[1, 1, 24, 0, 0, 0, 5], Rule::G3, 24);
    (&[1, 1, 24, 0, 0, 0, 4], Rule::G2, 28);
    (&[1, 0xFFFFFFFF, 24, 0, 0, 0, 2, 0, 0], Rule::G2, 36);
    // Records and ranges, those of parameters that are not visible too.
    (&[1, 1, 24, 0, 0, 0, 2, 0, 0xFFFFFFFE], Rule::G2, 0xFFFFFFFE);
    (&[1, 1, 24, 0, 0, 0, 0, 0, 36, 1], Rule::G2, 40);
    (&[1, 1, 24, 0, 0, 0, 0, 5, 36, 1, 44, 4, 1, 0, 0, 0], Rule::G3, 44);
    (&[1, 1, 24, 0, 0, 0, 0, 0, 36, 2, 44, 3, 1, 0, 0, 0], Rule::G2, 64);
    (&[1, 1, 24, 0, 0, 0, 0, 0, 36, 0xFFFFFFFF, 44, 3, 1, 0, 0, 0], Rule::G2, 64);
    (&[1, 1, 24, 0, 0, 0, 0, 0, 36, 2, 0xFFFFFFFE], Rule::G2, 0xFFFFFFFE);
    // Root constants pass their limit at the second parameter, whose record stands first.
    (&[1, 2, 24, 0, 0, 0, 1, 0, 60, 1, 0, 48, 1, 0, 1, 2, 0, 64], Rule::G5, 48);
    // One range in two tables; the record of the second of two; the least of two.
    (&[1, 2, 24, 0, 0, 0, 0, 0, 48, 0, 0, 48, 1, 56, 0, 1, 7, 0, 0], Rule::G4, 56);
    (&[1, 2, 24, 0, 0, 0, 3, 0, 56, 3, 0, 48, 3, 0, 3, 0], Rule::G4, 48);
    (&[1, 3, 24, 0, 0, 0, 3, 0, 76, 3, 0, 68, 3, 0, 60, 1, 0, 1, 0, 1, 0], Rule::G4, 60);
    // A range without an end and the last register; root constants without words.
    (&[1, 2, 24, 0, 0, 0, 0, 0, 48, 3, 0, 76, 1, 56, 0, LAST, 1, 0, 0, LAST, 0], Rule::G4, 76);
    (&[1, 2, 24, 0, 0, 0, 1, 0, 48, 2, 0, 60, 3, 0, 0, 3, 0], Rule::G4, 60);
    // A descriptor before a range of an unknown type, and behind it the range that covers first.
    (&[1, 2, 24, 0, 0, 0, 0, 0, 48, 3, 0, 56, 2, 64, 0, 0, 9, 1, 0, 0, 0, 0, 1, 0, 0, 0], Rule::G4, 56);
};

#[test]
fn signatures_are_read_or_refused(rt: HostRuntime) -> Result<(), Fail> {
    for (words, entries) in COVERED {
        assert_eq!(rt;
            covers(rt.alloc(), RTS0, words, entries)?,
            Ok(true),
            "{words:?}"
        );
    }
    for (words, rule, place) in BROKEN {
        let want = Err(refusal(*rule, *place));
        assert_eq!(rt; covers(rt.alloc(), RTS0, words, &[])?, want, "{words:?}");
    }
    for (i, word, rule, place) in rows! {
        (0, 3, Rule::G1, 0);
        (17, 65, Rule::G5, 60);
        (2, 0xFFFFFFFC, Rule::G2, 4294967292);
    } {
        let mut words = THREE;
        if i < 29 {
            words[i] = word;
        }
        let want = Err(refusal(rule, place));
        assert_eq!(rt; covers(rt.alloc(), RTS0, &words, &[])?, want, "{words:?}");
    }
    let missing = Err(refusal(Rule::G6, 0));
    assert_eq!(rt;
        covers(rt.alloc(), SHEX, &[1, 0, 24, 0, 0, 0], &[])?,
        missing
    );
    Ok(())
}
