//! Words as bytes, and programs that are read from them.
ghost use Rattle.std.specs.Prelude.{◌≡◌, ◌≤◌, ◌%◌, length};

use std::alloc::{AllocError, Global};
use std::process::Abort;
use std::test::Fail;
use tpf_program::{Program, read};
use word_base::{Halt, Refusal, Rule};

/// A group of one thread, and `ret`.
pub(crate) const SMALLEST: [u32; 7] = [0x00050050, 7, 0x0400009B, 1, 1, 1, 0x0100003E];

/// The rule with its place.
pub(crate) fn refusal(rule: Rule, place: u32) -> Refusal {
    Refusal { rule, place }
}

/// The bytes of the words in front and of those behind them.
pub(crate) fn bytes_of(alloc: Global, front: &[u32], words: &[u32]) -> Result<Vec<u8>, AllocError> {
    let mut bytes = Vec::new(alloc);
    for word in front.iter().chain(words) {
        bytes.extend_from_slice(&word.to_le_bytes())?;
    }
    Ok(bytes)
}

/// Asserts that the bytes are those of 2 to 250 words.
pub(crate) fn are_words(rt: &impl Abort, bytes: &[u8])
    ensures { (8 ≤ length bytes.now) × (length bytes.now ≤ 1000) × (length bytes.now % 4 ≡ 0) }
{
    assert!(rt; 8 <= bytes.len() && bytes.len() <= 1000 && bytes.len() % 4 == 0);
}

/// What `read` answers of a program's words.
pub(crate) fn read_words(
    rt: &impl Abort,
    alloc: Global,
    words: &[u32],
) -> Result<Result<Program, Halt>, AllocError> {
    let bytes = bytes_of(alloc, &[], words)?;
    are_words(rt, bytes.as_slice());
    Ok(read(alloc, bytes.as_slice()))
}

/// The program of these words behind a head.
pub(crate) fn program(rt: &impl Abort, alloc: Global, words: &[u32]) -> Result<Program, Fail> {
    let bytes = bytes_of(
        alloc,
        &[0x00050050, (words.len().min(250) + 2) as u32],
        words,
    )?;
    are_words(rt, bytes.as_slice());
    Ok(read(alloc, bytes.as_slice())?)
}
