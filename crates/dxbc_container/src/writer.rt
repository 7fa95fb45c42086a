ghost use Rattle.std.specs.Prelude.{◌≡◌, ◌+◌, ◌≤◌, ◌++◌, length, IfOk, OnOk, []};
ghost use Rattle.word_base.specs.Words.{bytes_of, bytes_of_word};
ghost use Rattle.dxbc_container.specs.Layout.{container_of, shex_tag};
ghost use Rattle.dxbc_container.specs.Refusals.{sole_refusals, shex_refusals};
ghost use Rattle.dxbc_container.specs.Chunks.{IsShex};

use crate::reader::{DXBC, SHEX};
use byteorder::{ByteOrder, LittleEndian};
use std::alloc::Global;
use word_base::{NoMemory, word_laws};

/// The four bytes of a word, the lowest first.
fn bytes_of_word(word: u32) -> [u8; 4]
    ensures { result ≡ bytes_of_word word }
{
    let mut bytes = [0; 4];
    LittleEndian::write_u32(&mut bytes, word);
    bytes
}

/// Writes the bytes of the words behind those of `out`.
fn push_words(out: &mut Vec<u8>, words: &[u32]) -> Result<(), NoMemory>
    ensures { OnOk result (out.new.items ≡ out.old.items ++ bytes_of words.now) }
{
    for word in words {
        let bytes = bytes_of_word(*word);
        out.extend_from_slice(&bytes).map_err(|_| NoMemory)?;
    }
    Ok(())
}

/// Makes a container whose one chunk `SHEX` holds the tokens, with a checksum of zeros.
///
/// It has 44 bytes and four for each token. (DXBC container layout.)
///
/// # Errors
///
/// `NoMemory` where the bytes cannot be had.
pub fn build(alloc: Global, tokens: &[u32]) -> Result<Vec<u8>, NoMemory>
    requires { length tokens.now ≤ 4194293 }
    ensures bytes { IfOk result (λ b. b.items ≡ container_of tokens.now) }
    ensures sole { IfOk result (λ b. sole_refusals b.items shex_tag ≡ []) }
    ensures sound { IfOk result (λ b. 2 ≤ length tokens.now → shex_refusals b.items ≡ []) }
    ensures data { IfOk result (λ b. IsShex b.items (bytes_of tokens.now)) }
{
    word_laws();
    let size = 4 * tokens.len() as u32;
    let head = [DXBC, 0, 0, 0, 0, 1, 44 + size, 1, 36, SHEX, size];
    let mut bytes = Vec::new(alloc);
    push_words(&mut bytes, &head)?;
    push_words(&mut bytes, tokens)?;
    Ok(bytes)
}
