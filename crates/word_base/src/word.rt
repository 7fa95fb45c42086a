ghost use Rattle.std.specs.Prelude.{◌≡◌, ◌+◌, ◌*◌, ◌/◌, ◌<◌, ◌≤◌, ℕ, List, length, slice_index};
ghost use Rattle.word_base.specs.Words.{word_at, words_of, bytes_of, field_of, AreWords, AreBytes};

use byteorder::{ByteOrder, LittleEndian};

/// The word with the number `i`, counted from 0, of bytes that hold words with the lowest byte
/// first.
pub fn word_at(bytes: &[u8], i: u32) -> u32
    requires { 4 * i + 4 ≤ length bytes.now }
    ensures { result ≡ word_at bytes.now i }
{
    LittleEndian::read_u32(&bytes[4 * i as usize..])
}

/// The bits of a word from `high` down to `low`, as a number.
pub fn field(word: u32, high: u32, low: u32) -> u32
    requires order { low ≤ high }
    requires bits { high < 32 }
    ensures { result ≡ field_of word high low }
{
    ((u64::from(word) >> low) % 2u64.pow(high - low + 1)) as u32
}

/// What holds of words and their bytes, for the proofs of callers. It does nothing when it runs.
pub fn word_laws()
    ensures words_back { (words : List ℕ) → AreWords words → words_of (bytes_of words) ≡ words }
    ensures bytes_back { (bytes : List ℕ) (n : ℕ) → AreBytes bytes → length bytes ≡ 4 * n → bytes_of (words_of bytes) ≡ bytes }
    ensures bytes_length { (words : List ℕ) → length (bytes_of words) ≡ 4 * length words }
    ensures words_length { (bytes : List ℕ) → length (words_of bytes) ≡ length bytes / 4 }
    ensures word { (bytes : List ℕ) (i : ℕ) → 4 * i + 4 ≤ length bytes → slice_index (words_of bytes) i ≡ word_at bytes i }
{}

/// What holds of the bytes of a slice, for the proofs of callers: they are bytes, and their words are
/// words. It does nothing when it runs.
#[tactic(auto, using(crate::proofs::Ranges::words_are))]
pub fn byte_laws(bytes: &[u8])
    ensures bytes { AreBytes bytes.now }
    ensures words { AreWords (words_of bytes.now) }
{}
