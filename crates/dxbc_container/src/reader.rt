ghost use Rattle.std.specs.Prelude.{◌≡◌, ℕ, ◌+◌, ◌*◌, ◌%◌, ◌<◌, ◌≤◌, List, [], ◌∷◌, length, slice_range, IfOk, OnOk};
ghost use Rattle.word_base.specs.Words.{word_from};
ghost use Rattle.word_base.specs.Rules.{first};
ghost use Rattle.dxbc_container.specs.Layout.{shex_tag, total_of, count_of, place_of, offset_of, tag_of, size_of};
ghost use Rattle.dxbc_container.specs.Refusals.{refusal_of, header_refusals, head_refusals, is_outside, IsContainer, tagged, sole_refusals, shex_refusals};
ghost use Rattle.dxbc_container.specs.Chunks.{HasTable, IsInside, IsTagged, IsSole, IsSolePart, IsShex, content_of};
ghost use Rattle.dxbc_container.specs.Searches.{IsNext};

use crate::part::{Slice, Tagged};
use byteorder::{ByteOrder, LittleEndian};
use word_base::{Refusal, Rule};

/// The four letters `DXBC` as a word.
pub(crate) const DXBC: u32 = 0x43425844;

/// The tag `SHEX` as a word.
pub(crate) const SHEX: u32 = 0x58454853;

/// The word whose first byte is `at`.
fn word_from(bytes: &[u8], at: usize) -> u32
    requires { at + 4 ≤ length bytes.now }
    ensures { result ≡ word_from bytes.now at }
{
    LittleEndian::read_u32(&bytes[at..])
}

/// The total size in bytes.
#[tactic(auto, unfolding(crate::specs::Layout::total_of))]
fn total(bytes: &[u8]) -> u32
    requires { 32 ≤ length bytes.now }
    ensures { result ≡ total_of bytes.now }
{
    word_from(bytes, 24)
}

/// The number of chunks.
#[tactic(auto, unfolding(crate::specs::Layout::count_of))]
fn count(bytes: &[u8]) -> u32
    requires { 32 ≤ length bytes.now }
    ensures { result ≡ count_of bytes.now }
{
    word_from(bytes, 28)
}

/// The byte in which the chunk with the number `i` begins.
#[tactic(auto, unfolding(crate::specs::Layout::offset_of))]
fn offset(bytes: &[u8], i: u32) -> u32
    requires { place_of i + 4 ≤ length bytes.now }
    ensures { result ≡ offset_of bytes.now i }
{
    word_from(bytes, 32 + 4 * i as usize)
}

/// The tag of the chunk with the number `i`, which begins in the byte `offset`.
#[tactic(auto, unfolding(crate::specs::Layout::tag_of))]
fn tag(bytes: &[u8], i: u32, offset: u32) -> u32
    requires begins { offset ≡ offset_of bytes.now i }
    requires there { offset + 8 ≤ length bytes.now }
    ensures { result ≡ tag_of bytes.now i }
{
    word_from(bytes, offset as usize)
}

/// The size in bytes of the data of the chunk with the number `i`, which begins in the byte `offset`.
#[tactic(auto, unfolding(crate::specs::Layout::size_of))]
fn size(bytes: &[u8], i: u32, offset: u32) -> u32
    requires begins { offset ≡ offset_of bytes.now i }
    requires there { offset + 8 ≤ length bytes.now }
    ensures { result ≡ size_of bytes.now i }
{
    word_from(bytes, offset as usize + 4)
}

/// Reads the header, and gives the number of chunks.
///
/// Refuses with the first of C1 to C5 that is broken.
fn table(bytes: &[u8]) -> Result<u32, Refusal>
    ensures refused { refusal_of result ≡ first (header_refusals bytes.now) }
    ensures count { IfOk result (λ n. n ≡ count_of bytes.now) }
    ensures fits { OnOk result (HasTable bytes.now) }
{
    let refused = |rule, place| Err(Refusal { rule, place });
    if bytes.len() < 32 {
        return refused(Rule::C1, 0);
    }
    let total = total(bytes);
    let count = count(bytes);
    if word_from(bytes, 0) != DXBC {
        return refused(Rule::C2, 0);
    }
    if word_from(bytes, 20) != 1 {
        return refused(Rule::C3, 20);
    }
    if total < 32 || bytes.len() < total as usize {
        return refused(Rule::C4, 24);
    }
    if u64::from(total) < 32 + 4 * u64::from(count) {
        return refused(Rule::C5, 28);
    }
    Ok(count)
}

/// Whether the chunk with the number `i` ends outside the total size.
fn is_outside(bytes: &[u8], i: u32) -> bool
    requires table { HasTable bytes.now }
    requires listed { i < count_of bytes.now }
    ensures { result ≡ is_outside bytes.now i }
{
    let total = total(bytes) as usize;
    let offset = offset(bytes, i);
    let start = offset as usize + 8;
    total < start || total < start + size(bytes, i, offset) as usize
}

/// What holds of containers and their chunks, for the proofs of callers. It does nothing when it
/// runs.
pub fn container_laws()
    ensures table { (bytes : List ℕ) → IsContainer bytes → HasTable bytes }
    ensures inside { (bytes : List ℕ) (i : ℕ) → IsContainer bytes → i < count_of bytes → IsInside bytes i }
    ensures part { (bytes : List ℕ) (s n : ℕ) → s + n ≤ length bytes → length (slice_range bytes s (s + n)) ≡ n }
    ensures sole_holds { (bytes : List ℕ) (tag start : ℕ) (held : List ℕ) → IsSole bytes tag start held → sole_refusals bytes tag ≡ [] }
    ensures sole_found { (bytes : List ℕ) (tag : ℕ) → sole_refusals bytes tag ≡ [] → (start : ℕ) × ((held : List ℕ) × IsSole bytes tag start held) }
    ensures shex_holds { (bytes held : List ℕ) → IsShex bytes held → 8 ≤ length held → length held % 4 ≡ 0 → shex_refusals bytes ≡ [] }
    ensures shex_found { (bytes : List ℕ) → shex_refusals bytes ≡ [] → (held : List ℕ) × (IsShex bytes held × (8 ≤ length held) × (length held % 4 ≡ 0)) }
    ensures single { (bytes a b : List ℕ) → IsShex bytes a → IsShex bytes b → a ≡ b }
{}

/// Reads the header and the offsets of a container, and gives the number of chunks.
///
/// The checksum is read over, and so is what stands behind the total size. (DXBC container layout.)
///
/// # Errors
///
/// The first of the rules C1 to C6 that is broken, by number and then by place in bytes.
pub fn chunks(bytes: &[u8]) -> Result<u32, Refusal>
    requires { length bytes.now ≤ 16777216 }
    ensures refused { refusal_of result ≡ first (head_refusals bytes.now) }
    ensures sound { OnOk result (IsContainer bytes.now) }
    ensures count { IfOk result (λ n. n ≡ count_of bytes.now) }
{
    let count = table(bytes)?;
    for i in 0..count {
        if is_outside(bytes, i) {
            return Err(Refusal {
                rule: Rule::C6,
                place: 32 + 4 * i,
            });
        }
    }
    Ok(count)
}

/// The tag and the data of the chunk with the number `i`, counted from 0.
///
/// `chunks` answers how many there are. The part counts bytes from byte 0 of the container. (DXBC
/// container layout.)
pub fn chunk(bytes: &[u8], i: u32) -> Tagged
    requires small { length bytes.now ≤ 16777216 }
    requires sound { IsContainer bytes.now }
    requires listed { i < count_of bytes.now }
    ensures { IsTagged bytes.now i result }
{
    container_laws();
    let offset = offset(bytes, i);
    let tag = tag(bytes, i, offset);
    let size = size(bytes, i, offset);
    let part = Slice {
        start: offset + 8,
        size,
    };
    Tagged { tag, part }
}

/// The first chunk of the tag from the one with the number `from` on.
fn next_tagged(bytes: &[u8], tag: u32, from: u32, count: u32) -> Option<u32>
    requires small { length bytes.now ≤ 16777216 }
    requires sound { IsContainer bytes.now }
    requires count { count ≡ count_of bytes.now }
    requires from { from ≤ count }
    ensures { IsNext bytes.now tag from result }
{
    for i in from..count {
        if chunk(bytes, i).tag == tag {
            return Some(i);
        }
    }
    None
}

/// The number of the one chunk of the tag.
///
/// Refuses with the first of C1 to C8 that is broken.
fn sole_number(bytes: &[u8], tag: u32) -> Result<u32, Refusal>
    requires { length bytes.now ≤ 16777216 }
    ensures refused { refusal_of result ≡ first (sole_refusals bytes.now tag) }
    ensures sound { OnOk result (IsContainer bytes.now) }
    ensures listed { IfOk result (λ i. i < count_of bytes.now) }
    ensures number { IfOk result (λ i. tagged bytes.now tag ≡ i ∷ []) }
{
    let count = chunks(bytes)?;
    let Some(number) = next_tagged(bytes, tag, 0, count) else {
        return Err(Refusal {
            rule: Rule::C7,
            place: 28,
        });
    };
    if let Some(second) = next_tagged(bytes, tag, number + 1, count) {
        return Err(Refusal {
            rule: Rule::C8,
            place: 32 + 4 * second,
        });
    }
    Ok(number)
}

/// The data of the one chunk of the tag, whose four bytes are given as a little-endian word.
///
/// The part counts bytes from byte 0 of the container. (DXBC container layout.)
///
/// # Errors
///
/// The first of the rules C1 to C8 that is broken, by number and then by place in bytes.
pub fn sole(bytes: &[u8], tag: u32) -> Result<Slice, Refusal>
    requires { length bytes.now ≤ 16777216 }
    ensures refused { refusal_of result ≡ first (sole_refusals bytes.now tag) }
    ensures found { IfOk result (λ part. IsSolePart bytes.now tag part) }
{
    let number = sole_number(bytes, tag)?;
    Ok(chunk(bytes, number).part)
}

/// The data of the one chunk `SHEX`: the words of a program, at least two, and whole.
///
/// The part counts bytes from byte 0 of the container. (DXBC container layout;
/// d3d11TokenizedProgramFormat.hpp, the version and the length of a program.)
///
/// # Errors
///
/// The first of the rules C1 to C9 that is broken, by number and then by place in bytes.
pub fn shex(bytes: &[u8]) -> Result<Slice, Refusal>
    requires { length bytes.now ≤ 16777216 }
    ensures refused { refusal_of result ≡ first (shex_refusals bytes.now) }
    ensures found { IfOk result (λ part. IsSolePart bytes.now shex_tag part) }
    ensures data { IfOk result (λ part. IsShex bytes.now (content_of bytes.now part)) }
    ensures head { IfOk result (λ part. 8 ≤ part.size) }
    ensures whole { IfOk result (λ part. part.size % 4 ≡ 0) }
{
    let number = sole_number(bytes, SHEX)?;
    let part = chunk(bytes, number).part;
    if part.size < 8 || part.size % 4 != 0 {
        return Err(Refusal {
            rule: Rule::C9,
            place: 32 + 4 * number,
        });
    }
    Ok(part)
}
