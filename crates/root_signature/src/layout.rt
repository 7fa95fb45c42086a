ghost use Rattle.std.specs.Prelude.{◌≡◌, ◌+◌, ◌*◌, ◌<◌, ◌≤◌, ◌/◌, length, IsTrue};
ghost use Rattle.root_signature.specs.Layout.{word, words_from, is_whole, has_flags, parameter_at, parameter_type, is_visible, record_at, words_of_type, has_record, is_parameter, range_words, record_words};
ghost use Rattle.root_signature.specs.Covering.{is_single, words_at};

use byteorder::{ByteOrder, LittleEndian};

/// The word whose first byte is `at`.
#[tactic(auto, unfolding(crate::specs::Layout::word))]
pub(crate) fn word(content: &[u8], at: usize) -> u32
    requires { at + 4 ≤ length content.now }
    ensures { result ≡ word content.now at }
{
    LittleEndian::read_u32(&content[at..])
}

/// How many words there are from the byte `at` on.
#[tactic(auto, unfolding(crate::specs::Layout::words_from))]
pub(crate) fn words_from(content: &[u8], at: usize) -> usize
    ensures count { result ≡ words_from content.now at }
    ensures fits { 0 < result → at + 4 * result ≤ length content.now }
{
    content.len().saturating_sub(at) / 4
}

/// Whether a record of that many words that begins in the byte `at` has all of them.
pub(crate) fn is_whole(content: &[u8], at: usize, words: usize) -> bool
    requires { 0 < words }
    ensures test { result ≡ is_whole content.now at words }
    ensures fits { IsTrue result → at + 4 * words ≤ length content.now }
{
    words <= words_from(content, at)
}

/// How many of the records of that many words are whole, of those that stand one behind the other from
/// the byte `at` on.
pub(crate) fn whole_records(content: &[u8], at: usize, words: usize) -> usize
    requires { 0 < words }
    ensures count { result ≡ words_from content.now at / words }
    ensures fits { 0 < result → at + 4 * words * result ≤ length content.now }
{
    words_from(content, at) / words
}

/// Whether the version is 1.1, in which descriptors and ranges have flags.
pub(crate) fn has_flags(content: &[u8]) -> bool
    requires { 4 ≤ length content.now }
    ensures { result ≡ has_flags content.now }
{
    word(content, 0) == 2
}

/// The number of words of a range.
pub(crate) fn range_words(content: &[u8]) -> usize
    requires { 4 ≤ length content.now }
    ensures count { result ≡ range_words content.now }
    ensures least { 5 ≤ result }
    ensures most { result ≤ 6 }
{
    if has_flags(content) { 6 } else { 5 }
}

/// The number of words of the record of a parameter of that type.
pub(crate) fn words_of_type(content: &[u8], kind: u32) -> usize
    requires { 4 ≤ length content.now }
    ensures count { result ≡ words_of_type content.now kind }
    ensures least { 2 ≤ result }
    ensures most { result ≤ 3 }
{
    match kind {
        0 => 2,
        1 => 3,
        _ => { if has_flags(content) { 3 } else { 2 } }
    }
}

/// The byte in which the parameter with the number `i` begins.
pub(crate) fn parameter_at(content: &[u8], i: u32) -> usize
    requires { 12 ≤ length content.now }
    ensures { result ≡ parameter_at content.now i }
{
    word(content, 8) as usize + 12 * i as usize
}

/// A parameter whose three words are there.
#[derive(Clone, Copy, Debug, PartialEq, Eq)]
pub(crate) struct Parameter {
    /// Its type.
    pub(crate) kind: u32,
    /// Whether its visibility is 0, that of all stages.
    pub(crate) visible: bool,
    /// The byte in which its record begins.
    pub(crate) record_at: usize,
}

/// The parameter with the number `i`.
pub(crate) fn read_parameter(content: &[u8], i: u32) -> Parameter
    requires header { 12 ≤ length content.now }
    requires whole { parameter_at content.now i + 12 ≤ length content.now }
    ensures kind { result.kind ≡ parameter_type content.now i }
    ensures visible { result.visible ≡ is_visible content.now i }
    ensures pointed { result.record_at ≡ record_at content.now i }
    ensures near { result.record_at < 4294967296 }
{
    let at = parameter_at(content, i);
    Parameter {
        kind: word(content, at),
        visible: word(content, at + 4) == 0,
        record_at: word(content, at + 8) as usize,
    }
}

/// Whether the parameter with the number `i` is there, of a known type, and its record is there.
pub(crate) fn has_record(content: &[u8], i: u32) -> bool
    requires { 12 ≤ length content.now }
    ensures test { result ≡ has_record content.now i }
    ensures whole { IsTrue result → parameter_at content.now i + 12 ≤ length content.now }
    ensures fits { IsTrue result → record_at content.now i + 4 * record_words content.now i ≤ length content.now }
{
    if !is_whole(content, parameter_at(content, i), 3) {
        return false;
    }
    let Parameter {
        kind,
        record_at,
        ..
    } = read_parameter(content, i);
    kind <= 4 && is_whole(content, record_at, words_of_type(content, kind))
}

/// Whether the parameter with the number `i` is a visible one of that type and of space 0.
pub(crate) fn is_single(content: &[u8], i: u32, kind: u32) -> bool
    requires header { 12 ≤ length content.now }
    requires kind { 0 < kind }
    ensures test { result ≡ is_single content.now i kind }
    ensures whole { IsTrue result → parameter_at content.now i + 12 ≤ length content.now }
    ensures fits { IsTrue result → record_at content.now i + 4 * words_of_type content.now kind ≤ length content.now }
{
    if !has_record(content, i) {
        return false;
    }
    let parameter = read_parameter(content, i);
    parameter.visible && parameter.kind == kind && word(content, parameter.record_at + 4) == 0
}

/// The root constants of the parameter with the number `i`, in words.
pub(crate) fn words_at(content: &[u8], i: u32) -> u32
    requires { 12 ≤ length content.now }
    ensures { result ≡ words_at content.now i }
{
    if is_single(content, i, 1) {
        word(content, read_parameter(content, i).record_at + 8)
    } else {
        0
    }
}
