//! The parts of a line.
ghost use Rattle.std.specs.Prelude.{◌≡◌, ◌≢◌, ◌<◌, ◌+◌, ◌==◌, ◌∷◌, [], length, take, drop, slice_index};
ghost use Rattle.std.specs.List.{position_or_len};
ghost use Rattle.text_lines.specs.Parts.{parts, unspaced};

use crate::lines::end_of;

/// The line from its first byte on that is no space. It has the same parts.
pub fn behind_spaces(line: &[u8]) -> &[u8]
    ensures line { result.now ≡ unspaced line.now }
    ensures parts { parts result.now ≡ parts line.now }
    ensures begins { slice_index result.now 0 ≢ 32 }
{
    for i in 0..line.len() {
        if line[i] != b' ' {
            return &line[i..];
        }
    }
    &line[line.len()..]
}

/// The first part of a line that begins with none of the spaces, and the line behind the spaces after it.
/// Both are empty where the line is.
pub fn next_part(line: &[u8]) -> (&[u8], &[u8])
    requires begins { slice_index line.now 0 ≢ 32 }
    ensures first { result.0.now ≡ take (position_or_len (λ b. b == 32) line.now) line.now }
    ensures rest { result.1.now ≡ unspaced (drop (position_or_len (λ b. b == 32) line.now + 1) line.now) }
    ensures begins { slice_index result.1.now 0 ≢ 32 }
    ensures parts { 0 < length line.now → parts line.now ≡ result.0.now ∷ parts result.1.now }
    ensures none { line.now ≡ [] → (result.0.now ≡ []) × (result.1.now ≡ []) }
{
    let end = end_of(line, b' ');
    if end == line.len() {
        return (line, &line[end..]);
    }
    (&line[..end], behind_spaces(&line[end + 1..]))
}
