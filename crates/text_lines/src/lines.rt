//! The lines of a text.
ghost use Rattle.std.specs.Prelude.{◌≡◌, ◌<◌, ◌≤◌, ◌∷◌, ◌==◌, length};
ghost use Rattle.std.specs.List.{position_or_len};
ghost use Rattle.std.specs.Str.Lines.{lines, strip_carriage_return};
ghost use Rattle.text_lines.specs.Lines as text;

/// The number of bytes in front of the first one of this value, or of all where there is none.
pub fn end_of(bytes: &[u8], byte: u8) -> usize
    ensures place { result ≡ position_or_len (λ b. b == byte) bytes.now }
    ensures within { result ≤ length bytes.now }
{
    for i in 0..bytes.len() {
        if bytes[i] == byte {
            return i;
        }
    }
    bytes.len()
}

/// A line without the CR at its end.
fn without_return(line: &[u8]) -> &[u8]
    ensures { result.now ≡ strip_carriage_return line.now }
{
    match line.last() {
        Some(b'\r') => &line[..line.len() - 1],
        _ => line,
    }
}

/// The first line of a text, without its LF and a CR before that, and the text behind it. A line that no LF
/// ends keeps its CR.
pub fn first_line(bytes: &[u8]) -> (&[u8], &[u8])
    requires { 0 < length bytes.now }
    ensures lines { lines bytes.now ≡ result.0.now ∷ lines result.1.now }
    ensures shorter { length result.1.now < length bytes.now }
{
    let end = end_of(bytes, b'\n');
    if end == bytes.len() {
        return (bytes, &bytes[end..]);
    }
    (without_return(&bytes[..end]), &bytes[end + 1..])
}

/// Whether a line is passed over: it is empty, or begins with the mark of comments.
pub fn is_passed(line: &[u8], mark: u8) -> bool
    ensures { result ≡ text.is_passed line.now mark }
{
    line.is_empty() || line[0] == mark
}

/// Whether a space stands at the begin or at the end of a line. An empty line has none.
pub fn has_outer_space(line: &[u8]) -> bool
    ensures { result ≡ text.has_outer_space line.now }
{
    !line.is_empty() && (line[0] == b' ' || line[line.len() - 1] == b' ')
}
