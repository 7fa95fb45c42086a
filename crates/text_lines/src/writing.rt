//! Writing texts. Where memory is out, the text is as before.
ghost use Rattle.std.specs.Prelude.{◌≡◌, ◌++◌, OnOk, OnErr};
ghost use Rattle.std.specs.Fmt.{decimal};
ghost use Rattle.text_lines.specs.Lines.{ended};

use itoa::Buffer;
use std::alloc::AllocError;

/// Writes bytes behind a text.
///
/// # Errors
///
/// `AllocError` where the text can't grow. It is then as before.
pub fn push_text(text: &mut Vec<u8>, bytes: &[u8]) -> Result<(), AllocError>
    ensures ok { OnOk result (text.new.items ≡ text.old.items ++ bytes.now) }
    ensures err { OnErr result (text.new.items ≡ text.old.items) }
{
    text.extend_from_slice(bytes)
}

/// Writes the decimal digits of a number behind a text, without leading zeros.
///
/// # Errors
///
/// `AllocError` where the text can't grow. It is then as before.
pub fn push_number(text: &mut Vec<u8>, number: u64) -> Result<(), AllocError>
    ensures ok { OnOk result (text.new.items ≡ text.old.items ++ decimal number) }
    ensures err { OnErr result (text.new.items ≡ text.old.items) }
{
    let mut buffer = Buffer::new();
    text.extend_from_slice(buffer.format(number).as_bytes())
}

/// Writes a line behind a text, and the LF that ends it.
///
/// # Errors
///
/// `AllocError` where the text can't grow. It is then as before.
pub fn push_line(text: &mut Vec<u8>, line: &[u8]) -> Result<(), AllocError>
    ensures ok { OnOk result (text.new.items ≡ text.old.items ++ ended line.now) }
    ensures err { OnErr result (text.new.items ≡ text.old.items) }
{
    let before = text.len();
    text.extend_from_slice(line)?;
    match text.push(b'\n') {
        Ok(()) => Ok(()),
        Err(_) => {
            text.truncate(before);
            Err(AllocError)
        }
    }
}
