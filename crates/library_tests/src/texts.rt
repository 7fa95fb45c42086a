//! Numbers of texts, and the names of registers in them, read and written.

use binding_map::Register;
use std::alloc::{AllocError, Global};
use std::test::Fail;
use text_lines::{number, push_line, push_number, push_text};

/// Digits, and the number that they are where there are 1 to 10 of them.
const NUMBERS: &[(&[u8], Option<u64>)] = &rows! {
    (b"0", Some(0));
    (b"007", Some(7));
    (b"4294967296", Some(4_294_967_296));
    (b"9999999999", Some(9_999_999_999));
    (b"", None);
    (b"00000000001", None);
    (b"1x", None);
};

/// Names, and the register of each.
const NAMES: &[(&[u8], Option<Register>)] = &rows! {
    (b"cb13", Some(Register::Constant(13)));
    (b"t127", Some(Register::Resource(127)));
    (b"u0", Some(Register::Uav(0)));
    (b"counter63", Some(Register::Counter(63)));
    (b"cb14", None);
    (b"counter64", None);
    (b"s0", None);
};

/// A text of two lines, the second without its end.
const TEXT: &[u8] = b"u0 4294967295 7\ncounter63";

/// The same, written by parts.
fn written(alloc: Global) -> Result<Vec<u8>, AllocError> {
    let mut text = Vec::new(alloc);
    push_text(&mut text, b"u0 ")?;
    push_number(&mut text, 4_294_967_295)?;
    push_line(&mut text, b" 7")?;
    Register::Counter(63).push_name(&mut text)?;
    Ok(text)
}

#[test]
fn texts_are_read_and_written(rt: HostRuntime) -> Result<(), Fail> {
    for (digits, value) in NUMBERS {
        assert_eq!(rt; number(digits), *value);
    }
    for (name, register) in NAMES {
        assert_eq!(rt; Register::from_name(name), *register);
    }
    assert_eq!(rt; written(rt.alloc())?.as_slice(), TEXT);
    Ok(())
}
