//! The names of registers in texts.
ghost use Rattle.std.specs.Prelude.{◌≡◌, ◌++◌, codes, OnOk, OnErr};
ghost use Rattle.text_lines.specs.Numbers.{number_of};
ghost use Rattle.binding_map.specs.Bindings.{slot_of};
ghost use Rattle.binding_map.specs.Names.{below, kind_name, name_of, register_named};

use crate::register::Register;
use std::alloc::AllocError;
use text_lines::{number, push_number, push_text};

/// The number that digits write, if it is below a limit.
fn slot(digits: &[u8], limit: u32) -> Option<u32>
    ensures { result ≡ below limit (number_of digits.now) }
{
    match number(digits) {
        Some(slot) if slot < limit as u64 => Some(slot as u32),
        _ => None,
    }
}

impl Register {
    /// The register of a name in a text: `cb`, `t`, `u` or `counter` and a slot of 1 to 10 decimal digits, which is
    /// below 14, 128, 64 or 64. `None` for any other bytes.
    pub fn from_name(name: &[u8]) -> Option<Register>
        ensures { result ≡ register_named name.now }
    {
        if name.starts_with(b"cb") {
            Some(Register::Constant(slot(&name[2..], 14)?))
        } else if name.starts_with(b"counter") {
            Some(Register::Counter(slot(&name[7..], 64)?))
        } else if name.starts_with(b"t") {
            Some(Register::Resource(slot(&name[1..], 128)?))
        } else if name.starts_with(b"u") {
            Some(Register::Uav(slot(&name[1..], 64)?))
        } else {
            None
        }
    }

    /// What stands in front of the slot in a register's name.
    fn kind_name(self) -> &'static [u8]
        ensures { result.now ≡ kind_name self }
    {
        match self {
            Register::Constant(_) => b"cb",
            Register::Resource(_) => b"t",
            Register::Uav(_) => b"u",
            Register::Counter(_) => b"counter",
        }
    }

    fn slot(self) -> u32
        ensures { result ≡ slot_of self }
    {
        match self {
            Register::Constant(slot) => slot,
            Register::Resource(slot) => slot,
            Register::Uav(slot) => slot,
            Register::Counter(slot) => slot,
        }
    }

    /// Writes the name of a register behind a text, its slot without leading zeros.
    ///
    /// # Errors
    ///
    /// `AllocError` where the text can't grow. It is then as before.
    pub fn push_name(self, text: &mut Vec<u8>) -> Result<(), AllocError>
        ensures ok { OnOk result (text.new.items ≡ text.old.items ++ name_of self) }
        ensures err { OnErr result (text.new.items ≡ text.old.items) }
    {
        let before = text.len();
        push_text(text, self.kind_name())?;
        match push_number(text, self.slot() as u64) {
            Ok(()) => Ok(()),
            Err(error) => {
                text.truncate(before);
                Err(error)
            }
        }
    }
}
