ghost use Rattle.std.specs.Prelude.{◌≡◌, ◌≤◌, length, if◌then◌else◌, IfOk, IfErr, OnOk, Some, None};
ghost use Rattle.std.specs.Bool.{OnTrue, OnFalse};
ghost use Rattle.word_base.specs.declared.rule.Halt.TheVariants.{Refused};
ghost use Rattle.word_base.specs.Rules.{refusal, HaltsBy, IsSound};
ghost use Rattle.binding_map.specs.Bindings.{binding};
ghost use Rattle.binding_map.specs.Texts.{is_past, text_map, TextBreaks};
ghost use Rattle.binding_map.specs.Lines.{binding_of, shown, is_shared, IsNamed, LineBreaks, Adds};

use crate::bindings::Bindings;
use crate::line::{Line, Named, read_line};
use crate::register::{Place, Register};
use std::alloc::Global;
use text_lines::first_line;
use word_base::{Halt, Refusal, Rule};

impl Named {
    fn register(self) -> Register
        ensures { result ≡ (binding_of self).register }
    {
        match self {
            Named::Bound { register, .. } => register,
            Named::Push { slot, .. } => Register::Constant(slot),
        }
    }

    /// The place, if no number passes its limit.
    fn place(self) -> Option<Place>
        ensures { result ≡ (if is_past (binding_of self).place then None else Some (binding_of self).place) }
    {
        match self {
            Named::Bound { set, binding, .. } if set < 8 && binding < 65536 => {
                Some(Place::Bound {
                    set: set as u32,
                    binding: binding as u32,
                })
            }
            Named::Push { first, count, .. }
                if 0 < count && first <= 64 && count <= 64 && first + count <= 64 => {
                Some(Place::Push {
                    first: first as u32,
                    count: count as u32,
                })
            }
            _ => None,
        }
    }

    /// Whether it has the register, a set and binding, or a push constant word in common with a binding.
    fn is_shared(self, register: Register, place: Place) -> bool
        ensures { result ≡ is_shared (binding register place) (binding_of self) }
    {
        if register == self.register() {
            return true;
        }
        match (place, self) {
            (Place::Bound { set: s, binding: b }, Named::Bound { set, binding, .. }) => {
                s as u64 == set && b as u64 == binding
            }
            (Place::Push { first: f, count: c }, Named::Push { first, count, .. }) => {
                let end = f as u64 + c as u64;
                first.max(f as u64) < end.min(first.saturating_add(count))
            }
            _ => false,
        }
    }
}

/// Whether what a line names has something in common with what is bound.
fn is_named(bindings: &Bindings, named: Named) -> bool
    ensures again { OnTrue result (IsNamed bindings.now (binding_of named)) }
    ensures first { OnFalse result (IsNamed bindings.now (binding_of named) → ⊥) }
{
    for i in 0..bindings.len() {
        let (register, place) = bindings.at(i);
        if named.is_shared(register, place) {
            return true;
        }
    }
    false
}

/// Binds what a line names.
fn bind(bindings: &mut Bindings, said: Line, line: u32) -> Result<(), Halt>
    requires few { length bindings.old ≤ 16777216 }
    ensures ok { OnOk result (Adds bindings.old bindings.new (shown said) line) }
    ensures halted { IfErr result (HaltsBy (LineBreaks bindings.old (shown said) line)) }
{
    let named = match said {
        Line::Nothing => return Ok(()),
        Line::Unread => return Err(refused(Rule::B3, line)),
        Line::Names(named) => named,
    };
    if is_named(bindings, named) {
        return Err(refused(Rule::B2, line));
    }
    match named.place() {
        None => Err(refused(Rule::B3, line)),
        Some(place) => match bindings.add(named.register(), place) {
            Ok(()) => Ok(()),
            Err(_) => Err(Halt::NoMemory),
        },
    }
}

/// Reads the text of a binding map.
///
/// A line is `NAME SET BINDING` or `cbN push FIRST COUNT`, with one or more spaces between the parts. A
/// NAME is `cb`, `t`, `u` or `counter` and a slot: below 14, 128, 64 and 64. Numbers are 1 to 10 decimal
/// digits. A CR before an LF is dropped; empty lines and those that begin with `#` are passed over. The
/// entries are in the order of the lines.
///
/// # Errors
///
/// `B2` where a line names a register, a set and binding, or a push constant word that an earlier one
/// names; `B3` where a line is not of the form, a set is above 7, a binding above 65535, or there are no
/// push constant words or some behind the first 64. The place is the number of the line, counted from 1.
/// Of the rules that are broken it is the one at the least line, and there `B2` before `B3`. `NoMemory`
/// where the map can't grow.
pub fn from_text(alloc: Global, bytes: &[u8]) -> Result<Bindings, Halt>
    requires { length bytes.now ≤ 16777216 }
    ensures map { IfOk result (λ bindings. bindings ≡ text_map bytes.now) }
    ensures sound { OnOk result (IsSound (TextBreaks bytes.now)) }
    ensures halted { IfErr result (HaltsBy (TextBreaks bytes.now)) }
{
    let mut bindings = Bindings::empty(alloc);
    let mut rest = bytes;
    let mut line = 0;
    while !rest.is_empty() {
        let (first, behind) = first_line(rest);
        rest = behind;
        line += 1;
        bind(&mut bindings, read_line(first), line)?;
    }
    Ok(bindings)
}

fn refused(rule: Rule, line: u32) -> Halt
    ensures { result ≡ Refused (refusal rule line) }
{
    Halt::Refused(Refusal { rule, place: line })
}
