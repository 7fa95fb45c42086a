ghost use Rattle.std.specs.Prelude.{◌≡◌, ◌≤◌, length, IfOk, IfErr, OnOk};
ghost use Rattle.word_base.specs.Rules.{HaltsBy, IsSound};
ghost use Rattle.root_signature.specs.Covering.{covers_of};
ghost use Rattle.root_signature.specs.Refusals.{IsBroken, IsBrokenIn};
ghost use Rattle.root_signature.specs.Parts.{AreParts};
ghost use Rattle.root_signature.specs.Signatures.{Reads};

use crate::covers::Entry;
use crate::entries::{Found, all_entries};
use crate::overlaps::overlap_refusal;
use crate::refusals::{head_refusal, listed_refusal, merged};
use crate::runs::{Test, run_lengths};
use crate::signature::RootSignature;
use dxbc_container::{container_laws, sole};
use std::alloc::Global;
use word_base::{Halt, NoMemory, Refusal, Rule, byte_laws};

/// The tag `RTS0`.
const RTS0: u32 = 0x30535452;

/// Reads the entries of the data of a root signature, and finds its first broken rule.
fn read_parts(alloc: Global, content: &[u8]) -> Result<(Vec<Entry>, Option<Refusal>), NoMemory>
    requires { length content.now ≤ 16777216 }
    ensures { IfOk result (λ parts. AreParts content.now parts.0.items parts.1) }
{
    if content.len() < 12 {
        return Ok((Vec::new(alloc), head_refusal(content)));
    }
    let known = run_lengths(alloc, content, Test::Known)?;
    let listed = listed_refusal(content, &known);
    let bare = run_lengths(alloc, content, Test::Bare)?;
    let Found { entries, again, .. } = all_entries(alloc, content, &bare)?;
    let overlap = overlap_refusal(alloc, &entries)?;
    Ok((entries, merged(listed, merged(again, overlap))))
}

/// Reads the data of a root signature.
fn read(alloc: Global, content: &[u8]) -> Result<RootSignature, Halt>
    requires { length content.now ≤ 16777216 }
    ensures read { IfOk result (λ s. s ≡ covers_of content.now) }
    ensures sound { OnOk result (IsSound (IsBrokenIn content.now)) }
    ensures halted { IfErr result (HaltsBy (IsBrokenIn content.now)) }
{
    byte_laws(content);
    match read_parts(alloc, content) {
        Ok((entries, None)) => Ok(RootSignature { entries }),
        Ok((_, Some(refusal))) => Err(Halt::Refused(refusal)),
        Err(NoMemory) => Err(Halt::NoMemory),
    }
}

/// Reads the one chunk `RTS0` of a container: the entries that cover something, in the order of covering.
///
/// (Direct3D 12: serialized root signatures of version 1.0 and 1.1.)
///
/// # Errors
///
/// `Refused` with the first of the rules G1 to G6 that is broken: G6 before all others, then by place in
/// bytes from the beginning of the chunk's data, then by number. `NoMemory` where memory is wanted.
pub fn parse(alloc: Global, bytes: &[u8]) -> Result<RootSignature, Halt>
    requires { length bytes.now ≤ 16777216 }
    ensures read { IfOk result (λ s. Reads bytes.now s) }
    ensures sound { OnOk result (IsSound (IsBroken bytes.now)) }
    ensures halted { IfErr result (HaltsBy (IsBroken bytes.now)) }
{
    container_laws();
    let Ok(part) = sole(bytes, RTS0) else {
        return Err(Halt::Refused(Refusal {
            rule: Rule::G6,
            place: 0,
        }));
    };
    let start = part.start as usize;
    read(alloc, &bytes[start..start + part.size as usize])
}
