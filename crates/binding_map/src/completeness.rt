ghost use Rattle.std.specs.Prelude.{◌≡◌, [], Some, IfErr, OnOk};
ghost use Rattle.std.specs.Option.{option_map};
ghost use Rattle.word_base.specs.declared.rule.Rule.TheVariants.{B1};
ghost use Rattle.word_base.specs.Rules.{first, refusal};
ghost use Rattle.binding_map.specs.Completeness.{binding_refusals, is_unbound, lesser_place};

use crate::bindings::Bindings;
use crate::register::Register;
use tpf_program::{Declaration, Program};
use word_base::{Refusal, Rule, first_laws};

/// Whether a declaration is of a constant buffer without a binding.
pub(crate) fn lacks_binding(bindings: &Bindings, what: Declaration) -> bool
    ensures { result ≡ is_unbound bindings.now what }
{
    match what {
        Declaration::Constants { slot, .. } => {
            bindings.place_of(Register::Constant(slot)).is_none()
        }
        _ => false,
    }
}

/// The lesser of two places, where there may be no first one.
fn lesser(least: Option<u32>, place: u32) -> u32
    ensures { result ≡ lesser_place least place }
{
    match least {
        Some(before) if before < place => before,
        _ => place,
    }
}

/// The least place at which a constant buffer without a binding is declared.
fn least_unbound(program: &Program, bindings: &Bindings) -> Option<u32>
    ensures { option_map (refusal B1) result ≡ first (binding_refusals program.now.shader bindings.now) }
{
    let mut least = None;
    for i in 0..program.declarations() {
        let declared = program.declaration(i);
        if lacks_binding(bindings, declared.what) {
            least = Some(lesser(least, declared.place));
        }
    }
    least
}

/// Whether each constant buffer that a program declares has a binding. A view or counter without one
/// is null, which is allowed. It takes no memory.
///
/// # Errors
///
/// `B1` at the least place of a declaration of a constant buffer without a binding.
pub fn complete(program: &Program, bindings: &Bindings) -> Result<(), Refusal>
    ensures ok { OnOk result (binding_refusals program.now.shader bindings.now ≡ []) }
    ensures refused { IfErr result (λ r. first (binding_refusals program.now.shader bindings.now) ≡ Some r) }
{
    first_laws();
    match least_unbound(program, bindings) {
        None => Ok(()),
        Some(place) => Err(Refusal {
            rule: Rule::B1,
            place,
        }),
    }
}
