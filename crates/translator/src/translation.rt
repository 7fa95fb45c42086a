//! The calls that translate.
ghost use Rattle.std.specs.Prelude.{◌≡◌, ℕ, ◌≤◌, List, [], Contains, length, IfOk, IfErr, OnOk, OnErr};
ghost use Rattle.std.specs.Borrow.{sem};
ghost use Rattle.word_base.specs.Rules.{IsFirst, IsSound};
ghost use Rattle.spirv_words.specs.Versions.{number_of_version};
ghost use Rattle.binding_map.specs.Completeness.{binding_refusals};
ghost use Rattle.translator.specs.Accepted.{IsRead, IsReadSome};
ghost use Rattle.translator.specs.Held.{IsUnused, SameRooms};
ghost use Rattle.translator.specs.Input.{IsBroken, given};
ghost use Rattle.translator.specs.Means.{HasOrderedConstants, Means, TreeMeans};
ghost use Rattle.translator.specs.Rests.{RestsAt};
ghost use Rattle.translator.specs.Shown.{module_tree, module_words};

use crate::laws::lowered_laws;
use crate::lowering::lower;
use crate::view::ModuleView;
use crate::workspace::Workspace;
use binding_map::{Bindings, complete};
use spirv_words::Version;
use word_base::{Refusal, first_laws};

/// Writes the module of the program that was read, in place of what the workspace held. Where a binding is missing,
/// nothing is written.
fn write(work: &mut Workspace, bindings: &Bindings, version: Version) -> Result<(), Refusal>
    requires read { IsReadSome work.old.program }
    ensures means { (room : ℕ) (bytes : List ℕ) → IsRead room bytes work.old.program
        → OnOk result (Means bytes bindings.now (number_of_version version) work.new.text) }
    ensures lent { (room : ℕ) (bytes : List ℕ) → IsRead room bytes work.old.program
        → OnOk result (TreeMeans bytes bindings.now work.new.tree) }
    ensures ordered { OnOk result (HasOrderedConstants work.new.text) }
    ensures bound { OnOk result (binding_refusals work.old.program bindings.now ≡ []) }
    ensures refused { IfErr result (IsFirst (Contains (binding_refusals work.old.program bindings.now))) }
    ensures rooms { SameRooms work.old work.new }
{
    first_laws();
    lowered_laws();
    complete(&work.program, bindings)?;
    work.body = lower(
        &work.program,
        bindings,
        version,
        &mut work.tree,
        &mut work.emitter,
        &mut work.constants,
    );
    Ok(())
}

/// Reads the program of a container and writes its module, in place of what the workspace held. Of a program that is
/// refused nothing is written.
fn build(
    work: &mut Workspace,
    bytes: &[u8],
    bindings: &Bindings,
    version: Version,
) -> Result<(), Refusal>
    requires { length bytes.now ≤ 16777216 }
    ensures means { OnOk result (Means bytes.now bindings.now (number_of_version version) work.new.text) }
    ensures lent { OnOk result (TreeMeans bytes.now bindings.now work.new.tree) }
    ensures ordered { OnOk result (HasOrderedConstants work.new.text) }
    ensures sound { OnOk result (IsSound (IsBroken work.old.words bytes.now (given bindings.now))) }
    ensures refused { IfErr result (IsFirst (IsBroken work.old.words bytes.now (given bindings.now))) }
    ensures rooms { SameRooms work.old work.new }
{
    work.read(bytes)?;
    write(work, bindings, version)
}

/// Translates a container to a module of SPIR-V under a binding map, and lends the module. It takes no memory.
///
/// The workspace holds the module until the next translation; after a refusal it holds none, as when it was made.
///
/// # Errors
///
/// The first broken rule: of the container; of the head of its program, and `M4` at 1 where that names more words than
/// the workspace has room for; of the program's tokens; of its declarations, of what it uses and of its structure; and
/// of its bindings.
pub fn translate<'a>(
    work: &'a mut Workspace,
    bytes: &[u8],
    bindings: &Bindings,
    version: Version,
) -> Result<ModuleView<'a>, Refusal>
    requires { length bytes.now ≤ 16777216 }
    ensures means { IfOk result
        (λ view. Means bytes.now bindings.now (number_of_version version) (module_words view)) }
    ensures lent { IfOk result (λ view. TreeMeans bytes.now bindings.now (module_tree view)) }
    ensures ordered { IfOk result (λ view. HasOrderedConstants (module_words view)) }
    ensures sound { OnOk result (IsSound (IsBroken work.old.words bytes.now (given bindings.now))) }
    ensures refused { IfErr result (IsFirst (IsBroken work.old.words bytes.now (given bindings.now))) }
    ensures* after { sem 𝓛 (RestsAt work.entry (λ last. SameRooms work.old last × OnErr result (IsUnused last))) }
{
    match build(work, bytes, bindings, version) {
        Ok(()) => Ok(ModuleView { work }),
        Err(refusal) => {
            work.clear();
            Err(refusal)
        }
    }
}

/// Translates the program that the workspace read last to a module of SPIR-V under a binding map, and lends the module.
/// It takes no memory.
///
/// The workspace holds the module until the next translation; after a refusal it holds none, as when it was made.
///
/// # Errors
///
/// The first broken rule of the program's bindings. All rules before those were tested when it was read.
pub fn translate_read<'a>(
    work: &'a mut Workspace,
    bindings: &Bindings,
    version: Version,
) -> Result<ModuleView<'a>, Refusal>
    requires read { IsReadSome work.old.program }
    ensures means { (room : ℕ) (bytes : List ℕ) → IsRead room bytes work.old.program → IfOk result
        (λ view. Means bytes bindings.now (number_of_version version) (module_words view)) }
    ensures lent { (room : ℕ) (bytes : List ℕ) → IsRead room bytes work.old.program → IfOk result
        (λ view. TreeMeans bytes bindings.now (module_tree view)) }
    ensures ordered { IfOk result (λ view. HasOrderedConstants (module_words view)) }
    ensures bound { OnOk result (binding_refusals work.old.program bindings.now ≡ []) }
    ensures refused { IfErr result (IsFirst (Contains (binding_refusals work.old.program bindings.now))) }
    ensures* after { sem 𝓛 (RestsAt work.entry (λ last. SameRooms work.old last × OnErr result (IsUnused last))) }
{
    match write(work, bindings, version) {
        Ok(()) => Ok(ModuleView { work }),
        Err(refusal) => {
            work.clear();
            Err(refusal)
        }
    }
}
