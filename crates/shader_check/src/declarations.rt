ghost use Rattle.std.specs.Prelude.{◌≡◌, ◌<◌, ◌^◌, ◌+◌, ℕ, Some, [], min, nat_lt, true};
ghost use Rattle.std.specs.List.{list_any};
ghost use Rattle.word_base.specs.Rules.{first};
ghost use Rattle.tpf_program.specs.Declarations.{is_group, is_within, has_structures, is_stride};
ghost use Rattle.tpf_program.specs.Declarations.{is_shared_size, has_sizes, shared_bytes, register_count};
ghost use Rattle.tpf_program.specs.Program.{AreApart, AreInOrder};
ghost use Rattle.shader_check.specs.FirstRefusals.{is_of_declarations, is_passed, or_refusal, passes_some};
ghost use Rattle.shader_check.specs.FirstRefusals.{rule_behind, thing_refusals};
ghost use Rattle.shader_check.specs.Things.{used_before};

use crate::things::Things;
use crate::uses::refused_before;
use tpf_program::{Declaration, Declared, Program, SharedKind, ViewKind};
use word_base::{Refusal, Rule};

/// The most bytes of shared memory that a program may declare.
const MOST_BYTES: u64 = 32768;

/// The most registers r# and elements of x# that a program may declare.
const MOST_REGISTERS: u64 = 4096;

/// A declaration of the thread group, of whatever size.
const GROUP: Declaration = Declaration::Group { x: 0, y: 0, z: 0 };

/// Whether a thread group may have these sizes.
fn is_group_size(x: u32, y: u32, z: u32) -> bool
    ensures { result ≡ is_group x y z }
{
    (1..=1024).contains(&x) && (1..=1024).contains(&y) && (1..=64).contains(&z) && x * y * z <= 1024
}

/// Whether shared memory by structures has at least one.
fn has_some(kind: SharedKind) -> bool
    ensures { result ≡ has_structures kind }
{
    match kind {
        SharedKind::Raw { .. } => true,
        SharedKind::Structured { count, .. } => count >= 1,
    }
}

/// Whether what a declaration names is within its own limits.
fn is_limited(what: Declaration) -> bool
    ensures { result ≡ is_within what }
{
    match what {
        Declaration::Constants { slot, size } => slot < 14 && (1..=4096).contains(&size),
        Declaration::Resource { slot, .. } => slot < 128,
        Declaration::Uav { slot, .. } => slot < 64,
        Declaration::Shared { slot, kind } => slot < 64 && has_some(kind),
        Declaration::Indexable {
            slot,
            count,
            components,
        } => slot < 4096 && count >= 1 && (1..=4).contains(&components),
        Declaration::Group { x, y, z } => is_group_size(x, y, z),
        _ => true,
    }
}

/// Whether a view may have its stride.
fn is_view_size(view: ViewKind) -> bool
    ensures { result ≡ is_stride view }
{
    match view {
        ViewKind::Raw => true,
        ViewKind::Structured { stride } => stride % 4 == 0 && (4..=2048).contains(&stride),
    }
}

/// Whether shared memory may have its size or its stride.
fn is_memory_size(kind: SharedKind) -> bool
    ensures { result ≡ is_shared_size kind }
{
    match kind {
        SharedKind::Raw { bytes } => bytes % 4 == 0 && bytes >= 4,
        SharedKind::Structured { stride, .. } => stride % 4 == 0 && stride >= 4,
    }
}

/// Whether the sizes of a declaration are whole words within their limits.
fn is_sized(what: Declaration) -> bool
    ensures { result ≡ has_sizes what }
{
    match what {
        Declaration::Resource { view, .. } | Declaration::Uav { view, .. } => is_view_size(view),
        Declaration::Shared { kind, .. } => is_memory_size(kind),
        _ => true,
    }
}

/// The bytes of shared memory that a declaration takes.
fn bytes_of(what: Declaration) -> u64
    ensures { result ≡ shared_bytes what }
{
    match what {
        Declaration::Shared { kind, .. } => match kind {
            SharedKind::Raw { bytes } => u64::from(bytes),
            SharedKind::Structured { stride, count } => u64::from(stride) * u64::from(count),
        },
        _ => 0,
    }
}

/// The registers r# and the elements of x# that a declaration takes.
fn registers_of(what: Declaration) -> u64
    ensures { result ≡ register_count what }
{
    match what {
        Declaration::Temps(count) | Declaration::Indexable { count, .. } => u64::from(count),
        _ => 0,
    }
}

/// What the declarations so far take of what they share. A sum that does not fit stays at the greatest
/// number.
#[derive(Clone, Copy)]
struct Taken {
    /// Bytes of shared memory.
    bytes: u64,
    /// Registers r# and elements of x#.
    registers: u64,
}

/// Whether a sum passes its limit by what is added.
fn passes(limit: u64, taken: u64, more: u64) -> bool
    ensures { result ≡ is_passed limit taken more }
{
    taken <= limit && more > limit - taken
}

/// Whether a declaration passes a limit, where so much is taken before it.
fn is_past(taken: Taken, what: Declaration) -> bool
    ensures { result ≡ passes_some taken.bytes taken.registers what }
{
    !is_limited(what)
        || passes(MOST_BYTES, taken.bytes, bytes_of(what))
        || passes(MOST_REGISTERS, taken.registers, registers_of(what))
}

impl Taken {
    /// Nothing is taken.
    const NOTHING: Taken = Taken {
        bytes: 0,
        registers: 0,
    };

    /// With what one more declaration takes.
    fn with(self, what: Declaration) -> Taken
        ensures bytes { result.bytes ≡ min (self.bytes + shared_bytes what) 18446744073709551615 }
        ensures registers { result.registers ≡ min (self.registers + register_count what) 18446744073709551615 }
    {
        Taken {
            bytes: self.bytes.saturating_add(bytes_of(what)),
            registers: self.registers.saturating_add(registers_of(what)),
        }
    }
}

/// The first rule that a declaration breaks behind others, of which that is kept and which take so much,
/// where an instruction stands at that least place.
fn rule_of_declaration(
    things: &Things,
    earliest: u32,
    taken: Taken,
    declared: Declared,
) -> Option<Rule>
    ensures { result ≡ rule_behind things.now earliest taken.bytes taken.registers declared }
{
    if things.has(declared.what) {
        Some(Rule::L1)
    } else if earliest < declared.place {
        Some(Rule::L2)
    } else if is_past(taken, declared.what) {
        Some(Rule::L3)
    } else if !is_sized(declared.what) {
        Some(Rule::L7)
    } else {
        None
    }
}

/// The place of the first instruction, and the greatest number where there is none.
fn earliest_place(program: &Program) -> u32
    requires order { AreInOrder (λ i. i.place) program.now.shader.words program.now.shader.instructions }
    ensures { (place : ℕ) → place < 2 ^ 32
        → list_any (λ i. nat_lt i.place place) program.now.shader.instructions ≡ nat_lt result place }
{
    if program.instructions() == 0 {
        return u32::MAX;
    }
    program.instruction(0).place
}

/// The refusal of a rule on declarations that is broken, or that of a use before its place.
fn with_uses(program: &Program, things: &Things, refusal: Refusal) -> Refusal
    ensures { Some result ≡ or_refusal (used_before things.now refusal.place program.now.shader.instructions) refusal }
{
    match refused_before(program, things, refusal.place) {
        Some(earlier) => earlier,
        None => refusal,
    }
}

/// The first rule that the declarations break, or what instructions use.
///
/// A declaration that stands behind an instruction breaks a rule. So up to the first one that breaks any
/// all instructions see all declarations before it.
pub(crate) fn refused_things(program: &Program) -> Option<Refusal>
    requires untyped { program.now.shader.typed ≡ [] }
    requires declarations { AreInOrder (λ d. d.place) program.now.shader.words program.now.shader.declarations }
    requires instructions { AreInOrder (λ i. i.place) program.now.shader.words program.now.shader.instructions }
    requires apart { AreApart program.now.shader.declarations program.now.shader.instructions }
    ensures first { result ≡ first (thing_refusals program.now.shader) }
    ensures phase { is_of_declarations result ≡ true }
{
    let earliest = earliest_place(program);
    let mut things = Things::none();
    let mut taken = Taken::NOTHING;
    for i in 0..program.declarations() {
        let declared = program.declaration(i);
        if let Some(rule) = rule_of_declaration(&things, earliest, taken, declared) {
            let place = declared.place;
            return Some(with_uses(program, &things, Refusal { rule, place }));
        }
        things.declare(declared.what);
        taken = taken.with(declared.what);
    }
    let place = program.words();
    if things.has(GROUP) {
        return refused_before(program, &things, place);
    }
    let rule = Rule::L4;
    Some(with_uses(program, &things, Refusal { rule, place }))
}
