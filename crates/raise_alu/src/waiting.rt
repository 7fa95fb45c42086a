ghost use Rattle.std.specs.Prelude.{◌≡◌, ◌+◌, ◌<◌, ◌≤◌, IsTrue, false, if◌then◌else◌, length};
ghost use Rattle.shader_tree.specs.Nodes.{a_word, has};
ghost use Rattle.shader_tree.specs.Terms.{Nothing};
ghost use Rattle.raise_alu.specs.Computing.{is_double, is_single, writes_first, writes_second};
ghost use Rattle.raise_alu.specs.Waits.{is_read, are_read, is_near, shares, first_reads, first_is_read, second_reads, second_is_read, stands_behind, second_is_late, now_of, behind_of, turn_nodes};
ghost use Rattle.raise_operands.specs.Building.{CanWrite, Grows, IsStep, is_written, seen, known_target};
ghost use Rattle.raise_operands.specs.Vectors.{Outside};

use crate::statement::{Steps, write_in_turn};
use raise_operands::{
    Operand, Operands, Place, Vector, in_mask, is_written, meets, selected, target,
};
use shader_tree::Tree;
use tpf_decode::Meaning;

/// The steps of a component that is not written.
pub(crate) const NONE: Steps = Steps {
    now: None,
    behind: None,
};

/// Whether a source reads, for the component `d`, what may be the component `c` of a vector.
fn is_read(operand: &Operand, to: Vector, c: u8, d: u8) -> bool
    requires { d < 4 }
    ensures { result ≡ is_read (seen to) c d operand.now }
{
    meets(
        to,
        c,
        operand.place.vector,
        selected(operand.argument.select, d),
    )
}

/// Whether a source may name the register of a vector.
fn is_near(operand: &Operand, to: Vector) -> bool
    ensures { result ≡ is_near (seen to) operand.now }
{
    meets(to, 0, operand.place.vector, 0)
}

/// Whether one of the sources does.
fn are_read(meaning: Meaning, operands: &Operands, to: Vector, c: u8, d: u8) -> bool
    requires { d < 4 }
    ensures { result ≡ are_read meaning operands.now (seen to) c d }
{
    let o = operands;
    match meaning {
        Meaning::One(_) => is_read(&o.o1, to, c, d),
        Meaning::Two(_) => is_read(&o.o1, to, c, d) || is_read(&o.o2, to, c, d),
        Meaning::Three(_) => {
            is_read(&o.o1, to, c, d) || is_read(&o.o2, to, c, d) || is_read(&o.o3, to, c, d)
        }
        Meaning::Inserts => {
            is_read(&o.o1, to, c, d)
                || is_read(&o.o2, to, c, d)
                || is_read(&o.o3, to, c, d)
                || is_read(&o.o4, to, c, d)
        }
        Meaning::Pair(_) => is_read(&o.o2, to, c, d) || is_read(&o.o3, to, c, d),
        Meaning::Swaps => {
            is_read(&o.o2, to, c, d) || is_read(&o.o3, to, c, d) || is_read(&o.o4, to, c, d)
        }
        _ => false,
    }
}

/// Whether one of the sources may name the register of a vector, in whatever component.
fn shares(meaning: Meaning, operands: &Operands, to: Vector) -> bool
    ensures { result ≡ shares meaning operands.now (seen to) }
{
    let o = operands;
    match meaning {
        Meaning::One(_) => is_near(&o.o1, to),
        Meaning::Two(_) => is_near(&o.o1, to) || is_near(&o.o2, to),
        Meaning::Three(_) => is_near(&o.o1, to) || is_near(&o.o2, to) || is_near(&o.o3, to),
        Meaning::Inserts => {
            is_near(&o.o1, to) || is_near(&o.o2, to) || is_near(&o.o3, to) || is_near(&o.o4, to)
        }
        Meaning::Pair(_) => is_near(&o.o2, to) || is_near(&o.o3, to),
        Meaning::Swaps => is_near(&o.o2, to) || is_near(&o.o3, to) || is_near(&o.o4, to),
        _ => false,
    }
}

/// Whether an instruction has two destinations.
pub(crate) fn is_double(meaning: Meaning) -> bool
    ensures { result ≡ is_double meaning }
{
    match meaning {
        Meaning::Pair(_) | Meaning::Swaps => true,
        _ => false,
    }
}

/// Whether an instruction has one destination.
fn is_single(meaning: Meaning) -> bool
    ensures { result ≡ is_single meaning }
{
    match meaning {
        Meaning::One(_) | Meaning::Two(_) | Meaning::Three(_) | Meaning::Inserts => true,
        _ => false,
    }
}

/// Whether an instruction writes a component of its first destination.
pub(crate) fn writes_first(meaning: Meaning, operands: &Operands, c: u8) -> bool
    requires { c < 4 }
    ensures { result ≡ writes_first meaning operands.now.instruction c }
{
    (is_single(meaning) || is_double(meaning)) && is_written(&operands.instruction.o0, c)
}

/// Whether an instruction writes a component of its second destination.
pub(crate) fn writes_second(meaning: Meaning, operands: &Operands, c: u8) -> bool
    requires { c < 4 }
    ensures { result ≡ writes_second meaning operands.now.instruction c }
{
    is_double(meaning) && is_written(&operands.instruction.o1, c)
}

/// Whether a component of the first destination is read for the component `d` of what is written later.
fn first_reads(meaning: Meaning, operands: &Operands, c: u8, d: u8) -> bool
    requires { d < 4 }
    ensures { result ≡ first_reads meaning operands.now c d }
{
    (c < d && writes_first(meaning, operands, d) || writes_second(meaning, operands, d))
        && are_read(meaning, operands, target(operands.o0), c, d)
}

/// Whether a component of the first destination is read by what is written later.
#[tactic(auto, using(crate::proofs::Near::unread_first))]
fn first_is_read(meaning: Meaning, operands: &Operands, c: u8) -> bool
    ensures { result ≡ first_is_read meaning operands.now c }
{
    shares(meaning, operands, target(operands.o0))
        && (first_reads(meaning, operands, c, 0)
            || first_reads(meaning, operands, c, 1)
            || first_reads(meaning, operands, c, 2)
            || first_reads(meaning, operands, c, 3))
}

/// Whether a component of the second destination is read for a later one, `d`.
fn second_reads(meaning: Meaning, operands: &Operands, c: u8, d: u8) -> bool
    requires { d < 4 }
    ensures { result ≡ second_reads meaning operands.now c d }
{
    c < d
        && writes_second(meaning, operands, d)
        && are_read(meaning, operands, target(operands.o1), c, d)
}

/// Whether a component of the second destination is read for a later one.
#[tactic(auto, using(crate::proofs::Near::unread_second))]
fn second_is_read(meaning: Meaning, operands: &Operands, c: u8) -> bool
    ensures { result ≡ second_is_read meaning operands.now c }
{
    shares(meaning, operands, target(operands.o1))
        && (second_reads(meaning, operands, c, 0)
            || second_reads(meaning, operands, c, 1)
            || second_reads(meaning, operands, c, 2)
            || second_reads(meaning, operands, c, 3))
}

/// Whether a component of the second destination may be that of the first, which waits.
fn stands_behind(meaning: Meaning, operands: &Operands, c: u8) -> bool
    requires { c < 4 }
    ensures { result ≡ stands_behind meaning operands.now c }
{
    in_mask(operands.instruction.o0.select, c)
        && first_is_read(meaning, operands, c)
        && meets(target(operands.o0), c, target(operands.o1), c)
}

/// Whether a component of the second destination waits.
fn second_is_late(meaning: Meaning, operands: &Operands, c: u8) -> bool
    requires { c < 4 }
    ensures { result ≡ second_is_late meaning operands.now c }
{
    second_is_read(meaning, operands, c) || stands_behind(meaning, operands, c)
}

/// What is done for a component of a destination that is written: nothing where it names no register.
fn turn(tree: &mut Tree, operand: &Operand, c: u8, value: u32, scratch: u32, waits: bool) -> Steps
    requires place { CanWrite tree.old.nodes
        (known_target operand.now) operand.now.place.number operand.now.place.kept }
    requires value { IsTrue (has tree.old.nodes (a_word value)) }
    requires component { c < 4 }
    requires outside { seen (known_target operand.now) ≡ Outside → waits ≡ false }
    requires room { length tree.old.nodes + turn_nodes (known_target operand.now) c ≤ tree.old.capacity }
    ensures grows { Grows tree.old tree.new (turn_nodes (known_target operand.now) c) }
    ensures now { IsStep tree.new.nodes result.now (now_of tree.old.nodes operand.now c value scratch waits) }
    ensures behind { IsStep tree.new.nodes result.behind (behind_of tree.old.nodes operand.now c scratch waits) }
{
    let vector = target(*operand);
    if let Vector::Outside = vector {
        return NONE;
    }
    let place = Place {
        number: operand.place.number,
        vector,
        kept: operand.place.kept,
    };
    write_in_turn(tree, place, c, value, scratch, waits)
}

/// What is done for a component of the first destination.
pub(crate) fn first_turn(
    tree: &mut Tree,
    meaning: Meaning,
    operands: &Operands,
    c: u8,
    value: u32,
) -> Steps
    requires place { CanWrite tree.old.nodes
        (known_target operands.now.o0) operands.now.o0.place.number operands.now.o0.place.kept }
    requires value { IsTrue (has tree.old.nodes (a_word value)) }
    requires component { c < 4 }
    requires room { length tree.old.nodes + turn_nodes (known_target operands.now.o0) c ≤ tree.old.capacity }
    ensures grows { Grows tree.old tree.new (turn_nodes (known_target operands.now.o0) c) }
    ensures now { let now = now_of tree.old.nodes operands.now.o0 c value
        (10 + c) (first_is_read meaning operands.now c) in
        IsStep tree.new.nodes result.now
        (if writes_first meaning operands.now.instruction c then now else Nothing) }
    ensures behind { let behind = behind_of tree.old.nodes operands.now.o0 c
        (10 + c) (first_is_read meaning operands.now c) in
        IsStep tree.new.nodes result.behind
        (if writes_first meaning operands.now.instruction c then behind else Nothing) }
{
    if !writes_first(meaning, operands, c) {
        return NONE;
    }
    let waits = first_is_read(meaning, operands, c);
    turn(tree, &operands.o0, c, value, 10 + u32::from(c), waits)
}

/// What is done for a component of the second destination.
pub(crate) fn second_turn(
    tree: &mut Tree,
    meaning: Meaning,
    operands: &Operands,
    c: u8,
    value: u32,
) -> Steps
    requires place { CanWrite tree.old.nodes
        (known_target operands.now.o1) operands.now.o1.place.number operands.now.o1.place.kept }
    requires value { IsTrue (has tree.old.nodes (a_word value)) }
    requires component { c < 4 }
    requires room { length tree.old.nodes + turn_nodes (known_target operands.now.o1) c ≤ tree.old.capacity }
    ensures grows { Grows tree.old tree.new (turn_nodes (known_target operands.now.o1) c) }
    ensures now { let now = now_of tree.old.nodes operands.now.o1 c value
        (14 + c) (second_is_late meaning operands.now c) in
        IsStep tree.new.nodes result.now
        (if writes_second meaning operands.now.instruction c then now else Nothing) }
    ensures behind { let behind = behind_of tree.old.nodes operands.now.o1 c
        (14 + c) (second_is_late meaning operands.now c) in
        IsStep tree.new.nodes result.behind
        (if writes_second meaning operands.now.instruction c then behind else Nothing) }
{
    if !writes_second(meaning, operands, c) {
        return NONE;
    }
    let waits = second_is_late(meaning, operands, c);
    turn(tree, &operands.o1, c, value, 14 + u32::from(c), waits)
}
