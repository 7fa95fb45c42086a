//! Atomics.
ghost use Rattle.std.specs.Prelude.{◌≡◌, ◌+◌, ◌<◌, ◌≤◌, [], ◌∷◌, IsTrue};
ghost use Rattle.shader_tree.specs.Nodes.{has, a_word as the_word};
ghost use Rattle.shader_tree.specs.Shape.{Changes as ChangesRoom};
ghost use Rattle.shader_tree.specs.Terms.{term_at, Atomic as Acting};
ghost use Rattle.spirv_emit.specs.Begun.{IsBegun};
ghost use Rattle.spirv_emit.specs.Blocks.{Meets, Atomics};
ghost use Rattle.spirv_emit.specs.Emission.{words_left, ids_left};
ghost use Rattle.spirv_emit.specs.Rooms.{IsOne, number_of_act};
ghost use Rattle.spirv_emit.specs.Spending.{IsReady, Spends};
ghost use Rattle.spirv_emit.specs.Steps.{Changes, Exchanges};

use crate::emitter::Emitter;
use kept_values::Word;
use shader_tree::Tree;
use spirv_words::op;
use word_base::{Act, Room};

/// The number of an atomic.
fn act_number(kind: Act) -> u32
    ensures number { result ≡ number_of_act kind }
    ensures short { result < 65536 }
{
    match kind {
        Act::Add => op::ATOMIC_I_ADD,
        Act::Sub => op::ATOMIC_I_SUB,
        Act::And => op::ATOMIC_AND,
        Act::Or => op::ATOMIC_OR,
        Act::Xor => op::ATOMIC_XOR,
        Act::SMax => op::ATOMIC_S_MAX,
        Act::SMin => op::ATOMIC_S_MIN,
        Act::UMax => op::ATOMIC_U_MAX,
        Act::UMin => op::ATOMIC_U_MIN,
        Act::Exchange => op::ATOMIC_EXCHANGE,
        Act::CompareExchange => op::ATOMIC_COMPARE_EXCHANGE,
    }
}

impl Emitter {
    /// Adds an atomic with one value, by its number: the scope is the device, and no memory is ordered.
    fn change(&mut self, kind: Act, pointer: u32, value: u32) -> u32
        requires one { IsOne kind }
        requires begun { IsBegun self.old }
        requires words { 7 ≤ words_left self.old }
        requires ids { 1 ≤ ids_left self.old }
        ensures changes { Changes self.old self.new kind pointer value result }
        ensures begun { IsBegun self.new }
        ensures words { words_left self.old ≤ words_left self.new + 7 }
        ensures ids { ids_left self.old ≤ ids_left self.new + 1 }
    {
        let type_id = self.word_type();
        let device = self.one();
        let unordered = self.zero();
        self.value(
            act_number(kind),
            type_id,
            &[pointer, device, unordered, value],
        )
    }

    /// Adds an atomic that compares.
    fn exchange(&mut self, pointer: u32, expected: u32, value: u32) -> u32
        requires begun { IsBegun self.old }
        requires words { 9 ≤ words_left self.old }
        requires ids { 1 ≤ ids_left self.old }
        ensures exchanges { Exchanges self.old self.new pointer expected value result }
        ensures begun { IsBegun self.new }
        ensures words { words_left self.old ≤ words_left self.new + 9 }
        ensures ids { ids_left self.old ≤ ids_left self.new + 1 }
    {
        let type_id = self.word_type();
        let device = self.one();
        let unordered = self.zero();
        let operands = [pointer, device, unordered, unordered, value, expected];
        self.value(op::ATOMIC_COMPARE_EXCHANGE, type_id, &operands)
    }

    /// `atomic` with one value.
    fn atomic_change(
        &mut self,
        tree: &Tree,
        scratch: u32,
        room: Room,
        index: u32,
        kind: Act,
        a: u32,
        b: u32,
    )
        requires one { IsOne kind }
        requires index { IsTrue (has tree.now.nodes (the_word index)) }
        requires first { IsTrue (has tree.now.nodes (the_word a)) }
        requires ready { IsReady self.old (Acting scratch room (term_at tree.now.nodes index) kind
            (term_at tree.now.nodes a) (term_at tree.now.nodes b)) }
        ensures meets { Meets self.old self.new (ChangesRoom room kind)
            (Atomics scratch room (term_at tree.now.nodes index) kind
            (term_at tree.now.nodes a) (term_at tree.now.nodes b)) }
        ensures spends { Spends self.old self.new (Acting scratch room (term_at tree.now.nodes index) kind
            (term_at tree.now.nodes a) (term_at tree.now.nodes b)) }
    {
        let _ = b;
        let at = self.emit_word(tree, index);
        let first = self.emit_word(tree, a);
        let pointer = self.room_pointer(room, at);
        let word = self.change(kind, pointer, first);
        self.assign(Word::Scratch(scratch), word);
    }

    /// `atomic` that compares.
    fn atomic_exchange(&mut self, tree: &Tree, scratch: u32, room: Room, index: u32, a: u32, b: u32)
        requires index { IsTrue (has tree.now.nodes (the_word index)) }
        requires first { IsTrue (has tree.now.nodes (the_word a)) }
        requires second { IsTrue (has tree.now.nodes (the_word b)) }
        requires ready { IsReady self.old (Acting scratch room (term_at tree.now.nodes index) Act.CompareExchange
            (term_at tree.now.nodes a) (term_at tree.now.nodes b)) }
        ensures meets { Meets self.old self.new (ChangesRoom room Act.CompareExchange)
            (Atomics scratch room (term_at tree.now.nodes index) Act.CompareExchange
            (term_at tree.now.nodes a) (term_at tree.now.nodes b)) }
        ensures spends { Spends self.old self.new
            (Acting scratch room (term_at tree.now.nodes index) Act.CompareExchange
            (term_at tree.now.nodes a) (term_at tree.now.nodes b)) }
    {
        let at = self.emit_word(tree, index);
        let first = self.emit_word(tree, a);
        let second = self.emit_word(tree, b);
        let pointer = self.room_pointer(room, at);
        let word = self.exchange(pointer, first, second);
        self.assign(Word::Scratch(scratch), word);
    }

    /// Changes the word of a room at an index in one step, an event, and gives the word that was there to a scratch
    /// word. The index must be inside.
    pub fn atomic(
        &mut self,
        tree: &Tree,
        scratch: u32,
        room: Room,
        index: u32,
        kind: Act,
        a: u32,
        b: u32,
    )
        requires index { IsTrue (has tree.now.nodes (the_word index)) }
        requires first { IsTrue (has tree.now.nodes (the_word a)) }
        requires second { IsTrue (has tree.now.nodes (the_word b)) }
        requires ready { IsReady self.old (Acting scratch room (term_at tree.now.nodes index) kind
            (term_at tree.now.nodes a) (term_at tree.now.nodes b)) }
        ensures meets { Meets self.old self.new (ChangesRoom room kind)
            (Atomics scratch room (term_at tree.now.nodes index) kind
            (term_at tree.now.nodes a) (term_at tree.now.nodes b)) }
        ensures spends { Spends self.old self.new (Acting scratch room (term_at tree.now.nodes index) kind
            (term_at tree.now.nodes a) (term_at tree.now.nodes b)) }
    {
        match kind {
            Act::CompareExchange => self.atomic_exchange(tree, scratch, room, index, a, b),
            _ => self.atomic_change(tree, scratch, room, index, kind, a, b),
        }
    }
}
