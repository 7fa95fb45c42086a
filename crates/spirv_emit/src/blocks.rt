//! The instructions that begin, fill and end blocks.
ghost use Rattle.std.specs.Prelude.{◌≡◌, ◌+◌, ◌*◌, ◌≤◌, ◌<◌, ◌^◌, [], ◌∷◌};
ghost use Rattle.kept_values.specs.Tables.{dirty_in};
ghost use Rattle.spirv_symbols.specs.declared.symbol.Symbol.TheVariants.{True as AlwaysTrue};
ghost use Rattle.spirv_emit.specs.Begun.{IsBegun};
ghost use Rattle.spirv_emit.specs.Blocks.{Begins, Ends, branch, branch_if, selection_merge, loop_merge, leave, switch_head};
ghost use Rattle.spirv_emit.specs.Emission.{words_left, ids_left};
ghost use Rattle.spirv_emit.specs.Steps.{Named, Takes, TakesRow, Lengthens};

use crate::emitter::Emitter;
use spirv_symbols::Symbol;
use spirv_words::op;

impl Emitter {
    /// The constant truth that holds.
    pub fn always(&self) -> u32
        requires { IsBegun self.now }
        ensures { Named self.now self.now AlwaysTrue result }
    {
        self.id_of(Symbol::True)
    }

    /// An id for a label.
    pub fn fresh_label(&mut self) -> u32
        requires begun { IsBegun self.old }
        requires ids { 1 ≤ ids_left self.old }
        ensures takes { Takes self.old self.new result }
        ensures begun { IsBegun self.new }
        ensures words { words_left self.new ≡ words_left self.old }
        ensures ids { ids_left self.old ≤ ids_left self.new + 1 }
    {
        self.fresh()
    }

    /// Ids for so many labels, in a row; returns the first.
    pub fn fresh_labels(&mut self, count: u32) -> u32
        requires begun { IsBegun self.old }
        requires ids { count ≤ ids_left self.old }
        ensures takes { TakesRow self.old self.new result count }
        ensures short { result + count < 2 ^ 32 }
        ensures begun { IsBegun self.new }
        ensures words { words_left self.new ≡ words_left self.old }
        ensures ids { ids_left self.old ≤ ids_left self.new + count }
    {
        for _ in 0..count {
            self.fresh();
        }
        self.symbols.next() - count
    }

    /// Begins a block with its label. No word is kept in it yet, and none may wait.
    pub fn label(&mut self, label: u32)
        requires begun { IsBegun self.old }
        requires clean { dirty_in self.old.kept ≡ [] }
        requires words { 2 ≤ words_left self.old }
        ensures begins { Begins self.old self.new label }
        ensures begun { IsBegun self.new }
        ensures words { words_left self.old ≤ words_left self.new + 2 }
        ensures ids { ids_left self.new ≡ ids_left self.old }
    {
        self.act(op::LABEL, &[label]);
        self.forget();
    }

    /// Ends a block by a branch to a label.
    pub fn branch(&mut self, label: u32)
        requires begun { IsBegun self.old }
        requires words { 2 ≤ words_left self.old }
        ensures ends { Ends self.old self.new (branch label) }
        ensures begun { IsBegun self.new }
        ensures words { words_left self.old ≤ words_left self.new + 2 }
        ensures ids { ids_left self.new ≡ ids_left self.old }
    {
        self.act(op::BRANCH, &[label]);
    }

    /// Ends a block by a branch to one of two labels, by a truth.
    pub fn branch_if(&mut self, truth: u32, yes: u32, no: u32)
        requires begun { IsBegun self.old }
        requires words { 4 ≤ words_left self.old }
        ensures ends { Ends self.old self.new (branch_if truth yes no) }
        ensures begun { IsBegun self.new }
        ensures words { words_left self.old ≤ words_left self.new + 4 }
        ensures ids { ids_left self.new ≡ ids_left self.old }
    {
        self.act(op::BRANCH_CONDITIONAL, &[truth, yes, no]);
    }

    /// Says in front of the end of a selection's first block where its blocks meet.
    pub fn selection_merge(&mut self, merge: u32)
        requires begun { IsBegun self.old }
        requires words { 3 ≤ words_left self.old }
        ensures ends { Ends self.old self.new (selection_merge merge) }
        ensures begun { IsBegun self.new }
        ensures words { words_left self.old ≤ words_left self.new + 3 }
        ensures ids { ids_left self.new ≡ ids_left self.old }
    {
        self.act(op::SELECTION_MERGE, &[merge, 0]);
    }

    /// Says in front of the end of a loop's first block where it ends, and where it goes on.
    pub fn loop_merge(&mut self, merge: u32, next: u32)
        requires begun { IsBegun self.old }
        requires words { 4 ≤ words_left self.old }
        ensures ends { Ends self.old self.new (loop_merge merge next) }
        ensures begun { IsBegun self.new }
        ensures words { words_left self.old ≤ words_left self.new + 4 }
        ensures ids { ids_left self.new ≡ ids_left self.old }
    {
        self.act(op::LOOP_MERGE, &[merge, next, 0]);
    }

    /// Adds the head of an instruction that branches by a word: to the label of the case with its value, of so many
    /// cases, or else to `other`. The cases must follow at once.
    pub fn switch(&mut self, on: u32, other: u32, count: u32)
        requires begun { IsBegun self.old }
        requires short { 2 * count + 3 < 65536 }
        requires words { 3 ≤ words_left self.old }
        ensures adds { Lengthens self.old self.new (switch_head on other count) }
        ensures begun { IsBegun self.new }
        ensures words { words_left self.old ≤ words_left self.new + 3 }
        ensures ids { ids_left self.new ≡ ids_left self.old }
    {
        self.add(65_536 * (2 * count + 3) + op::SWITCH);
        self.add(on);
        self.add(other);
    }

    /// Adds a case of such an instruction, a value and a label.
    pub fn case(&mut self, value: u32, label: u32)
        requires begun { IsBegun self.old }
        requires words { 2 ≤ words_left self.old }
        ensures adds { Lengthens self.old self.new (value ∷ label ∷ []) }
        ensures begun { IsBegun self.new }
        ensures words { words_left self.old ≤ words_left self.new + 2 }
        ensures ids { ids_left self.new ≡ ids_left self.old }
    {
        self.add(value);
        self.add(label);
    }

    /// Adds one word.
    fn add(&mut self, word: u32)
        requires begun { IsBegun self.old }
        requires words { 1 ≤ words_left self.old }
        ensures adds { Lengthens self.old self.new (word ∷ []) }
        ensures begun { IsBegun self.new }
        ensures words { words_left self.old ≤ words_left self.new + 1 }
        ensures ids { ids_left self.new ≡ ids_left self.old }
    {
        self.code.push(word);
    }

    /// Ends a block by a return. What waits is not written.
    pub fn leave(&mut self)
        requires begun { IsBegun self.old }
        requires words { 1 ≤ words_left self.old }
        ensures ends { Ends self.old self.new leave }
        ensures begun { IsBegun self.new }
        ensures words { words_left self.old ≤ words_left self.new + 1 }
        ensures ids { ids_left self.new ≡ ids_left self.old }
    {
        self.act(op::RETURN, &[]);
    }
}
