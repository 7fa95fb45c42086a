//! Writes to words of the lane.
ghost use Rattle.std.specs.Prelude.{◌≡◌, Some, true, false, IsTrue};
ghost use Rattle.shader_tree.specs.Nodes.{has, a_word as the_word};
ghost use Rattle.shader_tree.specs.Terms.{term_at, Write};
ghost use Rattle.shader_tree.specs.declared.node.Space.TheVariants.{Temps};
ghost use Rattle.spirv_emit.specs.Begun.{IsThere};
ghost use Rattle.spirv_emit.specs.Blocks.{Alters, Writes};
ghost use Rattle.spirv_emit.specs.Reads.{written_array};
ghost use Rattle.spirv_emit.specs.Spending.{IsReady, Spends};

use crate::emitter::Emitter;
use kept_values::Word;
use shader_tree::{Expr, Space, Tree};
use spirv_symbols::Symbol;
use spirv_words::{op, storage_class};

impl Emitter {
    /// Gives a word of r# the value of an expression, where each has a variable of its own.
    fn write_register(&mut self, tree: &Tree, index: u32, value: u32)
        requires index { IsTrue (has tree.now.nodes (the_word index)) }
        requires value { IsTrue (has tree.now.nodes (the_word value)) }
        requires separate { self.old.frame.separate ≡ true }
        requires ready { IsReady self.old (Write Temps (term_at tree.now.nodes index) (term_at tree.now.nodes value)) }
        ensures alters { Alters self.old self.new
            (Writes Temps (term_at tree.now.nodes index) (term_at tree.now.nodes value)) }
        ensures spends { Spends self.old self.new
            (Write Temps (term_at tree.now.nodes index) (term_at tree.now.nodes value)) }
    {
        match tree.expr_at(index) {
            Expr::Word(k) => {
                let word = self.emit_word(tree, value);
                self.assign(Word::Register(k), word);
            },
            _ => unreachable!(),
        }
    }

    /// Writes the value of an expression to a word of an array.
    fn write_array(&mut self, tree: &Tree, space: Space, variable: Symbol, index: u32, value: u32)
        requires index { IsTrue (has tree.now.nodes (the_word index)) }
        requires value { IsTrue (has tree.now.nodes (the_word value)) }
        requires array { written_array space ≡ Some variable }
        requires used { space ≡ Temps → self.old.frame.separate ≡ false }
        requires there { IsThere self.old.symbols.entries variable }
        requires ready { IsReady self.old (Write space (term_at tree.now.nodes index) (term_at tree.now.nodes value)) }
        ensures alters { Alters self.old self.new
            (Writes space (term_at tree.now.nodes index) (term_at tree.now.nodes value)) }
        ensures spends { Spends self.old self.new
            (Write space (term_at tree.now.nodes index) (term_at tree.now.nodes value)) }
    {
        let at = self.emit_word(tree, index);
        let word = self.emit_word(tree, value);
        let array = self.id_of(variable);
        let pointer = self.pointer(storage_class::FUNCTION);
        let place = self.value(op::ACCESS_CHAIN, pointer, &[array, at]);
        self.act(op::STORE, &[place, word]);
        self.drop_elements();
    }

    /// Gives the word of a space at an index the value of an expression. The index must be inside. Words of
    /// constants are not written: the lane is wrong there.
    pub fn write(&mut self, tree: &Tree, space: Space, index: u32, value: u32)
        requires index { IsTrue (has tree.now.nodes (the_word index)) }
        requires value { IsTrue (has tree.now.nodes (the_word value)) }
        requires ready { IsReady self.old (Write space (term_at tree.now.nodes index) (term_at tree.now.nodes value)) }
        ensures alters { Alters self.old self.new
            (Writes space (term_at tree.now.nodes index) (term_at tree.now.nodes value)) }
        ensures spends { Spends self.old self.new
            (Write space (term_at tree.now.nodes index) (term_at tree.now.nodes value)) }
    {
        match space {
            Space::Temps => {
                if self.frame.separate {
                    self.write_register(tree, index, value);
                } else {
                    self.write_array(tree, space, Symbol::Registers, index, value);
                }
            },
            Space::Indexable(slot) => self.write_array(
                tree,
                space,
                Symbol::Elements(slot),
                index,
                value,
            ),
            Space::Constant(_) => {},
            Space::ImmediateConstant => {},
        }
    }
}
