//! Statements.
ghost use Rattle.std.specs.Prelude.{◌≡◌, ◌<◌, [], ◌∷◌, IsTrue};
ghost use Rattle.shader_tree.specs.Nodes.{has, a_word as the_word};
ghost use Rattle.shader_tree.specs.Shape.{Loads as LoadsRoom, Stores as StoresRoom};
ghost use Rattle.shader_tree.specs.Terms.{term_at, Set, Load as Loading, Store as Storing};
ghost use Rattle.spirv_emit.specs.Blocks.{Alters, Meets, Sets, Loads, Stores};
ghost use Rattle.spirv_emit.specs.Expressions.{May, Did};
ghost use Rattle.spirv_emit.specs.Spending.{IsReady, Spends};
ghost use Rattle.spirv_emit.specs.Values.{Gives, a_word, valued};

use crate::emitter::Emitter;
use kept_values::Word;
use shader_tree::Tree;
use spirv_words::op;
use word_base::Room;

impl Emitter {
    /// Adds the code of an expression that is a word.
    pub(crate) fn emit_word(&mut self, tree: &Tree, id: u32) -> u32
        requires word { IsTrue (has tree.now.nodes (the_word id)) }
        requires may { May tree.now.nodes self.old id }
        ensures gives { Gives self.old self.new [] (a_word result ∷ []) (valued (term_at tree.now.nodes id)) }
        ensures did { Did self.old self.new (term_at tree.now.nodes id) result }
    {
        self.emit_expression(tree, id)
    }

    /// Gives a scratch word the value of an expression.
    pub fn set(&mut self, tree: &Tree, scratch: u32, value: u32)
        requires word { IsTrue (has tree.now.nodes (the_word value)) }
        requires ready { IsReady self.old (Set scratch (term_at tree.now.nodes value)) }
        ensures alters { Alters self.old self.new (Sets scratch (term_at tree.now.nodes value)) }
        ensures spends { Spends self.old self.new (Set scratch (term_at tree.now.nodes value)) }
    {
        let word = self.emit_word(tree, value);
        self.assign(Word::Scratch(scratch), word);
    }

    /// Loads the word of a room at an index, an event, into a scratch word. The index must be inside.
    pub fn load(&mut self, tree: &Tree, scratch: u32, room: Room, index: u32)
        requires index { IsTrue (has tree.now.nodes (the_word index)) }
        requires ready { IsReady self.old (Loading scratch room (term_at tree.now.nodes index)) }
        ensures meets { Meets self.old self.new (LoadsRoom room) (Loads scratch room (term_at tree.now.nodes index)) }
        ensures spends { Spends self.old self.new (Loading scratch room (term_at tree.now.nodes index)) }
    {
        let at = self.emit_word(tree, index);
        let pointer = self.room_pointer(room, at);
        let type_id = self.word_type();
        let word = self.value(op::LOAD, type_id, &[pointer]);
        self.assign(Word::Scratch(scratch), word);
    }

    /// Stores the value of an expression to the word of a room at an index, an event. The index must be inside.
    pub fn store(&mut self, tree: &Tree, room: Room, index: u32, value: u32)
        requires index { IsTrue (has tree.now.nodes (the_word index)) }
        requires value { IsTrue (has tree.now.nodes (the_word value)) }
        requires ready { IsReady self.old (Storing room (term_at tree.now.nodes index) (term_at tree.now.nodes value)) }
        ensures meets { Meets self.old self.new (StoresRoom room)
            (Stores room (term_at tree.now.nodes index) (term_at tree.now.nodes value)) }
        ensures spends { Spends self.old self.new
            (Storing room (term_at tree.now.nodes index) (term_at tree.now.nodes value)) }
    {
        let at = self.emit_word(tree, index);
        let word = self.emit_word(tree, value);
        let pointer = self.room_pointer(room, at);
        self.act(op::STORE, &[pointer, word]);
    }
}
