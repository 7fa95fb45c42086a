//! The code of expressions.
ghost use Rattle.std.specs.Prelude.{◌≡◌, ◌+◌, ◌≤◌, ◌<◌, ◌^◌, [], ◌∷◌, Some, IsTrue};
ghost use Rattle.spirv_words.specs.Roles.{AWord};
ghost use Rattle.spirv_words.specs.Operations.{computes, two};
ghost use Rattle.spirv_words.specs.Values.{Truth, Word as TheWord};
ghost use Rattle.shader_tree.specs.Costs.{words_in, ids_in};
ghost use Rattle.shader_tree.specs.Nodes.{is_expr, is_thread_id};
ghost use Rattle.shader_tree.specs.Terms.{term_at, Word as Literal};
ghost use Rattle.shader_tree.specs.Values.{compares};
ghost use Rattle.spirv_symbols.specs.declared.symbol.Symbol.TheVariants.{Input};
ghost use Rattle.spirv_emit.specs.Begun.{IsBegun, IsThere, Names, built_in_of, is_literal};
ghost use Rattle.spirv_emit.specs.Emission.{words_left, ids_left};
ghost use Rattle.spirv_emit.specs.Expressions.{May, Did};
ghost use Rattle.spirv_emit.specs.Joins.{always, joined, only, given};
ghost use Rattle.spirv_emit.specs.Operations.{row_at, calc, on_words};
ghost use Rattle.spirv_emit.specs.Reads.{thread_of};
ghost use Rattle.spirv_emit.specs.Values.{Gives, Emitted, a_word, a_truth};

use crate::emitter::Emitter;
use kept_values::Word;
use shader_tree::{Comparison, Expr, Space, Tree, cost_laws, word_laws};
use spirv_symbols::Symbol;
use spirv_words::{built_in, op};
use tpf_decode::Kind;

/// The number of a node that is one.
fn literal_at(tree: &Tree, id: u32) -> u32
    requires expression { IsTrue (is_expr tree.now.nodes id) }
    requires literal { IsTrue (is_literal (term_at tree.now.nodes id)) }
    ensures literal { term_at tree.now.nodes id ≡ Literal result }
    ensures fits { result < 2 ^ 32 }
{
    match tree.expr_at(id) {
        Expr::Word(w) => w,
        _ => unreachable!(),
    }
}

impl Emitter {
    /// Whether two words compare so.
    fn compare_words(&mut self, how: Comparison, a: u32, b: u32) -> u32
        requires begun { IsBegun self.old }
        requires words { 6 ≤ words_left self.old }
        requires ids { 1 ≤ ids_left self.old }
        ensures gives { Gives self.old self.new (a_word a ∷ a_word b ∷ []) (a_truth result ∷ [])
            (on_words (λ x y. Truth (compares how x y))) }
        ensures begun { IsBegun self.new }
        ensures words { words_left self.old ≤ words_left self.new + 6 }
        ensures ids { ids_left self.old ≤ ids_left self.new + 1 }
    {
        match how {
            Comparison::Equal => self.compare(op::I_EQUAL, a, b),
            Comparison::Unequal => self.compare(op::I_NOT_EQUAL, a, b),
            Comparison::ULess => self.compare(op::U_LESS_THAN, a, b),
            Comparison::SLess => self.compare(op::S_LESS_THAN, a, b),
            Comparison::UAtLeast => self.compare(op::U_GREATER_THAN_EQUAL, a, b),
            Comparison::SAtLeast => self.compare(op::S_GREATER_THAN_EQUAL, a, b),
        }
    }

    /// An instruction on a word and a number.
    fn with_number(&mut self, op: u32, a: u32, number: u32) -> u32
        requires operation { row_at op ≡ Some (computes op two AWord AWord) }
        requires short { op < 65536 }
        requires begun { IsBegun self.old }
        requires words { 9 ≤ words_left self.old }
        requires ids { 2 ≤ ids_left self.old }
        ensures gives { Gives self.old self.new (a_word a ∷ []) (a_word result ∷ [])
            (only (0 ∷ []) (joined (joined given [] (always (TheWord number))) (1 ∷ 0 ∷ []) (calc op))) }
        ensures begun { IsBegun self.new }
        ensures words { words_left self.old ≤ words_left self.new + 9 }
        ensures ids { ids_left self.old ≤ ids_left self.new + 2 }
    {
        let k = self.constant(number);
        self.two_words(op, a, k)
    }

    /// A component of a thread id.
    fn thread(&mut self, kind: Kind, component: u32) -> u32
        requires kind { IsTrue (is_thread_id kind) }
        requires component { component < 3 }
        requires there { IsThere self.old.symbols.entries (Input (built_in_of kind)) }
        requires begun { IsBegun self.old }
        requires words { 24 ≤ words_left self.old }
        requires ids { 4 ≤ ids_left self.old }
        ensures gives { Gives self.old self.new [] (a_word result ∷ []) (thread_of kind component) }
        ensures begun { IsBegun self.new }
        ensures words { words_left self.old ≤ words_left self.new + 24 }
        ensures ids { ids_left self.old ≤ ids_left self.new + 4 }
    {
        match kind {
            Kind::ThreadId => self.component(built_in::GLOBAL_INVOCATION_ID, component),
            Kind::GroupId => self.component(built_in::WORKGROUP_ID, component),
            Kind::IdInGroup => self.component(built_in::LOCAL_INVOCATION_ID, component),
            Kind::FlatId => self.flat_thread(),
            _ => unreachable!(),
        }
    }

    /// Adds the code of an expression, and returns the id of its value.
    pub fn emit_expression(&mut self, tree: &Tree, id: u32) -> u32
        requires { May tree.now.nodes self.old id }
        ensures { Did self.old self.new (term_at tree.now.nodes id) result }
    {
        word_laws();
        cost_laws();
        match tree.expr_at(id) {
            Expr::Word(w) => self.constant(w),
            Expr::Scratch(n) => self.local_word(Word::Scratch(n), Symbol::Scratch(n)),
            Expr::Thread { kind, component } => self.thread(kind, component as u32),
            Expr::Read { space, word } => match space {
                Space::Temps => if self.frame.separate {
                    let k = literal_at(tree, word);
                    self.local_word(Word::Register(k), Symbol::Register(k))
                } else {
                    let index = self.emit_expression(tree, word);
                    self.array_word(space, Symbol::Registers, index)
                },
                Space::Indexable(slot) => {
                    let index = self.emit_expression(tree, word);
                    self.array_word(space, Symbol::Elements(slot), index)
                }
                Space::Constant(slot) => {
                    let index = self.emit_expression(tree, word);
                    self.buffer_word(slot, index)
                }
                Space::ImmediateConstant => {
                    let index = self.emit_expression(tree, word);
                    self.array_word(space, Symbol::ImmediateArray, index)
                }
            },
            Expr::Length(room) => self.length(room),
            Expr::One { op, a } => {
                let x = self.emit_expression(tree, a);
                self.operate_one(op, x)
            }
            Expr::Two { op, a, b } => {
                let x = self.emit_expression(tree, a);
                let y = self.emit_expression(tree, b);
                self.operate_two(op, x, y)
            }
            Expr::Three { op, a, b, c } => {
                let x = self.emit_expression(tree, a);
                let y = self.emit_expression(tree, b);
                let z = self.emit_expression(tree, c);
                self.operate_three(op, x, y, z)
            }
            Expr::Insert {
                width,
                offset,
                inserted,
                base,
            } => {
                let w = self.emit_expression(tree, width);
                let o = self.emit_expression(tree, offset);
                let x = self.emit_expression(tree, inserted);
                let y = self.emit_expression(tree, base);
                self.insert(w, o, x, y)
            }
            Expr::First { op, a, b } => {
                let x = self.emit_expression(tree, a);
                let y = self.emit_expression(tree, b);
                self.operate_first(op, x, y)
            }
            Expr::Second { op, a, b } => {
                let x = self.emit_expression(tree, a);
                let y = self.emit_expression(tree, b);
                self.operate_second(op, x, y)
            }
            Expr::Quotient { a, by } => {
                let x = self.emit_expression(tree, a);
                self.with_number(op::U_DIV, x, by)
            }
            Expr::Product { a, by } => {
                let x = self.emit_expression(tree, a);
                self.with_number(op::I_MUL, x, by)
            }
            Expr::Pick { truth, yes, no } => {
                let t = self.emit_expression(tree, truth);
                let x = self.emit_expression(tree, yes);
                let y = self.emit_expression(tree, no);
                self.choose(t, x, y)
            }
            Expr::Compare { how, a, b } => {
                let x = self.emit_expression(tree, a);
                let y = self.emit_expression(tree, b);
                self.compare_words(how, x, y)
            }
            Expr::Both { a, b } => {
                let x = self.emit_expression(tree, a);
                let y = self.emit_expression(tree, b);
                self.both_truths(op::LOGICAL_AND, x, y)
            }
        }
    }
}
