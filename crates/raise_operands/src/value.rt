ghost use Rattle.std.specs.Prelude.{◌≡◌, ◌+◌, ◌≤◌, IsTrue, length};
ghost use Rattle.shader_tree.specs.declared.node.Node.TheVariants as node;
ghost use Rattle.shader_tree.specs.Nodes.{AWord, ATruth, a_word, a_truth, has, fits, sort_of};
ghost use Rattle.shader_tree.specs.Terms.{Word, Insert, First, Second, Compare, Pick, term_at, term_by};
ghost use Rattle.shader_tree.specs.declared.node.Comparison.TheVariants.{Unequal};
ghost use Rattle.raise_operands.specs.Building.{Grows, IsNode, StandsFor, IsValue, term_of};
ghost use Rattle.raise_operands.specs.Folding.{added, unary_of, binary_of, ternary_of, insert_of, first_of, second_of, chosen};

use shader_tree::{Comparison, Expr, Stmt, Tree};
use word_base::{Binary, Paired, Ternary, Unary, alu_pair, alu1, alu2, alu3, bfi};

/// A word of a tree: one that is known, or the id of an expression. A literal becomes a node only
/// where a node names it.
#[derive(Clone, Copy, Debug, PartialEq, Eq)]
pub enum Value {
    /// That word.
    Literal(u32),
    /// The word of an expression that is no literal.
    Node(u32),
}

/// Adds an expression.
pub fn expr(tree: &mut Tree, e: Expr) -> u32
    requires fits { IsTrue (fits tree.old.nodes (node.Expr e)) }
    requires room { length tree.old.nodes + 1 ≤ tree.old.capacity }
    ensures grows { Grows tree.old tree.new 1 }
    ensures makes { IsNode tree.new.nodes (sort_of (node.Expr e)) result (term_by (term_at tree.old.nodes)
        (node.Expr e)) }
{
    tree.expr(e)
}

/// The id of the word that a value stands for.
pub fn id_of(tree: &mut Tree, value: Value) -> u32
    requires value { IsValue tree.old.nodes value }
    requires room { length tree.old.nodes + 1 ≤ tree.old.capacity }
    ensures grows { Grows tree.old tree.new 1 }
    ensures makes { IsNode tree.new.nodes AWord result (term_of tree.old.nodes value) }
{
    match value {
        Value::Literal(word) => expr(tree, Expr::Word(word)),
        Value::Node(id) => id,
    }
}

/// The ids of two words.
fn two_ids(tree: &mut Tree, a: Value, b: Value) -> (u32, u32)
    requires a { IsValue tree.old.nodes a }
    requires b { IsValue tree.old.nodes b }
    requires room { length tree.old.nodes + 2 ≤ tree.old.capacity }
    ensures grows { Grows tree.old tree.new 2 }
    ensures a { IsNode tree.new.nodes AWord result.0 (term_of tree.old.nodes a) }
    ensures b { IsNode tree.new.nodes AWord result.1 (term_of tree.old.nodes b) }
{
    let a = id_of(tree, a);
    let b = id_of(tree, b);
    (a, b)
}

/// The ids of three words.
fn three_ids(tree: &mut Tree, a: Value, b: Value, c: Value) -> (u32, u32, u32)
    requires a { IsValue tree.old.nodes a }
    requires b { IsValue tree.old.nodes b }
    requires c { IsValue tree.old.nodes c }
    requires room { length tree.old.nodes + 3 ≤ tree.old.capacity }
    ensures grows { Grows tree.old tree.new 3 }
    ensures a { IsNode tree.new.nodes AWord result.0 (term_of tree.old.nodes a) }
    ensures b { IsNode tree.new.nodes AWord result.1 (term_of tree.old.nodes b) }
    ensures c { IsNode tree.new.nodes AWord result.2 (term_of tree.old.nodes c) }
{
    let (a, b) = two_ids(tree, a, b);
    let c = id_of(tree, c);
    (a, b, c)
}

/// Whether a word is not 0.
fn is_not_zero(tree: &mut Tree, word: u32) -> u32
    requires word { IsTrue (has tree.old.nodes (a_word word)) }
    requires room { length tree.old.nodes + 2 ≤ tree.old.capacity }
    ensures grows { Grows tree.old tree.new 2 }
    ensures makes { IsNode tree.new.nodes ATruth result (Compare Unequal (term_at tree.old.nodes word) (Word 0)) }
{
    let zero = expr(tree, Expr::Word(0));
    expr(
        tree,
        Expr::Compare {
            how: Comparison::Unequal,
            a: word,
            b: zero,
        },
    )
}

/// One of two words, by a truth.
pub fn pick(tree: &mut Tree, truth: u32, yes: u32, no: u32) -> u32
    requires truth { IsTrue (has tree.old.nodes (a_truth truth)) }
    requires yes { IsTrue (has tree.old.nodes (a_word yes)) }
    requires no { IsTrue (has tree.old.nodes (a_word no)) }
    requires room { length tree.old.nodes + 1 ≤ tree.old.capacity }
    ensures grows { Grows tree.old tree.new 1 }
    ensures makes { let term = term_at tree.old.nodes in IsNode tree.new.nodes AWord result (Pick (term truth)
        (term yes) (term no)) }
{
    expr(tree, Expr::Pick { truth, yes, no })
}

/// Two words, in the other order where a truth holds.
#[tactic(auto, using(crate::proofs::Growing::below, crate::proofs::Growing::node_on))]
fn in_order(tree: &mut Tree, truth: u32, a: u32, b: u32) -> (u32, u32)
    requires truth { IsTrue (has tree.old.nodes (a_truth truth)) }
    requires a { IsTrue (has tree.old.nodes (a_word a)) }
    requires b { IsTrue (has tree.old.nodes (a_word b)) }
    requires room { length tree.old.nodes + 2 ≤ tree.old.capacity }
    ensures grows { Grows tree.old tree.new 2 }
    ensures first { let term = term_at tree.old.nodes in IsNode tree.new.nodes AWord result.0 (Pick (term truth)
        (term b) (term a)) }
    ensures second { let term = term_at tree.old.nodes in IsNode tree.new.nodes AWord result.1 (Pick (term truth)
        (term a) (term b)) }
{
    let first = pick(tree, truth, b, a);
    let second = pick(tree, truth, a, b);
    (first, second)
}

/// The sum of a value and a number, modulo 2^32.
pub fn added(tree: &mut Tree, a: Value, n: u32) -> Value
    requires value { IsValue tree.old.nodes a }
    requires room { length tree.old.nodes + 2 ≤ tree.old.capacity }
    ensures grows { Grows tree.old tree.new 2 }
    ensures makes { StandsFor tree.new.nodes result (added (term_of tree.old.nodes a) n) }
{
    match a {
        Value::Literal(word) => Value::Literal(word.wrapping_add(n)),
        Value::Node(_) if n == 0 => a,
        Value::Node(a) => {
            let b = expr(tree, Expr::Word(n));
            Value::Node(expr(
                tree,
                Expr::Two {
                    op: Binary::Iadd,
                    a,
                    b,
                },
            ))
        }
    }
}

/// An operation on one word.
pub fn unary(tree: &mut Tree, op: Unary, a: Value) -> Value
    requires value { IsValue tree.old.nodes a }
    requires room { length tree.old.nodes + 1 ≤ tree.old.capacity }
    ensures grows { Grows tree.old tree.new 1 }
    ensures makes { StandsFor tree.new.nodes result (unary_of op (term_of tree.old.nodes a)) }
{
    match a {
        _ if op == Unary::Mov => a,
        Value::Literal(word) => Value::Literal(alu1(op, word)),
        Value::Node(a) => Value::Node(expr(tree, Expr::One { op, a })),
    }
}

/// The id of an operation on two words.
pub fn binary(tree: &mut Tree, op: Binary, a: Value, b: Value) -> u32
    requires a { IsValue tree.old.nodes a }
    requires b { IsValue tree.old.nodes b }
    requires room { length tree.old.nodes + 3 ≤ tree.old.capacity }
    ensures grows { Grows tree.old tree.new 3 }
    ensures makes { IsNode tree.new.nodes AWord result (binary_of op (term_of tree.old.nodes a)
        (term_of tree.old.nodes b)) }
{
    if let (Value::Literal(a), Value::Literal(b)) = (a, b) {
        return expr(tree, Expr::Word(alu2(op, a, b)));
    }
    let a = id_of(tree, a);
    let b = id_of(tree, b);
    expr(tree, Expr::Two { op, a, b })
}

/// The id of an operation on three words.
pub fn ternary(tree: &mut Tree, op: Ternary, a: Value, b: Value, c: Value) -> u32
    requires a { IsValue tree.old.nodes a }
    requires b { IsValue tree.old.nodes b }
    requires c { IsValue tree.old.nodes c }
    requires room { length tree.old.nodes + 4 ≤ tree.old.capacity }
    ensures grows { Grows tree.old tree.new 4 }
    ensures makes { let nodes = tree.old.nodes in IsNode tree.new.nodes AWord result (ternary_of op (term_of nodes a)
        (term_of nodes b) (term_of nodes c)) }
{
    if let (Value::Literal(a), Value::Literal(b), Value::Literal(c)) = (a, b, c) {
        return expr(tree, Expr::Word(alu3(op, a, b, c)));
    }
    let (a, b, c) = three_ids(tree, a, b, c);
    expr(tree, Expr::Three { op, a, b, c })
}

/// A word with bits of another put into it.
fn insert_node(tree: &mut Tree, width: u32, offset: u32, inserted: u32, base: u32) -> u32
    requires width { IsTrue (has tree.old.nodes (a_word width)) }
    requires offset { IsTrue (has tree.old.nodes (a_word offset)) }
    requires inserted { IsTrue (has tree.old.nodes (a_word inserted)) }
    requires base { IsTrue (has tree.old.nodes (a_word base)) }
    requires room { length tree.old.nodes + 1 ≤ tree.old.capacity }
    ensures grows { Grows tree.old tree.new 1 }
    ensures makes { let term = term_at tree.old.nodes in IsNode tree.new.nodes AWord result (Insert (term width)
        (term offset) (term inserted) (term base)) }
{
    expr(
        tree,
        Expr::Insert {
            width,
            offset,
            inserted,
            base,
        },
    )
}

/// The ids of four words.
fn four_ids(tree: &mut Tree, a: Value, b: Value, c: Value, d: Value) -> (u32, u32, u32, u32)
    requires a { IsValue tree.old.nodes a }
    requires b { IsValue tree.old.nodes b }
    requires c { IsValue tree.old.nodes c }
    requires d { IsValue tree.old.nodes d }
    requires room { length tree.old.nodes + 4 ≤ tree.old.capacity }
    ensures grows { Grows tree.old tree.new 4 }
    ensures a { IsNode tree.new.nodes AWord result.0 (term_of tree.old.nodes a) }
    ensures b { IsNode tree.new.nodes AWord result.1 (term_of tree.old.nodes b) }
    ensures c { IsNode tree.new.nodes AWord result.2 (term_of tree.old.nodes c) }
    ensures d { IsNode tree.new.nodes AWord result.3 (term_of tree.old.nodes d) }
{
    let (a, b, c) = three_ids(tree, a, b, c);
    let d = id_of(tree, d);
    (a, b, c, d)
}

/// The id of a word with bits of another put into it.
pub fn insert(tree: &mut Tree, width: Value, offset: Value, inserted: Value, base: Value) -> u32
    requires width { IsValue tree.old.nodes width }
    requires offset { IsValue tree.old.nodes offset }
    requires inserted { IsValue tree.old.nodes inserted }
    requires base { IsValue tree.old.nodes base }
    requires room { length tree.old.nodes + 5 ≤ tree.old.capacity }
    ensures grows { Grows tree.old tree.new 5 }
    ensures makes { let word = term_of tree.old.nodes in IsNode tree.new.nodes AWord result (insert_of (word width)
        (word offset) (word inserted) (word base)) }
{
    if let (Value::Literal(a), Value::Literal(b), Value::Literal(c), Value::Literal(d)) = (
        width, offset, inserted, base,
    ) {
        return expr(tree, Expr::Word(bfi(a, b, c, d)));
    }
    let (width, offset, inserted, base) = four_ids(tree, width, offset, inserted, base);
    insert_node(tree, width, offset, inserted, base)
}

/// The two words of an operation on two.
#[tactic(auto, using(crate::proofs::Growing::below, crate::proofs::Growing::node_on))]
fn pair_nodes(tree: &mut Tree, op: Paired, a: u32, b: u32) -> (u32, u32)
    requires a { IsTrue (has tree.old.nodes (a_word a)) }
    requires b { IsTrue (has tree.old.nodes (a_word b)) }
    requires room { length tree.old.nodes + 2 ≤ tree.old.capacity }
    ensures grows { Grows tree.old tree.new 2 }
    ensures first { IsNode tree.new.nodes AWord result.0 (First op (term_at tree.old.nodes a)
        (term_at tree.old.nodes b)) }
    ensures second { IsNode tree.new.nodes AWord result.1 (Second op (term_at tree.old.nodes a)
        (term_at tree.old.nodes b)) }
{
    let first = expr(tree, Expr::First { op, a, b });
    let second = expr(tree, Expr::Second { op, a, b });
    (first, second)
}

/// The ids of the two words of an operation on two.
pub fn pair(tree: &mut Tree, op: Paired, a: Value, b: Value) -> (u32, u32)
    requires a { IsValue tree.old.nodes a }
    requires b { IsValue tree.old.nodes b }
    requires room { length tree.old.nodes + 4 ≤ tree.old.capacity }
    ensures grows { Grows tree.old tree.new 4 }
    ensures first { IsNode tree.new.nodes AWord result.0 (first_of op (term_of tree.old.nodes a)
        (term_of tree.old.nodes b)) }
    ensures second { IsNode tree.new.nodes AWord result.1 (second_of op (term_of tree.old.nodes a)
        (term_of tree.old.nodes b)) }
{
    if let (Value::Literal(a), Value::Literal(b)) = (a, b) {
        let (first, second) = alu_pair(op, a, b);
        return two_ids(tree, Value::Literal(first), Value::Literal(second));
    }
    let (a, b) = two_ids(tree, a, b);
    pair_nodes(tree, op, a, b)
}

/// The ids of two words, which change places where a third is not 0.
pub fn swapped(tree: &mut Tree, on: Value, a: Value, b: Value) -> (u32, u32)
    requires on { IsValue tree.old.nodes on }
    requires a { IsValue tree.old.nodes a }
    requires b { IsValue tree.old.nodes b }
    requires room { length tree.old.nodes + 6 ≤ tree.old.capacity }
    ensures grows { Grows tree.old tree.new 6 }
    ensures first { let word = term_of tree.old.nodes in IsNode tree.new.nodes AWord result.0 (chosen (word on)
        (word a) (word b)) }
    ensures second { let word = term_of tree.old.nodes in IsNode tree.new.nodes AWord result.1 (chosen (word on)
        (word b) (word a)) }
{
    let (a, b) = two_ids(tree, a, b);
    match on {
        Value::Literal(0) => (a, b),
        Value::Literal(_) => (b, a),
        Value::Node(on) => {
            let truth = is_not_zero(tree, on);
            in_order(tree, truth, a, b)
        }
    }
}
