ghost use Rattle.std.specs.Prelude.{◌≡◌, ◌+◌, ◌<◌, ◌≤◌, IsTrue, None, length};
ghost use Rattle.shader_tree.specs.Nodes.{AWord, ATruth, a_word, has};
ghost use Rattle.shader_tree.specs.Terms.{Compare, Product, term_at};
ghost use Rattle.shader_tree.specs.declared.node.Comparison.TheVariants.{ULess};
ghost use Rattle.raise_operands.specs.Building.{Grows, IsNode};
ghost use Rattle.raise_operands.specs.Folding.{literal};
ghost use Rattle.raise_views.specs.Reaching.{index_of, index_test, is_known, known_or, place, structure_by, structure_test, structures, sum_by, test, word_of};
ghost use Rattle.raise_views.specs.Making.{IsWordOf, base_nodes, base_of, more};

use crate::address::{Address, Reach, Way};
use raise_operands::expr;
use shader_tree::{Comparison, Expr, Tree};
use word_base::{Binary, Room};

/// A word that is known, or is kept in a scratch word.
fn known_or(tree: &mut Tree, scratch: u32, word: Option<u32>) -> u32
    requires room { length tree.old.nodes + 1 ≤ tree.old.capacity }
    ensures grows { Grows tree.old tree.new 1 }
    ensures makes { IsNode tree.new.nodes AWord result (known_or scratch word) }
{
    match word {
        Some(word) => expr(tree, Expr::Word(word)),
        None => expr(tree, Expr::Scratch(scratch)),
    }
}

/// The word of an address at a component, in its structure or in the room.
#[tactic(auto, using(crate::proofs::Growing::base_least))]
fn word_of(tree: &mut Tree, address: Address, c: u8) -> u32
    requires component { c < 4 }
    requires room { length tree.old.nodes + base_nodes c ≤ tree.old.capacity }
    ensures grows { Grows tree.old tree.new (base_nodes c) }
    ensures makes { IsNode tree.new.nodes AWord result (word_of address c) }
{
    if let Some(word) = address.word {
        return expr(tree, Expr::Word(word.wrapping_add(u32::from(c))));
    }
    let word = expr(tree, Expr::Scratch(10));
    if c == 0 {
        return word;
    }
    let component = expr(tree, Expr::Word(u32::from(c)));
    expr(
        tree,
        Expr::Two {
            op: Binary::Iadd,
            a: word,
            b: component,
        },
    )
}

/// The number of structures of so many words that a room has.
pub(crate) fn structures(tree: &mut Tree, words: u32, room: Room) -> u32
    requires room { length tree.old.nodes + 2 ≤ tree.old.capacity }
    ensures grows { Grows tree.old tree.new 2 }
    ensures makes { IsNode tree.new.nodes AWord result (structures words room) }
{
    if words == 0 {
        return expr(tree, Expr::Word(0));
    }
    let length = expr(tree, Expr::Length(room));
    expr(
        tree,
        Expr::Quotient {
            a: length,
            by: words,
        },
    )
}

/// Whether a word is below another.
fn below(tree: &mut Tree, a: u32, b: u32) -> u32
    requires a { IsTrue (has tree.old.nodes (a_word a)) }
    requires b { IsTrue (has tree.old.nodes (a_word b)) }
    requires room { length tree.old.nodes + 1 ≤ tree.old.capacity }
    ensures grows { Grows tree.old tree.new 1 }
    ensures makes { let term = term_at tree.old.nodes in IsNode tree.new.nodes ATruth result (Compare ULess (term a)
        (term b)) }
{
    expr(
        tree,
        Expr::Compare {
            how: Comparison::ULess,
            a,
            b,
        },
    )
}

/// Whether the index of an address is in range.
pub(crate) fn index_test(tree: &mut Tree, words: u32, room: Room, address: Address) -> u32
    requires room { length tree.old.nodes + 4 ≤ tree.old.capacity }
    ensures grows { Grows tree.old tree.new 4 }
    ensures makes { IsNode tree.new.nodes ATruth result (index_test words room (index_of address)) }
{
    let index = known_or(tree, 11, address.index);
    let structures = structures(tree, words, room);
    below(tree, index, structures)
}

/// Whether the index of an address is in range, and a word lies in its structure.
fn structure_test(tree: &mut Tree, words: u32, room: Room, address: Address, word: u32) -> u32
    requires word { IsTrue (has tree.old.nodes (a_word word)) }
    requires room { length tree.old.nodes + 7 ≤ tree.old.capacity }
    ensures grows { Grows tree.old tree.new 7 }
    ensures makes { IsNode tree.new.nodes ATruth result (structure_test words room (index_of address)
        (term_at tree.old.nodes word)) }
{
    let index = index_test(tree, words, room, address);
    let size = expr(tree, Expr::Word(words));
    let inside = below(tree, word, size);
    expr(
        tree,
        Expr::Both {
            a: index,
            b: inside,
        },
    )
}

/// Whether a component lies in the structure of an address: of a word that is known to, the index alone
/// is tested.
fn inside_test(tree: &mut Tree, words: u32, reach: Reach, c: u8, word: u32) -> u32
    requires component { c < 4 }
    requires word { IsNode tree.old.nodes AWord word (word_of reach.address c) }
    requires room { length tree.old.nodes + 7 ≤ tree.old.capacity }
    ensures grows { Grows tree.old tree.new 7 }
    ensures makes { let a = reach.address in
        IsNode tree.new.nodes ATruth result (structure_by (literal (word_of a c)) words reach.room (index_of a) (word_of a c)) }
{
    match reach.address.word {
        Some(known) if known.wrapping_add(u32::from(c)) < words => {
            index_test(tree, words, reach.room, reach.address)
        }
        _ => structure_test(tree, words, reach.room, reach.address, word),
    }
}

/// Whether a component is in range.
pub(crate) fn test(tree: &mut Tree, reach: Reach, c: u8, word: u32) -> u32
    requires component { c < 4 }
    requires word { IsWordOf tree.old.nodes reach.address c word }
    requires room { length tree.old.nodes + (2 + more reach.address.way) ≤ tree.old.capacity }
    ensures grows { Grows tree.old tree.new (2 + more reach.address.way) }
    ensures makes { IsNode tree.new.nodes ATruth result (test reach c) }
{
    match reach.address.way {
        Way::Structures(words) => inside_test(tree, words, reach, c, word),
        _ => {
            let length = expr(tree, Expr::Length(reach.room));
            below(tree, word, length)
        }
    }
}

/// The word from which the test of a component and its place are made.
#[tactic(auto, using(crate::proofs::Growing::base_least))]
pub(crate) fn base(tree: &mut Tree, address: Address, c: u8) -> u32
    requires component { c < 4 }
    requires room { length tree.old.nodes + base_nodes c ≤ tree.old.capacity }
    ensures grows { Grows tree.old tree.new (base_nodes c) }
    ensures makes { IsWordOf tree.new.nodes address c result }
{
    match address.way {
        Way::Words => known_or(tree, 10, address.word),
        _ => word_of(tree, address, c),
    }
}

/// The sum of a word and a component's word, which may be known.
fn sum(tree: &mut Tree, a: u32, address: Address, c: u8, word: u32) -> u32
    requires component { c < 4 }
    requires a { IsTrue (has tree.old.nodes (a_word a)) }
    requires word { IsNode tree.old.nodes AWord word (word_of address c) }
    requires product { literal (term_at tree.old.nodes a) ≡ None }
    requires room { length tree.old.nodes + 1 ≤ tree.old.capacity }
    ensures grows { Grows tree.old tree.new 1 }
    ensures makes { IsNode tree.new.nodes AWord result (sum_by (literal (word_of address c))
        (term_at tree.old.nodes a) (word_of address c)) }
{
    match address.word {
        Some(known) if known.wrapping_add(u32::from(c)) == 0 => a,
        _ => expr(
            tree,
            Expr::Two {
                op: Binary::Iadd,
                a,
                b: word,
            },
        ),
    }
}

/// The place of a component in a room of structures.
fn place_inside(tree: &mut Tree, words: u32, address: Address, c: u8, word: u32) -> u32
    requires component { c < 4 }
    requires word { IsNode tree.old.nodes AWord word (word_of address c) }
    requires room { length tree.old.nodes + 3 ≤ tree.old.capacity }
    ensures grows { Grows tree.old tree.new 3 }
    ensures makes { IsNode tree.new.nodes AWord result (sum_by (literal (word_of address c)) (Product
        (index_of address) words) (word_of address c)) }
{
    let index = known_or(tree, 11, address.index);
    let start = expr(
        tree,
        Expr::Product {
            a: index,
            by: words,
        },
    );
    sum(tree, start, address, c, word)
}

/// The place of a component in its room.
pub(crate) fn place(tree: &mut Tree, reach: Reach, c: u8, word: u32) -> u32
    requires component { c < 4 }
    requires word { IsWordOf tree.old.nodes reach.address c word }
    requires room { length tree.old.nodes + 3 ≤ tree.old.capacity }
    ensures grows { Grows tree.old tree.new 3 }
    ensures makes { IsNode tree.new.nodes AWord result (place reach c) }
{
    match reach.address.way {
        Way::Structures(words) => place_inside(tree, words, reach.address, c, word),
        _ => word,
    }
}

/// Whether a component is in range in any setting.
pub(crate) fn is_known(reach: Reach, c: u8) -> bool
    requires component { c < 4 }
    ensures { result ≡ is_known reach c }
{
    let a = reach.address;
    match (a.way, a.word, a.index) {
        (Way::Bytes, Some(word), _) => u64::from(word) + u64::from(c) < reach.known,
        (Way::Structures(words), Some(word), Some(index)) => {
            words != 0
                && u64::from(index) < reach.known / u64::from(words)
                && u64::from(word) + u64::from(c) < u64::from(words)
        }
        (Way::Words, Some(word), _) => u64::from(word) < reach.known,
        _ => false,
    }
}
