//! Nodes of trees, and words that are known.
use raise_operands::{Value, binary, insert, pair, ternary};
use shader_tree::{Comparison, Expr, Node, Space, Stmt, Tree};
use std::test::Fail;
use tpf_decode::Kind;
use word_base::{Binary, Paired, Room, Ternary};

/// A tree that is filled to its last node, read back, and cleared: a guarded load of the thread's word.
#[test]
fn nodes_are_numbered_read_and_cleared(rt: HostRuntime) -> Result<(), Fail> {
    let mut tree = Tree::make(rt.alloc(), 5)?;
    let room = Room::Uav(0);
    let thread = Expr::Thread {
        kind: Kind::ThreadId,
        component: 0,
    };
    let word = tree.expr(thread);
    let length = tree.expr(Expr::Length(room));
    let truth = tree.expr(Expr::Compare {
        how: Comparison::ULess,
        a: word,
        b: length,
    });
    let load = Stmt::Load {
        scratch: 7,
        room,
        word,
    };
    let body = tree.stmt(load);
    let guard = tree.stmt(Stmt::Guard { truth, body });
    tree.set_root(guard);
    assert_eq!(rt; (word, length, truth, body, guard), (0, 1, 2, 3, 4));
    assert_eq!(rt; (tree.root(), tree.room(), tree.nodes().len()), (4, 0, 5));
    assert_eq!(rt;
        (tree.expr_at(word), tree.stmt_at(body), tree.nodes().get(3)),
        (thread, load, Node::Stmt(load))
    );
    tree.clear();
    assert_eq!(rt; (tree.room(), tree.nodes().len()), (5, 0));
    assert_eq!(rt; tree.stmt(Stmt::Nothing), 0);
    Ok(())
}

/// What a node names may stand anywhere in front of it, also in front of the last root.
#[test]
fn nodes_are_shared(rt: HostRuntime) -> Result<(), Fail> {
    let mut tree = Tree::make(rt.alloc(), 6)?;
    let word = tree.expr(Expr::Word(4));
    let read = tree.expr(Expr::Read {
        space: Space::Temps,
        word,
    });
    let value = tree.expr(Expr::Two {
        op: Binary::Iadd,
        a: read,
        b: read,
    });
    let write = tree.stmt(Stmt::Write {
        space: Space::Temps,
        word,
        value,
    });
    tree.set_root(write);
    let both = tree.stmt(Stmt::Then {
        first: write,
        next: write,
    });
    assert_eq!(rt; tree.root(), write);
    tree.set_root(both);
    assert_eq!(rt; (tree.root(), tree.room()), (4, 1));
    Ok(())
}

/// Words that are known are computed at once: bits of a field at the edge of a word, shifts by more than
/// 31 bits, and a quotient by zero.
#[test]
fn literals_are_folded(rt: HostRuntime) -> Result<(), Fail> {
    let word = Value::Literal;
    let mut tree = Tree::make(rt.alloc(), 32)?;
    let field = ternary(
        &mut tree,
        Ternary::Ibfe,
        word(31),
        word(31),
        word(0x80000000),
    );
    let shift = binary(&mut tree, Binary::Ishl, word(3), word(33));
    let inserted = insert(&mut tree, word(8), word(28), word(0xAB), word(0x12345678));
    let (quotient, rest) = pair(&mut tree, Paired::Udiv, word(7), word(0));
    for (node, want) in rows! {
        (field, 0xFFFFFFFF);
        (shift, 6);
        (inserted, 0xB2345678);
        (quotient, 0xFFFFFFFF);
        (rest, 0xFFFFFFFF);
    } {
        assert!(rt; node < tree.nodes().len());
        assert_eq!(rt; tree.nodes().get(node), Node::Expr(Expr::Word(want)));
    }
    assert_eq!(rt; tree.nodes().len(), 5);
    Ok(())
}
