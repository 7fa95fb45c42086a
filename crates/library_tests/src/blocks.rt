//! The words of a module, and the blocks of a tree.
ghost use Rattle.std.specs.Prelude.{◌≡◌, ◌≤◌, [], length, IsTrue};
ghost use Rattle.shader_tree.specs.Nodes.{are_nodes, has, a_word as the_word};
ghost use Rattle.shader_tree.specs.Costs.{words_in, ids_in};
ghost use Rattle.shader_tree.specs.Terms.{term_at, Set};
ghost use Rattle.spirv_emit.specs.Begun.{IsNew, IsUnsaid, Names};
ghost use Rattle.spirv_emit.specs.declared.emitter.Emitter.{Emitter as Emission};

use shader_tree::{Comparison, Expr, Node, Stmt, Tree};
use spirv_emit::{Emitter, Sizes};
use spirv_flow::emit_tree;
use spirv_symbols::{Ascending, Kind};
use std::test::Fail;
use word_base::Ternary;

/// Writes a module whose function gives the scratch word 0 the value of a node. Returns whether these are its words.
fn writes(
    emitter: &mut Emitter,
    tree: &Tree,
    value: u32,
    constants: &mut Ascending,
    expected: &[u32],
) -> bool
    requires new { IsNew emitter.old }
    requires unsaid { IsUnsaid emitter.old.frame }
    requires ids { emitter.old.symbols.limit ≡ 100 }
    requires words { emitter.old.code.capacity ≡ 500 }
    requires word { IsTrue (has tree.now.nodes (the_word value)) }
    requires names { (e : Emission) → Names e (Set 0 (term_at tree.now.nodes value)) }
    requires cost { words_in (Set 0 (term_at tree.now.nodes value)) ≤ 200 }
    requires count { ids_in (Set 0 (term_at tree.now.nodes value)) ≤ 50 }
    requires constants { constants.old.capacity ≡ 100 }
    ensures ids { emitter.new.symbols.limit ≡ 100 }
    ensures words { emitter.new.code.capacity ≡ 500 }
    ensures constants { constants.new.capacity ≡ 100 }
{
    emitter.start();
    emitter.set(tree, 0, value);
    emitter.flush();
    emitter.leave();
    let kind = Kind {
        version: 0x1_0300,
        x: 64,
        y: 2,
        z: 1,
    };
    let body = emitter.finish(kind, constants);
    let mut same = emitter.len() as usize == expected.len();
    for (i, word) in expected.iter().enumerate() {
        same = same && i < emitter.len() as usize && emitter.word(body, i as u32) == *word;
    }
    same
}

/// The words of the module below, counted from the specification.
const MODULE: [u32; 128] = [
    0x07230203, 0x1_0300, 0, 27, 0, // the header: all ids are below 27
    0x2_0011, 1, // OpCapability Shader
    0x6_000B, 9, 0x4C534C47, 0x6474732E, 0x3035342E, 0, // OpExtInstImport "GLSL.std.450"
    0x3_000E, 0, 1, // OpMemoryModel Logical GLSL450
    0x5_000F, 5, 7, 0x6E69616D, 0, // OpEntryPoint GLCompute "main"
    0x6_0010, 7, 17, 64, 2, 1, // OpExecutionMode LocalSize
    0x4_0015, 1, 32, 0, // OpTypeInt
    0x4_001E, 2, 1, 1, // OpTypeStruct
    0x2_0014, 3, // OpTypeBool
    0x2_0013, 5, // OpTypeVoid
    0x3_0021, 6, 5, // OpTypeFunction
    0x4_0020, 10, 7, 1, 0x4_0020, 11, 1, 1, // OpTypePointer Function, Input
    0x4_0020, 12, 2, 1, 0x4_0020, 13, 9, 1, // OpTypePointer Uniform, PushConstant
    0x4_0020, 14, 12, 1, 0x4_0020, 15, 4, 1, // OpTypePointer StorageBuffer, Workgroup
    0x4_002B, 1, 16, 0, 0x4_002B, 1, 17, 1, // OpConstant 0, 1
    0x4_002B, 1, 18, 4, 0x4_002B, 1, 23, 7, // OpConstant 4, 7
    0x4_002B, 1, 22, 9, 0x4_002B, 1, 19, 31, // OpConstant 9, 31
    0x4_002B, 1, 20, 32, 0x4_002B, 1, 21, 0xFFFFFFFF, // OpConstant 32, 4294967295
    0x3_0029, 3, 4, // OpConstantTrue
    0x5_0036, 5, 7, 0, 6, // OpFunction
    0x2_00F8, 8, // OpLabel
    0x5_003B, 10, 26, 7, 16, // OpVariable Function
    0x5_0084, 1, 24, 22, 23, // OpIMul
    0x5_0080, 1, 25, 24, 22, // OpIAdd
    0x3_003E, 26, 25, // OpStore
    0x1_00FD, // OpReturn
    0x1_0038, // OpFunctionEnd
];

/// Room for so many ids, words and scratch words.
fn sizes(ids: u32, words: u32, scratch: u32) -> Sizes
    ensures { (result.ids ≡ ids) × (result.words ≡ words) }
{
    Sizes {
        ids,
        words,
        declared: 0,
        buffers: 0,
        scratch,
        registers: 0,
    }
}

/// New constants come as 9, 7 and 9 again: they are listed in ascending order, and those of 9 have one id. Behind
/// another module, that of 7 alone, the words of the first come again. They come too where no scratch word has a place
/// among those that wait: the store is then behind the value, at once.
#[test]
fn constants_ascend_in_each_module(rt: HostRuntime) -> Result<(), Fail> {
    let mut tree = Tree::make(rt.alloc(), 4)?;
    let nine = tree.expr(Expr::Word(9));
    let seven = tree.expr(Expr::Word(7));
    let again = tree.expr(Expr::Word(9));
    let whole = tree.expr(Expr::Three {
        op: Ternary::Umad,
        a: nine,
        b: seven,
        c: again,
    });
    let mut constants = Ascending::make(rt.alloc(), 100)?;
    let mut emitter = Emitter::make(rt.alloc(), sizes(100, 500, 1))?;
    assert!(rt; writes(&mut emitter, &tree, whole, &mut constants, &MODULE));
    emitter.clear();
    assert!(rt; !writes(&mut emitter, &tree, seven, &mut constants, &MODULE));
    emitter.clear();
    assert!(rt; writes(&mut emitter, &tree, whole, &mut constants, &MODULE));
    let mut emitter = Emitter::make(rt.alloc(), sizes(100, 500, 0))?;
    assert!(rt; writes(&mut emitter, &tree, whole, &mut constants, &MODULE));
    Ok(())
}

/// A loop with a switch that falls through its default, a break, a continue and a return in it, and dead code behind
/// each.
const LOOP: [Node; 26] = rows! {
    Node::Expr(Expr::Word(1));
    Node::Expr(Expr::Scratch(0));
    Node::Expr(Expr::Compare { how: Comparison::ULess, a: 1, b: 0 });
    Node::Stmt(Stmt::Set { scratch: 0, value: 0 });
    Node::Stmt(Stmt::Break);
    Node::Stmt(Stmt::Continue);
    Node::Stmt(Stmt::Return);
    Node::Stmt(Stmt::Nothing);
    Node::Stmt(Stmt::Case { value: 1, next: 7 });
    Node::Stmt(Stmt::Default { next: 7 });
    Node::Stmt(Stmt::Case { value: 7, next: 7 });
    // Behind the last case: under the truth a continue, and then a break.
    Node::Stmt(Stmt::Guard { truth: 2, body: 5 });
    Node::Stmt(Stmt::Then { first: 11, next: 4 });
    Node::Stmt(Stmt::Then { first: 10, next: 12 });
    Node::Stmt(Stmt::Then { first: 3, next: 13 });
    Node::Stmt(Stmt::Then { first: 9, next: 14 });
    // Behind the first case: a break, and what is never reached.
    Node::Stmt(Stmt::Then { first: 3, next: 15 });
    Node::Stmt(Stmt::Then { first: 4, next: 16 });
    Node::Stmt(Stmt::Then { first: 3, next: 17 });
    Node::Stmt(Stmt::Then { first: 8, next: 18 });
    Node::Stmt(Stmt::Switch { on: 1, cases: 19 });
    // The loop: under the truth a return; the switch; a continue, and what is never reached.
    Node::Stmt(Stmt::Then { first: 5, next: 3 });
    Node::Stmt(Stmt::Then { first: 20, next: 21 });
    Node::Stmt(Stmt::Guard { truth: 2, body: 6 });
    Node::Stmt(Stmt::Then { first: 23, next: 22 });
    Node::Stmt(Stmt::Loop { body: 24 });
};

/// Adds the nodes of a list to a tree without nodes.
fn fill(tree: &mut Tree, nodes: &[Node])
    requires empty { tree.old.nodes ≡ [] }
    requires nodes { IsTrue (are_nodes nodes.now) }
    requires room { length nodes.now ≤ tree.old.capacity }
    ensures { tree.new ≡ record tree.old { nodes = nodes.now } }
{
    for node in nodes {
        match *node {
            Node::Expr(e) => tree.expr(e),
            Node::Stmt(s) => tree.stmt(s),
        };
    }
}

/// The words of the loop's code are those of the instructions of its nodes.
#[test]
fn a_loop_with_a_switch(rt: HostRuntime) -> Result<(), Fail> {
    let mut tree = Tree::make(rt.alloc(), 26)?;
    fill(&mut tree, &LOOP);
    tree.set_root(25);
    let mut emitter = Emitter::make(rt.alloc(), sizes(1000, 1000, 1))?;
    emitter.start();
    emit_tree(&mut emitter, &tree);
    assert_eq!(rt; emitter.len(), 193);
    Ok(())
}
