//! Words: arithmetic at the edges, and fields.
use spirv_words::{op, put};
use std::test::Fail;
use word_base::{
    Act, Binary, Paired, Ternary, Unary, alu_pair, alu1, alu2, alu3, bfi, field, new_word, word_at,
};

#[test]
fn words_at_the_edges(rt: HostRuntime) {
    for (got, want) in rows! {
        (alu3(Ternary::Ibfe, 31, 31, 0x80000000), 0xFFFFFFFF);
        (alu3(Ternary::Ubfe, 32, 4, 0xFFFFFFFF), 0);
        (bfi(8, 28, 0xAB, 0x12345678), 0xB2345678);
        (alu1(Unary::FirstbitShi, 0xFFFFFFF0), 28);
        (alu1(Unary::FirstbitShi, 0xFFFFFFFF), 0xFFFFFFFF);
        (alu1(Unary::Bfrev, 22), 0x68000000);
        (alu2(Binary::Ishr, 0xFFFFFFF0, 34), 0xFFFFFFFC);
        (new_word(Act::CompareExchange, 5, 5, 9), 9);
        (word_at(b"DXBC", 0), 0x43425844);
        (word_at(&[9, 9, 9, 9, 0x50, 0, 5, 0], 1), 0x00050050);
        (field(0x0400009B, 30, 24), 4);
        (field(0x0400009B, 10, 0), 155);
        (field(0xFFFFFFFF, 31, 0), 0xFFFFFFFF);
    } {
        assert_eq!(rt; got, want);
    }
    for (op, a, b, want) in rows! {
        (Paired::Udiv, 7, 0, (0xFFFFFFFF, 0xFFFFFFFF));
        (Paired::Udiv, 7, 3, (2, 1));
        (Paired::Imul, 0xFFFFFFFF, 2, (0xFFFFFFFF, 0xFFFFFFFE));
        (Paired::Uaddc, 0xFFFFFFFF, 1, (0, 1));
        (Paired::Usubb, 0, 1, (0xFFFFFFFF, 1));
    } {
        assert_eq!(rt; alu_pair(op, a, b), want, "{op:?} {a} {b}");
    }
}

#[test]
fn a_sum_is_written_behind_the_words(rt: HostRuntime) -> Result<(), Fail> {
    let mut out = Vec::from_slice(rt.alloc(), &[7u32])?;
    put(&mut out, op::I_ADD, &[5, 8, 6, 7])?;
    assert_eq!(rt; out.as_slice(), [7u32, 0x0005_0080, 5, 8, 6, 7].as_slice());
    Ok(())
}
