//! Each rule of tokens with its place, and each boundary, a row a line, with the assembly beside it.
//!
//! Operands stand from place 1 of a program on, and extents from place 2.
use crate::reading::bytes_of;
use std::alloc::{AllocError, Global};
use std::process::Abort;
use std::test::Fail;
use tpf_decode::Select::{Bare, Mask, One, Swizzle};
use tpf_decode::{
    Argument, Kind, Meaning, Relative, Role, cut, declaration_layout, has_role, header,
    instruction_meaning, operand,
};
use word_base::{Binary, Refusal, Rule, word_laws};

macro_rules! relative {
    () => { None };
    ($kind:ident $slot:literal $index:literal $component:literal) => {
        Some(Relative { kind: Kind::$kind, slot: $slot, index: $index, component: $component })
    };
}

/// Operands: the opcode, the role and the words, and then the type, the selection, the slot and the
/// index, with what is added to it, with its sign, or with the words of an immediate.
macro_rules! spelled {
    ($($code:literal $role:ident [$($word:literal),*] $kind:ident $select:expr, $slot:literal, $index:literal
        $(, + $part:ident $at:literal $element:literal $component:literal)?
        $(, negated $negate:literal)? $(, words $x:literal $y:literal $z:literal $w:literal)?;)*) => {
        &[$((($code, Role::$role), &[$($word),*], Argument {
            kind: Kind::$kind, select: $select, negate: false $(|| $negate)?, slot: $slot, index: $index,
            relative: relative!($($part $at $element $component)?),
            x: 0 $(+ $x)?, y: 0 $(+ $y)?, z: 0 $(+ $z)?, w: 0 $(+ $w)?,
        })),*]
    };
}

/// Operands or extents that break a rule first: the rule and its place, the opcode and the role where
/// it is an operand, and the words of each.
macro_rules! broken {
    ($($rule:ident $($place:literal $code:literal $role:ident $([$($word:literal),*])+),+;)*) => {
        &[$($($((Refusal { rule: Rule::$rule, place: $place }, ($code, Role::$role), &[$($word),*]),)+)+)*]
    };
    ($($rule:ident $($place:literal $([$($word:literal),*])+),+;)*) => {
        &[$($($((Refusal { rule: Rule::$rule, place: $place }, &[$($word),*]),)+)+)*]
    };
}

const SPELLED: &[((u32, Role), &[u32], Argument)] = spelled! {
    54 Dest [0x0010_0012, 0] Temp Mask(1), 0, 0; // mov r0.x
    54 Dest [0x0010_0002, 5] Temp Mask(0), 5, 0; // mov r5, an empty mask
    54 Dest [0x0010_0F82, 5] Temp Mask(8), 5, 0; // mov r5.w, and bits behind the mask
    54 Dest [0x7E10_00F2, 0xFFFF_FFFF] Temp Mask(15), 0xFFFF_FFFF, 0; // mov r4294967295.xyzw, bits of further indices
    54 Source [0x0010_0E46, 2] Temp Swizzle(0xE4), 2, 0; // r2.xyzw
    54 Source [0x0010_0FFA, 2] Temp One(3), 2, 0; // r2.w, and bits behind the component
    54 Dest [0x0020_3012, 1, 2] Indexable Mask(1), 1, 2; // mov x1[2].x
    54 Dest [0x0620_30C2, 2, 7, 0x0010_001A, 0] Indexable Mask(12), 2, 7, + Temp 0 0 1; // mov x2[r0.y + 7].zw
    54 Source [0x0420_300A, 2, 0x0002_002A] Indexable One(0), 2, 0, + ThreadId 0 0 2; // x2[vThreadID.z].x
    54 Dest [0x0000_D000] Null Bare, 0, 0; // mov null
    54 Dest [0x0000_D001] Null Bare, 0, 0; // mov null, of one component
    54 Dest [0x0000_D0F2] Null Mask(15), 0, 0; // mov null.xyzw
    54 Dest [0x0000_DE46] Null Swizzle(0xE4), 0, 0; // mov null, with a swizzle
    54 Source [0x0002_0046] ThreadId Swizzle(4), 0, 0; // vThreadID.xyxx
    30 Source [0x0002_101A] GroupId One(1), 0, 0; // iadd .., vThreadGroupID.y
    166 Scalar [0x0002_200A] IdInGroup One(0), 0, 0; // store_raw .., vThreadIDInGroup.x, ..
    54 Source [0x0002_4000] FlatId Bare, 0, 0; // vThreadIDInGroupFlattened
    54 Source [0x0002_40F2] FlatId Mask(15), 0, 0; // the same, with a mask
    54 Source [0x8010_000A, 0x7FFF_FFC0, 3] Temp One(0), 3, 0; // r3.x, an empty token
    54 Dest [0x8010_0012, 0x7FFE_0001, 3] Temp Mask(1), 3, 0; // mov r3.x, a modifier of nothing
    30 Source [0x8010_000A, 0x41, 3] Temp One(0), 3, 0, negated true; // iadd .., -r3.x
    30 Source [0x8010_000A, 0x8000_0041, 0x8000_0041, 1, 3] Temp One(0), 3, 0, negated true; // two of three tokens say so
    54 Source [0x0020_801A, 0, 3] Constant One(1), 0, 3; // cb0[3].y
    54 Source [0x0420_800A, 1, 0x0010_000A, 2] Constant One(0), 1, 0, + Temp 2 0 0; // cb1[r2.x].x
    54 Source [0x0620_800A, 1, 2, 0x0020_802A, 0, 1] Constant One(0), 1, 2, + Constant 0 1 2; // cb1[cb0[1].z + 2].x
    54 Source [0x0620_800A, 1, 2, 0x0020_300A, 4, 5] Constant One(0), 1, 2, + Indexable 4 5 0; // cb1[x4[5].x + 2].x
    54 Source [0x0420_800A, 1, 0x0002_102A] Constant One(0), 1, 0, + GroupId 0 0 2; // cb1[vThreadGroupID.z].x
    54 Source [0x0420_800A, 1, 0x0002_203A] Constant One(0), 1, 0, + IdInGroup 0 0 3; // cb1[vThreadIDInGroup.w].x
    54 Source [0x0620_800A, 1, 6, 0x0002_402A] Constant One(0), 1, 6, + FlatId 0 0 0; // cb1[the flattened number's z + 6].x
    54 Source [0x0420_800A, 1, 0x0002_4001] Constant One(0), 1, 0, + FlatId 0 0 0; // cb1[the flattened number of one].x
    54 Source [0x0010_900A, 2] ImmediateConstant One(0), 0, 2; // icb[2].x
    54 Source [0x0090_900A, 0x0010_000A, 0] ImmediateConstant One(0), 0, 0, + Temp 0 0 0; // icb[r0.x].x
    54 Source [0x00D0_900A, 4, 0x0010_000A, 0] ImmediateConstant One(0), 0, 4, + Temp 0 0 0; // icb[r0.x + 4].x
    54 Source [0x0000_400D, 5] Immediate Bare, 0, 0, words 5 5 5 5; // l(5), of mode 3
    54 Source [0x0000_403A, 1, 2, 3, 4] Immediate Swizzle(0xE4), 0, 0, words 1 2 3 4; // l(1, 2, 3, 4), one component
    6 Literal [0x0000_4001, 255] Immediate Bare, 0, 0, words 255 255 255 255; // case 255
    6 Literal [0x0000_4002, 9, 8, 7, 6] Immediate Swizzle(0xE4), 0, 0, words 9 8 7 6; // case 9, of four words
    169 Pair [0x0000_4001, 12] Immediate Bare, 0, 0, words 12 12 12 12; // atomic_and .., l(12), ..
    165 ViewRead [0x0010_7E46, 0] Resource Swizzle(0xE4), 0, 0; // ld_raw .., t0.xyzw
    165 ViewRead [0x0011_E006, 3] Uav Swizzle(0), 3, 0; // ld_raw .., u3.xxxx
    165 ViewRead [0x0011_F00A, 3] Shared One(0), 3, 0; // ld_raw .., g3.x
    166 ViewWrite [0x0011_E0F2, 1] Uav Mask(15), 1, 0; // store_raw u1.xyzw
    166 ViewWrite [0x0011_F012, 1] Shared Mask(1), 1, 0; // store_raw g1.x
    169 ViewName [0x0011_FE46, 2] Shared Swizzle(0xE4), 2, 0; // atomic_and g2, with a swizzle
    178 ViewName [0x0011_E000, 2] Uav Bare, 2, 0; // imm_atomic_alloc .., u2
    159 ViewName [0x0011_F000, 0] Shared Bare, 0, 0; // dcl_tgsm_raw g0
    161 ViewName [0x0010_7000, 0] Resource Bare, 0, 0; // dcl_resource_raw t0
    95 Input [0x0002_0012] ThreadId Mask(1), 0, 0; // dcl_input vThreadID.x
    89 ViewName [0x0020_8E46, 0, 4] Constant Swizzle(0xE4), 0, 4; // dcl_constantbuffer cb0[4]
};

const BROKEN: &[(Refusal, (u32, Role), &[u32])] = broken! {
    K6 1 54 Dest [0x10_0013, 0] [0x10_000E, 0] [0x10_0E46, 0]; // mov r0 of count 3, of mode 3, with a swizzle
    K6 1 54 Dest [0x10_000A, 0] [0x10_0001, 0] [0xD00E]; // mov r0 with one component, of one; null of mode 3
    K6 1 54 Source [0x10_0012, 0] [0x10_0001, 0] [0x2_4003]; // r0 with a mask, of one; a flattened number of count 3
    K6 1 54 Source [0x4000] [0x4003] [0x400E, 1, 2, 3, 4], 1 6 Literal [0x4000]; // l() of none, of count 3, of mode 3; case
    K6 1 165 ViewRead [0x10_7012, 0], 1 166 ViewWrite [0x11_EE46, 0]; // ld_raw .., t0 with a mask; store_raw with a swizzle
    K6 1 157 ViewName [0x11_E00E, 0]; // dcl_uav_raw u0 of mode 3
    K7 1 54 Source [0x10_7E46, 0] [0x5E46] [0xDE46], 1 6 Literal [0x10_000A, 0]; // t0, type 5, null; case r0.x
    K7 1 54 Dest [0x4002, 1, 2, 3, 4] [0x20_8E46, 0, 0], 1 95 Input [0x10_0E46, 0]; // mov l(), mov cb0[0]; dcl_input r0
    K7 1 121 ViewRead [0x11_FE46, 0], 1 166 ViewWrite [0x10_7012, 0]; // bufinfo .., g0; store_raw t0
    K7 1 169 ViewName [0x10_7000, 0], 1 178 ViewName [0x11_F000, 0]; // atomic_and t0; imm_atomic_alloc .., g0
    K7 1 157 ViewName [0x11_F000, 0], 1 89 ViewName [0x11_E000, 0]; // dcl_uav_raw g0; dcl_constantbuffer u0
    K8 1 54 Source [0x00_000A] [0x20_000A, 0, 0] [0x30_000A, 0, 0, 0] [0x90_000A, 0x10_000A, 0]; // r, r0[0], r0[0][0], r[r0.x]
    K8 1 54 Source [0xA0_300A, 0x10_000A, 0, 0] [0x220_300A, 0, 0, 0] [0x820_300A, 0, 0, 0]; // x[r0.x][0]; x0[0] by 64 bits
    K8 1 54 Source [0x50_900A, 0, 0] [0x10_4001, 0, 0] [0x12_4000, 0]; // icb[0] by 64 bits; l(0) and a number with an index
    K8 1 89 ViewName [0x420_8E46, 0, 0x10_000A, 0]; // dcl_constantbuffer cb0[r0.x]
    K9 2 54 Source [0x90_900A, 0x10_0E46] [0x90_900A, 0x10_0012] [0x90_900A, 0x10_0001]; // icb[r.xyzw], a mask, of one
    K9 2 54 Source [0x90_900A, 0x10_000B] [0x90_900A, 0x10_000E] [0x90_900A, 0x8010_000A]; // of count 3, of mode 3, two tokens
    K9 2 54 Source [0x90_900A, 0x00_000A] [0x90_900A, 0x20_000A] [0x90_900A, 0x90_000A]; // icb[r], icb[r0[0]], icb[r[r0.x]]
    K9 2 54 Source [0x90_900A, 0x420_800A] [0x90_900A, 0x420_300A] [0x90_900A, 0x10_300A]; // icb[cb0[r0.x]], icb[x0[r0.x]], [x0]
    K9 2 54 Source [0x90_900A, 0x10_700A] [0x90_900A, 0x10_900A] [0x90_900A, 0x4001]; // icb[t0], icb[icb[0]], icb[l()]
    K9 2 54 Source [0x90_900A, 0x500A] [0x90_900A, 0xD00A] [0x90_900A, 0x2_0001]; // type 5, null, vThreadID of one
    K9 2 54 Source [0x90_900A, 0x12_000A] [0x90_900A, 0x2_4003]; // vThreadID with an index, a flattened number of count 3,
    K9 2 54 Source [0x90_900A, 0x2_400E] [0x90_900A, 0x12_4000] [0x90_900A, 0x8002_4000]; // of mode 3, an index, two tokens
    K10 2 30 Source [0x8010_000A, 0x02, 0] [0x8010_000A, 0x3F, 0] [0x8010_000A, 0x101, 0]; // types 2 and 63; modifier 4
    K10 2 30 Source [0x8010_000A, 0x81, 0] [0x8010_000A, 0xC1, 0] [0x8010_000A, 0x4001, 0]; // |r0.x|, -|r0.x|, a precision
    K10 2 30 Source [0x8010_000A, 0x1_0041, 0], 2 30 Dest [0x8010_0012, 0x41, 0]; // -r0.x of a precision, iadd -r0.x
    K10 2 54 Source [0x8010_000A, 0x41, 0], 2 55 Source [0x8010_000A, 0x41, 0]; // mov .., -r0.x; movc .., -r0.x, ..
    K10 2 142 Source [0x8010_000A, 0x41, 0], 2 166 Source [0x8010_000A, 0x41, 0]; // swapc .., -r0.x, ..; store_raw .., -r0.x
    K10 2 165 Scalar [0x8010_000A, 0x41, 0], 3 30 Source [0x8010_000A, 0x8000_0000, 2, 0]; // ld_raw .., -r0.x; a second token
    K11 1 54 Source [], 2 54 Source [0x10_000A] [0x4001] [0x8010_000A]; // nothing; r, l() and -r without what follows
    K11 3 54 Source [0x20_800A, 1] [0x420_800A, 1] [0x8010_000A, 0x8000_0000]; // cb1[], by a register; one token of two
    K11 4 54 Source [0x620_800A, 1, 2], 5 54 Source [0x620_800A, 1, 2, 0x10_000A]; // cb1[.. + 2], cb1[r + 2]
    K11 5 54 Source [0x4002, 1, 2, 3], 6 54 Source [0x620_800A, 1, 2, 0x20_300A, 3]; // l(1, 2, 3), cb1[x3[] + 2]

    // Two rules are broken, and the first counts.
    K6 1 54 Source [0x5003] [0x30_0012]; // before the type, before the indices
    K7 1 54 Source [0x30_7E46]; // before the indices
    K8 1 54 Source [0x8000_000A, 2]; // before an extended token
    K9 4 54 Source [0x620_800A, 1, 2, 0x10_0E46]; // before the end
    K10 2 54 Source [0x8010_000A, 0x8000_0002] [0x8010_000A, 0x8000_0041, 2]; // before the end, before the next token
    K10 2 54 Source [0x8620_800A, 0x41, 1, 2, 0x10_0012]; // before a relative operand
};

/// The opcode, its controls, the first place behind its tokens, and the place behind the last word.
const CUT: &[((u32, u32, u32, u32), &[u32])] = &[
    ((62, 0, 3, 3), &[0x0100_003E, 0xFFFF_FFFF]), // ret, and a word
    ((31, 0x0004_0000, 3, 5), &[0x0304_001F, 0, 0]), // if_nz
    ((58, 0x0078_0800, 3, 3), &[0x0178_083A]), // nop, and bits that mean nothing
    ((166, 0x2000, 3, 5), &[0x0300_20A6, 0, 0]), // store_raw, saturated
    ((167, 0, 5, 6), &[0x8400_00A7, 0x8000_2302, 0x0019_9983, 0]), // ld_structured_indexable
    ((58, 0, 6, 6), &[0x8400_003A, 0xFFFF_FFC0, 0x8000_0002, 3]), // nop, three tokens
    ((190, 0x1800, 3, 3), &[0x0100_18BE]), // sync_g_t
    ((190, 0x2000, 3, 3), &[0x0100_20BE]), // sync_ugroup
    ((106, 0xC800, 3, 3), &[0x0100_C86A]), // dcl_globalFlags, all
    ((106, 0, 3, 3), &[0x0100_006A]), // dcl_globalFlags, none
    ((104, 0, 3, 4), &[0x0200_0068, 1]), // dcl_temps 1
    ((53, 0, 3, 5), &[0x35, 3, 0]), // a comment
    ((53, 0x1000, 3, 4), &[0x1035, 2, 7]), // opaque data, and a word
    ((53, 0x1800, 3, 8), &[0x1835, 6, 1, 2, 3, 4]), // dcl_immediateConstantBuffer
];

const UNCUT: &[(Refusal, &[u32])] = broken! {
    K3 2 [0x0000_003E] [0x0200_003E] [0x7F00_003E, 0, 0] [0x0200_0000]; // ret of no word, of two, of 127; before the opcode
    K4 2 [0x0100_0000] [0x0100_002D] [0x0100_0058] [0x0100_07FF] [0x8200_0000, 1]; // add, ld, dcl_resource, 2047; before a token
    K5 3 [0x8200_003A, 1] [0x8200_003A, 0x8000_0001], 4 [0x8300_003A, 0x8000_0000, 4]; // nop, sample controls, type 4
    K11 3 [0x8100_003A, 0], 4 [0x8200_003A, 0x8000_0002, 0]; // nop without its first extended token, without its second
    K12 2 [0x0500_2036, 0, 0, 0, 0] [0x0100_208E] [0x0100_20A5] [0x0100_2079]; // mov_sat, swapc, ld_raw, bufinfo
    K12 2 [0x0100_20B4] [0x0100_20B9] [0x0100_20B2] [0x8200_2036, 1]; // imm_atomic_iadd, _cmp_exch, _alloc; before a token
    K13 2 [0x35] [0x35, 0] [0x35, 1] [0x35, 3] [0x35, 0xFFFF_FFFF] [0x1835, 2] [0x1835, 7, 1, 2, 3, 4, 5]; // wrong lengths
    K13 2 [0x2035, 2] [0x8000_0035, 2]; // classes above 3
    K14 2 [0x0100_00BE] [0x0100_60BE] [0x0100_78BE] [0x8200_00BE, 1]; // sync of nothing, of both scopes; before a token
    K15 2 [0x0100_186A] [0x0101_006A] [0x0180_006A]; // dcl_globalFlags of bits 12, 16 and 23
};

type Decoded = (Argument, u32);

type Answer<T> = Result<Result<T, Refusal>, AllocError>;

fn decode(rt: &impl Abort, alloc: Global, of: (u32, Role), words: &[u32]) -> Answer<Decoded> {
    let bytes = bytes_of(alloc, &[0xFFFF_FFFF], words)?;
    let end = bytes.len() / 4;
    assert!(rt; 1 <= end && end < 1000);
    assert!(rt; has_role(of.0, of.1));
    word_laws();
    Ok(operand(bytes.as_slice(), 1, end as u32, of.0, of.1))
}

fn extent(rt: &impl Abort, alloc: Global, words: &[u32]) -> Answer<(u32, u32, u32, u32)> {
    let bytes = bytes_of(alloc, &[0x0005_0050, 0], words)?;
    let n = bytes.len() / 4;
    assert!(rt; 2 < n && n < 1000);
    word_laws();
    Ok(cut(bytes.as_slice(), n as u32, 2).map(|e| (e.code, e.controls, e.first, e.end)))
}

#[test]
fn operands(rt: HostRuntime) -> Result<(), Fail> {
    for (of, words, argument) in SPELLED {
        assert!(rt; words.len() < 1000);
        let want = Ok((*argument, words.len() as u32 + 1));
        assert_eq!(rt; decode(&rt, rt.alloc(), *of, words)?, want, "{words:?}");
    }
    for (refusal, of, words) in BROKEN {
        let answer = decode(&rt, rt.alloc(), *of, words)?;
        assert_eq!(rt; answer, Err(*refusal), "{words:?}");
    }
    Ok(())
}

#[test]
fn extents(rt: HostRuntime) -> Result<(), Fail> {
    for (want, words) in CUT {
        assert_eq!(rt; extent(&rt, rt.alloc(), words)?, Ok(*want), "{words:?}");
    }
    for (refusal, words) in UNCUT {
        assert_eq!(rt; extent(&rt, rt.alloc(), words)?, Err(*refusal), "{words:?}");
    }
    Ok(())
}

#[test]
fn heads_and_opcodes(rt: HostRuntime) -> Result<(), Fail> {
    let refused = |rule, place| Err(Refusal { rule, place });
    for (words, size, want) in [
        ([0x0005_0050, 2, 0], 12, Ok(2)), // cs_5_0, and a word behind its program
        ([0x0005_0050, 3, 0], 12, Ok(3)),
        ([0x0005_0050, 65_536, 0], 262_148, Ok(65_536)),
        ([0x0005_0040, 3, 0], 12, refused(Rule::K1, 0)), // cs_4_0
        ([0x0001_0050, 0, 0], 12, refused(Rule::K1, 0)), // vs_5_0, and before the length
        ([0x0005_0050, 1, 0], 12, refused(Rule::K2, 1)),
        ([0x0005_0050, 65_537, 0], 262_144, refused(Rule::K2, 1)), // before the size
        ([0x0005_0050, 65_537, 0], 262_148, refused(Rule::M2, 1)),
    ] {
        let mut bytes = bytes_of(rt.alloc(), &words, &[])?;
        bytes.resize(size, 0)?;
        assert!(rt; 8 <= bytes.len());
        assert_eq!(rt; header(bytes.as_slice()), want, "{words:?}");
    }
    assert_eq!(rt; instruction_meaning(83), Some(Meaning::Two(Binary::Umax)));
    for code in [0, 45, 53, 88, 163, 191, u32::MAX] {
        assert!(rt; instruction_meaning(code).is_none() && declaration_layout(code).is_none());
    }
    Ok(())
}
