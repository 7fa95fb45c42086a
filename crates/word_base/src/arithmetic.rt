ghost use Rattle.std.specs.Prelude.{◌≡◌, ℕ, ◌<◌, ◌≤◌, ◌^◌, ◌-◌, ◌+◌, ◌%◌, min, bit_and, bit_or, bit_xor, count_ones};
ghost use Rattle.std.specs.Int.{w32, reverse_bits, leading_zeros, trailing_zeros};
ghost use Rattle.word_base.specs.Bits.{ones_among, reversed, zeros_above, zeros_below};
ghost use Rattle.word_base.specs.Alu as alu;
ghost use Rattle.word_base.specs.declared.event.Act.{Act};
ghost use Rattle.word_base.specs.declared.arithmetic.Unary.{Unary};
ghost use Rattle.word_base.specs.declared.arithmetic.Binary.{Binary};
ghost use Rattle.word_base.specs.declared.arithmetic.Ternary.{Ternary};
ghost use Rattle.word_base.specs.declared.arithmetic.Paired.{Paired};

use crate::event::Act;

/// An operation on one word, by the name of its instruction.
///
/// (Shader Model 5 assembly: the integer and bit instructions of these names, here and below.)
#[derive(Clone, Copy, Debug, PartialEq, Eq)]
pub enum Unary {
    Mov,
    Not,
    Ineg,
    Bfrev,
    Countbits,
    FirstbitHi,
    FirstbitLo,
    FirstbitShi,
}

/// An operation on two words.
#[derive(Clone, Copy, Debug, PartialEq, Eq)]
pub enum Binary {
    Iadd,
    And,
    Or,
    Xor,
    Ishl,
    Ishr,
    Ushr,
    Ieq,
    Ine,
    Ige,
    Ilt,
    Uge,
    Ult,
    Imax,
    Imin,
    Umax,
    Umin,
}

/// An operation on three words, in the order of the instruction's operands.
#[derive(Clone, Copy, Debug, PartialEq, Eq)]
pub enum Ternary {
    Imad,
    Umad,
    Movc,
    Ubfe,
    Ibfe,
}

/// An operation on two words that gives two, in the order of the instruction's destinations.
#[derive(Clone, Copy, Debug, PartialEq, Eq)]
pub enum Paired {
    Imul,
    Umul,
    Udiv,
    Uaddc,
    Usubb,
}

/// The result of an operation on one word.
pub fn alu1(op: Unary, a: u32) -> u32
    ensures { result ≡ alu.unary op a }
{
    match op {
        Unary::Mov => a,
        Unary::Not => !a,
        Unary::Ineg => a.wrapping_neg(),
        Unary::Bfrev => reversed(a),
        Unary::Countbits => ones(a),
        Unary::FirstbitHi => first_high(a),
        Unary::FirstbitLo => first_low(a),
        Unary::FirstbitShi => {
            if a < 1 << 31 {
                first_high(a)
            } else {
                first_high(!a)
            }
        }
    }
}

/// The result of an operation on two words.
pub fn alu2(op: Binary, a: u32, b: u32) -> u32
    ensures { result ≡ alu.binary op a b }
{
    match op {
        Binary::Iadd => a.wrapping_add(b),
        Binary::And => and(a, b),
        Binary::Or => or(a, b),
        Binary::Xor => xor(a, b),
        Binary::Ishl => a << (b % 32),
        Binary::Ishr => shift_with_sign(a, b % 32),
        Binary::Ushr => a >> (b % 32),
        Binary::Ieq => truth(a == b),
        Binary::Ine => truth(a != b),
        Binary::Ige => truth(lifted(a) >= lifted(b)),
        Binary::Ilt => truth(lifted(a) < lifted(b)),
        Binary::Uge => truth(a >= b),
        Binary::Ult => truth(a < b),
        Binary::Imax => greater_signed(a, b),
        Binary::Imin => smaller_signed(a, b),
        Binary::Umax => a.max(b),
        Binary::Umin => a.min(b),
    }
}

/// The result of an operation on three words.
pub fn alu3(op: Ternary, a: u32, b: u32, c: u32) -> u32
    ensures { result ≡ alu.ternary op a b c }
{
    match op {
        Ternary::Imad | Ternary::Umad => a.wrapping_mul(b).wrapping_add(c),
        Ternary::Movc => { if a == 0 { c } else { b } }
        Ternary::Ubfe => unsigned_field(a % 32, b % 32, c),
        Ternary::Ibfe => signed_field(a % 32, b % 32, c),
    }
}

/// The word `base` with `width` bits from bit `offset` on taken from `inserted`, where those past bit
/// 31 are cut. Of the width and the offset the lowest five bits count.
pub fn bfi(width: u32, offset: u32, inserted: u32, base: u32) -> u32
    ensures { result ≡ alu.inserted_field width offset inserted base }
{
    let from = offset % 32;
    with_bits(from, (from + width % 32).min(32), inserted, base)
}

/// The two results of an operation on two words.
pub fn alu_pair(op: Paired, a: u32, b: u32) -> (u32, u32)
    ensures { alu.both result.0 result.1 ≡ alu.pair op a b }
{
    match op {
        Paired::Imul => high_and_low(widened(a).wrapping_mul(widened(b))),
        Paired::Umul => high_and_low(u64::from(a) * u64::from(b)),
        Paired::Udiv => {
            if b == 0 {
                (u32::MAX, u32::MAX)
            } else {
                (a / b, a % b)
            }
        }
        Paired::Uaddc => {
            let (high, low) = high_and_low(u64::from(a) + u64::from(b));
            (low, high)
        }
        Paired::Usubb => (a.wrapping_sub(b), u32::from(a < b)),
    }
}

/// The word that an atomic leaves where it finds `old`. Only `CompareExchange` looks at `b`.
pub fn new_word(kind: Act, old: u32, a: u32, b: u32) -> u32
    ensures { result ≡ alu.act kind old a b }
{
    match kind {
        Act::Add => old.wrapping_add(a),
        Act::Sub => old.wrapping_sub(a),
        Act::And => and(old, a),
        Act::Or => or(old, a),
        Act::Xor => xor(old, a),
        Act::SMax => greater_signed(old, a),
        Act::SMin => smaller_signed(old, a),
        Act::UMax => old.max(a),
        Act::UMin => old.min(a),
        Act::Exchange => a,
        Act::CompareExchange => { if old == a { b } else { old } }
    }
}

/// All bits where the test holds, else none.
fn truth(holds: bool) -> u32
    ensures { result ≡ alu.truth_word holds }
{
    if holds { u32::MAX } else { 0 }
}

/// The word with its highest bit turned, which puts words in the order of their signed values.
fn lifted(a: u32) -> u32
    ensures { result ≡ alu.lifted a }
{
    a.wrapping_add(1 << 31)
}

/// The word as a signed number, in 64 bits.
fn widened(a: u32) -> u64
    ensures { result ≡ alu.widened a }
{
    if a < 1 << 31 {
        u64::from(a)
    } else {
        u64::from(a) + (u64::MAX - u64::from(u32::MAX))
    }
}

/// The upper and the lower word of a number.
fn high_and_low(n: u64) -> (u32, u32)
    ensures { alu.both result.0 result.1 ≡ alu.high_and_low n }
{
    ((n >> 32) as u32, (n % (1 << 32)) as u32)
}

/// A shift to the right by `n` bits, with the sign from above.
fn shift_with_sign(a: u32, n: u32) -> u32
    requires { n < 32 }
    ensures { result ≡ alu.shifted_with_sign a n }
{
    if a < 1 << 31 { a >> n } else { !(!a >> n) }
}

/// The greater of two words by signed value.
fn greater_signed(a: u32, b: u32) -> u32
    ensures { result ≡ alu.greater_signed a b }
{
    if lifted(a) < lifted(b) { b } else { a }
}

/// The smaller of two words by signed value.
fn smaller_signed(a: u32, b: u32) -> u32
    ensures { result ≡ alu.smaller_signed a b }
{
    if lifted(b) < lifted(a) { b } else { a }
}

/// And, bit by bit.
#[tactic(auto, using(crate::proofs::Digits::and_is))]
fn and(a: u32, b: u32) -> u32
    ensures { result ≡ alu.and_of a b }
{
    a & b
}

/// Or, bit by bit.
#[tactic(auto, using(crate::proofs::Digits::or_is))]
fn or(a: u32, b: u32) -> u32
    ensures { result ≡ alu.or_of a b }
{
    a | b
}

/// Exclusive or, bit by bit.
#[tactic(auto, using(crate::proofs::Digits::xor_is))]
fn xor(a: u32, b: u32) -> u32
    ensures { result ≡ alu.xor_of a b }
{
    a ^ b
}

/// The number of one bits.
#[tactic(auto, using(crate::proofs::Digits::ones_is))]
fn ones(a: u32) -> u32
    ensures { result ≡ ones_among 32 a }
{
    a.count_ones()
}

/// The bits in reverse order.
#[tactic(auto, using(crate::proofs::Digits::reversed_is))]
fn reversed(a: u32) -> u32
    ensures { result ≡ reversed 32 a }
{
    a.reverse_bits()
}

/// The zero bits above the highest one bit, or all bits where there is none.
#[tactic(auto, using(crate::proofs::Digits::above_is))]
fn first_high(a: u32) -> u32
    ensures { result ≡ alu.first_high a }
{
    if a == 0 { u32::MAX } else { a.leading_zeros() }
}

/// The zero bits below the lowest one bit, or all bits where there is none.
#[tactic(auto, using(crate::proofs::Digits::below_is))]
fn first_low(a: u32) -> u32
    ensures { result ≡ alu.first_low a }
{
    if a == 0 { u32::MAX } else { a.trailing_zeros() }
}

/// The field of `width` bits from bit `offset` on, as far as it lies in the word.
fn unsigned_field(width: u32, offset: u32, value: u32) -> u32
    requires width { width < 32 }
    requires offset { offset < 32 }
    ensures { result ≡ alu.field_value width offset value }
{
    if width == 0 {
        0
    } else if width + offset < 32 {
        (value >> offset) % 2u32.pow(width)
    } else {
        value >> offset
    }
}

/// The same with the field's highest bit as sign.
fn signed_field(width: u32, offset: u32, value: u32) -> u32
    requires width { width < 32 }
    requires offset { offset < 32 }
    ensures { result ≡ alu.signed_field_value width offset value }
{
    if width == 0 {
        0
    } else if width + offset < 32 {
        with_sign(width, (value >> offset) % 2u32.pow(width))
    } else {
        shift_with_sign(value, offset)
    }
}

/// A number of `width` bits with its highest bit as sign.
fn with_sign(width: u32, field: u32) -> u32
    requires low { 1 ≤ width }
    requires high { width < 32 }
    requires field { field < 2 ^ width }
    ensures { result ≡ alu.with_sign width field }
{
    if field < 2u32.pow(width - 1) {
        field
    } else {
        field + (u32::MAX - (2u32.pow(width) - 1))
    }
}

/// The word `base` with the bits from `from` up to `to` taken from the lowest bits of `inserted`.
#[tactic(auto, using(crate::proofs::Fields::fits))]
fn with_bits(from: u32, to: u32, inserted: u32, base: u32) -> u32
    requires from { from < 32 }
    requires order { from ≤ to }
    requires to { to ≤ 32 }
    ensures { result ≡ alu.with_bits from to inserted base }
{
    let low = u64::from(base) % 2u64.pow(from);
    let inside = u64::from(inserted) % 2u64.pow(to - from) * 2u64.pow(from);
    let high = u64::from(base) / 2u64.pow(to) * 2u64.pow(to);
    (low + inside + high) as u32
}

/// What holds of the arithmetic, for the proofs of callers: the operations on bits are those of the
/// standard library. It does nothing when it runs.
pub fn arithmetic_laws()
    ensures and { (a b : ℕ) → a < 2 ^ 32 → alu.and_of a b ≡ bit_and a b }
    ensures or { (a b : ℕ) → a < 2 ^ 32 → b < 2 ^ 32 → alu.or_of a b ≡ bit_or a b }
    ensures xor { (a b : ℕ) → a < 2 ^ 32 → b < 2 ^ 32 → alu.xor_of a b ≡ bit_xor a b }
    ensures ones { (a : ℕ) → a < 2 ^ 32 → ones_among 32 a ≡ count_ones a }
    ensures reversed { (a : ℕ) → reversed 32 a ≡ reverse_bits w32 a }
    ensures above { (a : ℕ) → 0 < a → a < 2 ^ 32 → zeros_above 32 a ≡ leading_zeros w32 a }
    ensures below { (a : ℕ) → 0 < a → a < 2 ^ 32 → zeros_below 32 a ≡ trailing_zeros w32 a }
{}

/// What holds of the results of the arithmetic, for the proofs of callers: of words they are words.
/// It does nothing when it runs.
pub fn result_laws()
    ensures unary { (op : Unary) (a : ℕ) → a < 2 ^ 32 → alu.unary op a < 2 ^ 32 }
    ensures binary { (op : Binary) (a b : ℕ) → a < 2 ^ 32 → b < 2 ^ 32 → alu.binary op a b < 2 ^ 32 }
    ensures ternary { (op : Ternary) (a b c : ℕ) → a < 2 ^ 32 → b < 2 ^ 32 → c < 2 ^ 32 → alu.ternary op a b c < 2 ^ 32 }
    ensures insert { (width offset inserted base : ℕ) → base < 2 ^ 32 → alu.inserted_field width offset inserted base < 2 ^ 32 }
    ensures first { (op : Paired) (a b : ℕ) → a < 2 ^ 32 → b < 2 ^ 32 → (alu.pair op a b).first < 2 ^ 32 }
    ensures second { (op : Paired) (a b : ℕ) → a < 2 ^ 32 → b < 2 ^ 32 → (alu.pair op a b).second < 2 ^ 32 }
    ensures act { (kind : Act) (old a b : ℕ) → old < 2 ^ 32 → a < 2 ^ 32 → b < 2 ^ 32 → alu.act kind old a b < 2 ^ 32 }
{}
