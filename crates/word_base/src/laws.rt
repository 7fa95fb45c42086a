ghost use Rattle.std.specs.Prelude.{◌≡◌, ◌≢◌, ℕ, ◌<◌, ◌≤◌, ◌^◌, ◌-◌, ◌+◌, ◌*◌, ◌/◌, ◌%◌};
ghost use Rattle.word_base.specs.Alu.{unary, binary, ternary, pair};
ghost use Rattle.word_base.specs.declared.arithmetic.Unary.TheVariants as one;
ghost use Rattle.word_base.specs.declared.arithmetic.Binary.TheVariants as two;
ghost use Rattle.word_base.specs.declared.arithmetic.Ternary.TheVariants as three;
ghost use Rattle.word_base.specs.declared.arithmetic.Paired.TheVariants as paired;

/// What holds between the instructions, by their definitions. It does nothing when it runs.
///
/// A field of a word is what a shift to the left and one to the right leave of it, by value and by
/// sign; without a width it is 0, and one that reaches the end of the word is a shift to the right.
/// A quotient and its rest make the dividend. Bits reversed twice are as before. The first bit by
/// sign is that of the complement, and of a word that is not negative the highest one bit.
pub fn small_laws()
    ensures unsigned_field { (w o x : ℕ) → 0 < w → w < 32 → w + o ≤ 32 → x < 2 ^ 32
        → ternary three.Ubfe w o x ≡ x * 2 ^ (32 - w - o) % 2 ^ 32 / 2 ^ (32 - w) }
    ensures signed_field { (w o x : ℕ) → 0 < w → w < 32 → w + o ≤ 32 → x < 2 ^ 32
        → ternary three.Ibfe w o x ≡ binary two.Ishr (x * 2 ^ (32 - w - o) % 2 ^ 32) (32 - w) }
    ensures unsigned_none { (w o x : ℕ) → w % 32 ≡ 0 → ternary three.Ubfe w o x ≡ 0 }
    ensures signed_none { (w o x : ℕ) → w % 32 ≡ 0 → ternary three.Ibfe w o x ≡ 0 }
    ensures unsigned_end { (w o x : ℕ) → w < 32 → o < 32 → 32 ≤ w + o → ternary three.Ubfe w o x ≡ x / 2 ^ o }
    ensures signed_end { (w o x : ℕ) → w < 32 → o < 32 → 32 ≤ w + o → ternary three.Ibfe w o x ≡ binary two.Ishr x o }
    ensures dividend { (a b : ℕ) → b ≢ 0 → (pair paired.Udiv a b).first * b + (pair paired.Udiv a b).second ≡ a }
    ensures rest { (a b : ℕ) → b ≢ 0 → (pair paired.Udiv a b).second < b }
    ensures reversed { (a : ℕ) → a < 2 ^ 32 → unary one.Bfrev (unary one.Bfrev a) ≡ a }
    ensures complement { (a : ℕ) → a < 2 ^ 32 → unary one.FirstbitShi (unary one.Not a) ≡ unary one.FirstbitShi a }
    ensures positive { (a : ℕ) → a < 2 ^ 31 → unary one.FirstbitShi a ≡ unary one.FirstbitHi a }
{}
