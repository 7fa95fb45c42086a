//! The operations of the tree by short sequences of instructions.
ghost use Rattle.std.specs.Prelude.{◌≡◌, ◌+◌, ◌≤◌, ◌<◌, [], ◌∷◌, Some};
ghost use Rattle.word_base.specs.Alu.{unary, binary, ternary, inserted_field, pair};
ghost use Rattle.spirv_words.specs.Roles.{AWord, ATruth, APair};
ghost use Rattle.spirv_words.specs.Operations.{computes, two, three};
ghost use Rattle.spirv_words.specs.Values.{Word};
ghost use Rattle.spirv_emit.specs.Begun.{IsBegun};
ghost use Rattle.spirv_emit.specs.Emission.{words_left, ids_left};
ghost use Rattle.spirv_emit.specs.Operations.{row_at, on_word, on_words, on_three, on_four, on_cut, as_word, second_where, second_unless, from_above, on_field, divided, part_of, sum_of_product, second_of_nonzero};
ghost use Rattle.spirv_emit.specs.Values.{Gives, a_word};

use crate::emitter::Emitter;
use spirv_words::{glsl, op};
use word_base::{Binary, Paired, Ternary, Unary};

impl Emitter {
    /// The instruction on a word and the lowest five bits of another.
    fn shift(&mut self, op: u32, a: u32, b: u32) -> u32
        requires operation { row_at op ≡ Some (computes op two AWord AWord) }
        requires short { op < 65536 }
        requires begun { IsBegun self.old }
        requires words { 10 ≤ words_left self.old }
        requires ids { 2 ≤ ids_left self.old }
        ensures gives { Gives self.old self.new (a_word a ∷ a_word b ∷ []) (a_word result ∷ []) (on_cut op) }
        ensures begun { IsBegun self.new }
        ensures words { words_left self.old ≤ words_left self.new + 10 }
        ensures ids { ids_left self.old ≤ ids_left self.new + 2 }
    {
        let thirty_one = self.thirty_one();
        let amount = self.two_words(op::BITWISE_AND, b, thirty_one);
        self.two_words(op, a, amount)
    }

    /// The truth that an instruction gives, as a word.
    fn truth_word(&mut self, op: u32, a: u32, b: u32) -> u32
        requires operation { row_at op ≡ Some (computes op two ATruth AWord) }
        requires short { op < 65536 }
        requires begun { IsBegun self.old }
        requires words { 11 ≤ words_left self.old }
        requires ids { 2 ≤ ids_left self.old }
        ensures gives { Gives self.old self.new (a_word a ∷ a_word b ∷ []) (a_word result ∷ []) (as_word op) }
        ensures begun { IsBegun self.new }
        ensures words { words_left self.old ≤ words_left self.new + 11 }
        ensures ids { ids_left self.old ≤ ids_left self.new + 2 }
    {
        let ones = self.ones();
        let zero = self.zero();
        let truth = self.compare(op, a, b);
        self.choose(truth, ones, zero)
    }

    /// The second of two words where the instruction holds of them, and else the first.
    fn second_where(&mut self, op: u32, a: u32, b: u32) -> u32
        requires operation { row_at op ≡ Some (computes op two ATruth AWord) }
        requires short { op < 65536 }
        requires begun { IsBegun self.old }
        requires words { 11 ≤ words_left self.old }
        requires ids { 2 ≤ ids_left self.old }
        ensures gives { Gives self.old self.new (a_word a ∷ a_word b ∷ []) (a_word result ∷ []) (second_where op) }
        ensures begun { IsBegun self.new }
        ensures words { words_left self.old ≤ words_left self.new + 11 }
        ensures ids { ids_left self.old ≤ ids_left self.new + 2 }
    {
        let truth = self.compare(op, a, b);
        self.choose(truth, b, a)
    }

    /// The second of two words where the instruction holds of the second and the first, and else the first.
    fn second_unless(&mut self, op: u32, a: u32, b: u32) -> u32
        requires operation { row_at op ≡ Some (computes op two ATruth AWord) }
        requires short { op < 65536 }
        requires begun { IsBegun self.old }
        requires words { 11 ≤ words_left self.old }
        requires ids { 2 ≤ ids_left self.old }
        ensures gives { Gives self.old self.new (a_word a ∷ a_word b ∷ []) (a_word result ∷ []) (second_unless op) }
        ensures begun { IsBegun self.new }
        ensures words { words_left self.old ≤ words_left self.new + 11 }
        ensures ids { ids_left self.old ≤ ids_left self.new + 2 }
    {
        let truth = self.compare(op, b, a);
        self.choose(truth, b, a)
    }

    /// The number of the bit that an extended instruction finds, counted from above.
    fn bit_from_above(&mut self, which: u32, a: u32) -> u32
        requires begun { IsBegun self.old }
        requires words { 22 ≤ words_left self.old }
        requires ids { 4 ≤ ids_left self.old }
        ensures gives { Gives self.old self.new (a_word a ∷ []) (a_word result ∷ []) (from_above which) }
        ensures begun { IsBegun self.new }
        ensures words { words_left self.old ≤ words_left self.new + 22 }
        ensures ids { ids_left self.old ≤ ids_left self.new + 4 }
    {
        let thirty_one = self.thirty_one();
        let ones = self.ones();
        let bit = self.find_bit(which, a);
        let rest = self.two_words(op::I_SUB, thirty_one, bit);
        let none = self.compare(op::I_EQUAL, bit, ones);
        self.choose(none, ones, rest)
    }

    /// The lowest bits of what a shift gives, as many as the first word says.
    fn field(&mut self, shift: u32, op: u32, width: u32, offset: u32, a: u32) -> u32
        requires operation_shift { row_at shift ≡ Some (computes shift two AWord AWord) }
        requires short_shift { shift < 65536 }
        requires operation { row_at op ≡ Some (computes op three AWord AWord) }
        requires short { op < 65536 }
        requires begun { IsBegun self.old }
        requires words { 21 ≤ words_left self.old }
        requires ids { 4 ≤ ids_left self.old }
        ensures gives { Gives self.old self.new (a_word width ∷ a_word offset ∷ a_word a ∷ []) (a_word result ∷ [])
            (on_field shift op) }
        ensures begun { IsBegun self.new }
        ensures words { words_left self.old ≤ words_left self.new + 21 }
        ensures ids { ids_left self.old ≤ ids_left self.new + 4 }
    {
        let thirty_one = self.thirty_one();
        let zero = self.zero();
        let width = self.two_words(op::BITWISE_AND, width, thirty_one);
        let offset = self.two_words(op::BITWISE_AND, offset, thirty_one);
        let low = self.two_words(shift, a, offset);
        self.three_words(op, low, zero, width)
    }

    /// A quotient or rest, 0xFFFFFFFF where the divisor is 0.
    fn divide(&mut self, op: u32, a: u32, b: u32) -> u32
        requires operation { row_at op ≡ Some (computes op two AWord AWord) }
        requires short { op < 65536 }
        requires begun { IsBegun self.old }
        requires words { 22 ≤ words_left self.old }
        requires ids { 4 ≤ ids_left self.old }
        ensures gives { Gives self.old self.new (a_word a ∷ a_word b ∷ []) (a_word result ∷ []) (divided op) }
        ensures begun { IsBegun self.new }
        ensures words { words_left self.old ≤ words_left self.new + 22 }
        ensures ids { ids_left self.old ≤ ids_left self.new + 4 }
    {
        let zero = self.zero();
        let one = self.one();
        let ones = self.ones();
        let none = self.compare(op::I_EQUAL, b, zero);
        let divisor = self.choose(none, one, b);
        let quotient = self.two_words(op, a, divisor);
        self.choose(none, ones, quotient)
    }

    /// One of the two words that an instruction gives, counted from 0.
    fn part_of(&mut self, op: u32, a: u32, b: u32, place: u32) -> u32
        requires operation { row_at op ≡ Some (computes op two APair AWord) }
        requires short { op < 65536 }
        requires place { place < 2 }
        requires begun { IsBegun self.old }
        requires words { 10 ≤ words_left self.old }
        requires ids { 2 ≤ ids_left self.old }
        ensures gives { Gives self.old self.new (a_word a ∷ a_word b ∷ []) (a_word result ∷ []) (part_of op place) }
        ensures begun { IsBegun self.new }
        ensures words { words_left self.old ≤ words_left self.new + 10 }
        ensures ids { ids_left self.old ≤ ids_left self.new + 2 }
    {
        let both = self.pair(op, a, b);
        self.part(both, place)
    }

    /// The operation on one word.
    pub(crate) fn operate_one(&mut self, op: Unary, a: u32) -> u32
        requires begun { IsBegun self.old }
        requires words { 24 ≤ words_left self.old }
        requires ids { 4 ≤ ids_left self.old }
        ensures gives { Gives self.old self.new (a_word a ∷ []) (a_word result ∷ []) (on_word (unary op)) }
        ensures begun { IsBegun self.new }
        ensures words { words_left self.old ≤ words_left self.new + 24 }
        ensures ids { ids_left self.old ≤ ids_left self.new + 4 }
    {
        match op {
            Unary::Mov => a,
            Unary::Not => self.one_word(op::NOT, a),
            Unary::Ineg => {
                let zero = self.zero();
                self.two_words(op::I_SUB, zero, a)
            }
            Unary::Bfrev => self.one_word(op::BIT_REVERSE, a),
            Unary::Countbits => self.one_word(op::BIT_COUNT, a),
            Unary::FirstbitHi => self.bit_from_above(glsl::FIND_U_MSB, a),
            Unary::FirstbitLo => self.find_bit(glsl::FIND_I_LSB, a),
            Unary::FirstbitShi => self.bit_from_above(glsl::FIND_S_MSB, a),
        }
    }

    /// The operation on two words.
    pub(crate) fn operate_two(&mut self, op: Binary, a: u32, b: u32) -> u32
        requires begun { IsBegun self.old }
        requires words { 12 ≤ words_left self.old }
        requires ids { 2 ≤ ids_left self.old }
        ensures gives { Gives self.old self.new (a_word a ∷ a_word b ∷ []) (a_word result ∷ [])
            (on_words (λ x y. Word (binary op x y))) }
        ensures begun { IsBegun self.new }
        ensures words { words_left self.old ≤ words_left self.new + 12 }
        ensures ids { ids_left self.old ≤ ids_left self.new + 2 }
    {
        match op {
            Binary::Iadd => self.two_words(op::I_ADD, a, b),
            Binary::And => self.two_words(op::BITWISE_AND, a, b),
            Binary::Or => self.two_words(op::BITWISE_OR, a, b),
            Binary::Xor => self.two_words(op::BITWISE_XOR, a, b),
            Binary::Ishl => self.shift(op::SHIFT_LEFT_LOGICAL, a, b),
            Binary::Ishr => self.shift(op::SHIFT_RIGHT_ARITHMETIC, a, b),
            Binary::Ushr => self.shift(op::SHIFT_RIGHT_LOGICAL, a, b),
            Binary::Ieq => self.truth_word(op::I_EQUAL, a, b),
            Binary::Ine => self.truth_word(op::I_NOT_EQUAL, a, b),
            Binary::Ige => self.truth_word(op::S_GREATER_THAN_EQUAL, a, b),
            Binary::Ilt => self.truth_word(op::S_LESS_THAN, a, b),
            Binary::Uge => self.truth_word(op::U_GREATER_THAN_EQUAL, a, b),
            Binary::Ult => self.truth_word(op::U_LESS_THAN, a, b),
            Binary::Imax => self.second_where(op::S_LESS_THAN, a, b),
            Binary::Imin => self.second_unless(op::S_LESS_THAN, a, b),
            Binary::Umax => self.second_where(op::U_LESS_THAN, a, b),
            Binary::Umin => self.second_unless(op::U_LESS_THAN, a, b),
        }
    }

    /// The operation on three words.
    pub(crate) fn operate_three(&mut self, op: Ternary, a: u32, b: u32, c: u32) -> u32
        requires begun { IsBegun self.old }
        requires words { 30 ≤ words_left self.old }
        requires ids { 5 ≤ ids_left self.old }
        ensures gives { Gives self.old self.new (a_word a ∷ a_word b ∷ a_word c ∷ []) (a_word result ∷ [])
            (on_three (ternary op)) }
        ensures begun { IsBegun self.new }
        ensures words { words_left self.old ≤ words_left self.new + 30 }
        ensures ids { ids_left self.old ≤ ids_left self.new + 5 }
    {
        match op {
            Ternary::Imad => self.product_and_sum(a, b, c),
            Ternary::Umad => self.product_and_sum(a, b, c),
            Ternary::Movc => self.second_of_nonzero(a, b, c),
            Ternary::Ubfe => self.field(op::SHIFT_RIGHT_LOGICAL, op::BIT_FIELD_U_EXTRACT, a, b, c),
            Ternary::Ibfe => self.field(
                op::SHIFT_RIGHT_ARITHMETIC,
                op::BIT_FIELD_S_EXTRACT,
                a,
                b,
                c,
            ),
        }
    }

    /// The word `base` with a field of another.
    pub(crate) fn insert(&mut self, width: u32, offset: u32, inserted: u32, base: u32) -> u32
        requires begun { IsBegun self.old }
        requires words { 33 ≤ words_left self.old }
        requires ids { 6 ≤ ids_left self.old }
        ensures gives { Gives self.old self.new (a_word width ∷ a_word offset ∷ a_word inserted ∷ a_word base ∷ [])
            (a_word result ∷ []) (on_four inserted_field) }
        ensures begun { IsBegun self.new }
        ensures words { words_left self.old ≤ words_left self.new + 33 }
        ensures ids { ids_left self.old ≤ ids_left self.new + 6 }
    {
        let thirty_one = self.thirty_one();
        let thirty_two = self.thirty_two();
        let width = self.two_words(op::BITWISE_AND, width, thirty_one);
        let offset = self.two_words(op::BITWISE_AND, offset, thirty_one);
        let rest = self.two_words(op::I_SUB, thirty_two, offset);
        let fits = self.compare(op::U_LESS_THAN, width, rest);
        let count = self.choose(fits, width, rest);
        self.four_words(op::BIT_FIELD_INSERT, base, inserted, offset, count)
    }

    /// The first word of the operation on two words.
    pub(crate) fn operate_first(&mut self, op: Paired, a: u32, b: u32) -> u32
        requires begun { IsBegun self.old }
        requires words { 24 ≤ words_left self.old }
        requires ids { 4 ≤ ids_left self.old }
        ensures gives { Gives self.old self.new (a_word a ∷ a_word b ∷ []) (a_word result ∷ [])
            (on_words (λ x y. Word (pair op x y).first)) }
        ensures begun { IsBegun self.new }
        ensures words { words_left self.old ≤ words_left self.new + 24 }
        ensures ids { ids_left self.old ≤ ids_left self.new + 4 }
    {
        match op {
            Paired::Imul => self.part_of(op::S_MUL_EXTENDED, a, b, 1),
            Paired::Umul => self.part_of(op::U_MUL_EXTENDED, a, b, 1),
            Paired::Udiv => self.divide(op::U_DIV, a, b),
            Paired::Uaddc => self.part_of(op::I_ADD_CARRY, a, b, 0),
            Paired::Usubb => self.part_of(op::I_SUB_BORROW, a, b, 0),
        }
    }

    /// The second word of the operation on two words.
    pub(crate) fn operate_second(&mut self, op: Paired, a: u32, b: u32) -> u32
        requires begun { IsBegun self.old }
        requires words { 24 ≤ words_left self.old }
        requires ids { 4 ≤ ids_left self.old }
        ensures gives { Gives self.old self.new (a_word a ∷ a_word b ∷ []) (a_word result ∷ [])
            (on_words (λ x y. Word (pair op x y).second)) }
        ensures begun { IsBegun self.new }
        ensures words { words_left self.old ≤ words_left self.new + 24 }
        ensures ids { ids_left self.old ≤ ids_left self.new + 4 }
    {
        match op {
            Paired::Imul => self.part_of(op::S_MUL_EXTENDED, a, b, 0),
            Paired::Umul => self.part_of(op::U_MUL_EXTENDED, a, b, 0),
            Paired::Udiv => self.divide(op::U_MOD, a, b),
            Paired::Uaddc => self.part_of(op::I_ADD_CARRY, a, b, 1),
            Paired::Usubb => self.part_of(op::I_SUB_BORROW, a, b, 1),
        }
    }

    /// A product and a sum.
    fn product_and_sum(&mut self, a: u32, b: u32, c: u32) -> u32
        requires begun { IsBegun self.old }
        requires words { 10 ≤ words_left self.old }
        requires ids { 2 ≤ ids_left self.old }
        ensures gives { Gives self.old self.new (a_word a ∷ a_word b ∷ a_word c ∷ []) (a_word result ∷ [])
            (sum_of_product) }
        ensures begun { IsBegun self.new }
        ensures words { words_left self.old ≤ words_left self.new + 10 }
        ensures ids { ids_left self.old ≤ ids_left self.new + 2 }
    {
        let product = self.two_words(op::I_MUL, a, b);
        self.two_words(op::I_ADD, product, c)
    }

    /// The second word where the first is not 0, and else the third.
    fn second_of_nonzero(&mut self, a: u32, b: u32, c: u32) -> u32
        requires begun { IsBegun self.old }
        requires words { 11 ≤ words_left self.old }
        requires ids { 2 ≤ ids_left self.old }
        ensures gives { Gives self.old self.new (a_word a ∷ a_word b ∷ a_word c ∷ []) (a_word result ∷ [])
            (second_of_nonzero) }
        ensures begun { IsBegun self.new }
        ensures words { words_left self.old ≤ words_left self.new + 11 }
        ensures ids { ids_left self.old ≤ ids_left self.new + 2 }
    {
        let zero = self.zero();
        let none = self.compare(op::I_EQUAL, a, zero);
        self.choose(none, c, b)
    }
}
