//! What holds of lines, parts and numbers, for the proofs of callers. Nothing here does anything when it
//! runs.
ghost use Rattle.std.specs.Prelude.{◌≡◌, ◌≢◌, ◌<◌, ◌-◌, ◌^◌, ◌++◌, ◌∷◌, [], ℕ, List, true, false, length, take, drop, Some};
ghost use Rattle.std.specs.Fmt.{decimal};
ghost use Rattle.std.specs.List.{join_with_byte, list_all};
ghost use Rattle.std.specs.Str.Lines.{lines, strip_carriage_return};
ghost use Rattle.text_lines.specs.Lines.{has_outer_space, is_line, joined, lacks};
ghost use Rattle.text_lines.specs.Numbers.{number_of};
ghost use Rattle.text_lines.specs.Parts.{is_word, parts};

/// The lines of lines that were joined are those lines, whatever text stands behind them. The first line
/// ends at the first LF, and what no LF ends is a line too.
pub fn line_laws()
    ensures joined { (ls : List (List ℕ)) → list_all is_line ls ≡ true → lines (joined ls) ≡ ls }
    ensures in_front { (ls : List (List ℕ)) (rest : List ℕ) → list_all is_line ls ≡ true → lines (joined ls ++ rest) ≡ ls ++ lines rest }
    ensures first { (line rest : List ℕ) → lacks 10 line ≡ true → lines (line ++ 10 ∷ rest) ≡ strip_carriage_return line ∷ lines rest }
    ensures last { (line : List ℕ) → 0 < length line → lacks 10 line ≡ true → lines line ≡ line ∷ [] }
{}

/// The parts of words that were joined by single spaces are those words. A word in front of a space is the first
/// part, and a word is its only part. Bytes in front of a word that are no spaces make a longer one. And the rest of a list, as code takes it.
pub fn part_laws()
    ensures joined { (ws : List (List ℕ)) → list_all is_word ws ≡ true → parts (join_with_byte 32 ws) ≡ ws }
    ensures first { (w rest : List ℕ) → is_word w ≡ true → parts (w ++ 32 ∷ rest) ≡ w ∷ parts rest }
    ensures only { (w : List ℕ) → is_word w ≡ true → parts w ≡ w ∷ [] }
    ensures inner { (w : List ℕ) → is_word w ≡ true → has_outer_space w ≡ false }
    ensures longer { (front w : List ℕ) → lacks 32 front ≡ true → is_word w ≡ true → is_word (front ++ w) ≡ true }
    ensures rest { (xs : List ℕ) (n : ℕ) → take (length xs - n) (drop n xs) ≡ drop n xs }
{}

/// A number that is written is read again, and what is read has at most ten digits. What is written of a number is a
/// word.
pub fn number_laws()
    ensures again { (n : ℕ) → n < 10 ^ 10 → number_of (decimal n) ≡ Some n }
    ensures small { (digits : List ℕ) (n : ℕ) → number_of digits ≡ Some n → n < 10 ^ 10 }
    ensures word { (n : ℕ) → n < 2 ^ 64 → is_word (decimal n) ≡ true }
{}
