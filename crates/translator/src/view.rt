//! The module that a translation lends.
ghost use Rattle.std.specs.Prelude.{◌≡◌, ℕ, ◌+◌, ◌*◌, ◌-◌, ◌^◌, ◌<◌, ◌≤◌, [], ◌∷◌, Some, drop, length, min, slice_get, slice_index, take};
ghost use Rattle.word_base.specs.Words.{bytes_of};
ghost use Rattle.translator.specs.Pieces.{byte_of};
ghost use Rattle.translator.specs.Shown.{module_tree, module_words};

use crate::workspace::Workspace;
use shader_tree::Tree;

/// The module that a workspace holds, as long as it is lent.
#[derive(Drop)]
pub struct ModuleView<'a> {
    pub(crate) work: &'a Workspace,
}

impl<'a> ModuleView<'a> {
    /// Returns the number of words of the module.
    pub fn len(&self) -> u32
        ensures len { result ≡ length (module_words self.now) }
        ensures short { 4 * result < 2 ^ 32 }
    {
        let work = self.work;
        work.len()
    }

    /// Returns the word with that number, counted from 0.
    pub fn word(&self, i: u32) -> u32
        requires { i < length (module_words self.now) }
        ensures { slice_get (module_words self.now) i ≡ Some result }
    {
        let work = self.work;
        work.word(i)
    }

    /// The byte with that number, counted from 0, where the lowest byte of a word is its first.
    fn byte(&self, place: u32) -> u8
        requires { place < 4 * length (module_words self.now) }
        ensures { result ≡ byte_of (module_words self.now) place }
    {
        let word = self.word(place / 4);
        (word >> (8 * (place % 4)) & 255) as u8
    }

    /// Fills the front of a piece with the bytes of the words from the number `first` up to the number `end`, which is
    /// not among them. The bytes behind stay.
    fn fill_words(&self, first: u32, end: u32, piece: &mut [u8])
        requires order { first ≤ end }
        requires words { end ≤ length (module_words self.now) }
        requires room { 4 * (end - first) ≤ length piece.old }
        ensures front { (k : ℕ) → k < 4 * (end - first)
            → slice_index piece.new k ≡ byte_of (module_words self.now) (4 * first + k) }
        ensures rest { drop (4 * (end - first)) piece.new ≡ drop (4 * (end - first)) piece.old }
    {
        for i in first..end {
            put_word(piece, 4 * (i - first) as usize, self.word(i));
        }
    }

    /// Fills a piece with the bytes of the module from the byte `at` on, the lowest byte of each word first.
    ///
    /// Returns how many bytes were filled: all, but at the module's end as many as there are. The others stay.
    pub fn fill(&self, at: u32, piece: &mut [u8]) -> usize
        requires { at ≤ 4 * length (module_words self.now) }
        ensures count { result ≡ min (length piece.old) (4 * length (module_words self.now) - at) }
        ensures front { take result piece.new ≡ take result (drop at (bytes_of (module_words self.now))) }
        ensures rest { drop result piece.new ≡ drop result piece.old }
    {
        let count = piece.len().min((4 * self.len() - at) as usize);
        let whole = if at % 4 == 0 { count / 4 } else { 0 };
        self.fill_words(at / 4, at / 4 + whole as u32, piece);
        for n in 4 * whole..count {
            piece[n] = self.byte(at + n as u32);
        }
        count
    }

    /// Lends the tree that the module was written from.
    pub fn tree(&self) -> &Tree
        ensures { result.now ≡ module_tree self.now }
    {
        let work = self.work;
        work.tree()
    }
}

/// Puts the bytes of a word into a piece from the byte `at` on, the lowest first. The other bytes stay.
fn put_word(piece: &mut [u8], at: usize, word: u32)
    requires { at + 4 ≤ length piece.old }
    ensures before { (k : ℕ) → k < at → slice_index piece.new k ≡ slice_index piece.old k }
    ensures bytes { (k : ℕ) → k < 4 → slice_index piece.new (at + k) ≡ byte_of (word ∷ []) k }
    ensures rest { drop (at + 4) piece.new ≡ drop (at + 4) piece.old }
{
    piece[at] = (word & 255) as u8;
    piece[at + 1] = (word >> 8 & 255) as u8;
    piece[at + 2] = (word >> 16 & 255) as u8;
    piece[at + 3] = (word >> 24) as u8;
}
