ghost use Rattle.std.specs.Prelude.{◌≡◌, ◌<◌, length, slice_get, Some};
ghost use Rattle.root_signature.specs.Signatures.{IsSignature};

use crate::covers::{Covers, Entry};
use std::marker::Model;

/// What a root signature covers, in the order of covering: parameters in order, ranges in order.
///
/// No two entries cover one register. The root constants are numbered one after the other, and are at
/// most 64 words.
#[derive(Drop)]
pub struct RootSignature {
    pub(crate) entries: Vec<Entry>,
}

impl Model for RootSignature {
    ghost use Rattle.std.specs.Prelude.{List, map};
    ghost use Rattle.root_signature.specs.declared.covers.Covers.{Covers};
    ghost use Rattle.root_signature.specs.Signatures.{IsSignature};

    ghost Value = { List Covers };

    ghost view = { λ s. map (λ e. e.covers) s.entries.items };

    ghost invariant = { λ s. IsSignature (map (λ e. e.covers) s.entries.items) };
}

impl RootSignature {
    /// The number of entries.
    pub fn len(&self) -> u32
        ensures count { result ≡ length self.now }
        ensures signature { IsSignature self.now }
    {
        self.entries.len() as u32
    }

    /// The entry with that number, counted from 0.
    pub fn at(&self, i: u32) -> Covers
        requires { i < length self.now }
        ensures { slice_get self.now i ≡ Some result }
    {
        self.entries[i as usize].covers
    }
}
