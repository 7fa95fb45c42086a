ghost use Rattle.std.specs.Prelude.{◌≡◌, ◌+◌, ◌-◌, ◌<◌, ◌≤◌, List, [], ◌∷◌, ◌++◌, map, Some, IfOk, length, option_map, slice_get, vec_len};
ghost use Rattle.outside.specs.Told.{with_last, Output};
ghost use Rattle.outside.specs.Held.{OutputsValue, output_in, HoldsOutputs};

use std::alloc::Global;
use std::marker::Model;
use std::str;
use word_base::NoMemory;

/// Where an output stands in the bytes that are held: its name, then what was written to it.
#[derive(Clone, Copy)]
pub(crate) struct Span {
    name: usize,
    bytes: usize,
    end: usize,
}

/// Outputs in the order in which they were begun. Their names and bytes stand one behind the other
/// in a room of a fixed size.
#[derive(Drop)]
pub(crate) struct Outputs {
    held: Vec<u8>,
    spans: Vec<Span>,
    room: u32,
    most: u32,
}

impl Model for Outputs {
    ghost Value = { OutputsValue };

    ghost view = { λ o. record { list = map (output_in o.held.items) o.spans.items; spare = o.most - vec_len o.spans; room = o.room - vec_len o.held } };

    ghost invariant = { λ o. HoldsOutputs o.held o.spans o.room o.most };
}

impl Outputs {
    /// No outputs, with room for `most` of them, and for `room` bytes of names and contents.
    pub(crate) fn new(alloc: Global, most: u32, room: u32) -> Result<Outputs, NoMemory>
        ensures { IfOk result (λ o. o ≡ record { list = []; spare = most; room = room }) }
    {
        let Ok(held) = Vec::with_capacity(alloc, room as usize) else {
            return Err(NoMemory);
        };
        let Ok(spans) = Vec::with_capacity(alloc, most as usize) else {
            return Err(NoMemory);
        };
        Ok(Outputs {
            held,
            spans,
            room,
            most,
        })
    }

    /// The number of outputs.
    pub(crate) fn len(&self) -> u32
        ensures { result ≡ length self.now.list }
    {
        self.most - self.spare()
    }

    /// How many outputs may still be begun.
    pub(crate) fn spare(&self) -> u32
        ensures { result ≡ self.now.spare }
    {
        self.most - self.spans.len() as u32
    }

    /// How many bytes there is still room for.
    pub(crate) fn room(&self) -> u32
        ensures { result ≡ self.now.room }
    {
        self.room - self.held.len() as u32
    }

    /// Begins an output without bytes.
    pub(crate) fn begin(&mut self, name: &str)
        requires spare { 0 < self.old.spare }
        requires room { length name.now ≤ self.old.room }
        ensures { self.new ≡ record { list = self.old.list ++ record { name = name.now; bytes = [] } ∷ []; spare = self.old.spare - 1; room = self.old.room - length name.now } }
    {
        let start = self.held.len();
        let Ok(()) = self.held.extend_from_slice(name.as_bytes()) else {
            unreachable!()
        };
        let end = self.held.len();
        let span = Span {
            name: start,
            bytes: end,
            end,
        };
        let Ok(()) = self.spans.push(span) else {
            unreachable!()
        };
    }

    /// Adds the piece to the output begun last.
    pub(crate) fn add(&mut self, piece: &[u8])
        requires begun { 0 < length self.old.list }
        requires room { length piece.now ≤ self.old.room }
        ensures { self.new ≡ record { list = with_last self.old.list piece.now; spare = self.old.spare; room = self.old.room - length piece.now } }
    {
        let Ok(()) = self.held.extend_from_slice(piece) else {
            unreachable!()
        };
        let last = self.spans.len() - 1;
        self.spans[last].end = self.held.len();
    }

    /// The name of the output `i`, counted from 0.
    pub(crate) fn name(&self, i: u32) -> &str
        requires { i < length self.now.list }
        ensures { option_map (λ (o : Output). o.name) (slice_get self.now.list i) ≡ Some result.now }
    {
        let span = self.spans[i as usize];
        match str::from_utf8(&self.held[span.name..span.bytes]) {
            Ok(name) => name,
            Err(_) => unreachable!(),
        }
    }

    /// The bytes of the output `i`, counted from 0.
    pub(crate) fn bytes(&self, i: u32) -> &[u8]
        requires { i < length self.now.list }
        ensures { option_map (λ (o : Output). o.bytes) (slice_get self.now.list i) ≡ Some result.now }
    {
        let span = self.spans[i as usize];
        &self.held[span.bytes..span.end]
    }
}
