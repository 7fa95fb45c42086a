ghost use Rattle.std.specs.Prelude.{◌≡◌, ◌-◌, ◌≤◌, [], Some, IfOk, vec_len, vec_capacity};
ghost use Rattle.outside.specs.Causes.{HasCause, Takes};
ghost use Rattle.outside.specs.Memory.{SinkValue, SinkWrites, no_calls};

use crate::plan::Plan;
use crate::sink::{Failed, Sink};
use std::alloc::Global;
use std::marker::Model;
use word_base::NoMemory;

/// A sink in memory, for as many bytes as it was made for, whose calls fail by a plan.
#[derive(Drop)]
pub struct MemorySink {
    held: Vec<u8>,
    room: u32,
    plan: Plan,
}

impl Model for MemorySink {
    ghost Value = { SinkValue };

    ghost view = { λ s. record { written = s.held.items; room = s.room - vec_len s.held; counts = s.plan } };

    ghost invariant = { λ s. (vec_len s.held ≤ s.room) × (s.room ≤ vec_capacity s.held) };
}

impl MemorySink {
    /// A sink for `room` bytes. The writes whose numbers, counted from 1, stand in `failing` fail.
    /// Memory is taken here alone.
    ///
    /// # Errors
    ///
    /// `NoMemory` where the room cannot be had.
    pub fn make(alloc: Global, room: u32, failing: Vec<u64>) -> Result<MemorySink, NoMemory>
        ensures { IfOk result (λ s. s ≡ record { written = []; room = room; counts = no_calls failing.items }) }
    {
        match Vec::with_capacity(alloc, room as usize) {
            Ok(held) => Ok(MemorySink {
                held,
                room,
                plan: Plan::new(failing),
            }),
            Err(_) => Err(NoMemory),
        }
    }

    /// The bytes written so far.
    pub fn bytes(&self) -> &[u8]
        ensures { result.now ≡ self.now.written }
    {
        self.held.as_slice()
    }
}

impl Sink for MemorySink {
    ghost written = { λ s. Some s.written };

    ghost faults = { λ s. s.counts.faults };

    ghost kept = { λ s. tt };

    /// Takes the whole piece, or fails where the plan says so or the room is too short.
    fn write(&mut self, piece: &[u8]) -> Result<usize, Failed>
        ensures bytes { Takes (Some self.old.written) piece.now result (Some self.new.written) }
        ensures cause { HasCause self.old.counts.faults self.new.counts.faults result }
        ensures exactly { SinkWrites self.old piece.now result self.new }
    {
        let left = self.room as usize - self.held.len();
        if self.plan.fails(left < piece.len()) {
            return Err(Failed);
        }
        let Ok(()) = self.held.extend_from_slice(piece) else {
            unreachable!()
        };
        Ok(piece.len())
    }
}
