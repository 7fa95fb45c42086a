ghost use Rattle.std.specs.Prelude.{◌≡◌, ◌<◌, [], ◌∷◌, Some, None, IsTrue, IfOk, OnOk, OnErr, length, option_map, slice_get};
ghost use Rattle.outside.specs.Causes.{HasCause, HasCauseOr};
ghost use Rattle.outside.specs.Told.{Output, BeginsRead, Reads, BeginsWrite, Writes, IsMissing};
ghost use Rattle.outside.specs.Memory.{DeskValue, told_of, no_calls, with_file, DeskBeginsRead, DeskReads, DeskBeginsWrite, DeskWrites};

use crate::desk::Desk;
use crate::files::Files;
use crate::outputs::Outputs;
use crate::plan::Plan;
use crate::sink::Failed;
use std::alloc::Global;
use std::marker::Model;
use word_base::NoMemory;

/// A desk in memory. Its files are added, its outputs stay to be looked at, and its calls fail by a
/// plan.
#[derive(Drop)]
pub struct MemoryDesk {
    alloc: Global,
    files: Files,
    outputs: Outputs,
    plan: Plan,
}

impl Model for MemoryDesk {
    ghost Value = { DeskValue };

    ghost view = { λ d. record { files = d.files.files; reading = d.files.reading; outputs = d.outputs.list; spare = d.outputs.spare; room = d.outputs.room; counts = d.plan } };
}

impl MemoryDesk {
    /// A desk without files, for `outputs` outputs whose names and bytes come to at most `room`
    /// bytes. The calls whose numbers, counted from 1 over all reading and writing, stand in
    /// `failing` fail.
    ///
    /// # Errors
    ///
    /// `NoMemory` where the room cannot be had.
    pub fn make(
        alloc: Global,
        outputs: u32,
        room: u32,
        failing: Vec<u64>,
    ) -> Result<MemoryDesk, NoMemory>
        ensures { IfOk result (λ d. d ≡ record { files = []; reading = None; outputs = []; spare = outputs; room = room; counts = no_calls failing.items }) }
    {
        let outputs = Outputs::new(alloc, outputs, room)?;
        Ok(MemoryDesk {
            alloc,
            files: Files::new(alloc),
            outputs,
            plan: Plan::new(failing),
        })
    }

    /// Adds a file, or gives the file of that name new bytes. The bytes left of a file that is being
    /// read stay.
    ///
    /// # Errors
    ///
    /// `NoMemory` where the bytes or the name cannot be kept. The desk is as it was then.
    pub fn add(&mut self, name: &str, bytes: &[u8]) -> Result<(), NoMemory>
        ensures ok { OnOk result (self.new ≡ record self.old { files = with_file self.old.files name.now bytes.now }) }
        ensures err { OnErr result (self.new ≡ self.old) }
    {
        self.files.add(self.alloc, name, bytes)
    }

    /// The number of outputs begun so far.
    pub fn outputs(&self) -> u32
        ensures { result ≡ length self.now.outputs }
    {
        self.outputs.len()
    }

    /// The name of the output `i`, counted from 0.
    pub fn output_name(&self, i: u32) -> &str
        requires { i < length self.now.outputs }
        ensures { option_map (λ (o : Output). o.name) (slice_get self.now.outputs i) ≡ Some result.now }
    {
        self.outputs.name(i)
    }

    /// The bytes written to the output `i`, counted from 0.
    pub fn output(&self, i: u32) -> &[u8]
        requires { i < length self.now.outputs }
        ensures { option_map (λ (o : Output). o.bytes) (slice_get self.now.outputs i) ≡ Some result.now }
    {
        self.outputs.bytes(i)
    }
}

impl Desk for MemoryDesk {
    ghost told = { told_of };

    /// Fails where the plan says so, and without a fault where no file has the name.
    fn begin_read(&mut self, name: &str) -> Result<(), Failed>
        ensures desk { BeginsRead (told_of self.old) name.now result (told_of self.new) }
        ensures cause { HasCauseOr (IsMissing (Some self.old.files) name.now) self.old.counts.faults self.new.counts.faults result }
        ensures exactly { DeskBeginsRead self.old name.now result self.new }
    {
        if self.plan.fails(false) {
            return Err(Failed);
        }
        let Some(place) = self.files.find(name) else {
            return Err(Failed);
        };
        self.files.open(place);
        Ok(())
    }

    /// Fails where the plan says so, and else reads as many bytes as are left and as fit.
    fn read(&mut self, piece: &mut [u8]) -> Result<usize, Failed>
        ensures desk { Reads (told_of self.old) piece.new result (told_of self.new) }
        ensures cause { HasCause self.old.counts.faults self.new.counts.faults result }
        ensures exactly { DeskReads self.old piece.new result self.new }
    {
        if self.plan.fails(false) {
            return Err(Failed);
        }
        Ok(self.files.read(piece))
    }

    /// Fails where the plan says so, and where an output more or its name has no room.
    fn begin_write(&mut self, name: &str) -> Result<(), Failed>
        ensures desk { BeginsWrite (told_of self.old) name.now result (told_of self.new) }
        ensures cause { HasCause self.old.counts.faults self.new.counts.faults result }
        ensures exactly { DeskBeginsWrite self.old name.now result self.new }
    {
        let refused = self.outputs.spare() == 0 || (self.outputs.room() as usize) < name.len();
        if self.plan.fails(refused) {
            return Err(Failed);
        }
        self.outputs.begin(name);
        Ok(())
    }

    /// Takes the whole piece, or fails where the plan says so or the room is too short.
    fn write(&mut self, piece: &[u8]) -> Result<usize, Failed>
        requires begun { IsTrue (told_of self.old).begun }
        ensures desk { Writes (told_of self.old) piece.now result (told_of self.new) }
        ensures cause { HasCause self.old.counts.faults self.new.counts.faults result }
        ensures exactly { DeskWrites self.old piece.now result self.new }
    {
        let refused = (self.outputs.room() as usize) < piece.len();
        if self.plan.fails(refused) {
            return Err(Failed);
        }
        self.outputs.add(piece);
        Ok(piece.len())
    }
}
