ghost use Rattle.std.specs.Prelude.{◌≡◌, ◌≤◌, min, Bool, true, false, [], Some, None, Ok, IfOk, IsOk, IsTrue, length, take, drop, option_map, unwrap_or};
ghost use Rattle.std.specs.Prelude.{vec_len, OnSome, IfSome};
ghost use Rattle.outside.specs.Causes.{HasCause, HasCauseOr, Takes};
ghost use Rattle.outside.specs.Told.{BeginsRead, Reads, BeginsWrite, Writes, IsMissing};
ghost use Rattle.outside.specs.Quiet.{QuietValue, quiet_told, QuietReads};

use crate::desk::Desk;
use crate::front::copy_front;
use crate::sink::{Failed, Sink};
use std::marker::Model;

/// A desk that gives the same bytes under every name, drops what is written, and never fails.
#[derive(Drop)]
pub struct QuietDesk {
    input: Vec<u8>,
    at: Option<usize>,
    begun: bool,
}

impl Model for QuietDesk {
    ghost Value = { QuietValue };

    ghost view = { λ d. record { input = d.input.items; reading = option_map (λ at. drop at d.input.items) d.at; begun = d.begun } };

    ghost invariant = { λ d. IfSome d.at (λ at. at ≤ vec_len d.input) };
}

impl QuietDesk {
    /// A desk that reads `input` under every name.
    pub fn make(input: Vec<u8>) -> QuietDesk
        ensures { result ≡ record { input = input.items; reading = None; begun = false } }
    {
        QuietDesk {
            input,
            at: None,
            begun: false,
        }
    }
}

impl Desk for QuietDesk {
    ghost told = { quiet_told };

    /// Begins to read the input from its front.
    fn begin_read(&mut self, name: &str) -> Result<(), Failed>
        ensures desk { BeginsRead (quiet_told self.old) name.now result (quiet_told self.new) }
        ensures cause { HasCauseOr (IsMissing None name.now) 0 0 result }
        ensures succeeds { IsOk result }
        ensures exactly { self.new ≡ record self.old { reading = Some self.old.input } }
    {
        self.at = Some(0);
        Ok(())
    }

    /// Reads as many bytes as are left and as fit.
    fn read(&mut self, piece: &mut [u8]) -> Result<usize, Failed>
        ensures desk { Reads (quiet_told self.old) piece.new result (quiet_told self.new) }
        ensures cause { HasCause 0 0 result }
        ensures exactly { QuietReads self.old piece.new result self.new }
    {
        let Some(at) = self.at else {
            return Ok(0);
        };
        let count = copy_front(&self.input[at..], piece);
        self.at = Some(at + count);
        Ok(count)
    }

    /// Begins an output, which nobody sees.
    fn begin_write(&mut self, name: &str) -> Result<(), Failed>
        ensures desk { BeginsWrite (quiet_told self.old) name.now result (quiet_told self.new) }
        ensures cause { HasCause 0 0 result }
        ensures succeeds { IsOk result }
        ensures exactly { self.new ≡ record self.old { begun = true } }
    {
        self.begun = true;
        Ok(())
    }

    /// Takes the whole piece and drops it.
    fn write(&mut self, piece: &[u8]) -> Result<usize, Failed>
        ensures desk { Writes (quiet_told self.old) piece.now result (quiet_told self.new) }
        ensures cause { HasCause 0 0 result }
        ensures whole { result ≡ Ok (length piece.now) }
        ensures exactly { self.new ≡ self.old }
    {
        Ok(piece.len())
    }
}

/// A sink that drops what is written, and never fails.
#[derive(Drop)]
pub struct QuietSink {}

impl QuietSink {
    /// Such a sink.
    pub fn make() -> QuietSink {
        QuietSink {}
    }
}

impl Sink for QuietSink {
    ghost written = { λ s. None };

    ghost faults = { λ s. 0 };

    ghost kept = { λ s. tt };

    /// Takes the whole piece and drops it.
    fn write(&mut self, piece: &[u8]) -> Result<usize, Failed>
        ensures bytes { Takes None piece.now result None }
        ensures cause { HasCause 0 0 result }
        ensures whole { result ≡ Ok (length piece.now) }
    {
        Ok(piece.len())
    }
}
