ghost use Rattle.std.specs.Prelude.{◌≡◌, ◌≤◌, length, ℕ, false, None, Some, IsTrue, is_some};
ghost use Rattle.outside.specs.Causes.{HasCause, HasCauseOr, Takes};
ghost use Rattle.outside.specs.Told.{BeginsRead, Reads, BeginsWrite, Writes, IsMissing};
ghost use Rattle.outside.specs.System.{SystemValue, system_told, CountsFaults};
ghost use Rattle.outside.specs.Memory.{count_up};

use crate::desk::Desk;
use crate::sink::{Failed, Sink};
use std::fs;
use std::fs::File;
use std::io::{Read, Write};
use std::marker::Model;

/// What a desk over files reads from.
#[derive(Drop)]
enum Input {
    /// Standard input.
    Standard,
    /// A file.
    Named(File),
}

/// The desk of a program: files of the system, and standard input under the name `-`.
#[derive(Drop)]
pub struct FileDesk {
    rt: HostRuntime,
    input: Option<Input>,
    output: Option<File>,
    faults: u64,
}

impl Model for FileDesk {
    ghost Value = { SystemValue };

    ghost view = { λ d. record { begun = is_some d.output; reading = is_some d.input; faults = d.faults } };
}

impl FileDesk {
    /// A desk over the files of the system.
    pub fn make(rt: HostRuntime) -> FileDesk
        ensures { result ≡ record { begun = false; reading = false; faults = 0 } }
    {
        FileDesk {
            rt,
            input: None,
            output: None,
            faults: 0,
        }
    }

    /// Counts a fault.
    fn fault(&mut self) -> Failed
        ensures fault { self.new ≡ record self.old { faults = count_up self.old.faults } }
        ensures later { self.old.faults ≤ self.new.faults }
    {
        self.faults = self.faults.saturating_add(1);
        Failed
    }
}

impl Desk for FileDesk {
    ghost told = { system_told };

    /// Opens the file, and leaves what was read before where that fails.
    fn begin_read(&mut self, name: &str) -> Result<(), Failed>
        ensures desk { BeginsRead (system_told self.old) name.now result (system_told self.new) }
        ensures cause { HasCauseOr (IsMissing None name.now) self.old.faults self.new.faults result }
        ensures counts { CountsFaults self.old.faults result self.new.faults }
    {
        if name == "-" {
            self.input = Some(Input::Standard);
            return Ok(());
        }
        match fs::open(&self.rt, name) {
            Ok(file) => {
                self.input = Some(Input::Named(file));
                Ok(())
            }
            Err(_) => Err(self.fault()),
        }
    }

    /// Reads from the file that was opened last.
    fn read(&mut self, piece: &mut [u8]) -> Result<usize, Failed>
        ensures desk { Reads (system_told self.old) piece.new result (system_told self.new) }
        ensures cause { HasCause self.old.faults self.new.faults result }
        ensures counts { CountsFaults self.old.faults result self.new.faults }
    {
        let got = match &mut self.input {
            None => return Ok(0),
            Some(Input::Standard) => self.rt.stdin().read(piece),
            Some(Input::Named(file)) => file.read(piece),
        };
        match got {
            Ok(count) => Ok(count),
            Err(_) => Err(self.fault()),
        }
    }

    /// Creates the file, and leaves what was written before where that fails.
    fn begin_write(&mut self, name: &str) -> Result<(), Failed>
        ensures desk { BeginsWrite (system_told self.old) name.now result (system_told self.new) }
        ensures cause { HasCause self.old.faults self.new.faults result }
        ensures counts { CountsFaults self.old.faults result self.new.faults }
    {
        match fs::create(&self.rt, name) {
            Ok(file) => {
                self.output = Some(file);
                Ok(())
            }
            Err(_) => Err(self.fault()),
        }
    }

    /// Writes to the file that was created last.
    fn write(&mut self, piece: &[u8]) -> Result<usize, Failed>
        requires begun { IsTrue self.old.begun }
        ensures desk { Writes (system_told self.old) piece.now result (system_told self.new) }
        ensures cause { HasCause self.old.faults self.new.faults result }
        ensures counts { CountsFaults self.old.faults result self.new.faults }
    {
        let got = match &mut self.output {
            Some(file) => file.write(piece),
            None => unreachable!(),
        };
        match got {
            Ok(count) if count > 0 || piece.is_empty() => Ok(count),
            _ => Err(self.fault()),
        }
    }
}

/// A standard stream that is written to.
#[derive(Clone, Copy)]
enum Stream {
    Out,
    Err,
}

/// A sink over a standard stream.
#[derive(Drop)]
pub struct StdSink {
    rt: HostRuntime,
    stream: Stream,
    faults: u64,
}

impl Model for StdSink {
    ghost Value = { ℕ };

    ghost view = { λ s. s.faults };
}

impl StdSink {
    /// Standard output.
    pub fn out(rt: HostRuntime) -> StdSink
        ensures { result ≡ 0 }
    {
        StdSink {
            rt,
            stream: Stream::Out,
            faults: 0,
        }
    }

    /// Standard error.
    pub fn err(rt: HostRuntime) -> StdSink
        ensures { result ≡ 0 }
    {
        StdSink {
            rt,
            stream: Stream::Err,
            faults: 0,
        }
    }
}

/// Writes to a stream and flushes it. Gives 0 where that failed.
fn write_flushed<W: Write + Drop>(mut stream: W, piece: &[u8]) -> usize
    ensures { result ≤ length piece.now }
{
    match stream.write(piece) {
        Ok(count) if stream.flush().is_ok() => count,
        _ => 0,
    }
}

impl Sink for StdSink {
    ghost written = { λ s. None };

    ghost faults = { λ s. s };

    ghost kept = { λ s. tt };

    /// Writes to the stream, and flushes it.
    fn write(&mut self, piece: &[u8]) -> Result<usize, Failed>
        ensures bytes { Takes None piece.now result None }
        ensures cause { HasCause self.old self.new result }
        ensures counts { CountsFaults self.old result self.new }
    {
        let count = match self.stream {
            Stream::Out => write_flushed(self.rt.stdout(), piece),
            Stream::Err => write_flushed(self.rt.stderr(), piece),
        };
        if count == 0 && !piece.is_empty() {
            self.faults = self.faults.saturating_add(1);
            return Err(Failed);
        }
        Ok(count)
    }
}
