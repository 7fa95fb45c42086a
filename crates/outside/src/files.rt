ghost use Rattle.std.specs.Prelude.{◌≡◌, ◌<◌, min, [], Some, None, OnOk, OnErr, length, take, drop, option_map, unwrap_or, position, slice_get};
ghost use Rattle.outside.specs.Told.{File, is_named, file_of};
ghost use Rattle.outside.specs.Memory.{with_file};
ghost use Rattle.outside.specs.Held.{FilesValue, source_of, bytes_at, with_bytes_at, IsSource, FindsFile};

use crate::front::copy_front;
use std::alloc::Global;
use std::marker::Model;
use std::mem;
use word_base::NoMemory;

/// A file in memory.
#[derive(Drop)]
struct MemoryFile {
    name: String,
    bytes: Vec<u8>,
}

impl Model for MemoryFile {
    ghost use Rattle.std.specs.Prelude.{string_bytes};
    ghost use Rattle.outside.specs.Told.{File};

    ghost Value = { File };

    ghost view = { λ f. record { name = string_bytes f.name; bytes = f.bytes.items } };
}

/// Where the bytes stand that are being read.
#[derive(Clone, Copy)]
pub(crate) enum Source {
    /// No file was begun.
    Nothing,
    /// The file at that place of the list.
    Listed(usize),
    /// The bytes of a file that has got new ones since.
    Replaced,
}

/// Files by name, and the place up to which one of them was read.
#[derive(Drop)]
pub(crate) struct Files {
    list: Vec<MemoryFile>,
    source: Source,
    at: usize,
    replaced: Vec<u8>,
}

impl Model for Files {
    ghost Value = { FilesValue };

    ghost view = { λ f. record { files = f.list.items; reading = option_map (drop f.at) (source_of f.source f.list.items f.replaced.items) } };

    ghost invariant = { λ f. IsSource f.source f.list.items f.replaced.items f.at };
}

impl Files {
    /// No files.
    pub(crate) fn new(alloc: Global) -> Self
        ensures { result ≡ record { files = []; reading = None } }
    {
        Files {
            list: Vec::new(alloc),
            source: Source::Nothing,
            at: 0,
            replaced: Vec::new(alloc),
        }
    }

    /// The place of the first file of that name in the list.
    fn place_of(&self, name: &str) -> Option<usize>
        ensures { result ≡ position (is_named name.now) self.now.files }
    {
        self.list.iter().position(|file| file.name.as_str() == name)
    }

    /// The place of the file of that name, which is where its bytes are.
    pub(crate) fn find(&self, name: &str) -> Option<usize>
        ensures place { result ≡ position (is_named name.now) self.now.files }
        ensures file { FindsFile self.now.files name.now result }
    {
        self.place_of(name)
    }

    /// Begins to read the file at that place.
    pub(crate) fn open(&mut self, place: usize)
        requires { place < length self.old.files }
        ensures { self.new ≡ record { files = self.old.files; reading = Some (bytes_at self.old.files place) } }
    {
        self.source = Source::Listed(place);
        self.at = 0;
    }

    /// Reads as many bytes as are left and as fit into `piece`, and gives their number.
    pub(crate) fn read(&mut self, piece: &mut [u8]) -> usize
        ensures count { result ≡ min (length (unwrap_or self.old.reading [])) (length piece.new) }
        ensures front { take result piece.new ≡ take result (unwrap_or self.old.reading []) }
        ensures files { self.new ≡ record { files = self.old.files; reading = option_map (drop result) self.old.reading } }
    {
        let at = self.at;
        let count = match self.source {
            Source::Nothing => return 0,
            Source::Listed(place) => copy_front(&self.list[place].bytes[at..], piece),
            Source::Replaced => copy_front(&self.replaced[at..], piece),
        };
        self.at += count;
        count
    }

    /// Gives the file at that place new bytes. The bytes left of a file that is being read stay.
    fn replace(&mut self, place: usize, bytes: Vec<u8>)
        requires { place < length self.old.files }
        ensures { self.new ≡ record { files = with_bytes_at self.old.files place bytes.items; reading = self.old.reading } }
    {
        let old = mem::replace(&mut self.list[place].bytes, bytes);
        match self.source {
            Source::Listed(reading) if reading == place => {
                self.source = Source::Replaced;
                self.replaced = old;
            }
            _ => {}
        }
    }

    /// Adds a file, or gives the file of that name new bytes. After `NoMemory` nothing has changed.
    pub(crate) fn add(&mut self, alloc: Global, name: &str, bytes: &[u8]) -> Result<(), NoMemory>
        ensures ok { OnOk result (self.new ≡ record { files = with_file self.old.files name.now bytes.now; reading = self.old.reading }) }
        ensures err { OnErr result (self.new ≡ self.old) }
    {
        let Ok(bytes) = Vec::from_slice(alloc, bytes) else {
            return Err(NoMemory);
        };
        if let Some(place) = self.find(name) {
            self.replace(place, bytes);
            return Ok(());
        }
        let Ok(name) = String::from_str(alloc, name) else {
            return Err(NoMemory);
        };
        match self.list.push(MemoryFile { name, bytes }) {
            Ok(()) => Ok(()),
            Err(_) => Err(NoMemory),
        }
    }
}
