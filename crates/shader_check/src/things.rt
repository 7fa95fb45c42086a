ghost use Rattle.std.specs.Prelude.{◌≡◌, ◌≤◌, replicate};
ghost use Rattle.tpf_program.specs.Ends.{has};
ghost use Rattle.tpf_program.specs.Sizes.{temps_declared};
ghost use Rattle.tpf_program.specs.Uses.{differs, is_bytes, is_structures};
ghost use Rattle.shader_check.specs.Things.{differs_by, from_first, looked_up, nothing, number_named, number_of};
ghost use Rattle.shader_check.specs.Things.{number_of_id, way_of, with_thing};

use tpf_decode::Meaning;
use tpf_program::{Declaration, Kind, SharedKind, ViewKind};

/// The number of things that a program may declare within the limits: 128 t#, 64 u#, 64 g#, 14 cb#,
/// 4,096 x#, the four numbers of a thread, the registers r#, the flags, the group, and the immediate
/// constants.
const THINGS: usize = 4374;

/// What is declared of a thing.
#[derive(Clone, Copy, Debug, PartialEq, Eq)]
pub(crate) struct Entry {
    /// Whether it is declared.
    pub(crate) declared: bool,
    /// Whether it is declared as a view, or as shared memory, that is reached by bytes.
    pub(crate) bytes: bool,
    /// Whether it is declared as one that is reached by structures.
    pub(crate) structures: bool,
}

impl Entry {
    /// Nothing is declared.
    const NOTHING: Entry = Entry {
        declared: false,
        bytes: false,
        structures: false,
    };

    /// Whether an instruction reaches views in another way than this one is reached.
    pub(crate) fn differs_from(self, meaning: Meaning) -> bool
        ensures { result ≡ differs_by meaning self }
    {
        match meaning {
            Meaning::LoadRaw | Meaning::StoreRaw => self.structures,
            Meaning::LoadStructured
            | Meaning::StoreStructured
            | Meaning::Allocates
            | Meaning::Consumes => self.bytes,
            Meaning::LoadTyped | Meaning::StoreTyped => self.bytes || self.structures,
            _ => false,
        }
    }
}

/// What is declared, in a table that has an entry for each thing that may be.
#[derive(Drop)]
pub(crate) struct Things {
    pub(crate) entries: [Entry; 4374],
    /// The number of registers r#.
    pub(crate) temps: u32,
}

/// The rules that an instruction breaks by what it names.
#[derive(Clone, Copy, Debug, PartialEq, Eq)]
pub(crate) struct Faults {
    /// Something is not declared.
    pub(crate) missing: bool,
    /// A register r# is past those that are declared.
    pub(crate) past: bool,
    /// A view is of another kind than the instruction reaches.
    pub(crate) other: bool,
}

impl Faults {
    /// No rule is broken.
    pub(crate) const NONE: Faults = Faults {
        missing: false,
        past: false,
        other: false,
    };
}

/// The number of a slot, where the first slot of its kind has that number, and there are so many.
fn numbered(first: usize, limit: u32, slot: u32) -> usize
    requires { first ≤ 4374 }
    ensures { result ≡ from_first first limit slot }
{
    if slot < limit {
        first + slot as usize
    } else {
        THINGS
    }
}

/// The number of a thread's number.
fn id_number(kind: Kind) -> usize
    ensures { result ≡ number_of_id kind }
{
    match kind {
        Kind::ThreadId => 4366,
        Kind::GroupId => 4367,
        Kind::IdInGroup => 4368,
        Kind::FlatId => 4369,
        _ => THINGS,
    }
}

/// The number of what is declared.
fn number(what: Declaration) -> usize
    ensures { result ≡ number_of what }
{
    match what {
        Declaration::Resource { slot, .. } => numbered(0, 128, slot),
        Declaration::Uav { slot, .. } => numbered(128, 64, slot),
        Declaration::Shared { slot, .. } => numbered(192, 64, slot),
        Declaration::Constants { slot, .. } => numbered(256, 14, slot),
        Declaration::Indexable { slot, .. } => numbered(270, 4096, slot),
        Declaration::Input { kind, .. } => id_number(kind),
        Declaration::Temps(_) => 4370,
        Declaration::Flags(_) => 4371,
        Declaration::Group { .. } => 4372,
        Declaration::ImmediateConstants { .. } => 4373,
    }
}

/// The number of what an operand of that kind and slot names.
fn named_number(kind: Kind, slot: u32) -> usize
    ensures { result ≡ number_named kind slot }
{
    match kind {
        Kind::Resource => numbered(0, 128, slot),
        Kind::Uav => numbered(128, 64, slot),
        Kind::Shared => numbered(192, 64, slot),
        Kind::Constant => numbered(256, 14, slot),
        Kind::Indexable => numbered(270, 4096, slot),
        Kind::Temp => 4370,
        Kind::ImmediateConstant => 4373,
        _ => id_number(kind),
    }
}

/// Whether a declaration is of a view, or of shared memory, that is reached by bytes.
fn is_raw(what: Declaration) -> bool
    ensures { result ≡ has is_bytes (way_of what) }
{
    match what {
        Declaration::Resource { view, .. } | Declaration::Uav { view, .. } => {
            matches!(view, ViewKind::Raw)
        }
        Declaration::Shared { kind, .. } => matches!(kind, SharedKind::Raw { .. }),
        _ => false,
    }
}

/// Whether a declaration is of a view, or of shared memory, that is reached by structures.
fn is_structured(what: Declaration) -> bool
    ensures { result ≡ has is_structures (way_of what) }
{
    match what {
        Declaration::Resource { view, .. } | Declaration::Uav { view, .. } => {
            matches!(view, ViewKind::Structured { .. })
        }
        Declaration::Shared { kind, .. } => matches!(kind, SharedKind::Structured { .. }),
        _ => false,
    }
}

/// The registers that a declaration names.
fn temps_of(what: Declaration) -> u32
    ensures { result ≡ temps_declared what }
{
    match what {
        Declaration::Temps(count) => count,
        _ => 0,
    }
}

impl Things {
    /// The table where nothing is declared.
    pub(crate) fn none() -> Things
        ensures { result ≡ record { entries = replicate 4374 nothing; temps = 0 } }
    {
        Things {
            entries: [Entry::NOTHING; 4374],
            temps: 0,
        }
    }

    /// What is declared of the thing with that number.
    fn entry(&self, number: usize) -> Entry
        ensures { result ≡ looked_up self.now number }
    {
        if number < THINGS {
            self.entries[number]
        } else {
            Entry::NOTHING
        }
    }

    /// Adds a declaration.
    pub(crate) fn declare(&mut self, what: Declaration)
        ensures { self.new ≡ with_thing self.old what }
    {
        let number = number(what);
        let entry = self.entry(number);
        if number < THINGS {
            self.entries[number] = Entry {
                declared: true,
                bytes: entry.bytes || is_raw(what),
                structures: entry.structures || is_structured(what),
            };
        }
        if self.temps == 0 {
            self.temps = temps_of(what);
        }
    }

    /// Whether what a declaration declares is declared.
    pub(crate) fn has(&self, what: Declaration) -> bool
        ensures { result ≡ (looked_up self.now (number_of what)).declared }
    {
        self.entry(number(what)).declared
    }
    /// What is declared of what an operand of that kind and slot names.
    pub(crate) fn named(&self, kind: Kind, slot: u32) -> Entry
        ensures { result ≡ looked_up self.now (number_named kind slot) }
    {
        self.entry(named_number(kind, slot))
    }
}
