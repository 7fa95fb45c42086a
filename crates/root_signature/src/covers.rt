ghost use Rattle.std.specs.Prelude.{◌≡◌};
ghost use Rattle.root_signature.specs.Covers.{last_of, lowest, highest};

/// What an entry of a root signature covers. Registers are numbers of `cb#`, `t#` and `u#`.
///
/// A count is the number of registers from the base on; they end at the latest with 4294967295. The
/// count 4294967295 reaches to that register also from the base 0. (Direct3D 12: root parameters.)
#[derive(Clone, Copy, Debug, PartialEq, Eq)]
pub enum Covers {
    /// A constant buffer whose words are root constants.
    Constants {
        /// The register.
        register: u32,
        /// The number of words of root constants before these.
        first: u32,
        /// How many words there are.
        count: u32,
    },
    /// Constant buffers.
    Cbv {
        /// The first register.
        base: u32,
        /// How many registers there are.
        count: u32,
    },
    /// Read-only views.
    Srv {
        /// The first register.
        base: u32,
        /// How many registers there are.
        count: u32,
    },
    /// Views that are written.
    Uav {
        /// The first register.
        base: u32,
        /// How many registers there are.
        count: u32,
    },
}

/// An entry with the byte of the record that it was read from.
#[derive(Clone, Copy, Debug, PartialEq, Eq)]
pub(crate) struct Entry {
    pub(crate) place: u32,
    pub(crate) covers: Covers,
}

/// Where the registers of the kinds `cb#`, `t#` and `u#` begin in the row of all of them.
const CONSTANTS: u64 = 0;

const RESOURCES: u64 = 0x100000000;

const UAVS: u64 = 0x200000000;

/// The last register of so many from the base on.
fn last_of(base: u32, count: u32) -> u64
    ensures { result ≡ last_of base count }
{
    match count {
        u32::MAX => u64::from(u32::MAX),
        _ => (u64::from(base) + u64::from(count)).saturating_sub(1),
    }
}

/// The first register of an entry, in the row of all registers.
pub(crate) fn lowest(covers: Covers) -> u64
    ensures { result ≡ lowest covers }
{
    match covers {
        Covers::Constants { register, .. } => CONSTANTS + u64::from(register),
        Covers::Cbv { base, .. } => CONSTANTS + u64::from(base),
        Covers::Srv { base, .. } => RESOURCES + u64::from(base),
        Covers::Uav { base, .. } => UAVS + u64::from(base),
    }
}

/// The last register of an entry, in the row of all registers.
pub(crate) fn highest(covers: Covers) -> u64
    ensures { result ≡ highest covers }
{
    match covers {
        Covers::Constants { register, .. } => CONSTANTS + u64::from(register),
        Covers::Cbv { base, count } => CONSTANTS + last_of(base, count),
        Covers::Srv { base, count } => RESOURCES + last_of(base, count),
        Covers::Uav { base, count } => UAVS + last_of(base, count),
    }
}
