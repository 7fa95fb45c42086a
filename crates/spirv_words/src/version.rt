ghost use Rattle.std.specs.Prelude.{◌≡◌, IsTrue};
ghost use Rattle.spirv_words.specs.Text.{is_version};
ghost use Rattle.spirv_words.specs.Versions.{number_of_version};

use crate::model;

/// A version of SPIR-V. (SPIR-V specification, unified1, section 2.3, Physical Layout.)
#[derive(Clone, Copy, Debug, PartialEq, Eq)]
pub enum Version {
    /// SPIR-V 1.3.
    V13,
    /// SPIR-V 1.4.
    V14,
}

impl Version {
    /// Returns the second word of a module of this version.
    pub fn number(self) -> u32
        ensures number { result ≡ number_of_version self }
        ensures version { IsTrue (is_version result) }
    {
        match self {
            Version::V13 => model::VERSION_1_3,
            Version::V14 => model::VERSION_1_4,
        }
    }
}
