//! The versions of texts, and the limits that each sets.

ghost use Rattle.std.specs.Prelude.{◌≡◌};
ghost use Rattle.esx_types.specs.Versions.{vm_numbers, callers, has_own_taxes};

use crate::config::{CALLERS, VM_NUMBERS};

/// How many virtual machine numbers a text of version 1 has.
pub const VM_NUMBERS_OF_VERSION_ONE: usize = 32;
/// How many callers a text of version 1 has.
pub const CALLERS_OF_VERSION_ONE: usize = 64;

/// The version of a text. Texts are printed as version 2; one of version 1 is read under the limits that were then.
#[derive(Clone, Copy, Debug, PartialEq, Eq)]
pub enum Version {
    One,
    Two,
}

impl Version {
    /// How many virtual machine numbers there are: a number is below this.
    pub fn vm_numbers(self) -> usize
        ensures { result ≡ vm_numbers self }
    {
        match self {
            Version::One => VM_NUMBERS_OF_VERSION_ONE,
            Version::Two => VM_NUMBERS,
        }
    }

    /// How many callers there are: a caller's number is below this.
    pub fn callers(self) -> usize
        ensures { result ≡ callers self }
    {
        match self {
            Version::One => CALLERS_OF_VERSION_ONE,
            Version::Two => CALLERS,
        }
    }

    /// May a virtual machine have a tax of its own?
    pub fn has_own_taxes(self) -> bool
        ensures { result ≡ has_own_taxes self }
    {
        match self {
            Version::One => false,
            Version::Two => true,
        }
    }
}
