//! What stands under a key or a short.

ghost use Rattle.std.specs.Prelude.{◌≡◌};
ghost use Rattle.esx_keys.specs.Kinds.{kind_of};

use esx_types::VmId;

/// What a key leads to: the frame that holds the shared content, or a page whose key had the same short when
/// it was scanned and that was not shared then.
#[derive(Clone, Copy, Debug, PartialEq, Eq)]
pub enum Entry {
    Shared { frame: u32 },
    Hint { vm: VmId, page: u32 },
}

/// What is looked for under a key.
#[derive(Clone, Copy, Debug, PartialEq, Eq)]
pub enum Kind {
    Shared,
    Hint,
}

impl Entry {
    /// The look-up that finds this entry.
    pub fn kind(&self) -> Kind
        ensures { result ≡ kind_of self.now }
    {
        match self {
            Entry::Shared { .. } => Kind::Shared,
            Entry::Hint { .. } => Kind::Hint,
        }
    }
}
