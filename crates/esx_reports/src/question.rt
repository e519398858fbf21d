//! What may be asked of a session.

use esx_paths::At;

/// A table of comma-separated values: the losses, the guests in each of their lives, or the site's names and values.
#[derive(Clone, Copy, Debug, PartialEq, Eq)]
pub enum Table {
    Losses,
    Guests,
    Site,
}

/// What is to be told of a path.
#[derive(Clone, Copy, Debug, PartialEq, Eq)]
pub enum What {
    /// All tables, in columns.
    Report,
    Table { table: Table },
    /// The changes of place on the path as comma-separated values.
    Changes,
    /// The steps of the path as comma-separated values: what changed of the figures of the site and its machines.
    Steps,
    /// Why a guest lost its pages, or one of them if it is named.
    Why { vm: u32, page: Option<u32> },
}

/// What is to be told of the path to a node.
#[derive(Debug, Drop)]
pub struct Question {
    pub at: At,
    pub what: What,
}
