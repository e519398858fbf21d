//! The types that every crate speaks: a site's numbers, virtual machines, levels, the rows of tables, bytes, sets
//! of callers, the ends of streams, and the ranges that each keeps.
#![tactic(auto)]

pub mod config;
pub mod counts;
pub mod ends;
pub mod ids;
pub mod level;
pub mod rows;
pub mod small;
pub mod table;
pub mod version;
pub mod vm;

pub use config::{
    BadSpec, CALLERS, Config, MAX_FRAMES, MAX_HIGH, MAX_LENGTH, MAX_NODES, MAX_OVERHEAD, MAX_PAGE,
    MAX_PAGES, MAX_SAMPLE, MAX_SHARES, MAX_SLOTS, MAX_TAU, MIN_FRAMES, MIN_PAGE, VM_NUMBERS,
};
pub use counts::Counts;
pub use ends::{
    MemorySink, MemorySource, ReadSource, Sink, SinkFailed, Source, SourceFailed, WriteSink,
};
pub use ids::Ids;
pub use level::Level;
pub use rows::{Bytes, Rows};
pub use small::{FEW, SmallBytes};
pub use table::{FrameRow, Hint, KeyRow, Listing, MapRow, SlotRow};
pub use version::Version;
pub use vm::{VmId, VmSpec, VmState};
