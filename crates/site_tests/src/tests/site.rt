//! The site of the tests, and what a virtual machine asks of it.

use esx_types::{Config, VmSpec};

pub const SITE: Config = Config {
    frames: 20,
    page: 16,
    slots: 8,
    tau: 75,
    high: 6,
    soft: 4,
    hard: 2,
    low: 1,
    nodes: 16777216,
};

pub const SPEC: VmSpec = VmSpec {
    min: 2,
    max: 6,
    overhead: 1,
    shares: 1000,
    balloon_max: 0,
    tau: None,
};

/// Drops a value. Where a large one goes, this call is much less to prove than its fields' own drops, one by one.
pub fn done<T: Drop>(_it: T) {}
