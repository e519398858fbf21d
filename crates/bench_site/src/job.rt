//! The jobs, and the sites that they are played at.

use esx_types::Config;

/// What a user of the program waits for.
#[derive(Clone, Copy, Debug, PartialEq, Eq)]
pub enum Job {
    /// Machines on a host with memory enough read and write their pages, and a person looks on.
    Accesses,
    /// A host with little more than half as many frames as its machines have pages: targets, balloons, and pages that go out and come back.
    Pressure,
    /// Machines with pages of equal content, which a sharer looks for over and over.
    Sharing,
    /// A class goes back and forth, branches, prunes, and tries what would be.
    Branches,
    /// Many machines under pressure, with sample periods open and targets set anew: the awkward one.
    Targets,
    /// What a site was asked, printed as a session, checked and replayed.
    Records,
    /// Scenarios of large sites are read and opened, one after another; large machines come and go there, and a person asks for tables.
    Opening,
    /// Guests go through the traces of a scenario by turns, beside those that share, page out and set targets, and what they did is told.
    Traces,
}

pub const JOBS: [Job; 8] = [
    Job::Accesses,
    Job::Pressure,
    Job::Sharing,
    Job::Branches,
    Job::Targets,
    Job::Records,
    Job::Opening,
    Job::Traces,
];

/// How the machines of a job are admitted: `count` machines alike, but for their shares.
#[derive(Clone, Copy, Debug)]
pub struct Guests {
    pub count: u64,
    pub least: u64,
    pub most: u64,
    pub balloon: u64,
}

impl Job {
    pub fn name(self) -> &'static str {
        match self {
            Job::Accesses => "accesses",
            Job::Pressure => "pressure",
            Job::Sharing => "sharing",
            Job::Branches => "branches",
            Job::Targets => "targets",
            Job::Records => "records",
            Job::Opening => "opening",
            Job::Traces => "traces",
        }
    }

    /// The site of a job, of several the largest.
    pub fn site(self) -> Config {
        let (frames, page, slots) = match self {
            Job::Accesses => (65536, 4096, 0),
            Job::Pressure => (4700, 4096, 6144),
            Job::Sharing => (16384, 4096, 0),
            Job::Branches => (8192, 64, 6000),
            Job::Targets => (12288, 64, 24576),
            Job::Records => (2048, 256, 3584),
            Job::Opening => (1048576, 4096, 1048576),
            Job::Traces => (4700, 256, 6144),
        };
        Config {
            frames,
            page,
            slots,
            tau: 75,
            high: 6,
            soft: 4,
            hard: 2,
            low: 1,
            nodes: 16777216,
        }
    }

    pub fn guests(self) -> Guests {
        let (count, least, most, balloon) = match self {
            Job::Accesses => (8, 2500, 2500, 0),
            Job::Pressure => (8, 256, 1024, 200),
            Job::Sharing => (4, 2000, 2000, 0),
            Job::Branches => (2, 1000, 4000, 0),
            Job::Targets => (32, 256, 1024, 0),
            Job::Records => (4, 128, 1024, 100),
            Job::Opening => (8, 16384, 65536, 0),
            Job::Traces => (8, 256, 1024, 200),
        };
        Guests {
            count,
            least,
            most,
            balloon,
        }
    }
}
