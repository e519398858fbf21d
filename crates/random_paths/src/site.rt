//! The sites of the paths: small ones, where frames are soon scarce, and a few with many pages or machines.

use esx_types::{Config, MAX_NODES, VmSpec};

/// A site, and the machines that are there at the beginning of a path.
#[derive(Clone, Copy)]
pub struct Shape {
    pub site: Config,
    /// How many machines there are; each asks for the same.
    pub machines: u32,
    pub spec: VmSpec,
    /// So many writes fill the first frames.
    pub fill: u32,
    /// So many calls are drawn then.
    pub calls: u32,
    /// Of 100 calls, so many are events.
    pub events: u32,
    /// After so many calls the books are compared, and after each move.
    pub between: u32,
}

const SMALL: Config = Config {
    frames: 8,
    page: 16,
    slots: 9,
    tau: 75,
    high: 6,
    soft: 4,
    hard: 2,
    low: 1,
    nodes: MAX_NODES,
};

const TIGHT: Config = Config {
    frames: 12,
    slots: 16,
    high: 50,
    soft: 40,
    hard: 30,
    low: 20,
    ..SMALL
};

const HALF: VmSpec = VmSpec {
    min: 3,
    max: 6,
    overhead: 1,
    shares: 1000,
    balloon_max: 3,
    tau: None,
};

/// All frames are promised, so that pages are replaced.
const PAIR: Shape = Shape {
    site: SMALL,
    machines: 2,
    spec: HALF,
    fill: 6,
    calls: 110,
    events: 82,
    between: 32,
};

const PROMISED: Shape = Shape {
    site: TIGHT,
    machines: 3,
    spec: VmSpec { max: 7, ..HALF },
    fill: 9,
    ..PAIR
};

/// Machines go far above their least, so that pages are lent and paged out.
const LOOSE: Shape = Shape {
    site: TIGHT,
    spec: VmSpec {
        min: 1,
        max: 8,
        balloon_max: 6,
        ..HALF
    },
    fill: 10,
    ..PAIR
};

const WIDE: Shape = Shape {
    site: Config {
        frames: 26,
        slots: 20,
        tau: 0,
        high: 50,
        soft: 40,
        hard: 25,
        low: 10,
        ..SMALL
    },
    machines: 4,
    spec: VmSpec {
        min: 2,
        max: 7,
        overhead: 2,
        balloon_max: 4,
        ..HALF
    },
    fill: 20,
    ..PAIR
};

const FEW_NODES: Shape = Shape {
    site: Config { nodes: 50, ..TIGHT },
    calls: 60,
    ..LOOSE
};

/// The cursor moves about a tree.
const BRANCHED: Shape = Shape {
    calls: 150,
    events: 55,
    ..LOOSE
};

/// Machines with so many pages that they are drawn by blocks.
const LARGE: Shape = Shape {
    site: Config {
        frames: 40,
        slots: 540,
        ..TIGHT
    },
    spec: VmSpec {
        min: 2,
        max: 270,
        overhead: 1,
        shares: 1000,
        balloon_max: 100,
        tau: None,
    },
    fill: 34,
    between: 100,
    ..PAIR
};

/// Machines with pages past those that a sample period marks by bits.
const HUGE: Shape = Shape {
    site: Config {
        frames: 40,
        slots: 2200,
        ..TIGHT
    },
    spec: VmSpec {
        min: 2,
        max: 1100,
        overhead: 1,
        shares: 1000,
        balloon_max: 100,
        tau: None,
    },
    fill: 30,
    calls: 60,
    between: 100,
    ..PAIR
};

/// Many machines, of which many pages are revoked at once.
const MANY: Shape = Shape {
    site: Config {
        frames: 190,
        slots: 170,
        tau: 90,
        high: 50,
        soft: 45,
        hard: 40,
        low: 2,
        ..SMALL
    },
    machines: 40,
    spec: VmSpec {
        min: 1,
        max: 5,
        overhead: 1,
        shares: 1000,
        balloon_max: 3,
        tau: None,
    },
    fill: 150,
    between: 100,
    ..PAIR
};

/// The sizes of pages: of fewer than 256 bytes, of so many or more, and from 384 on.
const PAGES: [u32; 9] = [16, 384, 32, 400, 240, 256, 272, 512, 16];

fn kind_of(number: u32) -> Shape {
    match number % 256 {
        31 => LARGE,
        63 => MANY,
        95 if number == 95 => HUGE,
        at => match at % 16 {
            0..=4 => PAIR,
            5..=9 => PROMISED,
            10 | 11 => LOOSE,
            12 => WIDE,
            13 | 14 => BRANCHED,
            _ => FEW_NODES,
        },
    }
}

/// The shape of a path, by the path's number.
pub fn shape_of(number: u32) -> Shape {
    let kind = kind_of(number);
    let page = PAGES[number as usize % 9];
    Shape {
        site: Config { page, ..kind.site },
        ..kind
    }
}
