//! How a worker ended.

/// Why a worker made no more calls: it has made all that it had to make; or it had no turns left, nothing to
/// draw from, or a gate that gave up; or the cursor has jumped since its first reply.
#[derive(Clone, Copy, Debug, PartialEq, Eq)]
pub enum How {
    Done,
    Turns,
    Rewound,
}

/// How a worker ended, and how many refusals it passed over on the way.
#[derive(Clone, Copy, Debug, PartialEq, Eq)]
pub struct End {
    pub how: How,
    pub passed: u32,
}
