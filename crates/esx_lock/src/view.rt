//! What a pass knows. Clauses name these types; no value of them is made.

use esx_events::Line;
use esx_types::{Config, Ids};
use std::collections::LinkedList;

/// Does a pass hold the lock? It is `Moving` inside `take` and `give` alone, while the slot of the value is
/// out with it.
pub enum Hold {
    Free,
    Moving,
    Held,
}

/// What another pass had seen, until it is compared with what this one has.
pub struct Note {
    pub ids: Ids,
    pub seen: LinkedList<Line>,
}

/// What a pass knows, and whether it holds the lock. Site and number of callers are the lock's, and never
/// change.
pub struct View {
    pub site: Config,
    /// How many callers the lock has: each caller's number is below this.
    pub callers: usize,
    /// The callers that the pass speaks for.
    pub ids: Ids,
    /// The log as far as the pass has seen it.
    pub seen: LinkedList<Line>,
    /// The word that was read last.
    pub last: u64,
    /// Did an exchange read that word, one that took the lock or one that failed? Otherwise a load did.
    pub by_exchange: bool,
    pub hold: Hold,
    pub note: Note,
}
