//! A plan.

use esx_events::Answer;
use esx_tables::Record;

/// What an event answers, and the changes that make it.
#[derive(Drop)]
pub struct Plan {
    pub answer: Answer,
    pub changes: Record,
}
