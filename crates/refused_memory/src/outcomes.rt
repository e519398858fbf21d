//! What a row, a text or a desk came to.

use esx_check::Checked;
use esx_reading::TextFault;
use esx_scenario::Scenario;
use std::fmt;

#[derive(Drop)]
pub enum Outcome {
    /// All answers are right.
    Right,
    /// Memory ran out after so many steps, which are right.
    OutOfMemory(usize),
    /// Something is not right.
    Otherwise,
    /// A session's calls were made again, of which it has so many.
    Checked(Checked, usize),
    /// A console has so many calls of a session, of which it has so many.
    Migrated(usize, usize),
    Scenario(Scenario),
    Fault(TextFault),
}

impl fmt::Display for Outcome {
    fn fmt<W: fmt::Write>(&self, f: &mut fmt::Formatter<W>) -> fmt::Result {
        match self {
            Outcome::Right => write!(f, "right"),
            Outcome::OutOfMemory(steps) => write!(f, "no memory after {steps}"),
            Outcome::Otherwise => write!(f, "otherwise"),
            Outcome::Checked(Checked::Same(count), calls) => write!(f, "same {count} of {calls}"),
            Outcome::Checked(Checked::Differs(call), calls) => {
                write!(f, "differs {call} of {calls}")
            }
            Outcome::Migrated(count, calls) => write!(f, "migrated {count} of {calls}"),
            Outcome::Scenario(scenario) => write!(f, "{scenario:?}"),
            Outcome::Fault(fault) => write!(f, "{fault}"),
        }
    }
}
