//! What is said to a machine and its console: all events with their answers and refusals, all calls with
//! their replies, and the lines of a log. A few bytes stand in place, and the rare large parts on the heap:
//! a line of a log takes 104 bytes.
#![tactic(auto)]

pub mod boxed;
pub mod call;
pub mod event;
pub mod events;
pub mod limits;
pub mod name;

pub use boxed::Boxed;
pub use call::{
    Activity, Call, Help, Line, NameRow, PageState, Reply, Said, Sides, Stand, Sum, TableRow,
};
pub use event::{Answer, Event, Refusal, Reserves, Scanned};
pub use events::Events;
pub use limits::has_call;
pub use name::Name;
