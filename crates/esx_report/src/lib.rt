//! The lines of reports as text: numbers, ratios and words in fields, and the rows and sentences made of them.
//! It knows of no machine and no walk: it takes what is to be told.
#![tactic(auto)]

mod back;
mod changes;
mod column;
mod csv_tables;
mod field;
mod grounds;
mod guests;
mod happened;
pub mod laws;
mod loss_table;
mod losses;
mod order;
mod part;
mod report;
mod row;
mod site;
mod site_csv;
mod site_text;
mod steps;
mod tables;
mod told;
mod values;
mod why;
mod words;

pub use changes::{ChangeLine, put_change, put_change_head, put_changes};
pub use column::{Cell, Column};
pub use csv_tables::{put_guests, put_losses};
pub use field::Field;
pub use guests::{put_guest, put_guest_head, put_guest_heading, put_guest_line};
pub use loss_table::{put_loss_heading, put_loss_line};
pub use losses::{LossLine, put_loss, put_loss_head};
pub use part::{Part, put_parts};
pub use report::put_report;
pub use row::put_row;
pub use site::{
    Opened, PathSums, put_first_level, put_free, put_guests_note, put_guests_title, put_level,
    put_level_losses, put_level_losses_heading, put_losses_heading, put_opened, put_pages,
    put_path, put_report_end, put_report_head, put_saved, put_site_heading, put_slots,
};
pub use site_csv::put_site;
pub use steps::{StepRow, put_step, put_step_head, put_steps};
pub use told::{LossesByLevel, Told};
pub use values::{
    put_end_values, put_entered_value, put_events_value, put_extreme_values, put_path_values,
    put_refused_value, put_site_head,
};
pub use why::{Why, put_why, put_why_head, put_whys};
