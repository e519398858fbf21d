//! A file for each crate that is run here, and the table that two of them show.

mod reading;
mod replies;
mod scenario;
mod session;
mod table;
mod words;
