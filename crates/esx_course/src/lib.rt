//! The course of a path: a machine that makes its events and tells how each page passed from where it was to where it is.
#![tactic(auto)]

pub mod course;
mod looking;

pub use course::Course;
