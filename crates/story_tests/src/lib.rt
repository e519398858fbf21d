//! What is run of a walk along a path, and of the lines of reports.
#![tactic(auto)]

#[cfg(test)]
mod tests;
