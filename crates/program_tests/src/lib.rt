//! What is run of the program.
#![tactic(auto)]

#[cfg(test)]
mod tests;
