//! What is run of the texts.
#![tactic(auto)]

#[cfg(test)]
mod tests;
