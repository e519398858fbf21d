//! What is run of the explanations of lines.
#![tactic(auto)]

#[cfg(test)]
mod tests;
