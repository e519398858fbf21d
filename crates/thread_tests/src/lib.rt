//! What is run in threads: the lock, the desk and the workers.
#![tactic(auto)]

#[cfg(test)]
mod tests;
