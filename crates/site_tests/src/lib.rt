//! What is run of the tables of a site, the plain program, the machine with its records, and the console.
#![tactic(auto)]

#[cfg(test)]
mod tests;
