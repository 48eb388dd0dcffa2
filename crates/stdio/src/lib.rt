// What the programs do with their arguments, their standard input and their standard output.
#![tactic(auto)]

pub mod arguments;
pub mod streams;
#[cfg(test)]
mod tests;
