// The script of calls that `replay` reads, and the lines that it writes: one line read into a call, and what a call yields as values that
// print themselves.
#![tactic(auto)]

mod arguments;
pub mod line;
pub mod parse;
pub mod report;
pub mod words;
