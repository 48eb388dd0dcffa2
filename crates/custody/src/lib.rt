// The book of custody over the driver's calls, and the claim about whole lists of calls.
#![tactic(auto)]

pub mod book;
pub mod numbered;
pub mod taken;
