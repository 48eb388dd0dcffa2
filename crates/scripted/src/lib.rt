// A line of a script as a call of the driver: what is made of it, what the book is fed, and which event is recorded. All three are held to
// one definition of what the line asks for.
#![tactic(auto)]

pub mod call;
pub mod feeding;
mod named;
pub mod recording;
