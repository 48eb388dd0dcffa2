// Events of a driver as bytes, for programs that run whole scenarios.
#![tactic(auto)]

pub mod event;
pub mod events;
