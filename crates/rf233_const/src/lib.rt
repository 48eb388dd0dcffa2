// The AT86RF233's registers, bus commands, statuses, transceiver commands, interrupt flags and constants,
// under the names of the Rust's rf233_const.rs. Nothing here refuses anything.
#![tactic(auto)]

pub mod command;
pub mod flags;
pub mod interrupt;
pub mod register;
pub mod settings;
pub mod status;
pub mod trx_state;
